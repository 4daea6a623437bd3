ghost use Rattle.std.specs.Prelude.{◌≡◌, ◌+◌, ◌≤◌, length};

use mesh_gen::Mesh;
use order_tracker::Tracker;
use std::test::Fail;

/// Passes over the request that comes next, where its number is small, and returns it.
pub(crate) fn pass(tracker: &mut Tracker) -> Option<(u8, u32)>
    ensures tiles { tracker.new.tiles ≡ tracker.old.tiles }
    ensures room { tracker.new.room ≡ tracker.old.room }
    ensures windows { length tracker.new.windows ≤ length tracker.old.windows }
    ensures pushed { tracker.new.number + length tracker.new.windows
        ≡ tracker.old.number + length tracker.old.windows }
{
    let entry = tracker.expected()?;
    if entry.1 < 1000 {
        tracker.advance();
    }
    Some(entry)
}

#[test]
fn the_first_turn_moves_on_with_each_window(rt: HostRuntime) -> Result<(), Fail> {
    let alloc = rt.alloc();
    let mesh = Mesh::of_size(alloc, 2, 2, 2)?;
    let mut tracker = Tracker::open(alloc, &mesh)?;
    assert_eq!(rt; tracker.expected(), None);
    tracker.push(0b1000);
    tracker.push(0b1011);
    assert_eq!(rt; pass(&mut tracker), Some((3, 0)));
    assert_eq!(rt; pass(&mut tracker), Some((1, 0)));
    assert_eq!(rt; pass(&mut tracker), Some((3, 1)));
    assert_eq!(rt; pass(&mut tracker), Some((0, 0)));
    assert_eq!(rt; pass(&mut tracker), None);
    Ok(())
}

#[test]
fn window_63_of_64_tiles_begins_with_the_last_tile(rt: HostRuntime) -> Result<(), Fail> {
    let alloc = rt.alloc();
    let mesh = Mesh::of_size(alloc, 8, 8, 14)?;
    let mut tracker = Tracker::open(alloc, &mesh)?;
    for _ in 0..63u8 {
        tracker.push(1);
        pass(&mut tracker);
    }
    tracker.push(u64::MAX);
    assert_eq!(rt; tracker.expected(), Some((63, 0)));
    pass(&mut tracker);
    assert_eq!(rt; tracker.expected(), Some((0, 63)));
    Ok(())
}
