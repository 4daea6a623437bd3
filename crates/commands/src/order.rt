ghost use Rattle.std.specs.Prelude.{◌≡◌, ◌<◌, ◌≤◌, ◌+◌, ◌^◌, ℕ, [], length, map, IfOk, slice_index};
ghost use Rattle.std.specs.List.{AllByRecursion};
ghost use Rattle.mesh_gen.specs.Grid.{tiles, diameter};
ghost use Rattle.mesh_gen.specs.Limits.{AreTiles, most_tiles};
ghost use Rattle.mesh_gen.specs.TileSet.{set_of};
ghost use Rattle.order_tracker.specs.Order.{order_from};
ghost use Rattle.order_tracker.specs.Tracker.{left_of};
ghost use Rattle.outside_io.specs.Streams.{stream, Writes};
ghost use Rattle.doc_text.specs.Doc.{doc_of};
ghost use Rattle.commands.specs.Entries.{entries_text, has_begun, UsesUp};
ghost use Rattle.commands.specs.Line.{numbers_line, order_text};
ghost use Rattle.commands.specs.Outcome.{Wrote};

use crate::Stop;
use crate::line::write_number;
use mesh_doc::Document;
use mesh_gen::Tiles;
use notify_net::Latches;
use order_tracker::Tracker;
use outside_io::{Sink, WriteFault, write_piece};
use std::alloc::Global;

/// Merges the posts of each window by latches, and writes the order that follows, each window's entries once that window
/// is merged.
pub(crate) fn write_order<K: Sink>(
    alloc: Global,
    document: &Document,
    sink: &mut K,
) -> Result<(), Stop>
    ensures { Wrote (stream K.held K.faults sink.old sink.new)
        (order_text (doc_of document.now)) result }
{
    let mut latches = Latches::open(alloc, &document.mesh)?;
    let mut tracker = Tracker::open(alloc, &document.mesh)?;
    let ticks = document.mesh.window;
    write_line(sink, &mut latches, &mut tracker, ticks, document.windows())?;
    Ok(())
}

// Window after window, and then the line's end.
fn write_line<K: Sink>(
    sink: &mut K,
    latches: &mut Latches,
    tracker: &mut Tracker,
    ticks: u8,
    posts: &[Tiles],
) -> Result<(), WriteFault>
    requires grid { (tiles latches.old.grid ≡ tracker.old.tiles)
        × (tracker.old.tiles ≤ most_tiles) }
    requires ticks { diameter latches.old.grid ≤ ticks }
    requires new { (tracker.old.windows ≡ []) × (tracker.old.number ≡ 0)
        × ((t : ℕ) → slice_index tracker.old.used t ≡ 0) × (0 < tracker.old.room) }
    requires posts { AllByRecursion (AreTiles tracker.old.tiles) posts.now }
    requires count { length posts.now ≤ 4096 }
    ensures { Writes (stream K.held K.faults sink.old sink.new)
        (numbers_line (order_from tracker.old.tiles 0 (map set_of posts.now))) result }
{
    let mut begun = false;
    for window in posts {
        tracker.push(merge(latches, ticks, window.as_slice()));
        begun = write_entries(sink, tracker, begun)?;
    }
    write_piece(sink, b"\n")
}

// The entries of the tracker's windows, all of which are then used up. It returns whether the line has begun.
fn write_entries<K: Sink>(
    sink: &mut K,
    tracker: &mut Tracker,
    begun: bool,
) -> Result<bool, WriteFault>
    requires { (t : ℕ) → slice_index tracker.old.used t + length (left_of tracker.old) < 2 ^ 31 }
    ensures written { Writes (stream K.held K.faults sink.old sink.new)
        (entries_text begun (left_of tracker.old)) result }
    ensures begun { IfOk result (λ after. after ≡ has_begun begun (left_of tracker.old)) }
    ensures used_up { IfOk result (λ _. UsesUp tracker.old tracker.new) }
{
    let mut begun = begun;
    while let Some((source, _)) = tracker.expected() {
        write_number(sink, source, begun)?;
        tracker.advance();
        begun = true;
    }
    Ok(begun)
}

// The merged vector of a window in which these tiles post.
fn merge(latches: &mut Latches, ticks: u8, posts: &[u8]) -> u64
    requires posts { AreTiles (tiles latches.old.grid) posts.now }
    requires ticks { diameter latches.old.grid ≤ ticks }
    ensures merged { result ≡ set_of posts.now }
    ensures grid { latches.new.grid ≡ latches.old.grid }
{
    latches.clear();
    for &tile in posts {
        latches.post(tile);
    }
    for _ in 0..ticks {
        latches.tick();
    }
    latches.merged_at(0)
}
