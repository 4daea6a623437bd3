//! The trackers of all tiles.
ghost use Rattle.std.specs.Prelude.{◌≡◌, ◌*◌, ◌+◌, ◌<◌, IfOk, Some, length, slice_get, slice_set, option_and_then};
ghost use Rattle.mesh_gen.specs.Grid.{tiles};
ghost use Rattle.mesh_gen.specs.Mesh.{grid};
ghost use Rattle.order_tracker.specs.Tracker.{TrackerState, next_request_of};
ghost use Rattle.net_iface.specs.Trackers.{AreUnused, MayTakeIn, with_window, MayPass, PassesAt};

use crate::follower::Follower;
use mesh_gen::{Mesh, NoMemory};
use std::alloc::Global;

// A tracker for each tile of a mesh, before any window.
pub(crate) fn new_trackers(alloc: Global, mesh: &Mesh) -> Result<Vec<Follower>, NoMemory>
    ensures { IfOk result (λ trackers. AreUnused (tiles (grid mesh.now))
        (tiles (grid mesh.now) * (5 * mesh.now.vcs + 4)) trackers.items) }
{
    let tiles = mesh.tiles();
    let mut trackers = Vec::with_capacity(alloc, usize::from(tiles))?;
    for _ in 0..tiles {
        trackers.push(Follower::open(alloc, mesh)?)?;
    }
    Ok(trackers)
}

// The request that comes next to a tile: its source and its number. None comes to what is no tile.
pub(crate) fn expected_by(trackers: &[Follower], t: u8) -> Option<(u8, u32)>
    ensures { result ≡ option_and_then next_request_of (slice_get trackers.now t) }
{
    match trackers.get(usize::from(t)) {
        Some(tracker) => tracker.expected(),
        None => None,
    }
}

// A tile's tracker takes in the vector of its next window.
pub(crate) fn take_in(trackers: &mut Vec<Follower>, t: u8, vector: u64)
    requires { (tracker : TrackerState) → slice_get trackers.old.items t ≡ Some tracker
        → MayTakeIn vector tracker }
    ensures { (tracker : TrackerState) → slice_get trackers.old.items t ≡ Some tracker
        → trackers.new.items ≡ slice_set trackers.old.items t (with_window tracker vector) }
{
    if let Some(tracker) = trackers.get_mut(usize::from(t)) {
        tracker.push(vector);
    }
}

// A tile's tracker passes over the request that comes next.
pub(crate) fn pass_over(trackers: &mut Vec<Follower>, t: u8)
    requires { (tracker : TrackerState) → slice_get trackers.old.items t ≡ Some tracker
        → MayPass tracker }
    ensures { PassesAt t trackers.old.items trackers.new.items }
{
    if let Some(tracker) = trackers.get_mut(usize::from(t)) {
        tracker.advance();
    }
}
