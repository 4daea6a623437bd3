ghost use Rattle.std.specs.Prelude.{◌≡◌, ◌<◌, ◌*◌, ◌+◌, ◌^◌, ℕ, List, [], ◌∷◌, ◌++◌, length, IfOk, IfSome, IsSome};
ghost use Rattle.std.specs.List.{AllByRecursion};
ghost use Rattle.mesh_gen.specs.Grid.{tiles};
ghost use Rattle.mesh_gen.specs.Mesh.{grid};
ghost use Rattle.order_tracker.specs.Tracker.{IsNew, IsWindow, next_request_of, Follows};
ghost use Rattle.net_iface.specs.Trackers.{PassesOver, with_window};

use mesh_gen::{Mesh, NoMemory};
use order_tracker::Tracker;
use std::alloc::Global;
use std::marker::Model;

/// The tracker of a tile, with the request that comes next at hand: it is looked up once after each change. Contracts see
/// the tracker.
#[derive(Drop)]
pub(crate) struct Follower {
    tracker: Tracker,
    // The source and the number of the request that comes next.
    expected: Option<(u8, u32)>,
}

impl Model for Follower {
    ghost use Rattle.std.specs.Prelude.{◌≡◌};
    ghost use Rattle.order_tracker.specs.Tracker.{TrackerState, next_request_of};

    ghost Value = { TrackerState };

    ghost view = { λ follower. follower.tracker };

    ghost invariant = { λ follower. follower.expected ≡ next_request_of follower.tracker };
}

impl Follower {
    // A tracker that has seen no window.
    pub(crate) fn open(alloc: Global, mesh: &Mesh) -> Result<Follower, NoMemory>
        ensures new { IfOk result (IsNew
            (tiles (grid mesh.now)) (tiles (grid mesh.now) * (5 * mesh.now.vcs + 4))) }
        ensures follows { IfOk result (Follows [] 0) }
    {
        Ok(follow(Tracker::open(alloc, mesh)?))
    }

    // The source and the number of the request that comes next.
    pub(crate) fn expected(&self) -> Option<(u8, u32)>
        ensures { result ≡ next_request_of self.now }
    {
        self.expected
    }

    // Takes in the vector of the next window.
    pub(crate) fn push(&mut self, vector: u64)
        requires some { 0 < vector }
        requires tiles { vector < 2 ^ self.old.tiles }
        requires room { length self.old.windows < self.old.room }
        requires count { self.old.number + length self.old.windows + 1 < 2 ^ 63 }
        ensures pushed { self.new ≡ with_window self.old vector }
    {
        self.tracker.push(vector);
        self.expected = self.tracker.expected();
    }

    // Passes over the request that comes next.
    pub(crate) fn advance(&mut self)
        requires expected { IsSome (next_request_of self.old) }
        requires count { IfSome (next_request_of self.old) (λ entry. entry.1 + 1 < 2 ^ 31) }
        ensures room { (self.new.tiles ≡ self.old.tiles) × (self.new.room ≡ self.old.room) }
        ensures sets { AllByRecursion (IsWindow self.new.tiles) self.new.windows }
        ensures follows { (windows : List ℕ) (used : ℕ) → Follows windows used self.old
            → Follows windows (used + 1) self.new }
    {
        self.tracker.advance();
        self.expected = self.tracker.expected();
    }
}

// A tracker, and what comes next by it.
fn follow(tracker: Tracker) -> Follower
    ensures { result ≡ tracker }
{
    let expected = tracker.expected();
    Follower { tracker, expected }
}
