ghost use Rattle.std.specs.Prelude.{◌≡◌, ◌<◌, ◌+◌, ◌-◌, length, slice_index, slice_get, Some, None, is_some, option_and_then, IfOk, OnOk, OnErr};
ghost use Rattle.std.specs.Bool.{OnTrue};
ghost use Rattle.mesh_gen.specs.Grid.{tiles};
ghost use Rattle.mesh_gen.specs.Mesh.{grid};
ghost use Rattle.order_tracker.specs.Tracker.{IsWindow};
ghost use Rattle.chip_model.specs.Windows.{after_post, after_tick, closed_by_tick, window_closed, next_vector, after_take};
ghost use Rattle.window_core.specs.Windows.{opening_state, SameSizes, AreSound};

use crate::tile_set::lacks;
use mesh_gen::{Mesh, NoMemory, NotEnabled, NotReady, with_tile};
use notify_net::Latches;
use std::alloc::Global;
use std::marker::Model;

/// The windows of a mesh's notification network, and how many of the closed ones each tile has taken.
#[derive(Drop)]
pub struct Windows {
    latches: Latches,
    ticks: u8,
    phase: u8,
    posts: u64,
    // Its room is reserved, so that no tick needs memory.
    closed: Vec<u64>,
    taken: Vec<u64>,
    room: u64,
}

impl Model for Windows {
    ghost use Rattle.std.specs.Prelude.{◌≤◌};
    ghost use Rattle.std.specs.Vec.{vec_capacity};
    ghost use Rattle.window_core.specs.Windows.{WindowsState, state_of, IsKept};

    ghost Value = { WindowsState };

    ghost view = { λ s. state_of s.latches s.ticks (record { phase = s.phase; posts = s.posts; closed = s.closed.items; taken = s.taken.items }) s.room };

    ghost invariant = { λ s. IsKept s.latches s.ticks (record { phase = s.phase; posts = s.posts; closed = s.closed.items; taken = s.taken.items }) s.room
        × (s.room ≤ vec_capacity s.closed) };
}

impl Windows {
    /// Windows before any tick, with room for so many closed ones.
    pub fn open(alloc: Global, mesh: &Mesh, room: u64) -> Result<Windows, NoMemory>
        ensures { IfOk result (λ windows. windows
            ≡ opening_state (grid mesh.now) mesh.now.window room) }
    {
        let tiles = usize::from(mesh.tiles());
        Ok(Windows {
            latches: Latches::open(alloc, mesh)?,
            ticks: mesh.window,
            phase: 0,
            posts: 0,
            closed: Vec::with_capacity(alloc, room as usize)?,
            taken: vec![in alloc; 0; tiles]?,
            room,
        })
    }

    /// How many ticks of the open window have passed.
    pub fn phase(&self) -> u8
        ensures phase { result ≡ self.now.windows.phase }
        // What is true of all windows at any moment.
        ensures sound { AreSound self.now }
    {
        self.phase
    }

    /// The vectors of the closed windows.
    pub fn closed(&self) -> &[u64]
        ensures { result.now ≡ self.now.windows.closed }
    {
        &self.closed
    }

    /// How many of the closed windows the tile has taken.
    pub fn taken(&self, t: u8) -> u64
        requires { t < tiles self.now.grid }
        ensures { result ≡ slice_index self.now.windows.taken t }
    {
        self.taken[usize::from(t)]
    }

    /// How many more windows may close.
    pub fn spare(&self) -> u64
        ensures { result ≡ self.now.room - length self.now.windows.closed }
    {
        self.room - self.closed.len() as u64
    }

    /// Whether the tile may post now.
    pub fn can_post(&self, t: u8) -> bool
        ensures posts { result ≡ is_some (after_post self.now.windows t) }
        ensures tile { OnTrue result (t < tiles self.now.grid) }
    {
        self.phase == 0 && lacks(self.posts, self.taken.len(), t)
    }

    /// The tile posts in the open window. This is refused once the window has ticked, and to a tile that posted in it.
    pub fn post(&mut self, t: u8) -> Result<(), NotEnabled>
        ensures ok { OnOk result (after_post self.old.windows t ≡ Some self.new.windows) }
        ensures err { OnErr result (after_post self.old.windows t ≡ None) }
        ensures kept { OnErr result (self.new ≡ self.old) }
        ensures sizes { SameSizes self.old self.new }
    {
        if !self.can_post(t) {
            return Err(NotEnabled);
        }
        self.latches.post(t);
        self.posts = with_tile(self.posts, t);
        Ok(())
    }

    /// Whether a tick may pass now.
    pub fn can_tick(&self) -> bool
        ensures { result ≡ is_some (after_tick self.now.ticks self.now.windows) }
    {
        self.posts != 0
    }

    /// A tick passes, and the latches merge one hop further. The last tick of a window closes it and answers its merged
    /// vector. A window in which no tile posted does not tick.
    pub fn tick(&mut self) -> Result<Option<u64>, NotEnabled>
        requires { length self.old.windows.closed < self.old.room }
        ensures ok { OnOk result (after_tick self.old.ticks self.old.windows
            ≡ Some self.new.windows) }
        ensures vector { IfOk result (λ vector. vector
            ≡ closed_by_tick self.old.ticks self.old.windows) }
        ensures err { OnErr result (after_tick self.old.ticks self.old.windows ≡ None) }
        ensures kept { OnErr result (self.new ≡ self.old) }
        ensures sizes { SameSizes self.old self.new }
    {
        if !self.can_tick() {
            return Err(NotEnabled);
        }
        if self.phase + 1 < self.ticks {
            self.merge();
            Ok(None)
        } else {
            Ok(Some(self.close()))
        }
    }

    // A tick passes that does not end the window.
    fn merge(&mut self)
        requires posted { 0 < self.old.windows.posts }
        requires more { self.old.windows.phase + 1 < self.old.ticks }
        ensures phase { self.new ≡ record self.old { windows = record self.old.windows { phase = self.old.windows.phase + 1 } } }
    {
        self.latches.tick();
        self.phase += 1;
    }

    // The last tick passes: now each latch holds all who posted.
    fn close(&mut self) -> u64
        requires posted { 0 < self.old.windows.posts }
        requires last { self.old.windows.phase + 1 ≡ self.old.ticks }
        requires room { length self.old.windows.closed < self.old.room }
        ensures vector { result ≡ self.old.windows.posts }
        ensures closed { self.new ≡ record self.old { windows = window_closed self.old.windows } }
    {
        self.latches.tick();
        let vector = self.latches.merged_at(0);
        self.latches.clear();
        self.phase = 0;
        self.posts = 0;
        self.closed.push_reserved(vector);
        vector
    }

    /// Whether the tile has a closed window to take.
    pub fn can_take(&self, t: u8) -> bool
        ensures { result ≡ is_some (after_take self.now.windows t) }
    {
        next_of(&self.closed, &self.taken, t).is_some()
    }

    /// The tile takes the vector of the next closed window. This is refused where it has taken all of them.
    pub fn take(&mut self, t: u8) -> Result<u64, NotReady>
        ensures ok { OnOk result (after_take self.old.windows t ≡ Some self.new.windows) }
        ensures vector { IfOk result (λ vector. next_vector self.old.windows t ≡ Some vector) }
        ensures tiles { IfOk result (IsWindow (tiles self.old.grid)) }
        ensures err { OnErr result (after_take self.old.windows t ≡ None) }
        ensures kept { OnErr result (self.new ≡ self.old) }
        ensures sizes { SameSizes self.old self.new }
    {
        let Some(vector) = next_of(&self.closed, &self.taken, t) else {
            return Err(NotReady);
        };
        self.taken[usize::from(t)] += 1;
        Ok(vector)
    }
}

// The next vector that the tile has not taken.
fn next_of(closed: &[u64], taken: &[u64], t: u8) -> Option<u64>
    ensures { result ≡ option_and_then (slice_get closed.now) (slice_get taken.now t) }
{
    let count = *taken.get(usize::from(t))?;
    closed.get(count as usize).copied()
}
