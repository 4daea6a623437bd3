ghost use Rattle.std.specs.Prelude.{◌≡◌, ◌≢◌, ◌+◌, ◌-◌, ◌≤◌, ◌⊎◌, ◌↔◌, [], ◌++◌, Some, length, take, min, IfOk, OnErr, IsErr, Contains};
ghost use Rattle.outside_io.specs.Streams.{Rose, Appends};
ghost use Rattle.outside_io.specs.Memory.{passed, failed};

use crate::calls::Calls;
use crate::{Failed, Sink};
use std::marker::Model;

/// A sink in memory, with room for a number of bytes, some of whose calls fail as it was told.
#[derive(Drop)]
pub struct MemSink {
    room: Vec<u8>,
    len: usize,
    calls: Calls,
}

impl Model for MemSink {
    ghost use Rattle.std.specs.Prelude.{◌≤◌, take, length};
    ghost use Rattle.outside_io.specs.Memory.{MemoryOutput};

    ghost Value = { MemoryOutput };

    ghost view = { λ s. record {
      held = take s.len s.room.items;
      room = length s.room.items;
      calls = s.calls;
    } };

    ghost invariant = { λ s. s.len ≤ length s.room.items };
}

impl MemSink {
    /// Holds nothing at first, and at most as many bytes as `room` has, which are written over from the front.
    /// Exactly the calls whose numbers, from 0, stand in `fails` fail, and those that find no room for their piece.
    pub fn new(room: Vec<u8>, fails: Vec<u32>) -> MemSink
        ensures { result ≡ record {
          held = [];
          room = length room.items;
          calls = record { fails = fails.items; number = 0; faults = 0 };
        } }
    {
        MemSink {
            room,
            len: 0,
            calls: Calls::new(fails),
        }
    }

    /// The bytes written so far.
    pub fn held(&self) -> &[u8]
        ensures { result.now ≡ self.now.held }
    {
        &self.room[..self.len]
    }
}

// Writes the front of the piece over the room from `len` on, as far as both go, and answers how many bytes that are.
fn copy_rest(room: &mut [u8], len: usize, piece: &[u8]) -> usize
    requires { len ≤ length room.old }
    ensures count { result ≡ min (length piece.now) (length room.old - len) }
    ensures held { take (len + result) room.new ≡ take len room.old ++ take result piece.now }
{
    let count = piece.len().min(room.len() - len);
    room[len..len + count].copy_from_slice(&piece[..count]);
    count
}

impl Sink for MemSink {
    ghost held = { λ s. Some s.held };

    ghost faults = { λ s. s.calls.faults };

    fn write(&mut self, piece: &[u8]) -> Result<usize, Failed>
        ensures fails { IsErr result ↔ (Contains self.old.calls.fails self.old.calls.number
            ⊎ ((length self.old.held ≡ self.old.room) × (piece.now ≢ []))) }
        ensures given { IfOk result (λ n.
            n ≡ min (length piece.now) (self.old.room - length self.old.held)) }
        ensures ok { IfOk result (λ n. self.new
            ≡ record self.old {
              held = self.old.held ++ take n piece.now;
              calls = passed self.old.calls;
            }) }
        ensures failed { OnErr result (self.new
            ≡ record self.old { calls = failed self.old.calls }) }

        // What every sink keeps to.
        ensures within { IfOk result (λ n. n ≤ length piece.now) }
        ensures appended { IfOk result (λ n.
            Appends (Some self.old.held) (Some self.new.held) (take n piece.now)) }
        ensures some { result ≡ Ok 0 → piece.now ≡ [] }
        ensures fault { OnErr result (Rose self.old.calls.faults self.new.calls.faults) }
        ensures err { OnErr result (Some self.new.held ≡ Some self.old.held) }
        ensures count { self.old.calls.faults ≤ self.new.calls.faults }
    {
        let is_full = self.len == self.room.len() && !piece.is_empty();
        if is_full || self.calls.is_next_failing() {
            self.calls.fail();
            return Err(Failed);
        }
        self.calls.pass();
        let count = copy_rest(&mut self.room, self.len, piece);
        self.len += count;
        Ok(count)
    }
}
