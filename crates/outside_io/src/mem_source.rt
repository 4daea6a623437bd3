ghost use Rattle.std.specs.Prelude.{◌≡◌, ◌<◌, ◌≤◌, ◌↔◌, [], ◌++◌, Some, length, take, drop, min, IfOk, OnErr, IsErr, Contains};
ghost use Rattle.outside_io.specs.Streams.{Rose};
ghost use Rattle.outside_io.specs.Memory.{passed, failed};

use crate::calls::Calls;
use crate::{Failed, Source};
use std::marker::Model;

/// A source in memory, some of whose calls fail as it was told.
#[derive(Drop)]
pub struct MemSource {
    bytes: Vec<u8>,
    taken: usize,
    chunk: u32,
    calls: Calls,
}

impl Model for MemSource {
    ghost use Rattle.std.specs.Prelude.{◌≤◌, ◌<◌, drop, length};
    ghost use Rattle.outside_io.specs.Memory.{MemoryInput};

    ghost Value = { MemoryInput };

    ghost view = { λ s. record {
      left = drop s.taken s.bytes.items;
      chunk = s.chunk;
      calls = s.calls;
    } };

    ghost invariant = { λ s. (s.taken ≤ length s.bytes.items) × (0 < s.chunk) };
}

impl MemSource {
    /// Gives these bytes, at most `chunk` at a read. Exactly the calls whose numbers, from 0, stand in `fails` fail.
    pub fn new(bytes: Vec<u8>, chunk: u32, fails: Vec<u32>) -> MemSource
        requires { 0 < chunk }
        ensures { result ≡ record {
          left = bytes.items;
          chunk = chunk;
          calls = record { fails = fails.items; number = 0; faults = 0 };
        } }
    {
        MemSource {
            bytes,
            taken: 0,
            chunk,
            calls: Calls::new(fails),
        }
    }
}

// Moves bytes from the front of one slice to the front of the other, and answers how many.
fn copy_prefix(from: &[u8], into: &mut [u8], most: usize) -> usize
    ensures count { result ≡ min (min (length from.now) (length into.old)) most }
    ensures front { take result into.new ≡ take result from.now }
{
    let count = from.len().min(into.len()).min(most);
    into[..count].copy_from_slice(&from[..count]);
    count
}

impl Source for MemSource {
    ghost left = { λ s. Some s.left };

    ghost faults = { λ s. s.calls.faults };

    fn read(&mut self, into: &mut [u8]) -> Result<usize, Failed>
        ensures fails { IsErr result ↔ Contains self.old.calls.fails self.old.calls.number }
        ensures given { IfOk result (λ n.
            n ≡ min (min (length self.old.left) (length into.old)) self.old.chunk) }
        ensures ok { IfOk result (λ n. self.new
            ≡ record self.old { left = drop n self.old.left; calls = passed self.old.calls }) }
        ensures failed { OnErr result (self.new
            ≡ record self.old { calls = failed self.old.calls }) }

        // What every source keeps to.
        ensures within { IfOk result (λ n. n ≤ length into.old) }
        ensures next { IfOk result (λ n.
            Some self.old.left ≡ Some (take n into.new ++ self.new.left)) }
        ensures end { result ≡ Ok 0 → 0 < length into.old → self.old.left ≡ [] }
        ensures fault { OnErr result (Rose self.old.calls.faults self.new.calls.faults) }
        ensures err { OnErr result (Some self.new.left ≡ Some self.old.left) }
        ensures count { self.old.calls.faults ≤ self.new.calls.faults }
    {
        if self.calls.is_next_failing() {
            self.calls.fail();
            return Err(Failed);
        }
        self.calls.pass();
        let (_, left) = self.bytes.as_slice().split_at(self.taken);
        let count = copy_prefix(left, into, self.chunk as usize);
        self.taken += count;
        Ok(count)
    }
}
