ghost use Rattle.std.specs.Prelude.{◌≡◌, ◌<◌, ◌≤◌, ℕ, List, [], ◌++◌, Option, option_map, length, take, IfOk, IfSome, OnErr};
ghost use Rattle.outside_io.specs.Streams.{Rose};

use crate::Failed;

/// Bytes that come from outside, a part at each read.
pub trait Source {
    /// The bytes that are left, where the source tells them.
    ghost left: { Self → Option (List ℕ) };

    /// How many calls failed. It stays at the last value of a `u64`.
    ghost faults: { Self → ℕ };

    /// Fills the front of the buffer with the next bytes, and answers how many they are. No byte for a buffer that has
    /// room is the end of the input. A failed call takes nothing.
    fn read(&mut self, into: &mut [u8]) -> Result<usize, Failed>
        ensures within { IfOk result (λ n. n ≤ length into.old) }
        ensures next { IfOk result (λ n.
            left self.old ≡ option_map (λ rest. take n into.new ++ rest) (left self.new)) }
        ensures end { result ≡ Ok 0 → 0 < length into.old
            → IfSome (left self.old) (λ bytes. bytes ≡ []) }
        ensures fault { OnErr result (Rose (faults self.old) (faults self.new)) }
        ensures err { OnErr result (left self.new ≡ left self.old) }
        ensures count { faults self.old ≤ faults self.new };
}
