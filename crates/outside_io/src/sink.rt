ghost use Rattle.std.specs.Prelude.{◌≡◌, ◌≤◌, ℕ, List, [], Option, length, take, IfOk, OnErr};
ghost use Rattle.outside_io.specs.Streams.{Rose, Appends};

use crate::Failed;

/// Where bytes go, a part at each write.
pub trait Sink {
    /// The bytes that it holds, where the sink tells them.
    ghost held: { Self → Option (List ℕ) };

    /// How many calls failed. It stays at the last value of a `u64`.
    ghost faults: { Self → ℕ };

    /// Appends the front of the piece, and answers how many bytes that were: at least one, unless the piece is empty.
    /// A failed call appends nothing.
    fn write(&mut self, piece: &[u8]) -> Result<usize, Failed>
        ensures within { IfOk result (λ n. n ≤ length piece.now) }
        ensures appended { IfOk result (λ n.
            Appends (held self.old) (held self.new) (take n piece.now)) }
        ensures some { result ≡ Ok 0 → piece.now ≡ [] }
        ensures fault { OnErr result (Rose (faults self.old) (faults self.new)) }
        ensures err { OnErr result (held self.new ≡ held self.old) }
        ensures count { faults self.old ≤ faults self.new };
}
