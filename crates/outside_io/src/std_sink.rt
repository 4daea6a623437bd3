ghost use Rattle.std.specs.Prelude.{◌≡◌, ◌≤◌, None, [], length, take, IfOk, OnErr};
ghost use Rattle.std.specs.Io.KnownBytes.{Appends as WriterAppends};
ghost use Rattle.outside_io.specs.Streams.{Rose};

use crate::{Failed, Sink};
use std::io::Write;
use std::marker::Model;

/// A writer of std as a sink: the trusted edge. It tells no content. Contracts see how many of its calls failed.
#[derive(Drop)]
pub struct StdSink<W: Write + Drop> {
    writer: W,
    faults: u64,
}

impl<W: Write + Drop> Model for StdSink<W> {
    ghost use Rattle.outside_io.specs.Adapted.{Adapted};

    ghost Value = { Adapted W };

    ghost view = { λ s. record { inner = s.writer; faults = s.faults } };
}

impl<W: Write + Drop> StdSink<W> {
    pub fn new(writer: W) -> StdSink<W>
        ensures { result ≡ record { inner = writer; faults = 0 } }
    {
        StdSink { writer, faults: 0 }
    }
}

impl<W: Write + Drop> Sink for StdSink<W> {
    ghost held = { λ _. None };

    ghost faults = { λ s. s.faults };

    // A writer that takes nothing of a piece has failed: tried again, it might never end.
    fn write(&mut self, piece: &[u8]) -> Result<usize, Failed>
        // What the writer appends, where it tells that.
        ensures given { IfOk result (λ n. WriterAppends
            (W.contents self.old.inner) (W.contents self.new.inner) (take n piece.now)) }

        // What every sink keeps to.
        ensures within { IfOk result (λ n. n ≤ length piece.now) }
        ensures some { result ≡ Ok 0 → piece.now ≡ [] }
        ensures fault { OnErr result (Rose self.old.faults self.new.faults) }
        ensures count { self.old.faults ≤ self.new.faults }
    {
        match self.writer.write(piece) {
            Ok(count) if count > 0 || piece.is_empty() => Ok(count),
            _ => {
                self.faults = self.faults.saturating_add(1);
                Err(Failed)
            }
        }
    }
}
