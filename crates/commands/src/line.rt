ghost use Rattle.outside_io.specs.Streams.{stream, Writes};
ghost use Rattle.commands.specs.Entries.{entry_text};

use outside_io::{Sink, WriteFault, write_piece};

// A space and three digits.
const ENTRY: usize = 4;

/// Writes a number as one piece, after a space where the line has begun.
pub(crate) fn write_number<K: Sink>(sink: &mut K, number: u8, begun: bool) -> Result<(), WriteFault>
    ensures { Writes (stream K.held K.faults sink.old sink.new) (entry_text begun number) result }
{
    let mut piece = [b' '; ENTRY];
    let digits = itoa::write_digits(u64::from(number), &mut piece, ENTRY);
    let start = if begun { digits - 1 } else { digits };
    write_piece(sink, piece.split_at(start).1)
}
