ghost use Rattle.outside_io.specs.Streams.{stream, Writes};

use crate::Sink;

/// A sink failed before it had taken all of a piece.
#[derive(Clone, Copy, Debug, PartialEq, Eq)]
pub struct WriteFault;

/// Appends the whole piece, in as many writes as the sink needs. It takes no memory.
pub fn write_piece<K: Sink>(sink: &mut K, piece: &[u8]) -> Result<(), WriteFault>
    ensures { Writes (stream K.held K.faults sink.old sink.new) piece.now result }
{
    let mut rest = piece;
    while !rest.is_empty() {
        let Ok(count) = sink.write(rest) else {
            return Err(WriteFault);
        };
        rest = rest.split_at(count).1;
    }
    Ok(())
}
