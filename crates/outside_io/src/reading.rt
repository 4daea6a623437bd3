ghost use Rattle.std.specs.Prelude.{◌≡◌, ◌+◌, ◌<◌, ◌≤◌, [], ◌++◌, Some, option_map, length, drop, IfOk, IfSome, IsErrOf};
ghost use Rattle.outside_io.specs.Streams.{Rose, TakesPrefix};
ghost use Rattle.outside_io.specs.declared.reading.ReadEnd.TheVariants.{NoMemory};

use crate::Source;
use std::alloc::{AllocError, Global};

/// Why the bytes of a source were not all read.
#[derive(Clone, Copy, Debug, PartialEq, Eq)]
pub enum ReadEnd {
    /// The source failed.
    ReadFault,
    /// It has more bytes than the limit.
    TooLong,
    NoMemory,
}

impl From<AllocError> for ReadEnd {
    ghost from_gives = { λ _ e. e ≡ NoMemory };

    fn from(_: AllocError) -> ReadEnd {
        ReadEnd::NoMemory
    }
}

// How many bytes a read asks for at most.
const CHUNK: usize = 4096;

/// Reads to the end of the input, and answers all its bytes where they are at most `limit`. It takes no more than one
/// byte past the limit.
pub fn read_all<S: Source>(alloc: Global, source: &mut S, limit: u32) -> Result<Vec<u8>, ReadEnd>
    ensures whole { IfOk result (λ bytes.
        S.left source.old ≡ option_map (λ rest. bytes.items ++ rest) (S.left source.new)) }
    ensures end { IfOk result (λ _. IfSome (S.left source.new) (λ rest. rest ≡ [])) }
    ensures limited { IfOk result (λ bytes. length bytes.items ≤ limit) }

    ensures too_long { IsErrOf result ReadEnd.TooLong → IfSome (S.left source.old) (λ input.
        (limit < length input) × (S.left source.new ≡ Some (drop (limit + 1) input))) }
    ensures fault { IsErrOf result ReadEnd.ReadFault
        → Rose (S.faults source.old) (S.faults source.new) }

    // Whatever the answer, the source has given some bytes from its front.
    ensures front { TakesPrefix (S.left source.old) (S.left source.new) }
    ensures count { S.faults source.old ≤ S.faults source.new }
{
    let most = limit as usize + 1;
    let mut bytes = Vec::new(alloc);
    let mut chunk = [0; CHUNK];
    while bytes.len() < most {
        let wanted = (most - bytes.len()).min(CHUNK);
        let Ok(count) = source.read(&mut chunk[..wanted]) else {
            return Err(ReadEnd::ReadFault);
        };
        if count == 0 {
            return Ok(bytes);
        }
        bytes.extend_from_slice(&chunk[..count])?;
    }
    Err(ReadEnd::TooLong)
}
