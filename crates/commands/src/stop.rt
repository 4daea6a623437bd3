ghost use Rattle.std.specs.Prelude.{◌≡◌};
ghost use Rattle.commands.specs.Stops.{read_stop, doc_stop};
ghost use Rattle.commands.specs.declared.stop.Stop.TheVariants.{NoMemory as OutOfMemory, WriteFault as WriteFailed};

use mesh_doc::{DocEnd, DocFault};
use outside_io::{ReadEnd, WriteFault};
use std::alloc::AllocFailed;

/// Why a command ended before its whole text was written.
#[derive(Debug, Drop)]
pub enum Stop {
    /// The arguments are none of the forms.
    Usage,
    /// The document has this fault.
    Document(DocFault),
    ReadFault,
    WriteFault,
    NoMemory,
    /// The input is longer than its limit.
    TooLong,
}

impl From<mesh_gen::NoMemory> for Stop {
    ghost from_gives = { λ _ stop. stop ≡ OutOfMemory };

    fn from(_: mesh_gen::NoMemory) -> Stop {
        Stop::NoMemory
    }
}

impl<T: Drop> From<AllocFailed<T>> for Stop {
    ghost from_gives = { λ _ stop. stop ≡ OutOfMemory };

    fn from(_: AllocFailed<T>) -> Stop {
        Stop::NoMemory
    }
}

impl From<WriteFault> for Stop {
    ghost from_gives = { λ _ stop. stop ≡ WriteFailed };

    fn from(_: WriteFault) -> Stop {
        Stop::WriteFault
    }
}

impl From<ReadEnd> for Stop {
    ghost from_gives = { λ end stop. stop ≡ read_stop end };

    fn from(end: ReadEnd) -> Stop {
        match end {
            ReadEnd::ReadFault => Stop::ReadFault,
            ReadEnd::TooLong => Stop::TooLong,
            ReadEnd::NoMemory => Stop::NoMemory,
        }
    }
}

impl From<DocEnd> for Stop {
    ghost from_gives = { λ end stop. stop ≡ doc_stop end };

    fn from(end: DocEnd) -> Stop {
        match end {
            DocEnd::Fault(fault) => Stop::Document(fault),
            DocEnd::NoMemory => Stop::NoMemory,
        }
    }
}
