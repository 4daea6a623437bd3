ghost use Rattle.std.specs.Prelude.{◌≡◌};
ghost use Rattle.mesh_doc.specs.declared.end.DocEnd.TheVariants.{NoMemory as EndOfMemory, Fault as EndOfFault};

use doc_text::DocFault;
use mesh_gen::NoMemory;
use std::alloc::AllocFailed;

/// Why no document was read.
#[derive(Debug, Drop)]
pub enum DocEnd {
    /// The first fault.
    Fault(DocFault),
    NoMemory,
}

impl From<NoMemory> for DocEnd {
    ghost from_gives = { λ _ end. end ≡ EndOfMemory };

    fn from(_: NoMemory) -> DocEnd {
        DocEnd::NoMemory
    }
}

impl From<DocFault> for DocEnd {
    ghost from_gives = { λ fault end. end ≡ EndOfFault fault };

    fn from(fault: DocFault) -> DocEnd {
        DocEnd::Fault(fault)
    }
}

impl<T: Drop> From<AllocFailed<T>> for DocEnd {
    ghost from_gives = { λ _ end. end ≡ EndOfMemory };

    fn from(_: AllocFailed<T>) -> DocEnd {
        DocEnd::NoMemory
    }
}
