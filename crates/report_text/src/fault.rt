ghost use Rattle.std.specs.Prelude.{◌≡◌};
ghost use Rattle.report_text.specs.declared.fault.LinesEnd.TheVariants.{NoMemory as WantsMemory};

use mesh_gen::NoMemory;
use std::alloc::AllocFailed;

/// Why lines were not read.
#[derive(Clone, Copy, Debug, PartialEq, Eq)]
pub enum LinesEnd {
    /// This line, counted from 1, is the first bad one.
    EventFault { line: u64 },
    /// out of memory.
    NoMemory,
}

impl From<NoMemory> for LinesEnd {
    ghost from_gives = { λ _ e. e ≡ WantsMemory };

    fn from(_: NoMemory) -> LinesEnd {
        LinesEnd::NoMemory
    }
}

impl<T: Drop> From<AllocFailed<T>> for LinesEnd {
    ghost from_gives = { λ _ e. e ≡ WantsMemory };

    fn from(_: AllocFailed<T>) -> LinesEnd {
        LinesEnd::NoMemory
    }
}
