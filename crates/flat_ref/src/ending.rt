ghost use Rattle.std.specs.Prelude.{◌≡◌};
ghost use Rattle.flat_ref.specs.declared.ending.CheckEnd.TheVariants.{NoMemory};

use std::alloc::{AllocError, AllocFailed};

/// Why a list of accesses was not accepted.
#[derive(Clone, Copy, Debug, PartialEq, Eq)]
pub enum CheckEnd {
    /// The access at this position, from 0, is the first that is not its core's next one or has a wrong address or value.
    /// It is the number of accesses where all are right and some core cannot get to its number of steps.
    FirstBad { at: u64 },
    NoMemory,
}

impl From<AllocError> for CheckEnd {
    ghost from_gives = { λ _ e. e ≡ NoMemory };

    fn from(_: AllocError) -> CheckEnd {
        CheckEnd::NoMemory
    }
}

impl<T: Drop> From<AllocFailed<T>> for CheckEnd {
    ghost from_gives = { λ _ e. e ≡ NoMemory };

    fn from(_: AllocFailed<T>) -> CheckEnd {
        CheckEnd::NoMemory
    }
}
