ghost use Rattle.std.specs.Prelude.{◌≡◌};
ghost use Rattle.core_isa.specs.declared.fault.AsmEnd.TheVariants.{NoMemory};

use std::alloc::{AllocError, AllocFailed};

/// What is wrong with a line of a program's text.
#[derive(Clone, Copy, Debug, PartialEq, Eq)]
pub enum AsmKind {
    /// The label is no name, or the first word of the instruction is unknown.
    Word = 1,
    /// An operand is no register.
    Register = 2,
    /// An operand is no number.
    Number = 3,
    /// The label stands on an earlier line, or a target is no label of the text and no place of the program.
    Label = 4,
    /// The number of operands is wrong.
    Count = 5,
    /// The program has as many instructions as it may have before this one.
    Length = 6,
}

/// The first fault of a text: its lowest bad line, counted from 1, with the first of the kinds that hold there.
#[derive(Clone, Copy, Debug, PartialEq, Eq)]
pub struct AsmFault {
    pub line: u64,
    pub kind: AsmKind,
}

/// Why a text was not assembled.
#[derive(Clone, Copy, Debug, PartialEq, Eq)]
pub enum AsmEnd {
    Fault(AsmFault),
    NoMemory,
}

impl From<AllocError> for AsmEnd {
    ghost from_gives = { λ _ e. e ≡ NoMemory };

    fn from(_: AllocError) -> AsmEnd {
        AsmEnd::NoMemory
    }
}

impl<T: Drop> From<AllocFailed<T>> for AsmEnd {
    ghost from_gives = { λ _ e. e ≡ NoMemory };

    fn from(_: AllocFailed<T>) -> AsmEnd {
        AsmEnd::NoMemory
    }
}
