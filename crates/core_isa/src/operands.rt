ghost use Rattle.std.specs.Prelude.{◌≡◌, [], ◌∷◌, MatchOption, true, false};
ghost use Rattle.core_isa.specs.Opcodes.{Register, Number, Target};
ghost use Rattle.core_isa.specs.Operands.{is_place_up_to, number_value};
ghost use Rattle.core_isa.specs.LabelsSeen.{scope_seen};
ghost use Rattle.core_isa.specs.Reading.{ReadsOne};
ghost use Rattle.core_isa.specs.OperandsSeen.{ReadsAll};

use crate::AsmKind;
use crate::labels::Labels;
use crate::word::{digits, number, register};

/// The operands of an instruction, and what targets are looked up in. There is a method for each list of shapes in the
/// table of the instruction set.
#[derive(Clone, Copy)]
pub(crate) struct Operands<'o, 'a> {
    pub words: &'o [&'a [u8]],
    pub whole: &'o Labels<'a>,
}

impl<'o, 'a> Operands<'o, 'a> {
    pub fn none(&self) -> Result<(), AsmKind>
        ensures { ReadsAll (λ _. []) [] self.now result }
    {
        match self.words {
            [] => Ok(()),
            _ => Err(AsmKind::Count),
        }
    }

    pub fn register(&self) -> Result<u8, AsmKind>
        ensures { ReadsAll (λ r. r ∷ []) (Register ∷ []) self.now result }
    {
        match self.words {
            [r] => register(r),
            _ => Err(AsmKind::Count),
        }
    }

    pub fn register_and_number(&self) -> Result<(u8, u32), AsmKind>
        ensures { ReadsAll (λ x. x.0 ∷ x.1 ∷ []) (Register ∷ Number ∷ []) self.now result }
    {
        match self.words {
            [r, n] => Ok((register(r)?, number(n)?)),
            _ => Err(AsmKind::Count),
        }
    }

    pub fn three_registers(&self) -> Result<(u8, u8, u8), AsmKind>
        ensures { ReadsAll (λ x. x.0 ∷ x.1 ∷ x.2 ∷ []) (Register ∷ Register ∷ Register ∷ [])
            self.now result }
    {
        match self.words {
            [a, b, c] => Ok((register(a)?, register(b)?, register(c)?)),
            _ => Err(AsmKind::Count),
        }
    }

    pub fn two_registers_and_number(&self) -> Result<(u8, u8, u32), AsmKind>
        ensures { ReadsAll (λ x. x.0 ∷ x.1 ∷ x.2 ∷ []) (Register ∷ Register ∷ Number ∷ [])
            self.now result }
    {
        match self.words {
            [a, b, n] => Ok((register(a)?, register(b)?, number(n)?)),
            _ => Err(AsmKind::Count),
        }
    }

    pub fn two_registers_and_target(&self) -> Result<(u8, u8, u16), AsmKind>
        ensures { ReadsAll (λ x. x.0 ∷ x.1 ∷ x.2 ∷ []) (Register ∷ Register ∷ Target ∷ [])
            self.now result }
    {
        match self.words {
            [a, b, place] => Ok((register(a)?, register(b)?, target(place, self.whole)?)),
            _ => Err(AsmKind::Count),
        }
    }

    pub fn target(&self) -> Result<u16, AsmKind>
        ensures { ReadsAll (λ place. place ∷ []) (Target ∷ []) self.now result }
    {
        match self.words {
            [place] => target(place, self.whole),
            _ => Err(AsmKind::Count),
        }
    }
}

// The place that the word names: `@n`, or a label. In a text with too many instructions, which is no program, it may
// be another.
fn target<'a>(word: &'a [u8], whole: &Labels<'a>) -> Result<u16, AsmKind>
    ensures { ReadsOne (λ place. place) (scope_seen whole.now) Target word.now result }
{
    let place = match word {
        [b'@', place @ ..] => place_up_to(place, whole.count()),
        _ => whole.place(word),
    };
    match place {
        Some(place) => Ok(u16::try_from(place).unwrap_or(u16::MAX)),
        None => Err(AsmKind::Label),
    }
}

// The place that the digits are, of those from 0 to `end`.
fn place_up_to(word: &[u8], end: usize) -> Option<usize>
    ensures { MatchOption result (is_place_up_to end word.now ≡ false)
        (λ place. (is_place_up_to end word.now ≡ true) × (place ≡ number_value word.now)) }
{
    let Some(digits) = digits(word) else {
        return None;
    };
    let Ok(place) = digits.parse() else {
        return None;
    };
    if place > end {
        return None;
    }
    Some(place)
}
