ghost use Rattle.std.specs.Prelude.{◌≡◌, IfSome};
ghost use Rattle.mesh_gen.specs.Limits.{IsFrom};
ghost use Rattle.std.specs.Str.{all_ascii_digits};
ghost use Rattle.commands.specs.Arguments.{number_within, budget_numbered, load_numbered, option_named, step_by, step_by_both, IsWithinLimits, KeepsLimits};
ghost use Rattle.commands.specs.declared.options.StepOption.{StepOption};

use crate::Command;

// The greatest pace, and the greatest number of a load.
const MOST_PACE: u32 = u32::MAX;

const MOST_LOAD: u32 = u32::MAX;

/// The greatest budget, and that of a run whose arguments name none.
const MOST_BUDGET: u32 = 4_000_000;

pub(crate) const DEFAULT_BUDGET: u32 = 1_000_000;

/// An option of `step`.
#[derive(Clone, Copy, Debug, PartialEq, Eq)]
pub enum StepOption {
    Pace(u32),
    Budget(u32),
}

impl StepOption {
    /// The option of this name with this number, where there is one.
    pub(crate) fn named(name: &str, number: &str) -> Option<StepOption>
        ensures named { result ≡ option_named name.now number.now }
        ensures limits { IfSome result IsWithinLimits }
    {
        if name == "--pace" {
            Some(StepOption::Pace(number_within(0, MOST_PACE, number)?))
        } else if name == "--budget" {
            Some(StepOption::Budget(budget_numbered(number)?))
        } else {
            None
        }
    }

    /// `step` with this option alone.
    pub(crate) fn alone(self) -> Command
        ensures command { result ≡ step_by self }
        ensures limits { IsWithinLimits self → KeepsLimits result }
    {
        match self {
            StepOption::Pace(pace) => Command::Step {
                pace,
                budget: DEFAULT_BUDGET,
            },
            StepOption::Budget(budget) => Command::Step { pace: 0, budget },
        }
    }

    /// `step` with two options, which have to be different ones.
    pub(crate) fn beside(self, other: StepOption) -> Option<Command>
        ensures { result ≡ step_by_both self other }
    {
        match (self, other) {
            (StepOption::Pace(pace), StepOption::Budget(budget))
            | (StepOption::Budget(budget), StepOption::Pace(pace)) => {
                Some(Command::Step { pace, budget })
            }
            _ => None,
        }
    }
}

/// The budget that a word is, where it is one.
pub(crate) fn budget_numbered(word: &str) -> Option<u32>
    ensures number { result ≡ budget_numbered word.now }
    ensures within { IfSome result (IsFrom 1 4000000) }
{
    number_within(1, MOST_BUDGET, word)
}

/// The number of a load that a word is, where it is one.
pub(crate) fn load_numbered(word: &str) -> Option<u32>
    ensures { result ≡ load_numbered word.now }
{
    number_within(0, MOST_LOAD, word)
}

// The number of a word of digits, where it is within these limits.
fn number_within(least: u32, most: u32, word: &str) -> Option<u32>
    ensures number { result ≡ number_within least most word.now }
    ensures within { IfSome result (IsFrom least most) }
{
    if !are_digits(word.as_bytes()) {
        return None;
    }
    let number: u32 = word.parse().ok()?;
    if least <= number && number <= most {
        Some(number)
    } else {
        None
    }
}

// Whether the bytes are digits alone.
fn are_digits(bytes: &[u8]) -> bool
    ensures { result ≡ all_ascii_digits bytes.now }
{
    bytes.iter().all(|byte| byte.is_ascii_digit())
}
