ghost use Rattle.std.specs.Prelude.{◌≡◌, None};
ghost use Rattle.commands.specs.declared.outcome.Outcome.{Outcome};

use crate::Stop;
use report_text::Report;

/// How a command ended.
#[derive(Debug, Drop)]
pub struct Outcome {
    /// The report of the run, exactly for a command that ran a machine.
    pub report: Option<Report>,
    /// Why its whole text was not written, where it was not.
    pub result: Result<(), Stop>,
    /// How many rounds were left out for want of memory: 0 where no tile had a thread.
    pub left: u32,
}

impl Outcome {
    /// That of a command that ran no machine.
    pub(crate) fn plain(end: Result<(), Stop>) -> Outcome
        ensures { result ≡ record { report = None; result = end; left = 0 } }
    {
        Outcome {
            report: None,
            result: end,
            left: 0,
        }
    }
}
