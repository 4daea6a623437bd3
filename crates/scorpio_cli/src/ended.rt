ghost use Rattle.std.specs.Prelude.{◌≡◌};
ghost use Rattle.scorpio_cli.specs.Ended.{ended_of, written_status};

use commands::{Outcome, Stop};
use mesh_doc::DocFault;
use report_text::{Finish, Report};

/// How a command ended.
#[derive(Debug, Drop)]
pub struct Ended {
    /// 0: the whole text was written. 1: usage. 2: a faulty document. 3: the budget was spent, and the whole text was
    /// written. 4: a read failed. 5: a write failed. 6: out of memory. 7: the input was too long.
    pub status: u8,
    /// A position that the status speaks of, and 0 where it speaks of none.
    pub at: u64,
    /// The document's fault, exactly at status 2.
    pub doc_fault: Option<DocFault>,
    /// The report of the run, exactly for a command that ran a machine: at the statuses 0, 3 and 5.
    pub report: Option<Report>,
    /// How many rounds `run` left out, since there was no memory for the table that their threads share.
    pub left: u32,
}

impl Ended {
    pub(crate) fn of(outcome: Outcome) -> Ended
        ensures { result ≡ ended_of outcome }
    {
        let Outcome {
            report,
            result,
            left,
        } = outcome;
        let (status, doc_fault) = match result {
            Ok(()) => (written_status(&report), None),
            Err(Stop::Usage) => (1, None),
            Err(Stop::Document(fault)) => (2, Some(fault)),
            Err(Stop::ReadFault) => (4, None),
            Err(Stop::WriteFault) => (5, None),
            Err(Stop::NoMemory) => (6, None),
            Err(Stop::TooLong) => (7, None),
        };
        Ended {
            status,
            at: 0,
            doc_fault,
            report,
            left,
        }
    }

    /// That it stopped before it ran anything.
    pub(crate) fn stopped(stop: Stop) -> Ended
        ensures { result ≡ ended_of (record { report = None; result = Err stop; left = 0 }) }
    {
        Ended::of(Outcome {
            report: None,
            result: Err(stop),
            left: 0,
        })
    }
}

// The status where the whole text was written.
fn written_status(report: &Option<Report>) -> u8
    ensures { result ≡ written_status report.now }
{
    match report {
        Some(
            Report {
                ended: Finish::Budget,
                ..
            },
        ) => 3,
        _ => 0,
    }
}
