//! What is said on standard error.
ghost use Rattle.std.specs.Prelude.{◌≡◌, Some};
ghost use Rattle.scorpio_cli.specs.Messages.{said_of, message};

use crate::ended::Ended;
use std::fmt;

const USAGE: &str =
    "usage:\n  scorpio order\n  scorpio show\n  scorpio deliver\n  scorpio step [--pace n] [--budget n]\n  scorpio run [--budget n]\n  scorpio gen n [--text]";

// What is said of a status that comes without a fault of the document.
fn said_of(status: u8) -> &'static str
    ensures { result.now ≡ said_of status }
{
    match status {
        1 => USAGE,
        3 => "scorpio: budget spent",
        4 => "scorpio: read failed",
        5 => "scorpio: write failed",
        6 => "scorpio: out of memory",
        7 => "scorpio: input too long",
        _ => "",
    }
}

/// What the program says on standard error of how a command ended: nothing where its whole text was written.
impl fmt::Display for Ended {
    ghost output = { λ ended. Some (message ended) };

    fn fmt<W: fmt::Write>(&self, f: &mut fmt::Formatter<W>) -> fmt::Result {
        match &self.doc_fault {
            Some(fault) => write!(f, "scorpio: document: {fault}"),
            None => f.write_str(said_of(self.status)),
        }
    }
}
