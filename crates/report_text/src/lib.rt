//! The report of a run: what it holds, its text, and the journal that is read back from a text.
#![tactic(auto)]

mod access;
mod entry;
mod event;
mod fault;
mod finish;
mod journal;
mod laws;
mod line;
mod operands;
mod ports;
mod reading;
mod report;
mod rows;
mod scanning;
mod writing;

pub use access::{Access, AccessKind};
pub use entry::Entry;
pub use event::Event;
pub use fault::LinesEnd;
pub use finish::Finish;
pub use journal::Journal;
pub use laws::{entry_laws, journal_is_read_back};
pub use reading::read_events;
pub use report::{Accesses, Report};
pub use writing::write_report;
