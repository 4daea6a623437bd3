//! What each command writes of a document, and why a command ends before its whole text was written.
#![tactic(auto)]

mod command;
mod deliver;
mod line;
mod load;
mod options;
mod order;
mod outcome;
mod rounds;
mod show;
mod step;
mod stop;
mod summary;
mod summary_line;

pub use command::Command;
pub use options::StepOption;
pub use outcome::Outcome;
pub use stop::Stop;
pub use tile_pool::Gate;
