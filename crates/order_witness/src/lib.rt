//! The sequential order of a run's accesses.
#![tactic(auto)]

mod reporting;
mod sequence;

pub use reporting::witness;
pub use sequence::put_in_sequence;
