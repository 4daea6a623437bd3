//! Paces: closures that tell each sweep of a run from which slot it begins.
#![tactic(auto)]

mod pace;

pub use pace::Pace;
