//! The memory controller of a tile: who owns each of its lines, and which tiles wait for words that are on their way
//! back.
#![tactic(auto)]

mod controller;
mod record;

pub use chip_model::Owner;
pub use controller::Controller;
