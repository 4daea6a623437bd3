//! Tiles as threads. In a round each tile has a worker: its core works by itself, and then the tile tries to have the turn, in
//! which it does one event that touches what all tiles share. What a round leaves is a run of the chip, whatever the threads did.
#![tactic(auto)]

mod gate;
mod round_fabric;
mod rounds;
mod runs;
mod seating;
mod start;
mod worker;

pub use gate::Gate;
pub use rounds::{Rounded, round};
pub use runs::run_tiles;
