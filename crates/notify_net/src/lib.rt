//! The notification network: a latch a tile, which at each tick takes in what its neighbours' latches hold, so that
//! after enough ticks each of them holds the set of all tiles that posted.
#![tactic(auto)]

mod latches;
mod links;

pub use latches::Latches;
