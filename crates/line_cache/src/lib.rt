//! The cache of a tile: a map from lines to their states and words, of limited room.
#![tactic(auto)]

mod cache_set;
mod held_line;
mod line_cache;
mod ways;

pub use chip_model::{State, Victim};
pub use line_cache::LineCache;
