//! The tracker of an interface: it derives from the merged vectors which request comes next, with a priority that
//! rotates from window to window.
#![tactic(auto)]

mod tile_set;
mod tracker;

pub use tracker::Tracker;
