//! What a node waits for: a line's words, for one access of its core, and the place in the order at which a line is
//! written back to memory.
#![tactic(auto)]

mod back_entry;
mod demand_entry;
mod look;
mod table;

pub use chip_model::Pending;
pub use look::{BackLook, DemandLook, Look};
pub use table::MissTable;
