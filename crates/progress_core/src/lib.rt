//! How long runs may be, and runs by paces: sweep after sweep through all slots.
#![tactic(auto)]

mod bounds;
mod forward;
mod hops;
mod messages;
mod pacing;
mod sweeping;
mod tiles;

pub use bounds::bound;
pub use forward::forward_only;
pub use pacing::run_paced;
pub use sweeping::sweep;
