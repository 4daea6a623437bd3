//! The whole chip as plain data and plain events: what the contracts of its parts cite, and what the theorems on whole
//! runs are about. `docs/DEFINITIONS.md` is the guide to its definitions.
#![tactic(auto)]

mod channel;
mod done;
mod line_state;
mod net_copy;
mod owner;
mod pending;
mod victim;
mod waiting;

pub use channel::Channel;
pub use done::Done;
pub use line_state::State;
pub use net_copy::NetCopy;
pub use owner::Owner;
pub use pending::Pending;
pub use victim::Victim;
pub use waiting::Waiting;
