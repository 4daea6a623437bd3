//! The fabric of a chip: all that its tiles share. It is the ordered network, the reply network, and what a run is told
//! by: the journal of events and the accesses. Each event that touches it is one call, which notes itself.
#![tactic(auto)]

mod events;
mod fabric;
mod lists;
mod log;
mod made;
mod turned;
mod twins;
mod vacancy;

pub use fabric::Fabric;
pub use lists::FabricLists;
pub use made::Made;
