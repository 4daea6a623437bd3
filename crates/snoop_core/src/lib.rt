//! The node of a tile: its cache, what it waits for, its memory controller, and the messages that it sends.
#![tactic(auto)]

mod access;
mod completion;
mod laws;
mod node;
mod outcome;
mod own;
mod snoop;
mod snooper;

pub use chip_model::{Done, Owner, State};
pub use laws::{node_laws, ownership_laws};
pub use node::Node;
pub use outcome::Outcome;
