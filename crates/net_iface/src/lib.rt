//! The ordered network: requests spread over the mesh in any order, a second network gives every interface the same
//! vectors, and each interface delivers a prefix of the one order that follows from them.
#![tactic(auto)]

mod deliveries;
mod follower;
mod laws;
mod ordered_net;
mod requests;
mod trackers;

pub use deliveries::delivery_laws;
pub use laws::{network_laws, part_laws};
pub use ordered_net::OrderedNet;
