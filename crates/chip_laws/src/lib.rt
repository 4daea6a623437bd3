//! Laws of the whole chip, proved over its definitions for every state. At run time they do nothing.
#![tactic(auto)]

mod accesses;
mod events;
mod laws;
mod tiles;

pub use accesses::access_laws;
pub use events::event_laws;
pub use laws::{
    behaviour_laws, chip_network_laws, core_order_laws, network_event_laws, node_event_laws,
    order_laws, unit_laws,
};
pub use tiles::{done_laws, tile_laws};
