//! A machine: a chip that runs a document. It is a boxed fabric beside one station per tile, which has the tile's unit. One
//! call does one event, and what is done is what `chip_model` says of it.
#![tactic(auto)]

mod acting;
mod counting;
mod events;
mod final_words;
mod machine;
mod moving;
mod parts;
mod possible;
mod reporting;
mod rest;
mod slot_events;
mod slots;
mod station;
mod threads;

pub use counting::counting_laws;
pub use machine::{MOST_EVENTS, Machine, SPARE_EVENTS};
use mesh_gen::Items;
pub use parts::Parts;
pub use rest::Rest;
pub use slot_events::slot_laws;
pub use slots::{slot_event, slots_each, tile_slot};
pub use station::{MOST_PRIVATE, Station};
pub use threads::stations_go_to_threads;

/// The stations of a machine, in the order of their tiles.
pub type Stations<U> = Items<Station<U>>;
