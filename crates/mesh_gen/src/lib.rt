//! The mesh of a chip: its sizes and limits, where its tiles stand, and the small types that the crates above share.
#![tactic(auto)]

mod items;
mod kind;
mod mesh;
mod msg;
mod msg_kind;
mod port;
mod ports;
mod refusals;
mod request;
mod routes;
mod text;
mod tile_set;
mod tree;
mod words;

pub use items::{Counts, Image, Items, Requests, Tiles};
pub use kind::Kind;
pub use mesh::{MOST_SIDE, Mesh};
pub use msg::Msg;
pub use msg_kind::MsgKind;
pub use port::Port;
pub use ports::{Ports, port_set_laws};
pub use refusals::{NoChannel, NoMemory, NotEnabled, NotReady};
pub use request::Request;
pub use routes::route_laws;
pub use text::Text;
pub use tile_set::{has_tile, set_of, with_tile};
pub use tree::tree_laws;
pub use words::Words;
