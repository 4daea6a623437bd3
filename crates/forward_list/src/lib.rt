//! The lists of fixed room of a node: the tiles that wait for a line's words, and the messages that the node sends.
#![tactic(auto)]

mod forward_list;
mod out_queue;
mod places;

pub use chip_model::Waiting;
pub use forward_list::{ForwardList, LIST_PLACES};
pub use out_queue::{OutQueue, QUEUE_PLACES};
