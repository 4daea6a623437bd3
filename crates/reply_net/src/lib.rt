//! The reply network: messages with a line's words, each to one tile, along the row first and then along the column.
//! A message stands in one channel at a time, and each of its hops goes to a channel of lower rank.
#![tactic(auto)]

mod banks;
mod laws;
mod replies;

pub use laws::{channel_laws, message_laws, reply_laws, weight_laws};
pub use replies::Replies;
