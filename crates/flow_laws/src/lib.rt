//! Laws of the two networks of a chip, over its definitions alone: as long as anything is on its way, something moves. At run
//! time they do nothing.
#![tactic(auto)]

mod laws;

pub use laws::{message_progress_laws, request_progress_laws};
