//! What a document posts, broadcast over the ordered network alone.
#![tactic(auto)]

mod delivery;
mod laws;
mod passes;
mod window;

pub use delivery::broadcast_posts;
pub use laws::broadcast_laws;
