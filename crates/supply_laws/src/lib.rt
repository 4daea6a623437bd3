//! Who answers each get, how written-back words reach memory, and with the laws below what holds in every state that a chip
//! reaches. At run time the laws do nothing.
#![tactic(auto)]

mod laws;
mod meetings;
mod owners;
mod reachable;

pub use laws::{get_laws, home_laws};
pub use meetings::meeting_laws;
pub use owners::owner_laws;
pub use reachable::reachable_laws;
