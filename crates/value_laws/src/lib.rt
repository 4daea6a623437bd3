//! The values of lines, and sequential consistency: laws over the definitions of the whole chip.
//! At run time they do nothing.
#![tactic(auto)]

mod consistency;
mod cores;
mod laws;
mod orders;
mod turns;
mod values;

pub use consistency::consistency_laws;
pub use cores::core_run_laws;
pub use laws::{sequence_laws, value_laws};
pub use orders::delivery_order_laws;
pub use turns::access_turn_laws;
pub use values::{kept_value_laws, reached_access_laws};
