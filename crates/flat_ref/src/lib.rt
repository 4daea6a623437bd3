//! Programs run on flat memory: one core per tile and one list of words. It decides whether a list of accesses is a
//! sequential execution.
#![tactic(auto)]

mod checking;
mod ending;
mod flat;
mod laws;
mod taking;

pub use checking::check;
pub use ending::CheckEnd;
pub use flat::{Cores, Flat};
pub use laws::order_laws;
