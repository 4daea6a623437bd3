//! Rounds: how tiles that are threads take their turns. What a round and a run of rounds are, over the definitions of the chip
//! alone, and that each is a run of the chip. At run time the laws do nothing.
#![tactic(auto)]

mod laws;

pub use laws::{round_laws, turn_laws};
