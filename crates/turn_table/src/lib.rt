//! A value that several threads change in turns, and a seat for each of them.
//!
//! It is a lock on one atomic word and one slot. A seat that gets the turn calls a function on the
//! value, which may add one entry to the value's list. Once all seats are back, `meet` hands the
//! value out, and its contract says how the entries and what the seats know belong together.
#![tactic(auto)]

mod busy;
mod no_memory;
mod note;
mod numbers;
mod rule;
mod sharing;
mod steps;
#[cfg(test)]
mod tests;
mod turn_seat;
mod turned;
mod turns;

pub use busy::Busy;
pub use no_memory::NoMemory;
pub use note::Note;
pub use turn_seat::TurnSeat;
pub use turned::Turned;
pub use turns::Turns;
