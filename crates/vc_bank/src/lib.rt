//! The channels of a router: five ports with slots for packets.
#![tactic(auto)]

mod bank;
mod banks;
mod slots;

pub use bank::Bank;
pub use banks::{empty_banks, free_slot, is_vacant, leave, packet_at, put_into};
