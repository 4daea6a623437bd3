//! Loads: documents of 16 tiles whose programs are drawn from a generator of numbers.
#![tactic(auto)]

mod document;
mod laws;
mod program;

pub use document::generate;
pub use laws::load_laws;
