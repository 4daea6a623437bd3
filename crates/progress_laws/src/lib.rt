//! Laws of the whole chip, over its definitions alone: until all is done some event is possible,
//! and then none is. At run time they do nothing.
#![tactic(auto)]

mod laws;

pub use laws::chip_progress_laws;
