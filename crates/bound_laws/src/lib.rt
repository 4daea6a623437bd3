//! Laws of the whole chip: how long its runs are, and all that holds of every run. At run time they do nothing.
#![tactic(auto)]

mod every_run;
mod laws;

pub use every_run::run_laws;
pub use laws::bound_laws;
