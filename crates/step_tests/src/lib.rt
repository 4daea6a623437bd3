//! Tests of the commands that run a description's programs, by sweeps and by threads.
#![tactic(auto)]

#[cfg(test)]
mod fixtures;
#[cfg(test)]
mod steps;
