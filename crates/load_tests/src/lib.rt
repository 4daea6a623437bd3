//! Tests of the loads that are drawn from a number, and of their runs.
#![tactic(auto)]

#[cfg(test)]
mod fixtures;
#[cfg(test)]
mod loads;
