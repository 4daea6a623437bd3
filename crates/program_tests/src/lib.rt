//! Tests of the commands, and of what they write.
#![tactic(auto)]

#[cfg(test)]
mod fixtures;
#[cfg(test)]
mod outputs;
#[cfg(test)]
mod refusals;
