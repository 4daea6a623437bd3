//! Tests of rounds, in which each tile has a thread.
#![tactic(auto)]

#[cfg(test)]
mod rounds;
