//! Tests of the public calls of the instruction set, of reports and of sequential executions.
#![tactic(auto)]

#[cfg(test)]
mod assembly;
#[cfg(test)]
mod entries;
#[cfg(test)]
mod executions;
#[cfg(test)]
mod journals;
#[cfg(test)]
mod reports;
