//! Tests of the public calls that read and write documents, and of the streams beneath them.
#![tactic(auto)]

#[cfg(test)]
mod canonical_texts;
#[cfg(test)]
mod descriptions;
#[cfg(test)]
mod fixtures;
#[cfg(test)]
mod streams;
