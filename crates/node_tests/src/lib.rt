//! Tests of the public calls of a tile's node and of its parts: lists, the miss table, the cache and the controller.
#![tactic(auto)]

#[cfg(test)]
mod caches;
#[cfg(test)]
mod controllers;
#[cfg(test)]
mod lists;
#[cfg(test)]
mod nodes;
#[cfg(test)]
mod tables;
