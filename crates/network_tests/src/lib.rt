//! Tests of the public calls of the mesh, its channels and its networks.
#![tactic(auto)]

#[cfg(test)]
mod banks;
#[cfg(test)]
mod broadcasts;
#[cfg(test)]
mod latches;
#[cfg(test)]
mod mesh;
#[cfg(test)]
mod ordered;
#[cfg(test)]
mod replies;
#[cfg(test)]
mod routers;
#[cfg(test)]
mod tracker;
#[cfg(test)]
mod windows;
