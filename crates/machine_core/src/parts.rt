use crate::{Rest, Stations};
use core_unit::Unit;
use fabric_core::Fabric;

/// A machine that is taken apart: the fabric and the stations can be lent or moved, and be put together again.
#[derive(Drop)]
pub struct Parts<U: Unit> {
    pub fabric: Box<Fabric>,
    pub stations: Stations<U>,
    pub rest: Rest,
}
