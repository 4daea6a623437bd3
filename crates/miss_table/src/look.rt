use chip_model::Pending;
use mesh_gen::{Kind, Words};

/// What stands in a table, as plain data.
#[derive(Clone, Copy, Debug, PartialEq, Eq)]
pub struct Look {
    pub demand: Option<DemandLook>,
    pub back: Option<BackLook>,
}

/// A demand. Of the tiles that wait in its list it tells as much as rules ask: whether there are any, and whether the
/// last of them is to write.
#[derive(Clone, Copy, Debug, PartialEq, Eq)]
pub struct DemandLook {
    pub kind: Kind,
    pub line: u16,
    pub pending: Pending,
    pub sent: bool,
    pub ordered: Option<u64>,
    pub early: Option<Words>,
    pub once: bool,
    pub list_empty: bool,
    pub ends_in_getm: bool,
}

/// A write-back.
#[derive(Clone, Copy, Debug, PartialEq, Eq)]
pub struct BackLook {
    pub line: u16,
    pub words: Words,
    pub live: bool,
    pub sent: bool,
}
