use mesh_gen::{Counts, Requests};
use report_text::{Accesses, Journal};

/// What a fabric hands out at the end of a run.
#[derive(Debug, Drop)]
pub struct FabricLists {
    /// The requests in their order.
    pub requests: Requests,
    /// How many requests each tile delivered.
    pub seen: Counts,
    /// The accesses in the order in which they were performed.
    pub accesses: Accesses,
    pub journal: Journal,
    /// How many windows were closed.
    pub windows: u64,
    /// How many hops requests made.
    pub hops: u64,
}
