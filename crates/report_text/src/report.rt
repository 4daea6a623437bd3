use crate::{Access, Finish, Journal};
use mesh_gen::{Counts, Image, Items, Requests};

/// Accesses, in an order.
pub type Accesses = Items<Access>;

/// What a run leaves to tell.
#[derive(Debug, Drop)]
pub struct Report {
    /// The requests in their order.
    pub requests: Requests,
    /// How many requests each tile has seen.
    pub seen: Counts,
    /// How many steps each tile's core did.
    pub steps: Counts,
    /// The accesses in the order of the chip.
    pub accesses: Accesses,
    /// The words of memory in the end, or none where the run did not come to its end.
    pub memory: Image,
    pub journal: Journal,
    /// How many windows were closed.
    pub windows: u64,
    /// How many hops requests made.
    pub hops: u64,
    pub ended: Finish,
}
