use core_isa::Core;
use mesh_gen::{Image, Items};

/// Cores, one for each tile.
pub type Cores = Items<Core>;

/// A chip without caches and network: a core per tile, and the words of memory.
#[derive(Debug, Drop)]
pub struct Flat {
    pub cores: Cores,
    pub memory: Image,
}
