ghost use Rattle.std.specs.Prelude.{◌≡◌, IfOk};
ghost use Rattle.mesh_gen.specs.Mesh.{grid};
ghost use Rattle.notify_net.specs.Links.{neighbours_of, AreLinks};

use mesh_gen::{Mesh, NoMemory, Port};
use std::alloc::Global;

/// The neighbours of a tile, with the tile itself in place of one that is not there.
#[derive(Clone, Copy, Debug, PartialEq, Eq)]
pub(crate) struct Sides {
    pub(crate) east: u8,
    pub(crate) west: u8,
    pub(crate) north: u8,
    pub(crate) south: u8,
}

fn sides_beside(mesh: &Mesh, t: u8) -> Sides
    ensures { result ≡ neighbours_of (grid mesh.now) t }
{
    Sides {
        east: mesh.neighbour(t, Port::E).unwrap_or(t),
        west: mesh.neighbour(t, Port::W).unwrap_or(t),
        north: mesh.neighbour(t, Port::N).unwrap_or(t),
        south: mesh.neighbour(t, Port::S).unwrap_or(t),
    }
}

/// The sides of each tile, in the order of the tiles.
pub(crate) fn links(alloc: Global, mesh: &Mesh) -> Result<Vec<Sides>, NoMemory>
    ensures { IfOk result (λ links. AreLinks (grid mesh.now) links.items) }
{
    let mut links = Vec::with_capacity(alloc, usize::from(mesh.tiles()))?;
    for t in 0..mesh.tiles() {
        links.push(sides_beside(mesh, t))?;
    }
    Ok(links)
}
