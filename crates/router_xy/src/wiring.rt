//! Which router stands at each side of a router, and by which ports the requests of each tile leave it.
ghost use Rattle.std.specs.Prelude.{◌≡◌, ◌<◌, IfOk};
ghost use Rattle.mesh_gen.specs.Grid.{tiles, neighbour};
ghost use Rattle.mesh_gen.specs.Mesh.{grid};
ghost use Rattle.mesh_gen.specs.PortSets.{ports_of};
ghost use Rattle.mesh_gen.specs.Tree.{tree_outs};
ghost use Rattle.router_xy.specs.Wirings.{sides_of, AreLinks, AreTrees, IsTree};

use mesh_gen::{Items, Mesh, NoMemory, Port, Ports};
use std::alloc::Global;
use std::marker::Model;

/// The neighbours of a router: none beyond an edge.
#[derive(Clone, Copy)]
pub(crate) struct Sides {
    pub(crate) east: Option<u8>,
    pub(crate) west: Option<u8>,
    pub(crate) north: Option<u8>,
    pub(crate) south: Option<u8>,
}

/// The links of a mesh and the trees of its tiles, as tables that are made once. Contracts see the grid.
#[derive(Drop)]
pub(crate) struct Wiring {
    mesh: Mesh,
    links: Vec<Sides>,
    trees: Vec<Items<Ports>>,
}

impl Model for Wiring {
    ghost use Rattle.mesh_gen.specs.Grid.{Grid};
    ghost use Rattle.mesh_gen.specs.Mesh.{grid};
    ghost use Rattle.router_xy.specs.Wirings.{AreLinks, AreTrees};

    ghost Value = { Grid };

    ghost view = { λ wiring. grid wiring.mesh };

    ghost invariant = { λ wiring. AreLinks (grid wiring.mesh) wiring.links.items
        × AreTrees (grid wiring.mesh) wiring.trees.items };
}

impl Wiring {
    pub(crate) fn of(alloc: Global, mesh: &Mesh) -> Result<Wiring, NoMemory>
        ensures { IfOk result (λ wiring. wiring ≡ grid mesh.now) }
    {
        Ok(Wiring {
            mesh: mesh.copy(alloc)?,
            links: links(alloc, mesh)?,
            trees: trees(alloc, mesh)?,
        })
    }

    pub(crate) fn tiles(&self) -> u8
        ensures { result ≡ tiles self.now }
    {
        self.mesh.tiles()
    }

    pub(crate) fn neighbour(&self, r: u8, out: Port) -> Option<u8>
        ensures { result ≡ neighbour self.now r out }
    {
        match self.links.get(usize::from(r)) {
            Some(sides) => sides.beside(out),
            None => None,
        }
    }

    /// The ports by which a request of the tile `s` leaves the router `r`.
    pub(crate) fn tree_outs(&self, s: u8, r: u8) -> Ports
        requires source { s < tiles self.now }
        requires router { r < tiles self.now }
        ensures { result ≡ ports_of (tree_outs self.now s r) }
    {
        self.trees[usize::from(s)].as_slice()[usize::from(r)]
    }
}

impl Sides {
    ghost use Rattle.std.specs.Prelude.{◌≡◌, ℕ};
    ghost use Rattle.mesh_gen.specs.Grid.{Grid, neighbour};
    ghost use Rattle.router_xy.specs.Wirings.{sides_of};

    fn beside(self, out: Port) -> Option<u8>
        ensures { (g : Grid) (t : ℕ) → self ≡ sides_of g t → result ≡ neighbour g t out }
    {
        match out {
            Port::L => None,
            Port::E => self.east,
            Port::W => self.west,
            Port::N => self.north,
            Port::S => self.south,
        }
    }
}

fn sides_of(mesh: &Mesh, t: u8) -> Sides
    ensures { result ≡ sides_of (grid mesh.now) t }
{
    Sides {
        east: mesh.neighbour(t, Port::E),
        west: mesh.neighbour(t, Port::W),
        north: mesh.neighbour(t, Port::N),
        south: mesh.neighbour(t, Port::S),
    }
}

// The neighbours of each router, in the order of the tiles.
fn links(alloc: Global, mesh: &Mesh) -> Result<Vec<Sides>, NoMemory>
    ensures { IfOk result (λ links. AreLinks (grid mesh.now) links.items) }
{
    let mut links = Vec::with_capacity(alloc, usize::from(mesh.tiles()))?;
    for t in 0..mesh.tiles() {
        links.push(sides_of(mesh, t))?;
    }
    Ok(links)
}

// The ports by which the requests of a tile leave each router, in the order of the tiles.
fn tree(alloc: Global, mesh: &Mesh, s: u8) -> Result<Items<Ports>, NoMemory>
    requires { s < tiles (grid mesh.now) }
    ensures { IfOk result (λ outs. IsTree (grid mesh.now) s outs) }
{
    let mut outs = Vec::with_capacity(alloc, usize::from(mesh.tiles()))?;
    for r in 0..mesh.tiles() {
        outs.push(mesh.tree_outs(s, r))?;
    }
    Ok(Items::new(outs))
}

// The trees of all tiles, in their order.
fn trees(alloc: Global, mesh: &Mesh) -> Result<Vec<Items<Ports>>, NoMemory>
    ensures { IfOk result (λ trees. AreTrees (grid mesh.now) trees.items) }
{
    let mut trees = Vec::with_capacity(alloc, usize::from(mesh.tiles()))?;
    for s in 0..mesh.tiles() {
        trees.push(tree(alloc, mesh, s)?)?;
    }
    Ok(trees)
}
