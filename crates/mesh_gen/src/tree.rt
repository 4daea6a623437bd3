ghost use Rattle.std.specs.Prelude.{◌≡◌, ◌≢◌, ◌↔◌, ◌<◌, ℕ, Some, true, false, if◌then◌else◌};
ghost use Rattle.mesh_gen.specs.Grid.{Grid, tiles, distance};
ghost use Rattle.mesh_gen.specs.Ports.{has, mask, count_if};
ghost use Rattle.mesh_gen.specs.PortSets.{bits_of};
ghost use Rattle.mesh_gen.specs.Routes.{HasTiles};
ghost use Rattle.mesh_gen.specs.Tree.{goes_on, leaves_by, tree_outs, tree_parent, ancestor, Edge, IsEnteredOnce, Leads, covers, outputs_to};

use crate::{Mesh, Port, Ports};
use bitflags::Flags;

impl Mesh {
    ghost use Rattle.mesh_gen.specs.Mesh.{grid};

    // Whether the tree of `s` goes this way at `r`, where there is such a way.
    fn goes_on(&self, s: u8, r: u8, out: Port) -> bool
        requires source { s < tiles (grid self.now) }
        requires router { r < tiles (grid self.now) }
        ensures { result ≡ goes_on (grid self.now) s r out }
    {
        let is_in_row = self.y(r) == self.y(s);
        match out {
            Port::L => true,
            Port::E => is_in_row && self.x(s) <= self.x(r),
            Port::W => is_in_row && self.x(r) <= self.x(s),
            Port::N => self.y(r) <= self.y(s),
            Port::S => self.y(s) <= self.y(r),
        }
    }

    // The set of this side, where the tree of `s` leaves `r` by it, and else the empty set.
    fn branch(&self, s: u8, r: u8, side: Port) -> Ports
        requires source { s < tiles (grid self.now) }
        requires router { r < tiles (grid self.now) }
        requires side { side ≢ Port.L }
        ensures { bits_of result ≡ (if leaves_by (grid self.now) s r side then mask side else 0) }
    {
        if self.goes_on(s, r, side) && self.neighbour(r, side).is_some() {
            Ports::only(side)
        } else {
            Ports::empty()
        }
    }

    /// The ports by which a request of the tile `s` leaves the router `r`: into the tile always; where a neighbour
    /// stands, in the row of `s` by the sides away from `s`, and in each column away from that row.
    pub fn tree_outs(&self, s: u8, r: u8) -> Ports
        requires source { s < tiles (grid self.now) }
        requires router { r < tiles (grid self.now) }
        ensures bits { bits_of result ≡ tree_outs (grid self.now) s r }
        ensures small { bits_of result < 32 }
        ensures ports { (port : Port)
            → has (bits_of result) port ≡ leaves_by (grid self.now) s r port }
    {
        Ports::L
            .union(self.branch(s, r, Port::E))
            .union(self.branch(s, r, Port::W))
            .union(self.branch(s, r, Port::N))
            .union(self.branch(s, r, Port::S))
    }

    /// The router from which a request of the tile `s` comes to the router `r`: the neighbour towards the row of `s`,
    /// and in that row the one towards `s`. None at `s` itself.
    pub fn tree_parent(&self, s: u8, r: u8) -> Option<u8>
        requires source { s < tiles (grid self.now) }
        requires router { r < tiles (grid self.now) }
        ensures { result ≡ tree_parent (grid self.now) s r }
    {
        let in_row = self.along_row(r, s, Port::L);
        self.neighbour(r, self.along_column(r, s, in_row))
    }
}

/// The laws of broadcast trees, over every grid with tiles. At run time it does nothing.
pub fn tree_laws()
    // One edge enters each router but the source, from its parent. None enters the source.
    ensures entered { (g : Grid) (s n : ℕ) → HasTiles g → s < tiles g → n < tiles g → n ≢ s
        → IsEnteredOnce g s n }
    ensures source_free { (g : Grid) (s r : ℕ) (p : Port) → HasTiles g → Edge g s r p s → ⊥ }

    // Following parents leads to the source, in as many steps as there are hops between them.
    ensures parents { (g : Grid) (s n : ℕ) → HasTiles g → s < tiles g → n < tiles g
        → ancestor g s (distance g s n) n ≡ Some s }

    // The tree leads from r to v exactly where r stands on the way from v to the source.
    ensures path { (g : Grid) (s r v : ℕ) → HasTiles g → s < tiles g → v < tiles g
        → ((p : Port) × Leads g s r p v) ↔ ((k : ℕ) × (ancestor g s k v ≡ Some r)) }

    // Where it leads, by columns and rows.
    ensures covers { (g : Grid) (s r v : ℕ) (p : Port) → HasTiles g → r < tiles g → v < tiles g
        → (covers g s r v p ≡ true) ↔ Leads g s r p v }

    // At the source it leads to each tile by one port, and what an edge serves is served by one port beyond it.
    ensures whole { (g : Grid) (s v : ℕ) → outputs_to g s s v ≡ 1 }
    ensures carried { (g : Grid) (s r n v : ℕ) (p : Port) → HasTiles g → Edge g s r p n
        → outputs_to g s n v ≡ count_if (covers g s r v p) }

    // A port that serves a tile is one of the tree, and two ports of a router serve no tile together.
    ensures leaves { (g : Grid) (s r v : ℕ) (p : Port) → HasTiles g → r < tiles g → v < tiles g
        → covers g s r v p ≡ true → leaves_by g s r p ≡ true }
    ensures apart { (g : Grid) (s r v : ℕ) (p q : Port) → covers g s r v p ≡ true
        → covers g s r v q ≡ true → p ≡ q }
{}
