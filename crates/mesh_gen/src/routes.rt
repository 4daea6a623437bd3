ghost use Rattle.std.specs.Prelude.{◌≡◌, ◌≢◌, ◌↔◌, ◌<◌, ◌+◌, ℕ, Some};
ghost use Rattle.mesh_gen.specs.Grid.{Grid, tiles, distance, neighbour};
ghost use Rattle.mesh_gen.specs.Ports.{opposite};
ghost use Rattle.mesh_gen.specs.Routes.{HasTiles, along_row, along_column, route, rank, Travels, IsRouteChannel};

use crate::{Mesh, Port};

impl Mesh {
    ghost use Rattle.mesh_gen.specs.Mesh.{grid};

    // The side of `r` towards the column of `dest`, and `other` in that column.
    pub(crate) fn along_row(&self, r: u8, dest: u8, other: Port) -> Port
        ensures { result ≡ along_row (grid self.now) r dest other }
    {
        let (at, to) = (self.x(r), self.x(dest));
        if at < to {
            Port::E
        } else if to < at {
            Port::W
        } else {
            other
        }
    }

    // The side of `r` towards the row of `dest`, and `other` in that row.
    pub(crate) fn along_column(&self, r: u8, dest: u8, other: Port) -> Port
        requires from { r < tiles (grid self.now) }
        requires to { dest < tiles (grid self.now) }
        ensures { result ≡ along_column (grid self.now) r dest other }
    {
        let (at, to) = (self.y(r), self.y(dest));
        if to < at {
            Port::N
        } else if at < to {
            Port::S
        } else {
            other
        }
    }

    /// The port by which a message for the tile `dest` leaves the router `r`: along the row first, then along the
    /// column, and at `dest` into the tile.
    pub fn route(&self, r: u8, dest: u8) -> Port
        requires from { r < tiles (grid self.now) }
        requires to { dest < tiles (grid self.now) }
        ensures { result ≡ route (grid self.now) r dest }
    {
        let in_column = self.along_column(r, dest, Port::L);
        self.along_row(r, dest, in_column)
    }

    /// The rank of an input port of the router `r`. It falls at each hop of a route ([`route_laws`]).
    pub fn rank(&self, r: u8, port: Port) -> u8
        requires { r < tiles (grid self.now) }
        ensures { result ≡ rank (grid self.now) r port }
    {
        match port {
            Port::L => self.rows + self.cols,
            Port::W => self.rows + (self.cols - 1 - self.x(r)),
            Port::E => self.rows + self.x(r),
            Port::N => self.rows - 1 - self.y(r),
            Port::S => self.y(r),
        }
    }
}

/// The laws of routes, over every grid with tiles. At run time it does nothing.
pub fn route_laws()
    // A message that came by its route goes on to a port of lower rank, and comes nearer to its tile.
    ensures ranks { (g : Grid) (dest r n : ℕ) (q : Port) → HasTiles g → Travels g dest r q
        → neighbour g r (route g r dest) ≡ Some n
        → rank g n (opposite (route g r dest)) < rank g r q }
    ensures nearer { (g : Grid) (dest r n : ℕ) → HasTiles g
        → neighbour g r (route g r dest) ≡ Some n → distance g r dest ≡ distance g n dest + 1 }

    // It goes on until it is at its tile.
    ensures ends { (g : Grid) (dest r : ℕ) → (route g r dest ≡ Port.L) ↔ (r ≡ dest) }
    ensures goes_on { (g : Grid) (dest r : ℕ) → HasTiles g → r < tiles g → dest < tiles g → r ≢ dest
        → (n : ℕ) × (neighbour g r (route g r dest) ≡ Some n) × (n < tiles g) }

    // Where it may stand by its column and row: where it enters, and after each hop. There the ranks fall.
    ensures is_route_channel { (g : Grid) (dest r : ℕ) (q : Port) → HasTiles g → Travels g dest r q
        → IsRouteChannel g dest r q }
    ensures stands_on { (g : Grid) (dest r n : ℕ) → HasTiles g
        → neighbour g r (route g r dest) ≡ Some n
        → IsRouteChannel g dest n (opposite (route g r dest)) }
    ensures ranks_there { (g : Grid) (dest r n : ℕ) (q : Port) → HasTiles g
        → IsRouteChannel g dest r q
        → neighbour g r (route g r dest) ≡ Some n
        → rank g n (opposite (route g r dest)) < rank g r q }
{}
