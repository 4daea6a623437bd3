ghost use Rattle.std.specs.Prelude.{◌≡◌, ◌+◌, ◌-◌, ◌*◌, ◌<◌, ◌≤◌, max};
ghost use Rattle.mesh_gen.specs.Limits.{IsFrom, AreTiles, most_side, most_tiles};

use crate::{Items, NoMemory, Port, Tiles};
use std::alloc::Global;

/// The most columns that a mesh has, and the most rows.
pub const MOST_SIDE: u8 = 8;

/// The sizes of a chip.
#[derive(Debug, Drop)]
pub struct Mesh {
    /// How many columns of tiles there are.
    pub cols: u8,
    /// How many rows of tiles there are.
    pub rows: u8,
    /// How many ticks a window of the notification network takes: enough to cross the mesh.
    pub window: u8,
    /// How many normal request channels a port has.
    pub vcs: u8,
    /// How many reply channels a port has.
    pub data_vcs: u8,
    /// How many lines of four words the memory has.
    pub lines: u16,
    /// How many sets a cache has.
    pub sets: u8,
    /// How many ways a set has.
    pub ways: u8,
    /// The tiles with a memory controller, each once.
    pub controllers: Tiles,
    ghost cols_limit: { IsFrom 1 most_side cols },
    ghost rows_limit: { IsFrom 1 most_side rows },
    ghost window_limit: { IsFrom (max 1 ((cols - 1) + (rows - 1))) 64 window },
    ghost vcs_limit: { IsFrom 1 8 vcs },
    ghost data_vcs_limit: { IsFrom 1 4 data_vcs },
    ghost lines_limit: { IsFrom 1 256 lines },
    ghost sets_limit: { IsFrom 1 64 sets },
    ghost ways_limit: { IsFrom 1 4 ways },
    ghost controllers_limit: { ∥ AreTiles (cols * rows) controllers ∥₁ },
}

impl Mesh {
    ghost use Rattle.std.specs.Prelude.{IfOk, Contains};
    ghost use Rattle.mesh_gen.specs.Grid.{tiles, x_of, y_of, diameter, distance, neighbour};
    ghost use Rattle.mesh_gen.specs.Mesh.{grid, home, HasSize};
    ghost use Rattle.mesh_gen.specs.Routes.{HasTiles};

    /// A mesh of these sizes, whose other fields have their defaults: one channel of each kind a port, 16 lines, 4 sets
    /// of one way, and one controller, at tile 0.
    pub fn of_size(alloc: Global, cols: u8, rows: u8, window: u8) -> Result<Mesh, NoMemory>
        requires cols { IsFrom 1 most_side cols }
        requires rows { IsFrom 1 most_side rows }
        requires window { IsFrom (max 1 ((cols - 1) + (rows - 1))) 64 window }
        ensures { IfOk result (HasSize cols rows window) }
    {
        Ok(Mesh {
            cols,
            rows,
            window,
            vcs: 1,
            data_vcs: 1,
            lines: 16,
            sets: 4,
            ways: 1,
            controllers: Items::new(Vec::from_slice(alloc, &[0])?),
        })
    }

    /// An equal mesh.
    pub fn copy(&self, alloc: Global) -> Result<Mesh, NoMemory>
        ensures { IfOk result (λ mesh. mesh ≡ self.now) }
    {
        Ok(Mesh {
            cols: self.cols,
            rows: self.rows,
            window: self.window,
            vcs: self.vcs,
            data_vcs: self.data_vcs,
            lines: self.lines,
            sets: self.sets,
            ways: self.ways,
            controllers: Items::new(Vec::from_slice(alloc, self.controllers.as_slice())?),
        })
    }

    /// How many tiles there are.
    pub fn tiles(&self) -> u8
        ensures tiles { result ≡ tiles (grid self.now) }
        ensures limits { IsFrom 1 most_tiles result }
        ensures some { HasTiles (grid self.now) }
    {
        self.cols * self.rows
    }

    /// How many hops the tiles that are farthest apart are from each other.
    pub fn diameter(&self) -> u8
        ensures { result ≡ diameter (grid self.now) }
    {
        (self.cols - 1) + (self.rows - 1)
    }

    // The tile's column.
    #[tactic(auto, unfolding(crate::specs::Grid::x_of))]
    pub(crate) fn x(&self, t: u8) -> u8
        ensures column { result ≡ x_of (grid self.now) t }
        ensures inside { result < self.now.cols }
    {
        t % self.cols
    }

    // The tile's row.
    #[tactic(auto, unfolding(crate::specs::Grid::y_of))]
    pub(crate) fn y(&self, t: u8) -> u8
        requires { t < tiles (grid self.now) }
        ensures row { result ≡ y_of (grid self.now) t }
        ensures inside { result < self.now.rows }
    {
        t / self.cols
    }

    /// How many hops one tile is from another.
    pub fn distance(&self, a: u8, b: u8) -> u8
        requires from { a < tiles (grid self.now) }
        requires to { b < tiles (grid self.now) }
        ensures { result ≡ distance (grid self.now) a b }
    {
        self.x(a).abs_diff(self.x(b)) + self.y(a).abs_diff(self.y(b))
    }

    /// The tile on a side of a tile. None stands beyond an edge, on the tile's own side, and beside what is no tile.
    pub fn neighbour(&self, r: u8, out: Port) -> Option<u8>
        ensures { result ≡ neighbour (grid self.now) r out }
    {
        if r >= self.tiles() {
            return None;
        }
        match out {
            Port::L => None,
            Port::E => (self.x(r) + 1 < self.cols).then_some(r + 1),
            Port::W => (self.x(r) > 0).then_some(r.saturating_sub(1)),
            Port::N => (self.y(r) > 0).then_some(r.saturating_sub(self.cols)),
            Port::S => (self.y(r) + 1 < self.rows).then_some(r + self.cols),
        }
    }

    /// The tile whose memory controller keeps a line: the lines go round the controllers.
    pub fn home(&self, line: u16) -> u8
        requires { line < self.now.lines }
        ensures home { result ≡ home self.now line }
        ensures controller { Contains self.now.controllers result }
        ensures tile { result < tiles (grid self.now) }
    {
        let controllers = self.controllers.as_slice();
        controllers[usize::from(line) % controllers.len()]
    }
}
