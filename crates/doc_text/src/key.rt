ghost use Rattle.std.specs.Prelude.{◌≡◌, Some};
ghost use Rattle.doc_text.specs.Keys.{row_of, keys_at};
ghost use Rattle.doc_text.specs.Messages.{key_text};

use crate::{Limit, Omitted, Shape};
use mesh_gen::MOST_SIDE;
use std::fmt;

/// A table of a document that has keys of its own.
#[derive(Clone, Copy, Debug, PartialEq, Eq)]
pub enum Level {
    /// The whole document.
    Top,
    /// The table of the mesh.
    Mesh,
    /// The table of one core.
    Core,
}

/// A key of a document.
#[derive(Clone, Copy, Debug, PartialEq, Eq)]
pub enum Key {
    Mesh,
    Posts,
    Core,
    Cols,
    Rows,
    Window,
    Vcs,
    DataVcs,
    Lines,
    Sets,
    Ways,
    Controllers,
    Memory,
    Tile,
    Code,
}

impl Level {
    /// The keys of the table, in their order.
    pub fn keys(self) -> &'static [Key]
        ensures { result.now ≡ keys_at self }
    {
        match self {
            Level::Top => &[Key::Mesh, Key::Posts, Key::Core],
            Level::Mesh => &[
                Key::Cols,
                Key::Rows,
                Key::Window,
                Key::Vcs,
                Key::DataVcs,
                Key::Lines,
                Key::Sets,
                Key::Ways,
                Key::Controllers,
                Key::Memory,
            ],
            Level::Core => &[Key::Tile, Key::Code],
        }
    }
}

impl Key {
    /// The table in which the key stands.
    pub fn level(self) -> Level
        ensures { result ≡ (row_of self).level }
    {
        match self {
            Key::Mesh | Key::Posts | Key::Core => Level::Top,
            Key::Tile | Key::Code => Level::Core,
            _ => Level::Mesh,
        }
    }

    /// The key as it is written in its table.
    pub fn name(self) -> &'static str
        ensures { result.now ≡ (row_of self).name }
    {
        match self {
            Key::Mesh => "mesh",
            Key::Posts => "posts",
            Key::Core => "core",
            Key::Cols => "cols",
            Key::Rows => "rows",
            Key::Window => "window",
            Key::Vcs => "vcs",
            Key::DataVcs => "data_vcs",
            Key::Lines => "lines",
            Key::Sets => "sets",
            Key::Ways => "ways",
            Key::Controllers => "controllers",
            Key::Memory => "memory",
            Key::Tile => "tile",
            Key::Code => "code",
        }
    }

    /// What the key's value is.
    pub fn shape(self) -> Shape
        ensures { result ≡ (row_of self).shape }
    {
        match self {
            Key::Mesh => Shape::Table,
            Key::Posts => Shape::Lists,
            Key::Core => Shape::Tables,
            Key::Controllers | Key::Memory => Shape::Integers,
            Key::Code => Shape::Text,
            _ => Shape::Integer,
        }
    }

    /// What stands for the key where it is left out.
    pub fn omitted(self) -> Omitted
        ensures { result ≡ (row_of self).omitted }
    {
        match self {
            Key::Posts | Key::Core | Key::Memory => Omitted::Empty,
            Key::Vcs | Key::DataVcs | Key::Ways => Omitted::Default { number: 1 },
            Key::Lines => Omitted::Default { number: 16 },
            Key::Sets => Omitted::Default { number: 4 },
            Key::Controllers => Omitted::FirstTile,
            _ => Omitted::Refused,
        }
    }

    /// Which values the key takes.
    pub fn limit(self) -> Limit
        ensures { result ≡ (row_of self).limit }
    {
        match self {
            Key::Mesh | Key::Core | Key::Code => Limit::Free,
            Key::Posts => Limit::Windows,
            Key::Cols | Key::Rows => Limit::Number {
                least: 1,
                most: u16::from(MOST_SIDE),
            },
            Key::Window => Limit::Ticks,
            Key::Vcs => Limit::Number { least: 1, most: 8 },
            Key::DataVcs | Key::Ways => Limit::Number { least: 1, most: 4 },
            Key::Lines => Limit::Number {
                least: 1,
                most: 256,
            },
            Key::Sets => Limit::Number { least: 1, most: 64 },
            Key::Controllers => Limit::Tiles,
            Key::Memory => Limit::Words,
            Key::Tile => Limit::Tile,
        }
    }
}

/// The key after the key of its table, as `mesh.window`.
impl fmt::Display for Key {
    ghost output = { λ key. Some (key_text key) };

    fn fmt<W: fmt::Write>(&self, f: &mut fmt::Formatter<W>) -> fmt::Result {
        match self.level() {
            Level::Top => f.write_str(self.name()),
            Level::Mesh => write!(f, "{}.{}", Key::Mesh.name(), self.name()),
            Level::Core => write!(f, "{}.{}", Key::Core.name(), self.name()),
        }
    }
}
