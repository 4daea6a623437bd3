//! What the table of keys says of a key's value.

/// What a key's value is.
#[derive(Clone, Copy, Debug, PartialEq, Eq)]
pub enum Shape {
    Table,
    Integer,
    Text,
    /// A list of integers.
    Integers,
    /// A list of lists of integers.
    Lists,
    /// A list of tables.
    Tables,
}

/// What stands for a key that is left out.
#[derive(Clone, Copy, Debug, PartialEq, Eq)]
pub enum Omitted {
    /// Nothing: the key has to be there.
    Refused,
    /// A number.
    Default { number: u16 },
    /// The list of tile 0 alone.
    FirstTile,
    /// The empty list.
    Empty,
}

/// Which values of its kind a key takes.
#[derive(Clone, Copy, Debug, PartialEq, Eq)]
pub enum Limit {
    /// Every one.
    Free,
    /// A number from the least to the most.
    Number { least: u16, most: u16 },
    /// A number of ticks in which the mesh is crossed, at most 64.
    Ticks,
    /// The number of a tile.
    Tile,
    /// Some tiles, at most as many as there are.
    Tiles,
    /// At most 4,096 lists of some tiles, each once.
    Windows,
    /// At most four words of 32 bits a line.
    Words,
}
