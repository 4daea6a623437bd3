use mesh_gen::Kind;

/// A tile that waits for the words of a line, with what it asked for.
#[derive(Clone, Copy, Debug, PartialEq, Eq)]
pub struct Waiting {
    pub tile: u8,
    pub kind: Kind,
}
