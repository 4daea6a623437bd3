use crate::{MsgKind, Words};

/// A message with a line's words, which travels to one tile.
#[derive(Clone, Copy, Debug, PartialEq, Eq)]
pub struct Msg {
    /// The tile that it is for.
    pub to: u8,
    pub kind: MsgKind,
    pub line: u16,
    pub words: Words,
}
