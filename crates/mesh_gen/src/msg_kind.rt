/// Whether a message brings a line to a tile that asked for it (`Data`), or back to memory (`Back`).
#[derive(Clone, Copy, Debug, PartialEq, Eq)]
pub enum MsgKind {
    Data,
    Back,
}
