/// Who supplies a line.
#[derive(Clone, Copy, Debug, PartialEq, Eq)]
pub enum Owner {
    Memory,
    Tile(u8),
}
