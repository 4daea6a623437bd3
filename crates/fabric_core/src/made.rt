/// Who does an event of the fabric: a tile, whose core did so many events by itself since the tile's last entry. The entry
/// of the event records them.
#[derive(Clone, Copy, Debug, PartialEq, Eq)]
pub struct Made {
    pub by: u8,
    pub cores: u8,
}
