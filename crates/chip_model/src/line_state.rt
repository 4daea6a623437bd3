/// The state of a line in a cache. A line without a valid copy has none: the cache keeps nothing of it.
#[derive(Clone, Copy, Debug, PartialEq, Eq)]
pub enum State {
    /// Modified: the only valid copy, which may be written.
    M,
    /// Owned: this cache supplies the line, and others may share it.
    O,
    /// Shared: a copy that may be read.
    S,
}
