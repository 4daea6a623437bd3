use crate::Kind;

/// A request, which all tiles see in one order.
#[derive(Clone, Copy, Debug, PartialEq, Eq)]
pub struct Request {
    /// The tile that made it.
    pub source: u8,
    /// How many requests that tile had made before.
    pub number: u32,
    pub kind: Kind,
    /// The line of memory that it is for.
    pub line: u16,
}
