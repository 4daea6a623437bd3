/// What has to leave a set of a cache before one more line comes in.
#[derive(Clone, Copy, Debug, PartialEq, Eq)]
pub enum Victim {
    /// Nothing: a way is empty.
    Empty,
    /// A shared line, which is dropped silently.
    DropS { line: u16 },
    /// A line that the cache owns, which has to be written back.
    Put { line: u16 },
}
