/// What a request asks for a line of memory: a copy to read, a copy to write, or to give the line back to memory.
#[derive(Clone, Copy, Debug, PartialEq, Eq)]
pub enum Kind {
    GetS,
    GetM,
    PutM,
}
