/// There was no memory for the table or its seats.
#[derive(Clone, Copy, Debug, PartialEq, Eq)]
pub struct NoMemory;
