/// One call of a source or a sink failed. The count of faults of that object tells of it.
#[derive(Clone, Copy, Debug, PartialEq, Eq)]
pub struct Failed;
