use report_text::AccessKind;

/// An access that a node performed.
#[derive(Clone, Copy, Debug, PartialEq, Eq)]
pub struct Done {
    pub kind: AccessKind,
    pub address: u32,
    pub value: u32,
    /// The delivered count of a hit; one more than the place of the request by which a miss was served.
    pub time: u64,
    /// The word before, of an access that both reads and writes; else 0.
    pub old: u32,
}
