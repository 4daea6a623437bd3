use report_text::AccessKind;

/// An access that a core asks for.
#[derive(Clone, Copy, Debug, PartialEq, Eq)]
pub struct Pending {
    pub kind: AccessKind,
    pub address: u32,
    /// What it writes, or adds; not used for a load.
    pub value: u32,
}
