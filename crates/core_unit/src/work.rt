use chip_model::Pending;

/// What a core event of an in-order core is to do.
#[derive(Clone, Copy, Debug, PartialEq, Eq)]
pub(crate) enum Work {
    /// Nothing: the core has halted, or waits for the words of an access.
    Wait,
    /// A register instruction.
    Execute,
    /// The core halts.
    Halt,
    /// It tries this access at the node.
    Try(Pending),
}
