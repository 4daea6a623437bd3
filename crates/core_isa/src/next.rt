/// What a core is about to do. An address is the wrapped sum of a register and a number, whatever memory there is.
#[derive(Clone, Copy, Debug, PartialEq, Eq)]
pub enum Next {
    /// An instruction that changes nothing but the core.
    Register,
    /// A load of the word at the address into register rd.
    Load { rd: u8, address: u32 },
    /// A store of the value at the address.
    Store { address: u32, value: u32 },
    /// A swap of the value, which is register rd's, with the word at the address.
    Swap { rd: u8, address: u32, value: u32 },
    /// An add of the value, which is register rd's, to the word at the address, whose old value rd receives.
    Add { rd: u8, address: u32, value: u32 },
    /// Nothing more: it is at a `halt`, or at or past the end of its program.
    Halted,
}
