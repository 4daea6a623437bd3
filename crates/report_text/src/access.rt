ghost use Rattle.std.specs.Prelude.{◌≡◌};
ghost use Rattle.report_text.specs.Accesses.{reads, writes, word_after};

/// What an access does to its word of memory.
#[derive(Clone, Copy, Debug, PartialEq, Eq)]
pub enum AccessKind {
    Load,
    Store,
    /// It stores a value and receives the old word.
    Swap,
    /// It adds a value to the word and receives the old word.
    Add,
}

impl AccessKind {
    /// It receives the word.
    pub fn reads(self) -> bool
        ensures { result ≡ reads self }
    {
        match self {
            AccessKind::Load | AccessKind::Swap | AccessKind::Add => true,
            AccessKind::Store => false,
        }
    }

    /// It changes the word.
    pub fn writes(self) -> bool
        ensures { result ≡ writes self }
    {
        match self {
            AccessKind::Store | AccessKind::Swap | AccessKind::Add => true,
            AccessKind::Load => false,
        }
    }

    /// The word after an access of this kind, by the value of its register and the word before.
    pub fn word_after(self, value: u32, word: u32) -> u32
        ensures { result ≡ word_after self value word }
    {
        match self {
            AccessKind::Load => word,
            AccessKind::Store | AccessKind::Swap => value,
            AccessKind::Add => word.wrapping_add(value),
        }
    }
}

/// An access that a core performed. The large fields come first, since a value lies in memory as it is declared and a run
/// keeps one for each access.
#[derive(Clone, Copy, Debug, PartialEq, Eq)]
pub struct Access {
    /// How many instructions the core had done before.
    pub number: u64,
    /// Its place in the order of the chip.
    pub time: u64,
    /// The address of the word.
    pub address: u32,
    /// The word after the access.
    pub value: u32,
    /// The word before a swap or an add, and 0 for a load or a store.
    pub old: u32,
    pub tile: u8,
    pub kind: AccessKind,
}
