ghost use Rattle.std.specs.Prelude.{◌≡◌};
ghost use Rattle.core_isa.specs.Opcodes.{form_of, opcode_named};

/// What an instruction does, without its operands. In a text it is the instruction's first word.
#[derive(Clone, Copy, Debug, PartialEq, Eq)]
pub(crate) enum Opcode {
    Li,
    Add,
    Sub,
    Addi,
    Ld,
    St,
    Swap,
    Fadd,
    Beq,
    Bne,
    Jmp,
    Tid,
    Halt,
}

impl Opcode {
    const ALL: [Opcode; 13] = [
        Opcode::Li,
        Opcode::Add,
        Opcode::Sub,
        Opcode::Addi,
        Opcode::Ld,
        Opcode::St,
        Opcode::Swap,
        Opcode::Fadd,
        Opcode::Beq,
        Opcode::Bne,
        Opcode::Jmp,
        Opcode::Tid,
        Opcode::Halt,
    ];

    pub fn word(self) -> &'static str
        ensures { result.now ≡ (form_of self).word }
    {
        match self {
            Opcode::Li => "li",
            Opcode::Add => "add",
            Opcode::Sub => "sub",
            Opcode::Addi => "addi",
            Opcode::Ld => "ld",
            Opcode::St => "st",
            Opcode::Swap => "swap",
            Opcode::Fadd => "fadd",
            Opcode::Beq => "beq",
            Opcode::Bne => "bne",
            Opcode::Jmp => "jmp",
            Opcode::Tid => "tid",
            Opcode::Halt => "halt",
        }
    }

    /// The opcode that the word names.
    #[tactic(auto, unfolding(crate::specs::Opcodes::opcode_named))]
    pub fn named(word: &[u8]) -> Option<Opcode>
        ensures { result ≡ opcode_named word.now }
    {
        Self::ALL
            .iter()
            .copied()
            .find(|opcode| word == opcode.word().as_bytes())
    }
}
