ghost use Rattle.std.specs.Prelude.{◌≡◌};
ghost use Rattle.core_isa.specs.Opcodes.{opcode_of};

use crate::opcode::Opcode;

/// An instruction. Registers are numbered from 0; a target is a place in the program, from 0 to its length.
#[derive(Clone, Copy, Debug, PartialEq, Eq)]
pub enum Instr {
    /// rd = n
    Li { rd: u8, n: u32 },
    /// rd = ra + rb
    Add { rd: u8, ra: u8, rb: u8 },
    /// rd = ra - rb
    Sub { rd: u8, ra: u8, rb: u8 },
    /// rd = ra + n
    Addi { rd: u8, ra: u8, n: u32 },
    /// rd = the word at ra + n
    Ld { rd: u8, ra: u8, n: u32 },
    /// the word at ra + n = rs
    St { rs: u8, ra: u8, n: u32 },
    /// the word at ra + n becomes rd's old value, and rd the word's
    Swap { rd: u8, ra: u8, n: u32 },
    /// the word at ra + n becomes its old value + rd's, and rd the word's old value
    Fadd { rd: u8, ra: u8, n: u32 },
    /// goes to the target if ra and rb are equal
    Beq { ra: u8, rb: u8, target: u16 },
    /// goes to the target if ra and rb differ
    Bne { ra: u8, rb: u8, target: u16 },
    /// goes to the target
    Jmp { target: u16 },
    /// rd = the number of the core's tile
    Tid { rd: u8 },
    /// the core halts
    Halt,
}

impl Instr {
    pub(crate) fn opcode(&self) -> Opcode
        ensures { result ≡ opcode_of self.now }
    {
        match self {
            Instr::Li { .. } => Opcode::Li,
            Instr::Add { .. } => Opcode::Add,
            Instr::Sub { .. } => Opcode::Sub,
            Instr::Addi { .. } => Opcode::Addi,
            Instr::Ld { .. } => Opcode::Ld,
            Instr::St { .. } => Opcode::St,
            Instr::Swap { .. } => Opcode::Swap,
            Instr::Fadd { .. } => Opcode::Fadd,
            Instr::Beq { .. } => Opcode::Beq,
            Instr::Bne { .. } => Opcode::Bne,
            Instr::Jmp { .. } => Opcode::Jmp,
            Instr::Tid { .. } => Opcode::Tid,
            Instr::Halt => Opcode::Halt,
        }
    }
}
