ghost use Rattle.std.specs.Prelude.{◌≡◌, IfOk};
ghost use Rattle.core_isa.specs.Program.{IsProgram};

use crate::{Instr, NoMemory};
use std::alloc::Global;
use std::marker::Model;

/// A program: a list of at most 1,024 instructions, whose registers are below 8 and whose targets are places in it
/// or its end.
#[derive(Debug, Drop)]
pub struct Program {
    instrs: Vec<Instr>,
}

impl Model for Program {
    ghost use Rattle.std.specs.Prelude.{List};
    ghost use Rattle.core_isa.specs.declared.instr.Instr.{Instr};
    ghost use Rattle.core_isa.specs.Program.{IsProgram};

    ghost Value = { List Instr };

    ghost view = { λ p. p.instrs.items };

    ghost invariant = { λ p. IsProgram p.instrs.items };
}

impl Program {
    /// How many instructions a program may have.
    pub const LIMIT: usize = 1024;

    /// The program of these instructions. It takes no memory.
    pub fn new(instrs: Vec<Instr>) -> Program
        requires { IsProgram instrs.items }
        ensures { result ≡ instrs.items }
    {
        Program { instrs }
    }

    /// Its instructions in order.
    pub fn instrs(&self) -> &[Instr]
        ensures instrs { result.now ≡ self.now }
        ensures within { IsProgram self.now }
    {
        &self.instrs
    }

    /// Gives the instructions back. It takes no memory.
    pub fn into_vec(self) -> Vec<Instr>
        ensures instrs { result.items ≡ self }
        ensures within { IsProgram self }
    {
        self.instrs
    }

    /// An equal program. Only memory can be wanting.
    pub fn copy(&self, alloc: Global) -> Result<Program, NoMemory>
        ensures { IfOk result (λ copy. copy ≡ self.now) }
    {
        let instrs = Vec::from_slice(alloc, &self.instrs)?;
        Ok(Program { instrs })
    }
}
