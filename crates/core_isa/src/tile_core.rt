ghost use Rattle.std.specs.Prelude.{◌≡◌, ◌+◌, ◌<◌, ◌≤◌, ◌^◌, None, Some, false, IsTrue, MatchBool, length, if◌then◌else◌};
ghost use Rattle.core_isa.specs.Program.{IsProgram, IsRegister, IsWithin, limit};
ghost use Rattle.core_isa.specs.Core.{IsCore, new_core, register, wrapped_sum, gone_to, gone_on, with_result, instr_at, next_of, is_halt, is_load, is_store, is_read_modify_write, stepped, advanced, loaded, stored, DidMore};

use crate::{Instr, Next, Program};
use std::marker::Model;

/// The core of a tile: eight registers of 32 bits, its place in a program, and how many instructions it has done. The
/// program is handed to each call, and need not be the one of the call before.
#[derive(Debug, Drop)]
pub struct Core {
    tile: u8,
    registers: [u32; 8],
    place: u16,
    steps: u64,
}

impl Model for Core {
    ghost use Rattle.std.specs.Prelude.{◌≤◌};
    ghost use Rattle.core_isa.specs.Program.{limit};
    ghost use Rattle.core_isa.specs.Core.{CoreState};

    ghost Value = { CoreState };

    ghost view = { λ core. record {
      tile = core.tile;
      registers = core.registers;
      place = core.place;
      steps = core.steps;
    } };

    ghost invariant = { λ core. core.place ≤ limit };
}

impl Core {
    /// A core that has done nothing: its registers are 0, and it is at the first place.
    pub fn new(tile: u8) -> Core
        ensures { result ≡ new_core tile }
    {
        Core {
            tile,
            registers: [0; 8],
            place: 0,
            steps: 0,
        }
    }

    /// How many instructions it has done.
    pub fn steps(&self) -> u64
        ensures steps { result ≡ self.now.steps }
        ensures within { IsCore self.now }
    {
        self.steps
    }

    /// What it is about to do.
    #[tactic(auto, unfolding(crate::specs::Core::next_of))]
    pub fn next(&self, program: &Program) -> Next
        ensures { result ≡ next_of program.now self.now }
    {
        match self.instr(program) {
            Instr::Ld { rd, ra, n } => Next::Load {
                rd,
                address: self.address(ra, n),
            },
            Instr::St { rs, ra, n } => Next::Store {
                address: self.address(ra, n),
                value: self.register(rs),
            },
            Instr::Swap { rd, ra, n } => Next::Swap {
                rd,
                address: self.address(ra, n),
                value: self.register(rd),
            },
            Instr::Fadd { rd, ra, n } => Next::Add {
                rd,
                address: self.address(ra, n),
                value: self.register(rd),
            },
            Instr::Halt => Next::Halted,
            Instr::Li { .. }
            | Instr::Add { .. }
            | Instr::Sub { .. }
            | Instr::Addi { .. }
            | Instr::Beq { .. }
            | Instr::Bne { .. }
            | Instr::Jmp { .. }
            | Instr::Tid { .. } => Next::Register,
        }
    }

    /// Does register instructions until n are done or the next is none, and answers how many.
    pub fn advance(&mut self, program: &Program, n: u64) -> u64
        requires { self.old.steps + n < 2 ^ 63 }
        ensures count { result ≤ n }
        ensures done { advanced program.now result self.old ≡ Some self.new }
        ensures stops { result < n → stepped program.now self.new ≡ None }
        ensures short { result < n → advanced program.now n self.old ≡ None }
        ensures more { DidMore result self.old self.new }
    {
        for done in 0..n {
            if !self.step(program) {
                return done;
            }
        }
        n
    }

    /// The load that is next is done: its register has the value.
    #[tactic(auto, unfolding(crate::specs::Core::loaded, crate::specs::Core::next_of))]
    pub fn load_done(&mut self, program: &Program, value: u32)
        requires next { IsTrue (is_load (next_of program.now self.old)) }
        requires steps { self.old.steps + 1 < 2 ^ 63 }
        ensures { self.new ≡ loaded program.now value self.old }
    {
        if let Instr::Ld { rd, .. } = self.instr(program) {
            self.set(rd, value);
        }
    }

    /// The store that is next is done.
    #[tactic(auto, unfolding(crate::specs::Core::next_of))]
    pub fn store_done(&mut self, program: &Program)
        requires next { IsTrue (is_store (next_of program.now self.old)) }
        requires steps { self.old.steps + 1 < 2 ^ 63 }
        ensures { self.new ≡ stored self.old }
    {
        if let Instr::St { .. } = self.instr(program) {
            self.go_on();
        }
    }

    /// The swap or add that is next is done: its register has the old value of the word.
    #[tactic(auto, unfolding(crate::specs::Core::loaded, crate::specs::Core::next_of))]
    pub fn both_done(&mut self, program: &Program, old: u32)
        requires next { IsTrue (is_read_modify_write (next_of program.now self.old)) }
        requires steps { self.old.steps + 1 < 2 ^ 63 }
        ensures { self.new ≡ loaded program.now old self.old }
    {
        if let Instr::Swap { rd, .. } | Instr::Fadd { rd, .. } = self.instr(program) {
            self.set(rd, old);
        }
    }

    // Does the next instruction where it is a register instruction, and says whether it is one.
    #[tactic(auto, unfolding(crate::specs::Core::stepped))]
    fn step(&mut self, program: &Program) -> bool
        requires { self.old.steps + 1 < 2 ^ 63 }
        ensures { MatchBool result (stepped program.now self.old ≡ Some self.new)
            ((stepped program.now self.old ≡ None) × (self.new ≡ self.old)) }
    {
        match self.instr(program) {
            Instr::Li { rd, n } => self.set(rd, n),
            Instr::Add { rd, ra, rb } => {
                self.set(rd, self.register(ra).wrapping_add(self.register(rb)));
            }
            Instr::Sub { rd, ra, rb } => {
                self.set(rd, self.register(ra).wrapping_sub(self.register(rb)));
            }
            Instr::Addi { rd, ra, n } => self.set(rd, self.register(ra).wrapping_add(n)),
            Instr::Beq { ra, rb, target } => {
                self.branch(self.register(ra) == self.register(rb), target);
            }
            Instr::Bne { ra, rb, target } => {
                self.branch(self.register(ra) != self.register(rb), target);
            }
            Instr::Jmp { target } => self.go_to(target),
            Instr::Tid { rd } => self.set(rd, u32::from(self.tile)),
            Instr::Ld { .. }
            | Instr::St { .. }
            | Instr::Swap { .. }
            | Instr::Fadd { .. }
            | Instr::Halt => return false,
        }
        true
    }

    // The instruction at its place, and `halt` at or past the end.
    fn instr(&self, program: &Program) -> Instr
        ensures value { result ≡ instr_at program.now self.now.place }
        ensures within { IsWithin (length program.now) result }
        ensures inside { is_halt result ≡ false → self.now.place < limit }
        ensures limited { length program.now ≤ limit }
    {
        match program.instrs().get(usize::from(self.place)) {
            Some(instr) => *instr,
            None => Instr::Halt,
        }
    }

    fn register(&self, r: u8) -> u32
        requires { IsRegister r }
        ensures { result ≡ register r self.now }
    {
        self.registers[usize::from(r)]
    }

    // The address of an access: a register and a number.
    fn address(&self, ra: u8, n: u32) -> u32
        requires { IsRegister ra }
        ensures { result ≡ wrapped_sum (register ra self.now) n }
    {
        self.register(ra).wrapping_add(n)
    }

    // An instruction with this result is done.
    fn set(&mut self, rd: u8, value: u32)
        requires register { IsRegister rd }
        requires place { self.old.place < limit }
        requires steps { self.old.steps + 1 < 2 ^ 63 }
        ensures { self.new ≡ with_result rd value self.old }
    {
        self.registers[usize::from(rd)] = value;
        self.go_on();
    }

    // A branch is done: to the target where it is taken, and else on.
    fn branch(&mut self, taken: bool, target: u16)
        requires target { target ≤ limit }
        requires place { self.old.place < limit }
        requires steps { self.old.steps + 1 < 2 ^ 63 }
        ensures { self.new ≡ gone_to (if taken then target else self.old.place + 1) self.old }
    {
        if taken {
            self.go_to(target);
        } else {
            self.go_on();
        }
    }

    fn go_on(&mut self)
        requires place { self.old.place < limit }
        requires steps { self.old.steps + 1 < 2 ^ 63 }
        ensures { self.new ≡ gone_on self.old }
    {
        self.go_to(self.place + 1);
    }

    fn go_to(&mut self, place: u16)
        requires place { place ≤ limit }
        requires steps { self.old.steps + 1 < 2 ^ 63 }
        ensures { self.new ≡ gone_to place self.old }
    {
        self.place = place;
        self.steps += 1;
    }
}
