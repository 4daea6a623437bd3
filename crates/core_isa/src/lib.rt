//! The instruction set of the cores, its text both ways (programs as checked lists of instructions, an assembler and a
//! printer), and the core that does instructions.
#![tactic(auto)]

mod assembly;
mod fault;
mod instr;
mod labels;
mod laws;
mod line;
mod next;
mod no_memory;
mod opcode;
mod operands;
mod printing;
mod program;
mod steps;
mod tile_core;
mod word;

pub use assembly::assemble;
pub use fault::{AsmEnd, AsmFault, AsmKind};
pub use instr::Instr;
pub use laws::printed_program_assembles;
pub use next::Next;
pub use no_memory::NoMemory;
pub use printing::print_instr;
pub use program::Program;
pub use steps::core_laws;
pub use tile_core::Core;
