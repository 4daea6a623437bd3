ghost use Rattle.std.specs.Prelude.{◌≡◌, ◌↔◌, true, false};
ghost use Rattle.doc_text.specs.Doc.{doc_of};
ghost use Rattle.chip_model.specs.Schedules.{IsForward};
ghost use Rattle.progress_core.specs.Forward.{goes_forward, ProgramIsForward};

use core_isa::{Instr, Program};
use doc_text::Document;

/// Whether each branch and jump of each program goes to a later place.
pub fn forward_only(document: &Document) -> bool
    ensures { (result ≡ true) ↔ IsForward (doc_of document.now) }
{
    for program in document.programs.as_slice() {
        if !program_is_forward(program) {
            return false;
        }
    }
    true
}

// Whether each branch and jump of a program does.
fn program_is_forward(program: &Program) -> bool
    ensures forward { result ≡ true → ProgramIsForward program.now }
    ensures backward { result ≡ false → ProgramIsForward program.now → ⊥ }
{
    for (place, instr) in program.instrs().iter().enumerate() {
        if !instr_goes_forward(place, *instr) {
            return false;
        }
    }
    true
}

// Whether the instruction at a place goes to no place but later ones.
fn instr_goes_forward(place: usize, instr: Instr) -> bool
    ensures { result ≡ goes_forward place instr }
{
    match instr {
        Instr::Beq { target, .. } | Instr::Bne { target, .. } | Instr::Jmp { target } => {
            place < usize::from(target)
        }
        _ => true,
    }
}
