ghost use Rattle.std.specs.Prelude.{◌≡◌, List, Ok};
ghost use Rattle.core_isa.specs.declared.instr.Instr.{Instr};
ghost use Rattle.core_isa.specs.Program.{IsProgram};
ghost use Rattle.core_isa.specs.Assembly.{assembled};
ghost use Rattle.core_isa.specs.Printing.{program_text};

/// The printed lines of a program assemble to that program.
pub fn printed_program_assembles()
    ensures { (instrs : List Instr) → IsProgram instrs
        → assembled (program_text instrs) ≡ Ok instrs }
{}
