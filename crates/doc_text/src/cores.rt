ghost use Rattle.core_isa.specs.Printing.{program_text};
ghost use Rattle.outside_io.specs.Streams.{stream, Writes};
ghost use Rattle.doc_text.specs.Canonical.{code_text, core_text, cores_text};

use crate::line::{write_name, write_number_line};
use crate::{Document, Key};
use core_isa::{Instr, print_instr};
use outside_io::{Sink, WriteFault, write_piece};

/// Writes the lines of the tiles' programs.
pub(crate) fn write_cores<K: Sink>(document: &Document, sink: &mut K) -> Result<(), WriteFault>
    ensures { Writes (stream K.held K.faults sink.old sink.new)
        (cores_text 0 document.now.programs) result }
{
    let programs = document.programs.as_slice();
    for (tile, program) in programs.iter().enumerate() {
        write_core(tile, program.instrs(), sink)?;
    }
    Ok(())
}

// An empty line and the lines of a tile's program, where it has instructions.
fn write_core<K: Sink>(tile: usize, instrs: &[Instr], sink: &mut K) -> Result<(), WriteFault>
    ensures { Writes (stream K.held K.faults sink.old sink.new) (core_text tile instrs.now) result }
{
    if instrs.is_empty() {
        return Ok(());
    }
    write_piece(sink, b"\n")?;
    write_name("[[", Key::Core, "]]\n", sink)?;
    write_number_line(Key::Tile, tile, sink)?;
    write_code(instrs, sink)
}

// The lines of a program, between the line of its key and the end of the text.
fn write_code<K: Sink>(instrs: &[Instr], sink: &mut K) -> Result<(), WriteFault>
    ensures { Writes (stream K.held K.faults sink.old sink.new) (code_text instrs.now) result }
{
    write_name("", Key::Code, " = '''\n", sink)?;
    write_instrs(instrs, sink)?;
    write_piece(sink, b"'''\n")
}

// The lines of the instructions.
fn write_instrs<K: Sink>(instrs: &[Instr], sink: &mut K) -> Result<(), WriteFault>
    ensures { Writes (stream K.held K.faults sink.old sink.new) (program_text instrs.now) result }
{
    for instr in instrs {
        print_instr(instr, sink)?;
    }
    Ok(())
}
