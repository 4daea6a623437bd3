ghost use Rattle.std.specs.Prelude.{◌≡◌, ◌+◌, ◌≤◌, ◌∷◌, ◌++◌};
ghost use Rattle.arrayvec.specs.ArrayString.{array_string_len};
ghost use Rattle.outside_io.specs.Streams.{stream, Writes};
ghost use Rattle.core_isa.specs.Opcodes.{form_of, opcode_of, operands_of, Register, Number, Target};
ghost use Rattle.core_isa.specs.Printing.{operand_text, operand_texts, text_of};

use crate::Instr;
use crate::opcode::Opcode;
use arrayvec::ArrayString;
use itoa::Buffer;
use outside_io::{Sink, WriteFault, write_piece};

// Room for a word of four letters and the longest operands, and a line feed.
const LINE_SIZE: usize = 32;

/// Writes the line of an instruction, with its line feed, as one piece. It takes no memory.
pub fn print_instr<K: Sink>(instr: &Instr, sink: &mut K) -> Result<(), WriteFault>
    ensures { Writes (stream K.held K.faults sink.old sink.new) (text_of instr.now) result }
{
    let line = line_text(instr);
    write_piece(sink, line.as_str().as_bytes())
}

fn line_text(instr: &Instr) -> ArrayString<LINE_SIZE>
    ensures { result.bytes ≡ text_of instr.now }
{
    let mut line = opcode_text(instr.opcode());
    push_operands(&mut line, instr);
    line.push('\n');
    line
}

fn opcode_text(opcode: Opcode) -> ArrayString<LINE_SIZE>
    ensures text { result.bytes ≡ (form_of opcode).word }
    ensures len { array_string_len result ≤ 4 }
{
    let mut line = ArrayString::new();
    line.push_str(opcode.word());
    line
}

fn push_operands(line: &mut ArrayString<LINE_SIZE>, instr: &Instr)
    requires { array_string_len line.old ≤ 4 }
    ensures text { line.new.bytes ≡ line.old.bytes
        ++ operand_texts (form_of (opcode_of instr.now)).shapes (operands_of instr.now) }
    ensures len { array_string_len line.new ≤ 30 }
{
    match *instr {
        Instr::Li { rd, n } => {
            push_register(line, rd);
            push_number(line, n);
        }
        Instr::Add { rd, ra, rb } | Instr::Sub { rd, ra, rb } => {
            push_register(line, rd);
            push_register(line, ra);
            push_register(line, rb);
        }
        Instr::Addi { rd, ra, n }
        | Instr::Ld { rd, ra, n }
        | Instr::St { rs: rd, ra, n }
        | Instr::Swap { rd, ra, n }
        | Instr::Fadd { rd, ra, n } => {
            push_register(line, rd);
            push_register(line, ra);
            push_number(line, n);
        }
        Instr::Beq { ra, rb, target } | Instr::Bne { ra, rb, target } => {
            push_register(line, ra);
            push_register(line, rb);
            push_target(line, target);
        }
        Instr::Jmp { target } => push_target(line, target),
        Instr::Tid { rd } => push_register(line, rd),
        Instr::Halt => {}
    }
}

fn push_register(line: &mut ArrayString<LINE_SIZE>, register: u8)
    requires { array_string_len line.old + 5 ≤ LINE_SIZE }
    ensures text { line.new.bytes ≡ line.old.bytes ++ 32 ∷ operand_text Register register }
    ensures len { array_string_len line.new ≤ array_string_len line.old + 5 }
{
    line.push_str(" r");
    line.push_str(Buffer::new().format(register));
}

fn push_number(line: &mut ArrayString<LINE_SIZE>, number: u32)
    requires { array_string_len line.old + 11 ≤ LINE_SIZE }
    ensures text { line.new.bytes ≡ line.old.bytes ++ 32 ∷ operand_text Number number }
    ensures len { array_string_len line.new ≤ array_string_len line.old + 11 }
{
    line.push_str(" ");
    line.push_str(Buffer::new().format(number));
}

fn push_target(line: &mut ArrayString<LINE_SIZE>, target: u16)
    requires { array_string_len line.old + 7 ≤ LINE_SIZE }
    ensures text { line.new.bytes ≡ line.old.bytes ++ 32 ∷ operand_text Target target }
    ensures len { array_string_len line.new ≤ array_string_len line.old + 7 }
{
    line.push_str(" @");
    line.push_str(Buffer::new().format(target));
}
