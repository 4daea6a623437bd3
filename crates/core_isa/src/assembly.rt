ghost use Rattle.std.specs.Prelude.{◌≡◌, [], ◌∷◌, ◌++◌, Some, None, Ok, Err, IfOk, IfErr, OnOk, MatchResult};
ghost use Rattle.std.specs.List.{slice_split};
ghost use Rattle.std.specs.Option.{option_to_list};
ghost use Rattle.core_isa.specs.Lines.{is_line_feed};
ghost use Rattle.core_isa.specs.Operands.{scope_of};
ghost use Rattle.core_isa.specs.Assembly.{assembled, first_failing, label_checks, first_fault, IfFault};
ghost use Rattle.core_isa.specs.LineSeen.{texts_seen, label_seen, line_seen, lines_seen};
ghost use Rattle.core_isa.specs.LabelsSeen.{scope_seen};
ghost use Rattle.core_isa.specs.OperandsSeen.{words_seen};
ghost use Rattle.core_isa.specs.Reading.{ReadsInstr, ReadsNamed, ReadsWords, ReadsLine, IsAssembled};

use crate::labels::Labels;
use crate::line::Line;
use crate::opcode::Opcode;
use crate::operands::Operands;
use crate::word::is_label_name;
use crate::{AsmEnd, AsmFault, AsmKind, Instr, NoMemory, Program};
use std::alloc::Global;

/// The program of a text, or its first fault.
pub fn assemble(alloc: Global, text: &str) -> Result<Program, AsmEnd>
    ensures ok { IfOk result (λ program. assembled text.now ≡ Ok program) }
    ensures fault { IfErr result (IfFault (λ fault. assembled text.now ≡ Err fault)) }
{
    let lines = split_lines(alloc, text.as_bytes())?;
    let whole = labels_of(alloc, &lines)?;
    let instrs = assemble_lines(alloc, &lines, &whole)?;
    Ok(Program::new(instrs))
}

fn split_lines(alloc: Global, text: &[u8]) -> Result<Vec<&[u8]>, NoMemory>
    ensures { IfOk result (λ lines. texts_seen lines.items ≡ slice_split is_line_feed text.now) }
{
    text.split(|byte| *byte == b'\n').collect(alloc)
}

// The labels of the whole text, and the number of its instructions.
fn labels_of<'a>(alloc: Global, lines: &[&'a [u8]]) -> Result<Labels<'a>, NoMemory>
    ensures { IfOk result (λ labels. scope_seen labels ≡ scope_of (lines_seen lines.now)) }
{
    let mut labels = Labels::new(alloc);
    for raw in lines {
        labels.add(&Line::read(alloc, raw)?)?;
    }
    Ok(labels)
}

fn assemble_lines<'a>(
    alloc: Global,
    lines: &[&'a [u8]],
    whole: &Labels<'a>,
) -> Result<Vec<Instr>, AsmEnd>
    ensures ok { IfOk result (λ instrs.
        IsAssembled (scope_seen whole.now) (lines_seen lines.now) instrs.items) }
    ensures fault { IfErr result (IfFault (λ fault.
        first_fault (scope_seen whole.now) [] (lines_seen lines.now) ≡ Some fault)) }
{
    let mut before = Labels::new(alloc);
    let mut instrs = Vec::new(alloc);
    for (index, raw) in lines.iter().enumerate() {
        let line = Line::read(alloc, raw)?;
        let instr = match instr_of_line(&line, whole, &before) {
            Ok(instr) => instr,
            Err(kind) => {
                let line = index as u64 + 1;
                return Err(AsmEnd::Fault(AsmFault { line, kind }));
            }
        };
        push_some(&mut instrs, instr)?;
        before.add(&line)?;
    }
    Ok(instrs)
}

fn push_some(instrs: &mut Vec<Instr>, instr: Option<Instr>) -> Result<(), NoMemory>
    ensures { OnOk result (instrs.new.items ≡ instrs.old.items ++ option_to_list instr) }
{
    if let Some(instr) = instr {
        instrs.push(instr)?;
    }
    Ok(())
}

// The instruction of a line, if it has one, or its first kind of fault. The labels are those of the whole text, and
// those of the lines before.
fn instr_of_line<'a>(
    line: &Line<'a>,
    whole: &Labels<'a>,
    before: &Labels<'a>,
) -> Result<Option<Instr>, AsmKind>
    ensures { ReadsLine (scope_seen whole.now) (scope_seen before.now) (line_seen line.now) result }
{
    check_label(line.label, before)?;
    instr_of_words(line.words.as_slice(), whole, before)
}

// A label is a name, and stands on no line before.
fn check_label<'a>(label: Option<&'a [u8]>, before: &Labels<'a>) -> Result<(), AsmKind>
    ensures { let checks = label_checks (scope_seen before.now) (label_seen label.entry) in
        MatchResult result (λ _. first_failing checks ≡ None)
        (λ kind. first_failing checks ≡ Some kind) }
{
    let Some(label) = label else {
        return Ok(());
    };
    if !is_label_name(label) {
        return Err(AsmKind::Word);
    }
    if before.place(label).is_some() {
        return Err(AsmKind::Label);
    }
    Ok(())
}

fn instr_of_words<'a>(
    words: &[&'a [u8]],
    whole: &Labels<'a>,
    before: &Labels<'a>,
) -> Result<Option<Instr>, AsmKind>
    ensures { ReadsWords
        (scope_seen whole.now) (scope_seen before.now) (texts_seen words.now) result }
{
    match words {
        [] => Ok(None),
        [word, operands @ ..] => {
            let instr = instr_named(word, operands, whole, before)?;
            Ok(Some(instr))
        }
    }
}

// The instruction whose first word is given, and which stands after those of the lines before.
fn instr_named<'a>(
    word: &'a [u8],
    operands: &[&'a [u8]],
    whole: &Labels<'a>,
    before: &Labels<'a>,
) -> Result<Instr, AsmKind>
    ensures { ReadsNamed (scope_seen whole.now) (scope_seen before.now)
        (word.now ∷ texts_seen operands.now) result }
{
    let Some(opcode) = Opcode::named(word) else {
        return Err(AsmKind::Word);
    };
    if before.count() >= Program::LIMIT {
        return Err(AsmKind::Length);
    }
    instr_with_operands(
        opcode,
        &Operands {
            words: operands,
            whole,
        },
    )
}

fn instr_with_operands(opcode: Opcode, operands: &Operands<'_, '_>) -> Result<Instr, AsmKind>
    ensures { ReadsInstr
        (scope_seen operands.now.whole.now) opcode (words_seen operands.now) result }
{
    match opcode {
        Opcode::Li => {
            let (rd, n) = operands.register_and_number()?;
            Ok(Instr::Li { rd, n })
        }
        Opcode::Add => {
            let (rd, ra, rb) = operands.three_registers()?;
            Ok(Instr::Add { rd, ra, rb })
        }
        Opcode::Sub => {
            let (rd, ra, rb) = operands.three_registers()?;
            Ok(Instr::Sub { rd, ra, rb })
        }
        Opcode::Addi => {
            let (rd, ra, n) = operands.two_registers_and_number()?;
            Ok(Instr::Addi { rd, ra, n })
        }
        Opcode::Ld => {
            let (rd, ra, n) = operands.two_registers_and_number()?;
            Ok(Instr::Ld { rd, ra, n })
        }
        Opcode::St => {
            let (rs, ra, n) = operands.two_registers_and_number()?;
            Ok(Instr::St { rs, ra, n })
        }
        Opcode::Swap => {
            let (rd, ra, n) = operands.two_registers_and_number()?;
            Ok(Instr::Swap { rd, ra, n })
        }
        Opcode::Fadd => {
            let (rd, ra, n) = operands.two_registers_and_number()?;
            Ok(Instr::Fadd { rd, ra, n })
        }
        Opcode::Beq => {
            let (ra, rb, target) = operands.two_registers_and_target()?;
            Ok(Instr::Beq { ra, rb, target })
        }
        Opcode::Bne => {
            let (ra, rb, target) = operands.two_registers_and_target()?;
            Ok(Instr::Bne { ra, rb, target })
        }
        Opcode::Jmp => {
            let target = operands.target()?;
            Ok(Instr::Jmp { target })
        }
        Opcode::Tid => {
            let rd = operands.register()?;
            Ok(Instr::Tid { rd })
        }
        Opcode::Halt => {
            operands.none()?;
            Ok(Instr::Halt)
        }
    }
}
