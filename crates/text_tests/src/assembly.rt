//! Texts of programs, both ways.
use core_isa::{AsmEnd, AsmFault, AsmKind, Instr, Program, assemble, print_instr};
use outside_io::MemSink;
use std::alloc::{AllocError, Global};
use std::test::Fail;

// A text, the line of its first fault, and the kind.
const FAULTS: [(&str, u64, AsmKind); 33] = [
    // what is no label, no register, no number and no place
    (":", 1, AsmKind::Word),
    ("a: b: halt", 1, AsmKind::Word),
    ("1a: halt", 1, AsmKind::Word),
    ("Halt", 1, AsmKind::Word),
    ("halt\u{b}", 1, AsmKind::Word),
    ("tid r", 1, AsmKind::Register),
    ("tid r00", 1, AsmKind::Register),
    ("li r0 +1", 1, AsmKind::Number),
    ("li r0 -1", 1, AsmKind::Number),
    ("swap r1 r0 r2", 1, AsmKind::Number),
    ("fadd r1 r0", 1, AsmKind::Count),
    (
        "li r0 1000000000000000000000000000000000000000",
        1,
        AsmKind::Number,
    ),
    ("jmp @", 1, AsmKind::Label),
    (
        "jmp @1000000000000000000000000000000000000000",
        1,
        AsmKind::Label,
    ),
    // a label that is no name, and another fault of the line
    ("1: mul", 1, AsmKind::Word),
    ("1: add r1", 1, AsmKind::Word),
    ("1: li r8 1", 1, AsmKind::Word),
    ("1: li r1 x", 1, AsmKind::Word),
    ("1: jmp nowhere", 1, AsmKind::Word),
    // a label of an earlier line, and another fault of the line
    ("a:\na: mul", 2, AsmKind::Label),
    ("a:\na: add r1", 2, AsmKind::Label),
    ("a:\na: li r8 1", 2, AsmKind::Label),
    ("a:\na: li r1 x", 2, AsmKind::Label),
    // an unknown word, a wrong number of operands, and operands from left to right
    ("mul r8 x nowhere", 1, AsmKind::Word),
    ("li r8", 1, AsmKind::Count),
    ("li r1 x 3", 1, AsmKind::Count),
    ("jmp nowhere 1", 1, AsmKind::Count),
    ("li r8 x", 1, AsmKind::Register),
    ("beq r1 r8 nowhere", 1, AsmKind::Register),
    ("addi r1 r2 x", 1, AsmKind::Number),
    // the lowest bad line: labels and instructions of bad lines count too
    ("jmp a\na: mul\njmp nowhere", 2, AsmKind::Word),
    ("jmp @2\nmul\nli r8 1", 2, AsmKind::Word),
    ("jmp b\n1a: b: halt", 1, AsmKind::Label),
];

#[test]
fn the_first_kind_of_the_lowest_bad_line_is_the_fault(rt: HostRuntime) {
    for (text, line, kind) in &FAULTS {
        let fault = AsmFault {
            line: *line,
            kind: *kind,
        };
        assert_eq!(rt;
            assemble(rt.alloc(), text).err(),
            Some(AsmEnd::Fault(fault)),
            "{text}"
        );
    }
}

// A text of the most instructions, with a label before the last, and one more line.
fn with_most_instructions(alloc: Global, last: &str) -> Result<String, AllocError> {
    let mut text = String::new(alloc);
    for _ in 1..Program::LIMIT {
        text.push_str("halt\n")?;
    }
    text.push_str("a: halt\n")?;
    text.push_str(last)?;
    Ok(text)
}

#[test]
fn a_program_has_up_to_1024_instructions(rt: HostRuntime) -> Result<(), Fail> {
    let alloc = rt.alloc();
    let text = with_most_instructions(alloc, "end: # no instruction")?;
    assert_eq!(rt; assemble(alloc, text.as_str())?.instrs().len(), 1024);
    Ok(())
}

#[test]
fn instruction_1025_is_refused_after_its_word(rt: HostRuntime) -> Result<(), Fail> {
    let alloc = rt.alloc();
    for (last, kind) in [
        ("halt", AsmKind::Length),
        ("add r1", AsmKind::Length),
        ("li r8 1", AsmKind::Length),
        ("li r1 x", AsmKind::Length),
        ("jmp nowhere", AsmKind::Length),
        ("mul", AsmKind::Word),
        ("1: halt", AsmKind::Word),
        ("a: halt", AsmKind::Label),
    ] {
        let text = with_most_instructions(alloc, last)?;
        let fault = AsmFault { line: 1025, kind };
        assert_eq!(rt;
            assemble(alloc, text.as_str()).err(),
            Some(AsmEnd::Fault(fault)),
            "{last}"
        );
    }
    Ok(())
}

// Instructions of every kind.
const INSTRS: [Instr; 14] = [
    Instr::Li {
        rd: 7,
        n: 4294967295,
    },
    Instr::Add {
        rd: 1,
        ra: 2,
        rb: 3,
    },
    Instr::Sub {
        rd: 4,
        ra: 5,
        rb: 6,
    },
    Instr::Addi {
        rd: 0,
        ra: 1,
        n: 12,
    },
    Instr::Ld { rd: 1, ra: 0, n: 4 },
    Instr::St { rs: 1, ra: 0, n: 8 },
    Instr::Swap { rd: 1, ra: 0, n: 9 },
    Instr::Fadd { rd: 2, ra: 1, n: 0 },
    Instr::Beq {
        ra: 1,
        rb: 2,
        target: 4,
    },
    Instr::Bne {
        ra: 1,
        rb: 2,
        target: 13,
    },
    Instr::Jmp { target: 13 },
    Instr::Tid { rd: 1 },
    Instr::Jmp { target: 0 },
    Instr::Halt,
];

// A text of them.
const TEXT: &str =
    "_a1: # the first\n\tli r7 004294967295\r\nadd r1 r2 r3#x\n\nsub  r4 r5 r6\naddi r0 r1 0000000000000000000000000000000000000012\nB: ld r1 r0 4\nst r1 r0 8\nswap r1 r0 9\nfadd r2 r1 0\nbeq r1 r2 B\nbne r1 r2 end\njmp @013\ntid r1\njmp _a1\nend:\nhalt\nlast:";

// Their lines.
const PRINTED: &[u8] =
    b"li r7 4294967295\nadd r1 r2 r3\nsub r4 r5 r6\naddi r0 r1 12\nld r1 r0 4\nst r1 r0 8\nswap r1 r0 9\nfadd r2 r1 0\nbeq r1 r2 @4\nbne r1 r2 @13\njmp @13\ntid r1\njmp @0\nhalt\n";

#[test]
fn a_text_assembles(rt: HostRuntime) -> Result<(), Fail> {
    let program = assemble(rt.alloc(), TEXT)?;
    assert_eq!(rt; program.instrs(), INSTRS.as_slice());
    Ok(())
}

#[test]
fn a_copy_is_equal(rt: HostRuntime) -> Result<(), Fail> {
    let program = assemble(rt.alloc(), "tid r1\nhalt")?;
    let copy = program.copy(rt.alloc())?;
    assert_eq!(rt;
        copy.instrs(),
        [Instr::Tid { rd: 1 }, Instr::Halt].as_slice()
    );
    Ok(())
}

#[test]
fn instructions_are_printed_a_line_each(rt: HostRuntime) -> Result<(), Fail> {
    let alloc = rt.alloc();
    let mut sink = MemSink::new([0; 256].to_vec(alloc)?, Vec::new(alloc));
    for instr in &INSTRS {
        assert_eq!(rt; print_instr(instr, &mut sink), Ok(()));
    }
    assert_eq!(rt; sink.held(), PRINTED);
    Ok(())
}
