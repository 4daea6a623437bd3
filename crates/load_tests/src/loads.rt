use crate::fixtures::{done, output};
use commands::{Command, Outcome, Stop};
use load_gen::generate;
use mesh_doc::{read_document, write_document};
use std::alloc::{AllocError, Global};
use std::test::Fail;

// How the text of each load begins.
const MESH: &str =
    "[mesh]\ncols = 4\nrows = 4\nwindow = 6\nvcs = 2\ndata_vcs = 2\nlines = 16\nsets = 2\nways = 1\ncontrollers = [0,15]\n\n[[core]]\ntile = 0\ncode = '''\ntid r1\n";

// What each tile does after its drawn accesses.
const GUARDED: &str =
    "ld r3 r0 0\nbne r3 r1 @9\nld r4 r0 4\naddi r4 r4 1\nst r4 r0 4\naddi r5 r1 1\nst r5 r0 0\n'''\n";

// The number of a load, a tile, and its drawn accesses, by the generator of PCG's C code.
const DRAWN: [(u32, u8, &str); 7] = [
    (
        42,
        0,
        "st r1 r0 57\nst r1 r0 50\nld r2 r0 56\nst r1 r0 25\nst r1 r0 36\nld r2 r0 48\nld r2 r0 38\nld r2 r0 16\n",
    ),
    (
        42,
        1,
        "st r1 r0 15\nld r2 r0 56\nld r2 r0 12\nst r1 r0 10\nld r2 r0 63\nld r2 r0 53\nst r1 r0 42\nst r1 r0 16\n",
    ),
    (
        42,
        15,
        "ld r2 r0 52\nst r1 r0 47\nld r2 r0 31\nst r1 r0 19\nst r1 r0 33\nld r2 r0 17\nst r1 r0 33\nld r2 r0 58\n",
    ),
    (
        0,
        0,
        "ld r2 r0 9\nst r1 r0 61\nst r1 r0 60\nld r2 r0 9\nld r2 r0 25\nld r2 r0 27\nst r1 r0 58\nld r2 r0 36\n",
    ),
    (
        0,
        7,
        "st r1 r0 60\nld r2 r0 36\nld r2 r0 47\nld r2 r0 36\nst r1 r0 38\nld r2 r0 31\nst r1 r0 62\nld r2 r0 30\n",
    ),
    (
        4294967295,
        0,
        "st r1 r0 25\nld r2 r0 21\nld r2 r0 60\nld r2 r0 20\nld r2 r0 32\nst r1 r0 62\nld r2 r0 59\nld r2 r0 62\n",
    ),
    (
        4294967295,
        15,
        "st r1 r0 40\nst r1 r0 15\nst r1 r0 53\nld r2 r0 45\nst r1 r0 15\nst r1 r0 34\nst r1 r0 16\nst r1 r0 13\n",
    ),
];

// The text of the load of a number.
fn text_of_load(alloc: Global, number: u32) -> Result<Vec<u8>, Fail> {
    let document = generate(alloc, number)?;
    let mut sink = output(alloc, &[])?;
    if write_document(&document, &mut sink).is_err() {
        return Err(Fail::from(AllocError));
    }
    Ok(Vec::from_slice(alloc, sink.held())?)
}

// Whether a text has another one in it.
fn has_part(text: &[u8], part: &[u8]) -> bool {
    text.windows(part.len().max(1)).any(|window| window == part)
}

#[test]
fn loads_are_drawn_by_their_numbers(rt: HostRuntime) -> Result<(), Fail> {
    let alloc = rt.alloc();
    for (number, tile, accesses) in DRAWN {
        let text = text_of_load(alloc, number)?;
        assert!(rt; text.starts_with(MESH.as_bytes()), "of {number}");
        let core = format!(in alloc;
            "\n[[core]]\ntile = {tile}\ncode = '''\ntid r1\n{accesses}{GUARDED}"
        )?;
        assert!(rt; has_part(&text, core.as_bytes()), "tile {tile} of {number}");
    }
    Ok(())
}

#[test]
fn the_text_of_a_load_is_read_back(rt: HostRuntime) -> Result<(), Fail> {
    let alloc = rt.alloc();
    for number in ["0", "42", "4294967295"] {
        let (outcome, text) = done(&rt, alloc, &["gen", number, "--text"], "", &[])?;
        assert!(rt; outcome.result.is_ok() && outcome.report.is_none());
        let document = read_document(alloc, text.held())?;
        let mut again = output(alloc, &[])?;
        assert_eq!(rt; write_document(&document, &mut again), Ok(()));
        assert_eq!(rt; again.held(), text.held());
    }
    Ok(())
}

// The last lines of the summary, by the report.
fn counts(alloc: Global, outcome: &Outcome) -> Result<String, AllocError> {
    match &outcome.report {
        Some(report) => format!(in alloc;
            "requests {}\nwindows {}\nevents {}\n",
            report.requests.as_slice().len(),
            report.windows,
            report.journal.length()
        ),
        None => Err(AllocError),
    }
}

#[test]
fn the_run_of_a_load_leaves_16_as_token_and_counter(rt: HostRuntime) -> Result<(), Fail> {
    let alloc = rt.alloc();
    for number in ["0", "42"] {
        let (outcome, sink) = done(&rt, alloc, &["gen", number], "", &[])?;
        assert!(rt; outcome.result.is_ok());
        let last = counts(alloc, &outcome)?;
        let summary = format!(in alloc;
            "load {number}\nended finished\ntoken 16\ncounter 16\n{last}"
        )?;
        assert_eq!(rt; sink.held(), summary.as_bytes());
    }
    Ok(())
}

#[test]
fn a_summary_is_of_the_run_by_the_pace_of_its_load(rt: HostRuntime) -> Result<(), Fail> {
    let alloc = rt.alloc();
    let (summarized, _summary) = done(&rt, alloc, &["gen", "42"], "", &[])?;
    let (_, load) = done(&rt, alloc, &["gen", "42", "--text"], "", &[])?;
    let text = str::from_utf8(load.held())?;
    let (stepped, _report) = done(&rt, alloc, &["step", "--pace", "42"], text, &[])?;
    assert_eq!(rt;
        counts(alloc, &summarized)?.as_str(),
        counts(alloc, &stepped)?.as_str()
    );
    Ok(())
}

#[test]
fn a_summary_that_cannot_be_written_stops_between_its_lines(rt: HostRuntime) -> Result<(), Fail> {
    let alloc = rt.alloc();
    let (outcome, sink) = done(&rt, alloc, &["gen", "42"], "", &[3])?;
    assert!(rt; matches!(&outcome.result, Err(Stop::WriteFault)));
    assert!(rt; outcome.report.is_some());
    assert_eq!(rt;
        sink.held(),
        b"load 42\nended finished\ntoken 16\n".as_slice()
    );
    Ok(())
}

// Words that name no load, or no command over one.
const NO_FORMS: [&[&str]; 10] = [
    &["gen"],
    &["gen", "x"],
    &["gen", "-1"],
    &["gen", ""],
    &["gen", "4294967296"],
    &["gen", "42", "--txt"],
    &["gen", "--text", "42"],
    &["gen", "4294967296", "--text"],
    &["gen", "42", "--text", "--text"],
    &["Gen", "42"],
];

#[test]
fn words_that_name_no_load_are_no_form(rt: HostRuntime) -> Result<(), Fail> {
    for words in NO_FORMS {
        assert_eq!(rt; Command::of(words), None);
    }
    assert_eq!(rt;
        Command::of(&["gen", "0042"]),
        Some(Command::Gen { load: 42 })
    );
    assert_eq!(rt;
        Command::of(&["gen", "4294967295", "--text"]),
        Some(Command::GenText { load: u32::MAX })
    );
    Ok(())
}
