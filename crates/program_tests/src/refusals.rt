use crate::fixtures::{OpenGate, input, output};
use commands::{Command, Outcome, Stop};
use std::alloc::{AllocError, Global};
use std::test::Fail;
use std::thread::Threads;

// Documents of a mesh, and what is said of the first fault: nothing where they are shown.
const SAID: [(&str, &str); 17] = [
    ("", "missing mesh"),
    ("[mesh]\ncols =", "not toml"),
    ("colour = 1\n", "unknown key colour"),
    ("[mesh]\ncols = 2\nrows = 2\n", "missing mesh.window"),
    (
        "[mesh]\ncols = \"2\"\nrows = 2\nwindow = 2\n",
        "wrong kind mesh.cols",
    ),
    (
        "[mesh]\ncols = 9\nrows = 1\nwindow = 8\n",
        "out of range mesh.cols",
    ),
    (
        "[mesh]\ncols = 3\nrows = 2\nwindow = 2\n",
        "out of range mesh.window",
    ),
    ("[mesh]\ncols = 3\nrows = 2\nwindow = 3\n", ""),
    ("[mesh]\ncols = 3\nrows = 2\nwindow = 64\n", ""),
    (
        "[mesh]\ncols = 3\nrows = 2\nwindow = 65\n",
        "out of range mesh.window",
    ),
    (
        "posts = [[0,0]]\n[mesh]\ncols = 2\nrows = 2\nwindow = 2\n",
        "out of range posts",
    ),
    (
        "[mesh]\ncols = 2\nrows = 2\nwindow = 2\ncontrollers = [0,4]\n",
        "out of range mesh.controllers",
    ),
    (
        "[mesh]\ncols = 2\nrows = 2\nwindow = 2\ncontrollers = [0,0]\n",
        "controllers",
    ),
    (
        "[mesh]\ncols = 2\nrows = 2\nwindow = 2\n[[core]]\ntile = 1\ncode = ''\n[[core]]\ntile = 1\ncode = ''\n",
        "core twice 1",
    ),
    (
        "[mesh]\ncols = 2\nrows = 2\nwindow = 2\n[[core]]\ntile = 3\ncode = '''\nhalt\nli r8 1\n'''\n",
        "core 3 line 2 kind 2",
    ),
    (
        "[mesh]\ncols = 2\nrows = 2\nwindow = 2\n[[core]]\ntile = 0\ncode = 'mul r1 r2'\n",
        "core 0 line 1 kind 1",
    ),
    (
        "[mesh]\ncols = 2\nrows = 2\nwindow = 2\n[[core]]\ntile = 4\ncode = ''\n",
        "out of range core.tile",
    ),
];

// What is said of the fault of a document: nothing where it has none.
fn said<R: Threads + Sync>(rt: &R, alloc: Global, text: &str) -> Result<String, AllocError> {
    let mut source = input(alloc, text.as_bytes(), &[])?;
    let mut sink = output(alloc, &[])?;
    let Outcome { result, .. } = Command::Show.run(rt, alloc, &mut source, &mut sink, &OpenGate);
    match result {
        Err(Stop::Document(fault)) => format!(in alloc; "{fault}"),
        Err(_) => Err(AllocError),
        Ok(()) => Ok(String::new(alloc)),
    }
}

#[test]
fn faulty_descriptions_are_refused_by_name(rt: HostRuntime) -> Result<(), Fail> {
    for (text, message) in SAID {
        assert_eq!(rt; said(&rt, rt.alloc(), text)?.as_str(), message, "of {text}");
    }
    Ok(())
}

#[test]
fn a_read_that_fails_ends_the_run(rt: HostRuntime) -> Result<(), Fail> {
    let alloc = rt.alloc();
    let mut source = input(alloc, b"posts = []", &[1])?;
    let mut sink = output(alloc, &[])?;
    let outcome = Command::Order.run(&rt, alloc, &mut source, &mut sink, &OpenGate);
    assert!(rt; matches!(&outcome.result, Err(Stop::ReadFault)));
    assert!(rt; sink.held().is_empty());
    Ok(())
}

// How many bytes an input may have.
const LIMIT: usize = 1_048_576;

// How `show` ends on a document that line feeds make so long.
fn shown_of_length<R: Threads + Sync>(
    rt: &R,
    alloc: Global,
    length: usize,
) -> Result<Result<(), Stop>, AllocError> {
    let mut bytes = Vec::from_slice(alloc, b"mesh = { cols = 1, rows = 1, window = 1 }")?;
    bytes.resize(length, b'\n')?;
    let mut source = input(alloc, &bytes, &[])?;
    let mut sink = output(alloc, &[])?;
    let outcome = Command::Show.run(rt, alloc, &mut source, &mut sink, &OpenGate);
    Ok(outcome.result)
}

#[test]
fn an_input_of_the_limit_is_read_whole(rt: HostRuntime) -> Result<(), Fail> {
    let outcome = shown_of_length(&rt, rt.alloc(), LIMIT)?;
    assert!(rt; outcome.is_ok());
    Ok(())
}

#[test]
fn an_input_past_the_limit_is_too_long(rt: HostRuntime) -> Result<(), Fail> {
    let outcome = shown_of_length(&rt, rt.alloc(), LIMIT + 1)?;
    assert!(rt; matches!(&outcome, Err(Stop::TooLong)));
    Ok(())
}
