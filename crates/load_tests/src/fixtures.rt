use commands::{Command, Gate, Outcome};
use outside_io::{MemSink, MemSource};
use std::alloc::{AllocError, Global};
use std::thread::Threads;

const CHUNK: u32 = 1 << 20;

// What a sink has room for.
const ROOM: usize = 1 << 18;

/// A source of these bytes, of whose calls these fail.
pub(crate) fn input(alloc: Global, bytes: &[u8], fails: &[u32]) -> Result<MemSource, AllocError> {
    Ok(MemSource::new(
        Vec::from_slice(alloc, bytes)?,
        CHUNK,
        Vec::from_slice(alloc, fails)?,
    ))
}

/// A sink with room for a text, of whose calls these fail.
pub(crate) fn output(alloc: Global, fails: &[u32]) -> Result<MemSink, AllocError> {
    Ok(MemSink::new(vec![in alloc; 0; ROOM]?, Vec::from_slice(alloc, fails)?))
}

/// Holds no tile back.
pub(crate) struct OpenGate;

impl Gate for OpenGate {
    fn pass(&self, _tile: u8, _turn: u32) {}
}

/// How the command of these arguments ends over a document, and what it has written into a sink of whose calls these fail.
pub(crate) fn done<R: Threads + Sync>(
    rt: &R,
    alloc: Global,
    words: &[&str],
    text: &str,
    fails: &[u32],
) -> Result<(Outcome, MemSink), AllocError> {
    let Some(command) = Command::of(words) else {
        return Err(AllocError);
    };
    let mut source = input(alloc, text.as_bytes(), &[])?;
    let mut sink = output(alloc, fails)?;
    let outcome = command.run(rt, alloc, &mut source, &mut sink, &OpenGate);
    Ok((outcome, sink))
}
