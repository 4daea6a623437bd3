use commands::{Command, Gate, Outcome};
use outside_io::{MemSink, MemSource};
use std::alloc::{AllocError, Global};
use std::thread::Threads;

const CHUNK: u32 = 1 << 20;

// What a sink has room for.
const ROOM: usize = 1 << 18;

/// Holds no tile back.
pub(crate) struct OpenGate;

impl Gate for OpenGate {
    fn pass(&self, _tile: u8, _turn: u32) {}
}

/// How the command of these arguments ends over a document, and what it has written into a sink of whose calls these fail.
pub(crate) fn done<R: Threads + Sync>(
    rt: &R,
    alloc: Global,
    words: &[&str],
    text: &str,
    fails: &[u32],
) -> Result<(Outcome, MemSink), AllocError> {
    let bytes = Vec::from_slice(alloc, text.as_bytes())?;
    let source = MemSource::new(bytes, CHUNK, Vec::new(alloc));
    done_from(rt, alloc, words, source, fails)
}

/// The same over what a source gives.
pub(crate) fn done_from<R: Threads + Sync>(
    rt: &R,
    alloc: Global,
    words: &[&str],
    source: MemSource,
    fails: &[u32],
) -> Result<(Outcome, MemSink), AllocError> {
    let Some(command) = Command::of(words) else {
        return Err(AllocError);
    };
    let mut source = source;
    let mut sink = MemSink::new(vec![in alloc; 0; ROOM]?, Vec::from_slice(alloc, fails)?);
    let outcome = command.run(rt, alloc, &mut source, &mut sink, &OpenGate);
    Ok((outcome, sink))
}
