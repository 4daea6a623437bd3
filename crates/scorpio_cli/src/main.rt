//! `scorpio`: from arguments and bytes to text and a status.
#![tactic(auto)]

ghost use Rattle.std.specs.Prelude.{◌≡◌, ◌↔◌, map, IsSome};
ghost use Rattle.scorpio_cli.specs.Top.{IsStatus, IsNoForm};

mod arguments;
mod ended;
mod messages;
mod top;

use arguments::arguments;
use commands::{Command, Gate, Stop};
use ended::Ended;
use outside_io::{StdSink, StdSource};
use std::alloc::Global;
use std::io::{BufWriter, Read, Write};
use std::process::ExitCode;
use std::thread::Threads;

// How many bytes of output are gathered before they are written.
const BUFFER: usize = 1 << 16;

#[cfg(test)]
mod tests;

// Holds no tile back.
struct OpenGate;

impl Gate for OpenGate {
    fn pass(&self, _tile: u8, _turn: u32) {}
}

// Runs the command over the real ends. A whole text that cannot be flushed is a write fault, and any other end stays.
fn run<H: Threads + Sync, R: Read + Drop, W: Write + Drop>(
    rt: &H,
    alloc: Global,
    words: &[&str],
    reader: R,
    writer: W,
) -> Ended
    ensures usage { (result.status ≡ 1) ↔ IsNoForm (map (λ word. word.now) words.now) }
    ensures statuses { IsStatus result.status }
    ensures doc_fault { IsSome result.doc_fault ↔ (result.status ≡ 2) }
{
    let Ok(mut output) = BufWriter::with_capacity(alloc, BUFFER, writer) else {
        return out_of_memory(words);
    };
    let mut source = StdSource::new(reader);
    let mut sink = StdSink::new(&mut output);
    let ended = top::scorpio(rt, alloc, words, &mut source, &mut sink, &OpenGate);
    drop(sink);
    if matches!(ended.status, 0 | 3) && output.flush().is_err() {
        return Ended { status: 5, ..ended };
    }
    ended
}

// What comes of the arguments where there is no memory for the output.
fn out_of_memory(words: &[&str]) -> Ended
    ensures usage { (result.status ≡ 1) ↔ IsNoForm (map (λ word. word.now) words.now) }
    ensures statuses { IsStatus result.status }
    ensures doc_fault { IsSome result.doc_fault ↔ (result.status ≡ 2) }
{
    match Command::of(words) {
        Some(_) => Ended::stopped(Stop::NoMemory),
        None => Ended::stopped(Stop::Usage),
    }
}

// Does what the arguments say.
fn run_arguments<H: Threads + Sync, R: Read + Drop, W: Write + Drop>(
    rt: &H,
    alloc: Global,
    arguments: &[String],
    reader: R,
    writer: W,
) -> Result<Ended, Stop> {
    let mut words = Vec::new(alloc);
    for argument in arguments {
        words.push(argument.as_str())?;
    }
    Ok(run(rt, alloc, &words, reader, writer))
}

// How the program ends.
fn main_end<H: Threads + Sync, R: Read + Drop, W: Write + Drop>(
    rt: &H,
    alloc: Global,
    arguments: Result<Vec<String>, Stop>,
    reader: R,
    writer: W,
) -> Ended {
    let ended = match arguments {
        Ok(arguments) => run_arguments(rt, alloc, &arguments, reader, writer),
        Err(stop) => Err(stop),
    };
    match ended {
        Ok(ended) => ended,
        Err(stop) => Ended::stopped(stop),
    }
}

fn main(rt: HostRuntime) -> ExitCode {
    let ended = main_end(&rt, rt.alloc(), arguments(&rt), rt.stdin(), rt.stdout());
    if ended.status != 0 {
        // The status tells how it ended: a line that cannot be written is let go.
        let _ = eprintln!(rt; "{ended}");
    }
    ExitCode::from(ended.status)
}
