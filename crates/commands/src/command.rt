ghost use Rattle.std.specs.Prelude.{◌≡◌, [], ◌∷◌, map, IfSome, IsSome};
ghost use Rattle.outside_io.specs.Streams.{stream};
ghost use Rattle.doc_text.specs.Doc.{doc_of};
ghost use Rattle.commands.specs.Arguments.{command_named, named, load_of, KeepsLimits};
ghost use Rattle.commands.specs.Outcome.{Did, IsRead, IsTaken, Ran};
ghost use Rattle.commands.specs.Texts.{LeavesOut};
ghost use Rattle.commands.specs.declared.command.Command.{Command};

use crate::deliver::write_deliveries;
use crate::load::write_load_run;
use crate::options::{DEFAULT_BUDGET, StepOption, budget_numbered, load_numbered};
use crate::order::write_order;
use crate::rounds::write_rounds;
use crate::show::write_shown;
use crate::step::write_steps;
use crate::{Gate, Outcome, Stop};
use load_gen::generate;
use mesh_doc::{Document, read_document};
use outside_io::{Sink, Source, read_all};
use std::alloc::Global;
use std::thread::Threads;

// How many bytes an input may have.
const INPUT_LIMIT: u32 = 1 << 20;

/// What the program is told to do.
#[derive(Clone, Copy, Debug, PartialEq, Eq)]
pub enum Command {
    /// Writes the order of the requests that the document posts.
    Order,
    /// Writes the document in its canonical text.
    Show,
    /// Broadcasts the requests that the document posts, and writes what each tile delivers.
    Deliver,
    /// Runs the document's programs, sweep after sweep by the pace of a number, and writes the report.
    Step {
        pace: u32,
        /// How many events the run has at most.
        budget: u32,
    },
    /// Runs the document's programs by rounds with a thread for each tile, and writes the report.
    Run {
        /// From how many events on no further round is made.
        budget: u32,
    },
    /// Makes the load of a number, runs it by the pace of the same number, and writes a summary of the run.
    Gen {
        load: u32,
    },
    /// Makes the load of a number, and writes it in its canonical text.
    GenText {
        load: u32,
    },
}

impl Command {
    /// The command that the arguments name, where they are one of the forms.
    pub fn of(words: &[&str]) -> Option<Command>
        ensures named { result ≡ command_named (map (λ word. word.now) words.now) }
        ensures limits { IfSome result KeepsLimits }
    {
        match words {
            [word] => Command::named(word),
            [word, number] => Command::of_load(word, number),
            [word, second, third] => Command::with_option(word, second, third),
            [word, name, number, other_name, other_number] if *word == "step" => {
                let option = StepOption::named(name, number)?;
                option.beside(StepOption::named(other_name, other_number)?)
            }
            _ => None,
        }
    }

    // The command that two words are the form of.
    fn of_load(word: &str, number: &str) -> Option<Command>
        ensures named { result ≡ command_named (word.now ∷ number.now ∷ []) }
        ensures limits { IfSome result KeepsLimits }
    {
        if word == "gen" {
            Some(Command::Gen {
                load: load_numbered(number)?,
            })
        } else {
            None
        }
    }

    // The command that three words are the form of: `step` or `run` with an option, or `gen` with its own.
    fn with_option(word: &str, second: &str, third: &str) -> Option<Command>
        ensures named { result ≡ command_named (word.now ∷ second.now ∷ third.now ∷ []) }
        ensures limits { IfSome result KeepsLimits }
    {
        if word == "step" {
            Some(StepOption::named(second, third)?.alone())
        } else if word == "run" && second == "--budget" {
            Some(Command::Run {
                budget: budget_numbered(third)?,
            })
        } else if word == "gen" && third == "--text" {
            Some(Command::GenText {
                load: load_numbered(second)?,
            })
        } else {
            None
        }
    }

    // The command that one word is the form of.
    fn named(word: &str) -> Option<Command>
        ensures { result ≡ named word.now }
    {
        match word {
            "order" => Some(Command::Order),
            "show" => Some(Command::Show),
            "deliver" => Some(Command::Deliver),
            "step" => Some(Command::Step {
                pace: 0,
                budget: DEFAULT_BUDGET,
            }),
            "run" => Some(Command::Run {
                budget: DEFAULT_BUDGET,
            }),
            _ => None,
        }
    }

    // The load that the command makes in place of a document that it reads.
    fn load(self) -> Option<u32>
        ensures { result ≡ load_of self }
    {
        match self {
            Command::Gen { load } | Command::GenText { load } => Some(load),
            _ => None,
        }
    }

    /// Makes the load that the command names, or reads a document to its end, and writes what the command wants of it. Where
    /// tiles have threads, each passes the gate once a round.
    pub fn run<R: Threads + Sync, S: Source, K: Sink, G: Gate>(
        self,
        rt: &R,
        alloc: Global,
        source: &mut S,
        sink: &mut K,
        gate: &G,
    ) -> Outcome
        requires { KeepsLimits self }
        ensures ran { Ran self (stream S.left S.faults source.old source.new)
            (stream K.held K.faults sink.old sink.new) result.left result.report result.result }
        ensures left { LeavesOut self result.left }
        ensures unread { IsSome (load_of self) → source.new ≡ source.old }
    {
        match take_document(alloc, self.load(), source) {
            Ok(document) => self.write(rt, alloc, document, sink, gate),
            Err(stop) => Outcome::plain(Err(stop)),
        }
    }

    // A text of the command for a document, and its report.
    fn write<R: Threads + Sync, K: Sink, G: Gate>(
        self,
        rt: &R,
        alloc: Global,
        document: Document,
        sink: &mut K,
        gate: &G,
    ) -> Outcome
        requires { KeepsLimits self }
        ensures did { Did self (doc_of document) (stream K.held K.faults sink.old sink.new)
            result.left result.report result.result }
        ensures left { LeavesOut self result.left }
    {
        match self {
            Command::Order => Outcome::plain(write_order(alloc, &document, sink)),
            Command::Show | Command::GenText { .. } => {
                Outcome::plain(write_shown(&document, sink))
            }
            Command::Deliver => Outcome::plain(write_deliveries(alloc, &document, sink)),
            Command::Step { pace, budget } => write_steps(alloc, document, pace, budget, sink),
            Command::Run { budget } => write_rounds(rt, alloc, document, budget, sink, gate),
            Command::Gen { load } => write_load_run(alloc, document, load, sink),
        }
    }
}

// The load of this number, or where there is none the document that comes from the source.
fn take_document<S: Source>(
    alloc: Global,
    load: Option<u32>,
    source: &mut S,
) -> Result<Document, Stop>
    ensures taken { IsTaken load (stream S.left S.faults source.old source.new) result }
    ensures unread { IsSome load → source.new ≡ source.old }
{
    match load {
        Some(number) => Ok(generate(alloc, number)?),
        None => read_input(alloc, source),
    }
}

// The document that comes from the source.
fn read_input<S: Source>(alloc: Global, source: &mut S) -> Result<Document, Stop>
    ensures { IsRead (stream S.left S.faults source.old source.new) result }
{
    let bytes = read_all(alloc, source, INPUT_LIMIT)?;
    Ok(read_document(alloc, &bytes)?)
}
