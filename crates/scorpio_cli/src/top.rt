ghost use Rattle.std.specs.Prelude.{◌≡◌, ◌≢◌, ◌↔◌, map, IfSome, IsSome, IsSomeAnd};
ghost use Rattle.outside_io.specs.Streams.{Rose};
ghost use Rattle.report_text.specs.declared.finish.Finish.TheVariants.{Finished, Budget};
ghost use Rattle.commands.specs.Input.{HasFault, IsTooLong};
ghost use Rattle.scorpio_cli.specs.Top.{IsNoForm, IsStatus, MakesLoad, ReadsDocument, SpeaksOfInput, WritesText, WritesPart, HasWritten, Reports, IsRunOf, RunsByThreads};

use crate::ended::Ended;
use commands::{Command, Gate, Stop};
use outside_io::{Sink, Source};
use std::alloc::Global;
use std::thread::Threads;

/// Does what the arguments say, over what comes from the source, into the sink: all that the program does.
/// `order` writes the order of the requests that the document posts, `show` the document in its canonical text,
/// `deliver` the sources of the requests that each tile has delivered once all that the document posts was broadcast, and
/// `step` the report of a run of its programs. `run` runs them with a thread for each tile, each of which passes the gate
/// once a round. `gen` reads nothing: it makes the load of a number, and writes a summary of its run, or the load itself.
pub fn scorpio<R: Threads + Sync, S: Source, K: Sink, G: Gate>(
    rt: &R,
    alloc: Global,
    words: &[&str],
    source: &mut S,
    sink: &mut K,
    gate: &G,
) -> Ended
    // A whole text of the command's document was written: of a run, that of its report.
    ensures written { HasWritten result.status
        → WritesText (map (λ word. word.now) words.now)
        (S.left source.old) result.left result.report (K.held sink.old) (K.held sink.new) }
    // A run went on until the chip was finished, or its budget was spent.
    ensures finished { result.status ≡ 0 → IfSome result.report (λ report. report.ended ≡ Finished) }
    ensures budget { result.status ≡ 3 → IsSomeAnd result.report (λ report. report.ended ≡ Budget) }

    // Why it ended otherwise.
    ensures usage { (result.status ≡ 1) ↔ IsNoForm (map (λ word. word.now) words.now) }
    ensures document { result.status ≡ 2 → IfSome (S.left source.old) (λ bytes.
        IfSome result.doc_fault (HasFault bytes)) }
    ensures doc_fault { IsSome result.doc_fault ↔ (result.status ≡ 2) }
    ensures read_fault { result.status ≡ 4 → Rose (S.faults source.old) (S.faults source.new) }
    ensures write_fault { result.status ≡ 5 → Rose (K.faults sink.old) (K.faults sink.new)
        × WritesPart (map (λ word. word.now) words.now)
        (S.left source.old) result.left result.report (K.held sink.old) (K.held sink.new) }
    ensures reading { SpeaksOfInput result.status
        → ReadsDocument (map (λ word. word.now) words.now) }
    ensures unread { MakesLoad (map (λ word. word.now) words.now) → source.new ≡ source.old }
    ensures too_long { result.status ≡ 7 → IsTooLong (S.left source.old) (S.left source.new) }
    ensures statuses { IsStatus result.status }
    ensures at { result.at ≡ 0 }

    // Nothing is written but by a run that came to writing.
    ensures silent { result.status ≢ 0 → result.status ≢ 3 → result.status ≢ 5
        → K.held sink.new ≡ K.held sink.old }

    // Exactly `step`, `run` and `gen` report, where they came to writing. The report is that of a run of the
    // document, or of the load, of which all holds that is promised of every run: any two tiles deliver prefixes of one list, which has
    // each request once, each tile's in order; the accesses, in the order in which they are printed, are
    // one sequential execution of the programs, ending in the printed memory; until all is finished some
    // event is possible; only a spent budget ends it early.
    ensures reports { IsSome result.report
        ↔ Reports (map (λ word. word.now) words.now) result.status }
    ensures run { IfSome result.report
        (IsRunOf (map (λ word. word.now) words.now) (S.left source.old) result.left) }
    ensures left { result.left ≢ 0 → RunsByThreads (map (λ word. word.now) words.now) }
{
    match Command::of(words) {
        Some(command) => Ended::of(command.run(rt, alloc, source, sink, gate)),
        None => Ended::stopped(Stop::Usage),
    }
}
