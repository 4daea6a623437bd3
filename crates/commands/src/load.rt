ghost use Rattle.std.specs.Prelude.{◌≡◌, Some, IfErr};
ghost use Rattle.outside_io.specs.Streams.{stream, Writes};
ghost use Rattle.doc_text.specs.Doc.{doc_of};
ghost use Rattle.commands.specs.declared.command.Command.TheVariants.{Gen};
ghost use Rattle.commands.specs.declared.stop.Stop.TheVariants.{WriteFault as WriteFailed};
ghost use Rattle.commands.specs.Loads.{summary_text};
ghost use Rattle.commands.specs.Outcome.{Did};

use crate::options::DEFAULT_BUDGET;
use crate::step::run_steps;
use crate::summary::write_summary;
use crate::{Outcome, Stop};
use mesh_doc::Document;
use outside_io::Sink;
use report_text::Report;
use std::alloc::Global;

/// Runs the load of a number by the pace of the same number, until the chip is finished or the budget that stands where
/// none is named is spent, and writes the summary. All memory is taken before the run, and nothing is written before it
/// has ended.
pub(crate) fn write_load_run<K: Sink>(
    alloc: Global,
    document: Document,
    load: u32,
    sink: &mut K,
) -> Outcome
    ensures did { Did (Gen load) (doc_of document) (stream K.held K.faults sink.old sink.new)
        result.left result.report result.result }
    ensures left { result.left ≡ 0 }
{
    match run_steps(alloc, document, load, DEFAULT_BUDGET) {
        Ok(report) => write_summarized(load, report, sink),
        Err(_) => Outcome {
            report: None,
            result: Err(Stop::NoMemory),
            left: 0,
        },
    }
}

// Writes the summary of a report.
fn write_summarized<K: Sink>(load: u32, report: Report, sink: &mut K) -> Outcome
    ensures report { result.report ≡ Some report }
    ensures left { result.left ≡ 0 }
    ensures written { Writes (stream K.held K.faults sink.old sink.new) (summary_text load report)
        result.result }
    ensures fault { IfErr result.result (λ stop. stop ≡ WriteFailed) }
{
    let result = match write_summary(load, &report, sink) {
        Ok(()) => Ok(()),
        Err(_) => Err(Stop::WriteFault),
    };
    Outcome {
        report: Some(report),
        result,
        left: 0,
    }
}
