ghost use Rattle.std.specs.Prelude.{◌≡◌, map};
ghost use Rattle.std.specs.List.{flat_map};
ghost use Rattle.outside_io.specs.Streams.{stream, Writes};
ghost use Rattle.report_text.specs.Lines.{ended};
ghost use Rattle.commands.specs.Loads.{word_left, summary_lines, summary_text};

use crate::summary_line::SummaryLine;
use outside_io::{Sink, WriteFault};
use report_text::Report;

// Where a load has its token and its counter.
const TOKEN_AT: usize = 0;

const COUNTER_AT: usize = 4;

/// Writes the summary of the run of a load, one piece a line. It takes no memory.
pub(crate) fn write_summary<K: Sink>(
    load: u32,
    report: &Report,
    sink: &mut K,
) -> Result<(), WriteFault>
    ensures { Writes (stream K.held K.faults sink.old sink.new) (summary_text load report.now)
        result }
{
    write_lines(&summary_lines(load, report), sink)
}

// Each of the lines.
fn write_lines<K: Sink>(lines: &[SummaryLine], sink: &mut K) -> Result<(), WriteFault>
    ensures { Writes (stream K.held K.faults sink.old sink.new) (flat_map (λ line. line) lines.now)
        result }
{
    for line in lines {
        line.write(sink)?;
    }
    Ok(())
}

// The lines of the summary.
fn summary_lines(load: u32, report: &Report) -> [SummaryLine; 7]
    ensures { result ≡ map ended (summary_lines load report.now) }
{
    [
        SummaryLine::counting("load", u64::from(load)),
        SummaryLine::ending(report.ended),
        SummaryLine::counting("token", u64::from(word_left(report, TOKEN_AT))),
        SummaryLine::counting("counter", u64::from(word_left(report, COUNTER_AT))),
        SummaryLine::counting("requests", report.requests.as_slice().len() as u64),
        SummaryLine::counting("windows", report.windows),
        SummaryLine::counting("events", report.journal.length()),
    ]
}

// The word that the run left at an address, and 0 where it was not finished.
fn word_left(report: &Report, address: usize) -> u32
    ensures { result ≡ word_left report.now address }
{
    report.memory.as_slice().get(address).copied().unwrap_or(0)
}
