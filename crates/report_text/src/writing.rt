ghost use Rattle.std.specs.Prelude.{◌≡◌, length};
ghost use Rattle.outside_io.specs.Streams.{stream, Writes};
ghost use Rattle.report_text.specs.Journals.{IsEntryWord, recorded_by};
ghost use Rattle.report_text.specs.Lines.{text_of_lines};
ghost use Rattle.report_text.specs.Unpacking.{entry_near};
ghost use Rattle.report_text.specs.Report.{IsTabular, request_part, tile_part, access_part, memory_part, count_part, event_rows, journal_part, report_text};

use crate::rows::{
    access_line, count_line, event_line, finish_line, memory_line, request_line, tile_line,
};
use crate::{Access, Entry, Event, Journal, Report};
use mesh_gen::Request;
use outside_io::{Sink, WriteFault};

/// Writes the text of the report, one piece a line. It takes no memory.
pub fn write_report<K: Sink>(report: &Report, sink: &mut K) -> Result<(), WriteFault>
    requires { IsTabular report.now }
    ensures { Writes (stream K.held K.faults sink.old sink.new) (report_text report.now) result }
{
    write_requests(report.requests.as_slice(), sink)?;
    write_tiles(report.seen.as_slice(), report.steps.as_slice(), sink)?;
    write_accesses(report.accesses.as_slice(), sink)?;
    write_memory(report.memory.as_slice(), sink)?;
    write_counts(report.windows, report.hops, sink)?;
    write_journal(&report.journal, sink)?;
    finish_line(report.ended).write(sink)
}

fn write_requests<K: Sink>(requests: &[Request], sink: &mut K) -> Result<(), WriteFault>
    ensures { Writes (stream K.held K.faults sink.old sink.new)
        (text_of_lines (request_part requests.now)) result }
{
    count_line("requests", requests.len() as u64).write(sink)?;
    for (place, request) in requests.iter().enumerate() {
        request_line(place as u64, request).write(sink)?;
    }
    Ok(())
}

fn write_tiles<K: Sink>(seen: &[u64], steps: &[u64], sink: &mut K) -> Result<(), WriteFault>
    requires { length seen.now ≡ length steps.now }
    ensures { Writes (stream K.held K.faults sink.old sink.new)
        (text_of_lines (tile_part seen.now steps.now)) result }
{
    count_line("seen", seen.len() as u64).write(sink)?;
    for (tile, requests) in seen.iter().enumerate() {
        tile_line(tile as u64, *requests, steps[tile]).write(sink)?;
    }
    Ok(())
}

fn write_accesses<K: Sink>(accesses: &[Access], sink: &mut K) -> Result<(), WriteFault>
    ensures { Writes (stream K.held K.faults sink.old sink.new)
        (text_of_lines (access_part accesses.now)) result }
{
    count_line("accesses", accesses.len() as u64).write(sink)?;
    for access in accesses {
        access_line(access).write(sink)?;
    }
    Ok(())
}

fn write_memory<K: Sink>(memory: &[u32], sink: &mut K) -> Result<(), WriteFault>
    ensures { Writes (stream K.held K.faults sink.old sink.new)
        (text_of_lines (memory_part memory.now)) result }
{
    let (lines, _) = memory.as_chunks::<4>();
    count_line("memory", lines.len() as u64).write(sink)?;
    for (line, words) in lines.iter().enumerate() {
        memory_line(line as u64, *words).write(sink)?;
    }
    Ok(())
}

fn write_counts<K: Sink>(windows: u64, hops: u64, sink: &mut K) -> Result<(), WriteFault>
    ensures { Writes (stream K.held K.faults sink.old sink.new)
        (text_of_lines (count_part windows hops)) result }
{
    count_line("windows", windows).write(sink)?;
    count_line("hops", hops).write(sink)
}

fn write_journal<K: Sink>(journal: &Journal, sink: &mut K) -> Result<(), WriteFault>
    ensures { Writes (stream K.held K.faults sink.old sink.new)
        (text_of_lines (journal_part journal.now)) result }
{
    count_line("journal", journal.length()).write(sink)?;
    for word in journal.words() {
        write_entry(*word, sink)?;
    }
    Ok(())
}

// The events that the word of an entry records.
fn write_entry<K: Sink>(word: u64, sink: &mut K) -> Result<(), WriteFault>
    requires { IsEntryWord word }
    ensures { Writes (stream K.held K.faults sink.old sink.new)
        (text_of_lines (event_rows (recorded_by (entry_near word)))) result }
{
    let Some(entry) = Entry::unpack(word) else {
        unreachable!()
    };
    let core = Event::Core { t: entry.by };
    for _ in 0..entry.cores {
        event_line(&core).write(sink)?;
    }
    event_line(&entry.event).write(sink)
}
