ghost use Rattle.std.specs.Prelude.{◌≡◌, IfOk, IfErr};
ghost use Rattle.std.specs.List.{before_first, after_first, list_any};
ghost use Rattle.std.specs.Str.{bytes_eq};
ghost use Rattle.core_isa.specs.Lines.{is_line_feed};
ghost use Rattle.report_text.specs.Lines.{lines_of};
ghost use Rattle.report_text.specs.Reading.{count_row_words, item_row_words, passed_words, Tells, IsEndOf};
ghost use Rattle.report_text.specs.Telling.{IsToldBy};

use crate::scanning::{event_in, first_word};
use crate::{Event, LinesEnd};
use std::alloc::Global;

/// What a line of a report tells.
pub(crate) enum Told {
    Event(Event),
    Nothing,
    Bad,
}

/// Reads the journal in the text of a report: its lines that begin with the word `e`. The text may be any bytes. A line
/// with another word of a report at its front is passed over, whatever stands after that word; any other line is bad.
pub fn read_events(alloc: Global, text: &[u8]) -> Result<Vec<Event>, LinesEnd>
    ensures ok { IfOk result (λ events. Tells (lines_of text.now) events.items) }
    ensures fault { IfErr result (IsEndOf (lines_of text.now)) }
{
    let mut events = Vec::new(alloc);
    let mut number = 0;
    let mut rest = text;
    while !rest.is_empty() {
        let (line, more) = split_line(rest);
        number += 1;
        match told_by(line) {
            Told::Event(event) => events.push(event)?,
            Told::Nothing => {}
            Told::Bad => return Err(LinesEnd::EventFault { line: number }),
        }
        rest = more;
    }
    Ok(events)
}

// The first line of the text, without its line feed, and what stands after it.
fn split_line(text: &[u8]) -> (&[u8], &[u8])
    ensures line { result.0.now ≡ before_first is_line_feed text.now }
    ensures rest { result.1.now ≡ after_first is_line_feed text.now }
{
    match text.iter().position(|byte| *byte == b'\n') {
        Some(end) => {
            let (line, rest) = text.split_at(end);
            (line, rest.split_at(1).1)
        }
        None => (text, &[]),
    }
}

fn told_by(line: &[u8]) -> Told
    ensures { IsToldBy line.now result }
{
    let word = first_word(line);
    if word == b"e".as_slice() {
        return match event_in(line) {
            Some(event) => Told::Event(event),
            None => Told::Bad,
        };
    }
    if is_passed(word) {
        Told::Nothing
    } else {
        Told::Bad
    }
}

// Whether lines that begin with this word are passed over.
fn is_passed(word: &[u8]) -> bool
    ensures { result ≡ list_any (bytes_eq word.now) passed_words }
{
    is_count(word) || is_item(word) || word == b"ended".as_slice()
}

// The word of a line with a count.
fn is_count(word: &[u8]) -> bool
    ensures { result ≡ list_any (bytes_eq word.now) count_row_words }
{
    word == b"requests".as_slice()
        || word == b"seen".as_slice()
        || word == b"accesses".as_slice()
        || word == b"memory".as_slice()
        || word == b"windows".as_slice()
        || word == b"hops".as_slice()
        || word == b"journal".as_slice()
}

// The word of the line of a request, a tile, an access or a line of memory.
fn is_item(word: &[u8]) -> bool
    ensures { result ≡ list_any (bytes_eq word.now) item_row_words }
{
    matches!(word, b"q" | b"s" | b"a" | b"m")
}
