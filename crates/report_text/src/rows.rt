//! The lines of a report, one function for each kind.
ghost use Rattle.std.specs.Prelude.{◌≡◌, ◌<◌, ◌≤◌, ◌+◌, ◌++◌, length};
ghost use Rattle.report_text.specs.Events.{operand_words};
ghost use Rattle.report_text.specs.declared.operands.Operands.TheVariants.{Channel};
ghost use Rattle.report_text.specs.Lines.{joined_words, after_spaces};
ghost use Rattle.report_text.specs.Report.{count_row, event_line};
ghost use Rattle.report_text.specs.Rows.{kind_word, access_kind_word, request_words, tile_words, access_words, memory_words, finish_words};

use crate::line::Line;
use crate::operands::Operands;
use crate::ports::port_word;
use crate::{Access, AccessKind, Event, Finish};
use mesh_gen::{Kind, Port, Request, Words};

pub(crate) fn count_line(word: &str, count: u64) -> Line
    requires { length word.now ≤ 16 }
    ensures text { result ≡ count_row word.now count }
    ensures length { length result < 160 }
{
    let mut line = Line::new(word);
    line.push_number(count);
    line
}

pub(crate) fn request_line(place: u64, request: &Request) -> Line
    ensures text { result ≡ joined_words (request_words place request.now) }
    ensures length { length result < 160 }
{
    let mut line = Line::new("q");
    line.push_number(place);
    line.push_number(u64::from(request.source));
    line.push_number(u64::from(request.number));
    line.push_word(kind_word(request.kind));
    line.push_number(u64::from(request.line));
    line
}

fn kind_word(kind: Kind) -> &'static str
    ensures { result.now ≡ kind_word kind }
{
    match kind {
        Kind::GetS => "GetS",
        Kind::GetM => "GetM",
        Kind::PutM => "PutM",
    }
}

pub(crate) fn tile_line(tile: u64, seen: u64, steps: u64) -> Line
    ensures text { result ≡ joined_words (tile_words tile seen steps) }
    ensures length { length result < 160 }
{
    let mut line = Line::new("s");
    line.push_number(tile);
    line.push_number(seen);
    line.push_number(steps);
    line
}

pub(crate) fn access_line(access: &Access) -> Line
    ensures text { result ≡ joined_words (access_words access.now) }
    ensures length { length result < 160 }
{
    let mut line = Line::new("a");
    line.push_number(u64::from(access.tile));
    line.push_number(access.number);
    line.push_word(access_kind_word(access.kind));
    line.push_number(u64::from(access.address));
    line.push_number(u64::from(access.value));
    line.push_number(access.time);
    if access.kind.reads() && access.kind.writes() {
        line.push_number(u64::from(access.old));
    }
    line
}

fn access_kind_word(kind: AccessKind) -> &'static str
    ensures { result.now ≡ access_kind_word kind }
{
    match kind {
        AccessKind::Load => "ld",
        AccessKind::Store => "st",
        AccessKind::Swap => "sw",
        AccessKind::Add => "fa",
    }
}

pub(crate) fn memory_line(line: u64, words: Words) -> Line
    ensures text { result ≡ joined_words (memory_words line words) }
    ensures length { length result < 160 }
{
    let [a, b, c, d] = words;
    let mut text = Line::new("m");
    text.push_number(line);
    text.push_number(u64::from(a));
    text.push_number(u64::from(b));
    text.push_number(u64::from(c));
    text.push_number(u64::from(d));
    text
}

pub(crate) fn event_line(event: &Event) -> Line
    ensures text { result ≡ event_line event.now }
    ensures length { length result < 160 }
{
    let mut line = Line::new("e");
    line.push_word(event.word());
    push_operands(&mut line, event.operands());
    line
}

fn push_operands(line: &mut Line, operands: Operands)
    requires { length line.old ≤ 16 }
    ensures text { line.new ≡ line.old ++ after_spaces (operand_words operands) }
    ensures length { length line.new ≤ length line.old + 63 }
{
    match operands {
        Operands::Nothing => {}
        Operands::Tile(t) => line.push_number(u64::from(t)),
        Operands::Channel { r, port, slot } => push_channel(line, r, port, slot),
        Operands::Way { r, port, slot, out } => {
            push_channel(line, r, port, slot);
            line.push_word(port_word(out));
        }
    }
}

fn push_channel(line: &mut Line, r: u8, port: Port, slot: u8)
    requires { length line.old ≤ 16 }
    ensures text { line.new ≡ line.old ++ after_spaces (operand_words (Channel r port slot)) }
    ensures length { length line.new ≤ length line.old + 44 }
{
    line.push_number(u64::from(r));
    line.push_word(port_word(port));
    line.push_number(u64::from(slot));
}

pub(crate) fn finish_line(finish: Finish) -> Line
    ensures text { result ≡ joined_words (finish_words finish) }
    ensures length { length result < 160 }
{
    let mut line = Line::new("ended");
    line.push_word(match finish {
        Finish::Finished => "finished",
        Finish::Budget => "budget",
    });
    line
}
