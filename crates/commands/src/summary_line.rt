ghost use Rattle.std.specs.Prelude.{◌≡◌, ◌≤◌, length};
ghost use Rattle.outside_io.specs.Streams.{stream, Writes};

use arrayvec::ArrayString;
use itoa::Buffer;
use outside_io::{Sink, WriteFault, write_piece};
use report_text::Finish;
use std::marker::Model;

// Room for a word, a space, any number and the line feed.
const LINE_SIZE: usize = 64;

/// A line of a summary, with its line feed.
#[derive(Drop)]
pub(crate) struct SummaryLine {
    text: ArrayString<LINE_SIZE>,
}

impl Model for SummaryLine {
    ghost use Rattle.std.specs.Prelude.{List, ℕ};

    ghost Value = { List ℕ };

    ghost view = { λ line. line.text.bytes };
}

impl SummaryLine {
    ghost use Rattle.report_text.specs.Lines.{ended, joined_words};
    ghost use Rattle.report_text.specs.Rows.{finish_words};
    ghost use Rattle.report_text.specs.Report.{count_row};

    /// The line of a word and a number.
    pub fn counting(word: &str, number: u64) -> SummaryLine
        requires { length word.now ≤ 16 }
        ensures { result ≡ ended (count_row word.now number) }
    {
        let mut text = ArrayString::new();
        text.push_str(word);
        text.push_str(" ");
        text.push_str(Buffer::new().format(number));
        text.push_str("\n");
        SummaryLine { text }
    }

    /// The line of how a run ended.
    pub fn ending(finish: Finish) -> SummaryLine
        ensures { result ≡ ended (joined_words (finish_words finish)) }
    {
        let mut text = ArrayString::new();
        text.push_str(match finish {
            Finish::Finished => "ended finished\n",
            Finish::Budget => "ended budget\n",
        });
        SummaryLine { text }
    }

    /// Writes the line as one piece.
    pub fn write<K: Sink>(&self, sink: &mut K) -> Result<(), WriteFault>
        ensures { Writes (stream K.held K.faults sink.old sink.new) self.now result }
    {
        write_piece(sink, self.text.as_str().as_bytes())
    }
}
