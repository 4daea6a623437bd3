ghost use Rattle.std.specs.Prelude.{◌≡◌, ◌+◌, ◌<◌, ◌≤◌, ◌∷◌, ◌++◌, length, decimal};
ghost use Rattle.outside_io.specs.Streams.{stream, Writes};

use arrayvec::ArrayString;
use itoa::Buffer;
use outside_io::{Sink, WriteFault, write_piece};
use std::marker::Model;

// Room for a word, seven numbers of up to 20 digits, a space before each, and the line feed.
const LINE_SIZE: usize = 160;

/// A line that is being written, without its line feed.
#[derive(Drop)]
pub(crate) struct Line {
    text: ArrayString<LINE_SIZE>,
}

impl Model for Line {
    ghost use Rattle.std.specs.Prelude.{List, ℕ};

    ghost Value = { List ℕ };

    ghost view = { λ line. line.text.bytes };
}

impl Line {
    ghost use Rattle.report_text.specs.Lines.{ended};

    /// A line that begins with this word.
    pub fn new(word: &str) -> Line
        requires { length word.now ≤ 16 }
        ensures { result ≡ word.now }
    {
        let mut text = ArrayString::new();
        text.push_str(word);
        Line { text }
    }

    /// Appends a space and the word.
    pub fn push_word(&mut self, word: &str)
        requires { length self.old + length word.now < LINE_SIZE }
        ensures { self.new ≡ self.old ++ 32 ∷ word.now }
    {
        self.text.push_str(" ");
        self.text.push_str(word);
    }

    /// Appends a space and the number.
    pub fn push_number(&mut self, number: u64)
        requires { length self.old + 21 ≤ LINE_SIZE }
        ensures text { self.new ≡ self.old ++ 32 ∷ decimal number }
        ensures length { length self.new ≤ length self.old + 21 }
    {
        self.push_word(Buffer::new().format(number));
    }

    /// Writes the line with its line feed, as one piece.
    pub fn write<K: Sink>(mut self, sink: &mut K) -> Result<(), WriteFault>
        requires { length self < LINE_SIZE }
        ensures { Writes (stream K.held K.faults sink.old sink.new) (ended self) result }
    {
        self.text.push('\n');
        write_piece(sink, self.text.as_str().as_bytes())
    }
}
