//! Single lines of the canonical text, and the pieces in which long ones are written.
ghost use Rattle.std.specs.Prelude.{◌≡◌, ◌+◌, ◌<◌, ◌≤◌, ◌++◌, length, map, All};
ghost use Rattle.std.specs.List.{join_with_byte};
ghost use Rattle.arrayvec.specs.ArrayString.{array_string_len};
ghost use Rattle.outside_io.specs.Streams.{stream, Writes};
ghost use Rattle.doc_text.specs.Canonical.{value_line, list_text, numbers_text};
ghost use Rattle.doc_text.specs.Keys.{row_of};

use crate::Key;
use arrayvec::ArrayString;
use itoa::{Buffer, Integer};
use mesh_gen::Tiles;
use outside_io::{Sink, WriteFault, write_piece};

// Room for the longest key, what stands beside it, any number, and what ends a line.
const LINE_SIZE: usize = 64;

// The name of a key between two texts.
fn named(before: &str, key: Key, after: &str) -> ArrayString<LINE_SIZE>
    requires { length before.now + length after.now ≤ 12 }
    ensures text { result.bytes ≡ before.now ++ (row_of key).name ++ after.now }
    ensures len { array_string_len result ≤ 23 }
{
    let mut text = ArrayString::new();
    text.push_str(before);
    text.push_str(key.name());
    text.push_str(after);
    text
}

/// Writes the name of a key between two texts as one piece.
pub(crate) fn write_name<K: Sink>(
    before: &str,
    key: Key,
    after: &str,
    sink: &mut K,
) -> Result<(), WriteFault>
    requires { length before.now + length after.now ≤ 12 }
    ensures { Writes (stream K.held K.faults sink.old sink.new)
        (before.now ++ (row_of key).name ++ after.now) result }
{
    write_piece(sink, named(before, key, after).as_str().as_bytes())
}

/// Writes the line of a key whose value is a number as one piece.
pub(crate) fn write_number_line<K: Sink, N: Integer>(
    key: Key,
    number: N,
    sink: &mut K,
) -> Result<(), WriteFault>
    ensures { Writes (stream K.held K.faults sink.old sink.new)
        (value_line key (N.text number)) result }
{
    let mut line = named("", key, " = ");
    line.push_str(Buffer::new().format(number));
    line.push_str("\n");
    write_piece(sink, line.as_str().as_bytes())
}

/// Writes the line of a key whose value is a list of numbers, of which there are some.
pub(crate) fn write_list_line<K: Sink, N: Integer>(
    key: Key,
    numbers: &[N],
    sink: &mut K,
) -> Result<(), WriteFault>
    requires { 0 < length numbers.now }
    ensures { Writes (stream K.held K.faults sink.old sink.new)
        (value_line key (list_text (map N.text numbers.now))) result }
{
    let opening = named("", key, " = [");
    write_numbers(opening.as_str(), numbers, sink)?;
    write_piece(sink, b"]\n")
}

/// Writes the line of a key whose value is a list of lists of tiles. There are some lists, and some tiles in each.
pub(crate) fn write_lists_line<K: Sink>(
    key: Key,
    lists: &[Tiles],
    sink: &mut K,
) -> Result<(), WriteFault>
    requires some { 0 < length lists.now }
    requires each { All (λ list. 0 < length list) lists.now }
    ensures { Writes (stream K.held K.faults sink.old sink.new)
        (value_line key (list_text (map numbers_text lists.now))) result }
{
    let opening = named("", key, " = [[");
    let mut before = opening.as_str();
    for list in lists {
        write_numbers(before, list.as_slice(), sink)?;
        before = "],[";
    }
    write_piece(sink, b"]]\n")
}

// Writes numbers with a comma between each two, the first together with the text before it.
fn write_numbers<K: Sink, N: Integer>(
    before: &str,
    numbers: &[N],
    sink: &mut K,
) -> Result<(), WriteFault>
    requires some { 0 < length numbers.now }
    requires short { length before.now ≤ 23 }
    ensures { Writes (stream K.held K.faults sink.old sink.new)
        (before.now ++ join_with_byte 44 (map N.text numbers.now)) result }
{
    let mut before = before;
    for &number in numbers {
        write_number(before, number, sink)?;
        before = ",";
    }
    Ok(())
}

// Writes a number as one piece together with the text before it.
fn write_number<K: Sink, N: Integer>(
    before: &str,
    number: N,
    sink: &mut K,
) -> Result<(), WriteFault>
    requires { length before.now ≤ 23 }
    ensures { Writes (stream K.held K.faults sink.old sink.new)
        (before.now ++ N.text number) result }
{
    let mut piece: ArrayString<LINE_SIZE> = ArrayString::new();
    piece.push_str(before);
    piece.push_str(Buffer::new().format(number));
    write_piece(sink, piece.as_str().as_bytes())
}
