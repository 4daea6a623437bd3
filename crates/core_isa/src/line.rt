ghost use Rattle.std.specs.Prelude.{◌≡◌, Some, None, IfOk, if◌then◌else◌};
ghost use Rattle.std.specs.List.{before_first};
ghost use Rattle.core_isa.specs.Lines.{is_comment_sign, is_label, label_of, source_line, line_with, words_of};
ghost use Rattle.core_isa.specs.LineSeen.{texts_seen, label_seen, line_seen};

use crate::word::is_white_byte;
use std::alloc::{AllocError, Global};

/// A line of a text: the label that it bears, and its words besides the label.
#[derive(Drop)]
pub(crate) struct Line<'a> {
    pub label: Option<&'a [u8]>,
    pub words: Vec<&'a [u8]>,
}

impl<'a> Line<'a> {
    pub fn read(alloc: Global, raw: &'a [u8]) -> Result<Line<'a>, AllocError>
        ensures { IfOk result (λ line. line_seen line ≡ source_line raw.now) }
    {
        let words = split_words(alloc, raw)?;
        Ok(take_label(words))
    }
}

// What stands before the comment.
fn without_comment(raw: &[u8]) -> &[u8]
    ensures { result.now ≡ before_first is_comment_sign raw.now }
{
    match raw.iter().position(|byte| *byte == b'#') {
        Some(end) => raw.split_at(end).0,
        None => raw,
    }
}

#[tactic(auto, unfolding(crate::specs::Lines::words_of))]
fn split_words<'a>(alloc: Global, raw: &'a [u8]) -> Result<Vec<&'a [u8]>, AllocError>
    ensures { IfOk result (λ words. texts_seen words.items ≡ words_of raw.now) }
{
    without_comment(raw)
        .split(|byte| is_white_byte(*byte))
        .filter(|word| !word.is_empty())
        .collect(alloc)
}

// The label that the word is.
fn label_in(word: &[u8]) -> Option<&[u8]>
    ensures { label_seen result ≡ (if is_label word.now then Some (label_of word.now) else None) }
{
    match word.split_last() {
        Some((b':', label)) => Some(label),
        _ => None,
    }
}

// The label that the words begin with.
fn first_label<'a>(words: &[&'a [u8]]) -> Option<&'a [u8]>
    ensures { label_seen result ≡ (line_with (texts_seen words.now)).label }
{
    match words {
        [] => None,
        [first, ..] => label_in(first),
    }
}

// The line of these words.
fn take_label(words: Vec<&[u8]>) -> Line<'_>
    ensures { line_seen result ≡ line_with (texts_seen words.entry.items) }
{
    let mut words = words;
    let label = first_label(&words);
    if label.is_some() {
        words.remove(0);
    }
    Line { label, words }
}
