ghost use Rattle.std.specs.Prelude.{◌≡◌};
ghost use Rattle.doc_text.specs.Canonical.{shown_words};

/// The words up to the last that is not 0.
pub(crate) fn shown_words(words: &[u32]) -> &[u32]
    ensures { result.now ≡ shown_words words.now }
{
    let mut shown = words;
    while let Some((&last, front)) = shown.split_last() {
        if last != 0 {
            return shown;
        }
        shown = front;
    }
    shown
}
