ghost use Rattle.std.specs.Prelude.{◌≡◌, ◌≢◌, ◌-◌, ℕ, List, [], ◌∷◌, ◌++◌, length, replicate};
ghost use Rattle.doc_text.specs.Canonical.{shown_words};

/// The laws of the words of memory that are shown: with zeros in place of those left out they are all words, and the last
/// that is shown is not 0. At run time it does nothing.
pub fn shown_words_laws()
    ensures padded { (words : List ℕ) → shown_words words
        ++ replicate (length words - length (shown_words words)) 0 ≡ words }
    ensures ended { (words front : List ℕ) (last : ℕ) → shown_words words ≡ front ++ last ∷ []
        → last ≢ 0 }
{}
