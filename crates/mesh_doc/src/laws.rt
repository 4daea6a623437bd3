//! What holds of every document that is accepted.

ghost use Rattle.std.specs.Prelude.{◌≡◌, ℕ, List, Ok};
ghost use Rattle.doc_text.specs.Doc.{Doc};
ghost use Rattle.mesh_doc.specs.Reading.{reading};
ghost use Rattle.mesh_doc.specs.Laws.{KeepsLimits};

/// A document that is accepted keeps to every limit.
pub fn accepted_keeps_limits()
    ensures { (bytes : List ℕ) (doc : Doc) → reading bytes ≡ Ok doc → KeepsLimits doc }
{}
