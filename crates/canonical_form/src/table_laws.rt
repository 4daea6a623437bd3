//! What the table of a canonical text says.

ghost use Rattle.std.specs.Prelude.{◌≡◌, Ok};
ghost use Rattle.doc_text.specs.Doc.{Doc};
ghost use Rattle.mesh_doc.specs.Reading.{reading_of};
ghost use Rattle.canonical_form.specs.CanonicalTable.{canonical_table};
ghost use Rattle.canonical_form.specs.CanonicalDoc.{IsCanonicalDoc};

/// The canonical table of a document is read as that document. At run time it does nothing.
pub fn canonical_table_laws()
    ensures read { (doc : Doc) → IsCanonicalDoc doc → reading_of (canonical_table doc) ≡ Ok doc }
{}
