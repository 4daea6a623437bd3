ghost use Rattle.std.specs.Prelude.{◌≡◌, true, Some};
ghost use Rattle.std.specs.Str.{is_utf8};
ghost use Rattle.doc_text.specs.Doc.{Doc};
ghost use Rattle.doc_text.specs.Canonical.{canonical};
ghost use Rattle.mesh_doc.specs.Tables.{table_of};
ghost use Rattle.canonical_form.specs.CanonicalTable.{canonical_table};
ghost use Rattle.canonical_form.specs.Writable.{IsWritable};

/// The laws of the canonical text: it is UTF-8, and it writes the document's table. At run time it does nothing.
pub fn canonical_text_laws()
    ensures utf8 { (doc : Doc) → IsWritable doc → is_utf8 (canonical doc) ≡ true }
    ensures writes { (doc : Doc) → IsWritable doc
        → table_of (canonical doc) ≡ Some (canonical_table doc) }
{}
