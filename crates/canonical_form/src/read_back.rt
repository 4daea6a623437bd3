//! A document that is kept is read back from its canonical text.

ghost use Rattle.std.specs.Prelude.{◌≡◌, Ok};
ghost use Rattle.std.specs.List.{AllByRecursion};
ghost use Rattle.mesh_gen.specs.Limits.{IsFrom};
ghost use Rattle.core_isa.specs.Program.{IsProgram};
ghost use Rattle.doc_text.specs.Canonical.{canonical};
ghost use Rattle.doc_text.specs.Doc.{Doc, doc_of};
ghost use Rattle.mesh_doc.specs.Reading.{reading};
ghost use Rattle.canonical_form.specs.CanonicalDoc.{IsCanonicalDoc};

use core_isa::Program;
use doc_text::Document;

/// The canonical text of a document that keeps every limit is read as that document, so that no two have one text.
/// At run time it does nothing.
pub fn canonical_doc_is_read()
    ensures read { (doc : Doc) → IsCanonicalDoc doc → reading (canonical doc) ≡ Ok doc }
    ensures apart { (a b : Doc) → IsCanonicalDoc a → IsCanonicalDoc b → canonical a ≡ canonical b
        → a ≡ b }
{}

// Each program is one that a core may be given.
fn are_programs(programs: &[Program])
    ensures { AllByRecursion IsProgram programs.now }
{
    for program in programs {
        let _instrs = program.instrs();
    }
}

// Each word has 32 bits.
fn are_words(words: &[u32])
    ensures { AllByRecursion (IsFrom 0 4294967295) words.now }
{}

/// A document that is kept keeps every limit that its canonical text needs. It passes over the programs, each of which
/// knows its own limits.
pub fn document_is_canonical(document: &Document)
    ensures { IsCanonicalDoc (doc_of document.now) }
{
    let _windows = document.windows();
    are_words(document.memory.as_slice());
    are_programs(document.programs.as_slice());
}

/// The canonical text of a document that is kept is read back as the same document. It passes over the programs.
pub fn canonical_is_read_back(document: &Document)
    ensures { reading (canonical (doc_of document.now)) ≡ Ok (doc_of document.now) }
{
    document_is_canonical(document);
    canonical_doc_is_read();
}
