ghost use Rattle.outside_io.specs.Streams.{stream};
ghost use Rattle.doc_text.specs.Doc.{doc_of};
ghost use Rattle.commands.specs.Texts.{IsShown};
ghost use Rattle.commands.specs.Outcome.{WroteSome};

use crate::Stop;
use canonical_form::canonical_is_read_back;
use mesh_doc::{Document, write_document};
use outside_io::Sink;

/// Writes the canonical text, which is read back as the document that it shows.
pub(crate) fn write_shown<K: Sink>(document: &Document, sink: &mut K) -> Result<(), Stop>
    ensures { WroteSome (IsShown (doc_of document.now))
        (stream K.held K.faults sink.old sink.new) result }
{
    canonical_is_read_back(document);
    write_document(document, sink)?;
    Ok(())
}
