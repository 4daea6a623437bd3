//! The canonical text of a document is read back as the same document.
#![tactic(auto)]

mod laws;
mod read_back;
mod table_laws;

pub use laws::canonical_text_laws;
pub use read_back::{canonical_doc_is_read, canonical_is_read_back, document_is_canonical};
pub use table_laws::canonical_table_laws;
