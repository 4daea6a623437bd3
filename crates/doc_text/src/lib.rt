//! The document of a chip, its programs and its posts as checked data; the table of a document's keys; the text in
//! which it is shown.
#![tactic(auto)]

mod column;
mod cores;
mod document;
mod fault;
mod key;
mod laws;
mod line;
mod memory;
mod writing;

pub use column::{Limit, Omitted, Shape};
pub use document::{Document, Posts, Programs};
pub use fault::{DocFault, Place};
pub use key::{Key, Level};
pub use laws::shown_words_laws;
pub use writing::write_document;
