//! The reader of documents: any bytes are a document that keeps to every limit, or have a first fault.
#![tactic(auto)]

mod building;
mod end;
mod laws;
mod part;
mod programs;
mod reading;
mod said;
mod sizes;
mod tables;
mod values;

pub use doc_text::{DocFault, Document, Key, Level, Place, Posts, Programs, write_document};
pub use end::DocEnd;
pub use laws::accepted_keeps_limits;
pub use reading::read_document;
