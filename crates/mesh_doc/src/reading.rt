ghost use Rattle.std.specs.Prelude.{◌≡◌, Ok, option_map, IfOk, IfErr};
ghost use Rattle.toml.specs.View.{table_view};
ghost use Rattle.doc_text.specs.Doc.{doc_of};
ghost use Rattle.mesh_doc.specs.Tables.{table_of};
ghost use Rattle.mesh_doc.specs.Reading.{reading, reading_of, IsFaultOf};

use crate::DocEnd;
use crate::building::read_values;
use crate::tables::{check_tables, core_parts};
use doc_text::{DocFault, Document};
use mesh_gen::NoMemory;
use std::alloc::Global;
use toml::Table;

/// Reads a document, or tells its first fault. Faults are looked for kind by kind: bytes that are not TOML, unknown
/// keys, missing keys, wrong kinds, values out of range, a tile with two controllers, a tile with two core tables,
/// programs that do not assemble.
pub fn read_document(alloc: Global, bytes: &[u8]) -> Result<Document, DocEnd>
    ensures ok { IfOk result (λ document. reading bytes.now ≡ Ok (doc_of document)) }
    ensures fault { IfErr result (IsFaultOf (reading bytes.now)) }
{
    match read_table(alloc, bytes)? {
        Some(top) => read_whole(alloc, &top),
        None => Err(DocEnd::Fault(DocFault::NotToml)),
    }
}

// The whole table that the bytes write.
fn read_table(alloc: Global, bytes: &[u8]) -> Result<Option<Table>, NoMemory>
    ensures { IfOk result (λ found. option_map table_view found ≡ table_of bytes.now) }
{
    match toml::table_from_slice(alloc, bytes) {
        Ok(table) => Ok(Some(table)),
        Err(error) if error.is_memory() => Err(NoMemory),
        Err(_) => Ok(None),
    }
}

// What a whole table describes.
fn read_whole(alloc: Global, top: &Table) -> Result<Document, DocEnd>
    ensures ok { IfOk result (λ document. reading_of (table_view top.now) ≡ Ok (doc_of document)) }
    ensures fault { IfErr result (IsFaultOf (reading_of (table_view top.now))) }
{
    let cores = core_parts(alloc, top)?;
    check_tables(alloc, top, &cores)?;
    read_values(alloc, top, &cores)
}
