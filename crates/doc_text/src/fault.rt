ghost use Rattle.std.specs.Prelude.{◌≡◌, Some};
ghost use Rattle.doc_text.specs.Messages.{fault_text, kind_number};

use crate::Key;
use core_isa::{AsmFault, AsmKind};
use mesh_gen::Text;
use std::fmt;

/// A table of a document, as a fault names it.
#[derive(Clone, Copy, Debug, PartialEq, Eq)]
pub enum Place {
    /// The whole document.
    Top,
    /// The table of the mesh.
    Mesh,
    /// The table of a core, by its position from 0.
    Core { at: u64 },
}

/// What is wrong with a document. `at` is the position of a core's table, from 0, and 0 for keys of other tables.
#[derive(Debug, Drop)]
pub enum DocFault {
    /// The bytes are not UTF-8, or not a TOML document.
    NotToml,
    /// A table has a key that means nothing there.
    UnknownKey { place: Place, key: Text },
    /// A key that is needed is not there.
    Missing { key: Key, at: u64 },
    /// A key's value, or an item of it, is of another kind than the key wants.
    WrongKind { key: Key, at: u64 },
    /// A key's value, or an item of it, is out of its range.
    Range { key: Key, at: u64 },
    /// A tile has two memory controllers.
    Controllers,
    /// A tile has two core tables.
    CoreTwice { tile: u8 },
    /// The program of a tile does not assemble.
    Asm { tile: u8, fault: AsmFault },
}

// The number by which the kind is told.
fn number_of(kind: AsmKind) -> u8
    ensures { result ≡ kind_number kind }
{
    kind as u8
}

/// What the program says of the fault, after `document: `.
impl fmt::Display for DocFault {
    ghost output = { λ fault. Some (fault_text fault) };

    fn fmt<W: fmt::Write>(&self, f: &mut fmt::Formatter<W>) -> fmt::Result {
        match self {
            DocFault::NotToml => f.write_str("not toml"),
            DocFault::UnknownKey { key, .. } => write!(f, "unknown key {}", key.as_str()),
            DocFault::Missing { key, .. } => write!(f, "missing {key}"),
            DocFault::WrongKind { key, .. } => write!(f, "wrong kind {key}"),
            DocFault::Range { key, .. } => write!(f, "out of range {key}"),
            DocFault::Controllers => f.write_str("controllers"),
            DocFault::CoreTwice { tile } => write!(f, "core twice {tile}"),
            DocFault::Asm { tile, fault } => write!(
                f,
                "core {tile} line {} kind {}",
                fault.line,
                number_of(fault.kind)
            ),
        }
    }
}
