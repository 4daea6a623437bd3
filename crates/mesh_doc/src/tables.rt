ghost use Rattle.std.specs.Prelude.{◌≡◌, ◌∷◌, IfOk, option_map};
ghost use Rattle.std.specs.List.{flat_map, filter_map, enumerate_from};
ghost use Rattle.toml.specs.View.{table_view, items_view};
ghost use Rattle.doc_text.specs.declared.fault.Place.TheVariants.{Top as AtTop};
ghost use Rattle.mesh_doc.specs.Tables.{table_of_mesh, mesh_part, cores_of, parts_of, core_part, listed};
ghost use Rattle.mesh_doc.specs.Faults.{unknown_in, missing_in, wrong_in, table_faults};
ghost use Rattle.mesh_doc.specs.Seen.{parts_seen, Finds, Ends};

use crate::DocEnd;
use crate::part::{Part, written_value};
use doc_text::{DocFault, Key, Place};
use mesh_gen::NoMemory;
use std::alloc::Global;
use toml::{Table, Value};

/// The table of the mesh, where it is one.
pub(crate) fn table_of_mesh<'a>(top: &'a Table) -> Option<&'a Table>
    ensures { option_map (λ t. table_view t.now) result ≡ table_of_mesh (table_view top.now) }
{
    match written_value(top, Key::Mesh) {
        Some(value) => value.as_table(),
        None => None,
    }
}

/// The tables of the cores.
pub(crate) fn core_parts<'a>(alloc: Global, top: &'a Table) -> Result<Vec<Part<'a>>, NoMemory>
    ensures { IfOk result (λ cores. parts_seen cores.items ≡ cores_of (table_view top.now)) }
{
    match written_value(top, Key::Core) {
        Some(value) => match value.as_array() {
            Some(items) => parts_in(alloc, items.as_slice()),
            None => Ok(Vec::new(alloc)),
        },
        None => Ok(Vec::new(alloc)),
    }
}

fn parts_in<'a>(alloc: Global, items: &'a [Value]) -> Result<Vec<Part<'a>>, NoMemory>
    ensures { IfOk result (λ cores. parts_seen cores.items
        ≡ filter_map core_part (enumerate_from 0 (listed (items_view items.now)))) }
{
    let mut cores = Vec::new(alloc);
    for (at, item) in items.iter().enumerate() {
        if let Some(table) = item.as_table() {
            let place = Place::Core { at: at as u64 };
            cores.push(Part { place, table })?;
        }
    }
    Ok(cores)
}

// The whole table, and that of the mesh.
fn head_parts<'a>(alloc: Global, top: &'a Table) -> Result<Vec<Part<'a>>, NoMemory>
    ensures { IfOk result (λ parts. parts_seen parts.items
        ≡ record { place = AtTop; table = table_view top.now }
        ∷ mesh_part (table_of_mesh (table_view top.now))) }
{
    let mut parts = Vec::new(alloc);
    parts.push(Part {
        place: Place::Top,
        table: top,
    })?;
    match table_of_mesh(top) {
        Some(table) => {
            parts.push(Part {
                place: Place::Mesh,
                table,
            })?;
            Ok(parts)
        }
        None => Ok(parts),
    }
}

// All tables with keys of their own.
fn all_parts<'a>(
    alloc: Global,
    top: &'a Table,
    cores: &[Part<'a>],
) -> Result<Vec<Part<'a>>, NoMemory>
    requires { parts_seen cores.now ≡ cores_of (table_view top.now) }
    ensures { IfOk result (λ parts. parts_seen parts.items ≡ parts_of (table_view top.now)) }
{
    let mut parts = head_parts(alloc, top)?;
    parts.extend_from_slice(cores)?;
    Ok(parts)
}

/// That the keys of each table are known, that none is missing, and that their values are of the kinds that are wanted.
pub(crate) fn check_tables<'a>(
    alloc: Global,
    top: &'a Table,
    cores: &[Part<'a>],
) -> Result<(), DocEnd>
    requires { parts_seen cores.now ≡ cores_of (table_view top.now) }
    ensures { Ends (table_faults (table_view top.now)) result }
{
    let parts = all_parts(alloc, top, cores)?;
    check_known(alloc, &parts)?;
    check_missing(&parts)?;
    check_kinds(&parts)?;
    Ok(())
}

fn check_known(alloc: Global, parts: &[Part<'_>]) -> Result<(), DocEnd>
    ensures { Ends (flat_map unknown_in (parts_seen parts.now)) result }
{
    for part in parts {
        part.check_known(alloc)?;
    }
    Ok(())
}

fn check_missing(parts: &[Part<'_>]) -> Result<(), DocFault>
    ensures { Finds (flat_map missing_in (parts_seen parts.now)) result }
{
    for part in parts {
        part.check_missing()?;
    }
    Ok(())
}

fn check_kinds(parts: &[Part<'_>]) -> Result<(), DocFault>
    ensures { Finds (flat_map wrong_in (parts_seen parts.now)) result }
{
    for part in parts {
        part.check_kinds()?;
    }
    Ok(())
}
