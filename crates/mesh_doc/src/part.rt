ghost use Rattle.std.specs.Prelude.{◌≡◌, option_map, IfOk};
ghost use Rattle.toml.specs.View.{view, table_view};
ghost use Rattle.mesh_doc.specs.Tables.{written_value, level_of, position};
ghost use Rattle.mesh_doc.specs.Faults.{unknown_in, has_name, is_known, missing_in, wrong_in};
ghost use Rattle.doc_text.specs.declared.fault.DocFault.TheVariants.{UnknownKey as IsUnknown};
ghost use Rattle.mesh_doc.specs.declared.end.DocEnd.TheVariants.{Fault as EndOfFault};

use crate::DocEnd;
use crate::values::check_value;
use doc_text::{DocFault, Key, Level, Omitted, Place};
use mesh_gen::{NoMemory, Text};
use std::alloc::Global;
use toml::{Table, Value};

/// A table with keys of its own, and its place in the document.
#[derive(Clone, Copy)]
pub(crate) struct Part<'a> {
    pub(crate) place: Place,
    pub(crate) table: &'a Table,
}

// What is written for a key of a table.
pub(crate) fn written_value<'a>(table: &'a Table, key: Key) -> Option<&'a Value>
    ensures { option_map (λ v. view v.now) result ≡ written_value key (table_view table.now) }
{
    table.get(key.name())
}

fn level_of(place: Place) -> Level
    ensures { result ≡ level_of place }
{
    match place {
        Place::Top => Level::Top,
        Place::Mesh => Level::Mesh,
        Place::Core { .. } => Level::Core,
    }
}

fn position(place: Place) -> u64
    ensures { result ≡ position place }
{
    match place {
        Place::Core { at } => at,
        _ => 0,
    }
}

fn is_known(level: Level, name: &str) -> bool
    ensures { result ≡ is_known level name.now }
{
    has_name(level.keys(), name)
}

fn has_name(keys: &[Key], name: &str) -> bool
    ensures { result ≡ has_name keys.now name.now }
{
    for key in keys {
        if key.name() == name {
            return true;
        }
    }
    false
}

impl<'a> Part<'a> {
    ghost use Rattle.mesh_doc.specs.Seen.{part_seen, Finds, Ends};

    pub(crate) fn level(&self) -> Level
        ensures { result ≡ level_of self.now.place }
    {
        level_of(self.place)
    }

    pub(crate) fn position(&self) -> u64
        ensures { result ≡ position self.now.place }
    {
        position(self.place)
    }

    // That each key means something in this table.
    pub(crate) fn check_known(&self, alloc: Global) -> Result<(), DocEnd>
        ensures { Ends (unknown_in (part_seen self.now)) result }
    {
        let table = self.table;
        for (name, _) in table {
            if !is_known(self.level(), name.as_str()) {
                return Err(unknown_key(alloc, self.place, name.as_str())?);
            }
        }
        Ok(())
    }

    // That each key is there that is needed.
    pub(crate) fn check_missing(&self) -> Result<(), DocFault>
        ensures { Finds (missing_in (part_seen self.now)) result }
    {
        let keys = self.level().keys();
        for key in keys {
            if key.omitted() == Omitted::Refused && written_value(self.table, *key).is_none() {
                let at = self.position();
                return Err(DocFault::Missing { key: *key, at });
            }
        }
        Ok(())
    }

    // That each value is of the kind that its key wants.
    pub(crate) fn check_kinds(&self) -> Result<(), DocFault>
        ensures { Finds (wrong_in (part_seen self.now)) result }
    {
        let keys = self.level().keys();
        for key in keys {
            if let Some(value) = written_value(self.table, *key) {
                check_value(*key, self.position(), value)?;
            }
        }
        Ok(())
    }
}

fn unknown_key(alloc: Global, place: Place, name: &str) -> Result<DocEnd, NoMemory>
    ensures { IfOk result (λ end. end ≡ EndOfFault (IsUnknown place name.now)) }
{
    let key = Text::new(String::from_str(alloc, name)?);
    Ok(DocEnd::Fault(DocFault::UnknownKey { place, key }))
}
