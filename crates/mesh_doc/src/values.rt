ghost use Rattle.std.specs.Prelude.{◌≡◌, ◌<◌, IfOk, IfSome, option_map};
ghost use Rattle.std.specs.List.{list_all, flat_map, enumerate_from};
ghost use Rattle.mesh_gen.specs.Limits.{IsFrom};
ghost use Rattle.toml.specs.View.{view, items_view};
ghost use Rattle.doc_text.specs.declared.column.Shape.TheVariants.{Tables};
ghost use Rattle.doc_text.specs.Keys.{row_of};
ghost use Rattle.mesh_doc.specs.Tables.{listed};
ghost use Rattle.mesh_doc.specs.Values.{number_in, is_count, items_in, each, repeated, tiles, words};
ghost use Rattle.mesh_doc.specs.Faults.{wrong_value, is_of, is_integer, are_integers, are_lists, no_tables, no_table};
ghost use Rattle.mesh_doc.specs.Reading.{first};
ghost use Rattle.mesh_doc.specs.Seen.{Finds};

use doc_text::{DocFault, Key, Shape};
use mesh_gen::NoMemory;
use std::alloc::Global;
use toml::Value;

// That a value is of the kind that its key wants.
pub(crate) fn check_value(key: Key, at: u64, value: &Value) -> Result<(), DocFault>
    ensures { Finds (wrong_value (row_of key).shape key at (view value.now)) result }
{
    if !is_of(key.shape(), value) {
        return Err(DocFault::WrongKind { key, at });
    }
    match key.shape() {
        Shape::Tables => check_tables(key, value),
        _ => Ok(()),
    }
}

fn is_of(shape: Shape, value: &Value) -> bool
    ensures { result ≡ is_of shape (view value.now) }
{
    match shape {
        Shape::Table => value.is_table(),
        Shape::Integer => value.is_integer(),
        Shape::Text => value.is_str(),
        Shape::Integers => are_integers(value),
        Shape::Lists => are_lists(value),
        Shape::Tables => value.is_array(),
    }
}

fn are_integers(value: &Value) -> bool
    ensures { result ≡ are_integers (view value.now) }
{
    match value.as_array() {
        Some(items) => all_integers(items.as_slice()),
        None => false,
    }
}

fn all_integers(items: &[Value]) -> bool
    ensures { result ≡ list_all is_integer (listed (items_view items.now)) }
{
    for item in items {
        if !item.is_integer() {
            return false;
        }
    }
    true
}

fn are_lists(value: &Value) -> bool
    ensures { result ≡ are_lists (view value.now) }
{
    match value.as_array() {
        Some(items) => all_lists(items.as_slice()),
        None => false,
    }
}

fn all_lists(items: &[Value]) -> bool
    ensures { result ≡ list_all are_integers (listed (items_view items.now)) }
{
    for item in items {
        if !are_integers(item) {
            return false;
        }
    }
    true
}

fn check_tables(key: Key, value: &Value) -> Result<(), DocFault>
    ensures { Finds (no_tables Tables key (view value.now)) result }
{
    match value.as_array() {
        Some(items) => check_items(key, items.as_slice()),
        None => Ok(()),
    }
}

fn check_items(key: Key, items: &[Value]) -> Result<(), DocFault>
    ensures { Finds
        (flat_map (no_table key) (enumerate_from 0 (listed (items_view items.now)))) result }
{
    for (at, item) in items.iter().enumerate() {
        if !item.is_table() {
            return Err(DocFault::WrongKind { key, at: at as u64 });
        }
    }
    Ok(())
}

/// The integer that a value is, where it is from the least to the most.
pub(crate) fn number_in(value: &Value, least: u32, most: u32) -> Option<u32>
    ensures value { result ≡ number_in least most (view value.now) }
    ensures limits { IfSome result (IsFrom least most) }
{
    match value.as_integer() {
        Some(number) if i64::from(least) <= number && number <= i64::from(most) => Some(
            number as u32,
        ),
        _ => None,
    }
}

/// The items of a list that has at least and at most so many.
pub(crate) fn items_in(value: &Value, least: usize, most: usize) -> Option<&[Value]>
    ensures { option_map (λ items. listed (items_view items.now)) result
        ≡ items_in least most (view value.now) }
{
    let Some(array) = value.as_array() else {
        return None;
    };
    let items = array.as_slice();
    if is_count(items.len(), least, most) {
        Some(items)
    } else {
        None
    }
}

fn is_count(count: usize, least: usize, most: usize) -> bool
    ensures { result ≡ is_count least most count }
{
    least <= count && count <= most
}

/// The tiles of a list, where they are at least one and at most as many as there are.
pub(crate) fn read_tiles(
    alloc: Global,
    value: &Value,
    count: u8,
) -> Result<Option<Vec<u8>>, NoMemory>
    requires { 0 < count }
    ensures { IfOk result (λ found.
        option_map (λ list. list.items) found ≡ tiles count (view value.now)) }
{
    match items_in(value, 1, usize::from(count)) {
        Some(items) => tiles_of(alloc, items, count - 1),
        None => Ok(None),
    }
}

fn tiles_of(alloc: Global, items: &[Value], last: u8) -> Result<Option<Vec<u8>>, NoMemory>
    ensures { IfOk result (λ found. option_map (λ list. list.items) found
        ≡ each (number_in 0 last) (listed (items_view items.now))) }
{
    let mut tiles = Vec::new(alloc);
    for item in items {
        let Some(tile) = number_in(item, 0, u32::from(last)) else {
            return Ok(None);
        };
        tiles.push(tile as u8)?;
    }
    Ok(Some(tiles))
}

/// The words of a list, where they are at most as many as so many lines have.
pub(crate) fn read_words(
    alloc: Global,
    value: &Value,
    lines: u16,
) -> Result<Option<Vec<u32>>, NoMemory>
    ensures { IfOk result (λ found.
        option_map (λ list. list.items) found ≡ words lines (view value.now)) }
{
    match items_in(value, 0, 4 * usize::from(lines)) {
        Some(items) => words_of(alloc, items),
        None => Ok(None),
    }
}

fn words_of(alloc: Global, items: &[Value]) -> Result<Option<Vec<u32>>, NoMemory>
    ensures { IfOk result (λ found. option_map (λ list. list.items) found
        ≡ each (number_in 0 4294967295) (listed (items_view items.now))) }
{
    let mut words = Vec::new(alloc);
    for item in items {
        let Some(word) = number_in(item, 0, u32::MAX) else {
            return Ok(None);
        };
        words.push(word)?;
    }
    Ok(Some(words))
}

/// The first tile of a list that stands in it before. Only distinct tiles are looked through for it, so there are few.
pub(crate) fn first_repeated(tiles: &[u8]) -> Option<u8>
    ensures { result ≡ first (repeated tiles.now) }
{
    for (i, tile) in tiles.iter().enumerate() {
        let (before, _) = tiles.split_at(i);
        if before.contains(tile) {
            return Some(*tile);
        }
    }
    None
}
