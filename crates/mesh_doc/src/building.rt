ghost use Rattle.std.specs.Prelude.{◌≡◌, ◌*◌, ◌+◌, ◌-◌, ◌<◌, ◌≤◌, max, length, map, IfOk, IfErr, option_map};
ghost use Rattle.std.specs.List.{flat_map, range_with_len};
ghost use Rattle.mesh_gen.specs.Limits.{IsFrom, AreTiles};
ghost use Rattle.toml.specs.View.{view, table_view, items_view};
ghost use Rattle.doc_text.specs.declared.key.Key.TheVariants.{Posts as AtPosts, Controllers as AtControllers, Memory as AtMemory};
ghost use Rattle.doc_text.specs.Doc.{doc_of};
ghost use Rattle.doc_text.specs.Limits.{ArePosts};
ghost use Rattle.mesh_doc.specs.Tables.{cores_of, value, listed};
ghost use Rattle.mesh_doc.specs.Values.{tiles, windows, window, words, each};
ghost use Rattle.mesh_doc.specs.Faults.{out_of_range, core_range_fault, core_tile, bad_program, value_faults, controllers_twice, cores_twice};
ghost use Rattle.mesh_doc.specs.Reading.{document, image, program_of_tile};
ghost use Rattle.mesh_doc.specs.declared.end.DocEnd.TheVariants.{NoMemory as OutOfMemory};
ghost use Rattle.mesh_doc.specs.MeshSeen.{mesh_seen};
ghost use Rattle.mesh_doc.specs.Seen.{part_seen, parts_seen, Finds, Ends};
ghost use Rattle.mesh_doc.specs.Said.{Says, count_of, IsDocumentOf};

use crate::DocEnd;
use crate::part::{Part, written_value};
use crate::programs::{assemble_cores, place_programs};
use crate::said::Said;
use crate::sizes::{Extent, Sizes, number_at, out_of_range, written_in};
use crate::tables::table_of_mesh;
use crate::values::{first_repeated, items_in, read_tiles, read_words};
use core_isa::Program;
use doc_text::{DocFault, Document, Key, Posts};
use mesh_gen::{Items, Mesh, NoMemory, Tiles};
use std::alloc::Global;
use toml::{Table, Value};

// How many windows may be written.
const MOST_WINDOWS: usize = 4096;

/// What tables describe that are right by themselves, or the first fault of what they say.
pub(crate) fn read_values<'a>(
    alloc: Global,
    top: &'a Table,
    cores: &[Part<'a>],
) -> Result<Document, DocEnd>
    requires { parts_seen cores.now ≡ cores_of (table_view top.now) }
    ensures faults { Ends (value_faults (table_view top.now)) result }
    ensures document { IfOk result (λ d. document (table_view top.now) ≡ doc_of d) }
{
    let said = read_limited(alloc, top, cores)?;
    check_controllers(&said.controllers)?;
    check_core_tiles(&said.core_tiles)?;
    let programs = read_programs(alloc, cores, &said.core_tiles, said.extent.tiles())?;
    document_of(said, programs)
}

// The program of each tile.
fn read_programs(
    alloc: Global,
    cores: &[Part<'_>],
    tiles: &[u8],
    count: u8,
) -> Result<Vec<Program>, DocEnd>
    requires { tiles.now ≡ map (core_tile count) (parts_seen cores.now) }
    ensures faults { Ends (flat_map (bad_program count) (parts_seen cores.now)) result }
    ensures programs { IfOk result (λ placed.
        placed.items ≡ map (program_of_tile count (parts_seen cores.now))
        (range_with_len 0 count)) }
{
    let programs = assemble_cores(alloc, cores, tiles, count)?;
    Ok(place_programs(alloc, programs, cores, tiles, count)?)
}

// What the values say that keep to their limits.
fn read_limited<'a>(alloc: Global, top: &'a Table, cores: &[Part<'a>]) -> Result<Said, DocEnd>
    requires { parts_seen cores.now ≡ cores_of (table_view top.now) }
    ensures faults { Ends (out_of_range (table_view top.now)) result }
    ensures said { IfOk result (Says (table_view top.now)) }
{
    let mesh = table_of_mesh(top);
    let extent = Extent::read(mesh)?;
    let count = extent.tiles();
    let posts = read_posts(alloc, top, count)?.ok_or(out_of_range(Key::Posts))?;
    let sizes = Sizes::read(mesh, &extent)?;
    let controllers = read_controllers(alloc, mesh, count)?.ok_or(out_of_range(Key::Controllers))?;
    let words = read_memory(alloc, mesh, sizes.lines)?.ok_or(out_of_range(Key::Memory))?;
    let core_tiles = read_core_tiles(alloc, cores, count)?;
    Ok(Said {
        extent,
        sizes,
        controllers,
        words,
        core_tiles,
        posts,
    })
}

fn read_posts(alloc: Global, top: &Table, count: u8) -> Result<Option<Posts>, NoMemory>
    requires { 0 < count }
    ensures { IfOk result (λ found. found ≡ windows count (value AtPosts (table_view top.now))) }
{
    match written_value(top, Key::Posts) {
        Some(value) => read_windows(alloc, value, count),
        None => Ok(Some(Items::new(Vec::new(alloc)))),
    }
}

fn read_windows(alloc: Global, value: &Value, count: u8) -> Result<Option<Posts>, NoMemory>
    requires { 0 < count }
    ensures { IfOk result (λ found. found ≡ windows count (view value.now)) }
{
    match items_in(value, 0, MOST_WINDOWS) {
        Some(items) => windows_of(alloc, items, count),
        None => Ok(None),
    }
}

fn windows_of(alloc: Global, items: &[Value], count: u8) -> Result<Option<Posts>, NoMemory>
    requires { 0 < count }
    ensures { IfOk result (λ found. found ≡ each (window count) (listed (items_view items.now))) }
{
    let mut windows = Vec::new(alloc);
    for item in items {
        let Some(window) = read_window(alloc, item, count)? else {
            return Ok(None);
        };
        windows.push(window)?;
    }
    Ok(Some(Items::new(windows)))
}

fn read_window(alloc: Global, value: &Value, count: u8) -> Result<Option<Tiles>, NoMemory>
    requires { 0 < count }
    ensures { IfOk result (λ found. found ≡ window count (view value.now)) }
{
    let Some(tiles) = read_tiles(alloc, value, count)? else {
        return Ok(None);
    };
    if first_repeated(&tiles).is_some() {
        return Ok(None);
    }
    Ok(Some(Items::new(tiles)))
}

fn read_controllers(
    alloc: Global,
    mesh: Option<&Table>,
    count: u8,
) -> Result<Option<Vec<u8>>, NoMemory>
    requires { 0 < count }
    ensures { IfOk result (λ found. option_map (λ list. list.items) found
        ≡ tiles count (value AtControllers (mesh_seen mesh.entry))) }
{
    match written_in(mesh, Key::Controllers) {
        Some(value) => read_tiles(alloc, value, count),
        None => Ok(Some(Vec::from_slice(alloc, &[0])?)),
    }
}

// The words of memory that are written.
fn read_memory(
    alloc: Global,
    mesh: Option<&Table>,
    lines: u16,
) -> Result<Option<Vec<u32>>, NoMemory>
    ensures { IfOk result (λ found. option_map (λ list. list.items) found
        ≡ words lines (value AtMemory (mesh_seen mesh.entry))) }
{
    match written_in(mesh, Key::Memory) {
        Some(value) => read_words(alloc, value, lines),
        None => Ok(Some(Vec::new(alloc))),
    }
}

// The words of memory, those that are not written being 0.
fn filled(words: Vec<u32>, lines: u16) -> Result<Vec<u32>, NoMemory>
    requires { length words.items ≤ 4 * lines }
    ensures { IfOk result (λ all. all.items ≡ image (4 * lines) words.items) }
{
    let mut words = words;
    words.resize(4 * usize::from(lines), 0)?;
    Ok(words)
}

fn read_core_tiles(alloc: Global, cores: &[Part<'_>], count: u8) -> Result<Vec<u8>, DocEnd>
    requires { 0 < count }
    ensures faults { Ends (flat_map (core_range_fault count) (parts_seen cores.now)) result }
    ensures tiles { IfOk result (λ list.
        list.items ≡ map (core_tile count) (parts_seen cores.now)) }
{
    let mut tiles = Vec::new(alloc);
    for core in cores {
        tiles.push(read_core_tile(core, count)?)?;
    }
    Ok(tiles)
}

fn read_core_tile(core: &Part<'_>, count: u8) -> Result<u8, DocFault>
    requires { 0 < count }
    ensures faults { Finds (core_range_fault count (part_seen core.now)) result }
    ensures tile { IfOk result (λ t. t ≡ core_tile count (part_seen core.now)) }
{
    match number_at(Some(core.table), Key::Tile, 0, u32::from(count - 1)) {
        Some(tile) => Ok(tile as u8),
        None => Err(DocFault::Range {
            key: Key::Tile,
            at: core.position(),
        }),
    }
}

// That no tile stands twice among the controllers.
fn check_controllers(controllers: &[u8]) -> Result<(), DocFault>
    ensures { Finds (controllers_twice controllers.now) result }
{
    match first_repeated(controllers) {
        Some(_) => Err(DocFault::Controllers),
        None => Ok(()),
    }
}

// That no tile has two cores.
fn check_core_tiles(tiles: &[u8]) -> Result<(), DocFault>
    ensures { Finds (cores_twice tiles.now) result }
{
    match first_repeated(tiles) {
        Some(tile) => Err(DocFault::CoreTwice { tile }),
        None => Ok(()),
    }
}

// The document of what was said, with these programs.
fn document_of(said: Said, programs: Vec<Program>) -> Result<Document, DocEnd>
    requires window { IsFrom
        (max 1 ((said.extent.cols - 1) + (said.extent.rows - 1))) 64 said.sizes.window }
    requires controllers { ∥ AreTiles (count_of said) said.controllers.items ∥₁ }
    requires words { length said.words.items ≤ 4 * said.sizes.lines }
    requires programs { length programs.items ≡ count_of said }
    requires posts { ∥ ArePosts (count_of said) said.posts ∥₁ }
    ensures document { IfOk result (IsDocumentOf said programs.items) }
    ensures memory { IfErr result (λ end. end ≡ OutOfMemory) }
{
    let Said {
        extent,
        sizes,
        controllers,
        words,
        core_tiles: _,
        posts,
    } = said;
    let memory = filled(words, sizes.lines)?;
    Ok(Document {
        mesh: Mesh {
            cols: extent.cols,
            rows: extent.rows,
            window: sizes.window,
            vcs: sizes.vcs,
            data_vcs: sizes.data_vcs,
            lines: sizes.lines,
            sets: sizes.sets,
            ways: sizes.ways,
            controllers: Items::new(controllers),
        },
        memory: Items::new(memory),
        programs: Items::new(programs),
        posts,
    })
}
