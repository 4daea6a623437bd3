ghost use Rattle.std.specs.Prelude.{◌≡◌, [], map, slice_set, Ok, IfOk, IfErr};
ghost use Rattle.std.specs.List.{flat_map, range_with_len};
ghost use Rattle.mesh_doc.specs.Faults.{bad_program, core_tile, core_program};
ghost use Rattle.mesh_doc.specs.Reading.{program_in, program_of_tile};
ghost use Rattle.mesh_doc.specs.Seen.{part_seen, parts_seen, Ends, IsRefused};

use crate::DocEnd;
use crate::part::{Part, written_value};
use core_isa::{AsmEnd, Program, assemble};
use doc_text::{DocFault, Key};
use mesh_gen::NoMemory;
use std::alloc::Global;

/// The programs of the cores, in their order. The tiles are those of the cores.
pub(crate) fn assemble_cores(
    alloc: Global,
    cores: &[Part<'_>],
    tiles: &[u8],
    count: u8,
) -> Result<Vec<Program>, DocEnd>
    requires { tiles.now ≡ map (core_tile count) (parts_seen cores.now) }
    ensures faults { Ends (flat_map (bad_program count) (parts_seen cores.now)) result }
    ensures programs { IfOk result (λ programs.
        programs.items ≡ map program_in (parts_seen cores.now)) }
{
    let mut programs = Vec::new(alloc);
    for (i, core) in cores.iter().enumerate() {
        programs.push(assemble_core(alloc, core, tiles[i])?)?;
    }
    Ok(programs)
}

fn assemble_core(alloc: Global, core: &Part<'_>, tile: u8) -> Result<Program, DocEnd>
    ensures program { IfOk result (λ program. core_program (part_seen core.now) ≡ Ok program) }
    ensures fault { IfErr result (IsRefused tile (core_program (part_seen core.now))) }
{
    let text = match written_value(core.table, Key::Code) {
        Some(value) => value.as_str().unwrap_or(""),
        None => "",
    };
    match assemble(alloc, text) {
        Ok(program) => Ok(program),
        Err(AsmEnd::Fault(fault)) => Err(DocEnd::Fault(DocFault::Asm { tile, fault })),
        Err(AsmEnd::NoMemory) => Err(DocEnd::NoMemory),
    }
}

/// The program of each tile: that of its core, or the empty one.
pub(crate) fn place_programs(
    alloc: Global,
    programs: Vec<Program>,
    cores: &[Part<'_>],
    tiles: &[u8],
    count: u8,
) -> Result<Vec<Program>, NoMemory>
    requires programs { programs.items ≡ map program_in (parts_seen cores.now) }
    requires tiles { tiles.now ≡ map (core_tile count) (parts_seen cores.now) }
    ensures { IfOk result (λ placed.
        placed.items ≡ map (program_of_tile count (parts_seen cores.now))
        (range_with_len 0 count)) }
{
    let mut placed = empty_programs(alloc, count)?;
    let mut left = programs;
    while let Some(program) = left.pop() {
        put(&mut placed, tiles[left.len()], program);
    }
    Ok(placed)
}

// Puts the program of a tile in its place.
fn put(programs: &mut Vec<Program>, tile: u8, program: Program)
    ensures { programs.new.items ≡ slice_set programs.old.items tile program }
{
    if let Some(place) = programs.get_mut(usize::from(tile)) {
        *place = program;
    }
}

fn empty_programs(alloc: Global, count: u8) -> Result<Vec<Program>, NoMemory>
    ensures { IfOk result (λ programs.
        programs.items ≡ map (program_of_tile count []) (range_with_len 0 count)) }
{
    let mut programs = Vec::new(alloc);
    for _tile in 0..count {
        programs.push(Program::new(Vec::new(alloc)))?;
    }
    Ok(programs)
}
