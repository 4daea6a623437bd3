ghost use Rattle.std.specs.Prelude.{◌≡◌, ◌<◌, ◌≤◌, ◌^◌, None, Some, All, MatchBool, MatchOption, IfOk, IfErr, IfSome, IfNone, length, map, vec_len};
ghost use Rattle.std.specs.List.{range_with_len};
ghost use Rattle.core_isa.specs.Core.{new_core};
ghost use Rattle.flat_ref.specs.Taking.{flat_of, taken_all, StopsAt};
ghost use Rattle.flat_ref.specs.Execution.{cores_at, executed_from, executed_by, start_of, IsFirstBadAccess, IfFirstBad};

use crate::taking::{reach, take};
use crate::{CheckEnd, Flat};
use core_isa::{Core, Program};
use doc_text::Document;
use mesh_gen::Items;
use report_text::Access;
use std::alloc::{AllocError, Global};

/// Takes the accesses from first to last on flat memory, and then lets each core do register instructions up to its
/// number of steps. It does not look at times.
pub fn check(
    alloc: Global,
    document: &Document,
    accesses: &[Access],
    steps: &[u64],
) -> Result<Flat, CheckEnd>
    requires tiles { length steps.now ≡ length document.now.programs }
    requires steps { All (λ n. n < 2 ^ 62) steps.now }
    requires numbers { All (λ a. a.number < 2 ^ 62) accesses.now }
    ensures ok { IfOk result (λ flat. executed_by document.now accesses.now steps.now ≡ Some flat) }
    ensures bad { IfErr result (IfFirstBad
        (IsFirstBadAccess document.now.programs (start_of document.now) accesses.now steps.now)) }
{
    let programs = document.programs.as_slice();
    let mut cores = new_cores(alloc, document.mesh.tiles())?;
    let mut memory = Vec::from_slice(alloc, document.memory.as_slice())?;
    match first_bad(programs, &mut cores, &mut memory, accesses, steps) {
        Some(at) => Err(CheckEnd::FirstBad { at }),
        None => Ok(Flat {
            cores: Items::new(cores),
            memory: Items::new(memory),
        }),
    }
}

fn new_cores(alloc: Global, tiles: u8) -> Result<Vec<Core>, AllocError>
    ensures cores { IfOk result (λ cores. cores.items ≡ map new_core (range_with_len 0 tiles)) }
    ensures len { IfOk result (λ cores. vec_len cores ≡ tiles) }
{
    (0..tiles).map(Core::new).collect(alloc)
}

// Takes the accesses and lets each core do its last register instructions. It answers the position of what is bad.
fn first_bad(
    programs: &[Program],
    cores: &mut [Core],
    memory: &mut [u32],
    accesses: &[Access],
    steps: &[u64],
) -> Option<u64>
    requires programs { length programs.now ≡ length cores.old }
    requires tiles { length steps.now ≡ length cores.old }
    requires steps { All (λ n. n < 2 ^ 62) steps.now }
    requires numbers { All (λ a. a.number < 2 ^ 62) accesses.now }
    requires words { 0 < length memory.old }
    requires limit { length memory.old ≤ 1024 }
    ensures { MatchOption result
        (executed_from programs.now (flat_of cores.old memory.old) accesses.now steps.now
        ≡ Some (flat_of cores.new memory.new))
        (IsFirstBadAccess programs.now (flat_of cores.old memory.old) accesses.now steps.now) }
{
    if let Some(at) = take_all(programs, cores, memory, accesses) {
        return Some(at);
    }
    if !reach_all(programs, cores, steps) {
        return Some(accesses.len() as u64);
    }
    None
}

// Takes the accesses from first to last, up to the first that cannot be taken, and answers the position of that one.
fn take_all(
    programs: &[Program],
    cores: &mut [Core],
    memory: &mut [u32],
    accesses: &[Access],
) -> Option<u64>
    requires numbers { All (λ a. a.number < 2 ^ 62) accesses.now }
    requires words { 0 < length memory.old }
    requires limit { length memory.old ≤ 1024 }
    ensures { MatchOption result
        (taken_all programs.now (flat_of cores.old memory.old) accesses.now
        ≡ Some (flat_of cores.new memory.new))
        (StopsAt programs.now (flat_of cores.old memory.old) accesses.now) }
{
    for (at, access) in accesses.iter().enumerate() {
        if !take(programs, cores, memory, access) {
            return Some(at as u64);
        }
    }
    None
}

// Lets each core do register instructions up to its number of steps, and says whether all get there.
fn reach_all(programs: &[Program], cores: &mut [Core], steps: &[u64]) -> bool
    requires programs { length programs.now ≡ length cores.old }
    requires tiles { length steps.now ≡ length cores.old }
    requires steps { All (λ n. n < 2 ^ 62) steps.now }
    ensures { MatchBool result (cores_at steps.now programs.now cores.old ≡ Some cores.new)
        (cores_at steps.now programs.now cores.old ≡ None) }
{
    for (tile, core) in cores.iter_mut().enumerate() {
        if !reach(&programs[tile], core, steps[tile]) {
            return false;
        }
    }
    true
}
