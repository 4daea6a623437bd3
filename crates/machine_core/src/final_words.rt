ghost use Rattle.std.specs.Prelude.{◌≡◌, ◌+◌, ◌*◌, ◌<◌, ◌≤◌, [], ◌∷◌, ◌++◌, Some, unwrap_or, length, slice_get, if◌then◌else◌, true, flat_map, vec_capacity};
ghost use Rattle.order_tracker.specs.Order.{upwards};
ghost use Rattle.chip_model.specs.Chip.{chip_of_mesh};
ghost use Rattle.chip_model.specs.ChipState.{ChipState};
ghost use Rattle.chip_model.specs.Cache.{Held, lookup};
ghost use Rattle.chip_model.specs.Units.{UnitState};
ghost use Rattle.chip_model.specs.Reports.{final_words};
ghost use Rattle.machine_core.specs.Stations.{units_of};
ghost use Rattle.machine_core.specs.FinalWords.{EachOwnerKeeps, OwnerKeeps};

use crate::Station;
use core_unit::Unit;
use mesh_gen::{Mesh, Words};
use snoop_core::Owner;

/// The words of all lines at the end, in the place of those before the first event: none where the chip is not finished.
pub(crate) fn final_memory<U: Unit>(
    stations: &[Station<U>],
    mesh: &Mesh,
    mut memory: Vec<u32>,
    is_finished: bool,
) -> Vec<u32>
    requires { 4 * mesh.now.lines ≤ vec_capacity memory }
    ensures { (s : ChipState) → s.units ≡ units_of stations.now
        → (is_finished ≡ true → EachOwnerKeeps (chip_of_mesh mesh.now) s)
        → result.items ≡ (if is_finished then flat_map (final_words (chip_of_mesh mesh.now) s)
        (upwards 0 mesh.now.lines) else []) }
{
    memory.clear();
    if is_finished {
        for line in 0..mesh.lines {
            push_words(&mut memory, line_words(stations, mesh, line));
        }
    }
    memory
}

// Four words more, for which there is room.
fn push_words(memory: &mut Vec<u32>, words: Option<Words>)
    requires { length memory.old.items + 4 ≤ vec_capacity memory.old }
    ensures words { memory.new.items ≡ memory.old.items ++ unwrap_or words (0 ∷ 0 ∷ 0 ∷ 0 ∷ []) }
    ensures count { length memory.new.items ≡ length memory.old.items + 4 }
    ensures room { vec_capacity memory.new ≡ vec_capacity memory.old }
{
    let four = words.unwrap_or([0; 4]);
    for word in four {
        memory.push_reserved(word);
    }
}

// The words of a line where its owner keeps them.
fn line_words<U: Unit>(stations: &[Station<U>], mesh: &Mesh, line: u16) -> Option<Words>
    requires { line < mesh.now.lines }
    ensures { (s : ChipState) → s.units ≡ units_of stations.now
        → OwnerKeeps (chip_of_mesh mesh.now) s line
        → result ≡ Some (final_words (chip_of_mesh mesh.now) s line) }
{
    let home = stations.get(usize::from(mesh.home(line)))?;
    let (owner, words, _) = home.unit.node().home_record(line)?;
    match owner {
        Owner::Memory => Some(words),
        Owner::Tile(t) => cached_words(stations, t, line),
    }
}

// The words of a line in the cache of a tile.
fn cached_words<U: Unit>(stations: &[Station<U>], t: u8, line: u16) -> Option<Words>
    ensures { (unit : UnitState) (held : Held) → slice_get (units_of stations.now) t ≡ Some unit
        → lookup unit.node.chip unit.node.side.cache line ≡ Some held
        → result ≡ Some held.words }
{
    let station = stations.get(usize::from(t))?;
    let (_, words) = station.unit.node().line(line)?;
    Some(words)
}
