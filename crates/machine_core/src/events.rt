ghost use Rattle.std.specs.Prelude.{◌≡◌, IfOk, map};
ghost use Rattle.order_tracker.specs.Order.{upwards};
ghost use Rattle.doc_text.specs.Doc.{doc_of};
ghost use Rattle.chip_model.specs.Chip.{chip_of, tile_count};
ghost use Rattle.machine_core.specs.Stations.{opening_station, tile_of};

use crate::Station;
use core_unit::Unit;
use doc_text::Document;
use mesh_gen::NoMemory;
use report_text::Event;
use std::alloc::Global;

/// The tile whose station does an event: the first one does ticks.
pub(crate) fn tile_of(e: Event) -> u8
    ensures { result ≡ tile_of e }
{
    match e {
        Event::Tick => 0,
        Event::Core { t }
        | Event::Inject { t }
        | Event::Post { t }
        | Event::Take { t }
        | Event::Eject { t }
        | Event::Send { t } => t,
        Event::Hop { r, .. } | Event::DataHop { r, .. } | Event::DataEject { r, .. } => r,
    }
}

/// A new station for each tile of a document.
pub(crate) fn new_stations<U: Unit>(
    alloc: Global,
    document: &Document,
) -> Result<Vec<Station<U>>, NoMemory>
    ensures { IfOk result (λ stations. stations.items
        ≡ map (opening_station (doc_of document.now))
        (upwards 0 (tile_count (chip_of (doc_of document.now))))) }
{
    let mesh = &document.mesh;
    let programs = document.programs.as_slice();
    let memory = document.memory.as_slice();
    let mut stations = Vec::with_capacity(alloc, usize::from(mesh.tiles()))?;
    for t in 0..mesh.tiles() {
        let program = programs[usize::from(t)].copy(alloc)?;
        stations.push_reserved(Station::open(alloc, mesh, t, program, memory)?);
    }
    Ok(stations)
}
