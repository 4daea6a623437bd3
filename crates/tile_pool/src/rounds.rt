ghost use Rattle.std.specs.Prelude.{◌≡◌, ◌+◌, ◌*◌, ◌<◌, ◌≤◌, All, length};
ghost use Rattle.chip_model.specs.Chip.{chip_of, chip_of_mesh, tile_count};
ghost use Rattle.machine_core.specs.Machine.{AreParts, machine_of};
ghost use Rattle.tile_pool.specs.Rounded.{RoundDoes};
ghost use Rattle.tile_pool.specs.Seating.{IsToSettle, SettlesAll, TilesFall};
ghost use Rattle.tile_pool.specs.Start.{IsStart, start_of};
ghost use Rattle.tile_pool.specs.Workers.{IsStarting, IsThrough};

use crate::Gate;
use crate::round_fabric::RoundFabric;
use crate::seating::{seat_all, unseat_all};
use crate::start::Start;
use crate::worker::Worker;
use bound_laws::bound_laws;
use chip_laws::event_laws;
use core_unit::{Unit, kind_laws};
use fabric_core::Fabric;
use machine_core::{Machine, Parts, Rest, Station, counting_laws, slot_laws};
use mesh_gen::{Items, Mesh};
use std::alloc::Global;
use std::marker::Brand;
use std::thread;
use std::thread::Threads;
use supply_laws::reachable_laws;
use turn_table::Turns;

/// What came of a round.
#[derive(Clone, Copy, Debug, PartialEq, Eq)]
pub enum Rounded {
    /// It was made. These tiles had the turn: bit t for tile t.
    Made { had: u64 },
    /// There was no memory for its table, and so there was no round.
    NoMemory,
}

/// A round, of this number, with a thread for each tile. There has to be room for 17 more events of each tile. Without memory
/// for the table that the threads share, the machine comes back as it was.
pub fn round<R: Threads + Sync, U: Unit, G: Gate>(
    rt: &R,
    alloc: Global,
    machine: Machine<U>,
    gate: &G,
    turn: u32,
) -> (Machine<U>, Rounded)
    requires { length machine.state.journal + 17 * tile_count (chip_of machine.document) ≤ machine.room }
    ensures does { RoundDoes U.behaviour turn machine result.0 result.1 }
    ensures document { result.0.document ≡ machine.document }
    ensures room { result.0.room ≡ machine.room }
{
    machine.stands();
    machine.length();
    counting_laws::<U>();
    kind_laws::<U>();
    reachable_laws();
    let parts = machine.into_parts();
    made_round::<Brand, R, U, G>(rt, alloc, parts, gate, turn)
}

// The round of these parts of a machine, which the type of the start names.
fn made_round<M: Start + Send + Sync, R: Threads + Sync, U: Unit, G: Gate>(
    rt: &R,
    alloc: Global,
    parts: Parts<U>,
    gate: &G,
    turn: u32,
) -> (Machine<U>, Rounded)
    requires named { M.start ≡ start_of parts.rest parts.fabric.value parts.stations turn }
    requires start { IsStart U.behaviour M.start }
    requires parts { AreParts U.behaviour parts.rest parts.fabric.value parts.stations }
    ensures does { RoundDoes U.behaviour turn
        (machine_of parts.rest parts.fabric.value parts.stations) result.0 result.1 }
    ensures document { result.0.document ≡ parts.rest }
    ensures room { result.0.room ≡ parts.fabric.value.room }
{
    bound_laws();
    event_laws();
    slot_laws();
    let Parts {
        fabric,
        stations,
        rest,
    } = parts;
    let mut stations = stations.into_vec();
    let tiles = stations.len();
    let Ok(workers) = Vec::with_capacity(alloc, tiles) else {
        return (put_together(fabric, stations, rest), Rounded::NoMemory);
    };
    match Turns::new(alloc, RoundFabric::<U, M>::new(fabric), tiles as u8) {
        Ok((turns, mut seats)) => {
            let mut workers = seat_all(&turns, &mut stations, &mut seats, workers);
            work_all(rt, &turns, gate, rest.mesh(), turn, workers.as_mut_slice());
            let had = unseat_all(&turns, workers, &mut stations, &mut seats);
            let mut fabric = turns.meet(seats).into_fabric();
            settle_all::<U, M>(stations.as_mut_slice(), &mut fabric);
            (put_together(fabric, stations, rest), Rounded::Made { had })
        }
        Err((shared, _)) => (
            put_together(shared.into_fabric(), stations, rest),
            Rounded::NoMemory,
        ),
    }
}

// A machine of its parts.
fn put_together<U: Unit>(fabric: Box<Fabric>, stations: Vec<Station<U>>, rest: Rest) -> Machine<U>
    requires { AreParts U.behaviour rest fabric.value stations.items }
    ensures { result ≡ machine_of rest fabric.value stations.items }
{
    Machine::from_parts(Parts {
        fabric,
        stations: Items::new(stations),
        rest,
    })
}

// The work of all tiles in a round, with a thread for each.
fn work_all<R: Threads + Sync, U: Unit, M: Start + Send + Sync, G: Gate>(
    rt: &R,
    turns: &Turns<RoundFabric<U, M>>,
    gate: &G,
    mesh: &Mesh,
    turn: u32,
    workers: &mut [Worker<U>],
)
    requires mesh { chip_of_mesh mesh.now ≡ M.start.fabric.chip }
    requires turn { turn ≡ M.start.turn }
    requires some { 0 < length workers.old }
    requires starting { All (λ worker. IsStarting M.start turns.now.table
        worker.station worker.seat worker.had) workers.old }
    requires tiles { TilesFall (λ worker. worker.station.tile)
        (length workers.old) workers.old }
    ensures count { length workers.new ≡ length workers.old }
    ensures through { All (λ worker. IsThrough U.behaviour M.start turns.now.table
        worker.station worker.seat worker.had) workers.new }
    ensures tiles { TilesFall (λ worker. worker.station.tile)
        (length workers.new) workers.new }
{
    let count = workers.len();
    thread::for_each_mut(
        rt,
        workers,
        count,
        &|_, worker: &mut Worker<U>|
            requires mesh { chip_of_mesh mesh.now ≡ M.start.fabric.chip }
            requires turn { turn ≡ M.start.turn }
            requires starting { IsStarting M.start turns.now.table
                worker.old.station worker.old.seat worker.old.had }
            ensures through { IsThrough U.behaviour M.start turns.entry.now.table
                worker.new.station worker.new.seat worker.new.had }
            ensures tile { worker.new.station.tile ≡ worker.old.station.tile }
        { worker.work(turns, gate, mesh, turn) },
    );
}

// The core events that are left over go into the journal, in the order of the tiles.
fn settle_all<U: Unit, M: Start>(stations: &mut [Station<U>], fabric: &mut Fabric)
    requires start { IsStart U.behaviour M.start }
    requires to_settle { IsToSettle U.behaviour M.start fabric.old stations.old }
    ensures { SettlesAll U.behaviour M.start fabric.old stations.old fabric.new stations.new }
{
    bound_laws();
    counting_laws::<U>();
    for t in 0..stations.len() {
        fabric.length();
        stations[t].settle(fabric);
    }
}
