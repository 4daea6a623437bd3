ghost use Rattle.std.specs.Prelude.{◌≡◌, ◌≤◌, [], All, length, vec_capacity};
ghost use Rattle.turn_table.specs.States.{IsNew};
ghost use Rattle.tile_pool.specs.Seating.{AreStationsOf, AreThrough, TilesFall};
ghost use Rattle.tile_pool.specs.Start.{IsStart};
ghost use Rattle.tile_pool.specs.Workers.{IsStarting, IsThrough};

use crate::round_fabric::RoundFabric;
use crate::start::Start;
use crate::worker::Worker;
use core_unit::Unit;
use machine_core::Station;
use mesh_gen::with_tile;
use turn_table::{TurnSeat, Turns};

/// A worker for each tile, the last tile first, from the stations and the seats in the order of their tiles. Both lists keep
/// their room.
pub(crate) fn seat_all<U: Unit, M: Start + Send>(
    turns: &Turns<RoundFabric<U, M>>,
    stations: &mut Vec<Station<U>>,
    seats: &mut Vec<TurnSeat>,
    mut workers: Vec<Worker<U>>,
) -> Vec<Worker<U>>
    requires stations { AreStationsOf M.start stations.old.items }
    requires start { IsStart U.behaviour M.start }
    requires seats { IsNew M.start.fabric.entries (length M.start.units) turns.now seats.old.items }
    requires none { workers.items ≡ [] }
    requires room { length M.start.units ≤ vec_capacity workers }
    ensures count { length result.items ≡ length M.start.units }
    ensures starting { All (λ worker. IsStarting M.start turns.now.table
        worker.station worker.seat worker.had) result.items }
    ensures tiles { TilesFall (λ worker. worker.station.tile)
        (length M.start.units) result.items }
    ensures emptied { (stations.new.items ≡ []) × (seats.new.items ≡ []) }
    ensures stations_room { vec_capacity stations.new ≡ vec_capacity stations.old }
    ensures seats_room { vec_capacity seats.new ≡ vec_capacity seats.old }
{
    while let Some(station) = stations.pop() {
        let Some(seat) = seats.pop() else {
            unreachable!()
        };
        workers.push_reserved(Worker {
            station,
            seat,
            had: false,
        });
    }
    workers
}

/// The stations and the seats, in the order of their tiles again, and the set of the tiles that had the turn.
pub(crate) fn unseat_all<U: Unit, M: Start + Send>(
    turns: &Turns<RoundFabric<U, M>>,
    mut workers: Vec<Worker<U>>,
    stations: &mut Vec<Station<U>>,
    seats: &mut Vec<TurnSeat>,
) -> u64
    requires through { All (λ worker. IsThrough U.behaviour M.start turns.now.table
        worker.station worker.seat worker.had) workers.items }
    requires tiles { TilesFall (λ worker. worker.station.tile)
        (length workers.items) workers.items }
    requires few { length workers.items ≤ 64 }
    requires none { (stations.old.items ≡ []) × (seats.old.items ≡ []) }
    requires stations_room { length workers.items ≤ vec_capacity stations.old }
    requires seats_room { length workers.items ≤ vec_capacity seats.old }
    ensures { AreThrough U.behaviour M.start turns.now.table (length workers.items)
        result stations.new.items seats.new.items }
{
    let mut had = 0;
    while let Some(worker) = workers.pop() {
        let Worker {
            station,
            seat,
            had: has,
        } = worker;
        if has {
            had = with_tile(had, station.tile());
        }
        stations.push_reserved(station);
        seats.push_reserved(seat);
    }
    had
}
