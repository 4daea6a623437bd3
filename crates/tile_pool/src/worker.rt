ghost use Rattle.std.specs.Prelude.{◌≡◌, ◌+◌, ◌^◌, ◌<◌, true, false};
ghost use Rattle.chip_model.specs.Chip.{chip_of_mesh};
ghost use Rattle.machine_core.specs.Stations.{IsSettled};
ghost use Rattle.tile_pool.specs.Stands.{MayHaveTurn, TurnDoes};
ghost use Rattle.tile_pool.specs.Workers.{HasRunAlone, HasRunFrom, IsStarting, IsThrough, IsWaiting, WasRefused};

use crate::Gate;
use crate::round_fabric::RoundFabric;
use crate::start::Start;
use core_unit::{Unit, count_laws};
use machine_core::{MOST_PRIVATE, Station};
use mesh_gen::Mesh;
use turn_table::{TurnSeat, Turns};

/// How often a tile tries to have the turn of a round, where it is answered that another one has it.
const TRIES: u32 = 64;

/// A tile's station, and its seat of a round.
#[derive(Drop)]
pub(crate) struct Worker<U: Unit> {
    pub(crate) station: Station<U>,
    pub(crate) seat: TurnSeat,
    /// Whether it had the turn.
    pub(crate) had: bool,
}

impl<U: Unit> Worker<U> {
    /// What a tile does in a round: its core's events, and then tries to have the turn, until it had it.
    pub(crate) fn work<M: Start + Send, G: Gate>(
        &mut self,
        turns: &Turns<RoundFabric<U, M>>,
        gate: &G,
        mesh: &Mesh,
        turn: u32,
    )
        requires mesh { chip_of_mesh mesh.now ≡ M.start.fabric.chip }
        requires turn { turn ≡ M.start.turn }
        requires starts { IsStarting M.start turns.now.table
            self.old.station self.old.seat self.old.had }
        ensures through { IsThrough U.behaviour M.start turns.now.table
            self.new.station self.new.seat self.new.had }
        ensures tile { self.new.station.tile ≡ self.old.station.tile }
    {
        run_alone(&mut self.station);
        gate.pass(self.station.tile(), turn);
        for _ in 0..TRIES {
            if self.try_turn(turns, mesh, turn) {
                return;
            }
        }
    }

    // One try. Tells whether it had the turn.
    fn try_turn<M: Start + Send>(
        &mut self,
        turns: &Turns<RoundFabric<U, M>>,
        mesh: &Mesh,
        turn: u32,
    ) -> bool
        requires mesh { chip_of_mesh mesh.now ≡ M.start.fabric.chip }
        requires turn { turn ≡ M.start.turn }
        requires waits { IsWaiting U.behaviour M.start turns.now.table self.old.station self.old.seat }
        requires had { self.old.had ≡ false }
        ensures tile { self.new.station.tile ≡ self.old.station.tile }
        ensures had { result ≡ true → IsThrough U.behaviour M.start turns.now.table
            self.new.station self.new.seat self.new.had }
        ensures not_had { result ≡ false → self.new.had ≡ false }
        ensures waits { result ≡ false → IsWaiting U.behaviour M.start turns.now.table
            self.new.station self.new.seat }
        ensures refused { result ≡ false
            → WasRefused U.behaviour M.start self.new.station self.new.seat.note }
    {
        let station = &mut self.station;
        let mut take = |shared: &mut RoundFabric<U, M>| -> bool
            requires mesh { chip_of_mesh mesh.now ≡ M.start.fabric.chip }
            requires turn { turn ≡ M.start.turn }
            requires alone { HasRunAlone U.behaviour M.start station.now }
            requires may { MayHaveTurn M.start station.now.tile shared.old }
            ensures { TurnDoes U.behaviour M.start station.entry.now shared.old
                station.exit.now shared.new result }
        { shared.take_turn(station, mesh, turn) };
        match turns.try_turn(&mut self.seat, &mut take) {
            Ok(_) => {
                self.had = true;
                true
            }
            Err(_) => false,
        }
    }
}

// The core events that a tile does by itself in a round.
fn run_alone<U: Unit>(station: &mut Station<U>)
    requires settled { IsSettled station.old }
    requires steps { station.old.unit.core.steps + 16 < 2 ^ 63 }
    ensures { HasRunFrom U.behaviour station.old station.new }
{
    count_laws::<U>();
    for _ in 0..MOST_PRIVATE {
        if station.private().is_err() {
            return;
        }
    }
}
