ghost use Rattle.std.specs.Prelude.{◌≡◌, ◌<◌, ◌≤◌, List, length, find, IfSome};
ghost use Rattle.report_text.specs.Events.{IsWithinLimits};
ghost use Rattle.report_text.specs.Journals.{tile_named};
ghost use Rattle.chip_model.specs.Chip.{chip_of_mesh};
ghost use Rattle.chip_model.specs.Units.{UnitState};
ghost use Rattle.chip_model.specs.Runs.{enabled};
ghost use Rattle.machine_core.specs.Meetings.{AreOfRun};
ghost use Rattle.machine_core.specs.Stations.{IsOfStation, seen_by};
ghost use Rattle.round_laws.specs.Turns.{is_core, tried};
ghost use Rattle.tile_pool.specs.Stands.{MayHaveTurn, Stands, TurnDoes};
ghost use Rattle.tile_pool.specs.Workers.{HasRunAlone};

use crate::start::Start;
use bound_laws::bound_laws;
use chip_laws::event_laws;
use core_unit::Unit;
use fabric_core::Fabric;
use machine_core::{Station, slot_laws, slots_each, tile_slot};
use mesh_gen::Mesh;
use report_text::Event;
use std::marker::{Model, PhantomData};
use turn_table::Turned;

/// The fabric while a round goes on. Contracts see the fabric; the type keeps that the entries made since the round's start are
/// turns that lead from there to it.
#[derive(Drop)]
pub(crate) struct RoundFabric<U: Unit, M: Start> {
    fabric: Box<Fabric>,
    of: PhantomData<(U, M)>,
}

impl<U: Unit, M: Start> Model for RoundFabric<U, M> {
    ghost use Rattle.fabric_core.specs.Fabric.{FabricState};
    ghost use Rattle.tile_pool.specs.Stands.{Stands};

    ghost Value = { FabricState };

    ghost view = { λ shared. shared.fabric.value };

    ghost invariant = { λ shared. Stands U.behaviour M.start shared.fabric.value };
}

impl<U: Unit, M: Start + Send> Turned for RoundFabric<U, M> {
    ghost entries = { λ shared. shared.entries };

    ghost names = { tile_named };

    fn turns(&self) -> u64 {
        self.fabric.turns()
    }
}

impl<U: Unit, M: Start> RoundFabric<U, M> {
    pub(crate) fn new(fabric: Box<Fabric>) -> RoundFabric<U, M>
        requires { Stands U.behaviour M.start fabric.value }
        ensures { result ≡ fabric.value }
    {
        RoundFabric {
            fabric,
            of: PhantomData,
        }
    }

    /// The fabric, once the round is over.
    pub(crate) fn into_fabric(self) -> Box<Fabric>
        ensures is { result.value ≡ self }
        ensures stands { Stands U.behaviour M.start self }
    {
        let RoundFabric { fabric, of: _ } = self;
        fabric
    }

    /// A tile's turn: it does the first possible one of the events that it tries. Tells whether there was one.
    pub(crate) fn take_turn(&mut self, station: &mut Station<U>, mesh: &Mesh, turn: u32) -> bool
        requires mesh { chip_of_mesh mesh.now ≡ M.start.fabric.chip }
        requires turn { turn ≡ M.start.turn }
        requires alone { HasRunAlone U.behaviour M.start station.old }
        requires may { MayHaveTurn M.start station.old.tile self.old }
        ensures { TurnDoes U.behaviour M.start station.old self.old
            station.new self.new result }
    {
        bound_laws();
        event_laws();
        slot_laws();
        let Some(event) = first_possible(&self.fabric, station, mesh, turn) else {
            return false;
        };
        let _done = station.act(&mut self.fabric, event);
        true
    }
}

// The first possible one of the events that a tile tries in its turn.
fn first_possible<U: Unit>(
    fabric: &Fabric,
    station: &Station<U>,
    mesh: &Mesh,
    turn: u32,
) -> Option<Event>
    requires mesh { chip_of_mesh mesh.now ≡ fabric.now.chip }
    requires run { AreOfRun U.behaviour station.now fabric.now }
    ensures first { (units : List UnitState) → station.now.tile < length units
        → result ≡ find (enabled U.behaviour fabric.now.chip
        (seen_by station.now fabric.now units)) (tried fabric.now.chip turn station.now.tile) }
    ensures of_tile { IfSome result (IsOfStation station.now.tile) }
    ensures within { station.now.tile ≤ 63 → IfSome result IsWithinLimits }
{
    slot_laws();
    let each = slots_each(mesh);
    let offset = turn % each;
    for k in 0..each {
        let event = tile_slot(mesh, station.tile(), (offset + k) % each);
        if !is_core(event) && station.can_act(fabric, event) {
            return Some(event);
        }
    }
    if station.can_act(fabric, Event::Tick) {
        Some(Event::Tick)
    } else {
        None
    }
}

// Whether an event is one of a core.
fn is_core(event: Event) -> bool
    ensures { result ≡ is_core event }
{
    matches!(event, Event::Core { .. })
}
