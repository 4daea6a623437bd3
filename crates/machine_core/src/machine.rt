ghost use Rattle.std.specs.Prelude.{◌≡◌, ◌⊎◌, ◌↔◌, ◌+◌, ◌-◌, ◌*◌, ◌<◌, ◌≤◌, Bool, true, false, Some, None, IfOk, OnOk, OnErr, length, find, slice_get, Contains};
ghost use Rattle.report_text.specs.declared.event.Event.{Event};
ghost use Rattle.mesh_gen.specs.Limits.{IsFrom};
ghost use Rattle.doc_text.specs.Doc.{doc_of};
ghost use Rattle.chip_model.specs.Chip.{chip_of, tile_count};
ghost use Rattle.chip_model.specs.ChipState.{opening, finished};
ghost use Rattle.chip_model.specs.Runs.{after, enabled, IsReachable};
ghost use Rattle.chip_model.specs.Schedules.{slots, slot_count};
ghost use Rattle.chip_model.specs.BehaviourLaws.{KeepsLaws};
ghost use Rattle.supply_laws.specs.Reachable.{StateHolds};
ghost use Rattle.progress_laws.specs.Possible.{SomeIsEnabled};
ghost use Rattle.machine_core.specs.Machine.{machine_of, AreParts, report_as_performed};
ghost use Rattle.machine_core.specs.Meetings.{DocIsWithin};

use crate::events::{new_stations, tile_of};
use crate::slots::{slot_event, slot_total};
use crate::{Parts, Rest, Station, Stations};
use core_unit::Unit;
use doc_text::Document;
use fabric_core::Fabric;
use mesh_gen::{Items, NoMemory, NotEnabled};
use report_text::{Event, Report};
use std::alloc::Global;
use std::marker::Model;

/// The most events of a budget.
pub const MOST_EVENTS: u32 = 4_000_000;

/// How many events more than its budget a machine has room for, for each tile.
pub const SPARE_EVENTS: u64 = 17;

/// A chip that runs a document. Contracts see the document, the state of the chip, and how many events its journal has room
/// for. The state is always that to which the journal leads from the opening.
///
/// All memory of a run is taken by [`Machine::open`]. For each event of the budget, and for 17 more a tile, that is 8 bytes
/// for an entry of the journal, 32 for an access, 12 for an ordered request and 8 for a closed window; beside it stand the
/// tiles, with at most some thousand lines and instructions each. So the greatest budget on the largest mesh takes less
/// than 300 MB.
#[derive(Drop)]
pub struct Machine<U: Unit> {
    pub(crate) fabric: Box<Fabric>,
    pub(crate) stations: Vec<Station<U>>,
    pub(crate) rest: Rest,
}

impl<U: Unit> Model for Machine<U> {
    ghost use Rattle.machine_core.specs.Machine.{MachineState, machine_of, AreParts};

    ghost Value = { MachineState };

    ghost view = { λ machine.
        machine_of machine.rest machine.fabric.value machine.stations.items };

    ghost invariant = { λ machine.
        AreParts U.behaviour machine.rest machine.fabric.value machine.stations.items };
}

impl<U: Unit> Machine<U> {
    /// A chip before any event, with room for the events of a budget and some more. No other call takes memory.
    pub fn open(alloc: Global, document: Document, budget: u32) -> Result<Machine<U>, NoMemory>
        requires { IsFrom 1 4000000 budget }
        ensures document { IfOk result (λ machine. machine.document ≡ doc_of document) }
        ensures state { IfOk result (λ machine. machine.state ≡ opening (doc_of document)) }
        ensures room { IfOk result (λ machine.
            machine.room ≡ budget + 17 * tile_count (chip_of (doc_of document))) }
    {
        let tiles = u64::from(document.mesh.tiles());
        let room = u64::from(budget) + SPARE_EVENTS * tiles;
        let fabric = Fabric::open(alloc, &document.mesh, room)?;
        let stations = new_stations(alloc, &document)?;
        let rest = Rest::open(alloc, document)?;
        Ok(Machine {
            fabric,
            stations,
            rest,
        })
    }

    /// What is true of a machine at any moment: its document is within the limits, and its state is the one to which the
    /// journal leads from the opening. At run time it does nothing.
    pub fn stands(&self)
        ensures within { DocIsWithin self.now.document }
        ensures reached { IsReachable U.behaviour self.now.document self.now.state }
    {
        let _ = &self.fabric;
    }

    /// That a machine is never stuck. At run time it does nothing.
    pub fn progresses(&self)
        // It is finished, or some event is possible.
        ensures moves { (finished self.now.state ≡ true)
            ⊎ SomeIsEnabled U.behaviour (chip_of self.now.document) self.now.state }
        // Once it is finished none is.
        ensures stops { finished self.now.state ≡ true → (event : Event)
            → enabled U.behaviour (chip_of self.now.document) self.now.state event ≡ false }
        // An event that is possible is one of the slots, of which there are so many.
        ensures slots { (event : Event)
            → enabled U.behaviour (chip_of self.now.document) self.now.state event ≡ true
            → Contains (slots (chip_of self.now.document)) event }
        ensures count { length (slots (chip_of self.now.document))
            ≡ slot_count (chip_of self.now.document) }
    {
        self.laws();
        core_unit::kind_laws::<U>();
        progress_laws::chip_progress_laws();
    }

    // What holds of the state as of each that a run comes to. At run time it does nothing.
    pub(crate) fn laws(&self)
        ensures within { DocIsWithin self.now.document }
        ensures holds { (laws : KeepsLaws U.behaviour)
            → StateHolds U.behaviour laws self.now.document self.now.state }
    {
        self.stands();
        supply_laws::reachable_laws();
    }

    /// How many events there are.
    pub fn length(&self) -> u64
        ensures length { result ≡ length self.now.state.journal }
        ensures within { result ≤ self.now.room }
    {
        self.fabric.length()
    }

    /// How many more events there is room for.
    pub fn spare(&self) -> u64
        ensures { result ≡ self.now.room - length self.now.state.journal }
    {
        self.fabric.spare()
    }

    /// How many slots there are: every event that can ever be possible has one.
    pub fn slots(&self) -> u32
        ensures { result ≡ slot_count (chip_of self.now.document) }
    {
        slot_total(&self.rest.document.mesh)
    }

    /// The event of a slot, by the slot's number.
    pub fn slot(&self, k: u32) -> Event
        requires { k < slot_count (chip_of self.now.document) }
        ensures { slice_get (slots (chip_of self.now.document)) k ≡ Some result }
    {
        slot_event(&self.rest.document.mesh, k)
    }

    /// Whether an event is possible.
    pub fn enabled(&self, e: Event) -> bool
        ensures { result ≡ enabled U.behaviour (chip_of self.now.document) self.now.state e }
    {
        self.laws();
        core_unit::kind_laws::<U>();
        progress_laws::chip_progress_laws();
        let at = usize::from(tile_of(e));
        if at >= self.stations.len() {
            return false;
        }
        self.stations[at].can_act(&self.fabric, e)
    }

    /// An event is done and noted. Refused exactly where it is not possible, which includes what is no tile and no channel.
    pub fn step(&mut self, e: Event) -> Result<(), NotEnabled>
        requires { length self.old.state.journal < self.old.room }
        ensures ok { OnOk result (after U.behaviour (chip_of self.old.document) self.old.state e
            ≡ Some self.new.state) }
        ensures err { OnErr result (after U.behaviour (chip_of self.old.document) self.old.state e
            ≡ None) }
        ensures kept { OnErr result (self.new ≡ self.old) }
        ensures document { self.new.document ≡ self.old.document }
        ensures room { self.new.room ≡ self.old.room }
    {
        self.laws();
        core_unit::kind_laws::<U>();
        progress_laws::chip_progress_laws();
        let at = usize::from(tile_of(e));
        if at >= self.stations.len() {
            return Err(NotEnabled);
        }
        self.stations[at].perform(&mut self.fabric, e)
    }

    /// The possible event of the lowest slot. There is none exactly where the machine is finished.
    pub fn first_enabled(&self) -> Option<Event>
        ensures first { result ≡ find (enabled U.behaviour
            (chip_of self.now.document) self.now.state)
            (slots (chip_of self.now.document)) }
        ensures none { (result ≡ None) ↔ (finished self.now.state ≡ true) }
    {
        self.progresses();
        for k in 0..self.slots() {
            let e = self.slot(k);
            if self.enabled(e) {
                return Some(e);
            }
        }
        None
    }

    /// The fabric, the stations and the rest.
    pub fn into_parts(self) -> Parts<U>
        ensures same { machine_of result.rest result.fabric.value result.stations ≡ self }
        ensures parts { AreParts U.behaviour result.rest result.fabric.value result.stations }
    {
        let Machine {
            fabric,
            stations,
            rest,
        } = self;
        Parts {
            fabric,
            stations: Items::new(stations),
            rest,
        }
    }

    /// A machine of parts that are those of a state to which the journal leads from the opening.
    pub fn from_parts(parts: Parts<U>) -> Machine<U>
        requires { AreParts U.behaviour parts.rest parts.fabric.value parts.stations }
        ensures { result ≡ machine_of parts.rest parts.fabric.value parts.stations }
    {
        let Parts {
            fabric,
            stations,
            rest,
        } = parts;
        Machine {
            fabric,
            stations: stations.into_vec(),
            rest,
        }
    }
}
