ghost use Rattle.std.specs.Prelude.{◌≡◌, ℕ, ◌+◌, ◌*◌, ◌^◌, ◌<◌, ◌≤◌, [], ◌++◌, List, length, true, false, IfOk, OnOk, OnErr};
ghost use Rattle.report_text.specs.declared.event.Event.TheVariants.{Core};
ghost use Rattle.mesh_gen.specs.Limits.{most_tiles};
ghost use Rattle.chip_model.specs.Chip.{Chip, chip_of_mesh, tile_count};
ghost use Rattle.chip_model.specs.Units.{UnitState, opening_unit};
ghost use Rattle.chip_model.specs.Events.{with_access};
ghost use Rattle.fabric_core.specs.Fabric.{FabricState, event_count};
ghost use Rattle.machine_core.specs.Stations.{StationState, IsAtStation, IsRefused, IsSettled, StaysInPlace, TakesChip, after_private, is_quiet, seen_by, settled};
ghost use Rattle.machine_core.specs.Meetings.{AreOfRun};

use core_isa::Program;
use core_unit::Unit;
use fabric_core::{Fabric, Made};
use mesh_gen::{Mesh, NoMemory, NotEnabled};
use report_text::{Access, Event};
use std::alloc::Global;
use std::marker::Model;

/// How many core events a station does by itself before they have to go into the journal.
pub const MOST_PRIVATE: u8 = 16;

/// What a tile has for itself: its unit, and the core events that it did and that are not in the journal yet.
#[derive(Drop)]
pub struct Station<U: Unit> {
    pub(crate) tile: u8,
    pub(crate) unit: U,
    pub(crate) cores: u8,
    // Its room is reserved.
    pub(crate) accesses: Vec<Access>,
}

impl<U: Unit> Model for Station<U> {
    ghost use Rattle.std.specs.Prelude.{◌≤◌, length};
    ghost use Rattle.std.specs.Vec.{vec_capacity};
    ghost use Rattle.machine_core.specs.Stations.{StationState};

    ghost Value = { StationState };

    ghost view = { λ station. record {
      tile = station.tile;
      unit = U.meaning station.unit;
      cores = station.cores;
      accesses = station.accesses.items;
    } };

    ghost invariant = { λ station. (station.cores ≤ 16)
        × (length station.accesses.items ≤ station.cores)
        × (16 ≤ vec_capacity station.accesses) };
}

impl<U: Unit> Station<U> {
    /// The station of a tile before any event. No other call takes memory.
    pub fn open(
        alloc: Global,
        mesh: &Mesh,
        tile: u8,
        program: Program,
        memory: &[u32],
    ) -> Result<Station<U>, NoMemory>
        requires tile { tile < tile_count (chip_of_mesh mesh.now) }
        requires memory { length memory.now ≡ 4 * mesh.now.lines }
        ensures { IfOk result (λ station. station ≡ record {
          tile = tile;
          unit = opening_unit (chip_of_mesh mesh.now) tile program memory.now;
          cores = 0;
          accesses = [];
        }) }
    {
        Ok(Station {
            tile,
            unit: U::open(alloc, mesh, tile, program, memory)?,
            cores: 0,
            accesses: Vec::with_capacity(alloc, usize::from(MOST_PRIVATE))?,
        })
    }

    /// Its tile.
    pub fn tile(&self) -> u8
        ensures { result ≡ self.now.tile }
    {
        self.tile
    }

    /// How many core events it did that are not in the journal yet.
    pub fn counted(&self) -> u8
        ensures counted { result ≡ self.now.cores }
        ensures within { result ≤ 16 }
        ensures accesses { length self.now.accesses ≤ result }
    {
        self.cores
    }

    /// Whether a core event is possible.
    pub fn ready(&self) -> bool
        ensures { result ≡ U.behaviour.ready self.now.unit }
    {
        self.unit.core_ready()
    }

    /// Whether the core has halted, waits for nothing, and no message is to be sent.
    pub(crate) fn quiet(&self) -> bool
        ensures { result ≡ is_quiet self.now.unit }
    {
        self.unit.halted() && self.unit.node().idle()
    }

    /// A core event that is counted and not in the journal yet. Refused exactly where the core is not ready.
    pub fn private(&mut self) -> Result<(), NotEnabled>
        requires few { self.old.cores < 16 }
        requires steps { self.old.unit.core.steps + 1 < 2 ^ 63 }
        ensures ok { OnOk result (self.new ≡ after_private U.behaviour self.old) }
        // The chip does this core event, whatever its other units are.
        ensures core { OnOk result ((chip : Chip) (fabric : FabricState)
            → TakesChip U.behaviour chip (Core self.old.tile) self.old fabric self.new fabric) }
        ensures ready { OnOk result (U.behaviour.ready self.old.unit ≡ true) }
        ensures err { OnErr result (U.behaviour.ready self.old.unit ≡ false) }
        ensures kept { OnErr result (self.new ≡ self.old) }
    {
        let access = self.unit.core_step()?;
        self.count(access);
        Ok(())
    }

    // A core event is counted, and its access kept.
    fn count(&mut self, access: Option<Access>)
        requires { self.old.cores < 16 }
        ensures { self.new ≡ record self.old {
          cores = self.old.cores + 1;
          accesses = with_access access self.old.accesses;
        } }
    {
        if let Some(access) = access {
            self.accesses.push_reserved(access);
        }
        self.cores += 1;
    }

    /// The core events that are counted go into the journal, one entry each, and their accesses to the fabric.
    pub fn settle(&mut self, fabric: &mut Fabric)
        requires tile { self.old.tile < tile_count fabric.old.chip }
        requires few { tile_count fabric.old.chip ≤ most_tiles }
        requires room { event_count fabric.old + self.old.cores ≤ fabric.old.room }
        requires accesses { length fabric.old.accesses + length self.old.accesses
            ≤ fabric.old.room }
        ensures station { self.new ≡ settled self.old }
        // The chip that is seen stays the same.
        ensures seen { (units : List UnitState)
            → seen_by self.new fabric.new units ≡ seen_by self.old fabric.old units }
        ensures chip { fabric.new.chip ≡ fabric.old.chip }
        ensures same_room { fabric.new.room ≡ fabric.old.room }
        ensures count { event_count fabric.new ≡ event_count fabric.old + self.old.cores }
    {
        for _ in 0..self.cores {
            fabric.note_core(self.tile);
        }
        self.hand_over(fabric);
        self.cores = 0;
    }

    // The accesses go to the fabric.
    pub(crate) fn hand_over(&mut self, fabric: &mut Fabric)
        requires accesses { length fabric.old.accesses + length self.old.accesses
            ≤ fabric.old.room }
        ensures station { self.new ≡ record self.old { accesses = [] } }
        ensures fabric { fabric.new ≡ record fabric.old {
          accesses = fabric.old.accesses ++
              self.old.accesses;
        } }
    {
        for access in self.accesses.iter() {
            fabric.note_access(*access);
        }
        self.accesses.clear();
    }

    /// An event of the station's tile, with nothing counted before. Refused exactly where it is not possible.
    pub(crate) fn perform(&mut self, fabric: &mut Fabric, event: Event) -> Result<(), NotEnabled>
        requires event { IsAtStation self.old.tile event }
        requires settled { IsSettled self.old }
        requires run { AreOfRun U.behaviour self.old fabric.old }
        requires room { event_count fabric.old + 1 ≤ fabric.old.room }
        ensures ok { OnOk result (TakesChip U.behaviour fabric.old.chip event
            self.old fabric.old self.new fabric.new) }
        ensures done { OnOk result (StaysInPlace self.old fabric.old self.new fabric.new) }
        ensures err { OnErr result (IsRefused U.behaviour fabric.old.chip event
            self.old fabric.old) }
        ensures kept { OnErr result (self.new ≡ self.old) }
        ensures fabric_kept { OnErr result (fabric.new ≡ fabric.old) }
    {
        match event {
            Event::Core { .. } => self.core(fabric),
            _ => self.act(fabric, event),
        }
    }

    // A core event, which goes into the journal at once.
    fn core(&mut self, fabric: &mut Fabric) -> Result<(), NotEnabled>
        requires settled { IsSettled self.old }
        requires run { AreOfRun U.behaviour self.old fabric.old }
        requires room { event_count fabric.old + 1 ≤ fabric.old.room }
        ensures ok { OnOk result (TakesChip U.behaviour fabric.old.chip
            (Core self.old.tile) self.old fabric.old self.new fabric.new) }
        ensures done { OnOk result (StaysInPlace self.old fabric.old self.new fabric.new) }
        ensures err { OnErr result (IsRefused U.behaviour fabric.old.chip
            (Core self.old.tile) self.old fabric.old) }
        ensures kept { OnErr result (self.new ≡ self.old) }
        ensures fabric_kept { OnErr result (fabric.new ≡ fabric.old) }
    {
        self.meets_calls(fabric);
        self.private()?;
        self.settle(fabric);
        Ok(())
    }

    // Who does its next event.
    pub(crate) fn made(&self) -> Made
        ensures { result ≡ record { by = self.now.tile; cores = self.now.cores } }
    {
        Made {
            by: self.tile,
            cores: self.cores,
        }
    }
}
