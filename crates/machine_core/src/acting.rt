ghost use Rattle.std.specs.Prelude.{◌≡◌, ◌+◌, ◌<◌, ◌≤◌, ◌++◌, length, OnOk, OnErr};
ghost use Rattle.report_text.specs.declared.event.Event.TheVariants.{Tick, Inject, Post, Take, Eject, Send, Hop, DataHop, DataEject};
ghost use Rattle.chip_model.specs.Events.{with_access};
ghost use Rattle.fabric_core.specs.Fabric.{FabricState, event_count};
ghost use Rattle.machine_core.specs.Stations.{IsOfStation, IsDone, IsRefused, settled};
ghost use Rattle.machine_core.specs.Meetings.{AreOfRun, MeetsCalls};

use crate::Station;
use core_unit::Unit;
use fabric_core::Fabric;
use forward_list::{LIST_PLACES, QUEUE_PLACES};
use mesh_gen::{NotEnabled, Port};
use report_text::{Access, Event};

// The events of a station: each is one call of the fabric, and what it brings is one call of the unit.
impl<U: Unit> Station<U> {
    /// A tick, or an event of the station's tile other than a core event. It goes into the journal with the core events
    /// that are counted. Refused exactly where it is not possible.
    pub fn act(&mut self, fabric: &mut Fabric, event: Event) -> Result<(), NotEnabled>
        requires event { IsOfStation self.old.tile event }
        requires run { AreOfRun U.behaviour self.old fabric.old }
        requires room { event_count fabric.old + self.old.cores + 1 ≤ fabric.old.room }
        ensures ok { OnOk result (IsDone U.behaviour event self.old fabric.old
            self.new fabric.new) }
        ensures err { OnErr result (IsRefused U.behaviour fabric.old.chip event
            self.old fabric.old) }
        ensures kept { OnErr result (self.new ≡ self.old) }
        ensures fabric_kept { OnErr result (fabric.new ≡ fabric.old) }
    {
        self.meets_calls(fabric);
        match event {
            Event::Tick => self.tick(fabric),
            Event::Core { .. } => Err(NotEnabled),
            Event::Inject { .. } => self.inject(fabric),
            Event::Post { .. } => self.post(fabric),
            Event::Take { .. } => self.take(fabric),
            Event::Eject { .. } => self.eject(fabric),
            Event::Send { .. } => self.send(fabric),
            Event::Hop {
                port,
                slot,
                out,
                ..
            } => self.hop(fabric, port, slot, out),
            Event::DataHop { port, slot, .. } => self.data_hop(fabric, port, slot),
            Event::DataEject { port, slot, .. } => self.data_eject(fabric, port, slot),
        }
    }

    // What the calls of the events ask, of parts of a state that a run comes to. At run time it does nothing.
    pub(crate) fn meets_calls(&self, fabric: &Fabric)
        requires { AreOfRun U.behaviour self.now fabric.now }
        ensures { MeetsCalls LIST_PLACES QUEUE_PLACES self.now fabric.now }
    {
        core_unit::kind_laws::<U>();
        core_unit::count_laws::<U>();
        chip_laws::event_laws();
        chip_laws::tile_laws();
        chip_laws::access_laws();
        supply_laws::reachable_laws();
        supply_laws::meeting_laws();
        self.counted();
        fabric.length();
    }

    fn tick(&mut self, fabric: &mut Fabric) -> Result<(), NotEnabled>
        requires meets { MeetsCalls LIST_PLACES QUEUE_PLACES self.old fabric.old }
        requires room { event_count fabric.old + self.old.cores + 1 ≤ fabric.old.room }
        ensures ok { OnOk result (IsDone U.behaviour Tick self.old fabric.old self.new fabric.new) }
        ensures err { OnErr result (IsRefused U.behaviour fabric.old.chip Tick
            self.old fabric.old) }
        ensures kept { OnErr result (self.new ≡ self.old) }
        ensures fabric_kept { OnErr result (fabric.new ≡ fabric.old) }
    {
        fabric.tick(self.made())?;
        self.conclude(fabric, None);
        Ok(())
    }

    fn inject(&mut self, fabric: &mut Fabric) -> Result<(), NotEnabled>
        requires meets { MeetsCalls LIST_PLACES QUEUE_PLACES self.old fabric.old }
        requires room { event_count fabric.old + self.old.cores + 1 ≤ fabric.old.room }
        ensures ok { OnOk result (IsDone U.behaviour (Inject self.old.tile)
            self.old fabric.old self.new fabric.new) }
        ensures err { OnErr result (IsRefused U.behaviour fabric.old.chip
            (Inject self.old.tile) self.old fabric.old) }
        ensures kept { OnErr result (self.new ≡ self.old) }
        ensures fabric_kept { OnErr result (fabric.new ≡ fabric.old) }
    {
        let Some((kind, line)) = self.unit.node().wanted() else {
            return Err(NotEnabled);
        };
        fabric.inject(self.made(), kind, line)?;
        self.unit.mark_sent();
        self.conclude(fabric, None);
        Ok(())
    }

    fn post(&mut self, fabric: &mut Fabric) -> Result<(), NotEnabled>
        requires meets { MeetsCalls LIST_PLACES QUEUE_PLACES self.old fabric.old }
        requires room { event_count fabric.old + self.old.cores + 1 ≤ fabric.old.room }
        ensures ok { OnOk result (IsDone U.behaviour (Post self.old.tile)
            self.old fabric.old self.new fabric.new) }
        ensures err { OnErr result (IsRefused U.behaviour fabric.old.chip
            (Post self.old.tile) self.old fabric.old) }
        ensures kept { OnErr result (self.new ≡ self.old) }
        ensures fabric_kept { OnErr result (fabric.new ≡ fabric.old) }
    {
        fabric.post(self.made(), self.tile)?;
        self.conclude(fabric, None);
        Ok(())
    }

    fn take(&mut self, fabric: &mut Fabric) -> Result<(), NotEnabled>
        requires meets { MeetsCalls LIST_PLACES QUEUE_PLACES self.old fabric.old }
        requires room { event_count fabric.old + self.old.cores + 1 ≤ fabric.old.room }
        ensures ok { OnOk result (IsDone U.behaviour (Take self.old.tile)
            self.old fabric.old self.new fabric.new) }
        ensures err { OnErr result (IsRefused U.behaviour fabric.old.chip
            (Take self.old.tile) self.old fabric.old) }
        ensures kept { OnErr result (self.new ≡ self.old) }
        ensures fabric_kept { OnErr result (fabric.new ≡ fabric.old) }
    {
        fabric.take(self.made(), self.tile)?;
        self.conclude(fabric, None);
        Ok(())
    }

    fn eject(&mut self, fabric: &mut Fabric) -> Result<(), NotEnabled>
        requires meets { MeetsCalls LIST_PLACES QUEUE_PLACES self.old fabric.old }
        requires room { event_count fabric.old + self.old.cores + 1 ≤ fabric.old.room }
        ensures ok { OnOk result (IsDone U.behaviour (Eject self.old.tile)
            self.old fabric.old self.new fabric.new) }
        ensures err { OnErr result (IsRefused U.behaviour fabric.old.chip
            (Eject self.old.tile) self.old fabric.old) }
        ensures kept { OnErr result (self.new ≡ self.old) }
        ensures fabric_kept { OnErr result (fabric.new ≡ fabric.old) }
    {
        let q = fabric.eject(self.made(), self.tile)?;
        let access = self.unit.deliver(q);
        self.conclude(fabric, access);
        Ok(())
    }

    fn send(&mut self, fabric: &mut Fabric) -> Result<(), NotEnabled>
        requires meets { MeetsCalls LIST_PLACES QUEUE_PLACES self.old fabric.old }
        requires room { event_count fabric.old + self.old.cores + 1 ≤ fabric.old.room }
        ensures ok { OnOk result (IsDone U.behaviour (Send self.old.tile)
            self.old fabric.old self.new fabric.new) }
        ensures err { OnErr result (IsRefused U.behaviour fabric.old.chip
            (Send self.old.tile) self.old fabric.old) }
        ensures kept { OnErr result (self.new ≡ self.old) }
        ensures fabric_kept { OnErr result (fabric.new ≡ fabric.old) }
    {
        let Some(msg) = self.unit.node().next_out() else {
            return Err(NotEnabled);
        };
        fabric.send(self.made(), self.tile, msg)?;
        self.unit.drop_out();
        self.conclude(fabric, None);
        Ok(())
    }

    fn hop(
        &mut self,
        fabric: &mut Fabric,
        port: Port,
        slot: u8,
        out: Port,
    ) -> Result<(), NotEnabled>
        requires meets { MeetsCalls LIST_PLACES QUEUE_PLACES self.old fabric.old }
        requires room { event_count fabric.old + self.old.cores + 1 ≤ fabric.old.room }
        ensures ok { OnOk result (IsDone U.behaviour
            (Hop self.old.tile port slot out) self.old fabric.old self.new fabric.new) }
        ensures err { OnErr result (IsRefused U.behaviour fabric.old.chip
            (Hop self.old.tile port slot out) self.old fabric.old) }
        ensures kept { OnErr result (self.new ≡ self.old) }
        ensures fabric_kept { OnErr result (fabric.new ≡ fabric.old) }
    {
        fabric.hop(self.made(), self.tile, port, slot, out)?;
        self.conclude(fabric, None);
        Ok(())
    }

    fn data_hop(&mut self, fabric: &mut Fabric, port: Port, slot: u8) -> Result<(), NotEnabled>
        requires meets { MeetsCalls LIST_PLACES QUEUE_PLACES self.old fabric.old }
        requires room { event_count fabric.old + self.old.cores + 1 ≤ fabric.old.room }
        ensures ok { OnOk result (IsDone U.behaviour
            (DataHop self.old.tile port slot) self.old fabric.old self.new fabric.new) }
        ensures err { OnErr result (IsRefused U.behaviour fabric.old.chip
            (DataHop self.old.tile port slot) self.old fabric.old) }
        ensures kept { OnErr result (self.new ≡ self.old) }
        ensures fabric_kept { OnErr result (fabric.new ≡ fabric.old) }
    {
        fabric.data_hop(self.made(), self.tile, port, slot)?;
        self.conclude(fabric, None);
        Ok(())
    }

    fn data_eject(&mut self, fabric: &mut Fabric, port: Port, slot: u8) -> Result<(), NotEnabled>
        requires meets { MeetsCalls LIST_PLACES QUEUE_PLACES self.old fabric.old }
        requires room { event_count fabric.old + self.old.cores + 1 ≤ fabric.old.room }
        ensures ok { OnOk result (IsDone U.behaviour
            (DataEject self.old.tile port slot) self.old fabric.old self.new fabric.new) }
        ensures err { OnErr result (IsRefused U.behaviour fabric.old.chip
            (DataEject self.old.tile port slot) self.old fabric.old) }
        ensures kept { OnErr result (self.new ≡ self.old) }
        ensures fabric_kept { OnErr result (fabric.new ≡ fabric.old) }
    {
        let msg = fabric.data_eject(self.made(), self.tile, port, slot)?;
        let access = self.unit.receive(msg);
        self.conclude(fabric, access);
        Ok(())
    }

    // An event is in the journal with the core events that were counted: their accesses and its own go to the fabric.
    fn conclude(&mut self, fabric: &mut Fabric, access: Option<Access>)
        requires { length fabric.old.accesses + length self.old.accesses + 1 ≤ fabric.old.room }
        ensures station { self.new ≡ settled self.old }
        ensures fabric { fabric.new ≡ record fabric.old {
          accesses = with_access access (fabric.old.accesses ++ self.old.accesses);
        } }
    {
        self.hand_over(fabric);
        self.cores = 0;
        if let Some(access) = access {
            fabric.note_access(access);
        }
    }
}
