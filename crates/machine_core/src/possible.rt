ghost use Rattle.std.specs.Prelude.{◌≡◌};
ghost use Rattle.report_text.specs.declared.event.Event.TheVariants.{Tick, Core, Inject, Post, Take, Eject, Send, Hop, DataHop, DataEject};
ghost use Rattle.chip_model.specs.Units.{UnitState};
ghost use Rattle.machine_core.specs.Stations.{IsAtStation, Tells};
ghost use Rattle.machine_core.specs.Meetings.{AreOfRun, MeetsCalls};

use crate::Station;
use core_unit::Unit;
use fabric_core::Fabric;
use forward_list::{LIST_PLACES, QUEUE_PLACES};
use report_text::Event;

// Whether an event would be done.
impl<U: Unit> Station<U> {
    /// Whether a tick, or an event of the station's tile, is possible.
    pub fn can_act(&self, fabric: &Fabric, event: Event) -> bool
        requires event { IsAtStation self.now.tile event }
        requires run { AreOfRun U.behaviour self.now fabric.now }
        ensures { Tells U.behaviour fabric.now.chip event self.now fabric.now result }
    {
        self.meets_calls(fabric);
        let who = self.made();
        match event {
            Event::Tick => fabric.can_tick(who),
            Event::Core { .. } => self.ready(),
            Event::Inject { .. } => self.can_inject(fabric),
            Event::Post { .. } => fabric.can_post(who, self.tile),
            Event::Take { .. } => fabric.can_take(who, self.tile),
            Event::Eject { .. } => fabric.can_eject(who, self.tile),
            Event::Send { .. } => self.can_send(fabric),
            Event::Hop {
                port,
                slot,
                out,
                ..
            } => fabric.can_hop(who, self.tile, port, slot, out),
            Event::DataHop { port, slot, .. } => fabric.can_data_hop(who, self.tile, port, slot),
            Event::DataEject { port, slot, .. } => {
                fabric.can_data_eject(who, self.tile, port, slot)
            }
        }
    }

    fn can_inject(&self, fabric: &Fabric) -> bool
        ensures { Tells U.behaviour fabric.now.chip
            (Inject self.now.tile) self.now fabric.now result }
    {
        match self.unit.node().wanted() {
            Some((kind, line)) => fabric.can_inject(self.made(), kind, line),
            None => false,
        }
    }

    fn can_send(&self, fabric: &Fabric) -> bool
        requires { MeetsCalls LIST_PLACES QUEUE_PLACES self.now fabric.now }
        ensures { Tells U.behaviour fabric.now.chip
            (Send self.now.tile) self.now fabric.now result }
    {
        match self.unit.node().next_out() {
            Some(msg) => fabric.can_send(self.made(), self.tile, msg),
            None => false,
        }
    }
}
