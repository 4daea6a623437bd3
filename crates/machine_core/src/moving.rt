//! What may move on at a router, told without a look at each event that its channels have. A sweep passes over the rest.
ghost use Rattle.std.specs.Prelude.{◌≡◌, ◌<◌, ◌≤◌, ℕ, false, None};
ghost use Rattle.std.specs.Bool.{OnTrue};
ghost use Rattle.mesh_gen.specs.declared.port.Port.{Port};
ghost use Rattle.mesh_gen.specs.Limits.{IsFrom};
ghost use Rattle.mesh_gen.specs.Ports.{port_number, has};
ghost use Rattle.mesh_gen.specs.PortSets.{bits_of};
ghost use Rattle.vc_bank.specs.Places.{at, vacant};
ghost use Rattle.router_xy.specs.RequestNetwork.{is_owed};
ghost use Rattle.report_text.specs.declared.event.Event.TheVariants.{Hop, DataHop, DataEject};
ghost use Rattle.chip_model.specs.Chip.{chip_of, tile_count};
ghost use Rattle.chip_model.specs.Runs.{after, enabled};
ghost use Rattle.chip_model.specs.Schedules.{slots_per_tile};
ghost use Rattle.fabric_core.specs.Vacancy.{router_vacant};

use crate::Machine;
use crate::slots::slots_each;
use core_unit::Unit;
use mesh_gen::{Port, Ports};

// The sizes of the chip.
impl<U: Unit> Machine<U> {
    /// How many tiles there are.
    pub fn tiles(&self) -> u8
        ensures { result ≡ tile_count (chip_of self.now.document) }
    {
        self.rest.mesh().tiles()
    }

    /// How many normal request channels a port has.
    pub fn vcs(&self) -> u8
        ensures vcs { result ≡ (chip_of self.now.document).vcs }
        ensures limits { IsFrom 1 8 result }
    {
        self.rest.mesh().vcs
    }

    /// How many reply channels a port has.
    pub fn data_vcs(&self) -> u8
        ensures { result ≡ (chip_of self.now.document).data_vcs }
    {
        self.rest.mesh().data_vcs
    }

    /// How many slots each tile has.
    pub fn slots_each(&self) -> u32
        ensures { result ≡ slots_per_tile (chip_of self.now.document) }
    {
        slots_each(self.rest.mesh())
    }
}

// What may move on.
impl<U: Unit> Machine<U> {
    /// Whether no channel of a router holds a copy of a request. Then none can hop from there.
    pub fn no_copies(&self, r: u8) -> bool
        ensures vacant { result ≡ router_vacant self.now.state.network.copies r }
        ensures none { OnTrue result ((port : Port) (slot : ℕ) (out : Port)
            → after U.behaviour (chip_of self.now.document) self.now.state (Hop r port slot out)
            ≡ None) }
    {
        self.fabric.no_copies(r)
    }

    /// The same of the channels of one port.
    pub fn no_copies_at(&self, r: u8, port: Port) -> bool
        ensures vacant { result ≡ vacant self.now.state.network.copies r (port_number port) }
        ensures none { OnTrue result ((slot : ℕ) (out : Port)
            → after U.behaviour (chip_of self.now.document) self.now.state (Hop r port slot out)
            ≡ None) }
    {
        self.fabric.no_copies_at(r, port)
    }

    /// The ports that the copy in a channel still owes: none where none stands. It can hop by these alone.
    pub fn owed(&self, r: u8, port: Port, slot: u8) -> Ports
        ensures owed { (out : Port) → has (bits_of result) out
            ≡ is_owed out (at self.now.state.network.copies r (port_number port) slot) }
        ensures none { (out : Port) → has (bits_of result) out ≡ false
            → after U.behaviour (chip_of self.now.document) self.now.state (Hop r port slot out)
            ≡ None }
    {
        self.fabric.owed(r, port, slot)
    }

    /// Whether the copy in a channel can hop by a side.
    pub fn can_hop(&self, r: u8, port: Port, slot: u8, out: Port) -> bool
        ensures { result ≡ enabled U.behaviour (chip_of self.now.document) self.now.state
            (Hop r port slot out) }
    {
        self.fabric.has_way(r, port, slot, out)
    }

    /// Whether no channel of a router holds a message. Then none can go on from there, and none comes to the tile.
    pub fn no_messages(&self, r: u8) -> bool
        ensures vacant { result ≡ router_vacant self.now.state.replies r }
        ensures hops { OnTrue result ((port : Port) (slot : ℕ)
            → after U.behaviour (chip_of self.now.document) self.now.state (DataHop r port slot)
            ≡ None) }
        ensures ejects { OnTrue result ((port : Port) (slot : ℕ)
            → after U.behaviour (chip_of self.now.document) self.now.state (DataEject r port slot)
            ≡ None) }
    {
        self.fabric.no_messages(r)
    }

    /// The same of the channels of one port.
    pub fn no_messages_at(&self, r: u8, port: Port) -> bool
        ensures vacant { result ≡ vacant self.now.state.replies r (port_number port) }
        ensures hops { OnTrue result ((slot : ℕ)
            → after U.behaviour (chip_of self.now.document) self.now.state (DataHop r port slot)
            ≡ None) }
        ensures ejects { OnTrue result ((slot : ℕ)
            → after U.behaviour (chip_of self.now.document) self.now.state (DataEject r port slot)
            ≡ None) }
    {
        self.fabric.no_messages_at(r, port)
    }
}
