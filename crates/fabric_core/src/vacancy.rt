ghost use Rattle.std.specs.Prelude.{◌≡◌, ◌&&◌, ℕ, true, false, None, is_some};
ghost use Rattle.std.specs.Bool.{OnTrue};
ghost use Rattle.mesh_gen.specs.declared.port.Port.{Port};
ghost use Rattle.mesh_gen.specs.Ports.{port_number, has};
ghost use Rattle.mesh_gen.specs.PortSets.{bits_of};
ghost use Rattle.vc_bank.specs.Places.{at, vacant};
ghost use Rattle.chip_model.specs.OrderedNetwork.{after_copy_hop};
ghost use Rattle.router_xy.specs.RequestNetwork.{is_owed};
ghost use Rattle.fabric_core.specs.Vacancy.{router_vacant};

use crate::Fabric;
use mesh_gen::{Port, Ports};

// What is told of channels in which nothing stands that could go on, without a look at each event that they may have.
impl Fabric {
    /// Whether no channel of a router holds a copy of a request. Then none can hop from there.
    pub fn no_copies(&self, r: u8) -> bool
        ensures vacant { result ≡ router_vacant self.now.network.copies r }
        ensures none { OnTrue result ((port : Port) (slot : ℕ) (out : Port)
            → after_copy_hop self.now.chip self.now.network r port slot out ≡ None) }
    {
        let own = self.network.is_vacant(r, Port::L);
        let east = self.network.is_vacant(r, Port::E);
        let west = self.network.is_vacant(r, Port::W);
        let north = self.network.is_vacant(r, Port::N);
        let south = self.network.is_vacant(r, Port::S);
        all_five(own, east, west, north, south)
    }

    /// The same of the channels of one port.
    pub fn no_copies_at(&self, r: u8, port: Port) -> bool
        ensures vacant { result ≡ vacant self.now.network.copies r (port_number port) }
        ensures none { OnTrue result ((slot : ℕ) (out : Port)
            → after_copy_hop self.now.chip self.now.network r port slot out ≡ None) }
    {
        self.network.is_vacant(r, port)
    }

    /// The ports that the copy in a channel still owes: none where none stands. It can hop by these alone.
    pub fn owed(&self, r: u8, port: Port, slot: u8) -> Ports
        ensures owed { (out : Port) → has (bits_of result) out
            ≡ is_owed out (at self.now.network.copies r (port_number port) slot) }
        ensures none { (out : Port) → has (bits_of result) out ≡ false
            → after_copy_hop self.now.chip self.now.network r port slot out ≡ None }
    {
        self.network.owed(r, port, slot)
    }

    /// Whether the copy in a channel can hop by a side.
    pub fn has_way(&self, r: u8, port: Port, slot: u8, out: Port) -> bool
        ensures { result ≡ is_some (after_copy_hop self.now.chip self.now.network r port slot out) }
    {
        self.network.can_hop(r, port, slot, out)
    }

    /// Whether no channel of a router holds a message. Then none can go on from there.
    pub fn no_messages(&self, r: u8) -> bool
        ensures vacant { result ≡ router_vacant self.now.replies r }
        ensures none { OnTrue result ((port : Port) (slot : ℕ)
            → at self.now.replies r (port_number port) slot ≡ None) }
    {
        let own = self.replies.is_vacant(r, Port::L);
        let east = self.replies.is_vacant(r, Port::E);
        let west = self.replies.is_vacant(r, Port::W);
        let north = self.replies.is_vacant(r, Port::N);
        let south = self.replies.is_vacant(r, Port::S);
        all_five(own, east, west, north, south)
    }

    /// The same of the channels of one port.
    pub fn no_messages_at(&self, r: u8, port: Port) -> bool
        ensures vacant { result ≡ vacant self.now.replies r (port_number port) }
        ensures none { OnTrue result ((slot : ℕ)
            → at self.now.replies r (port_number port) slot ≡ None) }
    {
        self.replies.is_vacant(r, port)
    }
}

// Whether something is true of each of the five ports.
fn all_five(own: bool, east: bool, west: bool, north: bool, south: bool) -> bool
    ensures { result ≡ (own && (east && (west && (north && (south && true))))) }
{
    own && east && west && north && south
}
