ghost use Rattle.std.specs.Prelude.{◌≡◌, ◌<◌, ◌≤◌, ◌+◌, ◌*◌, ℕ, Option, Some, None, true, false, IfOk, IfSome, IfNone, OnOk, OnErr, is_some};
ghost use Rattle.std.specs.Bool.{OnTrue};
ghost use Rattle.mesh_gen.specs.declared.port.Port.{Port};
ghost use Rattle.mesh_gen.specs.Grid.{tiles};
ghost use Rattle.mesh_gen.specs.Mesh.{grid};
ghost use Rattle.mesh_gen.specs.PortSets.{bits_of};
ghost use Rattle.mesh_gen.specs.Ports.{port_number, has};
ghost use Rattle.vc_bank.specs.Places.{at, vacant};
ghost use Rattle.chip_model.specs.Copies.{Name, no_copies, name_of, after_entry, after_hop, local_place, after_serve};
ghost use Rattle.chip_model.specs.CopiesOwed.{CopiesFit, OwesMore, OwesSame, OwesLess, NoneComes, ComesAlone, ReservesExpected, ReservesNothing};
ghost use Rattle.chip_model.specs.NetworkShape.{HasChannels};
ghost use Rattle.router_xy.specs.RequestNetwork.{IsAbsent, is_owed, arrived};
ghost use Rattle.router_xy.specs.Ways.{IsWay, takes_in};

use crate::banks::free_entry;
use crate::copies::{left_by, no_ports};
use crate::local::place_owing;
use crate::way::Way;
use crate::wiring::Wiring;
use chip_model::NetCopy;
use mesh_gen::{Mesh, NoChannel, NoMemory, NotEnabled, Port, Ports, Request};
use std::alloc::Global;
use std::marker::Model;
use vc_bank::{Bank, empty_banks, free_slot, is_vacant, leave, packet_at, put_into};

/// The copies of requests in the channels of all routers. Contracts see the grid of the routers, how many normal channels
/// a port has, and the copies.
#[derive(Drop)]
pub struct Routers {
    wiring: Wiring,
    // How many normal channels a port has. The reserved one has this number.
    vcs: u8,
    banks: Vec<Bank<NetCopy>>,
}

impl Model for Routers {
    ghost use Rattle.router_xy.specs.RequestNetwork.{RequestNetwork, RoutersFit};

    ghost Value = { RequestNetwork };

    ghost view = { λ routers. record {
      grid = routers.wiring;
      vcs = routers.vcs;
      copies = routers.banks.items;
    } };

    ghost invariant = { λ routers. RoutersFit (record {
      grid = routers.wiring;
      vcs = routers.vcs;
      copies = routers.banks.items;
    }) };
}

impl Routers {
    /// The routers of a mesh, with no copy.
    pub fn open(alloc: Global, mesh: &Mesh) -> Result<Routers, NoMemory>
        ensures { IfOk result (λ routers.
            routers ≡ record {
              grid = grid mesh.now;
              vcs = mesh.now.vcs;
              copies = no_copies (grid mesh.now) mesh.now.vcs;
            }) }
    {
        Ok(Routers {
            wiring: Wiring::of(alloc, mesh)?,
            vcs: mesh.vcs,
            banks: empty_banks(alloc, mesh.tiles(), mesh.vcs, true)?,
        })
    }

    /// How many tiles there are. Each has a router, whose ports have their normal channels, and those between routers a
    /// reserved one more. The copies in them stand on the trees of their sources and owe each tile at most once.
    pub fn tiles(&self) -> u8
        ensures tiles { result ≡ tiles self.now.grid }
        ensures channels { HasChannels self.now.grid self.now.vcs true self.now.copies }
        ensures fit { CopiesFit self.now.grid self.now.copies }
        ensures arrived { arrived self.now.copies ≤ tiles self.now.grid * (5 * self.now.vcs + 4) }
    {
        self.wiring.tiles()
    }

    /// Puts a request into the lowest free channel of its source's local port, owing every port of the tree there.
    /// Refused exactly where that port has no free channel.
    pub fn inject(&mut self, q: Request) -> Result<(), NoChannel>
        requires source { q.source < tiles self.old.grid }
        requires absent { IsAbsent self.old.copies (name_of q) }
        ensures ok { OnOk result (after_entry self.old.grid self.old.copies q
            ≡ Some self.new.copies) }
        ensures err { OnErr result (after_entry self.old.grid self.old.copies q ≡ None) }
        ensures kept { OnErr result (self.new ≡ self.old) }
        ensures owed { OnOk result (OwesMore self.old.grid q self.old.copies self.new.copies) }
        ensures requests { OnOk result (ComesAlone q self.old.copies self.new.copies) }
        ensures reserved { ReservesNothing self.old.vcs self.old.copies self.new.copies }
        ensures arrived { OnOk result (arrived self.new.copies ≡ arrived self.old.copies + 1) }
        ensures grid { self.new.grid ≡ self.old.grid }
        ensures vcs { self.new.vcs ≡ self.old.vcs }
    {
        let Some(slot) = free_slot(&self.banks, q.source, Port::L) else {
            return Err(NoChannel);
        };
        let copy = self.arriving(q.source, q);
        put_into(&mut self.banks, q.source, Port::L, slot, copy);
        Ok(())
    }

    /// Moves a copy out of a channel by an output port that it owes: to the lowest free normal channel at the port by
    /// which it enters the next router, or to the reserved one if no normal one is free and the request is the one that
    /// is `expected` there. Refused exactly where the channel holds no copy that owes this port, no router is there, or
    /// no such channel is free.
    pub fn hop(
        &mut self,
        r: u8,
        port: Port,
        slot: u8,
        out: Port,
        expected: Option<(u8, u32)>,
    ) -> Result<(), NotEnabled>
        ensures ok { OnOk result
            (after_hop self.old.grid self.old.copies r port slot out expected
            ≡ Some self.new.copies) }
        ensures err { OnErr result
            (after_hop self.old.grid self.old.copies r port slot out expected ≡ None) }
        ensures kept { OnErr result (self.new ≡ self.old) }
        ensures owed { OnOk result (OwesSame self.old.grid self.old.copies self.new.copies) }
        ensures requests { NoneComes self.old.copies self.new.copies }
        ensures reserved { ReservesExpected
            self.old.grid self.old.vcs r out expected self.old.copies self.new.copies }
        ensures arrived { OnOk result (arrived self.new.copies ≡ arrived self.old.copies + 1) }
        ensures grid { self.new.grid ≡ self.old.grid }
        ensures vcs { self.new.vcs ≡ self.old.vcs }
    {
        let Some(way) = self.way(r, port, slot, out) else {
            return Err(NotEnabled);
        };
        if !way.is_open(expected) {
            return Err(NotEnabled);
        }
        self.go(r, port, slot, out, way);
        Ok(())
    }

    /// The way of a copy out of a channel by an output port that it owes, as far as the next router has a channel that is
    /// free. What is expected there is asked only where that is the reserved one.
    pub fn way(&self, r: u8, port: Port, slot: u8, out: Port) -> Option<Way>
        ensures some { IfSome result (λ way.
            IsWay self.now.grid self.now.copies r port slot out way) }
        ensures none { IfNone result ((expected : Option Name)
            → after_hop self.now.grid self.now.copies r port slot out expected ≡ None) }
        // It can go exactly where the channel takes it in.
        ensures goes { IfSome result (λ way. (expected : Option Name)
            → takes_in way expected
            ≡ is_some (after_hop self.now.grid self.now.copies r port slot out expected)) }
    {
        let Some(copy) = packet_at(&self.banks, r, port, slot) else {
            return None;
        };
        if !copy.owed.has(out) {
            return None;
        }
        let Some(to) = self.wiring.neighbour(r, out) else {
            return None;
        };
        let Some(entry) = free_entry(&self.banks, self.vcs, to, out.opposite()) else {
            return None;
        };
        Some(Way { copy, to, entry })
    }

    /// Moves a copy along its way.
    pub fn go(&mut self, r: u8, port: Port, slot: u8, out: Port, way: Way)
        requires { IsWay self.old.grid self.old.copies r port slot out way }
        ensures hopped { (expected : Option Name) → takes_in way expected ≡ true
            → after_hop self.old.grid self.old.copies r port slot out expected
            ≡ Some self.new.copies }
        ensures owed { OwesSame self.old.grid self.old.copies self.new.copies }
        ensures requests { NoneComes self.old.copies self.new.copies }
        ensures reserved { (expected : Option Name) → takes_in way expected ≡ true
            → ReservesExpected self.old.grid self.old.vcs r out expected self.old.copies
            self.new.copies }
        ensures arrived { arrived self.new.copies ≡ arrived self.old.copies + 1 }
        ensures grid { self.new.grid ≡ self.old.grid }
        ensures vcs { self.new.vcs ≡ self.old.vcs }
    {
        let copy = self.arriving(way.to, way.copy.request);
        leave(&mut self.banks, r, port, slot, left_by(out, way.copy));
        put_into(
            &mut self.banks,
            way.to,
            out.opposite(),
            way.entry.slot,
            copy,
        );
    }

    /// Whether no channel of a port of the router `r` holds a copy. Then none can hop.
    pub fn is_vacant(&self, r: u8, port: Port) -> bool
        ensures vacant { result ≡ vacant self.now.copies r (port_number port) }
        ensures none { OnTrue result ((slot : ℕ) (out : Port) (expected : Option Name)
            → after_hop self.now.grid self.now.copies r port slot out expected ≡ None) }
    {
        is_vacant(&self.banks, r, port)
    }

    /// The ports that the copy in a channel still owes: none where none stands. It can hop by these alone.
    pub fn owed(&self, r: u8, port: Port, slot: u8) -> Ports
        ensures owed { (out : Port) → has (bits_of result) out
            ≡ is_owed out (at self.now.copies r (port_number port) slot) }
        ensures none { (out : Port) → has (bits_of result) out ≡ false → (expected : Option Name)
            → after_hop self.now.grid self.now.copies r port slot out expected ≡ None }
    {
        match packet_at(&self.banks, r, port, slot) {
            Some(copy) => copy.owed,
            None => no_ports(),
        }
    }

    /// Whether a channel of the router holds a copy of the request that owes the router's own tile.
    pub fn holds_local(&self, r: u8, id: (u8, u32)) -> bool
        ensures { result ≡ is_some (local_place self.now.copies r id) }
    {
        self.local_place(r, id).is_some()
    }

    /// The request that a copy owes the router's own tile, which is owed no more: the copy leaves by the local port.
    /// Refused exactly where no channel of the router holds a copy of the request that owes the tile.
    pub fn serve_local(&mut self, r: u8, id: (u8, u32)) -> Result<Request, NotEnabled>
        ensures ok { IfOk result (λ q. after_serve self.old.copies r id
            ≡ Some (q, self.new.copies)) }
        ensures err { OnErr result (is_some (local_place self.old.copies r id) ≡ false) }
        ensures kept { OnErr result (self.new ≡ self.old) }
        ensures name { IfOk result (λ q. name_of q ≡ id) }
        ensures owed { IfOk result (λ q.
            OwesLess self.old.grid r q self.old.copies self.new.copies) }
        ensures requests { NoneComes self.old.copies self.new.copies }
        ensures reserved { ReservesNothing self.old.vcs self.old.copies self.new.copies }
        ensures arrived { OnOk result (arrived self.new.copies + 1 ≡ arrived self.old.copies) }
        ensures grid { self.new.grid ≡ self.old.grid }
        ensures vcs { self.new.vcs ≡ self.old.vcs }
    {
        let Some((port, slot)) = self.local_place(r, id) else {
            return Err(NotEnabled);
        };
        let Some(copy) = packet_at(&self.banks, r, port, slot) else {
            unreachable!()
        };
        leave(&mut self.banks, r, port, slot, left_by(Port::L, copy));
        Ok(copy.request)
    }

    /// Whether [`Routers::inject`] would take the request in.
    pub fn can_inject(&self, q: Request) -> bool
        requires source { q.source < tiles self.now.grid }
        requires absent { IsAbsent self.now.copies (name_of q) }
        ensures { result ≡ is_some (after_entry self.now.grid self.now.copies q) }
    {
        free_slot(&self.banks, q.source, Port::L).is_some()
    }

    /// Whether [`Routers::hop`] would move the copy.
    pub fn can_hop(
        &self,
        r: u8,
        port: Port,
        slot: u8,
        out: Port,
        expected: Option<(u8, u32)>,
    ) -> bool
        ensures { result
            ≡ is_some (after_hop self.now.grid self.now.copies r port slot out expected) }
    {
        match self.way(r, port, slot, out) {
            Some(way) => way.is_open(expected),
            None => false,
        }
    }
}

impl Routers {
    ghost use Rattle.std.specs.Prelude.{◌≡◌, ◌<◌};
    ghost use Rattle.mesh_gen.specs.Grid.{tiles};
    ghost use Rattle.chip_model.specs.Copies.{arriving, local_place};
    ghost use Rattle.router_xy.specs.RequestNetwork.{numbered};

    // A copy that comes to a router owes every port of the tree there.
    fn arriving(&self, r: u8, q: Request) -> NetCopy
        requires source { q.source < tiles self.now.grid }
        requires router { r < tiles self.now.grid }
        ensures { result ≡ arriving self.now.grid r q }
    {
        NetCopy {
            request: q,
            owed: self.wiring.tree_outs(q.source, r),
        }
    }

    // The place of the copy of a request that owes the router's own tile.
    fn local_place(&self, r: u8, id: (u8, u32)) -> Option<(Port, u8)>
        ensures { numbered result ≡ local_place self.now.copies r id }
    {
        match self.banks.get(usize::from(r)) {
            Some(bank) => place_owing(bank, id),
            None => None,
        }
    }
}
