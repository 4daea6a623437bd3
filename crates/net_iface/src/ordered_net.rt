ghost use Rattle.std.specs.Prelude.{◌≡◌, ◌+◌, ◌-◌, ◌^◌, ◌<◌, ◌≤◌, ℕ, Some, None, IfOk, OnOk, OnErr, is_some, option_map, length, slice_get, slice_index, ◌||◌, false};
ghost use Rattle.std.specs.Bool.{OnTrue, OnFalse};
ghost use Rattle.mesh_gen.specs.declared.port.Port.{Port};
ghost use Rattle.mesh_gen.specs.declared.port.Port.TheVariants.{E, W, N, S};
ghost use Rattle.mesh_gen.specs.Limits.{IsFrom, most_tiles};
ghost use Rattle.mesh_gen.specs.Ports.{port_number, has};
ghost use Rattle.mesh_gen.specs.PortSets.{bits_of};
ghost use Rattle.vc_bank.specs.Places.{at, vacant};
ghost use Rattle.chip_model.specs.Chip.{chip_of_mesh, tile_count};
ghost use Rattle.chip_model.specs.OrderedNetwork.{Interface, next_request, after_inject, after_request_post, after_network_tick, after_vector_take, expected_at, after_copy_hop, after_delivery};
ghost use Rattle.chip_model.specs.NetworkFits.{NetworkFits};
ghost use Rattle.router_xy.specs.RequestNetwork.{is_owed};
ghost use Rattle.router_xy.specs.Ways.{takes_in};
ghost use Rattle.net_iface.specs.OrderedNet.{opening_state, SameSizes, delivered_counts, delivered_by, FewAreLeft};
ghost use Rattle.net_iface.specs.OneOrder.{IsOneOrder};
ghost use Rattle.net_iface.specs.Moves.{moves_done, most_moves};

use crate::follower::Follower;
use crate::laws::network_laws;
use crate::requests::{add, empty_lists, is_none_left, order_window};
use crate::trackers::{expected_by, new_trackers, pass_over, take_in};
use circular_buffer::HeapCircularBuffer;
use mesh_gen::{
    Counts, Items, Kind, Mesh, NoChannel, NoMemory, NotEnabled, Port, Ports, Request, Requests,
};
use router_xy::{Routers, Way, owed_laws, step_laws};
use std::alloc::Global;
use std::marker::Model;
use window_core::Windows;

/// The ordered network of a chip. Contracts see the chip, the network as plain data, and how many requests may be ordered
/// in all.
#[derive(Drop)]
pub struct OrderedNet {
    mesh: Mesh,
    routers: Routers,
    windows: Windows,
    trackers: Vec<Follower>,
    // Of each tile, its requests that are not ordered yet: with those that are, all that it made.
    unordered: Vec<HeapCircularBuffer<Request>>,
    made: Vec<u32>,
    // Its room is reserved, so that no tick needs memory.
    ordered: Vec<Request>,
    delivered: Vec<u64>,
    room: u64,
}

impl Model for OrderedNet {
    ghost use Rattle.std.specs.Prelude.{◌≤◌};
    ghost use Rattle.std.specs.Vec.{vec_capacity};
    ghost use Rattle.chip_model.specs.Chip.{chip_of_mesh};
    ghost use Rattle.net_iface.specs.OrderedNet.{NetworkState};
    ghost use Rattle.net_iface.specs.Parts.{network_of_parts, AreKept};

    ghost Value = { NetworkState };

    ghost view = { λ net. network_of_parts (record {
      chip = chip_of_mesh net.mesh;
      routers = net.routers;
      windows = net.windows;
      trackers = net.trackers.items;
      unordered = net.unordered.items;
      made = net.made.items;
      ordered = net.ordered.items;
      delivered = net.delivered.items;
      room = net.room;
    }) };

    ghost invariant = { λ net. AreKept (record {
      chip = chip_of_mesh net.mesh;
      routers = net.routers;
      windows = net.windows;
      trackers = net.trackers.items;
      unordered = net.unordered.items;
      made = net.made.items;
      ordered = net.ordered.items;
      delivered = net.delivered.items;
      room = net.room;
    }) × (net.room ≤ vec_capacity net.ordered) };
}

impl OrderedNet {
    /// The network of a mesh before any step, with room for so many ordered requests. No other call takes memory.
    pub fn open(alloc: Global, mesh: &Mesh, room: u64) -> Result<OrderedNet, NoMemory>
        requires { room < 2 ^ 31 }
        ensures { IfOk result (λ net. net ≡ opening_state (chip_of_mesh mesh.now) room) }
    {
        network_laws();
        let tiles = usize::from(mesh.tiles());
        Ok(OrderedNet {
            mesh: mesh.copy(alloc)?,
            routers: Routers::open(alloc, mesh)?,
            windows: Windows::open(alloc, mesh, room)?,
            trackers: new_trackers(alloc, mesh)?,
            unordered: empty_lists(alloc, mesh)?,
            made: vec![in alloc; 0; tiles]?,
            ordered: Vec::with_capacity(alloc, room as usize)?,
            delivered: vec![in alloc; 0; tiles]?,
            room,
        })
    }

    /// How many tiles there are.
    pub fn tiles(&self) -> u8
        ensures tiles { result ≡ tile_count self.now.chip }
        ensures limits { (0 < result) × (result ≤ most_tiles) }
        // What is true of an ordered network at any moment.
        ensures fits { NetworkFits self.now.chip self.now.network }
        ensures one_order { IsOneOrder self.now.chip self.now.network }
        ensures few_left { FewAreLeft self.now.chip self.now.network }
        ensures room { length self.now.network.ordered ≤ self.now.room }
        ensures moves { moves_done self.now.network ≤ most_moves self.now.chip self.now.network }
    {
        self.closed_count();
        owed_laws();
        self.routers.tiles()
    }

    /// How many normal request channels a port has.
    pub fn vcs(&self) -> u8
        ensures vcs { result ≡ self.now.chip.vcs }
        ensures limits { IsFrom 1 8 result }
    {
        self.mesh.vcs
    }

    /// How many ticks a window takes.
    pub fn window(&self) -> u8
        ensures { result ≡ self.now.chip.window }
    {
        self.mesh.window
    }

    /// The requests that closed windows have ordered, in the order that every interface derives.
    pub fn order(&self) -> &[Request]
        ensures { result.now ≡ self.now.network.ordered }
    {
        &self.ordered
    }

    /// How many more requests may be ordered.
    pub fn spare(&self) -> u64
        ensures { result ≡ self.now.room - length self.now.network.ordered }
    {
        self.room - self.ordered.len() as u64
    }

    /// How many requests the tile has delivered. They are the first ones of the order.
    pub fn delivered(&self, t: u8) -> u64
        requires { t < tile_count self.now.chip }
        ensures { result ≡ slice_index (delivered_counts self.now.network) t }
    {
        self.delivered[usize::from(t)]
    }

    /// The requests that the tile has delivered, in their order: a prefix of the order.
    pub fn delivered_requests(&self, t: u8) -> &[Request]
        requires { t < tile_count self.now.chip }
        ensures { result.now ≡ delivered_by self.now.network t }
    {
        // What this tells shows that the order has as many.
        self.tiles();
        let count = self.delivered(t) as usize;
        &self.order()[..count]
    }

    /// The order, and how many of its requests each tile has delivered.
    pub fn into_lists(self) -> (Requests, Counts)
        ensures order { result.0 ≡ self.network.ordered }
        ensures delivered { result.1 ≡ delivered_counts self.network }
    {
        let OrderedNet {
            mesh: _,
            routers: _,
            windows: _,
            trackers: _,
            unordered: _,
            made: _,
            ordered,
            delivered,
            room: _,
        } = self;
        (Items::new(ordered), Items::new(delivered))
    }

    /// The tile makes its next request, which enters its router. Refused exactly where it is no tile, or its router's
    /// local port has no free channel.
    pub fn inject(&mut self, t: u8, kind: Kind, line: u16) -> Result<Request, NoChannel>
        ensures ok { OnOk result (after_inject self.old.chip self.old.network t kind line
            ≡ Some self.new.network) }
        ensures request { IfOk result (λ q. (interface : Interface)
            → slice_get self.old.network.interfaces t ≡ Some interface
            → q ≡ next_request t interface kind line) }
        ensures err { OnErr result (after_inject self.old.chip self.old.network t kind line
            ≡ None) }
        ensures kept { OnErr result (self.new ≡ self.old) }
        ensures sizes { SameSizes self.old self.new }
    {
        let Some(q) = self.next_request(t, kind, line) else {
            return Err(NoChannel);
        };
        self.routers.inject(q)?;
        // What these tell shows that the list of the tile has room.
        self.routers.tiles();
        owed_laws();
        network_laws();
        self.made[usize::from(t)] += 1;
        add(&mut self.unordered, q);
        Ok(q)
    }

    /// The tile posts in the open window for its first request that it has not posted. Refused exactly where it has none
    /// or may not post.
    pub fn post(&mut self, t: u8) -> Result<(), NotEnabled>
        ensures ok { OnOk result (after_request_post self.old.network t ≡ Some self.new.network) }
        ensures err { OnErr result (after_request_post self.old.network t ≡ None) }
        ensures kept { OnErr result (self.new ≡ self.old) }
        ensures sizes { SameSizes self.old self.new }
    {
        network_laws();
        if is_none_left(&self.unordered, t) {
            return Err(NotEnabled);
        }
        self.windows.post(t)?;
        Ok(())
    }

    /// A tick passes. The last tick of a window orders one request of each tile that posted in it. Refused exactly where
    /// no tile posted.
    pub fn tick(&mut self) -> Result<(), NotEnabled>
        requires { length self.old.network.ordered + tile_count self.old.chip ≤ self.old.room }
        ensures ok { OnOk result (after_network_tick self.old.chip self.old.network
            ≡ Some self.new.network) }
        ensures few { length self.new.network.ordered
            ≤ length self.old.network.ordered + tile_count self.old.chip }
        ensures err { OnErr result (after_network_tick self.old.chip self.old.network ≡ None) }
        ensures kept { OnErr result (self.new ≡ self.old) }
        ensures sizes { SameSizes self.old self.new }
    {
        network_laws();
        let number = self.closed_count();
        let tiles = self.mesh.tiles();
        match self.windows.tick() {
            Ok(Some(vector)) => {
                order_window(
                    &mut self.unordered,
                    &mut self.ordered,
                    vector,
                    number,
                    tiles,
                );
                Ok(())
            }
            Ok(None) => Ok(()),
            Err(NotEnabled) => Err(NotEnabled),
        }
    }

    /// The tile takes the vector of the next closed window. Refused exactly where it has taken all of them, or is no tile.
    pub fn take(&mut self, t: u8) -> Result<(), NotEnabled>
        ensures ok { OnOk result (after_vector_take self.old.network t ≡ Some self.new.network) }
        ensures moves { OnOk result (moves_done self.new.network
            ≡ moves_done self.old.network + 1) }
        ensures err { OnErr result (after_vector_take self.old.network t ≡ None) }
        ensures kept { OnErr result (self.new ≡ self.old) }
        ensures sizes { SameSizes self.old self.new }
    {
        // What these tell shows that the tracker has room.
        self.closed_count();
        self.routers.tiles();
        owed_laws();
        network_laws();
        match self.windows.take(t) {
            Ok(vector) => {
                take_in(&mut self.trackers, t, vector);
                Ok(())
            }
            Err(_) => Err(NotEnabled),
        }
    }

    /// A copy of a request leaves a channel of the router `r` by a side that it owes, and comes to the next router.
    /// Refused exactly where the channel holds no such copy, no router stands there, or that has no channel for it.
    pub fn hop(&mut self, r: u8, port: Port, slot: u8, out: Port) -> Result<(), NotEnabled>
        ensures ok { OnOk result (after_copy_hop self.old.chip self.old.network r port slot out
            ≡ Some self.new.network) }
        ensures moves { OnOk result (moves_done self.new.network
            ≡ moves_done self.old.network + 1) }
        ensures err { OnErr result (after_copy_hop self.old.chip self.old.network r port slot out
            ≡ None) }
        ensures kept { OnErr result (self.new ≡ self.old) }
        ensures sizes { SameSizes self.old self.new }
    {
        network_laws();
        let Some(way) = self.routers.way(r, port, slot, out) else {
            return Err(NotEnabled);
        };
        if !self.takes_in(way) {
            return Err(NotEnabled);
        }
        self.routers.go(r, port, slot, out, way);
        Ok(())
    }

    /// The tile delivers the request that comes next in the order. Refused exactly where it knows of none, or no copy of it
    /// is there.
    pub fn eject(&mut self, t: u8) -> Result<Request, NotEnabled>
        ensures ok { IfOk result (λ q. after_delivery self.old.chip self.old.network t
            ≡ Some (q, self.new.network)) }
        ensures in_order { IfOk result (λ q. slice_get self.old.network.ordered
            (slice_index (delivered_counts self.old.network) t) ≡ Some q) }
        ensures moves { OnOk result (moves_done self.new.network
            ≡ moves_done self.old.network + 1) }
        ensures err { OnErr result (after_delivery self.old.chip self.old.network t ≡ None) }
        ensures kept { OnErr result (self.new ≡ self.old) }
        ensures sizes { SameSizes self.old self.new }
    {
        step_laws();
        network_laws();
        let Some(name) = self.expected(t) else {
            return Err(NotEnabled);
        };
        let q = self.routers.serve_local(t, name)?;
        pass_over(&mut self.trackers, t);
        self.delivered[usize::from(t)] += 1;
        Ok(q)
    }
}

// Where a copy may leave.
impl OrderedNet {
    /// Whether no channel of a port of the router `r` holds a copy. Then none can leave.
    pub fn is_vacant(&self, r: u8, port: Port) -> bool
        ensures vacant { result ≡ vacant self.now.network.copies r (port_number port) }
        ensures none { OnTrue result ((slot : ℕ) (out : Port)
            → after_copy_hop self.now.chip self.now.network r port slot out ≡ None) }
    {
        self.routers.is_vacant(r, port)
    }

    /// The ports that the copy in a channel still owes: none where none stands. It can leave by these alone.
    pub fn owed(&self, r: u8, port: Port, slot: u8) -> Ports
        ensures owed { (out : Port) → has (bits_of result) out
            ≡ is_owed out (at self.now.network.copies r (port_number port) slot) }
        ensures none { (out : Port) → has (bits_of result) out ≡ false
            → after_copy_hop self.now.chip self.now.network r port slot out ≡ None }
    {
        self.routers.owed(r, port, slot)
    }
}

// Whether a call would be answered by Ok.
impl OrderedNet {
    /// Whether [`OrderedNet::inject`] would put a request into a channel.
    pub fn can_inject(&self, t: u8, kind: Kind, line: u16) -> bool
        ensures { result ≡ is_some (after_inject self.now.chip self.now.network t kind line) }
    {
        match self.next_request(t, kind, line) {
            Some(q) => self.routers.can_inject(q),
            None => false,
        }
    }

    /// Whether [`OrderedNet::post`] would post.
    pub fn can_post(&self, t: u8) -> bool
        ensures { result ≡ is_some (after_request_post self.now.network t) }
    {
        !is_none_left(&self.unordered, t) && self.windows.can_post(t)
    }

    /// Whether [`OrderedNet::tick`] would pass a tick.
    pub fn can_tick(&self) -> bool
        ensures { result ≡ is_some (after_network_tick self.now.chip self.now.network) }
    {
        self.windows.can_tick()
    }

    /// Whether [`OrderedNet::take`] would take a vector.
    pub fn can_take(&self, t: u8) -> bool
        ensures { result ≡ is_some (after_vector_take self.now.network t) }
    {
        self.windows.can_take(t)
    }

    /// Whether [`OrderedNet::hop`] would move a copy.
    pub fn can_hop(&self, r: u8, port: Port, slot: u8, out: Port) -> bool
        ensures { result ≡ is_some (after_copy_hop self.now.chip self.now.network r port slot out) }
    {
        match self.routers.way(r, port, slot, out) {
            Some(way) => self.takes_in(way),
            None => false,
        }
    }

    /// Whether [`OrderedNet::eject`] would deliver a request.
    pub fn can_eject(&self, t: u8) -> bool
        ensures { result ≡ is_some (after_delivery self.now.chip self.now.network t) }
    {
        step_laws();
        match self.expected(t) {
            Some(name) => self.routers.holds_local(t, name),
            None => false,
        }
    }
}

impl OrderedNet {
    // The next request of a tile, if it is one.
    fn next_request(&self, t: u8, kind: Kind, line: u16) -> Option<Request>
        ensures { result ≡ option_map (λ interface. next_request t interface kind line)
            (slice_get self.now.network.interfaces t) }
    {
        let number = *self.made.get(usize::from(t))?;
        Some(Request {
            source: t,
            number,
            kind,
            line,
        })
    }

    // The request that a tile expects next: its source and its number.
    fn expected(&self, t: u8) -> Option<(u8, u32)>
        ensures { result ≡ expected_at self.now.chip self.now.network t }
    {
        expected_by(&self.trackers, t)
    }

    // Whether the channel at the end of a way takes the copy in. What is expected there is asked only where that is the
    // reserved one.
    fn takes_in(&self, way: Way) -> bool
        ensures { result ≡ takes_in way (expected_at self.now.chip self.now.network way.to) }
    {
        !way.entry.is_reserved || way.is_open(self.expected(way.to))
    }

    /// How many windows have closed: each has ordered a request at least.
    pub fn closed_count(&self) -> u64
        ensures count { result ≡ length self.now.network.windows.closed }
        ensures few { result ≤ length self.now.network.ordered }
    {
        self.windows.closed().len() as u64
    }
}
