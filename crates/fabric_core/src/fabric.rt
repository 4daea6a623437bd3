ghost use Rattle.std.specs.Prelude.{◌≡◌, ◌-◌, ◌^◌, ◌<◌, ◌≤◌, [], ◌∷◌, ◌++◌, IfOk, length};
ghost use Rattle.std.specs.List.{list_all};
ghost use Rattle.chip_model.specs.Chip.{chip_of_mesh, tile_count};
ghost use Rattle.fabric_core.specs.Fabric.{FabricState, opening_fabric, event_count, MayNote, noted, alone, has_delivered, is_idle};
ghost use Rattle.fabric_core.specs.Lists.{lists_of};
ghost use Rattle.fabric_core.specs.Parts.{NetworksFit};

use crate::log::Log;
use crate::{FabricLists, Made};
use mesh_gen::{Items, Mesh, NoMemory};
use net_iface::OrderedNet;
use reply_net::Replies;
use report_text::{Access, Event};
use std::alloc::Global;
use std::marker::Model;

/// All that the tiles of a chip share. Contracts see it as plain data.
#[derive(Drop)]
pub struct Fabric {
    pub(crate) network: OrderedNet,
    pub(crate) replies: Replies,
    pub(crate) log: Log,
    // Their room is reserved, too.
    accesses: Vec<Access>,
    pub(crate) hops: u64,
}

impl Model for Fabric {
    ghost use Rattle.std.specs.Prelude.{◌≤◌};
    ghost use Rattle.std.specs.Vec.{vec_capacity};
    ghost use Rattle.fabric_core.specs.Fabric.{FabricState};
    ghost use Rattle.fabric_core.specs.Parts.{fabric_of_parts, FabricKept};

    ghost Value = { FabricState };

    ghost view = { λ fabric. fabric_of_parts (record {
      network = fabric.network;
      replies = fabric.replies;
      log = fabric.log;
      accesses = fabric.accesses.items;
      hops = fabric.hops;
    }) };

    ghost invariant = { λ fabric. FabricKept (record {
      network = fabric.network;
      replies = fabric.replies;
      log = fabric.log;
      accesses = fabric.accesses.items;
      hops = fabric.hops;
    }) × (fabric.log.room ≤ vec_capacity fabric.accesses) };
}

impl Fabric {
    /// The fabric of a mesh before any event, with room for so many events. No other call takes memory.
    pub fn open(alloc: Global, mesh: &Mesh, room: u64) -> Result<Box<Fabric>, NoMemory>
        requires { room < 2 ^ 30 }
        ensures { IfOk result (λ fabric. fabric.value ≡ opening_fabric (chip_of_mesh mesh.now) room) }
    {
        let most_ordered = room + u64::from(mesh.tiles());
        let fabric = Fabric {
            network: OrderedNet::open(alloc, mesh, most_ordered)?,
            replies: Replies::open(alloc, mesh)?,
            log: Log::open(alloc, room)?,
            accesses: Vec::with_capacity(alloc, room as usize)?,
            hops: 0,
        };
        Ok(Box::new(alloc, fabric)?)
    }

    /// How many events there are.
    pub fn length(&self) -> u64
        ensures length { result ≡ event_count self.now }
        ensures within { result ≤ self.now.room }
        // There are tiles.
        ensures tiles { 0 < tile_count self.now.chip }
    {
        self.networks_fit();
        self.log.length()
    }

    /// How many more events the journal has room for.
    pub fn spare(&self) -> u64
        ensures { result ≡ self.now.room - event_count self.now }
    {
        self.log.spare()
    }

    // What is true of the networks at any moment: the events need it for their entries.
    pub(crate) fn networks_fit(&self)
        ensures { NetworksFit self.now }
    {
        self.network.tiles();
        self.network.vcs();
    }

    /// Whether every ordered request was delivered everywhere and no reply stands in a channel.
    pub fn idle(&self) -> bool
        ensures { result ≡ is_idle self.now }
    {
        self.all_delivered() && self.replies.is_empty()
    }

    // Whether every ordered request was delivered everywhere.
    fn all_delivered(&self) -> bool
        ensures { result ≡ list_all (has_delivered (length self.now.network.ordered)) self.now.network.interfaces }
    {
        let ordered = self.network.order().len() as u64;
        let mut all = true;
        for t in 0..self.network.tiles() {
            all = all && self.network.delivered(t) == ordered;
        }
        all
    }

    /// A core event of a tile, which touches nothing of the fabric, is noted.
    pub fn note_core(&mut self, t: u8)
        requires { MayNote (alone t) self.old }
        ensures { self.new ≡ noted (alone t) (Event.Core t) self.old }
    {
        self.networks_fit();
        self.log.note(Made { by: t, cores: 0 }, Event::Core { t });
    }

    /// An access that a core performed is noted.
    pub fn note_access(&mut self, a: Access)
        requires { length self.old.accesses < self.old.room }
        ensures { self.new ≡ record self.old { accesses = self.old.accesses ++ a ∷ [] } }
    {
        self.accesses.push_reserved(a);
    }

    /// All lists, at the end of a run.
    pub fn into_lists(self) -> FabricLists
        ensures { result ≡ lists_of self }
    {
        let Fabric {
            network,
            replies: _,
            log,
            accesses,
            hops,
        } = self;
        let windows = network.closed_count();
        let (requests, seen) = network.into_lists();
        FabricLists {
            requests,
            seen,
            accesses: Items::new(accesses),
            journal: log.into_journal(),
            windows,
            hops,
        }
    }
}
