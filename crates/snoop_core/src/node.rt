ghost use Rattle.std.specs.Prelude.{◌≡◌, ◌≢◌, ◌+◌, ◌*◌, ◌^◌, ◌<◌, ◌≤◌, ◌↔◌, [], ℕ, IfOk, OnErr, IsTrue, IsSome, IsNone, false, length, slice_get, option_map, is_some};
ghost use Rattle.chip_model.specs.Chip.{chip_of_mesh, tile_count, home};
ghost use Rattle.chip_model.specs.Cache.{lookup};
ghost use Rattle.chip_model.specs.Misses.{wanted};
ghost use Rattle.chip_model.specs.Snoop.{done_by};
ghost use Rattle.chip_model.specs.Records.{LineRecord};
ghost use Rattle.chip_model.specs.Node.{opening_node, node_after_request, node_after_message, after_request_sent, after_message_sent, has_entry, waits_for_any, node_after_access};
ghost use Rattle.chip_model.specs.Ownership.{owns, is_tile, owner_after};
ghost use Rattle.line_cache.specs.Sets.{copy_of};
ghost use Rattle.mem_ctrl.specs.Waits.{TakesRequest};
ghost use Rattle.mem_ctrl.specs.Owners.{record_of, owner_in, next_owner, told_of};
ghost use Rattle.snoop_core.specs.Requests.{OwnRequestFits, DataFits, ListHasRoom};
ghost use Rattle.snoop_core.specs.Nodes.{NodeIsSound};
ghost use Rattle.snoop_core.specs.Outcomes.{access_performed};

use crate::Outcome;
use crate::access::Plan;
use crate::completion::{access_performed as performed_at, written};
use crate::snooper::Snooper;
use chip_model::{Done, Owner, Pending, State};
use forward_list::{LIST_PLACES, OutQueue, QUEUE_PLACES};
use mem_ctrl::Controller;
use mesh_gen::{Kind, Mesh, Msg, MsgKind, NoMemory, NotEnabled, Request, Words};
use report_text::AccessKind;
use std::alloc::Global;
use std::marker::Model;

/// The node of a tile: its cache with what it waits for, its memory controller, the messages that it is to send, and how
/// many requests were delivered to it.
#[derive(Drop)]
pub struct Node {
    pub(crate) snooper: Snooper,
    tile: u8,
    controller: Controller,
    pub(crate) out: OutQueue,
    delivered: u64,
}

impl Model for Node {
    ghost use Rattle.chip_model.specs.Node.{Node as NodeState};
    ghost use Rattle.snoop_core.specs.Nodes.{NodeIsSound};

    ghost Value = { NodeState };

    ghost view = { λ node. record {
      chip = node.snooper.chip;
      tile = node.tile;
      side = node.snooper.side;
      records = node.controller;
      out = node.out;
      delivered = node.delivered;
    } };

    ghost invariant = { λ node. NodeIsSound (record {
      chip = node.snooper.chip;
      tile = node.tile;
      side = node.snooper.side;
      records = node.controller;
      out = node.out;
      delivered = node.delivered;
    }) };
}

impl Node {
    /// A node whose cache is empty and that waits for nothing. The memory is that of the whole chip.
    pub fn open(alloc: Global, mesh: &Mesh, tile: u8, memory: &[u32]) -> Result<Node, NoMemory>
        requires tile { tile < tile_count (chip_of_mesh mesh.now) }
        requires memory { length memory.now ≡ 4 * mesh.now.lines }
        ensures { IfOk result (λ node.
            node ≡ opening_node (chip_of_mesh mesh.now) tile memory.now) }
    {
        Ok(Node {
            snooper: Snooper::open(alloc, mesh)?,
            tile,
            controller: Controller::open(alloc, mesh, tile, memory)?,
            out: OutQueue::new(),
            delivered: 0,
        })
    }

    /// Whether an access of the core waits for its words.
    pub fn has_entry(&self) -> bool
        ensures { result ≡ has_entry self.now }
    {
        self.snooper.has_demand()
    }

    /// Whether an access is possible now. What a write would write does not matter.
    pub fn can_access(&self, kind: AccessKind, address: u32, _value: u32) -> bool
        requires { address < 4 * self.now.chip.lines }
        ensures { (value : ℕ)
            → result ≡ is_some (node_after_access
            (record { kind = kind; address = address; value = value }) self.now) }
    {
        match self.plan(kind, self.snooper.line_of(address)) {
            Plan::Refuse => false,
            Plan::HitLoad(_)
            | Plan::HitStore(_)
            | Plan::Miss
            | Plan::MissWithout { .. }
            | Plan::PutBack { .. } => true,
        }
    }

    /// An access of the core. It is not enabled where another one waits for its words, where it would miss on the line
    /// that is written back, or where a write-back would have to begin while one stands or its words are still to be sent.
    pub fn access(
        &mut self,
        kind: AccessKind,
        address: u32,
        value: u32,
    ) -> Result<Outcome, NotEnabled>
        requires { address < 4 * self.old.chip.lines }
        ensures ok { IfOk result (λ outcome.
            node_after_access (record { kind = kind; address = address; value = value }) self.old
            ≡ Some (self.new, access_performed outcome)) }
        ensures err { OnErr result (node_after_access
            (record { kind = kind; address = address; value = value }) self.old ≡ None) }
        ensures kept { OnErr result (self.new ≡ self.old) }
        ensures owners { (line : ℕ)
            → owns self.new.chip self.new.side line ≡ owns self.old.chip self.old.side line }
    {
        let line = self.snooper.line_of(address);
        let pending = Pending {
            kind,
            address,
            value,
        };
        match self.plan(kind, line) {
            Plan::Refuse => Err(NotEnabled),
            Plan::HitLoad(words) => Ok(self.hit(pending, words)),
            Plan::HitStore(words) => {
                self.snooper.write(line, written(words, pending));
                Ok(self.hit(pending, words))
            }
            Plan::Miss => {
                self.snooper.start(line, pending);
                Ok(Outcome::Started)
            }
            Plan::MissWithout { leaving } => {
                self.snooper.drop_line(leaving);
                self.snooper.start(line, pending);
                Ok(Outcome::Started)
            }
            Plan::PutBack { line, words } => {
                self.snooper.put_back(line, words);
                Ok(Outcome::Started)
            }
        }
    }

    // An access that is performed now, where these words were there.
    fn hit(&self, access: Pending, words: Words) -> Outcome
        ensures { result ≡ Outcome.Hit (done_by access self.now.delivered words) }
    {
        Outcome::Hit(performed_at(access, self.delivered, words))
    }

    /// The request that is sent next: the write-back's before the demand's.
    pub fn wanted(&self) -> Option<(Kind, u16)>
        ensures { result ≡ wanted self.now.side.misses }
    {
        self.snooper.wanted()
    }

    /// The request that was wanted is sent.
    pub fn mark_sent(&mut self)
        requires { IsSome (wanted self.old.side.misses) }
        ensures sent { self.new ≡ after_request_sent self.old }
        ensures owners { (line : ℕ)
            → owns self.new.chip self.new.side line ≡ owns self.old.chip self.old.side line }
    {
        self.snooper.mark_sent();
    }

    /// The next request of the order is delivered: first to the cache, then to the controller. It returns the access that
    /// is performed by that.
    pub fn on_request(&mut self, q: Request) -> Option<Done>
        requires source { q.source < tile_count self.old.chip }
        requires line { q.line < self.old.chip.lines }
        requires count { self.old.delivered + 1 < 2 ^ 63 }
        requires own { OwnRequestFits self.old.tile self.old.side q }
        requires list { ListHasRoom LIST_PLACES self.old.chip self.old.tile self.old.side q }
        requires waiting { (r : LineRecord) → record_of self.old.records q.line ≡ Some r
            → TakesRequest q LIST_PLACES r }
        requires room { length (node_after_request q self.old).0.out ≤ QUEUE_PLACES }
        ensures node { self.new ≡ (node_after_request q self.old).0 }
        ensures done { result ≡ (node_after_request q self.old).1 }
        ensures owners { (line : ℕ) (owner : Owner)
            → owns self.old.chip self.old.side line ≡ is_tile self.old.tile owner
            → owns self.new.chip self.new.side line
            ≡ is_tile self.new.tile (owner_after line owner q) }
        ensures records { (line : ℕ)
            → owner_in self.new.records line ≡ next_owner line q (owner_in self.old.records line) }
    {
        let done = self
            .snooper
            .on_request(self.tile, self.delivered, q, &mut self.out);
        self.controller.on_request(q, &mut self.out);
        self.delivered += 1;
        done
    }

    /// A message comes: words for the demand, or words that are written back to the controller. It returns the access
    /// that is performed by that.
    pub fn on_data(&mut self, msg: Msg) -> Option<Done>
        requires line { msg.line < self.old.chip.lines }
        requires awaited { DataFits self.old.side msg }
        requires home { msg.kind ≡ MsgKind.Back → home self.old.chip msg.line ≡ self.old.tile }
        requires room { length (node_after_message msg self.old).0.out ≤ QUEUE_PLACES }
        ensures node { self.new ≡ (node_after_message msg self.old).0 }
        ensures done { result ≡ (node_after_message msg self.old).1 }
        ensures owners { (line : ℕ)
            → owns self.new.chip self.new.side line ≡ owns self.old.chip self.old.side line }
        ensures records { (line : ℕ)
            → owner_in self.new.records line ≡ owner_in self.old.records line }
    {
        match msg.kind {
            MsgKind::Data => self.snooper.on_data(msg.words, &mut self.out),
            MsgKind::Back => {
                self.controller.on_back(msg.line, msg.words, &mut self.out);
                None
            }
        }
    }

    /// The message that is sent next.
    pub fn next_out(&self) -> Option<Msg>
        ensures { result ≡ slice_get self.now.out 0 }
    {
        self.out.front()
    }

    /// The message that was next is sent.
    pub fn drop_out(&mut self)
        requires { IsSome (slice_get self.old.out 0) }
        ensures { self.new ≡ after_message_sent self.old }
    {
        self.out.pop();
    }

    /// How many requests were delivered.
    pub fn delivered(&self) -> u64
        ensures { result ≡ self.now.delivered }
    {
        self.delivered
    }

    /// The state and the words of a line in the cache. None where it is not there.
    pub fn line(&self, line: u16) -> Option<(State, Words)>
        ensures { lookup self.now.chip self.now.side.cache line ≡ option_map (copy_of line) result }
    {
        self.snooper.lookup(line)
    }

    /// Whether the node waits for nothing and has nothing to send.
    pub fn idle(&self) -> bool
        ensures idle { IsTrue result ↔ ((waits_for_any self.now ≡ false) × (self.now.out ≡ [])) }
        ensures sound { NodeIsSound self.now }
    {
        !self.snooper.has_demand() && !self.snooper.has_back() && self.out.front().is_none()
    }

    /// The owner of a line, its words in memory, and whether these are the last ones. None where the line's home is
    /// another tile.
    pub fn home_record(&self, line: u16) -> Option<(Owner, Words, bool)>
        ensures record { option_map told_of (record_of self.now.records line) ≡ result }
        ensures none { line < self.now.chip.lines
            → (IsNone result ↔ (home self.now.chip line ≢ self.now.tile)) }
    {
        self.controller.home_record(line)
    }
}
