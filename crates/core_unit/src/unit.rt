ghost use Rattle.std.specs.Prelude.{◌≡◌, ◌+◌, ◌*◌, ◌^◌, ◌<◌, ◌≤◌, true, false, IfOk, OnOk, OnErr, IsSome, Some, length, slice_get};
ghost use Rattle.chip_model.specs.Chip.{chip_of_mesh, tile_count, home};
ghost use Rattle.chip_model.specs.Misses.{wanted};
ghost use Rattle.chip_model.specs.Records.{LineRecord};
ghost use Rattle.chip_model.specs.Node.{node_after_request, node_after_message, after_request_sent, after_message_sent};
ghost use Rattle.chip_model.specs.Units.{UnitState, Behaviour, opening_unit};
ghost use Rattle.chip_model.specs.BehaviourLaws.{KeepsLaws};
ghost use Rattle.core_unit.specs.Counts.{CountsOne};
ghost use Rattle.mem_ctrl.specs.Owners.{record_of};
ghost use Rattle.mem_ctrl.specs.Waits.{TakesRequest};
ghost use Rattle.snoop_core.specs.Requests.{OwnRequestFits, DataFits, ListHasRoom};

use core_isa::Program;
use forward_list::{LIST_PLACES, QUEUE_PLACES};
use mesh_gen::{Mesh, Msg, MsgKind, NoMemory, NotEnabled, Request};
use report_text::Access;
use snoop_core::Node;
use std::alloc::Global;

/// A core over the node of its tile. Whatever its core is, it keeps the laws of `chip_model`: it changes its node by the
/// node's own calls alone, and each access that the node performs is one of its own.
pub trait Unit: Sized + Send + Drop {
    /// What a unit is, as plain data.
    ghost meaning: { Self → UnitState };

    /// How such units step, and what they make of requests and messages.
    ghost behaviour: { Behaviour };

    /// A unit that has done nothing. The memory is that of the whole chip.
    fn open(
        alloc: Global,
        mesh: &Mesh,
        tile: u8,
        program: Program,
        memory: &[u32],
    ) -> Result<Self, NoMemory>
        requires tile { tile < tile_count (chip_of_mesh mesh.now) }
        requires memory { length memory.now ≡ 4 * mesh.now.lines }
        ensures { IfOk result (λ unit. meaning unit
            ≡ opening_unit (chip_of_mesh mesh.now) tile program memory.now) };

    /// Its node.
    fn node(&self) -> &Node
        ensures { result.now ≡ (meaning self.now).node };

    /// Whether a core event is possible.
    fn core_ready(&self) -> bool
        ensures { result ≡ behaviour.ready (meaning self.now) };

    /// A core event, and the access that it performed. It is not enabled where the core is not ready.
    fn core_step(&mut self) -> Result<Option<Access>, NotEnabled>
        requires steps { (meaning self.old).core.steps + 1 < 2 ^ 63 }
        ensures ok { IfOk result (λ access. behaviour.stepped (meaning self.old)
            ≡ (meaning self.new, access)) }
        ensures ready { OnOk result (behaviour.ready (meaning self.old) ≡ true) }
        ensures err { OnErr result (behaviour.ready (meaning self.old) ≡ false) }
        ensures kept { OnErr result (self.new ≡ self.old) };

    /// The next request of the order is delivered. It returns the access that is performed by that.
    fn deliver(&mut self, q: Request) -> Option<Access>
        requires source { q.source < tile_count (meaning self.old).node.chip }
        requires line { q.line < (meaning self.old).node.chip.lines }
        requires count { (meaning self.old).node.delivered + 1 < 2 ^ 63 }
        requires own { OwnRequestFits (meaning self.old).node.tile (meaning self.old).node.side q }
        requires list { ListHasRoom LIST_PLACES (meaning self.old).node.chip
            (meaning self.old).node.tile (meaning self.old).node.side q }
        requires waiting { (r : LineRecord)
            → record_of (meaning self.old).node.records q.line ≡ Some r
            → TakesRequest q LIST_PLACES r }
        requires room { length (node_after_request q (meaning self.old).node).0.out ≤ QUEUE_PLACES }
        requires steps { (meaning self.old).core.steps + 1 < 2 ^ 63 }
        ensures { behaviour.delivered q (meaning self.old) ≡ (meaning self.new, result) };

    /// A message comes to the node. It returns the access that is performed by that.
    fn receive(&mut self, m: Msg) -> Option<Access>
        requires line { m.line < (meaning self.old).node.chip.lines }
        requires awaited { DataFits (meaning self.old).node.side m }
        requires home { m.kind ≡ MsgKind.Back
            → home (meaning self.old).node.chip m.line ≡ (meaning self.old).node.tile }
        requires room { length (node_after_message m (meaning self.old).node).0.out ≤ QUEUE_PLACES }
        requires steps { (meaning self.old).core.steps + 1 < 2 ^ 63 }
        ensures { behaviour.received m (meaning self.old) ≡ (meaning self.new, result) };

    /// The request that the node wanted is sent.
    fn mark_sent(&mut self)
        requires { IsSome (wanted (meaning self.old).node.side.misses) }
        ensures { meaning self.new ≡ record
            (meaning self.old) { node = after_request_sent (meaning self.old).node } };

    /// The message that was next in the node's queue is sent.
    fn drop_out(&mut self)
        requires { IsSome (slice_get (meaning self.old).node.out 0) }
        ensures { meaning self.new ≡ record
            (meaning self.old) { node = after_message_sent (meaning self.old).node } };

    /// Whether a core event has halted the core.
    fn halted(&self) -> bool
        ensures { result ≡ (meaning self.now).halted };

    /// How many instructions the core has done.
    fn steps(&self) -> u64
        ensures { result ≡ (meaning self.now).core.steps };

    /// Such units keep the laws of a behaviour.
    ghost laws: { KeepsLaws behaviour };

    /// No call counts more than one instruction.
    ghost counts: { CountsOne behaviour };
}

/// The laws of every kind of unit. At run time it does nothing.
pub fn kind_laws<U: Unit>()
    ensures { KeepsLaws U.behaviour }
{}

/// How many instructions the steps of every kind of unit count. At run time it does nothing.
pub fn count_laws<U: Unit>()
    ensures { CountsOne U.behaviour }
{}
