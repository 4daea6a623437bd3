ghost use Rattle.std.specs.Prelude.{◌≡◌, ◌*◌, ◌<◌, ◌≤◌, ◌++◌, ℕ, List, Option, Some, length, slice_get};
ghost use Rattle.mesh_gen.specs.declared.request.Request.{Request};
ghost use Rattle.mesh_gen.specs.declared.msg.Msg.{Msg};
ghost use Rattle.chip_model.specs.declared.pending.Pending.{Pending};
ghost use Rattle.chip_model.specs.declared.owner.Owner.{Owner};
ghost use Rattle.chip_model.specs.Chip.{Chip};
ghost use Rattle.chip_model.specs.Snoop.{CacheSide, after_snoop, after_data};
ghost use Rattle.chip_model.specs.Node.{Node, Performed, opening_node, node_after_request, node_after_message, node_after_access, after_request_sent, after_message_sent};
ghost use Rattle.chip_model.specs.NodeShape.{SideFits, NodeFits};
ghost use Rattle.chip_model.specs.Ownership.{owns, is_tile, owner_after, OwnsByOrder};
ghost use Rattle.snoop_core.specs.Requests.{OwnRequestFits, DataFits};

/// The shape of a node, for every chip: it holds at the start, and every step keeps it. At run time it does nothing.
pub fn node_laws()
    ensures opened { (chip : Chip) (tile : ℕ) (memory : List ℕ)
        → NodeFits (opening_node chip tile memory) }
    ensures delivered { (q : Request) (node : Node) → OwnRequestFits node.tile node.side q
        → NodeFits node
        → NodeFits (node_after_request q node).0 }
    ensures arrived { (msg : Msg) (node : Node) → DataFits node.side msg → NodeFits node
        → NodeFits (node_after_message msg node).0 }
    ensures accessed { (access : Pending) (node : Node) (performed : Performed)
        → node_after_access access node ≡ Some performed → access.address < 4 * node.chip.lines
        → NodeFits node
        → NodeFits performed.0 }
    ensures asked { (node : Node) → NodeFits node → NodeFits (after_request_sent node) }
    ensures sent { (node : Node) → NodeFits node → NodeFits (after_message_sent node) }
{}

/// Who owns a line, for every chip: a request that is delivered changes it at the node as in the order of requests, and
/// nothing else does. At run time it does nothing.
pub fn ownership_laws()
    // One request, whatever the order is.
    ensures snooped { (chip : Chip) (tile : ℕ) (side : CacheSide) (place : ℕ) (q : Request)
        → SideFits chip side
        → OwnRequestFits tile side q → (line : ℕ) (owner : Owner)
        → owns chip side line ≡ is_tile tile owner
        → owns chip (after_snoop chip tile side place q).side line
        ≡ is_tile tile (owner_after line owner q) }
    ensures kept { (chip : Chip) (side : CacheSide) (words : List ℕ) (line : ℕ) → SideFits chip side
        → owns chip (after_data chip side words).side line ≡ owns chip side line }

    // The law against the order: at the start, when the order grows, and at every step.
    ensures opened { (ordered : List Request) (chip : Chip) (tile : ℕ) (memory : List ℕ)
        → OwnsByOrder ordered (opening_node chip tile memory) }
    ensures grown { (ordered more : List Request) (node : Node) → node.delivered ≤ length ordered
        → OwnsByOrder ordered node → OwnsByOrder (ordered ++ more) node }
    ensures delivered { (ordered : List Request) (q : Request) (node : Node)
        → slice_get ordered node.delivered ≡ Some q
        → OwnRequestFits node.tile node.side q → SideFits node.chip node.side
        → OwnsByOrder ordered node → OwnsByOrder ordered (node_after_request q node).0 }
    ensures arrived { (ordered : List Request) (msg : Msg) (node : Node)
        → SideFits node.chip node.side
        → OwnsByOrder ordered node → OwnsByOrder ordered (node_after_message msg node).0 }
    ensures accessed { (ordered : List Request) (access : Pending) (node : Node)
        (performed : Performed)
        → node_after_access access node ≡ Some performed → SideFits node.chip node.side
        → OwnsByOrder ordered node → OwnsByOrder ordered performed.0 }
    ensures asked { (ordered : List Request) (node : Node) → OwnsByOrder ordered node
        → OwnsByOrder ordered (after_request_sent node) }
    ensures sent { (ordered : List Request) (node : Node) → OwnsByOrder ordered node
        → OwnsByOrder ordered (after_message_sent node) }
{}
