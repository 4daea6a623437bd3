ghost use Rattle.std.specs.Prelude.{◌≡◌, Some};
ghost use Rattle.mesh_gen.specs.declared.request.Request.{Request};
ghost use Rattle.mesh_gen.specs.declared.msg.Msg.{Msg};
ghost use Rattle.chip_model.specs.declared.pending.Pending.{Pending};
ghost use Rattle.chip_model.specs.Misses.{Demand};
ghost use Rattle.chip_model.specs.Node.{Node, Performed, node_after_request, node_after_message, node_after_access, after_request_sent};
ghost use Rattle.chip_laws.specs.DeliveryCounts.{CountsDeliveries};
ghost use Rattle.chip_laws.specs.WaitingAccesses.{Awaits, KeepsAccess};

/// What a step of a node performs is of the kind of the access that waited, or of the one that was tried; and of its steps
/// deliveries alone are counted. At run time it does nothing.
pub fn access_laws()
    ensures delivered { (q : Request) (node : Node)
        → KeepsAccess (Awaits node) node (node_after_request q node) }
    ensures arrived { (msg : Msg) (node : Node)
        → KeepsAccess (Awaits node) node (node_after_message msg node) }
    ensures accessed { (access : Pending) (node : Node) (step : Performed)
        → node_after_access access node ≡ Some step
        → KeepsAccess (λ kind. kind ≡ access.kind) node step }
    ensures asked { (node : Node) (demand : Demand)
        → (after_request_sent node).side.misses.demand ≡ Some demand
        → Awaits node demand.pending.kind }
    ensures counted { (node : Node) → CountsDeliveries node }
{}
