ghost use Rattle.std.specs.Prelude.{◌≡◌, ℕ, Some, slice_get};
ghost use Rattle.mesh_gen.specs.declared.request.Request.{Request};
ghost use Rattle.report_text.specs.declared.event.Event.{Event};
ghost use Rattle.doc_text.specs.Doc.{Doc};
ghost use Rattle.chip_model.specs.Chip.{Chip, chip_of};
ghost use Rattle.chip_model.specs.OrderedNetwork.{OrderedNetwork, after_delivery};
ghost use Rattle.chip_model.specs.Units.{UnitState, Behaviour, in_order};
ghost use Rattle.chip_model.specs.ChipState.{ChipState, opening};
ghost use Rattle.chip_model.specs.Events.{step};
ghost use Rattle.chip_model.specs.BehaviourLaws.{KeepsLaws};
ghost use Rattle.chip_model.specs.ChipInvariant.{CoresInOrder, NetworkHolds, ProtocolHolds};
ghost use Rattle.snoop_core.specs.Requests.{OwnRequestFits};
ghost use Rattle.chip_laws.specs.DocFits.{DocFits};
ghost use Rattle.chip_laws.specs.DocLaws.{DocLaws};
ghost use Rattle.chip_laws.specs.Meetings.{ArrivalsFit, DeliveriesFit, NodesHold, UnitsFit, UnitsKeepShape};
ghost use Rattle.chip_laws.specs.MessageLaws.{MessageLaws};
ghost use Rattle.chip_laws.specs.Parts.{WritersHold, GetsAreSupplied};
ghost use Rattle.chip_laws.specs.QueuedMessages.{QueuesFit};

/// The laws that a kind of core keeps. At run time it does nothing.
pub fn behaviour_laws()
    ensures { KeepsLaws in_order }
{}

/// The units of a chip, whatever its cores are: what holds of each before any event, and after every event. At run time
/// it does nothing.
pub fn unit_laws()
    // Each is one that its kind of core comes to.
    ensures opened { (b : Behaviour) (laws : KeepsLaws b) (d : Doc) → DocFits d
        → UnitsFit b laws (opening d) }
    ensures kept { (b : Behaviour) (laws : KeepsLaws b) (chip : Chip) (s new : ChipState)
        (event : Event) → UnitsFit b laws s
        → step b chip s event ≡ Some new → UnitsFit b laws new }

    // Each runs its tile's program, on a core of eight registers.
    ensures shaped { (d : Doc) → UnitsKeepShape d (opening d) }
    ensures stepped { (b : Behaviour) (laws : KeepsLaws b) (d : Doc) (s new : ChipState)
        (event : Event) → UnitsFit b laws s
        → UnitsKeepShape d s → step b (chip_of d) s event ≡ Some new → UnitsKeepShape d new }
{}

/// What the laws here take from those of the two networks, for every document that fits. At run time it does nothing.
pub fn chip_network_laws()
    ensures requests { (d : Doc) → DocFits d → DocLaws d }
    ensures messages { MessageLaws }
{
    net_iface::network_laws();
    reply_net::weight_laws();
    reply_net::message_laws();
}

/// The nodes of a chip, each by itself and with its interface: its shape, what it has outstanding, who waits for its
/// demand. At run time it does nothing.
pub fn node_event_laws()
    ensures opened { (d : Doc) → NodesHold d (opening d) }
    ensures stepped { (b : Behaviour) (laws : KeepsLaws b) (d : Doc) (s new : ChipState)
        (event : Event) → DocFits d
        → ProtocolHolds d s → UnitsFit b laws s → ArrivalsFit s
        → step b (chip_of d) s event ≡ Some new → NodesHold d new }

    // What a tile delivers is the next request of the order; its own is the one of what its node waits for.
    ensures next { (d : Doc) (s : ChipState) → DocFits d → ProtocolHolds d s → DeliveriesFit d s }
    ensures own { (d : Doc) (s : ChipState) (t : ℕ) (unit : UnitState) (q : Request)
        (net : OrderedNetwork) → DocFits d
        → ProtocolHolds d s → slice_get s.units t ≡ Some unit
        → after_delivery (chip_of d) s.network t ≡ Some (q, net)
        → OwnRequestFits unit.node.tile unit.node.side q }
{
    chip_network_laws();
}

/// The two networks of a chip, whatever its cores are: what holds of them before any event, and after every event as long as
/// the messages in the queues fit. At run time it does nothing.
pub fn network_event_laws()
    ensures opened { (d : Doc) → DocFits d → NetworkHolds d (opening d) }
    ensures kept { (b : Behaviour) (d : Doc) (s new : ChipState) (event : Event)
        → NetworkHolds d s → QueuesFit d s → step b (chip_of d) s event ≡ Some new
        → NetworkHolds d new }
{
    net_iface::network_laws();
    reply_net::message_laws();
}

/// In-order cores: a demand waits for the access that comes next, and accesses come in the order of the program. At run
/// time it does nothing.
pub fn core_order_laws()
    ensures opened { (d : Doc) → CoresInOrder (opening d) }
    ensures stepped { (d : Doc) (s new : ChipState) (event : Event) → ProtocolHolds d s
        → CoresInOrder s
        → step in_order (chip_of d) s event ≡ Some new → CoresInOrder new }
{}

/// The nodes of a chip against the order: who owns each line, who may write it, when accesses are made, and who answers
/// each get. At run time it does nothing.
pub fn order_laws()
    // Ownership, writers, and that accesses are made in time.
    ensures writers_opened { (d : Doc) → WritersHold d (opening d) }
    ensures writers { (b : Behaviour) (laws : KeepsLaws b) (d : Doc) (s new : ChipState)
        (event : Event)
        → DocFits d → ProtocolHolds d s → UnitsFit b laws s
        → step b (chip_of d) s event ≡ Some new → WritersHold d new }

    // Each get is answered from exactly one place.
    ensures supplied_opened { (d : Doc) → GetsAreSupplied d (opening d) }
    ensures supplied { (b : Behaviour) (laws : KeepsLaws b) (d : Doc) (s new : ChipState)
        (event : Event)
        → DocFits d → ProtocolHolds d s → UnitsFit b laws s
        → step b (chip_of d) s event ≡ Some new → GetsAreSupplied d new }
{
    chip_network_laws();
}
