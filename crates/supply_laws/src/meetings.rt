ghost use Rattle.std.specs.Prelude.{◌≡◌, ℕ, ◌≤◌, Some, slice_get};
ghost use Rattle.mesh_gen.specs.declared.msg.Msg.{Msg};
ghost use Rattle.mesh_gen.specs.declared.port.Port.{Port};
ghost use Rattle.mesh_gen.specs.declared.request.Request.{Request};
ghost use Rattle.mesh_gen.specs.Limits.{most_tiles};
ghost use Rattle.vc_bank.specs.Places.{Network};
ghost use Rattle.doc_text.specs.Doc.{Doc};
ghost use Rattle.chip_model.specs.Chip.{chip_of, tile_count};
ghost use Rattle.chip_model.specs.OrderedNetwork.{OrderedNetwork, after_delivery};
ghost use Rattle.chip_model.specs.Replies.{after_data_eject};
ghost use Rattle.chip_model.specs.Units.{UnitState};
ghost use Rattle.chip_model.specs.ChipState.{ChipState};
ghost use Rattle.chip_model.specs.ChipInvariant.{ProtocolHolds};
ghost use Rattle.chip_laws.specs.DocFits.{DocFits};
ghost use Rattle.supply_laws.specs.OpenGets.{DataAnswersGets};
ghost use Rattle.supply_laws.specs.UnitCalls.{DeliveryFits, ArrivalFits};

use forward_list::{LIST_PLACES, QUEUE_PLACES};

/// What the calls of a unit ask, wherever an event makes them, in a mesh within its limits. Each tile
/// waits for one answer at most, so no list and no queue has more places for tiles than there are
/// tiles. At run time it does nothing.
pub fn meeting_laws()
    // The next request of the order is delivered to a unit.
    ensures deliver { (d : Doc) (s : ChipState) (t : ℕ) (unit : UnitState) (q : Request)
        (net : OrderedNetwork) → DocFits d → tile_count (chip_of d) ≤ most_tiles
        → ProtocolHolds d s → slice_get s.units t ≡ Some unit
        → after_delivery (chip_of d) s.network t ≡ Some (q, net)
        → DeliveryFits LIST_PLACES QUEUE_PLACES unit.node q }

    // A message comes to a unit.
    ensures receive { (d : Doc) (s : ChipState) (t : ℕ) (port : Port) (slot : ℕ)
        (unit : UnitState) (m : Msg) (replies : Network Msg) → DocFits d
        → tile_count (chip_of d) ≤ most_tiles → ProtocolHolds d s → DataAnswersGets s
        → slice_get s.units t ≡ Some unit
        → after_data_eject s.replies t port slot ≡ Some (m, replies)
        → ArrivalFits QUEUE_PLACES unit.node m }
{
    chip_laws::chip_network_laws();
}
