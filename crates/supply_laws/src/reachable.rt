ghost use Rattle.std.specs.Prelude.{◌≡◌, List, Some};
ghost use Rattle.report_text.specs.declared.event.Event.{Event};
ghost use Rattle.doc_text.specs.Doc.{Doc};
ghost use Rattle.chip_model.specs.Chip.{chip_of};
ghost use Rattle.chip_model.specs.Units.{Behaviour, in_order};
ghost use Rattle.chip_model.specs.ChipState.{ChipState, opening};
ghost use Rattle.chip_model.specs.Events.{step};
ghost use Rattle.chip_model.specs.Runs.{after, run};
ghost use Rattle.chip_model.specs.BehaviourLaws.{KeepsLaws};
ghost use Rattle.chip_model.specs.ChipInvariant.{CoresInOrder, ProtocolHolds};
ghost use Rattle.chip_laws.specs.DocFits.{DocFits};
ghost use Rattle.supply_laws.specs.Reachable.{StateHolds};

use crate::{get_laws, home_laws};
use chip_laws::{
    behaviour_laws, core_order_laws, network_event_laws, node_event_laws, order_laws, unit_laws,
};

/// What holds in every state that a chip reaches, for every document, every kind of core that keeps its laws and every list
/// of events. At run time it does nothing.
pub fn reachable_laws()
    // Of whatever cores: the opening, each event, also where it is noted in the journal, and so every run.
    ensures opened { (b : Behaviour) (laws : KeepsLaws b) (d : Doc) → DocFits d
        → StateHolds b laws d (opening d) }
    ensures kept { (b : Behaviour) (laws : KeepsLaws b) (d : Doc) (s new : ChipState)
        (event : Event) → DocFits d
        → StateHolds b laws d s → step b (chip_of d) s event ≡ Some new → StateHolds b laws d new }
    ensures noted { (b : Behaviour) (laws : KeepsLaws b) (d : Doc) (s new : ChipState)
        (event : Event) → DocFits d
        → StateHolds b laws d s → after b (chip_of d) s event ≡ Some new → StateHolds b laws d new }
    ensures reached { (b : Behaviour) (laws : KeepsLaws b) (d : Doc) (events : List Event)
        (s : ChipState) → DocFits d
        → run b (chip_of d) (opening d) events ≡ Some s → StateHolds b laws d s }

    // Of in-order cores.
    ensures protocol { (d : Doc) (events : List Event) (s : ChipState) → DocFits d
        → run in_order (chip_of d) (opening d) events ≡ Some s → ProtocolHolds d s }
    ensures cores { (d : Doc) (events : List Event) (s : ChipState) → DocFits d
        → run in_order (chip_of d) (opening d) events ≡ Some s → CoresInOrder s }
{
    behaviour_laws();
    unit_laws();
    network_event_laws();
    node_event_laws();
    core_order_laws();
    order_laws();
    home_laws();
    get_laws();
}
