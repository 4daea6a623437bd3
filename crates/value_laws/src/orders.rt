ghost use Rattle.std.specs.Prelude.{◌≡◌, ℕ, List, Some, take};
ghost use Rattle.report_text.specs.declared.event.Event.{Event};
ghost use Rattle.doc_text.specs.Doc.{Doc};
ghost use Rattle.chip_model.specs.Chip.{chip_of};
ghost use Rattle.chip_model.specs.Units.{Behaviour};
ghost use Rattle.chip_model.specs.ChipState.{ChipState, opening};
ghost use Rattle.chip_model.specs.Runs.{run};
ghost use Rattle.chip_model.specs.BehaviourLaws.{KeepsLaws};
ghost use Rattle.chip_model.specs.Suppliers.{delivered_at};
ghost use Rattle.net_iface.specs.OneOrder.{IsOneOrder};
ghost use Rattle.chip_laws.specs.DocFits.{DocFits};
ghost use Rattle.value_laws.specs.Deliveries.{deliveries};

/// The one order of requests, along every run of a chip. At run time it does nothing.
pub fn delivery_order_laws()
    // What a run delivers to a tile is a prefix of the order, as long as the tile's count says; so
    // of any two tiles one was delivered the first of the other's requests.
    ensures prefixes { (b : Behaviour) (laws : KeepsLaws b) (d : Doc) (events : List Event)
        (s : ChipState) (t : ℕ) → DocFits d
        → run b (chip_of d) (opening d) events ≡ Some s
        → deliveries b (chip_of d) t (Some (opening d)) events
        ≡ take (delivered_at s t) s.network.ordered }

    // The order is that of the closed windows, in which each tile's requests stand by their numbers
    // from 0 on, and so each once; no tile has delivered more than there are.
    ensures one_order { (b : Behaviour) (laws : KeepsLaws b) (d : Doc) (events : List Event)
        (s : ChipState) → DocFits d
        → run b (chip_of d) (opening d) events ≡ Some s → IsOneOrder (chip_of d) s.network }
{
    chip_laws::chip_network_laws();
    supply_laws::reachable_laws();
}
