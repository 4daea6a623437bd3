ghost use Rattle.std.specs.Prelude.{◌≡◌, ◌⊎◌, true, false, List, Some, Contains};
ghost use Rattle.report_text.specs.declared.event.Event.{Event};
ghost use Rattle.doc_text.specs.Doc.{Doc};
ghost use Rattle.chip_model.specs.Chip.{chip_of};
ghost use Rattle.chip_model.specs.Units.{Behaviour};
ghost use Rattle.chip_model.specs.ChipState.{ChipState, opening, finished};
ghost use Rattle.chip_model.specs.Runs.{enabled, run};
ghost use Rattle.chip_model.specs.Schedules.{slots};
ghost use Rattle.chip_model.specs.BehaviourLaws.{KeepsLaws};
ghost use Rattle.chip_laws.specs.DocFits.{DocFits};
ghost use Rattle.supply_laws.specs.Reachable.{StateHolds};
ghost use Rattle.progress_laws.specs.Over.{IsOver};
ghost use Rattle.progress_laws.specs.Possible.{SomeIsEnabled};

use supply_laws::reachable_laws;

/// A chip of whatever cores is never stuck, and does nothing once it is finished. At run time it
/// does nothing.
pub fn chip_progress_laws()
    // Where all holds that holds of reachable states, the chip is finished or some event is possible.
    ensures never_stuck { (b : Behaviour) (laws : KeepsLaws b) (d : Doc) (s : ChipState)
        → DocFits d → StateHolds b laws d s
        → (finished s ≡ true) ⊎ SomeIsEnabled b (chip_of d) s }

    // Where it is finished none is.
    ensures stops { (b : Behaviour) (laws : KeepsLaws b) (d : Doc) (s : ChipState)
        → DocFits d → StateHolds b laws d s → finished s ≡ true
        → (event : Event) → enabled b (chip_of d) s event ≡ false }

    // Finished is: every unit is done, every request delivered, and nothing stands in a network.
    ensures over { (b : Behaviour) (laws : KeepsLaws b) (d : Doc) (s : ChipState)
        → DocFits d → StateHolds b laws d s → finished s ≡ true → IsOver s }

    // A possible event is one of the slots, so a chip of which no slot is possible is finished.
    ensures slot { (b : Behaviour) (laws : KeepsLaws b) (d : Doc) (s : ChipState)
        → StateHolds b laws d s → (event : Event)
        → enabled b (chip_of d) s event ≡ true → Contains (slots (chip_of d)) event }
    ensures swept { (b : Behaviour) (laws : KeepsLaws b) (d : Doc) (s : ChipState)
        → DocFits d → StateHolds b laws d s
        → ((event : Event) → Contains (slots (chip_of d)) event
        → enabled b (chip_of d) s event ≡ false)
        → finished s ≡ true }

    // So wherever a run has come to.
    ensures reached { (b : Behaviour) (laws : KeepsLaws b) (d : Doc) (events : List Event)
        (s : ChipState) → DocFits d → run b (chip_of d) (opening d) events ≡ Some s
        → (finished s ≡ true) ⊎ SomeIsEnabled b (chip_of d) s }
{
    reachable_laws();
}
