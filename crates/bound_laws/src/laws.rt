ghost use Rattle.std.specs.Prelude.{◌≡◌, ◌<◌, ◌≤◌, ◌++◌, ◌∷◌, [], ℕ, true, false, List, Some, length};
ghost use Rattle.report_text.specs.declared.event.Event.{Event};
ghost use Rattle.doc_text.specs.Doc.{Doc};
ghost use Rattle.chip_model.specs.Chip.{Chip, chip_of};
ghost use Rattle.chip_model.specs.Units.{Behaviour, in_order};
ghost use Rattle.chip_model.specs.ChipState.{ChipState, opening, finished};
ghost use Rattle.chip_model.specs.Events.{step};
ghost use Rattle.chip_model.specs.Runs.{after, enabled, run, IsReachable};
ghost use Rattle.chip_model.specs.Schedules.{bound, ends, from_offset, slots, sweeps, swept};
ghost use Rattle.chip_model.specs.Schedules.{IsForward, IsSweptTo};
ghost use Rattle.chip_model.specs.BehaviourLaws.{KeepsLaws};
ghost use Rattle.chip_model.specs.ChipInvariant.{CoresInOrder, ProtocolHolds};
ghost use Rattle.chip_laws.specs.DocFits.{DocFits};
ghost use Rattle.bound_laws.specs.Measure.{measure, Falls};
ghost use Rattle.bound_laws.specs.Sweeps.{SweepsEnd};

use chip_laws::{behaviour_laws, chip_network_laws, core_order_laws, node_event_laws};
use progress_laws::chip_progress_laws;
use supply_laws::reachable_laws;

/// How long the runs of a chip are. In-order cores whose branches and jumps all go forward take at
/// most as many events as the bound, whatever the schedule, and sweeps end for every document and
/// every kind of core. At run time it does nothing.
pub fn bound_laws()
    // Each event notes itself at the end of the journal.
    ensures noted { (b : Behaviour) (chip : Chip) (s new : ChipState) (event : Event)
        → after b chip s event ≡ Some new → new.journal ≡ s.journal ++ event ∷ [] }

    // Before any event the measure is at most the bound, and each event lowers it.
    ensures opened { (d : Doc) → measure (chip_of d) (opening d) ≤ bound d }
    ensures falls { (d : Doc) (s new : ChipState) (event : Event) → DocFits d → IsForward d
        → ProtocolHolds d s → CoresInOrder s
        → step in_order (chip_of d) s event ≡ Some new → Falls (chip_of d) s new }

    // So a run has at most as many events, and one that has as many leaves the chip finished.
    ensures bounded { (d : Doc) (events : List Event) (s : ChipState) → DocFits d → IsForward d
        → run in_order (chip_of d) (opening d) events ≡ Some s
        → length events ≤ bound d }
    ensures full { (d : Doc) (events : List Event) (s : ChipState) → DocFits d → IsForward d
        → run in_order (chip_of d) (opening d) events ≡ Some s
        → length events ≡ bound d → finished s ≡ true }

    // Whoever goes on until no event is possible ends with the chip finished, whatever the programs are.
    ensures rests { (b : Behaviour) (laws : KeepsLaws b) (d : Doc) (events : List Event)
        (s : ChipState) → DocFits d → run b (chip_of d) (opening d) events ≡ Some s
        → ((event : Event) → enabled b (chip_of d) s event ≡ false)
        → finished s ≡ true }

    // A sweep of a run that has not ended does at least one event, at whatever offset it begins.
    ensures grows { (b : Behaviour) (laws : KeepsLaws b) (d : Doc) (budget offset : ℕ)
        (s : ChipState) → DocFits d → IsReachable b d s
        → length s.journal ≤ budget → ends budget s ≡ false
        → length s.journal < length (swept b (chip_of d) budget s
        (from_offset (slots (chip_of d)) offset)).journal }

    // So whatever offsets a pace gives, the run ends after some number of sweeps.
    ensures ends { (b : Behaviour) (laws : KeepsLaws b) (d : Doc) (budget : ℕ) (pace : ℕ → ℕ)
        → DocFits d → SweepsEnd b d budget pace }

    // As many offsets as the budget has events are enough for any run.
    ensures enough { (b : Behaviour) (laws : KeepsLaws b) (d : Doc) (budget : ℕ) (offsets : List ℕ)
        → DocFits d → budget ≤ length offsets
        → ends budget (sweeps b (chip_of d) budget (opening d) offsets) ≡ true }

    // A budget of at least the bound is not what ends it: the chip is finished.
    ensures ample { (d : Doc) (budget : ℕ) (offsets : List ℕ) (s : ChipState) → DocFits d
        → IsForward d → bound d ≤ budget
        → IsSweptTo in_order d budget offsets s → finished s ≡ true }
{
    behaviour_laws();
    chip_network_laws();
    core_order_laws();
    node_event_laws();
    reachable_laws();
    chip_progress_laws();
}
