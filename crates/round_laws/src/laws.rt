ghost use Rattle.std.specs.Prelude.{◌≡◌, ℕ, ◌+◌, ◌*◌, ◌≤◌, ◌++◌, false, List, Some, length, slice_get};
ghost use Rattle.std.specs.List.{flat_map};
ghost use Rattle.report_text.specs.declared.entry.Entry.{Entry};
ghost use Rattle.report_text.specs.declared.event.Event.{Event};
ghost use Rattle.report_text.specs.Journals.{recorded};
ghost use Rattle.doc_text.specs.Doc.{Doc};
ghost use Rattle.chip_model.specs.Chip.{Chip, chip_of};
ghost use Rattle.chip_model.specs.Units.{Behaviour};
ghost use Rattle.chip_model.specs.ChipState.{ChipState};
ghost use Rattle.chip_model.specs.Runs.{run, IsReachable};
ghost use Rattle.round_laws.specs.Turns.{TurnsLead, has_turn};
ghost use Rattle.round_laws.specs.Rounds.{IsRound};

use bound_laws::bound_laws;
use chip_laws::event_laws;
use machine_core::slot_laws;

/// Turns that come after each other, for every kind of core. At run time it does nothing.
pub fn turn_laws()
    // They are the run of the events that their entries record.
    ensures run { (b : Behaviour) (chip : Chip) (turn : ℕ) (start s : ChipState)
        (turns : List Entry) (new : ChipState) → TurnsLead b chip turn start s turns new
        → run b chip s (flat_map recorded turns) ≡ Some new }

    // A tile that has none of them keeps its unit.
    ensures others { (b : Behaviour) (chip : Chip) (turn : ℕ) (start s : ChipState)
        (turns : List Entry) (new : ChipState) (t : ℕ) → TurnsLead b chip turn start s turns new
        → has_turn turns t ≡ false → slice_get new.units t ≡ slice_get s.units t }

    // After some of them the chip is in a state from which the later ones lead on.
    ensures split { (b : Behaviour) (chip : Chip) (turn : ℕ) (start s : ChipState)
        (earlier later : List Entry) (new : ChipState)
        → TurnsLead b chip turn start s (earlier ++ later) new
        → (mid : ChipState) × TurnsLead b chip turn start s earlier mid
        × TurnsLead b chip turn start mid later new }
{
    event_laws();
    slot_laws();
}

/// What a round is, whatever the threads did, for every kind of core. At run time it does nothing.
pub fn round_laws()
    // A run: of some events, each possible in the state that those before it leave.
    ensures run { (b : Behaviour) (chip : Chip) (turn had : ℕ) (start new : ChipState)
        → IsRound b chip turn had start new
        → (events : List Event) × (run b chip start events ≡ Some new) }
    ensures reached { (b : Behaviour) (d : Doc) (turn had : ℕ) (start new : ChipState)
        → IsReachable b d start → IsRound b (chip_of d) turn had start new
        → IsReachable b d new }

    // It adds at most 17 events a tile to the journal.
    ensures grows { (b : Behaviour) (chip : Chip) (turn had : ℕ) (start new : ChipState)
        → IsRound b chip turn had start new
        → (length start.journal ≤ length new.journal)
        × (length new.journal ≤ length start.journal + 17 * length start.units) }
{
    bound_laws();
}
