ghost use Rattle.std.specs.Prelude.{◌≡◌, ◌≢◌, ◌⊎◌, ℕ, Some, slice_get};
ghost use Rattle.report_text.specs.declared.event.Event.{Event};
ghost use Rattle.chip_model.specs.Chip.{Chip};
ghost use Rattle.chip_model.specs.Units.{UnitState, Behaviour};
ghost use Rattle.chip_model.specs.ChipState.{ChipState};
ghost use Rattle.chip_model.specs.Events.{step};
ghost use Rattle.chip_model.specs.Runs.{noted, after};
ghost use Rattle.chip_laws.specs.EventSteps.{ChangesUnit, EventDoes};

/// What an event does to a chip, whatever its cores are. At run time it does nothing.
pub fn event_laws()
    // By its kind: which part of the chip takes which step, and what stays as it was.
    ensures does { (b : Behaviour) (chip : Chip) (s new : ChipState) (event : Event)
        → step b chip s event ≡ Some new → EventDoes b chip s new event }

    // Where it changes the unit of a tile, each unit is that one, or was there before.
    ensures units { (s new : ChipState) (t u : ℕ) (unit changed other : UnitState)
        → ChangesUnit s new t unit changed → slice_get new.units u ≡ Some other
        → ((u ≡ t) × (changed ≡ other)) ⊎ ((u ≢ t) × (slice_get s.units u ≡ Some other)) }

    // An event that is done and noted is its step, with the event at the end of the journal.
    ensures journal { (b : Behaviour) (chip : Chip) (s new : ChipState) (event : Event)
        → after b chip s event ≡ Some new
        → (left : ChipState) × (step b chip s event ≡ Some left) × (noted event left ≡ new) }
{}
