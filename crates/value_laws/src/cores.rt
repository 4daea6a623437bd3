ghost use Rattle.std.specs.Prelude.{◌≡◌, List, Some};
ghost use Rattle.report_text.specs.declared.event.Event.{Event};
ghost use Rattle.doc_text.specs.Doc.{Doc};
ghost use Rattle.chip_model.specs.Chip.{chip_of};
ghost use Rattle.chip_model.specs.Units.{in_order};
ghost use Rattle.chip_model.specs.ChipState.{ChipState, opening};
ghost use Rattle.chip_model.specs.Events.{step};
ghost use Rattle.chip_model.specs.Runs.{run};
ghost use Rattle.chip_model.specs.ChipInvariant.{CoresInOrder, ProtocolHolds};
ghost use Rattle.chip_laws.specs.DocFits.{DocFits};
ghost use Rattle.value_laws.specs.CoreRuns.{CoresRun};

/// In-order cores by their accesses, in every state that a chip reaches. At run time it does
/// nothing.
pub fn core_run_laws()
    // Each core is what its own accesses make of a new core, and has halted only where a halt is
    // next: at the opening, and each event keeps it; so along every run.
    ensures opened { (d : Doc) → CoresRun (opening d) }
    ensures stepped { (d : Doc) (s new : ChipState) (event : Event) → ProtocolHolds d s
        → CoresInOrder s → CoresRun s
        → step in_order (chip_of d) s event ≡ Some new → CoresRun new }
    ensures reached { (d : Doc) (events : List Event) (s : ChipState) → DocFits d
        → run in_order (chip_of d) (opening d) events ≡ Some s → CoresRun s }
{
    chip_laws::behaviour_laws();
    chip_laws::core_order_laws();
    supply_laws::reachable_laws();
}
