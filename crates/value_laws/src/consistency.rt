ghost use Rattle.std.specs.Prelude.{◌≡◌, List, Some, true};
ghost use Rattle.report_text.specs.declared.event.Event.{Event};
ghost use Rattle.doc_text.specs.Doc.{Doc};
ghost use Rattle.flat_ref.specs.Execution.{IsExecution, IsWholeExecution, flat_memory};
ghost use Rattle.chip_model.specs.Chip.{chip_of};
ghost use Rattle.chip_model.specs.Units.{in_order};
ghost use Rattle.chip_model.specs.ChipState.{ChipState, opening, finished};
ghost use Rattle.chip_model.specs.Runs.{run};
ghost use Rattle.chip_model.specs.Witness.{witness};
ghost use Rattle.chip_model.specs.Reports.{final_memory};
ghost use Rattle.chip_laws.specs.DocFits.{DocFits};
ghost use Rattle.value_laws.specs.CoreRuns.{steps_done};

use crate::{reached_access_laws, sequence_laws};

/// Sequential consistency of a chip of in-order cores, for every document within its limits and every
/// list of events. At run time it does nothing.
pub fn consistency_laws()
    // What the chip has performed is, in sequence, a sequential execution of the first steps of the
    // programs.
    ensures execution { (d : Doc) (events : List Event) (s : ChipState) → DocFits d
        → run in_order (chip_of d) (opening d) events ≡ Some s
        → IsExecution d.programs d.memory (witness s) (steps_done s) }

    // Where it is finished, it is one of the whole programs, and leaves the final memory.
    ensures whole { (d : Doc) (events : List Event) (s : ChipState) → DocFits d
        → run in_order (chip_of d) (opening d) events ≡ Some s → finished s ≡ true
        → IsWholeExecution d.programs d.memory (witness s) (steps_done s) }
    ensures memory { (d : Doc) (events : List Event) (s : ChipState) → DocFits d
        → run in_order (chip_of d) (opening d) events ≡ Some s → finished s ≡ true
        → flat_memory d.programs d.memory (witness s) ≡ Some (final_memory d s) }
{
    sequence_laws();
    reached_access_laws();
}
