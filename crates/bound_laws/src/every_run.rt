ghost use Rattle.std.specs.Prelude.{◌≡◌, List, Some};
ghost use Rattle.report_text.specs.declared.event.Event.{Event};
ghost use Rattle.doc_text.specs.Doc.{Doc};
ghost use Rattle.chip_model.specs.Chip.{chip_of};
ghost use Rattle.chip_model.specs.Units.{in_order};
ghost use Rattle.chip_model.specs.ChipState.{ChipState, opening};
ghost use Rattle.chip_model.specs.Runs.{run};
ghost use Rattle.chip_laws.specs.DocFits.{DocFits};
ghost use Rattle.bound_laws.specs.EveryRun.{EveryRun};

use crate::bound_laws;
use chip_laws::behaviour_laws;
use progress_laws::chip_progress_laws;
use supply_laws::reachable_laws;
use value_laws::{consistency_laws, delivery_order_laws};

/// What the project promises of a run, for every document within its limits and every list of events from its opening, each of
/// which is possible when it is done: one order of requests, one sequential execution, never stuck, and bounded. At run time
/// it does nothing.
pub fn run_laws()
    ensures { (d : Doc) (events : List Event) (s : ChipState) → DocFits d
        → run in_order (chip_of d) (opening d) events ≡ Some s → EveryRun d events s }
{
    behaviour_laws();
    reachable_laws();
    delivery_order_laws();
    consistency_laws();
    chip_progress_laws();
    bound_laws();
}
