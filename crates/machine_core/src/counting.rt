ghost use Rattle.std.specs.Prelude.{length};
ghost use Rattle.doc_text.specs.Doc.{Doc};
ghost use Rattle.chip_model.specs.ChipState.{ChipState};
ghost use Rattle.chip_model.specs.Runs.{IsReachable};
ghost use Rattle.chip_laws.specs.DocFits.{DocFits};
ghost use Rattle.machine_core.specs.Counts.{IsCounted};

use core_unit::Unit;

/// How much is counted in a run. At run time it does nothing.
pub fn counting_laws<U: Unit>()
    // In every state that a run reaches, no core has done more instructions, no tile has delivered
    // more requests, and no more accesses were performed, than there are events.
    ensures { (d : Doc) (s : ChipState) → DocFits d → IsReachable U.behaviour d s
        → IsCounted (length s.journal) s }
{
    core_unit::kind_laws::<U>();
    core_unit::count_laws::<U>();
    chip_laws::event_laws();
    chip_laws::tile_laws();
    chip_laws::access_laws();
    supply_laws::reachable_laws();
}
