ghost use Rattle.std.specs.Prelude.{◌≡◌, ◌↔◌, ◌≤◌, true, length};
ghost use Rattle.report_text.specs.declared.finish.Finish.TheVariants.{Finished};
ghost use Rattle.chip_model.specs.ChipState.{finished};
ghost use Rattle.chip_model.specs.Schedules.{ends};
ghost use Rattle.pace_core.specs.Offsets.{AnswersBelow};
ghost use Rattle.progress_core.specs.Sweeping.{SweepsBy};

use crate::sweeping::sweep;
use bound_laws::bound_laws;
use core_unit::{Unit, kind_laws};
use machine_core::Machine;
use pace_core::Pace;
use report_text::Finish;

/// Makes the sweeps 0, 1, 2 and so on, each from the pace's offset for it, until the machine is finished or the budget is
/// spent. It ends, since each sweep of a machine that is not finished does at least one event.
pub fn run_paced<U: Unit, F: Fn(u64, u32) -> u32>(
    machine: &mut Machine<U>,
    pace: &Pace<F>,
    budget: u32,
) -> Finish
    requires below { AnswersBelow (F.pre pace.now) (F.post pace.now) }
    requires room { budget ≤ machine.old.room }
    requires within { length machine.old.state.journal ≤ budget }
    ensures swept { SweepsBy U.behaviour (F.post pace.now) budget machine.old machine.new }
    ensures ended { ends budget machine.new.state ≡ true }
    ensures finished { (result ≡ Finished) ↔ (finished machine.new.state ≡ true) }
{
    machine.stands();
    let mut k: u64 = 0;
    loop {
        if machine.finished() {
            return Finish::Finished;
        }
        if machine.length() >= u64::from(budget) {
            return Finish::Budget;
        }
        machine.stands();
        kind_laws::<U>();
        bound_laws();
        sweep(machine, pace, k, budget);
        k += 1;
    }
}
