ghost use Rattle.std.specs.Prelude.{◌+◌, ◌<◌, ◌≤◌, length};
ghost use Rattle.chip_model.specs.Chip.{chip_of};
ghost use Rattle.chip_model.specs.Schedules.{slot_count};
ghost use Rattle.pace_core.specs.Offsets.{AnswersBelow};
ghost use Rattle.progress_core.specs.Sweeping.{SweepsBetween, SweepsOnce};

use crate::tiles::{sweep_tile, try_event};
use core_unit::Unit;
use machine_core::Machine;
use pace_core::Pace;

/// Goes once through all slots from the pace's offset for this sweep, wrapping, and does each event that is possible, until the
/// budget is spent.
pub fn sweep<U: Unit, F: Fn(u64, u32) -> u32>(
    machine: &mut Machine<U>,
    pace: &Pace<F>,
    k: u64,
    budget: u32,
)
    requires below { AnswersBelow (F.pre pace.now) (F.post pace.now) }
    requires room { budget ≤ machine.old.room }
    requires within { length machine.old.state.journal ≤ budget }
    ensures swept { SweepsOnce U.behaviour (F.post pace.now) k budget machine.old machine.new }
    ensures within { length machine.new.state.journal ≤ budget }
{
    machine.progresses();
    let slots = machine.slots();
    let offset = pace.offset(k, slots);
    sweep_between(machine, offset, slots, budget);
    sweep_between(machine, 0, offset, budget);
}

// Goes through the slots from one up to another.
fn sweep_between<U: Unit>(machine: &mut Machine<U>, first: u32, last: u32, budget: u32)
    requires order { first ≤ last }
    requires slots { last ≤ slot_count (chip_of machine.old.document) }
    requires room { budget ≤ machine.old.room }
    requires within { length machine.old.state.journal ≤ budget }
    ensures swept { SweepsBetween U.behaviour budget first last machine.old machine.new }
    ensures within { length machine.new.state.journal ≤ budget }
{
    machine.progresses();
    let mut k = first;
    while k < last {
        k += pass_slots(machine, k, last, budget);
    }
}

// Tries the slots of a whole tile where these are the next ones, and else one slot: how many slots these are, at least one, and
// none from the last on.
fn pass_slots<U: Unit>(machine: &mut Machine<U>, k: u32, last: u32, budget: u32) -> u32
    requires order { k < last }
    requires slots { last ≤ slot_count (chip_of machine.old.document) }
    requires room { budget ≤ machine.old.room }
    requires within { length machine.old.state.journal ≤ budget }
    ensures some { 0 < result }
    ensures inside { k + result ≤ last }
    ensures swept { SweepsBetween U.behaviour budget k (k + result) machine.old machine.new }
    ensures within { length machine.new.state.journal ≤ budget }
{
    machine.stands();
    let each = machine.slots_each();
    if k > 0 && (k - 1) % each == 0 && each <= last - k {
        sweep_tile(machine, ((k - 1) / each) as u8, budget);
        return each;
    }
    try_slot(machine, k, budget);
    1
}

// Does the event of a slot where it is possible and the budget is not spent.
fn try_slot<U: Unit>(machine: &mut Machine<U>, k: u32, budget: u32)
    requires slot { k < slot_count (chip_of machine.old.document) }
    requires room { budget ≤ machine.old.room }
    requires within { length machine.old.state.journal ≤ budget }
    ensures { SweepsBetween U.behaviour budget k (k + 1) machine.old machine.new }
{
    let event = machine.slot(k);
    try_event(machine, event, budget);
}
