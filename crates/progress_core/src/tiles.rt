//! A sweep through the slots of one tile, by its ports, channels and sides. What the machine tells cannot happen is passed over.
ghost use Rattle.std.specs.Prelude.{◌≤◌, ◌∷◌, [], length};
ghost use Rattle.chip_model.specs.Chip.{chip_of};
ghost use Rattle.chip_model.specs.Schedules.{tile_slots};
ghost use Rattle.machine_core.specs.Slots.{own_events};
ghost use Rattle.progress_core.specs.Sweeping.{SweepsThrough};

use crate::hops::hop_from_router;
use crate::messages::{eject_messages, hop_messages};
use bound_laws::bound_laws;
use core_unit::Unit;
use machine_core::Machine;
use report_text::Event;

// Goes through all slots of a tile.
pub(crate) fn sweep_tile<U: Unit>(machine: &mut Machine<U>, t: u8, budget: u32)
    requires room { budget ≤ machine.old.room }
    requires within { length machine.old.state.journal ≤ budget }
    ensures { SweepsThrough U.behaviour budget (tile_slots (chip_of machine.old.document) t)
        machine.old machine.new }
{
    sweep_own(machine, t, budget);
    hop_from_router(machine, t, budget);
    hop_messages(machine, t, budget);
    eject_messages(machine, t, budget);
}

// Tries the events of a tile that name no channel.
fn sweep_own<U: Unit>(machine: &mut Machine<U>, t: u8, budget: u32)
    requires room { budget ≤ machine.old.room }
    requires within { length machine.old.state.journal ≤ budget }
    ensures { SweepsThrough U.behaviour budget (own_events t) machine.old machine.new }
{
    try_event(machine, Event::Core { t }, budget);
    try_event(machine, Event::Inject { t }, budget);
    try_event(machine, Event::Post { t }, budget);
    try_event(machine, Event::Take { t }, budget);
    try_event(machine, Event::Eject { t }, budget);
    try_event(machine, Event::Send { t }, budget);
}

// Does an event where it is possible and the budget is not spent.
pub(crate) fn try_event<U: Unit>(machine: &mut Machine<U>, event: Event, budget: u32)
    requires room { budget ≤ machine.old.room }
    requires within { length machine.old.state.journal ≤ budget }
    ensures { SweepsThrough U.behaviour budget (event ∷ []) machine.old machine.new }
{
    machine.progresses();
    bound_laws();
    if machine.length() < u64::from(budget) {
        let _done = machine.step(event);
    }
}
