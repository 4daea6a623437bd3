//! The steps of messages in a sweep. They are tried only at ports where some channel holds a message.
ghost use Rattle.std.specs.Prelude.{◌≤◌, length, map};
ghost use Rattle.order_tracker.specs.Order.{upwards};
ghost use Rattle.report_text.specs.declared.event.Event.TheVariants.{DataHop, DataEject};
ghost use Rattle.chip_model.specs.Chip.{chip_of};
ghost use Rattle.chip_model.specs.Schedules.{reply_events};
ghost use Rattle.progress_core.specs.Sweeping.{SweepsThrough};

use crate::tiles::try_event;
use core_unit::Unit;
use machine_core::Machine;
use mesh_gen::Port;
use report_text::Event;

// Messages go on from the channels of a router.
pub(crate) fn hop_messages<U: Unit>(machine: &mut Machine<U>, r: u8, budget: u32)
    requires room { budget ≤ machine.old.room }
    requires within { length machine.old.state.journal ≤ budget }
    ensures { SweepsThrough U.behaviour budget
        (reply_events (chip_of machine.old.document) (DataHop r)) machine.old machine.new }
{
    if machine.no_messages(r) {
        return;
    }
    let slots = machine.data_vcs();
    hop_from(machine, r, Port::L, slots, budget);
    hop_from(machine, r, Port::E, slots, budget);
    hop_from(machine, r, Port::W, slots, budget);
    hop_from(machine, r, Port::N, slots, budget);
    hop_from(machine, r, Port::S, slots, budget);
}

// Messages go on from the first channels of a port, so many of them.
fn hop_from<U: Unit>(machine: &mut Machine<U>, r: u8, port: Port, slots: u8, budget: u32)
    requires room { budget ≤ machine.old.room }
    requires within { length machine.old.state.journal ≤ budget }
    ensures { SweepsThrough U.behaviour budget (map (DataHop r port) (upwards 0 slots))
        machine.old machine.new }
{
    if machine.no_messages_at(r, port) {
        return;
    }
    for slot in 0..slots {
        try_event(machine, Event::DataHop { r, port, slot }, budget);
    }
}

// Messages come to the tile from the channels of its router.
pub(crate) fn eject_messages<U: Unit>(machine: &mut Machine<U>, r: u8, budget: u32)
    requires room { budget ≤ machine.old.room }
    requires within { length machine.old.state.journal ≤ budget }
    ensures { SweepsThrough U.behaviour budget
        (reply_events (chip_of machine.old.document) (DataEject r)) machine.old machine.new }
{
    if machine.no_messages(r) {
        return;
    }
    let slots = machine.data_vcs();
    eject_from(machine, r, Port::L, slots, budget);
    eject_from(machine, r, Port::E, slots, budget);
    eject_from(machine, r, Port::W, slots, budget);
    eject_from(machine, r, Port::N, slots, budget);
    eject_from(machine, r, Port::S, slots, budget);
}

// Messages come to the tile from the first channels of a port, so many of them.
fn eject_from<U: Unit>(machine: &mut Machine<U>, r: u8, port: Port, slots: u8, budget: u32)
    requires room { budget ≤ machine.old.room }
    requires within { length machine.old.state.journal ≤ budget }
    ensures { SweepsThrough U.behaviour budget (map (DataEject r port) (upwards 0 slots))
        machine.old machine.new }
{
    if machine.no_messages_at(r, port) {
        return;
    }
    for slot in 0..slots {
        try_event(machine, Event::DataEject { r, port, slot }, budget);
    }
}
