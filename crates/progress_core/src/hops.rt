//! The hops of copies in a sweep. One is tried only where a copy still owes the side and can leave by it.
ghost use Rattle.std.specs.Prelude.{◌≤◌, ◌∷◌, [], length};
ghost use Rattle.std.specs.List.{flat_map};
ghost use Rattle.order_tracker.specs.Order.{upwards};
ghost use Rattle.report_text.specs.declared.event.Event.TheVariants.{Hop};
ghost use Rattle.chip_model.specs.Chip.{chip_of};
ghost use Rattle.chip_model.specs.Schedules.{hops_from, router_hops};
ghost use Rattle.progress_core.specs.Sweeping.{SweepsThrough, HopsOnlyBy};

use crate::tiles::try_event;
use bitflags::Flags;
use core_unit::Unit;
use machine_core::Machine;
use mesh_gen::{Port, Ports, port_set_laws};
use report_text::Event;

// Copies hop from the channels of a router: those of its own port, and those of each side with the reserved one.
pub(crate) fn hop_from_router<U: Unit>(machine: &mut Machine<U>, r: u8, budget: u32)
    requires room { budget ≤ machine.old.room }
    requires within { length machine.old.state.journal ≤ budget }
    ensures { SweepsThrough U.behaviour budget (router_hops (chip_of machine.old.document) r)
        machine.old machine.new }
{
    if machine.no_copies(r) {
        return;
    }
    let vcs = machine.vcs();
    hop_from_port(machine, r, Port::L, vcs, budget);
    hop_from_port(machine, r, Port::E, vcs + 1, budget);
    hop_from_port(machine, r, Port::W, vcs + 1, budget);
    hop_from_port(machine, r, Port::N, vcs + 1, budget);
    hop_from_port(machine, r, Port::S, vcs + 1, budget);
}

// Copies hop from the first channels of a port, so many of them.
fn hop_from_port<U: Unit>(machine: &mut Machine<U>, r: u8, port: Port, slots: u8, budget: u32)
    requires room { budget ≤ machine.old.room }
    requires within { length machine.old.state.journal ≤ budget }
    ensures { SweepsThrough U.behaviour budget (flat_map (hops_from r port) (upwards 0 slots))
        machine.old machine.new }
{
    if machine.no_copies_at(r, port) {
        return;
    }
    for slot in 0..slots {
        hop_by_sides(machine, r, port, slot, budget);
    }
}

// The copy in a channel hops by each side where it can.
fn hop_by_sides<U: Unit>(machine: &mut Machine<U>, r: u8, port: Port, slot: u8, budget: u32)
    requires room { budget ≤ machine.old.room }
    requires within { length machine.old.state.journal ≤ budget }
    ensures { SweepsThrough U.behaviour budget (hops_from r port slot) machine.old machine.new }
{
    port_set_laws();
    let owed = machine.owed(r, port, slot);
    if owed.is_empty() {
        return;
    }
    let owed = hop(machine, owed, r, port, slot, Port::E, budget);
    let owed = hop(machine, owed, r, port, slot, Port::W, budget);
    let owed = hop(machine, owed, r, port, slot, Port::N, budget);
    hop(machine, owed, r, port, slot, Port::S, budget);
}

// The copy in a channel, which owes these ports, hops by a side where it can: the ports that the channel owes then.
fn hop<U: Unit>(
    machine: &mut Machine<U>,
    owed: Ports,
    r: u8,
    port: Port,
    slot: u8,
    side: Port,
    budget: u32,
) -> Ports
    requires room { budget ≤ machine.old.room }
    requires within { length machine.old.state.journal ≤ budget }
    requires owed { HopsOnlyBy U.behaviour machine.old r port slot owed }
    ensures swept { SweepsThrough U.behaviour budget (Hop r port slot side ∷ [])
        machine.old machine.new }
    ensures owed { HopsOnlyBy U.behaviour machine.new r port slot result }
{
    if !owed.has(side) || !machine.can_hop(r, port, slot, side) {
        return owed;
    }
    try_event(
        machine,
        Event::Hop {
            r,
            port,
            slot,
            out: side,
        },
        budget,
    );
    machine.owed(r, port, slot)
}
