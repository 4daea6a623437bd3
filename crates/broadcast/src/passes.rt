//! Passes through the slots of all events that move requests on.
ghost use Rattle.std.specs.Prelude.{◌≡◌, ◌+◌, ◌<◌, ◌||◌, ◌∷◌, []};
ghost use Rattle.std.specs.List.{flat_map};
ghost use Rattle.mesh_gen.specs.declared.port.Port.TheVariants.{E, W, N, S};
ghost use Rattle.mesh_gen.specs.Ports.{has};
ghost use Rattle.mesh_gen.specs.PortSets.{bits_of};
ghost use Rattle.order_tracker.specs.Order.{upwards};
ghost use Rattle.report_text.specs.declared.event.Event.TheVariants.{Take, Eject, Hop};
ghost use Rattle.chip_model.specs.Delivery.{request_slots};
ghost use Rattle.chip_model.specs.Schedules.{hops_from, router_hops};
ghost use Rattle.broadcast.specs.Sweeps.{LeavesByThese, Sweeps, Settles, tile_moves};

use mesh_gen::{Port, Ports};
use net_iface::OrderedNet;

// Whether a port to another router is among them.
fn has_side(ports: Ports) -> bool
    ensures { result ≡ (has (bits_of ports) E || (has (bits_of ports) W
        || (has (bits_of ports) N || has (bits_of ports) S))) }
{
    ports.has(Port::E) || ports.has(Port::W) || ports.has(Port::N) || ports.has(Port::S)
}

// The copy in a channel leaves by a side, where it owes it and can: whether it did. What it owes is read again only then.
fn hop(net: &mut OrderedNet, router: u8, port: Port, slot: u8, side: Port, owed: &mut Ports) -> bool
    requires { LeavesByThese net.old router port slot owed.old }
    ensures swept { Sweeps (Hop router port slot side ∷ []) net.old net.new result }
    ensures owed { LeavesByThese net.new router port slot owed.new }
{
    if !owed.has(side) {
        return false;
    }
    match net.hop(router, port, slot, side) {
        Ok(()) => {
            *owed = net.owed(router, port, slot);
            true
        }
        Err(_) => false,
    }
}

// The copy in a channel leaves by each side where it can. Most owe none.
fn hop_by_sides(net: &mut OrderedNet, router: u8, port: Port, slot: u8) -> bool
    ensures { Sweeps (hops_from router port slot) net.old net.new result }
{
    let mut owed = net.owed(router, port, slot);
    if !has_side(owed) {
        return false;
    }
    let east = hop(net, router, port, slot, Port::E, &mut owed);
    let west = hop(net, router, port, slot, Port::W, &mut owed);
    let north = hop(net, router, port, slot, Port::N, &mut owed);
    let south = hop(net, router, port, slot, Port::S, &mut owed);
    east || west || north || south
}

// The copies in the channels of a port leave where they can.
fn hop_from_port(net: &mut OrderedNet, router: u8, port: Port, slots: u8) -> bool
    ensures { Sweeps (flat_map (hops_from router port) (upwards 0 slots)) net.old net.new result }
{
    if net.is_vacant(router, port) {
        return false;
    }
    let mut moved = false;
    for slot in 0..slots {
        moved |= hop_by_sides(net, router, port, slot);
    }
    moved
}

// The copies in the channels of a router leave where they can.
fn hop_from_router(net: &mut OrderedNet, router: u8) -> bool
    ensures { Sweeps (router_hops net.old.chip router) net.old net.new result }
{
    let vcs = net.vcs();
    let own = hop_from_port(net, router, Port::L, vcs);
    let east = hop_from_port(net, router, Port::E, vcs + 1);
    let west = hop_from_port(net, router, Port::W, vcs + 1);
    let north = hop_from_port(net, router, Port::N, vcs + 1);
    let south = hop_from_port(net, router, Port::S, vcs + 1);
    own || east || west || north || south
}

// The tile takes its next vector, where it can.
fn take(net: &mut OrderedNet, t: u8) -> bool
    ensures { Sweeps (Take t ∷ []) net.old net.new result }
{
    net.take(t).is_ok()
}

// The tile delivers its next request, where it can.
fn eject(net: &mut OrderedNet, t: u8) -> bool
    ensures { Sweeps (Eject t ∷ []) net.old net.new result }
{
    net.eject(t).is_ok()
}

// A tile and its router move requests on where they can.
fn move_tile(net: &mut OrderedNet, t: u8) -> bool
    ensures { Sweeps (tile_moves net.old.chip t) net.old net.new result }
{
    let taken = take(net, t);
    let delivered = eject(net, t);
    let hopped = hop_from_router(net, t);
    taken || delivered || hopped
}

// One pass through all slots that move requests on: whether anything moved.
fn pass(net: &mut OrderedNet) -> bool
    ensures { Sweeps (request_slots net.old.chip) net.old net.new result }
{
    let mut moved = false;
    for t in 0..net.tiles() {
        moved |= move_tile(net, t);
    }
    moved
}

// Passes until nothing moves.
pub(crate) fn settle(net: &mut OrderedNet)
    ensures { Settles net.old net.new }
{
    while pass(net) {
        // What this tells bounds the moves, and so the passes.
        let _tiles = net.tiles();
    }
    net.tiles();
}
