ghost use Rattle.std.specs.Prelude.{◌≡◌, ◌+◌, ◌*◌, ◌<◌, ℕ, Some, slice_get};
ghost use Rattle.mesh_gen.specs.declared.port.Port.{Port};
ghost use Rattle.report_text.specs.declared.event.Event.{Event};
ghost use Rattle.report_text.specs.declared.event.Event.TheVariants.{Hop};
ghost use Rattle.chip_model.specs.Chip.{chip_of_mesh};
ghost use Rattle.machine_core.specs.Slots.{own_events};
ghost use Rattle.chip_model.specs.Schedules.{output_ports, ports, slots, slot_count, tile_slots, slots_per_tile, router_hops, reply_events};

use mesh_gen::{Mesh, Port};
use report_text::Event;

/// The event of a slot of a mesh, by the slot's number.
pub fn slot_event(mesh: &Mesh, k: u32) -> Event
    requires { k < slot_count (chip_of_mesh mesh.now) }
    ensures { slice_get (slots (chip_of_mesh mesh.now)) k ≡ Some result }
{
    if k == 0 {
        return Event::Tick;
    }
    let each = slots_each(mesh);
    tile_slot(mesh, ((k - 1) / each) as u8, (k - 1) % each)
}

/// How many slots there are.
pub(crate) fn slot_total(mesh: &Mesh) -> u32
    ensures { result ≡ slot_count (chip_of_mesh mesh.now) }
{
    1 + u32::from(mesh.tiles()) * slots_each(mesh)
}

/// How many slots each tile has.
pub fn slots_each(mesh: &Mesh) -> u32
    ensures { result ≡ slots_per_tile (chip_of_mesh mesh.now) }
{
    22 + 20 * u32::from(mesh.vcs) + 10 * u32::from(mesh.data_vcs)
}

/// The event of a slot of a tile, by the slot's number among those of the tile. The core's event is the first.
pub fn tile_slot(mesh: &Mesh, t: u8, j: u32) -> Event
    requires { j < slots_per_tile (chip_of_mesh mesh.now) }
    ensures { slice_get (tile_slots (chip_of_mesh mesh.now) t) j ≡ Some result }
{
    let hops = 16 + 20 * u32::from(mesh.vcs);
    let channels = 5 * u32::from(mesh.data_vcs);
    if j < 6 {
        own_event(t, j)
    } else if j < 6 + hops {
        hop_event(mesh, t, j - 6)
    } else if j < 6 + hops + channels {
        let (port, slot) = reply_channel(mesh, j - 6 - hops);
        Event::DataHop { r: t, port, slot }
    } else {
        let (port, slot) = reply_channel(mesh, j - 6 - hops - channels);
        Event::DataEject { r: t, port, slot }
    }
}

// The events of a tile that name no channel.
fn own_event(t: u8, j: u32) -> Event
    requires { j < 6 }
    ensures { slice_get (own_events t) j ≡ Some result }
{
    match j {
        0 => Event::Core { t },
        1 => Event::Inject { t },
        2 => Event::Post { t },
        3 => Event::Take { t },
        4 => Event::Eject { t },
        _ => Event::Send { t },
    }
}

// The hop of a slot: each channel has one by each side.
fn hop_event(mesh: &Mesh, r: u8, j: u32) -> Event
    requires { j < 16 + 20 * mesh.now.vcs }
    ensures { slice_get (router_hops (chip_of_mesh mesh.now) r) j ≡ Some result }
{
    let (port, slot) = request_channel(mesh, j / 4);
    Event::Hop {
        r,
        port,
        slot,
        out: side(j % 4),
    }
}

// The request channel of a number: those of the router's own port come first, then those of each side with the reserved
// one.
pub(crate) fn request_channel(mesh: &Mesh, channel: u32) -> (Port, u8)
    requires { channel < 4 + 5 * mesh.now.vcs }
    ensures { (r d : ℕ) (out : Port) → slice_get output_ports d ≡ Some out
        → slice_get (router_hops (chip_of_mesh mesh.now) r) (channel * 4 + d)
        ≡ Some (Hop r result.0 result.1 out) }
{
    let vcs = u32::from(mesh.vcs);
    if channel < vcs {
        return (Port::L, channel as u8);
    }
    let rest = channel - vcs;
    (side(rest / (vcs + 1)), (rest % (vcs + 1)) as u8)
}

// The reply channel of a number.
fn reply_channel(mesh: &Mesh, j: u32) -> (Port, u8)
    requires { j < 5 * mesh.now.data_vcs }
    ensures { (event : Port → ℕ → Event)
        → slice_get (reply_events (chip_of_mesh mesh.now) event) j
        ≡ Some (event result.0 result.1) }
{
    let each = u32::from(mesh.data_vcs);
    (port_at(j / each), (j % each) as u8)
}

// The side of a number.
fn side(d: u32) -> Port
    requires { d < 4 }
    ensures { slice_get output_ports d ≡ Some result }
{
    match d {
        0 => Port::E,
        1 => Port::W,
        2 => Port::N,
        _ => Port::S,
    }
}

// The port of a number.
fn port_at(p: u32) -> Port
    requires { p < 5 }
    ensures { slice_get ports p ≡ Some result }
{
    match p {
        0 => Port::L,
        1 => Port::E,
        2 => Port::W,
        3 => Port::N,
        _ => Port::S,
    }
}
