//! What one copy owes.
ghost use Rattle.std.specs.Prelude.{◌≡◌};
ghost use Rattle.mesh_gen.specs.PortSets.{bits_of};
ghost use Rattle.chip_model.specs.Copies.{left_by, owes_tile, expects};

use bitflags::Flags;
use chip_model::NetCopy;
use mesh_gen::{Port, Ports, Request};

// What is left of a copy once it has left by a port.
pub(crate) fn left_by(out: Port, copy: NetCopy) -> Option<NetCopy>
    ensures { result ≡ left_by out copy }
{
    let owed = copy.owed.without(out);
    if owed.is_empty() {
        return None;
    }
    Some(NetCopy {
        request: copy.request,
        owed,
    })
}

// No port.
pub(crate) fn no_ports() -> Ports
    ensures { bits_of result ≡ 0 }
{
    Ports::from_bits_retain(0)
}

// Whether this is the request that is expected.
pub(crate) fn expects(expected: Option<(u8, u32)>, q: Request) -> bool
    ensures { result ≡ expects expected q }
{
    match expected {
        Some((source, number)) => q.source == source && q.number == number,
        None => false,
    }
}

// Whether a channel holds a copy of this request that owes the router's own tile.
pub(crate) fn owes_tile(id: (u8, u32), packet: Option<NetCopy>) -> bool
    ensures { result ≡ owes_tile id packet }
{
    match packet {
        Some(copy) => {
            copy.request.source == id.0 && copy.request.number == id.1 && copy.owed.has(Port::L)
        }
        None => false,
    }
}
