//! The copy of a request that owes the router's own tile.
ghost use Rattle.std.specs.Prelude.{◌≡◌, length};
ghost use Rattle.std.specs.List.{position};
ghost use Rattle.mesh_gen.specs.Ports.{port_number};
ghost use Rattle.vc_bank.specs.Channels.{slots_at};
ghost use Rattle.chip_model.specs.Copies.{owes_tile, local_place_from};
ghost use Rattle.router_xy.specs.RequestNetwork.{numbered};

use crate::copies::owes_tile;
use chip_model::NetCopy;
use mesh_gen::Port;
use vc_bank::Bank;

// The first slot of a port with such a copy.
fn slot_owing(bank: &Bank<NetCopy>, port: Port, id: (u8, u32)) -> Option<u8>
    ensures { result ≡ position (owes_tile id) (slots_at bank.now (port_number port)) }
{
    if bank.is_vacant(port) {
        return None;
    }
    for slot in 0..bank.slot_count(port) {
        if owes_tile(id, bank.at(port, slot)) {
            return Some(slot);
        }
    }
    None
}

// The first place of a router with such a copy, by its port and slot.
pub(crate) fn place_owing(bank: &Bank<NetCopy>, id: (u8, u32)) -> Option<(Port, u8)>
    requires { length bank.now ≡ 5 }
    ensures { numbered result ≡ local_place_from id 0 bank.now }
{
    if let Some(slot) = slot_owing(bank, Port::L, id) {
        return Some((Port::L, slot));
    }
    if let Some(slot) = slot_owing(bank, Port::E, id) {
        return Some((Port::E, slot));
    }
    if let Some(slot) = slot_owing(bank, Port::W, id) {
        return Some((Port::W, slot));
    }
    if let Some(slot) = slot_owing(bank, Port::N, id) {
        return Some((Port::N, slot));
    }
    let slot = slot_owing(bank, Port::S, id)?;
    Some((Port::S, slot))
}
