//! The channel of a router's port that is free for a copy.
ghost use Rattle.std.specs.Prelude.{◌≡◌};
ghost use Rattle.vc_bank.specs.Channels.{normal_slots};
ghost use Rattle.chip_model.specs.Copies.{channels_of};
ghost use Rattle.router_xy.specs.Ways.{free_entry};

use crate::way::Entry;
use chip_model::NetCopy;
use mesh_gen::Port;
use vc_bank::Bank;

// The free channel of a port, where `reserved` is the number of the reserved one.
fn entry_at(bank: &Bank<NetCopy>, reserved: u8, port: Port) -> Option<Entry>
    requires { normal_slots bank.now ≡ reserved }
    ensures { result ≡ free_entry bank.now port }
{
    match bank.lowest_free(port) {
        Some(slot) => Some(Entry {
            slot,
            is_reserved: false,
        }),
        None => bank.reserved_free(port).then_some(Entry {
            slot: reserved,
            is_reserved: true,
        }),
    }
}

// The same of a router's port.
pub(crate) fn free_entry(banks: &[Bank<NetCopy>], reserved: u8, r: u8, port: Port) -> Option<Entry>
    requires { normal_slots (channels_of banks.now r) ≡ reserved }
    ensures { result ≡ free_entry (channels_of banks.now r) port }
{
    match banks.get(usize::from(r)) {
        Some(bank) => entry_at(bank, reserved, port),
        None => None,
    }
}
