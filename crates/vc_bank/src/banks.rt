//! The channels of all routers: for each router, by its number, a bank.
ghost use Rattle.std.specs.Prelude.{◌≡◌, ℕ, Some, None, IfOk, IsSome, replicate, slice_index_or, []};
ghost use Rattle.std.specs.Bool.{OnTrue};
ghost use Rattle.mesh_gen.specs.Limits.{IsFrom};
ghost use Rattle.mesh_gen.specs.Ports.{port_number};
ghost use Rattle.vc_bank.specs.Channels.{empty_channels, lowest_free, IsFree};
ghost use Rattle.vc_bank.specs.Places.{at, put, vacant};

use crate::Bank;
use mesh_gen::{NoMemory, Port};
use std::alloc::Global;

/// So many banks with no packet, whose ports have so many normal slots and, where it is wanted, a reserved one.
pub fn empty_banks<P: Copy>(
    alloc: Global,
    routers: u8,
    normal: u8,
    reserved: bool,
) -> Result<Vec<Bank<P>>, NoMemory>
    requires { IsFrom 1 8 normal }
    ensures { IfOk result (λ banks.
        banks.items ≡ replicate routers (empty_channels normal reserved)) }
{
    let mut banks = Vec::with_capacity(alloc, usize::from(routers))?;
    for _ in 0..routers {
        banks.push(Bank::new(normal, reserved))?;
    }
    Ok(banks)
}

/// The packet in a slot, if the slot is there and is not empty.
pub fn packet_at<P: Copy>(banks: &[Bank<P>], r: u8, port: Port, slot: u8) -> Option<P>
    ensures { result ≡ at banks.now r (port_number port) slot }
{
    match banks.get(usize::from(r)) {
        Some(bank) => bank.at(port, slot),
        None => None,
    }
}

/// Whether no slot of a router's port holds a packet.
pub fn is_vacant<P: Copy>(banks: &[Bank<P>], r: u8, port: Port) -> bool
    ensures vacant { result ≡ vacant banks.now r (port_number port) }
    ensures none { OnTrue result ((slot : ℕ) → at banks.now r (port_number port) slot ≡ None) }
{
    match banks.get(usize::from(r)) {
        Some(bank) => bank.is_vacant(port),
        None => true,
    }
}

/// The lowest normal slot of a router's port that is free.
pub fn free_slot<P: Copy>(banks: &[Bank<P>], r: u8, port: Port) -> Option<u8>
    ensures { result ≡ lowest_free (slice_index_or banks.now r []) (port_number port) }
{
    match banks.get(usize::from(r)) {
        Some(bank) => bank.lowest_free(port),
        None => None,
    }
}

/// Puts a packet into a free slot.
pub fn put_into<P: Copy>(banks: &mut Vec<Bank<P>>, r: u8, port: Port, slot: u8, packet: P)
    requires { IsFree (slice_index_or banks.old.items r []) (port_number port) slot }
    ensures { banks.new.items ≡ put banks.old.items r (port_number port) slot (Some packet) }
{
    if let Some(bank) = banks.get_mut(usize::from(r)) {
        bank.put(port, slot, packet);
    }
}

/// Leaves this in place of the packet in a slot.
pub fn leave<P: Copy>(banks: &mut Vec<Bank<P>>, r: u8, port: Port, slot: u8, left: Option<P>)
    requires { IsSome (at banks.old.items r (port_number port) slot) }
    ensures { banks.new.items ≡ put banks.old.items r (port_number port) slot left }
{
    if let Some(bank) = banks.get_mut(usize::from(r)) {
        match left {
            Some(packet) => bank.replace(port, slot, packet),
            None => {
                bank.remove(port, slot);
            }
        }
    }
}
