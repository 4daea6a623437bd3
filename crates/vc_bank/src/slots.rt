//! The slots of one port.
ghost use Rattle.std.specs.Prelude.{◌≡◌, ◌≤◌, length, take, replicate, None, is_none, slice_get, slice_set};
ghost use Rattle.std.specs.List.{position, list_all};
ghost use Rattle.vc_bank.specs.Channels.{in_slot, is_there_and_free};

use arrayvec::ArrayVec;
use std::marker::Model;

/// The slots of one port: eight normal ones at most, and the reserved one. How many of them hold a packet is counted, so
/// that an empty port is told without a look at each. Contracts see the list of the slots.
#[derive(Drop)]
pub(crate) struct Slots<P: Copy> {
    slots: ArrayVec<Option<P>, 9>,
    packets: u8,
}

impl<P: Copy> Model for Slots<P> {
    ghost use Rattle.std.specs.Prelude.{◌≡◌, ◌≤◌, List, Option, length};
    ghost use Rattle.vc_bank.specs.Channels.{packet_count};

    ghost Value = { List (Option P) };

    ghost view = { λ port. port.slots.items };

    ghost invariant = { λ port. (length port.slots.items ≤ 9)
        × (port.packets ≡ packet_count port.slots.items) };
}

impl<P: Copy> Slots<P> {
    // So many empty slots.
    pub(crate) fn empty(count: u8) -> Slots<P>
        requires { count ≤ 9 }
        ensures { result ≡ replicate count None }
    {
        Slots {
            slots: empty_slots(count),
            packets: 0,
        }
    }

    // The slots, by their numbers.
    pub(crate) fn as_slice(&self) -> &[Option<P>]
        ensures { result.now ≡ self.now }
    {
        self.slots.as_slice()
    }

    // How many there are.
    pub(crate) fn count(&self) -> u8
        ensures { result ≡ length self.now }
    {
        self.slots.len() as u8
    }

    // Whether none of them holds a packet.
    pub(crate) fn is_vacant(&self) -> bool
        ensures { result ≡ list_all is_none self.now }
    {
        self.packets == 0
    }

    // Puts this into a slot, if the slot is there.
    pub(crate) fn write(&mut self, slot: u8, packet: Option<P>)
        ensures { self.new ≡ slice_set self.old slot packet }
    {
        if let Some(place) = self.slots.get_mut(usize::from(slot)) {
            let others = self.packets - in_slot(*place);
            self.packets = others + in_slot(packet);
            *place = packet;
        }
    }
}

// How many packets a slot has.
fn in_slot<P: Copy>(packet: Option<P>) -> u8
    ensures { result ≡ in_slot packet }
{
    match packet {
        Some(_) => 1,
        None => 0,
    }
}

// So many empty slots.
fn empty_slots<P: Copy>(count: u8) -> ArrayVec<Option<P>, 9>
    requires { count ≤ 9 }
    ensures { result.items ≡ replicate count None }
{
    let mut slots = ArrayVec::new();
    for _ in 0..count {
        slots.push(None);
    }
    slots
}

// Whether the slot is there, and is empty.
pub(crate) fn is_free<P: Copy>(slots: &[Option<P>], slot: u8) -> bool
    ensures { result ≡ is_there_and_free (slice_get slots.now slot) }
{
    match slots.get(usize::from(slot)) {
        Some(packet) => packet.is_none(),
        None => false,
    }
}

// The first of so many slots that is empty.
pub(crate) fn first_free<P: Copy>(slots: &[Option<P>], count: u8) -> Option<u8>
    ensures { result ≡ position is_none (take count slots.now) }
{
    for slot in 0..count {
        if is_free(slots, slot) {
            return Some(slot);
        }
    }
    None
}
