ghost use Rattle.std.specs.Prelude.{◌≡◌, ◌<◌, ℕ, Some, None, IsSome, IfSome, IfNone, is_none, length};
ghost use Rattle.std.specs.List.{list_all};
ghost use Rattle.mesh_gen.specs.Limits.{IsFrom};
ghost use Rattle.mesh_gen.specs.Ports.{port_number};
ghost use Rattle.vc_bank.specs.Channels.{slots_at, packet_at, with_packet, empty_channels, IsFree, normal_slots, lowest_free, IsLowestFree, reserved_free, ChangesOnly};

use crate::slots::{Slots, first_free, is_free};
use mesh_gen::Port;
use std::marker::Model;

/// The channels of a router: for each port its slots, each empty or with one packet. Contracts see a list of slots for
/// each port, by the port's number.
#[derive(Drop)]
pub struct Bank<P: Copy> {
    local: Slots<P>,
    east: Slots<P>,
    west: Slots<P>,
    north: Slots<P>,
    south: Slots<P>,
}

impl<P: Copy> Model for Bank<P> {
    ghost use Rattle.std.specs.Prelude.{[], ◌∷◌};
    ghost use Rattle.vc_bank.specs.Channels.{Channels};

    ghost Value = { Channels P };

    ghost view = { λ bank. bank.local ∷ bank.east ∷ bank.west ∷ bank.north ∷ bank.south ∷ [] };
}

impl<P: Copy> Bank<P> {
    /// Every slot is empty. Each port has `normal` slots, numbered from 0; with `reserved` each but the tile's own
    /// (`L`) has one more, number `normal`.
    pub fn new(normal: u8, reserved: bool) -> Bank<P>
        requires { IsFrom 1 8 normal }
        ensures { result ≡ empty_channels normal reserved }
    {
        let count = normal + u8::from(reserved);
        Bank {
            local: Slots::empty(normal),
            east: Slots::empty(count),
            west: Slots::empty(count),
            north: Slots::empty(count),
            south: Slots::empty(count),
        }
    }

    // The port of this name.
    fn port(&self, port: Port) -> &Slots<P>
        ensures { result.now ≡ slots_at self.now (port_number port) }
    {
        match port {
            Port::L => &self.local,
            Port::E => &self.east,
            Port::W => &self.west,
            Port::N => &self.north,
            Port::S => &self.south,
        }
    }

    // The slots of a port.
    fn slots(&self, port: Port) -> &[Option<P>]
        ensures { result.now ≡ slots_at self.now (port_number port) }
    {
        self.port(port).as_slice()
    }

    /// How many slots a port has, with the reserved one.
    pub fn slot_count(&self, port: Port) -> u8
        ensures { result ≡ length (slots_at self.now (port_number port)) }
    {
        self.port(port).count()
    }

    /// Whether no slot of a port holds a packet.
    pub fn is_vacant(&self, port: Port) -> bool
        ensures { result ≡ list_all is_none (slots_at self.now (port_number port)) }
    {
        self.port(port).is_vacant()
    }

    // How many normal slots a port has.
    fn normal(&self) -> u8
        ensures { result ≡ normal_slots self.now }
    {
        self.local.count()
    }

    /// The lowest normal slot of the port that is free.
    pub fn lowest_free(&self, port: Port) -> Option<u8>
        ensures value { result ≡ lowest_free self.now (port_number port) }
        ensures least { IfSome result (λ slot. IsLowestFree self.now (port_number port) slot) }
        ensures none { IfNone result ((slot : ℕ) → slot < normal_slots self.now
            → ¬ IsFree self.now (port_number port) slot) }
    {
        first_free(self.slots(port), self.normal())
    }

    /// Whether the port has a reserved slot that is free.
    pub fn reserved_free(&self, port: Port) -> bool
        ensures { result ≡ reserved_free self.now (port_number port) }
    {
        is_free(self.slots(port), self.normal())
    }

    /// The packet in a slot. None where the slot is empty or is not there.
    pub fn at(&self, port: Port, slot: u8) -> Option<P>
        ensures { result ≡ packet_at self.now (port_number port) slot }
    {
        self.slots(port).get(usize::from(slot)).copied().flatten()
    }

    // Puts this into a slot, if the slot is there.
    fn set(&mut self, port: Port, slot: u8, packet: Option<P>)
        ensures { self.new ≡ with_packet self.old (port_number port) slot packet }
    {
        match port {
            Port::L => self.local.write(slot, packet),
            Port::E => self.east.write(slot, packet),
            Port::W => self.west.write(slot, packet),
            Port::N => self.north.write(slot, packet),
            Port::S => self.south.write(slot, packet),
        }
    }

    /// Puts a packet into a free slot.
    pub fn put(&mut self, port: Port, slot: u8, p: P)
        requires { IsFree self.old (port_number port) slot }
        ensures put { self.new ≡ with_packet self.old (port_number port) slot (Some p) }
        ensures only { ChangesOnly self.old self.new (port_number port) slot (Some p) }
    {
        self.set(port, slot, Some(p));
    }

    /// Puts a packet in place of the one in a slot.
    pub fn replace(&mut self, port: Port, slot: u8, p: P)
        requires { IsSome (packet_at self.old (port_number port) slot) }
        ensures put { self.new ≡ with_packet self.old (port_number port) slot (Some p) }
        ensures only { ChangesOnly self.old self.new (port_number port) slot (Some p) }
    {
        self.set(port, slot, Some(p));
    }

    /// Takes the packet out of a slot, which is free from then on.
    pub fn remove(&mut self, port: Port, slot: u8) -> P
        requires { IsSome (packet_at self.old (port_number port) slot) }
        ensures packet { packet_at self.old (port_number port) slot ≡ Some result }
        ensures removed { self.new ≡ with_packet self.old (port_number port) slot None }
        ensures only { ChangesOnly self.old self.new (port_number port) slot None }
    {
        let Some(packet) = self.at(port, slot) else {
            unreachable!()
        };
        self.set(port, slot, None);
        packet
    }
}
