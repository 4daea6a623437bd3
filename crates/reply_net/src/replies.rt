ghost use Rattle.std.specs.Prelude.{◌≡◌, ◌↔◌, ◌+◌, ◌<◌, ℕ, Some, None, IsTrue, IfOk, OnOk, OnErr, is_some, length};
ghost use Rattle.std.specs.Bool.{OnTrue};
ghost use Rattle.mesh_gen.specs.Grid.{tiles};
ghost use Rattle.mesh_gen.specs.Mesh.{grid};
ghost use Rattle.mesh_gen.specs.Ports.{port_number};
ghost use Rattle.mesh_gen.specs.Routes.{HasTiles};
ghost use Rattle.vc_bank.specs.Channels.{IsFree};
ghost use Rattle.vc_bank.specs.Places.{at, vacant};
ghost use Rattle.chip_model.specs.Copies.{channels_of};
ghost use Rattle.chip_model.specs.Replies.{no_replies, after_send, after_data_hop, after_data_eject, is_empty};
ghost use Rattle.reply_net.specs.ReplyNetwork.{total, AreOnTheirRoutes, HaveChannels, Moves};

use crate::banks::next_channel;
use mesh_gen::{Mesh, Msg, NoChannel, NoMemory, NotEnabled, Port, route_laws};
use std::alloc::Global;
use std::marker::Model;
use vc_bank::{Bank, empty_banks, free_slot, is_vacant, leave, packet_at, put_into};

/// The messages of the reply network. Contracts see the grid of its routers and the messages in their channels.
#[derive(Drop)]
pub struct Replies {
    mesh: Mesh,
    banks: Vec<Bank<Msg>>,
    // How many messages stand in the channels.
    count: u16,
}

impl Model for Replies {
    ghost use Rattle.std.specs.Prelude.{◌≡◌};
    ghost use Rattle.mesh_gen.specs.Mesh.{grid};
    ghost use Rattle.reply_net.specs.ReplyNetwork.{ReplyNetwork, RepliesFit, message_count};

    ghost Value = { ReplyNetwork };

    ghost view = { λ replies. record { grid = grid replies.mesh; messages = replies.banks.items } };

    ghost invariant = { λ replies. RepliesFit (record {
      grid = grid replies.mesh;
      messages = replies.banks.items;
    })
        × (replies.count ≡ message_count replies.banks.items) };
}

impl Replies {
    /// The network of a mesh, with no message.
    pub fn open(alloc: Global, mesh: &Mesh) -> Result<Replies, NoMemory>
        ensures { IfOk result (λ replies. replies ≡ record {
          grid = grid mesh.now;
          messages = no_replies (grid mesh.now) mesh.now.data_vcs;
        }) }
    {
        Ok(Replies {
            mesh: Mesh::of_size(alloc, mesh.cols, mesh.rows, mesh.window)?,
            banks: empty_banks(alloc, mesh.tiles(), mesh.data_vcs, false)?,
            count: 0,
        })
    }

    /// How many tiles there are. Each has a router, whose ports all have equally many channels.
    pub fn tiles(&self) -> u8
        ensures tiles { result ≡ tiles self.now.grid }
        ensures routers { length self.now.messages ≡ result }
        ensures some { HasTiles self.now.grid }
        ensures channels { HaveChannels self.now.grid self.now.messages }
    {
        self.mesh.tiles()
    }

    /// Puts a message into the lowest free channel of the local port of the router `r`. Refused exactly where `r` is no
    /// tile or that port has no free channel.
    pub fn inject(&mut self, r: u8, msg: Msg) -> Result<(), NoChannel>
        requires { msg.to < tiles self.old.grid }
        ensures ok { OnOk result (after_send self.old.messages r msg ≡ Some self.new.messages) }
        ensures err { OnErr result (after_send self.old.messages r msg ≡ None) }
        ensures kept { OnErr result (self.new ≡ self.old) }
        ensures grid { self.new.grid ≡ self.old.grid }
        ensures adds { OnOk result ((weight : Msg → ℕ)
            → total weight self.new.messages ≡ total weight self.old.messages + weight msg) }
        ensures full { OnErr result ((slot : ℕ)
            → ¬ IsFree (channels_of self.old.messages r) (port_number Port.L) slot) }
    {
        let Some(slot) = free_slot(&self.banks, r, Port::L) else {
            return Err(NoChannel);
        };
        put_into(&mut self.banks, r, Port::L, slot, msg);
        self.count += 1;
        Ok(())
    }

    /// Moves the message in a channel to the lowest free channel at the port by which its route enters the next router.
    /// Refused exactly where the channel holds no message for another tile, or that port has no free channel.
    pub fn hop(&mut self, r: u8, port: Port, slot: u8) -> Result<(), NotEnabled>
        ensures ok { OnOk result (after_data_hop self.old.grid self.old.messages r port slot
            ≡ Some self.new.messages) }
        ensures err { OnErr result (after_data_hop self.old.grid self.old.messages r port slot
            ≡ None) }
        ensures kept { OnErr result (self.new ≡ self.old) }
        ensures grid { self.new.grid ≡ self.old.grid }
        ensures keeps { (weight : Msg → ℕ)
            → total weight self.new.messages ≡ total weight self.old.messages }
        ensures moves { OnOk result (Moves self.old.grid self.old.messages self.new.messages
            (record { router = r; port = port; slot = slot })) }
    {
        route_laws();
        let Some(msg) = packet_at(&self.banks, r, port, slot) else {
            return Err(NotEnabled);
        };
        let Some(next) = next_channel(&self.mesh, &self.banks, r, msg) else {
            return Err(NotEnabled);
        };
        leave(&mut self.banks, r, port, slot, None);
        put_into(&mut self.banks, next.router, next.port, next.slot, msg);
        Ok(())
    }

    /// Takes the message out of a channel at its own tile. Refused exactly where the channel holds no message for the
    /// tile `r`.
    pub fn eject(&mut self, r: u8, port: Port, slot: u8) -> Result<Msg, NotEnabled>
        ensures ok { IfOk result (λ msg.
            after_data_eject self.old.messages r port slot ≡ Some (msg, self.new.messages)) }
        ensures err { OnErr result (after_data_eject self.old.messages r port slot ≡ None) }
        ensures kept { OnErr result (self.new ≡ self.old) }
        ensures grid { self.new.grid ≡ self.old.grid }
        ensures takes { IfOk result (λ msg. (weight : Msg → ℕ)
            → total weight self.new.messages + weight msg ≡ total weight self.old.messages) }
        ensures at_its_tile { IfOk result (λ msg. msg.to ≡ r) }
    {
        let Some(msg) = packet_at(&self.banks, r, port, slot) else {
            return Err(NotEnabled);
        };
        if msg.to != r {
            return Err(NotEnabled);
        }
        leave(&mut self.banks, r, port, slot, None);
        self.count -= 1;
        Ok(msg)
    }

    /// Whether no channel of a port of the router `r` holds a message.
    pub fn is_vacant(&self, r: u8, port: Port) -> bool
        ensures vacant { result ≡ vacant self.now.messages r (port_number port) }
        ensures none { OnTrue result ((slot : ℕ)
            → at self.now.messages r (port_number port) slot ≡ None) }
    {
        is_vacant(&self.banks, r, port)
    }

    /// Whether no message stands in any channel.
    pub fn is_empty(&self) -> bool
        ensures empty { result ≡ is_empty self.now.messages }
        ensures none { IsTrue result ↔ ((r port slot : ℕ)
            → at self.now.messages r port slot ≡ None) }
        ensures on_routes { AreOnTheirRoutes self.now.grid self.now.messages }
    {
        self.count == 0
    }

    /// Whether [`Replies::inject`] would put the message into a channel.
    pub fn can_inject(&self, r: u8, msg: Msg) -> bool
        requires { msg.to < tiles self.now.grid }
        ensures { result ≡ is_some (after_send self.now.messages r msg) }
    {
        free_slot(&self.banks, r, Port::L).is_some()
    }

    /// Whether [`Replies::hop`] would move a message.
    pub fn can_hop(&self, r: u8, port: Port, slot: u8) -> bool
        ensures { result ≡ is_some (after_data_hop self.now.grid self.now.messages r port slot) }
    {
        match packet_at(&self.banks, r, port, slot) {
            Some(msg) => next_channel(&self.mesh, &self.banks, r, msg).is_some(),
            None => false,
        }
    }

    /// Whether [`Replies::eject`] would take a message.
    pub fn can_eject(&self, r: u8, port: Port, slot: u8) -> bool
        ensures { result ≡ is_some (after_data_eject self.now.messages r port slot) }
    {
        match packet_at(&self.banks, r, port, slot) {
            Some(msg) => msg.to == r,
            None => false,
        }
    }
}
