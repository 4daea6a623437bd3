ghost use Rattle.std.specs.Prelude.{◌≡◌, ◌<◌, ◌↔◌, [], ◌∷◌, ◌++◌, length, drop, slice_get, IsNone};
ghost use Rattle.chip_model.specs.Node.{holds_back};

use crate::places::MsgPlace;
use arrayvec::ArrayVec;
use mesh_gen::Msg;
use std::marker::Model;

/// How many messages may wait to be sent: those for a full list, and one that gives words back to memory.
pub const QUEUE_PLACES: usize = 65;

/// The messages that a node is to send, the next one first. Contracts see the list.
#[derive(Drop)]
pub struct OutQueue {
    places: ArrayVec<MsgPlace, QUEUE_PLACES>,
}

impl Model for OutQueue {
    ghost use Rattle.std.specs.Prelude.{List};
    ghost use Rattle.mesh_gen.specs.declared.msg.Msg.{Msg};

    ghost Value = { List Msg };

    ghost view = { λ queue. queue.places.items };
}

impl OutQueue {
    pub fn new() -> OutQueue
        ensures { result ≡ [] }
    {
        OutQueue {
            places: ArrayVec::new(),
        }
    }

    pub fn push(&mut self, m: Msg)
        requires { length self.old < QUEUE_PLACES }
        ensures { self.new ≡ self.old ++ m ∷ [] }
    {
        self.places.push(MsgPlace::new(m));
    }

    /// The message that is sent next.
    pub fn front(&self) -> Option<Msg>
        ensures first { result ≡ slice_get self.now 0 }
        ensures none { IsNone result ↔ (self.now ≡ []) }
    {
        Some(self.places.as_slice().first()?.msg())
    }

    /// Takes away the message that is sent next. The others move up, which at this size costs little.
    pub fn pop(&mut self)
        requires { 0 < length self.old }
        ensures { self.new ≡ drop 1 self.old }
    {
        self.places.remove(0);
    }

    /// Whether words to write back to memory are still to be sent.
    pub fn holds_back(&self) -> bool
        ensures { result ≡ holds_back self.now }
    {
        self.places.as_slice().iter().any(|place| place.is_back())
    }
}
