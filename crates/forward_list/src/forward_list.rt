ghost use Rattle.std.specs.Prelude.{◌≡◌, ◌+◌, ◌<◌, ◌≤◌, ◌↔◌, [], ◌∷◌, ◌++◌, length, IsTrue};
ghost use Rattle.chip_model.specs.Misses.{ends_in_getm};
ghost use Rattle.chip_model.specs.Snoop.{data_to_all};

use crate::places::WaitingPlace;
use crate::{OutQueue, QUEUE_PLACES};
use arrayvec::ArrayVec;
use chip_model::Waiting;
use mesh_gen::{Kind, Msg, MsgKind, Words};
use std::marker::Model;

/// How many tiles may wait in one list.
pub const LIST_PLACES: usize = 64;

/// The tiles that wait for the words of a line, the first to be served first. Contracts see the list.
#[derive(Drop)]
pub struct ForwardList {
    places: ArrayVec<WaitingPlace, LIST_PLACES>,
}

impl Model for ForwardList {
    ghost use Rattle.std.specs.Prelude.{List};
    ghost use Rattle.chip_model.specs.declared.waiting.Waiting.{Waiting};

    ghost Value = { List Waiting };

    ghost view = { λ list. list.places.items };
}

impl ForwardList {
    pub fn new() -> ForwardList
        ensures { result ≡ [] }
    {
        ForwardList {
            places: ArrayVec::new(),
        }
    }

    /// A tile waits after the others. After one that is to write nobody waits here: the words go on to that tile.
    pub fn add(&mut self, tile: u8, kind: Kind)
        requires room { length self.old < LIST_PLACES }
        requires open { ¬ IsTrue (ends_in_getm self.old) }
        ensures { self.new ≡ self.old ++ record { tile = tile; kind = kind } ∷ [] }
    {
        self.places.push(WaitingPlace::new(Waiting { tile, kind }));
    }

    /// Whether the last tile that waits asked for a copy to write.
    pub fn ends_in_getm(&self) -> bool
        ensures { result ≡ ends_in_getm self.now }
    {
        match self.places.as_slice() {
            [.., last] => last.is_getm(),
            [] => false,
        }
    }

    pub fn is_empty(&self) -> bool
        ensures { IsTrue result ↔ (self.now ≡ []) }
    {
        self.places.as_slice().is_empty()
    }

    /// Queues the line's words for each tile that waits, in their order. Nobody waits afterwards.
    pub fn drain_with(&mut self, line: u16, words: Words, out: &mut OutQueue)
        requires room { length out.old + length self.old ≤ QUEUE_PLACES }
        ensures queued { out.new ≡ out.old ++ data_to_all line words self.old }
        ensures emptied { self.new ≡ [] }
    {
        queue_data(self.places.as_slice(), line, words, out);
        self.places.clear();
    }
}

// Queues the line's words for each of these tiles, in their order.
fn queue_data(places: &[WaitingPlace], line: u16, words: Words, out: &mut OutQueue)
    requires room { length out.old + length places.now ≤ QUEUE_PLACES }
    ensures queued { out.new ≡ out.old ++ data_to_all line words places.now }
{
    for place in places {
        out.push(Msg {
            to: place.waiting().tile,
            kind: MsgKind::Data,
            line,
            words,
        });
    }
}
