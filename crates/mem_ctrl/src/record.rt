ghost use Rattle.std.specs.Prelude.{◌≡◌, ◌+◌, ◌<◌, ◌≤◌, ◌∷◌, ◌++◌, [], IsTrue, length};
ghost use Rattle.chip_model.specs.Misses.{ends_in_getm};
ghost use Rattle.chip_model.specs.Snoop.{data_to, data_to_all};
ghost use Rattle.chip_model.specs.Records.{opening_record, answered_by, returned, with_waiter};
ghost use Rattle.mem_ctrl.specs.Waits.{TakesRequest};

use chip_model::Owner;
use forward_list::{ForwardList, LIST_PLACES, OutQueue, QUEUE_PLACES};
use mesh_gen::{Kind, Msg, MsgKind, Request, Words};
use std::marker::Model;

/// What the controller keeps of a line.
#[derive(Drop)]
pub(crate) struct Record {
    owner: Owner,
    words: Words,
    // Whether memory has the last words that were given back to it.
    fresh: bool,
    waiters: ForwardList,
}

impl Model for Record {
    ghost use Rattle.chip_model.specs.Records.{LineRecord};
    ghost use Rattle.mem_ctrl.specs.Waits.{WritesLast};

    ghost Value = { LineRecord };

    ghost view = { λ r. record {
      owner = r.owner;
      words = r.words;
      fresh = r.fresh;
      waiters = r.waiters;
    } };

    ghost invariant = { λ r. WritesLast r.waiters };
}

impl Record {
    // A line that no tile owns.
    pub(crate) fn new(words: Words) -> Record
        ensures { result ≡ opening_record words }
    {
        Record {
            owner: Owner::Memory,
            words,
            fresh: true,
            waiters: ForwardList::new(),
        }
    }

    pub(crate) fn told(&self) -> (Owner, Words, bool)
        ensures owner { result.0 ≡ self.now.owner }
        ensures words { result.1 ≡ self.now.words }
        ensures fresh { result.2 ≡ self.now.fresh }
    {
        (self.owner, self.words, self.fresh)
    }

    // The words go to the tile that asked.
    fn supply(&self, q: Request, out: &mut OutQueue)
        requires { length out.old < QUEUE_PLACES }
        ensures { out.new ≡ out.old ++ data_to q.source q.line self.now.words ∷ [] }
    {
        out.push(Msg {
            to: q.source,
            kind: MsgKind::Data,
            line: q.line,
            words: self.words,
        });
    }

    // The tile waits for words that are on their way back.
    fn wait(&mut self, q: Request)
        requires room { length self.old.waiters < LIST_PLACES }
        requires open { ¬ IsTrue (ends_in_getm self.old.waiters) }
        ensures { self.new ≡ with_waiter q self.old }
    {
        self.waiters.add(q.source, q.kind);
    }

    // A request for the line is delivered.
    pub(crate) fn answer(&mut self, q: Request, out: &mut OutQueue)
        requires room { length (out.old ++ (answered_by q self.old self.old.owner).sends)
            ≤ QUEUE_PLACES }
        requires waiting { TakesRequest q LIST_PLACES self.old }
        ensures left { self.new ≡ (answered_by q self.old self.old.owner).left }
        ensures sent { out.new ≡ out.old ++ (answered_by q self.old self.old.owner).sends }
    {
        match (self.owner, self.fresh, q.kind) {
            (Owner::Memory, true, Kind::GetS) => self.supply(q, out),
            (Owner::Memory, true, Kind::GetM) => {
                self.supply(q, out);
                self.owner = Owner::Tile(q.source);
                self.fresh = false;
            }
            (Owner::Memory, false, Kind::GetS) => self.wait(q),
            (Owner::Memory, false, Kind::GetM) => {
                self.wait(q);
                self.owner = Owner::Tile(q.source);
            }
            (Owner::Tile(_), _, Kind::GetM) => self.owner = Owner::Tile(q.source),
            (Owner::Tile(tile), _, Kind::PutM) if tile == q.source => self.owner = Owner::Memory,
            (Owner::Tile(_), _, Kind::GetS | Kind::PutM) | (Owner::Memory, _, Kind::PutM) => {}
        }
    }

    // The words came back: all that wait get them.
    pub(crate) fn take_back(&mut self, line: u16, words: Words, out: &mut OutQueue)
        requires { length out.old + length self.old.waiters ≤ QUEUE_PLACES }
        ensures left { self.new ≡ returned words self.old }
        ensures sent { out.new ≡ out.old ++ data_to_all line words self.old.waiters }
    {
        self.words = words;
        self.fresh = !self.waiters.ends_in_getm();
        self.waiters.drain_with(line, words, out);
    }
}
