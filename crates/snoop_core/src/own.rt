//! What the node asked for: its own request is delivered, and words come for it.
ghost use Rattle.std.specs.Prelude.{◌≡◌, ◌+◌, ◌^◌, ◌<◌, ◌≤◌, ◌++◌, ℕ, length, IsTrue};
ghost use Rattle.chip_model.specs.Cache.{lookup};
ghost use Rattle.chip_model.specs.Misses.{Demand, WriteBack};
ghost use Rattle.chip_model.specs.Snoop.{owned_words, after_snoop, after_data};
ghost use Rattle.chip_model.specs.NodeShape.{SideFits};
ghost use Rattle.snoop_core.specs.ChipSides.{after_outcome, own_get_at, own_put_of, words_for};
ghost use Rattle.snoop_core.specs.Requests.{MeetsDemand, MeetsBack, OwnRequestFits, ListHasRoom};

use crate::snooper::Snooper;
use chip_model::{Done, State};
use forward_list::{LIST_PLACES, OutQueue, QUEUE_PLACES};
use mesh_gen::{Kind, Msg, MsgKind, Request, Words};

impl Snooper {
    // The words of a copy in O.
    fn owned_words(&self, line: u16) -> Option<Words>
        ensures { result ≡ owned_words (lookup self.now.chip self.now.side.cache line) }
    {
        let (state, words) = self.lookup(line)?;
        match state {
            State::O => Some(words),
            State::M | State::S => None,
        }
    }

    // The words that are here for the demand: early data, and else, for a write, those of a copy in O.
    fn words_here(&self) -> Option<Words>
        ensures { result ≡ words_for self.now.side.misses.demand self.now }
    {
        match self.demand() {
            Some(demand) => match demand.early {
                Some(words) => Some(words),
                None => match demand.kind {
                    Kind::GetM => self.owned_words(demand.line),
                    Kind::GetS | Kind::PutM => None,
                },
            },
            None => None,
        }
    }

    // Its own get is delivered at this place: the demand completes, or waits for its words.
    fn order_demand(&mut self, place: u64, q: Request, out: &mut OutQueue) -> Option<Done>
        requires own { MeetsDemand self.old.side q }
        requires side { SideFits self.old.chip self.old.side }
        requires place { place + 1 < 2 ^ 64 }
        requires room { length (out.old ++ (own_get_at place self.old).sends) ≤ QUEUE_PLACES }
        ensures side { self.new ≡ after_outcome (own_get_at place self.old) self.old }
        ensures sent { out.new ≡ out.old ++ (own_get_at place self.old).sends }
        ensures done { result ≡ (own_get_at place self.old).done }
    {
        match self.words_here() {
            Some(words) => self.complete(place, words, out),
            None => {
                self.misses.order_at(place);
                None
            }
        }
    }

    // Its own put is delivered: where it still owns the line, the words go home.
    fn end_back(&mut self, q: Request, out: &mut OutQueue)
        requires own { MeetsBack self.old.side q }
        requires line { q.line < self.old.chip.lines }
        requires room { length (out.old ++ (own_put_of self.old).sends) ≤ QUEUE_PLACES }
        ensures side { self.new ≡ after_outcome (own_put_of self.old) self.old }
        ensures sent { out.new ≡ out.old ++ (own_put_of self.old).sends }
    {
        if let Some(back) = self.back() {
            let (line, words) = (back.line, back.words);
            self.misses.finish_back();
            if back.live {
                out.push(Msg {
                    to: self.mesh.home(line),
                    kind: MsgKind::Back,
                    line,
                    words,
                });
            }
        }
    }

    /// A request is delivered to the tile at this place of the order.
    pub(crate) fn on_request(
        &mut self,
        tile: u8,
        place: u64,
        q: Request,
        out: &mut OutQueue,
    ) -> Option<Done>
        requires own { OwnRequestFits tile self.old.side q }
        requires side { SideFits self.old.chip self.old.side }
        requires line { q.line < self.old.chip.lines }
        requires list { ListHasRoom LIST_PLACES self.old.chip tile self.old.side q }
        requires place { place + 1 < 2 ^ 64 }
        requires room { length (out.old
            ++ (after_snoop self.old.chip tile self.old.side place q).sends) ≤ QUEUE_PLACES }
        ensures side { self.new ≡ after_outcome
            (after_snoop self.old.chip tile self.old.side place q) self.old }
        ensures sent { out.new ≡ out.old
            ++ (after_snoop self.old.chip tile self.old.side place q).sends }
        ensures done { result ≡ (after_snoop self.old.chip tile self.old.side place q).done }
    {
        if q.source != tile {
            self.meet(q, out);
            return None;
        }
        match q.kind {
            Kind::GetS | Kind::GetM => self.order_demand(place, q, out),
            Kind::PutM => {
                self.end_back(q, out);
                None
            }
        }
    }

    /// The words of the demand come.
    pub(crate) fn on_data(&mut self, words: Words, out: &mut OutQueue) -> Option<Done>
        requires sent { (demand : Demand) → self.old.side.misses.demand ≡ Some demand
            → IsTrue demand.sent }
        requires wordless { (demand : Demand) → self.old.side.misses.demand ≡ Some demand
            → demand.early ≡ None }
        requires side { SideFits self.old.chip self.old.side }
        requires place { (demand : Demand) (place : ℕ) → self.old.side.misses.demand ≡ Some demand
            → demand.ordered ≡ Some place
            → place + 1 < 2 ^ 64 }
        requires room { length (out.old ++ (after_data self.old.chip self.old.side words).sends)
            ≤ QUEUE_PLACES }
        ensures side { self.new ≡ after_outcome
            (after_data self.old.chip self.old.side words) self.old }
        ensures sent { out.new ≡ out.old ++ (after_data self.old.chip self.old.side words).sends }
        ensures done { result ≡ (after_data self.old.chip self.old.side words).done }
    {
        match self.demand() {
            Some(demand) => match demand.ordered {
                Some(place) => self.complete(place, words, out),
                None => {
                    self.misses.put_early(words);
                    None
                }
            },
            None => None,
        }
    }
}
