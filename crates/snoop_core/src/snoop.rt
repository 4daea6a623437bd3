//! What a node has for a line, and what another tile's request does by that.
ghost use Rattle.std.specs.Prelude.{◌≡◌, ◌≢◌, ◌<◌, ◌≤◌, ◌++◌, ◌∷◌, [], length, option_map};
ghost use Rattle.chip_model.specs.Misses.{Demand, Misses, ends_in_getm};
ghost use Rattle.chip_model.specs.Snoop.{holding_demand, holding_unowned, live_for, ordered_for, holding, data_to, OpenWrite};
ghost use Rattle.chip_model.specs.NodeShape.{SideFits};
ghost use Rattle.miss_table.specs.Looks.{demand_look, back_look};
ghost use Rattle.snoop_core.specs.ChipSides.{after_outcome, met_by};
ghost use Rattle.snoop_core.specs.Holdings.{told};

use crate::snooper::Snooper;
use chip_model::State;
use forward_list::{LIST_PLACES, OutQueue, QUEUE_PLACES};
use mesh_gen::{Kind, Msg, MsgKind, Request, Words};
use miss_table::{BackLook, DemandLook};

/// What a node has for a line, as far as other tiles' requests for it go: the first of these that holds.
#[derive(Clone, Copy)]
pub(crate) enum Holding {
    /// A copy that it owns, in M or O.
    OwnedCopy(Words),
    /// A write-back under which it still owns the line.
    LiveBack(Words),
    /// An ordered demand to write, after which more tiles may wait.
    OpenWrite,
    /// An ordered demand to read.
    OpenRead,
    /// A copy in S, and no ordered demand to write.
    SharedCopy,
    Nothing,
}

// What a node has for a line of which it has no owned copy.
fn unowned(back: Option<BackLook>, demand: Option<DemandLook>, line: u16, shared: bool) -> Holding
    ensures { (misses : Misses) → back ≡ option_map back_look misses.back
        → demand ≡ option_map demand_look misses.demand
        → result ≡ told (holding_unowned shared (live_for line misses.back)
        (ordered_for line misses.demand)) }
{
    match back {
        Some(back) if back.live && back.line == line => Holding::LiveBack(back.words),
        Some(_) | None => without_back(demand, line, shared),
    }
}

// The same where no live write-back of the line stands.
fn without_back(demand: Option<DemandLook>, line: u16, shared: bool) -> Holding
    ensures { (misses : Misses) → demand ≡ option_map demand_look misses.demand
        → result ≡ told (holding_unowned shared None (ordered_for line misses.demand)) }
{
    match demand {
        Some(demand) if demand.ordered.is_some() && demand.line == line => {
            of_demand(demand.kind, demand.ends_in_getm)
        }
        Some(_) | None => of_copy(shared),
    }
}

// What an ordered demand is for other tiles. Where a GetM waits after it the line goes on from that tile.
fn of_demand(kind: Kind, ends: bool) -> Holding
    ensures { (demand : Demand) → demand.kind ≡ kind → ends_in_getm demand.list ≡ ends
        → result ≡ told (holding_demand demand) }
{
    match (kind, ends) {
        (Kind::GetM, false) => Holding::OpenWrite,
        (Kind::GetM, true) => Holding::Nothing,
        (Kind::GetS | Kind::PutM, _) => Holding::OpenRead,
    }
}

// What is left where neither a write-back nor a demand counts.
fn of_copy(shared: bool) -> Holding
    ensures { result ≡ told (holding_unowned shared None None) }
{
    if shared {
        Holding::SharedCopy
    } else {
        Holding::Nothing
    }
}

// The words of a line go to the tile that asked.
fn supply(q: Request, words: Words, out: &mut OutQueue)
    requires { length out.old < QUEUE_PLACES }
    ensures { out.new ≡ out.old ++ data_to q.source q.line words ∷ [] }
{
    out.push(Msg {
        to: q.source,
        kind: MsgKind::Data,
        line: q.line,
        words,
    });
}

impl Snooper {
    // What the node has for a line.
    fn holding(&self, line: u16) -> Holding
        ensures { result ≡ told (holding self.now.chip self.now.side line) }
    {
        match self.lookup(line) {
            Some(copy) => {
                let words = copy.1;
                match copy.0 {
                    State::M | State::O => Holding::OwnedCopy(words),
                    State::S => unowned(self.back(), self.demand(), line, true),
                }
            }
            None => unowned(self.back(), self.demand(), line, false),
        }
    }

    // Another tile's request is delivered: the snoop table.
    pub(crate) fn meet(&mut self, q: Request, out: &mut OutQueue)
        requires side { SideFits self.old.chip self.old.side }
        requires room { length (out.old ++ (met_by q self.old).sends) ≤ QUEUE_PLACES }
        requires list { q.kind ≢ Kind.PutM → (demand : Demand)
            → holding self.old.chip self.old.side q.line ≡ OpenWrite demand
            → length demand.list < LIST_PLACES }
        ensures side { self.new ≡ after_outcome (met_by q self.old) self.old }
        ensures sent { out.new ≡ out.old ++ (met_by q self.old).sends }
    {
        match (self.holding(q.line), q.kind) {
            (Holding::OwnedCopy(words), Kind::GetS) => {
                supply(q, words, out);
                self.cache.install(q.line, State::O, words);
            }
            (Holding::OwnedCopy(words), Kind::GetM) => {
                supply(q, words, out);
                self.cache.drop_line(q.line);
            }
            (Holding::LiveBack(words), Kind::GetS) => supply(q, words, out),
            (Holding::LiveBack(words), Kind::GetM) => {
                supply(q, words, out);
                self.misses.make_stale();
            }
            (Holding::OpenWrite, Kind::GetS) => self.misses.append(q.source, q.kind),
            (Holding::OpenWrite, Kind::GetM) => {
                self.misses.append(q.source, q.kind);
                self.cache.drop_line(q.line);
            }
            (Holding::OpenRead, Kind::GetM) => self.misses.set_once(),
            (Holding::SharedCopy, Kind::GetM) => self.cache.drop_line(q.line),
            (Holding::OpenRead | Holding::SharedCopy | Holding::Nothing, Kind::GetS)
            | (Holding::Nothing, Kind::GetM)
            | (_, Kind::PutM) => {}
        }
    }
}
