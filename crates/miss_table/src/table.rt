ghost use Rattle.std.specs.Prelude.{◌≡◌, ◌≢◌, IsSome, IsNone, false, option_map};
ghost use Rattle.chip_model.specs.Misses.{no_misses, is_demanded, is_written_back, new_demand, new_back, wanted_by_demand, wanted, marked_sent};
ghost use Rattle.chip_model.specs.Snoop.{stale_back};
ghost use Rattle.miss_table.specs.Table.{AreApart, Holds, IsInFlight, LacksWords, IsOrderedRead, TakesOneMore, IsLive, IsSentDemand, IsSentBack, ordered_at, with_early, for_once, followed_by, list_of};
ghost use Rattle.miss_table.specs.Looks.{look_of};

use crate::Look;
use crate::back_entry::BackEntry;
use crate::demand_entry::DemandEntry;
use chip_model::Pending;
use forward_list::{ForwardList, LIST_PLACES};
use mesh_gen::{Kind, Words};
use std::marker::Model;

/// What a node waits for: at most one demand and at most one write-back, of different lines.
#[derive(Drop)]
pub struct MissTable {
    demand: Option<DemandEntry>,
    back: Option<BackEntry>,
}

impl Model for MissTable {
    ghost use Rattle.chip_model.specs.Misses.{Misses};

    ghost Value = { Misses };

    ghost use Rattle.miss_table.specs.Table.{AreApart};

    ghost view = { λ table. record { demand = table.demand; back = table.back } };

    ghost invariant = { λ table. AreApart table.demand table.back };
}

impl MissTable {
    /// Nothing is waited for.
    pub fn new() -> MissTable
        ensures { result ≡ no_misses }
    {
        MissTable {
            demand: None,
            back: None,
        }
    }

    /// A demand begins, whose request is still to be sent.
    pub fn start_demand(&mut self, kind: Kind, line: u16, pending: Pending)
        requires none { IsNone self.old.demand }
        requires apart { is_written_back line self.old.back ≡ false }
        requires kind { kind ≢ Kind.PutM }
        ensures { self.new ≡ record self.old { demand = Some (new_demand kind line pending) } }
    {
        self.demand = Some(DemandEntry::new(kind, line, pending));
    }

    /// A write-back begins, whose request is still to be sent, of a line that this node owns until another one asks to
    /// write it.
    pub fn start_back(&mut self, line: u16, words: Words)
        requires none { IsNone self.old.back }
        requires apart { is_demanded line self.old.demand ≡ false }
        ensures { self.new ≡ record self.old { back = Some (new_back line words) } }
    {
        self.back = Some(BackEntry::new(line, words));
    }

    // The demand's request, where it is still to be sent.
    fn wanted_by_demand(&self) -> Option<(Kind, u16)>
        ensures { result ≡ wanted_by_demand self.now.demand }
    {
        match &self.demand {
            Some(demand) => (!demand.sent).then_some((demand.kind, demand.line)),
            None => None,
        }
    }

    /// The request that is sent next: the write-back's before the demand's.
    #[tactic(auto, unfolding(chip_model::specs::Misses::wanted))]
    pub fn wanted(&self) -> Option<(Kind, u16)>
        ensures { result ≡ wanted self.now }
    {
        match &self.back {
            Some(back) if !back.sent => Some((Kind::PutM, back.line)),
            Some(_) | None => self.wanted_by_demand(),
        }
    }

    /// The request that was wanted is sent.
    #[tactic(auto, unfolding(chip_model::specs::Misses::marked_sent))]
    pub fn mark_sent(&mut self)
        requires { IsSome (wanted self.old) }
        ensures { self.new ≡ marked_sent self.old }
    {
        match &mut self.back {
            Some(back) if !back.sent => back.mark_sent(),
            Some(_) | None => {
                if let Some(demand) = &mut self.demand {
                    demand.mark_sent();
                }
            }
        }
    }

    /// The demand's request is delivered here, at the place `g` of the order, and its words are not here.
    pub fn order_at(&mut self, g: u64)
        requires { Holds IsInFlight self.old.demand }
        ensures { self.new
            ≡ record self.old { demand = option_map (ordered_at g) self.old.demand } }
    {
        if let Some(demand) = &mut self.demand {
            demand.order_at(g);
        }
    }

    /// The demand's words come before its request was delivered here.
    pub fn put_early(&mut self, words: Words)
        requires { Holds LacksWords self.old.demand }
        ensures { self.new
            ≡ record self.old { demand = option_map (with_early words) self.old.demand } }
    {
        if let Some(demand) = &mut self.demand {
            demand.put_early(words);
        }
    }

    /// The words of the demand will serve its load, and are not kept: another tile is to write after it.
    pub fn set_once(&mut self)
        requires { Holds IsOrderedRead self.old.demand }
        ensures { self.new ≡ record self.old { demand = option_map for_once self.old.demand } }
    {
        if let Some(demand) = &mut self.demand {
            demand.set_once();
        }
    }

    /// A tile waits for the demand for its words.
    pub fn append(&mut self, tile: u8, kind: Kind)
        requires { Holds (λ demand. TakesOneMore demand LIST_PLACES) self.old.demand }
        ensures { self.new ≡ record self.old {
          demand = option_map
              (followed_by (record { tile = tile; kind = kind })) self.old.demand;
        } }
    {
        if let Some(demand) = &mut self.demand {
            demand.append(tile, kind);
        }
    }

    /// Another tile took the line that was to be given back.
    pub fn make_stale(&mut self)
        requires { Holds IsLive self.old.back }
        ensures { self.new ≡ record self.old { back = stale_back self.old.back } }
    {
        if let Some(back) = &mut self.back {
            back.make_stale();
        }
    }

    /// The demand ends. It returns the tiles that wait in its list.
    pub fn finish_demand(&mut self) -> ForwardList
        requires { Holds IsSentDemand self.old.demand }
        ensures ended { self.new ≡ record self.old { demand = None } }
        ensures list { result ≡ list_of self.old.demand }
    {
        match self.demand.take() {
            Some(demand) => demand.into_list(),
            None => ForwardList::new(),
        }
    }

    /// The write-back ends.
    pub fn finish_back(&mut self)
        requires { Holds IsSentBack self.old.back }
        ensures { self.new ≡ record self.old { back = None } }
    {
        self.back = None;
    }

    /// What stands, as plain data.
    #[tactic(auto, unfolding(crate::specs::Looks::look_of))]
    pub fn look(&self) -> Look
        ensures entries { result ≡ look_of self.now }
        ensures apart { AreApart self.now.demand self.now.back }
    {
        Look {
            demand: self.demand.as_ref().map(|demand| demand.look()),
            back: self.back.as_ref().map(|back| back.look()),
        }
    }
}
