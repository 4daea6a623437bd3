ghost use Rattle.std.specs.Prelude.{◌≡◌, ◌<◌, true, IsTrue, length};
ghost use Rattle.chip_model.specs.Misses.{new_demand, ends_in_getm};
ghost use Rattle.miss_table.specs.Table.{ordered_at, with_early, for_once, followed_by};
ghost use Rattle.miss_table.specs.Looks.{demand_look};

use crate::DemandLook;
use chip_model::Pending;
use forward_list::{ForwardList, LIST_PLACES};
use mesh_gen::{Kind, Words};
use std::marker::Model;

/// A line whose words an access waits for.
#[derive(Drop)]
pub(crate) struct DemandEntry {
    pub(crate) kind: Kind,
    pub(crate) line: u16,
    pub(crate) pending: Pending,
    pub(crate) sent: bool,
    pub(crate) ordered: Option<u64>,
    pub(crate) early: Option<Words>,
    pub(crate) once: bool,
    pub(crate) list: ForwardList,
}

impl Model for DemandEntry {
    ghost use Rattle.chip_model.specs.Misses.{Demand};

    ghost Value = { Demand };

    ghost view = { λ entry. record {
      kind = entry.kind;
      line = entry.line;
      pending = entry.pending;
      sent = entry.sent;
      ordered = entry.ordered;
      early = entry.early;
      once = entry.once;
      list = entry.list;
    } };
}

impl DemandEntry {
    pub(crate) fn new(kind: Kind, line: u16, pending: Pending) -> DemandEntry
        ensures { result ≡ new_demand kind line pending }
    {
        DemandEntry {
            kind,
            line,
            pending,
            sent: false,
            ordered: None,
            early: None,
            once: false,
            list: ForwardList::new(),
        }
    }

    pub(crate) fn mark_sent(&mut self)
        ensures { self.new ≡ record self.old { sent = true } }
    {
        self.sent = true;
    }

    pub(crate) fn order_at(&mut self, g: u64)
        ensures { self.new ≡ ordered_at g self.old }
    {
        self.ordered = Some(g);
    }

    pub(crate) fn put_early(&mut self, words: Words)
        ensures { self.new ≡ with_early words self.old }
    {
        self.early = Some(words);
    }

    pub(crate) fn set_once(&mut self)
        ensures { self.new ≡ for_once self.old }
    {
        self.once = true;
    }

    pub(crate) fn append(&mut self, tile: u8, kind: Kind)
        requires room { length self.old.list < LIST_PLACES }
        requires open { ¬ IsTrue (ends_in_getm self.old.list) }
        ensures { self.new ≡ followed_by (record { tile = tile; kind = kind }) self.old }
    {
        self.list.add(tile, kind);
    }

    pub(crate) fn into_list(self) -> ForwardList
        ensures { result ≡ self.list }
    {
        let DemandEntry { list, .. } = self;
        list
    }

    pub(crate) fn look(&self) -> DemandLook
        ensures { result ≡ demand_look self.now }
    {
        DemandLook {
            kind: self.kind,
            line: self.line,
            pending: self.pending,
            sent: self.sent,
            ordered: self.ordered,
            early: self.early,
            once: self.once,
            list_empty: self.list.is_empty(),
            ends_in_getm: self.list.ends_in_getm(),
        }
    }
}
