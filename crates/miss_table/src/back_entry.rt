ghost use Rattle.std.specs.Prelude.{◌≡◌, true, false};
ghost use Rattle.chip_model.specs.Misses.{new_back};
ghost use Rattle.miss_table.specs.Looks.{back_look};

use crate::BackLook;
use mesh_gen::Words;
use std::marker::Model;

/// A line that is written back to memory.
#[derive(Drop)]
pub(crate) struct BackEntry {
    pub(crate) line: u16,
    pub(crate) words: Words,
    pub(crate) live: bool,
    pub(crate) sent: bool,
}

impl Model for BackEntry {
    ghost use Rattle.chip_model.specs.Misses.{WriteBack};

    ghost Value = { WriteBack };

    ghost view = { λ entry. record {
      line = entry.line;
      words = entry.words;
      live = entry.live;
      sent = entry.sent;
    } };
}

impl BackEntry {
    pub(crate) fn new(line: u16, words: Words) -> BackEntry
        ensures { result ≡ new_back line words }
    {
        BackEntry {
            line,
            words,
            live: true,
            sent: false,
        }
    }

    pub(crate) fn mark_sent(&mut self)
        ensures { self.new ≡ record self.old { sent = true } }
    {
        self.sent = true;
    }

    pub(crate) fn make_stale(&mut self)
        ensures { self.new ≡ record self.old { live = false } }
    {
        self.live = false;
    }

    pub(crate) fn look(&self) -> BackLook
        ensures { result ≡ back_look self.now }
    {
        BackLook {
            line: self.line,
            words: self.words,
            live: self.live,
            sent: self.sent,
        }
    }
}
