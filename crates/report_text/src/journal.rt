ghost use Rattle.std.specs.Prelude.{◌≡◌, length};
ghost use Rattle.report_text.specs.Journals.{AreEntryWords, events_of};

use crate::Entry;
use std::marker::Model;

/// Events, in the order in which they were done, as the packed words of entries. Contracts see the events.
#[derive(Debug, Drop)]
pub struct Journal {
    words: Vec<u64>,
    // How many events the words record.
    events: u64,
}

impl Model for Journal {
    ghost use Rattle.std.specs.Prelude.{◌≡◌, List, length};
    ghost use Rattle.report_text.specs.declared.event.Event.{Event};
    ghost use Rattle.report_text.specs.Journals.{AreEntryWords, events_of};

    ghost Value = { List Event };

    ghost view = { λ journal. events_of journal.words.items };

    ghost invariant = { λ journal. AreEntryWords journal.words.items × (journal.events ≡ length (events_of journal.words.items)) };
}

impl Journal {
    /// The journal of these words, each that of a valid entry, which record so many events.
    pub fn new(words: Vec<u64>, events: u64) -> Journal
        requires words { AreEntryWords words.items }
        requires events { events ≡ length (events_of words.items) }
        ensures { result ≡ events_of words.items }
    {
        Journal { words, events }
    }

    // The words.
    pub(crate) fn words(&self) -> &[u64]
        ensures events { events_of result.now ≡ self.now }
        ensures words { AreEntryWords result.now }
    {
        &self.words
    }

    /// How many events there are.
    pub fn length(&self) -> u64
        ensures { result ≡ length self.now }
    {
        self.events
    }
}
