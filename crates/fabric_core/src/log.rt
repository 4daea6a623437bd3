ghost use Rattle.std.specs.Prelude.{◌≡◌, ◌+◌, ◌-◌, ◌^◌, ◌<◌, ◌≤◌, [], ◌∷◌, ◌++◌, IfOk, length};
ghost use Rattle.report_text.specs.Entry.{IsValid, packed};
ghost use Rattle.report_text.specs.Journals.{AreEntryWords, events_of};
ghost use Rattle.fabric_core.specs.Fabric.{entry_word};

use crate::Made;
use mesh_gen::NoMemory;
use report_text::{Entry, Event, Journal, entry_laws};
use std::alloc::Global;
use std::marker::Model;

/// The journal of a run that goes on, in packed words. Its room is reserved, so that no event needs memory.
#[derive(Drop)]
pub(crate) struct Log {
    words: Vec<u64>,
    // How many events the words record.
    events: u64,
    room: u64,
}

impl Model for Log {
    ghost use Rattle.std.specs.Prelude.{◌≤◌};
    ghost use Rattle.std.specs.Vec.{vec_capacity};
    ghost use Rattle.fabric_core.specs.Parts.{LogState, LogFits};

    ghost Value = { LogState };

    ghost view = { λ log. record { words = log.words.items; room = log.room } };

    ghost invariant = { λ log. LogFits (record { words = log.words.items; room = log.room }) log.events × (log.room ≤ vec_capacity log.words) };
}

impl Log {
    /// A journal with room for so many events.
    pub(crate) fn open(alloc: Global, room: u64) -> Result<Log, NoMemory>
        requires { room < 2 ^ 30 }
        ensures { IfOk result (λ log. log ≡ record { words = []; room = room }) }
    {
        Ok(Log {
            words: Vec::with_capacity(alloc, room as usize)?,
            events: 0,
            room,
        })
    }

    /// How many events there are.
    pub(crate) fn length(&self) -> u64
        ensures length { result ≡ length (events_of self.now.words) }
        ensures within { result ≤ self.now.room }
        ensures few { self.now.room < 2 ^ 30 }
        ensures words { AreEntryWords self.now.words }
        ensures entries { length self.now.words ≤ result }
    {
        entry_laws();
        self.events
    }

    /// How many words there are.
    pub(crate) fn words(&self) -> u64
        ensures { result ≡ length self.now.words }
    {
        self.words.len() as u64
    }

    /// How many more events it has room for.
    pub(crate) fn spare(&self) -> u64
        ensures { result ≡ self.now.room - length (events_of self.now.words) }
    {
        self.room - self.events
    }

    /// An event notes itself: one entry more.
    pub(crate) fn note(&mut self, who: Made, event: Event)
        requires valid { IsValid (record { by = who.by; cores = who.cores; event = event }) }
        requires room { length (events_of self.old.words) + who.cores + 1 ≤ self.old.room }
        ensures log { self.new ≡ record self.old { words = self.old.words ++ entry_word who event ∷ [] } }
        ensures events { length (events_of self.new.words) ≡ length (events_of self.old.words) + who.cores + 1 }
    {
        self.push(Entry {
            by: who.by,
            cores: who.cores,
            event,
        });
    }

    // One entry more.
    fn push(&mut self, entry: Entry)
        requires valid { IsValid entry }
        requires room { length (events_of self.old.words) + entry.cores + 1 ≤ self.old.room }
        ensures log { self.new ≡ record self.old { words = self.old.words ++ packed entry ∷ [] } }
        ensures events { length (events_of self.new.words) ≡ length (events_of self.old.words) + entry.cores + 1 }
    {
        entry_laws();
        self.words.push_reserved(entry.pack());
        self.events += u64::from(entry.cores) + 1;
    }

    /// The journal, whole.
    pub(crate) fn into_journal(self) -> Journal
        ensures { result ≡ events_of self.words }
    {
        let Log {
            words,
            events,
            room: _,
        } = self;
        Journal::new(words, events)
    }
}
