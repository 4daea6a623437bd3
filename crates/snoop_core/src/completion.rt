//! A demand that is ordered and has its words completes.
ghost use Rattle.std.specs.Prelude.{◌≡◌, ◌+◌, ◌^◌, ◌<◌, ◌≤◌, ◌++◌, Some, length, if◌then◌else◌};
ghost use Rattle.chip_model.specs.Chip.{Chip, word_of};
ghost use Rattle.chip_model.specs.Cache.{installed};
ghost use Rattle.chip_model.specs.Misses.{Demand};
ghost use Rattle.chip_model.specs.Snoop.{written_by, done_by, old_word, kept_after_store, completed_load, completed_store, data_to_all};
ghost use Rattle.chip_model.specs.NodeShape.{SideFits};
ghost use Rattle.line_cache.specs.Sets.{HasSets, Fits, copy_of};
ghost use Rattle.miss_table.specs.Table.{Holds, IsSentDemand, list_of};
ghost use Rattle.snoop_core.specs.ChipSides.{after_outcome, completion};

use crate::snooper::Snooper;
use chip_model::{Done, Pending, State};
use forward_list::{ForwardList, OutQueue, QUEUE_PLACES};
use line_cache::LineCache;
use mesh_gen::{Kind, Words};
use report_text::AccessKind;

// The place of a word in its line.
fn word_of(address: u32) -> usize
    ensures place { result ≡ word_of address }
    ensures inside { result < 4 }
{
    (address % 4) as usize
}

/// The words of a line after an access.
pub(crate) fn written(mut words: Words, access: Pending) -> Words
    ensures { result ≡ written_by access words }
{
    let place = word_of(access.address);
    words[place] = access.kind.word_after(access.value, words[place]);
    words
}

// The word before, of an access that both reads and writes.
fn old_word(kind: AccessKind, word: u32) -> u32
    ensures { result ≡ old_word kind word }
{
    if kind.reads() && kind.writes() {
        word
    } else {
        0
    }
}

/// What an access did at a time, by the words that were there.
pub(crate) fn access_performed(access: Pending, time: u64, words: Words) -> Done
    ensures { result ≡ done_by access time words }
{
    let word = words[word_of(access.address)];
    Done {
        kind: access.kind,
        address: access.address,
        value: access.kind.word_after(access.value, word),
        time,
        old: old_word(access.kind, word),
    }
}

// What stays in the cache of the words that a write left, when these tiles waited for them.
fn keep_stored(cache: &mut LineCache, line: u16, words: Words, list: &ForwardList)
    requires { Fits cache.old line }
    ensures kept { (chip : Chip) → HasSets chip cache.old
        → cache.new ≡ kept_after_store chip line words list.now cache.old }
    ensures sets { length cache.new ≡ length cache.old }
{
    if list.is_empty() {
        cache.install(line, State::M, words);
    } else if list.ends_in_getm() {
        cache.drop_line(line);
    } else {
        cache.install(line, State::O, words);
    }
}

// What stays in the cache of the words of a load. Those that serve once are not kept.
fn keep_loaded(cache: &mut LineCache, line: u16, words: Words, once: bool)
    requires { Fits cache.old line }
    ensures kept { (chip : Chip) → HasSets chip cache.old
        → cache.new ≡ (if once then cache.old else installed chip
        (copy_of line (State.S, words)) cache.old) }
    ensures sets { length cache.new ≡ length cache.old }
{
    if !once {
        cache.install(line, State::S, words);
    }
}

impl Snooper {
    // The write changes its word, and all that wait get the words after it.
    fn complete_store(
        &mut self,
        line: u16,
        pending: Pending,
        place: u64,
        words: Words,
        out: &mut OutQueue,
    ) -> Done
        requires sent { Holds IsSentDemand self.old.side.misses.demand }
        requires fits { Fits self.old.side.cache line }
        requires place { place + 1 < 2 ^ 64 }
        requires room { length out.old + length (list_of self.old.side.misses.demand)
            ≤ QUEUE_PLACES }
        ensures side { (demand : Demand) → self.old.side.misses.demand ≡ Some demand
            → demand.line ≡ line → demand.pending ≡ pending
            → self.new ≡ after_outcome
            (completed_store self.old.chip demand place words self.old.side) self.old }
        ensures sent { (demand : Demand) → self.old.side.misses.demand ≡ Some demand
            → out.new ≡ out.old ++ data_to_all line (written_by pending words) demand.list }
        ensures done { result ≡ done_by pending (place + 1) words }
    {
        let after = written(words, pending);
        let mut list = self.misses.finish_demand();
        keep_stored(&mut self.cache, line, after, &list);
        list.drain_with(line, after, out);
        access_performed(pending, place + 1, words)
    }

    // The load takes its word.
    fn complete_load(
        &mut self,
        line: u16,
        pending: Pending,
        once: bool,
        place: u64,
        words: Words,
    ) -> Done
        requires sent { Holds IsSentDemand self.old.side.misses.demand }
        requires fits { Fits self.old.side.cache line }
        requires place { place + 1 < 2 ^ 64 }
        ensures side { (demand : Demand) → self.old.side.misses.demand ≡ Some demand
            → demand.line ≡ line → demand.once ≡ once
            → self.new ≡ after_outcome
            (completed_load self.old.chip demand place words self.old.side) self.old }
        ensures done { result ≡ done_by pending (place + 1) words }
    {
        let _ = self.misses.finish_demand();
        keep_loaded(&mut self.cache, line, words, once);
        access_performed(pending, place + 1, words)
    }

    // The demand, which is ordered at this place, completes with these words.
    pub(crate) fn complete(&mut self, place: u64, words: Words, out: &mut OutQueue) -> Option<Done>
        requires sent { Holds IsSentDemand self.old.side.misses.demand }
        requires side { SideFits self.old.chip self.old.side }
        requires place { place + 1 < 2 ^ 64 }
        requires room { length (out.old ++ (completion place words self.old).sends) ≤ QUEUE_PLACES }
        ensures side { self.new ≡ after_outcome (completion place words self.old) self.old }
        ensures sent { out.new ≡ out.old ++ (completion place words self.old).sends }
        ensures done { result ≡ (completion place words self.old).done }
    {
        match self.demand() {
            Some(demand) => {
                let (line, pending) = (demand.line, demand.pending);
                match demand.kind {
                    Kind::GetM => Some(self.complete_store(line, pending, place, words, out)),
                    Kind::GetS | Kind::PutM => {
                        Some(self.complete_load(line, pending, demand.once, place, words))
                    }
                }
            }
            None => None,
        }
    }
}
