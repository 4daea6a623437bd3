//! An access of the core.
ghost use Rattle.std.specs.Prelude.{◌≡◌, ◌≢◌, ℕ, List, Some, IsNone, false};
ghost use Rattle.chip_model.specs.declared.pending.Pending.{Pending as Access};
ghost use Rattle.chip_model.specs.Chip.{line_of};
ghost use Rattle.chip_model.specs.Cache.{lookup};
ghost use Rattle.chip_model.specs.Misses.{is_written_back};
ghost use Rattle.chip_model.specs.Node.{node_after_access, missed, back_started, unless_written_back, store_to, demand_started};
ghost use Rattle.line_cache.specs.Sets.{Fits, copy_of};
ghost use Rattle.snoop_core.specs.Plans.{planned, StartsMiss, StartsBack};

use crate::node::Node;
use chip_model::{State, Victim};
use mesh_gen::Words;
use report_text::AccessKind;

/// What an access comes to.
#[derive(Clone, Copy)]
pub(crate) enum Plan {
    /// It is not possible now.
    Refuse,
    /// It reads from a copy with these words.
    HitLoad(Words),
    /// It writes to the only copy, which has these words.
    HitStore(Words),
    /// A demand begins.
    Miss,
    /// A demand begins after a shared line is dropped silently.
    MissWithout { leaving: u16 },
    /// A line has to be written back first.
    PutBack { line: u16, words: Words },
}

impl Node {
    // What an access comes to.
    pub(crate) fn plan(&self, kind: AccessKind, line: u16) -> Plan
        ensures plan { (access : Access) → access.kind ≡ kind → line_of access.address ≡ line
            → node_after_access access self.now ≡ planned result access self.now }
        ensures free { result ≢ Plan.Refuse → IsNone self.now.side.misses.demand }
        ensures apart { StartsMiss result → is_written_back line self.now.side.misses.back ≡ false }
        ensures alone { StartsBack result → IsNone self.now.side.misses.back }
        ensures there { (words : List ℕ) → result ≡ Plan.HitStore words
            → Fits self.now.side.cache line }
    {
        if self.has_entry() {
            return Plan::Refuse;
        }
        match self.snooper.lookup(line) {
            Some(copy) => {
                let words = copy.1;
                if kind.writes() {
                    self.plan_store(line, copy.0, words)
                } else {
                    Plan::HitLoad(words)
                }
            }
            None => self.plan_absent(line),
        }
    }

    // What a write to a copy with these words comes to: a copy that others may share has to be asked for.
    fn plan_store(&self, line: u16, state: State, words: Words) -> Plan
        ensures plan { (access : Access) → line_of access.address ≡ line
            → store_to access (copy_of line (state, words)) self.now state
            ≡ planned result access self.now }
        ensures apart { StartsMiss result → is_written_back line self.now.side.misses.back ≡ false }
        ensures alone { StartsBack result → IsNone self.now.side.misses.back }
    {
        match state {
            State::M => Plan::HitStore(words),
            State::O | State::S => self.plan_upgrade(line),
        }
    }

    // A copy that others may share is asked for, unless the line is being written back.
    fn plan_upgrade(&self, line: u16) -> Plan
        ensures plan { (access : Access) → line_of access.address ≡ line
            → unless_written_back access self.now
            (Some (demand_started access self.now.side self.now))
            ≡ planned result access self.now }
        ensures apart { StartsMiss result → is_written_back line self.now.side.misses.back ≡ false }
        ensures alone { StartsBack result → IsNone self.now.side.misses.back }
        ensures no_hit { (words : List ℕ) → result ≢ Plan.HitStore words }
    {
        if self.snooper.is_written_back(line) {
            Plan::Refuse
        } else {
            Plan::Miss
        }
    }

    // What an access to a line that is not in the cache comes to: the line that is written back cannot come in before
    // the write-back has ended.
    fn plan_absent(&self, line: u16) -> Plan
        ensures plan { (access : Access) → line_of access.address ≡ line
            → unless_written_back access self.now (missed access self.now)
            ≡ planned result access self.now }
        ensures apart { StartsMiss result → is_written_back line self.now.side.misses.back ≡ false }
        ensures alone { StartsBack result → IsNone self.now.side.misses.back }
        ensures no_hit { (words : List ℕ) → result ≢ Plan.HitStore words }
    {
        if self.snooper.is_written_back(line) {
            Plan::Refuse
        } else {
            self.plan_miss(line)
        }
    }

    // What a miss comes to.
    fn plan_miss(&self, line: u16) -> Plan
        ensures plan { (access : Access) → line_of access.address ≡ line
            → missed access self.now ≡ planned result access self.now }
        ensures alone { StartsBack result → IsNone self.now.side.misses.back }
        ensures no_hit { (words : List ℕ) → result ≢ Plan.HitStore words }
    {
        match self.snooper.victim(line) {
            Victim::Empty => Plan::Miss,
            Victim::DropS { line } => Plan::MissWithout { leaving: line },
            Victim::Put { line } => self.plan_back(line),
        }
    }

    // What a miss comes to before which a line has to be written back: it waits while another write-back stands, or
    // while the words of one are still to be sent.
    fn plan_back(&self, line: u16) -> Plan
        ensures plan { (access : Access)
            → back_started self.now (lookup self.now.chip self.now.side.cache line)
            ≡ planned result access self.now }
        ensures alone { StartsBack result → IsNone self.now.side.misses.back }
        ensures no_hit { (words : List ℕ) → result ≢ Plan.HitStore words }
    {
        if self.out.holds_back() || self.snooper.has_back() {
            return Plan::Refuse;
        }
        match self.snooper.lookup(line) {
            Some(copy) => {
                let words = copy.1;
                Plan::PutBack { line, words }
            }
            None => Plan::Refuse,
        }
    }
}
