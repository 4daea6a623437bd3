ghost use Rattle.std.specs.Prelude.{◌≡◌, ◌<◌};
ghost use Rattle.pace_core.specs.Offsets.{AnswersBelow};

use std::marker::Model;

/// A stored closure that tells each sweep, by its number, from which of so many slots it begins. Contracts see the closure
/// itself, so that what it answers is said in its own words.
#[derive(Drop)]
pub struct Pace<F> {
    closure: F,
}

impl<F> Model for Pace<F> {
    ghost Value = { F };

    ghost view = { λ pace. pace.closure };
}

impl<F: Fn(u64, u32) -> u32> Pace<F> {
    /// A pace by a closure of the caller's, over the number of a sweep and the number of slots.
    pub fn new(closure: F) -> Pace<F>
        requires { AnswersBelow (F.pre closure) (F.post closure) }
        ensures { result ≡ closure }
    {
        Pace { closure }
    }

    /// The slot from which the sweep of this number begins.
    pub fn offset(&self, sweep: u64, slots: u32) -> u32
        requires some { 0 < slots }
        requires below { AnswersBelow (F.pre self.now) (F.post self.now) }
        ensures below { result < slots }
        ensures answer { F.post self.now sweep slots result }
    {
        (self.closure)(sweep, slots)
    }
}
