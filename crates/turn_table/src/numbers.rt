// The smallest value that is changed in turns, and a turn of it. What no turn may do is tried on it: it is proved with
// the crate, where what stands in tests alone is not.
ghost use Rattle.std.specs.Prelude.{◌≡◌, ◌-◌, ◌++◌, [], ◌∷◌, MatchBool, OnErr};

use crate::busy::Busy;
use crate::turn_seat::TurnSeat;
use crate::turned::Turned;
use crate::turns::Turns;
use std::alloc::Global;

/// A list of numbers, of which 5 names seat 0, 6 names seat 1, and so on.
#[derive(Drop)]
pub(crate) struct Numbers {
    pub(crate) items: Vec<u64>,
}

impl Turned for Numbers {
    ghost entries = { λ numbers. numbers.items.items };

    ghost names = { λ entry. entry - 5 };

    fn turns(&self) -> u64 {
        self.items.len() as u64
    }
}

impl Numbers {
    pub(crate) fn new(alloc: Global) -> Numbers
        ensures { result.items.items ≡ [] }
    {
        Numbers {
            items: Vec::new(alloc),
        }
    }

    /// Adds a number, if there is memory.
    pub(crate) fn add(&mut self, number: u64) -> bool
        ensures { MatchBool result
            (self.new.items.items ≡ self.old.items.items ++ number ∷ [])
            (self.new.items.items ≡ self.old.items.items) }
    {
        self.items.push(number).is_ok()
    }
}

/// A turn that adds a number.
pub(crate) fn add(turns: &Turns<Numbers>, seat: &mut TurnSeat, number: u64) -> Result<bool, Busy>
    requires table { seat.old.table ≡ turns.now.table }
    requires first { (number - 5 ≡ seat.old.note.number) × (seat.old.note.own ≡ []) }
    ensures table { seat.new.table ≡ turns.now.table }
    ensures err { OnErr result ((seat.new.note.number ≡ seat.old.note.number)
        × (seat.new.note.own ≡ [])) }
{
    let mut append = |numbers: &mut Numbers| -> bool
        ensures { MatchBool result
            (numbers.new.items.items ≡ numbers.old.items.items ++ number ∷ [])
            (numbers.new.items.items ≡ numbers.old.items.items) }
    { numbers.add(number) };
    turns.try_turn(seat, &mut append)
}
