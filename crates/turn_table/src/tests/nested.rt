ghost use Rattle.std.specs.Prelude.{◌≡◌, ◌⊎◌, ◌-◌, ◌++◌, [], ◌∷◌};

use crate::busy::Busy;
use crate::numbers::Numbers;
use crate::turn_seat::TurnSeat;
use crate::turns::Turns;

/// A turn that adds none.
pub(super) fn pass(turns: &Turns<Numbers>, seat: &mut TurnSeat) -> Result<(), Busy>
    requires { seat.old.table ≡ turns.now.table }
    ensures table { seat.new.table ≡ turns.now.table }
    ensures note { (seat.new.note.number ≡ seat.old.note.number)
        × (seat.new.note.own ≡ seat.old.note.own) }
{
    let mut leave = |numbers: &mut Numbers|
        ensures { numbers.new ≡ numbers.old }
    {};
    turns.try_turn(seat, &mut leave)
}

/// A turn that adds a number, and in which another seat tries to get the turn.
pub(super) fn add_around(
    turns: &Turns<Numbers>,
    seat: &mut TurnSeat,
    number: u64,
    other: &mut TurnSeat,
) -> Result<Option<Busy>, Busy>
    requires table { (seat.old.table ≡ turns.now.table) × (other.old.table ≡ turns.now.table) }
    requires first { (number - 5 ≡ seat.old.note.number) × (seat.old.note.own ≡ []) }
    ensures table { (seat.new.table ≡ turns.now.table) × (other.new.table ≡ turns.now.table) }
    ensures other { (other.new.note.number ≡ other.old.note.number)
        × (other.new.note.own ≡ other.old.note.own) }
{
    let mut append = |numbers: &mut Numbers| -> Option<Busy>
        requires { other.now.table ≡ turns.now.table }
        ensures numbers { (numbers.new.items.items ≡ numbers.old.items.items)
            ⊎ (numbers.new.items.items ≡ numbers.old.items.items ++ number ∷ []) }
        ensures table { other.exit.now.table ≡ turns.entry.now.table }
        ensures note { (other.exit.now.note.number ≡ other.entry.now.note.number)
            × (other.exit.now.note.own ≡ other.entry.now.note.own) }
    {
        let refused = pass(turns, other).err();
        numbers.add(number);
        refused
    };
    turns.try_turn(seat, &mut append)
}

/// A turn that adds none, and in which another seat tries to get the turn.
pub(super) fn pass_around(
    turns: &Turns<Numbers>,
    seat: &mut TurnSeat,
    other: &mut TurnSeat,
) -> Result<Option<Busy>, Busy>
    requires { (seat.old.table ≡ turns.now.table) × (other.old.table ≡ turns.now.table) }
    ensures { (seat.new.table ≡ turns.now.table) × (other.new.table ≡ turns.now.table) }
{
    let mut leave = |numbers: &mut Numbers| -> Option<Busy>
        requires { other.now.table ≡ turns.now.table }
        ensures numbers { numbers.new ≡ numbers.old }
        ensures table { other.exit.now.table ≡ turns.entry.now.table }
    { pass(turns, other).err() };
    turns.try_turn(seat, &mut leave)
}
