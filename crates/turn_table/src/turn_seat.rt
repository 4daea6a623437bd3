ghost use Rattle.std.specs.Prelude.{◌≡◌, [], ◌∷◌, false};
ghost use Rattle.turn_table.specs.Places.{IsPlace, state_of_place};

use crate::note::View;
use crate::turned::Turned;
use atomic_table::{Badge, Seat};
use std::marker::Model;

/// The right to try for the turn of one table. It has no bytes, and cannot be copied.
#[derive(Drop)]
pub struct TurnSeat {
    pub(crate) badge: Badge<View>,
}

impl Model for TurnSeat {
    ghost use Rattle.turn_table.specs.States.{SeatState, seat_state, IsAtRest};

    ghost Value = { SeatState };

    ghost view = { λ seat. seat_state seat.badge.table_id seat.badge.views };

    ghost invariant = { λ seat. IsAtRest seat.badge.views };
}

impl TurnSeat {
    // A seat of ours over one of the table below.
    pub(crate) fn of<V: Turned>(place: Seat<V, View>) -> TurnSeat
        requires { IsPlace place }
        ensures { result ≡ state_of_place place }
    {
        TurnSeat {
            badge: place.into_badge(),
        }
    }

    // The seat of the table below, which steps on the word.
    pub(crate) fn into_place<V: Turned>(self) -> Seat<V, View>
        ensures table { result.table_id ≡ self.table }
        ensures note { result.me ≡ (self.note ∷ [], []) }
        ensures no_turn { self.note.has_turn ≡ false }
    {
        let TurnSeat { badge } = self;
        badge.into_seat::<V>()
    }
}
