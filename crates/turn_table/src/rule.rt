// The rule under which the table's words, slot and views are kept.
ghost use Rattle.turn_table.specs.Notes.{new_notes};
ghost use Rattle.turn_table.specs.Rule.{TurnRule};

use crate::note::View;
use crate::turned::Turned;
use atomic_table::TableRule;
use std::snapshot::Snapshot;

/// What is fixed when the table is made: the value as it was then, and the number of seats.
#[derive(Drop)]
pub(crate) struct Start<V> {
    pub(crate) value: Snapshot<V>,
    pub(crate) seats: u8,
}

pub(crate) struct OneTurn;

impl<V: Turned> TableRule<V, View, Start<V>> for OneTurn {
    ghost holds = { λ start state.
        TurnRule V.entries V.names (V.entries start.value.value) start.seats state };

    ghost first = { λ start. new_notes (V.entries start.value.value) start.seats 0 start.seats };
}
