ghost use Rattle.std.specs.Prelude.{◌≡◌, ◌≤◌, ◌%◌, ℕ, List, [], ◌∷◌, ◌++◌, length, vec_capacity, false, IfOk, IfErr, All};
ghost use Rattle.turn_table.specs.Notes.{new_notes, note_after_load};
ghost use Rattle.turn_table.specs.States.{IsNew};
ghost use Rattle.turn_table.specs.Places.{IsPlace, note_at};
ghost use Rattle.turn_table.specs.Tries.{MayTakeTurn, TookTurn, WasBusy, IsCallableAt};
ghost use Rattle.turn_table.specs.Turn.{Exchanged, HasTurn, HadTurn, Worked, MayEnd, Ended};
ghost use Rattle.turn_table.specs.Meeting.{notes_of, AccountFor};

use crate::busy::Busy;
use crate::no_memory::NoMemory;
use crate::note::View;
use crate::rule::{OneTurn, Start};
use crate::steps::{Acquire, Load, NoteByNote, Release, ReleaseWithEntry};
use crate::turn_seat::TurnSeat;
use crate::turned::Turned;
use atomic_table::{Badge, Refused, Seat, Table};
use std::alloc::Global;
use std::marker::Model;
use std::mem;
use std::snapshot::Snapshot;

/// A value, of which one seat at a time has the turn. Threads share the table by reference.
#[derive(Drop)]
pub struct Turns<V: Turned> {
    table: Table<V, View, Start<V>, OneTurn, Global>,
}

impl<V: Turned> Model for Turns<V> {
    ghost use Rattle.turn_table.specs.States.{TurnsState, IsTurnTable};

    ghost Value = { TurnsState };

    ghost view = { λ turns. record {
      table = turns.table.shared.table_id;
      opening = V.entries turns.table.shared.key.value.value;
      seats = turns.table.shared.key.seats;
    } };

    ghost invariant = { λ turns.
        IsTurnTable turns.table.shared.table_id turns.table.shared.key.seats };
}

impl<V: Turned> Turns<V> {
    /// A table of 1 to 64 seats with the value in it, and the seats, numbered from 0. Their list keeps
    /// room for all of them. The value is placed once all memory was found; else it comes back.
    pub fn new(
        alloc: Global,
        value: V,
        seats: u8,
    ) -> Result<(Turns<V>, Vec<TurnSeat>), (V, NoMemory)>
        requires { (1 ≤ seats) × (seats ≤ 64) }
        ensures ok { IfOk result (λ made. IsNew (V.entries value) seats made.0 made.1.items) }
        ensures room { IfOk result (λ made. seats ≤ vec_capacity made.1) }
        ensures err { IfErr result (λ refused. refused.0 ≡ value) }
    {
        let Ok(row) = Vec::with_capacity(alloc, usize::from(seats)) else {
            return Err((value, NoMemory));
        };
        let Ok(mut slots) = Vec::with_capacity(alloc, 1) else {
            return Err((value, NoMemory));
        };
        let start = Start {
            value: Snapshot::of(&value),
            seats,
        };
        slots.push_reserved(value);
        match Table::new(alloc, &[0], slots, &start) {
            Ok((table, place)) => {
                let turns = Turns { table };
                let row = turns.deal(place, row, seats);
                Ok((turns, row))
            }
            Err(Refused { mut slots }) => match slots.pop() {
                Some(value) => Err((value, NoMemory)),
                None => unreachable!(),
            },
        }
    }

    /// One try to get the turn. It does not wait. In the turn `f` is called on the value, and may add
    /// one entry that names the seat, if the seat made none before. At `Busy` it was not called.
    pub fn try_turn<R, F: FnMut(&mut V) -> R>(
        &self,
        seat: &mut TurnSeat,
        f: &mut F,
    ) -> Result<R, Busy>
        requires table { seat.old.table ≡ self.now.table }
        requires turn { MayTakeTurn V.entries V.names F.FnMut f.old seat.old.note }
        ensures table { seat.new.table ≡ seat.old.table }
        ensures ok { IfOk result (λ answer.
            TookTurn V.entries V.names F.FnMut f.old seat.old.note answer f.new seat.new.note) }
        ensures err { IfErr result (λ busy. (f.new ≡ f.old)
            × WasBusy seat.old.note busy seat.new.note) }
    {
        let mut place = mem::replace(&mut seat.badge, Badge::blank()).into_seat::<V>();
        let answer = self.try_at(&mut place, f);
        seat.badge = place.into_badge();
        answer
    }

    /// The value, once all seats of the table are back. What they know accounts for the entries made.
    pub fn meet(self, seats: Vec<TurnSeat>) -> V
        requires table { All (λ seat. seat.table ≡ self.table) seats.items }
        requires all { length seats.items ≡ self.seats }
        ensures { (made : List ℕ) × (V.entries result ≡ self.opening ++ made)
            × AccountFor V.names (notes_of seats.items) made }
    {
        let place = self.gather(seats);
        let Turns { table } = self;
        let mut closed = table.close_with(place);
        let value = closed.take(0);
        closed.free();
        value
    }

    // A seat for each note of the place.
    fn deal(&self, mut place: Seat<V, View>, mut row: Vec<TurnSeat>, seats: u8) -> Vec<TurnSeat>
        requires table { place.table_id ≡ self.now.table }
        requires place { place.me
            ≡ (new_notes self.now.opening self.now.seats 0 self.now.seats, []) }
        requires row { (row.items ≡ []) × (seats ≤ vec_capacity row) }
        requires seats { seats ≡ self.now.seats }
        ensures dealt { IsNew self.now.opening self.now.seats self.now result.items }
        ensures room { seats ≤ vec_capacity result }
    {
        for _ in 0..seats {
            let next = self.table.shared.split_seat::<NoteByNote>(&mut place);
            row.push_reserved(TurnSeat::of(next));
        }
        row
    }

    // A place with the notes of all seats.
    fn gather(&self, mut seats: Vec<TurnSeat>) -> Seat<V, View>
        requires table { All (λ seat. seat.table ≡ self.now.table) seats.items }
        requires all { length seats.items ≡ self.now.seats }
        ensures table { result.table_id ≡ self.now.table }
        ensures notes { result.me ≡ (notes_of seats.items, []) }
        ensures no_turn { All (λ note. note.has_turn ≡ false) (notes_of seats.items) }
    {
        let shared = &self.table.shared;
        let Some(last) = seats.pop() else {
            unreachable!()
        };
        let mut place = last.into_place::<V>();
        while let Some(seat) = seats.pop() {
            shared.join_seat::<NoteByNote>(&mut place, seat.into_place::<V>());
        }
        place
    }

    // One try, by the seat as the table below has it.
    fn try_at<R, F: FnMut(&mut V) -> R>(
        &self,
        place: &mut Seat<V, View>,
        f: &mut F,
    ) -> Result<R, Busy>
        requires table { place.old.table_id ≡ self.now.table }
        requires place { IsPlace place.old }
        requires turn { MayTakeTurn V.entries V.names F.FnMut f.old (note_at place.old) }
        ensures table { place.new.table_id ≡ place.old.table_id }
        ensures place { IsPlace place.new }
        ensures ok { IfOk result (λ answer. TookTurn V.entries V.names F.FnMut
            f.old (note_at place.old) answer f.new (note_at place.new)) }
        ensures err { IfErr result (λ busy. (f.new ≡ f.old)
            × WasBusy (note_at place.old) busy (note_at place.new)) }
    {
        let seen = self.load(place);
        if seen % 2 == 1 {
            return Err(Busy { seen, found: seen });
        }
        let found = self.acquire(place, seen);
        if found != seen {
            return Err(Busy { seen, found });
        }
        Ok(self.hold(place, f))
    }

    // Which number the word has. An odd one means that some seat has the turn.
    fn load(&self, place: &mut Seat<V, View>) -> u64
        requires table { place.old.table_id ≡ self.now.table }
        requires place { IsPlace place.old }
        ensures table { (place.new.table_id ≡ place.old.table_id) × (place.new.id ≡ place.old.id) }
        ensures noted { place.new.me ≡ (note_after_load (note_at place.old) result ∷ [], []) }
    {
        self.table.shared.load::<Load>(place, 0)
    }

    // Tries to make the number seen the next odd one, and tells which number was there.
    fn acquire(&self, place: &mut Seat<V, View>, seen: u64) -> u64
        requires table { place.old.table_id ≡ self.now.table }
        requires place { IsPlace place.old }
        requires seen { ((note_at place.old).seen ≡ seen) × (seen % 2 ≡ 0) }
        ensures table { (place.new.table_id ≡ place.old.table_id) × (place.new.id ≡ place.old.id) }
        ensures exchanged { Exchanged V.entries V.names
            (note_at place.old) seen result place.new.me }
    {
        self.table
            .shared
            .compare_exchange::<Acquire>(place, 0, seen, seen + 1)
    }

    // The turn itself: the call of f, and the end.
    fn hold<R, F: FnMut(&mut V) -> R>(&self, place: &mut Seat<V, View>, f: &mut F) -> R
        requires table { place.old.table_id ≡ self.now.table }
        requires turn { HasTurn V.entries V.names F.FnMut place.old.me f.old }
        ensures table { (place.new.table_id ≡ place.old.table_id) × (place.new.id ≡ place.old.id) }
        ensures turn { HadTurn V.entries V.names F.FnMut
            place.old.me f.old result f.new place.new.me }
    {
        let (answer, grown) = self.work(place, f);
        self.release(place, grown);
        answer
    }

    // Calls f on the value that the seat holds, and tells whether the value has more entries now.
    fn work<R, F: FnMut(&mut V) -> R>(&self, place: &mut Seat<V, View>, f: &mut F) -> (R, bool)
        requires table { place.old.table_id ≡ self.now.table }
        requires held { (value : V) × (place.old.me.1 ≡ (0, value) ∷ [])
            × IsCallableAt V.entries V.names F.FnMut f.old value }
        ensures table { (place.new.table_id ≡ place.old.table_id) × (place.new.id ≡ place.old.id) }
        ensures worked { Worked V.entries V.names F.FnMut
            place.old.me f.old result.0 result.1 f.new place.new.me }
    {
        let value = place.slot_mut(&self.table.shared, 0);
        let before = value.turns();
        let answer = f(value);
        let after = value.turns();
        (answer, before != after)
    }

    // The value goes home. The word counts the entry in the same step.
    fn release(&self, place: &mut Seat<V, View>, grown: bool)
        requires table { place.old.table_id ≡ self.now.table }
        requires turn { MayEnd V.entries V.names place.old.me grown }
        ensures table { (place.new.table_id ≡ place.old.table_id) × (place.new.id ≡ place.old.id) }
        ensures ended { Ended V.entries V.names place.old.me grown place.new.me }
    {
        if grown {
            self.table.shared.fetch_add::<ReleaseWithEntry>(place, 0, 1);
        } else {
            self.table.shared.fetch_sub::<Release>(place, 0, 1);
        }
    }
}
