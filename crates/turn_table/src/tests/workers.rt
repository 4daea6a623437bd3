ghost use Rattle.std.specs.Prelude.{◌≡◌, ◌-◌, ◌<◌, [], All, IfOk, length};
ghost use Rattle.turn_table.specs.States.{IsNew};

use crate::numbers::{Numbers, add};
use crate::turn_seat::TurnSeat;
use crate::turns::Turns;
use std::alloc::{AllocError, Global};
use std::sync::Wait;
use std::thread;
use std::thread::Threads;

/// A seat that goes to a thread, and the number that it adds there.
#[derive(Drop)]
pub(super) struct Worker {
    seat: TurnSeat,
    number: u64,
}

/// A worker for each seat of a new table.
pub(super) fn seat_all(
    alloc: Global,
    turns: &Turns<Numbers>,
    mut seats: Vec<TurnSeat>,
) -> Result<Vec<Worker>, AllocError>
    requires { IsNew [] 4 turns.now seats.items }
    ensures { IfOk result (λ workers. (length workers.items ≡ 4)
        × All (λ worker. (worker.seat.table ≡ turns.now.table)
        × (worker.number - 5 ≡ worker.seat.note.number)
        × (worker.seat.note.own ≡ [])) workers.items) }
{
    let mut workers = Vec::with_capacity(alloc, seats.len())?;
    while let Some(seat) = seats.pop() {
        let number = 5 + seats.len() as u64;
        workers.push(Worker { seat, number })?;
    }
    Ok(workers)
}

/// Tries until the worker got the turn.
fn take_turn<R: Wait>(rt: &R, turns: &Turns<Numbers>, worker: &mut Worker)
    requires table { worker.old.seat.table ≡ turns.now.table }
    requires first { (worker.old.number - 5 ≡ worker.old.seat.note.number)
        × (worker.old.seat.note.own ≡ []) }
    ensures { worker.new.seat.table ≡ turns.now.table }
{
    for _ in rt.forever() {
        if add(turns, &mut worker.seat, worker.number).is_ok() {
            return;
        }
        thread::yield_now();
    }
}

/// One thread for each worker.
pub(super) fn run_all<R: Threads + Wait + Sync>(
    rt: &R,
    turns: &Turns<Numbers>,
    workers: &mut [Worker],
)
    requires some { 0 < length workers.old }
    requires first { All (λ worker. (worker.seat.table ≡ turns.now.table)
        × (worker.number - 5 ≡ worker.seat.note.number) × (worker.seat.note.own ≡ [])) workers.old }
    ensures count { length workers.new ≡ length workers.old }
    ensures table { All (λ worker. worker.seat.table ≡ turns.now.table) workers.new }
{
    let count = workers.len();
    thread::for_each_mut(
        rt,
        workers,
        count,
        &|_, worker: &mut Worker|
            requires table { worker.old.seat.table ≡ turns.now.table }
            requires first { (worker.old.number - 5 ≡ worker.old.seat.note.number)
                × (worker.old.seat.note.own ≡ []) }
            ensures { worker.new.seat.table ≡ turns.entry.now.table }
        { take_turn(rt, turns, worker) },
    );
}

/// The seats of the workers.
pub(super) fn unseat_all(
    alloc: Global,
    turns: &Turns<Numbers>,
    mut workers: Vec<Worker>,
) -> Result<Vec<TurnSeat>, AllocError>
    requires { All (λ worker. worker.seat.table ≡ turns.now.table) workers.items }
    ensures { IfOk result (λ seats. (length seats.items ≡ length workers.items)
        × All (λ seat. seat.table ≡ turns.now.table) seats.items) }
{
    let mut seats = Vec::with_capacity(alloc, workers.len())?;
    while let Some(worker) = workers.pop() {
        seats.push(worker.seat)?;
    }
    Ok(seats)
}
