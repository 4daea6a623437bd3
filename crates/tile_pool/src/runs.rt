ghost use Rattle.std.specs.Prelude.{◌≡◌, ◌↔◌, ◌+◌, ◌*◌, ◌<◌, ◌≤◌, true, false, length, Some, IsSome};
ghost use Rattle.report_text.specs.declared.finish.Finish.TheVariants.{Finished};
ghost use Rattle.chip_model.specs.Chip.{chip_of, tile_count};
ghost use Rattle.chip_model.specs.ChipState.{finished};
ghost use Rattle.round_laws.specs.Rounds.{GoesOn, IsRunOfRounds, is_over};

use crate::{Gate, Rounded, round};
use bound_laws::bound_laws;
use core_unit::{Unit, kind_laws};
use machine_core::Machine;
use report_text::Finish;
use std::alloc::Global;
use std::thread::Threads;
use supply_laws::reachable_laws;

/// Runs a machine until it is finished or the budget of events is spent, by rounds with a thread for each tile. Between two rounds
/// it does the possible event of the lowest slot itself, so that each step of the run does something. The last number counts the
/// rounds that were left out for want of memory.
pub fn run_tiles<R: Threads + Sync, U: Unit, G: Gate>(
    rt: &R,
    alloc: Global,
    machine: Machine<U>,
    budget: u32,
    gate: &G,
) -> (Machine<U>, Finish, u32)
    requires room { budget + 17 * tile_count (chip_of machine.document) ≤ machine.room }
    requires within { length machine.state.journal ≤ budget }
    ensures rounds { IsRunOfRounds U.behaviour (chip_of machine.document) budget result.2
        machine.state result.0.state }
    ensures finished { (result.1 ≡ Finished) ↔ (finished result.0.state ≡ true) }
    ensures few { length result.0.state.journal
        < budget + 17 * tile_count (chip_of machine.document) }
    ensures document { result.0.document ≡ machine.document }
    ensures room { result.0.room ≡ machine.room }
{
    let mut machine = machine;
    let mut left: u32 = 0;
    let mut turn: u32 = 0;
    bound_laws();
    kind_laws::<U>();
    reachable_laws();
    machine.stands();
    loop {
        if let Some(finish) = end_of(&machine, budget) {
            return (machine, finish, left);
        }
        go_on(&mut machine, budget);
        if let Some(finish) = end_of(&machine, budget) {
            return (machine, finish, left);
        }
        machine.stands();
        let (next, rounded) = round(rt, alloc, machine, gate, turn);
        machine = next;
        if rounded == Rounded::NoMemory {
            left += 1;
        }
        turn += 1;
    }
}

// How a run has ended, where it has.
fn end_of<U: Unit>(machine: &Machine<U>, budget: u32) -> Option<Finish>
    ensures finished { (result ≡ Some Finished) ↔ (finished machine.now.state ≡ true) }
    ensures over { IsSome result ↔ (is_over budget machine.now.state ≡ true) }
{
    if machine.finished() {
        Some(Finish::Finished)
    } else if machine.length() >= u64::from(budget) {
        Some(Finish::Budget)
    } else {
        None
    }
}

// The possible event of the lowest slot is done.
fn go_on<U: Unit>(machine: &mut Machine<U>, budget: u32)
    requires going { is_over budget machine.old.state ≡ false }
    requires room { budget ≤ machine.old.room }
    ensures goes { GoesOn U.behaviour (chip_of machine.old.document) budget
        machine.old.state machine.new.state }
    ensures count { length machine.new.state.journal ≡ length machine.old.state.journal + 1 }
    ensures document { machine.new.document ≡ machine.old.document }
    ensures room { machine.new.room ≡ machine.old.room }
{
    bound_laws();
    let Some(event) = machine.first_enabled() else {
        unreachable!()
    };
    let _done = machine.step(event);
}
