ghost use Rattle.std.specs.Prelude.{◌≡◌, ◌<◌, ◌≤◌, ◌^◌, ◌⊎◌, None, Some, IsTrue, MatchBool, length};
ghost use Rattle.core_isa.specs.Core.{next_of};
ghost use Rattle.flat_ref.specs.Taking.{flat_of, core_at, made, made_by, memory_after, taken};

use core_isa::{Core, Next, Program};
use report_text::{Access, AccessKind};

/// Takes an access, and says whether it can be taken. Where it cannot, a core may have done register instructions.
#[tactic(auto, unfolding(crate::specs::Taking::taken))]
pub(crate) fn take(
    programs: &[Program],
    cores: &mut [Core],
    memory: &mut [u32],
    access: &Access,
) -> bool
    requires number { access.now.number < 2 ^ 62 }
    requires words { 0 < length memory.old }
    requires limit { length memory.old ≤ 1024 }
    ensures { MatchBool result
        (taken programs.now (flat_of cores.old memory.old) access.now
        ≡ Some (flat_of cores.new memory.new))
        (taken programs.now (flat_of cores.old memory.old) access.now ≡ None) }
{
    let tile = usize::from(access.tile);
    let Some(program) = programs.get(tile) else {
        return false;
    };
    if tile >= cores.len() {
        return false;
    }
    take_by(program, &mut cores[tile], memory, access)
}

// Takes an access by this core.
#[tactic(auto, unfolding(crate::specs::Taking::made_by))]
fn take_by(program: &Program, core: &mut Core, memory: &mut [u32], access: &Access) -> bool
    requires number { access.now.number < 2 ^ 62 }
    requires words { 0 < length memory.old }
    requires limit { length memory.old ≤ 1024 }
    ensures { MatchBool result
        ((made_by (length memory.old) program.now core.old access.now ≡ Some core.new)
        × (memory_after memory.old access.now ≡ Some memory.new))
        ((made_by (length memory.old) program.now core.old access.now ≡ None)
        ⊎ (memory_after memory.old access.now ≡ None)) }
{
    reach(program, core, access.number) && perform(program, core, memory, access)
}

/// Lets the core do register instructions until it has done this many instructions, and says whether it gets there.
#[tactic(auto, unfolding(crate::specs::Taking::core_at))]
pub(crate) fn reach(program: &Program, core: &mut Core, number: u64) -> bool
    requires { number < 2 ^ 62 }
    ensures reached { MatchBool result (core_at number program.now core.old ≡ Some core.new)
        (core_at number program.now core.old ≡ None) }
    ensures steps { IsTrue result → core.new.steps ≡ number }
{
    let Some(missing) = number.checked_sub(core.steps()) else {
        return false;
    };
    core.advance(program, missing) == missing
}

// Performs the access where it is the one that the core makes next, and says whether it is.
fn perform(program: &Program, core: &mut Core, memory: &mut [u32], access: &Access) -> bool
    requires steps { core.old.steps < 2 ^ 62 }
    requires words { 0 < length memory.old }
    requires limit { length memory.old ≤ 1024 }
    ensures { MatchBool result
        ((made (length memory.old) program.now core.old access.now
        (next_of program.now core.old) access.now.kind ≡ Some core.new)
        × (memory_after memory.old access.now ≡ Some memory.new))
        ((made (length memory.old) program.now core.old access.now
        (next_of program.now core.old) access.now.kind ≡ None)
        ⊎ (memory_after memory.old access.now ≡ None)) }
{
    let place = access.address as usize;
    match (core.next(program), access.kind) {
        (Next::Load { address, .. }, AccessKind::Load) => {
            if address as usize % memory.len() != place || memory[place] != access.value {
                return false;
            }
            core.load_done(program, access.value);
            true
        }
        (Next::Store { address, value }, AccessKind::Store) => {
            if address as usize % memory.len() != place || value != access.value {
                return false;
            }
            memory[place] = value;
            core.store_done(program);
            true
        }
        (Next::Swap { address, value, .. }, AccessKind::Swap)
        | (Next::Add { address, value, .. }, AccessKind::Add) => {
            if address as usize % memory.len() != place
                || memory[place] != access.old
                || access.kind.word_after(value, access.old) != access.value
            {
                return false;
            }
            memory[place] = access.value;
            core.both_done(program, access.old);
            true
        }
        _ => false,
    }
}
