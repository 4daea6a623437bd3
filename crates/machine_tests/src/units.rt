//! The calls of a unit: one tile that stores a word and then loads it.
ghost use Rattle.std.specs.Prelude.{◌≡◌, IfOk};
ghost use Rattle.machine_tests.specs.UnitRows.{opened, storing, ordered, stored, its_request, its_words};

use core_isa::{Instr, Program};
use core_unit::{InOrder, Unit};
use mesh_gen::{Kind, Mesh, Msg, MsgKind, NoMemory, NotEnabled, Request};
use report_text::{Access, AccessKind};
use std::alloc::Global;
use std::test::Fail;

fn opened(alloc: Global) -> Result<InOrder, NoMemory>
    ensures { IfOk result (λ unit. unit ≡ opened) }
{
    let mesh = Mesh::of_size(alloc, 1, 1, 1)?;
    let instrs = [
        Instr::Li { rd: 1, n: 7 },
        Instr::St { rs: 1, ra: 0, n: 2 },
        Instr::Ld { rd: 2, ra: 0, n: 2 },
        Instr::Halt,
    ];
    let program = Program::new(Vec::from_slice(alloc, &instrs)?);
    InOrder::open(alloc, &mesh, 0, program, &[0; 64])
}

fn its_request() -> Request
    ensures { result ≡ its_request }
{
    Request {
        source: 0,
        number: 0,
        kind: Kind::GetM,
        line: 0,
    }
}

fn its_words() -> Msg
    ensures { result ≡ its_words }
{
    Msg {
        to: 0,
        kind: MsgKind::Data,
        line: 0,
        words: [0, 0, 0, 0],
    }
}

// The unit when its store has missed and its request is sent.
fn storing(alloc: Global) -> Result<InOrder, NoMemory>
    ensures { IfOk result (λ unit. unit ≡ storing) }
{
    let mut unit = opened(alloc)?;
    let _ = unit.core_step();
    let _ = unit.core_step();
    unit.mark_sent();
    Ok(unit)
}

// The same after that request was delivered, with home's words sent.
fn ordered(alloc: Global) -> Result<InOrder, NoMemory>
    ensures { IfOk result (λ unit. unit ≡ ordered) }
{
    let mut unit = storing(alloc)?;
    let _ = unit.deliver(its_request());
    unit.drop_out();
    Ok(unit)
}

// The same after these words came.
fn stored(alloc: Global) -> Result<InOrder, NoMemory>
    ensures { IfOk result (λ unit. unit ≡ stored) }
{
    let mut unit = ordered(alloc)?;
    let _ = unit.receive(its_words());
    Ok(unit)
}

fn access(number: u64, kind: AccessKind) -> Option<Access> {
    Some(Access {
        tile: 0,
        number,
        kind,
        address: 2,
        value: 7,
        time: 1,
        old: 0,
    })
}

#[test]
fn a_new_core_is_ready(rt: HostRuntime) -> Result<(), Fail> {
    let mut unit = opened(rt.alloc())?;
    assert_eq!(rt; unit.core_ready(), true);
    assert_eq!(rt; unit.core_step(), Ok(None));
    assert_eq!(rt; unit.steps(), 1);
    assert_eq!(rt; unit.halted(), false);
    Ok(())
}

#[test]
fn a_store_waits_for_its_line(rt: HostRuntime) -> Result<(), Fail> {
    let mut unit = storing(rt.alloc())?;
    assert_eq!(rt; unit.steps(), 1);
    assert_eq!(rt; unit.node().has_entry(), true);
    assert_eq!(rt; unit.core_ready(), false);
    assert_eq!(rt; unit.core_step(), Err(NotEnabled));
    Ok(())
}

#[test]
fn its_request_has_the_words_of_memory(rt: HostRuntime) -> Result<(), Fail> {
    let mut unit = storing(rt.alloc())?;
    assert_eq!(rt; unit.deliver(its_request()), None);
    assert_eq!(rt; unit.node().next_out(), Some(its_words()));
    Ok(())
}

#[test]
fn its_words_complete_the_store(rt: HostRuntime) -> Result<(), Fail> {
    let mut unit = ordered(rt.alloc())?;
    assert_eq!(rt; unit.receive(its_words()), access(1, AccessKind::Store));
    assert_eq!(rt; unit.steps(), 2);
    Ok(())
}

#[test]
fn a_load_hits_and_the_core_halts(rt: HostRuntime) -> Result<(), Fail> {
    let mut unit = stored(rt.alloc())?;
    assert_eq!(rt; unit.steps(), 2);
    assert_eq!(rt; unit.core_step(), Ok(access(2, AccessKind::Load)));
    assert_eq!(rt; unit.steps(), 3);
    assert_eq!(rt; unit.core_step(), Ok(None));
    assert_eq!(rt; unit.halted(), true);
    assert_eq!(rt; unit.steps(), 3);
    assert_eq!(rt; unit.core_step(), Err(NotEnabled));
    Ok(())
}
