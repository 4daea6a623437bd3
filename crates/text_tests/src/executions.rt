//! Lists of accesses that are sequential executions.
ghost use Rattle.std.specs.Prelude.{◌≡◌, IfOk, length};

use core_isa::assemble;
use doc_text::Document;
use flat_ref::check;
use mesh_gen::{Items, Mesh};
use report_text::{Access, AccessKind};
use std::alloc::Global;
use std::test::Fail;

// An access of tile 0 to address 0.
const FIRST: Access = Access {
    tile: 0,
    number: 1,
    kind: AccessKind::Store,
    address: 0,
    value: 7,
    time: 1,
    old: 0,
};

// A tile, a line of memory, and a program.
fn one_tile(alloc: Global, first_word: u32, code: &str) -> Result<Document, Fail>
    ensures { IfOk result (λ document. length document.programs ≡ 1) }
{
    let program = assemble(alloc, code)?;
    let mut mesh = Mesh::of_size(alloc, 1, 1, 1)?;
    mesh.lines = 1;
    Ok(Document {
        mesh,
        memory: Items::new(vec![in alloc; first_word, 0, 0, 0]?),
        programs: Items::new(vec![in alloc; program]?),
        posts: Items::new(Vec::new(alloc)),
    })
}

#[test]
fn a_store_and_its_load(rt: HostRuntime) -> Result<(), Fail> {
    let document = one_tile(rt.alloc(), 0, "li r1 7\nst r1 r0 2\nld r2 r0 2\nhalt")?;
    let store = Access {
        address: 2,
        ..FIRST
    };
    let load = Access {
        number: 2,
        kind: AccessKind::Load,
        ..store
    };
    let flat = check(rt.alloc(), &document, &[store, load], &[3])?;
    assert_eq!(rt; flat.memory.as_slice(), [0, 0, 7, 0].as_slice());
    Ok(())
}

#[test]
fn an_address_wraps_in_one_line(rt: HostRuntime) -> Result<(), Fail> {
    let document = one_tile(rt.alloc(), 0, "ld r1 r0 6\nhalt")?;
    let load = Access {
        number: 0,
        kind: AccessKind::Load,
        address: 2,
        value: 0,
        ..FIRST
    };
    let flat = check(rt.alloc(), &document, &[load], &[1])?;
    assert_eq!(rt; flat.memory.as_slice(), [0, 0, 0, 0].as_slice());
    Ok(())
}

#[test]
fn an_add_and_a_swap(rt: HostRuntime) -> Result<(), Fail> {
    let document = one_tile(rt.alloc(), 10, "li r1 3\nfadd r1 r0 0\nswap r1 r0 0\nhalt")?;
    let add = Access {
        kind: AccessKind::Add,
        value: 13,
        old: 10,
        ..FIRST
    };
    let swap = Access {
        number: 2,
        kind: AccessKind::Swap,
        value: 10,
        old: 13,
        ..FIRST
    };
    let flat = check(rt.alloc(), &document, &[add, swap], &[3])?;
    assert_eq!(rt; flat.memory.as_slice(), [10, 0, 0, 0].as_slice());
    Ok(())
}

// Two tiles with one program, and two lines of memory.
fn two_tiles(alloc: Global, code: &str) -> Result<Document, Fail>
    ensures { IfOk result (λ document. length document.programs ≡ 2) }
{
    let mut mesh = Mesh::of_size(alloc, 2, 1, 1)?;
    mesh.lines = 2;
    let first = assemble(alloc, code)?;
    let second = assemble(alloc, code)?;
    Ok(Document {
        mesh,
        memory: Items::new(vec![in alloc; 0, 0, 0, 0, 0, 0, 0, 0]?),
        programs: Items::new(vec![in alloc; first, second]?),
        posts: Items::new(Vec::new(alloc)),
    })
}

// An add of 1 to the count, which is the old word.
const COUNT: Access = Access {
    tile: 0,
    number: 2,
    kind: AccessKind::Add,
    address: 0,
    value: 1,
    time: 0,
    old: 0,
};

// Each core counts twice: the program of examples/counter.toml.
const COUNTING: [Access; 4] = [
    COUNT,
    Access {
        tile: 1,
        value: 2,
        old: 1,
        ..COUNT
    },
    Access {
        tile: 1,
        number: 6,
        value: 3,
        old: 2,
        ..COUNT
    },
    Access {
        number: 6,
        value: 4,
        old: 3,
        ..COUNT
    },
];

#[test]
fn cores_count_together(rt: HostRuntime) -> Result<(), Fail> {
    let code = "li r1 2\nnext: li r2 1\nfadd r2 r0 0\naddi r3 r3 1\nbne r3 r1 next";
    let document = two_tiles(rt.alloc(), code)?;
    let flat = check(rt.alloc(), &document, &COUNTING, &[9, 9])?;
    assert_eq!(rt; flat.memory.as_slice(), [4, 0, 0, 0, 0, 0, 0, 0].as_slice());
    Ok(())
}

// A swap that takes the lock, whose word was 0.
const TAKE: Access = Access {
    tile: 0,
    number: 1,
    kind: AccessKind::Swap,
    address: 0,
    value: 1,
    time: 0,
    old: 0,
};

// A load of the counter that the lock guards, before anybody counts.
const READ: Access = Access {
    tile: 0,
    number: 3,
    kind: AccessKind::Load,
    address: 4,
    value: 0,
    time: 0,
    old: 0,
};

// A store of the counter, and a store that opens the lock.
const WRITE: Access = Access {
    number: 5,
    kind: AccessKind::Store,
    value: 1,
    ..READ
};

const OPEN: Access = Access {
    number: 6,
    address: 0,
    value: 0,
    ..WRITE
};

// Core 1 finds the lock taken, and takes it once it is open: the program of examples/lock.toml.
const LOCKING: [Access; 9] = [
    TAKE,
    Access {
        tile: 1,
        old: 1,
        ..TAKE
    },
    READ,
    WRITE,
    OPEN,
    Access {
        tile: 1,
        number: 3,
        ..TAKE
    },
    Access {
        tile: 1,
        number: 5,
        value: 1,
        ..READ
    },
    Access {
        tile: 1,
        number: 7,
        value: 2,
        ..WRITE
    },
    Access {
        tile: 1,
        number: 8,
        ..OPEN
    },
];

#[test]
fn cores_take_turns_at_a_lock(rt: HostRuntime) -> Result<(), Fail> {
    let code =
        "li r1 1\ntake: swap r1 r0 0\nbne r1 r2 take\nld r3 r0 4\naddi r3 r3 1\nst r3 r0 4\nst r2 r0 0";
    let document = two_tiles(rt.alloc(), code)?;
    let flat = check(rt.alloc(), &document, &LOCKING, &[7, 9])?;
    assert_eq!(rt; flat.memory.as_slice(), [0, 0, 0, 0, 2, 0, 0, 0].as_slice());
    Ok(())
}
