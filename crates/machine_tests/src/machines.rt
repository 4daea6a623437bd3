//! A machine of one tile that stores a word and then loads it: its slots, its events from its start to its end, and its
//! report.

use core_isa::{Instr, Program};
use core_unit::InOrder;
use doc_text::Document;
use machine_core::Machine;
use mesh_gen::{Items, Mesh, NoMemory, NotEnabled, Port, Ports};
use report_text::{Access, AccessKind, Event, Finish};
use std::alloc::Global;
use std::test::Fail;

// Its events, from its start to its end.
const EVENTS: [Event; 11] = [
    Event::Core { t: 0 },
    Event::Core { t: 0 },
    Event::Inject { t: 0 },
    Event::Post { t: 0 },
    Event::Tick,
    Event::Take { t: 0 },
    Event::Eject { t: 0 },
    Event::Send { t: 0 },
    Event::DataEject {
        r: 0,
        port: Port::L,
        slot: 0,
    },
    Event::Core { t: 0 },
    Event::Core { t: 0 },
];

// Tile 0 stores 7 at address 2 and loads it again.
fn store_and_load(alloc: Global) -> Result<Program, NoMemory> {
    let instrs = [
        Instr::Li { rd: 1, n: 7 },
        Instr::St { rs: 1, ra: 0, n: 2 },
        Instr::Ld { rd: 2, ra: 0, n: 2 },
        Instr::Halt,
    ];
    Ok(Program::new(Vec::from_slice(alloc, &instrs)?))
}

// A tile, a line of memory, and this program.
fn one_tile(alloc: Global) -> Result<Document, NoMemory> {
    let mut mesh = Mesh::of_size(alloc, 1, 1, 1)?;
    mesh.lines = 1;
    mesh.sets = 1;
    Ok(Document {
        mesh,
        memory: Items::new(vec![in alloc; 0, 0, 0, 0]?),
        programs: Items::new(vec![in alloc; store_and_load(alloc)?]?),
        posts: Items::new(Vec::new(alloc)),
    })
}

fn opened(alloc: Global) -> Result<Machine<InOrder>, NoMemory> {
    Machine::open(alloc, one_tile(alloc)?, 11)
}

// An event is done, where there is room for it.
fn step(machine: &mut Machine<InOrder>, e: Event) -> Result<(), NotEnabled> {
    if machine.spare() == 0 {
        return Ok(());
    }
    machine.step(e)
}

// The event of a slot, where there is such a slot.
fn slot(machine: &Machine<InOrder>, k: u32) -> Option<Event> {
    if k < machine.slots() {
        Some(machine.slot(k))
    } else {
        None
    }
}

// How many events are possible.
fn possible(machine: &Machine<InOrder>) -> u32 {
    let mut count = 0;
    for k in 0..machine.slots() {
        if slot(machine, k).is_some_and(|e| machine.enabled(e)) {
            count = u32::saturating_add(count, 1);
        }
    }
    count
}

// The machine after all of them, one of which alone is possible each time.
fn run_to_its_end(alloc: Global) -> Result<Machine<InOrder>, Fail> {
    let mut machine = opened(alloc)?;
    for e in EVENTS {
        if possible(&machine) != 1 || machine.first_enabled() != Some(e) {
            Err(NotEnabled)?;
        }
        step(&mut machine, e)?;
    }
    Ok(machine)
}

#[test]
fn slots_name_the_events(rt: HostRuntime) -> Result<(), Fail> {
    let machine = opened(rt.alloc())?;
    assert_eq!(rt; machine.slots(), 53);
    assert_eq!(rt; slot(&machine, 0), Some(Event::Tick));
    assert_eq!(rt; slot(&machine, 1), Some(Event::Core { t: 0 }));
    let hop = Event::Hop {
        r: 0,
        port: Port::L,
        slot: 0,
        out: Port::E,
    };
    assert_eq!(rt; slot(&machine, 7), Some(hop));
    let last = Event::DataEject {
        r: 0,
        port: Port::S,
        slot: 0,
    };
    assert_eq!(rt; slot(&machine, 52), Some(last));
    Ok(())
}

// A request that has entered its own router stands at the local port, and owes its own tile alone; the data that the
// memory controller sends stands there as well.
#[test]
fn what_may_move_on_is_told_by_the_channels(rt: HostRuntime) -> Result<(), Fail> {
    let mut machine = opened(rt.alloc())?;
    assert_eq!(rt;
        (machine.no_copies(0), machine.no_messages(0)),
        (true, true)
    );
    for e in EVENTS.iter().take(3) {
        step(&mut machine, *e)?;
    }
    assert!(rt; !machine.no_copies(0));
    assert_eq!(rt;
        (
            machine.no_copies_at(0, Port::L),
            machine.no_copies_at(0, Port::E)
        ),
        (false, true)
    );
    assert_eq!(rt; machine.owed(0, Port::L, 0), Ports::L);
    assert!(rt; !machine.can_hop(0, Port::L, 0, Port::E));
    for e in EVENTS.iter().skip(3).take(5) {
        step(&mut machine, *e)?;
    }
    assert_eq!(rt;
        (
            machine.no_messages(0),
            machine.no_messages_at(0, Port::L),
            machine.no_messages_at(0, Port::S)
        ),
        (false, false, true)
    );
    Ok(())
}

#[test]
fn what_is_not_possible_is_refused(rt: HostRuntime) -> Result<(), Fail> {
    let mut machine = opened(rt.alloc())?;
    let beyond = Event::Hop {
        r: 1,
        port: Port::L,
        slot: 0,
        out: Port::E,
    };
    assert_eq!(rt; step(&mut machine, Event::Inject { t: 0 }), Err(NotEnabled));
    assert_eq!(rt; step(&mut machine, Event::Tick), Err(NotEnabled));
    assert_eq!(rt; step(&mut machine, beyond), Err(NotEnabled));
    assert_eq!(rt; (machine.length(), machine.spare()), (0, 28));
    Ok(())
}

#[test]
fn it_runs_to_its_end(rt: HostRuntime) -> Result<(), Fail> {
    let machine = run_to_its_end(rt.alloc())?;
    assert_eq!(rt; (machine.finished(), machine.first_enabled()), (true, None));
    assert_eq!(rt; (possible(&machine), machine.length()), (0, 11));
    let report = machine.into_report();
    let store = Access {
        tile: 0,
        number: 1,
        kind: AccessKind::Store,
        address: 2,
        value: 7,
        time: 1,
        old: 0,
    };
    let load = Access {
        number: 2,
        kind: AccessKind::Load,
        ..store
    };
    assert_eq!(rt; report.accesses.as_slice(), [store, load].as_slice());
    assert_eq!(rt; report.memory.as_slice(), [0, 0, 7, 0].as_slice());
    assert_eq!(rt; report.steps.as_slice(), [3].as_slice());
    assert_eq!(rt; (report.journal.length(), report.windows), (11, 1));
    assert_eq!(rt; report.ended, Finish::Finished);
    Ok(())
}

#[test]
fn it_is_taken_apart_and_put_together(rt: HostRuntime) -> Result<(), Fail> {
    let mut machine = opened(rt.alloc())?;
    step(&mut machine, Event::Core { t: 0 })?;
    let mut machine = Machine::from_parts(machine.into_parts());
    step(&mut machine, Event::Core { t: 0 })?;
    let report = machine.into_report();
    assert_eq!(rt;
        (report.journal.length(), report.memory.as_slice().len()),
        (2, 0)
    );
    assert_eq!(rt; report.ended, Finish::Budget);
    Ok(())
}
