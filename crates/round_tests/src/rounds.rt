//! Rounds with a thread for each tile: what they leave, and that several threads share the work.
ghost use Rattle.std.specs.Prelude.{◌≡◌, ◌<◌, ◌+◌, ◌*◌, [], IfOk};
ghost use Rattle.mesh_gen.specs.Limits.{IsFrom};
ghost use Rattle.chip_model.specs.Chip.{chip_of, tile_count};

use core_unit::InOrder;
use doc_text::Document;
use flat_ref::{CheckEnd, check};
use machine_core::Machine;
use mesh_doc::read_document;
use order_witness::witness;
use report_text::{AccessKind, Event, Finish, Report};
use std::alloc::Global;
use std::sync::atomic::AtomicU64;
use std::sync::atomic::Ordering::SeqCst;
use std::test::Fail;
use std::thread::Threads;
use tile_pool::{Gate, Rounded, round, run_tiles};

// A tile that stores a word and loads it.
const ONE_TILE: &str = "[mesh]\ncols = 1\nrows = 1\nwindow = 1\nlines = 1\nsets = 1\n\
    [[core]]\ntile = 0\ncode = '''\nli r1 7\nst r1 r0 2\nld r2 r0 2\nhalt'''\n";

// Two tiles: each stores to its word, and then loads that of the other.
const STORE_BUFFERING: &str = "[mesh]\ncols = 2\nrows = 1\nwindow = 1\nlines = 2\nsets = 2\n\
    [[core]]\ntile = 0\ncode = '''\nli r1 1\nst r1 r0 0\nld r2 r0 4'''\n\
    [[core]]\ntile = 1\ncode = '''\nli r1 1\nst r1 r0 4\nld r2 r0 0'''\n";

// Four tiles that each add 1 to one word.
const ADDS: &str = "[mesh]\ncols = 2\nrows = 2\nwindow = 2\nlines = 1\nsets = 1\n\
    [[core]]\ntile = 0\ncode = \"li r1 1\\nfadd r1 r0 0\"\n\
    [[core]]\ntile = 1\ncode = \"li r1 1\\nfadd r1 r0 0\"\n\
    [[core]]\ntile = 2\ncode = \"li r1 1\\nfadd r1 r0 0\"\n\
    [[core]]\ntile = 3\ncode = \"li r1 1\\nfadd r1 r0 0\"\n";

// How many turns of its loop a worker waits for another one before it gives up.
const PATIENCE: u32 = 50_000_000;

// Holds nobody back.
struct OpenGate;

impl Gate for OpenGate {
    fn pass(&self, _tile: u8, _turn: u32) {}
}

// At their first passes the tiles 0 and 1 wait for each other.
#[derive(Drop)]
struct MeetingGate {
    passed: [AtomicU64; 2],
    // Bit t: tile t gave up.
    gave_up: AtomicU64,
}

impl MeetingGate {
    fn new() -> MeetingGate {
        MeetingGate {
            passed: [AtomicU64::new(0), AtomicU64::new(0)],
            gave_up: AtomicU64::new(0),
        }
    }

    fn wait_for(&self, tile: u8, other: usize)
        requires { other < 2 }
    {
        for _ in 0..PATIENCE {
            if self.passed[other].load(SeqCst) > 0 {
                return;
            }
        }
        self.gave_up.fetch_add(1 << (tile % 2), SeqCst);
    }
}

impl Gate for MeetingGate {
    fn pass(&self, tile: u8, turn: u32) {
        let own = usize::from(tile % 2);
        self.passed[own].fetch_add(1, SeqCst);
        if turn == 0 {
            self.wait_for(tile, 1 - own);
        }
    }
}

// Tile 1 waits until tile 0 has passed in this round, and then a while, so that both may have the turn.
#[derive(Drop)]
struct LateGate {
    // The round after the last one in which tile 0 passed.
    next: AtomicU64,
    gave_up: AtomicU64,
}

impl LateGate {
    fn wait_for(&self, turn: u64) {
        for _ in 0..PATIENCE {
            if self.next.load(SeqCst) > turn {
                return;
            }
        }
        self.gave_up.fetch_add(1, SeqCst);
    }

    fn linger(&self) {
        for _ in 0..1_000_000_u32 {
            self.next.load(SeqCst);
        }
    }
}

impl Gate for LateGate {
    fn pass(&self, tile: u8, turn: u32) {
        if tile == 0 {
            self.next.store(u64::from(turn) + 1, SeqCst);
        } else {
            self.wait_for(u64::from(turn));
            self.linger();
        }
    }
}

fn opened(alloc: Global, text: &str, budget: u32) -> Result<Machine<InOrder>, Fail>
    requires { IsFrom 1 4000000 budget }
    ensures room { IfOk result (λ machine.
        machine.room ≡ budget + 17 * tile_count (chip_of machine.document)) }
    ensures empty { IfOk result (λ machine. machine.state.journal ≡ []) }
{
    let document = read_document(alloc, text.as_bytes())?;
    Ok(Machine::open(alloc, document, budget)?)
}

// A round, where there is room for those of 64 tiles. Where there is none it is told as left out.
fn round_within<R: Threads + Sync, G: Gate>(
    rt: &R,
    alloc: Global,
    machine: Machine<InOrder>,
    gate: &G,
    turn: u32,
) -> (Machine<InOrder>, Rounded) {
    machine.stands();
    if machine.spare() < 17 * 64 {
        return (machine, Rounded::NoMemory);
    }
    round(rt, alloc, machine, gate, turn)
}

// The report of a run by threads, with no round left out.
fn run_by_threads<R: Threads + Sync, G: Gate>(
    rt: &R,
    alloc: Global,
    text: &str,
    gate: &G,
) -> Result<Report, Fail> {
    let machine = opened(alloc, text, 1000)?;
    let (machine, finish, left) = run_tiles(rt, alloc, machine, 1000, gate);
    if left != 0 || finish != Finish::Finished {
        return Err(Fail::new("a round was left out, or the budget was spent"));
    }
    Ok(witness(machine))
}

// Whether a report's accesses are a sequential execution that ends in its memory.
fn is_accepted(alloc: Global, text: &str, report: &Report) -> Result<bool, Fail> {
    let document = read_document(alloc, text.as_bytes())?;
    let steps = report.steps.as_slice();
    let accesses = report.accesses.as_slice();
    let fit = steps.len() == document.programs.as_slice().len()
        && steps.iter().all(|n| *n < 1 << 62)
        && accesses.iter().all(|a| a.number < 1 << 62);
    if !fit {
        return Ok(false);
    }
    match check(alloc, &document, accesses, steps) {
        Ok(flat) => Ok(flat.memory.as_slice() == report.memory.as_slice()),
        Err(CheckEnd::FirstBad { .. }) => Ok(false),
        Err(CheckEnd::NoMemory) => Err(Fail::new("no memory is left")),
    }
}

// Two events of its core and the injection of the request that the store misses on: what comes next is the post.
#[test]
fn a_round_does_core_events_and_one_turn(rt: HostRuntime) -> Result<(), Fail> {
    let machine = opened(rt.alloc(), ONE_TILE, 2000)?;
    let (machine, rounded) = round_within(&rt, rt.alloc(), machine, &OpenGate, 0);
    assert_eq!(rt; rounded, Rounded::Made { had: 1 });
    assert_eq!(rt;
        (machine.length(), machine.first_enabled()),
        (3, Some(Event::Post { t: 0 }))
    );
    Ok(())
}

#[test]
fn four_tiles_add_to_one_word(rt: HostRuntime) -> Result<(), Fail> {
    let report = run_by_threads(&rt, rt.alloc(), ADDS, &OpenGate)?;
    let mut old = 0;
    for access in report.accesses.as_slice() {
        assert_eq!(rt; (access.kind, access.old), (AccessKind::Add, old));
        old = u32::saturating_add(old, 1);
    }
    assert_eq!(rt; old, 4);
    assert!(rt; is_accepted(rt.alloc(), ADDS, &report)?);
    Ok(())
}

#[test]
fn two_workers_are_under_way_at_one_time(rt: HostRuntime) -> Result<(), Fail> {
    let gate = MeetingGate::new();
    let report = run_by_threads(&rt, rt.alloc(), STORE_BUFFERING, &gate)?;
    let gave_up = gate.gave_up.load(SeqCst);
    assert!(rt;
        gave_up == 0,
        "waited in vain for another worker: tiles of the set {gave_up}"
    );
    assert!(rt; is_accepted(rt.alloc(), STORE_BUFFERING, &report)?);
    Ok(())
}

#[test]
fn two_tiles_have_the_turn_of_one_round(rt: HostRuntime) -> Result<(), Fail> {
    let gate = LateGate {
        next: AtomicU64::new(0),
        gave_up: AtomicU64::new(0),
    };
    let mut machine = opened(rt.alloc(), STORE_BUFFERING, 4000)?;
    let mut both = 0;
    for turn in 0..20_u32 {
        let (next, rounded) = round_within(&rt, rt.alloc(), machine, &gate, turn);
        machine = next;
        if rounded == (Rounded::Made { had: 3 }) {
            both = u32::saturating_add(both, 1);
        }
    }
    assert!(rt;
        gate.gave_up.load(SeqCst) == 0,
        "tile 1 waited in vain for tile 0"
    );
    assert!(rt; both > 0, "in no round had both tiles the turn");
    Ok(())
}
