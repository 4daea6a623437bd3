//! Runs by paces: the bound, programs that go forward, and sweeps by closures that a test gives.
ghost use Rattle.std.specs.Prelude.{◌<◌};
ghost use Rattle.mesh_gen.specs.Limits.{IsFrom};
ghost use Rattle.pace_core.specs.Offsets.{AnswersBelow};

use core_unit::InOrder;
use doc_text::Document;
use flat_ref::{CheckEnd, check};
use machine_core::Machine;
use mesh_doc::read_document;
use order_witness::witness;
use outside_io::MemSink;
use pace_core::Pace;
use progress_core::{bound, forward_only, run_paced};
use report_text::{Event, Finish, Report, write_report};
use std::alloc::Global;
use std::process::Abort;
use std::test::Fail;

// A tile that stores a word and loads it: one event at a time is possible.
const ONE_TILE: &str = "[mesh]\ncols = 1\nrows = 1\nwindow = 1\nlines = 1\nsets = 1\n\
    [[core]]\ntile = 0\ncode = '''\nli r1 7\nst r1 r0 2\nld r2 r0 2\nhalt'''\n";

const ONE_TILE_TEXT: &str = "requests 1\nq 0 0 0 GetM 0\nseen 1\ns 0 1 3\naccesses 2\n\
    a 0 1 st 2 7 1\na 0 2 ld 2 7 1\nmemory 1\nm 0 0 0 7 0\nwindows 1\nhops 0\njournal 11\n\
    e core 0\ne core 0\ne inject 0\ne post 0\ne tick\ne take 0\ne eject 0\ne send 0\n\
    e dataeject 0 l 0\ne core 0\ne core 0\nended finished\n";

// Two tiles: each stores to its word, and then loads that of the other.
const STORE_BUFFERING: &str = "[mesh]\ncols = 2\nrows = 1\nwindow = 1\nlines = 2\nsets = 2\n\
    [[core]]\ntile = 0\ncode = '''\nli r1 1\nst r1 r0 0\nld r2 r0 4'''\n\
    [[core]]\ntile = 1\ncode = '''\nli r1 1\nst r1 r0 4\nld r2 r0 0'''\n";

// Two tiles: one writes a word and then a flag, for which the other waits in a loop.
const MESSAGE_PASSING: &str = "[mesh]\ncols = 2\nrows = 1\nwindow = 1\nlines = 2\nsets = 2\n\
    [[core]]\ntile = 0\ncode = '''\nli r1 5\nst r1 r0 0\nli r2 1\nst r2 r0 4'''\n\
    [[core]]\ntile = 1\ncode = '''\nwait: ld r1 r0 4\nbeq r1 r0 wait\nld r2 r0 0'''\n";

// Where the mix of a sweep takes its offsets from.
const TABLE: [u32; 5] = [3, 1, 4, 1, 5];

// A run of a document by a pace, to its end or the end of its budget.
fn run_by<F: Fn(u64, u32) -> u32>(
    alloc: Global,
    text: &str,
    pace: &Pace<F>,
    budget: u32,
) -> Result<Report, Fail>
    requires below { AnswersBelow (F.pre pace.now) (F.post pace.now) }
    requires budget { IsFrom 1 4000000 budget }
{
    let document = read_document(alloc, text.as_bytes())?;
    let mut machine: Machine<InOrder> = Machine::open(alloc, document, budget)?;
    run_paced(&mut machine, pace, budget);
    Ok(witness(machine))
}

// The text of a report.
fn text_of(alloc: Global, report: &Report) -> Result<MemSink, Fail> {
    let mut sink = MemSink::new(vec![in alloc; 0; 4096]?, Vec::new(alloc));
    if report.seen.as_slice().len() != report.steps.as_slice().len()
        || report.memory.as_slice().len() % 4 != 0
    {
        return Err(Fail::new("a report of another form"));
    }
    write_report(report, &mut sink)?;
    Ok(sink)
}

#[test]
fn the_bound_of_one_tile_and_of_many(rt: HostRuntime) -> Result<(), Fail> {
    let document = read_document(rt.alloc(), ONE_TILE.as_bytes())?;
    assert_eq!(rt; bound(&document), 80);
    let mut text = String::from_str(rt.alloc(), "[mesh]\ncols = 6\nrows = 6\nwindow = 10\n")?;
    for t in 0..36 {
        let core = format!(in rt.alloc();
            "[[core]]\ntile = {t}\ncode = \"tid r1\\nst r1 r0 0\"\n"
        )?;
        text.push_str(core.as_str())?;
    }
    let document = read_document(rt.alloc(), text.as_bytes())?;
    assert_eq!(rt; bound(&document), 28_512);
    Ok(())
}

#[test]
fn a_loop_does_not_go_forward(rt: HostRuntime) -> Result<(), Fail> {
    let document = read_document(rt.alloc(), ONE_TILE.as_bytes())?;
    assert!(rt; forward_only(&document));
    let document = read_document(rt.alloc(), MESSAGE_PASSING.as_bytes())?;
    assert!(rt; !forward_only(&document));
    Ok(())
}

#[test]
fn the_first_possible_event_of_one_tile_is_its_core(rt: HostRuntime) -> Result<(), Fail> {
    let document = read_document(rt.alloc(), ONE_TILE.as_bytes())?;
    let machine: Machine<InOrder> = Machine::open(rt.alloc(), document, 100)?;
    assert_eq!(rt; machine.first_enabled(), Some(Event::Core { t: 0 }));
    Ok(())
}

// Whether a report's accesses are a sequential execution that ends in its memory.
fn is_accepted(alloc: Global, text: &str, report: &Report) -> Result<bool, Fail> {
    let document = read_document(alloc, text.as_bytes())?;
    let steps = report.steps.as_slice();
    let accesses = report.accesses.as_slice();
    let fit = steps.len() == document.programs.as_slice().len()
        && steps.iter().all(|n| *n < 1 << 62)
        && accesses.iter().all(|a| a.number < 1 << 62);
    if !fit {
        return Ok(false);
    }
    match check(alloc, &document, accesses, steps) {
        Ok(flat) => Ok(flat.memory.as_slice() == report.memory.as_slice()),
        Err(CheckEnd::FirstBad { .. }) => Ok(false),
        Err(CheckEnd::NoMemory) => Err(Fail::new("no memory is left")),
    }
}

// A pace runs one tile to its journal, and two tiles that store and load to a sequential execution.
fn runs_to_the_end<F: Fn(u64, u32) -> u32>(
    rt: &impl Abort,
    alloc: Global,
    pace: &Pace<F>,
) -> Result<(), Fail>
    requires { AnswersBelow (F.pre pace.now) (F.post pace.now) }
{
    let report = run_by(alloc, ONE_TILE, pace, 100)?;
    assert_eq!(rt; text_of(alloc, &report)?.held(), ONE_TILE_TEXT.as_bytes());
    let report = run_by(alloc, STORE_BUFFERING, pace, 1000)?;
    assert_eq!(rt; report.ended, Finish::Finished);
    assert!(rt; is_accepted(alloc, STORE_BUFFERING, &report)?);
    Ok(())
}

#[test]
fn sweeps_from_the_first_slot(rt: HostRuntime) -> Result<(), Fail> {
    let pace = Pace::new(
        |_sweep: u64, slots: u32| -> u32
            requires { 0 < slots }
            ensures { result < slots }
        { 0 },
    );
    runs_to_the_end(&rt, rt.alloc(), &pace)
}

#[test]
fn sweeps_from_the_last_slot(rt: HostRuntime) -> Result<(), Fail> {
    let pace = Pace::new(
        |_sweep: u64, slots: u32| -> u32
            requires { 0 < slots }
            ensures { result < slots }
        { slots - 1 },
    );
    runs_to_the_end(&rt, rt.alloc(), &pace)
}

#[test]
fn sweeps_by_a_table_that_the_closure_holds(rt: HostRuntime) -> Result<(), Fail> {
    let table = TABLE;
    let pace = Pace::new(
        move |sweep: u64, slots: u32| -> u32
            requires { 0 < slots }
            ensures { result < slots }
        { (table[(sweep % 5) as usize] ^ (sweep % 1024) as u32) % slots },
    );
    runs_to_the_end(&rt, rt.alloc(), &pace)
}

#[test]
fn a_budget_ends_a_run(rt: HostRuntime) -> Result<(), Fail> {
    let pace = Pace::new(
        |_sweep: u64, slots: u32| -> u32
            requires { 0 < slots }
            ensures { result < slots }
        { 0 },
    );
    let report = run_by(rt.alloc(), ONE_TILE, &pace, 1)?;
    assert_eq!(rt; report.ended, Finish::Budget);
    assert_eq!(rt; report.journal.length(), 1);
    Ok(())
}
