use crate::fixtures::{done, done_from};
use commands::{Outcome, Stop};
use outside_io::MemSource;
use report_text::{AccessKind, Finish};
use std::alloc::{AllocError, Global};
use std::test::Fail;

// A core that stores to a word and loads it again.
const ONE_CORE: &str =
    "[mesh]\ncols = 1\nrows = 1\nwindow = 1\nlines = 1\nsets = 1\n[[core]]\ntile = 0\ncode = '''\nli r1 7\nst r1 r0 2\nld r2 r0 2\nhalt\n'''\n";

// Its report, line by line.
const ONE_CORE_LINES: [&str; 24] = [
    "requests 1\n",
    "q 0 0 0 GetM 0\n",
    "seen 1\n",
    "s 0 1 3\n",
    "accesses 2\n",
    "a 0 1 st 2 7 1\n",
    "a 0 2 ld 2 7 1\n",
    "memory 1\n",
    "m 0 0 0 7 0\n",
    "windows 1\n",
    "hops 0\n",
    "journal 11\n",
    "e core 0\n",
    "e core 0\n",
    "e inject 0\n",
    "e post 0\n",
    "e tick\n",
    "e take 0\n",
    "e eject 0\n",
    "e send 0\n",
    "e dataeject 0 l 0\n",
    "e core 0\n",
    "e core 0\n",
    "ended finished\n",
];

// The first lines of that report.
fn first_lines(alloc: Global, count: usize) -> Result<String, AllocError> {
    let mut text = String::new(alloc);
    for line in ONE_CORE_LINES.iter().take(count) {
        text.push_str(line)?;
    }
    Ok(text)
}

#[test]
fn a_run_of_one_core_is_the_same_by_every_pace_and_by_threads(rt: HostRuntime) -> Result<(), Fail> {
    let alloc = rt.alloc();
    let text = first_lines(alloc, 24)?;
    let forms: [&[&str]; 6] = [
        &["step"],
        &["step", "--pace", "1"],
        &["step", "--budget", "11"],
        &["step", "--pace", "4294967295", "--budget", "00011"],
        &["run"],
        &["run", "--budget", "11"],
    ];
    for words in forms {
        let (outcome, sink) = done(&rt, alloc, words, ONE_CORE, &[])?;
        assert!(rt; outcome.result.is_ok());
        assert_eq!(rt; outcome.left, 0);
        assert_eq!(rt; sink.held(), text.as_bytes());
    }
    Ok(())
}

// A budget, and what is written where it is spent.
const SPENT: [(&str, &str); 2] = [
    (
        "10",
        "requests 1\nq 0 0 0 GetM 0\nseen 1\ns 0 1 3\naccesses 2\na 0 1 st 2 7 1\na 0 2 ld 2 7 1\nmemory 0\nwindows 1\nhops 0\njournal 10\ne core 0\ne core 0\ne inject 0\ne post 0\ne tick\ne take 0\ne eject 0\ne send 0\ne dataeject 0 l 0\ne core 0\nended budget\n",
    ),
    (
        "1",
        "requests 0\nseen 1\ns 0 0 1\naccesses 0\nmemory 0\nwindows 0\nhops 0\njournal 1\ne core 0\nended budget\n",
    ),
];

#[test]
fn a_spent_budget_ends_a_run_early(rt: HostRuntime) -> Result<(), Fail> {
    let alloc = rt.alloc();
    for (budget, text) in SPENT {
        let (outcome, sink) = done(&rt, alloc, &["step", "--budget", budget], ONE_CORE, &[])?;
        assert!(rt; outcome.result.is_ok());
        assert_eq!(rt; sink.held(), text.as_bytes());
    }
    Ok(())
}

#[test]
fn a_budget_of_one_event_leaves_no_round(rt: HostRuntime) -> Result<(), Fail> {
    let alloc = rt.alloc();
    let (_, text) = SPENT[1];
    let (outcome, sink) = done(&rt, alloc, &["run", "--budget", "1"], ONE_CORE, &[])?;
    assert!(rt; outcome.result.is_ok());
    assert_eq!(rt; sink.held(), text.as_bytes());
    Ok(())
}

#[test]
fn a_write_that_fails_leaves_the_lines_before_it(rt: HostRuntime) -> Result<(), Fail> {
    let alloc = rt.alloc();
    for failing in 0..24_u32 {
        let (outcome, sink) = done(&rt, alloc, &["step"], ONE_CORE, &[failing])?;
        assert!(rt; matches!(&outcome.result, Err(Stop::WriteFault)));
        assert!(rt; outcome.report.is_some());
        let lines = first_lines(alloc, failing as usize)?;
        assert_eq!(rt; sink.held(), lines.as_bytes(), "at {failing}");
    }
    Ok(())
}

// How many bytes a read of these tests gives, and how many reads the description of one core then takes: the last finds its end.
const PIECE: u32 = 16;

const READS: u32 = 9;

#[test]
fn a_read_that_fails_leaves_nothing_written(rt: HostRuntime) -> Result<(), Fail> {
    let alloc = rt.alloc();
    for failing in 0..READS + 1 {
        let bytes = Vec::from_slice(alloc, ONE_CORE.as_bytes())?;
        let source = MemSource::new(bytes, PIECE, vec![in alloc; failing; 1]?);
        let (outcome, sink) = done_from(&rt, alloc, &["step"], source, &[])?;
        if failing < READS {
            assert!(rt;
                matches!(&outcome.result, Err(Stop::ReadFault)),
                "at {failing}"
            );
            assert!(rt; outcome.report.is_none());
            assert!(rt; sink.held().is_empty());
        } else {
            assert!(rt; outcome.result.is_ok());
        }
    }
    Ok(())
}

// Two cores that each store to a word of their own and load that of the other.
const STORES_AND_LOADS: &str =
    "[mesh]\ncols = 2\nrows = 1\nwindow = 1\nlines = 2\nsets = 2\n[[core]]\ntile = 0\ncode = '''\nli r1 1\nst r1 r0 0\nld r2 r0 4\n'''\n[[core]]\ntile = 1\ncode = '''\nli r1 1\nst r1 r0 4\nld r2 r0 0\n'''\n";

// Documents, and how their reports begin: no core; stores and loads; a line that is written back; an add and a swap; four
// tiles that add to one word; four tiles that store to words of one line.
const HEADS: [(&str, &str); 6] = [
    (
        "mesh = { cols = 2, rows = 2, window = 2, lines = 1 }\n",
        "requests 0\nseen 4\ns 0 0 0\ns 1 0 0\ns 2 0 0\ns 3 0 0\naccesses 0\nmemory 1\nm 0 0 0 0 0\nwindows 0\nhops 0\njournal 4\ne core 0\ne core 1\ne core 2\ne core 3\nended finished\n",
    ),
    (
        STORES_AND_LOADS,
        "requests 4\nq 0 0 0 GetM 0\nq 1 1 0 GetM 1\nq 2 0 1 GetS 1\nq 3 1 1 GetS 0\nseen 2\ns 0 4 3\ns 1 4 3\naccesses 4\na 0 1 st 0 1 1\na 1 1 st 4 1 2\na 0 2 ld 4 1 3\na 1 2 ld 0 1 4\nmemory 2\nm 0 1 0 0 0\nm 1 1 0 0 0\nwindows 3\nhops 4\njournal 48\n",
    ),
    (
        "[mesh]\ncols = 1\nrows = 1\nwindow = 1\nlines = 2\nsets = 1\n[[core]]\ntile = 0\ncode = '''\nli r1 9\nst r1 r0 0\nld r2 r0 4\n'''\n",
        "requests 3\nq 0 0 0 GetM 0\nq 1 0 1 PutM 0\nq 2 0 2 GetS 1\nseen 1\ns 0 3 3\naccesses 2\na 0 1 st 0 9 1\na 0 2 ld 4 0 3\nmemory 2\nm 0 9 0 0 0\nm 1 0 0 0 0\nwindows 3\nhops 0\njournal 26\n",
    ),
    (
        "[mesh]\ncols = 1\nrows = 1\nwindow = 1\nlines = 1\nsets = 1\nmemory = [10]\n[[core]]\ntile = 0\ncode = '''\nli r1 3\nfadd r1 r0 0\nswap r1 r0 0\nhalt\n'''\n",
        "requests 1\nq 0 0 0 GetM 0\nseen 1\ns 0 1 3\naccesses 2\na 0 1 fa 0 13 1 10\na 0 2 sw 0 10 1 13\nmemory 1\nm 0 10 0 0 0\nwindows 1\nhops 0\njournal 11\n",
    ),
    (
        "[mesh]\ncols = 2\nrows = 2\nwindow = 2\nlines = 1\nsets = 1\n[[core]]\ntile = 0\ncode = \"li r1 1\\nfadd r1 r0 0\"\n[[core]]\ntile = 1\ncode = \"li r1 1\\nfadd r1 r0 0\"\n[[core]]\ntile = 2\ncode = \"li r1 1\\nfadd r1 r0 0\"\n[[core]]\ntile = 3\ncode = \"li r1 1\\nfadd r1 r0 0\"\n",
        "requests 4\nq 0 0 0 GetM 0\nq 1 1 0 GetM 0\nq 2 2 0 GetM 0\nq 3 3 0 GetM 0\nseen 4\ns 0 4 2\ns 1 4 2\ns 2 4 2\ns 3 4 2\naccesses 4\na 0 1 fa 0 1 1 0\na 1 1 fa 0 2 2 1\na 2 1 fa 0 3 3 2\na 3 1 fa 0 4 4 3\nmemory 1\nm 0 4 0 0 0\nwindows 1\nhops 12\n",
    ),
    (
        "[mesh]\ncols = 2\nrows = 2\nwindow = 2\nlines = 1\nsets = 1\n[[core]]\ntile = 0\ncode = \"tid r1\\naddi r2 r1 10\\nst r2 r1 0\"\n[[core]]\ntile = 1\ncode = \"tid r1\\naddi r2 r1 10\\nst r2 r1 0\"\n[[core]]\ntile = 2\ncode = \"tid r1\\naddi r2 r1 10\\nst r2 r1 0\"\n[[core]]\ntile = 3\ncode = \"tid r1\\naddi r2 r1 10\\nst r2 r1 0\"\n",
        "requests 4\nq 0 0 0 GetM 0\nq 1 1 0 GetM 0\nq 2 2 0 GetM 0\nq 3 3 0 GetM 0\nseen 4\ns 0 4 3\ns 1 4 3\ns 2 4 3\ns 3 4 3\naccesses 4\na 0 2 st 0 10 1\na 1 2 st 1 11 2\na 2 2 st 2 12 3\na 3 2 st 3 13 4\nmemory 1\nm 0 10 11 12 13\nwindows 1\nhops 12\n",
    ),
];

#[test]
fn reports_of_whole_runs(rt: HostRuntime) -> Result<(), Fail> {
    let alloc = rt.alloc();
    for (text, head) in HEADS {
        let (outcome, sink) = done(&rt, alloc, &["step"], text, &[])?;
        assert!(rt; outcome.result.is_ok());
        assert!(rt; sink.held().starts_with(head.as_bytes()), "of {text}");
        assert!(rt; sink.held().ends_with(b"\nended finished\n"));
    }
    Ok(())
}

// How many loads of a run received 0.
fn loads_of_zero(outcome: &Outcome) -> u64 {
    let mut count: u64 = 0;
    if let Some(report) = &outcome.report {
        for access in report.accesses.as_slice() {
            if access.kind == AccessKind::Load && access.value == 0 {
                count = count.saturating_add(1);
            }
        }
    }
    count
}

#[test]
fn no_pace_lets_both_loads_read_0(rt: HostRuntime) -> Result<(), Fail> {
    let alloc = rt.alloc();
    for number in 0..21_u32 {
        let pace = format!(in alloc; "{number}")?;
        let words = ["step", "--pace", pace.as_str()];
        let (outcome, _sink) = done(&rt, alloc, &words, STORES_AND_LOADS, &[])?;
        assert!(rt; outcome.result.is_ok());
        assert!(rt; loads_of_zero(&outcome) < 2, "at pace {number}");
    }
    Ok(())
}

// A core writes a message and then a flag; another one spins on the flag and then reads the message.
const FLAG: &str =
    "[mesh]\ncols = 2\nrows = 1\nwindow = 1\nlines = 2\nsets = 2\n[[core]]\ntile = 0\ncode = '''\nli r1 5\nst r1 r0 0\nli r2 1\nst r2 r0 4\n'''\n[[core]]\ntile = 1\ncode = '''\nwait: ld r1 r0 4\nbeq r1 r0 wait\nld r2 r0 0\n'''\n";

// How many events a run had, and how it ended.
fn length_and_end(outcome: &Outcome) -> Option<(u64, Finish)> {
    let report = outcome.report.as_ref()?;
    Some((report.journal.length(), report.ended))
}

// The last access of a tile: its kind, address and value.
fn last_access(outcome: &Outcome, tile: u8) -> Option<(AccessKind, u32, u32)> {
    let mut last = None;
    for access in outcome.report.as_ref()?.accesses.as_slice() {
        if access.tile == tile {
            last = Some((access.kind, access.address, access.value));
        }
    }
    last
}

#[test]
fn a_message_is_read_after_its_flag(rt: HostRuntime) -> Result<(), Fail> {
    let alloc = rt.alloc();
    let (outcome, _sink) = done(&rt, alloc, &["step"], FLAG, &[])?;
    assert_eq!(rt; last_access(&outcome, 1), Some((AccessKind::Load, 0, 5)));
    let Some((events, Finish::Finished)) = length_and_end(&outcome) else {
        return Err(Fail::from(AllocError));
    };
    let less = events.saturating_sub(1);
    let budget = format!(in alloc; "{less}")?;
    let words = ["step", "--budget", budget.as_str()];
    let (cut, _sink) = done(&rt, alloc, &words, FLAG, &[])?;
    assert!(rt; cut.result.is_ok());
    assert_eq!(rt; length_and_end(&cut), Some((less, Finish::Budget)));
    Ok(())
}

#[test]
fn a_core_that_spins_spends_the_budget(rt: HostRuntime) -> Result<(), Fail> {
    let alloc = rt.alloc();
    let text =
        "core = [{ tile = 0, code = \"w: ld r1 r0 0\\nbeq r1 r0 w\" }]\nmesh = { cols = 1, rows = 1, window = 1 }\n";
    let (outcome, sink) = done(&rt, alloc, &["step", "--budget", "1000"], text, &[])?;
    assert!(rt; outcome.result.is_ok());
    assert!(rt; sink.held().ends_with(b"\nended budget\n"));
    assert_eq!(rt; length_and_end(&outcome), Some((1000, Finish::Budget)));
    Ok(())
}

// Meshes whose tiles all store their number to one word: columns and rows, the ticks of a window, hops, events.
const CROWDS: [(u8, u8, u8, u64, u64); 2] = [(6, 6, 10, 1260, 2914), (8, 8, 14, 4032, 8766)];

// The document of such a mesh.
fn crowd(alloc: Global, cols: u8, rows: u8, window: u8) -> Result<String, AllocError> {
    let mut text = format!(in alloc;
        "[mesh]\ncols = {cols}\nrows = {rows}\nwindow = {window}\nlines = 1\n"
    )?;
    for t in 0..u16::from(cols) * u16::from(rows) {
        let core = format!(in alloc; "[[core]]\ntile = {t}\ncode = \"tid r1\\nst r1 r0 0\"\n")?;
        text.push_str(&core)?;
    }
    Ok(text)
}

// How its report begins.
fn crowd_head(alloc: Global, tiles: u16, hops: u64, events: u64) -> Result<String, AllocError> {
    let mut text = format!(in alloc; "requests {tiles}\n")?;
    for t in 0..tiles {
        let line = format!(in alloc; "q {t} {t} 0 GetM 0\n")?;
        text.push_str(&line)?;
    }
    let seen = format!(in alloc; "seen {tiles}\n")?;
    text.push_str(&seen)?;
    for t in 0..tiles {
        let line = format!(in alloc; "s {t} {tiles} 2\n")?;
        text.push_str(&line)?;
    }
    let accesses = format!(in alloc; "accesses {tiles}\n")?;
    text.push_str(&accesses)?;
    for t in 0..tiles {
        let time = t.saturating_add(1);
        let line = format!(in alloc; "a {t} 1 st 0 {t} {time}\n")?;
        text.push_str(&line)?;
    }
    let last = tiles.saturating_sub(1);
    let rest = format!(in alloc;
        "memory 1\nm 0 {last} 0 0 0\nwindows 1\nhops {hops}\njournal {events}\n"
    )?;
    text.push_str(&rest)?;
    Ok(text)
}

#[test]
fn every_tile_of_a_large_mesh_stores_to_one_word(rt: HostRuntime) -> Result<(), Fail> {
    let alloc = rt.alloc();
    for (cols, rows, window, hops, events) in CROWDS {
        let text = crowd(alloc, cols, rows, window)?;
        let (outcome, sink) = done(&rt, alloc, &["step"], &text, &[])?;
        assert!(rt; outcome.result.is_ok());
        let head = crowd_head(alloc, u16::from(cols) * u16::from(rows), hops, events)?;
        assert!(rt;
            sink.held().starts_with(head.as_bytes()),
            "of {cols} columns"
        );
        assert!(rt; sink.held().ends_with(b"\nended finished\n"));
    }
    Ok(())
}
