use crate::fixtures::{OpenGate, done, input, output};
use commands::{Command, Stop};
use std::alloc::{AllocError, Global};
use std::test::Fail;

// Four tiles, three windows.
const FOUR_TILES: &str = "posts = [[0,3],[1,3],[2]]\n[mesh]\ncols = 2\nrows = 2\nwindow = 2\n";

// One tile with a program, as it is shown.
const ONE_TILE: &str =
    "[mesh]\ncols = 1\nrows = 1\nwindow = 1\nvcs = 1\ndata_vcs = 1\nlines = 1\nsets = 1\nways = 1\ncontrollers = [0]\n\n[[core]]\ntile = 0\ncode = '''\nli r1 7\nst r1 r0 2\nld r2 r0 2\nhalt\n'''\n";

// What a command writes for a document.
const TEXTS: [(&str, &str, &str); 10] = [
    ("order", FOUR_TILES, "0 3 1 3 2\n"),
    (
        "order",
        "posts = [[3],[0,1,3]]\n[mesh]\ncols = 2\nrows = 2\nwindow = 2\n",
        "3 1 3 0\n",
    ),
    (
        "order",
        "posts = [[0],[0]]\nmesh = { cols = 1, rows = 1, window = 1 }\n",
        "0 0\n",
    ),
    ("order", "mesh = { cols = 1, rows = 1, window = 1 }\n", "\n"),
    ("order", ONE_TILE, "\n"),
    (
        "deliver",
        FOUR_TILES,
        "tile 0: 0 3 1 3 2\ntile 1: 0 3 1 3 2\ntile 2: 0 3 1 3 2\ntile 3: 0 3 1 3 2\n",
    ),
    (
        "deliver",
        "posts = [[2],[0,1]]\n[mesh]\ncols = 3\nrows = 1\nwindow = 2\n",
        "tile 0: 2 1 0\ntile 1: 2 1 0\ntile 2: 2 1 0\n",
    ),
    (
        "deliver",
        "mesh = { cols = 3, rows = 1, window = 2 }\n",
        "tile 0:\ntile 1:\ntile 2:\n",
    ),
    ("show", ONE_TILE, ONE_TILE),
    (
        "show",
        "core = [{ code = \"tid r1#\\nw: jmp w\", tile = 1 }]\nposts = [[1,0]]\nmesh = { cols = 2, rows = 1, window = 64, memory = [0,5,0], lines = 1 }\n",
        "posts = [[1,0]]\n\n[mesh]\ncols = 2\nrows = 1\nwindow = 64\nvcs = 1\ndata_vcs = 1\nlines = 1\nsets = 4\nways = 1\ncontrollers = [0]\nmemory = [0,5]\n\n[[core]]\ntile = 1\ncode = '''\ntid r1\njmp @1\n'''\n",
    ),
];

#[test]
fn each_command_writes_its_text_with_ample_memory(rt: HostRuntime) -> Result<(), Fail> {
    let alloc = rt.alloc();
    for (command, text, written) in TEXTS {
        let (outcome, sink) = done(&rt, alloc, &[command], text, &[])?;
        assert!(rt; outcome.result.is_ok(), "of {text}");
        assert!(rt; outcome.report.is_none());
        assert_eq!(rt; sink.held(), written.as_bytes(), "of {text}");
    }
    Ok(())
}

// A document, how many tiles it has, and the order of what it posts.
const ORDERS: [(&str, u8, &str); 5] = [
    (
        "posts = [[0],[0],[0]]\n[mesh]\ncols = 1\nrows = 1\nwindow = 1\n",
        1,
        " 0 0 0",
    ),
    (
        "posts = [[3,1],[2,0,3]]\n[mesh]\ncols = 2\nrows = 2\nwindow = 2\nvcs = 1\n",
        4,
        " 1 3 2 3 0",
    ),
    (
        "posts = [[0,1,2,3,4,5,6,7,8]]\n[mesh]\ncols = 3\nrows = 3\nwindow = 4\nvcs = 1\n",
        9,
        " 0 1 2 3 4 5 6 7 8",
    ),
    (
        "posts = [[5,0],[1],[2,4],[0,1,2,3,4,5]]\n[mesh]\ncols = 3\nrows = 2\nwindow = 3\nvcs = 2\n",
        6,
        " 0 5 1 2 4 3 4 5 0 1 2",
    ),
    ("[mesh]\ncols = 2\nrows = 1\nwindow = 1\n", 2, ""),
];

// The lines of so many tiles, each of which has delivered these sources.
fn lines_of_all(alloc: Global, tiles: u8, sources: &str) -> Result<String, AllocError> {
    let mut lines = String::new(alloc);
    for t in 0..tiles {
        let line = format!(in alloc; "tile {t}:{sources}\n")?;
        lines.push_str(&line)?;
    }
    Ok(lines)
}

// That a tile delivers all of the order is no clause yet.
#[test]
fn every_tile_delivers_the_whole_order(rt: HostRuntime) -> Result<(), Fail> {
    let alloc = rt.alloc();
    for (text, tiles, sources) in ORDERS {
        let (outcome, sink) = done(&rt, alloc, &["deliver"], text, &[])?;
        assert!(rt; outcome.result.is_ok(), "of {text}");
        let lines = lines_of_all(alloc, tiles, sources)?;
        assert_eq!(rt; sink.held(), lines.as_bytes(), "of {text}");
    }
    Ok(())
}

// What is held after the third write failed.
const CUT_TEXTS: [(&str, &str); 3] = [
    ("order", "0 3"),
    ("deliver", "tile 0: 0"),
    ("show", "posts = [[0,3"),
];

#[test]
fn a_write_that_fails_leaves_a_prefix(rt: HostRuntime) -> Result<(), Fail> {
    let alloc = rt.alloc();
    for (command, written) in CUT_TEXTS {
        let (outcome, sink) = done(&rt, alloc, &[command], FOUR_TILES, &[2])?;
        assert!(rt;
            matches!(&outcome.result, Err(Stop::WriteFault)),
            "of {written}"
        );
        assert_eq!(rt; sink.held(), written.as_bytes());
    }
    Ok(())
}

// Every key of a document.
const EVERY_KEY: &str =
    "posts = [[0,1],[1]]\n[mesh]\ncols = 2\nrows = 1\nwindow = 3\nvcs = 2\ndata_vcs = 2\nlines = 4\nsets = 2\nways = 2\ncontrollers = [0,1]\nmemory = [1,2]\n[[core]]\ntile = 0\ncode = 'halt'\n";

// At each of its bytes a cut gives no answer but a text or a fault.
#[test]
fn a_description_that_is_cut_is_shown_or_refused(rt: HostRuntime) -> Result<(), Fail> {
    let alloc = rt.alloc();
    for text in [ONE_TILE, EVERY_KEY] {
        let mut some_shown = false;
        for length in 0..text.len() {
            let mut source = input(alloc, text.as_bytes().split_at(length).0, &[])?;
            let mut sink = output(alloc, &[])?;
            let outcome = Command::Show.run(&rt, alloc, &mut source, &mut sink, &OpenGate);
            assert!(rt;
                matches!(&outcome.result, Ok(()) | Err(Stop::Document(_))),
                "at {length}"
            );
            some_shown = some_shown || outcome.result.is_ok();
        }
        assert!(rt; some_shown);
    }
    Ok(())
}
