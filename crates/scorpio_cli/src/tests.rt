use super::*;
use crate::top::scorpio;
use outside_io::{MemSink, MemSource};
use std::alloc::AllocError;
use std::test::Fail;

// Two tiles, two windows.
const TWO_TILES: &[u8] = b"posts = [[1],[0]]\nmesh = { cols = 2, rows = 1, window = 1 }\n";

// How the program ends over these bytes, and what it has written.
fn ended<R: Threads + Sync>(
    rt: &R,
    alloc: Global,
    words: &[&str],
    bytes: &[u8],
) -> Result<(Ended, MemSink), AllocError> {
    let fails = Vec::new(alloc);
    let mut source = MemSource::new(Vec::from_slice(alloc, bytes)?, 16, fails);
    let mut sink = MemSink::new(vec![in alloc; 0; 64]?, Vec::new(alloc));
    let ended = scorpio(rt, alloc, words, &mut source, &mut sink, &OpenGate);
    Ok((ended, sink))
}

#[test]
fn a_command_is_done_with_ample_memory(rt: HostRuntime) -> Result<(), Fail> {
    let (ended, sink) = ended(&rt, rt.alloc(), &["order"], TWO_TILES)?;
    assert_eq!(rt; ended.status, 0);
    assert_eq!(rt; sink.held(), b"1 0\n".as_slice());
    Ok(())
}

#[test]
fn a_faulty_description_is_said(rt: HostRuntime) -> Result<(), Fail> {
    let alloc = rt.alloc();
    let (ended, sink) = ended(&rt, alloc, &["show"], b"colour = 1")?;
    assert_eq!(rt; ended.status, 2);
    assert_eq!(rt;
        format!(in alloc; "{ended}")?.as_str(),
        "scorpio: document: unknown key colour"
    );
    assert!(rt; sink.held().is_empty());
    Ok(())
}

#[test]
fn other_words_are_no_form(rt: HostRuntime) -> Result<(), Fail> {
    let alloc = rt.alloc();
    let no_words: [&str; 0] = [];
    let forms: [&[&str]; 4] = [&no_words, &["Order"], &["show", "show"], &["--help"]];
    for words in forms {
        let (ended, _sink) = ended(&rt, alloc, words, TWO_TILES)?;
        assert_eq!(rt; ended.status, 1);
        assert_eq!(rt;
            format!(in alloc; "{ended}")?.as_str(),
            "usage:\n  scorpio order\n  scorpio show\n  scorpio deliver\n  scorpio step [--pace n] [--budget n]\n  scorpio run [--budget n]\n  scorpio gen n [--text]"
        );
    }
    Ok(())
}

// What is said of an end.
fn said(alloc: Global, stop: Stop) -> Result<String, AllocError> {
    let ended = Ended::stopped(stop);
    format!(in alloc; "{ended}")
}

#[test]
fn each_cause_is_said(rt: HostRuntime) -> Result<(), Fail> {
    let alloc = rt.alloc();
    assert_eq!(rt;
        said(alloc, Stop::ReadFault)?.as_str(),
        "scorpio: read failed"
    );
    assert_eq!(rt;
        said(alloc, Stop::WriteFault)?.as_str(),
        "scorpio: write failed"
    );
    assert_eq!(rt;
        said(alloc, Stop::NoMemory)?.as_str(),
        "scorpio: out of memory"
    );
    assert_eq!(rt;
        said(alloc, Stop::TooLong)?.as_str(),
        "scorpio: input too long"
    );
    Ok(())
}
