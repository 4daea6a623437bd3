//! Lines of events, good and bad.
use report_text::{Event, LinesEnd, read_events};
use std::test::Fail;

// A text, and how many events it tells.
const GOOD: [(&str, usize); 14] = [
    ("", 0),
    ("e tick", 1),
    ("e tick\n", 1),
    ("e tick\ne tick", 2),
    (
        "e core 0\ne inject 9\ne post 10\ne take 63\ne eject 1\ne send 2\n",
        6,
    ),
    (
        "e hop 63 l 15 e\ne hop 0 s 0 w\ne hop 0 e 8 n\ne hop 0 w 0 s\n",
        4,
    ),
    ("e datahop 0 n 0\ne dataeject 63 e 15\n", 2),
    // lines that are passed over, whatever stands after their first word
    (
        "requests\nq\nseen\ns\naccesses\na\nmemory\nm\nwindows\nhops\njournal\nended\n",
        0,
    ),
    (
        "requests x\nq  \t\nseen -1\ns e tick\naccesses \r\na 0 1 mv\nmemory\n",
        0,
    ),
    ("q \u{fe}\ne tick\nended e tick", 1),
    ("ended \r\ne tick\njournal", 1),
    ("m 0 1 2 3 4 5 6 7 8 9\ne tick\n", 1),
    ("accesses 2\na 0 1 fa 0 13 1 10\na 0 2 sw 0 10 1 13\n", 0),
    ("hops \u{0}\nwindows 99999999999999999999999\n", 0),
];

// A text, and its first bad line.
const BAD: [(&str, u64); 45] = [
    ("e core 0\ne tick\ne hop 0 x 0 e\ne core\n", 3),
    // empty lines, and words that no report has
    ("\n", 1),
    ("e tick\n\n", 2),
    ("e tick\n\ne tick\n", 2),
    (" e tick\n", 1),
    ("x\n", 1),
    ("E tick\n", 1),
    ("request 1\n", 1),
    ("requests1\n", 1),
    ("requests 1\nrequests\t1\n", 2),
    ("q\r\n", 1),
    ("ended\r", 1),
    ("\u{feff}e tick\n", 1),
    ("\u{e9}\n", 1),
    // counts of words and of spaces
    ("e\n", 1),
    ("e \n", 1),
    ("e  tick\n", 1),
    ("e tick \n", 1),
    ("e tick 0\n", 1),
    ("e core\n", 1),
    ("e core 0 0\n", 1),
    ("e core 0 \n", 1),
    ("e hop 0 l 0\n", 1),
    ("e hop 0 l 0 e e\n", 1),
    ("e datahop 0 l\n", 1),
    ("e datahop 0 l 0 e\n", 1),
    ("e dataeject 0 l 0 \n", 1),
    ("e core 0 1 2 3 4 5 6 7 8 9\n", 1),
    // carriage returns and tabs
    ("e tick\r\n", 1),
    ("e core 0\r", 1),
    ("e\ttick\n", 1),
    // words of events
    ("e Tick\n", 1),
    ("e jump 0\n", 1),
    ("e tick0\n", 1),
    // numbers
    ("e core 00\n", 1),
    ("e core 01\n", 1),
    ("e core 64\n", 1),
    ("e core 100\n", 1),
    ("e core +1\n", 1),
    ("e core x\n", 1),
    ("e datahop 0 l 16\n", 1),
    ("e datahop 0 l 05\n", 1),
    // ports
    ("e hop 0 l 0 l\n", 1),
    ("e hop 0 L 0 e\n", 1),
    ("e datahop 0 le 0\n", 1),
];

#[test]
fn good_lines_are_read(rt: HostRuntime) -> Result<(), Fail> {
    for (text, count) in &GOOD {
        assert_eq!(rt;
            read_events(rt.alloc(), text.as_bytes())?.len(),
            *count,
            "{text}"
        );
    }
    Ok(())
}

#[test]
fn the_first_bad_line_is_named(rt: HostRuntime) {
    for (text, line) in &BAD {
        assert_eq!(rt;
            read_events(rt.alloc(), text.as_bytes()).err(),
            Some(LinesEnd::EventFault { line: *line }),
            "{text}"
        );
    }
}

#[test]
fn bytes_that_are_no_text_are_passed_over_in_other_lines(rt: HostRuntime) -> Result<(), Fail> {
    assert_eq!(rt;
        read_events(rt.alloc(), b"q \xff\xfe\ne tick\n")?.as_slice(),
        [Event::Tick].as_slice()
    );
    Ok(())
}

#[test]
fn bytes_that_are_no_text_are_bad_in_the_line_of_an_event(rt: HostRuntime) {
    assert_eq!(rt;
        read_events(rt.alloc(), b"e tick\ne core \xff\n").err(),
        Some(LinesEnd::EventFault { line: 2 })
    );
}
