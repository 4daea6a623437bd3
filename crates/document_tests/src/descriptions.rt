use mesh_doc::{DocEnd, read_document};
use std::alloc::{AllocError, Global};
use std::process::Abort;
use std::test::Fail;

// A document, and the fault that it has first.
const FIRST_FAULTS: [(&str, &str); 7] = [
    (
        "[mesh]\ncols = 2\nrows = 2",
        "Missing { key: Window, at: 0 }",
    ),
    (
        "[mesh]\ncols = \"2\"\nrows = 2\nwindow = 2",
        "WrongKind { key: Cols, at: 0 }",
    ),
    (
        "[mesh]\ncols = 9\nrows = 1\nwindow = 8",
        "Range { key: Cols, at: 0 }",
    ),
    (
        "posts = [[0,0]]\n[mesh]\ncols = 2\nrows = 2\nwindow = 2",
        "Range { key: Posts, at: 0 }",
    ),
    (
        "[mesh]\ncols = 2\nrows = 2\nwindow = 2\ncontrollers = [4]",
        "Range { key: Controllers, at: 0 }",
    ),
    (
        "core = [{ tile = 0, code = '' }, { tile = 0, code = '' }]\n[mesh]\ncols = 2\nrows = 2\nwindow = 2",
        "CoreTwice { tile: 0 }",
    ),
    ("[mesh]\ncols =", "NotToml"),
];

// What stands before the mesh, what stands in it, and the first fault of both.
const FAULTS_OF_KEYS: [(&str, &str, &str); 62] = [
    // unknown keys, in the order of their bytes
    (
        "zebra = 1\nalpha = 1",
        "",
        "UnknownKey { place: Top, key: Text { text: \"alpha\" } }",
    ),
    (
        "Mesh = 1",
        "Cols = 1",
        "UnknownKey { place: Top, key: Text { text: \"Mesh\" } }",
    ),
    (
        "",
        "colour = 1\nVcs = 1",
        "UnknownKey { place: Mesh, key: Text { text: \"Vcs\" } }",
    ),
    (
        "core = [{ tile = 0, code = '' }, { name = 1, hue = 1 }]",
        "",
        "UnknownKey { place: Core { at: 1 }, key: Text { text: \"hue\" } }",
    ),
    (
        "core = [1, { name = 1 }]",
        "",
        "UnknownKey { place: Core { at: 1 }, key: Text { text: \"name\" } }",
    ),
    ("core = { name = 1 }", "", "WrongKind { key: Core, at: 0 }"),
    // missing keys
    ("core = [{ code = '' }]", "", "Missing { key: Tile, at: 0 }"),
    (
        "core = [{ tile = 0, code = '' }, { tile = 1 }]",
        "",
        "Missing { key: Code, at: 1 }",
    ),
    (
        "core = [1, { tile = 1 }]",
        "",
        "Missing { key: Code, at: 1 }",
    ),
    // wrong kinds
    ("posts = 1", "", "WrongKind { key: Posts, at: 0 }"),
    ("posts = [1]", "", "WrongKind { key: Posts, at: 0 }"),
    (
        "posts = [[0], [true]]",
        "",
        "WrongKind { key: Posts, at: 0 }",
    ),
    (
        "posts = [[0], [[0]]]",
        "",
        "WrongKind { key: Posts, at: 0 }",
    ),
    ("core = 1", "", "WrongKind { key: Core, at: 0 }"),
    (
        "core = [{ tile = 0, code = '' }, 1]",
        "vcs = 'a'",
        "WrongKind { key: Core, at: 1 }",
    ),
    (
        "core = [{ tile = '0', code = '' }]",
        "",
        "WrongKind { key: Tile, at: 0 }",
    ),
    (
        "core = [{ tile = 0, code = '' }, { tile = 1, code = 1 }]",
        "",
        "WrongKind { key: Code, at: 1 }",
    ),
    (
        "core = [{ tile = 0, code = 1 }, { tile = '1', code = '' }]",
        "",
        "WrongKind { key: Code, at: 0 }",
    ),
    ("", "vcs = 1.0", "WrongKind { key: Vcs, at: 0 }"),
    ("", "vcs = true", "WrongKind { key: Vcs, at: 0 }"),
    (
        "",
        "data_vcs = 2020-01-01",
        "WrongKind { key: DataVcs, at: 0 }",
    ),
    ("", "lines = inf", "WrongKind { key: Lines, at: 0 }"),
    ("", "sets = [1]", "WrongKind { key: Sets, at: 0 }"),
    ("", "ways = { a = 1 }", "WrongKind { key: Ways, at: 0 }"),
    (
        "",
        "controllers = 0",
        "WrongKind { key: Controllers, at: 0 }",
    ),
    (
        "",
        "controllers = [0, 'a']",
        "WrongKind { key: Controllers, at: 0 }",
    ),
    ("", "memory = '0'", "WrongKind { key: Memory, at: 0 }"),
    ("", "memory = [0, 1.5]", "WrongKind { key: Memory, at: 0 }"),
    // out of range, below and above
    ("posts = [[]]", "", "Range { key: Posts, at: 0 }"),
    ("posts = [[0], [4]]", "", "Range { key: Posts, at: 0 }"),
    ("posts = [[-1]]", "", "Range { key: Posts, at: 0 }"),
    (
        "posts = [[0, 1, 2, 3, 3]]",
        "",
        "Range { key: Posts, at: 0 }",
    ),
    (
        "posts = [[0, 1, 2, 0]]",
        "vcs = 0",
        "Range { key: Posts, at: 0 }",
    ),
    ("", "vcs = 0", "Range { key: Vcs, at: 0 }"),
    ("", "vcs = 9", "Range { key: Vcs, at: 0 }"),
    ("", "data_vcs = 0", "Range { key: DataVcs, at: 0 }"),
    ("", "data_vcs = 5", "Range { key: DataVcs, at: 0 }"),
    ("", "lines = 0", "Range { key: Lines, at: 0 }"),
    ("", "lines = 257", "Range { key: Lines, at: 0 }"),
    (
        "",
        "lines = 9223372036854775807",
        "Range { key: Lines, at: 0 }",
    ),
    (
        "",
        "lines = -9223372036854775808",
        "Range { key: Lines, at: 0 }",
    ),
    ("", "sets = 0", "Range { key: Sets, at: 0 }"),
    ("", "sets = 65", "Range { key: Sets, at: 0 }"),
    ("", "ways = 0", "Range { key: Ways, at: 0 }"),
    ("", "ways = 5", "Range { key: Ways, at: 0 }"),
    ("", "controllers = []", "Range { key: Controllers, at: 0 }"),
    (
        "",
        "controllers = [-1]",
        "Range { key: Controllers, at: 0 }",
    ),
    (
        "",
        "controllers = [0, 1, 2, 3, 0]",
        "Range { key: Controllers, at: 0 }",
    ),
    ("", "memory = [-1]", "Range { key: Memory, at: 0 }"),
    ("", "memory = [4294967296]", "Range { key: Memory, at: 0 }"),
    (
        "",
        "lines = 1\nmemory = [1, 2, 3, 4, 5]",
        "Range { key: Memory, at: 0 }",
    ),
    (
        "core = [{ tile = 4, code = '' }]",
        "",
        "Range { key: Tile, at: 0 }",
    ),
    (
        "core = [{ tile = 0, code = '' }, { tile = -1, code = '' }]",
        "controllers = [0, 0]",
        "Range { key: Tile, at: 1 }",
    ),
    // a tile twice
    (
        "core = [{ tile = 1, code = '' }, { tile = 1, code = '' }]",
        "controllers = [0, 1, 0]",
        "Controllers",
    ),
    (
        "core = [{ tile = 1, code = '' }, { tile = 2, code = '' }, { tile = 2, code = '' }, { tile = 1, code = 'mul' }]",
        "",
        "CoreTwice { tile: 2 }",
    ),
    // programs that do not assemble
    (
        "core = [{ tile = 3, code = 'mul r1 r2 r3' }, { tile = 0, code = 'li r8 1' }]",
        "",
        "Asm { tile: 3, fault: AsmFault { line: 1, kind: Word } }",
    ),
    (
        "core = [{ tile = 3, code = '' }, { tile = 0, code = 'li r8 1' }]",
        "",
        "Asm { tile: 0, fault: AsmFault { line: 1, kind: Register } }",
    ),
    (
        "core = [{ tile = 1, code = 'li r1 4294967296' }]",
        "",
        "Asm { tile: 1, fault: AsmFault { line: 1, kind: Number } }",
    ),
    (
        "core = [{ tile = 1, code = \"a:\\nhalt\\na:\" }]",
        "",
        "Asm { tile: 1, fault: AsmFault { line: 3, kind: Label } }",
    ),
    (
        "core = [{ tile = 1, code = 'jmp nowhere' }]",
        "",
        "Asm { tile: 1, fault: AsmFault { line: 1, kind: Label } }",
    ),
    (
        "core = [{ tile = 1, code = 'add r1 r2' }]",
        "",
        "Asm { tile: 1, fault: AsmFault { line: 1, kind: Count } }",
    ),
    ("", "vcs = 1\nvcs = 2", "NotToml"),
];

// Bytes that are no document.
const HOSTILE: [(&[u8], &str); 12] = [
    (b"\xff", "NotToml"),
    (b"[mesh]\ncols = 2\xc3", "NotToml"),
    (b"\xed\xa0\x80 = 1", "NotToml"),
    (b"a = 9223372036854775808", "NotToml"),
    (b"a = 1\rb = 2", "NotToml"),
    (b"a = 1\na = 2", "NotToml"),
    (b"[mesh]\n[mesh]", "NotToml"),
    (b"\0", "NotToml"),
    (b"a = '", "NotToml"),
    (b"\xef\xbb\xbf", "Missing { key: Mesh, at: 0 }"),
    (b"\xef\xbb\xbfmesh = 1", "WrongKind { key: Mesh, at: 0 }"),
    (b"mesh = []", "WrongKind { key: Mesh, at: 0 }"),
];

// Meshes at their limits and past them.
const MESHES: [(&str, &str); 7] = [
    (
        "cols = 1\nrows = 1\nwindow = 0",
        "Range { key: Window, at: 0 }",
    ),
    (
        "cols = 0\nrows = 1\nwindow = 1",
        "Range { key: Cols, at: 0 }",
    ),
    (
        "cols = 1\nrows = 9\nwindow = 8",
        "Range { key: Rows, at: 0 }",
    ),
    ("cols = 8\nrows = 8\nwindow = 14", "Ok"),
    (
        "cols = 8\nrows = 8\nwindow = 13",
        "Range { key: Window, at: 0 }",
    ),
    (
        "cols = 1\nrows = 1\nwindow = 1\nvcs = 8\ndata_vcs = 4\nlines = 256\nsets = 64\nways = 4",
        "Ok",
    ),
    (
        "cols = 1\nrows = 1\nwindow = 1\nlines = 1\nmemory = [0, 1, 2, 4294967295]",
        "Ok",
    ),
];

// A million of one byte.
const LONG: [(u8, &str); 7] = [
    (b'a', "NotToml"),
    (b'[', "NotToml"),
    (b'9', "NotToml"),
    (b'"', "NotToml"),
    (b'\r', "NotToml"),
    (b'\n', "Missing { key: Mesh, at: 0 }"),
    (b'#', "Missing { key: Mesh, at: 0 }"),
];

// A document, and the document that it is.
const ACCEPTED: [(&str, &str); 2] = [
    (
        "[mesh]\ncols = 1\nrows = 1\nwindow = 1\nvcs = 1\ndata_vcs = 1\nlines = 1\nsets = 1\nways = 1\ncontrollers = [0]\n\n[[core]]\ntile = 0\ncode = '''\nli r1 7\nst r1 r0 2\nld r2 r0 2\nhalt\n'''\n",
        "Document { mesh: Mesh { cols: 1, rows: 1, window: 1, vcs: 1, data_vcs: 1, lines: 1, sets: 1, ways: 1, controllers: Items { items: [0] } }, memory: Items { items: [0, 0, 0, 0] }, programs: Items { items: [Program { instrs: [Li { rd: 1, n: 7 }, St { rs: 1, ra: 0, n: 2 }, Ld { rd: 2, ra: 0, n: 2 }, Halt] }] }, posts: Items { items: [] } }",
    ),
    (
        "posts = [[0,3],[1]]\nmesh = { cols = 2, rows = 2, window = 2, lines = 2, memory = [7, 4294967295], controllers = [3,1] }\n[[core]]\ncode = \"add r1 r2 r3\"\ntile = 2\n[[core]]\ntile = 0\ncode = 'halt'\n",
        "Document { mesh: Mesh { cols: 2, rows: 2, window: 2, vcs: 1, data_vcs: 1, lines: 2, sets: 4, ways: 1, controllers: Items { items: [3, 1] } }, memory: Items { items: [7, 4294967295, 0, 0, 0, 0, 0, 0] }, programs: Items { items: [Program { instrs: [Halt] }, Program { instrs: [] }, Program { instrs: [Add { rd: 1, ra: 2, rb: 3 }] }, Program { instrs: [] }] }, posts: Items { items: [Items { items: [0, 3] }, Items { items: [1] }] } }",
    ),
];

// What is told of bytes: `Ok`, or the fault.
fn told(alloc: Global, bytes: &[u8]) -> Result<String, AllocError> {
    match read_document(alloc, bytes) {
        Ok(_) => format!(in alloc; "Ok"),
        Err(DocEnd::Fault(fault)) => format!(in alloc; "{fault:?}"),
        Err(DocEnd::NoMemory) => Err(AllocError),
    }
}

fn all_told(rt: &impl Abort, alloc: Global, cases: &[(&str, &str)]) -> Result<(), Fail> {
    for (text, outcome) in cases {
        assert_eq!(rt;
            told(alloc, text.as_bytes())?.as_str(),
            *outcome,
            "of {text}"
        );
    }
    Ok(())
}

#[test]
fn the_first_fault_is_told(rt: HostRuntime) -> Result<(), Fail> {
    all_told(&rt, rt.alloc(), &FIRST_FAULTS)
}

fn faults_told(rt: &impl Abort, alloc: Global, cases: &[(&str, &str, &str)]) -> Result<(), Fail> {
    for (top, mesh, outcome) in cases {
        let text = format!(in alloc; "{top}\n[mesh]\ncols = 2\nrows = 2\nwindow = 2\n{mesh}\n")?;
        assert_eq!(rt;
            told(alloc, text.as_bytes())?.as_str(),
            *outcome,
            "of {text}"
        );
    }
    Ok(())
}

#[test]
fn each_key_has_its_faults(rt: HostRuntime) -> Result<(), Fail> {
    faults_told(&rt, rt.alloc(), &FAULTS_OF_KEYS)
}

fn meshes_told(rt: &impl Abort, alloc: Global, cases: &[(&str, &str)]) -> Result<(), Fail> {
    for (mesh, outcome) in cases {
        let text = format!(in alloc; "[mesh]\n{mesh}")?;
        assert_eq!(rt;
            told(alloc, text.as_bytes())?.as_str(),
            *outcome,
            "of {mesh}"
        );
    }
    Ok(())
}

#[test]
fn limits_are_met_on_both_sides(rt: HostRuntime) -> Result<(), Fail> {
    meshes_told(&rt, rt.alloc(), &MESHES)
}

fn bytes_told(rt: &impl Abort, alloc: Global, cases: &[(&[u8], &str)]) -> Result<(), Fail> {
    for (bytes, outcome) in cases {
        assert_eq!(rt; told(alloc, bytes)?.as_str(), *outcome);
    }
    Ok(())
}

fn long_told(rt: &impl Abort, alloc: Global, cases: &[(u8, &str)]) -> Result<(), Fail> {
    for (byte, outcome) in cases {
        let long = vec![in alloc; *byte; 1_048_576]?;
        assert_eq!(rt; told(alloc, &long)?.as_str(), *outcome);
    }
    Ok(())
}

#[test]
fn hostile_bytes_are_refused(rt: HostRuntime) -> Result<(), Fail> {
    bytes_told(&rt, rt.alloc(), &HOSTILE)?;
    long_told(&rt, rt.alloc(), &LONG)
}

// A text between two others, so many times.
fn repeated(
    alloc: Global,
    before: &str,
    text: &str,
    count: u32,
    after: &str,
) -> Result<String, AllocError> {
    let mut whole = String::from_str(alloc, before)?;
    for _ in 0..count {
        whole.push_str(text)?;
    }
    whole.push_str(after)?;
    Ok(whole)
}

#[test]
fn long_lists_are_counted(rt: HostRuntime) -> Result<(), Fail> {
    let alloc = rt.alloc();
    let mesh = "]\nmesh = { cols = 1, rows = 1, window = 1 }";
    let windows = repeated(alloc, "posts = [", "[0],", 4096, mesh)?;
    assert_eq!(rt; told(alloc, windows.as_bytes())?.as_str(), "Ok");
    let windows = repeated(alloc, "posts = [", "[0],", 4097, mesh)?;
    assert_eq!(rt;
        told(alloc, windows.as_bytes())?.as_str(),
        "Range { key: Posts, at: 0 }"
    );
    let core = "mesh = { cols = 1, rows = 1, window = 1 }\n[[core]]\ntile = 0\ncode = '''\n";
    let code = repeated(alloc, core, "halt\n", 1025, "'''")?;
    assert_eq!(rt;
        told(alloc, code.as_bytes())?.as_str(),
        "Asm { tile: 0, fault: AsmFault { line: 1025, kind: Length } }"
    );
    Ok(())
}

fn all_shown(rt: &impl Abort, alloc: Global, cases: &[(&str, &str)]) -> Result<(), Fail> {
    for (text, document) in cases {
        let found = read_document(alloc, text.as_bytes())?;
        assert_eq!(rt;
            format!(in alloc; "{found:?}")?.as_str(),
            *document,
            "of {text}"
        );
    }
    Ok(())
}

#[test]
fn what_is_written_is_read(rt: HostRuntime) -> Result<(), Fail> {
    all_shown(&rt, rt.alloc(), &ACCEPTED)
}
