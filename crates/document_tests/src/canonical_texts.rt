ghost use Rattle.std.specs.Prelude.{◌≡◌, [], ◌∷◌, length, IfOk};

use crate::fixtures::output;
use core_isa::assemble;
use doc_text::{Document, Posts, Programs, write_document};
use mesh_gen::{Items, Mesh, Tiles};
use outside_io::WriteFault;
use std::alloc::{AllocError, Global};
use std::test::Fail;

fn tiles(alloc: Global, tiles: &[u8]) -> Result<Tiles, AllocError>
    ensures { IfOk result (λ list. list ≡ tiles.now) }
{
    Ok(Items::new(Vec::from_slice(alloc, tiles)?))
}

const FOUR_TILES: &str = "posts = [[0,3],[1]]

[mesh]
cols = 2
rows = 2
window = 64
vcs = 1
data_vcs = 1
lines = 2
sets = 4
ways = 1
controllers = [3,0]
memory = [0,7,0,4294967295]

[[core]]
tile = 1
code = '''
halt
'''

[[core]]
tile = 3
code = '''
jmp @0
tid r7
'''
";

// Two controllers, not in the order of their numbers.
fn four_tile_mesh(alloc: Global) -> Result<Mesh, Fail>
    ensures { IfOk result (λ mesh. (mesh.cols ≡ 2) × (mesh.rows ≡ 2) × (mesh.lines ≡ 2)) }
{
    let mut mesh = Mesh::of_size(alloc, 2, 2, 64)?;
    mesh.lines = 2;
    mesh.controllers = tiles(alloc, &[3, 0])?;
    Ok(mesh)
}

// The second and the last tile have one.
fn four_programs(alloc: Global) -> Result<Programs, Fail>
    ensures { IfOk result (λ programs. length programs ≡ 4) }
{
    let mut programs = Vec::new(alloc);
    programs.push(assemble(alloc, "")?)?;
    programs.push(assemble(alloc, "halt")?)?;
    programs.push(assemble(alloc, "")?)?;
    programs.push(assemble(alloc, "jmp @0\ntid r7")?)?;
    Ok(Items::new(programs))
}

fn two_windows(alloc: Global) -> Result<Posts, Fail>
    ensures { IfOk result (λ posts. posts ≡ (0 ∷ 3 ∷ []) ∷ (1 ∷ []) ∷ []) }
{
    let mut posts = Vec::new(alloc);
    posts.push(tiles(alloc, &[0, 3])?)?;
    posts.push(tiles(alloc, &[1])?)?;
    Ok(Items::new(posts))
}

// With posts, words of memory with zeros between and after them, and programs.
fn four_tiles(alloc: Global) -> Result<Document, Fail> {
    let memory = Vec::from_slice(alloc, &[0, 7, 0, 4294967295, 0, 0, 0, 0])?;
    Ok(Document {
        mesh: four_tile_mesh(alloc)?,
        memory: Items::new(memory),
        programs: four_programs(alloc)?,
        posts: two_windows(alloc)?,
    })
}

#[test]
fn posts_controllers_memory_and_programs_are_shown(rt: HostRuntime) -> Result<(), Fail> {
    let alloc = rt.alloc();
    let document = four_tiles(alloc)?;
    let mut sink = output(alloc, &[])?;
    assert_eq!(rt; write_document(&document, &mut sink), Ok(()));
    assert_eq!(rt; sink.held(), FOUR_TILES.as_bytes());
    Ok(())
}

// The same text, call by call of the sink.
const PIECES: [&str; 35] = [
    "posts = [[0",
    ",3",
    "],[1",
    "]]\n",
    "\n",
    "[mesh]\n",
    "cols = 2\n",
    "rows = 2\n",
    "window = 64\n",
    "vcs = 1\n",
    "data_vcs = 1\n",
    "lines = 2\n",
    "sets = 4\n",
    "ways = 1\n",
    "controllers = [3",
    ",0",
    "]\n",
    "memory = [0",
    ",7",
    ",0",
    ",4294967295",
    "]\n",
    "\n",
    "[[core]]\n",
    "tile = 1\n",
    "code = '''\n",
    "halt\n",
    "'''\n",
    "\n",
    "[[core]]\n",
    "tile = 3\n",
    "code = '''\n",
    "jmp @0\n",
    "tid r7\n",
    "'''\n",
];

#[test]
fn a_call_that_fails_cuts_the_text_between_two_pieces(rt: HostRuntime) -> Result<(), Fail> {
    let alloc = rt.alloc();
    let document = four_tiles(alloc)?;
    let mut before = Vec::new(alloc);
    for (call, piece) in PIECES.iter().enumerate() {
        let mut sink = output(alloc, &[call as u32])?;
        assert_eq!(rt;
            write_document(&document, &mut sink),
            Err(WriteFault),
            "call {call}"
        );
        assert_eq!(rt; sink.held(), before.as_slice(), "call {call}");
        before.extend_from_slice(piece.as_bytes())?;
    }
    assert_eq!(rt; before.as_slice(), FOUR_TILES.as_bytes());
    Ok(())
}
