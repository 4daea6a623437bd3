ghost use Rattle.std.specs.Prelude.{◌≡◌, ◌*◌, map, IfOk};
ghost use Rattle.std.specs.List.{range_with_len};
ghost use Rattle.doc_text.specs.Doc.{doc_of};
ghost use Rattle.load_gen.specs.Load.{programs, load};

use crate::program::draw_program;
use core_isa::Program;
use doc_text::Document;
use mesh_gen::{Items, Mesh, NoMemory};
use rand_pcg::Pcg32;
use std::alloc::Global;

const TILES: u8 = 16;

// How many words the memory has.
const WORDS: usize = 64;

// The generator's stream. A load's number is the state from which it starts.
const STREAM: u64 = 1;

/// The load of a number: a document of 4 by 4 tiles. Each tile first does some accesses that are drawn, to words of which
/// all tiles may load and store each. Then a token goes from tile to tile, and whoever has it adds one to a counter, so
/// that both are 16 in the end.
pub fn generate(alloc: Global, n: u32) -> Result<Document, NoMemory>
    ensures { IfOk result (λ document. doc_of document ≡ load n) }
{
    let mesh = Mesh {
        cols: 4,
        rows: 4,
        window: 6,
        vcs: 2,
        data_vcs: 2,
        lines: 16,
        sets: 2,
        ways: 1,
        controllers: Items::new(Vec::from_slice(alloc, &[0, 15])?),
    };
    Ok(Document {
        mesh,
        memory: Items::new(vec![in alloc; 0; WORDS]?),
        programs: Items::new(draw_programs(alloc, n)?),
        posts: Items::new(Vec::new(alloc)),
    })
}

// The program of each tile.
fn draw_programs(alloc: Global, n: u32) -> Result<Vec<Program>, NoMemory>
    ensures { IfOk result (λ drawn. drawn.items ≡ programs n) }
{
    let mut words = Pcg32::new(u64::from(n), STREAM);
    let mut programs = Vec::new(alloc);
    for _tile in 0..TILES {
        programs.push(draw_program(alloc, &mut words)?)?;
    }
    Ok(programs)
}
