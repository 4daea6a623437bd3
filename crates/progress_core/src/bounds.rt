ghost use Rattle.std.specs.Prelude.{◌≡◌, ◌*◌, ◌≤◌, length};
ghost use Rattle.std.specs.List.{sum_by};
ghost use Rattle.doc_text.specs.Doc.{doc_of};
ghost use Rattle.chip_model.specs.Schedules.{bound as bound_of};

use doc_text::Document;

/// How many events a run of the document has at most, where each branch and jump of its programs goes to a later place: each
/// instruction, and one more a core, costs at most what one request and one reply cost on their way over the mesh.
pub fn bound(document: &Document) -> u128
    ensures { result ≡ bound_of (doc_of document.now) }
{
    let tiles = u128::from(document.mesh.tiles());
    let instructions = u128::from(instruction_count(document));
    let ticks = u128::from(document.mesh.window);
    let hops = u128::from(document.mesh.diameter());
    (instructions + tiles) * (6 * tiles + 2 * ticks + 2 * hops + 8)
}

// How many instructions the programs have.
fn instruction_count(document: &Document) -> u32
    ensures count { result ≡ sum_by length document.now.programs }
    ensures few { result ≤ length document.now.programs * 1024 }
{
    let mut count: u32 = 0;
    for program in document.programs.as_slice() {
        count += program.instrs().len() as u32;
    }
    count
}
