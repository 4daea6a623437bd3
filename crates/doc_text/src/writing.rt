ghost use Rattle.std.specs.Prelude.{◌≡◌};
ghost use Rattle.outside_io.specs.Streams.{stream, Writes};
ghost use Rattle.doc_text.specs.Canonical.{canonical, posts_text, sizes, sizes_text, mesh_text, shown_words, memory_text};
ghost use Rattle.doc_text.specs.Doc.{doc_of};

use crate::cores::write_cores;
use crate::line::{write_list_line, write_lists_line, write_name, write_number_line};
use crate::memory::shown_words;
use crate::{Document, Key};
use outside_io::{Sink, WriteFault, write_piece};

/// Writes the canonical text of a document, line by line, and long lists number by number. It takes no memory. Where
/// the sink fails it holds a prefix of the text.
pub fn write_document<K: Sink>(document: &Document, sink: &mut K) -> Result<(), WriteFault>
    ensures { Writes (stream K.held K.faults sink.old sink.new)
        (canonical (doc_of document.now)) result }
{
    write_posts(document, sink)?;
    write_mesh(document, sink)?;
    write_memory(document.memory.as_slice(), sink)?;
    write_cores(document, sink)
}

// The line of what is posted and an empty line, where something is posted.
fn write_posts<K: Sink>(document: &Document, sink: &mut K) -> Result<(), WriteFault>
    ensures { Writes (stream K.held K.faults sink.old sink.new)
        (posts_text document.now.posts) result }
{
    let posts = document.posts.as_slice();
    if posts.is_empty() {
        return Ok(());
    }
    write_lists_line(Key::Posts, posts, sink)?;
    write_piece(sink, b"\n")
}

// The lines of the mesh.
#[tactic(auto, using(crate::proofs::SomeTiles::some_tiles))]
fn write_mesh<K: Sink>(document: &Document, sink: &mut K) -> Result<(), WriteFault>
    ensures { Writes (stream K.held K.faults sink.old sink.new)
        (mesh_text (doc_of document.now)) result }
{
    write_name("[", Key::Mesh, "]\n", sink)?;
    write_sizes(&sizes(document), sink)?;
    let controllers = document.mesh.controllers.as_slice();
    write_list_line(Key::Controllers, controllers, sink)
}

// The sizes of the chip by their keys.
fn sizes(document: &Document) -> [(Key, u16); 8]
    ensures { result ≡ sizes (doc_of document.now) }
{
    let mesh = &document.mesh;
    [
        (Key::Cols, u16::from(mesh.cols)),
        (Key::Rows, u16::from(mesh.rows)),
        (Key::Window, u16::from(mesh.window)),
        (Key::Vcs, u16::from(mesh.vcs)),
        (Key::DataVcs, u16::from(mesh.data_vcs)),
        (Key::Lines, mesh.lines),
        (Key::Sets, u16::from(mesh.sets)),
        (Key::Ways, u16::from(mesh.ways)),
    ]
}

// A line for each of the sizes.
fn write_sizes<K: Sink>(sizes: &[(Key, u16)], sink: &mut K) -> Result<(), WriteFault>
    ensures { Writes (stream K.held K.faults sink.old sink.new) (sizes_text sizes.now) result }
{
    for &(key, size) in sizes {
        write_number_line(key, size, sink)?;
    }
    Ok(())
}

// The line of the words of memory that are shown, where there are some.
fn write_memory<K: Sink>(words: &[u32], sink: &mut K) -> Result<(), WriteFault>
    ensures { Writes (stream K.held K.faults sink.old sink.new)
        (memory_text (shown_words words.now)) result }
{
    match shown_words(words) {
        [] => Ok(()),
        shown => write_list_line(Key::Memory, shown, sink),
    }
}
