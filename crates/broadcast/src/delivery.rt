//! The broadcast of all that a document posts.
ghost use Rattle.std.specs.Prelude.{◌≡◌, ◌≤◌, IfOk};
ghost use Rattle.mesh_gen.specs.Limits.{AreTiles, most_tiles};
ghost use Rattle.mesh_gen.specs.TileSet.{set_of};
ghost use Rattle.doc_text.specs.Doc.{doc_of};
ghost use Rattle.chip_model.specs.Chip.{chip_of, chip_of_mesh};
ghost use Rattle.chip_model.specs.Delivery.{DeliversPosts};
ghost use Rattle.net_iface.specs.OneOrder.{IsOneOrder};
ghost use Rattle.broadcast.specs.Settled.{broadcast_network};
ghost use Rattle.broadcast.specs.Whole.{IsWhole};

use crate::laws::broadcast_laws;
use crate::passes::settle;
use crate::window::pass_window;
use doc_text::Document;
use mesh_gen::{NoMemory, set_of};
use net_iface::OrderedNet;
use std::alloc::Global;

// The set of the tiles that post in a window.
fn posts_of(tiles: &[u8], count: u8) -> u64
    requires tiles { AreTiles count tiles.now }
    requires few { count ≤ most_tiles }
    ensures { result ≡ set_of tiles.now }
{
    set_of(tiles)
}

/// The ordered network in which the requests of a document's posts have been broadcast: window by window each tile that
/// posts makes a request, posts it, and the window's ticks pass; then whatever can move on does, until nothing can. All
/// memory is taken at the start.
pub fn broadcast_posts(alloc: Global, document: &Document) -> Result<OrderedNet, NoMemory>
    ensures chip { IfOk result (λ net. net.chip ≡ chip_of_mesh document.now.mesh) }
    ensures delivers { IfOk result (λ net. DeliversPosts (doc_of document.now) net.network) }
    ensures network { IfOk result (λ net. net.network ≡ broadcast_network (doc_of document.now)) }
    ensures one_order { IfOk result (λ net.
        IsOneOrder (chip_of (doc_of document.now)) net.network) }
    // Every post is ordered, and every tile has delivered the whole order.
    ensures whole { IfOk result (λ net. IsWhole (doc_of document.now) net.network) }
{
    let mesh = &document.mesh;
    let windows = document.windows();
    let tiles = mesh.tiles();
    let room = windows.len() as u64 * u64::from(tiles);
    let mut net = OrderedNet::open(alloc, mesh, room)?;
    for window in windows {
        let set = posts_of(window.as_slice(), tiles);
        pass_window(&mut net, set);
        settle(&mut net);
    }
    // What these tell is true of every ordered network, and of every broadcast.
    net.tiles();
    broadcast_laws();
    Ok(net)
}
