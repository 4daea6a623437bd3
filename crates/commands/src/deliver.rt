ghost use Rattle.outside_io.specs.Streams.{stream, Writes};
ghost use Rattle.doc_text.specs.Doc.{doc_of};
ghost use Rattle.chip_model.specs.OrderedNetwork.{sources};
ghost use Rattle.chip_model.specs.Delivery.{delivered_lists};
ghost use Rattle.commands.specs.Deliveries.{label_text, tile_line, deliveries_text, IsDelivered};
ghost use Rattle.commands.specs.Outcome.{WroteSome};

use crate::Stop;
use crate::line::write_number;
use arrayvec::ArrayString;
use broadcast::broadcast_posts;
use itoa::Buffer;
use mesh_doc::Document;
use mesh_gen::Request;
use net_iface::OrderedNet;
use outside_io::{Sink, WriteFault, write_piece};
use std::alloc::Global;

// Room for what stands before a tile's list: the word, a space, any number and a colon.
const LABEL_SIZE: usize = 64;

/// Broadcasts the requests of the posts over the ordered network, and writes for each tile a line of the sources of those
/// that it has delivered, in their order.
pub(crate) fn write_deliveries<K: Sink>(
    alloc: Global,
    document: &Document,
    sink: &mut K,
) -> Result<(), Stop>
    ensures { WroteSome (IsDelivered (doc_of document.now))
        (stream K.held K.faults sink.old sink.new) result }
{
    let net = broadcast_posts(alloc, document)?;
    write_lines(sink, &net)?;
    Ok(())
}

// The lines of all tiles.
fn write_lines<K: Sink>(sink: &mut K, net: &OrderedNet) -> Result<(), WriteFault>
    ensures { Writes (stream K.held K.faults sink.old sink.new)
        (deliveries_text (delivered_lists net.now.network)) result }
{
    for t in 0..net.tiles() {
        write_line(sink, t, net.delivered_requests(t))?;
    }
    Ok(())
}

// The line of a tile that has delivered these requests.
fn write_line<K: Sink>(sink: &mut K, tile: u8, delivered: &[Request]) -> Result<(), WriteFault>
    ensures { Writes (stream K.held K.faults sink.old sink.new)
        (tile_line tile (sources delivered.now)) result }
{
    write_label(sink, tile)?;
    for request in delivered {
        write_number(sink, request.source, true)?;
    }
    write_piece(sink, b"\n")
}

// What stands before a tile's list, as one piece.
fn write_label<K: Sink>(sink: &mut K, tile: u8) -> Result<(), WriteFault>
    ensures { Writes (stream K.held K.faults sink.old sink.new) (label_text tile) result }
{
    let mut label: ArrayString<LABEL_SIZE> = ArrayString::new();
    label.push_str("tile ");
    label.push_str(Buffer::new().format(tile));
    label.push_str(":");
    write_piece(sink, label.as_str().as_bytes())
}
