//! The requests of each tile that are not ordered yet, and their turns when a window closes.
ghost use Rattle.std.specs.Prelude.{◌≡◌, ◌==◌, ◌+◌, ◌-◌, ◌*◌, ◌<◌, ◌≤◌, ◌++◌, [], IfOk, length, replicate, slice_set, filter};
ghost use Rattle.std.specs.List.{filter_map};
ghost use Rattle.std.specs.Vec.{vec_capacity};
ghost use Rattle.circular_buffer.specs.Buffer.{buffer};
ghost use Rattle.mesh_gen.specs.Grid.{tiles};
ghost use Rattle.mesh_gen.specs.Mesh.{grid};
ghost use Rattle.mesh_gen.specs.TileSet.{has_tile};
ghost use Rattle.order_tracker.specs.Order.{upwards, expansion};
ghost use Rattle.net_iface.specs.Unordered.{unordered_at, lowest_of, with_last, without_first, LoseLowest};

use circular_buffer::HeapCircularBuffer;
use mesh_gen::{Mesh, NoMemory, Request, has_tile};
use std::alloc::Global;

// Of each tile of a mesh no request, with room for as many as there are request channels.
pub(crate) fn empty_lists(
    alloc: Global,
    mesh: &Mesh,
) -> Result<Vec<HeapCircularBuffer<Request>>, NoMemory>
    ensures { IfOk result (λ lists.
        lists.items ≡ replicate (tiles (grid mesh.now))
        (buffer [] (tiles (grid mesh.now) * (5 * mesh.now.vcs + 4)))) }
{
    let tiles = mesh.tiles();
    let channels = usize::from(tiles) * (5 * usize::from(mesh.vcs) + 4);
    let mut lists = Vec::with_capacity(alloc, usize::from(tiles))?;
    for _ in 0..tiles {
        lists.push(HeapCircularBuffer::with_capacity(alloc, channels)?)?;
    }
    Ok(lists)
}

// Adds a request to those of its source.
pub(crate) fn add(lists: &mut Vec<HeapCircularBuffer<Request>>, q: Request)
    requires { length (unordered_at lists.old.items q.source).items <
        (unordered_at lists.old.items q.source).capacity }
    ensures { lists.new.items ≡ slice_set lists.old.items q.source
        (with_last (unordered_at lists.old.items q.source) q) }
{
    if let Some(list) = lists.get_mut(usize::from(q.source)) {
        list.push_back(q);
    }
}

// Whether a tile has no request that is not ordered.
pub(crate) fn is_none_left(lists: &[HeapCircularBuffer<Request>], t: u8) -> bool
    ensures { result ≡ (length (unordered_at lists.now t).items == 0) }
{
    match lists.get(usize::from(t)) {
        Some(list) => list.is_empty(),
        None => true,
    }
}

// Takes the first of a tile's requests away.
fn take_lowest(lists: &mut Vec<HeapCircularBuffer<Request>>, t: u8) -> Option<Request>
    ensures lowest { result ≡ lowest_of lists.old.items t }
    ensures lists { lists.new.items ≡ slice_set lists.old.items t
        (without_first (unordered_at lists.old.items t)) }
{
    match lists.get_mut(usize::from(t)) {
        Some(list) => list.pop_front(),
        None => None,
    }
}

// The turn of a tile: if it is in the set, the first of its requests goes after those that are ordered.
fn order_first(
    lists: &mut Vec<HeapCircularBuffer<Request>>,
    ordered: &mut Vec<Request>,
    set: u64,
    t: u8,
)
    requires tile { t < 64 }
    requires room { length ordered.old.items < vec_capacity ordered.old }
    ensures ordered { ordered.new.items ≡ ordered.old.items ++ filter_map
        (lowest_of lists.old.items) (filter (has_tile set) (upwards t 1)) }
    ensures lists { LoseLowest t (t + 1) set lists.old.items lists.new.items }
    ensures room { vec_capacity ordered.new ≡ vec_capacity ordered.old }
{
    if has_tile(set, t) {
        if let Some(q) = take_lowest(lists, t) {
            ordered.push_reserved(q);
        }
    }
}

// The turns of the tiles from one on and below another.
fn order_by_priority(
    lists: &mut Vec<HeapCircularBuffer<Request>>,
    ordered: &mut Vec<Request>,
    set: u64,
    from: u8,
    to: u8,
)
    requires tiles { (from ≤ to) × (to ≤ 64) }
    requires room { length ordered.old.items + (to - from) ≤ vec_capacity ordered.old }
    ensures ordered { ordered.new.items ≡ ordered.old.items ++ filter_map
        (lowest_of lists.old.items) (filter (has_tile set) (upwards from (to - from))) }
    ensures lists { LoseLowest from to set lists.old.items lists.new.items }
    ensures room { vec_capacity ordered.new ≡ vec_capacity ordered.old }
{
    for t in from..to {
        order_first(lists, ordered, set, t);
    }
}

// The turns of the tiles in window number `number`, whose vector is `set`.
pub(crate) fn order_window(
    lists: &mut Vec<HeapCircularBuffer<Request>>,
    ordered: &mut Vec<Request>,
    set: u64,
    number: u64,
    tiles: u8,
)
    requires tiles { (0 < tiles) × (tiles ≤ 64) }
    requires room { length ordered.old.items + tiles ≤ vec_capacity ordered.old }
    ensures ordered { ordered.new.items ≡ ordered.old.items ++ filter_map
        (lowest_of lists.old.items) (expansion tiles number set) }
    ensures lists { LoseLowest 0 tiles set lists.old.items lists.new.items }
    ensures room { vec_capacity ordered.new ≡ vec_capacity ordered.old }
{
    let first = (number % u64::from(tiles)) as u8;
    order_by_priority(lists, ordered, set, first, tiles);
    order_by_priority(lists, ordered, set, 0, first);
}
