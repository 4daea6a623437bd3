//! The ways of one set as an array.
ghost use Rattle.std.specs.Prelude.{◌≡◌, ◌<◌, ◌≤◌, ◌||◌, IsTrue, IfSome, length, replicate, is_some, is_none, slice_index_or, slice_set};
ghost use Rattle.std.specs.List.{position};
ghost use Rattle.chip_model.specs.Cache.{found, has_empty, placed, emptied, lowest_shared, lowest, put_of};
ghost use Rattle.chip_model.specs.NodeShape.{IsApart};
ghost use Rattle.line_cache.specs.Ways.{holds, holds_shared, line_held};

use crate::held_line::HeldLine;
use arrayvec::ArrayVec;
use chip_model::Victim;

/// As many as a set can have.
pub(crate) type Ways = ArrayVec<Option<HeldLine>, 4>;

// So many empty ways.
pub(crate) fn empty_ways(count: u8) -> Ways
    requires { count ≤ 4 }
    ensures { result.items ≡ replicate count None }
{
    let mut ways = ArrayVec::new();
    for _ in 0..count {
        ways.push(None);
    }
    ways
}

// Puts this into a way, if the way is there.
fn write(ways: &mut Ways, way: usize, held: Option<HeldLine>)
    ensures { ways.new.items ≡ slice_set ways.old.items way held }
{
    if let Some(place) = ways.get_mut(way) {
        *place = held;
    }
}

// Whether the way holds the line.
fn holds(way: &Option<HeldLine>, line: u16) -> bool
    ensures { result ≡ holds line way.now }
{
    match way {
        Some(held) => held.line() == line,
        None => false,
    }
}

// Whether the way holds a shared line.
fn holds_shared(way: &Option<HeldLine>) -> bool
    ensures { result ≡ holds_shared way.now }
{
    match way {
        Some(held) => held.is_shared(),
        None => false,
    }
}

// The lowest way that holds the line.
fn way_of(ways: &[Option<HeldLine>], line: u16) -> Option<usize>
    ensures { result ≡ position (holds line) ways.now }
{
    ways.iter().position(|way| holds(way, line))
}

// The lowest way that is empty.
fn empty_way(ways: &[Option<HeldLine>]) -> Option<usize>
    ensures { result ≡ position is_none ways.now }
{
    ways.iter().position(|way| way.is_none())
}

// The copy of the line.
pub(crate) fn found(ways: &[Option<HeldLine>], line: u16) -> Option<HeldLine>
    ensures { result ≡ found line ways.now }
{
    ways[way_of(ways, line)?]
}

// The copy stands in the way that holds its line, and else in the lowest empty way.
pub(crate) fn place(ways: &mut Ways, held: HeldLine)
    requires { IsTrue (is_some (found held.line ways.old.items) || has_empty ways.old.items) }
    ensures { ways.new.items ≡ placed held ways.old.items }
{
    if let Some(way) = way_of(ways.as_slice(), held.line()) {
        write(ways, way, Some(held));
    } else if let Some(way) = empty_way(ways.as_slice()) {
        write(ways, way, Some(held));
    }
}

// No way holds the line afterwards.
pub(crate) fn empty(ways: &mut Ways, line: u16)
    requires { IsApart ways.old.items }
    ensures { ways.new.items ≡ emptied line ways.old.items }
{
    if let Some(way) = way_of(ways.as_slice(), line) {
        write(ways, way, None);
    }
}

// Whether a way is empty.
pub(crate) fn has_empty(ways: &[Option<HeldLine>]) -> bool
    ensures { result ≡ has_empty ways.now }
{
    empty_way(ways).is_some()
}

// The line that a way holds.
fn line_in(ways: &[Option<HeldLine>], way: usize) -> Option<u16>
    requires { way < length ways.now }
    ensures { result ≡ line_held (slice_index_or ways.now way None) }
{
    let held = ways[way]?;
    Some(held.line())
}

// The lowest way that holds a shared line.
fn shared_way(ways: &[Option<HeldLine>]) -> Option<usize>
    ensures first { result ≡ position holds_shared ways.now }
    ensures there { IfSome result (λ way. way < length ways.now) }
{
    ways.iter().position(|way| holds_shared(way))
}

// The lowest line that is shared.
pub(crate) fn lowest_shared(ways: &[Option<HeldLine>]) -> Option<u16>
    ensures { result ≡ lowest_shared ways.now }
{
    let way = shared_way(ways)?;
    line_in(ways, way)
}

// The line of the lowest way, which has to be written back.
pub(crate) fn put_lowest(ways: &[Option<HeldLine>]) -> Victim
    requires { 0 < length ways.now }
    ensures { result ≡ put_of (lowest ways.now) }
{
    match line_in(ways, 0) {
        Some(line) => Victim::Put { line },
        None => Victim::Empty,
    }
}
