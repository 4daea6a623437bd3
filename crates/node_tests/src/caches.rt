//! The calls of a cache.
ghost use Rattle.mesh_gen.specs.Limits.{IsFrom};

use line_cache::{LineCache, State, Victim};
use mesh_gen::{Mesh, NoMemory, Words};
use std::alloc::Global;
use std::test::Fail;

const WORDS: Words = [5, 2, 3, 4];

// An empty cache of so many sets and ways.
fn open(alloc: Global, sets: u8, ways: u8) -> Result<LineCache, NoMemory>
    requires sets { IsFrom 1 64 sets }
    requires ways { IsFrom 1 4 ways }
{
    let mut mesh = Mesh::of_size(alloc, 2, 2, 2)?;
    mesh.sets = sets;
    mesh.ways = ways;
    LineCache::open(alloc, &mesh)
}

// Installs a line if it fits, and returns whether it did.
fn put(cache: &mut LineCache, line: u16, state: State) -> bool {
    if cache.lookup(line).is_some() {
        cache.install(line, state, WORDS);
        return true;
    }
    match cache.victim(line) {
        Victim::Empty => {
            cache.install(line, state, WORDS);
            true
        }
        Victim::DropS { .. } | Victim::Put { .. } => false,
    }
}

// The victims of the first set of a cache once it is full of owned lines, the last of which is then shared and then
// dropped.
fn leavers(alloc: Global, sets: u8, ways: u8) -> Result<[Victim; 3], NoMemory>
    requires sets { IsFrom 1 64 sets }
    requires ways { IsFrom 1 4 ways }
{
    let mut cache = open(alloc, sets, ways)?;
    let sets = u16::from(sets);
    let ways = u16::from(ways);
    for way in 0..ways {
        put(&mut cache, way * sets, State::O);
    }
    let full = cache.victim(ways * sets);
    let last = (ways - 1) * sets;
    put(&mut cache, last, State::S);
    let shared = cache.victim(ways * sets);
    cache.drop_line(last);
    Ok([full, shared, cache.victim(ways * sets)])
}

// The lowest line, then the one that is shared, then none.
fn in_turn(shared: u16) -> [Victim; 3] {
    [
        Victim::Put { line: 0 },
        Victim::DropS { line: shared },
        Victim::Empty,
    ]
}

#[test]
fn the_smallest_cache_fills_up(rt: HostRuntime) -> Result<(), Fail> {
    assert_eq!(rt; leavers(rt.alloc(), 1, 1)?, in_turn(0));
    Ok(())
}

#[test]
fn the_largest_cache_fills_up(rt: HostRuntime) -> Result<(), Fail> {
    assert_eq!(rt; leavers(rt.alloc(), 64, 4)?, in_turn(192));
    Ok(())
}

#[test]
fn a_line_is_looked_up(rt: HostRuntime) -> Result<(), Fail> {
    let mut cache = open(rt.alloc(), 1, 2)?;
    assert_eq!(rt; put(&mut cache, 1, State::O), true);
    assert_eq!(rt; cache.lookup(0), None);
    assert_eq!(rt; cache.lookup(1), Some((State::O, WORDS)));
    Ok(())
}
