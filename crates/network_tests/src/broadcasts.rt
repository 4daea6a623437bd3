ghost use Rattle.std.specs.Prelude.{◌≡◌, ◌*◌, ◌∷◌, [], length, IfOk};
ghost use Rattle.std.specs.List.{range_with_len};
ghost use Rattle.doc_text.specs.Limits.{ArePosts};

use crate::tracker::pass;
use broadcast::broadcast_posts;
use core_isa::Program;
use doc_text::{Document, Posts, Programs};
use mesh_gen::{Items, Mesh, Request, Tiles};
use order_tracker::Tracker;
use std::alloc::{AllocError, Global};
use std::test::Fail;

fn tiles(alloc: Global, tiles: &[u8]) -> Result<Tiles, AllocError>
    ensures { IfOk result (λ list. list ≡ tiles.now) }
{
    Ok(Items::new(Vec::from_slice(alloc, tiles)?))
}

fn three_windows(alloc: Global) -> Result<Posts, AllocError>
    ensures { IfOk result (λ posts. posts ≡ (0 ∷ 3 ∷ []) ∷ (1 ∷ 3 ∷ []) ∷ (2 ∷ []) ∷ []) }
{
    let mut posts = Vec::new(alloc);
    posts.push(tiles(alloc, &[0, 3])?)?;
    posts.push(tiles(alloc, &[1, 3])?)?;
    posts.push(tiles(alloc, &[2])?)?;
    Ok(Items::new(posts))
}

// So many tiles, from tile 0 on.
fn first_tiles(alloc: Global, count: u8) -> Result<Tiles, AllocError>
    ensures { IfOk result (λ list. list ≡ range_with_len 0 count) }
{
    let mut tiles = Vec::new(alloc);
    for t in 0..count {
        tiles.push(t)?;
    }
    Ok(Items::new(tiles))
}

// One window, in which so many tiles post.
fn one_window(alloc: Global, count: u8) -> Result<Posts, AllocError>
    ensures { IfOk result (λ posts. posts ≡ range_with_len 0 count ∷ []) }
{
    let mut posts = Vec::new(alloc);
    posts.push(first_tiles(alloc, count)?)?;
    Ok(Items::new(posts))
}

fn empty_programs(alloc: Global, count: u8) -> Result<Programs, AllocError>
    ensures { IfOk result (λ programs. length programs ≡ count) }
{
    let mut programs = Vec::new(alloc);
    for _ in 0..count {
        programs.push(Program::new(Vec::new(alloc)))?;
    }
    Ok(Items::new(programs))
}

// Two by two tiles, which post in three windows.
fn four_tiles(alloc: Global) -> Result<Document, Fail> {
    Ok(Document {
        mesh: Mesh::of_size(alloc, 2, 2, 2)?,
        memory: Items::new(vec![in alloc; 0; 64]?),
        programs: empty_programs(alloc, 4)?,
        posts: three_windows(alloc)?,
    })
}

// Eight by eight tiles, which all post in one window.
fn sixty_four_tiles(alloc: Global) -> Result<Document, Fail> {
    Ok(Document {
        mesh: Mesh::of_size(alloc, 8, 8, 14)?,
        memory: Items::new(vec![in alloc; 0; 64]?),
        programs: empty_programs(alloc, 64)?,
        posts: one_window(alloc, 64)?,
    })
}

fn sources_of(alloc: Global, requests: &[Request]) -> Result<Vec<u8>, AllocError> {
    let mut sources = Vec::new(alloc);
    for request in requests {
        sources.push(request.source)?;
    }
    Ok(sources)
}

#[test]
fn each_tile_delivers_all_that_is_posted(rt: HostRuntime) -> Result<(), Fail> {
    let alloc = rt.alloc();
    let net = broadcast_posts(alloc, &four_tiles(alloc)?)?;
    for t in 0..net.tiles() {
        let sources = sources_of(alloc, net.delivered_requests(t))?;
        assert_eq!(rt; sources.as_slice(), [0, 3, 1, 3, 2].as_slice(), "at {t}");
    }
    Ok(())
}

#[test]
fn all_of_64_tiles_deliver_the_order_of_the_merged_vector(rt: HostRuntime) -> Result<(), Fail> {
    let alloc = rt.alloc();
    let mut tracker = Tracker::open(alloc, &Mesh::of_size(alloc, 8, 8, 14)?)?;
    tracker.push(u64::MAX);
    let net = broadcast_posts(alloc, &sixty_four_tiles(alloc)?)?;
    let (order, counts) = net.into_lists();
    for request in order.as_slice() {
        assert_eq!(rt; pass(&mut tracker), Some((request.source, request.number)));
    }
    assert_eq!(rt; pass(&mut tracker), None);
    assert_eq!(rt; counts.as_slice(), [64; 64].as_slice());
    Ok(())
}
