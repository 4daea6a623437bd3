ghost use Rattle.std.specs.Prelude.{◌≡◌, ◌<◌, ℕ, List, [], ◌++◌, ◌∷◌, ◌+◌, ◌≤◌, ◌^◌, length, IfOk, slice_index, slice_get, slice_set, bit_or, All, IfSome};
ghost use Rattle.mesh_gen.specs.Grid.{Grid, tiles, diameter};
ghost use Rattle.mesh_gen.specs.Mesh.{grid};
ghost use Rattle.mesh_gen.specs.TileSet.{set_of};
ghost use Rattle.notify_net.specs.Latches.{cleared, latches_after_post, Ticks};
ghost use Rattle.notify_net.specs.Links.{union_of, AreBelow};
ghost use Rattle.notify_net.specs.Merge.{merged, IsAtPhase};

use crate::links::{Sides, links};
use mesh_gen::{Mesh, NoMemory};
use std::alloc::Global;
use std::marker::Model;
use std::mem;

/// A latch a tile: a set of tiles as a word, whose bit t stands for tile t. It is an OR network with one stage a hop.
#[derive(Drop)]
pub struct Latches {
    cols: u8,
    rows: u8,
    links: Vec<Sides>,
    latches: Vec<u64>,
    // Where a tick writes, so that it needs no memory.
    next: Vec<u64>,
}

impl Model for Latches {
    ghost use Rattle.std.specs.Prelude.{◌≡◌, ◌≤◌, ◌*◌, length};
    ghost use Rattle.mesh_gen.specs.Grid.{tiles};
    ghost use Rattle.notify_net.specs.Latches.{LatchState};
    ghost use Rattle.notify_net.specs.Links.{AreLinks};

    ghost Value = { LatchState };

    ghost view = { λ s. record {
      grid = record { cols = s.cols; rows = s.rows };
      latches = s.latches.items;
    } };

    ghost invariant = { λ s. (length s.latches.items ≡ s.cols * s.rows)
        × (length s.next.items ≡ s.cols * s.rows)
        × AreLinks (record { cols = s.cols; rows = s.rows }) s.links.items
        × (s.cols * s.rows ≤ 64) };
}

impl Latches {
    /// All latches are empty.
    pub fn open(alloc: Global, mesh: &Mesh) -> Result<Latches, NoMemory>
        ensures opened { IfOk result (λ latches. latches ≡ cleared (grid mesh.now)) }
        ensures phase { IfOk result (λ latches. IsAtPhase (grid mesh.now) [] 0 latches) }
    {
        let tiles = usize::from(mesh.tiles());
        Ok(Latches {
            cols: mesh.cols,
            rows: mesh.rows,
            links: links(alloc, mesh)?,
            latches: vec![in alloc; 0; tiles]?,
            next: vec![in alloc; 0; tiles]?,
        })
    }

    /// The tile's latch takes in the tile.
    pub fn post(&mut self, t: u8)
        requires { t < tiles self.old.grid }
        ensures posted { self.new ≡ latches_after_post t self.old }
        ensures phase { (g : Grid) (posts : List ℕ) → IsAtPhase g posts 0 self.old
            → IsAtPhase g (posts ++ t ∷ []) 0 self.new }
    {
        post_at(&mut self.latches, t);
    }

    /// Each latch takes in what the latches of its neighbours hold, all at once.
    pub fn tick(&mut self)
        ensures ticked { Ticks self.old self.new }
        ensures phase { (g : Grid) (posts : List ℕ) (k : ℕ) → IsAtPhase g posts k self.old
            → IsAtPhase g posts (k + 1) self.new }
    {
        take_in(&self.latches, &self.links, &mut self.next);
        mem::swap(&mut self.latches, &mut self.next);
    }

    /// What the tile's latch holds.
    pub fn merged_at(&self, t: u8) -> u64
        requires { t < tiles self.now.grid }
        ensures held { result ≡ slice_index self.now.latches t }
        ensures merged { (g : Grid) (posts : List ℕ) (k : ℕ) → IsAtPhase g posts k self.now
            → result ≡ merged g posts k t }
        // After as many ticks as the mesh is wide, that is all who posted.
        ensures whole { (g : Grid) (posts : List ℕ) (k : ℕ) → IsAtPhase g posts k self.now
            → diameter g ≤ k → result ≡ set_of posts }
    {
        self.latches[usize::from(t)]
    }

    /// Empties all latches.
    pub fn clear(&mut self)
        ensures cleared { self.new ≡ cleared self.old.grid }
        ensures phase { IsAtPhase self.old.grid [] 0 self.new }
    {
        self.latches.fill(0);
    }
}

// The tile's word takes in the tile.
fn post_at(latches: &mut [u64], t: u8)
    requires inside { t < length latches.old }
    requires fits { length latches.old ≤ 64 }
    ensures { latches.new ≡ slice_set latches.old t (bit_or (slice_index latches.old t) (2 ^ t)) }
{
    latches[usize::from(t)] |= 1 << t;
}

// What a tile's word and those of its sides hold together.
fn union(latches: &[u64], t: usize, sides: Sides) -> u64
    requires own { t < length latches.now }
    requires beside { AreBelow (length latches.now) sides }
    ensures { result ≡ union_of latches.now t sides }
{
    latches[t]
        | latches[usize::from(sides.east)]
        | latches[usize::from(sides.west)]
        | latches[usize::from(sides.north)]
        | latches[usize::from(sides.south)]
}

// Into each place of `next` what the word of the tile and those of its sides hold.
fn take_in(latches: &[u64], links: &[Sides], next: &mut [u64])
    requires words { length next.old ≡ length latches.now }
    requires rows { length links.now ≡ length latches.now }
    requires beside { All (AreBelow (length latches.now)) links.now }
    ensures { (t : ℕ) → t < length latches.now → IfSome (slice_get links.now t) (λ sides.
        slice_index next.new t ≡ union_of latches.now t sides) }
{
    for t in 0..latches.len() {
        next[t] = union(latches, t, links[t]);
    }
}
