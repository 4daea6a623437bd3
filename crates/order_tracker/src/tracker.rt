ghost use Rattle.std.specs.Prelude.{◌≡◌, ◌<◌, ◌≤◌, ◌+◌, ◌*◌, ◌%◌, ◌^◌, ◌↔◌, ℕ, List, [], ◌∷◌, ◌++◌, length, drop, IfOk, IfSome, IsSome, IsNone, slice_get, slice_index, slice_set};
ghost use Rattle.std.specs.List.{AllByRecursion};
ghost use Rattle.mesh_gen.specs.Grid.{tiles};
ghost use Rattle.mesh_gen.specs.Mesh.{grid};
ghost use Rattle.order_tracker.specs.Order.{expansion, order_from, order, entry_at};
ghost use Rattle.order_tracker.specs.Tracker.{IsNew, IsWindow, left_of, next_request_of, Follows};
ghost use Rattle.order_tracker.specs.FirstFrom.{IsFirstFrom};

use crate::tile_set::{first_from, without};
use circular_buffer::HeapCircularBuffer;
use mesh_gen::{Mesh, NoMemory};
use std::alloc::Global;
use std::marker::Model;

/// Which request comes next, as an interface derives it from the windows that it has taken.
#[derive(Drop)]
pub struct Tracker {
    tiles: u8,
    // The windows that are not used up. The first of them has lost the tiles whose turn has been.
    windows: HeapCircularBuffer<u64>,
    number: u64,
    used: Vec<u32>,
}

impl Model for Tracker {
    ghost use Rattle.std.specs.Prelude.{◌≡◌, ◌<◌, ◌≤◌, ◌+◌, ◌^◌, length};
    ghost use Rattle.std.specs.List.{AllByRecursion};
    ghost use Rattle.order_tracker.specs.Tracker.{TrackerState, IsWindow};

    ghost Value = { TrackerState };

    ghost view = { λ s. record {
      tiles = s.tiles;
      windows = s.windows.items;
      number = s.number;
      used = s.used.items;
      room = s.windows.capacity;
    } };

    ghost invariant = { λ s. (0 < s.tiles) × (s.tiles ≤ 64) × (length s.used.items ≡ s.tiles)
        × AllByRecursion (IsWindow s.tiles) s.windows.items
        × (s.number + length s.windows.items < 2 ^ 63)
        × (length s.windows.items ≤ s.windows.capacity) };
}

impl Tracker {
    /// It has room for as many windows as there are request channels: `tiles × (5 × vcs + 4)`.
    pub fn open(alloc: Global, mesh: &Mesh) -> Result<Tracker, NoMemory>
        ensures new { IfOk result (IsNew
            (tiles (grid mesh.now)) (tiles (grid mesh.now) * (5 * mesh.now.vcs + 4))) }
        ensures follows { IfOk result (Follows [] 0) }
    {
        let channels = 5 * usize::from(mesh.vcs) + 4;
        Ok(Tracker {
            tiles: mesh.tiles(),
            windows: HeapCircularBuffer::with_capacity(
                alloc,
                usize::from(mesh.tiles()) * channels,
            )?,
            number: 0,
            used: vec![in alloc; 0; usize::from(mesh.tiles())]?,
        })
    }

    /// Takes in the merged vector of the next window.
    pub fn push(&mut self, vector: u64)
        requires some { 0 < vector }
        requires tiles { vector < 2 ^ self.old.tiles }
        requires room { length self.old.windows < self.old.room }
        requires count { self.old.number + length self.old.windows + 1 < 2 ^ 63 }
        ensures pushed { self.new ≡ record self.old { windows = self.old.windows ++ vector ∷ [] } }
        ensures follows { (windows : List ℕ) (used : ℕ) → Follows windows used self.old
            → Follows (windows ++ vector ∷ []) used self.new }
    {
        self.windows.push_back(vector);
    }

    /// The source and the number of the request that comes next. None comes where every pushed window is used up.
    pub fn expected(&self) -> Option<(u8, u32)>
        ensures next { result ≡ next_request_of self.now }
        ensures none { IsNone result ↔ (self.now.windows ≡ []) }
        ensures follows { (windows : List ℕ) (used : ℕ) → Follows windows used self.now
            → result ≡ entry_at (order self.now.tiles windows) used }
    {
        match self.windows.front() {
            None => None,
            Some(&window) => {
                let source = source_of(window, self.tiles, self.number);
                Some((source, self.used[usize::from(source)]))
            }
        }
    }

    /// Passes over the request that comes next.
    pub fn advance(&mut self)
        requires expected { IsSome (next_request_of self.old) }
        requires count { IfSome (next_request_of self.old) (λ entry. entry.1 + 1 < 2 ^ 31) }
        ensures left { left_of self.new ≡ drop 1 (left_of self.old) }
        ensures used { IfSome (next_request_of self.old) (λ entry.
            self.new.used ≡ slice_set self.old.used entry.0 (entry.1 + 1)) }
        ensures room { (self.new.tiles ≡ self.old.tiles) × (self.new.room ≡ self.old.room) }
        ensures windows { length self.new.windows ≤ length self.old.windows }
        // A window that is used up is gone.
        ensures sets { AllByRecursion (IsWindow self.new.tiles) self.new.windows }
        ensures pushed { self.new.number + length self.new.windows
            ≡ self.old.number + length self.old.windows }
        ensures follows { (windows : List ℕ) (used : ℕ) → Follows windows used self.old
            → Follows windows (used + 1) self.new }
    {
        let source = pass_over(&mut self.windows, self.tiles, &mut self.number);
        self.used[usize::from(source)] += 1;
    }
}

// The tile of the window whose turn is first.
fn source_of(window: u64, tiles: u8, number: u64) -> u8
    requires tiles { (0 < tiles) × (tiles ≤ 64) }
    requires window { IsWindow tiles window }
    ensures first { IsFirstFrom window (number % tiles) result }
    ensures tile { result < tiles }
{
    first_from(window, (number % u64::from(tiles)) as u8)
}

// Takes the tile whose turn is first out of the first window, and the window away where that was its last tile.
fn pass_over(windows: &mut HeapCircularBuffer<u64>, tiles: u8, number: &mut u64) -> u8
    requires tiles { (0 < tiles) × (tiles ≤ 64) }
    requires windows { AllByRecursion (IsWindow tiles) windows.old.items }
    requires some { 0 < length windows.old.items }
    requires room { length windows.old.items ≤ windows.old.capacity }
    requires count { number.old + length windows.old.items < 2 ^ 63 }
    ensures left { order_from tiles number.old windows.old.items
        ≡ result ∷ order_from tiles number.new windows.new.items }
    ensures tile { result < tiles }
    ensures windows { AllByRecursion (IsWindow tiles) windows.new.items }
    ensures count { number.new + length windows.new.items ≡ number.old + length windows.old.items }
    ensures fewer { length windows.new.items ≤ length windows.old.items }
    ensures room { windows.new.capacity ≡ windows.old.capacity }
{
    let Some(window) = windows.pop_front() else {
        unreachable!();
    };
    let source = source_of(window, tiles, *number);
    let rest = without(window, source);
    if rest == 0 {
        *number += 1;
    } else {
        windows.push_front(rest);
    }
    source
}
