ghost use Rattle.std.specs.Prelude.{◌≡◌, ◌≢◌, ◌<◌, ◌%◌, ℕ, IfOk, IsSome, IsTrue, length, option_map};
ghost use Rattle.chip_model.specs.Chip.{Chip, chip_of_mesh};
ghost use Rattle.chip_model.specs.Cache.{empty_cache, lookup, fits, victim, installed, without_line};
ghost use Rattle.line_cache.specs.Sets.{HasSets, Fits, IsVictim, copy_of};

use crate::cache_set::CacheSet;
use crate::held_line::HeldLine;
use chip_model::{State, Victim};
use mesh_gen::{Mesh, NoMemory, Words};
use std::alloc::Global;
use std::marker::Model;

/// The cache of a tile. Contracts see its sets, and speak of every chip whose caches have as many.
#[derive(Drop)]
pub struct LineCache {
    sets: Vec<CacheSet>,
}

impl Model for LineCache {
    ghost use Rattle.std.specs.Prelude.{◌<◌, length};
    ghost use Rattle.chip_model.specs.Cache.{Cache};
    ghost use Rattle.line_cache.specs.Sets.{AreInPlace};

    ghost Value = { Cache };

    ghost view = { λ cache. cache.sets.items };

    ghost invariant = { λ cache. (0 < length cache.sets.items) × AreInPlace cache.sets.items };
}

impl LineCache {
    /// No line is in the cache.
    pub fn open(alloc: Global, mesh: &Mesh) -> Result<LineCache, NoMemory>
        ensures { IfOk result (λ cache. cache ≡ empty_cache (chip_of_mesh mesh.now)) }
    {
        let mut sets = Vec::with_capacity(alloc, usize::from(mesh.sets))?;
        for _ in 0..mesh.sets {
            sets.push(CacheSet::new(mesh.ways))?;
        }
        Ok(LineCache { sets })
    }

    // The number of the set to which a line belongs.
    fn set_number(&self, line: u16) -> usize
        ensures number { result ≡ line % length self.now }
        ensures there { result < length self.now }
    {
        usize::from(line) % self.sets.len()
    }

    /// The state and the words of a line. None where the line is not in the cache.
    pub fn lookup(&self, line: u16) -> Option<(State, Words)>
        ensures copy { (chip : Chip) → HasSets chip self.now
            → lookup chip self.now line ≡ option_map (copy_of line) result }
        ensures fits { IsSome result → Fits self.now line }
    {
        let held = self.sets[self.set_number(line)].found(line)?;
        Some(held.copy())
    }

    /// What has to leave the cache before the line, which is not in it, can come in.
    pub fn victim(&self, line: u16) -> Victim
        ensures rule { (chip : Chip) → HasSets chip self.now → result ≡ victim chip self.now line }
        ensures room { (chip : Chip) → HasSets chip self.now → IsVictim chip self.now line result }
        ensures fits { result ≡ Victim.Empty → Fits self.now line }
    {
        self.sets[self.set_number(line)].victim()
    }

    /// The line has this state and these words from now on.
    pub fn install(&mut self, line: u16, state: State, words: Words)
        requires { Fits self.old line }
        ensures installed { (chip : Chip) → HasSets chip self.old
            → self.new ≡ installed chip (copy_of line (state, words)) self.old }
        ensures there { (chip : Chip) → HasSets chip self.old
            → lookup chip self.new line ≡ Some (copy_of line (state, words)) }
        ensures others { (chip : Chip) → HasSets chip self.old → (other : ℕ) → other ≢ line
            → lookup chip self.new other ≡ lookup chip self.old other }
        ensures room { (chip : Chip) → HasSets chip self.old → IsSome (lookup chip self.old line)
            → (other : ℕ) → IsTrue (fits chip self.old other) → IsTrue (fits chip self.new other) }
        ensures sets { length self.new ≡ length self.old }
    {
        let set = self.set_number(line);
        self.sets[set].place(HeldLine::new(line, state, words));
    }

    /// The line is not in the cache from now on.
    pub fn drop_line(&mut self, line: u16)
        ensures dropped { (chip : Chip) → HasSets chip self.old
            → self.new ≡ without_line chip line self.old }
        ensures gone { (chip : Chip) → HasSets chip self.old → lookup chip self.new line ≡ None }
        ensures others { (chip : Chip) → HasSets chip self.old → (other : ℕ) → other ≢ line
            → lookup chip self.new other ≡ lookup chip self.old other }
        ensures room { (chip : Chip) → HasSets chip self.old → (other : ℕ)
            → IsTrue (fits chip self.old other) → IsTrue (fits chip self.new other) }
        ensures sets { length self.new ≡ length self.old }
    {
        let set = self.set_number(line);
        self.sets[set].empty(line);
    }
}
