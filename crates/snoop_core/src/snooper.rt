ghost use Rattle.std.specs.Prelude.{◌≡◌, ◌*◌, ◌<◌, IfOk, IsSome, IsNone, false, is_some, option_map};
ghost use Rattle.chip_model.specs.Chip.{chip_of_mesh, line_of};
ghost use Rattle.chip_model.specs.Cache.{lookup, installed};
ghost use Rattle.chip_model.specs.Misses.{is_written_back, new_demand, new_back, request_for, wanted, marked_sent};
ghost use Rattle.chip_model.specs.Snoop.{with_cache, with_demand, with_back, line_gone};
ghost use Rattle.line_cache.specs.Sets.{Fits, IsVictim, copy_of};
ghost use Rattle.miss_table.specs.Looks.{demand_look, back_look};
ghost use Rattle.snoop_core.specs.ChipSides.{opening_side};

use chip_model::{Pending, State, Victim};
use line_cache::LineCache;
use mesh_gen::{Kind, Mesh, NoMemory, Words};
use miss_table::{BackLook, DemandLook, MissTable};
use report_text::AccessKind;
use std::alloc::Global;
use std::marker::Model;

/// The cache of a tile with what it waits for. Contracts see them beside the chip of the tile.
#[derive(Drop)]
pub(crate) struct Snooper {
    pub(crate) mesh: Mesh,
    pub(crate) cache: LineCache,
    pub(crate) misses: MissTable,
}

impl Model for Snooper {
    ghost use Rattle.chip_model.specs.Chip.{chip_of_mesh};
    ghost use Rattle.line_cache.specs.Sets.{HasSets};
    ghost use Rattle.snoop_core.specs.ChipSides.{ChipSide};

    ghost Value = { ChipSide };

    ghost view = { λ snooper. record {
      chip = chip_of_mesh snooper.mesh;
      side = record { cache = snooper.cache; misses = snooper.misses };
    } };

    ghost invariant = { λ snooper. HasSets (chip_of_mesh snooper.mesh) snooper.cache };
}

// The line of an address.
fn line_in(mesh: &Mesh, address: u32) -> u16
    requires { address < 4 * mesh.now.lines }
    ensures { result ≡ line_of address }
{
    (address / 4) as u16
}

// What an access that misses asks for.
fn request_for(kind: AccessKind) -> Kind
    ensures { result ≡ request_for kind }
{
    if kind.writes() {
        Kind::GetM
    } else {
        Kind::GetS
    }
}

impl Snooper {
    // Nothing is in the cache, and nothing is waited for.
    pub(crate) fn open(alloc: Global, mesh: &Mesh) -> Result<Snooper, NoMemory>
        ensures { IfOk result (λ snooper. snooper ≡ opening_side (chip_of_mesh mesh.now)) }
    {
        Ok(Snooper {
            mesh: mesh.copy(alloc)?,
            cache: LineCache::open(alloc, mesh)?,
            misses: MissTable::new(),
        })
    }

    // The line of an address.
    pub(crate) fn line_of(&self, address: u32) -> u16
        requires { address < 4 * self.now.chip.lines }
        ensures { result ≡ line_of address }
    {
        line_in(&self.mesh, address)
    }

    // The state and the words of a line in the cache.
    pub(crate) fn lookup(&self, line: u16) -> Option<(State, Words)>
        ensures copy { lookup self.now.chip self.now.side.cache line
            ≡ option_map (copy_of line) result }
        ensures fits { IsSome result → Fits self.now.side.cache line }
    {
        self.cache.lookup(line)
    }

    // What has to leave the cache before the line can come in.
    pub(crate) fn victim(&self, line: u16) -> Victim
        ensures { IsVictim self.now.chip self.now.side.cache line result }
    {
        self.cache.victim(line)
    }

    // The demand that stands.
    #[tactic(auto, unfolding(miss_table::specs::Looks::look_of))]
    pub(crate) fn demand(&self) -> Option<DemandLook>
        ensures { result ≡ option_map demand_look self.now.side.misses.demand }
    {
        self.misses.look().demand
    }

    // The write-back that stands.
    #[tactic(auto, unfolding(miss_table::specs::Looks::look_of))]
    pub(crate) fn back(&self) -> Option<BackLook>
        ensures { result ≡ option_map back_look self.now.side.misses.back }
    {
        self.misses.look().back
    }

    // Whether an access waits for its words.
    pub(crate) fn has_demand(&self) -> bool
        ensures { result ≡ is_some self.now.side.misses.demand }
    {
        self.demand().is_some()
    }

    // Whether a line is written back.
    pub(crate) fn has_back(&self) -> bool
        ensures { result ≡ is_some self.now.side.misses.back }
    {
        self.back().is_some()
    }

    // Whether this line is the one that is written back.
    pub(crate) fn is_written_back(&self, line: u16) -> bool
        ensures { result ≡ is_written_back line self.now.side.misses.back }
    {
        match self.back() {
            Some(back) => line == back.line,
            None => false,
        }
    }

    // The request that is still to be sent.
    pub(crate) fn wanted(&self) -> Option<(Kind, u16)>
        ensures { result ≡ wanted self.now.side.misses }
    {
        self.misses.wanted()
    }

    // The request that was wanted is sent.
    pub(crate) fn mark_sent(&mut self)
        requires { IsSome (wanted self.old.side.misses) }
        ensures { self.new ≡ record self.old {
          side = record self.old.side { misses = marked_sent self.old.side.misses };
        } }
    {
        self.misses.mark_sent();
    }

    // The only copy of a line has these words from now on.
    pub(crate) fn write(&mut self, line: u16, words: Words)
        requires { Fits self.old.side.cache line }
        ensures { self.new ≡ record self.old {
          side = with_cache (installed self.old.chip
              (copy_of line (State.M, words)) self.old.side.cache) self.old.side;
        } }
    {
        self.cache.install(line, State::M, words);
    }

    // A line leaves the cache.
    pub(crate) fn drop_line(&mut self, line: u16)
        ensures { self.new ≡ record self.old { side = line_gone self.old.chip line self.old.side } }
    {
        self.cache.drop_line(line);
    }

    // A demand begins.
    pub(crate) fn start(&mut self, line: u16, pending: Pending)
        requires none { IsNone self.old.side.misses.demand }
        requires apart { is_written_back line self.old.side.misses.back ≡ false }
        ensures { self.new ≡ record self.old {
          side = with_demand
              (Some (new_demand (request_for pending.kind) line pending)) self.old.side;
        } }
    {
        self.misses
            .start_demand(request_for(pending.kind), line, pending);
    }

    // A write-back begins of a line with these words, which leaves the cache.
    pub(crate) fn put_back(&mut self, line: u16, words: Words)
        requires demand { IsNone self.old.side.misses.demand }
        requires none { IsNone self.old.side.misses.back }
        ensures { self.new ≡ record self.old {
          side = with_back (Some (new_back line words))
              (line_gone self.old.chip line self.old.side);
        } }
    {
        self.cache.drop_line(line);
        self.misses.start_back(line, words);
    }
}
