ghost use Rattle.std.specs.Prelude.{◌≡◌, ◌||◌, replicate, IsTrue, is_some};
ghost use Rattle.mesh_gen.specs.Limits.{IsFrom};
ghost use Rattle.chip_model.specs.Cache.{found, has_empty, placed, emptied, victim_of};
ghost use Rattle.line_cache.specs.Ways.{IsVictimOfWays};

use crate::held_line::HeldLine;
use crate::ways;
use crate::ways::{Ways, empty_ways};
use chip_model::Victim;
use std::marker::Model;

/// The ways of one set, in which a line stands once at most. Contracts see them as a list.
#[derive(Drop)]
pub(crate) struct CacheSet {
    ways: Ways,
}

impl Model for CacheSet {
    ghost use Rattle.std.specs.Prelude.{◌<◌, length};
    ghost use Rattle.chip_model.specs.Cache.{Ways};
    ghost use Rattle.chip_model.specs.NodeShape.{IsApart};

    ghost Value = { Ways };

    ghost view = { λ set. set.ways.items };

    ghost invariant = { λ set. (0 < length set.ways.items) × IsApart set.ways.items };
}

impl CacheSet {
    // So many empty ways.
    pub(crate) fn new(ways: u8) -> CacheSet
        requires { IsFrom 1 4 ways }
        ensures { result ≡ replicate ways None }
    {
        CacheSet {
            ways: empty_ways(ways),
        }
    }

    // The copy of the line.
    pub(crate) fn found(&self, line: u16) -> Option<HeldLine>
        ensures { result ≡ found line self.now }
    {
        ways::found(self.ways.as_slice(), line)
    }

    // What has to leave before one more line comes in.
    pub(crate) fn victim(&self) -> Victim
        ensures rule { result ≡ victim_of self.now }
        ensures room { IsVictimOfWays self.now result }
    {
        let ways = self.ways.as_slice();
        if ways::has_empty(ways) {
            return Victim::Empty;
        }
        match ways::lowest_shared(ways) {
            Some(line) => Victim::DropS { line },
            None => ways::put_lowest(ways),
        }
    }

    // The copy stands in the way that holds its line, and else in the lowest empty way.
    pub(crate) fn place(&mut self, held: HeldLine)
        requires { IsTrue (is_some (found held.line self.old) || has_empty self.old) }
        ensures { self.new ≡ placed held self.old }
    {
        ways::place(&mut self.ways, held);
    }

    // No way holds the line afterwards.
    pub(crate) fn empty(&mut self, line: u16)
        ensures { self.new ≡ emptied line self.old }
    {
        ways::empty(&mut self.ways, line);
    }
}
