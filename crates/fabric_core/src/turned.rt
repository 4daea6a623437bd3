ghost use Rattle.report_text.specs.Journals.{tile_named};

use crate::Fabric;
use turn_table::Turned;

// The turns of a fabric are the entries of its journal, and each names the tile that made it. A value that is changed in
// turns may be moved to another thread, and so a fabric may.
impl Turned for Fabric {
    ghost entries = { λ fabric. fabric.entries };

    ghost names = { tile_named };

    fn turns(&self) -> u64 {
        self.log.words()
    }
}
