ghost use Rattle.std.specs.Prelude.{◌≡◌, ◌↔◌, Some, IsTrue};

use crate::Event;
use crate::operands::{Fields, LAST_TILE};

/// An entry of a journal: some events of the core of the tile `by`, and then one event.
#[derive(Clone, Copy, Debug, PartialEq, Eq)]
pub struct Entry {
    pub by: u8,
    /// How many events of the core come first.
    pub cores: u8,
    pub event: Event,
}

// What a unit of each field counts in a packed word. The field `out` counts itself.
const SLOT: u64 = 1 << 3;

const PORT: u64 = 1 << 7;

const TILE: u64 = 1 << 10;

const KIND: u64 = 1 << 16;

const BY: u64 = 1 << 20;

const CORES: u64 = 1 << 26;

impl Entry {
    ghost use Rattle.report_text.specs.declared.entry.Entry.{Entry};
    ghost use Rattle.report_text.specs.Entry.{IsValid, packed};
    ghost use Rattle.report_text.specs.Unpacking.{entry_near};

    /// How many events of the core an entry has at most.
    pub const MOST_CORES: u8 = 16;

    /// Whether it has a packed word: its tiles and routers are at most 63, its slots at most 15, its way leaves the
    /// router, and at most 16 events of the core come first.
    pub fn is_valid(&self) -> bool
        ensures { IsTrue result ↔ IsValid self.now }
    {
        self.by <= LAST_TILE && self.cores <= Self::MOST_CORES && self.event.operands().are_within()
    }

    /// Its packed word.
    pub fn pack(&self) -> u64
        requires { IsValid self.now }
        ensures { result ≡ packed self.now }
    {
        let fields = self.event.operands().fields();
        u64::from(self.cores) * CORES
            + u64::from(self.by) * BY
            + u64::from(self.event.number()) * KIND
            + u64::from(fields.tile) * TILE
            + u64::from(fields.port) * PORT
            + u64::from(fields.slot) * SLOT
            + u64::from(fields.out)
    }

    /// The valid entry whose packed word this is. None for a word that is no valid entry's.
    pub fn unpack(word: u64) -> Option<Entry>
        ensures { (entry : Entry) → (result ≡ Some entry)
            ↔ (IsValid entry × (packed entry ≡ word)) }
    {
        let entry = Self::nearest(word)?;
        if entry.is_valid() && entry.pack() == word {
            Some(entry)
        } else {
            None
        }
    }

    // The entry of the numbers in the fields of the word. A field that the event lacks is not looked at.
    fn nearest(word: u64) -> Option<Entry>
        ensures { result ≡ entry_near word }
    {
        let fields = Fields {
            tile: (word / TILE % 64) as u8,
            port: (word / PORT % 8) as u8,
            slot: (word / SLOT % 16) as u8,
            out: (word % 8) as u8,
        };
        let event = Event::numbered((word / KIND % 16) as u8, fields)?;
        let by = (word / BY % 64) as u8;
        let cores = (word / CORES % 64) as u8;
        Some(Entry { by, cores, event })
    }
}
