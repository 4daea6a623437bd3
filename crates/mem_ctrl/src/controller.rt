ghost use Rattle.std.specs.Prelude.{◌≡◌, ◌≢◌, ◌+◌, ◌*◌, ◌<◌, ◌≤◌, ◌↔◌, ◌++◌, ℕ, IfOk, IsNone, length, option_map};
ghost use Rattle.chip_model.specs.Chip.{Chip, chip_of_mesh, home};
ghost use Rattle.chip_model.specs.Records.{LineRecord, answered, back_arrived};
ghost use Rattle.chip_model.specs.Node.{words_at, record_at, opening_records};
ghost use Rattle.mem_ctrl.specs.Waits.{TakesRequest};
ghost use Rattle.mem_ctrl.specs.Owners.{KeepsHomes, record_of, owner_in, next_owner, told_of};

use crate::record::Record;
use chip_model::Owner;
use forward_list::{LIST_PLACES, OutQueue, QUEUE_PLACES};
use mesh_gen::{Mesh, NoMemory, Request, Words};
use std::alloc::Global;
use std::marker::Model;

/// The memory controller of a tile. Contracts see its records by the lines' numbers, with none where the line's home is
/// another tile.
#[derive(Drop)]
pub struct Controller {
    // A place for each line of the chip, so that a line is found by its number.
    records: Vec<Option<Record>>,
}

impl Model for Controller {
    ghost use Rattle.chip_model.specs.Records.{Records};

    ghost Value = { Records };

    ghost view = { λ controller. controller.records.items };
}

// The words of a line in a memory.
fn words_at(memory: &[u32], line: u16) -> Words
    requires { 4 * line + 4 ≤ length memory.now }
    ensures { result ≡ words_at memory.now line }
{
    let at = 4 * usize::from(line);
    [memory[at], memory[at + 1], memory[at + 2], memory[at + 3]]
}

// The record of a line at the start: none where the line's home is another tile.
fn opening(mesh: &Mesh, tile: u8, memory: &[u32], line: u16) -> Option<Record>
    requires line { line < mesh.now.lines }
    requires memory { length memory.now ≡ 4 * mesh.now.lines }
    ensures { result ≡ record_at (chip_of_mesh mesh.now) tile memory.now line }
{
    if mesh.home(line) == tile {
        Some(Record::new(words_at(memory, line)))
    } else {
        None
    }
}

impl Controller {
    /// Memory owns all lines whose home is this tile, and has their words. The memory is that of the whole chip.
    pub fn open(
        alloc: Global,
        mesh: &Mesh,
        tile: u8,
        memory: &[u32],
    ) -> Result<Controller, NoMemory>
        requires { length memory.now ≡ 4 * mesh.now.lines }
        ensures records { IfOk result (λ controller.
            controller ≡ opening_records (chip_of_mesh mesh.now) tile memory.now) }
        ensures homes { IfOk result (λ controller.
            KeepsHomes (chip_of_mesh mesh.now) tile controller) }
    {
        let mut records = Vec::with_capacity(alloc, usize::from(mesh.lines))?;
        for line in 0..mesh.lines {
            records.push(opening(mesh, tile, memory, line))?;
        }
        Ok(Controller { records })
    }

    /// A request is delivered, and the words that it gets at once are queued. It changes nothing where the line's home is
    /// another tile.
    pub fn on_request(&mut self, q: Request, out: &mut OutQueue)
        requires room { length (out.old ++ (answered q self.old).sends) ≤ QUEUE_PLACES }
        requires waiting { (r : LineRecord) → record_of self.old q.line ≡ Some r
            → TakesRequest q LIST_PLACES r }
        ensures records { self.new ≡ (answered q self.old).records }
        ensures sent { out.new ≡ out.old ++ (answered q self.old).sends }
        ensures owners { (line : ℕ)
            → owner_in self.new line ≡ next_owner line q (owner_in self.old line) }
        ensures homes { (chip : Chip) (tile : ℕ) → KeepsHomes chip tile self.old
            → KeepsHomes chip tile self.new }
    {
        let line = usize::from(q.line);
        if line < self.records.len() {
            if let Some(record) = &mut self.records[line] {
                record.answer(q, out);
            }
        }
    }

    /// The words of a line came back to memory: all that wait for them get them.
    pub fn on_back(&mut self, line: u16, words: Words, out: &mut OutQueue)
        requires room { length (out.old ++ (back_arrived line words self.old).sends)
            ≤ QUEUE_PLACES }
        ensures records { self.new ≡ (back_arrived line words self.old).records }
        ensures sent { out.new ≡ out.old ++ (back_arrived line words self.old).sends }
        ensures owners { (other : ℕ) → owner_in self.new other ≡ owner_in self.old other }
        ensures homes { (chip : Chip) (tile : ℕ) → KeepsHomes chip tile self.old
            → KeepsHomes chip tile self.new }
    {
        let place = usize::from(line);
        if place < self.records.len() {
            if let Some(record) = &mut self.records[place] {
                record.take_back(line, words, out);
            }
        }
    }

    /// The owner of a line, its words in memory, and whether these are the last ones. None where the line's home is
    /// another tile.
    pub fn home_record(&self, line: u16) -> Option<(Owner, Words, bool)>
        ensures record { option_map told_of (record_of self.now line) ≡ result }
        ensures none { (chip : Chip) (tile : ℕ) → KeepsHomes chip tile self.now → line < chip.lines
            → (IsNone result ↔ (home chip line ≢ tile)) }
    {
        let record = self.records.get(usize::from(line))?.as_ref()?;
        Some(record.told())
    }
}
