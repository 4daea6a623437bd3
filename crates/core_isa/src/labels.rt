ghost use Rattle.std.specs.Prelude.{◌≡◌, ◌+◌, ◌<◌, ◌^◌, [], OnOk};
ghost use Rattle.core_isa.specs.Operands.{scope_of};
ghost use Rattle.core_isa.specs.LineSeen.{label_seen, line_seen};
ghost use Rattle.core_isa.specs.LabelsSeen.{places_seen, scope_seen, with_label, with_line};

use crate::NoMemory;
use crate::line::Line;
use crate::word::is_label_name;
use std::alloc::Global;
use std::collections::BTreeMap;

/// What some lines of a text have: the place of each label that is a name, and the number of instructions.
#[derive(Drop)]
pub(crate) struct Labels<'a> {
    places: BTreeMap<&'a [u8], usize>,
    count: usize,
}

impl<'a> Labels<'a> {
    /// Those of no line.
    #[tactic(auto, unfolding(crate::specs::LabelsSeen::places_seen))]
    pub fn new(alloc: Global) -> Labels<'a>
        ensures { scope_seen result ≡ scope_of [] }
    {
        Labels {
            places: BTreeMap::new(alloc),
            count: 0,
        }
    }

    pub fn count(&self) -> usize
        ensures { result ≡ self.now.count }
    {
        self.count
    }

    #[tactic(auto, unfolding(crate::specs::LabelsSeen::places_seen))]
    pub fn place(&self, name: &'a [u8]) -> Option<usize>
        ensures { result ≡ (scope_seen self.now).places name.now }
    {
        self.places.get(&name).copied()
    }

    /// Adds a line after those so far.
    pub fn add(&mut self, line: &Line<'a>) -> Result<(), NoMemory>
        requires { self.old.count + 1 < 2 ^ 64 }
        ensures { OnOk result (scope_seen self.new
            ≡ with_line (scope_seen self.old) (line_seen line.now)) }
    {
        add_label(&mut self.places, line.label, self.count)?;
        if !line.words.is_empty() {
            self.count += 1;
        }
        Ok(())
    }
}

// A label that has a place already keeps it.
fn add_label<'a>(
    places: &mut BTreeMap<&'a [u8], usize>,
    label: Option<&'a [u8]>,
    place: usize,
) -> Result<(), NoMemory>
    ensures { OnOk result (places_seen places.new
        ≡ with_label (places_seen places.old) (label_seen label.entry) place) }
{
    let Some(label) = label else {
        return Ok(());
    };
    if is_label_name(label) && !places.contains_key(&label) {
        places.insert(label, place)?;
    }
    Ok(())
}
