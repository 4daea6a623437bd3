ghost use Rattle.std.specs.Prelude.{◌≡◌, ◌+◌, ◌-◌, ◌*◌, [], ◌∷◌, max, pos, Some, None, IfOk, IfErr, IfSome, option_map};
ghost use Rattle.mesh_gen.specs.Limits.{IsFrom, most_side, most_tiles};
ghost use Rattle.toml.specs.View.{view, table_view};
ghost use Rattle.doc_text.specs.Keys.{row_of};
ghost use Rattle.doc_text.specs.declared.key.Key.TheVariants.{Cols as AtCols, Rows as AtRows, Window as AtWindow, Vcs as AtVcs, DataVcs as AtDataVcs, Lines as AtLines, Sets as AtSets, Ways as AtWays};
ghost use Rattle.doc_text.specs.declared.fault.DocFault.TheVariants.{Range as OutOfRange};
ghost use Rattle.mesh_doc.specs.Tables.{written_value, default, value};
ghost use Rattle.mesh_doc.specs.Values.{from_to, number_in};
ghost use Rattle.mesh_doc.specs.Faults.{range_faults};
ghost use Rattle.mesh_doc.specs.MeshSeen.{mesh_seen};

use crate::part::written_value;
use crate::values::number_in;
use doc_text::{DocFault, Key, Omitted};
use mesh_gen::MOST_SIDE;
use toml::{Table, Value};

/// How many columns and rows of tiles there are.
#[derive(Clone, Copy)]
pub(crate) struct Extent {
    pub(crate) cols: u8,
    pub(crate) rows: u8,
    ghost cols_limit: { IsFrom 1 most_side cols },
    ghost rows_limit: { IsFrom 1 most_side rows },
}

/// The numbers of a mesh.
#[derive(Clone, Copy)]
pub(crate) struct Sizes {
    pub(crate) window: u8,
    pub(crate) vcs: u8,
    pub(crate) data_vcs: u8,
    pub(crate) lines: u16,
    pub(crate) sets: u8,
    pub(crate) ways: u8,
    ghost vcs_limit: { IsFrom 1 8 vcs },
    ghost data_vcs_limit: { IsFrom 1 4 data_vcs },
    ghost lines_limit: { IsFrom 1 256 lines },
    ghost sets_limit: { IsFrom 1 64 sets },
    ghost ways_limit: { IsFrom 1 4 ways },
}

/// A value of the key that is out of its range.
pub(crate) fn out_of_range(key: Key) -> DocFault
    ensures { result ≡ OutOfRange key 0 }
{
    DocFault::Range { key, at: 0 }
}

/// What is written for a key of the mesh.
pub(crate) fn written_in<'a>(mesh: Option<&'a Table>, key: Key) -> Option<&'a Value>
    ensures { option_map (λ v. view v.now) result ≡ written_value key (mesh_seen mesh.entry) }
{
    match mesh {
        Some(table) => written_value(table, key),
        None => None,
    }
}

/// The number that stands for a key, where it is from the least to the most.
pub(crate) fn number_at(mesh: Option<&Table>, key: Key, least: u32, most: u32) -> Option<u32>
    ensures value { result ≡ number_in least most (value key (mesh_seen mesh.entry)) }
    ensures limits { IfSome result (IsFrom least most) }
{
    match written_in(mesh, key) {
        Some(value) => number_in(value, least, most),
        None => omitted_number(key, least, most),
    }
}

fn omitted_number(key: Key, least: u32, most: u32) -> Option<u32>
    ensures value { result ≡ number_in least most (default (row_of key).omitted) }
    ensures limits { IfSome result (IsFrom least most) }
{
    match key.omitted() {
        Omitted::Default { number } => bounded(u32::from(number), least, most),
        _ => None,
    }
}

fn bounded(number: u32, least: u32, most: u32) -> Option<u32>
    ensures value { result ≡ from_to least most (pos number) }
    ensures limits { IfSome result (IsFrom least most) }
{
    if least <= number && number <= most {
        Some(number)
    } else {
        None
    }
}

// The number that stands for a key of the mesh, or that it is out of its range.
fn number(mesh: Option<&Table>, key: Key, least: u32, most: u32) -> Result<u32, DocFault>
    ensures said { IfOk result (λ n.
        number_in least most (value key (mesh_seen mesh.entry)) ≡ Some n) }
    ensures limits { IfOk result (IsFrom least most) }
    ensures fault { IfErr result (λ f. (f ≡ OutOfRange key 0)
        × (number_in least most (value key (mesh_seen mesh.entry)) ≡ None)) }
{
    match number_at(mesh, key, least, most) {
        Some(number) => Ok(number),
        None => Err(out_of_range(key)),
    }
}

impl Extent {
    ghost use Rattle.mesh_doc.specs.Seen.{Finds, IsExtentOf};

    /// The size of the mesh.
    pub(crate) fn read(mesh: Option<&Table>) -> Result<Extent, DocFault>
        ensures finds { Finds (range_faults (mesh_seen mesh.entry) (AtCols ∷ AtRows ∷ [])) result }
        ensures said { IfOk result (IsExtentOf (mesh_seen mesh.entry)) }
    {
        let cols = number(mesh, Key::Cols, 1, MOST_SIDE as u32)?;
        let rows = number(mesh, Key::Rows, 1, MOST_SIDE as u32)?;
        Ok(Extent {
            cols: cols as u8,
            rows: rows as u8,
        })
    }

    /// How many tiles there are.
    pub(crate) fn tiles(&self) -> u8
        ensures tiles { result ≡ self.now.cols * self.now.rows }
        ensures limits { IsFrom 1 most_tiles result }
    {
        self.cols * self.rows
    }

    // How many ticks a window takes at least: enough to cross the mesh.
    fn least_window(&self) -> u32
        ensures { result ≡ max 1 ((self.now.cols - 1) + (self.now.rows - 1)) }
    {
        let diameter = (self.cols - 1) + (self.rows - 1);
        u32::from(diameter.max(1))
    }
}

impl Sizes {
    ghost use Rattle.mesh_doc.specs.Seen.{Finds, IsExtentOf, AreSizesOf};

    /// The numbers of the mesh beside its size.
    pub(crate) fn read(mesh: Option<&Table>, extent: &Extent) -> Result<Sizes, DocFault>
        requires { IsExtentOf (mesh_seen mesh) extent.now }
        ensures finds { Finds (range_faults (mesh_seen mesh.entry)
            (AtWindow ∷ AtVcs ∷ AtDataVcs ∷ AtLines ∷ AtSets ∷ AtWays ∷ [])) result }
        ensures said { IfOk result (AreSizesOf (mesh_seen mesh.entry)) }
        ensures window { IfOk result (λ sizes.
            IsFrom (max 1 ((extent.now.cols - 1) + (extent.now.rows - 1))) 64 sizes.window) }
    {
        let least = extent.least_window();
        let window = number(mesh, Key::Window, least, 64)?;
        let vcs = number(mesh, Key::Vcs, 1, 8)?;
        let data_vcs = number(mesh, Key::DataVcs, 1, 4)?;
        let lines = number(mesh, Key::Lines, 1, 256)?;
        let sets = number(mesh, Key::Sets, 1, 64)?;
        let ways = number(mesh, Key::Ways, 1, 4)?;
        Ok(Sizes {
            window: window as u8,
            vcs: vcs as u8,
            data_vcs: data_vcs as u8,
            lines: lines as u16,
            sets: sets as u8,
            ways: ways as u8,
        })
    }
}
