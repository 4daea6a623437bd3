// The kinds of step on the table's word, and how notes go from one view to another.
ghost use Rattle.turn_table.specs.Steps.{Loads, Acquires, ReleasesWithEntry, Releases, first_note_taken, first_note_alone};

use crate::note::View;
use crate::turned::Turned;
use atomic_table::{Join, Play, Split};

/// A load of the word, by a seat without the turn.
pub(crate) struct Load;

impl<V: Turned> Play<V, View> for Load {
    ghost then = { Loads };
}

/// The exchange of an even number for the next odd one, which gets the turn where it finds that number.
pub(crate) struct Acquire;

impl<V: Turned> Play<V, View> for Acquire {
    ghost then = { Acquires V.entries V.names };
}

/// The end of a turn that made an entry.
pub(crate) struct ReleaseWithEntry;

impl<V: Turned> Play<V, View> for ReleaseWithEntry {
    ghost then = { ReleasesWithEntry V.entries };
}

/// The end of a turn that made none.
pub(crate) struct Release;

impl<V: Turned> Play<V, View> for Release {
    ghost then = { Releases };
}

/// A view of several notes gives its first to a new seat, and takes the notes of a seat that is back.
pub(crate) struct NoteByNote;

impl Split<View> for NoteByNote {
    ghost left = { first_note_taken };

    ghost right = { first_note_alone };
}

impl Join<View> for NoteByNote {
    ghost use Rattle.std.specs.Prelude.{[], ◌++◌};

    ghost both = { λ taking taken. taken ++ taking };

    ghost spent = { [] };
}
