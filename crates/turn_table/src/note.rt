use std::collections::LinkedList;

/// What a seat knows. It exists in contracts and proofs alone: no value of this type is made.
pub struct Note {
    /// The seat's number, from 0.
    pub number: u64,
    /// How many seats the table has.
    pub seats: u64,
    /// The entries that the value had when the table was made.
    pub opening: LinkedList<u64>,
    /// The entry that this seat made, if any, with its position among all entries made.
    pub own: LinkedList<(u64, u64)>,
    /// The entries made when this seat's last turn ended.
    pub trail: LinkedList<u64>,
    pub has_turn: bool,
    /// Whether it ever got the turn.
    pub served: bool,
    /// Whether it was ever answered `Busy`.
    pub refused: bool,
    /// How often its tries loaded the word.
    pub loads: u64,
    /// The number that the last load gave.
    pub seen: u64,
    /// The number that the exchange after that load found, if there was one.
    pub found: Option<u64>,
}

/// The notes of a seat of the table below: one for each seat of ours that it stands for.
pub(crate) type View = LinkedList<Note>;
