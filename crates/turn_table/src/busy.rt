/// Why a try did not get the turn. Where `seen` is odd, another seat had the turn when the word was
/// loaded, and `found` is the same number. Else the word was `found` when this seat came to change it.
#[derive(Clone, Copy, Debug, PartialEq, Eq)]
pub struct Busy {
    pub seen: u64,
    pub found: u64,
}
