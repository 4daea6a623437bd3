use chip_model::Done;

/// What an access that was possible came to.
#[derive(Clone, Copy, Debug, PartialEq, Eq)]
pub enum Outcome {
    /// It was performed at once.
    Hit(Done),
    /// The node waits for the words of the access, or begins to write another line back, and the access has to be tried
    /// again.
    Started,
}
