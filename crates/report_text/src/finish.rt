/// How a run ended.
#[derive(Clone, Copy, Debug, PartialEq, Eq)]
pub enum Finish {
    /// Nothing is left to be done.
    Finished,
    /// The budget of events is spent.
    Budget,
}
