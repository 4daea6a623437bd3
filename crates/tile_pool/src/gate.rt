/// What the worker of a tile passes in each round, after its core's own events and before it tries to have the turn. A program's
/// gate does nothing; a test's gate holds workers back until others came.
pub trait Gate: Sync {
    /// The worker of a tile passes, in the round of this number. It returns.
    fn pass(&self, tile: u8, turn: u32);
}
