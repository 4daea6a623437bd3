ghost use Rattle.std.specs.Prelude.{◌≡◌, ℕ, List, length};

/// A value that is changed in turns. It has a list of entries, which grows, and each entry names a seat.
pub trait Turned: Send + Drop {
    ghost entries: { Self → List ℕ };

    /// The number of the seat that an entry names.
    ghost names: { ℕ → ℕ };

    /// How many entries there are.
    fn turns(&self) -> u64
        ensures { result ≡ length (entries self.now) };
}
