//! What a listing is given to, piece by piece.
ghost use Rattle.std.specs.Prelude.{ℕ, List, IsTrue};
ghost use Rattle.dp_lister.specs.Sinks.{SinkLaws};

/// What takes a text piece by piece, and keeps it or passes it on. If that fails it drops what it is given from then on: so what gives it
/// a text need not ask after each piece, and asks only before much work.
pub trait ListingSink {
    // Given these bytes it went from the one state to the other.
    ghost takes: { Self → Self → List ℕ → Type 0 };

    // What is given in two pieces is given as a whole.
    ghost laws: { SinkLaws takes };

    /// Whether it has failed, so that it drops what it is given from now on.
    fn has_failed(&self) -> bool
        ensures { IsTrue result → (bytes : List ℕ) → takes self.now self.now bytes };

    /// Takes these bytes after those before.
    fn put(&mut self, bytes: &[u8])
        ensures { takes self.old self.new bytes.now };
}
