//! The names of applications that a table has.
ghost use Rattle.std.specs.Prelude.{◌≡◌, Bool, List, ℕ};

/// The names of applications that a table has.
pub trait AppNames {
    // Whether the table has the name.
    ghost known: { List ℕ → Bool };

    /// Whether the table has an application of this name.
    fn has_application(name: &[u8]) -> bool
        ensures { result ≡ known name.now };
}
