//! The names of applications after which a call always goes on at once.
ghost use Rattle.std.specs.Prelude.{◌≡◌, Bool, List, ℕ};

/// The names of applications after which a call always goes on to the next priority: none of them waits, jumps or hangs up, with any
/// arguments.
pub trait OnwardNames {
    // Whether a call goes on after the application of the name.
    ghost onward: { List ℕ → Bool };

    /// Whether a call always goes on at once after the application with this name.
    fn goes_on(name: &[u8]) -> bool
        ensures { result ≡ onward name.now };
}
