//! The number of an application in a table.
ghost use Rattle.std.specs.Prelude.{◌≡◌, ◌+◌, ◌-◌, ◌^◌, min};

/// The place where a table looks first for an application: the number of applications before it. No result depends on it: with the number
/// of another name, or of another table, the names are searched one by one.
#[derive(Clone, Copy, Debug, PartialEq, Eq)]
pub struct AppNumber {
    pub place: u16,
}

impl AppNumber {
    /// The number of the first application.
    pub fn first() -> Self
        ensures { result.place ≡ 0 }
    {
        AppNumber { place: 0 }
    }

    /// The number after this one, or the same number if it is the greatest.
    pub fn after(self) -> Self
        ensures { result.place ≡ min (self.place + 1) (2 ^ 16 - 1) }
    {
        AppNumber {
            place: self.place.saturating_add(1),
        }
    }
}
