//! The priority of an entry.
ghost use Rattle.std.specs.Prelude.{◌≡◌, ◌≤◌, IfSome, SomeIff};

use std::marker::Model;

/// The greatest priority of an entry.
pub const MOST_PRIORITY: u32 = 2_147_483_647;

/// The priority of an entry, from 1 to 2,147,483,647. A contract sees it as its number.
#[derive(Clone, Copy, Debug, PartialEq, Eq)]
pub struct Priority {
    number: u32,
}

impl Model for Priority {
    ghost use Rattle.std.specs.Prelude.{ℕ};
    ghost use Rattle.dp_plan.specs.Priority.{IsPriority};

    ghost Value = { ℕ };

    ghost view = { λ p. p.number };

    ghost invariant = { λ p. IsPriority p.number };

    ghost inverse = { λ n. record { number = n } };
}

impl Priority {
    ghost use Rattle.std.specs.Option.{SomeIff};
    ghost use Rattle.dp_plan.specs.Priority.{IsPriority};

    /// The priority with this number, or None if the number is not a priority.
    pub fn new(number: u32) -> Option<Self>
        ensures { SomeIff result (IsPriority number) number }
    {
        if number == 0 || number > MOST_PRIORITY {
            return None;
        }
        Some(Priority { number })
    }

    /// The number of the priority, from 1 to 2,147,483,647.
    pub fn get(self) -> u32
        ensures number { result ≡ self }
        ensures range { IsPriority self }
    {
        self.number
    }
}
