//! The history of a shared world that was settled.
ghost use Rattle.std.specs.Prelude.{◌≡◌};

use crate::entry::Entry;
use dp_machine::Machine;
use std::marker::Model;

/// All calls of a board in the order in which they were made, and the machine after the last of them. A contract sees it as the entries and
/// the machine's world.
pub struct History<T> {
    machine: Machine<T>,
    entries: Vec<Entry>,
}

impl<T> Drop for History<T> {
    fn drop(self) {
        let History {
            machine: _,
            entries: _,
        } = self;
    }
}

impl<T> Model for History<T> {
    ghost use Rattle.std.specs.Coded.{codes};
    ghost use Rattle.dp_vars.specs.Variables.{named_code};
    ghost use Rattle.dp_board.specs.Log.{Log};

    ghost Value = { Log };

    ghost coded = { Prim.hlevel (codes, named_code) };

    ghost view = { λ history. record { world = history.machine; entries = history.entries.items } };
}

impl<T> History<T> {
    pub(crate) fn new(machine: Machine<T>, entries: Vec<Entry>) -> Self
        ensures { result ≡ record { world = machine; entries = entries.items } }
    {
        History { machine, entries }
    }

    /// The calls, in the order in which they were made. A reply that names an entry must be read in the dialplan that was in force at its
    /// call: that of the last successful `Reload` before it, or that of the board's first world if there is none.
    pub fn entries(&self) -> &[Entry]
        ensures { result.now ≡ self.now.entries }
    {
        &self.entries
    }

    /// The machine after the last call.
    pub fn machine(&self) -> &Machine<T>
        ensures { result.now ≡ self.now.world }
    {
        &self.machine
    }
}
