//! What a table of applications does not know, so that a run can stop there.
ghost use Rattle.std.specs.Prelude.{◌≡◌, IfOk};
ghost use Rattle.dp_app.specs.Knowledge.{Knowledge, Overlooks};
ghost use Rattle.dp_vars.specs.Sights.{sight_of};

use crate::application::AppTable;
use dp_conf::NoMemory;
use dp_vars::{Counts, Scope};
use std::alloc::Global;

/// A table that reports what it does not know of what its applications would do.
pub trait KnownTable: AppTable {
    // What the table knows.
    ghost knowledge: { Knowledge };

    /// Whether the application with this name depends on its arguments. One that does not has the same effect with any arguments.
    fn looks_at_arguments(name: &[u8]) -> bool
        ensures { result ≡ knowledge.looks name.now };

    /// What the application with this name would need, with these expanded arguments and for what a channel sees, that is not known: the
    /// name of an application that it would run, or of a value that nothing has set. It is empty if everything is known.
    ///
    /// It fails only if memory runs out.
    fn unknown_need<B, C: Counts>(
        alloc: Global,
        scope: &Scope<'_, B, C>,
        name: &[u8],
        arguments: &[u8],
    ) -> Result<Vec<u8>, NoMemory>
        ensures { IfOk result (λ text. text.items ≡ knowledge.asks (sight_of C.count scope.now) name.now arguments.now) };

    ghost overlooks: { Overlooks knowledge.looks Self.AppTable.rows };
}
