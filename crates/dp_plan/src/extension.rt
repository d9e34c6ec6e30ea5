//! The extensions of a dialplan.
ghost use Rattle.std.specs.Prelude.{IfOk, IsTrue, ◌≡◌, ◌↔◌};
ghost use Rattle.dp_pattern.specs.Name.{Meaning, IsName};
ghost use Rattle.dp_plan.specs.Extensions.{extension_of, same_name};

use crate::context_name::ContextName;
use crate::shared_name::{SharedName, SharedSpelling};
use crate::shared_text::SharedText;
use dp_conf::NoMemory;

/// An extension of a context. Names with the same meaning are one extension, because they have one canonical spelling.
#[derive(PartialEq, Eq, Hash, Drop)]
pub(crate) struct Extension {
    context: ContextName,
    spelling: SharedSpelling,
}

impl Extension {
    /// The extension with the name in the context. It never allocates.
    pub(crate) fn of(context: &ContextName, name: &SharedName) -> Result<Self, NoMemory>
        ensures { IfOk result (λ extension. extension ≡ extension_of context.now name.now) }
    {
        let context = context.clone()?;
        let spelling = SharedSpelling::of(name)?;
        Ok(Extension { context, spelling })
    }
}

/// States that two names have one canonical spelling exactly if they have the same meaning: names with one meaning are
/// one extension, and names with two meanings are two. It does nothing.
pub fn same_names_are_equal()
    ensures { (a b : Meaning) → IsName a → IsName b → IsTrue (same_name a b) ↔ (a ≡ b) }
{}
