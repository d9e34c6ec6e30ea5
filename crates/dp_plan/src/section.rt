//! The sections of a dialplan.
ghost use Rattle.std.specs.Prelude.{◌≡◌, IfOk};
ghost use Rattle.dp_plan.specs.Items.{section_named};

use crate::context_name::ContextName;
use crate::shared_name::SharedName;
use dp_conf::{NoMemory, same_word};
use std::alloc::Global;

/// The kind of a section, which says how its lines are read.
#[derive(Drop)]
pub(crate) enum Section {
    /// Settings, which are read and ignored.
    General,
    /// Global variables.
    Globals,
    /// The context with this name.
    Context(ContextName),
}

impl Section {
    /// The section of a header, given its name: `general` and `globals` in any case are not contexts.
    pub(crate) fn of_name(alloc: Global, name: &[u8]) -> Result<Self, NoMemory>
        ensures { IfOk result (λ section. section ≡ section_named name.now) }
    {
        if same_word(name, b"general") {
            return Ok(Section::General);
        }
        if same_word(name, b"globals") {
            return Ok(Section::Globals);
        }
        let name = ContextName::copy_of(alloc, name)?;
        Ok(Section::Context(name))
    }
}

/// The extension of the last line with an entry: its name, and its number among all extensions.
#[derive(Drop)]
pub(crate) struct LastExtension {
    pub(crate) name: SharedName,
    pub(crate) number: u32,
}

/// A context whose section is open: its name, its place in the draft, and the last extension since its header.
#[derive(Drop)]
pub(crate) struct OpenContext {
    pub(crate) name: ContextName,
    pub(crate) place: usize,
    pub(crate) last: Option<LastExtension>,
}

/// The section to which the next line belongs.
#[derive(Drop)]
pub(crate) enum OpenSection {
    Settings,
    Variables,
    Entries(OpenContext),
}
