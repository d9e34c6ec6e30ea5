//! An arrow from an extension.
ghost use Rattle.std.specs.Prelude.{◌≡◌, OnOk};
ghost use Rattle.dp_graph.specs.Arrows.{with_arrow};

use dp_plan::{NoMemory, Text};
use indexmap::IndexSet;

/// What an arrow shows.
#[derive(Clone, Copy, Debug, PartialEq, Eq, Hash)]
pub(crate) enum ArrowKind {
    /// A jump.
    Jump,
    /// A call of a subroutine.
    Subroutine,
    /// A way out of a queue.
    WayOut,
}

/// Where an arrow leads.
#[derive(PartialEq, Eq, Hash, Drop)]
pub(crate) enum Destination {
    /// The extension with this spelling of the context with this number.
    Extension { context: usize, spelling: Text },
    /// The context with this number.
    Context(usize),
    /// A place that is known only during a call, by a target of the entry with this priority.
    Computed(u32),
    /// No place, although the text names one.
    Missing(Text),
}

/// An arrow from an extension.
#[derive(PartialEq, Eq, Hash, Drop)]
pub(crate) struct Arrow {
    pub(crate) kind: ArrowKind,
    pub(crate) destination: Destination,
}

/// Adds an arrow, unless it is there.
pub(crate) fn insert(arrows: &mut IndexSet<Arrow>, arrow: Arrow) -> Result<(), NoMemory>
    ensures { OnOk result (arrows.new.keys ≡ with_arrow arrows.old.keys arrow) }
{
    arrows.insert(arrow)?;
    Ok(())
}
