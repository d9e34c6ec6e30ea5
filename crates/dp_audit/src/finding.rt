//! The findings of an audit.
use dp_plan::{EntryId, Text};

/// A finding about a context, or about an entry. Which findings there are is this program's own choice.
#[derive(Debug, Drop)]
pub enum Finding {
    /// The context with this number includes itself, directly or through others.
    Cycle { context: usize },
    /// The entry names an application that the table lacks.
    NoApplication { entry: EntryId },
    /// The entry has a literal target that leads nowhere.
    NoTarget { entry: EntryId, target: Text },
    /// The priority after that of the entry is not found, although its extension has greater ones.
    Gap { entry: EntryId },
    /// The extension has no priority 1, and no context in its search order gives it one; the entry has its lowest priority.
    NoFirst { entry: EntryId },
    /// The entry never answers from the context with this number, which includes its own: an entry with a name of the same meaning and the
    /// same priority comes before it in the search order.
    Hidden { entry: EntryId, from: usize },
    /// The arguments of the entry read a variable that nothing sets.
    Unset { entry: EntryId, name: Text },
    /// The entry has a label that nothing may name: no target, and no piece of the arguments of an application that the table lacks.
    Unused { entry: EntryId },
}
