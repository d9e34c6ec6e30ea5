//! A mark for each entry of a dialplan.
ghost use Rattle.std.specs.Prelude.{◌≡◌, false, replicate, slice_get, true, IfOk};
ghost use Rattle.dp_conf.specs.Changes.{changed_at};
ghost use Rattle.dp_audit.specs.steps.Marks as spec;

use dp_plan::{Context, EntryId, NoMemory};
use std::alloc::Global;
use std::marker::Model;

/// The marks of the entries of a context. A contract sees them as a list.
#[derive(Drop)]
struct ContextMarks {
    list: Vec<bool>,
}

impl Model for ContextMarks {
    ghost use Rattle.std.specs.Prelude.{Bool, List};

    ghost Value = { List Bool };

    ghost view = { λ marks. marks.list.items };
}

impl ContextMarks {
    /// Marks for so many entries, none of them marked.
    fn none(alloc: Global, count: usize) -> Result<Self, NoMemory>
        ensures { IfOk result (λ marks. marks ≡ replicate count false) }
    {
        let list = vec![in alloc; false; count]?;
        Ok(ContextMarks { list })
    }

    /// Marks an entry, if there is one.
    fn set(&mut self, entry: usize)
        ensures { self.new ≡ changed_at (λ mark. true) entry self.old }
    {
        if entry < self.list.len() {
            self.list[entry] = true;
        }
    }

    /// The mark of an entry.
    fn get(&self, entry: usize) -> Option<bool>
        ensures { result ≡ slice_get self.now entry }
    {
        self.list.get(entry).copied()
    }
}

/// A mark for each entry of a dialplan. A contract sees them as the marks of each context.
#[derive(Drop)]
pub(crate) struct EntryMarks {
    contexts: Vec<ContextMarks>,
}

impl Model for EntryMarks {
    ghost use Rattle.dp_audit.specs.steps.Marks.{Marks};

    ghost Value = { Marks };

    ghost view = { λ marks. marks.contexts.items };
}

impl EntryMarks {
    /// The marks with no entry of the contexts marked.
    pub(crate) fn none(alloc: Global, contexts: &[Context]) -> Result<Self, NoMemory>
        ensures { IfOk result (λ marks. marks ≡ spec.no_marks contexts.now) }
    {
        let mut marks = Vec::with_capacity(alloc, contexts.len())?;
        for context in contexts {
            marks.push(ContextMarks::none(alloc, context.entries().len())?)?;
        }
        Ok(EntryMarks { contexts: marks })
    }

    /// Marks the entry with these numbers, if there is one.
    pub(crate) fn set(&mut self, id: EntryId)
        ensures { self.new ≡ spec.with_mark id self.old }
    {
        if id.context < self.contexts.len() {
            let marks = &mut self.contexts[id.context];
            marks.set(id.entry);
        }
    }

    /// The mark of the entry with these numbers.
    fn get(&self, id: EntryId) -> Option<bool>
        ensures { result ≡ spec.mark_at self.now id }
    {
        match self.contexts.get(id.context) {
            Some(marks) => marks.get(id.entry),
            None => None,
        }
    }

    /// Whether the entry with these numbers is marked.
    pub(crate) fn is_set(&self, id: EntryId) -> bool
        ensures { result ≡ spec.is_marked self.now id }
    {
        match self.get(id) {
            Some(mark) => mark,
            None => false,
        }
    }

    /// The entry, if there is one that is not marked.
    pub(crate) fn keep_unmarked(&self, id: Option<EntryId>) -> Option<EntryId>
        ensures { result ≡ spec.if_unmarked self.now id }
    {
        let id = id?;
        match self.get(id) {
            Some(false) => Some(id),
            _ => None,
        }
    }
}
