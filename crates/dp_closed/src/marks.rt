//! Marks on the entries of a dialplan.
ghost use Rattle.std.specs.Prelude.{◌≡◌, ◌&&◌, ◌||◌, true, false, IfOk, is_some, length, replicate};
ghost use Rattle.dp_closed.specs.Answers.{has_place, is_same, is_marked};
ghost use Rattle.dp_conf.specs.Changes.{changed_at};
ghost use Rattle.dp_plan.specs.Lookup.{entry_at};
ghost use Rattle.dp_plan.specs.declared.entry.EntryId.{EntryId};

use dp_conf::NoMemory;
use dp_plan::{Dialplan, EntryId};
use std::alloc::Global;
use std::marker::Model;

/// A mark for each entry of a dialplan, which is set or not. A contract sees it as the marks of each context, indexed by the numbers of the
/// context and of the entry.
#[derive(Drop)]
pub struct Marks {
    rows: Vec<Vec<bool>>,
}

impl Model for Marks {
    ghost use Rattle.std.specs.Prelude.{Bool, List};
    ghost use Rattle.std.specs.Global.{Vec};

    ghost Value = { List (Vec Bool) };

    ghost view = { λ marks. marks.rows.items };
}

/// A number of marks, none of them set.
fn no_marks(alloc: Global, count: usize) -> Result<Vec<bool>, NoMemory>
    ensures { IfOk result (λ marks. marks.items ≡ replicate count false) }
{
    let mut marks = Vec::new(alloc);
    for _ in 0..count {
        marks.push(false)?;
    }
    Ok(marks)
}

/// Sets the mark with a number, if there is one.
fn set_mark(marks: &mut Vec<bool>, number: usize)
    ensures { marks.new.items ≡ changed_at (λ mark. true) number marks.old.items }
{
    if let Some(mark) = marks.get_mut(number) {
        *mark = true;
    }
}

impl Marks {
    /// Marks for the entries of a dialplan, none of which is marked.
    pub fn none(alloc: Global, plan: &Dialplan) -> Result<Self, NoMemory>
        ensures none { IfOk result (λ marks. (id : EntryId) → is_marked marks id ≡ false) }
        ensures places { IfOk result (λ marks. (id : EntryId) → has_place marks id ≡ is_some (entry_at plan.now id)) }
    {
        let mut rows = Vec::new(alloc);
        for context in plan.contexts() {
            let row = no_marks(alloc, context.entries().len())?;
            rows.push(row)?;
        }
        Ok(Marks { rows })
    }

    /// Marks the entry, if there is a place for it. The other marks stay.
    pub fn mark(&mut self, id: EntryId)
        ensures marks { (other : EntryId) → is_marked self.new other ≡ ((is_same other id && has_place self.old id) || is_marked self.old other) }
        ensures places { (other : EntryId) → has_place self.new other ≡ has_place self.old other }
    {
        let Some(row) = self.rows.get_mut(id.context) else {
            return;
        };
        set_mark(row, id.entry);
    }

    /// Whether the entry is marked.
    pub fn has(&self, id: EntryId) -> bool
        ensures { result ≡ is_marked self.now id }
    {
        let Some(row) = self.rows.get(id.context) else {
            return false;
        };
        row.get(id.entry).copied().unwrap_or(false)
    }
}
