//! The names that have priority 1 in some contexts.
ghost use Rattle.std.specs.Prelude.{◌≡◌, [], IfOk, OnOk, nat_eq};
ghost use Rattle.std.specs.Cmp.Lexicographic.{pointwise};
ghost use Rattle.std.specs.List.{list_any};
ghost use Rattle.dp_audit.specs.Findings.{is_first, some_first};
ghost use Rattle.dp_audit.specs.steps.Firsts.{Adds};
ghost use Rattle.dp_pattern.specs.Spelling.{spelling};

use crate::neighbours::entries_at;
use crate::spelling::Spelling;
use dp_plan::{Dialplan, Entry, NoMemory, SharedName};
use indexmap::IndexSet;
use std::alloc::Global;

/// Adds the name.
fn insert_name(names: &mut IndexSet<Spelling>, name: &SharedName) -> Result<(), NoMemory>
    ensures { OnOk result (Adds (λ text. pointwise nat_eq text (spelling name.now)) names.old.keys names.new.keys) }
{
    let held = Spelling::of(name)?;
    names.insert(held)?;
    Ok(())
}

/// Adds the name of the entry, if it has priority 1.
fn insert_first(names: &mut IndexSet<Spelling>, entry: &Entry) -> Result<(), NoMemory>
    ensures { OnOk result (Adds (λ text. is_first text entry.now) names.old.keys names.new.keys) }
{
    if entry.priority.get() == 1 {
        insert_name(names, &entry.name)?;
    }
    Ok(())
}

/// Adds the names of the entries that have priority 1.
fn insert_firsts(names: &mut IndexSet<Spelling>, entries: &[Entry]) -> Result<(), NoMemory>
    ensures { OnOk result (Adds (λ text. list_any (is_first text) entries.now) names.old.keys names.new.keys) }
{
    for entry in entries {
        insert_first(names, entry)?;
    }
    Ok(())
}

/// The names that have priority 1 in a context of the order.
pub(crate) fn firsts_of(
    alloc: Global,
    plan: &Dialplan,
    order: &[usize],
) -> Result<IndexSet<Spelling>, NoMemory>
    ensures { IfOk result (λ names. Adds (some_first plan.now order.now) [] names.keys) }
{
    let mut names = IndexSet::new(alloc);
    for number in order {
        insert_firsts(&mut names, entries_at(plan, *number))?;
    }
    Ok(names)
}
