//! Entries after which a phone call goes on in another extension: for example `100` has two priorities, and `_X.` after it has a third.
ghost use Rattle.std.specs.Prelude.{◌≡◌, ◌+◌, ◌<◌, ◌↔◌, ◌++◌, Contains, IfOk, OnOk, Some};
ghost use Rattle.std.specs.Option.{option_map, option_to_list};
ghost use Rattle.dp_audit.specs.FallThroughs as spec;
ghost use Rattle.dp_audit.specs.Orders.{order_at};
ghost use Rattle.dp_lookup.specs.SearchOrder.{context_count, search_order};
ghost use Rattle.dp_plan.specs.Lookup.{entry_at};
ghost use Rattle.dp_plan.specs.declared.entry.EntryId.{EntryId};

use crate::finder::PlanFinder;
use crate::neighbours::entries_at;
use crate::order::name_at;
use dp_pattern::{Name, Parts};
use dp_plan::{Dialplan, Entry, EntryId, NoMemory, SharedName, Text};
use std::alloc::Global;

/// An entry after which a phone call goes on in another extension, as with `_X.` after the last priority of `100`.
#[derive(Clone, Copy, Debug, PartialEq, Eq)]
pub struct FallThrough {
    /// The entry, whose name is plain.
    pub entry: EntryId,
    /// The entry that a call which dialled that name meets after it. It has another name.
    pub next: EntryId,
}

/// Whether the entry with these numbers has a name with this meaning.
fn has_name(plan: &Dialplan, name: &SharedName, id: EntryId) -> bool
    ensures { result ≡ spec.has_name plan.now name.now id }
{
    match plan.entry(id) {
        Some(entry) => entry.name.spelling() == name.spelling(),
        None => false,
    }
}

/// The entry that a call which dialled the plain name in the context meets at the priority. A pattern is never dialled.
fn meet(finder: &mut PlanFinder<'_>, context: &Text, name: &Name, priority: u32) -> Option<EntryId>
    ensures found { result ≡ spec.entry_met finder.old (search_order finder.old context.now) name.now priority }
    ensures same { finder.new ≡ finder.old }
{
    match name.parts() {
        Parts::Plain(text) => finder.find(context, text, priority),
        Parts::Pattern(_, _) => None,
    }
}

/// The entry, if it has another name.
fn keep_other(plan: &Dialplan, name: &SharedName, next: Option<EntryId>) -> Option<EntryId>
    ensures { result ≡ spec.if_other plan.now name.now next }
{
    let next = next?;
    if has_name(plan, name, next) {
        return None;
    }
    Some(next)
}

/// The entry of another name that a call meets after this entry of the context.
fn next_of(finder: &mut PlanFinder<'_>, context: &Text, entry: &Entry) -> Option<EntryId>
    ensures next { result ≡ spec.if_other finder.old entry.now.name
        (spec.entry_met finder.old (search_order finder.old context.now) entry.now.name (entry.now.priority + 1)) }
    ensures same { finder.new ≡ finder.old }
{
    let next = meet(finder, context, entry.name.name(), entry.priority.get() + 1);
    keep_other(finder.plan(), &entry.name, next)
}

/// Adds the entry with the one that follows it, if there is one.
fn push_next(
    list: &mut Vec<FallThrough>,
    id: EntryId,
    next: Option<EntryId>,
) -> Result<(), NoMemory>
    ensures { OnOk result (list.new.items ≡ list.old.items ++ option_to_list (option_map (spec.fall_through id) next)) }
{
    if let Some(next) = next {
        list.push(FallThrough { entry: id, next })?;
    }
    Ok(())
}

/// Adds the entry with these numbers, if a call goes on after it in another extension.
fn push_of_id(
    list: &mut Vec<FallThrough>,
    finder: &mut PlanFinder<'_>,
    context: &Text,
    id: EntryId,
) -> Result<(), NoMemory>
    requires { search_order finder.old context.now ≡ order_at finder.old id.context }
    ensures found { OnOk result (list.new.items ≡ list.old.items ++ spec.of_id finder.old id) }
    ensures same { finder.new ≡ finder.old }
{
    let Some(entry) = finder.plan().entry(id) else {
        return Ok(());
    };
    let next = next_of(finder, context, entry);
    push_next(list, id, next)
}

/// Adds the entries of the context with the number after which a call goes on in another extension.
#[tactic(auto, using(crate::proofs::FindingsLemmas::entries_more))]
fn push_of_context(
    list: &mut Vec<FallThrough>,
    finder: &mut PlanFinder<'_>,
    number: usize,
) -> Result<(), NoMemory>
    requires { number < context_count finder.old }
    ensures found { OnOk result (list.new.items ≡ list.old.items ++ spec.of_context finder.old number) }
    ensures same { finder.new ≡ finder.old }
{
    let context = name_at(finder.plan(), number);
    for entry in 0..entries_at(finder.plan(), number).len() {
        let id = EntryId {
            context: number,
            entry,
        };
        push_of_id(list, finder, context, id)?;
    }
    Ok(())
}

/// The entries with plain names after which a phone call goes on in another extension, in the order of the file.
///
/// The call dialled the entry's name in the entry's context, and looks for the next priority there. Entries of patterns are not reported,
/// because their texts may go on in different extensions. The cost is linear in the dialplan, apart from search orders and look-ups in
/// tries. It fails only if memory runs out.
#[tactic(auto, unfolding(crate::specs::FallThroughs::fall_throughs_of))]
pub fn find_fall_throughs(alloc: Global, plan: &Dialplan) -> Result<Vec<FallThrough>, NoMemory>
    ensures exact { IfOk result (λ list. list.items ≡ spec.fall_throughs_of plan.now) }
    ensures each { IfOk result (λ list. (id next : EntryId)
        → Contains list.items (spec.fall_through id next) ↔ spec.FallsThrough plan.now id next) }
{
    let mut finder = PlanFinder::new(alloc, plan)?;
    let mut list = Vec::new(alloc);
    for number in 0..plan.contexts().len() {
        push_of_context(&mut list, &mut finder, number)?;
    }
    plan.show_entries_known();
    Ok(list)
}
