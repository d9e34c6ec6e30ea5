//! Where a call goes from an entry in any case.
ghost use Rattle.std.specs.Prelude.{◌≡◌, ◌+◌, IfOk, Some};
ghost use Rattle.std.specs.Option.{option_and_then, option_map};
ghost use Rattle.dp_audit.specs.Loops as spec;
ghost use Rattle.dp_audit.specs.Targets as targets;

use crate::finder::PlanFinder;
use crate::jump::{Jump, JumpParts, parts_of, parts_stand};
use crate::onward_names::OnwardNames;
use dp_conf::{read_number, same_word, trim};
use dp_pattern::Parts;
use dp_plan::{Dialplan, Entry, EntryId, MOST_PRIORITY, NoMemory, Text};

/// Whether the entry with these numbers belongs to the context with the name.
fn is_of(plan: &Dialplan, context: &Text, id: EntryId) -> bool
    ensures { result ≡ spec.is_of plan.now context.now id }
{
    match plan.number_of(context) {
        Some(number) => number == id.context,
        None => false,
    }
}

/// Whether the entry with these numbers has a plain name.
fn is_plain(plan: &Dialplan, id: EntryId) -> bool
    ensures { result ≡ spec.has_plain_name plan.now id }
{
    match plan.entry(id) {
        Some(entry) => match entry.name.name().parts() {
            Parts::Plain(_) => true,
            Parts::Pattern(_, _) => false,
        },
        None => false,
    }
}

/// The entry, if it belongs to the context and has a plain name.
fn keep_home(plan: &Dialplan, context: &Text, id: Option<EntryId>) -> Option<EntryId>
    ensures { result ≡ option_and_then (spec.if_home plan.now context.now) id }
{
    let id = id?;
    if is_of(plan, context, id) && is_plain(plan, id) {
        return Some(id);
    }
    None
}

/// The entry that a call meets at the extension of the context at the priority, if that is the entry's own place.
fn meet_home(
    finder: &mut PlanFinder<'_>,
    context: &Text,
    exten: &[u8],
    priority: u32,
) -> Option<EntryId>
    ensures found { result ≡ spec.home_entry finder.old context.now exten.now priority }
    ensures same { finder.new ≡ finder.old }
{
    let id = finder.find(context, exten, priority);
    keep_home(finder.plan(), context, id)
}

/// The number, if it is a priority.
fn priority_in(number: u64) -> Option<u32>
    ensures { result ≡ spec.if_priority number }
{
    match u32::try_from(number) {
        Ok(number) if number >= 1 && number <= MOST_PRIORITY => Some(number),
        _ => None,
    }
}

/// The priority that a text names in an extension of the context: the number that it writes, else the priority of the label.
pub fn priority_of(
    finder: &mut PlanFinder<'_>,
    context: &Text,
    exten: &[u8],
    text: &[u8],
) -> Option<u32>
    ensures priority { result ≡ spec.priority_of finder.old context.now exten.now text.now }
    ensures same { finder.new ≡ finder.old }
{
    if text.is_empty() {
        return None;
    }
    match read_number(text) {
        Some(number) => priority_in(number),
        None => finder.find_label(context, exten, text),
    }
}

/// The entry at the priority that a text names.
fn meet_written(
    finder: &mut PlanFinder<'_>,
    context: &Text,
    exten: &[u8],
    text: &[u8],
) -> Option<EntryId>
    ensures found { result ≡ spec.entry_at_text finder.old context.now exten.now text.now }
    ensures same { finder.new ≡ finder.old }
{
    let priority = priority_of(finder, context, exten, text)?;
    meet_home(finder, context, exten, priority)
}

/// The part, or its replacement if it is missing.
fn part_or<'a>(own: &'a [u8], part: &'a [u8]) -> &'a [u8]
    ensures { result.now ≡ targets.part_or own.now part.now }
{
    if part.is_empty() { own } else { part }
}

/// The entry to which the parts of a target lead from an extension of a context.
fn meet_by_parts(
    finder: &mut PlanFinder<'_>,
    own: &Text,
    exten: &[u8],
    parts: JumpParts<'_>,
) -> Result<Option<EntryId>, NoMemory>
    ensures found { IfOk result (λ next. next ≡ spec.entry_by_parts finder.old own.now exten.now (targets.parts_of_jump parts.entry)) }
    ensures same { finder.new ≡ finder.old }
{
    let exten = part_or(exten, parts.exten);
    if parts.context.is_empty() {
        return Ok(meet_written(finder, own, exten, parts.priority));
    }
    let context = Text::copy_of(finder.alloc(), parts.context)?;
    Ok(meet_written(finder, &context, exten, parts.priority))
}

/// The entry to which a literal target leads.
fn meet_by_target(
    finder: &mut PlanFinder<'_>,
    own: &Text,
    exten: &[u8],
    target: &[u8],
) -> Result<Option<EntryId>, NoMemory>
    ensures found { IfOk result (λ next. next ≡ spec.entry_by_target finder.old own.now exten.now target.now) }
    ensures same { finder.new ≡ finder.old }
{
    let goto = Jump {
        is_choice: false,
        is_subroutine: false,
    };
    let parts = parts_of(goto, target);
    if !parts_stand(target, parts) {
        return Ok(None);
    }
    match parts {
        Some(parts) => meet_by_parts(finder, own, exten, parts),
        None => Ok(None),
    }
}

/// The entry to which a call goes from an entry with a plain name: by `Goto`, or after an application that always goes on.
fn meet_after<N: OnwardNames>(
    finder: &mut PlanFinder<'_>,
    own: &Text,
    exten: &[u8],
    entry: &Entry,
) -> Result<Option<EntryId>, NoMemory>
    ensures found { IfOk result (λ next. next ≡ spec.entry_after N.onward finder.old own.now exten.now entry.now) }
    ensures same { finder.new ≡ finder.old }
{
    let application = entry.application.bytes();
    if same_word(application, b"Goto") {
        let target = trim(entry.arguments.text().bytes());
        return meet_by_target(finder, own, exten, target);
    }
    if N::goes_on(application) {
        let next = entry.priority.get() + 1;
        return Ok(meet_home(finder, own, exten, next));
    }
    Ok(None)
}

/// The entry to which a call goes from an entry of the context with the name.
fn successor_of<N: OnwardNames>(
    finder: &mut PlanFinder<'_>,
    own: &Text,
    entry: &Entry,
) -> Result<Option<EntryId>, NoMemory>
    ensures found { IfOk result (λ next. next ≡ spec.successor_by N.onward finder.old own.now entry.now entry.now.name) }
    ensures same { finder.new ≡ finder.old }
{
    match entry.name.name().parts() {
        Parts::Plain(text) => meet_after::<N>(finder, own, text, entry),
        Parts::Pattern(_, _) => Ok(None),
    }
}

/// The entry to which a call goes from the entry with these numbers in any case. From an entry with a pattern it is unknown.
pub(crate) fn successor<N: OnwardNames>(
    finder: &mut PlanFinder<'_>,
    id: EntryId,
) -> Result<Option<EntryId>, NoMemory>
    ensures found { IfOk result (λ next. next ≡ spec.successor N.onward finder.old id) }
    ensures same { finder.new ≡ finder.old }
{
    let plan = finder.plan();
    let Some(context) = plan.contexts().get(id.context) else {
        return Ok(None);
    };
    match context.entries().get(id.entry) {
        Some(entry) => successor_of::<N>(finder, context.name(), entry),
        None => Ok(None),
    }
}
