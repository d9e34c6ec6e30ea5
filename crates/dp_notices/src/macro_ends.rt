//! The entries that end macros, after the Asterisk documentation's page on `Macro`: a macro ends where a step finds nothing.
ghost use Rattle.std.specs.Prelude.{◌≡◌, ◌++◌, IfOk, OnOk, slice_get};
ghost use Rattle.std.specs.List.{flat_map, list_any};
ghost use Rattle.std.specs.Option.{option_copied};
ghost use Rattle.dp_lookup.specs.FoundEntry.{entries_at};
ghost use Rattle.dp_lookup.specs.SearchOrder.{search_order};
ghost use Rattle.dp_plan.specs.Ranking.{numbers_of};
ghost use Rattle.dp_notices.specs.MacroEnds as spec;

use crate::loading::line_of_number;
use dp_conf::{NoMemory, Text, push_escaped, same_word};
use dp_files::{LineText, MadeLine};
use dp_lookup::{SearchOrder, exists};
use dp_pattern::Parts;
use dp_plan::{Context, Dialplan, Entry, EntryId, LoadedPlan, MOST_PRIORITY};
use itoa::Buffer;
use std::alloc::Global;

/// A line that is added.
#[derive(Drop)]
pub(crate) struct AddedLine {
    /// The number of a line of the loaded text, counted from 1. The added line gets the source of that line.
    line: usize,
    text: Text,
}

/// Whether a context with this name is a macro.
fn is_macro(name: &[u8]) -> bool
    ensures { result ≡ spec.is_macro name.now }
{
    name.starts_with(b"macro-")
}

/// Whether an entry is `MacroExit`, and so leaves its macro itself.
fn is_exit(entry: &Entry) -> bool
    ensures { result ≡ spec.is_exit entry.now }
{
    same_word(entry.application.bytes(), b"MacroExit")
}

/// Whether an entry has the name of another entry and this priority.
fn has_place(named: &Entry, priority: u32, entry: &Entry) -> bool
    ensures { result ≡ spec.has_place named.now.name priority entry.now }
{
    entry.name.spelling() == named.name.spelling() && entry.priority.get() == priority
}

/// Whether one of the entries has the name of another entry and this priority.
fn has_any_place(entries: &[Entry], named: &Entry, priority: u32) -> bool
    ensures { result ≡ list_any (spec.has_place named.now.name priority) entries.now }
{
    entries
        .iter()
        .any(|entry| has_place(named, priority, entry))
}

/// Whether a step to a priority of the entry's extension finds an entry, given the search order and the entries of its context.
fn is_found(
    plan: &Dialplan,
    order: &SearchOrder,
    entries: &[Entry],
    entry: &Entry,
    priority: u32,
) -> bool
    ensures { result ≡ spec.is_found plan.now order.now.contexts entries.now priority entry.now.name }
{
    match entry.name.name().parts() {
        Parts::Plain(text) => exists(plan, order, text, priority),
        Parts::Pattern(_, _) => has_any_place(entries, entry, priority),
    }
}

/// Whether a macro ends after an entry of its context.
fn is_last(plan: &Dialplan, order: &SearchOrder, entries: &[Entry], entry: &Entry) -> bool
    ensures { result ≡ spec.is_last plan.now order.now.contexts entries.now entry.now }
{
    let priority = entry.priority.get();
    priority < MOST_PRIORITY
        && !is_exit(entry)
        && !is_found(plan, order, entries, entry, priority + 1)
}

/// The line that adds `MacroExit` after an entry.
fn end_text(alloc: Global, entry: &Entry) -> Result<Text, NoMemory>
    ensures { IfOk result (λ text. text ≡ spec.end_text entry.now) }
{
    let mut text = Vec::from_slice(alloc, b"exten => ")?;
    let mut buffer = Buffer::new();
    let priority = entry.priority.get() + 1;
    push_escaped(&mut text, entry.name.spelling())?;
    text.push(b',')?;
    text.extend_from_slice(buffer.format(priority).as_bytes())?;
    text.extend_from_slice(b",MacroExit()")?;
    Ok(Text::new(text))
}

/// The header of a context.
fn header_text(alloc: Global, name: &[u8]) -> Result<Text, NoMemory>
    ensures { IfOk result (λ text. text ≡ spec.header_text name.now) }
{
    let mut text = Vec::from_slice(alloc, b"[")?;
    push_escaped(&mut text, name)?;
    text.push(b']')?;
    Ok(Text::new(text))
}

/// The entries of the context with a number. The list is empty if there is no such context.
fn entries_at(plan: &Dialplan, number: usize) -> &[Entry]
    ensures { result.now ≡ entries_at plan.now number }
{
    match plan.contexts().get(number) {
        Some(context) => context.entries(),
        None => &[],
    }
}

/// Adds the line that ends a macro after an entry, if the number of the entry's line is given.
fn push_added(
    alloc: Global,
    ends: &mut Vec<AddedLine>,
    entry: &Entry,
    line: Option<usize>,
) -> Result<(), NoMemory>
    ensures { OnOk result (ends.new.items ≡ ends.old.items ++ spec.added_at (spec.end_text entry.now) line) }
{
    match line {
        Some(line) => {
            let text = end_text(alloc, entry)?;
            ends.push(AddedLine { line, text })?;
            Ok(())
        }
        None => Ok(()),
    }
}

/// Adds the line for the entry with this number, if a macro ends after it.
fn push_end(
    alloc: Global,
    ends: &mut Vec<AddedLine>,
    loaded: &LoadedPlan,
    order: &SearchOrder,
    id: EntryId,
) -> Result<(), NoMemory>
    ensures { OnOk result (ends.new.items
        ≡ ends.old.items ++ spec.end_at loaded.now.plan loaded.now.lines order.now.contexts id) }
{
    match loaded.plan.entry(id) {
        Some(entry) => {
            let entries = entries_at(&loaded.plan, id.context);
            if is_last(&loaded.plan, order, entries, entry) {
                return push_added(alloc, ends, entry, loaded.lines.line(id));
            }
            Ok(())
        }
        None => Ok(()),
    }
}

/// The added lines for the first `count` entries of the context with a number.
fn ends_in(
    alloc: Global,
    loaded: &LoadedPlan,
    order: &SearchOrder,
    number: usize,
    count: usize,
) -> Result<Vec<AddedLine>, NoMemory>
    ensures { IfOk result (λ ends. ends.items
        ≡ flat_map (spec.end_at loaded.now.plan loaded.now.lines order.now.contexts) (numbers_of number count)) }
{
    let mut ends = Vec::new(alloc);
    for entry in 0..count {
        let id = EntryId {
            context: number,
            entry,
        };
        push_end(alloc, &mut ends, loaded, order, id)?;
    }
    Ok(ends)
}

/// Puts the header of a context before its added lines, if there are any.
fn with_header(
    alloc: Global,
    name: &[u8],
    mut ends: Vec<AddedLine>,
) -> Result<Vec<AddedLine>, NoMemory>
    ensures { IfOk result (λ all. all.items ≡ spec.with_header name.now ends.items) }
{
    let line = match ends.first() {
        Some(first) => first.line,
        None => return Ok(ends),
    };
    let text = header_text(alloc, name)?;
    let mut all = Vec::new(alloc);
    all.push(AddedLine { line, text })?;
    all.append(&mut ends)?;
    Ok(all)
}

/// The added lines for the first `count` entries of the macro with a number and a name, after its header.
fn ends_of_macro(
    alloc: Global,
    loaded: &LoadedPlan,
    number: usize,
    name: &Text,
    count: usize,
) -> Result<Vec<AddedLine>, NoMemory>
    ensures { IfOk result (λ ends. ends.items
        ≡ spec.with_header name.now (flat_map (spec.end_at loaded.now.plan loaded.now.lines (search_order loaded.now.plan name.now)) (numbers_of number count))) }
{
    let order = SearchOrder::of(alloc, &loaded.plan, name)?;
    let ends = ends_in(alloc, loaded, &order, number, count)?;
    let all = with_header(alloc, name.bytes(), ends)?;
    Ok(all)
}

/// The added lines for the context with a number, if it is a macro.
fn ends_of_context(
    alloc: Global,
    loaded: &LoadedPlan,
    number: usize,
    context: &Context,
) -> Result<Vec<AddedLine>, NoMemory>
    ensures { IfOk result (λ ends. ends.items
        ≡ spec.ends_of_context loaded.now.plan loaded.now.lines number context.now) }
{
    if is_macro(context.name().bytes()) {
        let count = context.entries().len();
        return ends_of_macro(alloc, loaded, number, context.name(), count);
    }
    Ok(Vec::new(alloc))
}

/// The context with a number, if there is one.
fn context_at(plan: &Dialplan, number: usize) -> Option<&Context>
    ensures { option_copied result ≡ slice_get plan.now.contexts number }
{
    plan.contexts().get(number)
}

/// Adds the lines for the context with a number.
fn push_ends_at(
    alloc: Global,
    ends: &mut Vec<AddedLine>,
    loaded: &LoadedPlan,
    number: usize,
) -> Result<(), NoMemory>
    ensures { OnOk result (ends.new.items ≡ ends.old.items ++ spec.ends_at loaded.now.plan loaded.now.lines number) }
{
    match context_at(&loaded.plan, number) {
        Some(context) => {
            let mut more = ends_of_context(alloc, loaded, number, context)?;
            ends.append(&mut more)?;
            Ok(())
        }
        None => Ok(()),
    }
}

/// The added lines for all contexts of a dialplan. They cost one look-up for each entry of a macro.
#[tactic(auto, unfolding(crate::specs::MacroEnds::ends_of))]
pub(crate) fn macro_ends(alloc: Global, loaded: &LoadedPlan) -> Result<Vec<AddedLine>, NoMemory>
    ensures { IfOk result (λ ends. ends.items ≡ spec.ends_of loaded.now.plan loaded.now.lines) }
{
    let mut ends = Vec::new(alloc);
    for number in 0..loaded.plan.contexts().len() {
        push_ends_at(alloc, &mut ends, loaded, number)?;
    }
    Ok(ends)
}

/// Adds a line, with the same source as the line of the text that has its number.
fn push_made(made: &mut Vec<MadeLine>, lines: &[MadeLine], added: AddedLine) -> Result<(), NoMemory>
    ensures { OnOk result (made.new.items ≡ made.old.items ++ spec.made_end lines.now added) }
{
    let AddedLine { line, text } = added;
    match line_of_number(lines, line) {
        Some(line) => {
            made.push(MadeLine {
                source: line.source,
                text: LineText::new(text),
            })?;
            Ok(())
        }
        None => Ok(()),
    }
}

/// The lines that are added to the lines of a text.
pub(crate) fn made_ends(
    alloc: Global,
    lines: &[MadeLine],
    added: Vec<AddedLine>,
) -> Result<Vec<MadeLine>, NoMemory>
    ensures { IfOk result (λ made. made.items ≡ spec.made_ends lines.now added.items) }
{
    let mut made = Vec::new(alloc);
    for line in added {
        push_made(&mut made, lines, line)?;
    }
    Ok(made)
}
