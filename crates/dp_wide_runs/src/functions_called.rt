//! The functions that arguments call and that Asterisk lacks.
ghost use Rattle.std.specs.Prelude.{◌≡◌, ◌++◌, OnOk, filter, map, position};
ghost use Rattle.std.specs.Option.{option_map, option_to_list};
ghost use Rattle.dp_audit.specs.Unset.{stops_name};
ghost use Rattle.dp_lookup.specs.FoundEntry.{entries_at};
ghost use Rattle.dp_wide_runs.specs.FunctionsCalled as spec;
ghost use Rattle.dp_wide_runs.specs.WideFindings as findings;

use crate::wide_finding::WideFinding;
use dp_plan::{Dialplan, Entry, EntryId, NoMemory, Text};
use dp_wide::{is_asterisk_function, is_computed};
use std::alloc::Global;

/// Whether the byte cannot be part of a variable's or a function's name.
fn stops_name(byte: u8) -> bool
    ensures { result ≡ stops_name byte }
{
    byte == b':' || byte == b'}' || byte == b'$' || byte == b'('
}

/// The place of the first byte that cannot be part of a name.
fn name_end(body: &[u8]) -> Option<usize>
    ensures { result ≡ position stops_name body.now }
{
    body.iter().position(|byte| stops_name(*byte))
}

/// The name of the function at the start of a group in braces: the bytes before its first `(`, unless a `:`, a `}` or a `$` comes first.
fn function_at(body: &[u8]) -> Option<&[u8]>
    ensures { option_map (λ name. name.now) result ≡ spec.function_at body.now }
{
    let end = name_end(body)?;
    if body[end] == b'(' {
        return Some(&body[..end]);
    }
    None
}

/// The name of the function in a group in braces, given the byte that opens the group and the bytes after it.
fn function_after(byte: u8, after: &[u8]) -> Option<&[u8]>
    ensures { option_map (λ name. name.now) result ≡ spec.function_after byte after.now }
{
    let (next, body) = after.split_first()?;
    if byte == b'$' && *next == b'{' {
        return function_at(body);
    }
    None
}

/// Whether the name is that of no function: the wide table does not compute it, and Asterisk lacks it.
#[tactic(auto, unfolding(crate::specs::FunctionsCalled::is_no_function))]
fn is_no_function(name: &[u8]) -> bool
    ensures { result ≡ spec.is_no_function name.now }
{
    !(is_computed(name) || is_asterisk_function(name))
}

/// Adds the name if there is one and it is that of no function.
fn push_name(
    list: &mut Vec<WideFinding>,
    alloc: Global,
    entry: EntryId,
    name: Option<&[u8]>,
) -> Result<(), NoMemory>
    ensures { OnOk result (list.new.items ≡ list.old.items ++ map (WideFinding.NoFunction entry)
        (filter spec.is_no_function (option_to_list (option_map (λ name. name.now) name.entry)))) }
{
    let Some(name) = name else {
        return Ok(());
    };
    if is_no_function(name) {
        let name = Text::copy_of(alloc, name)?;
        list.push(WideFinding::NoFunction { entry, name })?;
    }
    Ok(())
}

/// Adds the names of the functions that a text calls and that Asterisk lacks.
fn push_names(
    list: &mut Vec<WideFinding>,
    alloc: Global,
    entry: EntryId,
    text: &[u8],
) -> Result<(), NoMemory>
    ensures { OnOk result (list.new.items ≡ list.old.items ++ map (WideFinding.NoFunction entry) (spec.no_functions_in text.now)) }
{
    let mut left = text;
    while let Some((byte, after)) = left.split_first() {
        push_name(list, alloc, entry, function_after(*byte, after))?;
        left = after;
    }
    Ok(())
}

/// Adds the names of such functions in the entry with these numbers.
fn push_of_id(
    list: &mut Vec<WideFinding>,
    alloc: Global,
    plan: &Dialplan,
    id: EntryId,
) -> Result<(), NoMemory>
    ensures { OnOk result (list.new.items ≡ list.old.items ++ findings.of_id plan.now id) }
{
    match plan.entry(id) {
        Some(entry) => push_names(list, alloc, id, entry.arguments.text().bytes()),
        None => Ok(()),
    }
}

/// The entries of the context with the number.
fn entries_at(plan: &Dialplan, number: usize) -> &[Entry]
    ensures { result.now ≡ entries_at plan.now number }
{
    match plan.contexts().get(number) {
        Some(context) => context.entries(),
        None => &[],
    }
}

/// Adds the names of such functions in the entries of the context with the number.
#[tactic(auto, using(dp_audit::proofs::FindingsLemmas::entries_more))]
fn push_of_context(
    list: &mut Vec<WideFinding>,
    alloc: Global,
    plan: &Dialplan,
    number: usize,
) -> Result<(), NoMemory>
    ensures { OnOk result (list.new.items ≡ list.old.items ++ findings.of_context plan.now number) }
{
    for entry in 0..entries_at(plan, number).len() {
        let id = EntryId {
            context: number,
            entry,
        };
        push_of_id(list, alloc, plan, id)?;
    }
    Ok(())
}

/// Adds the functions that the arguments of entries call and that Asterisk lacks, in the order of the file and of the arguments.
#[tactic(auto, unfolding(crate::specs::WideFindings::no_functions))]
pub(crate) fn push_no_functions(
    list: &mut Vec<WideFinding>,
    alloc: Global,
    plan: &Dialplan,
) -> Result<(), NoMemory>
    ensures { OnOk result (list.new.items ≡ list.old.items ++ findings.no_functions plan.now) }
{
    for number in 0..plan.contexts().len() {
        push_of_context(list, alloc, plan, number)?;
    }
    Ok(())
}
