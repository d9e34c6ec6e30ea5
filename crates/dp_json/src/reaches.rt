//! Answers to questions about phone calls that come in at a context.
ghost use Rattle.std.specs.Prelude.{◌≡◌, ◌++◌, [], IfOk, OnOk, map, unwrap_or};
ghost use Rattle.std.specs.Option.{option_map};
ghost use Rattle.dp_answer.specs.Asks.{ask_of};
ghost use Rattle.dp_json.specs.Objects.{fields_text, lines_text, more_text, object_text};
ghost use Rattle.dp_json.specs.Reaches as spec;

use crate::entry::{context_name, push_entry};
use crate::joining::joined_names;
use crate::object::{begin_object, end_object, push_number, push_text};
use dp_answer::{Ask, ReachAnswer, ReachFinding, ReachedContext};
use dp_plan::{Context, Dialplan, EntryId, NoMemory};
use std::alloc::Global;

/// Adds the fields of the bytes of extensions and of callers' numbers.
#[tactic(auto, unfolding(crate::specs::Reaches::bytes_fields))]
fn push_bytes_assumed(out: &mut Vec<u8>, ask: &Ask<'_>) -> Result<(), NoMemory>
    ensures { OnOk result (out.new.items ≡ out.old.items ++ fields_text (spec.bytes_fields (ask_of ask.now))) }
{
    push_text(out, b"extensions", ask.extension_bytes())?;
    push_text(out, b"callers", ask.caller_bytes())
}

/// Adds the field of the bytes of what names are set to from outside, if these are given.
fn push_facts(out: &mut Vec<u8>, facts: Option<&[u8]>) -> Result<(), NoMemory>
    ensures { OnOk result (out.new.items ≡ out.old.items ++ fields_text (spec.facts_fields (option_map (λ text. text.now) facts.entry))) }
{
    match facts {
        Some(facts) => push_text(out, b"facts", facts),
        None => Ok(()),
    }
}

/// Where calls come in, given whether contexts are given.
fn starts_text(alloc: Global, given: Option<&[u8]>, starts: &[Vec<u8>]) -> Result<Vec<u8>, NoMemory>
    ensures { IfOk result (λ text. text.items
        ≡ spec.starts_text (option_map (λ text. text.now) given.entry) (map (λ name. name.items) starts.now)) }
{
    match given {
        Some(_) => {
            let text = joined_names(alloc, b' ', starts)?;
            Ok(text)
        }
        None => {
            let text = Vec::from_slice(alloc, b"every context")?;
            Ok(text)
        }
    }
}

/// Adds the field of where calls come in.
#[tactic(auto, unfolding(crate::specs::Reaches::starts_field))]
fn push_starts(
    alloc: Global,
    out: &mut Vec<u8>,
    ask: &Ask<'_>,
    starts: &[Vec<u8>],
) -> Result<(), NoMemory>
    ensures { OnOk result (out.new.items
        ≡ out.old.items ++ more_text (spec.starts_field (ask_of ask.now) (map (λ name. name.items) starts.now))) }
{
    let text = starts_text(alloc, ask.starts, starts)?;
    push_text(out, b"starts", &text)?;
    Ok(())
}

/// Adds the line of what is assumed.
#[tactic(auto, unfolding(crate::specs::Objects::object_text))]
fn push_assumed(
    alloc: Global,
    out: &mut Vec<u8>,
    ask: &Ask<'_>,
    starts: &[Vec<u8>],
) -> Result<(), NoMemory>
    ensures { OnOk result (out.new.items
        ≡ out.old.items ++ object_text (spec.assumed_object (ask_of ask.now) (map (λ name. name.items) starts.now))) }
{
    begin_object(out, b"assumed")?;
    push_bytes_assumed(out, ask)?;
    push_facts(out, ask.facts)?;
    push_starts(alloc, out, ask, starts)?;
    end_object(out)
}

/// Adds the line that says that no proof was found.
#[tactic(auto, unfolding(crate::specs::Objects::object_text))]
fn push_no_proof(out: &mut Vec<u8>) -> Result<(), NoMemory>
    ensures { OnOk result (out.new.items ≡ out.old.items ++ object_text spec.no_proof_object) }
{
    begin_object(out, b"note")?;
    push_text(out, b"kind", b"NoProof")?;
    end_object(out)
}

/// Adds the same, if none was found.
fn push_proof(out: &mut Vec<u8>, is_proved: bool) -> Result<(), NoMemory>
    ensures { OnOk result (out.new.items ≡ out.old.items ++ lines_text (spec.proof_objects is_proved)) }
{
    if is_proved {
        return Ok(());
    }
    push_no_proof(out)
}

/// Adds the line of an entry that a call may run.
#[tactic(auto, unfolding(crate::specs::Objects::object_text))]
fn push_entry_line(out: &mut Vec<u8>, plan: &Dialplan, id: EntryId) -> Result<(), NoMemory>
    ensures { OnOk result (out.new.items ≡ out.old.items ++ object_text (spec.entry_object plan.now id)) }
{
    begin_object(out, b"entry")?;
    push_entry(out, plan, id)?;
    end_object(out)
}

/// Adds the lines of entries.
fn push_entries(out: &mut Vec<u8>, plan: &Dialplan, ids: &[EntryId]) -> Result<(), NoMemory>
    ensures { OnOk result (out.new.items ≡ out.old.items ++ lines_text (spec.entry_objects plan.now ids.now)) }
{
    for id in ids {
        push_entry_line(out, plan, *id)?;
    }
    Ok(())
}

/// Adds the line of a line on how a call gets to the context with a name.
#[tactic(auto, unfolding(crate::specs::Objects::object_text))]
fn push_way_line(out: &mut Vec<u8>, context: &[u8], line: &[u8]) -> Result<(), NoMemory>
    ensures { OnOk result (out.new.items ≡ out.old.items ++ object_text (spec.way_object context.now line.now)) }
{
    begin_object(out, b"way")?;
    push_text(out, b"context", context)?;
    push_text(out, b"text", line)?;
    end_object(out)
}

/// Adds the lines on how a call gets to the context with a name.
fn push_way(out: &mut Vec<u8>, context: &[u8], lines: &[Vec<u8>]) -> Result<(), NoMemory>
    ensures { OnOk result (out.new.items
        ≡ out.old.items ++ lines_text (spec.way_objects context.now (map (λ line. line.items) lines.now))) }
{
    for line in lines {
        push_way_line(out, context, line)?;
    }
    Ok(())
}

/// Adds the line of a further line.
#[tactic(auto, unfolding(crate::specs::Objects::object_text))]
fn push_further_line(out: &mut Vec<u8>, line: &[u8]) -> Result<(), NoMemory>
    ensures { OnOk result (out.new.items ≡ out.old.items ++ object_text (spec.further_object line.now)) }
{
    begin_object(out, b"way")?;
    push_text(out, b"text", line)?;
    end_object(out)
}

/// Adds further lines.
fn push_further(out: &mut Vec<u8>, lines: &[Vec<u8>]) -> Result<(), NoMemory>
    ensures { OnOk result (out.new.items
        ≡ out.old.items ++ lines_text (spec.further_objects (map (λ line. line.items) lines.now))) }
{
    for line in lines {
        push_further_line(out, line)?;
    }
    Ok(())
}

/// Adds the lines of what a call may run of the context with a number.
fn push_context(
    out: &mut Vec<u8>,
    plan: &Dialplan,
    number: usize,
    context: &ReachedContext,
) -> Result<(), NoMemory>
    ensures { OnOk result (out.new.items ≡ out.old.items ++ lines_text (spec.context_objects plan.now number context.now)) }
{
    push_entries(out, plan, &context.entries)?;
    push_way(out, context_name(plan, number), &context.way)?;
    Ok(())
}

/// Adds the lines of what a call may run of each context.
fn push_contexts(
    out: &mut Vec<u8>,
    plan: &Dialplan,
    contexts: &[ReachedContext],
) -> Result<(), NoMemory>
    ensures { OnOk result (out.new.items ≡ out.old.items ++ lines_text (spec.contexts_objects plan.now 0 contexts.now)) }
{
    let mut number: usize = 0;
    for context in contexts {
        push_context(out, plan, number, context)?;
        number += 1;
    }
    Ok(())
}

/// How many entries a call may run. No list is longer than a `usize`, so 128 bits hold the sum.
fn reached_entries(contexts: &[ReachedContext]) -> u128
    ensures { result ≡ spec.reached_entries contexts.now }
{
    let mut count: u128 = 0;
    for context in contexts {
        count += context.entries.len() as u128;
    }
    count
}

/// How many entries there are.
fn all_entries(contexts: &[Context]) -> u128
    ensures { result ≡ spec.all_entries contexts.now }
{
    let mut count: u128 = 0;
    for context in contexts {
        count += context.entries().len() as u128;
    }
    count
}

/// One, if there are entries.
fn one_if_any(ids: &[EntryId]) -> u128
    ensures { result ≡ spec.one_if_any ids.now }
{
    match ids {
        [] => 0,
        [_, ..] => 1,
    }
}

/// In how many contexts there are entries that a call may run.
fn reached_contexts(contexts: &[ReachedContext]) -> u128
    ensures { result ≡ spec.reached_contexts contexts.now }
{
    let mut count: u128 = 0;
    for context in contexts {
        count += one_if_any(&context.entries);
    }
    count
}

/// Adds the fields of how many entries a call may run, and of how many there are.
#[tactic(auto, unfolding(crate::specs::Reaches::entries_counted))]
fn push_entries_counted(
    out: &mut Vec<u8>,
    plan: &Dialplan,
    contexts: &[ReachedContext],
) -> Result<(), NoMemory>
    ensures { OnOk result (out.new.items ≡ out.old.items ++ fields_text (spec.entries_counted plan.now contexts.now)) }
{
    push_number(out, b"entries", reached_entries(contexts))?;
    push_number(out, b"all_entries", all_entries(plan.contexts()))
}

/// Adds the fields of in how many contexts there are entries that a call may run, and of how many contexts there are.
#[tactic(auto, unfolding(crate::specs::Reaches::contexts_counted))]
fn push_contexts_counted(
    out: &mut Vec<u8>,
    plan: &Dialplan,
    contexts: &[ReachedContext],
) -> Result<(), NoMemory>
    ensures { OnOk result (out.new.items ≡ out.old.items ++ fields_text (spec.contexts_counted plan.now contexts.now)) }
{
    push_number(out, b"contexts", reached_contexts(contexts))?;
    push_number(out, b"all_contexts", plan.contexts().len() as u128)
}

/// Adds the line of how many entries in how many contexts a call may run.
#[tactic(auto, unfolding(crate::specs::Objects::object_text))]
fn push_reach_count(
    out: &mut Vec<u8>,
    plan: &Dialplan,
    contexts: &[ReachedContext],
) -> Result<(), NoMemory>
    ensures { OnOk result (out.new.items ≡ out.old.items ++ object_text (spec.reach_count_object plan.now contexts.now)) }
{
    begin_object(out, b"count")?;
    push_entries_counted(out, plan, contexts)?;
    push_contexts_counted(out, plan, contexts)?;
    end_object(out)
}

/// The word for whether a call may reach the target.
fn reach_word(reached: bool) -> &'static [u8]
    ensures { result.now ≡ spec.reach_word reached }
{
    if reached { b"MayReach" } else { b"Unreachable" }
}

/// Adds the line of whether a call may reach the target.
#[tactic(auto, unfolding(crate::specs::Objects::object_text))]
fn push_verdict(out: &mut Vec<u8>, target: &[u8], reached: bool) -> Result<(), NoMemory>
    ensures { OnOk result (out.new.items ≡ out.old.items ++ object_text (spec.verdict_object target.now reached)) }
{
    begin_object(out, b"verdict")?;
    push_text(out, b"kind", reach_word(reached))?;
    push_text(out, b"context", target)?;
    end_object(out)
}

/// Adds the lines of what a call may run of each context, further lines, and how many there are.
fn push_all(
    out: &mut Vec<u8>,
    plan: &Dialplan,
    contexts: &[ReachedContext],
    lines: &[Vec<u8>],
) -> Result<(), NoMemory>
    ensures { OnOk result (out.new.items ≡ out.old.items
        ++ (lines_text (spec.contexts_objects plan.now 0 contexts.now)
        ++ (lines_text (spec.further_objects (map (λ line. line.items) lines.now))
        ++ object_text (spec.reach_count_object plan.now contexts.now)))) }
{
    push_contexts(out, plan, contexts)?;
    push_further(out, lines)?;
    push_reach_count(out, plan, contexts)
}

/// Adds the lines of what is found, with further lines.
fn push_finding(
    out: &mut Vec<u8>,
    plan: &Dialplan,
    target: Option<&[u8]>,
    finding: &ReachFinding,
    lines: &[Vec<u8>],
) -> Result<(), NoMemory>
    ensures { OnOk result (out.new.items ≡ out.old.items
        ++ lines_text (spec.finding_objects plan.now (option_map (λ text. text.now) target.entry) finding.now
        (map (λ line. line.items) lines.now))) }
{
    match finding {
        ReachFinding::Contexts(contexts) => push_all(out, plan, contexts, lines),
        ReachFinding::Target(reached) => {
            push_verdict(out, target_name(target), *reached)?;
            push_further(out, lines)
        }
    }
}

/// The name of the target, or an empty text if there is none.
fn target_name(target: Option<&[u8]>) -> &[u8]
    ensures { result.now ≡ unwrap_or (option_map (λ text. text.now) target.entry) [] }
{
    match target {
        Some(name) => name,
        None => b"",
    }
}

/// Adds the lines of the answer to a question about phone calls that come in at a context:
///
/// - what is assumed, as an object of the type `assumed` with the bytes of `extensions`, of `callers` and, if they are given, of `facts`,
///   and with the names of the contexts where calls come in as `starts`, or `every context`;
/// - `{"type":"note","kind":"NoProof"}`, if no proof was found;
/// - without a target for each context, in the order of the dialplan, each entry that a call may run, as an object of the type `entry` with
///   the fields of the entry, and how a call gets there, line by line, as objects of the type `way` with the `context` and a `text`;
/// - with a target whether a call may reach it, as an object of the type `verdict` with the `kind` `MayReach` or `Unreachable` and the
///   `context`;
/// - the further lines, as objects of the type `way` with a `text`;
/// - without a target an object of the type `count` with how many `entries` and `contexts` a call may run or enter, and how many there are
///   (`all_entries`, `all_contexts`).
///
/// The dialplan and the question are those of the answer. It fails only if memory runs out.
pub fn push_reach(
    alloc: Global,
    out: &mut Vec<u8>,
    plan: &Dialplan,
    ask: &Ask<'_>,
    answer: &ReachAnswer,
) -> Result<(), NoMemory>
    ensures { OnOk result (out.new.items ≡ out.old.items ++ spec.reach_text plan.now (ask_of ask.now) answer.now) }
{
    push_assumed(alloc, out, ask, &answer.starts)?;
    push_proof(out, answer.is_proved)?;
    push_finding(out, plan, ask.target, &answer.finding, &answer.tail)?;
    Ok(())
}
