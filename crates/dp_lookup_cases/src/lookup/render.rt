//! Dialplans that are asked the questions of a table, and their answers as text.
use dp_case_tables::{bytes_of, is_heading};
use dp_lookup::{
    Dialplan, EntryId, NoMemory, SearchOrder, Text, could_be_more, exists, find, find_label,
};
use std::alloc::Global;
use std::test::Fail;

/// Adds an entry as the name of its context and its application.
fn push_entry(out: &mut String, plan: &Dialplan, id: EntryId) -> Result<(), NoMemory> {
    match (plan.contexts().get(id.context), plan.entry(id)) {
        (Some(context), Some(entry)) => write!(out, "{} {}", context.name(), entry.application),
        _ => out.push_str("an entry that is not there"),
    }
}

/// Adds an entry that is found, or `none`.
pub(crate) fn push_found(
    out: &mut String,
    plan: &Dialplan,
    found: Option<EntryId>,
) -> Result<(), NoMemory> {
    match found {
        Some(id) => push_entry(out, plan, id),
        None => out.push_str("none"),
    }
}

fn push_find(
    out: &mut String,
    plan: &Dialplan,
    order: &SearchOrder,
    text: &[u8],
    priority: u32,
) -> Result<(), NoMemory> {
    let found = find(plan, order, text, priority);
    if found.is_some() == exists(plan, order, text, priority) {
        push_found(out, plan, found)
    } else {
        out.push_str("two answers")
    }
}

/// Adds the priority of a label, or `none`.
pub(crate) fn push_label(out: &mut String, found: Option<u32>) -> Result<(), NoMemory> {
    match found {
        Some(priority) => write!(out, "{priority}"),
        None => out.push_str("none"),
    }
}

/// Adds whether a text could be more.
pub(crate) fn push_more(out: &mut String, is_more: bool) -> Result<(), NoMemory> {
    out.push_str(if is_more { "more" } else { "no more" })
}

fn push_of_text(
    out: &mut String,
    plan: &Dialplan,
    order: &SearchOrder,
    word: &str,
    text: &[u8],
    other: &str,
) -> Result<(), Fail> {
    match word {
        "find" => {
            let priority = other.parse::<u32>().ok().ok_or("no priority")?;
            push_find(out, plan, order, text, priority)?;
        }
        "label" => push_label(out, find_label(plan, order, text, other.as_bytes()))?,
        _ => out.push_str("no such question")?,
    }
    Ok(())
}

fn push_answer(
    out: &mut String,
    plan: &Dialplan,
    order: &SearchOrder,
    asked: &str,
) -> Result<(), Fail> {
    let (word, rest) = asked.split_once(' ').ok_or("no question")?;
    if word == "more" {
        push_more(out, could_be_more(plan, order, rest.as_bytes()))?;
        return Ok(());
    }
    let (text, other) = rest.split_once(',').ok_or("no text")?;
    push_of_text(out, plan, order, word, text.as_bytes(), other)
}

/// The names of an order's contexts, each before a blank.
pub(super) fn push_order(
    out: &mut String,
    plan: &Dialplan,
    order: &SearchOrder,
) -> Result<(), NoMemory> {
    for number in order.contexts() {
        match plan.contexts().get(*number) {
            Some(context) => write!(out, "{} ", context.name())?,
            None => out.push_str("a context that is not there ")?,
        }
    }
    Ok(())
}

fn push_asked(
    out: &mut String,
    plan: &Dialplan,
    order: &SearchOrder,
    asked: &str,
) -> Result<(), Fail> {
    if asked == "order" {
        push_order(out, plan, order)?;
        return Ok(());
    }
    push_answer(out, plan, order, asked)
}

fn answer(
    alloc: Global,
    plan: &Dialplan,
    order: &SearchOrder,
    asked: &str,
) -> Result<String, Fail> {
    let mut out = String::new(alloc);
    push_asked(&mut out, plan, order, asked)?;
    Ok(out)
}

fn check_answer(asked: &str, got: &str, want: &str, of: &str) -> Result<(), Fail> {
    if got == want {
        return Ok(());
    }
    Err(Fail::new(format_args!("{asked} gives {got}, not {want}, in {of}")))
}

fn check_row(
    alloc: Global,
    plan: &Dialplan,
    order: &SearchOrder,
    of: &str,
    row: &str,
) -> Result<(), Fail> {
    let (asked, want) = row.split_once('→').ok_or("no answer")?;
    let got = answer(alloc, plan, order, asked)?;
    check_answer(asked, &got, want, of)
}

/// Compares each answer in the order of one context with the expected one. `of` says where the rows are.
fn check_rows(
    alloc: Global,
    plan: &Dialplan,
    order: &SearchOrder,
    of: &str,
    rows: &str,
) -> Result<(), Fail> {
    for row in rows.lines() {
        check_row(alloc, plan, order, of, row)?;
    }
    Ok(())
}

/// The search order from a context.
pub(crate) fn order_from(
    alloc: Global,
    plan: &Dialplan,
    context: &[u8],
) -> Result<SearchOrder, NoMemory> {
    let context = Text::copy_of(alloc, context)?;
    let order = SearchOrder::of(alloc, plan, &context)?;
    Ok(order)
}

/// The rows after the name of a context.
fn check_context(alloc: Global, plan: &Dialplan, of: &str, asked: &str) -> Result<(), Fail> {
    let (name, rows) = asked.split_once('\n').ok_or("no rows")?;
    let order = order_from(alloc, plan, name.as_bytes())?;
    check_rows(alloc, plan, &order, of, rows)
}

fn check_contexts(alloc: Global, plan: &Dialplan, of: &str, contexts: &str) -> Result<(), Fail> {
    for asked in contexts.split("\nfrom ") {
        check_context(alloc, plan, of, asked)?;
    }
    Ok(())
}

/// The dialplan of a text, without its notes.
pub(crate) fn load_plan(alloc: Global, text: &[u8]) -> Result<Dialplan, Fail> {
    let (plan, _) = Dialplan::load(alloc, text)?;
    Ok(plan)
}

/// The dialplan on the last of these lines, or an empty one if that is a heading.
fn plan_of(alloc: Global, head: &str) -> Result<Dialplan, Fail> {
    let line = match head.rsplit_once('\n') {
        Some((_, line)) => line,
        None => head,
    };
    let text = bytes_of(alloc, if is_heading(line) { "" } else { line })?;
    load_plan(alloc, &text)
}

fn check_block(alloc: Global, block: &str) -> Result<(), Fail> {
    let (head, contexts) = block.split_once("\nfrom ").ok_or("no context")?;
    let plan = plan_of(alloc, head)?;
    check_contexts(alloc, &plan, head, contexts)
}

/// Compares the answers to the questions of a table with the expected ones.
///
/// A table has blocks with an empty line between them. A block is a heading, a line with the dialplan, and for each
/// context that is asked a line `from CONTEXT` with its rows after it. A row is a question, an arrow and the answer:
/// `find TEXT,PRIORITY` is `CONTEXT APPLICATION` or `none`, `label TEXT,LABEL` the priority or `none`, `more TEXT` is
/// `more` or `no more`, and `order` the names of the contexts in the order of the search, each before a blank.
pub(super) fn check(alloc: Global, table: &str) -> Result<(), Fail> {
    for block in table.split("\n\n") {
        check_block(alloc, block)?;
    }
    Ok(())
}
