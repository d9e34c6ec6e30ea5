//! Dialplans whose tries are asked the questions of a table, and their answers as text.
use crate::lookup::render::{load_plan, order_from, push_found, push_label, push_more};
use dp_case_tables::check_same;
use dp_trie::{Dialplan, NoMemory, SearchOrder, Trie};
use std::alloc::Global;
use std::test::Fail;

/// The tries of a dialplan, and the search order from one of its contexts.
#[derive(Drop)]
pub(super) struct TrieFrom {
    pub(super) trie: Trie,
    pub(super) order: SearchOrder,
}

/// The tries, to be asked from a context.
pub(super) fn trie_from(
    alloc: Global,
    plan: &Dialplan,
    context: &[u8],
) -> Result<TrieFrom, NoMemory> {
    let order = order_from(alloc, plan, context)?;
    let trie = Trie::build(alloc, plan)?;
    Ok(TrieFrom { trie, order })
}

/// Adds the entry of a priority, as both functions find it, or the count of nodes entered.
fn push_counted(
    out: &mut String,
    plan: &Dialplan,
    from: &TrieFrom,
    word: &str,
    text: &[u8],
    priority: u32,
) -> Result<(), NoMemory> {
    let (found, count) = from.trie.find_counted(&from.order, text, priority);
    if word == "count" {
        write!(out, "{count}")
    } else if found == from.trie.find(&from.order, text, priority) {
        push_found(out, plan, found)
    } else {
        Ok(())
    }
}

fn push_word(
    out: &mut String,
    plan: &Dialplan,
    from: &TrieFrom,
    word: &str,
    text: &[u8],
    other: &str,
) -> Result<(), Fail> {
    if word == "label" {
        let found = from.trie.find_label(&from.order, text, other.as_bytes());
        push_label(out, found)?;
    } else {
        let priority = other.parse::<u32>().ok().ok_or("no priority")?;
        push_counted(out, plan, from, word, text, priority)?;
    }
    Ok(())
}

fn push_told(out: &mut String, plan: &Dialplan, from: &TrieFrom, asked: &str) -> Result<(), Fail> {
    let (word, rest) = asked.split_once(' ').ok_or("no question")?;
    if word == "more" {
        push_more(out, from.trie.more(&from.order, rest.as_bytes()))?;
        return Ok(());
    }
    let (text, other) = rest.split_once(',').ok_or("no text")?;
    push_word(out, plan, from, word, text.as_bytes(), other)
}

fn trie_answer(
    alloc: Global,
    plan: &Dialplan,
    from: &TrieFrom,
    asked: &str,
) -> Result<String, Fail> {
    let mut out = String::new(alloc);
    push_told(&mut out, plan, from, asked)?;
    Ok(out)
}

fn check_told(alloc: Global, plan: &Dialplan, from: &TrieFrom, row: &str) -> Result<(), Fail> {
    let (asked, want) = row.split_once('→').ok_or("no answer")?;
    let got = trie_answer(alloc, plan, from, asked)?;
    check_same(asked, &got, want)
}

fn check_all_told(alloc: Global, plan: &Dialplan, from: &TrieFrom, rows: &str) -> Result<(), Fail> {
    for row in rows.lines() {
        check_told(alloc, plan, from, row)?;
    }
    Ok(())
}

fn check_from(alloc: Global, plan: &Dialplan, context: &[u8], rows: &str) -> Result<(), Fail> {
    let from = trie_from(alloc, plan, context)?;
    check_all_told(alloc, plan, &from, rows)
}

/// Loads the dialplan and makes its tries, and compares each answer from the context with the expected one.
///
/// A row is a question, an arrow and the answer: `find TEXT,PRIORITY` is `CONTEXT APPLICATION` or `none`,
/// `count TEXT,PRIORITY` the count of nodes entered, `label TEXT,LABEL` the priority or `none`, and `more TEXT` is `more`
/// or `no more`.
pub(super) fn check_tries(
    alloc: Global,
    text: &[u8],
    context: &[u8],
    rows: &str,
) -> Result<(), Fail> {
    let plan = load_plan(alloc, text)?;
    check_from(alloc, &plan, context, rows)
}
