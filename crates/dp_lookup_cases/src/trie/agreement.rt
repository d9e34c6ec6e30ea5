//! Generated dialplans, whose tries are asked the same questions as the look-up in the dialplan.
use crate::lookup::render::load_plan;
use crate::trie::render::{TrieFrom, trie_from};
use dp_lookup::{could_be_more, find, find_label};
use dp_trie::{Dialplan, NoMemory};
use std::alloc::Global;
use std::process::Abort;
use std::test::Fail;

/// The next number of a fixed sequence (a linear congruence), in which the upper bits vary most.
fn next(seed: &mut u32) -> u32 {
    *seed = seed.wrapping_mul(1_664_525).wrapping_add(1_013_904_223);
    *seed >> 16
}

const CLASSES: [&str; 6] = ["1", "2", "X", "N", "[12]", "[1-3]"];

const TAILS: [&str; 4] = ["", "", ".", "!"];

const DIGITS: [u8; 5] = *b"1234-";

/// Adds a name of a few classes, or of a few digits.
fn push_name(text: &mut String, seed: &mut u32) -> Result<(), NoMemory> {
    let count = 1 + next(seed) % 3;
    if next(seed) % 3 == 0 {
        for _ in 0..count {
            write!(text, "{}", 1 + next(seed) % 3)?;
        }
        return Ok(());
    }
    text.push('_')?;
    for _ in 0..count {
        text.push_str(CLASSES[next(seed) as usize % CLASSES.len()])?;
    }
    text.push_str(TAILS[next(seed) as usize % TAILS.len()])
}

fn push_line(text: &mut String, seed: &mut u32) -> Result<(), NoMemory> {
    text.push_str("exten => ")?;
    push_name(text, seed)?;
    let priority = 1 + next(seed) % 3;
    write!(text, ",{priority}(l{}),NoOp()\n", next(seed) % 4)
}

fn push_contexts(text: &mut String, seed: &mut u32) -> Result<(), NoMemory> {
    for context in 0..2 {
        write!(text, "[c{context}]\ninclude => c1\n")?;
        for _ in 0..20 {
            push_line(text, seed)?;
        }
    }
    Ok(())
}

/// A dialplan of two contexts, the first of which includes the second.
fn plan_text(alloc: Global, seed: &mut u32) -> Result<String, NoMemory> {
    let mut text = String::new(alloc);
    push_contexts(&mut text, seed)?;
    Ok(text)
}

/// A text of at most five bytes.
fn push_text(text: &mut Vec<u8>, seed: &mut u32) -> Result<(), NoMemory> {
    text.clear();
    for _ in 0..next(seed) % 6 {
        text.push(DIGITS[next(seed) as usize % DIGITS.len()])?;
    }
    Ok(())
}

/// Whether the tries and the look-up in the dialplan give the same answers for a text.
fn agree(plan: &Dialplan, from: &TrieFrom, text: &[u8], number: u32) -> bool {
    let TrieFrom { trie, order } = from;
    let label: &[u8] = if number == 1 { b"l1" } else { b"l2" };
    trie.find(order, text, number) == find(plan, order, text, number)
        && trie.find_label(order, text, label) == find_label(plan, order, text, label)
        && trie.more(order, text) == could_be_more(plan, order, text)
}

/// Asks a generated dialplan about this text, and compares the count with its bound.
fn ask(rt: &impl Abort, text: &str, plan: &Dialplan, from: &TrieFrom, asked: &[u8], number: u32) {
    assert!(rt;
        agree(plan, from, asked, number),
        "{text} {asked:?} {number}"
    );
    let (_, count) = from.trie.find_counted(&from.order, asked, number);
    let nodes = from.trie.nodes(0).saturating_add(from.trie.nodes(1));
    assert!(rt; count <= nodes, "{text} {asked:?} {number}");
}

fn ask_all(
    rt: &impl Abort,
    alloc: Global,
    text: &str,
    plan: &Dialplan,
    from: &TrieFrom,
    seed: &mut u32,
) -> Result<(), Fail> {
    let mut asked = Vec::new(alloc);
    for turn in 0..112 {
        push_text(&mut asked, seed)?;
        ask(rt, text, plan, from, &asked, 1 + turn % 3);
    }
    Ok(())
}

fn check_trie(
    rt: &impl Abort,
    alloc: Global,
    text: &str,
    plan: &Dialplan,
    seed: &mut u32,
) -> Result<(), Fail> {
    let from = trie_from(alloc, plan, b"c0")?;
    ask_all(rt, alloc, text, plan, &from, seed)
}

fn check_plan(rt: &impl Abort, alloc: Global, text: &str, seed: &mut u32) -> Result<(), Fail> {
    let plan = load_plan(alloc, text.as_bytes())?;
    check_trie(rt, alloc, text, &plan, seed)
}

fn check_generated(rt: &impl Abort, alloc: Global, seed: &mut u32) -> Result<(), Fail> {
    let text = plan_text(alloc, seed)?;
    check_plan(rt, alloc, &text, seed)
}

/// Thirty dialplans, each with 336 questions.
#[test]
fn tries_agree_with_the_look_up_in_the_dialplan(rt: HostRuntime) -> Result<(), Fail> {
    let mut seed = 1;
    for _ in 0..30 {
        check_generated(&rt, rt.alloc(), &mut seed)?;
    }
    Ok(())
}
