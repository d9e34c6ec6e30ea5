//! A long name, and an extension of many labels.
use crate::lookup::render::load_plan;
use crate::trie::render::{TrieFrom, trie_from};
use dp_lookup::find;
use dp_trie::{Dialplan, EntryId, NoMemory};
use std::alloc::Global;
use std::process::Abort;
use std::test::Fail;

const CLASSES: usize = 1_000_000;

fn push_long_name(out: &mut String) -> Result<(), NoMemory> {
    out.push_str("[main]\nexten => _")?;
    for _ in 0..CLASSES {
        out.push('X')?;
    }
    out.push_str(",1,NoOp()\n")
}

/// A dialplan with a name of 1,000,000 classes.
fn long_name(alloc: Global) -> Result<Dialplan, Fail> {
    let mut text = String::new(alloc);
    push_long_name(&mut text)?;
    load_plan(alloc, text.as_bytes())
}

/// The entry for this number of digits, as the trie and the look-up in the dialplan find it.
fn find_digits(
    alloc: Global,
    plan: &Dialplan,
    from: &TrieFrom,
    count: usize,
) -> Result<(Option<EntryId>, Option<EntryId>), NoMemory> {
    let digits = vec![in alloc; b'7'; count]?;
    let found = from.trie.find(&from.order, &digits, 1);
    Ok((found, find(plan, &from.order, &digits, 1)))
}

/// The only entry of the only context.
const ONLY: EntryId = EntryId {
    context: 0,
    entry: 0,
};

fn check_found(
    rt: &impl Abort,
    alloc: Global,
    plan: &Dialplan,
    from: &TrieFrom,
) -> Result<(), Fail> {
    let found = find_digits(alloc, plan, from, CLASSES)?;
    assert_eq!(rt; found, (Some(ONLY), Some(ONLY)));
    let found = find_digits(alloc, plan, from, CLASSES - 1)?;
    assert_eq!(rt; found, (None, None));
    assert_eq!(rt; from.trie.nodes(0), CLASSES + 1);
    Ok(())
}

fn check_digits(rt: &impl Abort, alloc: Global, plan: &Dialplan) -> Result<(), Fail> {
    let from = trie_from(alloc, plan, b"main")?;
    check_found(rt, alloc, plan, &from)
}

fn check_long_name(rt: &impl Abort, alloc: Global) -> Result<(), Fail> {
    let plan = long_name(alloc)?;
    check_digits(rt, alloc, &plan)
}

/// A name of 1,000,000 classes is matched by as many digits, and not by one fewer, both in tries and in dialplans.
#[test]
fn a_long_name_is_matched(rt: HostRuntime) -> Result<(), Fail> {
    check_long_name(&rt, rt.alloc())
}

const LABELS: u32 = 10_000;

fn push_many_labels(out: &mut String) -> Result<(), NoMemory> {
    out.push_str("[main]\n")?;
    for priority in 1..=LABELS {
        write!(out, "exten => _X.,{priority}(l{priority}),NoOp()\n")?;
    }
    Ok(())
}

/// A dialplan with an extension of 10,000 labels, each of its own priority.
fn many_labels(alloc: Global) -> Result<Dialplan, Fail> {
    let mut text = String::new(alloc);
    push_many_labels(&mut text)?;
    load_plan(alloc, text.as_bytes())
}

fn check_label(rt: &impl Abort, alloc: Global, from: &TrieFrom, priority: u32) -> Result<(), Fail> {
    let label = format!(in alloc; "l{priority}")?;
    let found = from.trie.find_label(&from.order, b"55", label.as_bytes());
    assert_eq!(rt; found, Some(priority));
    Ok(())
}

fn check_each_label(rt: &impl Abort, alloc: Global, from: &TrieFrom) -> Result<(), Fail> {
    for priority in 1..=LABELS {
        check_label(rt, alloc, from, priority)?;
    }
    assert_eq!(rt; from.trie.find_label(&from.order, b"5", b"l1"), None);
    Ok(())
}

fn check_labels(rt: &impl Abort, alloc: Global, plan: &Dialplan) -> Result<(), Fail> {
    let from = trie_from(alloc, plan, b"main")?;
    check_each_label(rt, alloc, &from)
}

fn check_many_labels(rt: &impl Abort, alloc: Global) -> Result<(), Fail> {
    let plan = many_labels(alloc)?;
    check_labels(rt, alloc, &plan)
}

/// Each of 10,000 labels of one extension is found, by a text that only it matches.
#[test]
fn many_labels_are_found(rt: HostRuntime) -> Result<(), Fail> {
    check_many_labels(&rt, rt.alloc())
}
