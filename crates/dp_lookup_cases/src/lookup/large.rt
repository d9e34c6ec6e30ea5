//! Long chains of includes.
use crate::lookup::render::{load_plan, order_from};
use dp_lookup::{Dialplan, EntryId, NoMemory, find};
use std::alloc::Global;
use std::process::Abort;
use std::test::Fail;

const CONTEXTS: usize = 10_000;

fn push_chain(out: &mut String, last_line: &str) -> Result<(), NoMemory> {
    for number in 1..CONTEXTS {
        write!(out, "[c{}]\ninclude => c{number}\n", number - 1)?;
    }
    out.push_str("[c9999]\nexten => 77,1,NoOp()\n")?;
    out.push_str(last_line)
}

/// Contexts `c0` to `c9999`, each of which includes the next, and the last of which has the extension `77` and this line.
fn chain(alloc: Global, last_line: &str) -> Result<Dialplan, Fail> {
    let mut text = String::new(alloc);
    push_chain(&mut text, last_line)?;
    load_plan(alloc, text.as_bytes())
}

/// The entry of `77` from a context, and the length of the context's order.
fn find_77(
    alloc: Global,
    plan: &Dialplan,
    context: &[u8],
) -> Result<(Option<EntryId>, usize), NoMemory> {
    let order = order_from(alloc, plan, context)?;
    Ok((find(plan, &order, b"77", 1), order.contexts().len()))
}

/// The only entry of the last context.
const LAST: EntryId = EntryId {
    context: 9_999,
    entry: 0,
};

/// The last context's entry is found from each of these contexts, in an order of this number of contexts.
fn check_contexts(
    rt: &impl Abort,
    alloc: Global,
    plan: &Dialplan,
    contexts: &[(&[u8], usize)],
) -> Result<(), Fail> {
    for (context, length) in contexts {
        let found = find_77(alloc, plan, context)?;
        assert_eq!(rt; found, (Some(LAST), *length), "from {context:?}");
    }
    Ok(())
}

fn check_chain(rt: &impl Abort, alloc: Global) -> Result<(), Fail> {
    let plan = chain(alloc, "")?;
    check_contexts(rt, alloc, &plan, &[(b"c0", CONTEXTS), (b"c9999", 1)])
}

fn check_ring(rt: &impl Abort, alloc: Global) -> Result<(), Fail> {
    let plan = chain(alloc, "include => c0\n")?;
    let contexts: [(&[u8], usize); 3] = [
        (b"c0", CONTEXTS),
        (b"c5000", CONTEXTS),
        (b"c9999", CONTEXTS),
    ];
    check_contexts(rt, alloc, &plan, &contexts)
}

/// A chain of 10,000 includes is followed to its end, and a ring of them once.
#[test]
fn include_chains_and_rings_are_followed(rt: HostRuntime) -> Result<(), Fail> {
    check_chain(&rt, rt.alloc())?;
    check_ring(&rt, rt.alloc())
}
