//! Which contexts a call reaches in only one of two dialplans, worked out by hand from the rules.
use crate::differences::{DiffSink, load, plan_of, push_result};
use dp_case_tables::{Question, check, check_that, push_bytes};
use dp_conf::Told;
use dp_diff::{Dialplan, DiffFault, EntryId, NoMemory, PlanReach, write_reach_changes};
use std::alloc::Global;
use std::test::Fail;

/// The entries that a call may run before a change, as `CONTEXT.ENTRY` counted from 0, and after ` ; ` the dialplan before it. Then after
/// ` | ` the same after the change. The dialplans are as in the cases of differences. Then the lines that are written, with their number
/// after them.
const CHANGES: &str = r"
# Nothing is reached, and the same contexts are reached.
 ; 1,1,A() |  ; 1,1,A()→0
0.0 ; 1,1,A() | 0.0 ; 1,1,A()→0
0.0 1.0 ; 1,1,A()\n[b]\n1,1,B() | 1.0 0.0 ; 1,1,A()\n[b]\n1,1,B()→0
# Other entries of the same context.
0.0 ; 1,1,A()\n2,1,B() | 0.1 ; 1,1,A()\n2,1,B()→0
0.0 0.1 ; 1,1,A()\n2,1,B() | 0.0 ; 1,1,X()→0
# A context is reached only before, and only after.
0.0 ; 1,1,A() |  ; 1,1,A()→- reaches a\n1
 ; 1,1,A() | 0.0 ; 1,1,A()→+ reaches a\n1
0.0 1.0 ; 1,1,A()\n[b]\n1,1,B() | 0.0 ; 1,1,A()\n[b]\n1,1,B()→- reaches b\n1
0.0 ; 1,1,A()\n[b]\n1,1,B() | 0.0 1.0 ; 1,1,A()\n[b]\n1,1,B()→+ reaches b\n1
0.0 1.0 ; 1,1,A()\n[b]\n1,1,B()\n[c]\n1,1,C() | 0.0 2.0 ; 1,1,A()\n[b]\n1,1,B()\n[c]\n1,1,C()→- reaches b\n+ reaches c\n2
# One line for each context, however many of its entries are reached.
0.0 0.1 0.2 ; 1,1,A()\n2,1,B()\n3,1,C() |  ; 1,1,A()→- reaches a\n1
# The contexts have other numbers after the change.
0.0 1.0 ; 1,1,A()\n[b]\n1,1,B() | 0.0 1.0 ; [b]\n1,1,B()\n[a]\n1,1,A()→0
0.0 ; 1,1,A()\n[b]\n1,1,B() | 0.0 ; [b]\n1,1,B()\n[a]\n1,1,A()→- reaches a\n+ reaches b\n2
# A context that only one of the dialplans has; names are compared byte for byte.
0.0 1.0 ; 1,1,A()\n[b]\n1,1,B() | 0.0 ; 1,1,A()→- reaches b\n1
0.0 ; 1,1,A() | 0.0 1.0 ; 1,1,A()\n[b]\n1,1,B()→+ reaches b\n1
0.0 ; 1,1,A()\n[b]\n1,1,B() | 0.0 ; 1,1,A()→0
0.0 ; [B]\n1,1,A() | 0.0 ; [b]\n1,1,A()→- reaches B\n+ reaches b\n2
# The order of the lines is that of the dialplans, and not that of the entries.
3.0 1.0 2.0 ; [d]\n[c]\n1,1,A()\n[b]\n1,1,A()\n[a]\n1,1,A() | 3.0 0.0 1.0 ; [z]\n1,1,A()\n[y]\n1,1,A()\n[c]\n[x]\n1,1,A()→- reaches c\n- reaches b\n- reaches a\n+ reaches z\n+ reaches y\n+ reaches x\n6
# Includes count for nothing here: only the context of an entry is reached.
1.0 ; include => b\n[b]\n1,1,B() | 1.0 ; include => b\n[b]\n1,1,B()→0
1.0 ; include => b\n[b]\n1,1,B() | 0.0 ; 1,1,B()\n[b]\n1,1,B()→- reaches b\n+ reaches a\n2
# Numbers that no context has.
7.0 ; 1,1,A() | 0.0 ; 1,1,A()→+ reaches a\n1
";

/// How many contexts a large dialplan has.
const MANY: u32 = 10_000;

/// An entry with these numbers.
fn entry_of(numbers: &str) -> Result<EntryId, Fail> {
    let Some((context, entry)) = numbers.split_once('.') else {
        return Err("an entry has no two numbers".into());
    };
    let context = context.parse::<usize>()?;
    let entry = entry.parse::<usize>()?;
    Ok(EntryId { context, entry })
}

/// The entries with these numbers.
fn entries_of(alloc: Global, list: &str) -> Result<Vec<EntryId>, Fail> {
    let mut entries = Vec::new(alloc);
    for numbers in list.split_whitespace() {
        entries.push(entry_of(numbers)?)?;
    }
    Ok(entries)
}

/// A dialplan, and the entries of it that a call may run.
#[derive(Drop)]
struct ReachSide {
    plan: Dialplan,
    entries: Vec<EntryId>,
}

/// The dialplan and the entries of a text.
fn side_of(alloc: Global, text: &str) -> Result<ReachSide, Fail> {
    let Some((list, lines)) = text.split_once(" ; ") else {
        return Err("there is no dialplan".into());
    };
    let plan = plan_of(alloc, lines)?;
    let entries = entries_of(alloc, list)?;
    Ok(ReachSide { plan, entries })
}

/// What is reached on one side.
fn reach_of(side: &ReachSide) -> PlanReach<'_> {
    PlanReach {
        plan: &side.plan,
        entries: &side.entries,
    }
}

/// What was written, and what was returned.
#[derive(Drop)]
struct ReachOutcome {
    held: Vec<u8>,
    has_failed: bool,
    result: Result<u64, DiffFault>,
}

/// Writes what is reached in only one of two dialplans to a writer that may fail.
fn outcome_of(
    alloc: Global,
    before: &ReachSide,
    after: &ReachSide,
    fails_at: Option<usize>,
) -> ReachOutcome {
    let mut writer = Told::new(DiffSink {
        held: Vec::new(alloc),
        writes: 0,
        fails_at,
    });
    let result = write_reach_changes(alloc, reach_of(before), reach_of(after), &mut writer);
    let has_failed = writer.has_failed();
    let DiffSink {
        held,
        writes: _,
        fails_at: _,
    } = writer.into_inner();
    ReachOutcome {
        held,
        has_failed,
        result,
    }
}

/// What a call reaches in only one of two dialplans.
struct ReachDifferences;

impl Question for ReachDifferences {
    fn answer(alloc: Global, asked: &str) -> Result<String, Fail> {
        let Some((before, after)) = asked.split_once(" | ") else {
            return Err("there is only one dialplan".into());
        };
        let before = side_of(alloc, before)?;
        let after = side_of(alloc, after)?;
        let outcome = outcome_of(alloc, &before, &after, None);
        let mut out = String::new(alloc);
        push_bytes(&mut out, &outcome.held)?;
        push_result(&mut out, outcome.result)?;
        Ok(out)
    }
}

/// Adds many contexts with one entry each.
fn push_many(text: &mut String) -> Result<(), NoMemory> {
    for number in 0..MANY {
        write!(text, "[{number}]\nexten => 1,1,NoOp()\n")?;
    }
    Ok(())
}

/// Many contexts, of which each is reached if `every` divides its number.
fn many(alloc: Global, every: usize) -> Result<ReachSide, Fail> {
    let mut text = String::new(alloc);
    push_many(&mut text)?;
    let plan = load(alloc, &text)?;
    let mut entries = Vec::new(alloc);
    for context in 0..plan.contexts().len() {
        if context.checked_rem(every) == Some(0) {
            entries.push(EntryId { context, entry: 0 })?;
        }
    }
    Ok(ReachSide { plan, entries })
}

/// Every second of many contexts is reached, and after the change every fourth.
fn check_many(alloc: Global) -> Result<(), Fail> {
    let before = many(alloc, 2)?;
    let after = many(alloc, 4)?;
    let outcome = outcome_of(alloc, &before, &after, None);
    check_that(outcome.result == Ok(2_500), "a fourth is reached no more")?;
    check_that(
        outcome
            .held
            .starts_with(b"- reaches 2\n- reaches 6\n- reaches 10\n"),
        "the lines are in order",
    )
}

/// The first write fails.
fn check_failure(alloc: Global) -> Result<(), Fail> {
    let before = side_of(alloc, "0.0 ; 1,1,A()")?;
    let after = side_of(alloc, " ; 1,1,A()")?;
    let outcome = outcome_of(alloc, &before, &after, Some(0));
    check_that(
        outcome.result == Err(DiffFault::WriteFailed)
            && outcome.has_failed
            && outcome.held.is_empty(),
        "the failed write is told",
    )
}

#[test]
fn contexts_that_one_of_two_dialplans_reaches(rt: HostRuntime) -> Result<(), Fail> {
    check::<ReachDifferences>(rt.alloc(), CHANGES)
}

#[test]
fn many_contexts_are_reached(rt: HostRuntime) -> Result<(), Fail> {
    check_many(rt.alloc())
}

#[test]
fn a_failed_write_of_what_is_reached(rt: HostRuntime) -> Result<(), Fail> {
    check_failure(rt.alloc())
}
