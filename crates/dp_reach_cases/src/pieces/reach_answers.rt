//! Answers in parts on the calls that come in at a context, worked out by hand from the rules.
use crate::pieces::answers::asked_of;
use crate::pieces::entries::push_entry;
use crate::pieces::hidden::HiddenApps;
use dp_answer::{ReachAnswer, ReachFinding, ReachedContext, answer_on};
use dp_case_tables::{Question, push_bytes, text_of};
use dp_closed::DutyTable;
use dp_plan::Dialplan;
use dp_table::StandardApps;
use std::alloc::Global;
use std::test::Fail;

/// The question is that of `Answers`. The answer is `none`, or its parts, with a `¶` behind each: the status with `proved` or `unproved` and
/// where calls come in; each entry as `CONTEXT,NAME,PRIORITY` and each line on the way to a context behind a `>`, or whether the target is
/// reached; and each further line behind a `!`.
pub(super) struct AnswerParts;

/// The same over a table of which nothing is known of what `Playback` does.
pub(super) struct HiddenParts;

/// Adds lines with a mark before each.
fn push_lines(out: &mut String, mark: char, lines: &[Vec<u8>]) -> Result<(), Fail> {
    for line in lines {
        out.push(mark)?;
        push_bytes(out, line)?;
        out.push('¶')?;
    }
    Ok(())
}

/// Adds what a call may run of a context.
fn push_context(out: &mut String, plan: &Dialplan, context: &ReachedContext) -> Result<(), Fail> {
    for id in &context.entries {
        push_entry(out, plan, *id)?;
        out.push('¶')?;
    }
    push_lines(out, '>', &context.way)
}

/// Adds what is found.
fn push_finding(out: &mut String, plan: &Dialplan, finding: &ReachFinding) -> Result<(), Fail> {
    match finding {
        ReachFinding::Contexts(contexts) => {
            for context in contexts {
                push_context(out, plan, context)?;
            }
        }
        ReachFinding::Target(true) => out.push_str("reached¶")?,
        ReachFinding::Target(false) => out.push_str("not reached¶")?,
    }
    Ok(())
}

/// Adds an answer.
fn push_answer(out: &mut String, plan: &Dialplan, answer: &ReachAnswer) -> Result<(), Fail> {
    let word = if answer.is_proved {
        "proved"
    } else {
        "unproved"
    };
    write!(out, "{} {word}", answer.status)?;
    for start in &answer.starts {
        out.push(' ')?;
        push_bytes(out, start)?;
    }
    out.push('¶')?;
    push_finding(out, plan, &answer.finding)?;
    push_lines(out, '!', &answer.tail)
}

/// The parts of the answer over a table.
fn parts_over<T: DutyTable>(alloc: Global, asked: &str) -> Result<String, Fail> {
    let asked = asked_of(alloc, asked)?;
    let answer = answer_on::<T>(alloc, &asked.plan, &asked.queues, &asked.ask)?;
    let mut out = String::new(alloc);
    match answer {
        None => text_of(alloc, "none"),
        Some(answer) => {
            push_answer(&mut out, &asked.plan, &answer)?;
            Ok(out)
        }
    }
}

impl Question for AnswerParts {
    fn answer(alloc: Global, asked: &str) -> Result<String, Fail> {
        parts_over::<StandardApps>(alloc, asked)
    }
}

impl Question for HiddenParts {
    fn answer(alloc: Global, asked: &str) -> Result<String, Fail> {
        parts_over::<HiddenApps>(alloc, asked)
    }
}

pub(super) const PARTS: &str = r#"
# Each entry that a call may run, by contexts, with the way there.
doors||outside||||→0 proved outside hall safe¶outside,s,1¶>outside,{0-9A-Za-z*#+_.}*  a call comes in¶hall,s,1¶>outside,{0-9A-Za-z*#+_.}*  a call comes in¶>outside,s,1 Goto(hall,${EXTEN},1) -> hall,s¶
jumps||in|||0-9|→0 proved in desk 7¶in,_X.,1¶in,_X.,2¶>in,{0-9}*  a call comes in¶7,s,1¶>in,{0-9}*  a call comes in¶>in,_X.,2 Goto(${where},s,1) -> 7,s¶!may lead to any context: in,_X.,2 Goto(${where},s,1)¶
# One context: no way there, a way, and what may come in.
doors||outside|safe|||→0 proved outside hall safe¶not reached¶
doors||outside|safe|hall|0-9|7→0 proved outside hall¶not reached¶
doors||hall|safe|||→1 proved outside hall safe¶reached¶!safe,s,1 NoOp(no way)  e.g. extension s¶!hall,{0-9A-Za-z*#+_.}*  a call comes in¶!hall,9,1 Goto(safe,s,1) -> safe,s¶!every jump that lets a call in there:¶!hall,9,1 Goto(safe,s,1)¶
# Names of contexts that do not exist.
doors||kitchen||||→none
doors||outside|kitchen|a,hall||→none
"#;

/// Without a proof a call may run each entry.
pub(super) const HIDDEN_PARTS: &str = r#"
hidden||in||||→0 unproved in hall desk¶in,s,1¶>in,{0-9A-Za-z*#+_.}*  a call comes in¶hall,s,1¶>in,{0-9A-Za-z*#+_.}*  a call comes in¶>in,s,1 Goto(hall,s,1) -> hall,s¶desk,s,1¶!may do anything: hall,s,1 Playback(hello)¶
hidden||desk|in|desk|s|7→0 proved desk desk¶not reached¶
hidden||desk|in||s|7→1 unproved in hall desk¶reached¶!in¶!may do anything: hall,s,1 Playback(hello)¶
"#;
