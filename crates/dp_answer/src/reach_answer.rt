//! The answer to a question about phone calls that come in at a context, in parts, for other tools.
ghost use Rattle.std.specs.Prelude.{◌≡◌, IfOk, Some, None, filter, length, map, option_map};
ghost use Rattle.std.specs.List.{range_with_len};
ghost use Rattle.dp_app.specs.Rows.{with_functions};
ghost use Rattle.dp_answer.specs.Asks.{ask_of};
ghost use Rattle.dp_answer.specs.ReachAnswers as spec;
ghost use Rattle.dp_answer.specs.Reached.{ids_at};
ghost use Rattle.dp_answer.specs.Steps.{IsToldBy, IsToldOn};
ghost use Rattle.dp_closed.specs.Answers.{answers_in};

use crate::ask::Ask;
use crate::reach_entries::push_answers_at;
use crate::report::{chain_at, may_reach};
use crate::terms::Terms;
use crate::text_lines::lines_of;
use crate::trails::{Found, told_of_target, ways_of_all};
use dp_closed::{DutyTable, KeptOutside, Marks};
use dp_conf::NoMemory;
use dp_plan::{Dialplan, EntryId, Text};
use dp_queue::Queues;
use std::alloc::Global;

/// What a call may run of a context.
#[derive(Debug, Drop)]
pub struct ReachedContext {
    /// The entries that it may run, in the order of the dialplan.
    pub entries: Vec<EntryId>,
    /// The lines on how it first gets there, without the blanks at their front. There are none if none of its entries was found.
    pub way: Vec<Vec<u8>>,
}

/// What is found.
#[derive(Debug, Drop)]
pub enum ReachFinding {
    /// Without a target: what a call may run of each context, in the order of the dialplan.
    Contexts(Vec<ReachedContext>),
    /// Whether a call may run an entry of the target.
    Target(bool),
}

/// The answer to a question about phone calls that come in at a context.
#[derive(Debug, Drop)]
pub struct ReachAnswer {
    /// The names of the contexts where calls come in.
    pub starts: Vec<Vec<u8>>,
    /// Whether it is proved that a call runs no other entry. If no proof is found, a call may run each entry.
    pub is_proved: bool,
    /// What is found.
    pub finding: ReachFinding,
    /// The further lines, without the blanks at their front: how a call gets to the target, and what an engineer may have to fix.
    pub tail: Vec<Vec<u8>>,
    /// 1 if a call may reach the target, else 0.
    pub status: u8,
}

/// What a call may run of the context with a number.
fn context_at(
    alloc: Global,
    plan: &Dialplan,
    answers: Option<&Marks>,
    chains: &[Vec<u8>],
    number: usize,
) -> Result<ReachedContext, NoMemory>
    ensures { IfOk result (λ context. context.entries.items
        ≡ filter (answers_in (option_map (λ marks. marks.now) answers.entry)) (ids_at plan.now number)) }
{
    let mut entries = Vec::new(alloc);
    push_answers_at(&mut entries, plan, answers, number)?;
    let way = lines_of(alloc, chain_at(chains, number))?;
    Ok(ReachedContext { entries, way })
}

/// What a call may run of each context.
fn all_contexts(
    alloc: Global,
    plan: &Dialplan,
    answers: Option<&Marks>,
    chains: &[Vec<u8>],
) -> Result<Vec<ReachedContext>, NoMemory>
    ensures { IfOk result (λ contexts. spec.entries_by_context contexts.items
        ≡ spec.answers_by_context plan.now (answers_in (option_map (λ marks. marks.now) answers.entry))) }
{
    let mut contexts = Vec::new(alloc);
    for number in 0..plan.contexts().len() {
        let context = context_at(alloc, plan, answers, chains, number)?;
        contexts.push(context)?;
    }
    Ok(contexts)
}

/// What is found, the further lines, and the status.
#[derive(Drop)]
pub(crate) struct ToldAnswer {
    pub(crate) is_proved: bool,
    pub(crate) finding: ReachFinding,
    pub(crate) tail: Vec<Vec<u8>>,
    pub(crate) status: u8,
}

/// What is found of all entries that a call may run.
fn tell_all<T: DutyTable>(
    alloc: Global,
    plan: &Dialplan,
    found: &Found<'_>,
) -> Result<ToldAnswer, NoMemory>
    ensures { IfOk result (λ told. IsToldBy plan.now found.now None told) }
{
    let ways = ways_of_all::<T>(alloc, found)?;
    let contexts = all_contexts(alloc, plan, found.answers(), &ways.chains)?;
    let tail = lines_of(alloc, &ways.tail)?;
    Ok(ToldAnswer {
        is_proved: found.is_proved,
        finding: ReachFinding::Contexts(contexts),
        tail,
        status: 0,
    })
}

/// What is found of a context that a call may or may not reach.
fn tell_target<T: DutyTable>(
    alloc: Global,
    plan: &Dialplan,
    name: &[u8],
    found: &Found<'_>,
) -> Result<ToldAnswer, NoMemory>
    ensures { IfOk result (λ told. IsToldBy plan.now found.now (Some name.now) told) }
{
    let target = Text::copy_of(alloc, name)?;
    let number = plan.number_of(&target);
    let way = told_of_target::<T>(alloc, found, number)?;
    let tail = lines_of(alloc, &way)?;
    let reached = may_reach(plan, found.answers(), number);
    Ok(ToldAnswer {
        is_proved: found.is_proved,
        finding: ReachFinding::Target(reached),
        tail,
        status: u8::from(reached),
    })
}

/// What is found, given the findings.
fn tell_found<T: DutyTable>(
    alloc: Global,
    plan: &Dialplan,
    target: Option<&[u8]>,
    found: &Found<'_>,
) -> Result<ToldAnswer, NoMemory>
    ensures { IfOk result (λ told. IsToldBy plan.now found.now (option_map (λ text. text.now) target.entry) told) }
{
    match target {
        None => tell_all::<T>(alloc, plan, found),
        Some(name) => tell_target::<T>(alloc, plan, name, found),
    }
}

/// What is found on the terms of the question.
fn tell_on<T: DutyTable>(
    alloc: Global,
    plan: &Dialplan,
    ask: &Ask<'_>,
    terms: &Terms,
) -> Result<ToldAnswer, NoMemory>
    ensures { IfOk result (λ told. IsToldOn (with_functions T.rows T.Functions.table) plan.now (ask_of ask.now) terms.now told) }
{
    let found = terms.find::<T>(alloc, plan, ask.context)?;
    let told = tell_found::<T>(alloc, plan, ask.target, &found)?;
    Ok(told)
}

/// The answer, with the names of the contexts where calls come in.
fn answer_of(terms: Terms, told: ToldAnswer) -> ReachAnswer
    ensures starts { result.starts ≡ terms.outside.contexts }
    ensures proved { result.is_proved ≡ told.is_proved }
    ensures finding { result.finding ≡ told.finding }
    ensures status { result.status ≡ told.status }
{
    let Terms { outside, ways: _ } = terms;
    let KeptOutside {
        exten: _,
        caller: _,
        facts: _,
        contexts,
    } = outside;
    let ToldAnswer {
        is_proved,
        finding,
        tail,
        status,
    } = told;
    ReachAnswer {
        starts: contexts,
        is_proved,
        finding,
        tail,
        status,
    }
}

/// Answers the question that [`crate::report_on`] reports on, in parts for other tools. If the dialplan lacks a context that is named, there
/// is no answer.
///
/// It is proved for every run that a call runs no entry but those of the answer, or that a context is unreachable: see the clause. Nothing is
/// proved of the entries in the answer: conditions are not followed. It fails only if memory runs out.
pub fn answer_on<T: DutyTable>(
    alloc: Global,
    plan: &Dialplan,
    queues: &Queues,
    ask: &Ask<'_>,
) -> Result<Option<ReachAnswer>, NoMemory>
    ensures { IfOk result (λ answer. spec.IsAnswerTo (with_functions T.rows T.Functions.table) plan.now
        (map (λ queue. queue.settings) queues.now.queues) (ask_of ask.now) answer) }
{
    let Some(terms) = Terms::of(alloc, plan, queues, ask)? else {
        return Ok(None);
    };
    let told = tell_on::<T>(alloc, plan, ask, &terms)?;
    Ok(Some(answer_of(terms, told)))
}
