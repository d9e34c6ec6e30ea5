//! The entries that phone calls which come in at a context may run.
ghost use Rattle.std.specs.Prelude.{◌≡◌, ◌∷◌, ◌++◌, [], IfOk, OnOk, filter, map, option_map};
ghost use Rattle.dp_app.specs.Rows.{with_functions};
ghost use Rattle.dp_answer.specs.Asks.{ask_of};
ghost use Rattle.dp_answer.specs.Reached as spec;
ghost use Rattle.dp_closed.specs.Answers.{answers_in};

use crate::ask::Ask;
use crate::report::{count_at, is_answer};
use crate::terms::Terms;
use dp_closed::{DutyTable, Marks};
use dp_conf::NoMemory;
use dp_plan::{Dialplan, EntryId};
use dp_queue::Queues;
use std::alloc::Global;

/// Adds an entry, if it is among the answers.
fn push_answer(
    entries: &mut Vec<EntryId>,
    answers: Option<&Marks>,
    id: EntryId,
) -> Result<(), NoMemory>
    ensures { OnOk result (entries.new.items ≡ entries.old.items ++ filter (answers_in (option_map (λ marks. marks.now) answers.entry)) (id ∷ [])) }
{
    if is_answer(answers, id) {
        entries.push(id)?;
    }
    Ok(())
}

/// Adds the entries of the context with a number that are among the answers.
#[tactic(auto, using(crate::proofs::ReachedLemmas::kept_next))]
pub(crate) fn push_answers_at(
    entries: &mut Vec<EntryId>,
    plan: &Dialplan,
    answers: Option<&Marks>,
    number: usize,
) -> Result<(), NoMemory>
    ensures { OnOk result (entries.new.items
        ≡ entries.old.items ++ filter (answers_in (option_map (λ marks. marks.now) answers.entry)) (spec.ids_at plan.now number)) }
{
    for entry in 0..count_at(plan, number) {
        let id = EntryId {
            context: number,
            entry,
        };
        push_answer(entries, answers, id)?;
    }
    Ok(())
}

/// The entries among the answers, in the order of the dialplan.
#[tactic(auto, using(crate::proofs::ReachedLemmas::all_next))]
fn all_answers(
    alloc: Global,
    plan: &Dialplan,
    answers: Option<&Marks>,
) -> Result<Vec<EntryId>, NoMemory>
    ensures { IfOk result (λ entries. entries.items ≡ filter (answers_in (option_map (λ marks. marks.now) answers.entry)) (spec.ids_of plan.now)) }
{
    let mut entries = Vec::new(alloc);
    for number in 0..plan.contexts().len() {
        push_answers_at(&mut entries, plan, answers, number)?;
    }
    Ok(entries)
}

/// The entries that a phone call which comes in at a context may run over the table, in the order of the dialplan: those that the report
/// lists on the same question without a target. If no proof is found, these are all entries: the bounds were too narrow, or a call may run
/// an entry of which nothing is known of what it does.
///
/// If the dialplan lacks a context that is named, even if as the target, there are none. Otherwise the target has no effect.
///
/// It is proved for every run that a call runs no other entry: see the clause. Nothing is proved of the entries that are given: conditions
/// are not followed. It fails only if memory runs out.
pub fn reached_entries<T: DutyTable>(
    alloc: Global,
    plan: &Dialplan,
    queues: &Queues,
    ask: &Ask<'_>,
) -> Result<Vec<EntryId>, NoMemory>
    ensures { IfOk result (λ entries. spec.AreReached (with_functions T.rows T.Functions.table) plan.now
        (map (λ queue. queue.settings) queues.now.queues) (ask_of ask.now) entries.items) }
{
    let Some(terms) = Terms::of(alloc, plan, queues, ask)? else {
        return Ok(Vec::new(alloc));
    };
    let found = terms.find::<T>(alloc, plan, ask.context)?;
    let entries = all_answers(alloc, plan, found.answers())?;
    Ok(entries)
}
