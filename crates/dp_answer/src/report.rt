//! The report on phone calls that come in at a context.
ghost use Rattle.std.specs.Prelude.{◌≡◌, ◌++◌, None, Some, false, IfOk, OnOk, map, option_map};
ghost use Rattle.std.specs.Option.{option_map_or};
ghost use Rattle.dp_app.specs.Rows.{with_functions};
ghost use Rattle.dp_answer.specs.Asks.{ask_of};
ghost use Rattle.dp_answer.specs.Reports as spec;
ghost use Rattle.dp_answer.specs.Steps.{IsTold, answers_of, shown_report};
ghost use Rattle.dp_closed.specs.Answers.{answers_in};

use crate::ask::Ask;
use crate::head::push_head;
use crate::terms::Terms;
use crate::text::push_entry;
use crate::trails::{Found, Trails, told_of_all, told_of_target};
use dp_closed::{DutyTable, Marks};
use dp_conf::NoMemory;
use dp_plan::{Dialplan, EntryId, Text};
use dp_queue::Queues;
use std::alloc::Global;

/// A report: its text, and the status.
#[derive(Debug, Drop)]
pub struct Report {
    pub text: Vec<u8>,
    pub status: u8,
}

/// Whether the entry is among the answers, which are the marked entries, or all without marks.
pub(crate) fn is_answer(answers: Option<&Marks>, id: EntryId) -> bool
    ensures { result ≡ answers_in (option_map (λ marks. marks.now) answers.entry) id }
{
    match answers {
        None => true,
        Some(marks) => marks.has(id),
    }
}

/// The number of entries of the context with a number.
pub(crate) fn count_at(plan: &Dialplan, number: usize) -> usize
    ensures { result ≡ spec.count_at plan.now number }
{
    match plan.contexts().get(number) {
        Some(context) => context.entries().len(),
        None => 0,
    }
}

/// Adds the line of an entry, if it is among the answers.
fn push_line(
    out: &mut Vec<u8>,
    plan: &Dialplan,
    answers: Option<&Marks>,
    id: EntryId,
) -> Result<(), NoMemory>
    ensures { OnOk result (out.new.items ≡ out.old.items ++ spec.line_of plan.now (answers_in (option_map (λ marks. marks.now) answers.entry)) id) }
{
    if is_answer(answers, id) {
        push_entry(out, plan, id)?;
        out.push(b'\n')?;
    }
    Ok(())
}

/// Adds the lines of the answers in the context with a number.
fn push_lines(
    out: &mut Vec<u8>,
    plan: &Dialplan,
    answers: Option<&Marks>,
    number: usize,
) -> Result<(), NoMemory>
    ensures { OnOk result (out.new.items ≡ out.old.items ++ spec.lines_of plan.now (answers_in (option_map (λ marks. marks.now) answers.entry)) number) }
{
    for entry in 0..count_at(plan, number) {
        let id = EntryId {
            context: number,
            entry,
        };
        push_line(out, plan, answers, id)?;
    }
    Ok(())
}

/// How a call gets to the context with a number.
pub(crate) fn chain_at(chains: &[Vec<u8>], number: usize) -> &[u8]
    ensures { result.now ≡ spec.chain_at chains.now number }
{
    match chains.get(number) {
        Some(chain) => chain,
        None => &[],
    }
}

/// Adds all answers, and how a call gets to the context of each.
fn push_all(
    out: &mut Vec<u8>,
    plan: &Dialplan,
    answers: Option<&Marks>,
    chains: &[Vec<u8>],
) -> Result<(), NoMemory>
    ensures { OnOk result (out.new.items ≡ out.old.items ++ spec.all_lines plan.now (answers_in (option_map (λ marks. marks.now) answers.entry)) chains.now) }
{
    for number in 0..plan.contexts().len() {
        push_lines(out, plan, answers, number)?;
        out.extend_from_slice(chain_at(chains, number))?;
    }
    Ok(())
}

/// Whether an entry of the context with a number is among the answers.
fn has_answer(plan: &Dialplan, answers: Option<&Marks>, number: usize) -> bool
    ensures { result ≡ spec.has_answer plan.now (answers_in (option_map (λ marks. marks.now) answers.entry)) number }
{
    for entry in 0..count_at(plan, number) {
        let id = EntryId {
            context: number,
            entry,
        };
        if is_answer(answers, id) {
            return true;
        }
    }
    false
}

/// Adds the text on a context that a call may reach, or that it never reaches.
fn push_verdict(out: &mut Vec<u8>, name: &[u8], may_reach: bool) -> Result<(), NoMemory>
    ensures { OnOk result (out.new.items ≡ out.old.items ++ spec.verdict name.now may_reach) }
{
    if may_reach {
        out.extend_from_slice(b"may reach: ")?;
        return Ok(());
    }
    out.extend_from_slice(b"unreachable: ")?;
    out.extend_from_slice(name)?;
    out.push(b'\n')?;
    Ok(())
}

/// Whether an entry of the context with a number is among the answers, if there is such a context.
pub(crate) fn may_reach(plan: &Dialplan, answers: Option<&Marks>, number: Option<usize>) -> bool
    ensures { result ≡ option_map_or (spec.has_answer plan.now (answers_in (option_map (λ marks. marks.now) answers.entry))) number false }
{
    match number {
        None => false,
        Some(number) => has_answer(plan, answers, number),
    }
}

/// Adds all answers, and the further text.
fn push_answers(
    out: &mut Vec<u8>,
    plan: &Dialplan,
    answers: Option<&Marks>,
    told: &Trails,
) -> Result<(), NoMemory>
    ensures { OnOk result (out.new.items ≡ out.old.items
        ++ (spec.all_lines plan.now (answers_in (option_map (λ marks. marks.now) answers.entry)) told.now.chains.items ++ told.now.tail.items)) }
{
    push_all(out, plan, answers, &told.chains)?;
    out.extend_from_slice(&told.tail)?;
    Ok(())
}

/// Adds the text on a context that a call may or may not reach, and the further text.
fn push_target(out: &mut Vec<u8>, name: &[u8], may_reach: bool, tail: &[u8]) -> Result<(), NoMemory>
    ensures { OnOk result (out.new.items ≡ out.old.items ++ (spec.verdict name.now may_reach ++ tail.now)) }
{
    push_verdict(out, name, may_reach)?;
    out.extend_from_slice(tail)?;
    Ok(())
}

/// The report on all entries that a call may run, given the start of its text.
fn report_all<T: DutyTable>(
    alloc: Global,
    mut text: Vec<u8>,
    plan: &Dialplan,
    found: &Found<'_>,
) -> Result<Report, NoMemory>
    ensures { IfOk result (λ report. IsTold plan.now text.items (answers_of found.now) None (shown_report report)) }
{
    let told = told_of_all::<T>(alloc, found)?;
    push_answers(&mut text, plan, found.answers(), &told)?;
    Ok(Report { text, status: 0 })
}

/// The report on a context that a call may or may not reach, given the start of its text.
fn report_target<T: DutyTable>(
    alloc: Global,
    mut text: Vec<u8>,
    plan: &Dialplan,
    name: &[u8],
    found: &Found<'_>,
) -> Result<Report, NoMemory>
    ensures { IfOk result (λ report. IsTold plan.now text.items (answers_of found.now) (Some name.now) (shown_report report)) }
{
    let target = Text::copy_of(alloc, name)?;
    let number = plan.number_of(&target);
    let tail = told_of_target::<T>(alloc, found, number)?;
    let may_reach = may_reach(plan, found.answers(), number);
    push_target(&mut text, name, may_reach, &tail)?;
    Ok(Report {
        text,
        status: u8::from(may_reach),
    })
}

/// The report, given the findings.
fn report_found<T: DutyTable>(
    alloc: Global,
    plan: &Dialplan,
    ask: &Ask<'_>,
    found: &Found<'_>,
    starts: &[Vec<u8>],
) -> Result<Report, NoMemory>
    ensures { IfOk result (λ report. IsTold plan.now
        (spec.assumptions (ask_of ask.now) (map (λ name. name.items) starts.now) ++ spec.no_proof_line found.now.is_proved)
        (answers_of found.now) (ask_of ask.now).target (shown_report report)) }
{
    let mut text = Vec::new(alloc);
    push_head(&mut text, ask, starts, found.is_proved)?;
    match ask.target {
        None => report_all::<T>(alloc, text, plan, found),
        Some(name) => report_target::<T>(alloc, text, plan, name, found),
    }
}

/// Reports which entries a phone call that comes in at a context may run over the table, or whether it may run one of a target: whatever is
/// dialled, pressed, answered, waited for or done by other calls. If the dialplan lacks a context that is named the report is empty, with
/// status 1.
///
/// It is proved for every run that an entry is not in the report, or that a context is unreachable: see the clause. Nothing is proved of
/// the entries in the report: conditions are not followed. It fails only if memory runs out.
pub fn report_on<T: DutyTable>(
    alloc: Global,
    plan: &Dialplan,
    queues: &Queues,
    ask: &Ask<'_>,
) -> Result<Report, NoMemory>
    ensures { IfOk result (λ report. spec.IsReport (with_functions T.rows T.Functions.table) plan.now
        (map (λ queue. queue.settings) queues.now.queues) (ask_of ask.now) (record { text = report.text.items; status = report.status })) }
{
    let Some(terms) = Terms::of(alloc, plan, queues, ask)? else {
        return Ok(Report {
            text: Vec::new(alloc),
            status: 1,
        });
    };
    let found = terms.find::<T>(alloc, plan, ask.context)?;
    let report = report_found::<T>(alloc, plan, ask, &found, &terms.outside.contexts)?;
    Ok(report)
}
