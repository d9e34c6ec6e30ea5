//! The report on all extensions that match a dialled text.
ghost use Rattle.std.specs.Prelude.{◌≡◌, ◌++◌, ◌||◌, IfOk, OnOk, false};
ghost use Rattle.std.specs.List.{flat_map};
ghost use Rattle.dp_conf.specs.Answers.{Answers};
ghost use Rattle.dp_commands.specs.Candidates as spec;
ghost use Rattle.dp_commands.specs.Faults.{is_write_failed, reason_of};
ghost use Rattle.dp_commands.specs.Report.{Reports};

use crate::block::Block;
use crate::fault::PbxFault;
use crate::report::{find_answer, push_match, read_plan, without_dashes};
use crate::trace::{push_entry, push_place};
use dp_audit::{Candidate, Verdict, candidates};
use dp_conf::WriteTold;
use dp_lookup::SearchOrder;
use dp_plan::{Dialplan, EntryId, NoMemory, Priority, Text};
use std::alloc::Global;

/// The text for what decides about an extension.
fn verdict_text(verdict: Verdict) -> &'static str
    ensures { result.now ≡ spec.verdict_text verdict }
{
    match verdict {
        Verdict::Answers => "answers",
        Verdict::LessSpecific => "less specific",
        Verdict::LaterContext => "later context",
        Verdict::NoSuchPriority => "no such priority",
    }
}

/// Adds the extension of the entry with these numbers, with a priority that it may lack.
fn push_extension(
    out: &mut Block,
    plan: &Dialplan,
    priority: Priority,
    id: EntryId,
) -> Result<(), NoMemory>
    ensures { OnOk result (out.new.begun ≡ out.old.begun ++ spec.extension_text plan.now priority id) }
{
    let Some(context) = plan.contexts().get(id.context) else {
        return Ok(());
    };
    let Some(entry) = context.entries().get(id.entry) else {
        return Ok(());
    };
    push_place(
        out,
        context.name().bytes(),
        entry.name.spelling(),
        priority.get(),
    )
}

/// Adds the subject of a decision.
fn push_subject(
    out: &mut Block,
    plan: &Dialplan,
    priority: Priority,
    candidate: Candidate,
) -> Result<(), NoMemory>
    ensures { OnOk result (out.new.begun ≡ out.old.begun
        ++ spec.subject_text plan.now priority candidate.id candidate.verdict) }
{
    match candidate.verdict {
        Verdict::Answers | Verdict::LessSpecific | Verdict::LaterContext => {
            push_entry(out, plan, candidate.id)
        }
        Verdict::NoSuchPriority => push_extension(out, plan, priority, candidate.id),
    }
}

/// Adds the line of a candidate.
fn push_candidate(
    out: &mut Block,
    plan: &Dialplan,
    priority: Priority,
    candidate: Candidate,
) -> Result<(), NoMemory>
    ensures { OnOk result (out.new.begun ≡ out.old.begun ++ spec.candidate_line plan.now priority candidate) }
{
    push_subject(out, plan, priority, candidate)?;
    out.push(b": ")?;
    out.push(verdict_text(candidate.verdict).as_bytes())?;
    out.push(b"\n")
}

/// Adds the lines of the candidates.
fn push_candidates(
    out: &mut Block,
    plan: &Dialplan,
    priority: Priority,
    candidates: &[Candidate],
) -> Result<(), NoMemory>
    ensures { OnOk result (out.new.begun ≡ out.old.begun ++ flat_map
        (spec.candidate_line plan.now priority) candidates.now) }
{
    for candidate in candidates {
        push_candidate(out, plan, priority, *candidate)?;
    }
    Ok(())
}

/// The line of the entry that answers, followed by the lines of the candidates.
fn candidates_text(
    alloc: Global,
    plan: &Dialplan,
    priority: Priority,
    found: Option<EntryId>,
    candidates: &[Candidate],
) -> Result<Block, NoMemory>
    ensures { IfOk result (λ text. text.begun ≡ spec.candidates_text plan.now priority found candidates.now) }
{
    let mut text = Block::new(alloc, 0)?;
    push_match(&mut text, plan, found)?;
    push_candidates(&mut text, plan, priority, candidates)?;
    Ok(text)
}

/// The extensions that match a dialled text, searched from a context, each with what decides about it at a priority. They are in the order
/// in which a look-up tries them (dialplan, pattern matching). Dashes make no difference, so they are dropped first. It fails only if
/// memory runs out.
#[tactic(auto, using(crate::proofs::DashesLemmas::candidates_undashed))]
pub fn find_candidates(
    alloc: Global,
    plan: &Dialplan,
    context: &[u8],
    text: &[u8],
    priority: Priority,
) -> Result<Vec<Candidate>, NoMemory>
    ensures { IfOk result (λ list. list.items ≡ spec.answering_candidates plan.now context.now text.now priority) }
{
    let context = Text::copy_of(alloc, context)?;
    let order = SearchOrder::of(alloc, plan, &context)?;
    let digits = without_dashes(alloc, text)?;
    candidates(alloc, plan, &order, &digits, priority.get())
}

/// The lines for a dialled text: the entry that answers, and all extensions that match.
fn all_text(
    alloc: Global,
    plan: &Dialplan,
    context: &[u8],
    text: &[u8],
    priority: Priority,
) -> Result<Block, NoMemory>
    ensures { IfOk result (λ lines. lines.begun ≡ spec.all_text plan.now context.now text.now priority) }
{
    let found = find_answer(alloc, plan, context, text, priority)?;
    let list = find_candidates(alloc, plan, context, text, priority)?;
    candidates_text(alloc, plan, priority, found, &list)
}

/// The lines for a dialled text, or the fault of the dialplan's text.
#[tactic(auto, unfolding(crate::specs::Candidates::match_all_of))]
fn all_matched(
    alloc: Global,
    plan: &[u8],
    context: &[u8],
    text: &[u8],
    priority: Priority,
) -> Result<Block, PbxFault>
    ensures lines { Answers (λ lines. lines.begun) reason_of result
        (spec.match_all_of plan.now context.now text.now priority) }
    ensures quiet { is_write_failed result ≡ false }
{
    let read = read_plan(alloc, plan)?;
    let lines = all_text(alloc, &read.plan, context, text, priority)?;
    Ok(lines)
}

/// Loads a dialplan and writes which of its entries answers the dialled text at the priority, as `match_one` does. Below that it writes a
/// line for each extension whose name matches, with what decides about it. The status is 0.
///
/// The extensions are in the order in which a look-up tries them: first the context and then what it includes, and in each the more
/// specific name first (dialplan, pattern matching). The line `CONTEXT,NAME,PRIORITY APP: answers` is for the entry that answers; `.. :
/// less specific` for an entry with the priority in the same context; `.. : later context` for one in a later context; and
/// `CONTEXT,NAME,PRIORITY: no such priority` for an extension that lacks the priority. These lines are a choice of this program. A faulty
/// dialplan has its first fault, and nothing is written. If the write fails, what was written stays written.
pub fn match_all<W: WriteTold>(
    alloc: Global,
    plan: &[u8],
    context: &[u8],
    text: &[u8],
    priority: Priority,
    writer: &mut W,
) -> Result<u8, PbxFault>
    ensures writes { Reports (W.contents writer.old) (W.contents writer.new)
        (spec.match_all_of plan.now context.now text.now priority) result }
    ensures told { W.has_failed writer.new ≡ (W.has_failed writer.old || is_write_failed result) }
{
    let lines = all_matched(alloc, plan, context, text, priority)?;
    writer.write_told(lines.bytes())?;
    Ok(0)
}
