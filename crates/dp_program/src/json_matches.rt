//! The report of `match` as JSON.
ghost use Rattle.std.specs.Prelude.{◌≡◌, ◌++◌, ◌||◌, IfOk, OnOk, false};
ghost use Rattle.dp_conf.specs.Answers.{Answers};
ghost use Rattle.dp_commands.specs.Faults.{is_write_failed, reason_of};
ghost use Rattle.dp_commands.specs.Report.{Reports};
ghost use Rattle.dp_program.specs.JsonMatches as spec;
ghost use Rattle.dp_program.specs.Requests.{lookup_of};

use crate::request::Lookup;
use dp_commands::{PbxFault, find_answer, find_candidates, read_plan};
use dp_conf::WriteTold;
use dp_json::{push_candidates, push_match};
use dp_plan::{Dialplan, NoMemory};
use std::alloc::Global;

/// Adds the line of the entry that answers.
fn push_answer(
    alloc: Global,
    out: &mut Vec<u8>,
    lookup: &Lookup<'_>,
    plan: &Dialplan,
) -> Result<(), NoMemory>
    ensures { OnOk result (out.new.items ≡ out.old.items ++ spec.answer_line (lookup_of lookup.now) plan.now) }
{
    let context = lookup.context.as_bytes();
    let text = lookup.text.as_bytes();
    let found = find_answer(alloc, plan, context, text, lookup.priority)?;
    push_match(out, plan, found)
}

/// Adds the lines of all extensions that match.
fn push_all(
    alloc: Global,
    out: &mut Vec<u8>,
    lookup: &Lookup<'_>,
    plan: &Dialplan,
) -> Result<(), NoMemory>
    ensures { OnOk result (out.new.items ≡ out.old.items ++ spec.candidate_lines (lookup_of lookup.now) plan.now) }
{
    let context = lookup.context.as_bytes();
    let text = lookup.text.as_bytes();
    let candidates = find_candidates(alloc, plan, context, text, lookup.priority)?;
    push_candidates(out, plan, lookup.priority, &candidates)?;
    Ok(())
}

/// The lines for a look-up in a dialplan.
fn match_lines(
    alloc: Global,
    lookup: &Lookup<'_>,
    all: bool,
    plan: &Dialplan,
) -> Result<Vec<u8>, NoMemory>
    ensures { IfOk result (λ lines. lines.items ≡ spec.match_lines (lookup_of lookup.now) all plan.now) }
{
    let mut lines = Vec::new(alloc);
    push_answer(alloc, &mut lines, lookup, plan)?;
    if all {
        push_all(alloc, &mut lines, lookup, plan)?;
    }
    Ok(lines)
}

/// The lines for a look-up in the dialplan of a text, or the text's fault.
#[tactic(auto, unfolding(crate::specs::JsonMatches::match_json_of))]
fn match_report(
    alloc: Global,
    lookup: &Lookup<'_>,
    all: bool,
    text: &[u8],
) -> Result<Vec<u8>, PbxFault>
    ensures lines { Answers (λ lines. lines.items) reason_of result (spec.match_json_of (lookup_of lookup.now) all text.now) }
    ensures quiet { is_write_failed result ≡ false }
{
    let read = read_plan(alloc, text)?;
    let lines = match_lines(alloc, lookup, all, &read.plan)?;
    Ok(lines)
}

/// Loads a dialplan and writes as JSON which entry answers and, if all are asked for, what decides about each extension that matches.
/// Otherwise it does what [`dp_commands::match_one`] and [`dp_commands::match_all`] do.
pub(crate) fn match_json<W: WriteTold>(
    alloc: Global,
    plan: &[u8],
    lookup: &Lookup<'_>,
    all: bool,
    output: &mut W,
) -> Result<u8, PbxFault>
    ensures reports { Reports (W.contents output.old) (W.contents output.new)
        (spec.match_json_of (lookup_of lookup.now) all plan.now) result }
    ensures told { W.has_failed output.new ≡ (W.has_failed output.old || is_write_failed result) }
{
    let lines = match_report(alloc, lookup, all, plan)?;
    output.write_told(&lines)?;
    Ok(0)
}
