//! The hints beside an answer about a dialplan that has no entry, or that lacks the context that was named.
ghost use Rattle.std.specs.Prelude.{◌≡◌, ◌++◌, OnOk, IfOk, false};
ghost use Rattle.dp_conf.specs.Answers.{Answers};
ghost use Rattle.dp_commands.specs.Faults.{is_write_failed, reason_of};
ghost use Rattle.dp_plan.specs.Lookup.{number_of};
ghost use Rattle.dp_program.specs.Faulted.{without_place};
ghost use Rattle.dp_program.specs.Files.{has_read_failed};
ghost use Rattle.dp_program.specs.Hints as spec;
ghost use Rattle.dp_program.specs.Requests.{lookup_of};

use crate::fault_places::Faulted;
use crate::nearest::push_nearest;
use crate::request::Lookup;
use dp_commands::PbxFault;
use dp_plan::{Dialplan, NoMemory, Text};
use std::alloc::Global;

/// The result of a request that has no fault.
#[derive(Debug, Drop)]
pub struct ServedRequest {
    /// The status.
    pub status: u8,
    /// The hint beside the output; it may be empty.
    pub hint: Vec<u8>,
}

/// A result without a hint.
pub(crate) fn without_hint<'a>(
    alloc: Global,
    answered: Result<u8, Faulted<'a>>,
) -> Result<ServedRequest, Faulted<'a>>
    ensures same { spec.status_in result ≡ answered.entry }
    ensures nothing { spec.TellsNothing result }
    ensures told { is_write_failed (without_place result) ≡ is_write_failed (without_place answered.entry) }
    ensures heard { has_read_failed (without_place result) ≡ has_read_failed (without_place answered.entry) }
{
    match answered {
        Ok(status) => Ok(ServedRequest {
            status,
            hint: Vec::new(alloc),
        }),
        Err(faulted) => Err(faulted),
    }
}

/// Whether no context has an entry or an include.
pub(crate) fn is_bare(plan: &Dialplan) -> bool
    ensures { result ≡ spec.is_bare plan.now }
{
    plan.contexts().iter().all(|context| context.entries().len() == 0
        && context.includes().len() == 0)
}

/// What a dialplan lacks if no context has an entry or an include: contexts, or entries.
pub(crate) fn lacking(plan: &Dialplan) -> &'static [u8]
    ensures { result.now ≡ spec.lacking plan.now }
{
    if plan.contexts().len() == 0 {
        b"context"
    } else {
        b"entry"
    }
}

/// Adds the line that says that a file may not be a dialplan, given what the file lacks.
pub(crate) fn push_bare_line(hint: &mut Vec<u8>, file: &str, lack: &[u8]) -> Result<(), NoMemory>
    ensures { OnOk result (hint.new.items ≡ hint.old.items ++ spec.bare_line file.now lack.now) }
{
    hint.extend_from_slice(b"pbx: ")?;
    hint.extend_from_slice(file.as_bytes())?;
    hint.extend_from_slice(b" has no ")?;
    hint.extend_from_slice(lack)?;
    hint.extend_from_slice(b": is it a dialplan?\n")?;
    Ok(())
}

/// Adds the line that says that a file has no context with a name.
fn push_unknown_context(hint: &mut Vec<u8>, file: &str, name: &[u8]) -> Result<(), NoMemory>
    ensures { OnOk result (hint.new.items ≡ hint.old.items ++ spec.unknown_context file.now name.now) }
{
    hint.extend_from_slice(b"pbx: ")?;
    hint.extend_from_slice(file.as_bytes())?;
    hint.extend_from_slice(b" has no context `")?;
    hint.extend_from_slice(name)?;
    hint.extend_from_slice(b"`\n")?;
    Ok(())
}

/// Adds the lines of the nearest names, if they are asked for.
fn push_near_lines(
    alloc: Global,
    hint: &mut Vec<u8>,
    explains: bool,
    name: &[u8],
    plan: &Dialplan,
) -> Result<(), NoMemory>
    ensures { OnOk result (hint.new.items ≡ hint.old.items ++ spec.near_lines explains name.now plan.now) }
{
    if !explains {
        return Ok(());
    }
    push_nearest(alloc, hint, name, plan)
}

/// A dialplan with the path of its file, and whether to suggest names that are similar to one that it lacks.
#[derive(Clone, Copy)]
pub(crate) struct HintedPlan<'a> {
    pub(crate) file: &'a str,
    pub(crate) plan: &'a Dialplan,
    pub(crate) explains: bool,
}

/// Adds the hint on the name of a context.
pub(crate) fn push_told(
    alloc: Global,
    hint: &mut Vec<u8>,
    told: HintedPlan<'_>,
    name: &[u8],
) -> Result<(), NoMemory>
    ensures { OnOk result (hint.new.items ≡ hint.old.items ++ spec.name_told told.entry.file.now name.now told.entry.explains told.entry.plan.now
        (number_of told.entry.plan.now name.now)) }
{
    let context = Text::copy_of(alloc, name)?;
    match told.plan.number_of(&context) {
        Some(_) => Ok(()),
        None => {
            push_unknown_context(hint, told.file, name)?;
            push_near_lines(alloc, hint, told.explains, name, told.plan)
        }
    }
}

/// The hint on a dialplan that is audited.
fn audit_told(alloc: Global, file: &str, plan: &Dialplan) -> Result<Vec<u8>, NoMemory>
    ensures { IfOk result (λ hint. hint.items ≡ spec.audit_hint file.now plan.now) }
{
    let mut hint = Vec::new(alloc);
    if is_bare(plan) {
        push_bare_line(&mut hint, file, lacking(plan))?;
    }
    Ok(hint)
}

/// The hint on a dialplan in which an entry is looked up.
fn match_told(
    alloc: Global,
    lookup: &Lookup<'_>,
    explains: bool,
    plan: &Dialplan,
) -> Result<Vec<u8>, NoMemory>
    ensures { IfOk result (λ hint. hint.items ≡ spec.match_hint (lookup_of lookup.now) explains plan.now) }
{
    let mut hint = Vec::new(alloc);
    if is_bare(plan) {
        push_bare_line(&mut hint, lookup.file, lacking(plan))?;
    } else {
        let told = HintedPlan {
            file: lookup.file,
            plan,
            explains,
        };
        push_told(alloc, &mut hint, told, lookup.context.as_bytes())?;
    }
    Ok(hint)
}

/// The hint on the text of a dialplan that is audited, or the text's fault.
#[tactic(auto, unfolding(crate::specs::Hints::audit_hint_of))]
pub(crate) fn audit_hint(alloc: Global, file: &str, text: &[u8]) -> Result<Vec<u8>, PbxFault>
    ensures hint { Answers (λ hint. hint.items) reason_of result (spec.audit_hint_of file.now text.now) }
    ensures quiet { is_write_failed result ≡ false }
{
    let (plan, _) = Dialplan::load(alloc, text)?;
    let hint = audit_told(alloc, file, &plan)?;
    Ok(hint)
}

/// The hint on the text of a dialplan in which an entry is looked up, or the text's fault.
#[tactic(auto, unfolding(crate::specs::Hints::match_hint_of))]
pub(crate) fn match_hint(
    alloc: Global,
    lookup: &Lookup<'_>,
    explains: bool,
    text: &[u8],
) -> Result<Vec<u8>, PbxFault>
    ensures hint { Answers (λ hint. hint.items) reason_of result
        (spec.match_hint_of (lookup_of lookup.now) explains text.now) }
    ensures quiet { is_write_failed result ≡ false }
{
    let (plan, _) = Dialplan::load(alloc, text)?;
    let hint = match_told(alloc, lookup, explains, &plan)?;
    Ok(hint)
}
