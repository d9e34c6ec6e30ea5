//! The reports on a dialplan: how it loads, and which entry answers a call.
ghost use Rattle.std.specs.Prelude.{◌≡◌, ◌++◌, ◌||◌, IfOk, OnOk, length, map, false};
ghost use Rattle.std.specs.List.{flat_map};
ghost use Rattle.dp_conf.specs.Answers.{Answers};
ghost use Rattle.dp_conf.specs.Lines.{parts_of};
ghost use Rattle.dp_commands.specs.Faults.{is_write_failed, reason_of};
ghost use Rattle.dp_commands.specs.Report as spec;
ghost use Rattle.dp_commands.specs.Run.{plan_fault};
ghost use Rattle.dp_pattern.specs.Dashes.{without_dashes};
ghost use Rattle.dp_plan.specs.Loaded.{plan_and_notes};

use crate::block::Block;
use crate::explained_line::{FileLine, line_among, push_explanation};
use crate::fault::PbxFault;
use crate::trace::{push_entry, push_number};
use dp_conf::WriteTold;
use dp_lookup::{SearchOrder, find};
use dp_plan::{Context, Dialplan, EntryId, NoMemory, Note, Priority, Text};
use std::alloc::Global;

/// Adds the line of a note.
fn push_note(out: &mut Block, note: Note) -> Result<(), NoMemory>
    ensures { OnOk result (out.new.begun ≡ out.old.begun ++ spec.note_line note) }
{
    out.push(b"note ")?;
    push_number(out, note.line)?;
    out.push(b" ")?;
    out.push(note.kind.name().as_bytes())?;
    out.push(b"\n")
}

/// Adds the lines of the notes.
fn push_notes(out: &mut Block, notes: &[Note]) -> Result<(), NoMemory>
    ensures { OnOk result (out.new.begun ≡ out.old.begun ++ flat_map spec.note_line notes.now) }
{
    for note in notes {
        push_note(out, *note)?;
    }
    Ok(())
}

/// The total number of entries in the contexts. No list is longer than a `usize`, so 128 bits hold the sum.
fn count_entries(contexts: &[Context]) -> u128
    ensures { result ≡ spec.entries_in contexts.now }
{
    let mut count: u128 = 0;
    for context in contexts {
        count += context.entries().len() as u128;
    }
    count
}

/// Adds the line for a dialplan that was loaded.
fn push_counts(out: &mut Block, plan: &Dialplan) -> Result<(), NoMemory>
    ensures { OnOk result (out.new.begun ≡ out.old.begun ++ spec.counts_line plan.now) }
{
    out.push(b"ok ")?;
    push_number(out, plan.contexts().len())?;
    out.push(b" contexts ")?;
    push_number(out, count_entries(plan.contexts()))?;
    out.push(b" entries\n")
}

/// A dialplan that was read, and its notes. It is dropped in one function, so that the drop is proved once, and not on each way out of
/// everything that holds one.
pub struct PlanWithNotes {
    /// The dialplan.
    pub plan: Dialplan,
    notes: Vec<Note>,
}

impl Drop for PlanWithNotes {
    fn drop(self) {
        let PlanWithNotes { plan: _, notes: _ } = self;
    }
}

/// The dialplan that a text holds with its notes, or the text's fault. If memory runs out that is the error instead of a fault.
pub fn read_plan(alloc: Global, text: &[u8]) -> Result<PlanWithNotes, PbxFault>
    ensures read { Answers (λ read. (read.plan, read.notes.items)) reason_of result (plan_fault (plan_and_notes text.now)) }
    ensures quiet { is_write_failed result ≡ false }
{
    let (plan, notes) = Dialplan::load(alloc, text)?;
    Ok(PlanWithNotes { plan, notes })
}

/// Adds the report on a dialplan with its notes.
fn push_check(out: &mut Block, plan: &Dialplan, notes: &[Note]) -> Result<(), NoMemory>
    ensures { OnOk result (out.new.begun ≡ out.old.begun ++ spec.check_text (plan.now, notes.now)) }
{
    push_notes(out, notes)?;
    push_counts(out, plan)
}

/// The report on a dialplan with its notes.
fn check_text(alloc: Global, plan: &Dialplan, notes: &[Note]) -> Result<Block, NoMemory>
    ensures { IfOk result (λ text. text.begun ≡ spec.check_text (plan.now, notes.now)) }
{
    let mut text = Block::new(alloc, 0)?;
    push_check(&mut text, plan, notes)?;
    Ok(text)
}

/// The report on a dialplan's text, or the text's fault.
#[tactic(auto, unfolding(crate::specs::Report::check_of))]
fn check_report(alloc: Global, plan: &[u8]) -> Result<Block, PbxFault>
    ensures text { Answers (λ text. text.begun) reason_of result (spec.check_of plan.now) }
    ensures quiet { is_write_failed result ≡ false }
{
    let read = read_plan(alloc, plan)?;
    let text = check_text(alloc, &read.plan, &read.notes)?;
    Ok(text)
}

/// Loads a dialplan and writes how it loads: a line `note LINE KIND` for each note, in the order of the lines, and then `ok C contexts E
/// entries`. The status is 0. A context counts even if it has only its header, and an include is not an entry.
///
/// A faulty dialplan has its first fault, and nothing is written. Everything is written at once; if that write fails, what was written
/// stays written.
pub fn check<W: WriteTold>(alloc: Global, plan: &[u8], writer: &mut W) -> Result<u8, PbxFault>
    ensures writes { spec.Reports (W.contents writer.old) (W.contents writer.new) (spec.check_of plan.now) result }
    ensures told { W.has_failed writer.new ≡ (W.has_failed writer.old || is_write_failed result) }
{
    let text = check_report(alloc, plan)?;
    writer.write_told(text.bytes())?;
    Ok(0)
}

/// The lines of a text.
fn lines_of(alloc: Global, text: &[u8]) -> Result<Vec<&[u8]>, NoMemory>
    ensures { IfOk result (λ lines. map (λ line. line.now) lines.items ≡ parts_of text.now) }
{
    text.split(|byte| *byte == b'\n').collect(alloc)
}

/// Adds the line of a note followed by its explanation, given the lines of the text.
fn push_explained_note(
    out: &mut Block,
    path: &str,
    lines: &[&[u8]],
    note: Note,
) -> Result<(), NoMemory>
    ensures { OnOk result (out.new.begun ≡ out.old.begun ++ spec.explained_note path.now
        (map (λ line. line.now) lines.now) note) }
{
    push_note(out, note)?;
    let line = FileLine::new(path, note.line, line_among(lines, note.line));
    push_explanation(out, &line, note.kind)
}

/// Adds the lines of the notes, each followed by its explanation, given the lines of the text.
fn push_explained_notes(
    out: &mut Block,
    path: &str,
    lines: &[&[u8]],
    notes: &[Note],
) -> Result<(), NoMemory>
    ensures { OnOk result (out.new.begun
        ≡ out.old.begun ++ flat_map (spec.explained_note path.now (map (λ line. line.now) lines.now)) notes.now) }
{
    for note in notes {
        push_explained_note(out, path, lines, *note)?;
    }
    Ok(())
}

/// The report on a dialplan with its notes explained, given the lines of its text.
fn explained_text(
    alloc: Global,
    path: &str,
    lines: &[&[u8]],
    plan: &Dialplan,
    notes: &[Note],
) -> Result<Block, NoMemory>
    ensures { IfOk result (λ text. text.begun
        ≡ spec.explained_text path.now (map (λ line. line.now) lines.now) (plan.now, notes.now)) }
{
    let mut text = Block::new(alloc, 0)?;
    push_explained_notes(&mut text, path, lines, notes)?;
    push_counts(&mut text, plan)?;
    Ok(text)
}

/// The report on the text of a file with its notes explained, or the text's fault.
#[tactic(auto, unfolding(crate::specs::Report::check_explained_of))]
fn explain_report(alloc: Global, path: &str, plan: &[u8]) -> Result<Block, PbxFault>
    ensures text { Answers (λ text. text.begun) reason_of result (spec.check_explained_of path.now plan.now) }
    ensures quiet { is_write_failed result ≡ false }
{
    let read = read_plan(alloc, plan)?;
    let lines = lines_of(alloc, plan)?;
    let text = explained_text(alloc, path, &lines, &read.plan, &read.notes)?;
    Ok(text)
}

/// Does what [`check`] does, and writes an explanation below the line of each note: `PATH:LINE`, the line itself, and the sentence on such
/// a note, each indented on a line of its own. It shows at most 200 bytes of the line, and bytes that cannot be printed as `\xNN`.
pub fn check_explained<W: WriteTold>(
    alloc: Global,
    path: &str,
    plan: &[u8],
    writer: &mut W,
) -> Result<u8, PbxFault>
    ensures writes { spec.Reports (W.contents writer.old) (W.contents writer.new)
        (spec.check_explained_of path.now plan.now) result }
    ensures told { W.has_failed writer.new ≡ (W.has_failed writer.old || is_write_failed result) }
{
    let text = explain_report(alloc, path, plan)?;
    writer.write_told(text.bytes())?;
    Ok(0)
}

/// The text without its dashes.
pub(crate) fn without_dashes(alloc: Global, text: &[u8]) -> Result<Vec<u8>, NoMemory>
    ensures { IfOk result (λ digits. digits.items ≡ without_dashes text.now) }
{
    let digits = text
        .iter()
        .copied()
        .filter(|byte| *byte != b'-')
        .collect(alloc)?;
    Ok(digits)
}

/// The entry that answers a dialled text at a priority, searched from a context; None if none does (dialplan, pattern matching). Dashes make
/// no difference, so they are dropped first: otherwise each name that is tried would have to pass over them. It fails only if memory runs
/// out.
#[tactic(auto, using(crate::proofs::DashesLemmas::found_undashed))]
pub fn find_answer(
    alloc: Global,
    plan: &Dialplan,
    context: &[u8],
    text: &[u8],
    priority: Priority,
) -> Result<Option<EntryId>, NoMemory>
    ensures { IfOk result (λ found. found ≡ spec.answering plan.now context.now text.now priority) }
{
    let context = Text::copy_of(alloc, context)?;
    let order = SearchOrder::of(alloc, plan, &context)?;
    let digits = without_dashes(alloc, text)?;
    Ok(find(plan, &order, &digits, priority.get()))
}

/// Adds the line of the entry that was found.
pub(crate) fn push_match(
    out: &mut Block,
    plan: &Dialplan,
    found: Option<EntryId>,
) -> Result<(), NoMemory>
    ensures { OnOk result (out.new.begun ≡ out.old.begun ++ spec.match_line plan.now found) }
{
    match found {
        Some(id) => {
            push_entry(out, plan, id)?;
            out.push(b"\n")
        }
        None => out.push(b"none\n"),
    }
}

/// The line of the entry that was found.
fn match_line(alloc: Global, plan: &Dialplan, found: Option<EntryId>) -> Result<Block, NoMemory>
    ensures { IfOk result (λ line. line.begun ≡ spec.match_line plan.now found) }
{
    let mut line = Block::new(alloc, 0)?;
    push_match(&mut line, plan, found)?;
    Ok(line)
}

/// The line of the entry of a dialplan that answers a dialled text.
fn answer_line(
    alloc: Global,
    plan: &Dialplan,
    context: &[u8],
    text: &[u8],
    priority: Priority,
) -> Result<Block, NoMemory>
    ensures { IfOk result (λ line. line.begun
        ≡ spec.match_line plan.now (spec.answering plan.now context.now text.now priority)) }
{
    let found = find_answer(alloc, plan, context, text, priority)?;
    match_line(alloc, plan, found)
}

/// The line of the entry that answers a dialled text, or the fault of the dialplan's text.
#[tactic(auto, unfolding(crate::specs::Report::match_of))]
fn match_report(
    alloc: Global,
    plan: &[u8],
    context: &[u8],
    text: &[u8],
    priority: Priority,
) -> Result<Block, PbxFault>
    ensures line { Answers (λ line. line.begun) reason_of result
        (spec.match_of plan.now context.now text.now priority) }
    ensures quiet { is_write_failed result ≡ false }
{
    let read = read_plan(alloc, plan)?;
    let line = answer_line(alloc, &read.plan, context, text, priority)?;
    Ok(line)
}

/// Loads a dialplan and writes which of its entries answers the dialled text at the priority, if a call begins in the context:
/// `CONTEXT,NAME,PRIORITY APP` with the entry's own context and name, or `none`. The status is 0.
///
/// The context is searched first, and then what it includes. Of the names that match, the most specific one with the priority answers
/// (dialplan, pattern matching). A context that the dialplan lacks has no entries. A faulty dialplan has its first fault, and nothing is
/// written. If the write fails, what was written stays written.
pub fn match_one<W: WriteTold>(
    alloc: Global,
    plan: &[u8],
    context: &[u8],
    text: &[u8],
    priority: Priority,
    writer: &mut W,
) -> Result<u8, PbxFault>
    ensures writes { spec.Reports (W.contents writer.old) (W.contents writer.new)
        (spec.match_of plan.now context.now text.now priority) result }
    ensures told { W.has_failed writer.new ≡ (W.has_failed writer.old || is_write_failed result) }
{
    let line = match_report(alloc, plan, context, text, priority)?;
    writer.write_told(line.bytes())?;
    Ok(0)
}
