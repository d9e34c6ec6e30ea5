//! The result of a line of a context, and what it leaves for the lines after it.
ghost use Rattle.std.specs.Prelude.{◌≡◌, ℕ, List, IfOk, IfSome, OnOk, None, Some};
ghost use Rattle.std.specs.Option.{option_map};
ghost use Rattle.dp_files.specs.ContextHistory.{LineHistoryOf as LinesBefore};
ghost use Rattle.dp_files.specs.ContextLines as spec;
ghost use Rattle.dp_files.specs.ContextSteps as steps;
ghost use Rattle.dp_files.specs.declared.extension.WrittenExtension.{WrittenExtension};
ghost use Rattle.dp_files.specs.declared.remark.RemarkKind.TheVariants.{Note as note_kind};

use crate::context_line::{ContextLine, EntryText, is_old_form, read_context_line};
use crate::entry_line::{EntryLine, NumberedLine};
use crate::extension::{WrittenExtension, has_caller, is_spelled};
use crate::history::{LineHistory, LineLeaves};
use crate::line_text::LineText;
use crate::outcome::{PriorityOutcome, outcome_of};
use crate::priority::{plain_number, read_priority};
use crate::remark::{Fault, LineNote, RemarkKind};
use dp_conf::{NoMemory, beside};
use std::alloc::Global;

/// The result of a line: a text, unless the line is left out, and a remark, if there is one.
#[derive(Drop)]
pub(crate) struct LineResult {
    pub(crate) text: Option<LineText>,
    pub(crate) remark: Option<RemarkKind>,
}

/// The result of a line, and what it leaves for those after it.
#[derive(Drop)]
pub(crate) struct LineReading<'a> {
    pub(crate) leaves: LineLeaves<'a>,
    pub(crate) made: LineResult,
}

impl LineResult {
    /// The line unchanged.
    pub(crate) fn standing(line: &LineText) -> Result<Self, NoMemory>
        ensures { IfOk result (λ made. made ≡ (spec.stands line.now).made) }
    {
        let text = line.clone()?;
        Ok(LineResult {
            text: Some(text),
            remark: None,
        })
    }

    /// Only a remark, without the line.
    pub(crate) fn remark(kind: RemarkKind) -> Self
        ensures { (result.text ≡ None) × (result.remark ≡ Some kind) }
    {
        LineResult {
            text: None,
            remark: Some(kind),
        }
    }
}

/// The note on a label that an earlier line has.
fn double_note(is_double: bool) -> Option<RemarkKind>
    ensures { result ≡ spec.double_note is_double }
{
    if is_double {
        Some(RemarkKind::Note(LineNote::DoubleLabel))
    } else {
        None
    }
}

/// The label, unless an earlier line of the extension has it.
fn kept_label<'a>(
    alloc: Global,
    history: &LineHistory<'_>,
    spelling: &[u8],
    label: Option<&'a [u8]>,
) -> Result<Option<&'a [u8]>, NoMemory>
    ensures { IfOk result (λ kept. option_map (λ label. label.now) kept
        ≡ spec.kept_label (steps.history_in history.now) spelling.now (option_map (λ label. label.now) label.entry)) }
{
    let Some(label) = label else {
        return Ok(None);
    };
    match history.number_of_label(alloc, spelling, label)? {
        Some(_) => Ok(None),
        None => Ok(Some(label)),
    }
}

/// What an entry leaves if it is left out because of its caller's number.
fn caller_leaves(outcome: PriorityOutcome, label: Option<&[u8]>) -> LineLeaves<'_>
    ensures { (extension : WrittenExtension) → steps.said_by extension result
        ≡ spec.caller_said extension (option_map (λ label. label.now) label.entry) outcome }
{
    match outcome {
        PriorityOutcome::Refused | PriorityOutcome::AfterTheHint => LineLeaves::Names,
        PriorityOutcome::Hinted => LineLeaves::Hints,
        PriorityOutcome::Numbered(number) => LineLeaves::Counts { number, label },
    }
}

/// The reading of a line with a number.
#[tactic(auto, unfolding(crate::specs::ContextLines::numbered_reading))]
fn numbered_reading<'a>(
    alloc: Global,
    line: &LineText,
    numbered: &NumberedLine<'a, '_>,
) -> Result<LineReading<'a>, NoMemory>
    ensures { IfOk result (λ reading.
        steps.reading_now numbered.now.entry.extension.now reading
        ≡ spec.numbered_reading numbered.now.is_after_hint line.now (steps.entry_now numbered.now.entry) numbered.now.number
        (option_map (λ label. label.now) numbered.now.label)) }
{
    if is_old_form(numbered.entry.application) {
        return Ok(LineReading {
            leaves: LineLeaves::Nothing,
            made: LineResult::remark(RemarkKind::Fault(Fault::OldForm)),
        });
    }
    let text = numbered.text(alloc, line)?;
    Ok(LineReading {
        leaves: LineLeaves::Counts {
            number: numbered.number,
            label: numbered.label,
        },
        made: LineResult {
            text: Some(text),
            remark: double_note(numbered.is_double()),
        },
    })
}

/// A line of an extension, left out.
fn left_out<'a>(leaves: LineLeaves<'a>, note: LineNote) -> LineReading<'a>
    ensures { (extension : WrittenExtension) → steps.reading_now extension result
        ≡ spec.left_out (steps.said_by extension leaves.entry) (note_kind note) }
{
    LineReading {
        leaves,
        made: LineResult::remark(RemarkKind::Note(note)),
    }
}

/// A line of an extension, unchanged.
fn standing(line: &LineText) -> Result<LineReading<'static>, NoMemory>
    ensures { IfOk result (λ reading. (extension : WrittenExtension) → steps.reading_now extension reading ≡ spec.stands line.now) }
{
    let made = LineResult::standing(line)?;
    Ok(LineReading {
        leaves: LineLeaves::Nothing,
        made,
    })
}

/// The line of an entry, with the label that it keeps, and whether a hint comes before it.
#[derive(Clone, Copy)]
struct KeptEntryLine<'a, 'e> {
    entry: EntryLine<'a, 'e>,
    label: Option<&'a [u8]>,
    is_after_hint: bool,
}

/// The reading of an entry whose extension has no caller's number.
fn plain_reading<'a>(
    alloc: Global,
    line: &LineText,
    kept: &KeptEntryLine<'a, '_>,
    outcome: PriorityOutcome,
) -> Result<LineReading<'a>, NoMemory>
    ensures { IfOk result (λ reading. steps.reading_now kept.now.entry.extension.now reading
        ≡ spec.plain_reading kept.now.is_after_hint line.now (steps.entry_now kept.now.entry)
        (option_map (λ label. label.now) kept.now.label) outcome) }
{
    match outcome {
        PriorityOutcome::Refused => standing(line),
        PriorityOutcome::Hinted => Ok(left_out(LineLeaves::Hints, LineNote::Hint)),
        PriorityOutcome::AfterTheHint => Ok(left_out(LineLeaves::Names, LineNote::AfterHint)),
        PriorityOutcome::Numbered(number) => {
            let numbered = NumberedLine {
                entry: kept.entry,
                number,
                label: kept.label,
                is_after_hint: kept.is_after_hint,
            };
            numbered_reading(alloc, line, &numbered)
        }
    }
}

/// The reading of an entry.
#[tactic(auto, unfolding(crate::specs::ContextLines::entry_reading))]
fn entry_reading<'a>(
    alloc: Global,
    history: &LineHistory<'_>,
    line: &LineText,
    entry: EntryLine<'a, '_>,
) -> Result<LineReading<'a>, NoMemory>
    ensures { IfOk result (λ reading. steps.reading_now entry.entry.extension.now reading
        ≡ spec.entry_reading (steps.history_in history.now) line.now (steps.entry_now entry.entry)) }
{
    let spelling = entry.extension.spelling.bytes();
    let label = kept_label(alloc, history, spelling, entry.label())?;
    let outcome = outcome_of(alloc, history, spelling, entry.priority)?;
    if has_caller(entry.extension.name.bytes()) {
        return Ok(left_out(caller_leaves(outcome, label), LineNote::CallerId));
    }
    let kept = KeptEntryLine {
        entry,
        label,
        is_after_hint: history.is_after_hint(),
    };
    plain_reading(alloc, line, &kept, outcome)
}

/// The line of an entry, given as its texts, whose extension may not be valid.
#[derive(Clone, Copy)]
struct EntrySource<'a> {
    line: &'a LineText,
    is_same: bool,
    text: EntryText<'a>,
}

/// Makes the line of an entry with the extension.
fn make_entry(
    alloc: Global,
    history: &mut LineHistory<'_>,
    extension: WrittenExtension,
    source: EntrySource<'_>,
) -> Result<LineResult, NoMemory>
    ensures made { IfOk result (λ made. made ≡ (steps.source_reading (steps.history_in history.old) (Some extension) source.entry).made) }
    ensures said { OnOk result (steps.history_in history.new ≡ steps.after (steps.history_in history.old)
        (steps.source_reading (steps.history_in history.old) (Some extension) source.entry).said) }
{
    let entry = EntryLine {
        is_same: source.is_same,
        extension: &extension,
        priority: read_priority(source.text.priority),
        application: source.text.application,
    };
    let LineReading { leaves, made } = entry_reading(alloc, history, source.line, entry)?;
    let (_, made) = beside(history.add(alloc, extension, leaves), made)?;
    Ok(made)
}

/// Makes the line of an entry, if its extension is valid.
fn make_known(
    alloc: Global,
    history: &mut LineHistory<'_>,
    extension: Option<WrittenExtension>,
    source: EntrySource<'_>,
) -> Result<LineResult, NoMemory>
    ensures made { IfOk result (λ made. made ≡ (steps.source_reading (steps.history_in history.old) extension source.entry).made) }
    ensures said { OnOk result (steps.history_in history.new ≡ steps.after (steps.history_in history.old)
        (steps.source_reading (steps.history_in history.old) extension source.entry).said) }
{
    match extension {
        None => LineResult::standing(source.line),
        Some(extension) => make_entry(alloc, history, extension, source),
    }
}

/// An entry whose line needs no change. The name of its extension is its own spelling.
#[derive(Clone, Copy)]
pub(crate) struct SpelledEntry<'a> {
    pub(crate) name: &'a [u8],
    pub(crate) number: u64,
}

/// The entry that a line says, if its name is its own spelling, its priority is a number alone, and its application is not of the old form.
#[inline(always)]
pub(crate) fn spelled_entry<'a>(said: &ContextLine<'a>) -> Option<SpelledEntry<'a>>
    ensures { IfSome result (λ entry. (history : LinesBefore) (line : List ℕ)
        → spec.line_by history line (steps.line_now said.now) ≡ steps.spelled_reading line entry) }
{
    let ContextLine::Exten { name, entry } = said else {
        return None;
    };
    if !is_spelled(name) || is_old_form(entry.application) {
        return None;
    }
    match plain_number(entry.priority) {
        Some(number) => Some(SpelledEntry { name, number }),
        None => None,
    }
}

/// Makes a line of a context that says this, and adds what it leaves for those after it.
pub(crate) fn make_said(
    alloc: Global,
    history: &mut LineHistory<'_>,
    line: &LineText,
    said: ContextLine<'_>,
) -> Result<LineResult, NoMemory>
    ensures made { IfOk result (λ made. made ≡ (spec.line_by (steps.history_in history.old) line.now (steps.line_now said.entry)).made) }
    ensures said { OnOk result (steps.history_in history.new ≡ steps.after (steps.history_in history.old)
        (spec.line_by (steps.history_in history.old) line.now (steps.line_now said.entry)).said) }
{
    match said {
        ContextLine::Exten { name, entry } => {
            let extension = WrittenExtension::read(alloc, name)?;
            let source = EntrySource {
                line,
                is_same: false,
                text: entry,
            };
            make_known(alloc, history, extension, source)
        }
        ContextLine::Same(entry) => {
            let extension = history.extension(alloc)?;
            let source = EntrySource {
                line,
                is_same: true,
                text: entry,
            };
            make_known(alloc, history, extension, source)
        }
        ContextLine::LeftOut(note) => Ok(LineResult::remark(RemarkKind::Note(note))),
        ContextLine::Other => LineResult::standing(line),
    }
}

/// Makes a line of a context, and adds what it leaves for those after it.
#[tactic(auto, unfolding(crate::specs::ContextLines::line_reading))]
pub(crate) fn make_line(
    alloc: Global,
    history: &mut LineHistory<'_>,
    line: &LineText,
) -> Result<LineResult, NoMemory>
    ensures made { IfOk result (λ made. made ≡ (spec.line_reading (steps.history_in history.old) line.now).made) }
    ensures said { OnOk result (steps.history_in history.new ≡ steps.after (steps.history_in history.old)
        (spec.line_reading (steps.history_in history.old) line.now).said) }
{
    let content = line.content(alloc)?;
    make_said(alloc, history, line, read_context_line(content.bytes()))
}
