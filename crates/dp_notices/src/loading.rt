//! Loads lines as a dialplan, and collects the notices of the loader.
ghost use Rattle.std.specs.Prelude.{◌≡◌, ◌++◌, ◌-◌, IfOk, IfSome, OnOk, Some, slice_get};
ghost use Rattle.std.specs.List.{flat_map};
ghost use Rattle.std.specs.Option.{option_map};
ghost use Rattle.dp_files.specs.DialplanText.{text_of};
ghost use Rattle.dp_notices.specs.Loading as spec;
ghost use Rattle.dp_notices.specs.MacroEnds.{ends_of, ends_of_text, faultless};
ghost use Rattle.dp_plan.specs.Loaded.{plan_and_notes};

use crate::line_notices::NoticeAt;
use crate::macro_ends::{AddedLine, macro_ends};
use crate::notice::{Notice, NoticeFault};
use dp_conf::{NoMemory, Text};
use dp_files::{Fault, LineText, MadeLine, text_of};
use dp_plan::{
    Context, Dialplan, LoadFault, LoadKind, LoadedPlan, Note, PlanKind, Word, plan_faults,
    show_faults_decide_loading,
};
use std::alloc::Global;

/// How many contexts a dialplan has, and how many entries they have together.
#[derive(Clone, Copy, Debug, PartialEq, Eq)]
pub struct PlanCounts {
    pub contexts: usize,
    pub entries: u128,
}

/// A notice, and the number of its line in the loaded text, counted from 1.
#[derive(Clone, Copy)]
pub(crate) struct NumberedNotice {
    pub(crate) line: usize,
    pub(crate) notice: Notice,
}

/// The result of loading lines.
#[derive(Drop)]
pub(crate) struct LoadedLines {
    /// The lines that load. A line with a fault is empty.
    pub(crate) lines: Vec<MadeLine>,
    /// The faults, and then the notes.
    pub(crate) notices: Vec<NoticeAt>,
    pub(crate) counts: PlanCounts,
}

/// Why a line of a context is left out. For an include with times, the reason is that no moment is given.
fn loader_fault(kind: PlanKind) -> NoticeFault
    ensures { result ≡ spec.loader_fault kind }
{
    match kind {
        PlanKind::LeftOut(Word::IncludeTimes) => NoticeFault::Reading(Fault::NoClock),
        kind => NoticeFault::Plan(kind),
    }
}

/// Why a line that the loader refuses is left out.
fn line_fault(kind: LoadKind) -> NoticeFault
    ensures { result ≡ spec.line_fault kind }
{
    match kind {
        LoadKind::Conf(kind) => NoticeFault::Reading(Fault::Line(kind)),
        LoadKind::Pattern(fault) => NoticeFault::Name(fault),
        LoadKind::Plan(kind) => loader_fault(kind),
    }
}

/// The notice of a fault, if the fault is at a line.
fn fault_notice(fault: LoadFault) -> Option<NumberedNotice>
    ensures { result ≡ spec.fault_notice fault }
{
    match fault {
        LoadFault::Line { line, kind } => Some(NumberedNotice {
            line,
            notice: Notice::Fault(line_fault(kind)),
        }),
        LoadFault::NoMemory => None,
    }
}

/// Adds the notice of a fault, if the fault is at a line.
fn push_fault(faults: &mut Vec<NumberedNotice>, fault: LoadFault) -> Result<(), NoMemory>
    ensures { OnOk result (faults.new.items ≡ faults.old.items ++ spec.fault_notices fault) }
{
    match fault_notice(fault) {
        Some(notice) => {
            faults.push(notice)?;
            Ok(())
        }
        None => Ok(()),
    }
}

/// The notices of faults.
fn notices_of_faults(alloc: Global, faults: &[LoadFault]) -> Result<Vec<NumberedNotice>, NoMemory>
    ensures { IfOk result (λ notices. notices.items ≡ flat_map spec.fault_notices faults.now) }
{
    let mut notices = Vec::new(alloc);
    for fault in faults {
        push_fault(&mut notices, *fault)?;
    }
    Ok(notices)
}

/// The notices of a fault of the text itself.
fn notices_of_text_fault(alloc: Global, fault: LoadFault) -> Result<Vec<NumberedNotice>, NoMemory>
    ensures { IfOk result (λ notices. notices.items ≡ spec.fault_notices fault) }
{
    let mut notices = Vec::new(alloc);
    push_fault(&mut notices, fault)?;
    Ok(notices)
}

/// The notices of the faults of a text: the faults of its lines, or the fault of the text itself.
pub(crate) fn faults_in_text(alloc: Global, text: &[u8]) -> Result<Vec<NumberedNotice>, NoMemory>
    ensures { IfOk result (λ notices. notices.items ≡ spec.faults_in_text text.now) }
{
    match plan_faults(alloc, text) {
        Ok(faults) => notices_of_faults(alloc, &faults),
        Err(LoadFault::NoMemory) => Err(NoMemory),
        Err(fault) => notices_of_text_fault(alloc, fault),
    }
}

/// The line with a number, counted from 1, if there is one.
pub(crate) fn line_of_number(lines: &[MadeLine], number: usize) -> Option<&MadeLine>
    ensures { option_map (λ line. line.now) result ≡ slice_get lines.now (number - 1) }
{
    lines.get(number.saturating_sub(1))
}

/// Adds a notice on a line of the text. It is put at the line of a file from which that line is made.
fn push_notice(
    notices: &mut Vec<NoticeAt>,
    lines: &[MadeLine],
    numbered: NumberedNotice,
) -> Result<(), NoMemory>
    ensures { OnOk result (notices.new.items ≡ notices.old.items ++ spec.notice_at_source lines.now numbered) }
{
    match line_of_number(lines, numbered.line) {
        Some(line) => {
            notices.push(NoticeAt {
                source: line.source,
                notice: numbered.notice,
            })?;
            Ok(())
        }
        None => Ok(()),
    }
}

/// Adds notices on lines of the text. Each is put at the line of a file from which its line is made.
pub(crate) fn push_notices(
    notices: &mut Vec<NoticeAt>,
    lines: &[MadeLine],
    numbered: &[NumberedNotice],
) -> Result<(), NoMemory>
    ensures { OnOk result (notices.new.items ≡ notices.old.items ++ flat_map (spec.notice_at_source lines.now) numbered.now) }
{
    for notice in numbered {
        push_notice(notices, lines, *notice)?;
    }
    Ok(())
}

/// Adds the notes of the loader.
fn push_notes(
    notices: &mut Vec<NoticeAt>,
    lines: &[MadeLine],
    notes: &[Note],
) -> Result<(), NoMemory>
    ensures { OnOk result (notices.new.items ≡ notices.old.items ++ flat_map (spec.note_at_source lines.now) notes.now) }
{
    for note in notes {
        let numbered = NumberedNotice {
            line: note.line,
            notice: Notice::Loaded(note.kind),
        };
        push_notice(notices, lines, numbered)?;
    }
    Ok(())
}

/// Empties the line at a place.
fn empty_line(alloc: Global, lines: &mut Vec<MadeLine>, place: usize) -> Result<(), NoMemory>
    ensures { OnOk result (lines.new.items ≡ spec.emptied_at place lines.old.items) }
{
    let empty = Text::copy_of(alloc, b"")?;
    if let Some(line) = lines.get_mut(place) {
        line.text = LineText::new(empty);
    }
    Ok(())
}

/// Empties the lines that have these faults.
pub(crate) fn empty_lines(
    alloc: Global,
    lines: &mut Vec<MadeLine>,
    faults: &[NumberedNotice],
) -> Result<(), NoMemory>
    ensures { OnOk result (lines.new.items ≡ spec.without_faulty faults.now lines.old.items) }
{
    for fault in faults {
        empty_line(alloc, lines, fault.line.saturating_sub(1))?;
    }
    Ok(())
}

/// Copies some lines.
fn copy_lines(alloc: Global, lines: &[MadeLine]) -> Result<Vec<MadeLine>, NoMemory>
    ensures { IfOk result (λ copies. copies.items ≡ lines.now) }
{
    let mut copies = Vec::new(alloc);
    for line in lines {
        let text = line.text.clone()?;
        copies.push(MadeLine {
            source: line.source,
            text,
        })?;
    }
    Ok(copies)
}

/// A copy of lines in which each line with a fault is empty, given their text.
pub(crate) fn copy_faultless(
    alloc: Global,
    lines: &[MadeLine],
    text: &[u8],
) -> Result<Vec<MadeLine>, NoMemory>
    requires { text.now ≡ text_of lines.now }
    ensures { IfOk result (λ copies. copies.items ≡ faultless lines.now) }
{
    let faults = faults_in_text(alloc, text)?;
    let mut copies = copy_lines(alloc, lines)?;
    empty_lines(alloc, &mut copies, &faults)?;
    Ok(copies)
}

/// How many entries the contexts have in total. The length of each list fits a `usize`, so the sum fits 128 bits.
fn count_entries(contexts: &[Context]) -> u128
    ensures { result ≡ spec.entries_in contexts.now }
{
    let mut count: u128 = 0;
    for context in contexts {
        count += context.entries().len() as u128;
    }
    count
}

/// The result of loading a text: its counts, its notes, and the lines that end its macros.
#[derive(Drop)]
pub(crate) struct Loading {
    pub(crate) counts: PlanCounts,
    pub(crate) notes: Vec<Note>,
    pub(crate) ends: Vec<AddedLine>,
}

/// The counts and the notes of a loaded dialplan, and the lines that end its macros.
fn loading_of(alloc: Global, loaded: LoadedPlan) -> Result<Loading, NoMemory>
    ensures loading { IfOk result (λ loading. spec.loading_now loading
        ≡ record { counts = spec.counts_of loaded.plan; notes = loaded.notes.items }) }
    ensures ends { IfOk result (λ loading. loading.ends.items ≡ ends_of loaded.plan loaded.lines) }
{
    let counts = PlanCounts {
        contexts: loaded.plan.contexts().len(),
        entries: count_entries(loaded.plan.contexts()),
    };
    let ends = macro_ends(alloc, &loaded)?;
    let LoadedPlan {
        plan: _,
        notes,
        lines: _,
    } = loaded;
    Ok(Loading {
        counts,
        notes,
        ends,
    })
}

/// Loads a text. The result is `None` if the text does not load.
#[tactic(auto, using(crate::proofs::LoadingLemmas::loading_loaded, crate::proofs::LoadingLemmas::ends_loaded))]
pub(crate) fn load_text(alloc: Global, text: &[u8]) -> Result<Option<Loading>, NoMemory>
    ensures loading { IfOk result (λ loading. option_map spec.loading_now loading ≡ spec.loading_in (plan_and_notes text.now)) }
    ensures ends { IfOk result (λ loading. IfSome loading (λ loading. loading.ends.items ≡ ends_of_text text.now)) }
{
    match Dialplan::load_with_lines(alloc, text) {
        Ok(loaded) => {
            let loading = loading_of(alloc, loaded)?;
            Ok(Some(loading))
        }
        Err(LoadFault::NoMemory) => Err(NoMemory),
        Err(_) => Ok(None),
    }
}

/// Loads lines without a fault, given the result of loading their text.
#[tactic(auto)]
pub(crate) fn load_faultless(
    alloc: Global,
    lines: Vec<MadeLine>,
    loading: &Loading,
) -> Result<LoadedLines, NoMemory>
    requires { Some (spec.loading_now loading.now) ≡ spec.loading_in (plan_and_notes (text_of lines.items)) }
    ensures { IfOk result (λ loaded. spec.loaded_now loaded ≡ spec.loaded_lines lines.items) }
{
    show_faults_decide_loading();
    let mut notices = Vec::new(alloc);
    push_notes(&mut notices, &lines, &loading.notes)?;
    Ok(LoadedLines {
        lines,
        notices,
        counts: loading.counts,
    })
}

/// Loads a text. The result is that of an empty dialplan if the text does not load.
#[tactic(auto, using(crate::proofs::LoadingLemmas::nothing_ended))]
pub(crate) fn load_or_nothing(alloc: Global, text: &[u8]) -> Result<Loading, NoMemory>
    ensures loading { IfOk result (λ loading. spec.loading_now loading ≡ spec.loading_of (plan_and_notes text.now)) }
    ensures ends { IfOk result (λ loading. loading.ends.items ≡ ends_of_text text.now) }
{
    match load_text(alloc, text)? {
        Some(loading) => Ok(loading),
        None => Ok(Loading {
            counts: PlanCounts {
                contexts: 0,
                entries: 0,
            },
            notes: Vec::new(alloc),
            ends: Vec::new(alloc),
        }),
    }
}

/// Loads lines of which some have a fault, given their text.
#[tactic(auto, unfolding(crate::specs::Loading::loaded_lines))]
fn load_faulty(
    alloc: Global,
    mut lines: Vec<MadeLine>,
    text: &[u8],
) -> Result<LoadedLines, NoMemory>
    requires { text.now ≡ text_of lines.items }
    ensures { IfOk result (λ loaded. spec.loaded_now loaded ≡ spec.loaded_lines lines.items) }
{
    let faults = faults_in_text(alloc, text)?;
    let mut notices = Vec::new(alloc);
    push_notices(&mut notices, &lines, &faults)?;
    empty_lines(alloc, &mut lines, &faults)?;
    let text = text_of(alloc, &lines)?;
    let loading = load_or_nothing(alloc, &text)?;
    push_notes(&mut notices, &lines, &loading.notes)?;
    Ok(LoadedLines {
        lines,
        notices,
        counts: loading.counts,
    })
}

/// Loads lines without those that have a fault. If no line has a fault, the text is read once.
pub(crate) fn load_lines(alloc: Global, lines: Vec<MadeLine>) -> Result<LoadedLines, NoMemory>
    ensures { IfOk result (λ loaded. spec.loaded_now loaded ≡ spec.loaded_lines lines.items) }
{
    let text = text_of(alloc, &lines)?;
    match load_text(alloc, &text)? {
        Some(loading) => load_faultless(alloc, lines, &loading),
        None => load_faulty(alloc, lines, &text),
    }
}
