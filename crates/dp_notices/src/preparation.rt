//! Prepares the lines of a dialplan for loading: expands names with groups, reads includes with times at a moment, and adds the ends of
//! macros.
ghost use Rattle.std.specs.Prelude.{◌≡◌, ◌++◌, List, [], Option, Some, None, false, IfOk};
ghost use Rattle.dp_files.specs.DialplanText.{text_of};
ghost use Rattle.dp_files.specs.declared.source_line.MadeLine.{MadeLine};
ghost use Rattle.dp_notices.specs.GroupNames as names;
ghost use Rattle.dp_notices.specs.Loading as loader;
ghost use Rattle.dp_notices.specs.MacroEnds as macros;
ghost use Rattle.dp_notices.specs.Preparation as spec;
ghost use Rattle.dp_notices.specs.TimedIncludes as times;
ghost use Rattle.dp_plan.specs.Loaded.{plan_and_notes};
ghost use Rattle.dp_wide.specs.declared.times.Moment.{Moment};

use crate::group_names::{NamedLines, expand_names};
use crate::line_notices::NoticeAt;
use crate::loading::{
    LoadedLines, Loading, copy_faultless, faults_in_text, load_faultless, load_lines,
    load_or_nothing, load_text,
};
use crate::macro_ends::{AddedLine, made_ends};
use crate::timed_includes::set_times_of;
use dp_conf::NoMemory;
use dp_files::{MadeLine, text_of};
use dp_plan::show_faults_decide_loading;
use dp_wide::Moment;
use std::alloc::Global;

/// Reads each include with times at a moment, if one is given.
#[tactic(auto, unfolding(crate::specs::TimedIncludes::with_times))]
fn set_times(
    alloc: Global,
    clock: Option<Moment>,
    mut lines: Vec<MadeLine>,
) -> Result<Vec<MadeLine>, NoMemory>
    ensures { IfOk result (λ timed. timed.items ≡ times.with_times clock lines.items) }
{
    let Some(moment) = clock else {
        return Ok(lines);
    };
    let text = text_of(alloc, &lines)?;
    let faults = faults_in_text(alloc, &text)?;
    set_times_of(alloc, &mut lines, moment, &faults)?;
    Ok(lines)
}

/// Adds the lines that end macros to lines of which some have a fault, given their text.
#[tactic(auto, unfolding(crate::specs::MacroEnds::with_ends))]
fn add_ends(alloc: Global, mut lines: Vec<MadeLine>, text: &[u8]) -> Result<Vec<MadeLine>, NoMemory>
    requires { text.now ≡ text_of lines.items }
    ensures { IfOk result (λ ended. ended.items ≡ macros.with_ends lines.items) }
{
    let faultless = copy_faultless(alloc, &lines, text)?;
    let text = text_of(alloc, &faultless)?;
    let Loading {
        counts: _,
        notes: _,
        ends,
    } = load_or_nothing(alloc, &text)?;
    let mut ends = made_ends(alloc, &faultless, ends)?;
    lines.append(&mut ends)?;
    Ok(lines)
}

/// Adds the lines that end macros to lines without a fault.
fn append_ends(
    alloc: Global,
    mut lines: Vec<MadeLine>,
    ends: Vec<AddedLine>,
) -> Result<Vec<MadeLine>, NoMemory>
    requires { macros.with_ends lines.items ≡ lines.items ++ macros.made_ends lines.items ends.items }
    ensures { IfOk result (λ ended. ended.items ≡ macros.with_ends lines.items) }
{
    let mut ends = made_ends(alloc, &lines, ends)?;
    lines.append(&mut ends)?;
    Ok(lines)
}

/// Loads lines without a fault and without a macro to end, given the result of loading their text.
fn load_without_ends(
    alloc: Global,
    lines: Vec<MadeLine>,
    loading: &Loading,
) -> Result<LoadedLines, NoMemory>
    requires loads { Some (loader.loading_now loading.now) ≡ loader.loading_in (plan_and_notes (text_of lines.items)) }
    requires ends { loading.now.ends.items ≡ macros.ends_of_text (text_of lines.items) }
    requires none { loading.now.ends.items ≡ [] }
    ensures { IfOk result (λ loaded. loader.loaded_now loaded ≡ loader.loaded_lines (macros.with_ends lines.items)) }
{
    show_faults_decide_loading();
    let loaded = load_faultless(alloc, lines, loading)?;
    Ok(loaded)
}

/// Loads lines without a fault together with the lines that end their macros, given the result of loading their text.
fn load_with_ends(
    alloc: Global,
    lines: Vec<MadeLine>,
    loading: Loading,
) -> Result<LoadedLines, NoMemory>
    requires loads { Some (loader.loading_now loading) ≡ loader.loading_in (plan_and_notes (text_of lines.items)) }
    requires ends { loading.ends.items ≡ macros.ends_of_text (text_of lines.items) }
    ensures { IfOk result (λ loaded. loader.loaded_now loaded ≡ loader.loaded_lines (macros.with_ends lines.items)) }
{
    show_faults_decide_loading();
    if loading.ends.is_empty() {
        return load_without_ends(alloc, lines, &loading);
    }
    let Loading {
        counts: _,
        notes: _,
        ends,
    } = loading;
    let lines = append_ends(alloc, lines, ends)?;
    load_lines(alloc, lines)
}

/// Loads lines together with the lines that end their macros. If no line has a fault and there is no macro, the text is read once.
fn load_ended(alloc: Global, lines: Vec<MadeLine>) -> Result<LoadedLines, NoMemory>
    ensures { IfOk result (λ loaded. loader.loaded_now loaded ≡ loader.loaded_lines (macros.with_ends lines.items)) }
{
    let text = text_of(alloc, &lines)?;
    match load_text(alloc, &text)? {
        Some(loading) => load_with_ends(alloc, lines, loading),
        None => {
            let lines = add_ends(alloc, lines, &text)?;
            load_lines(alloc, lines)
        }
    }
}

/// Puts notices before those of the loader.
fn with_notices(mut notices: Vec<NoticeAt>, loaded: LoadedLines) -> Result<LoadedLines, NoMemory>
    ensures { IfOk result (λ all. loader.loaded_now all ≡ spec.with_notices notices.items (loader.loaded_now loaded)) }
{
    let LoadedLines {
        lines,
        notices: mut more,
        counts,
    } = loaded;
    notices.append(&mut more)?;
    Ok(LoadedLines {
        lines,
        notices,
        counts,
    })
}

/// Prepares lines for a moment and loads them without those that have a fault.
pub(crate) fn load_prepared(
    alloc: Global,
    clock: Option<Moment>,
    lines: Vec<MadeLine>,
) -> Result<LoadedLines, NoMemory>
    ensures { IfOk result (λ loaded. loader.loaded_now loaded ≡ spec.prepared_plan clock lines.items) }
{
    let NamedLines { lines, notices } = expand_names(alloc, lines)?;
    let lines = set_times(alloc, clock, lines)?;
    let loaded = load_ended(alloc, lines)?;
    with_notices(notices, loaded)
}

/// States which lines are loaded as they are. If no name has a group, no name changes, and there are no notices on names. Without a moment,
/// or if no include has times, times change nothing. If no context is a macro, no line is added. The function does nothing.
pub fn show_plain_lines_stand()
    ensures names { (lines : List MadeLine) → names.any_grouped false lines ≡ false → names.named_lines lines ≡ lines }
    ensures unnoticed { (lines : List MadeLine) → names.any_grouped false lines ≡ false → names.name_notices lines ≡ [] }
    ensures times { (clock : Option Moment) (lines : List MadeLine) → spec.has_times lines ≡ false → times.with_times clock lines ≡ lines }
    ensures clock { (lines : List MadeLine) → times.with_times None lines ≡ lines }
    ensures macros { (lines : List MadeLine) → spec.has_macros lines ≡ false → macros.with_ends lines ≡ lines }
{}
