//! The lines of the section `[general]` for the loader.
ghost use Rattle.std.specs.Prelude.{◌≡◌, ◌++◌, ◌∷◌, ℕ, List, IfOk, OnOk, slice_get};
ghost use Rattle.dp_conf.specs.Cut as cuts;
ghost use Rattle.dp_files.specs.ContextLines.{line_at, section_lines};
ghost use Rattle.dp_files.specs.GeneralLines as spec;
ghost use Rattle.dp_files.specs.GeneralSteps as steps;

use crate::context_line::after_sign;
use crate::line_reading::LineResult;
use crate::line_text::LineText;
use crate::made_text::MadeText;
use crate::remark::{LineNote, RemarkKind};
use crate::source_line::SourceLine;
use dp_conf::{NoMemory, cut_once, same_word, trim};
use std::alloc::Global;

/// Whether Asterisk takes the value as true.
fn is_true_word(value: &[u8]) -> bool
    ensures { result ≡ spec.is_true_word value.now }
{
    same_word(value, b"yes")
        || same_word(value, b"true")
        || same_word(value, b"y")
        || same_word(value, b"t")
        || same_word(value, b"1")
        || same_word(value, b"on")
}

/// Whether the content of a line says that calls do not end when nothing is left to run.
fn turns_off(content: &[u8]) -> bool
    ensures { result ≡ spec.turns_off_by (cuts.cut_once 61 content.now) }
{
    let Some((key, value)) = cut_once(content, b'=') else {
        return false;
    };
    same_word(trim(key), b"autofallthrough") && !is_true_word(trim(after_sign(value)))
}

/// The result of a line.
#[tactic(auto, unfolding(crate::specs::GeneralLines::general_made))]
fn make_general(alloc: Global, line: &LineText) -> Result<LineResult, NoMemory>
    ensures { IfOk result (λ made. made ≡ spec.general_made line.now) }
{
    let content = line.content(alloc)?;
    if turns_off(content.bytes()) {
        return Ok(LineResult::remark(RemarkKind::Note(LineNote::AutoFallThrough)));
    }
    LineResult::standing(line)
}

/// Adds the result of a line.
fn read_line(
    alloc: Global,
    text: &mut MadeText,
    place: usize,
    line: &LineText,
) -> Result<(), NoMemory>
    ensures { OnOk result ((rest : List (ℕ × List ℕ)) → steps.results_with_rest text.new rest
        ≡ steps.results_with_rest text.old ((place, line.now) ∷ rest)) }
{
    let made = make_general(alloc, line)?;
    text.push(place, made)?;
    Ok(())
}

/// Adds the result of the line at a place, if there is one.
fn read_place(
    alloc: Global,
    text: &mut MadeText,
    lines: &[SourceLine],
    place: usize,
) -> Result<(), NoMemory>
    ensures { OnOk result ((rest : List (ℕ × List ℕ)) → steps.results_with_rest text.new rest
        ≡ steps.results_with_rest text.old (line_at place (slice_get lines.now place) ++ rest)) }
{
    match lines.get(place) {
        Some(line) => read_line(alloc, text, place, &line.text),
        None => Ok(()),
    }
}

/// The lines for the loader that are made from the lines of a section `[general]`, and the remarks on them.
///
/// It takes the lines of all files, and the places of the section's lines among them, in order; a place after the last line is skipped. All
/// lines are unchanged except `autofallthrough=no`, which is left out with a note: an exchange with it does not end a call when nothing is
/// left to run. After the Asterisk documentation's page on its configuration files, a value is true if it is `yes`, `true`, `y`, `t`, `1`
/// or `on` in any case, and any other means `no`. It fails only if memory runs out.
pub fn read_general(
    alloc: Global,
    lines: &[SourceLine],
    places: &[usize],
) -> Result<MadeText, NoMemory>
    ensures lines { IfOk result (λ text. text.lines.items ≡ spec.general_lines (section_lines lines.now places.now)) }
    ensures remarks { IfOk result (λ text. text.remarks.items ≡ spec.general_remarks (section_lines lines.now places.now)) }
{
    let mut text = MadeText::new(alloc);
    for place in places {
        read_place(alloc, &mut text, lines, *place)?;
    }
    Ok(text)
}
