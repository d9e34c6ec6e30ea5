//! How the lines of a script with facts are read.
ghost use Rattle.std.specs.Prelude.{◌≡◌, ◌++◌, [], IfOk, OnOk, is_some};
ghost use Rattle.std.specs.List.{flat_map};
ghost use Rattle.std.specs.Option.{option_map, option_to_list, unwrap_or};
ghost use Rattle.dp_commands.specs.Script.{line_in, words_of};
ghost use Rattle.dp_wide_runs.specs.Lines as spec;

use crate::own_line::{cut_word, is_own, push_assumes, read_further, read_own};
use crate::wide_turn::WideTurn;
use dp_commands::{PlainLines, ReadLine, ScriptLine, Turn, words};
use dp_conf::trim;
use dp_machine::Event;
use dp_plan::NoMemory;
use std::alloc::Global;
use std::marker::Model;

/// The channel that a turn steps.
pub(crate) fn stepped_by(turn: &Turn) -> Option<u32>
    ensures { result ≡ spec.stepped_by turn.now }
{
    match turn {
        Turn::Event(Event::Step { channel }) => Some(*channel),
        _ => None,
    }
}

/// Adds a line of a plain script at the end. Its steps after the first are further steps.
fn push_wide(lines: &mut Vec<ScriptLine<WideTurn>>, line: ScriptLine) -> Result<(), NoMemory>
    ensures { OnOk result (lines.new.items ≡ lines.old.items ++ spec.wide_lines_of line) }
{
    let ScriptLine { turn, count } = line;
    let Some(channel) = stepped_by(&turn) else {
        lines.push(ScriptLine {
            turn: WideTurn::Plain(turn),
            count,
        })?;
        return Ok(());
    };
    lines.push(ScriptLine {
        turn: WideTurn::Plain(turn),
        count: count.min(1),
    })?;
    lines.push(ScriptLine {
        turn: WideTurn::Further { channel },
        count: count.saturating_sub(1),
    })?;
    Ok(())
}

/// Adds the lines of a plain script at the end.
fn push_all_wide(
    lines: &mut Vec<ScriptLine<WideTurn>>,
    plain: Vec<ScriptLine>,
) -> Result<(), NoMemory>
    ensures { OnOk result (lines.new.items ≡ lines.old.items ++ flat_map spec.wide_lines_of plain.items) }
{
    for line in plain {
        push_wide(lines, line)?;
    }
    Ok(())
}

/// Adds the meaning of a line of a plain script at the end, and says whether the line is valid.
fn push_plain(
    alloc: Global,
    reader: &PlainLines,
    part: &[u8],
    lines: &mut Vec<ScriptLine<WideTurn>>,
) -> Result<bool, NoMemory>
    ensures sound { IfOk result (λ is_sound. is_sound ≡ is_some (line_in reader.now part.now)) }
    ensures lines { OnOk result (lines.new.items
        ≡ lines.old.items ++ unwrap_or (option_map (λ plain. flat_map spec.wide_lines_of plain) (line_in reader.now part.now)) []) }
{
    let mut plain = Vec::new(alloc);
    let is_sound = reader.read_line(alloc, part, &mut plain)?;
    push_all_wide(lines, plain)?;
    Ok(is_sound)
}

/// Adds the line at the end if it is valid, and says whether it is.
fn push_sound(
    lines: &mut Vec<ScriptLine<WideTurn>>,
    line: Option<ScriptLine<WideTurn>>,
) -> Result<bool, NoMemory>
    ensures sound { IfOk result (λ is_sound. is_sound ≡ is_some line) }
    ensures lines { OnOk result (lines.new.items ≡ lines.old.items ++ option_to_list line) }
{
    match line {
        Some(line) => {
            lines.push(line)?;
            Ok(true)
        }
        None => Ok(false),
    }
}

/// Adds the meaning of an `assume` line at the end, given the text after `assume`, and says whether the line is valid.
#[tactic(auto, using(crate::proofs::LinesLemmas::all_assumed))]
fn push_assumed(
    alloc: Global,
    text: &[u8],
    lines: &mut Vec<ScriptLine<WideTurn>>,
) -> Result<bool, NoMemory>
    ensures sound { IfOk result (λ is_sound. is_sound ≡ is_some (spec.assume_lines (words_of text.now))) }
    ensures lines { OnOk result (lines.new.items ≡ lines.old.items ++ unwrap_or (spec.assume_lines (words_of text.now)) []) }
{
    let functions = words(alloc, text)?;
    push_assumes(alloc, &functions, lines)?;
    Ok(!functions.is_empty())
}

/// Adds the meaning of a line that no plain script has at the end, and says whether the line is valid.
fn push_own(
    alloc: Global,
    word: &[u8],
    text: &[u8],
    lines: &mut Vec<ScriptLine<WideTurn>>,
) -> Result<bool, NoMemory>
    ensures sound { IfOk result (λ is_sound. is_sound ≡ is_some (spec.own_lines word.now text.now)) }
    ensures lines { OnOk result (lines.new.items ≡ lines.old.items ++ unwrap_or (spec.own_lines word.now text.now) []) }
{
    if word == b"assume".as_slice() {
        return push_assumed(alloc, text, lines);
    }
    let line = read_own(alloc, word, text)?;
    push_sound(lines, line)
}

/// Adds the meaning of a line that a plain script may have at the end, and says whether the line is valid.
#[tactic(auto, using(crate::proofs::LinesLemmas::plain_sound, crate::proofs::LinesLemmas::plain_lines, crate::proofs::LinesLemmas::further_sound, crate::proofs::LinesLemmas::further_lines))]
fn push_shared(
    alloc: Global,
    reader: &PlainLines,
    part: &[u8],
    cut: (&[u8], &[u8]),
    lines: &mut Vec<ScriptLine<WideTurn>>,
) -> Result<bool, NoMemory>
    ensures sound { IfOk result (λ is_sound. is_sound
        ≡ is_some (spec.plain_or (line_in reader.now part.now) (spec.further_line cut.entry.0.now cut.entry.1.now))) }
    ensures lines { OnOk result (lines.new.items ≡ lines.old.items
        ++ unwrap_or (spec.plain_or (line_in reader.now part.now) (spec.further_line cut.entry.0.now cut.entry.1.now)) []) }
{
    if push_plain(alloc, reader, part, lines)? {
        return Ok(true);
    }
    let (word, rest) = cut;
    let further = read_further(alloc, word, rest)?;
    push_sound(lines, further)
}

/// How the lines of a script with facts are read, with an optional second dialplan. Contracts see it as the text of that dialplan.
#[derive(Drop)]
pub struct WideLines {
    plain: PlainLines,
}

impl Model for WideLines {
    ghost use Rattle.std.specs.Prelude.{ℕ, List, Option};

    ghost Value = { Option (List ℕ) };

    ghost view = { λ lines. lines.plain };
}

impl WideLines {
    /// How lines are read with the second dialplan of this text. It fails only if memory runs out.
    pub fn beside(alloc: Global, second_plan: Option<&[u8]>) -> Result<Self, NoMemory>
        ensures { IfOk result (λ lines. lines ≡ option_map (λ text. text.now) second_plan.entry) }
    {
        let plain = PlainLines::beside(alloc, second_plan)?;
        Ok(WideLines { plain })
    }
}

impl ReadLine for WideLines {
    ghost use Rattle.dp_wide_runs.specs.Lines.{stands_for};

    type Turn = WideTurn;

    ghost stands_for = { stands_for };

    #[tactic(auto, unfolding(crate::specs::Lines::stands_for))]
    fn read_line(
        &self,
        alloc: Global,
        part: &[u8],
        lines: &mut Vec<ScriptLine<WideTurn>>,
    ) -> Result<bool, NoMemory> {
        let (word, rest) = cut_word(trim(part));
        if is_own(word) {
            return push_own(alloc, word, rest, lines);
        }
        push_shared(alloc, &self.plain, part, (word, rest), lines)
    }
}
