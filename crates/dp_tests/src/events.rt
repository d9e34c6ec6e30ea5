//! How the event lines of a test file are read.
ghost use Rattle.std.specs.Prelude.{◌≡◌, ◌++◌, IfOk, OnOk, codes, map};
ghost use Rattle.std.specs.List.{list_all};
ghost use Rattle.dp_machine.specs.Events as events;
ghost use Rattle.dp_tests.specs.Meanings as spec;

use crate::file::Turns;
use crate::items::Items;
use dp_commands::{ReadLine, ScriptLine, Turn, read_channel, words};
use dp_machine::Event;
use dp_plan::NoMemory;
use dp_wide_runs::{WideLines, WideTurn};
use std::alloc::Global;

/// The turns of these lines, if the line that gave them is valid.
fn sound_turns(is_sound: bool, lines: Vec<ScriptLine<WideTurn>>) -> Option<Turns>
    ensures { result ≡ spec.sound_turns is_sound lines.items }
{
    if is_sound {
        return Some(Items::of(lines));
    }
    None
}

/// The turns of a line of a script with facts, or None if it is faulty.
pub(crate) fn read_turns(alloc: Global, part: &[u8]) -> Result<Option<Turns>, NoMemory>
    ensures { IfOk result (λ turns. turns ≡ spec.turns_of part.now) }
{
    let reader = WideLines::beside(alloc, None)?;
    let mut lines = Vec::new(alloc);
    let is_sound = reader.read_line(alloc, part, &mut lines)?;
    Ok(sound_turns(is_sound, lines))
}

/// The text of the `start` line of a `call` line, given the text after `call`.
fn start_text(alloc: Global, rest: &[u8]) -> Result<Vec<u8>, NoMemory>
    ensures { IfOk result (λ text. text.items ≡ codes "start " ++ rest.now) }
{
    let mut text = Vec::from_slice(alloc, b"start ")?;
    text.extend_from_slice(rest)?;
    Ok(text)
}

/// `call CONTEXT EXTEN [CALLER]`, given the text after `call`.
pub(crate) fn read_call_turns(alloc: Global, rest: &[u8]) -> Result<Option<Turns>, NoMemory>
    ensures { IfOk result (λ turns. turns ≡ spec.call_turns rest.now) }
{
    let text = start_text(alloc, rest)?;
    read_turns(alloc, &text)
}

/// Whether a byte is a telephone digit.
fn is_digit(byte: u8) -> bool
    ensures { result ≡ events.is_digit byte }
{
    matches!(byte, b'0'..=b'9' | b'*' | b'#' | b'A'..=b'D')
}

/// Whether each byte is a telephone digit.
fn are_digits(word: &[u8]) -> bool
    ensures { result ≡ list_all events.is_digit word.now }
{
    word.iter().all(|byte| is_digit(*byte))
}

/// A line that dials a digit once.
fn dials(channel: u32, digit: u8) -> ScriptLine<WideTurn>
    ensures { result ≡ spec.dials channel digit }
{
    ScriptLine {
        turn: WideTurn::Plain(Turn::Event(Event::Digit { channel, digit })),
        count: 1,
    }
}

/// Adds a line for each digit at the end.
fn push_digits(turns: &mut Turns, channel: u32, digits: &[u8]) -> Result<(), NoMemory>
    ensures { OnOk result (turns.new ≡ turns.old ++ map (spec.dials channel) digits.now) }
{
    for digit in digits {
        turns.push(dials(channel, *digit))?;
    }
    Ok(())
}

/// The turns of a channel that dials the bytes of a word, or None if one of them is not a digit.
fn dialled_turns(alloc: Global, channel: u32, word: &[u8]) -> Result<Option<Turns>, NoMemory>
    ensures { IfOk result (λ turns. turns ≡ spec.dialled_turns channel word.now) }
{
    if !are_digits(word) {
        return Ok(None);
    }
    let mut turns = Items::none(alloc);
    push_digits(&mut turns, channel, word)?;
    Ok(Some(turns))
}

/// The turns of the channel that a word writes, which dials the bytes of another.
fn dial_turns_of(alloc: Global, channel: &[u8], digits: &[u8]) -> Result<Option<Turns>, NoMemory>
    ensures { IfOk result (λ turns. turns ≡ spec.dial_turns_of channel.now digits.now) }
{
    match read_channel(channel) {
        Some(channel) => dialled_turns(alloc, channel, digits),
        None => Ok(None),
    }
}

/// `dial CH DIGITS`, given the words after `dial`.
fn dial_turns_by(alloc: Global, words: &[&[u8]]) -> Result<Option<Turns>, NoMemory>
    ensures { IfOk result (λ turns. turns ≡ spec.dial_turns (map (λ word. word.now) words.now)) }
{
    match words {
        [channel, digits] => dial_turns_of(alloc, channel, digits),
        _ => Ok(None),
    }
}

/// `dial CH DIGITS`, given the text after `dial`.
pub(crate) fn read_dial_turns(alloc: Global, rest: &[u8]) -> Result<Option<Turns>, NoMemory>
    ensures { IfOk result (λ turns. turns ≡ spec.dial_turns (spec.words_of rest.now)) }
{
    let words = words(alloc, rest)?;
    dial_turns_by(alloc, &words)
}
