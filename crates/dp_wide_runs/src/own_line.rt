//! The lines that no plain script has: those that state facts, and those that lead a channel on from outside.
ghost use Rattle.std.specs.Prelude.{◌≡◌, ◌++◌, IfOk, OnOk, map, position};
ghost use Rattle.std.specs.Option.{option_map};
ghost use Rattle.dp_conf.specs.Blanks as blanks;
ghost use Rattle.dp_commands.specs.Script as script;
ghost use Rattle.dp_wide_runs.specs.Lines as spec;

use crate::wide_turn::WideTurn;
use dp_commands::{ScriptLine, Turn, number_within, read_channel, words};
use dp_conf::{cut_once, is_blank, trim};
use dp_machine::{DialStatus, Event, Exten, Place};
use dp_plan::{MOST_PRIORITY, NoMemory, Text};
use dp_wide::{assumed_name, read_moment};
use std::alloc::Global;

/// The place of the first blank of a text.
fn blank_place(text: &[u8]) -> Option<usize>
    ensures { result ≡ position blanks.is_blank text.now }
{
    text.iter().position(|byte| is_blank(*byte))
}

/// The first word of a text that begins with a word, and the rest without blanks at its ends.
pub(crate) fn cut_word(text: &[u8]) -> (&[u8], &[u8])
    ensures word { result.0.now ≡ (spec.cut_word text.now).0 }
    ensures rest { result.1.now ≡ (spec.cut_word text.now).1 }
{
    match blank_place(text) {
        Some(place) => (&text[..place], trim(&text[place..])),
        None => (text, b""),
    }
}

/// The name and the value in `NAME=VALUE`, each without blanks at its ends, or None if the text has no such form.
fn setting_in(text: &[u8]) -> Option<(&[u8], &[u8])>
    ensures { option_map (λ setting. (setting.0.now, setting.1.now)) result ≡ spec.setting_in text.now }
{
    let (name, value) = match cut_once(text, b'=') {
        Some((name, value)) => (trim(name), trim(value)),
        None => return None,
    };
    if name.is_empty() {
        return None;
    }
    Some((name, value))
}

/// A line that gives an event once.
fn gives(event: Event) -> ScriptLine<WideTurn>
    ensures { result ≡ spec.gives event }
{
    ScriptLine {
        turn: WideTurn::Plain(Turn::Event(event)),
        count: 1,
    }
}

/// A line that sets a name of a channel, or the global.
fn assigns(
    alloc: Global,
    channel: Option<u32>,
    name: &[u8],
    value: &[u8],
) -> Result<ScriptLine<WideTurn>, NoMemory>
    ensures { IfOk result (λ line. line ≡ spec.assigns channel (name.now, value.now)) }
{
    let name = Text::copy_of(alloc, name)?;
    let value = Text::copy_of(alloc, value)?;
    Ok(gives(Event::Assign {
        channel,
        name,
        value,
    }))
}

/// A line that sets the name in `NAME=VALUE`, for a channel or as the global, or None if the text has no such form.
fn read_setting(
    alloc: Global,
    channel: Option<u32>,
    text: &[u8],
) -> Result<Option<ScriptLine<WideTurn>>, NoMemory>
    ensures { IfOk result (λ line. line ≡ option_map (spec.assigns channel) (spec.setting_in text.now)) }
{
    let Some((name, value)) = setting_in(text) else {
        return Ok(None);
    };
    let line = assigns(alloc, channel, name, value)?;
    Ok(Some(line))
}

/// `let CH NAME=VALUE`, given the text after `let`.
fn read_let(alloc: Global, text: &[u8]) -> Result<Option<ScriptLine<WideTurn>>, NoMemory>
    ensures { IfOk result (λ line. line ≡ spec.let_line text.now) }
{
    let (word, rest) = cut_word(text);
    let Some(channel) = read_channel(word) else {
        return Ok(None);
    };
    read_setting(alloc, Some(channel), rest)
}

/// `clock WEEKDAY YYYY-MM-DD HH:MM`, given the text after `clock`: it becomes the value of the global `CLOCK`.
fn read_clock(alloc: Global, text: &[u8]) -> Result<Option<ScriptLine<WideTurn>>, NoMemory>
    ensures { IfOk result (λ line. line ≡ spec.clock_line text.now) }
{
    if read_moment(text).is_none() {
        return Ok(None);
    }
    let line = assigns(alloc, None, b"CLOCK", text)?;
    Ok(Some(line))
}

/// The channel that the words name, if there is just one word.
fn one_channel(words: &[&[u8]]) -> Option<u32>
    ensures { result ≡ script.one_channel (map (λ word. word.now) words.now) }
{
    match words {
        [channel] => read_channel(channel),
        _ => None,
    }
}

/// `go CH`, given the words after `go`: what the channel waits for comes to its end.
fn read_go(words: &[&[u8]]) -> Option<ScriptLine<WideTurn>>
    ensures { result ≡ spec.go_line (map (λ word. word.now) words.now) }
{
    let channel = one_channel(words)?;
    Some(gives(Event::Timeout { channel }))
}

/// `pass CH`, given the words after `pass`.
fn read_pass(words: &[&[u8]]) -> Option<ScriptLine<WideTurn>>
    ensures { result ≡ spec.pass_line (map (λ word. word.now) words.now) }
{
    let channel = one_channel(words)?;
    Some(ScriptLine {
        turn: WideTurn::Pass { channel },
        count: 1,
    })
}

/// The priority that a word writes: a number from 1 to 2,147,483,647.
#[tactic(auto, unfolding(crate::specs::Lines::priority_in))]
fn read_priority(word: &[u8]) -> Option<u32>
    ensures { result ≡ spec.priority_in word.now }
{
    let number = number_within(MOST_PRIORITY, word)?;
    if number == 0 {
        return None;
    }
    Some(number)
}

/// A line that sends a channel to a place, or None if the channel or the priority is invalid.
fn redirects(
    alloc: Global,
    channel: &[u8],
    context: &[u8],
    exten: &[u8],
    priority: Option<u32>,
) -> Result<Option<ScriptLine<WideTurn>>, NoMemory>
    ensures { IfOk result (λ line. line ≡ spec.redirects channel.now context.now exten.now priority) }
{
    let Some(channel) = read_channel(channel) else {
        return Ok(None);
    };
    let Some(priority) = priority else {
        return Ok(None);
    };
    let context = Text::copy_of(alloc, context)?;
    let exten = Exten::new(Text::copy_of(alloc, exten)?);
    let place = Place {
        context,
        exten,
        priority,
    };
    Ok(Some(gives(Event::Redirect { channel, place })))
}

/// `redirect CH CONTEXT EXTEN [PRIORITY]`, given the words after `redirect`; without a priority it is 1.
fn read_redirect(alloc: Global, words: &[&[u8]]) -> Result<Option<ScriptLine<WideTurn>>, NoMemory>
    ensures { IfOk result (λ line. line ≡ spec.redirect_line (map (λ word. word.now) words.now)) }
{
    match words {
        [channel, context, exten] => redirects(alloc, channel, context, exten, Some(1)),
        [channel, context, exten, priority] => {
            redirects(alloc, channel, context, exten, read_priority(priority))
        }
        _ => Ok(None),
    }
}

/// The result of a call to devices that a word names in no plain script.
fn further_status(word: &[u8]) -> Option<DialStatus>
    ensures { result ≡ spec.further_status_in word.now }
{
    if word == DialStatus::DontCall.name() {
        return Some(DialStatus::DontCall);
    }
    if word == DialStatus::Torture.name() {
        return Some(DialStatus::Torture);
    }
    if word == DialStatus::InvalidArgs.name() {
        return Some(DialStatus::InvalidArgs);
    }
    None
}

/// `result CH STATUS` with a result that no plain script has, given the words after `result`.
fn further_result(words: &[&[u8]]) -> Option<ScriptLine<WideTurn>>
    ensures { result ≡ spec.further_result (map (λ word. word.now) words.now) }
{
    let (channel, status) = match words {
        [channel, status] => (read_channel(channel)?, further_status(status)?),
        _ => return None,
    };
    Some(gives(Event::DialResult { channel, status }))
}

/// The meaning of a line that is faulty in a plain script, given its first word and the text after it; or None if it is faulty here too.
pub(crate) fn read_further(
    alloc: Global,
    word: &[u8],
    text: &[u8],
) -> Result<Option<ScriptLine<WideTurn>>, NoMemory>
    ensures { IfOk result (λ line. line ≡ spec.further_line word.now text.now) }
{
    if word != b"result".as_slice() {
        return Ok(None);
    }
    let words = words(alloc, text)?;
    Ok(further_result(&words))
}

/// Whether a line with this first word belongs to no plain script.
pub(crate) fn is_own(word: &[u8]) -> bool
    ensures { result ≡ spec.is_own word.now }
{
    word == b"let".as_slice()
        || word == b"global".as_slice()
        || word == b"clock".as_slice()
        || word == b"go".as_slice()
        || word == b"redirect".as_slice()
        || word == b"pass".as_slice()
        || word == b"assume".as_slice()
}

/// A line that says of a function that its unwritten cells are empty.
fn assumes(alloc: Global, function: &[u8]) -> Result<ScriptLine<WideTurn>, NoMemory>
    ensures { IfOk result (λ line. line ≡ spec.assumes function.now) }
{
    let name = assumed_name(alloc, function)?;
    assigns(alloc, None, &name, b"1")
}

/// Adds such a line for each of these functions.
pub(crate) fn push_assumes(
    alloc: Global,
    functions: &[&[u8]],
    lines: &mut Vec<ScriptLine<WideTurn>>,
) -> Result<(), NoMemory>
    ensures { OnOk result (lines.new.items ≡ lines.old.items ++ map spec.assumes (map (λ function. function.now) functions.now)) }
{
    for function in functions {
        lines.push(assumes(alloc, function)?)?;
    }
    Ok(())
}

/// The meaning of a line with one of these first words, unless it is `assume`, given the text after the word; or None if the line is
/// faulty.
pub(crate) fn read_own(
    alloc: Global,
    word: &[u8],
    text: &[u8],
) -> Result<Option<ScriptLine<WideTurn>>, NoMemory>
    ensures { IfOk result (λ line. line ≡ spec.own_line word.now text.now) }
{
    if word == b"let".as_slice() {
        return read_let(alloc, text);
    }
    if word == b"global".as_slice() {
        return read_setting(alloc, None, text);
    }
    if word == b"clock".as_slice() {
        return read_clock(alloc, text);
    }
    let words = words(alloc, text)?;
    if word == b"go".as_slice() {
        return Ok(read_go(&words));
    }
    if word == b"redirect".as_slice() {
        return read_redirect(alloc, &words);
    }
    Ok(read_pass(&words))
}
