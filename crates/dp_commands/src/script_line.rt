//! The words of a line of a script.
ghost use Rattle.std.specs.Prelude.{◌≡◌, [], IfOk, Some, map};
ghost use Rattle.std.specs.Option.{option_map};
ghost use Rattle.dp_commands.specs.Script as spec;
ghost use Rattle.dp_commands.specs.declared.script.Turn.TheVariants as turns;

use crate::script::{ScriptLine, Turn};
use dp_conf::{is_blank, read_number};
use dp_machine::{DialStatus, Event};
use dp_plan::{NoMemory, SharedText, Text};
use std::alloc::Global;

/// The greatest number of times that a line can repeat its turn.
const MOST_COUNT: u32 = 100_000;

/// The words of a line, which blanks separate. It fails only if memory runs out.
pub fn words<'a>(alloc: Global, line: &'a [u8]) -> Result<Vec<&'a [u8]>, NoMemory>
    ensures { IfOk result (λ words. map (λ word. word.now) words.items ≡ spec.words_of line.now) }
{
    line.split(|byte| is_blank(*byte))
        .filter(|word| !word.is_empty())
        .collect(alloc)
}

/// A number up to the limit.
pub fn number_within(limit: u32, word: &[u8]) -> Option<u32>
    ensures { result ≡ spec.number_within limit word.now }
{
    let number = read_number(word)?;
    if number > u64::from(limit) {
        return None;
    }
    Some(number as u32)
}

/// The channel number that a word writes.
pub fn read_channel(word: &[u8]) -> Option<u32>
    ensures { result ≡ spec.channel_in word.now }
{
    number_within(u32::MAX, word)
}

/// `start CONTEXT EXTEN [CALLER]`, given the words after `start`: a phone call comes in. The caller is empty by default.
fn read_start(alloc: Global, words: &[&[u8]]) -> Result<Option<ScriptLine>, NoMemory>
    ensures { IfOk result (λ line. line ≡ spec.start_line (map (λ word. word.now) words.now)) }
{
    let (context, exten, caller) = match words {
        [context, exten] => (*context, *exten, b"".as_slice()),
        [context, exten, caller] => (*context, *exten, *caller),
        _ => return Ok(None),
    };
    let context = Text::copy_of(alloc, context)?;
    let exten = Text::copy_of(alloc, exten)?;
    let caller = Text::copy_of(alloc, caller)?;
    let turn = Turn::Event(Event::Start {
        context,
        exten,
        caller,
    });
    Ok(Some(ScriptLine { turn, count: 1 }))
}

/// `step CH [COUNT]`, given the words after `step`: the channel takes a number of steps, 1 by default.
fn read_step(words: &[&[u8]]) -> Option<ScriptLine>
    ensures { result ≡ spec.step_line (map (λ word. word.now) words.now) }
{
    let (channel, count) = match words {
        [channel] => (read_channel(channel)?, 1),
        [channel, count] => (read_channel(channel)?, number_within(MOST_COUNT, count)?),
        _ => return None,
    };
    let turn = Turn::Event(Event::Step { channel });
    Some(ScriptLine { turn, count })
}

/// `digit CH D`, given the words after `digit`: the caller dials the byte D.
fn read_digit(words: &[&[u8]]) -> Option<ScriptLine>
    ensures { result ≡ spec.digit_line (map (λ word. word.now) words.now) }
{
    match words {
        [channel, digit] => digit_line(read_channel(channel)?, digit),
        _ => None,
    }
}

/// The digit that a channel dials: a word of one byte.
fn digit_line(channel: u32, word: &[u8]) -> Option<ScriptLine>
    ensures { result ≡ spec.dialled_by (Some channel) word.now }
{
    match word {
        [digit] => Some(once(Event::Digit {
            channel,
            digit: *digit,
        })),
        _ => None,
    }
}

/// The result of a call to devices that a word names: one of five, each in capitals.
fn read_status(word: &[u8]) -> Option<DialStatus>
    ensures { result ≡ spec.status_in word.now }
{
    if word == DialStatus::Answer.name() {
        return Some(DialStatus::Answer);
    }
    if word == DialStatus::Busy.name() {
        return Some(DialStatus::Busy);
    }
    if word == DialStatus::NoAnswer.name() {
        return Some(DialStatus::NoAnswer);
    }
    if word == DialStatus::Congestion.name() {
        return Some(DialStatus::Congestion);
    }
    if word == DialStatus::ChanUnavail.name() {
        return Some(DialStatus::ChanUnavail);
    }
    None
}

/// `result CH STATUS`, given the words after `result`: the call to devices for which the channel waits had this result.
fn read_result(words: &[&[u8]]) -> Option<ScriptLine>
    ensures { result ≡ spec.result_line (map (λ word. word.now) words.now) }
{
    let (channel, status) = match words {
        [channel, status] => (read_channel(channel)?, read_status(status)?),
        _ => return None,
    };
    Some(once(Event::DialResult { channel, status }))
}

/// A line that gives the event once.
fn once(event: Event) -> ScriptLine
    ensures { result ≡ spec.once (turns.Event event) }
{
    ScriptLine {
        turn: Turn::Event(event),
        count: 1,
    }
}

/// The channel that the words name, if there is just one word.
fn one_channel(words: &[&[u8]]) -> Option<u32>
    ensures { result ≡ spec.one_channel (map (λ word. word.now) words.now) }
{
    match words {
        [channel] => read_channel(channel),
        _ => None,
    }
}

/// A copy of the name that the words give, if there is just one word.
fn one_name(alloc: Global, words: &[&[u8]]) -> Result<Option<Text>, NoMemory>
    ensures { IfOk result (λ name. name ≡ spec.one_name (map (λ word. word.now) words.now)) }
{
    match words {
        [name] => {
            let name = Text::copy_of(alloc, name)?;
            Ok(Some(name))
        }
        _ => Ok(None),
    }
}

/// `timeout CH`, `poll CH` or `hangup CH`, given the first word and the words after it.
fn read_channel_line(word: &[u8], words: &[&[u8]]) -> Option<ScriptLine>
    ensures { result ≡ spec.channel_line word.now (map (λ word. word.now) words.now) }
{
    if word == b"timeout".as_slice() {
        let channel = one_channel(words)?;
        return Some(once(Event::Timeout { channel }));
    }
    if word == b"poll".as_slice() {
        let channel = one_channel(words)?;
        return Some(once(Event::Poll { channel }));
    }
    if word == b"hangup".as_slice() {
        let channel = one_channel(words)?;
        return Some(once(Event::Hangup { channel }));
    }
    None
}

/// `offer QUEUE`, `answer AGENT`, `decline AGENT` or `done AGENT`, given the first word and the words after it.
fn read_agent_line(
    alloc: Global,
    word: &[u8],
    words: &[&[u8]],
) -> Result<Option<ScriptLine>, NoMemory>
    ensures { IfOk result (λ line. line ≡ spec.agent_line word.now (map (λ word. word.now) words.now)) }
{
    if word == b"offer".as_slice() {
        let queue = one_name(alloc, words)?;
        return Ok(queue.map(|queue| once(Event::Offer { queue })));
    }
    if word == b"answer".as_slice() {
        let agent = one_name(alloc, words)?;
        return Ok(agent.map(|agent| once(Event::Answer { agent })));
    }
    if word == b"decline".as_slice() {
        let agent = one_name(alloc, words)?;
        return Ok(agent.map(|agent| once(Event::Decline { agent })));
    }
    if word == b"done".as_slice() {
        let agent = one_name(alloc, words)?;
        return Ok(agent.map(|agent| once(Event::AgentDone { agent })));
    }
    Ok(None)
}

/// The reload of the second dialplan, if there is one.
fn read_second(second_plan: Option<&SharedText>) -> Result<Option<ScriptLine>, NoMemory>
    ensures { IfOk result (λ line. line ≡ spec.reload_by (option_map (λ text. text.now) second_plan.entry)) }
{
    let Some(text) = second_plan else {
        return Ok(None);
    };
    let text = text.clone()?;
    Ok(Some(once(Event::Reload { text })))
}

/// `reload`, given the words after it: the second dialplan is put in force. The line is faulty if there are such words.
fn read_reload(
    second_plan: Option<&SharedText>,
    words: &[&[u8]],
) -> Result<Option<ScriptLine>, NoMemory>
    ensures { IfOk result (λ line. line
        ≡ spec.reload_line (option_map (λ text. text.now) second_plan.entry) (map (λ word. word.now) words.now)) }
{
    match words {
        [] => read_second(second_plan),
        _ => Ok(None),
    }
}

/// `show CH NAME`, given the words after `show`.
fn read_show(alloc: Global, words: &[&[u8]]) -> Result<Option<ScriptLine>, NoMemory>
    ensures { IfOk result (λ line. line ≡ spec.show_line (map (λ word. word.now) words.now)) }
{
    let (channel, name) = match words {
        [channel, name] => (read_channel(channel), *name),
        _ => return Ok(None),
    };
    let Some(channel) = channel else {
        return Ok(None);
    };
    let name = Text::copy_of(alloc, name)?;
    let turn = Turn::Show { channel, name };
    Ok(Some(ScriptLine { turn, count: 1 }))
}

/// Whether a line is skipped: it has no words, or begins with `;`.
pub(crate) fn is_skipped(words: &[&[u8]]) -> bool
    ensures { result ≡ spec.is_skipped (map (λ word. word.now) words.now) }
{
    match words.first() {
        Some(word) => word.first() == Some(&b';'),
        None => true,
    }
}

/// The meaning of a line, given its words and the second dialplan, which a `reload` line loads; or None if the line is faulty.
pub(crate) fn read_words(
    alloc: Global,
    second_plan: Option<&SharedText>,
    words: &[&[u8]],
) -> Result<Option<ScriptLine>, NoMemory>
    ensures { IfOk result (λ line. line
        ≡ spec.line_by (option_map (λ text. text.now) second_plan.entry) (map (λ word. word.now) words.now)) }
{
    let Some((word, rest)) = words.split_first() else {
        return Ok(None);
    };
    if *word == b"start".as_slice() {
        return read_start(alloc, rest);
    }
    if *word == b"step".as_slice() {
        return Ok(read_step(rest));
    }
    if *word == b"digit".as_slice() {
        return Ok(read_digit(rest));
    }
    if *word == b"result".as_slice() {
        return Ok(read_result(rest));
    }
    if *word == b"reload".as_slice() {
        return read_reload(second_plan, rest);
    }
    if *word == b"show".as_slice() {
        return read_show(alloc, rest);
    }
    if let Some(line) = read_channel_line(word, rest) {
        return Ok(Some(line));
    }
    read_agent_line(alloc, word, rest)
}
