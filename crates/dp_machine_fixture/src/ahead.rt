//! What is unknown ahead of a channel in a machine with some table, and what is set from outside.
use crate::call;
use dp_app::{AppTable, KnownTable};
use dp_case_tables::{bytes_of, push_bytes};
use dp_machine::{Dialplan, Event, Machine, NoMemory, Queues, Text, Unknown};
use std::alloc::Global;
use std::str;
use std::test::Fail;

/// Adds what is unknown ahead of the first channel.
fn push_unknown<T: KnownTable>(
    out: &mut String,
    alloc: Global,
    machine: &mut Machine<T>,
) -> Result<(), NoMemory> {
    match machine.unknown_ahead(alloc, 1)? {
        None => out.push_str("none"),
        Some(Unknown::Application(name)) => {
            out.push_str("application ")?;
            push_bytes(out, name.bytes())
        }
        Some(Unknown::Group(group)) => push_bytes(out, group.bytes()),
        Some(Unknown::Asked(text)) => {
            out.push_str("asks ")?;
            push_bytes(out, text.bytes())
        }
    }
}

/// Adds the value of a name in the first channel.
fn push_value<T: AppTable>(
    out: &mut String,
    alloc: Global,
    machine: &Machine<T>,
    name: &str,
) -> Result<(), NoMemory> {
    write!(out, "{name}=")?;
    push_bytes(out, &machine.value(alloc, 1, name.as_bytes())?)
}

/// The event that sets a name.
fn set_event(alloc: Global, channel: &str, rest: &str) -> Result<Event, Fail> {
    let (name, value) = rest.split_once('=').ok_or("no value")?;
    let name = Text::copy_of(alloc, name.as_bytes())?;
    let value = Text::copy_of(alloc, value.as_bytes())?;
    Ok(Event::Assign {
        channel: channel.parse().ok(),
        name,
        value,
    })
}

/// The event of a word, or None if the word is a question.
fn event_of(alloc: Global, word: &str) -> Result<Option<Event>, Fail> {
    match word {
        "step" => Ok(Some(Event::Step { channel: 1 })),
        "time" => Ok(Some(Event::Timeout { channel: 1 })),
        _ => match word.split_once(' ') {
            Some((channel, rest)) => Ok(Some(set_event(alloc, channel, rest)?)),
            None => Ok(None),
        },
    }
}

/// Adds the answer to a word that is a question.
fn push_answer<T: KnownTable>(
    out: &mut String,
    alloc: Global,
    machine: &mut Machine<T>,
    word: &str,
) -> Result<(), NoMemory> {
    if !out.is_empty() {
        out.push_str(", ")?;
    }
    match word.strip_prefix('$') {
        Some(name) => push_value(out, alloc, machine, name),
        None => push_unknown(out, alloc, machine),
    }
}

/// Does what a word says.
fn do_word<T: KnownTable>(
    out: &mut String,
    alloc: Global,
    machine: &mut Machine<T>,
    word: &str,
) -> Result<(), Fail> {
    match event_of(alloc, word)? {
        Some(event) => {
            machine.apply(alloc, event)?;
            Ok(())
        }
        None => Ok(push_answer(out, alloc, machine, word)?),
    }
}

fn do_words<T: KnownTable>(
    out: &mut String,
    alloc: Global,
    machine: &mut Machine<T>,
    words: &str,
) -> Result<(), Fail> {
    machine.apply(alloc, call(alloc, b"main", b"s", b"")?)?;
    for word in words.split(';') {
        do_word(out, alloc, machine, word)?;
    }
    Ok(())
}

/// Adds a line of the dialplan.
fn push_line(text: &mut String, line: &str) -> Result<(), NoMemory> {
    if !line.starts_with('[') && !line.starts_with("exten") {
        text.push_str("exten => s,")?;
    }
    text.push_str(line)?;
    text.push('\n')
}

/// The dialplan with these lines. A line that begins with `[` or `exten` is used as it is, and any other belongs to the extension `s`.
fn plan_of(alloc: Global, lines: &str) -> Result<Dialplan, Fail> {
    let mut text = String::new(alloc);
    text.push_str("[main]\n")?;
    for line in lines.lines() {
        push_line(&mut text, line)?;
    }
    let (plan, _) = Dialplan::load(alloc, text.as_bytes())?;
    Ok(plan)
}

fn told_on<T: KnownTable>(alloc: Global, lines: &str, words: &str) -> Result<String, Fail> {
    let plan = plan_of(alloc, lines)?;
    let mut machine: Machine<T> = Machine::new(alloc, plan, Queues::none(alloc))?;
    let mut out = String::new(alloc);
    do_words(&mut out, alloc, &mut machine, words)?;
    Ok(out)
}

/// The answers of a case: the lines of the extension `s` in `main`, separated by `
/// `, and after a `¦` what happens to the call there, separated by `;`. The words are `step`, `time` for a time-out, and `CHANNEL
/// NAME=VALUE` for a name that is set, with `-` for no channel. The answer to `?` is what is unknown ahead, and to `$NAME` the value of a
/// name.
pub fn told_ahead<T: KnownTable>(alloc: Global, asked: &str) -> Result<String, Fail> {
    let (lines, words) = asked.split_once('¦').ok_or("no words")?;
    let lines = bytes_of(alloc, lines)?;
    told_on::<T>(alloc, str::from_utf8(&lines)?, words)
}
