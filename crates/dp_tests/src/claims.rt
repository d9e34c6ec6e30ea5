//! How expectations are read.
ghost use Rattle.std.specs.Prelude.{◌≡◌, ◌++◌, IfOk, OnOk, map};
ghost use Rattle.std.specs.Option.{option_map};
ghost use Rattle.dp_wide_runs.specs.Lines.{cut_word};
ghost use Rattle.dp_tests.specs.Expectations as spec;

use crate::expectation::{Expectation, LineClaim};
use crate::items::Items;
use crate::places::{read_call, read_place};
use crate::refusals::read_refusal;
use crate::words::{cut_word, setting_in};
use dp_commands::{number_within, read_channel, words};
use dp_plan::{NoMemory, Text};
use std::alloc::Global;

/// Whether the printed state of a channel can begin with this word.
fn is_state_word(word: &[u8]) -> bool
    ensures { result ≡ spec.is_state_word word.now }
{
    word == b"ready".as_slice()
        || word == b"digits".as_slice()
        || word == b"pause".as_slice()
        || word == b"queued".as_slice()
        || word == b"talking".as_slice()
        || word == b"dialling".as_slice()
        || word == b"ended".as_slice()
        || word == b"unknown".as_slice()
}

/// The claim on a value, for a channel or as the global, that a text `NAME=VALUE` makes.
fn read_value(
    alloc: Global,
    channel: Option<u32>,
    text: &[u8],
) -> Result<Option<LineClaim>, NoMemory>
    ensures { IfOk result (λ claim. claim ≡ spec.value_claim channel text.now) }
{
    let Some((name, value)) = setting_in(text) else {
        return Ok(None);
    };
    let name = Text::copy_of(alloc, name)?;
    let value = Text::copy_of(alloc, value)?;
    Ok(Some(LineClaim::Value {
        channel,
        name,
        value,
    }))
}

/// The claim that the last entry that a channel ran is the call in a text.
fn read_ran(alloc: Global, channel: u32, text: &[u8]) -> Result<Option<LineClaim>, NoMemory>
    ensures { IfOk result (λ claim. claim ≡ spec.ran_claim channel text.now) }
{
    match read_call(alloc, text)? {
        Some(call) => Ok(Some(LineClaim::Ran { channel, call })),
        None => Ok(None),
    }
}

/// The claim that a channel ran the call in a text.
fn read_passed(alloc: Global, channel: u32, text: &[u8]) -> Result<Option<LineClaim>, NoMemory>
    ensures { IfOk result (λ claim. claim ≡ spec.passed_claim channel text.now) }
{
    match read_call(alloc, text)? {
        Some(call) => Ok(Some(LineClaim::Passed { channel, call })),
        None => Ok(None),
    }
}

/// The claim that the last entry that a channel ran is at the place in a text.
fn read_at(alloc: Global, channel: u32, text: &[u8]) -> Result<Option<LineClaim>, NoMemory>
    ensures { IfOk result (λ claim. claim ≡ spec.at_claim channel text.now) }
{
    match read_place(alloc, text)? {
        Some(place) => Ok(Some(LineClaim::At { channel, place })),
        None => Ok(None),
    }
}

/// The claim on a channel's state.
fn state_claim(alloc: Global, channel: u32, text: &[u8]) -> Result<Option<LineClaim>, NoMemory>
    ensures { IfOk result (λ claim. claim ≡ spec.state_claim channel text.now) }
{
    let state = Text::copy_of(alloc, text)?;
    Ok(Some(LineClaim::State { channel, state }))
}

/// The claim on a channel that the text after the channel's number makes.
fn read_channel_claim(
    alloc: Global,
    channel: u32,
    text: &[u8],
) -> Result<Option<LineClaim>, NoMemory>
    ensures { IfOk result (λ claim. claim ≡ spec.channel_claim channel text.now (cut_word text.now)) }
{
    let (word, rest) = cut_word(text);
    if word == b"ran".as_slice() {
        return read_ran(alloc, channel, rest);
    }
    if word == b"passed".as_slice() {
        return read_passed(alloc, channel, rest);
    }
    if word == b"at".as_slice() {
        return read_at(alloc, channel, rest);
    }
    if is_state_word(word) {
        return state_claim(alloc, channel, text);
    }
    read_value(alloc, Some(channel), text)
}

/// Adds a copy of each word at the end.
fn push_copies(alloc: Global, agents: &mut Items<Text>, words: &[&[u8]]) -> Result<(), NoMemory>
    ensures { OnOk result (agents.new ≡ agents.old ++ map (λ word. word.now) words.now) }
{
    for word in words {
        agents.push(Text::copy_of(alloc, word)?)?;
    }
    Ok(())
}

/// `rings AGENT..`, given the words after `rings`.
fn read_rings(alloc: Global, words: &[&[u8]]) -> Result<Option<LineClaim>, NoMemory>
    ensures { IfOk result (λ claim. claim ≡ spec.rings_claim (map (λ word. word.now) words.now)) }
{
    if words.is_empty() {
        return Ok(None);
    }
    let mut agents = Items::none(alloc);
    push_copies(alloc, &mut agents, words)?;
    Ok(Some(LineClaim::Rings { agents }))
}

/// The claim that this number of channels wait in a queue, or None if the word is not a number.
fn waiting_claim(alloc: Global, queue: &[u8], word: &[u8]) -> Result<Option<LineClaim>, NoMemory>
    ensures { IfOk result (λ claim. claim ≡ spec.waiting_by queue.now word.now) }
{
    let Some(count) = number_within(u32::MAX, word) else {
        return Ok(None);
    };
    let queue = Text::copy_of(alloc, queue)?;
    Ok(Some(LineClaim::Waiting { queue, count }))
}

/// `waiting QUEUE N`, given the words after `waiting`.
fn read_waiting(alloc: Global, words: &[&[u8]]) -> Result<Option<LineClaim>, NoMemory>
    ensures { IfOk result (λ claim. claim ≡ spec.waiting_claim (map (λ word. word.now) words.now)) }
{
    match words {
        [queue, count] => waiting_claim(alloc, queue, count),
        _ => Ok(None),
    }
}

/// The claim that an event was refused for the reason that a word names, or None if the word names no reason.
fn refused_by(word: &[u8]) -> Option<LineClaim>
    ensures { result ≡ spec.refused_by word.now }
{
    match read_refusal(word) {
        Some(refusal) => Some(LineClaim::Refused {
            refusal: Some(refusal),
        }),
        None => None,
    }
}

/// `refused [CODE]`, given the words after `refused`.
fn read_refused(words: &[&[u8]]) -> Option<LineClaim>
    ensures { result ≡ spec.refused_claim (map (λ word. word.now) words.now) }
{
    match words {
        [] => Some(LineClaim::Refused { refusal: None }),
        [code] => refused_by(code),
        _ => None,
    }
}

/// The claim on a channel that a first word and the text after it make.
fn read_numbered(alloc: Global, word: &[u8], rest: &[u8]) -> Result<Option<LineClaim>, NoMemory>
    ensures { IfOk result (λ claim. claim ≡ spec.numbered_claim word.now rest.now) }
{
    match read_channel(word) {
        Some(channel) => read_channel_claim(alloc, channel, rest),
        None => Ok(None),
    }
}

/// The claim that a first word and the text after it make, or None if they do not make one.
fn read_claim(alloc: Global, word: &[u8], rest: &[u8]) -> Result<Option<LineClaim>, NoMemory>
    ensures { IfOk result (λ claim. claim ≡ spec.claim_by (word.now, rest.now)) }
{
    if word == b"global".as_slice() {
        return read_value(alloc, None, rest);
    }
    if word == b"rings".as_slice() {
        let words = words(alloc, rest)?;
        return read_rings(alloc, &words);
    }
    if word == b"waiting".as_slice() {
        let words = words(alloc, rest)?;
        return read_waiting(alloc, &words);
    }
    if word == b"refused".as_slice() {
        let words = words(alloc, rest)?;
        return Ok(read_refused(&words));
    }
    read_numbered(alloc, word, rest)
}

/// The expectation of a claim, if there is one.
fn expects(is_negated: bool, claim: Option<LineClaim>) -> Option<Expectation>
    ensures { result ≡ option_map (spec.expects is_negated) claim }
{
    match claim {
        Some(claim) => Some(Expectation { is_negated, claim }),
        None => None,
    }
}

/// What a text after `expect` expects, or None if it has none of the forms of an expectation.
pub(crate) fn read_expectation(alloc: Global, text: &[u8]) -> Result<Option<Expectation>, NoMemory>
    ensures { IfOk result (λ expectation. expectation ≡ spec.expectation_in text.now) }
{
    let (word, rest) = cut_word(text);
    if word == b"not".as_slice() {
        let (word, rest) = cut_word(rest);
        let claim = read_claim(alloc, word, rest)?;
        return Ok(expects(true, claim));
    }
    let claim = read_claim(alloc, word, rest)?;
    Ok(expects(false, claim))
}
