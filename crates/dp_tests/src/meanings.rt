//! How the lines of a test file are read, each by itself.
ghost use Rattle.std.specs.Prelude.{◌≡◌, IfOk};
ghost use Rattle.dp_tests.specs.Meanings as spec;

use crate::claims::read_expectation;
use crate::events::{read_call_turns, read_dial_turns, read_turns};
use crate::fault::TestFaultKind;
use crate::file::{Act, Turns};
use crate::heads::{read_head, read_head_word};
use crate::meaning::{LineMeaning, MeantLine};
use crate::words::cut_word;
use dp_conf::trim;
use dp_plan::{NoMemory, Text};
use std::alloc::Global;

/// Whether a line with this first word is skipped: it has no word, or its first word begins with `;`.
fn is_passed_over(word: &[u8]) -> bool
    ensures { result ≡ spec.is_passed_over word.now }
{
    match word.first() {
        Some(byte) => *byte == b';',
        None => true,
    }
}

/// Whether a script with facts may have lines with this first word, and a test file may not.
fn is_for_scripts(word: &[u8]) -> bool
    ensures { result ≡ spec.is_for_scripts word.now }
{
    word == b"step".as_slice() || word == b"show".as_slice()
}

/// A faulty line that is not of this language.
fn bad_line() -> LineMeaning
    ensures { result ≡ spec.bad_line }
{
    LineMeaning::Faulty {
        kind: TestFaultKind::BadLine,
    }
}

/// An event line with these turns, or a faulty line without turns.
fn gives(turns: Option<Turns>) -> LineMeaning
    ensures { result ≡ spec.gives turns }
{
    match turns {
        Some(turns) => LineMeaning::Event {
            act: Act::Turns(turns),
        },
        None => bad_line(),
    }
}

/// `reload FILE`, given the text after `reload`.
fn read_reload(alloc: Global, text: &[u8]) -> Result<LineMeaning, NoMemory>
    ensures { IfOk result (λ meaning. meaning ≡ spec.reload_meaning text.now) }
{
    if text.is_empty() {
        return Ok(bad_line());
    }
    let file = Text::copy_of(alloc, text)?;
    Ok(LineMeaning::Event {
        act: Act::Reload(file),
    })
}

/// An event line, given its first word and the text after it.
fn read_event(alloc: Global, part: &[u8], word: &[u8], text: &[u8]) -> Result<LineMeaning, NoMemory>
    ensures { IfOk result (λ meaning. meaning ≡ spec.event_meaning part.now word.now text.now) }
{
    if word == b"reload".as_slice() {
        return read_reload(alloc, text);
    }
    if word == b"call".as_slice() {
        let turns = read_call_turns(alloc, text)?;
        return Ok(gives(turns));
    }
    if word == b"dial".as_slice() {
        let turns = read_dial_turns(alloc, text)?;
        return Ok(gives(turns));
    }
    if is_for_scripts(word) {
        return Ok(bad_line());
    }
    let turns = read_turns(alloc, part)?;
    Ok(gives(turns))
}

/// A line of the head or an event line, given its first word and the text after it.
fn read_head_or_event(
    alloc: Global,
    part: &[u8],
    word: &[u8],
    text: &[u8],
) -> Result<LineMeaning, NoMemory>
    ensures { IfOk result (λ meaning. meaning ≡ spec.head_or_event (spec.head_word word.now) part.now word.now text.now) }
{
    match read_head_word(word) {
        Some(head) => read_head(alloc, head, part, text),
        None => read_event(alloc, part, word, text),
    }
}

/// An `expect` line, given the text after `expect`.
fn read_expect(alloc: Global, text: &[u8]) -> Result<LineMeaning, NoMemory>
    ensures { IfOk result (λ meaning. meaning ≡ spec.expect_meaning text.now) }
{
    match read_expectation(alloc, text)? {
        Some(expectation) => Ok(LineMeaning::Expect { expectation }),
        None => Ok(LineMeaning::Faulty {
            kind: TestFaultKind::BadExpect,
        }),
    }
}

/// A line that begins a test, given the text after `test`.
fn begins(alloc: Global, text: &[u8]) -> Result<LineMeaning, NoMemory>
    ensures { IfOk result (λ meaning. meaning ≡ spec.begins text.now) }
{
    let name = Text::copy_of(alloc, text)?;
    Ok(LineMeaning::Begin { name })
}

/// What a line means by itself.
fn read_meaning(alloc: Global, part: &[u8]) -> Result<LineMeaning, NoMemory>
    ensures { IfOk result (λ meaning. meaning ≡ spec.meaning_in part.now) }
{
    let (word, text) = cut_word(trim(part));
    if is_passed_over(word) {
        return Ok(LineMeaning::Nothing);
    }
    if word == b"test".as_slice() {
        return begins(alloc, text);
    }
    if word == b"expect".as_slice() {
        return read_expect(alloc, text);
    }
    read_head_or_event(alloc, part, word, text)
}

/// The line with this number, and what it means by itself.
#[tactic(auto, unfolding(crate::specs::Meanings::meaning_of))]
pub(crate) fn read_meant(alloc: Global, line: usize, part: &[u8]) -> Result<MeantLine, NoMemory>
    ensures { IfOk result (λ meant. meant ≡ spec.meant_at line part.now) }
{
    let meaning = read_meaning(alloc, part)?;
    Ok(MeantLine { line, meaning })
}
