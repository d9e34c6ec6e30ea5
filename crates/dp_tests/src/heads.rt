//! How the lines of a head are read.
ghost use Rattle.std.specs.Prelude.{◌≡◌, IfOk};
ghost use Rattle.dp_tests.specs.Files as files;
ghost use Rattle.dp_tests.specs.Meanings as spec;

use crate::events::read_turns;
use crate::fault::TestFaultKind;
use crate::file::Turns;
use crate::items::Items;
use crate::meaning::{HeadWord, LineMeaning};
use dp_plan::{NoMemory, Text};
use std::alloc::Global;

/// The head's line that begins with this word.
pub(crate) fn read_head_word(word: &[u8]) -> Option<HeadWord>
    ensures { result ≡ spec.head_word word.now }
{
    if word == b"dialplan".as_slice() {
        return Some(HeadWord::Dialplan);
    }
    if word == b"queues".as_slice() {
        return Some(HeadWord::Queues);
    }
    if word == b"clock".as_slice() {
        return Some(HeadWord::Clock);
    }
    if word == b"assume".as_slice() {
        return Some(HeadWord::Assume);
    }
    None
}

/// Whether a line of the head with this word states a fact.
pub(crate) fn is_fact(word: HeadWord) -> bool
    ensures { result ≡ spec.is_fact word }
{
    match word {
        HeadWord::Dialplan | HeadWord::Queues => false,
        HeadWord::Clock | HeadWord::Assume => true,
    }
}

/// A line of the head that names a file, given the text after its first word.
fn file_head(alloc: Global, word: HeadWord, text: &[u8]) -> Result<LineMeaning, NoMemory>
    ensures { IfOk result (λ meaning. meaning ≡ spec.file_head word text.now) }
{
    if text.is_empty() {
        return Ok(LineMeaning::Faulty {
            kind: TestFaultKind::BadLine,
        });
    }
    let text = Text::copy_of(alloc, text)?;
    let turns = Items::none(alloc);
    Ok(LineMeaning::Head { word, text, turns })
}

/// A line of the head with the turns that it gives as an event line.
fn fact_head(
    alloc: Global,
    word: HeadWord,
    text: &[u8],
    turns: Option<Turns>,
) -> Result<LineMeaning, NoMemory>
    ensures { IfOk result (λ meaning. meaning ≡ spec.fact_head word text.now turns) }
{
    match turns {
        Some(turns) => {
            let text = Text::copy_of(alloc, text)?;
            Ok(LineMeaning::Head { word, text, turns })
        }
        None => Ok(LineMeaning::Faulty {
            kind: TestFaultKind::BadLine,
        }),
    }
}

/// A line of the head, given its first word and the text after it.
pub(crate) fn read_head(
    alloc: Global,
    word: HeadWord,
    part: &[u8],
    text: &[u8],
) -> Result<LineMeaning, NoMemory>
    ensures { IfOk result (λ meaning. meaning ≡ spec.head_meaning word part.now text.now) }
{
    if is_fact(word) {
        let turns = read_turns(alloc, part)?;
        return fact_head(alloc, word, text, turns);
    }
    file_head(alloc, word, text)
}

/// What is wrong with a line of the head, by whether a test has begun and whether the head has a line with the word.
pub(crate) fn head_fault(word: HeadWord, has_test: bool, has_head: bool) -> Option<TestFaultKind>
    ensures { result ≡ files.head_fault word has_test has_head }
{
    if has_test {
        if is_fact(word) {
            return None;
        }
        return Some(TestFaultKind::HeadLate);
    }
    if has_head {
        return Some(TestFaultKind::HeadTwice);
    }
    None
}

/// What is wrong with a line that begins a test.
pub(crate) fn name_fault(name: &[u8]) -> Option<TestFaultKind>
    ensures { result ≡ files.name_fault name.now }
{
    if name.is_empty() {
        return Some(TestFaultKind::NoName);
    }
    None
}

/// What is wrong with an `expect` line, by whether a test has begun.
pub(crate) fn expect_fault(has_test: bool) -> Option<TestFaultKind>
    ensures { result ≡ files.expect_fault has_test }
{
    if has_test {
        return None;
    }
    Some(TestFaultKind::ExpectOutside)
}
