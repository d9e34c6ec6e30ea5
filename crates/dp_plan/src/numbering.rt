//! The priority of an entry's line: its number, or `n`, and its label.
ghost use Rattle.std.specs.Prelude.{◌≡◌, None, Some};
ghost use Rattle.std.specs.List.{list_any};
ghost use Rattle.dp_conf.specs.Answers.{Answers};
ghost use Rattle.dp_conf.specs.Numbers.{number_of};
ghost use Rattle.dp_plan.specs.EntryLine as spec;

use crate::application::before_closing;
use crate::fault::{PlanKind, Word};
use crate::priority::Priority;
use dp_conf::{cut_once, read_number, trim};

/// A priority as written.
#[derive(Clone, Copy)]
pub(crate) enum Written {
    /// A number.
    Number(Priority),
    /// A number above the greatest priority.
    TooGreat,
    /// `n`: one more than the last priority of the extension.
    Next,
}

/// A priority as written, with the label after it, if it has one.
#[derive(Clone, Copy)]
pub(crate) struct Numbering<'a> {
    pub(crate) written: Written,
    pub(crate) label: Option<&'a [u8]>,
}

/// Whether the priority is one of the words, or has the sign, that are not supported.
fn is_priority_word(text: &[u8]) -> bool
    ensures { result ≡ spec.is_priority_word text.now }
{
    text == b"next".as_slice()
        || text == b"s".as_slice()
        || text == b"same".as_slice()
        || text.contains(&b'+')
}

/// The number as a written priority.
#[inline(always)]
fn written_number(number: u64) -> Result<Written, PlanKind>
    ensures { result ≡ spec.written_number (Some number) }
{
    if number == 0 {
        return Err(PlanKind::BadPriority);
    }
    let Ok(number) = u32::try_from(number) else {
        return Ok(Written::TooGreat);
    };
    match Priority::new(number) {
        Some(priority) => Ok(Written::Number(priority)),
        None => Ok(Written::TooGreat),
    }
}

/// A priority that is not a number, without its label.
fn read_word(text: &[u8]) -> Result<Written, PlanKind>
    requires { number_of text.now ≡ None }
    ensures { result ≡ spec.written_of text.now }
{
    if text == b"n".as_slice() {
        return Ok(Written::Next);
    }
    if text == b"hint".as_slice() {
        return Err(PlanKind::LeftOut(Word::Hint));
    }
    if is_priority_word(text) {
        return Err(PlanKind::LeftOut(Word::PriorityWord));
    }
    Err(PlanKind::BadPriority)
}

/// A priority without its label.
#[tactic(auto, using(crate::proofs::NumberingLemmas::number_as_written))]
fn read_written(text: &[u8]) -> Result<Written, PlanKind>
    ensures { result ≡ spec.written_of text.now }
{
    match read_number(text) {
        Some(number) => written_number(number),
        None => read_word(text),
    }
}

/// Whether the text has only digits.
fn has_digits_alone(text: &[u8]) -> bool
    ensures { result ≡ spec.has_digits_alone text.now }
{
    text.iter().all(u8::is_ascii_digit)
}

/// Whether the text contains a parenthesis.
fn has_parenthesis(text: &[u8]) -> bool
    ensures { result ≡ spec.has_parenthesis text.now }
{
    text.iter().any(|byte| *byte == b'(' || *byte == b')')
}

/// The label, given the text after the first `(` of a priority.
fn read_label(after: &[u8]) -> Result<&[u8], PlanKind>
    ensures { Answers (λ label. label.now) (λ kind. Some kind) result (spec.label_within (spec.without_last 41 after.now)) }
{
    let Some(text) = before_closing(after) else {
        return Err(PlanKind::BadLabel);
    };
    let label = trim(text);
    if has_digits_alone(label) || has_parenthesis(label) {
        return Err(PlanKind::BadLabel);
    }
    Ok(label)
}

/// A priority that is not just a number.
#[tactic(auto, unfolding(crate::specs::EntryLine::written_priority))]
fn read_labelled(text: &[u8]) -> Result<Numbering<'_>, PlanKind>
    requires { number_of text.now ≡ None }
    ensures { Answers spec.numbering_now (λ kind. Some kind) result (spec.written_priority text.now) }
{
    match cut_once(text, b'(') {
        None => {
            let written = read_word(text)?;
            Ok(Numbering {
                written,
                label: None,
            })
        }
        Some((before, after)) => {
            let written = read_written(trim(before))?;
            let label = read_label(after)?;
            Ok(Numbering {
                written,
                label: Some(label),
            })
        }
    }
}

/// A priority that is just a number.
#[inline(always)]
fn number_alone(number: u64) -> Result<Numbering<'static>, PlanKind>
    ensures { Answers spec.numbering_now (λ kind. Some kind) result
        (spec.without_label (spec.written_number (Some number))) }
{
    let written = written_number(number)?;
    Ok(Numbering {
        written,
        label: None,
    })
}

/// A priority as written. Most are just numbers, which have no label and are none of the words.
#[tactic(auto, using(crate::proofs::NumberingLemmas::number_alone))]
#[inline(always)]
pub(crate) fn read_numbering(text: &[u8]) -> Result<Numbering<'_>, PlanKind>
    ensures { Answers spec.numbering_now (λ kind. Some kind) result (spec.written_priority text.now) }
{
    match read_number(text) {
        Some(number) => number_alone(number),
        None => read_labelled(text),
    }
}

/// The number of a priority, given the last priority of the extension.
#[inline(always)]
pub(crate) fn number_after(last: Option<Priority>, written: Written) -> Result<Priority, PlanKind>
    ensures { result ≡ spec.number_after last written }
{
    match written {
        Written::Number(priority) => Ok(priority),
        Written::TooGreat => Err(PlanKind::PriorityLimit),
        Written::Next => {
            let last = last.ok_or(PlanKind::NoPrevious)?;
            Priority::new(last.get() + 1).ok_or(PlanKind::PriorityLimit)
        }
    }
}
