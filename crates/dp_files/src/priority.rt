//! The priority of an `exten` or `same` line, after the Asterisk documentation's page on contexts, extensions and priorities.
ghost use Rattle.std.specs.Prelude.{◌≡◌, IfSome, MatchOption, None, Some};
ghost use Rattle.std.specs.List.{list_all};
ghost use Rattle.std.specs.Option.{option_map};
ghost use Rattle.dp_conf.specs.Cut as cuts;
ghost use Rattle.dp_conf.specs.Numbers as numbers;
ghost use Rattle.dp_files.specs.Priorities as spec;
ghost use Rattle.dp_files.specs.PriorityView as view;

use dp_conf::{cut_once, read_number, same_word, trim};

/// The greatest priority of an entry.
const MOST_PRIORITY: u64 = 2_147_483_647;

/// The base of a priority, from which it counts.
#[derive(Clone, Copy)]
pub(crate) enum Base<'a> {
    /// A plain number.
    Number(u64),
    /// `n` or `next`: the priority after that of the previous line.
    Next,
    /// `s` or `same`: the priority of the previous line.
    Same,
    /// The priority of the line of the extension with this label.
    Label(&'a [u8]),
}

/// A priority without its label.
#[derive(Clone, Copy)]
pub(crate) enum WrittenBase<'a> {
    Hint,
    /// A base, and the number after a `+`, if there is one.
    Counted { base: Base<'a>, more: Option<u64> },
}

/// A priority as written in its line.
#[derive(Clone, Copy)]
pub(crate) struct WrittenPriority<'a> {
    pub(crate) written: WrittenBase<'a>,
    pub(crate) label: Option<&'a [u8]>,
}

/// The number, unless it is above the greatest priority.
pub(crate) fn within_limit(number: u64) -> Option<u64>
    ensures { result ≡ spec.within_limit number }
{
    if number <= MOST_PRIORITY {
        Some(number)
    } else {
        None
    }
}

/// The base that is a word.
fn word_base(text: &[u8]) -> Base<'_>
    ensures { view.base_now result ≡ spec.word_base text.now }
{
    if same_word(text, b"n") || same_word(text, b"next") {
        return Base::Next;
    }
    if same_word(text, b"s") || same_word(text, b"same") {
        return Base::Same;
    }
    Base::Label(text)
}

/// The base that is a number.
fn number_base(number: u64) -> Option<Base<'static>>
    ensures { option_map view.base_now result ≡ spec.number_base number }
{
    if number == 0 {
        return None;
    }
    match within_limit(number) {
        Some(number) => Some(Base::Number(number)),
        None => None,
    }
}

/// The base of a priority.
#[tactic(auto, using(crate::proofs::LimitLemmas::number_base_capped))]
fn read_base(text: &[u8]) -> Option<Base<'_>>
    ensures { option_map view.base_now result ≡ spec.base_of text.now }
{
    match read_number(text) {
        Some(number) => number_base(number),
        None => Some(word_base(text)),
    }
}

/// The number after a `+`.
#[tactic(auto, using(crate::proofs::LimitLemmas::within_limit_capped))]
fn read_added(text: &[u8]) -> Option<u64>
    ensures { result ≡ spec.added_number text.now }
{
    match read_number(text) {
        Some(number) => within_limit(number),
        None => None,
    }
}

/// A base with an added number.
fn read_sum<'a>(base: &'a [u8], more: &[u8]) -> Option<WrittenBase<'a>>
    ensures { option_map view.written_now result ≡ spec.base_with_added base.now (Some (base.now, more.now)) }
{
    match (read_base(trim(base)), read_added(trim(more))) {
        (Some(base), Some(more)) => Some(WrittenBase::Counted {
            base,
            more: Some(more),
        }),
        _ => None,
    }
}

/// A base with or without an added number.
fn read_counted(text: &[u8]) -> Option<WrittenBase<'_>>
    ensures { option_map view.written_now result ≡ spec.base_with_added text.now (cuts.cut_once 43 text.now) }
{
    if let Some((base, more)) = cut_once(text, b'+') {
        return read_sum(base, more);
    }
    match read_base(text) {
        Some(base) => Some(WrittenBase::Counted { base, more: None }),
        None => None,
    }
}

/// A priority without its label.
#[tactic(auto, unfolding(crate::specs::Priorities::written_of))]
fn read_written(text: &[u8]) -> Option<WrittenBase<'_>>
    ensures { option_map view.written_now result ≡ spec.written_of text.now }
{
    if same_word(text, b"hint") {
        return Some(WrittenBase::Hint);
    }
    read_counted(text)
}

/// The text without its last byte, if that is a `)`.
fn before_closing(text: &[u8]) -> Option<&[u8]>
    ensures { MatchOption result (spec.without_last 41 text.now ≡ None)
        (λ front. spec.without_last 41 text.now ≡ Some front.now) }
{
    let (last, front) = text.split_last()?;
    if *last != b')' {
        return None;
    }
    Some(front)
}

/// Whether the text has only digits.
fn has_digits_alone(text: &[u8]) -> bool
    ensures { result ≡ list_all numbers.is_digit text.now }
{
    text.iter().all(u8::is_ascii_digit)
}

/// Whether the text contains a parenthesis.
fn has_parenthesis(text: &[u8]) -> bool
    ensures { result ≡ spec.has_parenthesis text.now }
{
    text.iter().any(|byte| *byte == b'(' || *byte == b')')
}

/// The label, given the text after the first `(` of a priority.
#[tactic(auto, unfolding(crate::specs::Priorities::label_within))]
fn read_label(text: &[u8]) -> Option<&[u8]>
    ensures { option_map (λ label. label.now) result ≡ spec.label_within text.now }
{
    let Some(inside) = before_closing(text) else {
        return None;
    };
    let label = trim(inside);
    if has_digits_alone(label) || has_parenthesis(label) {
        return None;
    }
    Some(label)
}

/// A priority with a label.
fn read_labelled<'a>(written: &'a [u8], label: &'a [u8]) -> Option<WrittenPriority<'a>>
    ensures { option_map view.priority_now result ≡ spec.priority_by written.now (Some (written.now, label.now)) }
{
    match (read_written(trim(written)), read_label(label)) {
        (Some(written), Some(label)) => Some(WrittenPriority {
            written,
            label: Some(label),
        }),
        _ => None,
    }
}

/// The priority that is a number alone.
fn plain_priority(number: u64) -> Option<WrittenPriority<'static>>
    ensures { option_map view.priority_now result ≡ option_map (λ base. record { written = spec.Counted base None; label = None }) (spec.number_base number) }
{
    match number_base(number) {
        Some(base) => Some(WrittenPriority {
            written: WrittenBase::Counted { base, more: None },
            label: None,
        }),
        None => None,
    }
}

/// The number of a priority that is a number alone, or None if the priority is malformed or any other.
#[inline(always)]
pub(crate) fn plain_number(text: &[u8]) -> Option<u64>
    ensures priority { IfSome result (λ number. spec.priority_of text.now
        ≡ Some (record { written = spec.Counted (spec.Number number) None; label = None })) }
    ensures within { IfSome result (λ number. spec.within_limit number ≡ Some number) }
{
    let Some(number) = read_number(text) else {
        return None;
    };
    if number == 0 || MOST_PRIORITY < number {
        return None;
    }
    Some(number)
}

/// The priority that the text writes, or None if it is malformed.
pub(crate) fn read_priority(text: &[u8]) -> Option<WrittenPriority<'_>>
    ensures { option_map view.priority_now result ≡ spec.priority_of text.now }
{
    // Most priorities are numbers alone.
    if let Some(number) = read_number(text) {
        return plain_priority(number);
    }
    read_words(text)
}

/// The priority that the text writes, or None if it is malformed, however it is written.
#[tactic(auto, unfolding(crate::specs::Priorities::priority_of))]
fn read_words(text: &[u8]) -> Option<WrittenPriority<'_>>
    ensures { option_map view.priority_now result ≡ spec.priority_of text.now }
{
    if let Some((written, label)) = cut_once(text, b'(') {
        return read_labelled(written, label);
    }
    match read_written(text) {
        Some(written) => Some(WrittenPriority {
            written,
            label: None,
        }),
        None => None,
    }
}
