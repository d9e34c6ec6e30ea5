//! The name and the number of a caller in one text.
ghost use Rattle.std.specs.Prelude.{◌≡◌};
ghost use Rattle.std.specs.Option.{option_map};
ghost use Rattle.dp_wide.specs.Settings as spec;
ghost use Rattle.dp_wide.specs.steps.Callers.{caller_seen};

use dp_conf::{before_last, cut_once, trim};

/// The name and the number of a caller.
#[derive(Clone, Copy)]
pub(super) struct CallerText<'a> {
    pub(super) name: &'a [u8],
    pub(super) number: &'a [u8],
}

/// The text before a quote that is the last byte.
fn before_quote(after: &[u8]) -> Option<&[u8]>
    ensures { option_map (λ front. front.now) result ≡ spec.before_quote after.now }
{
    let front = before_last(after, b'"')?;
    if front.len() + 1 == after.len() {
        Some(front)
    } else {
        None
    }
}

/// A text without the quotes at its two ends.
fn without_quotes(text: &[u8]) -> &[u8]
    ensures { result.now ≡ spec.without_quotes text.now }
{
    match text.split_first() {
        Some((b'"', after)) => match before_quote(after) {
            Some(front) => front,
            None => text,
        },
        _ => text,
    }
}

/// A number without a name.
fn number_alone(text: &[u8]) -> CallerText<'_>
    ensures { caller_seen result ≡ spec.number_alone text.now }
{
    CallerText {
        name: b"",
        number: trim(text),
    }
}

/// The name and the number of the caller that a text names: the number is between the first `<` and the last `>` after it. A text without
/// such brackets is only the number (a choice of this program).
#[tactic(auto, unfolding(crate::specs::Settings::caller_of))]
pub(super) fn caller_of(text: &[u8]) -> CallerText<'_>
    ensures { caller_seen result ≡ spec.caller_of text.now }
{
    match cut_once(text, b'<') {
        None => number_alone(text),
        Some((front, after)) => match before_last(after, b'>') {
            None => number_alone(text),
            Some(number) => CallerText {
                name: without_quotes(trim(front)),
                number: trim(number),
            },
        },
    }
}
