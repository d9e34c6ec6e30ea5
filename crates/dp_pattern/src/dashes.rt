//! Dashes, which are ignored in names outside sets and in dialled text.
ghost use Rattle.std.specs.Prelude.{◌≡◌, ◌<◌, [], ◌∷◌, length, MatchOption};
ghost use Rattle.dp_pattern.specs.Dashes.{without_dashes, from_first};

/// The text from its first byte other than a dash.
pub(crate) fn from_first(text: &[u8]) -> &[u8]
    ensures { result.now ≡ from_first text.now }
{
    let mut rest = text;
    while let Some((b'-', after)) = rest.split_first() {
        rest = after;
    }
    rest
}

/// The first byte other than a dash, and the text after it.
pub(crate) fn next_digit(text: &[u8]) -> Option<(u8, &[u8])>
    ensures { MatchOption result (without_dashes text.now ≡ [])
        (λ x. (without_dashes text.now ≡ x.0 ∷ without_dashes x.1.now) × (length x.1.now < length text.now)) }
{
    match from_first(text).split_first() {
        None => None,
        Some((digit, after)) => Some((*digit, after)),
    }
}
