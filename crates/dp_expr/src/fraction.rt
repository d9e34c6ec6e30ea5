//! Fractions among the operands of a text.

ghost use Rattle.std.specs.Prelude.{◌≡◌, ◌==◌, count_by};
ghost use Rattle.std.specs.List.{list_all, list_any};
ghost use Rattle.dp_expr.specs.Ascii.{point};
ghost use Rattle.dp_expr.specs.AsteriskReading.{is_fraction, is_fraction_byte, is_fraction_token};
ghost use Rattle.dp_expr.specs.Tokens.{tokens_of};
ghost use Rattle.dp_expr.specs.steps.Seen.{token_seen};

use crate::token::{Token, next_token};

/// The number of points in the text.
fn count_points(text: &[u8]) -> usize
    ensures { result ≡ count_by (λ b. b == point) text.now }
{
    let mut count = 0;
    for byte in text {
        if *byte == b'.' {
            count += 1;
        }
    }
    count
}

fn are_fraction_bytes(text: &[u8]) -> bool
    ensures { result ≡ list_all is_fraction_byte text.now }
{
    text.iter()
        .all(|byte| *byte == b'.' || byte.is_ascii_digit())
}

/// Whether the text is one or more digits, with one point among, before or after them.
#[tactic(auto, unfolding(crate::specs::AsteriskReading::is_fraction))]
fn is_fraction(text: &[u8]) -> bool
    ensures { result ≡ is_fraction text.now }
{
    are_fraction_bytes(text) && count_points(text) == 1 && 1 < text.len()
}

fn is_fraction_token(token: Token<'_>) -> bool
    ensures { result ≡ is_fraction_token (token_seen token.entry) }
{
    match token {
        Token::Operand(text) => is_fraction(text),
        Token::Sign(_) | Token::Bang | Token::Opening | Token::Closing | Token::Stray => false,
    }
}

/// Whether some operand of the text is a fraction.
pub fn has_fraction(text: &[u8]) -> bool
    ensures { result ≡ list_any is_fraction_token (tokens_of text.now) }
{
    let mut rest = text;
    while let Some((token, after)) = next_token(rest) {
        if is_fraction_token(token) {
            return true;
        }
        rest = after;
    }
    false
}
