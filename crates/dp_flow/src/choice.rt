//! Conditions, and choices between two sides.
ghost use Rattle.std.specs.Prelude.{◌≡◌};
ghost use Rattle.std.specs.Option.{option_map};
ghost use Rattle.dp_conf.specs.Blanks.{trim};
ghost use Rattle.dp_flow.specs.Conditions as spec;

use dp_conf::{cut_once, cut_outside, trim};

/// Whether all digits of a text are zeros.
fn all_zeros(text: &[u8]) -> bool
    ensures { result ≡ spec.all_zeros text.now }
{
    text.iter().all(|byte| *byte == b'0')
}

/// Whether the text is one or more zeros.
fn is_zeros(text: &[u8]) -> bool
    ensures { result ≡ spec.is_zeros text.now }
{
    match text {
        [] => false,
        _ => all_zeros(text),
    }
}

/// The text without a leading minus sign.
fn without_sign(text: &[u8]) -> &[u8]
    ensures { result.now ≡ spec.without_sign text.now }
{
    match text.split_first() {
        Some((b'-', rest)) => rest,
        _ => text,
    }
}

/// Whether a condition holds: without its blanks it is neither empty nor a whole number that is zero, of any length (a choice of this
/// program).
#[tactic(auto, unfolding(crate::specs::Conditions::holds))]
pub fn holds(condition: &[u8]) -> bool
    ensures { result ≡ spec.holds condition.now }
{
    let text = trim(condition);
    !text.is_empty() && !is_zeros(without_sign(text))
}

/// The side of a choice, if it has more than blanks.
fn present(side: &[u8]) -> Option<&[u8]>
    ensures { option_map (λ s. s.now) result ≡ spec.present_by side.now (trim side.now) }
{
    if trim(side).is_empty() {
        return None;
    }
    Some(side)
}

/// The first or second of two sides, which the first `:` outside parentheses separates, if it has more than blanks.
pub fn taken_side(is_first: bool, sides: &[u8]) -> Option<&[u8]>
    ensures { option_map (λ s. s.now) result ≡ spec.taken_side is_first sides.now }
{
    match (is_first, cut_outside(sides, b':')) {
        (true, None) => present(sides),
        (false, None) => None,
        (true, Some((first, _))) => present(first),
        (false, Some((_, second))) => present(second),
    }
}

/// The side of `CONDITION?SIDE:SIDE` that is taken, if there is one.
#[tactic(auto, unfolding(crate::specs::Conditions::chosen_side))]
pub fn chosen_side(arguments: &[u8]) -> Option<&[u8]>
    ensures { option_map (λ s. s.now) result ≡ spec.chosen_side arguments.now }
{
    let (condition, sides) = cut_once(arguments, b'?')?;
    taken_side(holds(condition), sides)
}
