//! The numbers that texts write.

ghost use Rattle.std.specs.Prelude.{◌≡◌};
ghost use Rattle.dp_expr.specs.Numbers.{natural_of, in_word, next_value, negative_of, positive_of, number_of};

/// The number with one more digit, if the byte is a digit and the number fits into 64 bits.
fn next_value(value: u64, digit: u8) -> Option<u64>
    ensures { result ≡ next_value value digit }
{
    if digit.is_ascii_digit() {
        value.checked_mul(10)?.checked_add(u64::from(digit - b'0'))
    } else {
        None
    }
}

/// The number that one or more digits write, if it fits into 64 bits.
fn natural_of(digits: &[u8]) -> Option<u64>
    ensures { result ≡ in_word (natural_of digits.now) }
{
    if digits.is_empty() {
        return None;
    }
    let mut value = 0u64;
    for digit in digits {
        value = next_value(value, *digit)?;
    }
    Some(value)
}

fn negative_of(digits: &[u8]) -> Option<i64>
    ensures { result ≡ negative_of digits.now }
{
    0i64.checked_sub_unsigned(natural_of(digits)?)
}

fn positive_of(digits: &[u8]) -> Option<i64>
    ensures { result ≡ positive_of digits.now }
{
    0i64.checked_add_unsigned(natural_of(digits)?)
}

/// The number that a text writes: an optional minus and one or more digits, with a value that fits into signed 64 bits.
#[tactic(auto, unfolding(crate::specs::Numbers::number_of))]
pub fn number_of(text: &[u8]) -> Option<i64>
    ensures { result ≡ number_of text.now }
{
    match text.split_first() {
        None => None,
        Some((first, digits)) => {
            if *first == b'-' {
                negative_of(digits)
            } else {
                positive_of(text)
            }
        }
    }
}
