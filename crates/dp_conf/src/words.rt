//! Words compared without regard to case, and numbers.
ghost use Rattle.std.specs.Prelude.{◌≡◌, ◌+◌, ◌-◌, ◌^◌, ◌≤◌, min};
ghost use Rattle.std.specs.Option.{option_map};
ghost use Rattle.dp_conf.specs.Numbers as numbers;
ghost use Rattle.dp_conf.specs.Words as words;

/// Whether the words are the same except for the case of ASCII letters.
pub fn same_word(a: &[u8], b: &[u8]) -> bool
    ensures { result ≡ words.same_word a.now b.now }
{
    // Most words are written as requested, and equal bytes are compared in groups.
    a == b || a.eq_ignore_ascii_case(b)
}

/// The number of some digits with one more after it, or the greatest u64 if it is above that.
fn with_digit(number: u64, byte: u8) -> u64
    requires { 48 ≤ byte }
    ensures { result ≡ min (numbers.with_digit number byte) (2 ^ 64 - 1) }
{
    number
        .saturating_mul(10)
        .saturating_add(u64::from(byte - b'0'))
}

/// The decimal number that the text writes, however many digits it has, or None if it is not one or more digits. A number above the
/// greatest u64 is returned as the greatest u64.
pub fn read_number(text: &[u8]) -> Option<u64>
    ensures { result ≡ option_map (λ number. min number (2 ^ 64 - 1)) (numbers.number_of text.now) }
{
    if text.is_empty() {
        return None;
    }
    let mut number: u64 = 0;
    for byte in text {
        if !byte.is_ascii_digit() {
            return None;
        }
        number = with_digit(number, *byte);
    }
    Some(number)
}
