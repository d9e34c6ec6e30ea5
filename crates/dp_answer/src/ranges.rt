//! Sets of bytes, written as a text of ranges.
ghost use Rattle.std.specs.Prelude.{◌≡◌, ◌<◌, ◌||◌, ℕ, IfSome, length, option_map};
ghost use Rattle.dp_answer.specs.Ranges as spec;
ghost use Rattle.dp_answer.specs.RangeSteps.{upper as upper_of};
ghost use Rattle.dp_pieces.specs.Sets.{set_by};

use dp_pieces::ByteSet;

/// Puts each byte from one to another into the set.
fn put_between(set: &mut ByteSet, low: u8, high: u8)
    ensures { (b : ℕ) → set_by set.new b ≡ (spec.between low high b || set_by set.old b) }
{
    if high < low {
        return;
    }
    for byte in low..=high {
        set.put(byte);
    }
}

/// The byte after a hyphen at the start of the text, and the rest.
fn upper(text: &[u8]) -> Option<(u8, &[u8])>
    ensures upper { option_map (λ found. (found.0, found.1.now)) result ≡ upper_of text.now }
    ensures shorter { IfSome result (λ found. length found.1.now < length text.now) }
{
    let (next, rest) = text.split_first()?;
    let (high, after) = rest.split_first()?;
    if *next != b'-' {
        return None;
    }
    Some((*high, after))
}

/// The set of bytes that a text names: `a-b` means each byte from a to b, and any other byte means itself, as in the function `FILTER` of
/// the Asterisk documentation.
pub(crate) fn set_of_ranges(text: &[u8]) -> ByteSet
    ensures { (b : ℕ) → set_by result b ≡ spec.ranges text.now b }
{
    let mut set = ByteSet::none();
    let mut left = text;
    while let Some((low, rest)) = left.split_first() {
        match upper(rest) {
            Some((high, after)) => {
                put_between(&mut set, *low, high);
                left = after;
            }
            None => {
                set.put(*low);
                left = rest;
            }
        }
    }
    set
}
