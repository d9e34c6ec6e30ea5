//! Reading the parts of applications' arguments, after the Asterisk documentation's application reference.
ghost use Rattle.std.specs.Prelude.{◌≡◌, map};
ghost use Rattle.dp_app.specs.Parts as spec;

use dp_conf::cut_outside;

/// The part with a number, counted from 0, or the empty text if there are not that many.
pub fn part<'a>(parts: &[&'a [u8]], number: usize) -> &'a [u8]
    ensures { result.now ≡ spec.part number (map (λ part. part.now) parts.now) }
{
    match parts.get(number) {
        Some(part) => part,
        None => b"",
    }
}

/// Whether the options contain this letter outside parentheses.
pub fn has_option(options: &[u8], option: u8) -> bool
    ensures { result ≡ spec.has_option option options.now }
{
    match cut_outside(options, option) {
        Some(_) => true,
        None => false,
    }
}

/// Whether a part is not empty.
pub fn is_given(text: &[u8]) -> bool
    ensures { result ≡ spec.is_given text.now }
{
    !text.is_empty()
}
