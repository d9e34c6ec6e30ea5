//! Walking over a text along the classes of a pattern or the bytes of a plain name.
ghost use Rattle.std.specs.Prelude.{◌≡◌};
ghost use Rattle.dp_pattern.specs.Dashes.{without_dashes};
ghost use Rattle.dp_pattern.specs.Name.{IsName};
ghost use Rattle.dp_pattern.specs.Walk.{walk_after, walk_of, singles, classes_of, tail_of};

use crate::class::Class;
use crate::dashes::next_digit;
use crate::name::{Name, Parts};
use crate::tail::Tail;

/// The result of a walk over a text.
#[derive(Clone, Copy)]
pub(crate) enum Walk<'a> {
    /// A digit is not a member of its class.
    Refused,
    /// The text ends before the classes do.
    Short,
    /// Each class has its member, and this is the rest of the text.
    After(&'a [u8]),
}

/// Takes a member of each class in turn.
pub(crate) fn walk_classes<'a>(classes: &[Class], text: &'a [u8]) -> Walk<'a>
    ensures { walk_of result ≡ walk_after classes.now (without_dashes text.now) }
{
    let mut rest = text;
    for class in classes {
        let Some((digit, after)) = next_digit(rest) else {
            return Walk::Short;
        };
        if !class.has(digit) {
            return Walk::Refused;
        }
        rest = after;
    }
    Walk::After(rest)
}

/// Takes each byte of a plain name in turn.
pub(crate) fn walk_plain<'a>(plain: &[u8], text: &'a [u8]) -> Walk<'a>
    ensures { walk_of result ≡ walk_after (singles plain.now) (without_dashes text.now) }
{
    let mut rest = text;
    for byte in plain {
        let Some((digit, after)) = next_digit(rest) else {
            return Walk::Short;
        };
        if digit != *byte {
            return Walk::Refused;
        }
        rest = after;
    }
    Walk::After(rest)
}

/// The result of a walk over the text along the name, and the tail after it.
pub(crate) fn walk_name<'a>(name: &Name, text: &'a [u8]) -> (Walk<'a>, Tail)
    ensures walk { walk_of result.0 ≡ walk_after (classes_of name.now) (without_dashes text.now) }
    ensures tail { result.1 ≡ tail_of name.now }
    ensures named { IsName name.now }
{
    match name.parts() {
        Parts::Plain(plain) => (walk_plain(plain, text), Tail::End),
        Parts::Pattern(classes, tail) => (walk_classes(classes, text), tail),
    }
}
