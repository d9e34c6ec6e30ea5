//! Matching dialled text against names.
ghost use Rattle.std.specs.Prelude.{◌≡◌, ◌↔◌, IsTrue};
ghost use Rattle.dp_pattern.specs.Dashes.{without_dashes};
ghost use Rattle.dp_pattern.specs.Name.{IsName};
ghost use Rattle.dp_pattern.specs.Walk.{tail_allows, is_match, goes_on, walk_of};
ghost use Rattle.dp_pattern.specs.Matches.{Matches};
ghost use Rattle.dp_pattern.specs.GoesOn.{GoesOn};

use crate::dashes::next_digit;
use crate::name::Name;
use crate::tail::Tail;
use crate::walk::{Walk, walk_name};

// Whether the tail of a name allows the rest of a text.
fn allows(tail: Tail, rest: &[u8]) -> bool
    ensures { result ≡ tail_allows tail (without_dashes rest.now) }
{
    match tail {
        Tail::End => next_digit(rest).is_none(),
        Tail::Dot => next_digit(rest).is_some(),
        Tail::Bang => true,
    }
}

// Whether the walk is one of a match.
fn is_match(walk: Walk<'_>, tail: Tail) -> bool
    ensures { result ≡ is_match tail (walk_of walk.entry) }
{
    match walk {
        Walk::Refused | Walk::Short => false,
        Walk::After(rest) => allows(tail, rest),
    }
}

// Whether some ending makes the walk one of a match, other than by a `!`.
fn goes_on(walk: Walk<'_>, tail: Tail) -> bool
    ensures { result ≡ goes_on tail (walk_of walk.entry) }
{
    match (walk, tail) {
        (Walk::Refused, _) | (_, Tail::Bang) => false,
        (Walk::Short, _) => true,
        (Walk::After(_), _) => tail == Tail::Dot,
    }
}

/// Whether the dialled text matches the name, after the Asterisk documentation's page on pattern matching: a plain name by its bytes, a
/// pattern by one member of each class in turn and then what its tail allows. Ignoring dashes in the dialled text is this program's own
/// choice.
pub fn matches(name: &Name, text: &[u8]) -> bool
    ensures { IsTrue result ↔ Matches name.now text.now }
{
    let (walk, tail) = walk_name(name, text);
    is_match(walk, tail)
}

/// Whether some ending of one or more bytes other than `-` makes the text match the name, if the name has no tail `!`: then a caller who
/// has dialled the text may go on. This is this program's own choice.
pub fn could_match_more(name: &Name, text: &[u8]) -> bool
    ensures more { IsTrue result ↔ GoesOn name.now text.now }
    ensures named { IsName name.now }
{
    let (walk, tail) = walk_name(name, text);
    goes_on(walk, tail)
}
