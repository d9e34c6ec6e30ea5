//! Matching of the digits of a dialled text against a name.
ghost use Rattle.std.specs.Prelude.{◌≡◌, false};
ghost use Rattle.dp_pattern.specs.Dashes.{without_dashes};
ghost use Rattle.dp_trie.specs.steps.Labels.{is_matched};
ghost use Rattle.dp_trie.specs.Tree.{alive};

use crate::digits::Digits;
use crate::plain::{Side, side_of};
use crate::walk::{allows, takes};
use dp_pattern::{Class, Name, Parts};

/// Whether each class takes a digit, in order.
fn takes_all(classes: &[Class], digits: &Digits<'_>) -> bool
    ensures { result ≡ alive false classes.now (without_dashes digits.now.text.now) }
{
    let mut cursor = digits.first();
    for number in 0..classes.len() {
        if !takes(&classes[number], number, digits, &mut cursor, false) {
            return false;
        }
    }
    true
}

/// Whether the digits match the name.
pub(crate) fn matches(name: &Name, digits: &Digits<'_>) -> bool
    ensures { result ≡ is_matched (without_dashes digits.now.text.now) name.now }
{
    match name.parts() {
        Parts::Plain(text) => matches!(side_of(text, digits), Side::Same),
        Parts::Pattern(classes, tail) => {
            let mut cursor = digits.first();
            takes_all(classes, digits) && allows(tail, classes.len(), digits, &mut cursor, false)
        }
    }
}
