//! Functions of a text alone, after the Asterisk documentation's pages on the functions `IF`, `FILTER`, `TOUPPER`, `TOLOWER`,
//! `ISNULL` and `EXISTS`.
ghost use Rattle.std.specs.Prelude.{◌≡◌, IfOk};
ghost use Rattle.dp_vars.specs.Shown.{value_bytes};
ghost use Rattle.dp_wide.specs.TextFunctions as spec;

use crate::choices::if_value;
use crate::sight_functions::flag;
use crate::texts::{filter, to_lower, to_upper};
use dp_conf::{NoMemory, cut_once};
use dp_vars::FoundValue;
use std::alloc::Global;

/// A function of a text.
#[derive(Clone, Copy)]
pub(crate) enum TextFunction {
    /// The side of `CONDITION?SIDE:SIDE` that is taken.
    If,
    /// `SET,TEXT`: the bytes of a text that are in a set.
    Filter,
    ToUpper,
    ToLower,
    /// Whether the text is empty.
    IsNull,
    /// Whether the text is not empty.
    Exists,
}

/// The bytes of the text after the first comma that are in the set before it; none if there is no comma (a choice of this program).
fn filter_value(alloc: Global, argument: &[u8]) -> Result<Vec<u8>, NoMemory>
    ensures { IfOk result (λ kept. kept.items ≡ spec.filter_value argument.now) }
{
    match cut_once(argument, b',') {
        None => Ok(Vec::new(alloc)),
        Some((set, text)) => filter(alloc, set, text),
    }
}

/// The value of a function of a text.
pub(crate) fn text_value<'a>(
    alloc: Global,
    function: TextFunction,
    text: &[u8],
) -> Result<FoundValue<'a>, NoMemory>
    ensures { IfOk result (λ value. value_bytes value ≡ spec.text_value function text.now) }
{
    match function {
        TextFunction::If => Ok(FoundValue::Owned(Vec::from_slice(alloc, if_value(text))?)),
        TextFunction::Filter => Ok(FoundValue::Owned(filter_value(alloc, text)?)),
        TextFunction::ToUpper => Ok(FoundValue::Owned(to_upper(alloc, text)?)),
        TextFunction::ToLower => Ok(FoundValue::Owned(to_lower(alloc, text)?)),
        TextFunction::IsNull => Ok(flag(text.is_empty())),
        TextFunction::Exists => Ok(flag(!text.is_empty())),
    }
}
