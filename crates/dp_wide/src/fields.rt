//! Fields of a group's value, after the Asterisk documentation's pages on the functions `CUT` and `FIELDQTY`.
//!
//! `CUT(NAME,D,FIELDS)` and `FIELDQTY(NAME,D)` read the value of the group `${NAME}`. So NAME may ask for a part, such as `EXTEN:2`, or be
//! a function call, and the result is known if that group is.
ghost use Rattle.std.specs.Prelude.{◌≡◌, IfOk};
ghost use Rattle.dp_vars.specs.Shown.{value_bytes};
ghost use Rattle.dp_vars.specs.Sights.{sight_of};
ghost use Rattle.dp_wide.specs.Fields as spec;

use crate::texts::{cut_fields, delimiter_of, field_count};
use dp_conf::{NoMemory, cut_outside};
use dp_vars::{Counts, Expanded, FoundValue, FunctionValue, Functions, Scope, group_value};
use std::alloc::Global;

/// The value of the group with a name, and whether it is known.
#[derive(Drop)]
struct NamedValue {
    bytes: Vec<u8>,
    is_known: bool,
}

/// The text before the first comma outside parentheses, or the whole text.
fn first_argument(text: &[u8]) -> &[u8]
    ensures { result.now ≡ spec.first_argument text.now }
{
    match cut_outside(text, b',') {
        None => text,
        Some((first, _)) => first,
    }
}

/// The text after that comma, or nothing.
fn other_arguments(text: &[u8]) -> &[u8]
    ensures { result.now ≡ spec.other_arguments text.now }
{
    match cut_outside(text, b',') {
        None => b"",
        Some((_, others)) => others,
    }
}

/// The byte at which `CUT` cuts, and the text that chooses fields. A comma after a leading `\` separates nothing (a choice of this
/// program).
fn way_of(arguments: &[u8]) -> (u8, &[u8])
    ensures byte { result.0 ≡ (spec.way_of arguments.now).0 }
    ensures fields { result.1.now ≡ (spec.way_of arguments.now).1 }
{
    match arguments {
        [b'\\', b',', rest @ ..] => (b',', other_arguments(rest)),
        _ => (
            delimiter_of(first_argument(arguments)),
            other_arguments(arguments),
        ),
    }
}

/// The value of the group with a name.
fn named_value<F: Functions, B, C: Counts>(
    alloc: Global,
    scope: &Scope<'_, B, C>,
    name: &[u8],
) -> Result<NamedValue, NoMemory>
    ensures bytes { IfOk result (λ named. named.bytes.items ≡ spec.named_value F.table (sight_of C.count scope.now) name.now) }
    ensures known { IfOk result (λ named. named.is_known ≡ spec.knows_named F.table (sight_of C.count scope.now) name.now) }
{
    let Expanded { bytes, unknown } = group_value::<F, B, C>(alloc, scope, name)?;
    Ok(NamedValue {
        bytes,
        is_known: unknown.is_none(),
    })
}

/// The chosen fields of the value that an argument of `CUT` names.
pub(crate) fn cut_value<'a, F: Functions, B, C: Counts>(
    alloc: Global,
    scope: &Scope<'a, B, C>,
    argument: &[u8],
) -> Result<FunctionValue<'a>, NoMemory>
    ensures value { IfOk result (λ found. value_bytes found.value
        ≡ spec.cut_value F.table (sight_of C.count scope.now) argument.now) }
    ensures known { IfOk result (λ found. found.is_known
        ≡ spec.knows_fields F.table (sight_of C.count scope.now) argument.now) }
{
    let (delimiter, fields) = way_of(other_arguments(argument));
    let named = named_value::<F, B, C>(alloc, scope, first_argument(argument))?;
    let NamedValue { bytes, is_known } = named;
    let value = FoundValue::Owned(cut_fields(alloc, &bytes, delimiter, fields)?);
    Ok(FunctionValue { value, is_known })
}

/// The number of fields of the value that an argument of `FIELDQTY` names. Everything after the name is the second argument.
pub(crate) fn count_value<'a, F: Functions, B, C: Counts>(
    alloc: Global,
    scope: &Scope<'a, B, C>,
    argument: &[u8],
) -> Result<FunctionValue<'a>, NoMemory>
    ensures value { IfOk result (λ found. value_bytes found.value
        ≡ spec.count_value F.table (sight_of C.count scope.now) argument.now) }
    ensures known { IfOk result (λ found. found.is_known
        ≡ spec.knows_fields F.table (sight_of C.count scope.now) argument.now) }
{
    let delimiter = delimiter_of(other_arguments(argument));
    let named = named_value::<F, B, C>(alloc, scope, first_argument(argument))?;
    let NamedValue { bytes, is_known } = named;
    let value = FoundValue::Number(field_count(&bytes, delimiter) as u64);
    Ok(FunctionValue { value, is_known })
}
