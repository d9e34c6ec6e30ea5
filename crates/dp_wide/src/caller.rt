//! The caller, after the Asterisk documentation's page on the function `CALLERID`.
//!
//! `CALLERID(num)` and `CALLERID(number)` are the caller's number, and `CALLERID(all)` is `"NAME" <NUMBER>`. NAME is the cell
//! `CALLERID(name)`, and every other part of the caller is a cell too (a choice of this program).
ghost use Rattle.std.specs.Prelude.{◌≡◌, IfOk};
ghost use Rattle.std.specs.Option.{option_map};
ghost use Rattle.dp_vars.specs.Shown.{value_bytes};
ghost use Rattle.dp_vars.specs.Sights.{caller_of, sight_of, view_of};
ghost use Rattle.dp_wide.specs.Caller as spec;

use crate::cell_values::{cell_value, knows_cell};
use dp_conf::NoMemory;
use dp_vars::{ChannelSeen, Counts, FoundValue, FunctionValue, Scope, is_set, value_of};
use std::alloc::Global;

/// The number of the caller; empty if there is no channel.
fn number_of<'a>(channel: Option<ChannelSeen<'a>>) -> &'a [u8]
    ensures { result.now ≡ caller_of (option_map view_of channel.entry) }
{
    match channel {
        Some(channel) => channel.caller,
        None => b"",
    }
}

/// Whether an argument asks for the number.
fn asks_number(argument: &[u8]) -> bool
    ensures { result ≡ spec.asks_number argument.now }
{
    argument == b"num".as_slice() || argument == b"number".as_slice()
}

/// Whether an argument asks for both the name and the number.
fn asks_all(argument: &[u8]) -> bool
    ensures { result ≡ spec.asks_all argument.now }
{
    argument == b"all".as_slice()
}

/// The text of a name and a number.
fn caller_text(alloc: Global, name: &[u8], number: &[u8]) -> Result<Vec<u8>, NoMemory>
    ensures { IfOk result (λ text. text.items ≡ spec.caller_text name.now number.now) }
{
    let mut text = Vec::from_slice(alloc, b"\"")?;
    text.extend_from_slice(name)?;
    text.extend_from_slice(b"\" <")?;
    text.extend_from_slice(number)?;
    text.extend_from_slice(b">")?;
    Ok(text)
}

/// The name and the number of the caller in one text, which is known if the name is.
fn all_value<'a, B, C: Counts>(
    alloc: Global,
    scope: &Scope<'a, B, C>,
) -> Result<FunctionValue<'a>, NoMemory>
    ensures value { IfOk result (λ found. value_bytes found.value
        ≡ spec.all_value (sight_of C.count scope.now)) }
    ensures known { IfOk result (λ found. found.is_known ≡ spec.knows_all (sight_of C.count scope.now)) }
{
    let name = value_of(alloc, scope, b"CALLERID(name)")?;
    let text = caller_text(alloc, &name, number_of(scope.channel))?;
    let is_set = is_set(scope, b"CALLERID(name)");
    let is_known = knows_cell(alloc, scope, b"CALLERID", b"name", is_set)?;
    Ok(FunctionValue {
        value: FoundValue::Owned(text),
        is_known,
    })
}

/// The part of the caller that an argument asks for. The number is known, and a text that reads a cell is known if the cell is.
pub(crate) fn caller_value<'a, B, C: Counts>(
    alloc: Global,
    scope: &Scope<'a, B, C>,
    argument: &[u8],
) -> Result<FunctionValue<'a>, NoMemory>
    ensures value { IfOk result (λ found. value_bytes found.value
        ≡ spec.caller_value (sight_of C.count scope.now) argument.now) }
    ensures known { IfOk result (λ found. found.is_known
        ≡ spec.knows_caller (sight_of C.count scope.now) argument.now) }
{
    if asks_number(argument) {
        return Ok(FunctionValue {
            value: FoundValue::Bytes(number_of(scope.channel)),
            is_known: true,
        });
    }
    if asks_all(argument) {
        return all_value(alloc, scope);
    }
    cell_value(alloc, scope, b"CALLERID", argument)
}
