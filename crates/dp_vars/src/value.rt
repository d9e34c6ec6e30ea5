//! The values of names and of functions, after the Asterisk documentation's pages on variables and functions.
ghost use Rattle.std.specs.Prelude.{◌≡◌, [], ◌∷◌, MatchOption, None, Some, is_some, unwrap_or};
ghost use Rattle.std.specs.Option.{option_map, option_map_or};
ghost use Rattle.std.specs.Map.{lookup};
ghost use Rattle.dp_conf.specs.Words.{same_text};
ghost use Rattle.dp_vars.specs.Shown.{value_bytes};
ghost use Rattle.dp_vars.specs.Sights as sights;
ghost use Rattle.dp_vars.specs.Stores as stores;
ghost use Rattle.dp_vars.specs.Values as values;
ghost use Rattle.dp_vars.specs.Variables.{first_value, value_or_empty};

use crate::scope::{ChannelSeen, Counts, Scope};
use crate::store::Store;

/// A value as it was found, without a copy.
#[derive(Drop)]
pub enum FoundValue<'a> {
    /// Bytes that exist elsewhere.
    Bytes(&'a [u8]),
    /// A number, written in decimal.
    Number(u64),
    /// The name of the channel with this number.
    Channel(u32),
    /// Bytes that were made for this value.
    Owned(Vec<u8>),
}

/// A name that a channel gives.
#[derive(Clone, Copy)]
pub(crate) enum GivenName {
    Exten,
    Context,
    Priority,
    Channel,
}

/// A function with a value.
#[derive(Clone, Copy)]
pub enum Function {
    Global,
    Local,
    Len,
    CallerId,
    QueueWaitingCount,
}

/// The name that a channel gives.
fn given_of(name: &[u8]) -> Option<GivenName>
    ensures { result ≡ lookup (same_text name.now) sights.given_names }
{
    if name == b"EXTEN".as_slice() {
        Some(GivenName::Exten)
    } else if name == b"CONTEXT".as_slice() {
        Some(GivenName::Context)
    } else if name == b"PRIORITY".as_slice() {
        Some(GivenName::Priority)
    } else if name == b"CHANNEL".as_slice() {
        Some(GivenName::Channel)
    } else {
        None
    }
}

/// The value of a name that a channel gives; empty if there is no channel.
fn given_value<'a>(channel: Option<ChannelSeen<'a>>, given: GivenName) -> FoundValue<'a>
    ensures { value_bytes result ≡ sights.given_value (option_map sights.view_of channel.entry) given }
{
    let Some(channel) = channel else {
        return FoundValue::Bytes(b"");
    };
    match given {
        GivenName::Exten => FoundValue::Bytes(channel.extension),
        GivenName::Context => FoundValue::Bytes(channel.context),
        GivenName::Priority => FoundValue::Number(u64::from(channel.priority)),
        GivenName::Channel => FoundValue::Channel(channel.number),
    }
}

/// The value of a name in a store, if there is a store.
fn stored_value<'a, B>(store: Option<&'a Store<B>>, name: &[u8]) -> Option<&'a [u8]>
    ensures { option_map (λ value. value.now) result
        ≡ first_value (sights.stored_maps (sights.after store.entry)) name.now }
{
    match store {
        None => None,
        Some(store) => store.get(name),
    }
}

/// Whether a name has a value: from the channel, or as a local, a variable or a global.
pub fn is_set<B, C>(scope: &Scope<'_, B, C>, name: &[u8]) -> bool
    ensures { result ≡ is_some (first_value (sights.maps_of scope.now) name.now) }
{
    if let Some(_given) = given_of(name) {
        return true;
    }
    match stored_value::<B>(scope.store, name) {
        Some(_value) => true,
        None => scope.globals.has(name),
    }
}

/// The value of a name: what the channel gives, else that of the variables and the globals; empty if it has none.
#[inline(always)]
pub fn variable<'a, B, C>(scope: &Scope<'a, B, C>, name: &[u8]) -> FoundValue<'a>
    ensures { value_bytes result ≡ value_or_empty (sights.maps_of scope.now) name.now }
{
    if let Some(given) = given_of(name) {
        return given_value(scope.channel, given);
    }
    match stored_value(scope.store, name) {
        Some(value) => FoundValue::Bytes(value),
        None => FoundValue::Bytes(scope.globals.at(name)),
    }
}

/// The value that something has set for a name, if there is one: that of the variables, else of the globals, whatever the channel gives.
pub fn held_value<'a, B, C>(scope: &Scope<'a, B, C>, name: &[u8]) -> Option<&'a [u8]>
    ensures { option_map (λ value. value.now) result ≡ first_value (sights.held_maps scope.now) name.now }
{
    match stored_value(scope.store, name) {
        Some(value) => Some(value),
        None => scope.globals.get(name),
    }
}

/// The value of a local of the innermost frame, and of no other, or the empty text if there is none.
fn local<'a, B>(store: Option<&'a Store<B>>, name: &[u8]) -> &'a [u8]
    ensures { result.now ≡ sights.local_seen (sights.after store.entry) name.now }
{
    match store {
        None => b"",
        Some(store) => store.local(name).unwrap_or(b""),
    }
}

/// The number of the caller, if that is requested.
fn caller<'a>(channel: Option<ChannelSeen<'a>>, argument: &[u8]) -> &'a [u8]
    ensures { result.now ≡ values.caller_value (sights.caller_of (option_map sights.view_of channel.entry)) argument.now }
{
    match channel {
        Some(channel) => {
            if argument == b"num".as_slice() {
                channel.caller
            } else {
                b""
            }
        }
        None => b"",
    }
}

/// The function with a name, or None if a function with this name is always empty.
pub fn function_of(name: &[u8]) -> Option<Function>
    ensures { result ≡ values.function_of name.now }
{
    if name == b"GLOBAL".as_slice() {
        Some(Function::Global)
    } else if name == b"LOCAL".as_slice() {
        Some(Function::Local)
    } else if name == b"LEN".as_slice() {
        Some(Function::Len)
    } else if name == b"CALLERID".as_slice() {
        Some(Function::CallerId)
    } else if name == b"QUEUE_WAITING_COUNT".as_slice() {
        Some(Function::QueueWaitingCount)
    } else {
        None
    }
}

/// The name of a function.
pub(crate) fn function_name<'a>(function: Function) -> &'a [u8]
    ensures { result.now ≡ values.function_name function }
{
    match function {
        Function::Global => b"GLOBAL",
        Function::Local => b"LOCAL",
        Function::Len => b"LEN",
        Function::CallerId => b"CALLERID",
        Function::QueueWaitingCount => b"QUEUE_WAITING_COUNT",
    }
}

/// The value of a function with an argument.
pub(crate) fn function_value<'a, B, C: Counts>(
    scope: &Scope<'a, B, C>,
    function: Function,
    argument: &[u8],
) -> FoundValue<'a>
    ensures { value_bytes result ≡ values.function_value (sights.sight_of C.count scope.now) (Some function) argument.now }
{
    match function {
        Function::Global => FoundValue::Bytes(scope.globals.at(argument)),
        Function::Local => FoundValue::Bytes(local(scope.store, argument)),
        Function::Len => FoundValue::Number(argument.len() as u64),
        Function::CallerId => FoundValue::Bytes(caller(scope.channel, argument)),
        Function::QueueWaitingCount => FoundValue::Number(scope.counts.waiting(argument) as u64),
    }
}
