//! The names that `Read` was given, after the Asterisk documentation's page on `Read`.
//!
//! The input comes from outside. Until something sets such a name its value is unknown, and a channel keeps these names in the variable
//! `READ()` (a choice of this program).
ghost use Rattle.std.specs.Prelude.{◌≡◌, [], ◌∷◌, IfOk, codes};
ghost use Rattle.std.specs.Option.{option_map};
ghost use Rattle.dp_vars.specs.Sights.{after, sight_of, stored_maps};
ghost use Rattle.dp_vars.specs.Variables.{first_value};
ghost use Rattle.dp_wide.specs.ReadNames as spec;

use crate::names::same_text;
use dp_conf::NoMemory;
use dp_vars::{Counts, Globals, Scope, Store};
use std::alloc::Global;

/// Whether a name is one of those between the commas of a text.
fn is_listed(names: &[u8], name: &[u8]) -> bool
    ensures { result ≡ spec.is_listed names.now name.now }
{
    names
        .split(|byte| *byte == b',')
        .any(|listed| same_text(name, listed))
}

/// A text of names with one more name, unless it already has this one.
pub(crate) fn with_listed(
    alloc: Global,
    names: Option<&[u8]>,
    name: &[u8],
) -> Result<Vec<u8>, NoMemory>
    ensures { IfOk result (λ text. text.items ≡ spec.with_listed (option_map (λ names. names.now) names.entry) name.now) }
{
    let Some(names) = names else {
        return Vec::from_slice(alloc, name);
    };
    let mut text = Vec::from_slice(alloc, names)?;
    if !is_listed(names, name) {
        text.push(b',')?;
        text.extend_from_slice(name)?;
    }
    Ok(text)
}

/// The text of names in a store, if there is a store.
fn names_in_store<'a, B>(store: Option<&'a Store<B>>) -> Option<&'a [u8]>
    ensures { option_map (λ names. names.now) result ≡ first_value (stored_maps (after store.entry)) spec.read_names }
{
    match store {
        None => None,
        Some(store) => store.get(b"READ()"),
    }
}

/// The text of names in the globals.
fn names_in_globals(globals: &Globals) -> Option<&[u8]>
    ensures { option_map (λ names. names.now) result ≡ first_value (globals.now ∷ []) spec.read_names }
{
    if globals.has(b"READ()") {
        return Some(globals.at(b"READ()"));
    }
    None
}

/// The text of names in a scope.
fn names_seen<'a, B, C: Counts>(scope: &Scope<'a, B, C>) -> Option<&'a [u8]>
    ensures { option_map (λ names. names.now) result ≡ spec.names_seen (sight_of C.count scope.now) }
{
    match names_in_store::<B>(scope.store) {
        Some(names) => Some(names),
        None => names_in_globals(scope.globals),
    }
}

/// Whether `Read` was given a name.
pub(crate) fn was_read<B, C: Counts>(scope: &Scope<'_, B, C>, name: &[u8]) -> bool
    ensures { result ≡ spec.was_read (sight_of C.count scope.now) name.now }
{
    match names_seen(scope) {
        None => false,
        Some(names) => is_listed(names, name),
    }
}
