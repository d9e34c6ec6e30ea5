//! Claims about values.
ghost use Rattle.std.specs.Prelude.{◌≡◌, IfOk};
ghost use Rattle.std.specs.Option.{option_map};
ghost use Rattle.dp_conf.specs.Cut.{cut_once as cut_of};
ghost use Rattle.dp_conf.specs.Words.{same_text};
ghost use Rattle.dp_test_runs.specs.Verdicts as spec;

use dp_conf::cut_once;
use dp_machine::{Expanded, Machine, NoMemory};
use dp_wide::{WideApps, assumed_name, is_given_by_asterisk, is_status};
use std::alloc::Global;

/// Whether two texts have the same bytes.
fn is_same(a: &[u8], b: &[u8]) -> bool
    ensures { result ≡ same_text a.now b.now }
{
    a == b
}

/// The group that reads a name in a channel, `${NAME}`.
fn group_of(alloc: Global, name: &[u8]) -> Result<Vec<u8>, NoMemory>
    ensures { IfOk result (λ group. group.items ≡ spec.group_of name.now) }
{
    let mut group = Vec::from_slice(alloc, b"${")?;
    group.extend_from_slice(name)?;
    group.extend_from_slice(b"}")?;
    Ok(group)
}

/// The bytes of an expanded text, unless something in it is unknown.
fn unless_unknown(expanded: Expanded) -> Option<Vec<u8>>
    ensures { option_map (λ text. text.items) result
        ≡ spec.unless_unknown (option_map (λ group. group.items) expanded.unknown) (Some expanded.bytes.items) }
{
    let Expanded { bytes, unknown } = expanded;
    if unknown.is_some() {
        return None;
    }
    Some(bytes)
}

/// The value of a name in a channel, if there is such a channel and the value is known.
fn known_value(
    alloc: Global,
    machine: &Machine<WideApps>,
    channel: u32,
    name: &[u8],
) -> Result<Option<Vec<u8>>, NoMemory>
    ensures { IfOk result (λ value. option_map (λ text. text.items) value ≡ spec.known_value machine.now channel name.now) }
{
    let group = group_of(alloc, name)?;
    match machine.expand(alloc, channel, &group)? {
        Some(expanded) => Ok(unless_unknown(expanded)),
        None => Ok(None),
    }
}

/// Whether a script has said that the unwritten cells of a function are empty.
fn is_assumed(alloc: Global, machine: &Machine<WideApps>, function: &[u8]) -> Result<bool, NoMemory>
    ensures { IfOk result (λ is_assumed. is_assumed ≡ spec.is_assumed machine.now function.now) }
{
    let name = assumed_name(alloc, function)?;
    Ok(!machine.global(&name).is_empty())
}

/// Whether an empty global may have a value that is unknown.
fn may_be_outside(alloc: Global, machine: &Machine<WideApps>, name: &[u8]) -> Result<bool, NoMemory>
    ensures { IfOk result (λ may. may ≡ spec.may_be_outside machine.now name.now (cut_of 40 name.now)) }
{
    match cut_once(name, b'(') {
        Some((function, _)) => {
            let is_assumed = is_assumed(alloc, machine, function)?;
            Ok(!is_assumed)
        }
        None => Ok(is_status(name) || is_given_by_asterisk(name)),
    }
}

/// Whether the value of a global is known.
fn knows_global(alloc: Global, machine: &Machine<WideApps>, name: &[u8]) -> Result<bool, NoMemory>
    ensures { IfOk result (λ knows. knows ≡ spec.knows_global machine.now name.now) }
{
    if !machine.global(name).is_empty() {
        return Ok(true);
    }
    let may = may_be_outside(alloc, machine, name)?;
    Ok(!may)
}

/// The value of a global, if it is known.
fn known_global(
    alloc: Global,
    machine: &Machine<WideApps>,
    name: &[u8],
) -> Result<Option<Vec<u8>>, NoMemory>
    ensures { IfOk result (λ value. option_map (λ text. text.items) value ≡ spec.known_global machine.now name.now) }
{
    if knows_global(alloc, machine, name)? {
        let value = Vec::from_slice(alloc, machine.global(name))?;
        return Ok(Some(value));
    }
    Ok(None)
}

/// The value of a name in a channel or, without one, of a global, if it is known.
pub(crate) fn value_of(
    alloc: Global,
    machine: &Machine<WideApps>,
    channel: Option<u32>,
    name: &[u8],
) -> Result<Option<Vec<u8>>, NoMemory>
    ensures { IfOk result (λ value. option_map (λ text. text.items) value ≡ spec.value_of machine.now channel name.now) }
{
    match channel {
        Some(channel) => known_value(alloc, machine, channel, name),
        None => known_global(alloc, machine, name),
    }
}

/// Whether a name has a value in a channel or, without one, among the globals; None if the value is unknown.
pub(crate) fn has_value(
    alloc: Global,
    machine: &Machine<WideApps>,
    channel: Option<u32>,
    name: &[u8],
    value: &[u8],
) -> Result<Option<bool>, NoMemory>
    ensures { IfOk result (λ has. has ≡ spec.has_value machine.now channel name.now value.now) }
{
    match value_of(alloc, machine, channel, name)? {
        Some(held) => Ok(Some(is_same(&held, value))),
        None => Ok(None),
    }
}
