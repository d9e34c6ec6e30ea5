//! Functions of what a text can see, after the Asterisk documentation's pages on the functions `DB_EXISTS`, `DB_DELETE`,
//! `QUEUE_EXISTS` and `QUEUE_MEMBER_COUNT`.
ghost use Rattle.std.specs.Prelude.{◌≡◌, IfOk, true};
ghost use Rattle.dp_vars.specs.Shown.{value_bytes};
ghost use Rattle.dp_vars.specs.Sights.{sight_of};
ghost use Rattle.dp_wide.specs.SightFunctions as spec;

use crate::cell_values::{cell_value, knows_cell};
use crate::cells::cell_name;
use dp_conf::NoMemory;
use dp_vars::{Counts, FoundValue, FunctionValue, Scope};
use std::alloc::Global;

/// A function of a key of the database or of a queue's name.
#[derive(Clone, Copy)]
pub(crate) enum SightFunction {
    /// Whether the value of a key is not empty.
    DbExists,
    /// The value of a key, which stays as it is (a choice of this program).
    DbDelete,
    /// Whether there is such a queue.
    QueueExists,
    /// The number of members of a queue; 0 if there is no such queue (a choice of this program).
    QueueMemberCount,
}

/// `1` for yes, and `0` for no.
pub(crate) fn flag<'a>(holds: bool) -> FoundValue<'a>
    ensures { value_bytes result ≡ spec.flag holds }
{
    if holds {
        FoundValue::Bytes(b"1")
    } else {
        FoundValue::Bytes(b"0")
    }
}

/// A value that is known.
fn known_value(value: FoundValue<'_>) -> FunctionValue<'_>
    ensures value { value_bytes result.value ≡ value_bytes value.entry }
    ensures known { result.is_known ≡ true }
{
    FunctionValue {
        value,
        is_known: true,
    }
}

/// Whether the value of a key is not empty.
fn key_exists<'a, B, C: Counts>(
    alloc: Global,
    scope: &Scope<'a, B, C>,
    key: &[u8],
) -> Result<FunctionValue<'a>, NoMemory>
    ensures value { IfOk result (λ found. value_bytes found.value
        ≡ spec.sight_value (sight_of C.count scope.now) SightFunction.DbExists key.now) }
    ensures known { IfOk result (λ found. found.is_known
        ≡ spec.knows_sight (sight_of C.count scope.now) SightFunction.DbExists key.now) }
{
    let name = cell_name(alloc, b"DB", key)?;
    Ok(FunctionValue {
        value: flag(!scope.globals.at(&name).is_empty()),
        is_known: knows_cell(alloc, scope, b"DB", key, scope.globals.has(&name))?,
    })
}

/// The number of members of a queue.
fn member_count<'a, B, C: Counts>(scope: &Scope<'a, B, C>, queue: &[u8]) -> FoundValue<'a>
    ensures { value_bytes result
        ≡ spec.sight_value (sight_of C.count scope.now) SightFunction.QueueMemberCount queue.now }
{
    match scope.counts.members(queue) {
        Some(count) => FoundValue::Number(count as u64),
        None => FoundValue::Number(0),
    }
}

/// The value of a function of a key or of a queue's name.
pub(crate) fn sight_value<'a, B, C: Counts>(
    alloc: Global,
    scope: &Scope<'a, B, C>,
    function: SightFunction,
    argument: &[u8],
) -> Result<FunctionValue<'a>, NoMemory>
    ensures value { IfOk result (λ found. value_bytes found.value
        ≡ spec.sight_value (sight_of C.count scope.now) function argument.now) }
    ensures known { IfOk result (λ found. found.is_known
        ≡ spec.knows_sight (sight_of C.count scope.now) function argument.now) }
{
    match function {
        SightFunction::DbExists => key_exists(alloc, scope, argument),
        SightFunction::DbDelete => cell_value(alloc, scope, b"DB", argument),
        SightFunction::QueueExists => {
            let exists = scope.counts.members(argument).is_some();
            Ok(known_value(flag(exists)))
        }
        SightFunction::QueueMemberCount => Ok(known_value(member_count(scope, argument))),
    }
}
