//! The functions of a table by another author.
ghost use Rattle.std.specs.Prelude.{◌≡◌, ◌++◌, IfOk};
ghost use Rattle.dp_own_table.specs.OwnFunctions as spec;

use dp_conf::NoMemory;
use dp_vars::{
    Counts, ExpressionReading, FoundValue, FunctionName, FunctionValue, Functions, Scope,
    SetTarget, StandardFunctions, is_set, variable,
};
use std::alloc::Global;

/// `TWICE(text)`: the text twice. `BOX(key)`: the variable with that very name, which is known if it was set. `AWAY(x)` is never known. The
/// other names are those of the program. The variable `STATUS` is known if it was set. The expression `$[?]` is unknown, and `$[!]` is `0`.
/// The text `${[}` has groups which this program does not read.
pub struct OwnFunctions;

/// The name of the variable for `BOX(key)`.
fn box_name(alloc: Global, key: &[u8]) -> Result<Vec<u8>, NoMemory>
    ensures { IfOk result (λ name. name.items ≡ spec.box_name key.now) }
{
    let mut name = Vec::from_slice(alloc, b"BOX(")?;
    name.extend_from_slice(key)?;
    name.push(b')')?;
    Ok(name)
}

/// A text twice.
fn twice(alloc: Global, text: &[u8]) -> Result<Vec<u8>, NoMemory>
    ensures { IfOk result (λ bytes. bytes.items ≡ text.now ++ text.now) }
{
    let mut bytes = Vec::from_slice(alloc, text)?;
    bytes.extend_from_slice(text)?;
    Ok(bytes)
}

impl Functions for OwnFunctions {
    ghost table = { spec.own_functions };

    fn value<'a, B, C: Counts>(
        alloc: Global,
        scope: &Scope<'a, B, C>,
        name: FunctionName<'_>,
        argument: &[u8],
    ) -> Result<FunctionValue<'a>, NoMemory> {
        if name.bytes() == b"TWICE".as_slice() {
            return Ok(FunctionValue {
                value: FoundValue::Owned(twice(alloc, argument)?),
                is_known: true,
            });
        }
        if name.bytes() == b"BOX".as_slice() {
            let cell = box_name(alloc, argument)?;
            return Ok(FunctionValue {
                value: variable(scope, &cell),
                is_known: is_set(scope, &cell),
            });
        }
        if name.bytes() == b"AWAY".as_slice() {
            return Ok(FunctionValue {
                value: FoundValue::Bytes(b""),
                is_known: false,
            });
        }
        StandardFunctions::value(alloc, scope, name, argument)
    }

    fn variable<'a, B, C: Counts>(scope: &Scope<'a, B, C>, name: &[u8]) -> FoundValue<'a> {
        variable(scope, name)
    }

    fn knows_name<B, C: Counts>(scope: &Scope<'_, B, C>, name: &[u8]) -> bool {
        name != b"STATUS".as_slice() || is_set(scope, name)
    }

    fn reads(_alloc: Global, text: &[u8]) -> Result<bool, NoMemory> {
        Ok(text != b"${[}".as_slice())
    }

    fn expression(_alloc: Global, body: &[u8]) -> Result<ExpressionReading, NoMemory> {
        if body == b"?".as_slice() {
            Ok(ExpressionReading::Unknown)
        } else if body == b"!".as_slice() {
            Ok(ExpressionReading::Zero)
        } else {
            Ok(ExpressionReading::Value)
        }
    }

    fn target(name: &[u8]) -> SetTarget<'_> {
        if name == b"ALL".as_slice() {
            SetTarget::Global(name)
        } else if name == b"MINE".as_slice() {
            SetTarget::Local(name)
        } else if name == b"WHO".as_slice() {
            SetTarget::Caller
        } else if name == b"NONE".as_slice() {
            SetTarget::Nothing
        } else {
            SetTarget::Variable(name)
        }
    }
}
