//! The functions in the texts of a dialplan, given by a table, after the Asterisk documentation's pages on functions.
ghost use Rattle.std.specs.Prelude.{◌≡◌, IfOk};
ghost use Rattle.dp_vars.specs.Functions.{FunctionTable, target_seen};
ghost use Rattle.dp_vars.specs.Shown.{name_bytes, value_bytes};
ghost use Rattle.dp_vars.specs.Sights.{sight_of};
ghost use Rattle.dp_vars.specs.Values as values;

use crate::scope::{Counts, Scope};
use crate::value::{FoundValue, Function, function_name, function_of, function_value, variable};
use dp_conf::NoMemory;
use dp_expr::ExpressionReading;
use std::alloc::Global;

/// The name of a function: one of the five that every table can recognize at once, or any other as its bytes.
#[derive(Clone, Copy)]
pub enum FunctionName<'a> {
    Known(Function),
    Other(&'a [u8]),
}

/// The value of a function, and whether its name and its argument are known.
#[derive(Drop)]
pub struct FunctionValue<'a> {
    pub value: FoundValue<'a>,
    pub is_known: bool,
}

/// The target of setting a name from outside.
#[derive(Clone, Copy)]
pub enum SetTarget<'a> {
    /// The variable with this name.
    Variable(&'a [u8]),
    /// The global with this name.
    Global(&'a [u8]),
    /// The local with this name, in the innermost frame.
    Local(&'a [u8]),
    /// The number of the caller.
    Caller,
    Nothing,
}

/// A table of functions: their values given names and arguments, how groups and expressions are read, and what setting a name sets.
pub trait Functions {
    // The meaning of the functions.
    ghost table: { FunctionTable };

    /// The value of a function with an argument, and whether the name and the argument are known.
    ///
    /// It fails only if memory runs out.
    fn value<'a, B, C: Counts>(
        alloc: Global,
        scope: &Scope<'a, B, C>,
        name: FunctionName<'_>,
        argument: &[u8],
    ) -> Result<FunctionValue<'a>, NoMemory>
        ensures value { IfOk result (λ found. value_bytes found.value ≡ table.value (sight_of C.count scope.now) (name_bytes name.entry) argument.now) }
        ensures known { IfOk result (λ found. found.is_known ≡ table.knows (sight_of C.count scope.now) (name_bytes name.entry) argument.now) };

    /// The value of a plain name.
    fn variable<'a, B, C: Counts>(scope: &Scope<'a, B, C>, name: &[u8]) -> FoundValue<'a>
        ensures { value_bytes result ≡ table.variable (sight_of C.count scope.now) name.now };

    /// Whether the value of a plain name is known.
    fn knows_name<B, C: Counts>(scope: &Scope<'_, B, C>, name: &[u8]) -> bool
        ensures { result ≡ table.knows_name (sight_of C.count scope.now) name.now };

    /// Whether a text has the groups that this program reads in it.
    ///
    /// It fails only if memory runs out.
    fn reads(alloc: Global, text: &[u8]) -> Result<bool, NoMemory>
        ensures { IfOk result (λ is. is ≡ table.reads text.now) };

    /// How an expression is read, in addition to its value, given its body between the brackets.
    ///
    /// It fails only if memory runs out.
    fn expression(alloc: Global, body: &[u8]) -> Result<ExpressionReading, NoMemory>
        ensures { IfOk result (λ reading. reading ≡ table.expression body.now) };

    /// The target of setting this name from outside.
    fn target(name: &[u8]) -> SetTarget<'_>
        ensures { target_seen result ≡ table.target name.now };
}

impl<'a> FunctionName<'a> {
    /// The name with these bytes.
    pub fn of(name: &'a [u8]) -> Self
        ensures { name_bytes result ≡ name.now }
    {
        match function_of(name) {
            Some(function) => FunctionName::Known(function),
            None => FunctionName::Other(name),
        }
    }

    /// The bytes of the name.
    pub fn bytes(self) -> &'a [u8]
        ensures { result.now ≡ name_bytes self.entry }
    {
        match self {
            FunctionName::Known(function) => function_name(function),
            FunctionName::Other(name) => name,
        }
    }

    /// The function with this name among the five, or None if it is none of them.
    pub fn known_function(self) -> Option<Function>
        ensures { result ≡ values.function_of (name_bytes self.entry) }
    {
        match self {
            FunctionName::Known(function) => Some(function),
            FunctionName::Other(name) => function_of(name),
        }
    }
}

/// The five functions that a dialplan always has. Any other name is empty, an expression has its value, and setting a name sets the
/// variable. A plain name has the value that the channel gives, else that of a variable or a global.
pub struct StandardFunctions;

impl Functions for StandardFunctions {
    ghost table = { values.standard_functions };

    fn value<'a, B, C: Counts>(
        _alloc: Global,
        scope: &Scope<'a, B, C>,
        name: FunctionName<'_>,
        argument: &[u8],
    ) -> Result<FunctionValue<'a>, NoMemory> {
        let value = match name.known_function() {
            Some(function) => function_value(scope, function, argument),
            None => FoundValue::Bytes(b""),
        };
        Ok(FunctionValue {
            value,
            is_known: true,
        })
    }

    #[inline(always)]
    fn variable<'a, B, C: Counts>(scope: &Scope<'a, B, C>, name: &[u8]) -> FoundValue<'a> {
        variable(scope, name)
    }

    #[inline(always)]
    fn knows_name<B, C: Counts>(_scope: &Scope<'_, B, C>, _name: &[u8]) -> bool {
        true
    }

    #[inline(always)]
    fn reads(_alloc: Global, _text: &[u8]) -> Result<bool, NoMemory> {
        Ok(true)
    }

    #[inline(always)]
    fn expression(_alloc: Global, _body: &[u8]) -> Result<ExpressionReading, NoMemory> {
        Ok(ExpressionReading::Value)
    }

    fn target(name: &[u8]) -> SetTarget<'_> {
        SetTarget::Variable(name)
    }
}
