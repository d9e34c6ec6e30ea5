//! The functions of the wide table, after the Asterisk documentation's pages on functions.
//!
//! They are the five of every dialplan, those of fields, of texts, of keys and of queues, and cells: any other name, such as `CDR` or
//! `DEVICE_STATE`, has for each argument the value that was written there.
//!
//! The plain name `CHANNEL` has the value that something has set for it, and no other: this machine does not know the names of Asterisk's
//! channels.
//!
//! If a function may not know its value, a text that calls it does not know its own. `INC`, `DEC`, `SHIFT`, `POP`, `EVAL` and `HASH` change
//! variables or read texts again, which no value can do. `REGEX` is left unknown as well: to read its expressions, every run of a dialplan
//! would depend on the library of regular expressions.
ghost use Rattle.std.specs.Prelude.{◌≡◌, IfOk};
ghost use Rattle.dp_vars.specs.Shown.{value_bytes};
ghost use Rattle.dp_vars.specs.Sights.{sight_of};
ghost use Rattle.dp_wide.specs.Functions as spec;

use crate::brackets::reads;
use crate::caller::caller_value;
use crate::cell_values::cell_value;
use crate::fields::{count_value, cut_value};
use crate::names::{is_given_by_asterisk, is_status};
use crate::read_names::was_read;
use crate::settings::setting_target;
use crate::sight_functions::{SightFunction, sight_value};
use crate::text_functions::{TextFunction, text_value};
use dp_conf::NoMemory;
use dp_expr::{ExpressionReading, asterisk_reading};
use dp_vars::{
    Counts, FoundValue, Function, FunctionName, FunctionValue, Functions, Scope, SetTarget,
    StandardFunctions, function_of, held_value, is_set, variable,
};
use std::alloc::Global;
use std::marker::PhantomData;

/// A function that this table has besides the five of every dialplan.
#[derive(Clone, Copy)]
pub(crate) enum WideFunction {
    /// Some fields of a value.
    Cut,
    /// The number of fields of a value.
    FieldQty,
    OfText(TextFunction),
    OfSight(SightFunction),
    /// A function that reads or does more than this machine follows.
    Foreign,
}

/// The function of a text with this name.
fn text_function_of(name: &[u8]) -> Option<TextFunction>
    ensures { result ≡ spec.text_function_of name.now }
{
    if name == b"IF".as_slice() {
        Some(TextFunction::If)
    } else if name == b"FILTER".as_slice() {
        Some(TextFunction::Filter)
    } else if name == b"TOUPPER".as_slice() {
        Some(TextFunction::ToUpper)
    } else if name == b"TOLOWER".as_slice() {
        Some(TextFunction::ToLower)
    } else if name == b"ISNULL".as_slice() {
        Some(TextFunction::IsNull)
    } else if name == b"EXISTS".as_slice() {
        Some(TextFunction::Exists)
    } else {
        None
    }
}

/// The function of a key or of a queue's name that has this name.
fn sight_function_of(name: &[u8]) -> Option<SightFunction>
    ensures { result ≡ spec.sight_function_of name.now }
{
    if name == b"DB_EXISTS".as_slice() {
        Some(SightFunction::DbExists)
    } else if name == b"DB_DELETE".as_slice() {
        Some(SightFunction::DbDelete)
    } else if name == b"QUEUE_EXISTS".as_slice() {
        Some(SightFunction::QueueExists)
    } else if name == b"QUEUE_MEMBER_COUNT".as_slice() {
        Some(SightFunction::QueueMemberCount)
    } else {
        None
    }
}

/// Whether the function with this name reads or does more than this machine follows.
fn is_foreign(name: &[u8]) -> bool
    ensures { result ≡ spec.is_foreign name.now }
{
    name == b"REGEX".as_slice()
        || name == b"INC".as_slice()
        || name == b"DEC".as_slice()
        || name == b"SHIFT".as_slice()
        || name == b"POP".as_slice()
        || name == b"EVAL".as_slice()
        || name == b"HASH".as_slice()
}

/// The function of a text, or of what a text can see, with this name.
fn plain_function_of(name: &[u8]) -> Option<WideFunction>
    ensures { result ≡ spec.plain_function_of name.now }
{
    match text_function_of(name) {
        Some(function) => Some(WideFunction::OfText(function)),
        None => match sight_function_of(name) {
            Some(function) => Some(WideFunction::OfSight(function)),
            None => None,
        },
    }
}

/// The function with this name besides the five of every dialplan, or None if the name is that of cells.
fn wide_function_of(name: &[u8]) -> Option<WideFunction>
    ensures { result ≡ spec.wide_function_of name.now }
{
    if name == b"CUT".as_slice() {
        Some(WideFunction::Cut)
    } else if name == b"FIELDQTY".as_slice() {
        Some(WideFunction::FieldQty)
    } else if is_foreign(name) {
        Some(WideFunction::Foreign)
    } else {
        plain_function_of(name)
    }
}

/// Whether the name is that of a function and not only of cells.
pub fn is_computed(name: &[u8]) -> bool
    ensures { result ≡ spec.is_computed name.now }
{
    function_of(name).is_some() || wide_function_of(name).is_some()
}

/// The value of one of the five functions of every dialplan.
fn five_value<'a, B, C: Counts>(
    alloc: Global,
    scope: &Scope<'a, B, C>,
    function: Function,
    argument: &[u8],
) -> Result<FunctionValue<'a>, NoMemory>
    ensures value { IfOk result (λ found. value_bytes found.value
        ≡ spec.five_value (sight_of C.count scope.now) function argument.now) }
    ensures known { IfOk result (λ found. found.is_known
        ≡ spec.knows_five (sight_of C.count scope.now) function argument.now) }
{
    let name = FunctionName::Known(function);
    match function {
        Function::CallerId => caller_value(alloc, scope, argument),
        Function::Global | Function::Local | Function::Len | Function::QueueWaitingCount => {
            StandardFunctions::value(alloc, scope, name, argument)
        }
    }
}

/// The value of a further function of this table.
fn wide_value<'a, F: Functions, B, C: Counts>(
    alloc: Global,
    scope: &Scope<'a, B, C>,
    function: WideFunction,
    argument: &[u8],
) -> Result<FunctionValue<'a>, NoMemory>
    ensures value { IfOk result (λ found. value_bytes found.value
        ≡ spec.wide_value F.table (sight_of C.count scope.now) function argument.now) }
    ensures known { IfOk result (λ found. found.is_known
        ≡ spec.knows_wide F.table (sight_of C.count scope.now) function argument.now) }
{
    match function {
        WideFunction::Cut => cut_value::<F, B, C>(alloc, scope, argument),
        WideFunction::FieldQty => count_value::<F, B, C>(alloc, scope, argument),
        WideFunction::OfText(function) => {
            let value = text_value(alloc, function, argument)?;
            Ok(FunctionValue {
                value,
                is_known: true,
            })
        }
        WideFunction::OfSight(function) => sight_value(alloc, scope, function, argument),
        WideFunction::Foreign => Ok(FunctionValue {
            value: FoundValue::Bytes(b""),
            is_known: false,
        }),
    }
}

/// The value of a name other than the five.
fn other_value<'a, F: Functions, B, C: Counts>(
    alloc: Global,
    scope: &Scope<'a, B, C>,
    name: &[u8],
    argument: &[u8],
) -> Result<FunctionValue<'a>, NoMemory>
    ensures value { IfOk result (λ found. value_bytes found.value
        ≡ spec.other_value F.table (sight_of C.count scope.now) (spec.wide_function_of name.now) name.now argument.now) }
    ensures known { IfOk result (λ found. found.is_known
        ≡ spec.knows_other F.table (sight_of C.count scope.now) (spec.wide_function_of name.now) name.now argument.now) }
{
    match wide_function_of(name) {
        None => cell_value(alloc, scope, name, argument),
        Some(function) => wide_value::<F, B, C>(alloc, scope, function, argument),
    }
}

/// Whether a plain name has a value from outside.
fn comes_from_outside<B, C: Counts>(scope: &Scope<'_, B, C>, name: &[u8]) -> bool
    ensures { result ≡ spec.comes_from_outside (sight_of C.count scope.now) name.now }
{
    is_status(name) || is_given_by_asterisk(name) || was_read(scope, name)
}

/// Whether a plain name is that of the channel itself, which only Asterisk gives.
fn is_channel_name(name: &[u8]) -> bool
    ensures { result ≡ spec.is_channel_name name.now }
{
    name == b"CHANNEL".as_slice()
}

/// The value of a plain name. For the name of the channel it is what something has set.
fn plain_value<'a, B, C: Counts>(scope: &Scope<'a, B, C>, name: &[u8]) -> FoundValue<'a>
    ensures { value_bytes result ≡ spec.plain_value (sight_of C.count scope.now) name.now }
{
    if !is_channel_name(name) {
        return variable(scope, name);
    }
    match held_value(scope, name) {
        Some(value) => FoundValue::Bytes(value),
        None => FoundValue::Bytes(b""),
    }
}

/// Whether a plain name has a value. The name of the channel has one if something has set it.
fn plain_is_set<B, C: Counts>(scope: &Scope<'_, B, C>, name: &[u8]) -> bool
    ensures { result ≡ spec.plain_is_set (sight_of C.count scope.now) name.now }
{
    if is_channel_name(name) {
        return held_value(scope, name).is_some();
    }
    is_set(scope, name)
}

/// Whether a plain name is known.
fn is_known_name<B, C: Counts>(scope: &Scope<'_, B, C>, name: &[u8]) -> bool
    ensures { result ≡ spec.knows_name (sight_of C.count scope.now) name.now }
{
    if comes_from_outside(scope, name) {
        return plain_is_set(scope, name);
    }
    true
}

/// No functions: every function call is empty and unknown.
struct NoCalls;

impl Functions for NoCalls {
    ghost table = { spec.no_calls };

    fn value<'a, B, C: Counts>(
        _alloc: Global,
        _scope: &Scope<'a, B, C>,
        _name: FunctionName<'_>,
        _argument: &[u8],
    ) -> Result<FunctionValue<'a>, NoMemory> {
        Ok(FunctionValue {
            value: FoundValue::Bytes(b""),
            is_known: false,
        })
    }

    fn variable<'a, B, C: Counts>(scope: &Scope<'a, B, C>, name: &[u8]) -> FoundValue<'a> {
        plain_value(scope, name)
    }

    fn knows_name<B, C: Counts>(scope: &Scope<'_, B, C>, name: &[u8]) -> bool {
        is_known_name(scope, name)
    }

    fn reads(alloc: Global, text: &[u8]) -> Result<bool, NoMemory> {
        reads(alloc, text)
    }

    fn expression(alloc: Global, body: &[u8]) -> Result<ExpressionReading, NoMemory> {
        asterisk_reading(alloc, body)
    }

    fn target(name: &[u8]) -> SetTarget<'_> {
        setting_target(name)
    }
}

/// The functions when those of `F` read the names in arguments.
struct Around<F> {
    inner: PhantomData<F>,
}

impl<F: Functions> Functions for Around<F> {
    ghost table = { spec.around F.table };

    #[tactic(auto, unfolding(crate::specs::Functions::around))]
    fn value<'a, B, C: Counts>(
        alloc: Global,
        scope: &Scope<'a, B, C>,
        name: FunctionName<'_>,
        argument: &[u8],
    ) -> Result<FunctionValue<'a>, NoMemory> {
        match name.known_function() {
            Some(function) => five_value(alloc, scope, function, argument),
            None => other_value::<F, B, C>(alloc, scope, name.bytes(), argument),
        }
    }

    #[tactic(auto, unfolding(crate::specs::Functions::around))]
    fn variable<'a, B, C: Counts>(scope: &Scope<'a, B, C>, name: &[u8]) -> FoundValue<'a> {
        plain_value(scope, name)
    }

    #[tactic(auto, unfolding(crate::specs::Functions::around))]
    fn knows_name<B, C: Counts>(scope: &Scope<'_, B, C>, name: &[u8]) -> bool {
        is_known_name(scope, name)
    }

    #[tactic(auto, unfolding(crate::specs::Functions::around))]
    fn reads(alloc: Global, text: &[u8]) -> Result<bool, NoMemory> {
        reads(alloc, text)
    }

    #[tactic(auto, unfolding(crate::specs::Functions::around))]
    fn expression(alloc: Global, body: &[u8]) -> Result<ExpressionReading, NoMemory> {
        asterisk_reading(alloc, body)
    }

    #[tactic(auto, unfolding(crate::specs::Functions::around))]
    fn target(name: &[u8]) -> SetTarget<'_> {
        setting_target(name)
    }
}

/// The functions with four more calls around those of `F`.
type Four<F> = Around<Around<Around<Around<F>>>>;

/// The functions when at most 8 function calls stand inside each other.
type Nested = Four<Four<NoCalls>>;

/// The functions of the wide table. At most 8 function calls stand inside each other in one group. A deeper call is empty and unknown (a
/// choice of this program).
pub struct WideFunctions;

impl Functions for WideFunctions {
    ghost table = { spec.wide_functions };

    #[tactic(auto, unfolding(crate::specs::Functions::within))]
    fn value<'a, B, C: Counts>(
        alloc: Global,
        scope: &Scope<'a, B, C>,
        name: FunctionName<'_>,
        argument: &[u8],
    ) -> Result<FunctionValue<'a>, NoMemory> {
        Nested::value(alloc, scope, name, argument)
    }

    fn variable<'a, B, C: Counts>(scope: &Scope<'a, B, C>, name: &[u8]) -> FoundValue<'a> {
        plain_value(scope, name)
    }

    fn knows_name<B, C: Counts>(scope: &Scope<'_, B, C>, name: &[u8]) -> bool {
        is_known_name(scope, name)
    }

    fn reads(alloc: Global, text: &[u8]) -> Result<bool, NoMemory> {
        reads(alloc, text)
    }

    fn expression(alloc: Global, body: &[u8]) -> Result<ExpressionReading, NoMemory> {
        asterisk_reading(alloc, body)
    }

    fn target(name: &[u8]) -> SetTarget<'_> {
        setting_target(name)
    }
}
