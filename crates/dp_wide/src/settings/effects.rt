//! The effects of setting names.
ghost use Rattle.std.specs.Prelude.{◌≡◌, ◌≢◌, ℕ, List};
ghost use Rattle.dp_vars.specs.Functions.{Nothing, target_seen};
ghost use Rattle.dp_wide.specs.Settings as spec;
ghost use Rattle.dp_wide.specs.Settings.{Settable};
ghost use Rattle.dp_wide.specs.Effects.{effect_seen};

use crate::cells::is_of_all;
use dp_conf::{cut_once, trim};
use dp_flow::argument_of;
use dp_vars::SetTarget;

/// What setting a name does.
#[derive(Clone, Copy)]
pub enum Effect<'a> {
    /// One thing.
    OneTarget(SetTarget<'a>),
    /// The name and the number of the caller.
    NameAndNumber,
    /// The cell of a key of the database, which becomes empty.
    EmptyKey(&'a [u8]),
    /// Each of the names between commas.
    EachName(&'a [u8]),
}

/// A name without a leading mark of inheritance.
fn without_mark(name: &[u8]) -> &[u8]
    ensures { result.now ≡ spec.without_mark name.now }
{
    match name.split_first() {
        Some((b'_', rest)) => rest,
        _ => name,
    }
}

/// A name that is set, without blanks at its ends and without up to two marks of inheritance, each a `_`.
pub fn bare_name(name: &[u8]) -> &[u8]
    ensures { result.now ≡ spec.bare_name name.now }
{
    without_mark(without_mark(trim(name)))
}

/// Whether setting the function does more than to write a cell.
pub(crate) fn does_more(function: &[u8], argument: &[u8]) -> bool
    ensures { result ≡ spec.does_more function.now argument.now }
{
    function == b"HASH".as_slice()
        || function == b"PUSH".as_slice()
        || function == b"UNSHIFT".as_slice()
        || function == b"INC".as_slice()
        || function == b"DEC".as_slice()
        || function == b"SHIFT".as_slice()
        || function == b"POP".as_slice()
        || function == b"EVAL".as_slice()
        || (function == b"CHANNEL".as_slice() && argument == b"hangup_handler_push".as_slice())
}

/// The cell of a function, given its whole name.
fn cell_target<'a>(name: &'a [u8], function: &[u8]) -> SetTarget<'a>
    ensures { target_seen result ≡ spec.cell_target name.now function.now }
{
    if is_of_all(function) {
        SetTarget::Global(name)
    } else {
        SetTarget::Variable(name)
    }
}

/// What `CALLERID` with an argument sets, given the whole name.
fn caller_effect<'a>(name: &'a [u8], argument: &[u8]) -> Effect<'a>
    ensures { effect_seen result ≡ spec.caller_effect name.now argument.now }
{
    if argument == b"num".as_slice() || argument == b"number".as_slice() {
        Effect::OneTarget(SetTarget::Caller)
    } else if argument == b"all".as_slice() {
        Effect::NameAndNumber
    } else {
        Effect::OneTarget(SetTarget::Variable(name))
    }
}

/// What a function with an argument sets, given the whole name.
fn function_effect<'a>(name: &'a [u8], function: &[u8], argument: &'a [u8]) -> Effect<'a>
    ensures { effect_seen result ≡ spec.function_effect name.now function.now argument.now }
{
    if function == b"GLOBAL".as_slice() {
        Effect::OneTarget(SetTarget::Global(argument))
    } else if function == b"LOCAL".as_slice() {
        Effect::OneTarget(SetTarget::Local(argument))
    } else if function == b"CALLERID".as_slice() {
        caller_effect(name, argument)
    } else if function == b"DB_DELETE".as_slice() {
        Effect::EmptyKey(argument)
    } else if function == b"ARRAY".as_slice() {
        Effect::EachName(argument)
    } else if does_more(function, argument) {
        Effect::OneTarget(SetTarget::Nothing)
    } else {
        Effect::OneTarget(cell_target(name, function))
    }
}

/// The variable with a name; the empty name sets nothing.
fn variable_target(name: &[u8]) -> SetTarget<'_>
    ensures { target_seen result ≡ spec.variable_target name.now }
{
    if name.is_empty() {
        SetTarget::Nothing
    } else {
        SetTarget::Variable(name)
    }
}

/// What a name sets, given without blanks at its ends and without marks of inheritance, as [`bare_name`] gives it.
#[tactic(auto, unfolding(crate::specs::Settings::effect_of))]
pub fn effect_of(name: &[u8]) -> Effect<'_>
    ensures { effect_seen result ≡ spec.effect_of name.now }
{
    match cut_once(name, b'(') {
        None => Effect::OneTarget(variable_target(name)),
        Some((function, after)) => match argument_of(after) {
            None => Effect::OneTarget(SetTarget::Nothing),
            Some(argument) => function_effect(name, function, argument),
        },
    }
}

/// What setting this name from outside sets: what `Set` sets with it if that is one thing, else nothing.
///
/// Up to two leading marks of inheritance, each a `_`, have no effect. `GLOBAL(name)` is a global, `LOCAL(name)` a local of the innermost
/// frame, and `CALLERID(num)` or `CALLERID(number)` the caller's number. Any other `NAME(argument)` is a cell: a global for functions whose
/// cells belong to all channels, and a variable for the others.
pub fn setting_target(name: &[u8]) -> SetTarget<'_>
    ensures { target_seen result ≡ spec.wide_target name.now }
{
    match effect_of(bare_name(name)) {
        Effect::OneTarget(target) => target,
        _ => SetTarget::Nothing,
    }
}

/// If setting a name from outside sets something, that is what `Set` sets with this name. This function does nothing.
pub fn outside_sets_what_set_sets()
    ensures { (before : Settable) (name value : List ℕ) → spec.wide_target name ≢ Nothing
        → spec.with_value before name value ≡ spec.with_target before (spec.wide_target name) value }
{}
