//! The unknown things that applications ask for with their arguments, after the Asterisk documentation's application reference.
ghost use Rattle.std.specs.Prelude.{◌≡◌, IfOk, map};
ghost use Rattle.dp_conf.specs.Cut.{cut_once};
ghost use Rattle.dp_conf.specs.Levels.{arguments_of, parts_of};
ghost use Rattle.dp_vars.specs.Sights.{sight_of};
ghost use Rattle.dp_wide.specs.Requests as spec;

use crate::settings::{bare_name, does_more};
use dp_app::{has_option, is_given, part};
use dp_conf::{NoMemory, cut_once, first_argument, same_word, split_args};
use dp_flow::argument_of;
use dp_vars::{Counts, Scope};
use std::alloc::Global;

/// The name that is set through a function with an argument, if setting it does more than this machine follows.
fn plain_asked<'a>(name: &'a [u8], function: &[u8], argument: &[u8]) -> &'a [u8]
    ensures { result.now ≡ spec.plain_asked name.now function.now argument.now }
{
    if does_more(function, argument) {
        name
    } else {
        b""
    }
}

/// The same for a name in an `ARRAY`, where a further `ARRAY` is not followed either.
fn nested_asked<'a>(name: &'a [u8], function: &[u8], argument: &[u8]) -> &'a [u8]
    ensures { result.now ≡ spec.nested_asked name.now function.now argument.now }
{
    if function == b"ARRAY".as_slice() {
        name
    } else {
        plain_asked(name, function, argument)
    }
}

/// What a name in an `ARRAY` asks for.
fn part_asked(part: &[u8]) -> &[u8]
    ensures { result.now ≡ spec.part_asked part.now }
{
    let name = bare_name(part);
    let Some((function, after)) = cut_once(name, b'(') else {
        return b"";
    };
    match argument_of(after) {
        None => b"",
        Some(argument) => nested_asked(name, function, argument),
    }
}

/// What the first name in an `ARRAY` that asks for something asks for.
fn parts_asked(names: &[u8]) -> &[u8]
    ensures { result.now ≡ spec.parts_asked (parts_of names.now) }
{
    let mut rest = Some(names);
    while let Some(left) = rest {
        let (name, after) = first_argument(left);
        let request = part_asked(name);
        if !request.is_empty() {
            return request;
        }
        rest = after;
    }
    b""
}

/// What setting a function with an argument asks for, given the whole name.
fn function_asked<'a>(name: &'a [u8], function: &[u8], argument: &'a [u8]) -> &'a [u8]
    ensures { result.now ≡ spec.function_asked name.now function.now argument.now }
{
    if function == b"ARRAY".as_slice() {
        parts_asked(argument)
    } else {
        plain_asked(name, function, argument)
    }
}

/// What setting a name asks for.
fn name_asked(name: &[u8]) -> &[u8]
    ensures { result.now ≡ spec.name_asked name.now }
{
    let Some((function, after)) = cut_once(name, b'(') else {
        return b"";
    };
    match argument_of(after) {
        None => b"",
        Some(argument) => function_asked(name, function, argument),
    }
}

/// What a setting `NAME=VALUE` asks for.
fn setting_asked(text: &[u8]) -> &[u8]
    ensures { result.now ≡ spec.setting_asked text.now }
{
    match cut_once(text, b'=') {
        None => b"",
        Some((name, _)) => name_asked(bare_name(name)),
    }
}

/// What the first of a list of settings that asks for something asks for.
fn settings_asked<'a>(texts: &[&'a [u8]]) -> &'a [u8]
    ensures { result.now ≡ spec.settings_asked (map (λ text. text.now) texts.now) }
{
    let mut left = texts;
    while let [text, rest @ ..] = left {
        let request = setting_asked(text);
        if !request.is_empty() {
            return request;
        }
        left = rest;
    }
    b""
}

/// What the settings of an `MSet` ask for.
fn list_asked(alloc: Global, arguments: &[u8]) -> Result<Vec<u8>, NoMemory>
    ensures { IfOk result (λ text. text.items ≡ spec.settings_asked (arguments_of arguments.now)) }
{
    let texts = split_args(alloc, arguments)?;
    Vec::from_slice(alloc, settings_asked(&texts))
}

/// The name of the application, if it is given a time zone.
fn zone_asked(alloc: Global, arguments: &[u8]) -> Result<Vec<u8>, NoMemory>
    ensures { IfOk result (λ text. text.items ≡ spec.zone_asked (cut_once 63 arguments.now)) }
{
    let Some((ranges, _)) = cut_once(arguments, b'?') else {
        return Ok(Vec::new(alloc));
    };
    let parts = split_args(alloc, ranges)?;
    if is_given(part(&parts, 4)) {
        return Vec::from_slice(alloc, b"GotoIfTime");
    }
    Ok(Vec::new(alloc))
}

/// What `GotoIfTime` asks for.
fn time_asked<B, C: Counts>(
    alloc: Global,
    scope: &Scope<'_, B, C>,
    arguments: &[u8],
) -> Result<Vec<u8>, NoMemory>
    ensures { IfOk result (λ text. text.items ≡ spec.time_asked (sight_of C.count scope.now) arguments.now) }
{
    if scope.globals.has(b"CLOCK") {
        return zone_asked(alloc, arguments);
    }
    Vec::from_slice(alloc, b"CLOCK")
}

/// The option of `Dial` by which the called side goes elsewhere too once it has answered. This machine does not follow that side.
///
/// It is reported before the `Dial` runs, so even if nobody answers. A `G` without a place after it is reported too. Both are more cautious
/// than necessary.
fn dial_asked(parts: &[&[u8]]) -> &'static [u8]
    ensures { result.now ≡ spec.dial_asked (map (λ part. part.now) parts.now) }
{
    if is_given(part(parts, 0)) && has_option(part(parts, 2), b'G') {
        b"G"
    } else {
        b""
    }
}

/// What `Dial` asks for.
fn dial_list_asked(alloc: Global, arguments: &[u8]) -> Result<Vec<u8>, NoMemory>
    ensures { IfOk result (λ text. text.items ≡ spec.dial_asked (arguments_of arguments.now)) }
{
    let parts = split_args(alloc, arguments)?;
    Vec::from_slice(alloc, dial_asked(&parts))
}

/// What an application other than `ExecIf` asks for with its arguments.
pub(crate) fn inner_asked<B, C: Counts>(
    alloc: Global,
    scope: &Scope<'_, B, C>,
    name: &[u8],
    arguments: &[u8],
) -> Result<Vec<u8>, NoMemory>
    ensures { IfOk result (λ text. text.items ≡ spec.inner_asked (sight_of C.count scope.now) name.now arguments.now) }
{
    if same_word(name, b"Set") {
        return Vec::from_slice(alloc, setting_asked(arguments));
    }
    if same_word(name, b"Dial") {
        return dial_list_asked(alloc, arguments);
    }
    if same_word(name, b"GotoIfTime") {
        return time_asked(alloc, scope, arguments);
    }
    if same_word(name, b"MSet") {
        return list_asked(alloc, arguments);
    }
    Ok(Vec::new(alloc))
}
