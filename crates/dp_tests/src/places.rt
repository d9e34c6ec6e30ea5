//! The places of entries and the calls of applications that expectations name.
ghost use Rattle.std.specs.Prelude.{◌≡◌, IfOk, map};
ghost use Rattle.std.specs.Option.{option_map};
ghost use Rattle.dp_commands.specs.Debug.{priority_in};
ghost use Rattle.dp_tests.specs.Expectations as spec;

use crate::expectation::{ExpectedCall, ExpectedPlace};
use crate::words::before_closing;
use dp_commands::number_within;
use dp_conf::{cut_once, split_args, trim};
use dp_pattern::{Name, PatternFault};
use dp_plan::{MOST_PRIORITY, NoMemory, SharedName, Text};
use std::alloc::Global;

/// A copy of the arguments, if there are some.
fn copy_arguments(alloc: Global, arguments: Option<&[u8]>) -> Result<Option<Text>, NoMemory>
    ensures { IfOk result (λ copy. copy ≡ option_map (λ text. text.now) arguments.entry) }
{
    match arguments {
        Some(text) => {
            let text = Text::copy_of(alloc, text)?;
            Ok(Some(text))
        }
        None => Ok(None),
    }
}

/// The call of the application with this name, or None if no application has such a name.
fn named_call(
    alloc: Global,
    name: &[u8],
    arguments: Option<&[u8]>,
) -> Result<Option<ExpectedCall>, NoMemory>
    ensures { IfOk result (λ call. call ≡ spec.named_call name.now (option_map (λ text. text.now) arguments.entry)) }
{
    if name.contains(&b',') {
        return Ok(None);
    }
    if name.is_empty() {
        return Ok(None);
    }
    let application = Text::copy_of(alloc, name)?;
    let arguments = copy_arguments(alloc, arguments)?;
    Ok(Some(ExpectedCall {
        application,
        arguments,
    }))
}

/// The call that the parts of a text before and after its first `(` write.
fn call_with(alloc: Global, name: &[u8], rest: &[u8]) -> Result<Option<ExpectedCall>, NoMemory>
    ensures { IfOk result (λ call. call ≡ spec.call_with name.now rest.now) }
{
    match before_closing(rest) {
        Some(arguments) => named_call(alloc, trim(name), Some(arguments)),
        None => Ok(None),
    }
}

/// The call that a text writes, `APP` or `APP(ARGS)`, or None if it does not write one.
pub(crate) fn read_call(alloc: Global, text: &[u8]) -> Result<Option<ExpectedCall>, NoMemory>
    ensures { IfOk result (λ call. call ≡ spec.call_in text.now) }
{
    match cut_once(text, b'(') {
        Some((name, rest)) => call_with(alloc, name, rest),
        None => named_call(alloc, text, None),
    }
}

/// The name that a text writes, or None if it is not a name.
fn read_name(alloc: Global, text: &[u8]) -> Result<Option<SharedName>, NoMemory>
    ensures { IfOk result (λ name. name ≡ spec.name_in text.now) }
{
    match Name::read(alloc, text) {
        Ok(name) => {
            let name = SharedName::new(alloc, name)?;
            Ok(Some(name))
        }
        Err(PatternFault::Name(_)) => Ok(None),
        Err(PatternFault::NoMemory) => Err(NoMemory),
    }
}

/// The priority that a word writes: a number from 1 to 2,147,483,647.
fn read_priority(word: &[u8]) -> Option<u32>
    ensures { result ≡ priority_in word.now }
{
    let number = number_within(MOST_PRIORITY, word)?;
    if number == 0 {
        return None;
    }
    Some(number)
}

/// The place of the entries with this name in this context, or None if the context is empty or the name is malformed.
fn named_place(
    alloc: Global,
    context: &[u8],
    name: &[u8],
) -> Result<Option<ExpectedPlace>, NoMemory>
    ensures { IfOk result (λ place. place ≡ spec.named_place context.now (spec.name_in name.now)) }
{
    if context.is_empty() {
        return Ok(None);
    }
    let Some(name) = read_name(alloc, name)? else {
        return Ok(None);
    };
    let context = Text::copy_of(alloc, context)?;
    Ok(Some(ExpectedPlace {
        context,
        name,
        priority: None,
    }))
}

/// The place with this priority.
fn with_priority(place: ExpectedPlace, priority: u32) -> ExpectedPlace
    ensures { result ≡ spec.with_priority priority place }
{
    let ExpectedPlace {
        context,
        name,
        priority: _,
    } = place;
    ExpectedPlace {
        context,
        name,
        priority: Some(priority),
    }
}

/// The place that a context, a name and a priority write, or None if they do not write one.
fn numbered_place(
    alloc: Global,
    context: &[u8],
    name: &[u8],
    word: &[u8],
) -> Result<Option<ExpectedPlace>, NoMemory>
    ensures { IfOk result (λ place. place ≡ spec.numbered_place context.now name.now word.now) }
{
    let Some(priority) = read_priority(word) else {
        return Ok(None);
    };
    let Some(place) = named_place(alloc, context, name)? else {
        return Ok(None);
    };
    Ok(Some(with_priority(place, priority)))
}

/// The place that these parts write, or None if they do not write one.
fn place_by(alloc: Global, parts: &[&[u8]]) -> Result<Option<ExpectedPlace>, NoMemory>
    ensures { IfOk result (λ place. place ≡ spec.place_by (map (λ part. part.now) parts.now)) }
{
    match parts {
        [context, name] => named_place(alloc, context, name),
        [context, name, priority] => numbered_place(alloc, context, name, priority),
        _ => Ok(None),
    }
}

/// The place that a text writes, `CONTEXT,NAME` or `CONTEXT,NAME,PRIORITY`, or None if it does not write one.
pub(crate) fn read_place(alloc: Global, text: &[u8]) -> Result<Option<ExpectedPlace>, NoMemory>
    ensures { IfOk result (λ place. place ≡ spec.place_in text.now) }
{
    let parts = split_args(alloc, text)?;
    place_by(alloc, &parts)
}
