//! Claims about what channels ran.
ghost use Rattle.std.specs.Prelude.{◌≡◌, false};
ghost use Rattle.std.specs.Option.{option_map, option_map_or};
ghost use Rattle.dp_plan.specs.Extensions.{same_name};
ghost use Rattle.dp_test_runs.specs.Verdicts as spec;

use crate::ran_entries::RanEntry;
use dp_conf::same_word;
use dp_plan::{SharedName, Text};
use dp_tests::{ExpectedCall, ExpectedPlace};

/// Whether an entry that ran has these expanded arguments, if they are given.
fn has_arguments(arguments: Option<&Text>, ran: &[u8]) -> bool
    ensures { result ≡ spec.has_arguments (option_map (λ text. text.now) arguments.entry) ran.now }
{
    match arguments {
        Some(text) => ran == text.bytes(),
        None => true,
    }
}

/// Whether an entry that ran is this call.
fn is_call(call: &ExpectedCall, ran: &RanEntry) -> bool
    ensures { result ≡ spec.is_call call.now ran.now }
{
    same_word(ran.application.bytes(), call.application.bytes())
        && has_arguments(call.arguments.as_ref(), ran.arguments.bytes())
}

/// Whether two names have one meaning.
fn is_same_name(a: &SharedName, b: &SharedName) -> bool
    ensures { result ≡ same_name a.now b.now }
{
    a.spelling() == b.spelling()
}

/// Whether an entry that ran has this priority, if it is given.
fn has_priority(priority: Option<u32>, ran: u32) -> bool
    ensures { result ≡ spec.has_priority priority ran }
{
    match priority {
        Some(number) => ran == number,
        None => true,
    }
}

/// Whether an entry that ran stands at a place.
fn stands_at(place: &ExpectedPlace, ran: &RanEntry) -> bool
    ensures { result ≡ spec.stands_at place.now ran.now }
{
    ran.context.bytes() == place.context.bytes()
        && is_same_name(&ran.name, &place.name)
        && has_priority(place.priority, ran.priority)
}

/// The last entry that a channel ran.
pub(crate) fn last_of(ran: &[RanEntry], channel: u32) -> Option<&RanEntry>
    ensures { option_map (λ entry. entry.now) result ≡ spec.last_of channel ran.now }
{
    let mut last = None;
    for entry in ran {
        if entry.channel == channel {
            last = Some(entry);
        }
    }
    last
}

/// Whether the last entry that a channel ran is this call.
pub(crate) fn last_is_call(ran: &[RanEntry], channel: u32, call: &ExpectedCall) -> bool
    ensures { result ≡ option_map_or (spec.is_call call.now) (spec.last_of channel ran.now) false }
{
    match last_of(ran, channel) {
        Some(entry) => is_call(call, entry),
        None => false,
    }
}

/// Whether the last entry that a channel ran stands at a place.
pub(crate) fn last_stands_at(ran: &[RanEntry], channel: u32, place: &ExpectedPlace) -> bool
    ensures { result ≡ option_map_or (spec.stands_at place.now) (spec.last_of channel ran.now) false }
{
    match last_of(ran, channel) {
        Some(entry) => stands_at(place, entry),
        None => false,
    }
}

/// Whether a channel ran this call.
pub(crate) fn has_passed(ran: &[RanEntry], channel: u32, call: &ExpectedCall) -> bool
    ensures { result ≡ spec.has_passed channel call.now ran.now }
{
    ran.iter()
        .any(|entry| entry.channel == channel && is_call(call, entry))
}
