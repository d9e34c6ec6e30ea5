//! Where a target sends a channel, after the Asterisk documentation's page on the application `Goto`.
ghost use Rattle.std.specs.Prelude.{◌≡◌, ◌≤◌, IfSome, length, reverse, slice_get};
ghost use Rattle.std.specs.Option.{option_map};
ghost use Rattle.dp_machine.specs.Channels as channels;
ghost use Rattle.dp_machine.specs.Targets as spec;
ghost use Rattle.dp_vars.specs.Stores.{innermost};

use crate::channel::Channel;
use crate::directory::Directory;
use crate::ending::hang_up;
use dp_app::{Exten, Phase, Place, Target, TargetParts};
use dp_conf::read_number;
use dp_plan::{MOST_PRIORITY, Text};

/// A number that a target may have: above the greatest priority of an entry it names a place where no entry can be.
fn target_priority(number: u64) -> Option<u32>
    ensures { result ≡ spec.target_priority number }
{
    let number = u32::try_from(number).ok()?;
    if number < 1 || number > MOST_PRIORITY + 1 {
        return None;
    }
    Some(number)
}

/// The priority that the text names in the extension of the context, if it names one.
#[inline(always)]
fn priority_of(plan: &mut Directory, context: &Text, exten: &[u8], text: &[u8]) -> Option<u32>
    ensures priority { result ≡ spec.priority_of plan.old context.now exten.now text.now }
    ensures same { plan.new ≡ plan.old }
{
    if text.is_empty() {
        return None;
    }
    match read_number(text) {
        Some(number) => target_priority(number),
        None => plan.find_label(context, exten, text),
    }
}

/// The context that the parts before the last name: the second of them from the end, else the channel's own.
fn context_of<'a>(own: &'a Place, front: &'a [Text]) -> &'a Text
    ensures { result.now ≡ spec.given_or own.now.context (slice_get (reverse front.now) 1) }
{
    match front.iter().rev().nth(1) {
        Some(part) if !part.bytes().is_empty() => part,
        _ => &own.context,
    }
}

/// The extension that the parts before the last name: the last of them, else the channel's own.
fn exten_of<'a>(own: &'a Place, front: &'a [Text]) -> &'a [u8]
    ensures { result.now ≡ spec.given_or own.now.exten (slice_get (reverse front.now) 0) }
{
    match front.iter().rev().next() {
        Some(part) if !part.bytes().is_empty() => part.bytes(),
        _ => own.exten.bytes(),
    }
}

/// The priority that the parts name, for a channel at its own place, if they name one.
#[tactic(auto, unfolding(crate::specs::Targets::parts_place))]
#[inline(always)]
fn parts_priority(plan: &mut Directory, own: &Place, parts: &TargetParts) -> Option<u32>
    ensures place { spec.parts_place plan.old own.now parts.now
        ≡ option_map (spec.place_of (spec.parts_context own.now parts.now)
        (spec.parts_exten own.now parts.now)) result }
    ensures few { IfSome result (λ _. length parts.now ≤ 3) }
    ensures same { plan.new ≡ plan.old }
{
    let (front, priority) = parts.apart()?;
    let context = context_of(own, front);
    priority_of(plan, context, exten_of(own, front), priority)
}

/// Replaces the channel's own context, unless the new one is empty or missing.
#[inline(always)]
fn put_context(own: &mut Text, part: Option<Text>)
    ensures { own.new ≡ spec.given_or own.old part }
{
    match part {
        Some(part) if !part.bytes().is_empty() => *own = part,
        _ => {}
    }
}

/// Replaces the channel's own extension, unless the new one is empty or missing.
#[inline(always)]
fn put_exten(own: &mut Exten, part: Option<Text>)
    ensures { own.new ≡ spec.given_or own.old part }
{
    match part {
        Some(part) if !part.bytes().is_empty() => *own = Exten::new(part),
        _ => {}
    }
}

/// Makes the channel ready at the place of these parts, at most three; the last of them has named the priority.
#[inline(always)]
fn go_to_parts(channel: &mut Channel, parts: TargetParts, priority: u32)
    requires { length parts ≤ 3 }
    ensures { channel.new ≡ channels.ready_at channel.old
        (spec.place_of (spec.parts_context channel.old.place parts)
        (spec.parts_exten channel.old.place parts) priority) }
{
    let Some(mut texts) = parts.into_front() else {
        return;
    };
    let exten = texts.pop();
    let context = texts.pop();
    put_exten(&mut channel.place.exten, exten);
    put_context(&mut channel.place.context, context);
    channel.place.priority = priority;
    channel.phase = Phase::Ready;
}

/// Makes the channel ready at the place of a target, or hangs it up if the target has none.
pub(crate) fn land(plan: &mut Directory, channel: &mut Channel, target: Target)
    ensures channel { channel.new ≡ channels.at_target plan.old channel.old
        (spec.target_place plan.old channel.old.place target) }
    ensures same { plan.new ≡ plan.old }
{
    match target {
        Target::To(place) => {
            channel.place = place;
            channel.phase = Phase::Ready;
        }
        Target::Existing(parts) => land_at_existing(plan, channel, parts),
        Target::Parts(parts) => land_at_parts(plan, channel, parts),
    }
}

/// Makes the channel ready at the place that the parts name.
#[inline(always)]
fn land_at_parts(plan: &mut Directory, channel: &mut Channel, parts: TargetParts)
    ensures channel { channel.new ≡ channels.at_target plan.old channel.old
        (spec.parts_place plan.old channel.old.place parts) }
    ensures same { plan.new ≡ plan.old }
{
    match parts_priority(plan, &channel.place, &parts) {
        Some(priority) => go_to_parts(channel, parts, priority),
        None => hang_up(plan, channel),
    }
}

/// Makes the channel ready at the place that the parts name, if an entry is found there.
fn land_at_existing(plan: &mut Directory, channel: &mut Channel, parts: TargetParts)
    ensures channel { channel.new ≡ channels.at_target plan.old channel.old
        (spec.if_found plan.old (spec.parts_place plan.old channel.old.place parts)) }
    ensures same { plan.new ≡ plan.old }
{
    match existing_priority(plan, &channel.place, &parts) {
        Some(priority) => go_to_parts(channel, parts, priority),
        None => hang_up(plan, channel),
    }
}

/// Takes the channel back to the place to which its innermost frame returns, or hangs it up if it has no frame.
fn go_back(plan: &mut Directory, channel: &mut Channel)
    ensures channel { channel.new ≡ channels.back_by plan.old channel.old (innermost channel.old.store.frames) }
    ensures same { plan.new ≡ plan.old }
{
    match channel.store.pop_frame() {
        Some(place) => {
            channel.place = place;
            channel.phase = Phase::Ready;
        }
        None => hang_up(plan, channel),
    }
}

/// Makes the channel ready at the place that the parts name, if an entry is found there, else takes it back from its innermost frame.
pub(crate) fn enter(plan: &mut Directory, channel: &mut Channel, parts: TargetParts)
    ensures channel { channel.new ≡ channels.at_place_or_back plan.old channel.old
        (spec.if_found plan.old (spec.parts_place plan.old channel.old.place parts)) }
    ensures same { plan.new ≡ plan.old }
{
    match existing_priority(plan, &channel.place, &parts) {
        Some(priority) => go_to_parts(channel, parts, priority),
        None => go_back(plan, channel),
    }
}

/// The priority that the parts name, if an entry is found there.
fn existing_priority(plan: &mut Directory, own: &Place, parts: &TargetParts) -> Option<u32>
    ensures place { spec.if_found plan.old (spec.parts_place plan.old own.now parts.now)
        ≡ option_map (spec.place_of (spec.parts_context own.now parts.now)
        (spec.parts_exten own.now parts.now)) result }
    ensures few { IfSome result (λ _. length parts.now ≤ 3) }
    ensures same { plan.new ≡ plan.old }
{
    let priority = parts_priority(plan, own, parts)?;
    let (front, _) = parts.apart()?;
    let context = context_of(own, front);
    if plan.is_found(context, exten_of(own, front), priority) {
        Some(priority)
    } else {
        None
    }
}
