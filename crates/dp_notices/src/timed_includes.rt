//! Reads includes with times at a moment, after the Asterisk documentation's page on including contexts by time.
ghost use Rattle.std.specs.Prelude.{◌≡◌, IfOk, OnOk};
ghost use Rattle.dp_notices.specs.TimedIncludes as spec;
ghost use Rattle.dp_conf.specs.Changes.{changed_at};
ghost use Rattle.dp_conf.specs.Lines.{after_sign};

use crate::loading::NumberedNotice;
use crate::notice::{Notice, NoticeFault};
use dp_app::part;
use dp_conf::{NoMemory, Text, cut_once, line_content, push_escaped, split_args, trim};
use dp_files::{Fault, LineText, MadeLine};
use dp_wide::{Moment, lies_in};
use std::alloc::Global;

/// The text after the sign `=` or `=>`, given the text after its `=`.
fn after_sign(text: &[u8]) -> &[u8]
    ensures { result.now ≡ after_sign text.now }
{
    match text.split_first() {
        Some((b'>', rest)) => rest,
        _ => text,
    }
}

/// The value of a content `KEY=VALUE` or `KEY=>VALUE`. It is empty for any other content.
fn value_in(content: &[u8]) -> &[u8]
    ensures { result.now ≡ spec.value_in content.now }
{
    match cut_once(content, b'=') {
        None => b"",
        Some((_, value)) => trim(after_sign(value)),
    }
}

/// The line that includes a context at all times.
fn include_text(alloc: Global, name: &[u8]) -> Result<Text, NoMemory>
    ensures { IfOk result (λ text. text ≡ spec.include_text name.now) }
{
    let mut text = Vec::from_slice(alloc, b"include => ")?;
    push_escaped(&mut text, name)?;
    Ok(Text::new(text))
}

/// The line that includes a context if a moment is in its times. Otherwise the line is empty.
fn text_within(alloc: Global, moment: Moment, name: &[u8], times: &[u8]) -> Result<Text, NoMemory>
    ensures { IfOk result (λ text. text ≡ spec.text_within moment name.now times.now) }
{
    let parts = split_args(alloc, times)?;
    let is_within = lies_in(
        moment,
        part(&parts, 0),
        part(&parts, 1),
        part(&parts, 2),
        part(&parts, 3),
    );
    if is_within {
        return include_text(alloc, trim(name));
    }
    Ok(Text::new(Vec::new(alloc)))
}

/// The line as which an include with times is read at a moment.
fn text_at(alloc: Global, moment: Moment, text: &[u8]) -> Result<Text, NoMemory>
    ensures { IfOk result (λ line. line ≡ spec.text_at moment text.now) }
{
    let content = line_content(alloc, text)?;
    match cut_once(value_in(content.bytes()), b',') {
        None => Ok(Text::new(Vec::new(alloc))),
        Some((name, times)) => text_within(alloc, moment, name, times),
    }
}

/// Whether the notice says that an include has times and no moment is given.
fn is_timed(notice: Notice) -> bool
    ensures { result ≡ spec.is_timed notice }
{
    match notice {
        Notice::Fault(NoticeFault::Reading(Fault::NoClock)) => true,
        _ => false,
    }
}

/// Reads the include with times at a place, at a moment.
fn set_line(
    alloc: Global,
    lines: &mut Vec<MadeLine>,
    moment: Moment,
    place: usize,
) -> Result<(), NoMemory>
    ensures { OnOk result (lines.new.items ≡ changed_at (spec.line_at moment) place lines.old.items) }
{
    if let Some(line) = lines.get_mut(place) {
        line.text = LineText::new(text_at(alloc, moment, line.text.bytes())?);
    }
    Ok(())
}

/// Reads the line of a fault at a moment, if it is an include with times.
fn set_time_of(
    alloc: Global,
    lines: &mut Vec<MadeLine>,
    moment: Moment,
    fault: NumberedNotice,
) -> Result<(), NoMemory>
    ensures { OnOk result (lines.new.items ≡ spec.with_time_of moment lines.old.items fault) }
{
    if is_timed(fault.notice) {
        return set_line(alloc, lines, moment, fault.line.saturating_sub(1));
    }
    Ok(())
}

/// Reads the lines of faults at a moment, if they are includes with times.
pub(crate) fn set_times_of(
    alloc: Global,
    lines: &mut Vec<MadeLine>,
    moment: Moment,
    faults: &[NumberedNotice],
) -> Result<(), NoMemory>
    ensures { OnOk result (lines.new.items ≡ spec.with_times_of moment faults.now lines.old.items) }
{
    for fault in faults {
        set_time_of(alloc, lines, moment, *fault)?;
    }
    Ok(())
}
