//! Cutting a line of a context into its parts, without regard to other lines.
ghost use Rattle.std.specs.Prelude.{◌≡◌};
ghost use Rattle.dp_conf.specs.Cut as cuts;
ghost use Rattle.dp_conf.specs.Lines as lines;
ghost use Rattle.dp_files.specs.ContextSteps as steps;
ghost use Rattle.dp_files.specs.ContextWords as spec;

use crate::remark::LineNote;
use dp_conf::{cut_once, same_word, trim};

/// The priority and the application of an entry's line.
#[derive(Clone, Copy)]
pub(crate) struct EntryText<'a> {
    pub(crate) priority: &'a [u8],
    pub(crate) application: &'a [u8],
}

/// The meaning of a line of a context.
#[derive(Clone, Copy)]
pub(crate) enum ContextLine<'a> {
    Exten {
        name: &'a [u8],
        entry: EntryText<'a>,
    },
    Same(EntryText<'a>),
    /// A line that is left out, with this note.
    LeftOut(LineNote),
    Other,
}

/// The line of an `exten`, given its value.
#[inline(always)]
fn exten_line(value: &[u8]) -> ContextLine<'_>
    ensures { steps.line_now result ≡ spec.exten_line (cuts.cut_once 44 value.now) }
{
    let Some((name, rest)) = cut_once(value, b',') else {
        return ContextLine::Other;
    };
    let Some((priority, application)) = cut_once(rest, b',') else {
        return ContextLine::Other;
    };
    ContextLine::Exten {
        name: trim(name),
        entry: EntryText {
            priority: trim(priority),
            application: trim(application),
        },
    }
}

/// The line of a `same`, given its value.
fn same_line(value: &[u8]) -> ContextLine<'_>
    ensures { steps.line_now result ≡ spec.same_line (cuts.cut_once 44 value.now) }
{
    let Some((priority, application)) = cut_once(value, b',') else {
        return ContextLine::Other;
    };
    ContextLine::Same(EntryText {
        priority: trim(priority),
        application: trim(application),
    })
}

/// The line of a key that is not that of an entry.
fn key_line(key: &[u8]) -> ContextLine<'static>
    ensures { steps.line_now result ≡ spec.key_line key.now }
{
    if same_word(key, b"ignorepat") {
        return ContextLine::LeftOut(LineNote::IgnorePat);
    }
    if same_word(key, b"switch") || same_word(key, b"lswitch") || same_word(key, b"eswitch") {
        return ContextLine::LeftOut(LineNote::Switch);
    }
    ContextLine::Other
}

/// The line with a key and a value.
#[inline(always)]
fn pair_line<'a>(key: &[u8], value: &'a [u8]) -> ContextLine<'a>
    ensures { steps.line_now result ≡ spec.pair_line key.now value.now }
{
    if same_word(key, b"exten") {
        return exten_line(value);
    }
    if same_word(key, b"same") {
        return same_line(value);
    }
    key_line(key)
}

/// The text after the `=`, without the `>` that belongs to the sign.
pub(crate) fn after_sign(text: &[u8]) -> &[u8]
    ensures { result.now ≡ lines.after_sign text.now }
{
    match text.split_first() {
        Some((b'>', rest)) => rest,
        _ => text,
    }
}

/// The line with this content.
#[tactic(auto, unfolding(crate::specs::ContextWords::context_line))]
#[inline(always)]
pub(crate) fn read_context_line(content: &[u8]) -> ContextLine<'_>
    ensures { steps.line_now result ≡ spec.context_line content.now }
{
    match cut_once(content, b'=') {
        None => ContextLine::Other,
        Some((key, value)) => pair_line(trim(key), trim(after_sign(value))),
    }
}

/// Whether the application has the old form, `NAME,ARGUMENTS`: a comma comes before any `(`.
#[tactic(auto, using(crate::proofs::OldFormLemmas::old_form_first))]
pub(crate) fn is_old_form(application: &[u8]) -> bool
    ensures { result ≡ spec.is_old_form application.now }
{
    let mut left = application;
    while let Some((byte, rest)) = left.split_first() {
        if *byte == b'(' || *byte == b',' {
            return *byte == b',';
        }
        left = rest;
    }
    false
}
