//! How the lines of a test file are cut.
ghost use Rattle.std.specs.Prelude.{◌≡◌, position};
ghost use Rattle.std.specs.Option.{option_map};
ghost use Rattle.dp_conf.specs.Blanks as blanks;
ghost use Rattle.dp_plan.specs.EntryLine.{without_last};
ghost use Rattle.dp_wide_runs.specs.Lines as lines;

use dp_conf::{cut_once, is_blank, trim};

/// The place of the first blank of a text.
fn blank_place(text: &[u8]) -> Option<usize>
    ensures { result ≡ position blanks.is_blank text.now }
{
    text.iter().position(|byte| is_blank(*byte))
}

/// The first word of a text that begins with a word, and the rest without blanks at its ends.
pub(crate) fn cut_word(text: &[u8]) -> (&[u8], &[u8])
    ensures word { result.0.now ≡ (lines.cut_word text.now).0 }
    ensures rest { result.1.now ≡ (lines.cut_word text.now).1 }
{
    match blank_place(text) {
        Some(place) => (&text[..place], trim(&text[place..])),
        None => (text, b""),
    }
}

/// The name and the value in `NAME=VALUE`, each without blanks at its ends, or None if the text has no such form.
pub(crate) fn setting_in(text: &[u8]) -> Option<(&[u8], &[u8])>
    ensures { option_map (λ setting. (setting.0.now, setting.1.now)) result ≡ lines.setting_in text.now }
{
    let (name, value) = match cut_once(text, b'=') {
        Some((name, value)) => (trim(name), trim(value)),
        None => return None,
    };
    if name.is_empty() {
        return None;
    }
    Some((name, value))
}

/// The text without its last byte, or None if that byte is not a `)`.
pub(crate) fn before_closing(text: &[u8]) -> Option<&[u8]>
    ensures { option_map (λ front. front.now) result ≡ without_last 41 text.now }
{
    let (last, front) = text.split_last()?;
    if *last != b')' {
        return None;
    }
    Some(front)
}
