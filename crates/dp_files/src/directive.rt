//! Lines that begin with `#`, after the Asterisk documentation's page on its configuration files.
ghost use Rattle.std.specs.Prelude.{◌≡◌, ◌≤◌, length};
ghost use Rattle.std.specs.Option.{option_map};
ghost use Rattle.dp_files.specs.Directives as spec;

use dp_conf::{is_blank, same_word, trim};

/// The request of a line that begins with `#`.
#[derive(Clone, Copy)]
pub(crate) enum Directive<'a> {
    /// The lines of the files with this name belong here.
    Include(&'a [u8]),
    /// The same, but nothing if there is no such file.
    TryInclude(&'a [u8]),
    /// A command, which is not run.
    Exec,
    /// A word that is none of these, or one of the first two without a name.
    Unknown,
}

/// The number of bytes before the first blank.
fn word_length(text: &[u8]) -> usize
    ensures length { result ≡ spec.word_length text.now }
    ensures within { result ≤ length text.now }
{
    for (at, byte) in text.iter().enumerate() {
        if is_blank(*byte) {
            return at;
        }
    }
    text.len()
}

/// The text before the last byte, if that is this byte.
fn before_end(text: &[u8], byte: u8) -> Option<&[u8]>
    ensures { option_map (λ front. front.now) result ≡ spec.before_end byte text.now }
{
    let Some((last, front)) = text.split_last() else {
        return None;
    };
    if *last != byte {
        return None;
    }
    Some(front)
}

/// The byte that closes what this one opens.
fn closing_of(byte: u8) -> Option<u8>
    ensures { result ≡ spec.closing_of byte }
{
    match byte {
        b'"' => Some(b'"'),
        b'\'' => Some(b'\''),
        b'<' => Some(b'>'),
        _ => None,
    }
}

/// A name without the quotes, or the `<` and the `>`, around it. A name without the closing byte at its end is unchanged.
fn without_quotes(text: &[u8]) -> &[u8]
    ensures { result.now ≡ spec.without_quotes text.now }
{
    let Some((first, inside)) = text.split_first() else {
        return text;
    };
    let Some(closing) = closing_of(*first) else {
        return text;
    };
    match before_end(inside, closing) {
        Some(name) => name,
        None => text,
    }
}

/// The directive with a word and a name.
fn directive_by<'a>(word: &[u8], name: &'a [u8]) -> Directive<'a>
    ensures { spec.directive_now result ≡ spec.directive_by word.now name.now }
{
    if same_word(word, b"exec") {
        Directive::Exec
    } else if name.is_empty() {
        Directive::Unknown
    } else if same_word(word, b"include") {
        Directive::Include(name)
    } else if same_word(word, b"tryinclude") {
        Directive::TryInclude(name)
    } else {
        Directive::Unknown
    }
}

/// The request in the content of a line, if it begins with `#`.
///
/// The word goes from the `#` to the first blank, and its letters may be in any case. The name comes after the word, without blanks at its
/// ends and without the quotes, or the `<` and the `>`, around it.
#[tactic(auto, unfolding(crate::specs::Directives::directive_of))]
pub(crate) fn read_directive(content: &[u8]) -> Option<Directive<'_>>
    ensures { option_map spec.directive_now result ≡ spec.directive_of content.now }
{
    match content.split_first() {
        Some((b'#', after)) => {
            let (word, rest) = after.split_at(word_length(after));
            Some(directive_by(word, without_quotes(trim(rest))))
        }
        _ => None,
    }
}

/// The name that the content of a line includes, or an empty one if it includes none.
pub fn included_name(content: &[u8]) -> &[u8]
    ensures { result.now ≡ spec.included_name (spec.directive_of content.now) }
{
    match read_directive(content) {
        Some(Directive::Include(name) | Directive::TryInclude(name)) => name,
        _ => b"",
    }
}
