//! Headers of sections, after the Asterisk documentation's page on templates in its configuration files.
ghost use Rattle.std.specs.Prelude.{◌≡◌, IfOk, Some, map};
ghost use Rattle.dp_conf.specs.Answers.{Answers};
ghost use Rattle.std.specs.List.{filter, list_any};
ghost use Rattle.dp_conf.specs.Cut as cut;
ghost use Rattle.dp_conf.specs.Words.{same_text};
ghost use Rattle.dp_files.specs.Headers as spec;

use dp_conf::{LineKind, NoMemory, Text, cut_once, line_content, push_escaped, trim, trim_start};
use std::alloc::Global;

/// The header of a section: `[NAME]`, or `[NAME](WORD,..)`.
#[derive(Clone, Copy)]
pub struct SectionHeader<'a> {
    /// Its name, without blanks at its ends.
    pub name: &'a [u8],
    /// The text in its parentheses, if it has any.
    pub options: Option<&'a [u8]>,
}

/// The parentheses of a header, given the text after their `(`.
fn read_options<'a>(name: &'a [u8], after: &'a [u8]) -> Result<SectionHeader<'a>, LineKind>
    ensures { Answers spec.header_now (λ kind. Some kind) result
        (spec.with_options name.now (cut.cut_once 41 after.now)) }
{
    let Some((options, rest)) = cut_once(after, b')') else {
        return Err(LineKind::Template);
    };
    if !trim_start(rest).is_empty() {
        return Err(LineKind::Template);
    }
    Ok(SectionHeader {
        name,
        options: Some(options),
    })
}

/// The header of a section, given the text after its `[` in the content of its line.
///
/// Blanks between `]` and `(` have no effect. The error is `BadHeader` if there is no `]`, if the name is empty, or if other bytes come
/// after the `]`; it is `Template` if there is no `)`, or if bytes other than blanks come after it.
pub fn read_header(inside: &[u8]) -> Result<SectionHeader<'_>, LineKind>
    ensures { Answers spec.header_now (λ kind. Some kind) result (spec.header_of inside.now) }
{
    let Some((name, after)) = cut_once(inside, b']') else {
        return Err(LineKind::BadHeader);
    };
    let name = trim(name);
    if name.is_empty() {
        return Err(LineKind::BadHeader);
    }
    match trim_start(after).split_first() {
        None => Ok(SectionHeader {
            name,
            options: None,
        }),
        Some((b'(', options)) => read_options(name, options),
        Some(_) => Err(LineKind::BadHeader),
    }
}

impl SectionHeader<'_> {
    ghost use Rattle.std.specs.Prelude.{◌≡◌, IfOk, map};
    ghost use Rattle.dp_files.specs.Headers as spec;

    /// Whether a word in the parentheses is `!`: the section is a template, whose lines only count if other sections name it.
    pub fn makes_template(&self) -> bool
        ensures { result ≡ spec.makes_template (spec.header_now self.now) }
    {
        match self.options {
            None => false,
            Some(options) => has_word(options, b"!"),
        }
    }

    /// Whether a word in the parentheses is `+`: the lines after the header are added to the earlier section with its name.
    pub fn is_addition(&self) -> bool
        ensures { result ≡ spec.is_addition (spec.header_now self.now) }
    {
        match self.options {
            None => false,
            Some(options) => has_word(options, b"+"),
        }
    }
}

/// Whether one of the words, which are separated by commas, is this one. Blanks at the ends of a word have no effect (a choice of this
/// program).
fn has_word(options: &[u8], word: &[u8]) -> bool
    ensures { result ≡ list_any (λ other. same_text other word.now) (spec.words_of options.now) }
{
    options
        .split(|byte| *byte == b',')
        .map(|other| trim(other))
        .any(|other| other == word)
}

/// Whether a word names a section: it is not empty, and neither `!` nor `+`.
fn names_section(word: &[u8]) -> bool
    ensures { result ≡ spec.names_section word.now }
{
    !(word.is_empty() || word == b"!".as_slice() || word == b"+".as_slice())
}

/// The words that name sections, in order. It fails only if memory runs out.
fn section_names(alloc: Global, options: &[u8]) -> Result<Vec<&[u8]>, NoMemory>
    ensures { IfOk result (λ names. map (λ name. name.now) names.items
        ≡ filter spec.names_section (spec.words_of options.now)) }
{
    options
        .split(|byte| *byte == b',')
        .map(|word| trim(word))
        .filter(|word| names_section(word))
        .collect(alloc)
}

/// The names of the sections whose lines come before those of a header's section, in order. It fails only if memory runs out.
pub(crate) fn parents_of(alloc: Global, header: SectionHeader<'_>) -> Result<Vec<&[u8]>, NoMemory>
    ensures { IfOk result (λ names. map (λ name. name.now) names.items ≡ spec.parents_of (spec.header_now header.entry)) }
{
    match header.options {
        None => Ok(Vec::new(alloc)),
        Some(options) => {
            let names = section_names(alloc, options)?;
            Ok(names)
        }
    }
}

/// The line made from a header with parentheses.
fn plain_header(alloc: Global, name: &[u8]) -> Result<Text, NoMemory>
    ensures { IfOk result (λ text. text ≡ spec.plain_header name.now) }
{
    let mut line = Vec::new(alloc);
    line.push(b'[')?;
    push_escaped(&mut line, name)?;
    line.push(b']')?;
    Ok(Text::new(line))
}

/// The line made from a header's line: `[NAME]` if the header has parentheses, else the line unchanged. Any other line is unchanged.
///
/// It fails only if memory runs out.
pub fn header_text(alloc: Global, line: &[u8]) -> Result<Text, NoMemory>
    ensures { IfOk result (λ text. text ≡ spec.made_header line.now) }
{
    let content = line_content(alloc, line)?;
    if let Some((b'[', inside)) = content.bytes().split_first() {
        if let Ok(
            SectionHeader {
                name,
                options: Some(_),
            },
        ) = read_header(inside)
        {
            return plain_header(alloc, name);
        }
    }
    Text::copy_of(alloc, line)
}
