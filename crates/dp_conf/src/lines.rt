//! The lines of a configuration text and their items, after the Asterisk documentation's page on its configuration files.
ghost use Rattle.std.specs.Prelude.{◌≡◌, ◌+◌, ◌++◌, ◌∷◌, [], ◌^◌, ◌<◌, ◌≤◌, ◌||◌, OnOk, OnErr, IfOk, IfErr, nat_eq, length, take};
ghost use Rattle.std.specs.Option.{option_to_list};
ghost use Rattle.std.specs.List.{list_any};
ghost use Rattle.dp_conf.specs.Answers.{Answers};
ghost use Rattle.dp_conf.specs.Blanks.{trim as trim_spec};
ghost use Rattle.dp_conf.specs.Borrowed as borrowed;
ghost use Rattle.dp_conf.specs.Cut as cut;
ghost use Rattle.dp_conf.specs.Lines as spec;

use crate::cut::{cut_once, trim, trim_start};
use crate::fault::{ConfFault, LineKind};
use std::alloc::{AllocError, Global};

/// One item of a configuration text, with the number of its line, counted from 1. Its texts borrow from the line.
#[derive(Clone, Copy)]
pub enum Line<'a> {
    /// A section's header, `[name]`, with its name without blanks at either end.
    Header {
        line: usize,
        name: &'a [u8],
    },
    /// A line `key = value` or `key => value`, with both texts without blanks at either end.
    Pair {
        line: usize,
        key: &'a [u8],
        value: &'a [u8],
    },
}

/// The content of a line: what comes before its comment.
#[derive(Drop)]
pub enum Content<'a> {
    /// The bytes of the line itself.
    AsWritten(&'a [u8]),
    /// The bytes of a line that contains a `\`, with each `\;` replaced by `;`.
    Unescaped(Vec<u8>),
}

impl Content<'_> {
    ghost use Rattle.std.specs.Prelude.{◌≡◌};
    ghost use Rattle.dp_conf.specs.Borrowed as borrowed;

    /// The bytes without blanks at either end.
    pub fn bytes(&self) -> &[u8]
        ensures { result.now ≡ borrowed.content_now self.now }
    {
        match self {
            Content::AsWritten(text) => trim(text),
            Content::Unescaped(bytes) => trim(bytes.as_slice()),
        }
    }
}

/// The text without the byte order mark `EF BB BF` at its start.
pub fn without_mark(text: &[u8]) -> &[u8]
    ensures { result.now ≡ spec.without_mark text.now }
{
    if text.starts_with(b"\xEF\xBB\xBF") {
        &text[3..]
    } else {
        text
    }
}

/// The number of bytes before the comment of a line, that is, before its first `;` without a `\` directly before it.
fn comment_start(part: &[u8]) -> usize
    ensures start { result ≡ spec.comment_start 10 part.now }
    ensures within { result ≤ length part.now }
{
    // Most lines have no comment, and the search for a single byte is faster.
    if !part.contains(&b';') {
        return part.len();
    }
    let mut previous = b'\n';
    for (at, byte) in part.iter().enumerate() {
        if *byte == b';' && previous != b'\\' {
            return at;
        }
        previous = *byte;
    }
    part.len()
}

/// Whether a comment, given with its `;`, begins a block comment: `;--` but no third dash, after the Asterisk documentation's page on its
/// configuration files.
pub fn opens_block(comment: &[u8]) -> bool
    ensures { result ≡ spec.opens_block comment.now }
{
    comment.starts_with(b";--") && !comment.starts_with(b";---")
}

/// The bytes with each `\;` replaced by `;`.
fn unescape(alloc: Global, bytes: &[u8]) -> Result<Vec<u8>, AllocError>
    ensures { IfOk result (λ plain. plain.items ≡ spec.without_escapes bytes.now) }
{
    let mut plain = Vec::with_capacity(alloc, bytes.len())?;
    let mut left = bytes;
    while let Some((byte, rest)) = left.split_first() {
        if *byte != b'\\' || !rest.starts_with(b";") {
            plain.push(*byte)?;
        }
        left = rest;
    }
    Ok(plain)
}

/// The bytes before a comment, with each `\;` replaced by `;`. It does not allocate if there is no `\`.
fn plain_text(alloc: Global, before: &[u8]) -> Result<Content<'_>, AllocError>
    ensures { IfOk result (λ content. borrowed.content_now content ≡ trim_spec (spec.without_escapes before.now)) }
{
    if !before.contains(&b'\\') {
        return Ok(Content::AsWritten(before));
    }
    let plain = unescape(alloc, before)?;
    Ok(Content::Unescaped(plain))
}

/// The content of a line of a configuration text: what comes before its comment, without blanks at either end and with each `\;` replaced
/// by `;`.
///
/// A line is the text between two line feeds. A block comment is like any other comment here. It allocates only for a line with a `\`.
pub fn line_content(alloc: Global, part: &[u8]) -> Result<Content<'_>, AllocError>
    ensures { IfOk result (λ content. borrowed.content_now content ≡ spec.content_of part.now) }
{
    plain_text(alloc, &part[..comment_start(part)])
}

/// The content of a line: what comes before its comment, without blanks at either end and with each `\;` replaced by `;`.
///
/// A block comment is refused. It allocates only for a line with a `\`.
pub(crate) fn read_content(
    alloc: Global,
    line: usize,
    part: &[u8],
) -> Result<Content<'_>, ConfFault>
    ensures { Answers borrowed.content_now spec.line_fault result (spec.at_line line (borrowed.content_read part.now)) }
{
    let (before, comment) = part.split_at(comment_start(part));
    if opens_block(comment) {
        return Err(ConfFault::At {
            line,
            kind: LineKind::BlockComment,
        });
    }
    let content = plain_text(alloc, before)?;
    Ok(content)
}

/// The header of a section, given the text after its `[`.
fn read_header(line: usize, inside: &[u8]) -> Result<Line<'_>, ConfFault>
    ensures { Answers (λ item. borrowed.line_now item ∷ []) spec.line_fault result
        (spec.at_line line (spec.header_of line (cut.cut_once 93 inside.now))) }
{
    let Some((name, after)) = cut_once(inside, b']') else {
        return Err(ConfFault::At {
            line,
            kind: LineKind::BadHeader,
        });
    };
    let name = trim(name);
    if name.is_empty() {
        return Err(ConfFault::At {
            line,
            kind: LineKind::BadHeader,
        });
    }
    match trim_start(after).first() {
        None => Ok(Line::Header { line, name }),
        Some(b'(') => Err(ConfFault::At {
            line,
            kind: LineKind::Template,
        }),
        Some(_) => Err(ConfFault::At {
            line,
            kind: LineKind::BadHeader,
        }),
    }
}

/// The text after the `=`, without the `>` that belongs to the sign.
fn after_sign(text: &[u8]) -> &[u8]
    ensures { result.now ≡ spec.after_sign text.now }
{
    match text.split_first() {
        Some((b'>', rest)) => rest,
        _ => text,
    }
}

/// A key and a value, given the content of their line.
fn read_pair(line: usize, content: &[u8]) -> Result<Line<'_>, ConfFault>
    ensures { Answers (λ item. borrowed.line_now item ∷ []) spec.line_fault result
        (spec.at_line line (spec.pair_of line (cut.cut_once 61 content.now))) }
{
    let Some((key, value)) = cut_once(content, b'=') else {
        return Err(ConfFault::At {
            line,
            kind: LineKind::NoEquals,
        });
    };
    let key = trim(key);
    let value = trim(after_sign(value));
    Ok(Line::Pair { line, key, value })
}

/// The item of a line, if it has one, given its content and whether a section has begun; a pair is allowed only in a section.
///
/// A line is refused, in this order, for a bad header, a template, a directive, a pair before any header, and a missing
/// `=`: see [`LineKind`].
pub fn read_line(
    line: usize,
    in_section: bool,
    content: &[u8],
) -> Result<Option<Line<'_>>, ConfFault>
    ensures { Answers borrowed.lines_now spec.line_fault result
        (spec.at_line line (spec.item_of in_section line content.now)) }
{
    match content.split_first() {
        None => Ok(None),
        Some((b'[', inside)) => {
            let header = read_header(line, inside)?;
            Ok(Some(header))
        }
        Some((b'#', _)) => Err(ConfFault::At {
            line,
            kind: LineKind::Directive,
        }),
        Some(_) if in_section => {
            let pair = read_pair(line, content)?;
            Ok(Some(pair))
        }
        Some(_) => Err(ConfFault::At {
            line,
            kind: LineKind::NoSection,
        }),
    }
}

/// Whether a section has begun after this item.
pub(crate) fn has_begun(in_section: bool, item: Option<Line<'_>>) -> bool
    ensures { result ≡ (in_section || list_any spec.is_header (borrowed.lines_now item.entry)) }
{
    match item {
        Some(Line::Header { .. }) => true,
        Some(Line::Pair { .. }) => in_section,
        None => in_section,
    }
}
