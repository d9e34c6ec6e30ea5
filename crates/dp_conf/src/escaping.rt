//! Escaping a text, so that a line with it says the text.
ghost use Rattle.std.specs.Prelude.{◌≡◌, ◌++◌, IfOk, OnOk, codes};
ghost use Rattle.dp_conf.specs.Blanks.{trim};
ghost use Rattle.dp_conf.specs.Escape as spec;
ghost use Rattle.dp_conf.specs.Lines.{content_of};

use crate::cut::cut_once;
use std::alloc::{AllocError, Global};

/// Adds a part of a text without a `;`, and the `;` after it as it is written in a line.
fn push_part(out: &mut Vec<u8>, part: &[u8]) -> Result<(), AllocError>
    ensures { OnOk result (out.new.items ≡ out.old.items ++ (part.now ++ codes "\\;")) }
{
    out.extend_from_slice(part)?;
    out.extend_from_slice(b"\\;")?;
    Ok(())
}

/// Adds a text as it is written in a line: each `;` as `\;`, and everything else unchanged. If memory runs out a part
/// of it may have been added.
pub fn push_escaped(out: &mut Vec<u8>, text: &[u8]) -> Result<(), AllocError>
    ensures { OnOk result (out.new.items ≡ out.old.items ++ spec.escape_text text.now) }
{
    let mut left = text;
    while let Some((part, rest)) = cut_once(left, b';') {
        push_part(out, part)?;
        left = rest;
    }
    out.extend_from_slice(left)?;
    Ok(())
}

/// The text as it is written in a line: each `;` as `\;`, and everything else unchanged. Such a line says the text
/// without the blanks at its ends; a text with a line feed makes two lines. It fails only if memory runs out.
pub fn escape(alloc: Global, text: &[u8]) -> Result<Vec<u8>, AllocError>
    ensures ok { IfOk result (λ line. line.items ≡ spec.escape_text text.now) }
    ensures content { IfOk result (λ line. content_of line.items ≡ trim text.now) }
{
    let mut line = Vec::new(alloc);
    push_escaped(&mut line, text)?;
    Ok(line)
}
