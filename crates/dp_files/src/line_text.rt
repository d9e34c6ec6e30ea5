//! The texts of files, and the texts of lines that are cut from them.
ghost use Rattle.std.specs.Prelude.{◌≡◌, ◌≤◌, IfOk, IfSome, length, nat_eq, slice_range, true};
ghost use Rattle.std.specs.Cmp.Lexicographic.{pointwise, nat_list_eq_equiv};
ghost use Rattle.std.specs.Cmp.{partial_equiv_from_equiv};
ghost use Rattle.bstr.specs.Show.{debug_text};
ghost use Rattle.dp_conf.specs.Blanks.{trim as trim_spec};
ghost use Rattle.dp_conf.specs.Borrowed.{content_now};
ghost use Rattle.dp_conf.specs.Lines.{content_of};
ghost use Rattle.dp_files.specs.LineTexts.{kept_bytes};

use bstr::BStr;
use dp_conf::{Content, NoMemory, Text, line_content, trim};
use std::alloc::Global;
use std::fmt;
use std::marker::Model;
use std::rc::Rc;

/// The text of a file, from which its lines are cut.
///
/// A contract sees it as its bytes.
#[derive(Drop)]
pub(crate) struct WholeText {
    bytes: Rc<Vec<u8>, Global>,
}

impl Model for WholeText {
    ghost use Rattle.std.specs.Prelude.{ℕ, List};

    ghost Value = { List ℕ };

    ghost view = { λ text. text.bytes.value.items };
}

impl WholeText {
    /// The text with these bytes.
    pub(crate) fn new(alloc: Global, bytes: Vec<u8>) -> Result<Self, NoMemory>
        ensures { IfOk result (λ text. text ≡ bytes.items) }
    {
        let bytes = Rc::new(alloc, bytes)?;
        Ok(WholeText { bytes })
    }

    /// Its bytes.
    pub(crate) fn bytes(&self) -> &[u8]
        ensures { result.now ≡ self.now }
    {
        self.bytes.as_ref().as_slice()
    }

    /// The part of the text between two places, which shares its bytes. It may be given as plain only if its content is all of it, without
    /// blanks at its ends.
    pub(crate) fn part_between(
        &self,
        start: usize,
        end: usize,
        is_plain: bool,
    ) -> Result<LineText, NoMemory>
        requires within { (start ≤ end) × (end ≤ length self.now) }
        requires plain { is_plain ≡ true → content_of (slice_range self.now start end) ≡ trim_spec (slice_range self.now start end) }
        ensures { IfOk result (λ part. part ≡ slice_range self.now start end) }
    {
        let whole = self.bytes.clone()?;
        Ok(LineText {
            kept: KeptText::Part(TextPart {
                whole,
                start,
                end,
                is_plain,
            }),
        })
    }
}

/// A part of the text of a file.
///
/// A contract sees it as its bytes.
#[derive(Drop)]
pub(crate) struct TextPart {
    whole: Rc<Vec<u8>, Global>,
    start: usize,
    end: usize,
    /// Whether its content is known to be all of it, without blanks at its ends.
    is_plain: bool,
}

impl Model for TextPart {
    ghost use Rattle.std.specs.Prelude.{ℕ, List, ◌≡◌, ◌≤◌, length, slice_range, true};
    ghost use Rattle.dp_conf.specs.Blanks.{trim};
    ghost use Rattle.dp_conf.specs.Lines.{content_of};

    ghost Value = { List ℕ };

    ghost view = { λ part. slice_range part.whole.value.items part.start part.end };

    ghost invariant = { λ part. (part.start ≤ part.end) × (part.end ≤ length part.whole.value.items)
        × (part.is_plain ≡ true → content_of (slice_range part.whole.value.items part.start part.end)
        ≡ trim (slice_range part.whole.value.items part.start part.end)) };
}

impl TextPart {
    /// Its bytes.
    fn bytes(&self) -> &[u8]
        ensures { result.now ≡ self.now }
    {
        &self.whole.as_ref().as_slice()[self.start..self.end]
    }

    /// Its content, if it is known to be all of it without blanks at its ends.
    #[inline(always)]
    fn plain_content(&self) -> Option<&[u8]>
        ensures { IfSome result (λ content. content.now ≡ content_of self.now) }
    {
        if self.is_plain {
            return Some(trim(self.bytes()));
        }
        None
    }

    /// Its content.
    #[inline(always)]
    fn content(&self, alloc: Global) -> Result<Content<'_>, NoMemory>
        ensures { IfOk result (λ content. content_now content ≡ content_of self.now) }
    {
        if self.is_plain {
            return Ok(Content::AsWritten(self.bytes()));
        }
        line_content(alloc, self.bytes())
    }

    /// The same part again, which shares the bytes.
    fn copy(&self) -> Result<Self, NoMemory>
        ensures { IfOk result (λ copy. copy ≡ self.now) }
    {
        let whole = self.whole.clone()?;
        Ok(TextPart {
            whole,
            start: self.start,
            end: self.end,
            is_plain: self.is_plain,
        })
    }
}

/// How the text of a line is kept.
#[derive(Drop)]
pub(crate) enum KeptText {
    /// A part of the text of its file.
    Part(TextPart),
    /// Bytes of its own.
    Own(Text),
}

/// The text of a line. Its bytes may be shared with the text of its file, so that a copy of it copies none.
///
/// A contract sees it as its bytes.
#[derive(Drop)]
pub struct LineText {
    kept: KeptText,
}

impl Model for LineText {
    ghost use Rattle.std.specs.Prelude.{ℕ, List};
    ghost use Rattle.dp_files.specs.LineTexts.{kept_bytes};

    ghost Value = { List ℕ };

    ghost view = { λ text. kept_bytes text.kept };
}

/// The same text again.
fn copy_kept(kept: &KeptText) -> Result<KeptText, NoMemory>
    ensures { IfOk result (λ copy. kept_bytes copy ≡ kept_bytes kept.now) }
{
    match kept {
        KeptText::Part(part) => {
            let part = part.copy()?;
            Ok(KeptText::Part(part))
        }
        KeptText::Own(text) => {
            let text = text.clone()?;
            Ok(KeptText::Own(text))
        }
    }
}

impl LineText {
    /// The text with bytes of its own. It never allocates.
    pub fn new(text: Text) -> Self
        ensures { result ≡ text }
    {
        LineText {
            kept: KeptText::Own(text),
        }
    }

    /// The bytes of the text.
    pub fn bytes(&self) -> &[u8]
        ensures { result.now ≡ self.now }
    {
        match &self.kept {
            KeptText::Part(part) => part.bytes(),
            KeptText::Own(text) => text.bytes(),
        }
    }

    /// The content of the line: what comes before its comment, without blanks at either end and with each `\;` replaced by `;`.
    ///
    /// It allocates only for a line with a `\`.
    #[inline(always)]
    pub fn content(&self, alloc: Global) -> Result<Content<'_>, NoMemory>
        ensures { IfOk result (λ content. content_now content ≡ content_of self.now) }
    {
        match &self.kept {
            KeptText::Part(part) => part.content(alloc),
            KeptText::Own(text) => line_content(alloc, text.bytes()),
        }
    }

    /// The content of a line, if the line is known to have no `;`.
    #[inline(always)]
    pub(crate) fn plain_content(&self) -> Option<&[u8]>
        ensures { IfSome result (λ content. content.now ≡ content_of self.now) }
    {
        match &self.kept {
            KeptText::Part(part) => part.plain_content(),
            KeptText::Own(_) => None,
        }
    }
}

impl Clone for LineText {
    ghost is_clone = { λ text copy. copy ≡ text };

    fn clone(&self) -> Result<LineText, NoMemory> {
        let kept = copy_kept(&self.kept)?;
        Ok(LineText { kept })
    }
}

impl PartialEq for LineText {
    ghost eq = { pointwise nat_eq };

    ghost laws = { partial_equiv_from_equiv nat_list_eq_equiv };

    fn eq(&self, other: &LineText) -> bool {
        self.bytes() == other.bytes()
    }
}

impl Eq for LineText {
    ghost laws = { nat_list_eq_equiv };
}

impl fmt::Debug for LineText {
    ghost debug_output = { λ text. debug_text text };

    fn fmt<W: fmt::Write>(&self, f: &mut fmt::Formatter<W>) -> fmt::Result {
        fmt::Debug::fmt(&BStr::new(self.bytes()), f)
    }
}
