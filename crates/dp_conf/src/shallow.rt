//! Texts that may be expanded: their groups are not nested too deeply.
ghost use Rattle.std.specs.Prelude.{◌≡◌, IfOk, nat_eq, Some};
ghost use Rattle.std.specs.Cmp.Lexicographic.{pointwise, nat_list_eq_equiv};
ghost use Rattle.std.specs.Cmp.{partial_equiv_from_equiv};
ghost use Rattle.bstr.specs.Show.{debug_text};
ghost use Rattle.dp_conf.specs.Printed.{printed_text};

use crate::nest::nesting;
use crate::text::Text;
use std::alloc::{AllocError, Global};
use std::fmt;
use std::marker::Model;

/// The greatest nesting of groups in a text that is expanded (a choice of this program).
pub const MOST_NESTING: usize = 32;

/// A text of any bytes whose groups are nested at most 32 deep, such as the arguments of an application.
///
/// A contract sees it as its bytes. Two texts are equal if their bytes are equal.
pub struct ShallowText {
    text: Text,
}

impl Drop for ShallowText {
    #[inline(always)]
    fn drop(self) {
        let ShallowText { text: _ } = self;
    }
}

impl Model for ShallowText {
    ghost use Rattle.std.specs.Prelude.{ℕ, List};
    ghost use Rattle.dp_conf.specs.Shallow.{IsShallow};

    ghost Value = { List ℕ };

    ghost view = { λ shallow. shallow.text };

    ghost invariant = { λ shallow. IsShallow shallow.text };
}

impl ShallowText {
    ghost use Rattle.dp_conf.specs.Shallow.{IsShallow, unless_too_deep};

    /// A text of these bytes, or None if their groups are nested more than 32 deep.
    ///
    /// It fails only if memory runs out.
    pub fn read(alloc: Global, bytes: &[u8]) -> Result<Option<Self>, AllocError>
        ensures { IfOk result (λ text. text ≡ unless_too_deep bytes.now) }
    {
        let depth = nesting(alloc, bytes)?;
        if depth > MOST_NESTING {
            return Ok(None);
        }
        let text = Text::copy_of(alloc, bytes)?;
        Ok(Some(ShallowText { text }))
    }

    /// The text itself.
    pub fn text(&self) -> &Text
        ensures value { result.now ≡ self.now }
        ensures shallow { IsShallow self.now }
    {
        &self.text
    }

    /// The bytes of the text.
    pub fn bytes(&self) -> &[u8]
        ensures value { result.now ≡ self.now }
        ensures shallow { IsShallow self.now }
    {
        self.text.bytes()
    }
}

impl Clone for ShallowText {
    ghost is_clone = { λ text copy. copy ≡ text };

    fn clone(&self) -> Result<ShallowText, AllocError> {
        let text = self.text.clone()?;
        Ok(ShallowText { text })
    }
}

impl PartialEq for ShallowText {
    ghost eq = { pointwise nat_eq };

    ghost laws = { partial_equiv_from_equiv nat_list_eq_equiv };

    fn eq(&self, other: &ShallowText) -> bool {
        self.text() == other.text()
    }
}

impl Eq for ShallowText {
    ghost laws = { nat_list_eq_equiv };
}

impl fmt::Debug for ShallowText {
    ghost debug_output = { λ text. debug_text text };

    fn fmt<W: fmt::Write>(&self, f: &mut fmt::Formatter<W>) -> fmt::Result {
        fmt::Debug::fmt(self.text(), f)
    }
}

impl fmt::Display for ShallowText {
    ghost output = { λ text. Some (printed_text text) };

    fn fmt<W: fmt::Write>(&self, f: &mut fmt::Formatter<W>) -> fmt::Result {
        fmt::Display::fmt(self.text(), f)
    }
}
