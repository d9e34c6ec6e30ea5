//! The name of an extension.
ghost use Rattle.std.specs.Prelude.{◌≡◌, Ok, IfOk, MatchResult};
ghost use Rattle.dp_pattern.specs.Name.{meaning_of, IsName, IsReason};
ghost use Rattle.dp_pattern.specs.Kept.{kept_meaning, parts_meaning};
ghost use Rattle.dp_pattern.specs.Spelling.{spelling, SpellsCleanly};

use crate::class::Class;
use crate::fault::PatternFault;
use crate::reading::read_kind;
use crate::spelling::pattern_text;
use crate::tail::Tail;
use arrayvec::ArrayVec;
use std::alloc::{AllocError as NoMemory, Global};
use std::marker::Model;

/// The name of an extension: a plain text, or a pattern over dialled text.
///
/// Contracts see it as its meaning, and know that some text has this meaning.
#[derive(Debug)]
pub struct Name {
    kind: Kind,
}

impl Drop for Name {
    #[inline(always)]
    fn drop(self) {
        let Name { kind: _ } = self;
    }
}

const _: () = prove!(size_of::<Name>() == 32);

/// The form in which a meaning is kept.
#[derive(Debug, Drop)]
pub(crate) enum Kind {
    /// A short plain name, which needs no block on the heap.
    Short(ArrayVec<u8, 16>),
    /// Any other plain name.
    Plain(Vec<u8>),
    /// The tail of a pattern and the classes before it.
    Pattern(Tail, Vec<Class>),
}

impl Model for Name {
    ghost use Rattle.dp_pattern.specs.Name.{Meaning, IsName};

    ghost Value = { Meaning };

    ghost use Rattle.dp_pattern.specs.Kept.{kept_meaning};

    ghost view = { λ name. kept_meaning name.kind };

    ghost invariant = { λ name. IsName (kept_meaning name.kind) };
}

/// The parts of a name.
#[derive(Clone, Copy)]
pub enum Parts<'a> {
    /// A plain name, with its text without dashes.
    Plain(&'a [u8]),
    /// A pattern, with its classes in order and the tail after them.
    Pattern(&'a [Class], Tail),
}

// A copy of the kept form.
fn copy_kind(kind: &Kind) -> Result<Kind, NoMemory>
    ensures { IfOk result (λ copy. kept_meaning copy ≡ kept_meaning kind.now) }
{
    match kind {
        Kind::Short(text) => {
            let text = text.clone()?;
            Ok(Kind::Short(text))
        }
        Kind::Plain(text) => {
            let text = text.clone()?;
            Ok(Kind::Plain(text))
        }
        Kind::Pattern(tail, classes) => {
            let classes = classes.clone()?;
            Ok(Kind::Pattern(*tail, classes))
        }
    }
}

impl Clone for Name {
    ghost is_clone = { λ name copy. copy ≡ name };

    fn clone(&self) -> Result<Name, NoMemory> {
        let kind = copy_kind(&self.kind)?;
        Ok(Name { kind })
    }
}

impl Name {
    /// The name that the text means, after the Asterisk documentation's page on pattern matching.
    ///
    /// A name whose first byte other than `-` is `_` is a pattern, and any other is a plain text. The error is the first fault from the
    /// left, or `NoMemory` if memory ran out.
    pub fn read(alloc: Global, text: &[u8]) -> Result<Name, PatternFault>
        ensures means { MatchResult result (λ name. meaning_of text.now ≡ Ok name)
            (λ fault. IsReason fault (meaning_of text.now)) }
        ensures named { IfOk result IsName }
    {
        let kind = read_kind(alloc, text)?;
        Ok(Name { kind })
    }

    /// The parts of the name.
    pub fn parts(&self) -> Parts<'_>
        ensures value { parts_meaning result ≡ self.now }
        ensures named { IsName self.now }
    {
        match &self.kind {
            Kind::Short(text) => Parts::Plain(text.as_slice()),
            Kind::Plain(text) => Parts::Plain(text),
            Kind::Pattern(tail, classes) => Parts::Pattern(classes, *tail),
        }
    }

    /// The canonical spelling (a choice of this program), which reads as the same name again. It fails only if memory runs out.
    ///
    /// A plain name is spelled without dashes. A pattern is spelled as `_`, then each class, then the tail. A class is `X`, `Z` or `N` if
    /// it is one of those sets, else one character that means itself, or else all members in brackets in byte order.
    #[tactic(auto, unfolding(crate::specs::Spelling::spelling))]
    pub fn text(&self, alloc: Global) -> Result<Vec<u8>, NoMemory>
        ensures ok { IfOk result (λ text. text.items ≡ spelling self.now) }
        ensures again { meaning_of (spelling self.now) ≡ Ok self.now }
    {
        match &self.kind {
            Kind::Short(text) => Vec::from_slice(alloc, text.as_slice()),
            Kind::Plain(text) => Vec::from_slice(alloc, text),
            Kind::Pattern(tail, classes) => pattern_text(alloc, classes, *tail),
        }
    }
}

/// The bytes of spellings: none is a byte that names cannot contain, and each is a digit, a letter, one of `_ [ ] . !`, or a byte of the
/// text from which the name was read.
pub fn spelling_is_clean()
    ensures { SpellsCleanly }
{}
