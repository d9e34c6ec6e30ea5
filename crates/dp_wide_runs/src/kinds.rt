//! The kinds of an audit's findings, and which of them are reported.
ghost use Rattle.std.specs.Prelude.{◌≡◌, map};
ghost use Rattle.std.specs.List.{list_all, list_any, slice_split};
ghost use Rattle.dp_conf.specs.Words.{same_word};
ghost use Rattle.dp_wide_runs.specs.Kinds as spec;

use dp_conf::{same_word, trim};

/// Which kinds of findings are reported. A kind is named by the word that is printed for it, in any case.
#[derive(Clone, Copy, Debug, PartialEq, Eq)]
pub enum KindChoice<'a> {
    /// All of them.
    All,
    /// The kinds that a text names; commas separate its words.
    Only(&'a str),
    /// All kinds but those that a text names.
    Except(&'a str),
}

/// The choice of an audit.
#[derive(Clone, Copy, Debug, PartialEq, Eq)]
pub struct AuditChoice<'a> {
    /// Whether the audit uses the wide table.
    pub is_wide: bool,
    /// Which kinds of findings are reported.
    pub kinds: KindChoice<'a>,
}

/// The kinds of an audit over the applications of this program.
const PLAIN_KINDS: [&[u8]; 8] = [
    b"Cycle",
    b"NoApplication",
    b"NoTarget",
    b"Gap",
    b"NoFirst",
    b"Hidden",
    b"Unset",
    b"Unused",
];

/// The kinds of an audit over the wide table.
const WIDE_KINDS: [&[u8]; 11] = [
    b"Cycle",
    b"NoApplication",
    b"NoTarget",
    b"Gap",
    b"NoFirst",
    b"Hidden",
    b"Unset",
    b"Unused",
    b"FallsThrough",
    b"Loop",
    b"NoFunction",
];

/// Whether the word is one of the kinds, in any case.
fn is_among(kinds: &[&[u8]], word: &[u8]) -> bool
    ensures { result ≡ spec.is_among (map (λ kind. kind.now) kinds.now) word.now }
{
    kinds.iter().any(|kind| same_word(word, kind))
}

/// Whether the word is a kind of an audit, in any case.
#[tactic(auto, unfolding(crate::specs::Kinds::plain_kinds, crate::specs::Kinds::wide_kinds))]
fn is_kind(is_wide: bool, word: &[u8]) -> bool
    ensures { result ≡ spec.is_kind is_wide word.now }
{
    if is_wide {
        is_among(&WIDE_KINDS, word)
    } else {
        is_among(&PLAIN_KINDS, word)
    }
}

/// Whether each word of a text is a kind of an audit, over the wide table or not: commas separate the words, and neither the case of a
/// letter nor blanks at the ends of a word matter.
pub fn are_kinds(is_wide: bool, text: &[u8]) -> bool
    ensures { result ≡ spec.are_kinds is_wide text.now }
{
    text.split(|byte| *byte == b',')
        .all(|word| is_kind(is_wide, trim(word)))
}

/// Whether the kind is one of the words of a text.
fn has_kind(text: &[u8], kind: &[u8]) -> bool
    ensures { result ≡ spec.has_kind text.now kind.now }
{
    text.split(|byte| *byte == b',')
        .any(|word| same_word(kind, trim(word)))
}

impl<'a> KindChoice<'a> {
    ghost use Rattle.std.specs.Prelude.{◌≡◌};
    ghost use Rattle.dp_wide_runs.specs.Kinds as spec;

    /// Whether findings of this kind are reported.
    pub(crate) fn tells(&self, kind: &[u8]) -> bool
        ensures { result ≡ spec.is_told (spec.kinds_told self.now) kind.now }
    {
        match self {
            KindChoice::All => true,
            KindChoice::Only(text) => has_kind(text.as_bytes(), kind),
            KindChoice::Except(text) => !has_kind(text.as_bytes(), kind),
        }
    }
}
