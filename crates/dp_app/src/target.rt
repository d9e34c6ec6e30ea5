//! Where an application sends a channel, after the Asterisk documentation's page on the application `Goto`.
ghost use Rattle.std.specs.Prelude.{◌≡◌, ◌++◌, ◌<◌, ◌≤◌, ℕ, List, [], ◌∷◌, IfOk, MatchOption, length, map};
ghost use Rattle.dp_conf.specs.Levels.{arguments_of};

use crate::place::Place;
use dp_conf::{NoMemory, Text, first_argument, trim};
use smallvec::SmallVec;
use std::alloc::Global;
use std::marker::Model;

/// The form in which the parts of a target are kept.
#[derive(Drop)]
pub(crate) enum KeptParts {
    /// The parts before the last one, and the last one, which is not allocated if it is short.
    Apart {
        front: Vec<Text>,
        last: SmallVec<u8, 16>,
    },
    /// The whole text of more than three parts, which names no place.
    Whole(Text),
}

/// The parts of a target, in the order of its text: `[[context,]extension,]priority`. A contract sees it as their list.
/// There is always the last one. If there are more than three, only the text is kept, however many they are.
#[derive(Drop)]
pub struct TargetParts {
    kept: KeptParts,
}

impl Model for TargetParts {
    ghost use Rattle.std.specs.Prelude.{ℕ, List};
    ghost use Rattle.dp_app.specs.steps.Targets.{AreMany, kept_parts};

    ghost Value = { List (List ℕ) };

    ghost view = { λ parts. kept_parts parts.kept };

    ghost invariant = { λ parts. AreMany parts.kept };
}

/// Owned copies of the texts.
fn copies_of(alloc: Global, parts: &[&[u8]]) -> Result<Vec<Text>, NoMemory>
    ensures { IfOk result (λ texts. texts.items ≡ map (λ part. part.now) parts.now) }
{
    let mut texts = Vec::with_capacity(alloc, parts.len())?;
    for part in parts {
        let text = Text::copy_of(alloc, part)?;
        texts.push(text)?;
    }
    Ok(texts)
}

impl TargetParts {
    /// The parts of a target's text, which are separated by commas outside parentheses, each without blanks at either
    /// end. It fails only if memory runs out.
    pub fn of(alloc: Global, target: &[u8]) -> Result<Self, NoMemory>
        ensures { IfOk result (λ parts. parts ≡ arguments_of target.now) }
    {
        let (first, rest) = first_argument(target);
        let Some(rest) = rest else {
            return TargetParts::with_last(alloc, &[], trim(first));
        };
        let (second, rest) = first_argument(rest);
        let Some(rest) = rest else {
            return TargetParts::with_last(alloc, &[trim(first)], trim(second));
        };
        let (third, rest) = first_argument(rest);
        if rest.is_some() {
            return TargetParts::whole(alloc, target);
        }
        TargetParts::with_last(alloc, &[trim(first), trim(second)], trim(third))
    }

    /// The parts of a text with more than three.
    fn whole(alloc: Global, target: &[u8]) -> Result<Self, NoMemory>
        requires { 3 < length (arguments_of target.now) }
        ensures { IfOk result (λ parts. parts ≡ arguments_of target.now) }
    {
        let text = Text::copy_of(alloc, target)?;
        Ok(TargetParts {
            kept: KeptParts::Whole(text),
        })
    }

    /// Copies of these parts, with one more at the end. It fails only if memory runs out.
    #[inline(always)]
    pub fn with_last(alloc: Global, front: &[&[u8]], last: &[u8]) -> Result<Self, NoMemory>
        ensures { IfOk result (λ made. made ≡ map (λ part. part.now) front.now ++ last.now ∷ []) }
    {
        let front = copies_of(alloc, front)?;
        let last = SmallVec::from_slice(alloc, last)?;
        Ok(TargetParts {
            kept: KeptParts::Apart { front, last },
        })
    }

    /// The parts before the last one, in order, and the last one; None if there are more than three parts.
    pub fn apart(&self) -> Option<(&[Text], &[u8])>
        ensures { MatchOption result (3 < length self.now)
            (λ parts. (self.now ≡ parts.0.now ++ parts.1.now ∷ []) × (length parts.0.now ≤ 2)) }
    {
        match &self.kept {
            KeptParts::Apart { front, last } if front.len() <= 2 => Some((front, last.as_slice())),
            _ => None,
        }
    }

    /// The owned texts before the last one, in order; None only if there are more than three parts. It never allocates.
    pub fn into_front(self) -> Option<Vec<Text>>
        ensures { MatchOption result (3 < length self) (λ front. (last : List ℕ) × (self ≡ front.items ++ last ∷ [])) }
    {
        match self.kept {
            KeptParts::Apart { front, .. } => Some(front),
            KeptParts::Whole(_) => None,
        }
    }
}

/// Where an application sends a channel.
#[derive(Drop)]
pub enum Target {
    /// This place.
    To(Place),
    /// The place that the parts name, if an entry is found there; otherwise the call ends.
    Existing(TargetParts),
    /// The place that the parts name.
    Parts(TargetParts),
}
