//! Texts that are expanded when used, after the Asterisk documentation's pages on variables.
ghost use Rattle.std.specs.Prelude.{◌≡◌, ◌<◌, ◌≤◌, IfErr, IfOk};
ghost use Rattle.std.specs.Option.{option_map};
ghost use Rattle.dp_conf.specs.Groups.{Reading, IsReading};
ghost use Rattle.dp_conf.specs.GroupsRead.{nesting_of};
ghost use Rattle.dp_vars.specs.declared.template.TemplateFault.TheVariants as faults;
ghost use Rattle.dp_vars.specs.Sights.{sight_of};
ghost use Rattle.dp_vars.specs.Unknown.{first_unknown};
ghost use Rattle.dp_vars.specs.Values.{expansion_of, expansion, expansion_of_with, expansion_with};

use crate::expanding::{Expanded, Expanding};
use crate::functions::{Functions, StandardFunctions};
use crate::pieces::Pieces;
use crate::scope::{Counts, Scope};
use dp_conf::{MOST_NESTING, NoMemory, nesting, next_mark};
use std::alloc::{AllocError, Global};
use std::marker::Model;

/// Why a text is not a template.
#[derive(Clone, Copy, Debug, PartialEq, Eq)]
pub enum TemplateFault {
    /// Groups are nested more deeply than allowed.
    TooDeep,
    /// Memory ran out.
    NoMemory,
}

impl From<AllocError> for TemplateFault {
    ghost from_gives = { λ _ fault. fault ≡ faults.NoMemory };

    fn from(_: AllocError) -> Self {
        TemplateFault::NoMemory
    }
}

/// A text with variables, functions and expressions in groups.
///
/// A contract sees it as its text.
pub struct Template {
    text: Vec<u8>,
    pieces: Pieces,
}

impl Drop for Template {
    fn drop(self) {
        let Template { text: _, pieces: _ } = self;
    }
}

impl Model for Template {
    ghost use Rattle.std.specs.Prelude.{ℕ, List};

    ghost Value = { List ℕ };

    ghost use Rattle.dp_vars.specs.Pieces.{AreOf};

    ghost view = { λ template. template.text.items };

    ghost invariant = { λ template. AreOf template.text.items template.pieces };
}

impl Template {
    /// The template of a text whose groups are nested at most 32 deep. It fails with `TooDeep` for any other text, and
    /// with `NoMemory` if memory runs out.
    pub fn read(alloc: Global, text: &[u8]) -> Result<Self, TemplateFault>
        ensures ok { IfOk result (λ template. (template ≡ text.now) × (nesting_of text.now ≤ 32)) }
        ensures deep { IfErr result (λ fault. fault ≡ TemplateFault.TooDeep → 32 < nesting_of text.now) }
    {
        let depth = nesting(alloc, text)?;
        if depth > MOST_NESTING {
            return Err(TemplateFault::TooDeep);
        }
        let pieces = Pieces::read(alloc, text)?;
        let text = Vec::from_slice(alloc, text)?;
        Ok(Template { text, pieces })
    }
}

/// A text with each group replaced with its value, as `expand` does with a template, however deep its groups are
/// nested.
///
/// It fails only if memory runs out.
pub fn expand_text<B, C: Counts>(
    alloc: Global,
    text: &[u8],
    scope: &Scope<'_, B, C>,
) -> Result<Vec<u8>, NoMemory>
    ensures { IfOk result (λ bytes. bytes.items ≡ expansion (sight_of C.count scope.now) text.now) }
{
    expand_text_with::<StandardFunctions, B, C>(alloc, text, scope)
}

/// A text with each group replaced with its value, using the functions of a table.
///
/// It fails only if memory runs out.
pub fn expand_text_with<F: Functions, B, C: Counts>(
    alloc: Global,
    text: &[u8],
    scope: &Scope<'_, B, C>,
) -> Result<Vec<u8>, NoMemory>
    ensures { IfOk result (λ bytes. bytes.items ≡ expansion_with F.table (sight_of C.count scope.now) text.now) }
{
    let expanded = expand_text_checked::<F, B, C>(alloc, text, scope)?;
    Ok(expanded.bytes)
}

/// The same, with the first name, call or expression in the text that is not known.
///
/// It fails only if memory runs out.
pub fn expand_text_checked<F: Functions, B, C: Counts>(
    alloc: Global,
    text: &[u8],
    scope: &Scope<'_, B, C>,
) -> Result<Expanded, NoMemory>
    ensures bytes { IfOk result (λ expanded. expanded.bytes.items ≡ expansion_with F.table (sight_of C.count scope.now) text.now) }
    ensures unknown { IfOk result (λ expanded. option_map (λ bytes. bytes.items) expanded.unknown
        ≡ first_unknown F.table (sight_of C.count scope.now) text.now) }
{
    let mut expanding = Expanding::with_room(alloc, text.len())?;
    let mut rest = text;
    while let Some((mark, after)) = next_mark(rest, expanding.innermost()) {
        expanding.take::<F, B, C>(alloc, scope, mark)?;
        rest = after;
    }
    expanding.finish().of::<F>(alloc, text)
}

/// The template with each group replaced with its value.
///
/// The body of a group is expanded first, and its value is not expanded again. `${..}` has the value of a variable or
/// of a function, or a part of it; `$[..]` has the value of an expression. An opening without an end is plain.
///
/// It fails only if memory runs out.
pub fn expand<B, C: Counts>(
    alloc: Global,
    template: &Template,
    scope: &Scope<'_, B, C>,
) -> Result<Vec<u8>, NoMemory>
    // Given the text's one reading.
    ensures reading { (reading : Reading) → IsReading template.now reading
        → IfOk result (λ bytes. bytes.items ≡ expansion_of (sight_of C.count scope.now) reading) }
    // The same, given by a function.
    ensures exact { IfOk result (λ bytes. bytes.items ≡ expansion (sight_of C.count scope.now) template.now) }
{
    expand_with::<StandardFunctions, B, C>(alloc, template, scope)
}

/// The template with each group replaced with its value, as `expand` does, using the functions of a table.
///
/// It fails only if memory runs out.
pub fn expand_with<F: Functions, B, C: Counts>(
    alloc: Global,
    template: &Template,
    scope: &Scope<'_, B, C>,
) -> Result<Vec<u8>, NoMemory>
    // Given the text's one reading.
    ensures reading { (reading : Reading) → IsReading template.now reading
        → IfOk result (λ bytes. bytes.items ≡ expansion_of_with F.table (sight_of C.count scope.now) reading) }
    // The same, given by a function.
    ensures exact { IfOk result (λ bytes. bytes.items ≡ expansion_with F.table (sight_of C.count scope.now) template.now) }
{
    let bytes = template
        .pieces
        .expand_with::<F, B, C>(alloc, &template.text, scope)?;
    Ok(bytes)
}
