//! The order in which a look-up tries the entries of a context.
ghost use Rattle.std.specs.Prelude.{◌≡◌, ◌≤◌, ◌^◌, length, map, IfOk, IsTrue};
ghost use Rattle.std.specs.List.{All};
ghost use Rattle.dp_pattern.specs.Order.{name_cmp};
ghost use Rattle.dp_plan.specs.Contexts.{AreNamed};
ghost use Rattle.dp_plan.specs.Extensions.{same_name};
ghost use Rattle.dp_plan.specs.Ranking as spec;
ghost use Rattle.dp_plan.specs.steps.Numbers.{AreNumbered, AreAllNumbered};

use crate::context::Context;
use crate::entry::{Entry, EntryId};
use crate::numbers::Numbers;
use crate::shared_name::SharedName;
use dp_conf::NoMemory;
use dp_pattern::compare;
use std::alloc::Global;
use std::cmp::Ordering;
use std::marker::Model;

/// The numbers of a context's entries in the order in which a look-up tries them. A contract sees it as their list.
#[derive(Debug, Drop)]
pub(crate) struct Ranking {
    ids: Vec<EntryId>,
}

impl Model for Ranking {
    ghost use Rattle.std.specs.Prelude.{List};
    ghost use Rattle.dp_plan.specs.declared.entry.EntryId.{EntryId};

    ghost Value = { List EntryId };

    ghost view = { λ ranking. ranking.ids.items };
}

impl Ranking {
    ghost use Rattle.std.specs.Prelude.{◌≡◌};

    /// The numbers in this order.
    pub(crate) fn ids(&self) -> &[EntryId]
        ensures { result.now ≡ self.now }
    {
        &self.ids
    }
}

/// The order of two names. If they are known to be the same they are not compared.
fn compare_names(left: &SharedName, right: &SharedName, is_one: bool) -> Ordering
    requires { IsTrue is_one → IsTrue (same_name left.now right.now) }
    ensures { result ≡ name_cmp left.now right.now }
{
    if is_one {
        // The parts of a name are the meaning of some text, which has one spelling.
        let _left = left.name().parts();
        let _right = right.name().parts();
        return Ordering::Equal;
    }
    compare(left.name(), right.name())
}

/// The order of two entries, by their names and then by their priorities. Their names may be known to be the same.
fn compare_entries(left: &Entry, right: &Entry, is_one: bool) -> Ordering
    requires { IsTrue is_one → IsTrue (same_name left.now.name right.now.name) }
    ensures { result ≡ spec.entry_cmp left.now right.now }
{
    compare_names(&left.name, &right.name, is_one).then(
        left.priority.get().cmp(&right.priority.get()),
    )
}

/// The order of two entries, given by their numbers. Entries of one extension are recognized by its number.
fn compare_ids(entries: &[Entry], extensions: &Numbers, left: EntryId, right: EntryId) -> Ordering
    requires { AreNumbered entries.now extensions.now }
    ensures { result ≡ spec.id_cmp entries.now left right }
{
    let is_one = extensions.are_one(left.entry, right.entry);
    match (entries.get(left.entry), entries.get(right.entry)) {
        (Some(left), Some(right)) => compare_entries(left, right, is_one),
        (Some(_), None) => Ordering::Greater,
        (None, Some(_)) => Ordering::Less,
        (None, None) => Ordering::Equal,
    }
}

/// The numbers of the entries of a context, in file order.
fn number_entries(alloc: Global, context: usize, count: usize) -> Result<Vec<EntryId>, NoMemory>
    ensures { IfOk result (λ ids. ids.items ≡ spec.numbers_of context count) }
{
    (0..count)
        .map(|entry| EntryId { context, entry })
        .collect(alloc)
}

/// The ranking of the entries of a context, given the numbers of their extensions.
fn rank(
    alloc: Global,
    context: usize,
    entries: &[Entry],
    extensions: &Numbers,
) -> Result<Ranking, NoMemory>
    requires apart { spec.AreApart entries.now }
    requires numbered { AreNumbered entries.now extensions.now }
    ensures { IfOk result (λ ranking. spec.IsRanking context entries.now ranking) }
{
    let mut ids = number_entries(alloc, context, entries.len())?;
    ids.sort_unstable_by(|left, right| compare_ids(entries, extensions, *left, *right));
    Ok(Ranking { ids })
}

/// The ranking of a context in which the name of each entry is the meaning of some text.
fn rank_context(
    alloc: Global,
    number: usize,
    context: &Context,
    extensions: &Numbers,
) -> Result<Ranking, NoMemory>
    requires apart { spec.AreApart context.now.entries }
    requires numbered { AreNumbered context.now.entries extensions.now }
    ensures ranked { IfOk result (λ ranking. spec.IsRanking number context.now.entries ranking) }
    ensures named { AreNamed context.now.entries }
{
    context.entries_are_named();
    rank(alloc, number, context.entries(), extensions)
}

/// The rankings of all contexts, given the numbers of the extensions of their entries.
pub(crate) fn rank_contexts(
    alloc: Global,
    contexts: &[Context],
    extensions: &[Numbers],
) -> Result<Vec<Ranking>, NoMemory>
    requires apart { All (λ context. spec.AreApart context.entries) contexts.now }
    requires numbered { AreAllNumbered contexts.now extensions.now }
    ensures ranked { IfOk result (λ rankings. spec.AreRanked contexts.now rankings.items) }
    ensures named { IfOk result (λ rankings. All (λ context. AreNamed context.entries) contexts.now) }
{
    let mut rankings = Vec::with_capacity(alloc, contexts.len())?;
    for (number, context) in contexts.iter().enumerate() {
        let ranking = rank_context(alloc, number, context, &extensions[number])?;
        rankings.push(ranking)?;
    }
    Ok(rankings)
}
