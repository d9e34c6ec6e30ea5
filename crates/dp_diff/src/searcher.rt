//! The entries with which the contexts of a dialplan answer.
ghost use Rattle.std.specs.Prelude.{◌≡◌, [], OnOk, IfOk};
ghost use Rattle.std.specs.List.{flat_map};
ghost use Rattle.indexmap.specs.IndexSet.{insert_all};
ghost use Rattle.dp_lookup.specs.FoundEntry.{entries_at};
ghost use Rattle.dp_plan.specs.Ranking.{shares_place};
ghost use Rattle.dp_diff.specs.Answering.{answering};

use crate::place::TablePlace;
use dp_lookup::SearchOrder;
use dp_plan::{Dialplan, Entry, NoMemory, Text};
use indexmap::IndexSet;
use std::alloc::Global;
use std::marker::Model;

/// A dialplan with room for its search orders. A contract sees it as the dialplan.
#[derive(Drop)]
pub(crate) struct Searcher<'a> {
    plan: &'a Dialplan,
    order: SearchOrder,
}

impl<'a> Model for Searcher<'a> {
    ghost use Rattle.std.specs.Prelude.{◌≤◌};
    ghost use Rattle.dp_lookup.specs.SearchOrder.{context_count};
    ghost use Rattle.dp_plan.specs.Plan.{PlanOf};

    ghost Value = { PlanOf };

    ghost view = { λ searcher. searcher.plan.now };

    ghost invariant = { λ searcher. context_count searcher.plan.now ≤ searcher.order.room };
}

/// The entries of the context with the number; none if there is no such context.
fn entries_at(plan: &Dialplan, number: usize) -> &[Entry]
    ensures { result.now ≡ entries_at plan.now number }
{
    match plan.contexts().get(number) {
        Some(context) => context.entries(),
        None => &[],
    }
}

/// Adds the entries whose place is free.
fn add_entries<'a>(
    places: &mut IndexSet<TablePlace<'a>>,
    entries: &'a [Entry],
) -> Result<(), NoMemory>
    ensures { OnOk result (places.new.keys ≡ insert_all shares_place places.old.keys entries.now) }
{
    for entry in entries {
        places.insert(TablePlace::of(entry))?;
    }
    Ok(())
}

/// The entries of the contexts with these numbers, each if its place is free.
fn places_in<'a>(
    alloc: Global,
    plan: &'a Dialplan,
    order: &[usize],
) -> Result<IndexSet<TablePlace<'a>>, NoMemory>
    ensures { IfOk result (λ places. places.keys ≡ insert_all shares_place [] (flat_map (entries_at plan.now) order.now)) }
{
    let mut places = IndexSet::new(alloc);
    for number in order {
        add_entries(&mut places, entries_at(plan, *number))?;
    }
    Ok(places)
}

impl<'a> Searcher<'a> {
    /// The dialplan, with room for each of its search orders. It fails only if memory runs out.
    pub(crate) fn new(alloc: Global, plan: &'a Dialplan) -> Result<Self, NoMemory>
        ensures { IfOk result (λ searcher. searcher ≡ plan.now) }
    {
        let order = SearchOrder::room(alloc, plan)?;
        Ok(Searcher { plan, order })
    }

    /// The entries with which the context answers, in order. It fails only if memory runs out.
    #[tactic(auto, unfolding(crate::specs::Answering::answering), using(crate::proofs::AnsweringLemmas::inserted_all))]
    pub(crate) fn answering(
        &mut self,
        alloc: Global,
        context: &Text,
    ) -> Result<IndexSet<TablePlace<'a>>, NoMemory>
        ensures places { IfOk result (λ places. places.keys ≡ answering self.old context.now) }
        ensures same { self.new ≡ self.old }
    {
        self.order.fill(self.plan, context);
        places_in(alloc, self.plan, self.order.contexts())
    }
}
