//! Entries that others hide: they never answer from a context that includes their own, because an entry with the same place comes before
//! them.
ghost use Rattle.std.specs.Prelude.{◌≡◌, ◌≢◌, ◌≤◌, ◌++◌, ℕ, List, [], All, IsTrue, map, replicate, slice_get, unwrap_or, Some, IfOk, OnOk};
ghost use Rattle.dp_conf.specs.Changes.{changed_at};
ghost use Rattle.dp_audit.specs.Hidden.{hidden_from, is_hidden};
ghost use Rattle.dp_audit.specs.steps.Hiding as spec;
ghost use Rattle.dp_lookup.specs.FoundEntry.{found_entry};
ghost use Rattle.dp_lookup.specs.SearchOrder.{context_count};
ghost use Rattle.dp_audit.specs.Orders.{order_at};
ghost use Rattle.dp_plan.specs.Contexts.{AreNamed};
ghost use Rattle.dp_plan.specs.Lookup.{entry_at};
ghost use Rattle.dp_plan.specs.Plan.{PlanOf};
ghost use Rattle.dp_plan.specs.declared.entry.Entry.{Entry};
ghost use Rattle.dp_plan.specs.declared.entry.EntryId.{EntryId};

use crate::entry_place::{EntryPlace, add_places, is_among};
use crate::finding::Finding;
use crate::neighbours::entries_at;
use crate::order::fill;
use dp_lookup::SearchOrder;
use dp_plan::{Context, Dialplan, Entry, EntryId, NoMemory};
use indexmap::IndexSet;
use std::alloc::Global;
use std::marker::Model;

/// The numbers of the contexts from which an entry is hidden. A contract sees them as a list.
#[derive(Drop)]
struct ContextNumbers {
    list: Vec<usize>,
}

impl Model for ContextNumbers {
    ghost use Rattle.std.specs.Prelude.{ℕ, List};

    ghost Value = { List ℕ };

    ghost view = { λ numbers. numbers.list.items };
}

impl ContextNumbers {
    /// An empty list of numbers. It never allocates.
    fn new(alloc: Global) -> Self
        ensures { result ≡ [] }
    {
        ContextNumbers {
            list: Vec::new(alloc),
        }
    }

    /// Adds a number.
    fn push(&mut self, number: usize) -> Result<(), NoMemory>
        ensures { OnOk result (self.new ≡ spec.with_number number self.old) }
    {
        self.list.push(number)?;
        Ok(())
    }
}

/// Such numbers for each entry of a context. A contract sees them as a list of lists.
#[derive(Drop)]
struct EntryNumbers {
    entries: Vec<ContextNumbers>,
}

impl Model for EntryNumbers {
    ghost use Rattle.std.specs.Prelude.{ℕ, List};

    ghost Value = { List (List ℕ) };

    ghost view = { λ noted. noted.entries.items };
}

impl EntryNumbers {
    /// Empty numbers for so many entries.
    fn of(alloc: Global, count: usize) -> Result<Self, NoMemory>
        ensures { IfOk result (λ noted. noted ≡ replicate count []) }
    {
        let mut entries = Vec::with_capacity(alloc, count)?;
        for _ in 0..count {
            entries.push(ContextNumbers::new(alloc))?;
        }
        Ok(EntryNumbers { entries })
    }

    /// Adds a number to those of an entry, if there is such an entry.
    fn push(&mut self, entry: usize, number: usize) -> Result<(), NoMemory>
        ensures { OnOk result (self.new ≡ changed_at (spec.with_number number) entry self.old) }
    {
        if entry < self.entries.len() {
            let numbers = &mut self.entries[entry];
            numbers.push(number)?;
        }
        Ok(())
    }

    /// The numbers of an entry.
    fn get(&self, entry: usize) -> &[usize]
        ensures { result.now ≡ unwrap_or (slice_get self.now entry) [] }
    {
        match self.entries.get(entry) {
            Some(numbers) => &numbers.list,
            None => &[],
        }
    }
}

/// From which contexts each entry of a dialplan is hidden. A contract sees it as what is recorded for the entries of each context.
#[derive(Drop)]
pub(crate) struct Hidings {
    notes: Vec<EntryNumbers>,
}

impl Model for Hidings {
    ghost use Rattle.dp_audit.specs.steps.Hiding.{Notes};

    ghost Value = { Notes };

    ghost view = { λ hidings. hidings.notes.items };
}

impl Hidings {
    /// No entry of the contexts is hidden.
    fn none(alloc: Global, contexts: &[Context]) -> Result<Self, NoMemory>
        ensures { IfOk result (λ hidings. hidings ≡ spec.no_notes contexts.now) }
    {
        let mut notes = Vec::with_capacity(alloc, contexts.len())?;
        for context in contexts {
            notes.push(EntryNumbers::of(alloc, context.entries().len())?)?;
        }
        Ok(Hidings { notes })
    }

    /// Adds a number to those of an entry, if there is such an entry.
    fn push(&mut self, id: EntryId, number: usize) -> Result<(), NoMemory>
        ensures { OnOk result (self.new ≡ changed_at
            (changed_at (spec.with_number number) id.entry) id.context self.old) }
    {
        if id.context < self.notes.len() {
            let noted = &mut self.notes[id.context];
            noted.push(id.entry, number)?;
        }
        Ok(())
    }

    /// Records that an entry is hidden from the context with a number, if its place is among these.
    fn ask_entry(
        &mut self,
        places: &IndexSet<EntryPlace>,
        id: EntryId,
        entry: &Entry,
        from: usize,
    ) -> Result<(), NoMemory>
        ensures { OnOk result (spec.Grows self.old self.new (spec.for_one places.now.keys id entry.now from)) }
    {
        if is_among(places, entry)? {
            self.push(id, from)?;
        }
        Ok(())
    }

    /// Records which entries of the context with a number are hidden from that with another, given the places of the entries before them.
    fn ask_context(
        &mut self,
        plan: &Dialplan,
        places: &IndexSet<EntryPlace>,
        number: usize,
        from: usize,
    ) -> Result<(), NoMemory>
        ensures { OnOk result (spec.Grows self.old self.new
            (spec.for_each plan.now (spec.is_among places.now.keys) number from)) }
    {
        let entries = entries_at(plan, number);
        for entry in 0..entries.len() {
            let id = EntryId {
                context: number,
                entry,
            };
            self.ask_entry(places, id, &entries[entry], from)?;
        }
        Ok(())
    }

    /// Records which entries are hidden from the context with a number, given its search order. It keeps no places for the last context,
    /// and checks nothing in an order with one context.
    fn ask_order(
        &mut self,
        alloc: Global,
        plan: &Dialplan,
        order: &[usize],
        from: usize,
    ) -> Result<(), NoMemory>
        ensures { OnOk result (spec.Grows self.old self.new (spec.numbers_asked plan.now from [] order.now)) }
    {
        let mut places = IndexSet::new(alloc);
        for place in 1..order.len() {
            add_places(&mut places, entries_at(plan, order[place - 1]))?;
            self.ask_context(plan, &places, order[place], from)?;
        }
        Ok(())
    }

    /// Records which entries are hidden from each context of the dialplan.
    fn ask_all(
        &mut self,
        alloc: Global,
        plan: &Dialplan,
        order: &mut SearchOrder,
    ) -> Result<(), NoMemory>
        requires { context_count plan.now ≤ order.old.room }
        ensures { OnOk result (spec.Grows self.old self.new (spec.all_hidden plan.now (context_count plan.now))) }
    {
        for number in 0..plan.contexts().len() {
            fill(plan, number, order);
            self.ask_order(alloc, plan, order.contexts(), number)?;
        }
        Ok(())
    }

    /// From which contexts each entry of the dialplan is hidden.
    pub(crate) fn of(alloc: Global, plan: &Dialplan) -> Result<Self, NoMemory>
        ensures { IfOk result (spec.AreHidden plan.now) }
    {
        let mut hidings = Hidings::none(alloc, plan.contexts())?;
        let mut order = SearchOrder::room(alloc, plan)?;
        hidings.ask_all(alloc, plan, &mut order)?;
        Ok(hidings)
    }

    /// The contexts from which the entry with these numbers is hidden.
    fn get(&self, id: EntryId) -> &[usize]
        ensures { result.now ≡ unwrap_or (spec.noted_at self.now id) [] }
    {
        match self.notes.get(id.context) {
            Some(noted) => noted.get(id.entry),
            None => &[],
        }
    }
}

/// Adds an entry as hidden from each of these contexts.
fn push_each(findings: &mut Vec<Finding>, id: EntryId, contexts: &[usize]) -> Result<(), NoMemory>
    ensures { OnOk result (findings.new.items ≡ findings.old.items ++ map (Finding.Hidden id) contexts.now) }
{
    for from in contexts {
        findings.push(Finding::Hidden {
            entry: id,
            from: *from,
        })?;
    }
    Ok(())
}

/// Adds the contexts from which an entry is hidden.
pub(crate) fn push_hidden(
    findings: &mut Vec<Finding>,
    hidings: &Hidings,
    id: EntryId,
) -> Result<(), NoMemory>
    ensures { OnOk result ((plan : PlanOf) (entry : Entry) → spec.AreHidden plan hidings.now
        → entry_at plan id ≡ Some entry
        → findings.new.items ≡ findings.old.items ++ map (Finding.Hidden id) (hidden_from plan id entry)) }
{
    push_each(findings, id, hidings.get(id))?;
    Ok(())
}

/// A look-up from a context never finds an entry that is hidden from it, whatever text is dialled and at whatever priority, in any dialplan
/// whose names are the meanings of some texts, as in every loaded one.
pub fn hidden_is_never_found()
    ensures { (plan : PlanOf) → All (λ context. AreNamed context.entries) plan.contexts
        → (from : ℕ) (id : EntryId) (entry : Entry)
        → entry_at plan id ≡ Some entry → IsTrue (is_hidden plan id entry from) → (text : List ℕ) (priority : ℕ)
        → found_entry plan (order_at plan from) text priority ≢ Some id }
{}
