//! Endless runs: loops of jumps and of applications that always go on at once.
ghost use Rattle.std.specs.Prelude.{◌≡◌, ◌≢◌, ◌<◌, ◌++◌, ◌↔◌, Bool, Contains, IfOk, IsSome, List, MatchOption, None, OnOk, Some, length, slice_get, true, ℕ};
ghost use Rattle.dp_audit.specs.Loops as spec;
ghost use Rattle.dp_audit.specs.Runs as runs;
ghost use Rattle.dp_audit.specs.steps.Marks as marks;
ghost use Rattle.dp_audit.specs.steps.Walks as walks;
ghost use Rattle.dp_lookup.specs.SearchOrder.{context_count};
ghost use Rattle.dp_plan.specs.Plan.{PlanOf};
ghost use Rattle.dp_plan.specs.declared.entry.EntryId.{EntryId};

use crate::finder::PlanFinder;
use crate::marks::EntryMarks;
use crate::neighbours::entries_at;
use crate::onward_names::OnwardNames;
use crate::successor::successor;
use dp_plan::{Dialplan, EntryId, NoMemory};
use std::alloc::Global;

/// An endless run: a call that meets one of its entries comes back to that entry again and again, and nothing that it or anyone does ends
/// it.
#[derive(Clone, Copy, Debug, PartialEq, Eq)]
pub struct Loop {
    /// The first of its entries in the file.
    pub first: EntryId,
}

/// Whether the entry is before another in the file.
fn is_before(entry: EntryId, other: EntryId) -> bool
    ensures { result ≡ spec.is_before entry other }
{
    entry.context < other.context || entry.context == other.context && entry.entry < other.entry
}

/// The place of an entry in a path.
fn place_of(path: &[EntryId], id: EntryId) -> Option<usize>
    ensures { MatchOption result ((place : ℕ) → slice_get path.now place ≢ Some id)
        (λ place. slice_get path.now place ≡ Some id) }
{
    for place in 0..path.len() {
        if path[place] == id {
            return Some(place);
        }
    }
    None
}

/// The first entry in the file, among those of a path from a place on.
fn least_from(path: &[EntryId], place: usize) -> EntryId
    requires { place < length path.now }
    ensures { walks.IsLeastFrom spec.is_before path.now place result }
{
    let mut least = path[place];
    for number in place + 1..path.len() {
        if is_before(path[number], least) {
            least = path[number];
        }
    }
    least
}

/// The first entry of the loop that a path leads into, if its next entry is one of its own.
fn first_of_loop(path: &[EntryId], end: Option<EntryId>) -> Option<EntryId>
    ensures { MatchOption result (walks.IsOpen path.now end) (walks.Closes spec.is_before path.now end) }
{
    let end = end?;
    let place = place_of(path, end)?;
    Some(least_from(path, place))
}

/// A search for loops.
#[derive(Drop)]
struct Search {
    /// The entries that were visited.
    seen: EntryMarks,
    /// The first entry of each loop among them.
    firsts: EntryMarks,
    /// The entries of the last walk.
    path: Vec<EntryId>,
}

impl Search {
    /// A search that has visited no entry.
    fn new(alloc: Global, plan: &Dialplan) -> Result<Self, NoMemory>
        ensures seen { IfOk result (λ search. search.seen ≡ marks.no_marks plan.now.contexts) }
        ensures firsts { IfOk result (λ search. search.firsts ≡ marks.no_marks plan.now.contexts) }
    {
        let seen = EntryMarks::none(alloc, plan.contexts())?;
        let firsts = EntryMarks::none(alloc, plan.contexts())?;
        let path = Vec::new(alloc);
        Ok(Search { seen, firsts, path })
    }

    /// Walks from an entry to where a call goes from it, until the walk ends or meets an entry that was visited before. It returns what
    /// comes after its path.
    fn walk<N: OnwardNames>(
        &mut self,
        finder: &mut PlanFinder<'_>,
        start: EntryId,
    ) -> Result<Option<EntryId>, NoMemory>
        ensures walk { IfOk result (λ end. walks.IsWalk (spec.successor N.onward finder.old) start self.new.path.items end) }
        ensures stop { IfOk result (λ end. marks.if_unmarked self.new.seen end ≡ None) }
        ensures seen { OnOk result (marks.Adds self.old.seen self.new.path.items self.new.seen) }
        ensures firsts { self.new.firsts ≡ self.old.firsts }
        ensures same { finder.new ≡ finder.old }
    {
        self.path.clear();
        let mut end = Some(start);
        while let Some(id) = self.seen.keep_unmarked(end) {
            self.seen.set(id);
            self.path.push(id)?;
            end = successor::<N>(finder, id)?;
        }
        Ok(end)
    }

    /// Searches for the loop to which a call comes from an entry, if no walk has visited it before.
    fn search_from<N: OnwardNames>(
        &mut self,
        finder: &mut PlanFinder<'_>,
        start: EntryId,
    ) -> Result<(), NoMemory>
        requires { marks.AreSearched N.onward finder.old self.old.seen self.old.firsts }
        ensures searched { OnOk result (marks.AreSearched N.onward finder.old self.new.seen self.new.firsts) }
        ensures seen { OnOk result (marks.Sees finder.old self.old.seen self.new.seen (λ id. id ≡ start)) }
        ensures same { finder.new ≡ finder.old }
    {
        let end = self.walk::<N>(finder, start)?;
        if let Some(first) = first_of_loop(&self.path, end) {
            self.firsts.set(first);
        }
        Ok(())
    }

    /// Searches from the entries of the context with the number.
    fn search_context<N: OnwardNames>(
        &mut self,
        finder: &mut PlanFinder<'_>,
        number: usize,
    ) -> Result<(), NoMemory>
        requires { marks.AreSearched N.onward finder.old self.old.seen self.old.firsts }
        ensures searched { OnOk result (marks.AreSearched N.onward finder.old self.new.seen self.new.firsts) }
        ensures seen { OnOk result (marks.Sees finder.old self.old.seen self.new.seen (λ id. id.context ≡ number)) }
        ensures same { finder.new ≡ finder.old }
    {
        for entry in 0..entries_at(finder.plan(), number).len() {
            let start = EntryId {
                context: number,
                entry,
            };
            self.search_from::<N>(finder, start)?;
        }
        Ok(())
    }

    /// Searches from each entry of the dialplan.
    fn search_all<N: OnwardNames>(&mut self, finder: &mut PlanFinder<'_>) -> Result<(), NoMemory>
        requires { marks.AreSearched N.onward finder.old self.old.seen self.old.firsts }
        ensures searched { OnOk result (marks.AreSearched N.onward finder.old self.new.seen self.new.firsts) }
        ensures seen { OnOk result (marks.Sees finder.old self.old.seen self.new.seen (λ id. id.context < context_count finder.old)) }
    {
        for number in 0..finder.plan().contexts().len() {
            self.search_context::<N>(finder, number)?;
        }
        Ok(())
    }

    /// The first entries of all loops of a dialplan.
    fn of<N: OnwardNames>(alloc: Global, plan: &Dialplan) -> Result<Self, NoMemory>
        ensures { IfOk result (λ search. (id : EntryId) → (marks.is_marked search.firsts id ≡ true) ↔ spec.IsLoop N.onward plan.now id) }
    {
        let mut finder = PlanFinder::new(alloc, plan)?;
        let mut search = Search::new(alloc, plan)?;
        search.search_all::<N>(&mut finder)?;
        Ok(search)
    }
}

/// Adds the entry with these numbers, if it is marked.
fn push_if(list: &mut Vec<Loop>, firsts: &EntryMarks, id: EntryId) -> Result<(), NoMemory>
    ensures { OnOk result (list.new.items ≡ list.old.items ++ spec.loop_if (marks.is_marked firsts.now) id) }
{
    if firsts.is_set(id) {
        list.push(Loop { first: id })?;
    }
    Ok(())
}

/// Adds the marked entries of the context with the number.
#[tactic(auto, using(crate::proofs::FindingsLemmas::entries_more))]
fn push_of_context(
    list: &mut Vec<Loop>,
    plan: &Dialplan,
    firsts: &EntryMarks,
    number: usize,
) -> Result<(), NoMemory>
    ensures { OnOk result (list.new.items
        ≡ list.old.items ++ spec.loops_of_context (marks.is_marked firsts.now) plan.now number) }
{
    for entry in 0..entries_at(plan, number).len() {
        let id = EntryId {
            context: number,
            entry,
        };
        push_if(list, firsts, id)?;
    }
    Ok(())
}

/// The marked entries, in the order of the file.
fn list_loops(alloc: Global, plan: &Dialplan, firsts: &EntryMarks) -> Result<Vec<Loop>, NoMemory>
    ensures { IfOk result (λ list. list.items ≡ spec.loops_by (marks.is_marked firsts.now) plan.now) }
{
    let mut list = Vec::new(alloc);
    for number in 0..plan.contexts().len() {
        push_of_context(&mut list, plan, firsts, number)?;
    }
    Ok(list)
}

/// The endless runs of a dialplan, each with its first entry, in the order of the file.
///
/// A call goes from one entry to another by a `Goto` with a literal target, and after an application after which it always goes on. It is
/// followed from entries with plain names, as long as it meets entries with plain names in the context that it searches: runs through
/// patterns and included contexts are not reported. The cost is linear in the dialplan, apart from search orders and look-ups in tries. It
/// fails only if memory runs out.
pub fn find_loops<N: OnwardNames>(alloc: Global, plan: &Dialplan) -> Result<Vec<Loop>, NoMemory>
    ensures listed { IfOk result (λ loops. spec.ListsLoops N.onward plan.now loops.items) }
    ensures each { IfOk result (λ loops. (id : EntryId)
        → Contains loops.items (spec.loop_of id) ↔ spec.IsLoop N.onward plan.now id) }
{
    let search = Search::of::<N>(alloc, plan)?;
    let loops = list_loops(alloc, plan, &search.firsts)?;
    Ok(loops)
}

/// A call that meets the first entry of a loop, in the entry's own context and by its plain name, goes on for ever: after any number of
/// places it has a next one, in any dialplan and for any applications that always go on.
pub fn loop_never_ends()
    ensures { (onward : List ℕ → Bool) (plan : PlanOf) (id : EntryId) → spec.IsLoop onward plan id
        → (place : runs.CallPlace) → runs.MeetsHome plan place id
        → (count : ℕ) → IsSome (spec.after (runs.next_place onward plan) count place) }
{}
