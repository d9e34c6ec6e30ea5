//! Look-ups in a dialplan by the names of its contexts.
ghost use Rattle.std.specs.Prelude.{◌≡◌, ◌<◌, [], IfOk};
ghost use Rattle.std.specs.List.{list_any};
ghost use Rattle.dp_audit.specs.Finders as spec;
ghost use Rattle.dp_audit.specs.Findings.{some_first};
ghost use Rattle.dp_audit.specs.steps.Firsts.{Adds};
ghost use Rattle.dp_lookup.specs.FoundEntry.{found_entry, found_label};
ghost use Rattle.dp_lookup.specs.SearchOrder.{context_count, has, links_at, search_order};

use crate::cycle::is_included;
use crate::firsts::firsts_of;
use crate::spelling::Spelling;
use dp_plan::{Dialplan, EntryId, NoMemory, Text};
use dp_trie::Finder;
use indexmap::IndexSet;
use std::alloc::Global;
use std::marker::Model;

/// A dialplan with its finder, and the allocator that the finder came from. A contract sees it as the dialplan.
#[derive(Drop)]
pub struct PlanFinder<'a> {
    alloc: Global,
    plan: &'a Dialplan,
    finder: Finder,
}

impl<'a> Model for PlanFinder<'a> {
    ghost use Rattle.dp_plan.specs.Plan.{PlanOf};
    ghost use Rattle.dp_trie.specs.Finders.{IsFinder};

    ghost Value = { PlanOf };

    ghost view = { λ held. held.plan.now };

    ghost invariant = { λ held. IsFinder held.plan.now held.finder };
}

impl<'a> PlanFinder<'a> {
    /// The dialplan with the tables that its look-ups search. It fails only if memory runs out.
    pub fn new(alloc: Global, plan: &'a Dialplan) -> Result<Self, NoMemory>
        ensures { IfOk result (λ held. held ≡ plan.now) }
    {
        let finder = Finder::build(alloc, plan)?;
        Ok(PlanFinder {
            alloc,
            plan,
            finder,
        })
    }

    /// The allocator.
    pub fn alloc(&self) -> Global {
        self.alloc
    }

    /// The dialplan.
    pub fn plan(&self) -> &'a Dialplan
        ensures { result.now ≡ self.now }
    {
        self.plan
    }

    /// Whether a context in the search order of this one, which has the number, includes it.
    pub(crate) fn is_included(&mut self, context: &Text, number: usize) -> bool
        requires { number < context_count self.old }
        ensures found { result ≡ list_any (λ other. has (links_at self.old other) number) (search_order self.old context.now) }
        ensures same { self.new ≡ self.old }
    {
        self.finder.turn_to(self.plan, context);
        is_included(self.plan, self.finder.order(), number)
    }

    /// The names that have priority 1 in a context in the search order of this one.
    pub(crate) fn firsts(&mut self, context: &Text) -> Result<IndexSet<Spelling>, NoMemory>
        ensures firsts { IfOk result (λ names. Adds (some_first self.old (search_order self.old context.now)) [] names.keys) }
        ensures same { self.new ≡ self.old }
    {
        self.finder.turn_to(self.plan, context);
        firsts_of(self.alloc, self.plan, self.finder.order())
    }

    /// The entry that is found for the extension of the context at the priority.
    pub fn find(&mut self, context: &Text, exten: &[u8], priority: u32) -> Option<EntryId>
        ensures found { result ≡ found_entry self.old (search_order self.old context.now) exten.now priority }
        ensures same { self.new ≡ self.old }
    {
        self.finder.turn_to(self.plan, context);
        self.finder.find(exten, priority)
    }

    /// Whether an entry answers for the extension of the context at the priority.
    #[tactic(auto, unfolding(crate::specs::Finders::answers))]
    pub(crate) fn answers(&mut self, context: &Text, exten: &[u8], priority: u32) -> bool
        ensures found { result ≡ spec.answers self.old context.now exten.now priority }
        ensures same { self.new ≡ self.old }
    {
        self.finder.turn_to(self.plan, context);
        self.finder.find(exten, priority).is_some()
    }

    /// The priority that the extension of the context has under the label.
    pub(crate) fn find_label(&mut self, context: &Text, exten: &[u8], label: &[u8]) -> Option<u32>
        ensures found { result ≡ found_label self.old (search_order self.old context.now) exten.now label.now }
        ensures same { self.new ≡ self.old }
    {
        self.finder.turn_to(self.plan, context);
        self.finder.find_label(exten, label)
    }

    /// Whether the extension of the context has the label.
    #[tactic(auto, unfolding(crate::specs::Finders::has_label))]
    pub(crate) fn has_label(&mut self, context: &Text, exten: &[u8], label: &[u8]) -> bool
        ensures found { result ≡ spec.has_label self.old context.now exten.now label.now }
        ensures same { self.new ≡ self.old }
    {
        self.finder.turn_to(self.plan, context);
        self.finder.find_label(exten, label).is_some()
    }
}
