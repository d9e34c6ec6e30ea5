//! Look-ups in a dialplan from its contexts. None of them allocates.
ghost use Rattle.std.specs.Prelude.{◌≡◌, ℕ, List, IfOk};
ghost use Rattle.dp_lookup.specs.FoundEntry.{found_entry, found_label, goes_on_more};
ghost use Rattle.dp_lookup.specs.SearchOrder.{search_order};
ghost use Rattle.dp_plan.specs.Plan.{PlanOf};
ghost use Rattle.dp_trie.specs.Finders.{IsAt, IsFinder};
ghost use Rattle.dp_trie.specs.Known.{Keeps};

use crate::orders::Orders;
use crate::trie::Trie;
use dp_lookup::{Dialplan, EntryId, NoMemory, Text};
use std::alloc::Global;

/// The tries of a dialplan, and the search orders of the contexts of the last look-ups. It holds no dialplan, so that one type can own
/// both.
pub struct Finder {
    trie: Trie,
    orders: Orders,
}

impl Drop for Finder {
    fn drop(self) {
        let Finder { trie: _, orders: _ } = self;
    }
}

impl Finder {
    /// The finder of a dialplan in which no context has been searched yet.
    pub fn build(alloc: Global, plan: &Dialplan) -> Result<Self, NoMemory>
        ensures { IfOk result (λ finder. IsFinder plan.now finder) }
    {
        let trie = Trie::build(alloc, plan)?;
        let orders = Orders::room(alloc, plan)?;
        Ok(Finder { trie, orders })
    }

    /// The tries.
    pub fn trie(&self) -> &Trie
        ensures { (plan : PlanOf) → IsFinder plan self.now → Keeps plan result.now }
    {
        &self.trie
    }

    /// Makes the following look-ups start from the context with this name. The dialplan must be the one that the finder was built for. It
    /// needs no memory.
    #[inline(always)]
    pub fn turn_to(&mut self, plan: &Dialplan, context: &Text)
        requires { IsFinder plan.now self.old }
        ensures { IsAt plan.now context.now self.new }
    {
        self.orders.turn_to(plan, context);
    }

    /// The numbers of the contexts in which it looks up, in order.
    #[inline(always)]
    pub fn order(&self) -> &[usize]
        ensures { (plan : PlanOf) → (context : List ℕ) → IsAt plan context self.now → result.now ≡ search_order plan context }
    {
        self.orders.order()
    }

    /// The entry that matches the dialled text and has the priority, as `dp_lookup::find` gives it.
    #[inline(always)]
    pub fn find(&self, text: &[u8], priority: u32) -> Option<EntryId>
        ensures { (plan : PlanOf) → (context : List ℕ) → IsAt plan context self.now
            → result ≡ found_entry plan (search_order plan context) text.now priority }
    {
        self.trie.find_in(self.orders.order(), text, priority)
    }

    /// The priority of the entry that matches the dialled text and has the label, as `dp_lookup::find_label` gives it.
    #[inline(always)]
    pub fn find_label(&self, text: &[u8], label: &[u8]) -> Option<u32>
        ensures { (plan : PlanOf) → (context : List ℕ) → IsAt plan context self.now
            → result ≡ found_label plan (search_order plan context) text.now label.now }
    {
        self.trie.find_label_in(self.orders.order(), text, label)
    }

    /// Whether a caller who has dialled the text can dial on, as `dp_lookup::could_be_more` says.
    #[inline(always)]
    pub fn more(&self, text: &[u8]) -> bool
        ensures { (plan : PlanOf) → (context : List ℕ) → IsAt plan context self.now
            → result ≡ goes_on_more plan (search_order plan context) text.now }
    {
        self.trie.more_in(self.orders.order(), text)
    }
}
