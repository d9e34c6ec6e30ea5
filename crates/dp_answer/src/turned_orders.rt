//! The contexts that are searched from a context.
ghost use Rattle.std.specs.Prelude.{◌≡◌, ◌≤◌};
ghost use Rattle.dp_lookup.specs.SearchOrder.{context_count, search_order};

use dp_conf::NoMemory;
use dp_lookup::SearchOrder;
use dp_plan::{Dialplan, Text};
use std::alloc::Global;

/// The search orders of a dialplan's contexts, one at a time.
#[derive(Drop)]
pub(crate) struct TurnedOrders<'a> {
    plan: &'a Dialplan,
    order: SearchOrder,
    ghost has_room: { context_count plan.now ≤ order.room },
}

impl<'a> TurnedOrders<'a> {
    /// An empty order, with room for that of each context.
    pub(crate) fn room(alloc: Global, plan: &'a Dialplan) -> Result<Self, NoMemory> {
        let order = SearchOrder::room(alloc, plan)?;
        Ok(TurnedOrders { plan, order })
    }

    /// Makes this the order of the context with the name.
    pub(crate) fn fill(&mut self, context: &Text)
        ensures { self.new.order.contexts ≡ search_order self.old.plan.now context.now }
    {
        self.order.fill(self.plan, context);
    }

    /// The numbers of the contexts, in order.
    pub(crate) fn contexts(&self) -> &[usize]
        ensures { result.now ≡ self.now.order.contexts }
    {
        self.order.contexts()
    }
}
