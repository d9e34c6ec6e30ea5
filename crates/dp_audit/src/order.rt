//! The name and the search order of a context, given its number.
ghost use Rattle.std.specs.Prelude.{◌≡◌, ◌<◌, ◌≤◌};
ghost use Rattle.dp_audit.specs.Findings.{context_name};
ghost use Rattle.dp_audit.specs.Orders.{order_at};
ghost use Rattle.dp_lookup.specs.SearchOrder.{context_count, search_order};

use dp_lookup::SearchOrder;
use dp_plan::{Dialplan, Text};

/// The name of the context with the number.
pub(crate) fn name_at(plan: &Dialplan, number: usize) -> &Text
    requires { number < context_count plan.now }
    ensures name { result.now ≡ context_name plan.now number }
    ensures order { search_order plan.now result.now ≡ order_at plan.now number }
{
    plan.contexts()[number].name()
}

/// Makes the order that of the context with the number.
pub(crate) fn fill(plan: &Dialplan, number: usize, order: &mut SearchOrder)
    requires context { number < context_count plan.now }
    requires room { context_count plan.now ≤ order.old.room }
    ensures order { order.new.contexts ≡ order_at plan.now number }
    ensures room { order.new.room ≡ order.old.room }
{
    order.fill(plan, name_at(plan, number));
}
