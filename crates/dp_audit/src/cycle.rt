//! Contexts that include themselves.
ghost use Rattle.std.specs.Prelude.{◌≡◌, ◌<◌, ◌==◌};
ghost use Rattle.std.specs.List.{list_any};
ghost use Rattle.dp_lookup.specs.SearchOrder.{context_count, has, link_of, links_at};

use dp_plan::{Dialplan, Text};

/// Whether the name is that of the context with the number.
fn is_link(plan: &Dialplan, name: &Text, number: usize) -> bool
    requires { number < context_count plan.now }
    ensures { result ≡ (link_of plan.now name.now == number) }
{
    plan.has_number(name, number)
}

/// Whether one of the names is that of the context with the number.
fn has_link(plan: &Dialplan, names: &[Text], number: usize) -> bool
    requires { number < context_count plan.now }
    ensures { result ≡ list_any (λ name. link_of plan.now name == number) names.now }
{
    names.iter().any(|name| is_link(plan, name, number))
}

/// Whether the context with the first number includes the one with the second.
fn includes(plan: &Dialplan, context: usize, number: usize) -> bool
    requires { number < context_count plan.now }
    ensures { result ≡ has (links_at plan.now context) number }
{
    has_link(plan, plan.includes_at(context), number)
}

/// Whether a context in the order includes the one with the number.
pub(crate) fn is_included(plan: &Dialplan, order: &[usize], number: usize) -> bool
    requires { number < context_count plan.now }
    ensures { result ≡ list_any (λ other. has (links_at plan.now other) number) order.now }
{
    order.iter().any(|other| includes(plan, *other, number))
}
