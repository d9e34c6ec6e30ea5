//! Search orders of small dialplans, worked out by hand from the rules.
ghost use Rattle.std.specs.Prelude.{◌≤◌};
ghost use Rattle.dp_lookup.specs.SearchOrder.{context_count};

use crate::lookup::render::{load_plan, push_order};
use dp_lookup::{Dialplan, SearchOrder, Text, visit_is_the_visit};
use std::alloc::Global;
use std::process::Abort;
use std::test::Fail;

/// `a` includes `b` and `c`, which include `d`; `e` and `f` include each other and themselves, and a context that does not exist; `g`
/// includes nothing.
const PLAN: &[u8] = b"[a]\ninclude => b\ninclude => c\n[b]\ninclude => d\n\
[c]\ninclude => d\ninclude => b\ninclude => a\n[d]\n\
[e]\ninclude => e\ninclude => x\ninclude => f\ninclude => f\n\
[f]\ninclude => f\ninclude => e\ninclude => g\n[g]\n";

/// A context, and the names of the contexts of its order, each before a blank.
const ORDERS: [(&[u8], &str); 9] = [
    (b"a", "a b d c "),
    (b"b", "b d "),
    (b"c", "c d b a "),
    (b"d", "d "),
    (b"e", "e f g "),
    (b"f", "f e g "),
    (b"g", "g "),
    (b"x", ""),
    (b"A", ""),
];

fn check_order(
    rt: &impl Abort,
    alloc: Global,
    plan: &Dialplan,
    order: &SearchOrder,
    want: &str,
) -> Result<(), Fail> {
    let mut got = String::new(alloc);
    push_order(&mut got, plan, order)?;
    assert_eq!(rt; got.as_str(), want);
    Ok(())
}

/// A new order of the context is the expected one.
fn check_new(
    rt: &impl Abort,
    alloc: Global,
    plan: &Dialplan,
    context: &Text,
    want: &str,
) -> Result<(), Fail> {
    let order = SearchOrder::of(alloc, plan, context)?;
    check_order(rt, alloc, plan, &order, want)
}

/// An order of the context and a new one are the expected ones.
fn check_both(
    rt: &impl Abort,
    alloc: Global,
    plan: &Dialplan,
    order: &SearchOrder,
    context: &Text,
    want: &str,
) -> Result<(), Fail> {
    check_order(rt, alloc, plan, order, want)?;
    check_new(rt, alloc, plan, context, want)
}

/// Fills the order again and again, and compares it, and a new one each time, with the expected one.
fn refill(
    rt: &impl Abort,
    alloc: Global,
    plan: &Dialplan,
    order: &mut SearchOrder,
) -> Result<(), Fail>
    requires { context_count plan.now ≤ order.old.room }
{
    for number in [0, 2, 2, 4, 5, 7, 0, 8, 8, 3, 1, 6, 0] {
        let (context, want) = ORDERS[number];
        let context = Text::copy_of(alloc, context)?;
        order.fill(plan, &context);
        check_both(rt, alloc, plan, order, &context, want)?;
    }
    Ok(())
}

fn check_orders(rt: &impl Abort, alloc: Global, plan: &Dialplan) -> Result<(), Fail> {
    let mut order = SearchOrder::room(alloc, plan)?;
    assert_eq!(rt; order.contexts().len(), 0);
    refill(rt, alloc, plan, &mut order)
}

/// Orders are depth first, and an order that is filled again keeps nothing of its earlier contents.
#[test]
fn search_orders_are_depth_first(rt: HostRuntime) -> Result<(), Fail> {
    visit_is_the_visit();
    let plan = load_plan(rt.alloc(), PLAN)?;
    check_orders(&rt, rt.alloc(), &plan)
}
