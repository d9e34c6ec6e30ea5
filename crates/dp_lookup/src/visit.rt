//! The walk through a dialplan's contexts. It never allocates, and does not recurse.
ghost use Rattle.std.specs.Prelude.{◌≡◌, ◌<◌, ◌≤◌, [], ◌∷◌, length, fold, All, vec_len, vec_capacity, MatchOption};
ghost use Rattle.dp_lookup.specs.SearchOrder.{context_count, link_of, visit, AreContexts};
ghost use Rattle.dp_lookup.specs.steps.Filling.{pending, work, IsMarked, IsFilling};

use dp_plan::{Dialplan, Text};

/// A context whose includes are being visited: those from this one on remain.
#[derive(Clone, Copy)]
pub(crate) struct ContextVisit {
    context: usize,
    next: usize,
}

/// Clears the marks of the contexts in the order.
pub(crate) fn unmark(order: &[usize], marks: &mut [bool])
    requires marked { IsMarked order.now marks.old }
    requires within { All (λ number. number < length marks.old) order.now }
    ensures { IsMarked [] marks.new }
{
    for number in order {
        marks[*number] = false;
    }
}

/// Adds a context that is not in the order yet, with all its includes remaining.
fn enter(
    plan: &Dialplan,
    number: usize,
    order: &mut Vec<usize>,
    marks: &mut [bool],
    frames: &mut Vec<ContextVisit>,
)
    requires context { number < context_count plan.now }
    requires marks { context_count plan.now ≤ length marks.old }
    requires order { context_count plan.now ≤ vec_capacity order.old }
    requires frames { context_count plan.now ≤ vec_capacity frames.old }
    requires filling { IsFilling plan.now order.old.items marks.old frames.old.items }
    ensures order { vec_capacity order.new ≡ vec_capacity order.old }
    ensures frames { vec_capacity frames.new ≡ vec_capacity frames.old }
    ensures filling { IsFilling plan.now order.new.items marks.new frames.new.items }
    ensures visited { fold (visit plan.now) order.new.items (pending plan.now frames.new.items)
        ≡ fold (visit plan.now) (visit plan.now order.old.items number) (pending plan.now frames.old.items) }
    ensures work { work plan.now order.new.items frames.new.items ≡ work plan.now order.old.items frames.old.items }
{
    if !marks[number] {
        marks[number] = true;
        order.push_reserved(number);
        frames.push_reserved(ContextVisit {
            context: number,
            next: 0,
        });
    }
}

/// Takes the next remaining include.
fn next_include<'a>(plan: &'a Dialplan, frames: &mut Vec<ContextVisit>) -> Option<&'a Text>
    requires { vec_len frames.old ≤ vec_capacity frames.old }
    ensures next { MatchOption result (pending plan.now frames.old.items ≡ [])
        (λ name. pending plan.now frames.old.items ≡ link_of plan.now name.now ∷ pending plan.now frames.new.items) }
    ensures frames { vec_capacity frames.new ≡ vec_capacity frames.old }
    ensures short { vec_len frames.new ≤ vec_len frames.old }
{
    while let Some(frame) = frames.pop() {
        if let Some(name) = plan.includes_at(frame.context).get(frame.next) {
            frames.push_reserved(ContextVisit {
                context: frame.context,
                next: frame.next + 1,
            });
            return Some(name);
        }
    }
    None
}

/// Fills an empty order with the visit of a context.
pub(crate) fn visit_all(
    plan: &Dialplan,
    number: usize,
    order: &mut Vec<usize>,
    marks: &mut [bool],
    frames: &mut Vec<ContextVisit>,
)
    requires context { number < context_count plan.now }
    requires empty { order.old.items ≡ [] }
    requires unmarked { IsMarked [] marks.old }
    requires marks { context_count plan.now ≤ length marks.old }
    requires order { context_count plan.now ≤ vec_capacity order.old }
    requires frames { context_count plan.now ≤ vec_capacity frames.old }
    ensures visited { order.new.items ≡ visit plan.now [] number }
    ensures within { AreContexts plan.now order.new.items }
    ensures marked { IsMarked order.new.items marks.new }
    ensures order { vec_capacity order.new ≡ vec_capacity order.old }
    ensures frames { vec_capacity frames.new ≡ vec_capacity frames.old }
{
    frames.clear();
    enter(plan, number, order, marks, frames);
    while let Some(name) = next_include(plan, frames) {
        if let Some(number) = plan.number_of(name) {
            enter(plan, number, order, marks, frames);
        }
    }
}
