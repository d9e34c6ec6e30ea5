//! The contexts in which a look-up searches.
ghost use Rattle.std.specs.Prelude.{◌≡◌, ◌≤◌, [], false, length, replicate, vec_capacity, IfOk};
ghost use Rattle.dp_plan.specs.Plan.{PlanOf};
ghost use Rattle.dp_lookup.specs.SearchOrder.{context_count, visit, search_order, AreContexts, IsTheVisit};

use crate::visit::{ContextVisit, unmark, visit_all};
use dp_plan::{Dialplan, NoMemory, Text};
use std::alloc::Global;
use std::marker::Model;

/// The contexts in which a look-up searches, in order, with room for every context of a dialplan. A contract sees it as
/// the numbers of its contexts, and the number of contexts for which each of its lists has room: if that number does
/// not change, no list has grown.
///
/// After the Asterisk documentation's page on the dialplan, a context is searched and then its includes, in file order.
/// Searching depth first, each context once, is this program's own choice.
pub struct SearchOrder {
    contexts: Vec<usize>,
    marks: Vec<bool>,
    frames: Vec<ContextVisit>,
}

impl Drop for SearchOrder {
    fn drop(self) {
        let SearchOrder {
            contexts: _,
            marks: _,
            frames: _,
        } = self;
    }
}

impl Model for SearchOrder {
    ghost use Rattle.std.specs.Prelude.{◌≡◌, ◌<◌, All, vec_capacity, vec_len};
    ghost use Rattle.dp_lookup.specs.steps.Filling.{IsMarked};
    ghost use Rattle.dp_lookup.specs.SearchOrder.{OrderOf};

    ghost Value = { OrderOf };

    ghost view = { λ order. record { contexts = order.contexts.items; room = vec_len order.marks } };

    // The marks are those of the order, and each list has room for exactly as many contexts as there are.
    ghost invariant = { λ order.
        IsMarked order.contexts.items order.marks.items
        × All (λ number. number < vec_len order.marks) order.contexts.items
        × (vec_capacity order.contexts ≡ vec_len order.marks)
        × (vec_capacity order.marks ≡ vec_len order.marks)
        × (vec_capacity order.frames ≡ vec_len order.marks) };
}

/// This many marks, none of them set, with room for no more. It fails only if memory runs out.
fn no_marks(alloc: Global, count: usize) -> Result<Vec<bool>, NoMemory>
    ensures marks { IfOk result (λ marks. marks.items ≡ replicate count false) }
    ensures room { IfOk result (λ marks. vec_capacity marks ≡ count) }
{
    let mut marks = Vec::with_capacity(alloc, count)?;
    for _ in 0..count {
        marks.push_reserved(false);
    }
    Ok(marks)
}

impl SearchOrder {
    /// An empty order with room for every context of the dialplan. It fails only if memory runs out.
    pub fn room(alloc: Global, plan: &Dialplan) -> Result<Self, NoMemory>
        ensures { IfOk result (λ order. order ≡ record { contexts = []; room = context_count plan.now }) }
    {
        let count = plan.contexts().len();
        let contexts = Vec::with_capacity(alloc, count)?;
        let marks = no_marks(alloc, count)?;
        let frames = Vec::with_capacity(alloc, count)?;
        Ok(SearchOrder {
            contexts,
            marks,
            frames,
        })
    }

    /// The order of the context with this name: the context, then its includes in file order, depth first. A context
    /// that is already in it is skipped, and so is an include of an unknown context. An unknown context has an empty
    /// order. It fails only if memory runs out.
    pub fn of(alloc: Global, plan: &Dialplan, context: &Text) -> Result<Self, NoMemory>
        ensures order { IfOk result (λ order. order.contexts ≡ search_order plan.now context.now) }
        ensures room { IfOk result (λ order. order.room ≡ context_count plan.now) }
        ensures within { IfOk result (λ order. AreContexts plan.now order.contexts) }
    {
        let mut order = SearchOrder::room(alloc, plan)?;
        order.fill(plan, context);
        Ok(order)
    }

    /// Makes this the order of the context with this name, as `of` gives it. There must be room for every context of
    /// the dialplan, as in an order that `room` made for it. It never allocates, because each list keeps its room. The
    /// cost depends on the previous order and on the includes of the contexts that are visited.
    pub fn fill(&mut self, plan: &Dialplan, context: &Text)
        requires { context_count plan.now ≤ self.old.room }
        ensures order { self.new.contexts ≡ search_order plan.now context.now }
        ensures room { self.new.room ≡ self.old.room }
        ensures within { AreContexts plan.now self.new.contexts }
    {
        unmark(&self.contexts, &mut self.marks);
        self.contexts.clear();
        if let Some(number) = plan.number_of(context) {
            visit_all(
                plan,
                number,
                &mut self.contexts,
                &mut self.marks,
                &mut self.frames,
            );
        }
    }

    /// The numbers of the order's contexts.
    pub fn contexts(&self) -> &[usize]
        ensures { result.now ≡ self.now.contexts }
    {
        &self.contexts
    }
}

/// States what a visit of a context is, for any dialplan: a context that is not in the order yet is added, and then
/// each of its includes is visited in turn; for any other context nothing is visited. The visit satisfies this
/// equation, and nothing else does. It does nothing.
pub fn visit_is_the_visit()
    ensures { (plan : PlanOf) → IsTheVisit plan (visit plan) }
{}
