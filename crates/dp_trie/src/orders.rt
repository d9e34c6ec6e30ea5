//! The search orders of contexts.
ghost use Rattle.std.specs.Prelude.{◌≡◌, ◌<◌, All, IfOk, Some, slice_get};
ghost use Rattle.std.specs.Option.{option_map};
ghost use Rattle.dp_lookup.specs.SearchOrder.{search_order};
ghost use Rattle.dp_plan.specs.Lookup.{number_of};
ghost use Rattle.dp_trie.specs.Finders.{order_now, AreOrders, IsKept};

use dp_lookup::{NoMemory, SearchOrder, Text};
use dp_plan::Dialplan;
use std::alloc::Global;
use std::slice;

/// A search order, and the number of its context, if it has one.
#[derive(Drop)]
pub(crate) struct KeptOrder {
    order: SearchOrder,
    context: Option<usize>,
}

impl KeptOrder {
    /// An order without a context, with room for the order of any context.
    fn room(alloc: Global, plan: &Dialplan) -> Result<Self, NoMemory>
        ensures { IfOk result (IsKept plan.now) }
    {
        let order = SearchOrder::room(alloc, plan)?;
        Ok(KeptOrder {
            order,
            context: None,
        })
    }

    /// Makes it the order of the context with this name and number. It is filled again only if it was that of another.
    fn turn_to(&mut self, plan: &Dialplan, context: &Text, number: usize)
        requires kept { IsKept plan.now self.old }
        requires number { number_of plan.now context.now ≡ Some number }
        ensures contexts { self.new.order.contexts ≡ search_order plan.now context.now }
        ensures kept { IsKept plan.now self.new }
    {
        if self.context != Some(number) {
            self.order.fill(plan, context);
            self.context = Some(number);
        }
    }
}

/// The search orders of contexts. A context that includes nothing is its own order. Of the other contexts the last ones are kept, so that
/// look-ups that alternate between a few contexts fill no order again.
#[derive(Drop)]
pub(crate) struct Orders {
    // The number of the context that was asked last, where the dialplan has it.
    asked: Option<usize>,
    // Which of the kept orders is its own, where it includes others.
    place: Option<usize>,
    kept: [KeptOrder; 4],
    // Which of them gave its place to another last.
    turn: usize,
}

/// The place after a place in the kept orders; the first follows the last.
fn next_place(place: usize) -> usize
    ensures { result < 4 }
{
    if place < 3 { place + 1 } else { 0 }
}

impl Orders {
    /// Orders without a context, with room for the order of any.
    pub(crate) fn room(alloc: Global, plan: &Dialplan) -> Result<Self, NoMemory>
        ensures { IfOk result (λ orders. AreOrders plan.now orders) }
    {
        let kept = [
            KeptOrder::room(alloc, plan)?,
            KeptOrder::room(alloc, plan)?,
            KeptOrder::room(alloc, plan)?,
            KeptOrder::room(alloc, plan)?,
        ];
        Ok(Orders {
            asked: None,
            place: None,
            kept,
            turn: 0,
        })
    }

    /// The order of the context of the last look-up.
    #[inline(always)]
    pub(crate) fn order(&self) -> &[usize]
        ensures { result.now ≡ order_now self.now }
    {
        match (self.place, &self.asked) {
            (Some(place), _) => match self.kept.get(place) {
                Some(held) => held.order.contexts(),
                None => &[],
            },
            (None, Some(number)) => slice::from_ref(number),
            (None, None) => &[],
        }
    }

    /// Which of the kept orders is that of the context with this number, or else can be replaced: they are replaced in turn, except for
    /// that of the last look-up.
    fn choose(&mut self, number: usize) -> usize
        ensures within { result < 4 }
        ensures same { self.new ≡ record self.old { turn = self.new.turn } }
    {
        match self
            .kept
            .iter()
            .position(|held| held.context == Some(number))
        {
            Some(place) => place,
            None => {
                self.turn = next_place(self.turn);
                if self.place == Some(self.turn) {
                    self.turn = next_place(self.turn);
                }
                self.turn
            }
        }
    }

    /// Makes one of the kept orders that of the context with this name and number, and says which.
    fn keep(&mut self, plan: &Dialplan, context: &Text, number: usize) -> usize
        requires kept { All (IsKept plan.now) self.old.kept }
        requires number { number_of plan.now context.now ≡ Some number }
        ensures asked { self.new.asked ≡ self.old.asked }
        ensures order { option_map (λ held. held.order.contexts) (slice_get self.new.kept result)
            ≡ Some (search_order plan.now context.now) }
        ensures kept { All (IsKept plan.now) self.new.kept }
    {
        let place = self.choose(number);
        self.kept[place].turn_to(plan, context, number);
        place
    }

    /// The same for a context that is not that of the last look-up.
    fn turn_to_other(&mut self, plan: &Dialplan, context: &Text)
        requires { AreOrders plan.now self.old }
        ensures contexts { order_now self.new ≡ search_order plan.now context.now }
        ensures orders { AreOrders plan.now self.new }
    {
        self.asked = plan.number_of(context);
        let Some(number) = self.asked else {
            self.place = None;
            return;
        };
        if plan.includes_at(number).is_empty() {
            self.place = None;
            return;
        }
        self.place = Some(self.keep(plan, context, number));
    }

    /// Makes the order that of the context with this name. For the context of the last look-up no table of names is searched. It needs no
    /// memory.
    #[inline(always)]
    pub(crate) fn turn_to(&mut self, plan: &Dialplan, context: &Text)
        requires { AreOrders plan.now self.old }
        ensures contexts { order_now self.new ≡ search_order plan.now context.now }
        ensures orders { AreOrders plan.now self.new }
    {
        match self.asked {
            Some(number) if plan.has_number(context, number) => {}
            _ => self.turn_to_other(plan, context),
        }
    }
}
