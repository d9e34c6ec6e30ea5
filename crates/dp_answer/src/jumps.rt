//! The jumps by which a call first gets to a place where an entry of a context may be found.
use crate::names::{TELEPHONE_DIGITS, set_in};
use crate::search::{AreaSearch, pieces_in};
use crate::turned_orders::TurnedOrders;
use dp_closed::{DutyTable, KeptArea, KeptDuty, Marks, found_shape};
use dp_conf::NoMemory;
use dp_pieces::{Piece, may_fit};
use dp_plan::{Dialplan, Entry, EntryId};
use std::alloc::Global;

/// A context that calls may reach, and the contexts that search it.
#[derive(Drop)]
struct JumpTarget<'a> {
    plan: &'a Dialplan,
    entries: &'a [Entry],
    searching: Vec<bool>,
    /// The contexts of the queues' ways out, each as the pieces of its name.
    ways: &'a [Vec<Piece>],
}

/// Whether each context of the dialplan searches the context with this number.
fn searching(alloc: Global, plan: &Dialplan, target: usize) -> Result<Vec<bool>, NoMemory> {
    let mut order = TurnedOrders::room(alloc, plan)?;
    let mut searching = Vec::new(alloc);
    for context in plan.contexts() {
        order.fill(context.name());
        searching.push(order.contexts().contains(&target))?;
    }
    Ok(searching)
}

impl JumpTarget<'_> {
    /// Whether the context with this number searches the target.
    fn is_searched(&self, number: usize) -> bool {
        match self.searching.get(number) {
            Some(is_searched) => *is_searched,
            None => false,
        }
    }

    /// Whether an entry of the target may be found at an extension of the shape.
    fn may_answer(&self, alloc: Global, exten: &[Piece]) -> Result<bool, NoMemory> {
        for entry in self.entries {
            if found_shape(alloc, self.entries, entry, exten)?.is_some() {
                return Ok(true);
            }
        }
        Ok(false)
    }

    /// Whether an entry of the target may be found from an area.
    fn is_seen(&self, alloc: Global, context: &[Piece], exten: &[Piece]) -> Result<bool, NoMemory> {
        for (number, each) in self.plan.contexts().iter().enumerate() {
            if self.is_searched(number) && may_fit(context, each.name().bytes()) {
                return self.may_answer(alloc, exten);
            }
        }
        Ok(false)
    }

    /// Whether an entry of the target may be found by a digit that leads out of a queue.
    fn is_way_out(&self, alloc: Global) -> Result<bool, NoMemory> {
        let digit = [Piece::OneOf(set_in(TELEPHONE_DIGITS))];
        for way in self.ways {
            if self.is_seen(alloc, way, &digit)? {
                return Ok(true);
            }
        }
        Ok(false)
    }

    /// Whether the duty leads to an area from which an entry of the target may be found, as anything may.
    fn is_led_by(&self, alloc: Global, duty: &KeptDuty) -> Result<bool, NoMemory> {
        match duty {
            KeptDuty::Leads(area) => self.is_seen(alloc, &area.context, &area.exten),
            KeptDuty::Waits => self.is_way_out(alloc),
            KeptDuty::Anything => Ok(true),
            KeptDuty::Holds(_, _) | KeptDuty::HoldsAll(_) | KeptDuty::Calls(_) => Ok(false),
        }
    }

    /// Whether one of the duties leads to such an area.
    fn is_led_to(&self, alloc: Global, duties: &[KeptDuty]) -> Result<bool, NoMemory> {
        for duty in duties {
            if self.is_led_by(alloc, duty)? {
                return Ok(true);
            }
        }
        Ok(false)
    }
}

/// The marks of the entries that lead from an area where no entry of a target may be found to an area where one may.
#[derive(Drop)]
struct AreaJumps<'a> {
    search: &'a AreaSearch<'a>,
    target: JumpTarget<'a>,
    marks: Marks,
}

impl AreaJumps<'_> {
    /// Marks the entry, if it is found from an area and is such a jump.
    fn take_entry<T: DutyTable>(
        &mut self,
        alloc: Global,
        name: &[u8],
        id: EntryId,
        exten: &[Piece],
    ) -> Result<(), NoMemory> {
        let plan = self.search.plan;
        let Some(context) = plan.contexts().get(id.context) else {
            return Ok(());
        };
        let entries = context.entries();
        let Some(entry) = entries.get(id.entry) else {
            return Ok(());
        };
        if self.marks.has(id) {
            return Ok(());
        }
        let Some(met) = found_shape(alloc, entries, entry, exten)? else {
            return Ok(());
        };
        let area = KeptArea {
            context: pieces_in(alloc, name)?,
            exten: met,
        };
        let duties = self.search.duties_of::<T>(alloc, entry, &area)?;
        if self.target.is_led_to(alloc, &duties)? {
            self.marks.mark(id);
        }
        Ok(())
    }

    /// Marks such jumps of a context that is searched from an area.
    fn take_context<T: DutyTable>(
        &mut self,
        alloc: Global,
        name: &[u8],
        number: usize,
        exten: &[Piece],
    ) -> Result<(), NoMemory> {
        let plan = self.search.plan;
        let Some(context) = plan.contexts().get(number) else {
            return Ok(());
        };
        for entry in 0..context.entries().len() {
            let id = EntryId {
                context: number,
                entry,
            };
            self.take_entry::<T>(alloc, name, id, exten)?;
        }
        Ok(())
    }

    /// Marks such jumps of the area of a route.
    fn take_route<T: DutyTable>(
        &mut self,
        alloc: Global,
        order: &mut TurnedOrders<'_>,
        route: usize,
    ) -> Result<(), NoMemory> {
        let search = self.search;
        let Some(route) = search.routes.get(route) else {
            return Ok(());
        };
        let Some(context) = search.plan.contexts().get(route.context) else {
            return Ok(());
        };
        if self.target.is_searched(route.context) && self.target.may_answer(alloc, &route.exten)? {
            return Ok(());
        }
        order.fill(context.name());
        for number in order.contexts() {
            self.take_context::<T>(alloc, context.name().bytes(), *number, &route.exten)?;
        }
        Ok(())
    }
}

/// The entries that lead from an area where no entry of the context with this number may be found to an area where one may.
pub(crate) fn jumps_to<T: DutyTable>(
    alloc: Global,
    search: &AreaSearch<'_>,
    target: usize,
) -> Result<Marks, NoMemory> {
    let plan = search.plan;
    let entries: &[Entry] = match plan.contexts().get(target) {
        Some(context) => context.entries(),
        None => &[],
    };
    let mut jumps = AreaJumps {
        search,
        target: JumpTarget {
            plan,
            entries,
            searching: searching(alloc, plan, target)?,
            ways: search.ways,
        },
        marks: Marks::none(alloc, plan)?,
    };
    let mut order = TurnedOrders::room(alloc, plan)?;
    for route in 0..search.routes.len() {
        jumps.take_route::<T>(alloc, &mut order, route)?;
    }
    let AreaJumps {
        search: _,
        target: _,
        marks,
    } = jumps;
    Ok(marks)
}
