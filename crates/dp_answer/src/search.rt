//! The search for what a phone call may run. It claims nothing of its findings.
ghost use Rattle.std.specs.Prelude.{◌≡◌, IfOk};
ghost use Rattle.dp_pieces.specs.Pieces.{exactly};
ghost use Rattle.dp_pieces.specs.Shown.{shown_all};

use crate::names::{TELEPHONE_DIGITS, set_in};
use crate::route::{Cause, Route};
use crate::turned_orders::TurnedOrders;
use dp_closed::{DutyTable, KeptArea, KeptDuty, Marks, Meeting, ReachShapes, is_excluded};
use dp_conf::NoMemory;
use dp_pieces::{ByteSet, NameTable, NamesAt, Piece, add_pieces, bytes_of, known_text, may_fit};
use dp_plan::{Dialplan, Entry, EntryId, Text};
use dp_vars::has_opening;
use std::alloc::Global;

/// The greatest number of areas in a search.
pub(crate) const MOST_AREAS: usize = 10_000;

/// The greatest number of shapes of a context that are kept separately; if there were more, one shape gets all their bytes.
const MOST_SHAPES: usize = 8;

/// The greatest number of times that a search goes through its areas.
const MOST_ROUNDS: usize = 100;

/// A search: the bytes that names may have, the areas found so far, and how a call gets to each.
#[derive(Drop)]
pub(crate) struct AreaSearch<'a> {
    pub(crate) plan: &'a Dialplan,
    pub(crate) ways: &'a [Vec<Piece>],
    pub(crate) names: NameTable,
    pub(crate) reach: ReachShapes,
    pub(crate) routes: Vec<Route>,
    /// The entries that were found.
    pub(crate) marks: Marks,
    /// For each context, where one of its entries was first found.
    pub(crate) firsts: Vec<Option<FirstFound>>,
    /// The entries that may jump to contexts whose names are unknown.
    pub(crate) computed: Marks,
    /// The entries of which nothing is known of what they do. The search does not follow them.
    pub(crate) unknown: Marks,
    /// Whether a name has more bytes than before.
    pub(crate) has_grown: bool,
    /// The number of routes that were gone through.
    pub(crate) taken: usize,
    /// The number of first routes that were gone through before a name got more bytes.
    pub(crate) stale: usize,
}

/// Where an entry of a context was first found.
#[derive(Clone, Copy)]
pub(crate) struct FirstFound {
    pub(crate) route: usize,
    pub(crate) entry: EntryId,
}

/// For each context of the dialplan, that none of its entries was found.
fn no_firsts(alloc: Global, plan: &Dialplan) -> Result<Vec<Option<FirstFound>>, NoMemory> {
    let mut firsts = Vec::new(alloc);
    for _context in plan.contexts() {
        firsts.push(None)?;
    }
    Ok(firsts)
}

/// The pieces of a text.
pub(crate) fn pieces_in(alloc: Global, text: &[u8]) -> Result<Vec<Piece>, NoMemory>
    ensures { IfOk result (λ pieces. shown_all pieces.items ≡ exactly text.now) }
{
    let mut pieces = Vec::with_capacity(alloc, text.len())?;
    for byte in text {
        pieces.push(Piece::Known(*byte))?;
    }
    Ok(pieces)
}

/// A copy of pieces.
pub(crate) fn copy_of(alloc: Global, pieces: &[Piece]) -> Result<Vec<Piece>, NoMemory> {
    let mut copy = Vec::new(alloc);
    copy.extend_from_slice(pieces)?;
    Ok(copy)
}

/// No shapes in each context of the dialplan.
fn no_shapes(alloc: Global, plan: &Dialplan) -> Result<ReachShapes, NoMemory> {
    let mut shapes = Vec::new(alloc);
    for _context in plan.contexts() {
        shapes.push(Vec::new(alloc))?;
    }
    Ok(ReachShapes { shapes })
}

impl<'a> AreaSearch<'a> {
    /// A search that has found nothing.
    pub(crate) fn new(
        alloc: Global,
        plan: &'a Dialplan,
        ways: &'a [Vec<Piece>],
        names: NameTable,
    ) -> Result<Self, NoMemory> {
        let reach = no_shapes(alloc, plan)?;
        let marks = Marks::none(alloc, plan)?;
        let firsts = no_firsts(alloc, plan)?;
        let computed = Marks::none(alloc, plan)?;
        let unknown = Marks::none(alloc, plan)?;
        Ok(AreaSearch {
            plan,
            ways,
            names,
            reach,
            routes: Vec::new(alloc),
            marks,
            firsts,
            computed,
            unknown,
            has_grown: false,
            taken: 0,
            stale: 0,
        })
    }

    /// The bytes that names may have, the areas, and the entries of which nothing is known.
    pub(crate) fn into_parts(self) -> (NameTable, ReachShapes, Marks) {
        let AreaSearch {
            plan: _,
            ways: _,
            names,
            reach,
            routes: _,
            marks: _,
            firsts: _,
            computed: _,
            unknown,
            has_grown: _,
            taken: _,
            stale: _,
        } = self;
        (names, reach, unknown)
    }

    /// Any bytes of the shapes of a context and of this one.
    fn widen(
        &self,
        alloc: Global,
        context: usize,
        exten: &[Piece],
    ) -> Result<Vec<Piece>, NoMemory> {
        let mut set = bytes_of(exten);
        if let Some(shapes) = self.reach.shapes.get(context) {
            for shape in shapes {
                add_pieces(&mut set, shape);
            }
        }
        let mut any = Vec::new(alloc);
        any.push(Piece::AnyOf(set))?;
        Ok(any)
    }

    /// Adds an area in a context with this number.
    fn push(
        &mut self,
        alloc: Global,
        context: usize,
        exten: &[Piece],
        cause: Cause,
    ) -> Result<(), NoMemory> {
        let is_full = match self.reach.shapes.get(context) {
            Some(shapes) => shapes.len() >= MOST_SHAPES,
            None => true,
        };
        let exten = if is_full {
            self.widen(alloc, context, exten)?
        } else {
            copy_of(alloc, exten)?
        };
        let shape = copy_of(alloc, &exten)?;
        if let Some(shapes) = self.reach.shapes.get_mut(context) {
            if is_full {
                shapes.clear();
            }
            shapes.push(shape)?;
        }
        self.routes.push(Route {
            context,
            exten,
            cause,
        })?;
        Ok(())
    }

    /// Adds an area, if its context has this number and it is not there yet.
    fn lead_to(
        &mut self,
        alloc: Global,
        context: usize,
        exten: &[Piece],
        cause: Cause,
    ) -> Result<(), NoMemory> {
        if self.reach.has(context, exten) {
            return Ok(());
        }
        self.push(alloc, context, exten, cause)
    }

    /// Adds the areas of each context whose name may fit.
    fn lead_to_all(
        &mut self,
        alloc: Global,
        context: &[Piece],
        exten: &[Piece],
        cause: Cause,
    ) -> Result<(), NoMemory> {
        let plan = self.plan;
        if let Cause::Jump(_, entry) = cause {
            self.computed.mark(entry);
        }
        for (number, each) in plan.contexts().iter().enumerate() {
            if may_fit(context, each.name().bytes()) {
                self.lead_to(alloc, number, exten, cause)?;
            }
        }
        Ok(())
    }

    /// Adds the areas of these shapes.
    pub(crate) fn lead(
        &mut self,
        alloc: Global,
        context: &[Piece],
        exten: &[Piece],
        cause: Cause,
    ) -> Result<(), NoMemory> {
        match known_text(alloc, context)? {
            Some(name) => match self.plan.number_of(&Text::new(name)) {
                Some(number) => self.lead_to(alloc, number, exten, cause),
                None => Ok(()),
            },
            None => self.lead_to_all(alloc, context, exten, cause),
        }
    }

    /// Lets digits lead out of each queue.
    fn lead_out(&mut self, alloc: Global, cause: Cause) -> Result<(), NoMemory> {
        let digit = [Piece::OneOf(set_in(TELEPHONE_DIGITS))];
        let ways = self.ways;
        self.lead(alloc, &[], &digit, cause)?;
        for way in ways {
            self.lead(alloc, way, &digit, cause)?;
        }
        Ok(())
    }

    /// Lets a name have these bytes.
    fn hold(&mut self, alloc: Global, name: &[u8], set: &ByteSet) -> Result<(), NoMemory> {
        if !self.names.has(name, set) {
            self.names.hold(alloc, name, set)?;
            self.has_grown = true;
        }
        Ok(())
    }

    /// Lets any value have these bytes.
    fn hold_anywhere(&mut self, set: &ByteSet) {
        if !set.is_part(self.names.all()) {
            self.names.hold_anywhere(set);
            self.has_grown = true;
        }
    }

    /// Lets each name have these bytes.
    fn hold_everywhere(&mut self, set: &ByteSet) {
        if !self.names.has_everywhere(set) {
            self.names.hold_everywhere(set);
            self.has_grown = true;
        }
    }

    /// Lets the caller's number have these bytes.
    fn hold_caller(&mut self, set: &ByteSet) {
        if !set.is_part(self.names.caller()) {
            self.names.hold_caller(set);
            self.has_grown = true;
        }
    }

    /// Records that nothing is known of what the entry does that jumps, if an entry does.
    fn note_unknown(&mut self, cause: Cause) {
        if let Cause::Jump(_, entry) = cause {
            self.unknown.mark(entry);
        }
    }

    /// Does what a duty asks for. What may do anything is only recorded: no proof is found then.
    fn meet(&mut self, alloc: Global, duty: &KeptDuty, cause: Cause) -> Result<(), NoMemory> {
        match duty {
            KeptDuty::Leads(area) => self.lead(alloc, &area.context, &area.exten, cause),
            KeptDuty::Holds(name, set) => self.hold(alloc, name, set),
            KeptDuty::HoldsAll(set) => {
                self.hold_everywhere(set);
                Ok(())
            }
            KeptDuty::Calls(set) => {
                self.hold_caller(set);
                Ok(())
            }
            KeptDuty::Waits => self.lead_out(alloc, cause),
            KeptDuty::Anything => {
                self.note_unknown(cause);
                Ok(())
            }
        }
    }

    /// Does what the duties ask for.
    fn meet_all(
        &mut self,
        alloc: Global,
        duties: &[KeptDuty],
        cause: Cause,
    ) -> Result<(), NoMemory> {
        for duty in duties {
            self.meet(alloc, duty, cause)?;
        }
        Ok(())
    }

    /// The duties of an entry that is found in an area.
    pub(crate) fn duties_of<T: DutyTable>(
        &self,
        alloc: Global,
        entry: &Entry,
        area: &KeptArea,
    ) -> Result<Vec<KeptDuty>, NoMemory> {
        let names = NamesAt {
            table: &self.names,
            context: &area.context,
            exten: &area.exten,
        };
        T::duties_of(
            alloc,
            &names,
            area,
            entry.application.bytes(),
            entry.arguments.bytes(),
        )
    }

    /// Records that an entry is found from the area of a route.
    fn note(&mut self, route: usize, id: EntryId) {
        self.marks.mark(id);
        if let Some(first) = self.firsts.get_mut(id.context) {
            if first.is_none() {
                *first = Some(FirstFound { route, entry: id });
            }
        }
    }

    /// Goes through an entry that is found at places of an area, given how its duties came up.
    fn take_entry<T: DutyTable>(
        &mut self,
        alloc: Global,
        cause: Cause,
        entry: &Entry,
        met: &KeptArea,
    ) -> Result<(), NoMemory> {
        let duties = self.duties_of::<T>(alloc, entry, met)?;
        self.meet_all(alloc, &duties, cause)
    }

    /// Goes through the entries of a context that is searched from an area. In a later round those whose arguments have no group have no
    /// new duties.
    fn take_context<T: DutyTable>(
        &mut self,
        alloc: Global,
        seen: &Seen,
        number: usize,
    ) -> Result<(), NoMemory> {
        let plan = self.plan;
        let Some(context) = plan.contexts().get(number) else {
            return Ok(());
        };
        let entries = context.entries();
        let mut before = None;
        for (place, entry) in entries.iter().enumerate() {
            if seen.is_again && !has_opening(entry.arguments.bytes()) {
                continue;
            }
            if is_excluded(before.as_ref(), &entry.name) {
                continue;
            }
            let meeting = Meeting::after(alloc, &seen.area, &entry.name, before)?;
            if let Some(met) = meeting.found_area(entries, entry) {
                let id = EntryId {
                    context: number,
                    entry: place,
                };
                self.note(seen.route, id);
                self.take_entry::<T>(alloc, Cause::Jump(seen.route, id), entry, met)?;
            }
            before = Some(meeting);
        }
        Ok(())
    }

    /// Goes through what a call may do in an area apart from the entries.
    fn take_area(&mut self, alloc: Global, seen: &Seen) -> Result<(), NoMemory> {
        let set = bytes_of(&seen.area.exten);
        self.hold(alloc, b"INVALID_EXTEN", &set)?;
        self.hold_anywhere(&set);
        self.hold_anywhere(&bytes_of(&seen.area.context));
        self.lead_to(
            alloc,
            seen.context,
            &[Piece::Known(b'h')],
            Cause::End(seen.route),
        )?;
        self.lead_to(
            alloc,
            seen.context,
            &[Piece::Known(b'i')],
            Cause::Invalid(seen.route),
        )
    }

    /// Goes through the area of a route.
    fn take_route<T: DutyTable>(
        &mut self,
        alloc: Global,
        order: &mut TurnedOrders<'_>,
        route: usize,
        is_again: bool,
    ) -> Result<(), NoMemory> {
        let plan = self.plan;
        let Some(taken) = self.routes.get(route) else {
            return Ok(());
        };
        let number = taken.context;
        let exten = copy_of(alloc, &taken.exten)?;
        let Some(context) = plan.contexts().get(number) else {
            return Ok(());
        };
        let area = KeptArea {
            context: pieces_in(alloc, context.name().bytes())?,
            exten,
        };
        let seen = Seen {
            route,
            context: number,
            area,
            is_again,
        };
        self.take_area(alloc, &seen)?;
        order.fill(context.name());
        for searched in order.contexts() {
            self.take_context::<T>(alloc, &seen, *searched)?;
        }
        Ok(())
    }

    /// Lets the name of each global have the bytes of its value. If a name gets more bytes by that, all routes have to be gone through.
    fn take_globals<T: DutyTable>(&mut self, alloc: Global) -> Result<(), NoMemory> {
        let plan = self.plan;
        self.has_grown = false;
        for global in plan.globals() {
            let names = NamesAt {
                table: &self.names,
                context: &[],
                exten: &[],
            };
            let set = T::expanded_bytes(alloc, &names, global.value.bytes())?;
            self.hold(alloc, global.name.bytes(), &set)?;
        }
        if self.has_grown {
            self.stale = MOST_AREAS;
        }
        Ok(())
    }

    /// Goes once through each area, including areas that it finds on the way, except for those that it has gone through since a name got
    /// more bytes: these lead to nothing new. It returns whether there are not too many.
    fn take_routes<T: DutyTable>(
        &mut self,
        alloc: Global,
        order: &mut TurnedOrders<'_>,
    ) -> Result<bool, NoMemory> {
        let mut stale = 0;
        for route in 0..MOST_AREAS {
            if route >= self.routes.len() {
                break;
            }
            let is_again = route < self.taken;
            if is_again && route >= self.stale {
                continue;
            }
            self.has_grown = false;
            self.take_route::<T>(alloc, order, route, is_again)?;
            if self.has_grown {
                stale = route + 1;
                self.stale = MOST_AREAS;
            }
        }
        self.taken = self.routes.len();
        self.stale = stale;
        Ok(self.routes.len() <= MOST_AREAS)
    }

    /// Continues until nothing more is found. It returns whether that happened within the limits.
    pub(crate) fn go<T: DutyTable>(&mut self, alloc: Global) -> Result<bool, NoMemory> {
        let mut order = TurnedOrders::room(alloc, self.plan)?;
        for _ in 0..MOST_ROUNDS {
            self.take_globals::<T>(alloc)?;
            let are_globals_held = !self.has_grown;
            if !self.take_routes::<T>(alloc, &mut order)? {
                return Ok(false);
            }
            if are_globals_held && self.stale == 0 {
                return Ok(true);
            }
        }
        Ok(false)
    }
}

/// The area that is gone through: its route, the number of its context, and whether it was gone through before.
#[derive(Drop)]
struct Seen {
    route: usize,
    context: usize,
    area: KeptArea,
    is_again: bool,
}
