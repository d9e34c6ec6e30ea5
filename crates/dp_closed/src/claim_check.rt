//! Whether a claim is closed.
ghost use Rattle.std.specs.Prelude.{◌≡◌, ◌≤◌, ℕ, List, [], ◌∷◌, IfOk, IsTrue, Some, option_map, slice_get, true};
ghost use Rattle.std.specs.List.{AllByRecursion};
ghost use Rattle.std.specs.Option.{option_map_or};
ghost use Rattle.dp_closed.specs.Answers.{answers_in};
ghost use Rattle.dp_closed.specs.Claimed.{AreWays, kept_claim};
ghost use Rattle.dp_closed.specs.Found.{IsMeeting};
ghost use Rattle.dp_closed.specs.Reach.{areas_in, shapes_at};
ghost use Rattle.dp_closed.specs.Shown.{shown_area};
ghost use Rattle.dp_closed.specs.Steps.{AreShapesClosed, Closes, IsEntryIn, answers_of};
ghost use Rattle.dp_lookup.specs.SearchOrder.{context_count, has, search_order};
ghost use Rattle.dp_pieces.specs.Pieces.{Known, exactly};
ghost use Rattle.dp_pieces.specs.Shown.{shown_all};
ghost use Rattle.dp_plan.specs.Lookup.{entry_at};
ghost use Rattle.dp_plan.specs.declared.entry.EntryId.{EntryId};
ghost use Rattle.dp_queue.specs.declared.settings.Settings.{Settings};
ghost use Rattle.dp_reach.specs.Areas as areas;
ghost use Rattle.dp_reach.specs.Areas.{Includes, area_at};
ghost use Rattle.dp_reach.specs.Bounds.{obligations};
ghost use Rattle.dp_reach.specs.Closed.{IsAreaClosed, IsClosed, IsEntry};

use crate::area::KeptArea;
use crate::claim::KeptClaim;
use crate::duty_table::DutyTable;
use crate::finding::{Meeting, is_excluded};
use crate::marks::Marks;
use dp_conf::{NoMemory, Text};
use dp_lookup::SearchOrder;
use dp_pieces::{NamesAt, Piece};
use dp_plan::{Dialplan, Entry, EntryId};
use std::alloc::Global;

/// Checks a claim, with the entries in the answer: the marked ones, or all without marks.
#[derive(Clone, Copy)]
pub(crate) struct Checker<'a> {
    claim: KeptClaim<'a>,
    answers: Option<&'a Marks>,
}

/// The entries of the context with a number.
fn entries_at(plan: &Dialplan, number: usize) -> &[Entry]
    ensures { result.now ≡ option_map_or (λ context. context.entries) (slice_get plan.now.contexts number) [] }
{
    match plan.contexts().get(number) {
        Some(context) => context.entries(),
        None => &[],
    }
}

/// The pieces of a known text.
pub(crate) fn exact_pieces(alloc: Global, text: &[u8]) -> Result<Vec<Piece>, NoMemory>
    ensures { IfOk result (λ pieces. shown_all pieces.items ≡ exactly text.now) }
{
    let mut pieces = Vec::with_capacity(alloc, text.len())?;
    for byte in text {
        pieces.push(Piece::Known(*byte))?;
    }
    Ok(pieces)
}

/// The area of the context with a name and an extension of a shape.
fn area_in(alloc: Global, name: &[u8], shape: &[Piece]) -> Result<KeptArea, NoMemory>
    ensures { IfOk result (λ area. shown_area area ≡ area_at (exactly name.now) (shown_all shape.now)) }
{
    let context = exact_pieces(alloc, name)?;
    let mut exten = Vec::new(alloc);
    exten.extend_from_slice(shape)?;
    Ok(KeptArea { context, exten })
}

impl KeptClaim<'_> {
    /// Whether the extension with one byte is seen to be in the reach, in the context of these pieces.
    fn has_letter(self, alloc: Global, context: &[Piece], letter: u8) -> Result<bool, NoMemory>
        ensures { IfOk result (λ yes. IsTrue yes
            → Includes self.entry.plan.now (areas_in self.entry.plan.now.contexts self.entry.reach.now.shapes.items)
            (area_at (shown_all context.now) (Known letter ∷ []))) }
    {
        self.reach
            .includes(alloc, self.plan, context, &[Piece::Known(letter)])
    }

    /// Whether the claim is seen to be closed over the table, with the entries in the answer: the marked ones, or all without marks. It
    /// fails only if memory runs out.
    pub fn is_closed<T: DutyTable>(
        self,
        alloc: Global,
        answers: Option<&Marks>,
    ) -> Result<bool, NoMemory>
        ensures { IfOk result (λ yes. IsTrue yes → (settings : List Settings) → AreWays settings self.entry.ways.now
            → IsClosed (obligations T.Functions.table T.duties) (kept_claim self.entry settings)
            (answers_in (option_map (λ marks. marks.now) answers.entry))) }
    {
        if !self.is_named() {
            return Ok(false);
        }
        let checker = Checker {
            claim: self,
            answers,
        };
        checker.has_contexts::<T>(alloc)
    }
}

impl Checker<'_> {
    /// Whether the entry is in the answer.
    fn is_answered(self, id: EntryId) -> bool
        ensures { result ≡ answers_of self.entry id }
    {
        match self.answers {
            Some(marks) => marks.has(id),
            None => true,
        }
    }

    /// Whether an entry that runs in the area is in the answer, and all its duties are met.
    fn has_met<T: DutyTable>(
        self,
        alloc: Global,
        area: &KeptArea,
        id: EntryId,
        entry: &Entry,
    ) -> Result<bool, NoMemory>
        ensures { IfOk result (λ yes. IsTrue yes
            → Closes self.entry (λ claim answers.
            IsEntry (obligations T.Functions.table T.duties) claim answers (shown_area area.now) id entry.now)) }
    {
        if !self.is_answered(id) {
            return Ok(false);
        }
        let names = NamesAt {
            table: self.claim.names,
            context: &area.context,
            exten: &area.exten,
        };
        let owed = T::duties_of(
            alloc,
            &names,
            area,
            entry.application.bytes(),
            entry.arguments.bytes(),
        )?;
        self.claim.meets_all(alloc, &owed)
    }

    /// Whether an entry is seen to be closed, if it may be found from the area that met its name.
    fn has_entry<T: DutyTable>(
        self,
        alloc: Global,
        meeting: &Meeting<'_>,
        id: EntryId,
        entry: &Entry,
    ) -> Result<bool, NoMemory>
        ensures { IfOk result (λ yes. IsTrue yes → entry_at self.entry.claim.plan.now id ≡ Some entry.now
            → (area : areas.Area) → IsMeeting area meeting.now → entry.now.name ≡ meeting.now.name.now
            → Closes self.entry (λ claim answers. IsEntryIn (obligations T.Functions.table T.duties) claim answers area id)) }
    {
        let entries = entries_at(self.claim.plan, id.context);
        let Some(met) = meeting.found_area(entries, entry) else {
            return Ok(true);
        };
        self.has_met::<T>(alloc, met, id, entry)
    }

    /// The same for each entry of the context with a number.
    fn has_entries<T: DutyTable>(
        self,
        alloc: Global,
        area: &KeptArea,
        number: usize,
    ) -> Result<bool, NoMemory>
        ensures { IfOk result (λ yes. IsTrue yes → Closes self.entry (λ claim answers. (entry : ℕ)
            → IsEntryIn (obligations T.Functions.table T.duties) claim answers (shown_area area.now)
            (record { context = number; entry = entry }))) }
    {
        let entries = entries_at(self.claim.plan, number);
        let mut before = None;
        for (place, entry) in entries.iter().enumerate() {
            if is_excluded(before.as_ref(), &entry.name) {
                continue;
            }
            let meeting = Meeting::after(alloc, area, &entry.name, before)?;
            let id = EntryId {
                context: number,
                entry: place,
            };
            if !self.has_entry::<T>(alloc, &meeting, id, entry)? {
                return Ok(false);
            }
            before = Some(meeting);
        }
        Ok(true)
    }

    /// The same for each entry of the contexts in a search order.
    fn has_order<T: DutyTable>(
        self,
        alloc: Global,
        area: &KeptArea,
        order: &[usize],
    ) -> Result<bool, NoMemory>
        ensures { IfOk result (λ yes. IsTrue yes → Closes self.entry (λ claim answers. (id : EntryId)
            → has order.now id.context ≡ true → IsEntryIn (obligations T.Functions.table T.duties) claim answers (shown_area area.now) id)) }
    {
        for number in order {
            if !self.has_entries::<T>(alloc, area, *number)? {
                return Ok(false);
            }
        }
        Ok(true)
    }

    /// Whether an area is seen to be closed, given the search order of its context.
    fn has_area<T: DutyTable>(
        self,
        alloc: Global,
        area: &KeptArea,
        order: &[usize],
    ) -> Result<bool, NoMemory>
        ensures { IfOk result (λ yes. IsTrue yes → (name : List ℕ) → shown_all area.now.context.items ≡ exactly name
            → order.now ≡ search_order self.entry.claim.plan.now name
            → Closes self.entry (λ claim answers. IsAreaClosed (obligations T.Functions.table T.duties) claim answers (shown_area area.now))) }
    {
        if !self.claim.is_area_named(&area.context, &area.exten) {
            return Ok(false);
        }
        if !self.claim.has_letter(alloc, &area.context, b'h')? {
            return Ok(false);
        }
        if !self.claim.has_letter(alloc, &area.context, b'i')? {
            return Ok(false);
        }
        self.has_order::<T>(alloc, area, order)
    }

    /// The same for each area of the context with a name and of these shapes.
    fn has_shapes<T: DutyTable>(
        self,
        alloc: Global,
        name: &Text,
        order: &[usize],
        shapes: &[Vec<Piece>],
    ) -> Result<bool, NoMemory>
        ensures { IfOk result (λ yes. IsTrue yes → order.now ≡ search_order self.entry.claim.plan.now name.now
            → AreShapesClosed (obligations T.Functions.table T.duties) self.entry name.now shapes.now) }
    {
        for shape in shapes {
            let area = area_in(alloc, name.bytes(), shape)?;
            if !self.has_area::<T>(alloc, &area, order)? {
                return Ok(false);
            }
        }
        Ok(true)
    }

    /// The same for each area of the reach in the context with a number and a name. The order has room for every context.
    fn has_areas<T: DutyTable>(
        self,
        alloc: Global,
        number: usize,
        name: &Text,
        order: &mut SearchOrder,
    ) -> Result<bool, NoMemory>
        requires { context_count self.claim.plan.now ≤ order.old.room }
        ensures room { order.new.room ≡ order.old.room }
        ensures closed { IfOk result (λ yes. IsTrue yes
            → AreShapesClosed (obligations T.Functions.table T.duties) self.entry name.now
            (shapes_at self.entry.claim.reach.now.shapes.items number)) }
    {
        order.fill(self.claim.plan, name);
        let shapes = self.claim.reach.shapes_at(number);
        self.has_shapes::<T>(alloc, name, order.contexts(), shapes)
    }

    /// The same for each area of the reach.
    fn has_contexts<T: DutyTable>(self, alloc: Global) -> Result<bool, NoMemory>
        ensures { IfOk result (λ yes. IsTrue yes → Closes self.entry (λ claim answers.
            AllByRecursion (IsAreaClosed (obligations T.Functions.table T.duties) claim answers) claim.reach)) }
    {
        let plan = self.claim.plan;
        let mut order = SearchOrder::room(alloc, plan)?;
        for (number, context) in plan.contexts().iter().enumerate() {
            if !self.has_areas::<T>(alloc, number, context.name(), &mut order)? {
                return Ok(false);
            }
        }
        Ok(true)
    }
}
