//! A dialplan under construction.
ghost use Rattle.std.specs.Prelude.{◌≡◌, ◌++◌, ◌<◌, [], ◌∷◌, OnOk, OnErr, IfOk, Some, None, false, length, map};
ghost use Rattle.std.specs.List.{All, flat_map};
ghost use Rattle.dp_plan.specs.Contexts.{with_entry, with_include};
ghost use Rattle.dp_plan.specs.steps.Draft as spec;
ghost use Rattle.dp_plan.specs.steps.Open.{section_of, last_of, IsOpenSection};
ghost use Rattle.dp_plan.specs.steps.Table.{IsFirstAt, Table};
ghost use Rattle.dp_plan.specs.steps.Numbers.{AreAllNumbered, with_number};
ghost use Rattle.dp_conf.specs.Changes.{changed_at};
ghost use Rattle.dp_conf.specs.Words.{same_text};
ghost use Rattle.dp_plan.specs.Loaded.{IsLoaded};
ghost use Rattle.dp_plan.specs.Plan.{is_named};
ghost use Rattle.dp_plan.specs.Ranking.{AreApart};

use crate::context::Context;
use crate::entry::Entry;
use crate::entry_lines::EntryLines;
use crate::label::{Label, label_of};
use crate::note::{Note, NoteKind};
use crate::numbers::{Numbers, short_number};
use crate::plan::{Dialplan, GlobalVariable, LoadedPlan, PlanParts};
use crate::ranking::rank_contexts;
use crate::remark::{Remark, settle};
use crate::section::{OpenContext, OpenSection, Section};
use crate::shared_text::SharedText;
use crate::taken_places::{Slot, TakenPlaces};
use dp_conf::{NoMemory, Text, beside};
use indexmap::IndexSet;
use std::alloc::Global;
use std::marker::Model;

/// The result of the items so far: the parts of a dialplan, the places and labels that are taken, and the remarks.
#[derive(Drop)]
pub(crate) struct Draft {
    globals: Vec<GlobalVariable>,
    names: IndexSet<SharedText>,
    contexts: Vec<Context>,
    numbers: Vec<Numbers>,
    lines: Vec<Numbers>,
    taken: TakenPlaces,
    labels: IndexSet<Label>,
    remarks: Vec<Remark>,
}

/// The entry of a line, with the number of its extension.
#[derive(Drop)]
pub(crate) struct NumberedEntry {
    pub(crate) line: usize,
    pub(crate) number: u32,
    pub(crate) entry: Entry,
}

impl Model for Draft {
    ghost use Rattle.std.specs.Prelude.{◌≡◌, length};
    ghost use Rattle.dp_plan.specs.steps.Draft.{Drafted};

    ghost Value = { Drafted };

    ghost view = { λ draft. record {
      globals = draft.globals.items;
      names = draft.names.keys;
      contexts = draft.contexts.items;
      numbers = draft.numbers.items;
      lines = draft.lines.items;
      taken = draft.taken;
      labels = draft.labels.keys;
      remarks = draft.remarks.items;
    } };

    ghost invariant = { λ draft. (length draft.names.keys ≡ length draft.contexts.items)
        × (length draft.numbers.items ≡ length draft.contexts.items)
        × (length draft.lines.items ≡ length draft.contexts.items) };
}

/// The place that an entry takes, given the number of its extension.
fn slot_of(number: u32, entry: &Entry) -> Slot
    ensures { result ≡ spec.slot_of number entry.now }
{
    Slot {
        extension: number,
        priority: entry.priority.get(),
    }
}

/// An empty context with this name.
fn empty_context(alloc: Global, name: &SharedText) -> Result<Context, NoMemory>
    ensures { IfOk result (λ context. context ≡ spec.empty_context name.now) }
{
    let name = name.clone()?;
    Ok(Context::new(alloc, name))
}

/// The dialplan with these parts and the rankings of its contexts, given the numbers of the extensions of their entries.
fn plan_of(alloc: Global, parts: PlanParts, numbers: &[Numbers]) -> Result<Dialplan, NoMemory>
    requires names { parts.names.keys ≡ map (λ context. context.name) parts.contexts.items }
    requires apart { All (λ context. AreApart context.entries) parts.contexts.items }
    requires numbered { AreAllNumbered parts.contexts.items numbers.now }
    requires loaded { IsLoaded (record { globals = parts.globals.items; contexts = parts.contexts.items }) }
    ensures { IfOk result (λ plan. plan ≡ record { globals = parts.globals.items; contexts = parts.contexts.items }) }
{
    let rankings = rank_contexts(alloc, &parts.contexts, numbers)?;
    Ok(Dialplan::of_parts(parts, rankings))
}

impl Draft {
    /// An empty draft.
    pub(crate) fn new(alloc: Global) -> Self
        ensures { result ≡ spec.nothing }
    {
        Draft {
            globals: Vec::new(alloc),
            names: IndexSet::new(alloc),
            contexts: Vec::new(alloc),
            numbers: Vec::new(alloc),
            lines: Vec::new(alloc),
            taken: TakenPlaces::new(alloc),
            labels: IndexSet::new(alloc),
            remarks: Vec::new(alloc),
        }
    }

    /// Adds the context with this name, which does not exist yet, and returns its place.
    fn add_context(&mut self, alloc: Global, name: &SharedText) -> Result<usize, NoMemory>
        requires { is_named self.old.names name.now ≡ false }
        ensures ok { OnOk result (self.new ≡ spec.with_context self.old name.now) }
        ensures err { OnErr result (self.new ≡ self.old) }
        ensures place { IfOk result (λ place. IsFirstAt (same_text name.now) self.new.names place) }
    {
        self.contexts.reserve(1)?;
        self.numbers.reserve(1)?;
        self.lines.reserve(1)?;
        let context = empty_context(alloc, name)?;
        let key = name.clone()?;
        let (place, _) = self.names.insert_full(key)?;
        self.contexts.push(context).unwrap();
        self.numbers.push(Numbers::new(alloc)).unwrap();
        self.lines.push(Numbers::new(alloc)).unwrap();
        Ok(place)
    }

    /// Adds the context with this name unless it exists, and returns its place.
    fn open(&mut self, alloc: Global, name: &SharedText) -> Result<usize, NoMemory>
        ensures ok { OnOk result (self.new ≡ spec.with_context self.old name.now) }
        ensures err { OnErr result (self.new ≡ self.old) }
        ensures place { IfOk result (λ place. IsFirstAt (same_text name.now) self.new.names place) }
    {
        match self.names.get_index_of(name) {
            Some(place) => Ok(place),
            None => self.add_context(alloc, name),
        }
    }

    /// Adds a note on a line.
    pub(crate) fn note(&mut self, line: usize, kind: NoteKind) -> Result<(), NoMemory>
        ensures noted { OnOk result (self.new ≡ spec.with_note self.old line kind) }
        ensures names { self.new.names ≡ self.old.names }
    {
        self.remarks.push(Remark::Noted(Note { line, kind }))?;
        Ok(())
    }

    /// Takes the label, and returns whether it was taken already.
    fn mark(&mut self, label: Label) -> Result<bool, NoMemory>
        ensures taken { IfOk result (λ taken. taken ≡ spec.is_marked self.old (Some label)) }
        ensures marked { OnOk result (self.new ≡ spec.with_label self.old (Some label)) }
        ensures names { self.new.names ≡ self.old.names }
    {
        let is_free = self.labels.insert(label)?;
        Ok(!is_free)
    }

    /// Takes the label of an entry, if it has one, and returns whether it was taken already.
    #[tactic(auto, using(crate::proofs::ClaimLemmas::no_label_is_taken))]
    fn take_label(&mut self, number: u32, entry: &Entry) -> Result<bool, NoMemory>
        ensures taken { IfOk result (λ taken. taken ≡ spec.is_marked self.old (spec.label_of number entry.now)) }
        ensures marked { OnOk result (self.new ≡ spec.with_label self.old (spec.label_of number entry.now)) }
        ensures names { self.new.names ≡ self.old.names }
    {
        match &entry.label {
            None => Ok(false),
            Some(label) => {
                let label = label_of(number, label)?;
                self.mark(label)
            }
        }
    }

    /// Takes the place and the label of an entry, given the number of its extension, or returns the note if one of them is taken already.
    #[inline(always)]
    fn claim(
        &mut self,
        alloc: Global,
        number: u32,
        entry: &Entry,
    ) -> Result<Option<NoteKind>, NoMemory>
        ensures noted { IfOk result (λ noted. noted
            ≡ spec.double_kind self.old (spec.slot_of number entry.now) (spec.label_of number entry.now)) }
        ensures taken { OnOk result (self.new
            ≡ spec.take_place self.old (spec.slot_of number entry.now) (spec.label_of number entry.now)) }
        ensures names { self.new.names ≡ self.old.names }
    {
        let slot = slot_of(number, entry);
        if self.taken.is_taken(alloc, slot)? {
            return Ok(Some(NoteKind::DoublePriority));
        }
        if self.take_label(number, entry)? {
            return Ok(Some(NoteKind::DoubleLabel));
        }
        self.taken.take(slot)?;
        Ok(None)
    }

    /// Adds the entry to the context at the place.
    #[inline(always)]
    fn push_entry(&mut self, place: usize, entry: Entry) -> Result<(), NoMemory>
        requires { place < length self.old.names }
        ensures pushed { OnOk result (self.new ≡ record self.old {
          contexts = changed_at (with_entry entry) place self.old.contexts;
        }) }
        ensures names { self.new.names ≡ self.old.names }
    {
        let context = &mut self.contexts[place];
        context.push(entry)?;
        Ok(())
    }

    /// Adds the number of an extension to the numbers of the context at the place.
    #[inline(always)]
    fn push_number(&mut self, place: usize, number: u32) -> Result<(), NoMemory>
        requires { place < length self.old.names }
        ensures pushed { OnOk result (self.new ≡ record self.old {
          numbers = changed_at (with_number number) place self.old.numbers;
        }) }
        ensures names { self.new.names ≡ self.old.names }
    {
        let numbers = &mut self.numbers[place];
        numbers.push(number)?;
        Ok(())
    }

    /// Adds the line of an entry to the lines of the context at the place.
    #[inline(always)]
    fn push_line(&mut self, place: usize, line: usize) -> Result<(), NoMemory>
        requires { place < length self.old.names }
        ensures pushed { OnOk result (self.new ≡ record self.old {
          lines = changed_at (with_number line) place self.old.lines;
        }) }
        ensures names { self.new.names ≡ self.old.names }
    {
        let line = short_number(line)?;
        let lines = &mut self.lines[place];
        lines.push(line)?;
        Ok(())
    }

    /// Adds the include to the context at the place.
    fn push_include(&mut self, place: usize, name: Text) -> Result<(), NoMemory>
        requires { place < length self.old.names }
        ensures pushed { OnOk result (self.new ≡ record self.old {
          contexts = changed_at (with_include name) place self.old.contexts;
        }) }
        ensures names { self.new.names ≡ self.old.names }
    {
        let context = &mut self.contexts[place];
        context.push_include(name)?;
        Ok(())
    }

    /// Adds an entry to the context at the place, or adds a note if its place or its label is taken.
    #[tactic(auto, using(crate::proofs::AdditionLemmas::noted_addition, crate::proofs::AdditionLemmas::kept_addition))]
    #[inline(always)]
    pub(crate) fn add_entry(
        &mut self,
        alloc: Global,
        place: usize,
        added: NumberedEntry,
    ) -> Result<(), NoMemory>
        requires { place < length self.old.names }
        ensures added { OnOk result (self.new ≡ spec.with_addition self.old added.line place added.number added.entry) }
        ensures names { self.new.names ≡ self.old.names }
    {
        let NumberedEntry {
            line,
            number,
            entry,
        } = added;
        if let Some(kind) = self.claim(alloc, number, &entry)? {
            return self.note(line, kind);
        }
        self.push_number(place, number)?;
        self.push_line(place, line)?;
        self.push_entry(place, entry)
    }

    /// Adds an include to the context at the place. Only at the end is it known whether a context has its name.
    pub(crate) fn add_include(
        &mut self,
        line: usize,
        place: usize,
        name: Text,
    ) -> Result<(), NoMemory>
        requires { place < length self.old.names }
        ensures added { OnOk result (self.new ≡ spec.with_inclusion self.old line place name) }
        ensures names { self.new.names ≡ self.old.names }
    {
        let copy = name.clone()?;
        self.push_include(place, copy)?;
        self.remarks.push(Remark::Asks { line, name })?;
        Ok(())
    }

    /// Adds a global variable.
    pub(crate) fn set_global(&mut self, global: GlobalVariable) -> Result<(), NoMemory>
        ensures { OnOk result (self.new ≡ record self.old { globals = self.old.globals ++ global ∷ [] }) }
    {
        self.globals.push(global)?;
        Ok(())
    }

    /// Opens a section.
    pub(crate) fn begin(&mut self, alloc: Global, section: Section) -> Result<OpenSection, NoMemory>
        ensures ok { OnOk result (self.new ≡ spec.with_section self.old section) }
        ensures err { OnErr result (self.new ≡ self.old) }
        ensures section { IfOk result (λ opened. section_of opened ≡ section) }
        ensures last { IfOk result (λ opened. last_of opened ≡ None) }
        ensures opened { IfOk result (λ opened. (table : Table) → IsOpenSection self.new.names table opened) }
    {
        match section {
            Section::General => Ok(OpenSection::Settings),
            Section::Globals => Ok(OpenSection::Variables),
            Section::Context(name) => {
                let place = self.open(alloc, name.text())?;
                let last = None;
                Ok(OpenSection::Entries(OpenContext { name, place, last }))
            }
        }
    }

    /// The notes that follow from the remarks.
    fn notes(&self, alloc: Global) -> Result<Vec<Note>, NoMemory>
        ensures { IfOk result (λ notes. notes.items ≡ flat_map (spec.remark_notes self.now.names) self.now.remarks) }
    {
        let notes = settle(alloc, &self.names, &self.remarks)?;
        Ok(notes)
    }

    /// The parts of the draft's dialplan, the numbers of the extensions of its entries, and the lines of its entries. The places, the
    /// labels and the remarks are dropped.
    fn into_parts(self) -> (PlanParts, Vec<Numbers>, EntryLines)
        ensures globals { result.0.globals.items ≡ self.globals }
        ensures names { result.0.names.keys ≡ self.names }
        ensures contexts { result.0.contexts.items ≡ self.contexts }
        ensures numbers { result.1.items ≡ self.numbers }
        ensures lines { result.2 ≡ self.lines }
    {
        let Draft {
            globals,
            names,
            contexts,
            numbers,
            lines,
            taken: _,
            labels: _,
            remarks: _,
        } = self;
        let parts = PlanParts {
            globals,
            names,
            contexts,
        };
        (parts, numbers, EntryLines::of_contexts(lines))
    }

    /// The dialplan of the draft, its notes, and the lines of its entries. The places and labels are dropped before the entries are ranked.
    pub(crate) fn into_plan(self, alloc: Global) -> Result<LoadedPlan, NoMemory>
        requires names { self.names ≡ map (λ context. context.name) self.contexts }
        requires apart { All (λ context. AreApart context.entries) self.contexts }
        requires numbered { AreAllNumbered self.contexts self.numbers }
        requires loaded { IsLoaded (record { globals = self.globals; contexts = self.contexts }) }
        ensures plan { IfOk result (λ made. made.plan ≡ record { globals = self.globals; contexts = self.contexts }) }
        ensures notes { IfOk result (λ made. made.notes.items ≡ flat_map (spec.remark_notes self.names) self.remarks) }
        ensures lines { IfOk result (λ made. made.lines ≡ self.lines) }
    {
        let notes = self.notes(alloc);
        let (notes, draft) = beside(notes, self)?;
        let (parts, numbers, lines) = draft.into_parts();
        let plan = plan_of(alloc, parts, &numbers);
        let (plan, beside_it) = beside(plan, (notes, lines))?;
        let (notes, lines) = beside_it;
        Ok(LoadedPlan { plan, notes, lines })
    }
}
