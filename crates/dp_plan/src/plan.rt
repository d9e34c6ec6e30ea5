//! A loaded dialplan.
ghost use Rattle.std.specs.Prelude.{◌≡◌, ◌↔◌, ◌<◌, ◌≤◌, ℕ, List, Ok, Some, map, slice_index, EachIndex, IfOk, IfSome, IsTrue};
ghost use Rattle.std.specs.List.{All};
ghost use Rattle.std.specs.Option.{option_copied};
ghost use Rattle.dp_conf.specs.Answers.{Answers};
ghost use Rattle.dp_plan.specs.Contexts.{AreNamed};
ghost use Rattle.dp_plan.specs.Faults.{reason_of};
ghost use Rattle.dp_plan.specs.Loaded.{IsLoaded, HaveLines, plan_and_notes, lines_loaded};
ghost use Rattle.dp_plan.specs.Plan.{PlanOf};
ghost use Rattle.dp_plan.specs.Ranking.{AreRanked, AreApart};
ghost use Rattle.dp_plan.specs.declared.note.Note.{Note};

use crate::context::Context;
use crate::entry::{Entry, EntryId};
use crate::entry_lines::EntryLines;
use crate::fault::LoadFault;
use crate::note::Note;
use crate::plan_loading::read_draft;
use crate::ranking::Ranking;
use crate::shared_text::SharedText;
use dp_conf::{ShallowText, Text};
use indexmap::IndexSet;
use std::alloc::Global;
use std::marker::Model;

/// A global variable of a dialplan, not expanded.
#[derive(Debug, PartialEq, Eq, Drop)]
pub struct GlobalVariable {
    pub name: Text,
    pub value: ShallowText,
}

/// A loaded dialplan. A contract sees it as its global variables in file order, and its contexts in the order of first
/// appearance.
#[derive(Debug)]
pub struct Dialplan {
    globals: Vec<GlobalVariable>,
    names: IndexSet<SharedText>,
    contexts: Vec<Context>,
    rankings: Vec<Ranking>,
}

impl Drop for Dialplan {
    fn drop(self) {
        let Dialplan {
            globals: _,
            names: _,
            contexts: _,
            rankings: _,
        } = self;
    }
}

impl Model for Dialplan {
    ghost use Rattle.std.specs.Prelude.{◌≡◌, map};
    ghost use Rattle.std.specs.List.{All};
    ghost use Rattle.dp_plan.specs.Contexts.{AreNamed};
    ghost use Rattle.dp_plan.specs.Loaded.{IsLoaded};
    ghost use Rattle.dp_plan.specs.Plan.{PlanOf};
    ghost use Rattle.dp_plan.specs.Ranking.{AreRanked, AreApart};

    ghost Value = { PlanOf };

    ghost view = { λ plan. record { globals = plan.globals.items; contexts = plan.contexts.items } };

    ghost invariant = { λ plan.
        (plan.names.keys ≡ map (λ context. context.name) plan.contexts.items)
        × AreRanked plan.contexts.items plan.rankings.items
        × All (λ context. AreNamed context.entries) plan.contexts.items
        × All (λ context. AreApart context.entries) plan.contexts.items
        × IsLoaded (record { globals = plan.globals.items; contexts = plan.contexts.items }) };
}

/// A loaded dialplan, with its notes and the lines of its entries.
#[derive(Debug, Drop)]
pub struct LoadedPlan {
    pub plan: Dialplan,
    /// The notes on the lines that were dropped, in the order of the lines.
    pub notes: Vec<Note>,
    /// The line of each entry of the dialplan.
    pub lines: EntryLines,
}

/// The parts of a dialplan apart from its rankings.
#[derive(Drop)]
pub(crate) struct PlanParts {
    pub(crate) globals: Vec<GlobalVariable>,
    pub(crate) names: IndexSet<SharedText>,
    pub(crate) contexts: Vec<Context>,
}

impl Dialplan {
    ghost use Rattle.dp_plan.specs.Lookup.{entry_at, number_of, includes_at, includes_of, IsRankedAt, IsRankedOf};

    /// Loads a dialplan, with notes on the lines that were dropped, in the order of the lines.
    ///
    /// The error is, in this order: the first fault of the text itself, as `LoadKind::Conf`; else the fault of the first
    /// faulty line of a context or of the global variables, as `LoadKind::Pattern` if it is in a name and as
    /// `LoadKind::Plan` otherwise. It is `NoMemory` if memory runs out.
    pub fn load(alloc: Global, text: &[u8]) -> Result<(Self, Vec<Note>), LoadFault>
        ensures { Answers (λ read. (read.0, read.1.items)) reason_of result (plan_and_notes text.now) }
    {
        let loaded = Self::load_with_lines(alloc, text)?;
        let LoadedPlan {
            plan,
            notes,
            lines: _,
        } = loaded;
        Ok((plan, notes))
    }

    /// Loads a dialplan as `load` does, and also returns the line of each entry.
    pub fn load_with_lines(alloc: Global, text: &[u8]) -> Result<LoadedPlan, LoadFault>
        ensures plan { Answers (λ loaded. (loaded.plan, loaded.notes.items)) reason_of result (plan_and_notes text.now) }
        ensures lines { IfOk result (λ loaded. lines_loaded text.now ≡ Ok loaded.lines) }
        ensures each { IfOk result (λ loaded. HaveLines loaded.plan.contexts loaded.lines) }
    {
        let draft = read_draft(alloc, text)?;
        let loaded = draft.into_plan(alloc)?;
        Ok(loaded)
    }

    /// The dialplan with these parts.
    pub(crate) fn of_parts(parts: PlanParts, rankings: Vec<Ranking>) -> Self
        requires names { parts.names.keys ≡ map (λ context. context.name) parts.contexts.items }
        requires ranked { AreRanked parts.contexts.items rankings.items }
        requires named { All (λ context. AreNamed context.entries) parts.contexts.items }
        requires apart { All (λ context. AreApart context.entries) parts.contexts.items }
        requires loaded { IsLoaded (record { globals = parts.globals.items; contexts = parts.contexts.items }) }
        ensures { result ≡ record { globals = parts.globals.items; contexts = parts.contexts.items } }
    {
        let PlanParts {
            globals,
            names,
            contexts,
        } = parts;
        Dialplan {
            globals,
            names,
            contexts,
            rankings,
        }
    }

    /// States that some text loads as the dialplan, which holds of every dialplan. It does nothing.
    pub fn show_loaded(&self)
        ensures { IsLoaded self.now }
    {
        let _contexts = &self.contexts;
    }

    /// States what is known of the entries of every dialplan: the name of each is the meaning of some text, and no two
    /// entries of a context have the same name and priority. It does nothing.
    pub fn show_entries_known(&self)
        ensures named { All (λ context. AreNamed context.entries) self.now.contexts }
        ensures apart { All (λ context. AreApart context.entries) self.now.contexts }
    {
        let _contexts = &self.contexts;
    }

    /// The contexts in the order of first appearance, with their names and entries.
    pub fn contexts(&self) -> &[Context]
        ensures { result.now ≡ self.now.contexts }
    {
        &self.contexts
    }

    /// The global variables, in file order. A name may occur twice.
    pub fn globals(&self) -> &[GlobalVariable]
        ensures { result.now ≡ self.now.globals }
    {
        &self.globals
    }

    /// The entry with these numbers, or None if there is none.
    pub fn entry(&self, id: EntryId) -> Option<&Entry>
        ensures { option_copied result ≡ entry_at self.now id }
    {
        let context = self.contexts.get(id.context)?;
        context.entries().get(id.entry)
    }

    /// The number of the context with this name, or None if there is none.
    pub fn number_of(&self, name: &Text) -> Option<usize>
        ensures { result ≡ number_of self.now name.now }
    {
        self.names.get_index_of(name)
    }

    /// Whether the context with this name has this number. It does not search a table.
    pub fn has_number(&self, name: &Text, number: usize) -> bool
        ensures { IsTrue result ↔ (number_of self.now name.now ≡ Some number) }
    {
        match self.names.as_slice().get(number) {
            Some(held) => name == held.text(),
            None => false,
        }
    }

    /// The names of the contexts that the context with this name includes, in file order, including names without a
    /// context. An unknown context includes none.
    pub fn includes(&self, context: &Text) -> &[Text]
        ensures { result.now ≡ includes_of self.now context.now }
    {
        match self.names.get_index_of(context) {
            Some(number) => self.includes_at(number),
            None => &[],
        }
    }

    /// The names of the contexts that the context with this number includes; none if there is no such context.
    pub fn includes_at(&self, number: usize) -> &[Text]
        ensures { result.now ≡ includes_at self.now number }
    {
        match self.contexts.get(number) {
            Some(context) => context.includes(),
            None => &[],
        }
    }

    /// The numbers of the entries of the context with this name, ordered by their names, the more specific first, and
    /// then by their priorities. An unknown context has none.
    pub fn ranked(&self, context: &Text) -> &[EntryId]
        ensures { IsRankedOf self.now context.now result.now }
    {
        match self.names.get_index_of(context) {
            Some(number) => self.ranked_at(number),
            None => &[],
        }
    }

    /// The numbers of the entries of the context with this number in that order; none if there is no such context.
    pub fn ranked_at(&self, number: usize) -> &[EntryId]
        ensures { IsRankedAt self.now number result.now }
    {
        match self.rankings.get(number) {
            Some(ranking) => ranking.ids(),
            None => &[],
        }
    }
}

/// States what is known of the entries of every dialplan that a text loads as: the name of each is the meaning of some
/// text, and no two entries of a context have the same name and priority. It does nothing.
pub fn show_loaded_entries_known()
    ensures named { (text : List ℕ) (plan : PlanOf) (notes : List Note) → EachIndex text (λ k. slice_index text k < 256)
        → plan_and_notes text ≡ Ok (plan, notes) → All (λ context. AreNamed context.entries) plan.contexts }
    ensures apart { (text : List ℕ) (plan : PlanOf) (notes : List Note) → plan_and_notes text ≡ Ok (plan, notes)
        → All (λ context. AreApart context.entries) plan.contexts }
{}
