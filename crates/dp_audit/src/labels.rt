//! Labels that nothing may name: no target, and no arguments of an application that a table lacks.
ghost use Rattle.std.specs.Prelude.{◌≡◌, ◌||◌, Bool, List, ℕ, [], ◌∷◌, IfOk, OnOk};
ghost use Rattle.std.specs.List.{flat_map, list_any};
ghost use Rattle.std.specs.Option.{option_map, option_to_list};
ghost use Rattle.dp_plan.specs.Plan.{PlanOf};
ghost use Rattle.dp_audit.specs.Labels as spec;
ghost use Rattle.dp_audit.specs.Pieces as cut;
ghost use Rattle.dp_audit.specs.Targets.{texts_of_targets};

use crate::jump::{Jump, Targets, jump_of, parts_of, parts_stand, targets_in};
use crate::names::AppNames;
use crate::pieces::{first_piece, pieces_of};
use dp_plan::{Context, Dialplan, Entry, NoMemory, Text};
use indexmap::IndexSet;
use std::alloc::Global;

/// The labels and numbers that the targets of a dialplan name, and whether one of the targets is computed.
#[derive(Drop)]
struct Named {
    is_computing: bool,
    names: IndexSet<Text>,
}

impl Named {
    /// Records what a target names, or that it is computed.
    fn note(&mut self, alloc: Global, jump: Jump, text: &[u8]) -> Result<(), NoMemory>
        ensures { OnOk result (spec.NotesTexts jump self.old self.new (text.now ∷ [])) }
    {
        let parts = parts_of(jump, text);
        if !parts_stand(text, parts) {
            self.is_computing = true;
            return Ok(());
        }
        if let Some(parts) = parts {
            let name = Text::copy_of(alloc, parts.priority)?;
            self.names.insert(name)?;
        }
        Ok(())
    }

    /// Records a target, if there is one.
    #[tactic(auto, using(crate::proofs::LabelsLemmas::notes_none))]
    fn note_side(&mut self, alloc: Global, jump: Jump, side: Option<&[u8]>) -> Result<(), NoMemory>
        ensures { OnOk result (spec.NotesTexts jump self.old self.new
            (option_to_list (option_map (λ text. text.now) side.entry))) }
    {
        match side {
            Some(text) => self.note(alloc, jump, text),
            None => Ok(()),
        }
    }

    /// Records the targets of an entry.
    #[tactic(auto, using(crate::proofs::LabelsLemmas::notes_texts))]
    fn note_targets(
        &mut self,
        alloc: Global,
        jump: Jump,
        targets: Targets<'_>,
    ) -> Result<(), NoMemory>
        ensures { OnOk result (spec.NotesTexts jump self.old self.new (texts_of_targets targets.entry)) }
    {
        self.note_side(alloc, jump, targets.first)?;
        self.note_side(alloc, jump, targets.second)?;
        Ok(())
    }

    /// Records the targets of an entry.
    #[tactic(auto, using(crate::proofs::LabelsLemmas::notes_both, crate::proofs::LabelsLemmas::notes_none))]
    fn note_entry(&mut self, alloc: Global, entry: &Entry) -> Result<(), NoMemory>
        ensures { OnOk result (spec.Notes self.old self.new (spec.computes entry.now) (spec.names entry.now)) }
    {
        let Some(jump) = jump_of(entry.application.bytes()) else {
            return Ok(());
        };
        let targets = targets_in(jump, entry.arguments.text().bytes());
        self.note_targets(alloc, jump, targets)
    }

    /// Records the targets of the entries.
    #[tactic(auto, using(crate::proofs::LabelsLemmas::notes_both, crate::proofs::LabelsLemmas::notes_none))]
    fn note_entries(&mut self, alloc: Global, entries: &[Entry]) -> Result<(), NoMemory>
        ensures { OnOk result (spec.Notes self.old self.new (list_any spec.computes entries.now)
            (flat_map spec.names entries.now)) }
    {
        for entry in entries {
            self.note_entry(alloc, entry)?;
        }
        Ok(())
    }

    /// Records the targets of the contexts' entries.
    #[tactic(auto, using(crate::proofs::LabelsLemmas::notes_both, crate::proofs::LabelsLemmas::notes_none))]
    fn note_contexts(&mut self, alloc: Global, contexts: &[Context]) -> Result<(), NoMemory>
        ensures { OnOk result (spec.Notes self.old self.new (list_any spec.computes (spec.entries_in contexts.now))
            (flat_map spec.names (spec.entries_in contexts.now))) }
    {
        for context in contexts {
            self.note_entries(alloc, context.entries())?;
        }
        Ok(())
    }

    /// The labels and numbers that the targets of a dialplan name.
    fn of(alloc: Global, plan: &Dialplan) -> Result<Self, NoMemory>
        ensures { IfOk result (spec.AreNamed plan.now) }
    {
        let mut named = Named {
            is_computing: false,
            names: IndexSet::new(alloc),
        };
        named.note_contexts(alloc, plan.contexts())?;
        Ok(named)
    }

    /// Whether a target names the label, or one is computed.
    fn may_name(&self, label: &Text) -> bool
        ensures { result ≡ (self.now.is_computing || spec.has_name self.now label.now) }
    {
        self.is_computing || self.names.contains(label)
    }
}

/// What may name a label: the targets of a dialplan, and the arguments of applications that a table lacks.
#[derive(Drop)]
pub(crate) struct Naming {
    targets: Named,
    pieces: IndexSet<Text>,
}

impl Naming {
    /// What may name a label of the dialplan.
    pub(crate) fn of<N: AppNames>(alloc: Global, plan: &Dialplan) -> Result<Self, NoMemory>
        ensures { IfOk result (spec.IsNaming N.known plan.now) }
    {
        let targets = Named::of(alloc, plan)?;
        let pieces = pieces_of::<N>(alloc, plan)?;
        Ok(Naming { targets, pieces })
    }

    /// Whether the label's first piece is among the pieces of arguments.
    fn has_piece(&self, alloc: Global, label: &Text) -> Result<bool, NoMemory>
        ensures { IfOk result (λ found. found ≡ spec.has_piece self.now (cut.first_piece label.now)) }
    {
        let piece = Text::copy_of(alloc, first_piece(label.bytes()))?;
        Ok(self.pieces.contains(&piece))
    }

    /// Whether nothing may name the label.
    fn lacks(&self, alloc: Global, label: &Text) -> Result<bool, NoMemory>
        ensures { (known : List ℕ → Bool) (plan : PlanOf) → spec.IsNaming known plan self.now
            → IfOk result (λ unused. unused ≡ spec.is_unnamed known plan label.now) }
    {
        if self.targets.may_name(label) {
            return Ok(false);
        }
        let is_piece = self.has_piece(alloc, label)?;
        Ok(!is_piece)
    }

    /// Whether the entry has a label that nothing may name.
    #[tactic(auto, unfolding(crate::specs::Labels::is_unused))]
    pub(crate) fn is_unused(&self, alloc: Global, entry: &Entry) -> Result<bool, NoMemory>
        ensures { (known : List ℕ → Bool) (plan : PlanOf) → spec.IsNaming known plan self.now
            → IfOk result (λ unused. unused ≡ spec.is_unused known plan entry.now) }
    {
        match &entry.label {
            None => Ok(false),
            Some(label) => self.lacks(alloc, label.text()),
        }
    }
}
