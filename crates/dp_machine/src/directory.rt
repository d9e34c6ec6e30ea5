//! The dialplan, and the tables that its look-ups search. No look-up allocates.
ghost use Rattle.std.specs.Prelude.{◌≡◌, IfOk, IsSome, Some};
ghost use Rattle.dp_plan.specs.Lookup.{entry_at};
ghost use Rattle.dp_machine.specs.Found as spec;
ghost use Rattle.dp_machine.specs.steps.Tables.{AreTables};
ghost use Rattle.dp_machine.specs.steps.Templates.{IsOf};

use crate::templates::{PreparedEntry, Templates};
use dp_app::{AppTable, Place};
use dp_lookup::SearchOrder;
use dp_plan::{Dialplan, EntryId, NoMemory, Text};
use dp_trie::Finder;
use std::alloc::Global;
use std::marker::Model;

/// The tables made once for a dialplan: the finder of its entries and labels, and the templates of its entries.
#[derive(Drop)]
pub(crate) struct Tables {
    finder: Finder,
    templates: Templates,
}

impl Tables {
    /// The tables of a dialplan in which no context has been searched yet.
    pub(crate) fn of<T: AppTable>(alloc: Global, plan: &Dialplan) -> Result<Self, NoMemory>
        ensures { IfOk result (λ tables. AreTables plan.now tables) }
    {
        let finder = Finder::build(alloc, plan)?;
        let templates = Templates::read::<T>(alloc, plan.contexts())?;
        Ok(Tables { finder, templates })
    }
}

/// The only owner of the dialplan and of its tables. A contract sees it as the dialplan.
#[derive(Drop)]
pub(crate) struct Directory {
    plan: Dialplan,
    tables: Tables,
}

impl Model for Directory {
    ghost use Rattle.dp_plan.specs.Plan.{PlanOf};
    ghost use Rattle.dp_machine.specs.steps.Tables.{AreTables};

    ghost Value = { PlanOf };

    ghost view = { λ directory. directory.plan };

    ghost invariant = { λ directory. AreTables directory.plan directory.tables };
}

impl Directory {
    /// The dialplan with its tables.
    pub(crate) fn with(plan: Dialplan, tables: Tables) -> Self
        requires { AreTables plan tables }
        ensures { result ≡ plan }
    {
        Directory { plan, tables }
    }

    /// Replaces the dialplan and its tables.
    pub(crate) fn replace(&mut self, plan: Dialplan, tables: Tables)
        requires { AreTables plan tables }
        ensures { self.new ≡ plan }
    {
        self.plan = plan;
        self.tables = tables;
    }

    /// The dialplan.
    pub(crate) fn plan(&self) -> &Dialplan
        ensures { result.now ≡ self.now }
    {
        &self.plan
    }

    /// The entry that answers for the extension of the context at the priority: the one with the most specific matching name, in the first
    /// context that has one.
    #[tactic(auto, unfolding(crate::specs::Found::id_found))]
    #[inline(always)]
    pub(crate) fn find(&mut self, context: &Text, exten: &[u8], priority: u32) -> Option<EntryId>
        ensures found { result ≡ spec.id_found self.old context.now exten.now priority }
        ensures same { self.new ≡ self.old }
    {
        self.tables.finder.turn_to(&self.plan, context);
        self.tables.finder.find(exten, priority)
    }

    /// Whether an entry answers for the extension of the context at the priority.
    #[tactic(auto, unfolding(crate::specs::Found::id_found, crate::specs::Found::is_found))]
    pub(crate) fn is_found(&mut self, context: &Text, exten: &[u8], priority: u32) -> bool
        ensures found { result ≡ spec.is_found self.old context.now exten.now priority }
        ensures same { self.new ≡ self.old }
    {
        self.find(context, exten, priority).is_some()
    }

    /// Whether a caller in the context can dial on after these digits.
    #[tactic(auto, unfolding(crate::specs::Found::could_go_on))]
    pub(crate) fn could_go_on(&mut self, context: &Text, digits: &[u8]) -> bool
        ensures found { result ≡ spec.could_go_on self.old context.now digits.now }
        ensures same { self.new ≡ self.old }
    {
        self.tables.finder.turn_to(&self.plan, context);
        self.tables.finder.more(digits)
    }

    /// The priority that has the label, of the extension in the context.
    #[tactic(auto, unfolding(crate::specs::Found::label_found))]
    pub(crate) fn find_label(&mut self, context: &Text, exten: &[u8], label: &[u8]) -> Option<u32>
        ensures found { result ≡ spec.label_found self.old context.now exten.now label.now }
        ensures same { self.new ≡ self.old }
    {
        self.tables.finder.turn_to(&self.plan, context);
        self.tables.finder.find_label(exten, label)
    }

    /// The entry with these numbers, which is in the dialplan, with its template.
    pub(crate) fn prepared_entry(&self, id: EntryId) -> PreparedEntry<'_>
        requires { IsSome (entry_at self.now id) }
        ensures entry { Some result.entry.now ≡ entry_at self.now id }
        ensures template { IsOf result.entry.now result.template.now }
    {
        let Some(entry) = self.plan.entry(id) else {
            unreachable!()
        };
        let Some(template) = self.tables.templates.of_entry(id) else {
            unreachable!()
        };
        PreparedEntry { entry, template }
    }

    /// The entry that answers at a place, found with a separate search order.
    #[tactic(auto, unfolding(crate::specs::Found::id_found))]
    pub(crate) fn entry_of(&self, alloc: Global, place: &Place) -> Result<Option<EntryId>, NoMemory>
        ensures { IfOk result (λ id. id ≡ spec.id_at self.now place.now) }
    {
        let order = SearchOrder::of(alloc, &self.plan, &place.context)?;
        let exten = place.exten.bytes();
        Ok(
            self.tables
                .finder
                .trie()
                .find(&order, exten, place.priority),
        )
    }
}
