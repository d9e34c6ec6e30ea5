//! The parts of a dialplan's entries that are read once, when it is put in force: their applications and their arguments, after the
//! Asterisk documentation's pages on variables.
ghost use Rattle.std.specs.Prelude.{◌≡◌, IfOk};
ghost use Rattle.std.specs.Option.{option_copied};
ghost use Rattle.dp_machine.specs.steps.Templates as spec;

use dp_app::{AppNumber, AppTable};
use dp_plan::{Context, Entry, EntryId, NoMemory};
use dp_vars::{Pieces, has_opening};
use std::alloc::Global;
use std::marker::Model;

/// The arguments of an entry, prepared for expansion.
#[derive(Drop)]
pub(crate) enum Arguments {
    /// Nothing in them opens a group, so they are used as they are.
    Plain,
    /// Their pieces.
    Read(Pieces),
}

impl Arguments {
    /// The arguments of a text.
    fn read(alloc: Global, text: &[u8]) -> Result<Self, NoMemory>
        ensures { IfOk result (spec.AreTemplate text.now) }
    {
        if has_opening(text) {
            let pieces = Pieces::read(alloc, text)?;
            return Ok(Arguments::Read(pieces));
        }
        Ok(Arguments::Plain)
    }
}

/// The parts that are read of an entry: where the table first looks for its application, and its arguments.
#[derive(Drop)]
pub(crate) struct EntryTemplate {
    pub(crate) number: AppNumber,
    pub(crate) arguments: Arguments,
}

impl EntryTemplate {
    /// The template of an entry. An application that the table lacks has the first number, which is as good as any.
    fn read<T: AppTable>(alloc: Global, entry: &Entry) -> Result<Self, NoMemory>
        ensures { IfOk result (spec.IsOf entry.now) }
    {
        let arguments = Arguments::read(alloc, entry.arguments.bytes())?;
        let number = T::number_of(entry.application.bytes()).unwrap_or(AppNumber::first());
        Ok(EntryTemplate { number, arguments })
    }
}

/// An entry with its template.
#[derive(Clone, Copy)]
pub(crate) struct PreparedEntry<'a> {
    pub(crate) entry: &'a Entry,
    pub(crate) template: &'a EntryTemplate,
}

/// The templates of a context's entries, in the order of the file.
#[derive(Drop)]
struct ContextTemplates {
    held: Vec<EntryTemplate>,
}

impl Model for ContextTemplates {
    ghost use Rattle.std.specs.Prelude.{List};
    ghost use Rattle.dp_machine.specs.declared.templates.EntryTemplate.{EntryTemplate};

    ghost Value = { List EntryTemplate };

    ghost view = { λ templates. templates.held.items };
}

impl ContextTemplates {
    /// The templates of these entries.
    fn read<T: AppTable>(alloc: Global, entries: &[Entry]) -> Result<Self, NoMemory>
        ensures { IfOk result (spec.AreOf entries.now) }
    {
        let mut held = Vec::with_capacity(alloc, entries.len())?;
        let mut left = entries;
        while let Some((entry, after)) = left.split_first() {
            let template = EntryTemplate::read::<T>(alloc, entry)?;
            held.push(template)?;
            left = after;
        }
        Ok(ContextTemplates { held })
    }

    /// The templates; each has the number of its entry.
    fn list(&self) -> &[EntryTemplate]
        ensures { result.now ≡ self.now }
    {
        &self.held
    }
}

/// The templates of all entries of a dialplan.
#[derive(Drop)]
pub(crate) struct Templates {
    contexts: Vec<ContextTemplates>,
}

impl Model for Templates {
    ghost use Rattle.std.specs.Prelude.{List};
    ghost use Rattle.dp_machine.specs.declared.templates.EntryTemplate.{EntryTemplate};

    ghost Value = { List (List EntryTemplate) };

    ghost view = { λ templates. templates.contexts.items };
}

impl Templates {
    /// The templates of the entries of these contexts.
    pub(crate) fn read<T: AppTable>(alloc: Global, contexts: &[Context]) -> Result<Self, NoMemory>
        ensures { IfOk result (spec.AreTemplates contexts.now) }
    {
        let mut held = Vec::with_capacity(alloc, contexts.len())?;
        let mut left = contexts;
        while let Some((context, after)) = left.split_first() {
            let templates = ContextTemplates::read::<T>(alloc, context.entries())?;
            held.push(templates)?;
            left = after;
        }
        Ok(Templates { contexts: held })
    }

    /// The template of the entry with these numbers.
    pub(crate) fn of_entry(&self, id: EntryId) -> Option<&EntryTemplate>
        ensures { option_copied result ≡ spec.template_at self.now id }
    {
        let templates = self.contexts.get(id.context)?;
        templates.list().get(id.entry)
    }
}
