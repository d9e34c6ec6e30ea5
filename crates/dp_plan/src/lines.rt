//! The result of the lines so far, and the effect of one more line of a context.
ghost use Rattle.std.specs.Prelude.{◌≡◌, OnOk, IfSome};
ghost use Rattle.dp_conf.specs.Answers.{Answers};
ghost use Rattle.dp_plan.specs.Extensions.{extension_of};
ghost use Rattle.dp_plan.specs.Item.{Adds};
ghost use Rattle.dp_plan.specs.Items as items;
ghost use Rattle.dp_plan.specs.steps.ItemFaults.{AtRefusal, item_reason};
ghost use Rattle.dp_plan.specs.steps.Loading as spec;
ghost use Rattle.dp_plan.specs.steps.Open.{IsOpen, history_at};
ghost use Rattle.dp_plan.specs.steps.Table.{HasNumber};

use crate::application::read_shallow;
use crate::draft::{Draft, NumberedEntry};
use crate::entry_line::{LineEntry, read_exten, read_same};
use crate::fault::{ItemFault, PlanKind, Word, fault};
use crate::note::NoteKind;
use crate::plan::GlobalVariable;
use crate::reader::Reader;
use crate::section::{LastExtension, OpenContext, OpenSection};
use dp_conf::{NoMemory, Text, same_word};
use std::alloc::Global;

/// What the lines so far leave for the next ones apart from their section, and the dialplan under construction.
#[derive(Drop)]
pub(crate) struct Lines {
    pub(crate) reader: Reader,
    pub(crate) draft: Draft,
}

/// A key and its value, with the number of their line.
#[derive(Clone, Copy)]
pub(crate) struct Pair<'a> {
    pub(crate) line: usize,
    pub(crate) key: &'a [u8],
    pub(crate) value: &'a [u8],
}

/// The reason why a key of a context is refused, if it is one that this program does not support.
fn refused_key(key: &[u8]) -> Option<PlanKind>
    ensures { result ≡ items.refused_key key.now }
{
    if same_word(key, b"switch") || same_word(key, b"lswitch") || same_word(key, b"eswitch") {
        return Some(PlanKind::LeftOut(Word::Switch));
    }
    if same_word(key, b"ignorepat") {
        return Some(PlanKind::LeftOut(Word::IgnorePat));
    }
    None
}

impl Lines {
    /// Sets the global variable of a pair, unless its key is empty.
    pub(crate) fn set_global(&mut self, alloc: Global, pair: Pair<'_>) -> Result<(), ItemFault>
        ensures read { Answers (λ done. spec.made_in OpenSection.Variables self.new) item_reason result
            (spec.after_read (spec.made_in OpenSection.Variables self.old)
            (items.global_item pair.entry.line pair.entry.key.now pair.entry.value.now)) }
        ensures kept { AtRefusal (spec.made_in OpenSection.Variables self.new ≡ spec.made_in OpenSection.Variables self.old) result }
    {
        if pair.key.is_empty() {
            self.draft.note(pair.line, NoteKind::UnknownKey)?;
            return Ok(());
        }
        let value = read_shallow(alloc, pair.line, pair.value)?;
        let name = Text::copy_of(alloc, pair.key)?;
        self.draft.set_global(GlobalVariable { name, value })?;
        Ok(())
    }

    /// Adds an entry to the open context.
    #[tactic(auto, using(crate::proofs::AdditionLemmas::added_open, crate::proofs::TableLemmas::stands_within, crate::proofs::TableLemmas::number_after_written))]
    #[inline(always)]
    fn add_entry(
        &mut self,
        alloc: Global,
        line: usize,
        context: &mut OpenContext,
        read: LineEntry,
    ) -> Result<(), NoMemory>
        requires opened { IsOpen self.old.draft.names self.old.reader context.old }
        requires number { IfSome read.number (HasNumber self.old.reader (extension_of context.old.name read.entry.name)) }
        ensures added { OnOk result (spec.made_in (OpenSection.Entries context.new) self.new
            ≡ spec.after_item (spec.made_in (OpenSection.Entries context.old) self.old) (Adds line context.old.name read.entry)) }
        ensures opened { IsOpen self.new.draft.names self.new.reader context.new }
    {
        let LineEntry { entry, number } = read;
        context.last = None;
        let name = entry.name.clone()?;
        let number = self
            .reader
            .write(&context.name, &entry.name, number, entry.priority)?;
        context.last = Some(LastExtension { name, number });
        let added = NumberedEntry {
            line,
            number,
            entry,
        };
        self.draft.add_entry(alloc, context.place, added)
    }

    /// Adds the include of a line.
    #[tactic(auto, using(crate::proofs::AdditionLemmas::included_open, crate::proofs::TableLemmas::stands_within))]
    fn take_include(
        &mut self,
        alloc: Global,
        line: usize,
        context: &OpenContext,
        name: &[u8],
    ) -> Result<(), ItemFault>
        requires { IsOpen self.old.draft.names self.old.reader context.now }
        ensures read { Answers (λ done. spec.made_in (OpenSection.Entries context.now) self.new) item_reason result
            (spec.after_read (spec.made_in (OpenSection.Entries context.now) self.old)
            (items.include_item line context.now.name name.now)) }
        ensures kept { AtRefusal (spec.made_in (OpenSection.Entries context.now) self.new
            ≡ spec.made_in (OpenSection.Entries context.now) self.old) result }
        ensures opened { IsOpen self.new.draft.names self.new.reader context.now }
    {
        if name.contains(&b',') {
            return Err(fault(line, PlanKind::LeftOut(Word::IncludeTimes)));
        }
        let name = Text::copy_of(alloc, name)?;
        self.draft.add_include(line, context.place, name)?;
        Ok(())
    }

    /// Takes a line with a key that contexts do not have.
    fn take_other(
        &mut self,
        line: usize,
        context: &OpenContext,
        key: &[u8],
    ) -> Result<(), ItemFault>
        requires { IsOpen self.old.draft.names self.old.reader context.now }
        ensures read { Answers (λ done. spec.made_in (OpenSection.Entries context.now) self.new) item_reason result
            (spec.after_read (spec.made_in (OpenSection.Entries context.now) self.old)
            (items.other_item line (items.refused_key key.now))) }
        ensures kept { AtRefusal (spec.made_in (OpenSection.Entries context.now) self.new
            ≡ spec.made_in (OpenSection.Entries context.now) self.old) result }
        ensures opened { IsOpen self.new.draft.names self.new.reader context.now }
    {
        match refused_key(key) {
            Some(kind) => Err(fault(line, kind)),
            None => {
                self.draft.note(line, NoteKind::UnknownKey)?;
                Ok(())
            }
        }
    }

    /// Takes a pair of the open context.
    #[tactic(auto, unfolding(crate::specs::Items::context_item))]
    #[inline(always)]
    pub(crate) fn take(
        &mut self,
        alloc: Global,
        context: &mut OpenContext,
        pair: Pair<'_>,
    ) -> Result<(), ItemFault>
        requires { IsOpen self.old.draft.names self.old.reader context.old }
        ensures read { Answers (λ done. spec.made_in (OpenSection.Entries context.new) self.new) item_reason result
            (spec.after_read (spec.made_in (OpenSection.Entries context.old) self.old)
            (items.context_item (history_at context.old self.old.reader) context.old.name
            pair.entry.line pair.entry.key.now pair.entry.value.now)) }
        ensures kept { AtRefusal (spec.made_in (OpenSection.Entries context.new) self.new
            ≡ spec.made_in (OpenSection.Entries context.old) self.old) result }
        ensures opened { IsOpen self.new.draft.names self.new.reader context.new }
    {
        let Pair { line, key, value } = pair;
        if same_word(key, b"exten") {
            let read = read_exten(alloc, &mut self.reader, context, line, value)?;
            self.add_entry(alloc, line, context, read)?;
            return Ok(());
        }
        if same_word(key, b"same") {
            let read = read_same(alloc, &mut self.reader, context, line, value)?;
            self.add_entry(alloc, line, context, read)?;
            return Ok(());
        }
        if same_word(key, b"include") {
            return self.take_include(alloc, line, context, value);
        }
        self.take_other(line, context, key)
    }
}
