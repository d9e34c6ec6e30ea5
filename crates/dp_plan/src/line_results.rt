//! The result of the lines so far, and what they leave for the next one.
ghost use Rattle.std.specs.Prelude.{◌≡◌, OnOk};
ghost use Rattle.dp_conf.specs.Answers.{Answers};
ghost use Rattle.dp_conf.specs.Borrowed.{line_now};
ghost use Rattle.dp_plan.specs.Item.{Begins};
ghost use Rattle.dp_plan.specs.Items as items;
ghost use Rattle.dp_plan.specs.steps.ItemFaults.{AtRefusal, item_reason};
ghost use Rattle.dp_plan.specs.steps.Loading as spec;
ghost use Rattle.dp_plan.specs.steps.Reader.{history_in};

use crate::draft::Draft;
use crate::fault::ItemFault;
use crate::lines::{Lines, Pair};
use crate::reader::Reader;
use crate::section::{OpenSection, Section};
use dp_conf::{Line, NoMemory};
use std::alloc::Global;
use std::marker::Model;

/// The result of the lines so far, with the open section. Its context is at its place in the draft.
#[derive(Drop)]
pub(crate) struct Made {
    section: OpenSection,
    lines: Lines,
}

impl Model for Made {
    ghost use Rattle.dp_plan.specs.steps.Loading.{MadeOf, made_in};
    ghost use Rattle.dp_plan.specs.steps.Open.{IsOpenSection};

    ghost Value = { MadeOf };

    ghost view = { λ made. made_in made.section made.lines };

    ghost invariant = { λ made. IsOpenSection made.lines.draft.names made.lines.reader made.section };
}

impl Made {
    /// The value before the first line.
    pub(crate) fn new(alloc: Global) -> Self
        ensures { result ≡ spec.nothing_made }
    {
        Made {
            section: OpenSection::Settings,
            lines: Lines {
                reader: Reader::new(alloc),
                draft: Draft::new(alloc),
            },
        }
    }

    /// The dialplan under construction.
    pub(crate) fn into_draft(self) -> Draft
        ensures { result ≡ self.draft }
    {
        let Made { section: _, lines } = self;
        lines.draft
    }

    /// Begins the section with this name.
    fn begin(&mut self, alloc: Global, name: &[u8]) -> Result<(), NoMemory>
        ensures { OnOk result (self.new ≡ spec.after_item self.old (Begins (items.section_named name.now))) }
    {
        let section = Section::of_name(alloc, name)?;
        let opened = self.lines.draft.begin(alloc, section)?;
        self.section = opened;
        Ok(())
    }

    /// Takes a pair of the section.
    #[inline(always)]
    fn take_pair(&mut self, alloc: Global, pair: Pair<'_>) -> Result<(), ItemFault>
        ensures taken { Answers (λ done. self.new) item_reason result (spec.after_items self.old
            (items.pair_item (history_in self.old.reading) self.old.reading.section
            pair.entry.line pair.entry.key.now pair.entry.value.now)) }
        ensures kept { AtRefusal (self.new ≡ self.old) result }
    {
        match &mut self.section {
            OpenSection::Settings => Ok(()),
            OpenSection::Variables => self.lines.set_global(alloc, pair),
            OpenSection::Entries(context) => self.lines.take(alloc, context, pair),
        }
    }

    /// Takes a line. A refused line changes nothing.
    pub(crate) fn take(&mut self, alloc: Global, line: Line<'_>) -> Result<(), ItemFault>
        ensures taken { Answers (λ done. self.new) item_reason result (spec.after_line self.old (line_now line.entry)) }
        ensures kept { AtRefusal (self.new ≡ self.old) result }
    {
        match line {
            Line::Header { line: _, name } => {
                self.begin(alloc, name)?;
                Ok(())
            }
            Line::Pair { line, key, value } => self.take_pair(alloc, Pair { line, key, value }),
        }
    }
}
