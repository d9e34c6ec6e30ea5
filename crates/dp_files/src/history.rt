//! What the lines of a section so far leave for the next one.
ghost use Rattle.std.specs.Prelude.{◌≡◌, [], None, IfOk, OnOk};
ghost use Rattle.std.specs.Option.{option_map};
ghost use Rattle.dp_files.specs.ContextHistory as spec;
ghost use Rattle.dp_files.specs.ContextSteps as steps;

use crate::extension::WrittenExtension;
use dp_conf::{NoMemory, Text};
use indexmap::IndexMap;
use std::alloc::Global;

/// A label of an extension, which is identified by the spelling of its name.
#[derive(PartialEq, Eq, Hash, Drop)]
pub(crate) struct ExtensionLabel {
    spelling: Text,
    label: Text,
}

/// What a line leaves for those after it, in addition to its extension.
#[derive(Clone, Copy)]
pub(crate) enum LineLeaves<'a> {
    /// Not even the extension.
    Nothing,
    /// The extension.
    Names,
    /// The extension, and that the line is a hint.
    Hints,
    /// The extension, the number of the line, and the label that it keeps.
    Counts {
        number: u64,
        label: Option<&'a [u8]>,
    },
}

/// The extension of the last line that has one.
#[derive(Drop)]
pub(crate) enum SectionExtension<'a> {
    /// No line has one.
    Absent,
    /// One whose name is its own spelling. The name is part of its line.
    Spelled(&'a [u8]),
    /// Any other.
    Known(WrittenExtension),
}

/// What the lines of a section so far leave for the next one.
#[derive(Drop)]
pub(crate) struct LineHistory<'a> {
    number: Option<u64>,
    extension: SectionExtension<'a>,
    is_after_hint: bool,
    labels: IndexMap<ExtensionLabel, u64>,
}

impl ExtensionLabel {
    /// The label with this text of the extension with this spelling.
    fn of(alloc: Global, spelling: &[u8], label: &[u8]) -> Result<Self, NoMemory>
        ensures { IfOk result (λ key. key ≡ steps.label_key spelling.now label.now) }
    {
        let spelling = Text::copy_of(alloc, spelling)?;
        let label = Text::copy_of(alloc, label)?;
        Ok(ExtensionLabel { spelling, label })
    }
}

/// Adds a label, if there is one.
fn add_label(
    alloc: Global,
    labels: &mut IndexMap<ExtensionLabel, u64>,
    spelling: &[u8],
    number: u64,
    label: Option<&[u8]>,
) -> Result<(), NoMemory>
    ensures { OnOk result (labels.new.entries
        ≡ steps.with_label labels.old.entries spelling.now number (option_map (λ label. label.now) label.entry)) }
{
    let Some(label) = label else {
        return Ok(());
    };
    let key = ExtensionLabel::of(alloc, spelling, label)?;
    labels.insert(key, number)?;
    Ok(())
}

impl<'a> LineHistory<'a> {
    /// The value before the first line.
    pub(crate) fn new(alloc: Global) -> Self
        ensures { steps.history_in result ≡ spec.history_of [] }
    {
        LineHistory {
            number: None,
            extension: SectionExtension::Absent,
            is_after_hint: false,
            labels: IndexMap::new(alloc),
        }
    }

    /// The last number.
    pub(crate) fn number(&self) -> Option<u64>
        ensures { result ≡ (steps.history_in self.now).number }
    {
        self.number
    }

    /// A copy of the last extension.
    pub(crate) fn extension(&self, alloc: Global) -> Result<Option<WrittenExtension>, NoMemory>
        ensures { IfOk result (λ extension. extension ≡ (steps.history_in self.now).extension) }
    {
        match &self.extension {
            SectionExtension::Absent => Ok(None),
            SectionExtension::Spelled(name) => {
                let extension = WrittenExtension::of_text(alloc, name)?;
                Ok(Some(extension))
            }
            SectionExtension::Known(extension) => {
                let extension = extension.copy()?;
                Ok(Some(extension))
            }
        }
    }

    /// Whether a hint comes after the last number.
    pub(crate) fn is_after_hint(&self) -> bool
        ensures { result ≡ (steps.history_in self.now).is_after_hint }
    {
        self.is_after_hint
    }

    /// The number of the label of the extension with this spelling.
    pub(crate) fn number_of_label(
        &self,
        alloc: Global,
        spelling: &[u8],
        label: &[u8],
    ) -> Result<Option<u64>, NoMemory>
        ensures { IfOk result (λ number. number ≡ (steps.history_in self.now).label spelling.now label.now) }
    {
        let key = ExtensionLabel::of(alloc, spelling, label)?;
        let number = self.labels.get(&key).copied();
        Ok(number)
    }

    /// Adds a hint of the extension.
    fn hint(&mut self, extension: WrittenExtension)
        ensures { steps.history_in self.new ≡ steps.after (steps.history_in self.old) (spec.Hints extension) }
    {
        self.extension = SectionExtension::Known(extension);
        self.is_after_hint = true;
    }

    /// Adds a line of the extension without a number.
    fn name(&mut self, extension: WrittenExtension)
        ensures { steps.history_in self.new ≡ steps.after (steps.history_in self.old) (spec.Names extension) }
    {
        self.extension = SectionExtension::Known(extension);
    }

    /// Adds a line of the extension with a number.
    fn count(
        &mut self,
        alloc: Global,
        extension: WrittenExtension,
        number: u64,
        label: Option<&[u8]>,
    ) -> Result<(), NoMemory>
        ensures { OnOk result (steps.history_in self.new ≡ steps.after (steps.history_in self.old)
            (spec.Counts extension number (option_map (λ label. label.now) label.entry))) }
    {
        add_label(
            alloc,
            &mut self.labels,
            extension.spelling.bytes(),
            number,
            label,
        )?;
        self.number = Some(number);
        self.extension = SectionExtension::Known(extension);
        self.is_after_hint = false;
        Ok(())
    }

    /// Adds a line with a number and without a label. The name of its extension is its own spelling.
    #[inline(always)]
    pub(crate) fn count_spelled(&mut self, name: &'a [u8], number: u64)
        ensures { steps.history_in self.new ≡ steps.after (steps.history_in self.old)
            (spec.Counts (steps.spelled_extension name.now) number None) }
    {
        self.number = Some(number);
        self.extension = SectionExtension::Spelled(name);
        self.is_after_hint = false;
    }

    /// Adds a line of the extension.
    pub(crate) fn add(
        &mut self,
        alloc: Global,
        extension: WrittenExtension,
        leaves: LineLeaves<'_>,
    ) -> Result<(), NoMemory>
        ensures { OnOk result (steps.history_in self.new
            ≡ steps.after (steps.history_in self.old) (steps.said_by extension leaves.entry)) }
    {
        match leaves {
            LineLeaves::Nothing => Ok(()),
            LineLeaves::Names => {
                self.name(extension);
                Ok(())
            }
            LineLeaves::Hints => {
                self.hint(extension);
                Ok(())
            }
            LineLeaves::Counts { number, label } => self.count(alloc, extension, number, label),
        }
    }
}
