//! What the lines so far leave for the next ones.
ghost use Rattle.std.specs.Prelude.{◌≡◌, ◌<◌, [], length, IfOk, IfSome, OnOk};
ghost use Rattle.dp_plan.specs.Extensions.{extension_of};
ghost use Rattle.dp_plan.specs.steps.Open.{IsLast};
ghost use Rattle.dp_plan.specs.steps.Reader as spec;
ghost use Rattle.dp_plan.specs.steps.Table.{HasNumber, number_in, priority_at};
ghost use Rattle.indexmap.specs.IndexMap.{set_value_at};

use crate::context_name::ContextName;
use crate::extension::Extension;
use crate::known_applications::KnownApplications;
use crate::numbers::short_number;
use crate::priority::Priority;
use crate::section::OpenContext;
use crate::shared_name::SharedName;
use crate::shared_text::SharedText;
use dp_conf::NoMemory;
use indexmap::IndexMap;
use std::alloc::Global;
use std::marker::Model;

/// Each extension with its last priority, in the order of first appearance, in which they are numbered. It also has the names of
/// applications in the lines so far, which a contract does not see.
#[derive(Drop)]
pub(crate) struct Reader {
    extensions: IndexMap<Extension, Priority>,
    applications: KnownApplications,
}

impl Model for Reader {
    ghost use Rattle.dp_plan.specs.steps.Table.{Table};

    ghost Value = { Table };

    ghost view = { λ reader. reader.extensions.entries };
}

impl Reader {
    /// The value before the first line.
    pub(crate) fn new(alloc: Global) -> Self
        ensures { result ≡ [] }
    {
        Reader {
            extensions: IndexMap::new(alloc),
            applications: KnownApplications::new(alloc),
        }
    }

    /// The number of the extension with the name in the context, if it has one, by a search of the table.
    pub(crate) fn find(
        &self,
        context: &ContextName,
        name: &SharedName,
    ) -> Result<Option<u32>, NoMemory>
        ensures number { IfOk result (λ number. IfSome number (HasNumber self.now (extension_of context.now name.now))) }
        ensures last { IfOk result (λ number. priority_at self.now number ≡ spec.last_priority self.now context.now name.now) }
    {
        let extension = Extension::of(context, name)?;
        match self.extensions.get_index_of(&extension) {
            Some(number) => {
                let number = short_number(number)?;
                Ok(Some(number))
            }
            None => Ok(None),
        }
    }

    /// The number of the extension with the name, if that is the last one of the context. It does not search the table.
    #[tactic(auto, using(crate::proofs::TableLemmas::number_same))]
    #[inline(always)]
    pub(crate) fn number_of(&self, context: &OpenContext, name: &SharedName) -> Option<u32>
        requires { IsLast self.now context.now }
        ensures { IfSome result (HasNumber self.now (extension_of context.now.name name.now)) }
    {
        match &context.last {
            Some(last) if last.name.spelling() == name.spelling() => Some(last.number),
            _ => None,
        }
    }

    /// The last priority of the extension with the number, even if its line is dropped.
    pub(crate) fn priority(&self, number: Option<u32>) -> Option<Priority>
        ensures { result ≡ priority_at self.now number }
    {
        let number = number?;
        let (_, priority) = self.extensions.get_index(number as usize)?;
        Some(*priority)
    }

    /// The name of an application, which is shared with the lines that write it the same way.
    pub(crate) fn application(&mut self, alloc: Global, name: &[u8]) -> Result<SharedText, NoMemory>
        ensures ok { IfOk result (λ application. application ≡ name.now) }
        ensures same { self.new ≡ self.old }
    {
        self.applications.share(alloc, name)
    }

    /// Sets the last priority of the extension with the number.
    #[inline(always)]
    fn rewrite(&mut self, number: u32, priority: Priority)
        requires { number < length self.old }
        ensures { self.new ≡ set_value_at self.old number priority }
    {
        if let Some(written) = self.extensions.get_index_mut(number as usize) {
            *written = priority;
        }
    }

    /// Sets the last priority of the extension with the name in the context, by a search of the table, and returns the number of the
    /// extension.
    #[inline(always)]
    fn insert(
        &mut self,
        context: &ContextName,
        name: &SharedName,
        priority: Priority,
    ) -> Result<u32, NoMemory>
        ensures written { OnOk result (self.new ≡ spec.with_priority self.old context.now name.now priority) }
        ensures number { IfOk result (λ number. number ≡ number_in self.old (extension_of context.now name.now)) }
    {
        let extension = Extension::of(context, name)?;
        let (number, _) = self.extensions.insert_full(extension, priority)?;
        short_number(number)
    }

    /// Sets the last priority of the extension with the name in the context, and returns the number of the extension, which may be known.
    #[tactic(auto, using(crate::proofs::TableLemmas::number_within, crate::proofs::TableLemmas::written_at))]
    #[inline(always)]
    pub(crate) fn write(
        &mut self,
        context: &ContextName,
        name: &SharedName,
        number: Option<u32>,
        priority: Priority,
    ) -> Result<u32, NoMemory>
        requires { IfSome number (HasNumber self.old (extension_of context.now name.now)) }
        ensures written { OnOk result (self.new ≡ spec.with_priority self.old context.now name.now priority) }
        ensures number { IfOk result (λ number. number ≡ number_in self.old (extension_of context.now name.now)) }
    {
        match number {
            Some(number) => {
                self.rewrite(number, priority);
                Ok(number)
            }
            None => self.insert(context, name, priority),
        }
    }
}
