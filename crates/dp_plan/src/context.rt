//! A context of a dialplan.
ghost use Rattle.std.specs.Prelude.{◌≡◌, [], ◌∷◌, ◌++◌, OnOk};

use crate::entry::Entry;
use crate::shared_text::SharedText;
use dp_conf::{NoMemory, Text};
use std::alloc::Global;
use std::marker::Model;

/// A context: its name, and its entries and includes in file order. A contract sees it as these three.
#[derive(Debug)]
pub struct Context {
    name: SharedText,
    entries: Vec<Entry>,
    includes: Vec<Text>,
}

impl Drop for Context {
    fn drop(self) {
        let Context {
            name: _,
            entries: _,
            includes: _,
        } = self;
    }
}

impl Model for Context {
    ghost use Rattle.dp_plan.specs.Contexts.{PlanContext, AreNamed};

    ghost Value = { PlanContext };

    ghost view = { λ context. record {
      name = context.name;
      entries = context.entries.items;
      includes = context.includes.items;
    } };

    ghost invariant = { λ context. AreNamed context.entries.items };
}

impl Context {
    ghost use Rattle.dp_plan.specs.Contexts.{AreNamed, with_entry, with_include};

    /// A context without entries and includes.
    pub(crate) fn new(alloc: Global, name: SharedText) -> Self
        ensures { result ≡ record { name = name; entries = []; includes = [] } }
    {
        Context {
            name,
            entries: Vec::new(alloc),
            includes: Vec::new(alloc),
        }
    }

    /// The name of the context.
    pub fn name(&self) -> &Text
        ensures { result.now ≡ self.now.name }
    {
        self.name.text()
    }

    /// The entries of the context, in file order.
    pub fn entries(&self) -> &[Entry]
        ensures { result.now ≡ self.now.entries }
    {
        &self.entries
    }

    /// The names of the contexts that the context includes, in file order. A name need not be that of a context, and
    /// may occur twice.
    pub fn includes(&self) -> &[Text]
        ensures { result.now ≡ self.now.includes }
    {
        &self.includes
    }

    /// The name of each entry is the meaning of some text.
    pub(crate) fn entries_are_named(&self)
        ensures { AreNamed self.now.entries }
    {
        let _entries = &self.entries;
    }

    /// Adds an entry at the end.
    pub(crate) fn push(&mut self, entry: Entry) -> Result<(), NoMemory>
        ensures { OnOk result (self.new ≡ with_entry entry self.old) }
    {
        // The parts of a name are the meaning of some text.
        let _parts = entry.name.name().parts();
        self.entries.push(entry)?;
        Ok(())
    }

    /// Adds an include at the end.
    pub(crate) fn push_include(&mut self, name: Text) -> Result<(), NoMemory>
        ensures { OnOk result (self.new ≡ with_include name self.old) }
    {
        self.includes.push(name)?;
        Ok(())
    }
}
