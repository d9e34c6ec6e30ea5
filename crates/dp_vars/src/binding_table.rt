//! The names of a store, numbered, each with its values.
ghost use Rattle.std.specs.Prelude.{◌≡◌, None, [], length, nat_eq, fold, take, ◌-◌, OnErr, OnOk};
ghost use Rattle.std.specs.Cmp.Lexicographic.{pointwise};
ghost use Rattle.std.specs.Map.{lookup};
ghost use Rattle.std.specs.Option.{option_map};
ghost use Rattle.dp_vars.specs.steps.Bindings.{with_binding, bound_below, with_innermost_value};
ghost use Rattle.dp_vars.specs.Stores.{slot as slot_of};
ghost use Rattle.dp_vars.specs.steps.Tables.{without_bindings, names_of, stack_of, unbound_at, with_stack};

use crate::binding_stack::BindingStack;
use crate::change::Change;
use crate::frame::NameNumbers;
use dp_conf::{NoMemory, Text};
use std::alloc::Global;
use std::collections::BTreeMap;
use std::marker::Model;

/// A name with its bindings.
#[derive(Drop)]
struct NamedBindings {
    name: Text,
    stack: BindingStack,
}

impl Model for NamedBindings {
    ghost use Rattle.std.specs.Prelude.{ℕ, List};
    ghost use Rattle.dp_vars.specs.declared.binding_stack.Binding.{Binding};

    ghost Value = { List ℕ × List Binding };

    ghost view = { λ entry. (entry.name, entry.stack) };
}

/// Names with their bindings. The number of a name is its place here.
///
/// A map contains the number of each name. It is ordered, so that a look-up takes time logarithmic in the number of
/// names, whatever names a dialplan chooses.
#[derive(Drop)]
pub(crate) struct BindingTable {
    entries: Vec<NamedBindings>,
    numbers: BTreeMap<Vec<u8>, usize>,
}

impl Model for BindingTable {
    ghost use Rattle.dp_vars.specs.steps.Tables.{AreNumbered, Entries, names_of};
    ghost use Rattle.dp_vars.specs.Variables.{by_bytes};

    ghost Value = { Entries };

    ghost view = { λ table. table.entries.items };

    ghost invariant = { λ table. AreNumbered (by_bytes (λ name. name.items) table.numbers.entries) (names_of table.entries.items) };
}

impl BindingTable {
    /// Without names. It never allocates.
    pub(crate) fn new(alloc: Global) -> Self
        ensures { result ≡ [] }
    {
        BindingTable {
            entries: Vec::new(alloc),
            numbers: BTreeMap::new(alloc),
        }
    }

    /// The number of names.
    pub(crate) fn len(&self) -> usize
        ensures { result ≡ length self.now }
    {
        self.entries.len()
    }

    /// The number of a name.
    pub(crate) fn slot(&self, name: &[u8]) -> Option<usize>
        ensures { result ≡ slot_of (names_of self.now) name.now }
    {
        match self.numbers.get(name) {
            Some(number) => Some(*number),
            None => None,
        }
    }

    /// The bindings of a name.
    pub(crate) fn stack(&self, name: &[u8]) -> Option<&BindingStack>
        ensures { option_map (λ stack. stack.now) result ≡ lookup (pointwise nat_eq name.now) self.now }
    {
        let Some(number) = self.slot(name) else {
            return None;
        };
        let entry = &self.entries[number];
        Some(&entry.stack)
    }

    /// Adds a new name with a value at a depth. If memory runs out nothing changes.
    fn add(&mut self, name: &[u8], depth: usize, value: Text) -> Result<(), NoMemory>
        requires { slot_of (names_of self.old) name.now ≡ None }
        ensures ok { OnOk result (self.new ≡ with_stack self.old name.now (with_binding depth value [])) }
        ensures err { OnErr result (self.new ≡ self.old) }
    {
        let alloc = *self.entries.allocator();
        let key = Vec::from_slice(alloc, name)?;
        let name = Text::copy_of(alloc, name)?;
        let stack = BindingStack::of(alloc, depth, value)?;
        self.entries.reserve(1)?;
        self.numbers.insert(key, self.entries.len())?;
        self.entries.push_reserved(NamedBindings { name, stack });
        Ok(())
    }

    /// Binds a value at a depth for the name with this number, or for a new name if it has none yet, replacing the
    /// innermost binding if that is at the depth. If memory runs out nothing changes.
    pub(crate) fn bind(
        &mut self,
        slot: Option<usize>,
        name: &[u8],
        depth: usize,
        value: Text,
    ) -> Result<(), NoMemory>
        requires { slot ≡ slot_of (names_of self.old) name.now }
        ensures ok { OnOk result (self.new ≡ with_stack self.old name.now (with_binding depth value (stack_of self.old name.now))) }
        ensures err { OnErr result (self.new ≡ self.old) }
    {
        let Some(number) = slot else {
            self.add(name, depth, value)?;
            return Ok(());
        };
        let entry = &mut self.entries[number];
        entry.stack.bind(depth, value)?;
        Ok(())
    }

    /// Makes the change, and then changes the value of a name's innermost binding, or binds the value in the channel if
    /// there is none. If memory runs out nothing changes.
    pub(crate) fn rebind_after<T, C: Change<T>>(
        &mut self,
        name: &[u8],
        value: Text,
        change: &C,
        target: &mut T,
    ) -> Result<(), NoMemory>
        ensures ok { OnOk result (self.new ≡ with_stack self.old name.now (with_innermost_value value (stack_of self.old name.now))) }
        ensures changed { OnOk result (target.new ≡ C.after change.now target.old) }
        ensures err { OnErr result (self.new ≡ self.old) }
        ensures unchanged { OnErr result (target.new ≡ target.old) }
    {
        let alloc = *self.entries.allocator();
        let Some(number) = self.slot(name) else {
            self.add(name, 0, value)?;
            if let Err(no_memory) = change.run(alloc, target) {
                self.pop();
                return Err(no_memory);
            }
            return Ok(());
        };
        let entry = &mut self.entries[number];
        entry.stack.rebind_after(alloc, value, change, target)?;
        Ok(())
    }

    /// The same below the innermost binding, if that is at this depth.
    pub(crate) fn bind_below(
        &mut self,
        name: &[u8],
        depth: usize,
        value: Text,
    ) -> Result<(), NoMemory>
        ensures ok { OnOk result (self.new ≡ with_stack self.old name.now (bound_below depth value (stack_of self.old name.now))) }
        ensures err { OnErr result (self.new ≡ self.old) }
    {
        let Some(number) = self.slot(name) else {
            self.add(name, 0, value)?;
            return Ok(());
        };
        let entry = &mut self.entries[number];
        entry.stack.bind_below(depth, value)?;
        Ok(())
    }

    /// Removes all bindings of a name, which keeps its number.
    pub(crate) fn clear(&mut self, name: &[u8])
        ensures { self.new ≡ without_bindings self.old name.now }
    {
        if let Some(number) = self.slot(name) {
            let entry = &mut self.entries[number];
            entry.stack.clear();
        }
    }

    /// Removes the binding at a depth, if it is the innermost one of the name with a number.
    fn unbind(&mut self, depth: usize, number: usize)
        ensures { self.new ≡ unbound_at depth self.old number }
    {
        if number < self.entries.len() {
            let entry = &mut self.entries[number];
            entry.stack.unbind(depth);
        }
    }

    /// The same for each of several numbers.
    pub(crate) fn unbind_all(&mut self, depth: usize, numbers: &NameNumbers)
        ensures { self.new ≡ fold (unbound_at depth) self.old numbers.now }
    {
        for number in numbers.all() {
            self.unbind(depth, *number);
        }
    }

    /// Removes the last name.
    fn pop(&mut self)
        ensures { self.new ≡ take (length self.old - 1) self.old }
    {
        if let Some(entry) = self.entries.pop() {
            let _number = self.numbers.remove(entry.name.bytes());
        }
    }

    /// Keeps only this many names, the first ones. The cost depends only on the removed names.
    pub(crate) fn truncate(&mut self, len: usize)
        ensures { self.new ≡ take len self.old }
    {
        while self.entries.len() > len {
            self.pop();
        }
    }
}

impl Clone for NamedBindings {
    ghost is_clone = { λ entry copy. copy ≡ entry };

    fn clone(&self) -> Result<Self, NoMemory> {
        let name = self.name.clone()?;
        let stack = self.stack.clone()?;
        Ok(NamedBindings { name, stack })
    }
}

impl Clone for BindingTable {
    ghost is_clone = { λ table copy. copy ≡ table };

    fn clone(&self) -> Result<Self, NoMemory> {
        let entries = self.entries.clone()?;
        let numbers = self.numbers.clone()?;
        Ok(BindingTable { entries, numbers })
    }
}
