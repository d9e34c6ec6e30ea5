//! The values of one name, in the channel and in its frames.
ghost use Rattle.std.specs.Prelude.{◌≡◌, ◌+◌, ◌<◌, ◌≤◌, [], OnErr, OnOk, IfOk, reverse, if◌then◌else◌, slice_get, vec_len, vec_capacity};
ghost use Rattle.std.specs.Option.{option_map};
ghost use Rattle.dp_vars.specs.steps.Bindings.{binding, with_binding, bound_below, innermost_value, is_at, with_innermost_value, without_binding_at};

use crate::change::Change;
use dp_conf::{NoMemory, Text};
use std::alloc::Global;
use std::marker::Model;

/// A value, and the depth at which it is bound: 0 is the channel, and k + 1 is the frame at place k.
#[derive(Drop)]
pub(crate) struct Binding {
    pub(crate) depth: usize,
    pub(crate) value: Text,
}

/// The bindings of a name, the innermost first.
#[derive(Drop)]
pub(crate) struct BindingStack {
    bindings: Vec<Binding>,
}

impl Model for BindingStack {
    ghost use Rattle.std.specs.Prelude.{List, reverse};
    ghost use Rattle.dp_vars.specs.declared.binding_stack.Binding.{Binding};

    ghost Value = { List Binding };

    ghost view = { λ stack. reverse stack.bindings.items };
}

/// Changes the value of the last binding.
fn change_last(bindings: &mut Vec<Binding>, value: Text)
    requires { 0 < vec_len bindings.old }
    ensures value { reverse bindings.new.items ≡ with_innermost_value value (reverse bindings.old.items) }
    ensures len { vec_len bindings.new ≡ vec_len bindings.old }
    ensures capacity { vec_capacity bindings.old ≤ vec_capacity bindings.new }
{
    if let Some(last) = bindings.pop() {
        let depth = last.depth;
        bindings.push(Binding { depth, value }).unwrap();
    }
}

/// Changes the value of the last binding, or binds the value in the channel if there is none.
fn rebind_last(bindings: &mut Vec<Binding>, value: Text)
    requires { vec_len bindings.old ≡ 0 → 0 < vec_capacity bindings.old }
    ensures value { reverse bindings.new.items ≡ with_innermost_value value (reverse bindings.old.items) }
    ensures len { vec_len bindings.new ≤ vec_len bindings.old + 1 }
    ensures capacity { vec_capacity bindings.old ≤ vec_capacity bindings.new }
{
    if bindings.is_empty() {
        bindings.push(Binding { depth: 0, value }).unwrap();
    } else {
        change_last(bindings, value);
    }
}

impl BindingStack {
    /// A single value, bound at a depth.
    pub(crate) fn of(alloc: Global, depth: usize, value: Text) -> Result<Self, NoMemory>
        ensures { IfOk result (λ stack. stack ≡ with_binding depth value []) }
    {
        let mut bindings = Vec::new(alloc);
        bindings.push(Binding { depth, value })?;
        Ok(BindingStack { bindings })
    }

    /// The innermost binding.
    pub(crate) fn innermost(&self) -> Option<&Binding>
        ensures { option_map (λ binding. binding.now) result ≡ slice_get self.now 0 }
    {
        self.bindings.last()
    }

    /// Whether the innermost binding is at a depth.
    fn is_at(&self, depth: usize) -> bool
        ensures { result ≡ is_at depth self.now }
    {
        match self.innermost() {
            Some(binding) => binding.depth == depth,
            None => false,
        }
    }

    /// The value of the innermost binding.
    pub(crate) fn value(&self) -> Option<&[u8]>
        ensures { option_map (λ value. value.now) result ≡ innermost_value self.now }
    {
        match self.innermost() {
            Some(binding) => Some(binding.value.bytes()),
            None => None,
        }
    }

    /// The value of the innermost binding, if that is at a depth.
    pub(crate) fn value_at(&self, depth: usize) -> Option<&[u8]>
        ensures { option_map (λ value. value.now) result ≡ (if is_at depth self.now then innermost_value self.now else None) }
    {
        if self.is_at(depth) {
            self.value()
        } else {
            None
        }
    }

    /// Removes all bindings.
    pub(crate) fn clear(&mut self)
        ensures { self.new ≡ [] }
    {
        self.bindings.clear();
    }

    /// Binds a value at a depth, replacing the innermost binding if that is at the depth. If memory runs out nothing changes.
    pub(crate) fn bind(&mut self, depth: usize, value: Text) -> Result<(), NoMemory>
        ensures ok { OnOk result (self.new ≡ with_binding depth value self.old) }
        ensures err { OnErr result (self.new ≡ self.old) }
    {
        if self.is_at(depth) {
            change_last(&mut self.bindings, value);
            return Ok(());
        }
        self.bindings.push(Binding { depth, value })?;
        Ok(())
    }

    /// Makes the change, and then changes the value of the innermost binding, or binds the value in the channel if there is none. If memory
    /// runs out nothing changes.
    pub(crate) fn rebind_after<T, C: Change<T>>(
        &mut self,
        alloc: Global,
        value: Text,
        change: &C,
        target: &mut T,
    ) -> Result<(), NoMemory>
        ensures ok { OnOk result (self.new ≡ with_innermost_value value self.old) }
        ensures changed { OnOk result (target.new ≡ C.after change.now target.old) }
        ensures err { OnErr result (self.new ≡ self.old) }
        ensures unchanged { OnErr result (target.new ≡ target.old) }
    {
        if self.bindings.is_empty() {
            self.bindings.reserve(1)?;
        }
        change.run(alloc, target)?;
        rebind_last(&mut self.bindings, value);
        Ok(())
    }

    /// Changes the value of the innermost binding that is not at the depth, or binds the value in the channel if there is none. If memory
    /// runs out nothing changes.
    pub(crate) fn bind_below(&mut self, depth: usize, value: Text) -> Result<(), NoMemory>
        ensures ok { OnOk result (self.new ≡ bound_below depth value self.old) }
        ensures err { OnErr result (self.new ≡ self.old) }
    {
        let is_covered = self.is_at(depth);
        self.bindings.reserve(1)?;
        if !is_covered {
            rebind_last(&mut self.bindings, value);
            return Ok(());
        }
        if let Some(covering) = self.bindings.pop() {
            rebind_last(&mut self.bindings, value);
            self.bindings.push(covering).unwrap();
        }
        Ok(())
    }

    /// Removes the innermost binding, if it is at that depth.
    pub(crate) fn unbind(&mut self, depth: usize)
        ensures { self.new ≡ without_binding_at depth self.old }
    {
        if self.is_at(depth) {
            let _binding = self.bindings.pop();
        }
    }
}

impl Clone for Binding {
    ghost is_clone = { λ binding copy. copy ≡ binding };

    fn clone(&self) -> Result<Self, NoMemory> {
        let value = self.value.clone()?;
        Ok(Binding {
            depth: self.depth,
            value,
        })
    }
}

impl Clone for BindingStack {
    ghost is_clone = { λ stack copy. copy ≡ stack };

    fn clone(&self) -> Result<Self, NoMemory> {
        let bindings = self.bindings.clone()?;
        Ok(BindingStack { bindings })
    }
}
