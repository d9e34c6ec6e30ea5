//! The variables of a channel, and its frames, after the Asterisk documentation's page on variables.
ghost use Rattle.std.specs.Prelude.{◌≡◌, ◌<◌, List, IfOk, OnErr, OnOk, [], nat_lt, length, take};
ghost use Rattle.std.specs.Option.{option_map};
ghost use Rattle.dp_vars.specs.Stores as stores;
ghost use Rattle.dp_vars.specs.Stores.{StoreOf};
ghost use Rattle.dp_vars.specs.steps.Tables.{HasNamed};

use crate::binding_table::BindingTable;
use crate::change::{Change, Nothing};
use crate::frame::{self, HeldFrame, NameNumbers};
use crate::local::Local;
use dp_conf::{NoMemory, Text};
use std::alloc::Global;
use std::marker::Model;

/// The variables of a channel, and the frames above them, each with the place to which it returns and with locals.
///
/// A contract sees the variables as a finite map, the frames as a list with the innermost last, and the names that the
/// store was given in the order of their numbers. Names are case sensitive. If memory runs out a call changes nothing.
/// A read and a `set` look at no frame, however many there are.
pub struct Store<B> {
    table: BindingTable,
    frames: Vec<HeldFrame<B>>,
}

impl<B: Drop> Drop for Store<B> {
    #[inline(always)]
    fn drop(self) {
        let Store {
            table: _,
            frames: _,
        } = self;
    }
}

impl<B> Model for Store<B> {
    ghost use Rattle.std.specs.Coded.{codes};
    ghost use Rattle.dp_vars.specs.Stores.{StoreOf};
    ghost use Rattle.dp_vars.specs.steps.Tables.{IsBound, store_of};
    ghost use Rattle.dp_vars.specs.Variables.{named_code};

    ghost Value = { StoreOf B };

    ghost coded = { Prim.hlevel (codes, named_code) };

    ghost view = { λ store. store_of store.table store.frames.items };

    ghost invariant = { λ store. IsBound store.table store.frames.items };
}

impl<B> Store<B> {
    /// Without variables and frames. It never allocates.
    pub fn new(alloc: Global) -> Self
        ensures { result ≡ stores.nothing }
    {
        Store {
            table: BindingTable::new(alloc),
            frames: Vec::new(alloc),
        }
    }

    /// The value of a name: the local of the innermost frame that has one with the name, else the channel's variable.
    pub fn get(&self, name: &[u8]) -> Option<&[u8]>
        ensures { option_map (λ value. value.now) result ≡ stores.value_in self.now name.now }
    {
        match self.table.stack(name) {
            Some(stack) => stack.value(),
            None => None,
        }
    }

    /// The value of a local of the innermost frame, and of no other.
    pub(crate) fn local(&self, name: &[u8]) -> Option<&[u8]>
        ensures { option_map (λ value. value.now) result ≡ stores.local_in self.now name.now }
    {
        if self.frames.is_empty() {
            return None;
        }
        match self.table.stack(name) {
            Some(stack) => stack.value_at(self.frames.len()),
            None => None,
        }
    }

    /// The number of a name, which is the number of other names that the store was given before it, to be set or as a
    /// local of a frame; None for a name that it was never given. It never allocates, and a name keeps its number.
    pub fn slot(&self, name: &[u8]) -> Option<usize>
        ensures { result ≡ stores.slot self.now.names name.now }
    {
        self.table.slot(name)
    }

    /// Sets a name: the local of the innermost frame that has one with the name, else the channel's variable (a choice
    /// of this program). If memory runs out nothing changes.
    pub fn set(&mut self, alloc: Global, name: &[u8], value: &[u8]) -> Result<(), NoMemory>
        ensures ok { OnOk result (self.new ≡ stores.set self.old name.now value.now) }
        ensures err { OnErr result (self.new ≡ self.old) }
    {
        self.set_after(alloc, name, value, &Nothing, &mut ())
    }

    /// Changes a target and then sets a name, as `set` does. All memory for setting the name is allocated before the
    /// change: if memory runs out, even during the change, the store and the target are as before.
    pub fn set_after<T, C: Change<T>>(
        &mut self,
        alloc: Global,
        name: &[u8],
        value: &[u8],
        change: &C,
        target: &mut T,
    ) -> Result<(), NoMemory>
        ensures ok { OnOk result (self.new ≡ stores.set self.old name.now value.now) }
        ensures changed { OnOk result (target.new ≡ C.after change.now target.old) }
        ensures err { OnErr result (self.new ≡ self.old) }
        ensures unchanged { OnErr result (target.new ≡ target.old) }
    {
        let value = Text::copy_of(alloc, value)?;
        self.table.rebind_after(name, value, change, target)?;
        Ok(())
    }

    /// Removes the value of a name, both that of the channel and those of locals of all frames. It never allocates, and
    /// the name keeps its number.
    pub fn unset(&mut self, name: &[u8])
        ensures { self.new ≡ stores.unset self.old name.now }
    {
        self.table.clear(name);
    }

    /// Sets a local of the innermost frame to an owned value.
    #[inline(always)]
    fn hold_local(&mut self, name: &[u8], value: Text) -> Result<(), NoMemory>
        requires { 0 < length self.old.frames }
        ensures ok { OnOk result (self.new ≡ stores.set_local self.old name.now value) }
        ensures err { OnErr result (self.new ≡ self.old) }
    {
        let slot = self.table.slot(name);
        let number = slot.unwrap_or(self.table.len());
        frame::note(&mut self.frames, number)?;
        let depth = self.frames.len();
        self.table.bind(slot, name, depth, value)?;
        Ok(())
    }

    /// Sets a local of the innermost frame. Without a frame it changes nothing and returns false. If memory runs out
    /// nothing changes.
    pub fn set_local(&mut self, alloc: Global, name: &[u8], value: &[u8]) -> Result<bool, NoMemory>
        ensures ok { OnOk result (self.new ≡ stores.set_local self.old name.now value.now) }
        ensures done { IfOk result (λ done. done ≡ nat_lt 0 (length self.old.frames)) }
        ensures err { OnErr result (self.new ≡ self.old) }
    {
        if self.frames.is_empty() {
            return Ok(false);
        }
        let value = Text::copy_of(alloc, value)?;
        self.hold_local(name, value)?;
        Ok(true)
    }

    /// Sets locals of the innermost frame to owned values, one after another. If memory runs out some of them are set.
    fn hold_locals(&mut self, locals: Vec<Local>) -> Result<(), NoMemory>
        requires { 0 < length self.old.frames }
        ensures ok { (store : StoreOf B) (back : B) → self.old ≡ stores.with_frame store back []
            → OnOk result (self.new ≡ stores.with_frame store back locals.items) }
        ensures err { (store : StoreOf B) (back : B) → self.old ≡ stores.with_frame store back []
            → OnErr result ((held : List Local) × (self.new ≡ stores.with_frame store back held)) }
    {
        for local in locals {
            let Local { name, value } = local;
            self.hold_local(name.bytes(), value)?;
        }
        Ok(())
    }

    /// Forgets the names after the first ones, if no map contains one of them.
    fn forget(&mut self, known: usize)
        ensures { (before : StoreOf B) → HasNamed before → self.old ≡ record before { names = self.old.names }
            → take known self.old.names ≡ before.names → self.new ≡ before }
    {
        self.table.truncate(known);
    }

    /// Adds an innermost frame with these locals, whose values it owns. Of two values with one name the later one
    /// counts. If memory runs out nothing changes.
    pub fn push_frame(&mut self, alloc: Global, back: B, locals: Vec<Local>) -> Result<(), NoMemory>
    where
        B: Drop,
        ensures ok { OnOk result (self.new ≡ stores.with_frame self.old back locals.items) }
        ensures err { OnErr result (self.new ≡ self.old) }
    {
        let known = self.table.len();
        let numbers = NameNumbers::new(alloc);
        self.frames.push(HeldFrame { back, numbers })?;
        let held = self.hold_locals(locals);
        if held.is_err() {
            let _back = self.pop_frame();
            self.forget(known);
            return Err(NoMemory);
        }
        Ok(())
    }

    /// Drops the innermost frame, and gives the place to which it returns, or None if there is no frame.
    pub fn pop_frame(&mut self) -> Option<B>
        ensures back { result ≡ option_map (λ frame. frame.back) (stores.innermost self.old.frames) }
        ensures left { self.new ≡ stores.without_frame self.old }
    {
        let depth = self.frames.len();
        let frame = self.frames.pop()?;
        let HeldFrame { back, numbers } = frame;
        self.table.unbind_all(depth, &numbers);
        Some(back)
    }

    /// Drops the innermost frame and then sets a name, as `pop_frame` and then `set` do, and gives the place to which
    /// the frame returns; None without a frame, and then nothing changes. If memory runs out nothing changes.
    pub fn pop_frame_setting(
        &mut self,
        alloc: Global,
        name: &[u8],
        value: &[u8],
    ) -> Result<Option<B>, NoMemory>
        ensures ok { IfOk result (λ back. stores.popped_setting self.old name.now value.now (stores.innermost self.old.frames) ≡ (self.new, back)) }
        ensures err { OnErr result (self.new ≡ self.old) }
    {
        if self.frames.is_empty() {
            return Ok(None);
        }
        let value = Text::copy_of(alloc, value)?;
        self.table.bind_below(name, self.frames.len(), value)?;
        Ok(self.pop_frame())
    }
}

impl<B: Drop> Store<B> {
    /// Drops all frames with their locals.
    pub fn drop_frames(&mut self)
        ensures { self.new ≡ record self.old { frames = [] } }
    {
        while self.pop_frame().is_some() {}
        self.frames.shrink_to_fit();
    }
}

impl<B: Clone> Clone for Store<B> {
    // A copy of a store equals that store, if a copy of a place to return to equals that place.
    ghost is_clone = { λ store copy. ((back same : B) → B.is_clone back same → same ≡ back) → copy ≡ store };

    fn clone(&self) -> Result<Self, NoMemory> {
        let table = self.table.clone()?;
        let frames = self.frames.clone()?;
        Ok(Store { table, frames })
    }
}
