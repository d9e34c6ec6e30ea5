//! One name that is set.
ghost use Rattle.std.specs.Prelude.{◌≡◌, OnErr, OnOk};
ghost use Rattle.dp_app.specs.Cells.{KeepsLoans, cell_now};
ghost use Rattle.dp_vars.specs.Functions.{target_seen};
ghost use Rattle.dp_wide.specs.Settings as spec;
ghost use Rattle.dp_wide.specs.Settings.{settable_of, with_settable};
ghost use Rattle.dp_wide.specs.Effects.{effect_seen};
ghost use Rattle.dp_wide.specs.steps.Callers.{caller_seen};

use crate::deleting::empty_key;
use crate::settings::callers::{CallerText, caller_of};
use crate::settings::effects::{Effect, bare_name, effect_of};
use dp_app::Cell;
use dp_conf::{NoMemory, Text};
use dp_vars::{Change, SetTarget};
use std::alloc::Global;

/// A new text in place of another.
#[derive(Drop)]
struct NewText<'a> {
    bytes: &'a [u8],
}

impl Change<Text> for NewText<'_> {
    ghost after = { λ change text. change.bytes.now };

    fn run(&self, alloc: Global, text: &mut Text) -> Result<(), NoMemory> {
        *text = Text::copy_of(alloc, self.bytes)?;
        Ok(())
    }
}

/// Sets the name and the number of the caller. If memory runs out the cell is as before.
fn set_caller(alloc: Global, cell: &mut Cell, caller: CallerText<'_>) -> Result<(), NoMemory>
    ensures ok { OnOk result (cell_now cell.new ≡ with_settable (cell_now cell.old)
        (spec.with_caller (settable_of (cell_now cell.old)) (caller_seen caller.entry))) }
    ensures err { OnErr result (cell_now cell.new ≡ cell_now cell.old) }
    ensures loans { KeepsLoans cell.old cell.new }
{
    let number = NewText {
        bytes: caller.number,
    };
    cell.store.set_after(alloc, b"CALLERID(name)", caller.name, &number, cell.caller)
}

/// Sets one thing. If memory runs out the cell is as before.
fn set_target(
    alloc: Global,
    cell: &mut Cell,
    target: SetTarget<'_>,
    value: &[u8],
) -> Result<(), NoMemory>
    ensures ok { OnOk result (cell_now cell.new ≡ with_settable (cell_now cell.old)
        (spec.with_target (settable_of (cell_now cell.old)) (target_seen target.entry) value.now)) }
    ensures err { OnErr result (cell_now cell.new ≡ cell_now cell.old) }
    ensures loans { KeepsLoans cell.old cell.new }
{
    match target {
        SetTarget::Variable(name) => cell.store.set(alloc, name, value)?,
        SetTarget::Global(name) => cell.globals.put(alloc, name, value)?,
        SetTarget::Local(name) => {
            let _has_frame = cell.store.set_local(alloc, name, value)?;
        }
        SetTarget::Caller => *cell.caller = Text::copy_of(alloc, value)?,
        SetTarget::Nothing => {}
    }
    Ok(())
}

/// Sets a name, given what it sets, with each of a list of names taken as a plain cell. If memory runs out the cell is as before.
pub(super) fn set_effect(
    alloc: Global,
    cell: &mut Cell,
    name: &[u8],
    effect: Effect<'_>,
    value: &[u8],
) -> Result<(), NoMemory>
    ensures ok { OnOk result (cell_now cell.new ≡ with_settable (cell_now cell.old)
        (spec.with_effect (settable_of (cell_now cell.old)) name.now (effect_seen effect.entry) value.now)) }
    ensures err { OnErr result (cell_now cell.new ≡ cell_now cell.old) }
    ensures loans { KeepsLoans cell.old cell.new }
{
    match effect {
        Effect::OneTarget(target) => set_target(alloc, cell, target, value),
        Effect::NameAndNumber => set_caller(alloc, cell, caller_of(value)),
        Effect::EmptyKey(key) => empty_key(alloc, cell.globals, key),
        Effect::EachName(_) => set_target(alloc, cell, SetTarget::Variable(name), value),
    }
}

/// Sets one of a list of names. If memory runs out the cell is as before.
pub(super) fn set_one(
    alloc: Global,
    cell: &mut Cell,
    name: &[u8],
    value: &[u8],
) -> Result<(), NoMemory>
    ensures ok { OnOk result (cell_now cell.new ≡ with_settable (cell_now cell.old)
        (spec.with_one (settable_of (cell_now cell.old)) name.now value.now)) }
    ensures err { OnErr result (cell_now cell.new ≡ cell_now cell.old) }
    ensures loans { KeepsLoans cell.old cell.new }
{
    let name = bare_name(name);
    set_effect(alloc, cell, name, effect_of(name), value)
}
