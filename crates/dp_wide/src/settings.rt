//! The applications that set variables, after the Asterisk documentation's pages on `Set` and `MSet`, and the effect of setting a name from
//! outside.
mod callers;
mod effects;
mod one;
mod together;

ghost use Rattle.std.specs.Prelude.{◌≡◌, OnErr, OnOk, fold};
ghost use Rattle.dp_app.specs.Cells.{KeepsLoans, cell_now};
ghost use Rattle.dp_conf.specs.Levels.{arguments_of, parts_of};
ghost use Rattle.dp_wide.specs.Settings as spec;
ghost use Rattle.dp_wide.specs.Settings.{settable_of, with_settable};
ghost use Rattle.dp_wide.specs.steps.PartsLeft.{parts_left};

use crate::settings::one::{set_effect, set_one};
use crate::settings::together::{Assignments, set_together};
use dp_app::{Application, Cell, Move, Touch};
use dp_conf::{NoMemory, cut_once, first_argument, trim};
pub(crate) use effects::does_more;
pub use effects::{Effect, bare_name, effect_of, outside_sets_what_set_sets, setting_target};
use std::alloc::Global;

/// The first of a list of values, and the values after it; empty if there is none.
fn first_value(values: Option<&[u8]>) -> (&[u8], Option<&[u8]>)
    ensures value { result.0.now ≡ spec.first_value (parts_left values.entry) }
    ensures later { parts_left result.1 ≡ spec.later_values (parts_left values.entry) }
{
    match values {
        None => (b"", None),
        Some(left) => first_argument(left),
    }
}

/// Sets each of a list of names to its value. If memory runs out some of them are set.
fn set_names(alloc: Global, cell: &mut Cell, names: &[u8], values: &[u8]) -> Result<(), NoMemory>
    ensures ok { OnOk result (cell_now cell.new ≡ with_settable (cell_now cell.old)
        (spec.with_each (settable_of (cell_now cell.old)) (parts_of names.now) (parts_of values.now))) }
    ensures err { OnErr result (cell.new.queues.now ≡ cell.old.queues.now) }
    ensures loans { KeepsLoans cell.old cell.new }
{
    let mut rest = Some(names);
    let mut values = Some(values);
    while let Some(left) = rest {
        let (name, after) = first_argument(left);
        let (value, later) = first_value(values);
        set_one(alloc, cell, name, value)?;
        rest = after;
        values = later;
    }
    Ok(())
}

/// Names and their values, both separated by commas.
#[derive(Drop)]
struct NamedValues<'a> {
    names: &'a [u8],
    values: &'a [u8],
}

impl Assignments for NamedValues<'_> {
    ghost after = { λ named settable. spec.with_each settable (parts_of named.names.now) (parts_of named.values.now) };

    fn run(&self, alloc: Global, cell: &mut Cell) -> Result<(), NoMemory> {
        set_names(alloc, cell, self.names, self.values)
    }
}

/// Sets a name. If memory runs out the cell is as before.
fn set_name(alloc: Global, cell: &mut Cell, name: &[u8], value: &[u8]) -> Result<(), NoMemory>
    ensures ok { OnOk result (cell_now cell.new ≡ with_settable (cell_now cell.old)
        (spec.with_value (settable_of (cell_now cell.old)) name.now value.now)) }
    ensures err { OnErr result (cell_now cell.new ≡ cell_now cell.old) }
    ensures loans { KeepsLoans cell.old cell.new }
{
    let name = bare_name(name);
    match effect_of(name) {
        Effect::EachName(names) => set_together(
            alloc,
            cell,
            &NamedValues {
                names,
                values: value,
            },
        ),
        effect => set_effect(alloc, cell, name, effect, value),
    }
}

/// Makes the setting of a text, `NAME=value`. If memory runs out the cell is as before.
fn set_text(alloc: Global, cell: &mut Cell, text: &[u8]) -> Result<(), NoMemory>
    ensures ok { OnOk result (cell_now cell.new ≡ with_settable (cell_now cell.old)
        (spec.with_text (settable_of (cell_now cell.old)) text.now)) }
    ensures err { OnErr result (cell_now cell.new ≡ cell_now cell.old) }
    ensures loans { KeepsLoans cell.old cell.new }
{
    match cut_once(text, b'=') {
        None => Ok(()),
        Some((name, value)) => set_name(alloc, cell, name, value),
    }
}

/// Makes the settings of a list of texts. If memory runs out some of them are made.
fn set_texts(alloc: Global, cell: &mut Cell, texts: &[u8]) -> Result<(), NoMemory>
    ensures ok { OnOk result (cell_now cell.new ≡ with_settable (cell_now cell.old)
        (fold spec.with_text (settable_of (cell_now cell.old)) (arguments_of texts.now))) }
    ensures err { OnErr result (cell.new.queues.now ≡ cell.old.queues.now) }
    ensures loans { KeepsLoans cell.old cell.new }
{
    let mut rest = Some(texts);
    while let Some(left) = rest {
        let (text, after) = first_argument(left);
        set_text(alloc, cell, trim(text))?;
        rest = after;
    }
    Ok(())
}

/// The texts of settings, separated by commas.
#[derive(Drop)]
struct SettingTexts<'a> {
    texts: &'a [u8],
}

impl Assignments for SettingTexts<'_> {
    ghost after = { λ settings settable. fold spec.with_text settable (arguments_of settings.texts.now) };

    fn run(&self, alloc: Global, cell: &mut Cell) -> Result<(), NoMemory> {
        set_texts(alloc, cell, self.texts)
    }
}

/// `Set(NAME=value)`: the name, without its blanks and without up to two marks `_`, has the value from now on, unchanged. It is written to
/// the local of the innermost frame that has one of that name, else to the channel's variable.
///
/// `GLOBAL(name)`, `LOCAL(name)` and `CALLERID(num)`, which is also `CALLERID(number)`, write a global, a local of the innermost frame, and
/// the caller's number. `CALLERID(all)` writes the number and the cell `CALLERID(name)` from `"NAME" <NUMBER>`, `DB_DELETE(key)` empties
/// the cell `DB(key)`, and `ARRAY(A,B)` sets each of its names to its part of the value. `HASH`, `PUSH`, `UNSHIFT` and
/// `CHANNEL(hangup_handler_push)` have no effect. Any other `NAME(argument)` is a cell: a global for functions whose cells belong to all
/// channels, and a variable for the others (a choice of this program).
pub struct SetWide;

impl Application for SetWide {
    ghost use Rattle.std.specs.Prelude.{codes};
    ghost use Rattle.dp_flow.specs.Touches.{settable};
    ghost use Rattle.dp_wide.specs.Settings.{set_row};
    ghost use Rattle.dp_wide.specs.laws.SettingsLawful.{set_lawful};

    ghost meaning = { set_row };

    ghost title = { codes "Set" };

    ghost TOUCH = { settable };

    ghost lawful = { set_lawful };

    const TOUCH: Touch = Touch {
        variables: true,
        globals: true,
        caller: true,
        ..Touch::NOTHING
    };

    fn name() -> &'static [u8] {
        b"Set"
    }

    #[tactic(auto, unfolding(crate::specs::Settings::set_row))]
    fn apply(alloc: Global, arguments: &[u8], cell: &mut Cell) -> Result<Move, NoMemory> {
        set_text(alloc, cell, arguments)?;
        Ok(Move::Next)
    }
}

/// `MSet(NAME=value[,NAME=value..])`: does with each part of the arguments what `Set` does, in order.
pub struct MSet;

impl Application for MSet {
    ghost use Rattle.std.specs.Prelude.{codes};
    ghost use Rattle.dp_flow.specs.Touches.{settable};
    ghost use Rattle.dp_wide.specs.Settings.{mset_row};
    ghost use Rattle.dp_wide.specs.laws.SettingsLawful.{mset_lawful};

    ghost meaning = { mset_row };

    ghost title = { codes "MSet" };

    ghost TOUCH = { settable };

    ghost lawful = { mset_lawful };

    const TOUCH: Touch = Touch {
        variables: true,
        globals: true,
        caller: true,
        ..Touch::NOTHING
    };

    fn name() -> &'static [u8] {
        b"MSet"
    }

    #[tactic(auto, unfolding(crate::specs::Settings::mset_row))]
    fn apply(alloc: Global, arguments: &[u8], cell: &mut Cell) -> Result<Move, NoMemory> {
        set_together(alloc, cell, &SettingTexts { texts: arguments })?;
        Ok(Move::Next)
    }
}
