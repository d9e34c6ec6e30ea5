//! The duties of each application but `ExecIf`, by name.
ghost use Rattle.std.specs.Prelude.{◌≡◌, ◌++◌, OnOk};
ghost use Rattle.dp_closed.specs.Shown.{shown_area, shown_duties};
ghost use Rattle.dp_pieces.specs.Shown.{shown_all};
ghost use Rattle.dp_reach.specs.Standard.{standard_duties};
ghost use Rattle.dp_table.specs.Standard.{standard_rows};
ghost use Rattle.dp_wide_duties.specs.Rows.{shown_row};
ghost use Rattle.dp_wide_reach.specs.Wide as spec;

use crate::calls::{push_counted, push_counted_if};
use crate::held_bytes::push_anything;
use crate::macros::push_macro;
use crate::settings::{push_deletion, push_read, push_set, push_unknown};
use dp_app::AppTable;
use dp_closed::{KeptArea, KeptDuty, push_duties, push_goto_if};
use dp_conf::{NoMemory, same_word};
use dp_pieces::Piece;
use dp_table::StandardApps;
use dp_wide::{goes_on, is_outside, is_read};
use std::alloc::Global;

/// A row of the table: the application with these duties, or one of this program's twenty-one, by name.
#[derive(Clone, Copy)]
pub(crate) enum WideRow<'a> {
    Nothing,
    Set,
    MSet,
    TimeChoice,
    Gosub,
    GosubIf,
    Macro,
    DeleteTree,
    Read,
    Standard(&'a [u8]),
    Lacking,
}

/// The row of an application that goes on, runs outside, or is one of the twenty-one.
fn listed_row(application: &[u8]) -> WideRow<'_>
    ensures { shown_row result ≡ spec.with_going_duties (spec.with_outside_duties (spec.unless_lacking standard_rows standard_duties)) application.now }
{
    if goes_on(application) {
        return WideRow::Nothing;
    }
    if is_outside(application) {
        return if is_read(application) {
            WideRow::Read
        } else {
            WideRow::Nothing
        };
    }
    if StandardApps::number_of(application).is_some() {
        return WideRow::Standard(application);
    }
    WideRow::Lacking
}

/// The row of an application of the table's own that sets names, chooses, or deletes keys, or of one of those above.
fn own_row(application: &[u8]) -> WideRow<'_>
    ensures { shown_row result ≡ spec.own_duties application.now }
{
    if same_word(application, b"Set") {
        return WideRow::Set;
    }
    if same_word(application, b"MSet") {
        return WideRow::MSet;
    }
    if same_word(application, b"GotoIfTime") {
        return WideRow::TimeChoice;
    }
    if same_word(application, b"Gosub") {
        return WideRow::Gosub;
    }
    if same_word(application, b"GosubIf") {
        return WideRow::GosubIf;
    }
    if same_word(application, b"Macro") {
        return WideRow::Macro;
    }
    if same_word(application, b"MacroExit") {
        return WideRow::Nothing;
    }
    if same_word(application, b"DBdel") {
        return WideRow::Nothing;
    }
    if same_word(application, b"DBdeltree") {
        return WideRow::DeleteTree;
    }
    listed_row(application)
}

/// The row of an application but `ExecIf`, given its name in any ASCII case.
#[tactic(auto, unfolding(dp_wide_reach::specs::Wide::inner_duties))]
fn inner_row(application: &[u8]) -> WideRow<'_>
    ensures { shown_row result ≡ spec.inner_duties application.now }
{
    if same_word(application, b"NoOp") {
        return WideRow::Nothing;
    }
    if same_word(application, b"Verbose") {
        return WideRow::Nothing;
    }
    if same_word(application, b"Answer") {
        return WideRow::Nothing;
    }
    if same_word(application, b"Hangup") {
        return WideRow::Nothing;
    }
    if same_word(application, b"Busy") {
        return WideRow::Nothing;
    }
    if same_word(application, b"Congestion") {
        return WideRow::Nothing;
    }
    own_row(application)
}

/// Adds the duties of a row.
fn push_row(
    alloc: Global,
    row: WideRow<'_>,
    area: &KeptArea,
    pieces: &[Piece],
    duties: &mut Vec<KeptDuty>,
) -> Result<(), NoMemory>
    ensures { OnOk result (shown_duties duties.new.items
        ≡ shown_duties duties.old.items ++ shown_row row.entry (shown_area area.now) (shown_all pieces.now)) }
{
    match row {
        WideRow::Nothing => Ok(()),
        WideRow::Set => push_set(alloc, pieces, duties),
        WideRow::MSet => push_unknown(pieces, duties),
        WideRow::TimeChoice => push_goto_if(alloc, area, pieces, duties),
        WideRow::Gosub => push_counted(alloc, area, pieces, duties),
        WideRow::GosubIf => push_counted_if(alloc, area, pieces, duties),
        WideRow::Macro => push_macro(alloc, area, pieces, duties),
        WideRow::DeleteTree => push_deletion(alloc, pieces, duties),
        WideRow::Read => push_read(alloc, pieces, duties),
        WideRow::Standard(name) => push_duties(alloc, name, area, pieces, duties),
        WideRow::Lacking => push_anything(duties),
    }
}

/// Adds the duties of an application but `ExecIf`.
pub(crate) fn push_inner(
    alloc: Global,
    application: &[u8],
    area: &KeptArea,
    pieces: &[Piece],
    duties: &mut Vec<KeptDuty>,
) -> Result<(), NoMemory>
    ensures { OnOk result (shown_duties duties.new.items
        ≡ shown_duties duties.old.items ++ spec.inner_duties application.now (shown_area area.now) (shown_all pieces.now)) }
{
    push_row(alloc, inner_row(application), area, pieces, duties)
}
