//! Where the applications that call devices may lead a call in a real exchange.
ghost use Rattle.std.specs.Prelude.{◌≡◌, ◌++◌, IfOk, OnOk};
ghost use Rattle.dp_closed.specs.Shown.{shown_area, shown_duties};
ghost use Rattle.dp_pieces.specs.Pieces.{text_known};
ghost use Rattle.dp_pieces.specs.Shown.{shown_all};
ghost use Rattle.dp_wide_duties.specs.Calling as spec;

use crate::arguments::{argument, may_be_empty};
use crate::devices::push_devices;
use crate::options::{push_options, push_started};
use crate::transfers::push_transfer;
use dp_closed::{KeptArea, KeptDuty, push_area};
use dp_conf::{NoMemory, same_word};
use dp_pieces::{Piece, known_text};
use std::alloc::Global;

/// Adds the duties of options, by which a phone may transfer the call too.
fn push_transferred(
    alloc: Global,
    area: &KeptArea,
    options: &[Piece],
    duties: &mut Vec<KeptDuty>,
) -> Result<(), NoMemory>
    ensures { OnOk result (shown_duties duties.new.items ≡ shown_duties duties.old.items
        ++ spec.transferred_owed (shown_area area.now) (shown_all options.now)) }
{
    push_transfer(alloc, area, options, duties)?;
    push_options(alloc, area, options, duties)
}

/// Adds the duties of `Dial`.
pub(crate) fn push_dial(
    alloc: Global,
    area: &KeptArea,
    pieces: &[Piece],
    duties: &mut Vec<KeptDuty>,
) -> Result<(), NoMemory>
    ensures { OnOk result (shown_duties duties.new.items
        ≡ shown_duties duties.old.items ++ spec.dial_owed (shown_area area.now) (shown_all pieces.now)) }
{
    let devices = argument(alloc, 0, pieces)?;
    push_devices(alloc, &devices, duties)?;
    let options = argument(alloc, 2, pieces)?;
    push_transferred(alloc, area, &options, duties)
}

/// Adds the duties of `Page`.
pub(crate) fn push_page(
    alloc: Global,
    area: &KeptArea,
    pieces: &[Piece],
    duties: &mut Vec<KeptDuty>,
) -> Result<(), NoMemory>
    ensures { OnOk result (shown_duties duties.new.items
        ≡ shown_duties duties.old.items ++ spec.page_owed (shown_area area.now) (shown_all pieces.now)) }
{
    let devices = argument(alloc, 0, pieces)?;
    push_devices(alloc, &devices, duties)?;
    let options = argument(alloc, 1, pieces)?;
    push_options(alloc, area, &options, duties)
}

/// Adds the duties of `Queue`.
pub(crate) fn push_queue(
    alloc: Global,
    area: &KeptArea,
    pieces: &[Piece],
    duties: &mut Vec<KeptDuty>,
) -> Result<(), NoMemory>
    ensures { OnOk result (shown_duties duties.new.items
        ≡ shown_duties duties.old.items ++ spec.queue_owed (shown_area area.now) (shown_all pieces.now)) }
{
    let options = argument(alloc, 1, pieces)?;
    push_transferred(alloc, area, &options, duties)?;
    let name = argument(alloc, 6, pieces)?;
    let routine = argument(alloc, 7, pieces)?;
    push_started(alloc, area, &name, &routine, duties)
}

/// Adds the duties of `AddQueueMember`.
pub(crate) fn push_member(
    alloc: Global,
    pieces: &[Piece],
    duties: &mut Vec<KeptDuty>,
) -> Result<(), NoMemory>
    ensures { OnOk result (shown_duties duties.new.items
        ≡ shown_duties duties.old.items ++ spec.member_owed (shown_all pieces.now)) }
{
    let device = argument(alloc, 1, pieces)?;
    push_devices(alloc, &device, duties)
}

/// Whether the kind of an `Originate` may be `exten`.
fn is_exten(alloc: Global, kind: &[Piece]) -> Result<bool, NoMemory>
    ensures { IfOk result (λ is. is ≡ spec.is_exten (text_known (shown_all kind.now))) }
{
    match known_text(alloc, kind)? {
        None => Ok(true),
        Some(text) => Ok(same_word(&text, b"exten")),
    }
}

/// Adds an extension in a context, unless it is empty.
fn push_exten_in(
    alloc: Global,
    context: &[Piece],
    exten: &[Piece],
    duties: &mut Vec<KeptDuty>,
) -> Result<(), NoMemory>
    ensures { OnOk result (shown_duties duties.new.items ≡ shown_duties duties.old.items
        ++ spec.exten_in (shown_all context.now) (shown_all exten.now)) }
{
    if exten.is_empty() {
        return Ok(());
    }
    push_area(alloc, context, exten, duties)
}

/// Adds an extension in a context, or `s` if it may be empty.
fn push_exten(
    alloc: Global,
    context: &[Piece],
    exten: &[Piece],
    duties: &mut Vec<KeptDuty>,
) -> Result<(), NoMemory>
    ensures { OnOk result (shown_duties duties.new.items ≡ shown_duties duties.old.items
        ++ spec.exten_or_start (shown_all context.now) (shown_all exten.now)) }
{
    push_exten_in(alloc, context, exten, duties)?;
    if !may_be_empty(exten) {
        return Ok(());
    }
    push_area(alloc, context, &[Piece::Known(b's')], duties)
}

/// Adds the extension of the third and fourth arguments of `Originate`, if the second may be `exten`.
fn push_second(alloc: Global, pieces: &[Piece], duties: &mut Vec<KeptDuty>) -> Result<(), NoMemory>
    ensures { OnOk result (shown_duties duties.new.items ≡ shown_duties duties.old.items
        ++ spec.second_owed (shown_all pieces.now)) }
{
    let kind = argument(alloc, 1, pieces)?;
    if !is_exten(alloc, &kind)? {
        return Ok(());
    }
    let context = argument(alloc, 2, pieces)?;
    let exten = argument(alloc, 3, pieces)?;
    push_exten(alloc, &context, &exten, duties)
}

/// Adds the duties of `Originate`.
pub(crate) fn push_originate(
    alloc: Global,
    pieces: &[Piece],
    duties: &mut Vec<KeptDuty>,
) -> Result<(), NoMemory>
    ensures { OnOk result (shown_duties duties.new.items
        ≡ shown_duties duties.old.items ++ spec.originate_owed (shown_all pieces.now)) }
{
    let devices = argument(alloc, 0, pieces)?;
    push_devices(alloc, &devices, duties)?;
    push_second(alloc, pieces, duties)
}
