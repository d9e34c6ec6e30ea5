//! Where `DISA`, `Directory` and the applications of voice mail may lead a call in a real exchange.
ghost use Rattle.std.specs.Prelude.{◌≡◌, ◌++◌, OnOk};
ghost use Rattle.dp_closed.specs.Shown.{shown_area, shown_duties};
ghost use Rattle.dp_pieces.specs.Sets.{set_by};
ghost use Rattle.dp_pieces.specs.Shown.{shown_all};
ghost use Rattle.dp_wide_duties.specs.Places as spec;

use crate::arguments::{argument, may_be_empty};
use dp_closed::{KeptArea, KeptDuty, bytes_in, push_area};
use dp_conf::NoMemory;
use dp_pieces::{ByteSet, Piece};
use std::alloc::Global;

/// The bytes that a phone can dial.
pub(crate) fn dialled_bytes() -> ByteSet
    ensures { set_by result ≡ spec.dialled_bytes }
{
    bytes_in(b"0123456789*#ABCD")
}

/// The bytes of the names of mailboxes.
fn mailbox_bytes() -> ByteSet
    ensures { set_by result ≡ spec.mailbox_bytes }
{
    bytes_in(b"0123456789*#ABCDEFGHIJKLMNOPQRSTUVWXYZabcdefghijklmnopqrstuvwxyz-_.+")
}

/// Adds any extension with these bytes in a context, unless its name is empty.
pub(crate) fn push_any_in(
    alloc: Global,
    set: ByteSet,
    context: &[Piece],
    duties: &mut Vec<KeptDuty>,
) -> Result<(), NoMemory>
    ensures { OnOk result (shown_duties duties.new.items
        ≡ shown_duties duties.old.items ++ spec.any_in (set_by set) (shown_all context.now)) }
{
    if context.is_empty() {
        return Ok(());
    }
    push_area(alloc, context, &[Piece::AnyOf(set)], duties)
}

/// Adds the extension `i` in a context, unless its name is empty.
fn push_invalid_in(
    alloc: Global,
    context: &[Piece],
    duties: &mut Vec<KeptDuty>,
) -> Result<(), NoMemory>
    ensures { OnOk result (shown_duties duties.new.items ≡ shown_duties duties.old.items ++ spec.invalid_in (shown_all context.now)) }
{
    if context.is_empty() {
        return Ok(());
    }
    push_area(alloc, context, &[Piece::Known(b'i')], duties)
}

/// Adds what is dialled into a context.
fn push_dialled_into(
    alloc: Global,
    context: &[Piece],
    duties: &mut Vec<KeptDuty>,
) -> Result<(), NoMemory>
    ensures { OnOk result (shown_duties duties.new.items ≡ shown_duties duties.old.items ++ spec.dialled_into (shown_all context.now)) }
{
    push_any_in(alloc, dialled_bytes(), context, duties)?;
    push_invalid_in(alloc, context, duties)
}

/// The pieces of `disa`.
const DISA: [Piece; 4] = [
    Piece::Known(b'd'),
    Piece::Known(b'i'),
    Piece::Known(b's'),
    Piece::Known(b'a'),
];

/// Adds the duties of `DISA`.
pub(crate) fn push_disa(
    alloc: Global,
    pieces: &[Piece],
    duties: &mut Vec<KeptDuty>,
) -> Result<(), NoMemory>
    ensures { OnOk result (shown_duties duties.new.items
        ≡ shown_duties duties.old.items ++ spec.disa_owed (shown_all pieces.now)) }
{
    let context = argument(alloc, 1, pieces)?;
    push_dialled_into(alloc, &context, duties)?;
    if !may_be_empty(&context) {
        return Ok(());
    }
    push_dialled_into(alloc, &DISA, duties)
}

/// The pieces of `default`.
pub(crate) const DEFAULT: [Piece; 7] = [
    Piece::Known(b'd'),
    Piece::Known(b'e'),
    Piece::Known(b'f'),
    Piece::Known(b'a'),
    Piece::Known(b'u'),
    Piece::Known(b'l'),
    Piece::Known(b't'),
];

/// Adds the mailboxes in the context of the first argument of `Directory`.
fn push_first_listed(
    alloc: Global,
    context: &[Piece],
    duties: &mut Vec<KeptDuty>,
) -> Result<(), NoMemory>
    ensures { OnOk result (shown_duties duties.new.items ≡ shown_duties duties.old.items ++ spec.first_listed (shown_all context.now)) }
{
    push_any_in(alloc, mailbox_bytes(), context, duties)?;
    if !may_be_empty(context) {
        return Ok(());
    }
    push_any_in(alloc, mailbox_bytes(), &DEFAULT, duties)
}

/// Adds the duties of `Directory`.
pub(crate) fn push_directory(
    alloc: Global,
    pieces: &[Piece],
    duties: &mut Vec<KeptDuty>,
) -> Result<(), NoMemory>
    ensures { OnOk result (shown_duties duties.new.items
        ≡ shown_duties duties.old.items ++ spec.directory_owed (shown_all pieces.now)) }
{
    let context = argument(alloc, 1, pieces)?;
    push_any_in(alloc, mailbox_bytes(), &context, duties)?;
    if !may_be_empty(&context) {
        return Ok(());
    }
    let context = argument(alloc, 0, pieces)?;
    push_first_listed(alloc, &context, duties)
}

/// Adds the duties of voice mail.
pub(crate) fn push_mail(
    alloc: Global,
    area: &KeptArea,
    duties: &mut Vec<KeptDuty>,
) -> Result<(), NoMemory>
    ensures { OnOk result (shown_duties duties.new.items ≡ shown_duties duties.old.items ++ spec.mail_owed (shown_area area.now)) }
{
    push_area(alloc, &area.context, &[Piece::Known(b'o')], duties)?;
    push_area(alloc, &area.context, &[Piece::Known(b'a')], duties)
}
