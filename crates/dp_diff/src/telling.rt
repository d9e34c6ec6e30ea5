//! The differences in a context, told one after another.
ghost use Rattle.std.specs.Prelude.{◌≡◌, option_copied};
ghost use Rattle.std.specs.List as lists;
ghost use Rattle.dp_plan.specs.Ranking.{shares_place};
ghost use Rattle.dp_diff.specs.Differences as spec;
ghost use Rattle.dp_diff.specs.steps.Telling.{Tells, writer_of};

use crate::fault::DiffFault;
use crate::place::TablePlace;
use crate::sheet::Sheet;
use dp_conf::{WriteTold, same_word};
use dp_plan::{Entry, Text};
use indexmap::IndexSet;

/// Whether two entries do the same.
fn does_same(a: &Entry, b: &Entry) -> bool
    ensures { result ≡ spec.does_same a.now b.now }
{
    same_word(a.application.bytes(), b.application.bytes())
        && a.arguments.bytes() == b.arguments.bytes()
}

/// Whether the other entry, if there is one, does what the entry does.
fn is_kept(entry: &Entry, other: Option<&Entry>) -> bool
    ensures { result ≡ spec.is_kept entry.now (option_copied other.entry) }
{
    match other {
        Some(other) => does_same(entry, other),
        None => false,
    }
}

/// The entry that answers at the place, if one does.
fn find<'a>(places: &IndexSet<TablePlace<'a>>, place: &TablePlace<'a>) -> Option<&'a Entry>
    ensures { option_copied result ≡ lists.find (shares_place place.now) places.now.keys }
{
    let found = places.get(place)?;
    Some(found.entry())
}

/// Tells the difference at an entry that answered before the change, if there is one.
fn tell_changed<'a, W: WriteTold>(
    sheet: &mut Sheet,
    writer: &mut W,
    context: &Text,
    after: &IndexSet<TablePlace<'a>>,
    place: &TablePlace<'a>,
) -> Result<(), DiffFault>
    ensures { Tells (writer_of (W.contents writer.old) (W.has_failed writer.old)) sheet.old
        (writer_of (W.contents writer.new) (W.has_failed writer.new)) sheet.new
        (spec.change_at context.now after.now.keys place.now) result }
{
    let entry = place.entry();
    let other = find(after, place);
    if is_kept(entry, other) {
        return Ok(());
    }
    sheet.tell(writer, context, Some(entry), other)
}

/// Tells the difference at an entry that answers after the change, unless there was one before.
fn tell_added<'a, W: WriteTold>(
    sheet: &mut Sheet,
    writer: &mut W,
    context: &Text,
    before: &IndexSet<TablePlace<'a>>,
    place: &TablePlace<'a>,
) -> Result<(), DiffFault>
    ensures { Tells (writer_of (W.contents writer.old) (W.has_failed writer.old)) sheet.old
        (writer_of (W.contents writer.new) (W.has_failed writer.new)) sheet.new
        (spec.addition_at context.now before.now.keys place.now) result }
{
    if before.contains(place) {
        return Ok(());
    }
    sheet.tell(writer, context, None, Some(place.entry()))
}

/// Tells the differences at the entries that answered before the change.
fn tell_all_changed<'a, W: WriteTold>(
    sheet: &mut Sheet,
    writer: &mut W,
    context: &Text,
    before: &[TablePlace<'a>],
    after: &IndexSet<TablePlace<'a>>,
) -> Result<(), DiffFault>
    ensures { Tells (writer_of (W.contents writer.old) (W.has_failed writer.old)) sheet.old
        (writer_of (W.contents writer.new) (W.has_failed writer.new)) sheet.new
        (lists.flat_map (spec.change_at context.now after.now.keys) before.now) result }
{
    for place in before {
        tell_changed(sheet, writer, context, after, place)?;
    }
    Ok(())
}

/// Tells the differences at the entries that answer only after the change.
fn tell_all_added<'a, W: WriteTold>(
    sheet: &mut Sheet,
    writer: &mut W,
    context: &Text,
    before: &IndexSet<TablePlace<'a>>,
    after: &[TablePlace<'a>],
) -> Result<(), DiffFault>
    ensures { Tells (writer_of (W.contents writer.old) (W.has_failed writer.old)) sheet.old
        (writer_of (W.contents writer.new) (W.has_failed writer.new)) sheet.new
        (lists.flat_map (spec.addition_at context.now before.now.keys) after.now) result }
{
    for place in after {
        tell_added(sheet, writer, context, before, place)?;
    }
    Ok(())
}

/// Tells the differences in a context, given the entries with which it answers before and after the change.
pub(crate) fn tell_between<'a, W: WriteTold>(
    sheet: &mut Sheet,
    writer: &mut W,
    context: &Text,
    before: &IndexSet<TablePlace<'a>>,
    after: &IndexSet<TablePlace<'a>>,
) -> Result<(), DiffFault>
    ensures { Tells (writer_of (W.contents writer.old) (W.has_failed writer.old)) sheet.old
        (writer_of (W.contents writer.new) (W.has_failed writer.new)) sheet.new
        (spec.differences_between context.now before.now.keys after.now.keys) result }
{
    tell_all_changed(sheet, writer, context, before.as_slice(), after)?;
    tell_all_added(sheet, writer, context, before, after.as_slice())
}
