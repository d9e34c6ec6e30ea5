//! The differences between two dialplans, which are written as they are found.
ghost use Rattle.std.specs.Prelude.{◌≡◌, ◌-◌, ◌^◌, ◌||◌, IfOk, OnOk, OnErr, length, min};
ghost use Rattle.std.specs.Io.KnownBytes.{Appends};
ghost use Rattle.std.specs.List.{flat_map};
ghost use Rattle.dp_conf.specs.Fronts.{AppendsFront};
ghost use Rattle.dp_diff.specs.Differences as spec;
ghost use Rattle.dp_diff.specs.Faults.{is_write_failed};
ghost use Rattle.dp_diff.specs.Printing.{text_of};
ghost use Rattle.dp_diff.specs.steps.Telling.{Tells, new_in, writer_of};

use crate::fault::DiffFault;
use crate::searcher::Searcher;
use crate::sheet::Sheet;
use crate::telling::tell_between;
use dp_conf::WriteTold;
use dp_plan::{Context, Dialplan, NoMemory, Text};
use std::alloc::Global;
use std::marker::Model;

/// The dialplans before and after a change. A contract sees them as these two.
#[derive(Drop)]
struct ComparedPlans<'a> {
    alloc: Global,
    before: Searcher<'a>,
    after: Searcher<'a>,
}

impl<'a> Model for ComparedPlans<'a> {
    ghost use Rattle.dp_plan.specs.Plan.{PlanOf};

    ghost Value = { PlanOf × PlanOf };

    ghost view = { λ change. (change.before, change.after) };
}

impl<'a> ComparedPlans<'a> {
    ghost use Rattle.std.specs.Prelude.{◌≡◌, IfOk};
    ghost use Rattle.dp_diff.specs.Differences.{differences_in};
    ghost use Rattle.dp_diff.specs.steps.Telling.{Tells, writer_of};

    /// The change from one dialplan to another. It fails only if memory runs out.
    fn new(alloc: Global, before: &'a Dialplan, after: &'a Dialplan) -> Result<Self, NoMemory>
        ensures { IfOk result (λ change. change ≡ (before.now, after.now)) }
    {
        let before = Searcher::new(alloc, before)?;
        let after = Searcher::new(alloc, after)?;
        Ok(ComparedPlans {
            alloc,
            before,
            after,
        })
    }

    /// Tells the differences in a context.
    fn tell<W: WriteTold>(
        &mut self,
        sheet: &mut Sheet,
        writer: &mut W,
        context: &Text,
    ) -> Result<(), DiffFault>
        ensures tells { Tells (writer_of (W.contents writer.old) (W.has_failed writer.old)) sheet.old
            (writer_of (W.contents writer.new) (W.has_failed writer.new)) sheet.new
            (differences_in self.old.0 self.old.1 context.now) result }
        ensures same { self.new ≡ self.old }
    {
        let before = self.before.answering(self.alloc, context)?;
        let after = self.after.answering(self.alloc, context)?;
        tell_between(sheet, writer, context, &before, &after)
    }
}

/// Tells the differences in the contexts.
fn tell_contexts<W: WriteTold>(
    sheet: &mut Sheet,
    writer: &mut W,
    change: &mut ComparedPlans<'_>,
    contexts: &[Context],
) -> Result<(), DiffFault>
    ensures tells { Tells (writer_of (W.contents writer.old) (W.has_failed writer.old)) sheet.old
        (writer_of (W.contents writer.new) (W.has_failed writer.new)) sheet.new
        (flat_map (λ context. spec.differences_in change.old.0 change.old.1 context.name) contexts.now) result }
    ensures same { change.new ≡ change.old }
{
    for context in contexts {
        change.tell(sheet, writer, context.name())?;
    }
    Ok(())
}

/// Tells the differences in a context, unless the dialplan has it.
fn tell_new_context<W: WriteTold>(
    sheet: &mut Sheet,
    writer: &mut W,
    change: &mut ComparedPlans<'_>,
    before: &Dialplan,
    context: &Context,
) -> Result<(), DiffFault>
    ensures tells { Tells (writer_of (W.contents writer.old) (W.has_failed writer.old)) sheet.old
        (writer_of (W.contents writer.new) (W.has_failed writer.new)) sheet.new
        (new_in (spec.differences_in change.old.0 change.old.1) before.now context.now.name) result }
    ensures same { change.new ≡ change.old }
{
    match before.number_of(context.name()) {
        Some(_) => Ok(()),
        None => change.tell(sheet, writer, context.name()),
    }
}

/// Tells the differences in the contexts that the dialplan does not have.
fn tell_new_contexts<W: WriteTold>(
    sheet: &mut Sheet,
    writer: &mut W,
    change: &mut ComparedPlans<'_>,
    before: &Dialplan,
    contexts: &[Context],
) -> Result<(), DiffFault>
    ensures tells { Tells (writer_of (W.contents writer.old) (W.has_failed writer.old)) sheet.old
        (writer_of (W.contents writer.new) (W.has_failed writer.new)) sheet.new
        (flat_map (λ context. new_in (spec.differences_in change.old.0 change.old.1) before.now context.name) contexts.now) result }
    ensures same { change.new ≡ change.old }
{
    for context in contexts {
        tell_new_context(sheet, writer, change, before, context)?;
    }
    Ok(())
}

/// Tells the differences between two dialplans.
#[tactic(auto, unfolding(crate::specs::Differences::differences), using(crate::proofs::ContextsLemmas::contexts_apart))]
fn tell_all<W: WriteTold>(
    alloc: Global,
    sheet: &mut Sheet,
    writer: &mut W,
    before: &Dialplan,
    after: &Dialplan,
) -> Result<(), DiffFault>
    ensures { Tells (writer_of (W.contents writer.old) (W.has_failed writer.old)) sheet.old
        (writer_of (W.contents writer.new) (W.has_failed writer.new)) sheet.new
        (spec.differences before.now after.now) result }
{
    let mut change = ComparedPlans::new(alloc, before, after)?;
    tell_contexts(sheet, writer, &mut change, before.contexts())?;
    tell_new_contexts(sheet, writer, &mut change, before, after.contexts())
}

/// Writes what answers differently after a change of a dialplan, and returns how many differences there are, up to the greatest number of
/// 64 bits.
///
/// A context answers with its own entries and then with those of its includes, depth first; of entries with one name, by its meaning, and
/// one priority the first answers. For each context there is a difference at each name and priority at which an entry answers in only one of
/// the dialplans, or at which another application (in any case) or other arguments answer. Labels make no difference. A difference is a line
/// `- CONTEXT,NAME,PRIORITY APP(ARGUMENTS)` for the entry before the change, if there is one, and then such a line with `+` for the entry
/// after it.
///
/// The contexts are those of the dialplan before the change, in the order of the file, and then those that only the other has. In a context
/// the entries that answered before come first, in the order in which a look-up meets them, and then those that answer only after the change.
///
/// The lines are written a block at a time. The error is `WriteFailed` if a write fails, and `NoMemory` if memory runs out; then a prefix of
/// the lines is written.
pub fn write_differences<W: WriteTold>(
    alloc: Global,
    before: &Dialplan,
    after: &Dialplan,
    writer: &mut W,
) -> Result<u64, DiffFault>
    ensures ok { OnOk result (Appends (W.contents writer.old) (W.contents writer.new)
        (text_of (spec.differences before.now after.now))) }
    ensures count { IfOk result (λ count. count ≡ min (length (spec.differences before.now after.now)) (2 ^ 64 - 1)) }
    ensures err { OnErr result (AppendsFront (W.contents writer.old) (W.contents writer.new)
        (text_of (spec.differences before.now after.now))) }
    ensures told { W.has_failed writer.new ≡ (W.has_failed writer.old || is_write_failed result) }
{
    let mut sheet = Sheet::new(alloc)?;
    tell_all(alloc, &mut sheet, writer, before, after)?;
    sheet.send(writer)?;
    Ok(sheet.count())
}
