//! The contexts that a call reaches only before a change of a dialplan, and those that it reaches only after it.
ghost use Rattle.std.specs.Prelude.{◌≡◌, ◌+◌, ◌-◌, ◌^◌, ◌++◌, ◌||◌, [], IfOk, OnOk, OnErr, length, map, min, nat_eq, if◌then◌else◌};
ghost use Rattle.std.specs.Io.KnownBytes.{Appends};
ghost use Rattle.std.specs.List.{flat_map};
ghost use Rattle.indexmap.specs.IndexSet.{insert_all};
ghost use Rattle.dp_conf.specs.Fronts.{AppendsFront};
ghost use Rattle.dp_diff.specs.Faults.{is_write_failed};
ghost use Rattle.dp_diff.specs.Reaches as spec;
ghost use Rattle.dp_diff.specs.steps.Reaching.{reach_of_table};

use crate::fault::DiffFault;
use dp_conf::WriteTold;
use dp_plan::{Dialplan, EntryId, NoMemory, Text};
use indexmap::IndexSet;
use std::alloc::Global;

/// A dialplan, and the entries of it that a call may run.
#[derive(Clone, Copy)]
pub struct PlanReach<'a> {
    pub plan: &'a Dialplan,
    pub entries: &'a [EntryId],
}

/// A dialplan, and the numbers of the contexts in which a call may run an entry.
#[derive(Drop)]
struct ReachTable<'a> {
    plan: &'a Dialplan,
    numbers: IndexSet<usize>,
}

/// The numbers of the contexts of the entries, each once.
fn numbers_of(alloc: Global, entries: &[EntryId]) -> Result<IndexSet<usize>, NoMemory>
    ensures { IfOk result (λ numbers. numbers.keys ≡ insert_all nat_eq [] (map (λ id. id.context) entries.now)) }
{
    let mut numbers = IndexSet::new(alloc);
    for id in entries {
        numbers.insert(id.context)?;
    }
    Ok(numbers)
}

/// The contexts that a call reaches. It fails only if memory runs out.
fn table_of<'a>(alloc: Global, reach: PlanReach<'a>) -> Result<ReachTable<'a>, NoMemory>
    ensures { IfOk result (λ table. reach_of_table table ≡ spec.reach_now reach.entry) }
{
    let numbers = numbers_of(alloc, reach.entries)?;
    Ok(ReachTable {
        plan: reach.plan,
        numbers,
    })
}

/// Whether a call reaches the context with this name.
fn reaches(table: &ReachTable<'_>, name: &Text) -> bool
    ensures { result ≡ spec.reaches (reach_of_table table.now) name.now }
{
    match table.plan.number_of(name) {
        Some(number) => table.numbers.contains(&number),
        None => false,
    }
}

/// Adds the line of a context.
fn push_line(out: &mut Vec<u8>, sign: &[u8], name: &Text) -> Result<(), NoMemory>
    ensures { OnOk result (out.new.items ≡ out.old.items ++ spec.reach_line sign.now name.now) }
{
    out.extend_from_slice(sign)?;
    out.extend_from_slice(b"reaches ")?;
    out.extend_from_slice(name.bytes())?;
    out.extend_from_slice(b"\n")
}

/// Adds the line of a context if a call reaches it in one dialplan alone, and returns whether it does.
fn push_if_only(
    out: &mut Vec<u8>,
    sign: &[u8],
    one: &ReachTable<'_>,
    other: &ReachTable<'_>,
    name: &Text,
) -> Result<bool, NoMemory>
    ensures line { OnOk result (out.new.items ≡ out.old.items
        ++ (if spec.reaches_only (reach_of_table one.now) (reach_of_table other.now) name.now then spec.reach_line sign.now name.now else [])) }
    ensures is { IfOk result (λ is. is ≡ spec.reaches_only (reach_of_table one.now) (reach_of_table other.now) name.now) }
{
    if reaches(one, name) && !reaches(other, name) {
        push_line(out, sign, name)?;
        return Ok(true);
    }
    Ok(false)
}

/// Adds the lines of the contexts that a call reaches in one dialplan alone, and returns how many these are.
#[tactic(auto, unfolding(crate::specs::Reaches::only_reached))]
fn push_only(
    out: &mut Vec<u8>,
    sign: &[u8],
    one: &ReachTable<'_>,
    other: &ReachTable<'_>,
) -> Result<usize, NoMemory>
    ensures lines { OnOk result (out.new.items ≡ out.old.items
        ++ flat_map (spec.reach_line sign.now) (spec.only_reached (reach_of_table one.now) (reach_of_table other.now))) }
    ensures count { IfOk result (λ count. count ≡ length (spec.only_reached (reach_of_table one.now) (reach_of_table other.now))) }
{
    let mut count = 0;
    for context in one.plan.contexts() {
        if push_if_only(out, sign, one, other, context.name())? {
            count += 1;
        }
    }
    Ok(count)
}

/// The lines of the changes, and how many these are.
#[tactic(auto, unfolding(crate::specs::Reaches::reach_text))]
fn lines_of(
    alloc: Global,
    before: PlanReach<'_>,
    after: PlanReach<'_>,
) -> Result<(Vec<u8>, u64), NoMemory>
    ensures lines { IfOk result (λ lines. lines.0.items ≡ spec.reach_text (spec.reach_now before.entry) (spec.reach_now after.entry)) }
    ensures count { IfOk result (λ lines. lines.1
        ≡ min (spec.reach_count (spec.reach_now before.entry) (spec.reach_now after.entry)) (2 ^ 64 - 1)) }
{
    let before = table_of(alloc, before)?;
    let after = table_of(alloc, after)?;
    let mut out = Vec::new(alloc);
    let lost = push_only(&mut out, b"- ", &before, &after)?;
    let gained = push_only(&mut out, b"+ ", &after, &before)?;
    let count = (lost as u64).saturating_add(gained as u64);
    Ok((out, count))
}

/// Writes which contexts a call reaches in only one of two dialplans, before and after a change, and returns how many these are, up to the
/// greatest number of 64 bits.
///
/// A call reaches a context if it may run one of its entries. For each context of the dialplan before the change that it reaches there, and
/// whose name is that of no context which it reaches after the change, there is a line `- reaches CONTEXT`, in the order of the file. Then
/// there is a line `+ reaches CONTEXT` for each context that it reaches only after the change, in the order of the other file. Names are
/// compared byte for byte.
///
/// The time is proportional to the size of the dialplans and of the lists of entries. The error is `WriteFailed` if a write fails; then a
/// prefix of the lines is written. It is `NoMemory` if memory runs out; then nothing is written.
pub fn write_reach_changes<W: WriteTold>(
    alloc: Global,
    before: PlanReach<'_>,
    after: PlanReach<'_>,
    writer: &mut W,
) -> Result<u64, DiffFault>
    ensures ok { OnOk result (Appends (W.contents writer.old) (W.contents writer.new)
        (spec.reach_text (spec.reach_now before.entry) (spec.reach_now after.entry))) }
    ensures count { IfOk result (λ count. count
        ≡ min (spec.reach_count (spec.reach_now before.entry) (spec.reach_now after.entry)) (2 ^ 64 - 1)) }
    ensures err { OnErr result (AppendsFront (W.contents writer.old) (W.contents writer.new)
        (spec.reach_text (spec.reach_now before.entry) (spec.reach_now after.entry))) }
    ensures told { W.has_failed writer.new ≡ (W.has_failed writer.old || is_write_failed result) }
{
    let (text, count) = lines_of(alloc, before, after)?;
    writer.write_told(&text)?;
    Ok(count)
}
