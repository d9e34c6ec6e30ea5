//! Where the jumps of entries lead, and the ways out of the queues in which they let a caller wait, after the Asterisk documentation's pages
//! on the applications `Goto`, `GotoIf`, `GotoIfTime`, `Gosub`, `GosubIf`, `Queue` and `ExecIf`.
ghost use Rattle.std.specs.Prelude.{◌≡◌, [], fold, map, IfOk, OnOk};
ghost use Rattle.std.specs.List.{filter_map, flat_map};
ghost use Rattle.std.specs.Option.{option_copied, option_map, option_to_list};
ghost use Rattle.dp_audit.specs.Targets as targets;
ghost use Rattle.dp_graph.specs.Arrows.{with_arrow};
ghost use Rattle.dp_graph.specs.ExecIf as calls;
ghost use Rattle.dp_graph.specs.Jumps as spec;

use crate::arrow::{Arrow, ArrowKind, Destination, insert};
use crate::exec_if::{CalledApplication, CalledApplications, exec_if_calls};
use crate::exit::QueueExit;
use dp_audit::{
    Jump, JumpParts, PlanFinder, Targets, exten_of, jump_of as plain_jump_of, parts_of,
    parts_stand, priority_of, targets_in,
};
use dp_conf::{first_argument, same_word, trim};
use dp_plan::{Dialplan, Entry, EntryId, NoMemory, Text};
use indexmap::IndexSet;
use std::alloc::Global;

/// An entry from which arrows come, with the name of its context.
#[derive(Clone, Copy)]
struct ArrowSource<'a> {
    context: &'a Text,
    id: EntryId,
    held: &'a Entry,
}

/// How the application with this name jumps, if it does.
fn jump_of(name: &[u8]) -> Option<Jump>
    ensures { result ≡ spec.jump_of name.now }
{
    if same_word(name, b"GotoIfTime") {
        return Some(Jump {
            is_choice: true,
            is_subroutine: false,
        });
    }
    plain_jump_of(name)
}

/// The kind of a jump's arrows.
fn kind_of(jump: Jump) -> ArrowKind
    ensures { result ≡ spec.kind_of jump }
{
    if jump.is_subroutine {
        return ArrowKind::Subroutine;
    }
    ArrowKind::Jump
}

/// The entry that answers for the extension of the context at the priority that a text names.
fn find_target(
    finder: &mut PlanFinder<'_>,
    context: &Text,
    exten: &[u8],
    priority: &[u8],
) -> Option<EntryId>
    ensures found { result ≡ spec.target_entry finder.old context.now exten.now priority.now }
    ensures same { finder.new ≡ finder.old }
{
    let priority = priority_of(finder, context, exten, priority)?;
    finder.find(context, exten, priority)
}

/// The entry that answers for the extension at the priority of the parts, in their context or, if they have none, in the entry's own.
fn find_by_parts(
    finder: &mut PlanFinder<'_>,
    own: &Text,
    parts: JumpParts<'_>,
    exten: &[u8],
) -> Result<Option<EntryId>, NoMemory>
    ensures found { IfOk result (λ found. found
        ≡ spec.target_entry finder.old (targets.part_or own.now parts.entry.context.now) exten.now parts.entry.priority.now) }
    ensures same { finder.new ≡ finder.old }
{
    if parts.context.is_empty() {
        return Ok(find_target(finder, own, exten, parts.priority));
    }
    let context = Text::copy_of(finder.alloc(), parts.context)?;
    Ok(find_target(finder, &context, exten, parts.priority))
}

/// No place, although the text names one.
fn missing(alloc: Global, target: &[u8]) -> Result<Option<Destination>, NoMemory>
    ensures { IfOk result (λ to. to ≡ spec.to_missing target.now) }
{
    let target = Text::copy_of(alloc, target)?;
    Ok(Some(Destination::Missing(target)))
}

/// The extension of the entry that was found, unless the jump comes from it.
fn other_extension(
    alloc: Global,
    from: ArrowSource<'_>,
    id: EntryId,
    found: &Entry,
) -> Result<Option<Destination>, NoMemory>
    ensures { IfOk result (λ to. to ≡ spec.if_other from.entry.id from.entry.held.now id found.now) }
{
    if id.context == from.id.context && found.name.spelling() == from.held.name.spelling() {
        return Ok(None);
    }
    let spelling = Text::copy_of(alloc, found.name.spelling())?;
    Ok(Some(Destination::Extension {
        context: id.context,
        spelling,
    }))
}

/// Where a literal target leads, given the entry that answers, if one does.
fn by_entry(
    finder: &PlanFinder<'_>,
    from: ArrowSource<'_>,
    target: &[u8],
    found: Option<EntryId>,
) -> Result<Option<Destination>, NoMemory>
    ensures { IfOk result (λ to. to ≡ spec.by_entry finder.now from.entry.id from.entry.held.now target.now found) }
{
    let Some(id) = found else {
        return missing(finder.alloc(), target);
    };
    match finder.plan().entry(id) {
        Some(found) => other_extension(finder.alloc(), from, id, found),
        None => Ok(None),
    }
}

/// Where a target without an extension leads from a pattern.
fn in_context(entry: &Entry, context: &[u8]) -> Option<Destination>
    ensures { result ≡ spec.in_context entry.now context.now }
{
    if context.is_empty() {
        return None;
    }
    Some(Destination::Computed(entry.priority.get()))
}

/// Where a literal target leads, given the extension that it means, if one is known.
fn by_exten(
    finder: &mut PlanFinder<'_>,
    from: ArrowSource<'_>,
    target: &[u8],
    parts: JumpParts<'_>,
    exten: Option<&[u8]>,
) -> Result<Option<Destination>, NoMemory>
    ensures leads { IfOk result (λ to. to ≡ spec.by_exten finder.old from.entry.context.now from.entry.id from.entry.held.now target.now
        (targets.parts_of_jump parts.entry) (option_map (λ text. text.now) exten.entry)) }
    ensures same { finder.new ≡ finder.old }
{
    let Some(exten) = exten else {
        return Ok(in_context(from.held, parts.context));
    };
    let found = find_by_parts(finder, from.context, parts, exten)?;
    by_entry(finder, from, target, found)
}

/// Where a literal target leads, given its parts.
fn by_parts(
    finder: &mut PlanFinder<'_>,
    from: ArrowSource<'_>,
    target: &[u8],
    parts: Option<JumpParts<'_>>,
) -> Result<Option<Destination>, NoMemory>
    ensures leads { IfOk result (λ to. to ≡ spec.by_parts finder.old from.entry.context.now from.entry.id from.entry.held.now target.now
        (option_map targets.parts_of_jump parts.entry)) }
    ensures same { finder.new ≡ finder.old }
{
    let Some(parts) = parts else {
        return missing(finder.alloc(), target);
    };
    let exten = exten_of(from.held.name.name(), parts.exten);
    by_exten(finder, from, target, parts, exten)
}

/// Where a target of an entry leads, unless it leads to the entry's own extension.
fn destination_of(
    finder: &mut PlanFinder<'_>,
    from: ArrowSource<'_>,
    jump: Jump,
    target: &[u8],
) -> Result<Option<Destination>, NoMemory>
    ensures leads { IfOk result (λ to. to
        ≡ spec.destination_of finder.old from.entry.context.now from.entry.id from.entry.held.now jump target.now) }
    ensures same { finder.new ≡ finder.old }
{
    let parts = parts_of(jump, target);
    if !parts_stand(target, parts) {
        return Ok(Some(Destination::Computed(from.held.priority.get())));
    }
    by_parts(finder, from, target, parts)
}

/// Adds the arrow with this kind and destination, if there is a destination.
fn insert_to(
    arrows: &mut IndexSet<Arrow>,
    kind: ArrowKind,
    destination: Option<Destination>,
) -> Result<(), NoMemory>
    ensures { OnOk result (arrows.new.keys
        ≡ fold with_arrow arrows.old.keys (option_to_list (option_map (spec.arrow_to kind) destination))) }
{
    match destination {
        Some(destination) => insert(arrows, Arrow { kind, destination }),
        None => Ok(()),
    }
}

/// Adds the arrow of a target of an entry, if there is a target.
fn insert_target(
    arrows: &mut IndexSet<Arrow>,
    finder: &mut PlanFinder<'_>,
    from: ArrowSource<'_>,
    jump: Jump,
    target: Option<&[u8]>,
) -> Result<(), NoMemory>
    ensures arrows { OnOk result (arrows.new.keys ≡ fold with_arrow arrows.old.keys
        (filter_map (spec.target_arrow finder.old from.entry.context.now from.entry.id from.entry.held.now jump)
        (option_to_list (option_map (λ text. text.now) target.entry)))) }
    ensures same { finder.new ≡ finder.old }
{
    let Some(target) = target else {
        return Ok(());
    };
    let destination = destination_of(finder, from, jump, target)?;
    insert_to(arrows, kind_of(jump), destination)
}

/// Adds the arrows of the targets of an entry.
#[tactic(auto, using(crate::proofs::JumpsLemmas::added_sides))]
fn insert_targets(
    arrows: &mut IndexSet<Arrow>,
    finder: &mut PlanFinder<'_>,
    from: ArrowSource<'_>,
    jump: Jump,
    found: Targets<'_>,
) -> Result<(), NoMemory>
    ensures arrows { OnOk result (arrows.new.keys ≡ fold with_arrow arrows.old.keys
        (filter_map (spec.target_arrow finder.old from.entry.context.now from.entry.id from.entry.held.now jump)
        (targets.texts_of_targets found.entry))) }
    ensures same { finder.new ≡ finder.old }
{
    insert_target(arrows, finder, from, jump, found.first)?;
    insert_target(arrows, finder, from, jump, found.second)
}

/// Adds the arrows of the jumps of an application.
fn insert_jumps(
    arrows: &mut IndexSet<Arrow>,
    finder: &mut PlanFinder<'_>,
    from: ArrowSource<'_>,
    call: CalledApplication<'_>,
) -> Result<(), NoMemory>
    ensures arrows { OnOk result (arrows.new.keys ≡ fold with_arrow arrows.old.keys
        (spec.jump_arrows finder.old from.entry.context.now from.entry.id from.entry.held.now call.entry.arguments.now
        (spec.jump_of call.entry.name.now))) }
    ensures same { finder.new ≡ finder.old }
{
    let Some(jump) = jump_of(call.name) else {
        return Ok(());
    };
    let found = targets_in(jump, call.arguments);
    insert_targets(arrows, finder, from, jump, found)
}

/// Where a queue lets a caller out.
fn exit_to(alloc: Global, plan: &Dialplan, exit: &QueueExit) -> Result<Destination, NoMemory>
    ensures { IfOk result (λ to. to ≡ spec.exit_to plan.now exit.now) }
{
    if let Some(number) = plan.number_of(&exit.context) {
        return Ok(Destination::Context(number));
    }
    let context = Text::copy_of(alloc, exit.context.bytes())?;
    Ok(Destination::Missing(context))
}

/// The first way out of the queue with a name.
fn exit_of<'a>(exits: &'a [QueueExit], queue: &[u8]) -> Option<&'a QueueExit>
    ensures { option_copied result ≡ spec.exit_of exits.now queue.now }
{
    for exit in exits {
        if exit.queue.bytes() == queue {
            return Some(exit);
        }
    }
    None
}

/// The name of the queue in the arguments of `Queue`.
fn queue_in(arguments: &[u8]) -> &[u8]
    ensures { result.now ≡ spec.queue_in arguments.now }
{
    let (queue, _after) = first_argument(arguments);
    trim(queue)
}

/// Adds the arrow of a way out of a queue, if there is one.
fn insert_exit(
    arrows: &mut IndexSet<Arrow>,
    alloc: Global,
    plan: &Dialplan,
    exit: Option<&QueueExit>,
) -> Result<(), NoMemory>
    ensures { OnOk result (arrows.new.keys ≡ fold with_arrow arrows.old.keys
        (option_to_list (option_map (spec.exit_arrow plan.now) (option_copied exit.entry)))) }
{
    let Some(exit) = exit else {
        return Ok(());
    };
    let destination = exit_to(alloc, plan, exit)?;
    let kind = ArrowKind::WayOut;
    insert(arrows, Arrow { kind, destination })
}

/// Adds the arrow of the way out of the queue in which an application lets a caller wait.
fn insert_exits(
    arrows: &mut IndexSet<Arrow>,
    alloc: Global,
    plan: &Dialplan,
    exits: &[QueueExit],
    call: CalledApplication<'_>,
) -> Result<(), NoMemory>
    ensures { OnOk result (arrows.new.keys ≡ fold with_arrow arrows.old.keys
        (spec.exit_arrows plan.now exits.now (calls.call_now call.entry))) }
{
    if !same_word(call.name, b"Queue") {
        return Ok(());
    }
    let exit = exit_of(exits, queue_in(call.arguments));
    insert_exit(arrows, alloc, plan, exit)
}

/// Adds the arrows of an application.
#[tactic(auto, using(crate::proofs::JumpsLemmas::added_append))]
fn insert_of_call(
    arrows: &mut IndexSet<Arrow>,
    finder: &mut PlanFinder<'_>,
    exits: &[QueueExit],
    from: ArrowSource<'_>,
    call: CalledApplication<'_>,
) -> Result<(), NoMemory>
    ensures arrows { OnOk result (arrows.new.keys ≡ fold with_arrow arrows.old.keys
        (spec.call_arrows finder.old exits.now from.entry.context.now from.entry.id from.entry.held.now (calls.call_now call.entry))) }
    ensures same { finder.new ≡ finder.old }
{
    insert_jumps(arrows, finder, from, call)?;
    insert_exits(arrows, finder.alloc(), finder.plan(), exits, call)
}

/// Adds the arrows of an application, if there is one.
fn insert_call(
    arrows: &mut IndexSet<Arrow>,
    finder: &mut PlanFinder<'_>,
    exits: &[QueueExit],
    from: ArrowSource<'_>,
    call: Option<CalledApplication<'_>>,
) -> Result<(), NoMemory>
    ensures arrows { OnOk result (arrows.new.keys ≡ fold with_arrow arrows.old.keys
        (flat_map (spec.call_arrows finder.old exits.now from.entry.context.now from.entry.id from.entry.held.now)
        (option_to_list (option_map calls.call_now call.entry)))) }
    ensures same { finder.new ≡ finder.old }
{
    match call {
        Some(call) => insert_of_call(arrows, finder, exits, from, call),
        None => Ok(()),
    }
}

/// The applications that an entry may run: those that an `ExecIf` names, and else its own. An `ExecIf` inside another one is not followed.
fn calls_of(entry: &Entry) -> CalledApplications<'_>
    ensures { calls.calls_now result ≡ spec.calls_of entry.now }
{
    let arguments = entry.arguments.text().bytes();
    let name = entry.application.bytes();
    if same_word(name, b"ExecIf") {
        return exec_if_calls(arguments);
    }
    CalledApplications {
        first: Some(CalledApplication { name, arguments }),
        second: None,
    }
}

/// Adds the arrows of an entry.
#[tactic(auto, using(crate::proofs::JumpsLemmas::added_calls))]
fn insert_entry(
    arrows: &mut IndexSet<Arrow>,
    finder: &mut PlanFinder<'_>,
    exits: &[QueueExit],
    from: ArrowSource<'_>,
) -> Result<(), NoMemory>
    ensures arrows { OnOk result (arrows.new.keys ≡ fold with_arrow arrows.old.keys
        (spec.entry_arrows finder.old exits.now from.entry.context.now from.entry.id from.entry.held.now)) }
    ensures same { finder.new ≡ finder.old }
{
    let calls = calls_of(from.held);
    insert_call(arrows, finder, exits, from, calls.first)?;
    insert_call(arrows, finder, exits, from, calls.second)
}

/// Adds the arrows of the entry with these numbers.
fn insert_at(
    arrows: &mut IndexSet<Arrow>,
    finder: &mut PlanFinder<'_>,
    exits: &[QueueExit],
    id: EntryId,
) -> Result<(), NoMemory>
    ensures arrows { OnOk result (arrows.new.keys ≡ fold with_arrow arrows.old.keys (spec.arrows_at finder.old exits.now id)) }
    ensures same { finder.new ≡ finder.old }
{
    let Some(context) = finder.plan().contexts().get(id.context) else {
        return Ok(());
    };
    let Some(held) = context.entries().get(id.entry) else {
        return Ok(());
    };
    let context = context.name();
    insert_entry(arrows, finder, exits, ArrowSource { context, id, held })
}

/// The arrows of an extension, given its entries.
#[tactic(auto, unfolding(crate::specs::Jumps::arrows_of))]
pub(crate) fn arrows_of(
    finder: &mut PlanFinder<'_>,
    exits: &[QueueExit],
    ids: &[EntryId],
) -> Result<IndexSet<Arrow>, NoMemory>
    ensures arrows { IfOk result (λ arrows. arrows.keys ≡ spec.arrows_of finder.old exits.now ids.now) }
    ensures same { finder.new ≡ finder.old }
{
    let mut arrows = IndexSet::new(finder.alloc());
    for id in ids {
        insert_at(&mut arrows, finder, exits, *id)?;
    }
    Ok(arrows)
}
