//! The arrows of a picture that come from extensions.
ghost use Rattle.std.specs.Prelude.{◌≡◌, ◌++◌, IfOk, OnOk};
ghost use Rattle.std.specs.List.{flat_map};
ghost use Rattle.dp_audit.specs.Candidates.{extensions};
ghost use Rattle.dp_graph.specs.Picture as picture;
ghost use Rattle.dp_graph.specs.Printing as spec;

use crate::arrow::{Arrow, ArrowKind, Destination};
use crate::exit::QueueExit;
use crate::extensions::{name_of, ranked_of, split_first};
use crate::jumps::arrows_of;
use crate::label::{push_index, push_label_end, push_number};
use crate::names::{push_box_node, push_name};
use dp_audit::PlanFinder;
use dp_plan::{EntryId, NoMemory};
use std::alloc::Global;

/// An extension from which arrows come: the number and the name of its context, and its own name.
#[derive(Clone, Copy)]
struct Origin<'a> {
    number: usize,
    context: &'a [u8],
    extension: &'a [u8],
}

/// Adds an extension as part of the name of a node.
fn push_origin(out: &mut Vec<u8>, origin: Origin<'_>) -> Result<(), NoMemory>
    ensures { OnOk result (out.new.items ≡ out.old.items ++ spec.origin_part (picture.origin_view origin.entry)) }
{
    push_index(out, origin.number)?;
    out.extend_from_slice(b"_x")?;
    push_name(out, origin.extension)
}

/// Adds the name of the node of the computed targets of an entry with a priority.
fn push_computed(out: &mut Vec<u8>, origin: Origin<'_>, priority: u32) -> Result<(), NoMemory>
    ensures { OnOk result (out.new.items ≡ out.old.items ++ spec.computed_node (picture.origin_view origin.entry) priority) }
{
    out.extend_from_slice(b"d")?;
    push_origin(out, origin)?;
    out.extend_from_slice(b"_")?;
    push_number(out, priority)
}

/// Adds the name of the node of a missing target.
#[tactic(auto, unfolding(crate::specs::Printing::missing_node))]
fn push_missing(out: &mut Vec<u8>, origin: Origin<'_>, target: &[u8]) -> Result<(), NoMemory>
    ensures { OnOk result (out.new.items ≡ out.old.items ++ spec.missing_node (picture.origin_view origin.entry) target.now) }
{
    out.extend_from_slice(b"m")?;
    push_origin(out, origin)?;
    out.extend_from_slice(b"_x")?;
    push_name(out, target)
}

/// The entry with a priority, `CONTEXT,EXTENSION,PRIORITY`.
fn entry_text(alloc: Global, origin: Origin<'_>, priority: u32) -> Result<Vec<u8>, NoMemory>
    ensures { IfOk result (λ text. text.items ≡ spec.entry_text (picture.origin_view origin.entry) priority) }
{
    let mut text = Vec::new(alloc);
    text.extend_from_slice(origin.context)?;
    text.extend_from_slice(b",")?;
    text.extend_from_slice(origin.extension)?;
    text.extend_from_slice(b",")?;
    push_number(&mut text, priority)?;
    Ok(text)
}

/// Adds the node of the computed targets of an entry with a priority.
#[tactic(auto, unfolding(crate::specs::Printing::computed_text))]
fn push_computed_node(
    alloc: Global,
    out: &mut Vec<u8>,
    origin: Origin<'_>,
    priority: u32,
) -> Result<(), NoMemory>
    ensures { OnOk result (out.new.items ≡ out.old.items ++ spec.computed_text (picture.origin_view origin.entry) priority) }
{
    let text = entry_text(alloc, origin, priority)?;
    push_computed(out, origin, priority)?;
    out.extend_from_slice(b" [shape=diamond,")?;
    push_label_end(alloc, out, &text)
}

/// Adds the node of a missing target.
#[tactic(auto, unfolding(crate::specs::Printing::missing_text))]
fn push_missing_node(
    alloc: Global,
    out: &mut Vec<u8>,
    origin: Origin<'_>,
    target: &[u8],
) -> Result<(), NoMemory>
    ensures { OnOk result (out.new.items ≡ out.old.items ++ spec.missing_text (picture.origin_view origin.entry) target.now) }
{
    push_missing(out, origin, target)?;
    out.extend_from_slice(b" [shape=box,color=red,fontcolor=red,")?;
    push_label_end(alloc, out, target)
}

/// Adds the node to which an arrow leads, if that is no box.
#[tactic(auto, unfolding(crate::specs::Printing::node_text))]
fn push_node(
    alloc: Global,
    out: &mut Vec<u8>,
    origin: Origin<'_>,
    destination: &Destination,
) -> Result<(), NoMemory>
    ensures { OnOk result (out.new.items ≡ out.old.items ++ spec.node_text (picture.origin_view origin.entry) destination.now) }
{
    match destination {
        Destination::Extension { .. } | Destination::Context(_) => Ok(()),
        Destination::Computed(priority) => push_computed_node(alloc, out, origin, *priority),
        Destination::Missing(target) => push_missing_node(alloc, out, origin, target.bytes()),
    }
}

/// Adds the start of an arrow.
#[tactic(auto, unfolding(crate::specs::Printing::start_text))]
fn push_start(out: &mut Vec<u8>, origin: Origin<'_>) -> Result<(), NoMemory>
    ensures { OnOk result (out.new.items ≡ out.old.items ++ spec.start_text (picture.origin_view origin.entry)) }
{
    push_box_node(out, origin.number)?;
    out.extend_from_slice(b":y")?;
    push_name(out, origin.extension)?;
    out.extend_from_slice(b":e -> ")
}

/// Adds the row at which an arrow ends.
fn push_row_end(out: &mut Vec<u8>, is_own: bool, number: usize, name: &[u8]) -> Result<(), NoMemory>
    ensures { OnOk result (out.new.items ≡ out.old.items ++ spec.row_end is_own number name.now) }
{
    push_box_node(out, number)?;
    if is_own {
        out.extend_from_slice(b":y")?;
        push_name(out, name)?;
        return out.extend_from_slice(b":e");
    }
    out.extend_from_slice(b":x")?;
    push_name(out, name)?;
    out.extend_from_slice(b":w")
}

/// Adds the end of an arrow to the box of a context.
fn push_box_end(out: &mut Vec<u8>, number: usize) -> Result<(), NoMemory>
    ensures { OnOk result (out.new.items ≡ out.old.items ++ spec.box_end number) }
{
    push_box_node(out, number)?;
    out.extend_from_slice(b":top:w")
}

/// Adds the end of an arrow.
#[tactic(auto, unfolding(crate::specs::Printing::end_text))]
fn push_end(
    out: &mut Vec<u8>,
    origin: Origin<'_>,
    destination: &Destination,
) -> Result<(), NoMemory>
    ensures { OnOk result (out.new.items ≡ out.old.items ++ spec.end_text (picture.origin_view origin.entry) destination.now) }
{
    match destination {
        Destination::Extension { context, spelling } => {
            push_row_end(out, *context == origin.number, *context, spelling.bytes())
        }
        Destination::Context(number) => push_box_end(out, *number),
        Destination::Computed(priority) => push_computed(out, origin, *priority),
        Destination::Missing(target) => push_missing(out, origin, target.bytes()),
    }
}

/// The ink of an arrow.
#[tactic(auto, unfolding(crate::specs::Printing::ink_of))]
fn ink_of(destination: &Destination) -> &'static [u8]
    ensures { result.now ≡ spec.ink_of destination.now }
{
    match destination {
        Destination::Extension { .. } | Destination::Context(_) | Destination::Computed(_) => {
            b"black"
        }
        Destination::Missing(_) => b"red",
    }
}

/// Adds the style of an arrow that is drawn double.
fn push_double(out: &mut Vec<u8>, ink: &[u8]) -> Result<(), NoMemory>
    ensures { OnOk result (out.new.items ≡ out.old.items ++ spec.double_style ink.now) }
{
    out.extend_from_slice(b" [color=\"")?;
    out.extend_from_slice(ink)?;
    out.extend_from_slice(b":white:")?;
    out.extend_from_slice(ink)?;
    out.extend_from_slice(b"\"];\n")
}

/// Adds the style of an arrow of one line.
fn push_single(out: &mut Vec<u8>, start: &[u8], ink: &[u8]) -> Result<(), NoMemory>
    ensures { OnOk result (out.new.items ≡ out.old.items ++ spec.single_style start.now ink.now) }
{
    out.extend_from_slice(start)?;
    out.extend_from_slice(ink)?;
    out.extend_from_slice(b"];\n")
}

/// Adds the style of an arrow.
#[tactic(auto, unfolding(crate::specs::Printing::style_text))]
fn push_style(out: &mut Vec<u8>, kind: ArrowKind, ink: &[u8]) -> Result<(), NoMemory>
    ensures { OnOk result (out.new.items ≡ out.old.items ++ spec.style_text kind ink.now) }
{
    match kind {
        ArrowKind::Jump => push_single(out, b" [color=", ink),
        ArrowKind::Subroutine => push_double(out, ink),
        ArrowKind::WayOut => push_single(out, b" [style=dotted,color=", ink),
    }
}

/// Adds an arrow.
#[tactic(auto, unfolding(crate::specs::Printing::arrow_from))]
fn push_arrow(
    alloc: Global,
    out: &mut Vec<u8>,
    origin: Origin<'_>,
    arrow: &Arrow,
) -> Result<(), NoMemory>
    ensures { OnOk result (out.new.items ≡ out.old.items ++ spec.arrow_from (picture.origin_view origin.entry) arrow.now) }
{
    push_node(alloc, out, origin, &arrow.destination)?;
    push_start(out, origin)?;
    push_end(out, origin, &arrow.destination)?;
    push_style(out, arrow.kind, ink_of(&arrow.destination))
}

/// Adds the arrows.
fn push_all(
    alloc: Global,
    out: &mut Vec<u8>,
    origin: Origin<'_>,
    arrows: &[Arrow],
) -> Result<(), NoMemory>
    ensures { OnOk result (out.new.items ≡ out.old.items
        ++ spec.arrows_text (picture.drawn_all (picture.origin_view origin.entry) arrows.now)) }
{
    for arrow in arrows {
        push_arrow(alloc, out, origin, arrow)?;
    }
    Ok(())
}

/// Adds the arrows of an extension of the context with this number, given its entries.
fn push_extension(
    out: &mut Vec<u8>,
    finder: &mut PlanFinder<'_>,
    exits: &[QueueExit],
    number: usize,
    ids: &[EntryId],
) -> Result<(), NoMemory>
    ensures arrows { OnOk result (out.new.items ≡ out.old.items
        ++ spec.arrows_text (picture.extension_arrows finder.old exits.now number ids.now)) }
    ensures same { finder.new ≡ finder.old }
{
    let plan = finder.plan();
    let Some(first) = ids.first() else {
        return Ok(());
    };
    let Some(entry) = plan.entry(*first) else {
        return Ok(());
    };
    let origin = Origin {
        number,
        context: name_of(plan, number),
        extension: entry.name.spelling(),
    };
    let arrows = arrows_of(finder, exits, ids)?;
    push_all(finder.alloc(), out, origin, arrows.as_slice())
}

/// Adds the arrows of the extensions of ranked entries of the context with this number.
fn push_extensions(
    out: &mut Vec<u8>,
    finder: &mut PlanFinder<'_>,
    exits: &[QueueExit],
    number: usize,
    ids: &[EntryId],
) -> Result<(), NoMemory>
    ensures arrows { OnOk result (out.new.items ≡ out.old.items ++ spec.arrows_text
        (flat_map (picture.extension_arrows finder.old exits.now number) (extensions finder.old ids.now))) }
    ensures same { finder.new ≡ finder.old }
{
    let mut rest = ids;
    while !rest.is_empty() {
        let (extension, after) = split_first(finder.plan(), rest);
        push_extension(out, finder, exits, number, extension)?;
        rest = after;
    }
    Ok(())
}

/// Adds the arrows of the context with this number.
fn push_context(
    out: &mut Vec<u8>,
    finder: &mut PlanFinder<'_>,
    exits: &[QueueExit],
    number: usize,
) -> Result<(), NoMemory>
    ensures arrows { OnOk result (out.new.items ≡ out.old.items
        ++ spec.arrows_text (picture.context_arrows finder.old exits.now number)) }
    ensures same { finder.new ≡ finder.old }
{
    let ids = ranked_of(finder.plan(), number);
    push_extensions(out, finder, exits, number, ids)
}

/// Adds the arrows of all contexts.
pub(crate) fn push_arrows(
    out: &mut Vec<u8>,
    finder: &mut PlanFinder<'_>,
    exits: &[QueueExit],
) -> Result<(), NoMemory>
    ensures arrows { OnOk result (out.new.items ≡ out.old.items ++ spec.arrows_text (picture.all_arrows finder.old exits.now)) }
    ensures same { finder.new ≡ finder.old }
{
    for number in 0..finder.plan().contexts().len() {
        push_context(out, finder, exits, number)?;
    }
    Ok(())
}
