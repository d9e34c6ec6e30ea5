//! The includes between the boxes of a picture.
ghost use Rattle.std.specs.Prelude.{◌≡◌, ◌++◌, ◌<◌, ◌+◌, length, OnOk};
ghost use Rattle.dp_graph.specs.Picture as picture;
ghost use Rattle.dp_graph.specs.Printing as spec;
ghost use Rattle.dp_plan.specs.Lookup.{includes_at};

use crate::label::{push_index, push_label_end};
use crate::names::push_box_node;
use dp_plan::{Dialplan, NoMemory, Text};
use std::alloc::Global;

/// The place of an include: the number of the context that has it, and its place there, counted from 1.
#[derive(Clone, Copy)]
struct IncludePlace {
    number: usize,
    place: usize,
}

/// Adds the start of the arrow of an include.
#[tactic(auto, unfolding(crate::specs::Printing::inclusion_start))]
fn push_start(out: &mut Vec<u8>, at: IncludePlace) -> Result<(), NoMemory>
    ensures { OnOk result (out.new.items ≡ out.old.items ++ spec.inclusion_start at.number) }
{
    push_box_node(out, at.number)?;
    out.extend_from_slice(b":top:e -> ")
}

/// Adds the name of the node of an include that no context has.
#[tactic(auto, unfolding(crate::specs::Printing::inclusion_node))]
fn push_node(out: &mut Vec<u8>, at: IncludePlace) -> Result<(), NoMemory>
    ensures { OnOk result (out.new.items ≡ out.old.items ++ spec.inclusion_node at.number at.place) }
{
    out.extend_from_slice(b"i")?;
    push_index(out, at.number)?;
    out.extend_from_slice(b"_")?;
    push_index(out, at.place)
}

/// Adds the end of the arrow of an include.
#[tactic(auto, unfolding(crate::specs::Printing::place_end))]
fn push_end(out: &mut Vec<u8>, at: IncludePlace) -> Result<(), NoMemory>
    ensures { OnOk result (out.new.items ≡ out.old.items ++ spec.place_end at.place) }
{
    out.extend_from_slice(b",label=\"")?;
    push_index(out, at.place)?;
    out.extend_from_slice(b"\"];\n")
}

/// Adds the box at which the arrow of an include ends.
#[tactic(auto, unfolding(crate::specs::Printing::included_box))]
fn push_included(out: &mut Vec<u8>, included: usize) -> Result<(), NoMemory>
    ensures { OnOk result (out.new.items ≡ out.old.items ++ spec.included_box included) }
{
    push_box_node(out, included)?;
    out.extend_from_slice(b":top:w [style=dashed")
}

/// Adds an include of the context with this number.
#[tactic(auto, unfolding(crate::specs::Printing::known_inclusion))]
fn push_known(out: &mut Vec<u8>, at: IncludePlace, included: usize) -> Result<(), NoMemory>
    ensures { OnOk result (out.new.items ≡ out.old.items ++ spec.known_inclusion at.number at.place included) }
{
    push_start(out, at)?;
    push_included(out, included)?;
    push_end(out, at)
}

/// Adds the node of an include that no context has.
#[tactic(auto, unfolding(crate::specs::Printing::unknown_node))]
fn push_unknown_node(
    alloc: Global,
    out: &mut Vec<u8>,
    at: IncludePlace,
    name: &[u8],
) -> Result<(), NoMemory>
    ensures { OnOk result (out.new.items ≡ out.old.items ++ spec.unknown_node at.number at.place name.now) }
{
    push_node(out, at)?;
    out.extend_from_slice(b" [shape=box,color=red,fontcolor=red,")?;
    push_label_end(alloc, out, name)
}

/// Adds an include that no context has.
#[tactic(auto, unfolding(crate::specs::Printing::unknown_inclusion))]
fn push_unknown(
    alloc: Global,
    out: &mut Vec<u8>,
    at: IncludePlace,
    name: &[u8],
) -> Result<(), NoMemory>
    ensures { OnOk result (out.new.items ≡ out.old.items ++ spec.unknown_inclusion at.number at.place name.now) }
{
    push_unknown_node(alloc, out, at, name)?;
    push_start(out, at)?;
    push_node(out, at)?;
    out.extend_from_slice(b" [style=dashed,color=red")?;
    push_end(out, at)
}

/// Adds an include.
#[tactic(auto, unfolding(crate::specs::Printing::inclusion_text))]
fn push_inclusion(
    alloc: Global,
    out: &mut Vec<u8>,
    plan: &Dialplan,
    at: IncludePlace,
    name: &Text,
) -> Result<(), NoMemory>
    ensures { OnOk result (out.new.items ≡ out.old.items
        ++ spec.inclusion_text (picture.inclusion_of plan.now at.number at.place name.now)) }
{
    match plan.number_of(name) {
        Some(included) => push_known(out, at, included),
        None => push_unknown(alloc, out, at, name.bytes()),
    }
}

/// Adds the include at an index of a context.
fn push_at(
    alloc: Global,
    out: &mut Vec<u8>,
    plan: &Dialplan,
    at: IncludePlace,
    index: usize,
) -> Result<(), NoMemory>
    requires has { index < length (includes_at plan.now at.number) }
    requires place { at.place ≡ index + 1 }
    ensures { OnOk result (out.new.items ≡ out.old.items ++ spec.inclusion_text (picture.inclusion_at plan.now at.number index)) }
{
    push_inclusion(alloc, out, plan, at, &plan.includes_at(at.number)[index])
}

/// Adds the includes of the context with this number.
fn push_all_at(
    alloc: Global,
    out: &mut Vec<u8>,
    plan: &Dialplan,
    number: usize,
) -> Result<(), NoMemory>
    ensures { OnOk result (out.new.items ≡ out.old.items ++ spec.inclusions_text (picture.inclusions_at plan.now number)) }
{
    for index in 0..plan.includes_at(number).len() {
        let place = index + 1;
        push_at(alloc, out, plan, IncludePlace { number, place }, index)?;
    }
    Ok(())
}

/// Adds the includes of all contexts.
pub(crate) fn push_inclusions(
    alloc: Global,
    out: &mut Vec<u8>,
    plan: &Dialplan,
) -> Result<(), NoMemory>
    ensures { OnOk result (out.new.items ≡ out.old.items ++ spec.inclusions_text (picture.inclusions_of plan.now)) }
{
    for number in 0..plan.contexts().len() {
        push_all_at(alloc, out, plan, number)?;
    }
    Ok(())
}
