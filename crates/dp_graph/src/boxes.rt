//! The boxes of a picture.
ghost use Rattle.std.specs.Prelude.{◌≡◌, ◌++◌, IfOk, OnOk};
ghost use Rattle.std.specs.List.{flat_map};
ghost use Rattle.dp_audit.specs.Candidates.{extensions, ranked_of};
ghost use Rattle.dp_audit.specs.Findings.{context_name};
ghost use Rattle.dp_graph.specs.Boxes as boxes;
ghost use Rattle.dp_graph.specs.Printing as spec;
ghost use Rattle.dp_graph.specs.Shading.{shading_now};

use crate::extensions::{name_of, ranked_of, split_first};
use crate::label::{push_label, push_short};
use crate::names::{push_box_node, push_name};
use crate::shade::{Shade, shade_of};
use crate::shading::Shading;
use dp_plan::{Dialplan, Entry, EntryId, NoMemory};
use std::alloc::Global;

/// Adds the colour of a heading.
#[tactic(auto, unfolding(crate::specs::Printing::heading_colour))]
fn push_heading_colour(out: &mut Vec<u8>, shade: Shade) -> Result<(), NoMemory>
    ensures { OnOk result (out.new.items ≡ out.old.items ++ spec.heading_colour shade) }
{
    match shade {
        Shade::Plain => out.extend_from_slice(b"#dce6f2"),
        Shade::Reached => out.extend_from_slice(b"#a9d6a9"),
        Shade::Unreached => out.extend_from_slice(b"#c8c8c8"),
        Shade::AllRan => out.extend_from_slice(b"#6fb36f"),
        Shade::SomeRan => out.extend_from_slice(b"#e0c050"),
        Shade::NoneRan => out.extend_from_slice(b"#e6e6e6"),
    }
}

/// Adds the colour of a row.
#[tactic(auto, unfolding(crate::specs::Printing::row_colour))]
fn push_row_colour(out: &mut Vec<u8>, shade: Shade) -> Result<(), NoMemory>
    ensures { OnOk result (out.new.items ≡ out.old.items ++ spec.row_colour shade) }
{
    match shade {
        Shade::Plain => out.extend_from_slice(b"#ffffff"),
        Shade::Reached => out.extend_from_slice(b"#e2f3e2"),
        Shade::Unreached => out.extend_from_slice(b"#e6e6e6"),
        Shade::AllRan => out.extend_from_slice(b"#8cc98c"),
        Shade::SomeRan => out.extend_from_slice(b"#f0dc82"),
        Shade::NoneRan => out.extend_from_slice(b"#ffffff"),
    }
}

/// Adds the start of a cell of a row, up to the sign for its side.
#[tactic(auto, unfolding(crate::specs::Printing::port_start))]
fn push_port_start(out: &mut Vec<u8>, side: &[u8]) -> Result<(), NoMemory>
    ensures { OnOk result (out.new.items ≡ out.old.items ++ spec.port_start side.now) }
{
    out.extend_from_slice(b"<td port=\"")?;
    out.extend_from_slice(side)
}

/// Adds the start of the style of a cell.
#[tactic(auto, unfolding(crate::specs::Printing::style_start))]
fn push_style_start(out: &mut Vec<u8>) -> Result<(), NoMemory>
    ensures { OnOk result (out.new.items ≡ out.old.items ++ spec.style_start) }
{
    out.extend_from_slice(b"\" align=\"left\" bgcolor=\"")
}

/// Adds the style of a cell of a row.
#[tactic(auto, unfolding(crate::specs::Printing::cell_style))]
fn push_cell_style(out: &mut Vec<u8>, shade: Shade) -> Result<(), NoMemory>
    ensures { OnOk result (out.new.items ≡ out.old.items ++ spec.cell_style shade) }
{
    push_style_start(out)?;
    push_row_colour(out, shade)?;
    out.extend_from_slice(b"\">")
}

/// Adds the start of a cell of the row with this name, at the side with this sign.
#[tactic(auto, unfolding(crate::specs::Printing::cell_start))]
fn push_cell_start(
    out: &mut Vec<u8>,
    side: &[u8],
    name: &[u8],
    shade: Shade,
) -> Result<(), NoMemory>
    ensures { OnOk result (out.new.items ≡ out.old.items ++ spec.cell_start side.now name.now shade) }
{
    push_port_start(out, side)?;
    push_name(out, name)?;
    push_cell_style(out, shade)
}

/// Adds the cell of a row's name.
#[tactic(auto, unfolding(crate::specs::Printing::name_cell))]
fn push_name_cell(
    alloc: Global,
    out: &mut Vec<u8>,
    entry: &Entry,
    shade: Shade,
) -> Result<(), NoMemory>
    ensures { OnOk result (out.new.items ≡ out.old.items ++ spec.name_cell (boxes.row_by shade entry.now)) }
{
    push_cell_start(out, b"x", entry.name.spelling(), shade)?;
    push_label(alloc, out, entry.name.spelling())?;
    out.extend_from_slice(b" </td>")
}

/// What an entry does.
fn action_of(alloc: Global, entry: &Entry) -> Result<Vec<u8>, NoMemory>
    ensures { IfOk result (λ text. text.items ≡ boxes.action_of entry.now) }
{
    let mut text = Vec::new(alloc);
    text.extend_from_slice(entry.application.bytes())?;
    text.extend_from_slice(b"(")?;
    text.extend_from_slice(entry.arguments.bytes())?;
    text.extend_from_slice(b")")?;
    Ok(text)
}

/// Adds the cell of what a row's first entry does.
#[tactic(auto, unfolding(crate::specs::Printing::action_cell))]
fn push_action_cell(
    alloc: Global,
    out: &mut Vec<u8>,
    entry: &Entry,
    shade: Shade,
) -> Result<(), NoMemory>
    ensures { OnOk result (out.new.items ≡ out.old.items ++ spec.action_cell (boxes.row_by shade entry.now)) }
{
    let action = action_of(alloc, entry)?;
    push_cell_start(out, b"y", entry.name.spelling(), shade)?;
    push_short(alloc, out, &action)?;
    out.extend_from_slice(b" </td>")
}

/// Adds the row of an extension, given its first entry.
#[tactic(auto, unfolding(crate::specs::Printing::row_text))]
fn push_row(alloc: Global, out: &mut Vec<u8>, entry: &Entry, shade: Shade) -> Result<(), NoMemory>
    ensures { OnOk result (out.new.items ≡ out.old.items ++ spec.row_text (boxes.row_by shade entry.now)) }
{
    out.extend_from_slice(b"<tr>")?;
    push_name_cell(alloc, out, entry, shade)?;
    push_action_cell(alloc, out, entry, shade)?;
    out.extend_from_slice(b"</tr>\n")
}

/// Adds the row of an extension, given its entries.
fn push_extension(
    alloc: Global,
    out: &mut Vec<u8>,
    plan: &Dialplan,
    shading: Shading<'_>,
    ids: &[EntryId],
) -> Result<(), NoMemory>
    ensures { OnOk result (out.new.items ≡ out.old.items
        ++ flat_map spec.row_text (boxes.rows_of plan.now (shading_now shading.entry) ids.now)) }
{
    let Some(first) = ids.first() else {
        return Ok(());
    };
    match plan.entry(*first) {
        Some(entry) => push_row(alloc, out, entry, shade_of(shading, ids)),
        None => Ok(()),
    }
}

/// Adds the rows of the extensions of ranked entries.
fn push_extensions(
    alloc: Global,
    out: &mut Vec<u8>,
    plan: &Dialplan,
    shading: Shading<'_>,
    ids: &[EntryId],
) -> Result<(), NoMemory>
    ensures { OnOk result (out.new.items ≡ out.old.items ++ flat_map spec.row_text
        (flat_map (boxes.rows_of plan.now (shading_now shading.entry)) (extensions plan.now ids.now))) }
{
    let mut rest = ids;
    while !rest.is_empty() {
        let (extension, after) = split_first(plan, rest);
        push_extension(alloc, out, plan, shading, extension)?;
        rest = after;
    }
    Ok(())
}

/// Adds the start of the row with the name of a context.
#[tactic(auto, unfolding(crate::specs::Printing::heading_start))]
fn push_heading_start(out: &mut Vec<u8>, shade: Shade) -> Result<(), NoMemory>
    ensures { OnOk result (out.new.items ≡ out.old.items ++ spec.heading_start shade) }
{
    out.extend_from_slice(b"<tr><td port=\"top\" colspan=\"2\" bgcolor=\"")?;
    push_heading_colour(out, shade)?;
    out.extend_from_slice(b"\"><b>")
}

/// Adds the row with the name of a context.
#[tactic(auto, unfolding(crate::specs::Printing::heading_text))]
fn push_heading(alloc: Global, out: &mut Vec<u8>, name: &[u8], shade: Shade) -> Result<(), NoMemory>
    ensures { OnOk result (out.new.items ≡ out.old.items ++ spec.heading_text shade name.now) }
{
    push_heading_start(out, shade)?;
    push_label(alloc, out, name)?;
    out.extend_from_slice(b" </b></td></tr>\n")
}

/// Adds the start of the box of the context with this number.
#[tactic(auto, unfolding(crate::specs::Printing::box_start))]
fn push_box_start(out: &mut Vec<u8>, number: usize) -> Result<(), NoMemory>
    ensures { OnOk result (out.new.items ≡ out.old.items ++ spec.box_start number) }
{
    push_box_node(out, number)?;
    out.extend_from_slice(
        b" [label=<<table border=\"0\" cellborder=\"1\" cellspacing=\"0\" cellpadding=\"3\">\n",
    )
}

/// How the box of the context with this number is shown.
fn box_shade(plan: &Dialplan, shading: Shading<'_>, number: usize) -> Shade
    ensures { result ≡ boxes.shade_of (shading_now shading.entry) (ranked_of plan.now number) }
{
    shade_of(shading, ranked_of(plan, number))
}

/// Adds the rows of the context with this number.
fn push_rows(
    alloc: Global,
    out: &mut Vec<u8>,
    plan: &Dialplan,
    shading: Shading<'_>,
    number: usize,
) -> Result<(), NoMemory>
    ensures { OnOk result (out.new.items ≡ out.old.items ++ flat_map spec.row_text
        (flat_map (boxes.rows_of plan.now (shading_now shading.entry)) (extensions plan.now (ranked_of plan.now number)))) }
{
    push_extensions(alloc, out, plan, shading, ranked_of(plan, number))
}

/// Adds the start of the box of the context with this number, with the row that has its name.
#[tactic(auto, unfolding(crate::specs::Printing::box_top))]
fn push_box_top(
    alloc: Global,
    out: &mut Vec<u8>,
    plan: &Dialplan,
    shading: Shading<'_>,
    number: usize,
) -> Result<(), NoMemory>
    ensures { OnOk result (out.new.items ≡ out.old.items ++ spec.box_top number
        (boxes.shade_of (shading_now shading.entry) (ranked_of plan.now number)) (context_name plan.now number)) }
{
    let shade = box_shade(plan, shading, number);
    push_box_start(out, number)?;
    push_heading(alloc, out, name_of(plan, number), shade)
}

/// Adds the box of the context with this number.
#[tactic(auto, unfolding(crate::specs::Printing::box_text))]
fn push_box(
    alloc: Global,
    out: &mut Vec<u8>,
    plan: &Dialplan,
    shading: Shading<'_>,
    number: usize,
) -> Result<(), NoMemory>
    ensures { OnOk result (out.new.items ≡ out.old.items
        ++ spec.box_text (boxes.box_at plan.now (shading_now shading.entry) number)) }
{
    push_box_top(alloc, out, plan, shading, number)?;
    push_rows(alloc, out, plan, shading, number)?;
    out.extend_from_slice(b"</table>>];\n")
}

/// Adds the boxes of all contexts.
pub(crate) fn push_boxes(
    alloc: Global,
    out: &mut Vec<u8>,
    plan: &Dialplan,
    shading: Shading<'_>,
) -> Result<(), NoMemory>
    ensures { OnOk result (out.new.items ≡ out.old.items
        ++ spec.boxes_text (boxes.boxes_of plan.now (shading_now shading.entry))) }
{
    for number in 0..plan.contexts().len() {
        push_box(alloc, out, plan, shading, number)?;
    }
    Ok(())
}
