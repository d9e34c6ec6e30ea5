//! The picture of a dialplan, which is written whole.
ghost use Rattle.std.specs.Prelude.{◌≡◌, ◌++◌, ◌||◌, IfOk, OnOk, OnErr};
ghost use Rattle.std.specs.Io.KnownBytes.{Appends};
ghost use Rattle.dp_conf.specs.Fronts.{AppendsFront};
ghost use Rattle.dp_graph.specs.Faults.{is_write_failed};
ghost use Rattle.dp_graph.specs.Picture.{picture_of};
ghost use Rattle.dp_graph.specs.Printing as spec;
ghost use Rattle.dp_graph.specs.Shading.{shading_now};

use crate::arrows::push_arrows;
use crate::boxes::push_boxes;
use crate::exit::QueueExit;
use crate::fault::GraphFault;
use crate::inclusions::push_inclusions;
use crate::shading::Shading;
use dp_audit::PlanFinder;
use dp_conf::WriteTold;
use dp_plan::{Dialplan, NoMemory};
use std::alloc::Global;

/// Adds the first lines.
#[tactic(auto, unfolding(crate::specs::Printing::opening))]
fn push_opening(out: &mut Vec<u8>) -> Result<(), NoMemory>
    ensures { OnOk result (out.new.items ≡ out.old.items ++ spec.opening) }
{
    out.extend_from_slice(b"digraph dialplan {\nrankdir=LR;\nranksep=0.8;\nnodesep=0.25;\n")?;
    out.extend_from_slice(b"node [shape=plain,fontname=\"Helvetica\",fontsize=9];\n")?;
    out.extend_from_slice(b"edge [fontname=\"Helvetica\",fontsize=8,arrowsize=0.6];\n")
}

/// The text of a picture of a dialplan, as [`write_graph`] writes it. It fails only if memory runs out.
#[tactic(auto, unfolding(crate::specs::Picture::picture_of, crate::specs::Printing::text_of))]
pub fn picture_text(
    alloc: Global,
    plan: &Dialplan,
    shading: Shading<'_>,
    exits: &[QueueExit],
) -> Result<Vec<u8>, NoMemory>
    ensures { IfOk result (λ text. text.items
        ≡ spec.text_of (picture_of plan.now (shading_now shading.entry) exits.now)) }
{
    let mut out = Vec::new(alloc);
    let mut finder = PlanFinder::new(alloc, plan)?;
    push_opening(&mut out)?;
    push_boxes(alloc, &mut out, plan, shading)?;
    push_inclusions(alloc, &mut out, plan)?;
    push_arrows(&mut out, &mut finder, exits)?;
    out.extend_from_slice(b"}\n")?;
    Ok(out)
}

/// Writes a picture of a dialplan in the DOT language of Graphviz.
///
/// Each context is a box, with a row for each of its extensions, in the order in which a look-up tries them: the name, and what the entry
/// with the least priority does, at most 40 characters of it. What the fills say is `shading`:
///
/// - `Plain`: nothing. Rows are white (`#ffffff`), and the names of contexts stand on blue (`#dce6f2`).
/// - `Reached`: the rows that have one of the entries are green (`#e2f3e2`), and the others grey (`#e6e6e6`). So are the names of contexts, in
///   darker shades (`#a9d6a9` and `#c8c8c8`).
/// - `Tested`: the rows of which all entries are given are green (`#8cc98c`), those of which only some are given are yellow (`#f0dc82`), and
///   those of which none is given are white (`#ffffff`). So are the names of contexts, by the entries of the context itself, in darker shades
///   (`#6fb36f`, `#e0c050` and, for none, grey: `#e6e6e6`). In grey print, the more entries are given, the darker is the fill.
///
/// Arrows are dashed for includes, with their place in the context; solid for the jumps of `Goto`, `GotoIf` and `GotoIfTime`; double for
/// `Gosub` and `GosubIf`; and dotted for the ways out of queues that are given, from each extension that runs `Queue` with the name of such
/// a queue. What an `ExecIf` may run has the arrows that it would have as an entry, but an `ExecIf` inside another one has none.
///
/// A jump leads to the row of the entry that answers, which may be in an included context. A jump that stays in its extension is left out,
/// and an extension has only one arrow of a kind to the same place. A target that is computed, or that leads from a pattern to the dialled
/// extension in another context, is a diamond with the name of its entry. A place that is named and does not exist is red.
///
/// Texts are read as UTF-8 or, if they are not, as Latin-1, and written in ASCII, so that each dialplan gives a file that `dot` reads. The
/// time is proportional to the size of the dialplan and of the picture, apart from look-ups and from the search for a way out among those
/// given.
///
/// The error is `WriteFailed` if a write fails; then a prefix of the picture is written. It is `NoMemory` if memory runs out; then nothing
/// is written.
pub fn write_graph<W: WriteTold>(
    alloc: Global,
    plan: &Dialplan,
    shading: Shading<'_>,
    exits: &[QueueExit],
    writer: &mut W,
) -> Result<(), GraphFault>
    ensures ok { OnOk result (Appends (W.contents writer.old) (W.contents writer.new)
        (spec.text_of (picture_of plan.now (shading_now shading.entry) exits.now))) }
    ensures err { OnErr result (AppendsFront (W.contents writer.old) (W.contents writer.new)
        (spec.text_of (picture_of plan.now (shading_now shading.entry) exits.now))) }
    ensures told { W.has_failed writer.new ≡ (W.has_failed writer.old || is_write_failed result) }
{
    let text = picture_text(alloc, plan, shading, exits)?;
    writer.write_told(&text)?;
    Ok(())
}
