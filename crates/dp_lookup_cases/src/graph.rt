//! Pictures of small dialplans, worked out by hand from the rules.
use dp_case_tables::{Question, bytes_of, check, check_same, check_that, push_bytes};
use dp_conf::Told;
use dp_graph::{Dialplan, EntryId, GraphFault, NoMemory, QueueExit, Shading, Text, write_graph};
use indexmap::IndexSet;
use std::alloc::Global;
use std::io::{ErrorKind, Write};
use std::test::Fail;
use std::{io, str};

/// The first lines of each picture.
const OPENING: &str = r#"digraph dialplan {
rankdir=LR;
ranksep=0.8;
nodesep=0.25;
node [shape=plain,fontname="Helvetica",fontsize=9];
edge [fontname="Helvetica",fontsize=8,arrowsize=0.6];
"#;

/// The lines of a dialplan after `[a]`, and the lines of its picture after the boxes.
///
/// The queue `q` lets a caller out to the context `b`, and the queue `r` to the context `nowhere`. A second way out of `q` counts for nothing.
const ARROWS: &str = r#"
# No arrows.
→
exten=>1,1,A(2,1)\nexten=>2,1,A()→
# A jump in the context, and to another.
exten=>1,1,Goto(2,1)\nexten=>2,1,A()→c0:y1:e -> c0:y2:e [color=black];\n
exten=>1,1,Goto(b,2,1)\n[b]\nexten=>2,1,A()→c0:y1:e -> c1:x2:w [color=black];\n
exten=>1,1,goto( b , 2 , 1 )\n[b]\nexten=>2,1,A()→c0:y1:e -> c1:x2:w [color=black];\n
# Both sides of a choice, and one.
exten=>1,1,GotoIf(x?2,1:3,1)\nexten=>2,1,A()\nexten=>3,1,A()→c0:y1:e -> c0:y2:e [color=black];\nc0:y1:e -> c0:y3:e [color=black];\n
exten=>1,1,GotoIf(x?:3,1)\nexten=>3,1,A()→c0:y1:e -> c0:y3:e [color=black];\n
exten=>1,1,GotoIfTime(8:00-9:00,*,*,*?3,1)\nexten=>3,1,A()→c0:y1:e -> c0:y3:e [color=black];\n
# Subroutines.
exten=>1,1,Gosub(b,2,1(x,y))\n[b]\nexten=>2,1,A()→c0:y1:e -> c1:x2:w [color="black:white:black"];\n
exten=>1,1,GosubIf(x?2,1(y):3,1)\nexten=>2,1,A()\nexten=>3,1,A()→c0:y1:e -> c0:y2:e [color="black:white:black"];\nc0:y1:e -> c0:y3:e [color="black:white:black"];\n
# Jumps that stay in the extension.
exten=>1,1(top),A()\nexten=>1,2,Goto(1)\nexten=>1,3,Goto(top)\nexten=>1,4,Goto(1,1)\nexten=>1,5,Goto(a,1,1)→
exten=>_X,1,A()\nexten=>_X,2,Goto(1)\nexten=>_X,3,Goto(7)→
# A jump in a plain extension that a pattern answers.
exten=>12,1,Goto(2)\nexten=>_1X,2,A()→c0:y12:e -> c0:y_95_1X:e [color=black];\n
# The label of another extension.
exten=>1,1,Goto(2,go)\nexten=>2,5(go),A()→c0:y1:e -> c0:y2:e [color=black];\n
# One arrow for two jumps to one extension, and two for a jump and a subroutine.
exten=>1,1,Goto(2,1)\nexten=>1,2,Goto(2,2)\nexten=>2,1,A()\nexten=>2,2,A()→c0:y1:e -> c0:y2:e [color=black];\n
exten=>1,1,GotoIf(x?2,1:2,1)\nexten=>2,1,A()→c0:y1:e -> c0:y2:e [color=black];\n
exten=>1,1,Gosub(2,1)\nexten=>1,2,Goto(2,1)\nexten=>2,1,A()→c0:y1:e -> c0:y2:e [color="black:white:black"];\nc0:y1:e -> c0:y2:e [color=black];\n
# The extension that answers is in an included context.
exten=>1,1,Goto(b,2,1)\n[b]\ninclude=>c\n[c]\nexten=>2,1,A()→c1:top:e -> c2:top:w [style=dashed,label="1"];\nc0:y1:e -> c2:x2:w [color=black];\n
# The order of the extensions is that of a look-up.
exten=>_X,1,Goto(2,1)\nexten=>1,1,Goto(2,1)\nexten=>2,1,A()→c0:y1:e -> c0:y2:e [color=black];\nc0:y_95_X:e -> c0:y2:e [color=black];\n
# Computed targets, one diamond for each entry.
exten=>1,1,Goto(${X},1)→d0_x1_1 [shape=diamond,label=<a,1,1 >];\nc0:y1:e -> d0_x1_1 [color=black];\n
exten=>1,2,GotoIf(x?${X}:${Y})→d0_x1_2 [shape=diamond,label=<a,1,2 >];\nc0:y1:e -> d0_x1_2 [color=black];\n
exten=>1,1,Gosub(${X},1)\nexten=>1,2,Goto(${X},1)→d0_x1_1 [shape=diamond,label=<a,1,1 >];\nc0:y1:e -> d0_x1_1 [color="black:white:black"];\nd0_x1_2 [shape=diamond,label=<a,1,2 >];\nc0:y1:e -> d0_x1_2 [color=black];\n
# The dialled extension, from a pattern and from a plain extension.
exten=>_X,1,Goto(b,,1)\n[b]\nexten=>1,1,A()→d0_x_95_X_1 [shape=diamond,label=<a,_X,1 >];\nc0:y_95_X:e -> d0_x_95_X_1 [color=black];\n
exten=>1,1,Goto(b,,1)\n[b]\nexten=>1,1,A()→c0:y1:e -> c1:x1:w [color=black];\n
# Targets that lead nowhere.
exten=>1,1,Goto(2,1)→m0_x1_x2_44_1 [shape=box,color=red,fontcolor=red,label=<2,1 >];\nc0:y1:e -> m0_x1_x2_44_1 [color=red];\n
exten=>1,1,Goto(top)\nexten=>1,2,Goto(top)→m0_x1_xtop [shape=box,color=red,fontcolor=red,label=<top >];\nc0:y1:e -> m0_x1_xtop [color=red];\n
exten=>1,1,Gosub(b,1,1)→m0_x1_xb_44_1_44_1 [shape=box,color=red,fontcolor=red,label=<b,1,1 >];\nc0:y1:e -> m0_x1_xb_44_1_44_1 [color="red:white:red"];\n
exten=>1,1,Goto(a,1,1,1)→m0_x1_xa_44_1_44_1_44_1 [shape=box,color=red,fontcolor=red,label=<a,1,1,1 >];\nc0:y1:e -> m0_x1_xa_44_1_44_1_44_1 [color=red];\n
exten=>1,1,Goto()→m0_x1_x [shape=box,color=red,fontcolor=red,label=< >];\nc0:y1:e -> m0_x1_x [color=red];\n
# Includes, and one of no context.
include=>b\ninclude=>c\n[b]\n[c]→c0:top:e -> c1:top:w [style=dashed,label="1"];\nc0:top:e -> c2:top:w [style=dashed,label="2"];\n
include=>a→c0:top:e -> c0:top:w [style=dashed,label="1"];\n
include=>b→i0_1 [shape=box,color=red,fontcolor=red,label=<b >];\nc0:top:e -> i0_1 [style=dashed,color=red,label="1"];\n
# Ways out of queues.
exten=>1,1,Queue(q,t)\n[b]→c0:y1:e -> c1:top:w [style=dotted,color=black];\n
exten=>1,1,queue( q )\nexten=>1,2,Queue(q,,,,9)\n[b]→c0:y1:e -> c1:top:w [style=dotted,color=black];\n
exten=>1,1,Queue(r)→m0_x1_xnowhere [shape=box,color=red,fontcolor=red,label=<nowhere >];\nc0:y1:e -> m0_x1_xnowhere [style=dotted,color=red];\n
exten=>1,1,Queue(s)\nexten=>1,2,A(q)→
"#;

/// The lines of a dialplan after `[a]`, and the rows of this context in its picture.
const ROWS: &str = r##"
exten=>1,1,A(x)→<tr><td port="x1" align="left" bgcolor="#ffffff">1 </td><td port="y1" align="left" bgcolor="#ffffff">A(x) </td></tr>\n
# The first entry is the one with the least priority.
exten=>1,3,C()\nexten=>1,2,B()→<tr><td port="x1" align="left" bgcolor="#ffffff">1 </td><td port="y1" align="left" bgcolor="#ffffff">B() </td></tr>\n
# The more specific name comes first.
exten=>_X,1,A()\nexten=>1,1,B()→<tr><td port="x1" align="left" bgcolor="#ffffff">1 </td><td port="y1" align="left" bgcolor="#ffffff">B() </td></tr>\n<tr><td port="x_95_X" align="left" bgcolor="#ffffff">_X </td><td port="y_95_X" align="left" bgcolor="#ffffff">A() </td></tr>\n
# Two spellings of one name.
exten=>_[1-3],1,A()\nexten=>_[123],2,B()→<tr><td port="x_95__91_123_93_" align="left" bgcolor="#ffffff">_[123] </td><td port="y_95__91_123_93_" align="left" bgcolor="#ffffff">A() </td></tr>\n
# Signs that a label cannot have, and control characters.
exten=>1,1,A(<&>")→<tr><td port="x1" align="left" bgcolor="#ffffff">1 </td><td port="y1" align="left" bgcolor="#ffffff">A(&#60;&#38;&#62;&#34;) </td></tr>\n
exten=>1,1,A(x\x01\x7Fy)→<tr><td port="x1" align="left" bgcolor="#ffffff">1 </td><td port="y1" align="left" bgcolor="#ffffff">A(x&#9217;&#9249;y) </td></tr>\n
# UTF-8, and what is not UTF-8.
exten=>1,1,A(\xC3\xBC)→<tr><td port="x1" align="left" bgcolor="#ffffff">1 </td><td port="y1" align="left" bgcolor="#ffffff">A(&#252;) </td></tr>\n
exten=>1,1,A(\xFC\xC3\xBC)→<tr><td port="x1" align="left" bgcolor="#ffffff">1 </td><td port="y1" align="left" bgcolor="#ffffff">A(&#252;&#195;&#188;) </td></tr>\n
exten=>1,1,A(\xEF\xBF\xBE\xEF\xBF\xBF)→<tr><td port="x1" align="left" bgcolor="#ffffff">1 </td><td port="y1" align="left" bgcolor="#ffffff">A(&#65533;&#65533;) </td></tr>\n
# 40 characters, and 41.
exten=>1,1,A(1234567890123456789012345678901234567)→<tr><td port="x1" align="left" bgcolor="#ffffff">1 </td><td port="y1" align="left" bgcolor="#ffffff">A(1234567890123456789012345678901234567) </td></tr>\n
exten=>1,1,A(12345678901234567890123456789012345678)→<tr><td port="x1" align="left" bgcolor="#ffffff">1 </td><td port="y1" align="left" bgcolor="#ffffff">A(12345678901234567890123456789012345678... </td></tr>\n
"##;

/// The entries that a call reaches, as `CONTEXT.ENTRY` counted from 0, or `-` if nothing is known; and, after ` | `, the lines of a dialplan
/// after `[a]`. Then the lines of its picture between the first lines and the last.
const PICTURES: &str = r##"
- | →c0 [label=<<table border="0" cellborder="1" cellspacing="0" cellpadding="3">\n<tr><td port="top" colspan="2" bgcolor="#dce6f2"><b>a </b></td></tr>\n</table>>];\n
- | exten=>1,1,Goto(2,1)\n[b\xFC]→c0 [label=<<table border="0" cellborder="1" cellspacing="0" cellpadding="3">\n<tr><td port="top" colspan="2" bgcolor="#dce6f2"><b>a </b></td></tr>\n<tr><td port="x1" align="left" bgcolor="#ffffff">1 </td><td port="y1" align="left" bgcolor="#ffffff">Goto(2,1) </td></tr>\n</table>>];\nc1 [label=<<table border="0" cellborder="1" cellspacing="0" cellpadding="3">\n<tr><td port="top" colspan="2" bgcolor="#dce6f2"><b>b&#252; </b></td></tr>\n</table>>];\nm0_x1_x2_44_1 [shape=box,color=red,fontcolor=red,label=<2,1 >];\nc0:y1:e -> m0_x1_x2_44_1 [color=red];\n
# Nothing is reached.
 | exten=>1,1,A()→c0 [label=<<table border="0" cellborder="1" cellspacing="0" cellpadding="3">\n<tr><td port="top" colspan="2" bgcolor="#c8c8c8"><b>a </b></td></tr>\n<tr><td port="x1" align="left" bgcolor="#e6e6e6">1 </td><td port="y1" align="left" bgcolor="#e6e6e6">A() </td></tr>\n</table>>];\n
# The second entry of an extension is reached.
0.2 | exten=>1,1,A()\nexten=>2,1,A()\nexten=>2,2,B()\n[b]→c0 [label=<<table border="0" cellborder="1" cellspacing="0" cellpadding="3">\n<tr><td port="top" colspan="2" bgcolor="#a9d6a9"><b>a </b></td></tr>\n<tr><td port="x1" align="left" bgcolor="#e6e6e6">1 </td><td port="y1" align="left" bgcolor="#e6e6e6">A() </td></tr>\n<tr><td port="x2" align="left" bgcolor="#e2f3e2">2 </td><td port="y2" align="left" bgcolor="#e2f3e2">A() </td></tr>\n</table>>];\nc1 [label=<<table border="0" cellborder="1" cellspacing="0" cellpadding="3">\n<tr><td port="top" colspan="2" bgcolor="#c8c8c8"><b>b </b></td></tr>\n</table>>];\n
# Numbers that no entry has.
7.0 0.9 | exten=>1,1,A()→c0 [label=<<table border="0" cellborder="1" cellspacing="0" cellpadding="3">\n<tr><td port="top" colspan="2" bgcolor="#c8c8c8"><b>a </b></td></tr>\n<tr><td port="x1" align="left" bgcolor="#e6e6e6">1 </td><td port="y1" align="left" bgcolor="#e6e6e6">A() </td></tr>\n</table>>];\n
"##;

/// A writer that takes at most `most` bytes at once, and whose write with the number `fails_at`, counted from 0, returns an error.
#[derive(Drop)]
struct GraphSink {
    held: Vec<u8>,
    most: usize,
    writes: usize,
    fails_at: usize,
}

impl Write for GraphSink {
    fn write(&mut self, bytes: &[u8]) -> io::Result<usize> {
        let turn = self.writes;
        self.writes = turn.saturating_add(1);
        if self.fails_at == turn {
            return Err(io::Error::from(ErrorKind::BrokenPipe));
        }
        let count = bytes.len().min(self.most);
        self.held.extend_from_slice(&bytes[..count])?;
        Ok(count)
    }

    fn flush(&mut self) -> io::Result<()> {
        Ok(())
    }
}

/// What was written, and what was returned.
#[derive(Drop)]
struct GraphOutcome {
    held: Vec<u8>,
    has_failed: bool,
    result: Result<(), GraphFault>,
}

/// The dialplan of the lines after `[a]`.
pub(crate) fn plan_of(alloc: Global, lines: &str) -> Result<Dialplan, Fail> {
    let lines = bytes_of(alloc, lines)?;
    let mut text = Vec::new(alloc);
    text.extend_from_slice(b"[a]\n")?;
    text.extend_from_slice(&lines)?;
    match Dialplan::load(alloc, &text) {
        Ok((plan, _)) => Ok(plan),
        Err(_) => Err("the dialplan is faulty".into()),
    }
}

/// A way out of a queue.
fn exit(alloc: Global, queue: &[u8], context: &[u8]) -> Result<QueueExit, NoMemory> {
    let queue = Text::copy_of(alloc, queue)?;
    let context = Text::copy_of(alloc, context)?;
    Ok(QueueExit { queue, context })
}

/// The ways out of queues of all cases.
fn exits_of(alloc: Global) -> Result<Vec<QueueExit>, NoMemory> {
    let mut exits = Vec::new(alloc);
    exits.push(exit(alloc, b"q", b"b")?)?;
    exits.push(exit(alloc, b"r", b"nowhere")?)?;
    exits.push(exit(alloc, b"q", b"a")?)?;
    Ok(exits)
}

/// Writes a picture to a writer that may fail.
fn outcome_of(
    alloc: Global,
    plan: &Dialplan,
    shading: Shading<'_>,
    most: usize,
    fails_at: usize,
) -> Result<GraphOutcome, Fail> {
    let exits = exits_of(alloc)?;
    let mut writer = Told::new(GraphSink {
        held: Vec::new(alloc),
        most,
        writes: 0,
        fails_at,
    });
    let result = write_graph(alloc, plan, shading, &exits, &mut writer);
    let has_failed = writer.has_failed();
    let GraphSink {
        held,
        most: _,
        writes: _,
        fails_at: _,
    } = writer.into_inner();
    Ok(GraphOutcome {
        held,
        has_failed,
        result,
    })
}

/// The picture of a dialplan.
pub(crate) fn picture_of(
    alloc: Global,
    plan: &Dialplan,
    shading: Shading<'_>,
) -> Result<String, Fail> {
    let outcome = outcome_of(alloc, plan, shading, usize::MAX, usize::MAX)?;
    check_that(
        outcome.result == Ok(()) && !outcome.has_failed,
        "the picture is written",
    )?;
    let mut out = String::new(alloc);
    push_bytes(&mut out, &outcome.held)?;
    Ok(out)
}

/// A copy of a part of a picture.
fn copy_of(alloc: Global, part: Option<&str>) -> Result<String, Fail> {
    let Some(part) = part else {
        return Err("the picture has no such part".into());
    };
    let mut out = String::new(alloc);
    out.push_str(part)?;
    Ok(out)
}

/// What stands between the first lines and the last.
pub(crate) fn inner(picture: &str) -> Option<&str> {
    let rest = picture.strip_prefix(OPENING)?;
    rest.strip_suffix("}\n")
}

/// The lines after the boxes.
pub(crate) struct Arrows;

impl Question for Arrows {
    fn answer(alloc: Global, asked: &str) -> Result<String, Fail> {
        let plan = plan_of(alloc, asked)?;
        let picture = picture_of(alloc, &plan, Shading::Plain)?;
        let Some(inner) = inner(&picture) else {
            return Err("the first or last lines differ".into());
        };
        let after = inner.rsplit_once("</table>>];\n").map(|parts| parts.1);
        copy_of(alloc, after)
    }
}

/// The rows of the first box.
struct Rows;

impl Question for Rows {
    fn answer(alloc: Global, asked: &str) -> Result<String, Fail> {
        let plan = plan_of(alloc, asked)?;
        let picture = picture_of(alloc, &plan, Shading::Plain)?;
        let Some((_, rest)) = picture.split_once("</b></td></tr>\n") else {
            return Err("there is no heading".into());
        };
        let rows = rest.split_once("</table>>];\n").map(|parts| parts.0);
        copy_of(alloc, rows)
    }
}

/// Adds the entry with these numbers.
fn insert_entry(entries: &mut IndexSet<EntryId>, numbers: &str) -> Result<(), Fail> {
    let Some((context, entry)) = numbers.split_once('.') else {
        return Err("an entry has no two numbers".into());
    };
    let context = context.parse::<usize>()?;
    let entry = entry.parse::<usize>()?;
    entries.insert(EntryId { context, entry })?;
    Ok(())
}

/// The entries with these numbers.
pub(crate) fn entries_of(alloc: Global, list: &str) -> Result<IndexSet<EntryId>, Fail> {
    let mut entries = IndexSet::new(alloc);
    for numbers in list.split_whitespace() {
        insert_entry(&mut entries, numbers)?;
    }
    Ok(entries)
}

/// The picture between the first lines and the last, given the entries that a call reaches.
struct Pictures;

impl Question for Pictures {
    fn answer(alloc: Global, asked: &str) -> Result<String, Fail> {
        let Some((list, lines)) = asked.split_once(" | ") else {
            return Err("there is no dialplan".into());
        };
        let plan = plan_of(alloc, lines)?;
        if list == "-" {
            let picture = picture_of(alloc, &plan, Shading::Plain)?;
            return copy_of(alloc, inner(&picture));
        }
        let reached = entries_of(alloc, list)?;
        let picture = picture_of(alloc, &plan, Shading::Reached(&reached))?;
        copy_of(alloc, inner(&picture))
    }
}

/// A write fails, and what was written until then is a prefix of the picture.
fn check_failure(
    alloc: Global,
    plan: &Dialplan,
    whole: &[u8],
    fails_at: usize,
) -> Result<(), Fail> {
    let outcome = outcome_of(alloc, plan, Shading::Plain, 10, fails_at)?;
    check_that(
        outcome.result == Err(GraphFault::WriteFailed) && outcome.has_failed,
        "the failed write is told",
    )?;
    check_that(
        outcome.held.len() == fails_at.saturating_mul(10) && whole.starts_with(&outcome.held),
        "a prefix is written",
    )
}

/// The first write fails, and a later one.
fn check_failures(alloc: Global) -> Result<(), Fail> {
    let plan = plan_of(alloc, r"exten=>1,1,Goto(2,1)")?;
    let whole = picture_of(alloc, &plan, Shading::Plain)?;
    check_failure(alloc, &plan, whole.as_bytes(), 0)?;
    check_failure(alloc, &plan, whole.as_bytes(), 7)
}

/// A dialplan without contexts has no boxes.
fn check_empty(alloc: Global) -> Result<(), Fail> {
    match Dialplan::load(alloc, b"") {
        Ok((plan, _)) => {
            let picture = picture_of(alloc, &plan, Shading::Plain)?;
            check_same("no context", inner(&picture).unwrap_or("nothing"), "")
        }
        Err(_) => Err("the empty dialplan is faulty".into()),
    }
}

#[test]
fn arrows_of_small_dialplans(rt: HostRuntime) -> Result<(), Fail> {
    check::<Arrows>(rt.alloc(), ARROWS)
}

#[test]
fn rows_of_small_dialplans(rt: HostRuntime) -> Result<(), Fail> {
    check::<Rows>(rt.alloc(), ROWS)
}

#[test]
fn pictures_of_small_dialplans(rt: HostRuntime) -> Result<(), Fail> {
    check::<Pictures>(rt.alloc(), PICTURES)
}

#[test]
fn picture_of_no_dialplan(rt: HostRuntime) -> Result<(), Fail> {
    check_empty(rt.alloc())
}

#[test]
fn failed_writes_of_a_picture(rt: HostRuntime) -> Result<(), Fail> {
    check_failures(rt.alloc())
}
