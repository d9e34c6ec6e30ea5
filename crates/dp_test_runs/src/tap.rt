//! The results of tests as text, in the Test Anything Protocol, version 14.
ghost use Rattle.std.specs.Prelude.{◌≡◌, ◌++◌, ◌∷◌, [], IfOk, OnOk, Some, codes, map};
ghost use Rattle.std.specs.List.{flat_map};
ghost use Rattle.std.specs.Option.{option_map};
ghost use Rattle.dp_test_runs.specs.Tap as spec;

use crate::items::RunItems;
use dp_plan::{EntryId, NoMemory, Text};
use itoa::Buffer;
use std::alloc::Global;

/// What is reported of a test that failed: its place, `FILE:LINE`, what was expected, what came of it, and the last entries that ran.
#[derive(Drop)]
pub struct FailureReport {
    pub at: Text,
    pub expected: Text,
    pub got: Text,
    pub trace: RunItems<Text>,
}

/// A test with its name, its report if it failed, the lines of its trace, one for each entry that ran, and the entries of the test file's
/// dialplan that it ran, in the order in which they ran.
#[derive(Drop)]
pub struct Point {
    pub name: Text,
    pub report: Option<FailureReport>,
    pub trace: RunItems<Text>,
    pub entered: RunItems<EntryId>,
}

/// Adds a line with this text.
fn push_line(out: &mut Vec<u8>, text: &[u8]) -> Result<(), NoMemory>
    ensures { OnOk result (out.new.items ≡ out.old.items ++ spec.line_of text.now) }
{
    out.extend_from_slice(text)?;
    out.push(b'\n')?;
    Ok(())
}

/// Adds a byte between single quotes.
fn push_quoted_byte(out: &mut Vec<u8>, byte: u8) -> Result<(), NoMemory>
    ensures { OnOk result (out.new.items ≡ out.old.items ++ spec.quoted_byte byte) }
{
    if byte == b'\'' {
        out.push(b'\'')?;
    }
    out.push(byte)?;
    Ok(())
}

/// Adds the bytes of a text between single quotes.
fn push_quoted_bytes(out: &mut Vec<u8>, text: &[u8]) -> Result<(), NoMemory>
    ensures { OnOk result (out.new.items ≡ out.old.items ++ flat_map spec.quoted_byte text.now) }
{
    for byte in text {
        push_quoted_byte(out, *byte)?;
    }
    Ok(())
}

/// Adds a text in single quotes.
fn push_quoted(out: &mut Vec<u8>, text: &[u8]) -> Result<(), NoMemory>
    ensures { OnOk result (out.new.items ≡ out.old.items ++ spec.quoted_text text.now) }
{
    out.push(b'\'')?;
    push_quoted_bytes(out, text)?;
    out.push(b'\'')?;
    Ok(())
}

/// Adds a byte of a name.
fn push_name_byte(out: &mut Vec<u8>, byte: u8) -> Result<(), NoMemory>
    ensures { OnOk result (out.new.items ≡ out.old.items ++ spec.name_byte byte) }
{
    if byte == b'#' || byte == b'\\' {
        out.push(b'\\')?;
    }
    out.push(byte)?;
    Ok(())
}

/// Adds a name.
fn push_name(out: &mut Vec<u8>, name: &[u8]) -> Result<(), NoMemory>
    ensures { OnOk result (out.new.items ≡ out.old.items ++ flat_map spec.name_byte name.now) }
{
    for byte in name {
        push_name_byte(out, *byte)?;
    }
    Ok(())
}

/// Adds a key and its text, on a line of its own.
fn push_key_line(out: &mut Vec<u8>, key: &[u8], text: &[u8]) -> Result<(), NoMemory>
    ensures { OnOk result (out.new.items ≡ out.old.items ++ spec.key_line key.now text.now) }
{
    out.extend_from_slice(b"  ")?;
    out.extend_from_slice(key)?;
    out.extend_from_slice(b": ")?;
    push_quoted(out, text)?;
    out.push(b'\n')?;
    Ok(())
}

/// Adds a line of a trace.
fn push_trace_line(out: &mut Vec<u8>, text: &[u8]) -> Result<(), NoMemory>
    ensures { OnOk result (out.new.items ≡ out.old.items ++ spec.trace_line text.now) }
{
    out.extend_from_slice(b"    - ")?;
    push_quoted(out, text)?;
    out.push(b'\n')?;
    Ok(())
}

/// Adds lines of a trace.
fn push_each_trace_line(out: &mut Vec<u8>, texts: &[Text]) -> Result<(), NoMemory>
    ensures { OnOk result (out.new.items ≡ out.old.items ++ flat_map spec.trace_line texts.now) }
{
    for text in texts {
        push_trace_line(out, text.bytes())?;
    }
    Ok(())
}

/// Adds the lines of a trace below their key.
fn push_trace_lines(out: &mut Vec<u8>, texts: &[Text]) -> Result<(), NoMemory>
    ensures { OnOk result (out.new.items ≡ out.old.items ++ spec.trace_lines texts.now) }
{
    if texts.is_empty() {
        return push_line(out, b"  trace: []");
    }
    push_line(out, b"  trace:")?;
    push_each_trace_line(out, texts)
}

/// Adds the place, what was expected, and what came of it.
fn push_keys(out: &mut Vec<u8>, report: &FailureReport) -> Result<(), NoMemory>
    ensures { OnOk result (out.new.items ≡ out.old.items ++ spec.keys_text report.now) }
{
    push_key_line(out, b"at", report.at.bytes())?;
    push_key_line(out, b"expected", report.expected.bytes())?;
    push_key_line(out, b"got", report.got.bytes())?;
    Ok(())
}

/// Adds the first lines of the block below a test that failed.
fn push_block_head(out: &mut Vec<u8>, report: &FailureReport) -> Result<(), NoMemory>
    ensures { OnOk result (out.new.items ≡ out.old.items ++ spec.block_head report.now) }
{
    push_line(out, b"  ---")?;
    push_keys(out, report)?;
    Ok(())
}

/// Adds its last lines.
fn push_block_end(out: &mut Vec<u8>, report: &FailureReport) -> Result<(), NoMemory>
    ensures { OnOk result (out.new.items ≡ out.old.items ++ spec.block_end report.now) }
{
    push_trace_lines(out, report.trace.as_slice())?;
    push_line(out, b"  ...")?;
    Ok(())
}

/// Adds the block below a test that failed.
fn push_block(out: &mut Vec<u8>, report: &FailureReport) -> Result<(), NoMemory>
    ensures { OnOk result (out.new.items ≡ out.old.items ++ spec.block_text report.now) }
{
    push_block_head(out, report)?;
    push_block_end(out, report)?;
    Ok(())
}

/// Adds the line of a test with a number, after the word that says whether it passes.
fn push_point_line(
    out: &mut Vec<u8>,
    word: &[u8],
    number: usize,
    name: &[u8],
) -> Result<(), NoMemory>
    ensures { OnOk result (out.new.items ≡ out.old.items ++ spec.point_line word.now number name.now) }
{
    let mut buffer = Buffer::new();
    out.extend_from_slice(word)?;
    out.extend_from_slice(b" ")?;
    out.extend_from_slice(buffer.format(number).as_bytes())?;
    out.extend_from_slice(b" - ")?;
    push_name(out, name)?;
    out.push(b'\n')?;
    Ok(())
}

/// Adds the lines of a test with a number.
fn push_point(out: &mut Vec<u8>, number: usize, point: &Point) -> Result<(), NoMemory>
    ensures { OnOk result (out.new.items ≡ out.old.items ++ spec.point_by number point.now.name point.now.report) }
{
    match &point.report {
        None => push_point_line(out, b"ok", number, point.name.bytes()),
        Some(report) => {
            push_point_line(out, b"not ok", number, point.name.bytes())?;
            push_block(out, report)
        }
    }
}

/// Adds a line of a comment.
fn push_comment(out: &mut Vec<u8>, text: &[u8]) -> Result<(), NoMemory>
    ensures { OnOk result (out.new.items ≡ out.old.items ++ spec.comment_line text.now) }
{
    out.extend_from_slice(b"# ")?;
    push_line(out, text)
}

/// Adds lines of a comment.
fn push_comments(out: &mut Vec<u8>, texts: &[Text]) -> Result<(), NoMemory>
    ensures { OnOk result (out.new.items ≡ out.old.items ++ flat_map spec.comment_line texts.now) }
{
    for text in texts {
        push_comment(out, text.bytes())?;
    }
    Ok(())
}

/// Adds the trace of a test, if traces are shown.
fn push_whole_trace(out: &mut Vec<u8>, shows_traces: bool, texts: &[Text]) -> Result<(), NoMemory>
    ensures { OnOk result (out.new.items ≡ out.old.items ++ spec.whole_trace shows_traces texts.now) }
{
    if shows_traces {
        return push_comments(out, texts);
    }
    Ok(())
}

/// Adds the lines of a test with a number, below its trace if traces are shown.
fn push_told(
    out: &mut Vec<u8>,
    shows_traces: bool,
    number: usize,
    point: &Point,
) -> Result<(), NoMemory>
    ensures { OnOk result (out.new.items ≡ out.old.items ++ spec.told_point shows_traces number point.now) }
{
    push_whole_trace(out, shows_traces, point.trace.as_slice())?;
    push_point(out, number, point)
}

/// Adds the lines of tests, numbered from 1.
fn push_points(out: &mut Vec<u8>, shows_traces: bool, points: &[Point]) -> Result<(), NoMemory>
    ensures { OnOk result (out.new.items ≡ out.old.items ++ spec.points_from shows_traces 1 points.now) }
{
    let mut number: usize = 0;
    for point in points {
        number += 1;
        push_told(out, shows_traces, number, point)?;
    }
    Ok(())
}

/// Adds how many tests there are.
fn push_count(out: &mut Vec<u8>, count: usize) -> Result<(), NoMemory>
    ensures { OnOk result (out.new.items ≡ out.old.items ++ spec.count_text count) }
{
    let mut buffer = Buffer::new();
    out.extend_from_slice(b"1..")?;
    out.extend_from_slice(buffer.format(count).as_bytes())?;
    out.push(b'\n')?;
    Ok(())
}

/// Adds the version and the plan.
fn push_plan(out: &mut Vec<u8>, count: usize) -> Result<(), NoMemory>
    ensures { OnOk result (out.new.items ≡ out.old.items ++ spec.plan_text count) }
{
    push_line(out, b"TAP version 14")?;
    push_count(out, count)?;
    Ok(())
}

/// The text of the results: the version, the plan, and the lines of each test. With `shows_traces` the whole trace of each test comes before its
/// lines, as comments.
///
/// It fails only if memory runs out.
#[tactic(auto, unfolding(crate::specs::Tap::tap_text))]
pub fn tap_text(alloc: Global, shows_traces: bool, points: &[Point]) -> Result<Text, NoMemory>
    ensures { IfOk result (λ text. text ≡ spec.tap_text shows_traces points.now) }
{
    let mut out = Vec::new(alloc);
    push_plan(&mut out, points.len())?;
    push_points(&mut out, shows_traces, points)?;
    Ok(Text::new(out))
}
