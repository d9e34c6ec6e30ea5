//! Dialplan files as people write them, and the text of a dialplan that is made from them, worked out by hand from the rules of
//! configuration files.
use dp_case_tables::{Question, bytes_of, check, check_same, push_bytes};
use dp_conf::Text;
use dp_files::{
    DialplanFiles, Fault, FileMap, LineNote, LineRemark, MadeLine, NamedText, NoMemory,
    ReadingFault, RemarkKind, SourceFile, SourceLine, matches_wildcard, read_dialplan, text_of,
};
use std::alloc::Global;
use std::str;
use std::test::Fail;

/// Files, each as `NAME:TEXT` and separated by `‖`, of which `a` is the first; and the lines made from them, each as `FILE:LINE TEXT` and
/// separated by ` / `. The remarks on lines come after a `#`, in this order.
const FILES: &str = r"
# A file with none of the forms is unchanged.
a:[m]\nexten => 1,1,NoOp() ; x\n→a:1 [m] / a:2 exten => 1,1,NoOp() ; x / a:3  #
# Block comments.
a:[m]\nexten => 1,1,No;-- x --;Op()→a:1 [m] / a:2 exten => 1,1,NoOp() #
a:[m]\n;-- a\nexten => 2,1,A()\n--;exten => 3,1,B()→a:1 [m] / a:2  / a:3  / a:4 exten => 3,1,B() #
a:[m]\n;-- a ;-- b --; c --;exten => 3,1,B()→a:1 [m] / a:2 exten => 3,1,B() #
a:[m]\n;--- a\nexten => 3,1,B()→a:1 [m] / a:2 ;--- a / a:3 exten => 3,1,B() #
a:[m]\n;-- x\nexten => 1,1,A()→a:1 [m] / a:2  / a:3  # a:2 OpenComment
# An included file begins in the section that is open, and the including file goes on in its own.
a:[m]\n#include b\nexten => 2,1,B()‖b:exten => 1,1,A()→a:1 [m] / b:1 exten => 1,1,A() / a:3 exten => 2,1,B() #
a:[m]\n#include b\nexten => 2,1,B()‖b:[n]\nexten => 1,1,A()→a:1 [m] / a:3 exten => 2,1,B() / b:1 [n] / b:2 exten => 1,1,A() #
a:[m]\n#INCLUDE <b> ; x‖b:exten => 1,1,A()→a:1 [m] / b:1 exten => 1,1,A() #
a:[m]\n#include x?.conf‖x2.conf:exten => 2,1,B()‖x1.conf:exten => 1,1,A()→a:1 [m] / x1.conf:1 exten => 1,1,A() / x2.conf:1 exten => 2,1,B() #
a:[m]\n#include b\n#tryinclude c\n#include *.x\n#exec /bin/true\n#foo→a:1 [m] # a:2 NotFound / a:4 NotFound / a:5 Exec / a:6 Directive
a:[m]\n#include a→a:1 [m] / a:1 [m] / a:1 [m] / a:1 [m] / a:1 [m] / a:1 [m] / a:1 [m] / a:1 [m] / a:1 [m] / a:1 [m] # a:2 IncludeDepth
b:[m]→not found
# Templates.
a:[t](!)\nexten => 1,1,A()\n[m](t)\nexten => 2,1,B()→a:3 [m] / a:2 exten => 1,1,A() / a:4 exten => 2,1,B() #
a:[t](!)\nexten => 1,1,A()\n[u]\nexten => 2,1,B()\n[m] ( U , t )→a:3 [u] / a:4 exten => 2,1,B() / a:5 [m] / a:4 exten => 2,1,B() / a:2 exten => 1,1,A() #
a:[m]\nexten => 1,1,A()\n[n]\nexten => 2,1,B()\n[M](+)\nexten => 3,1,C()→a:1 [m] / a:2 exten => 1,1,A() / a:6 exten => 3,1,C() / a:3 [n] / a:4 exten => 2,1,B() #
a:[m](x)\nexten => 1,1,A()→ # a:1 Template / a:2 NoSection
a:[m]\nexten 1\n[]\nexten => 1,1,A()→a:1 [m] / a:4 exten => 1,1,A() # a:2 NoEquals / a:3 BadHeader
# Priorities count by section, and become numbers.
a:[m]\nexten => 1,1,A()\nexten => 2,n,B()\n same => n + 2,C()\n same => s,D()→a:1 [m] / a:2 exten => 1,1,A() / a:3 exten => 2,2,B() / a:4 same => 5,C() / a:5 same => 5,D() #
a:[m]\nexten => 1,1(x),A()\nexten => 1,n(x),B()\nexten => 1,x+1,C()→a:1 [m] / a:2 exten => 1,1(x),A() / a:3 exten => 1,2,B() / a:4 exten => 1,2,C() # a:3 DoubleLabel
a:[m]\nexten => 1,hint,SIP/1\n same => 1,A()\nexten => 2,hint,SIP/2\nexten => 2,n,B()→a:1 [m] / a:3 exten => 1,1,A() # a:2 Hint / a:4 Hint / a:5 AfterHint
# What is left out.
a:[general]\nautofallthrough=no\nstatic=yes\n[globals]\nX=1→a:1 [general] / a:3 static=yes / a:4 [globals] / a:5 X=1 # a:2 AutoFallThrough
a:[m]\nignorepat => 9\nswitch => IAX2/x\nexten => 1/200,1,A()\nexten => 2,1,Dial,x→a:1 [m] # a:2 IgnorePat / a:3 Switch / a:4 CallerId / a:5 OldForm
";

/// Patterns with `*` and `?`, each with a text, and whether it matches it.
const WILDCARDS: &str = r"
*|a.conf→true
*.conf|a.conf→true
*.conf|a.confx→false
x?.conf|x1.conf→true
x?.conf|x.conf→false
*a*b|xaxb→true
*a*b|xaxc→false
|→true
|a→false
";

/// The name of a note.
fn note_name(note: LineNote) -> &'static str {
    match note {
        LineNote::OpenComment => "OpenComment",
        LineNote::Exec => "Exec",
        LineNote::AfterHint => "AfterHint",
        LineNote::DoubleLabel => "DoubleLabel",
        LineNote::Hint => "Hint",
        LineNote::IgnorePat => "IgnorePat",
        LineNote::Switch => "Switch",
        LineNote::AutoFallThrough => "AutoFallThrough",
        LineNote::CallerId => "CallerId",
    }
}

fn push_kind(out: &mut String, kind: RemarkKind) -> Result<(), NoMemory> {
    match kind {
        RemarkKind::Note(note) => out.push_str(note_name(note)),
        RemarkKind::Fault(Fault::Line(kind)) => write!(out, "{kind:?}"),
        RemarkKind::Fault(fault) => write!(out, "{fault:?}"),
    }
}

/// Adds the place of a line.
fn push_source(
    out: &mut String,
    files: &[SourceFile],
    line: Option<&SourceLine>,
) -> Result<(), NoMemory> {
    let Some(line) = line else {
        return out.push_str("no line");
    };
    if let Some(file) = files.get(line.file) {
        push_bytes(out, file.name.bytes())?;
    }
    write!(out, ":{} ", line.line)
}

fn push_made(out: &mut String, read: &DialplanFiles, made: &MadeLine) -> Result<(), NoMemory> {
    push_source(out, &read.files, read.lines.get(made.source))?;
    push_bytes(out, made.text.bytes())
}

fn push_remark(
    out: &mut String,
    read: &DialplanFiles,
    remark: &LineRemark,
) -> Result<(), NoMemory> {
    push_source(out, &read.files, read.lines.get(remark.source))?;
    push_kind(out, remark.kind)
}

fn push_lines(out: &mut String, read: &DialplanFiles) -> Result<(), NoMemory> {
    for (at, made) in read.made.lines.iter().enumerate() {
        if at > 0 {
            out.push_str(" / ")?;
        }
        push_made(out, read, made)?;
    }
    Ok(())
}

fn push_remarks(out: &mut String, read: &DialplanFiles) -> Result<(), NoMemory> {
    out.push_str(" #")?;
    for (at, remark) in read.made.remarks.iter().enumerate() {
        out.push_str(if at > 0 { " / " } else { " " })?;
        push_remark(out, read, remark)?;
    }
    Ok(())
}

/// Adds a file to others, given its name and its text.
fn add_file(alloc: Global, map: &mut FileMap, file: &str) -> Result<(), Fail> {
    let (name, text) = file.split_once(':').ok_or("no name")?;
    let name = Text::copy_of(alloc, name.as_bytes())?;
    let text = Text::new(bytes_of(alloc, text)?);
    map.add(NamedText { name, text })?;
    Ok(())
}

fn files_of(alloc: Global, files: &str) -> Result<FileMap, Fail> {
    let mut map = FileMap::new(alloc);
    for file in files.split('‖') {
        add_file(alloc, &mut map, file)?;
    }
    Ok(map)
}

fn push_read(out: &mut String, read: &DialplanFiles) -> Result<(), NoMemory> {
    push_lines(out, read)?;
    push_remarks(out, read)
}

/// Files, and what is made from them.
struct IncludedFiles;

impl Question for IncludedFiles {
    fn answer(alloc: Global, asked: &str) -> Result<String, Fail> {
        let mut map = files_of(alloc, asked)?;
        let mut out = String::new(alloc);
        match read_dialplan(alloc, &mut map, b"a") {
            Ok(read) => push_read(&mut out, &read)?,
            Err(ReadingFault::NotFound) => out.push_str("not found")?,
            Err(fault) => write!(out, "{fault:?}")?,
        }
        Ok(out)
    }
}

/// Whether a pattern matches a text.
struct Wildcards;

impl Question for Wildcards {
    fn answer(alloc: Global, asked: &str) -> Result<String, Fail> {
        let (pattern, text) = asked.split_once('|').ok_or("no text")?;
        let mut out = String::new(alloc);
        write!(
            out,
            "{}",
            matches_wildcard(pattern.as_bytes(), text.as_bytes())
        )?;
        Ok(out)
    }
}

fn check_files(alloc: Global) -> Result<(), Fail> {
    check::<IncludedFiles>(alloc, FILES)?;
    check::<Wildcards>(alloc, WILDCARDS)
}

/// Includes, templates, block comments, priorities, and what is left out.
#[test]
fn files_make_these_lines(rt: HostRuntime) -> Result<(), Fail> {
    check_files(rt.alloc())
}

fn check_text(alloc: Global) -> Result<(), Fail> {
    let mut map = files_of(alloc, r"a:[t](!)\nexten => 1,1,A()\n[m](t)")?;
    let read = read_dialplan(alloc, &mut map, b"a")?;
    let text = text_of(alloc, &read.made.lines)?;
    check_same(
        "the text",
        str::from_utf8(&text)?,
        "[m]\nexten => 1,1,A()\n",
    )
}

/// Each generated line ends with a line feed.
#[test]
fn generated_lines_are_a_text(rt: HostRuntime) -> Result<(), Fail> {
    check_text(rt.alloc())
}
