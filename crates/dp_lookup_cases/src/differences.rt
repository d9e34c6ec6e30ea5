//! What answers differently after a change of a dialplan, worked out by hand from the rules.
use dp_case_tables::{Question, bytes_of, check, check_same, check_that, push_bytes};
use dp_conf::Told;
use dp_diff::{Dialplan, DiffFault, NoMemory, write_differences};
use std::alloc::Global;
use std::io::{ErrorKind, Write};
use std::test::Fail;
use std::{io, str};

/// The lines of the dialplans before and after a change, separated by ` | `; and the lines that are written, with the number of differences
/// after them. If the first header is left out, the context is `a`, and `exten => ` is left out too.
const CHANGES: &str = r"
# Dialplans without differences.
 | →0
1,1,A(x)\n1,2,B | 1,1,A(x)\n1,2,B→0
1,1,A(x)\n2,1,B(y) | 2,1,B(y)\n1,1,A(x)→0
1,1,A(x)\n1,n,B(y) | 1,1,A(x)\n1,2,B(y)→0
# An entry is added or missing.
 | 1,1,A(x)→+ a,1,1 A(x)\n1
1,1,A(x) | →- a,1,1 A(x)\n1
1,1,A(x)\n1,2,B(y) | 1,1,A(x)→- a,1,2 B(y)\n1
1,1,A(x) | 1,1,A(x)\n1,2,B(y)→+ a,1,2 B(y)\n1
# Another application, other arguments, and both.
1,1,A(x) | 1,1,B(x)→- a,1,1 A(x)\n+ a,1,1 B(x)\n1
1,1,A(x) | 1,1,A(y)→- a,1,1 A(x)\n+ a,1,1 A(y)\n1
1,1,A(x) | 1,1,B()→- a,1,1 A(x)\n+ a,1,1 B()\n1
# The case of an application makes no difference, that of arguments does.
1,1,NoOp(x) | 1,1,noop(x)→0
1,1,NoOp(x) | 1,1,noop(X)→- a,1,1 NoOp(x)\n+ a,1,1 noop(X)\n1
1,1,A | 1,1,A()→0
# Arguments are not expanded, and written as they are.
1,1,A(${X},x\\;y) | 1,1,A(${X}, x\\;y)→- a,1,1 A(${X},x;y)\n+ a,1,1 A(${X}, x;y)\n1
# Labels make no difference.
1,1,A(x) | 1,1(top),A(x)→0
1,1(up),A(x) | 1,1(top),A(x)→0
# Priorities.
1,1,A() | 1,2,A()→- a,1,1 A()\n+ a,1,2 A()\n2
1,1,A()\n1,2,B()\n1,3,C() | 1,1,A()\n1,2,C()→- a,1,2 B()\n+ a,1,2 C()\n- a,1,3 C()\n2
# Names of one meaning.
_[1-3],1,A() | _[123],1,A()→0
_[0-9]X,1,A() | _X[0-9],1,A()→0
1-2,1,A() | 12,1,A()→0
-1-2,1,A() | 12,1,B()→- a,12,1 A()\n+ a,12,1 B()\n1
_[0-9],1,A() | _X,1,B()→- a,_X,1 A()\n+ a,_X,1 B()\n1
# Names of two meanings, although they match the same texts here.
1,1,A() | _1,1,A()→- a,1,1 A()\n+ a,_1,1 A()\n2
_X.,1,A() | _X!,1,A()→- a,_X.,1 A()\n+ a,_X!,1 A()\n2
# An include that is added brings entries, and one that is missing took them away.
1,1,A()\n[b]\n2,1,B() | 1,1,A()\ninclude => b\n[b]\n2,1,B()→+ a,2,1 B()\n1
1,1,A()\ninclude => b\n[b]\n2,1,B() | 1,1,A()\n[b]\n2,1,B()→- a,2,1 B()\n1
include => b\n[b]\ninclude => c\n[c]\n1,1,C() | include => b\n[b]\n[c]\n1,1,C()→- a,1,1 C()\n- b,1,1 C()\n2
include => x\n1,1,A() | 1,1,A()→0
# The first context of the order answers.
include => c\n[b]\n1,1,B()\n[c]\n1,1,C() | include => b\ninclude => c\n[b]\n1,1,B()\n[c]\n1,1,C()→- a,1,1 C()\n+ a,1,1 B()\n1
include => b\n[b]\n1,1,B() | 1,1,A()\ninclude => b\n[b]\n1,1,B()→- a,1,1 B()\n+ a,1,1 A()\n1
include => b\ninclude => c\n[b]\n1,1,B()\n[c]\n2,1,C() | include => c\ninclude => b\n[b]\n1,1,B()\n[c]\n2,1,C()→0
# An included entry answers in both contexts, and one that is hidden only in its own.
include => b\n[b]\n1,1,B() | include => b\n[b]\n1,1,C()→- a,1,1 B()\n+ a,1,1 C()\n- b,1,1 B()\n+ b,1,1 C()\n2
1,1,A()\ninclude => b\n[b]\n1,1,B() | 1,1,A()\ninclude => b\n[b]\n1,1,C()→- b,1,1 B()\n+ b,1,1 C()\n1
include => b\n[b]\n1,1,B() | 1,1,B()\n[b]→- b,1,1 B()\n1
# Only the priority that is free comes from an include.
1,1,A()\n[b]\n1,1,B()\n1,2,C() | 1,1,A()\ninclude => b\n[b]\n1,1,B()\n1,2,C()→+ a,1,2 C()\n1
# Contexts that include each other.
include => b\n[b]\ninclude => a\n1,1,B() | include => b\n[b]\ninclude => a\n1,1,C()→- a,1,1 B()\n+ a,1,1 C()\n- b,1,1 B()\n+ b,1,1 C()\n2
# A context that is added or missing; names of contexts are compared byte for byte.
1,1,A()\n[b]\n2,1,B() | 1,1,A()→- b,2,1 B()\n1
1,1,A() | 1,1,A()\n[b]\n2,1,B()→+ b,2,1 B()\n1
1,1,A() | 1,1,A()\n[b]→0
[B]\n1,1,A() | [b]\n1,1,A()→- B,1,1 A()\n+ b,1,1 A()\n2
include => b\n[b]\n1,1,B() | include => b→- a,1,1 B()\n- b,1,1 B()\n2
# The order of the lines.
1,1,A()\n2,1,B()\n3,1,C() | 4,1,D()\n3,1,X()\n1,1,Y()→- a,1,1 A()\n+ a,1,1 Y()\n- a,2,1 B()\n- a,3,1 C()\n+ a,3,1 X()\n+ a,4,1 D()\n4
[b]\n1,1,A()\n[c]\n1,1,A() | [d]\n1,1,A()\n[c]\n1,1,B()→- b,1,1 A()\n- c,1,1 A()\n+ c,1,1 B()\n+ d,1,1 A()\n3
";

/// The number of entries of a large dialplan.
const MANY: u32 = 20_000;

/// A writer whose write with the number `fails_at`, counted from 0, returns an error.
#[derive(Drop)]
pub(crate) struct DiffSink {
    pub(crate) held: Vec<u8>,
    pub(crate) writes: usize,
    pub(crate) fails_at: Option<usize>,
}

impl Write for DiffSink {
    fn write(&mut self, bytes: &[u8]) -> io::Result<usize> {
        let turn = self.writes;
        self.writes = turn.saturating_add(1);
        if self.fails_at == Some(turn) {
            return Err(io::Error::from(ErrorKind::BrokenPipe));
        }
        self.held.extend_from_slice(bytes)?;
        Ok(bytes.len())
    }

    fn flush(&mut self) -> io::Result<()> {
        Ok(())
    }
}

/// What was written, and what was returned.
#[derive(Drop)]
struct DiffOutcome {
    held: Vec<u8>,
    writes: usize,
    has_failed: bool,
    result: Result<u64, DiffFault>,
}

/// Writes the differences of two dialplans to a writer that may fail.
fn outcome_of(
    alloc: Global,
    before: &Dialplan,
    after: &Dialplan,
    fails_at: Option<usize>,
) -> DiffOutcome {
    let mut writer = Told::new(DiffSink {
        held: Vec::new(alloc),
        writes: 0,
        fails_at,
    });
    let result = write_differences(alloc, before, after, &mut writer);
    let has_failed = writer.has_failed();
    let DiffSink {
        held,
        writes,
        fails_at: _,
    } = writer.into_inner();
    DiffOutcome {
        held,
        writes,
        has_failed,
        result,
    }
}

/// The dialplan of a text.
pub(crate) fn load(alloc: Global, text: &str) -> Result<Dialplan, Fail> {
    match Dialplan::load(alloc, text.as_bytes()) {
        Ok((plan, _)) => Ok(plan),
        Err(_) => Err("the dialplan is faulty".into()),
    }
}

/// Adds a line of the dialplan.
fn push_line(text: &mut String, line: &str) -> Result<(), NoMemory> {
    if !line.starts_with('[') && !line.starts_with("include") {
        text.push_str("exten => ")?;
    }
    text.push_str(line)?;
    text.push('\n')
}

/// The dialplan with these lines.
pub(crate) fn plan_of(alloc: Global, lines: &str) -> Result<Dialplan, Fail> {
    let lines = bytes_of(alloc, lines)?;
    let lines = str::from_utf8(&lines)?;
    let mut text = String::new(alloc);
    if !lines.starts_with('[') {
        text.push_str("[a]\n")?;
    }
    for line in lines.lines() {
        push_line(&mut text, line)?;
    }
    load(alloc, &text)
}

/// Adds what was returned.
pub(crate) fn push_result(
    out: &mut String,
    returned: Result<u64, DiffFault>,
) -> Result<(), NoMemory> {
    match returned {
        Ok(count) => write!(out, "{count}"),
        Err(DiffFault::WriteFailed) => out.push_str("a write failed"),
        Err(DiffFault::NoMemory) => out.push_str("out of memory"),
    }
}

/// The differences after a change.
struct Changes;

impl Question for Changes {
    fn answer(alloc: Global, asked: &str) -> Result<String, Fail> {
        let Some((before, after)) = asked.split_once(" | ") else {
            return Err("there is only one dialplan".into());
        };
        let before = plan_of(alloc, before)?;
        let after = plan_of(alloc, after)?;
        let outcome = outcome_of(alloc, &before, &after, None);
        let mut out = String::new(alloc);
        push_bytes(&mut out, &outcome.held)?;
        push_result(&mut out, outcome.result)?;
        Ok(out)
    }
}

/// Adds many entries of one context, which all run an application with these arguments.
fn push_many(text: &mut String, arguments: &str) -> Result<(), NoMemory> {
    for exten in 0..MANY {
        write!(text, "exten => {exten},1,NoOp({arguments})\n")?;
    }
    Ok(())
}

/// A dialplan of many entries, with more lines after them.
fn many(alloc: Global, arguments: &str, more: &str) -> Result<Dialplan, Fail> {
    let mut text = String::new(alloc);
    text.push_str("[main]\n")?;
    push_many(&mut text, arguments)?;
    text.push_str(more)?;
    load(alloc, &text)
}

/// One entry of many differs.
fn check_one_of_many(alloc: Global) -> Result<(), Fail> {
    let before = many(alloc, "x", "exten => s,1,NoOp()\n")?;
    let after = many(alloc, "x", "exten => s,1,Hangup()\n")?;
    let outcome = outcome_of(alloc, &before, &after, None);
    check_that(outcome.result == Ok(1), "one difference")?;
    check_same(
        "one of many",
        str::from_utf8(&outcome.held)?,
        "- main,s,1 NoOp()\n+ main,s,1 Hangup()\n",
    )
}

/// A write fails, and what was written until then is a prefix of the text.
fn check_failure(
    alloc: Global,
    before: &Dialplan,
    after: &Dialplan,
    whole: &[u8],
    fails_at: usize,
) -> Result<(), Fail> {
    let outcome = outcome_of(alloc, before, after, Some(fails_at));
    check_that(
        outcome.result == Err(DiffFault::WriteFailed) && outcome.has_failed,
        "the failed write is told",
    )?;
    check_that(
        outcome.held.len() < whole.len() && whole.starts_with(&outcome.held),
        "a prefix is written",
    )
}

/// Many entries differ, so that there are several blocks, and each of the first writes fails once.
fn check_blocks(alloc: Global) -> Result<(), Fail> {
    let before = many(alloc, "x", "")?;
    let after = many(alloc, "y", "")?;
    let all = outcome_of(alloc, &before, &after, None);
    check_that(all.result == Ok(u64::from(MANY)), "all entries differ")?;
    check_that(
        all.writes > 2 && all.writes < 100,
        "the lines are written in blocks",
    )?;
    check_failure(alloc, &before, &after, &all.held, 0)?;
    check_failure(alloc, &before, &after, &all.held, 1)
}

#[test]
fn differences_of_small_dialplans(rt: HostRuntime) -> Result<(), Fail> {
    check::<Changes>(rt.alloc(), CHANGES)
}

#[test]
fn one_entry_of_many_differs(rt: HostRuntime) -> Result<(), Fail> {
    check_one_of_many(rt.alloc())
}

#[test]
fn failed_writes_of_differences(rt: HostRuntime) -> Result<(), Fail> {
    check_blocks(rt.alloc())
}
