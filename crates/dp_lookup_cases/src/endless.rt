//! Entries after which a call goes on in another extension, and endless runs, worked out by hand from the rules.
use dp_audit::{Dialplan, EntryId, NoMemory, OnwardNames, find_fall_throughs, find_loops};
use dp_case_tables::{Question, bytes_of, check, push_bytes};
use std::alloc::Global;
use std::str;
use std::test::Fail;

/// Lines of a dialplan, separated by `
/// `, and each entry with the entry of another extension that a call meets after it. If the header is left out, the context is `a`, and
/// `exten => ` is left out too.
const FALL_THROUGHS: &str = r"
→none
# The trap: the catch-all has one more priority.
100,1,NoOp()\n100,2,NoOp()\n_X.,1,NoOp()\n_X.,2,NoOp()\n_X.,3,Dial(SIP/1)→a,100,2>a,_X.,3
100,1,NoOp()\n100,2,NoOp()\n_X.,1,NoOp()\n_X.,2,NoOp()→none
# The last of all, and the greatest priority.
100,1,NoOp()\ns,2147483647,NoOp()→none
# Through an include.
100,1,NoOp()\ninclude => b\n[b]\n_X.,2,NoOp()→a,100,1>b,_X.,2
100,1,NoOp()\ninclude => b\n[b]\n100,2,NoOp()→none
# The context's own names come first.
100,1,NoOp()\n_X.,2,NoOp()\ninclude => b\n[b]\n100,2,NoOp()→a,100,1>a,_X.,2
# A name with the same meaning is not another name.
1-00,1,NoOp()\n100,2,NoOp()\n_X.,2,NoOp()→none
1-00,1,NoOp()\n_X.,2,NoOp()→a,100,1>a,_X.,2
# A pattern is another name than the plain one.
100,1,NoOp()\n_100,2,NoOp()→a,100,1>a,_100,2
# A gap, and the better of two names.
100,1,NoOp()\n100,3,NoOp()\n_X.,2,NoOp()→a,100,1>a,_X.,2
100,1,NoOp()\n_X.,2,NoOp()\n_1XX,2,NoOp()→a,100,1>a,_1XX,2
# Entries of patterns are not reported, nor texts that do not match.
_1XX,1,NoOp()\n_X.,2,NoOp()→none
s,1,NoOp()\n_X.,2,NoOp()→none
s,1,NoOp()\n_!,2,NoOp()→a,s,1>a,_!,2
# In the order of the file.
200,1,NoOp()\n100,1,NoOp()\n_X.,2,NoOp()→a,200,1>a,_X.,2 a,100,1>a,_X.,2
";

/// The same lines, and the first entry of each endless run.
const LOOPS: &str = r"
→none
s,1,Goto(1)→a,s,1
s,1,Answer()\ns,2,Goto(s,1)→a,s,1
s,1(top),NoOp()\ns,2,goto(top)→a,s,1
# The way into a loop is not reported.
s,1,NoOp()\ns,2(top),NoOp()\ns,3,Goto(top)→a,s,2
# Through two contexts.
s,1,Goto(b,s,1)\n[b]\ns,1,NoOp()\ns,2,Goto(a,s,1)→a,s,1
# An application that may wait ends the run, and so does a target that is computed or does not exist.
s,1,WaitExten()\ns,2,Goto(1)→none
s,1,Goto(${X},1)→none
s,1,Goto(a,${EXTEN},1)→none
s,1,Goto(9)→none
s,1,Goto(nowhere,s,1)→none
s,1,Goto(a,b,c,1)→none
s,1,NoOp()\ns,2,NoOp()→none
# Through includes and patterns nothing is reported.
s,1,Goto(1,1)\ninclude => b\n[b]\n1,1,Goto(a,s,1)→none
s,1,NoOp()\n_!,2,Goto(s,1)→none
_X,1,Goto(1)→none
s,1,GotoIf(1?1)→none
# Two of them, in the order of the file.
1,1,Goto(3,1)\n2,1,Goto(2,1)\n3,1,Goto(1-,1)\n4,1,Goto(2,1)→a,1,1 a,2,1
9,1,Goto(3,1)\n2,1,Goto(2,1)\n3,1,Goto(4,1)\n4,1,Goto(3,1)→a,2,1 a,3,1
s,1,Answer()\ns,2,Goto( a , s , 1 )→a,s,1
";

/// Names after which a call goes on.
struct GoingOnNames;

impl OnwardNames for GoingOnNames {
    ghost use Rattle.std.specs.Prelude.{◌||◌, codes};
    ghost use Rattle.dp_conf.specs.Words.{same_text};

    ghost onward = { λ name. same_text name (codes "NoOp") || same_text name (codes "Answer") };

    fn goes_on(name: &[u8]) -> bool {
        name == b"NoOp".as_slice() || name == b"Answer".as_slice()
    }
}

/// Adds a line of the dialplan.
fn push_line(text: &mut String, line: &str) -> Result<(), NoMemory> {
    if !line.starts_with('[') && !line.starts_with("include") {
        text.push_str("exten => ")?;
    }
    text.push_str(line)?;
    text.push('\n')
}

/// The dialplan with these lines.
fn plan_of(alloc: Global, lines: &str) -> Result<Dialplan, Fail> {
    let lines = bytes_of(alloc, lines)?;
    let mut text = String::new(alloc);
    text.push_str("[a]\n")?;
    for line in str::from_utf8(&lines)?.lines() {
        push_line(&mut text, line)?;
    }
    match Dialplan::load(alloc, text.as_bytes()) {
        Ok((plan, _)) => Ok(plan),
        Err(_) => Err("the dialplan is faulty".into()),
    }
}

/// Adds the place of an entry, `CONTEXT,NAME,PRIORITY`.
fn push_place(out: &mut String, plan: &Dialplan, id: EntryId) -> Result<(), NoMemory> {
    let Some(context) = plan.contexts().get(id.context) else {
        return Ok(());
    };
    let Some(entry) = context.entries().get(id.entry) else {
        return Ok(());
    };
    push_bytes(out, context.name().bytes())?;
    out.push(',')?;
    push_bytes(out, entry.name.spelling())?;
    write!(out, ",{}", entry.priority.get())
}

/// Adds a blank before each place except the first.
fn separate(out: &mut String, is_first: bool) -> Result<(), NoMemory> {
    if is_first { Ok(()) } else { out.push(' ') }
}

/// The entries after which a call goes on in another extension.
struct FallThroughs;

impl Question for FallThroughs {
    fn answer(alloc: Global, asked: &str) -> Result<String, Fail> {
        let plan = plan_of(alloc, asked)?;
        let list = find_fall_throughs(alloc, &plan)?;
        let mut out = String::new(alloc);
        for found in &list {
            let is_first = out.is_empty();
            separate(&mut out, is_first)?;
            push_place(&mut out, &plan, found.entry)?;
            out.push('>')?;
            push_place(&mut out, &plan, found.next)?;
        }
        if out.is_empty() {
            out.push_str("none")?;
        }
        Ok(out)
    }
}

/// The first entries of endless runs.
struct Loops;

impl Question for Loops {
    fn answer(alloc: Global, asked: &str) -> Result<String, Fail> {
        let plan = plan_of(alloc, asked)?;
        let list = find_loops::<GoingOnNames>(alloc, &plan)?;
        let mut out = String::new(alloc);
        for found in &list {
            let is_first = out.is_empty();
            separate(&mut out, is_first)?;
            push_place(&mut out, &plan, found.first)?;
        }
        if out.is_empty() {
            out.push_str("none")?;
        }
        Ok(out)
    }
}

#[test]
fn fall_throughs_are_found(rt: HostRuntime) -> Result<(), Fail> {
    check::<FallThroughs>(rt.alloc(), FALL_THROUGHS)
}

#[test]
fn endless_runs_are_found(rt: HostRuntime) -> Result<(), Fail> {
    check::<Loops>(rt.alloc(), LOOPS)
}
