//! Findings and matches of small dialplans as JSON, worked out by hand from the rules.
use dp_audit::{AppNames, FallThrough, Loop, Text, audit};
use dp_case_tables::{Question, bytes_of, check, check_answer};
use dp_json::{
    Candidate, Dialplan, EntryId, Finding, NoMemory, Note, NoteKind, Priority, Verdict,
    WideFinding, push_candidates, push_fault_count, push_finding_count, push_findings, push_match,
    push_notes, push_plan_counts, push_queue_count, push_wide_findings,
};
use std::alloc::Global;
use std::str;
use std::test::Fail;

/// The lines of a dialplan after `[a]`, and the lines of what an audit finds in it that knows each application.
const FINDINGS: &str = r#"
→{"type":"count","findings":0}\n
# One of each kind, but for applications.
include=>a→{"type":"finding","kind":"Cycle","context":"a"}\n{"type":"count","findings":1}\n
exten=>1,1,Goto(b,2,1)→{"type":"finding","kind":"NoTarget","context":"a","name":"1","priority":1,"application":"Goto","arguments":"b,2,1","target":"b,2,1"}\n{"type":"count","findings":1}\n
exten=>1,1,NoOp()\nexten=>1,3,NoOp(x)→{"type":"finding","kind":"Gap","context":"a","name":"1","priority":1,"application":"NoOp","arguments":"","missing":2}\n{"type":"count","findings":1}\n
exten=>_X.,2,NoOp(x)→{"type":"finding","kind":"NoFirst","context":"a","name":"_X.","priority":2,"application":"NoOp","arguments":"x"}\n{"type":"count","findings":1}\n
exten=>1,1,A()\ninclude=>b\n[b]\nexten=>1,1,B()→{"type":"finding","kind":"Hidden","context":"b","name":"1","priority":1,"application":"B","arguments":"","from":"a"}\n{"type":"count","findings":1}\n
exten=>1,1,NoOp(${X})→{"type":"finding","kind":"Unset","context":"a","name":"1","priority":1,"application":"NoOp","arguments":"${X}","variable":"X"}\n{"type":"count","findings":1}\n
exten=>1,1(go),NoOp()→{"type":"finding","kind":"Unused","context":"a","name":"1","priority":1,"label":"go","application":"NoOp","arguments":""}\n{"type":"count","findings":1}\n
# Two findings, in the order of the file.
exten=>1,2,A()\nexten=>2,2,B()→{"type":"finding","kind":"NoFirst","context":"a","name":"1","priority":2,"application":"A","arguments":""}\n{"type":"finding","kind":"NoFirst","context":"a","name":"2","priority":2,"application":"B","arguments":""}\n{"type":"count","findings":2}\n
# Quotes, backslashes and control characters.
exten=>1,2,A("q")→{"type":"finding","kind":"NoFirst","context":"a","name":"1","priority":2,"application":"A","arguments":"\\"q\\""}\n{"type":"count","findings":1}\n
exten=>1,2,A(x\\y)→{"type":"finding","kind":"NoFirst","context":"a","name":"1","priority":2,"application":"A","arguments":"x\\\\y"}\n{"type":"count","findings":1}\n
exten=>1,2,A(x\ty\x01z\x1f)→{"type":"finding","kind":"NoFirst","context":"a","name":"1","priority":2,"application":"A","arguments":"x\\u0009y\\u0001z\\u001f"}\n{"type":"count","findings":1}\n
exten=>1,2,A(x~\x7f)→{"type":"finding","kind":"NoFirst","context":"a","name":"1","priority":2,"application":"A","arguments":"x~\\u007f"}\n{"type":"count","findings":1}\n
# UTF-8, and bytes that are not UTF-8.
exten=>1,2,A(é€😀)→{"type":"finding","kind":"NoFirst","context":"a","name":"1","priority":2,"application":"A","arguments":"é€😀"}\n{"type":"count","findings":1}\n
exten=>1,2,A(\xe9\x7f\xff)→{"type":"finding","kind":"NoFirst","context":"a","name":"1","priority":2,"application":"A","arguments":"\\u00e9\\u007f\\u00ff"}\n{"type":"count","findings":1}\n
exten=>1,2,A(é\xe9)→{"type":"finding","kind":"NoFirst","context":"a","name":"1","priority":2,"application":"A","arguments":"\\u00c3\\u00a9\\u00e9"}\n{"type":"count","findings":1}\n
"#;

/// The lines of a dialplan after `[a]`, and the lines of findings about its first two entries and about one that it lacks.
const WIDE_FINDINGS: &str = r#"
exten=>1,1,A(x)\nexten=>_X,2,B()→{"type":"finding","kind":"NoApplication","context":"a","name":"1","priority":1,"application":"A","arguments":"x"}\n{"type":"finding","kind":"FallsThrough","context":"a","name":"1","priority":1,"application":"A","arguments":"x","next_context":"a","next_name":"_X","next_priority":2}\n{"type":"finding","kind":"Loop","context":"a","name":"_X","priority":2,"application":"B","arguments":""}\n{"type":"finding","kind":"NoFunction","context":"a","name":"1","priority":1,"application":"A","arguments":"x","function":"FOO"}\n{"type":"finding","kind":"NoFunction","function":"BAR"}\n
"#;

/// The lines of a dialplan after `[a]`, and the lines of matches that name its first two entries, at the priority 7.
const MATCHES: &str = r#"
exten=>1,1,A(x)\nexten=>_X,2(l),B()→{"type":"match","context":"a","name":"1","priority":1,"application":"A","arguments":"x"}\n{"type":"none"}\n{"type":"candidate","kind":"Answers","context":"a","name":"1","priority":1,"application":"A","arguments":"x"}\n{"type":"candidate","kind":"LessSpecific","context":"a","name":"_X","priority":2,"label":"l","application":"B","arguments":""}\n{"type":"candidate","kind":"LaterContext","context":"a","name":"_X","priority":2,"label":"l","application":"B","arguments":""}\n{"type":"candidate","kind":"NoSuchPriority","context":"a","name":"_X","priority":7}\n
"#;

/// The lines of two notes, and of counts.
const NOTES: &str =
    r#"{"type":"note","line":3,"kind":"DoubleLabel"}\n{"type":"note","line":12,"kind":"UnknownContext"}\n{"type":"count","contexts":2,"entries":10}\n{"type":"count","faults":3}\n{"type":"count","queues":0}\n"#;

/// All names.
struct AllNames;

impl AppNames for AllNames {
    ghost use Rattle.std.specs.Prelude.{true};

    ghost known = { λ name. true };

    fn has_application(_name: &[u8]) -> bool {
        true
    }
}

/// The dialplan with these lines after `[a]`.
fn plan_of(alloc: Global, lines: &str) -> Result<Dialplan, Fail> {
    let lines = bytes_of(alloc, lines)?;
    let mut text = Vec::new(alloc);
    text.extend_from_slice(b"[a]\n")?;
    text.extend_from_slice(&lines)?;
    match Dialplan::load(alloc, &text) {
        Ok((plan, _)) => Ok(plan),
        Err(_) => Err("the dialplan is faulty".into()),
    }
}

/// The text with these bytes.
fn string_of(alloc: Global, bytes: &[u8]) -> Result<String, Fail> {
    let mut out = String::new(alloc);
    out.push_str(str::from_utf8(bytes)?)?;
    Ok(out)
}

/// The entry of the first context with a number.
fn at(entry: usize) -> EntryId {
    EntryId { context: 0, entry }
}

/// What an audit finds, and how much.
struct Findings;

impl Question for Findings {
    fn answer(alloc: Global, asked: &str) -> Result<String, Fail> {
        let plan = plan_of(alloc, asked)?;
        let list = audit::<AllNames>(alloc, &plan)?;
        let mut out = Vec::new(alloc);
        push_findings(&mut out, &plan, &list)?;
        push_finding_count(&mut out, list.len())?;
        string_of(alloc, &out)
    }
}

/// A finding about a function.
fn no_function(alloc: Global, entry: usize, name: &[u8]) -> Result<WideFinding, NoMemory> {
    let name = Text::copy_of(alloc, name)?;
    Ok(WideFinding::NoFunction {
        entry: at(entry),
        name,
    })
}

/// Findings of an audit over the wide table.
struct WideFindings;

impl Question for WideFindings {
    fn answer(alloc: Global, asked: &str) -> Result<String, Fail> {
        let plan = plan_of(alloc, asked)?;
        let mut list = Vec::new(alloc);
        list.push(WideFinding::Plain(Finding::NoApplication { entry: at(0) }))?;
        list.push(WideFinding::FallsThrough(FallThrough {
            entry: at(0),
            next: at(1),
        }))?;
        list.push(WideFinding::EndlessRun(Loop { first: at(1) }))?;
        list.push(no_function(alloc, 0, b"FOO")?)?;
        list.push(no_function(alloc, 9, b"BAR")?)?;
        let mut out = Vec::new(alloc);
        push_wide_findings(&mut out, &plan, &list)?;
        string_of(alloc, &out)
    }
}

/// An entry that answers, none, and what is decided about others.
struct Matches;

impl Question for Matches {
    fn answer(alloc: Global, asked: &str) -> Result<String, Fail> {
        let plan = plan_of(alloc, asked)?;
        let Some(priority) = Priority::new(7) else {
            return Err("7 is no priority".into());
        };
        let candidates = [
            Candidate {
                id: at(0),
                verdict: Verdict::Answers,
            },
            Candidate {
                id: at(1),
                verdict: Verdict::LessSpecific,
            },
            Candidate {
                id: at(1),
                verdict: Verdict::LaterContext,
            },
            Candidate {
                id: at(1),
                verdict: Verdict::NoSuchPriority,
            },
        ];
        let mut out = Vec::new(alloc);
        push_match(&mut out, &plan, Some(at(0)))?;
        push_match(&mut out, &plan, None)?;
        push_candidates(&mut out, &plan, priority, &candidates)?;
        string_of(alloc, &out)
    }
}

#[test]
fn findings_as_objects(rt: HostRuntime) -> Result<(), Fail> {
    check::<Findings>(rt.alloc(), FINDINGS)
}

#[test]
fn findings_over_the_wide_table_as_objects(rt: HostRuntime) -> Result<(), Fail> {
    check::<WideFindings>(rt.alloc(), WIDE_FINDINGS)
}

#[test]
fn matches_as_objects(rt: HostRuntime) -> Result<(), Fail> {
    check::<Matches>(rt.alloc(), MATCHES)
}

#[test]
fn notes_and_counts_as_objects(rt: HostRuntime) -> Result<(), Fail> {
    let notes = [
        Note {
            line: 3,
            kind: NoteKind::DoubleLabel,
        },
        Note {
            line: 12,
            kind: NoteKind::UnknownContext,
        },
    ];
    let mut out = Vec::new(rt.alloc());
    push_notes(&mut out, &notes)?;
    push_plan_counts(&mut out, 2, 10)?;
    push_fault_count(&mut out, 3)?;
    push_queue_count(&mut out, 0)?;
    let text = string_of(rt.alloc(), &out)?;
    check_answer(rt.alloc(), "two notes", &text, NOTES)
}
