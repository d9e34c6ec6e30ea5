//! Answers to questions about phone calls, and tests that ran, as JSON, worked out by hand from the rules.
use dp_case_tables::{Question, bytes_of, check, check_answer};
use dp_json::{
    Ask, Dialplan, EntryId, ReachAnswer, ReachFinding, ReachedContext, TestFailure, TestPoint,
    Text, push_covered, push_never, push_reach, push_test, push_test_count,
};
use std::alloc::Global;
use std::str;
use std::test::Fail;

/// The dialplan.
const PLAN: &str =
    r#"[a]\nexten=>1,1,A(x)\nexten=>_X,2(l),B()\n[b]\nexten=>1,1,C()\n[c]\nexten=>1,1,D("q")\n"#;

/// Whether a proof was found, the target, where other calls come in, and the bytes of extensions, of callers' numbers and of values from
/// outside, with a bar between each; empty ones are not given. A call may run all entries of `a` and `c`.
const REACHES: &str = r#"
# Each entry by contexts, with the way there, then what may have to be fixed, and counts.
proved|||||→{"type":"assumed","extensions":"0-9A-Za-z*#+_.","callers":"0-9+","starts":"every context"}\n{"type":"entry","context":"a","name":"1","priority":1,"application":"A","arguments":"x"}\n{"type":"entry","context":"a","name":"_X","priority":2,"label":"l","application":"B","arguments":""}\n{"type":"way","context":"a","text":"a,{0-9}*  a call comes in"}\n{"type":"entry","context":"c","name":"1","priority":1,"application":"D","arguments":"\\"q\\""}\n{"type":"way","context":"c","text":"a,{0-9}*  a call comes in"}\n{"type":"way","context":"c","text":"a,1,1 A(x) -> c,s"}\n{"type":"way","text":"no such application: a,1,1 A(x)"}\n{"type":"count","entries":3,"all_entries":4,"contexts":2,"all_contexts":3}\n
# One context, and what may come in.
proved|b||||→{"type":"assumed","extensions":"0-9A-Za-z*#+_.","callers":"0-9+","starts":"every context"}\n{"type":"verdict","kind":"Unreachable","context":"b"}\n{"type":"way","text":"no such application: a,1,1 A(x)"}\n
proved|c|a|0-9||→{"type":"assumed","extensions":"0-9","callers":"0-9+","starts":"a"}\n{"type":"verdict","kind":"MayReach","context":"c"}\n{"type":"way","text":"no such application: a,1,1 A(x)"}\n
unproved|c|a,b,c|0-9|7|a-z→{"type":"assumed","extensions":"0-9","callers":"7","facts":"a-z","starts":"a b c"}\n{"type":"note","kind":"NoProof"}\n{"type":"verdict","kind":"MayReach","context":"c"}\n{"type":"way","text":"no such application: a,1,1 A(x)"}\n
"#;

/// The lines of tests that ran, and of what they ran.
const TESTS: &str =
    r#"{"type":"test","number":1,"kind":"Passed","name":"a caller gets through"}\n{"type":"test","number":2,"kind":"Failed","name":"two","at":"a.test:3","expected":"ran a,1,1","got":"ran nothing","trace":"a,1,1 A(x)\\u000aa,_X,2 B()\\u000ac,1,1 D()"}\n{"type":"test","number":3,"kind":"Failed","name":"three","at":"a.test:9","expected":"","got":"","trace":""}\n{"type":"covered","file":"a.conf","entries":3,"of":4}\n{"type":"never","file":"a.conf","line":3,"context":"a","name":"_X","priority":2,"application":"B"}\n{"type":"never","file":"a.conf"}\n{"type":"count","tests":3,"failed":2}\n"#;

/// The dialplan.
fn plan_of(alloc: Global) -> Result<Dialplan, Fail> {
    let text = bytes_of(alloc, PLAN)?;
    match Dialplan::load(alloc, &text) {
        Ok((plan, _)) => Ok(plan),
        Err(_) => Err("the dialplan is faulty".into()),
    }
}

/// The text with these bytes.
fn string_of(alloc: Global, bytes: &[u8]) -> Result<String, Fail> {
    let mut out = String::new(alloc);
    out.push_str(str::from_utf8(bytes)?)?;
    Ok(out)
}

/// The parts of a text between the bytes.
fn parts_of(alloc: Global, text: &str, between: char) -> Result<Vec<Vec<u8>>, Fail> {
    let mut parts = Vec::new(alloc);
    for part in text.split(between) {
        parts.push(Vec::from_slice(alloc, part.as_bytes())?)?;
    }
    Ok(parts)
}

/// A word, if it is given.
fn given_word(word: Option<&str>) -> Option<&[u8]> {
    let word = word.unwrap_or("");
    if word.is_empty() {
        return None;
    }
    Some(word.as_bytes())
}

/// The first entries of the context with a number, and the lines on how a call gets there.
fn reached_context(
    alloc: Global,
    context: usize,
    count: usize,
    way: &str,
) -> Result<ReachedContext, Fail> {
    let mut entries = Vec::new(alloc);
    for entry in 0..count {
        entries.push(EntryId { context, entry })?;
    }
    let way = if way.is_empty() {
        Vec::new(alloc)
    } else {
        parts_of(alloc, way, '|')?
    };
    Ok(ReachedContext { entries, way })
}

/// What is found: of all contexts, or of the target.
fn finding_of(alloc: Global, target: Option<&[u8]>) -> Result<ReachFinding, Fail> {
    if let Some(target) = target {
        return Ok(ReachFinding::Target(target == b"c".as_slice()));
    }
    let mut contexts = Vec::new(alloc);
    contexts.push(reached_context(alloc, 0, 2, "a,{0-9}*  a call comes in")?)?;
    contexts.push(reached_context(alloc, 1, 0, "")?)?;
    contexts.push(reached_context(alloc, 2, 1, "a,{0-9}*  a call comes in|a,1,1 A(x) -> c,s")?)?;
    Ok(ReachFinding::Contexts(contexts))
}

/// An answer to a question.
struct ReachedAnswer;

impl Question for ReachedAnswer {
    fn answer(alloc: Global, asked: &str) -> Result<String, Fail> {
        let plan = plan_of(alloc)?;
        let mut words = asked.split('|');
        let is_proved = words.next() == Some("proved");
        let target = given_word(words.next());
        let starts = words.next().unwrap_or("");
        let ask = Ask {
            context: b"a",
            target,
            starts: given_word(Some(starts)),
            exten: given_word(words.next()),
            caller: given_word(words.next()),
            facts: given_word(words.next()),
        };
        let answer = ReachAnswer {
            starts: parts_of(alloc, starts, ',')?,
            is_proved,
            finding: finding_of(alloc, target)?,
            tail: parts_of(alloc, "no such application: a,1,1 A(x)", '|')?,
            status: 0,
        };
        let mut out = Vec::new(alloc);
        push_reach(alloc, &mut out, &plan, &ask, &answer)?;
        string_of(alloc, &out)
    }
}

/// Adds the lines of three tests.
fn push_tests(alloc: Global, out: &mut Vec<u8>) -> Result<(), Fail> {
    let trace = [
        Text::copy_of(alloc, b"a,1,1 A(x)")?,
        Text::copy_of(alloc, b"a,_X,2 B()")?,
        Text::copy_of(alloc, b"c,1,1 D()")?,
    ];
    let passed = TestPoint {
        number: 1,
        name: b"a caller gets through",
        failure: None,
    };
    push_test(alloc, out, &passed)?;
    let failed = TestPoint {
        number: 2,
        name: b"two",
        failure: Some(TestFailure {
            at: b"a.test:3",
            expected: b"ran a,1,1",
            got: b"ran nothing",
            trace: &trace,
        }),
    };
    push_test(alloc, out, &failed)?;
    let bare = TestPoint {
        number: 3,
        name: b"three",
        failure: Some(TestFailure {
            at: b"a.test:9",
            expected: b"",
            got: b"",
            trace: &[],
        }),
    };
    push_test(alloc, out, &bare)?;
    Ok(())
}

#[test]
fn answers_on_calls_as_objects(rt: HostRuntime) -> Result<(), Fail> {
    check::<ReachedAnswer>(rt.alloc(), REACHES)
}

#[test]
fn tests_that_ran_as_objects(rt: HostRuntime) -> Result<(), Fail> {
    let alloc = rt.alloc();
    let plan = plan_of(alloc)?;
    let mut out = Vec::new(alloc);
    push_tests(alloc, &mut out)?;
    push_covered(&mut out, b"a.conf", 3, 4)?;
    let second = EntryId {
        context: 0,
        entry: 1,
    };
    push_never(&mut out, b"a.conf", Some(3), &plan, second)?;
    let none = EntryId {
        context: 9,
        entry: 0,
    };
    push_never(&mut out, b"a.conf", None, &plan, none)?;
    push_test_count(&mut out, 3, 2)?;
    let text = string_of(alloc, &out)?;
    check_answer(alloc, "three tests", &text, TESTS)
}
