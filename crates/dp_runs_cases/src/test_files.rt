//! Test files, with their tests or all their faults, worked out by hand from the rules of the language.
use dp_case_tables::{Question, bytes_of, check_all};
use dp_commands::{ScriptLine, Turn};
use dp_tests::{
    Act, Expectation, ExpectedCall, ExpectedPlace, HeadLine, Items, LineClaim, Test, TestFault,
    TestFaults, TestFile, TestLine, read_tests,
};
use dp_wide_runs::WideTurn;
use std::alloc::Global;
use std::test::Fail;

/// Worked cases of lines that give events. A case is a line of a test, then an arrow, and what it gives, or the name of its fault.
const EVENTS: &str = r#"
# Lines of scripts with facts.
start main s→Start { context: "main", exten: "s", caller: "" }
 start main s 200 →Start { context: "main", exten: "s", caller: "200" }
digit 1 5→Digit { channel: 1, digit: 53 }
result 1 BUSY→DialResult { channel: 1, status: Busy }
timeout 2→Timeout { channel: 2 }
poll 2→Poll { channel: 2 }
hangup 2→Hangup { channel: 2 }
offer q→Offer { queue: "q" }
answer Line/1→Answer { agent: "Line/1" }
decline Line/1→Decline { agent: "Line/1" }
done Line/1→AgentDone { agent: "Line/1" }
let 1 A = 5 6→Assign { channel: Some(1), name: "A", value: "5 6" }
global DB(x)=→Assign { channel: None, name: "DB(x)", value: "" }
go 3→Timeout { channel: 3 }
pass 3→pass 3
# In a test `clock` and `assume` are event lines.
clock wed 2026-11-25 10:30→Assign { channel: None, name: "CLOCK", value: "wed 2026-11-25 10:30" }
assume DB CDR→Assign { channel: None, name: "ASSUMED(DB)", value: "1" } Assign { channel: None, name: "ASSUMED(CDR)", value: "1" }
# `call` is `start`.
call main s→Start { context: "main", exten: "s", caller: "" }
call main s 200→Start { context: "main", exten: "s", caller: "200" }
# `dial` is a digit for each byte.
dial 1 7→Digit { channel: 1, digit: 55 }
dial 1 *#D→Digit { channel: 1, digit: 42 } Digit { channel: 1, digit: 35 } Digit { channel: 1, digit: 68 }
# Another file is reloaded; its name may have blanks.
reload b.conf→reload b.conf
reload  my plan.conf →reload my plan.conf
# Skipped lines give nothing.
→nothing
 \t →nothing
; start main s→nothing
 ;start main s→nothing
# Lines that are not of the language.
start main→BadLine
call main→BadLine
call main s 200 more→BadLine
call→BadLine
dial 1→BadLine
dial 1 5E→BadLine
dial 1 5-6→BadLine
dial x 5→BadLine
dial 1 5 6→BadLine
reload→BadLine
step 1→BadLine
step 1 5→BadLine
show 1 A→BadLine
let 1 =5→BadLine
clock wed 2026-13-25 10:30→BadLine
assume→BadLine
walk 1→BadLine
tests of all→BadLine
Test of all→BadLine
"#;

/// The same for lines that expect something.
const EXPECTATIONS: &str = r#"
# A state is the rest of the line.
expect 1 ended→1 is ended
expect 2 ready main,s,1→2 is ready main,s,1
expect 1 ready  main→1 is ready  main
expect 1 unknown $[7 / 2 = 3]→1 is unknown $[7 / 2 = 3]
expect 1 digits→1 is digits
expect 1 pause→1 is pause
expect 1 queued q→1 is queued q
expect 1 talking q Line/1→1 is talking q Line/1
expect 1 dialling→1 is dialling
# What ran.
expect 1 ran Dial→1 ran Dial
expect 1 ran Dial()→1 ran Dial()
expect 1 ran Dial(Line/1,20)→1 ran Dial(Line/1,20)
expect 1 ran Set(A=f(1))→1 ran Set(A=f(1))
expect 1 ran  Set (A=1) →1 ran Set(A=1)
expect 1 passed Answer→1 passed Answer
expect 1 passed Goto(a,b,1)→1 passed Goto(a,b,1)
# The place of what ran. A name is compared by its meaning.
expect 1 at main,s→1 at main,s
expect 1 at main,s,2→1 at main,s,2
expect 1 at main , _1-X. , 3→1 at main,_1X.,3
expect 1 at main,_[4-2]X→BadExpect
# Values.
expect 1 A=5→1 has A=5
expect 1 A =→1 has A=
expect 1 CDR(x) = a = b→1 has CDR(x)=a = b
expect 1 ended=5→1 has ended=5
expect global DB(x)=a b→global has DB(x)=a b
# Queues.
expect rings Line/1→rings Line/1
expect rings Line/1  Line/2→rings Line/1 Line/2
expect waiting q 0→waiting q 0
expect waiting q 12→waiting q 12
# Refusals, by number or by name in any case.
expect refused→refused
expect refused 40→refused NoChannel
expect refused 53→refused NotDialling
expect refused BadDigit→refused BadDigit
expect refused notready→refused NotReady
# After `not`, the rest does not hold.
expect not 1 ended→not 1 is ended
expect  not  1 ran Dial→not 1 ran Dial
expect not global A=1→not global has A=1
expect not refused 41→not refused NotReady
# Texts without one of these forms.
expect→BadExpect
expect not→BadExpect
expect not not 1 ended→BadExpect
expect 1→BadExpect
expect x ended→BadExpect
expect 4294967296 ended→BadExpect
expect 1 endde→BadExpect
expect 1 =5→BadExpect
expect 1 ran→BadExpect
expect 1 ran (5)→BadExpect
expect 1 ran Dial(5→BadExpect
expect 1 ran Dial(5) now→BadExpect
expect 1 ran Goto,s,1→BadExpect
expect 1 passed→BadExpect
expect 1 at main→BadExpect
expect 1 at ,s→BadExpect
expect 1 at main,→BadExpect
expect 1 at main,s,0→BadExpect
expect 1 at main,s,n→BadExpect
expect 1 at main,s,1,2→BadExpect
expect global A→BadExpect
expect rings→BadExpect
expect waiting q→BadExpect
expect waiting q x→BadExpect
expect waiting q 1 2→BadExpect
expect refused 39→BadExpect
expect refused 54→BadExpect
expect refused Never→BadExpect
expect refused 40 41→BadExpect
"#;

/// Worked cases of files. A case is a file, then an arrow, and its head, its setup and its tests with their lines, or its faults.
const FILES: &str = r#"
# The whole of a small file.
; the office\ndialplan office.conf\nqueues queues.conf\nclock wed 2026-11-25 10:30\nassume DB\nglobal NIGHT=0\n\ntest A call is answered\ncall main s 200\nexpect 1 ran Answer\ntest  Two  \n; nothing comes\ndial 1 5\nexpect refused 40\nreload b.conf→dialplan office.conf @2|queues queues.conf @3|clock wed 2026-11-25 10:30 @4|assume DB @5|@6 Assign { channel: None, name: "NIGHT", value: "0" }|test A call is answered @8|@9 Start { context: "main", exten: "s", caller: "200" }|@10 1 ran Answer|test Two @11|@13 Digit { channel: 1, digit: 53 }|@14 refused NoChannel|@15 reload b.conf
# Only a head, and a head after its setup.
dialplan a→dialplan a @1
global A=1\nreload c\ndialplan a b→dialplan a b @3|@1 Assign { channel: None, name: "A", value: "1" }|@2 reload c
# In a test each `clock` counts, and that of the head stays.
dialplan a\nclock wed 2026-11-25 10:30\ntest x\nclock thu 2026-11-26 10:30\nclock fri 2026-11-27 10:30→dialplan a @1|clock wed 2026-11-25 10:30 @2|test x @3|@4 Assign { channel: None, name: "CLOCK", value: "thu 2026-11-26 10:30" }|@5 Assign { channel: None, name: "CLOCK", value: "fri 2026-11-27 10:30" }
# A test may have no line.
dialplan a\ntest x\ntest x→dialplan a @1|test x @2|test x @3
# No dialplan.
→1 NoDialplan
test x→1 NoDialplan
call main s→1 NoDialplan
# Lines of the head that are repeated or late.
dialplan a\ndialplan b→2 HeadTwice
dialplan a\nqueues a\nqueues a\nclock wed 2026-11-25 10:30\nclock wed 2026-11-25 10:30\nassume DB\nassume CDR→3 HeadTwice|5 HeadTwice|7 HeadTwice
dialplan a\ntest x\nqueues a\ndialplan a→3 HeadLate|4 HeadLate
test x\ndialplan a→1 NoDialplan|2 HeadLate
dialplan a\nqueues→2 BadLine
dialplan→1 NoDialplan|1 BadLine
# An expectation before the first test, and a test without a name.
dialplan a\nexpect 1 ended→2 ExpectOutside
dialplan a\ntest\nexpect 1 ended→2 NoName
dialplan a\n test ; \ntest→3 NoName
# All faults are reported, in the order of the lines, and at most one for each.
step 1\nexpect 1 ended\nexpect walk\ntest \ndialplan a\nexpect walk\nexpect 1 ended\nwalk→1 NoDialplan|1 BadLine|2 ExpectOutside|3 BadExpect|4 NoName|5 HeadLate|6 BadExpect|8 BadLine
"#;

/// Adds what a turn gives.
fn push_turn(out: &mut String, turn: &WideTurn) -> Result<(), Fail> {
    match turn {
        WideTurn::Plain(Turn::Event(event)) => write!(out, "{event:?}")?,
        WideTurn::Plain(Turn::Show { channel, name }) => write!(out, "show {channel} {name}")?,
        WideTurn::Further { channel } => write!(out, "further {channel}")?,
        WideTurn::Pass { channel } => write!(out, "pass {channel}")?,
    }
    Ok(())
}

/// Adds what turns give, separated by blanks.
fn push_turns(out: &mut String, turns: &Items<ScriptLine<WideTurn>>) -> Result<(), Fail> {
    let mut is_first = true;
    for line in turns.as_slice() {
        if !is_first {
            out.push(' ')?;
        }
        is_first = false;
        push_turn(out, &line.turn)?;
    }
    Ok(())
}

/// Adds a call, as a line writes it.
fn push_call(out: &mut String, call: &ExpectedCall) -> Result<(), Fail> {
    write!(out, "{}", call.application)?;
    if let Some(arguments) = &call.arguments {
        write!(out, "({arguments})")?;
    }
    Ok(())
}

/// Adds the place of an entry, with the canonical spelling of its name.
fn push_place(out: &mut String, place: &ExpectedPlace) -> Result<(), Fail> {
    write!(out, "{},", place.context)?;
    for byte in place.name.spelling() {
        out.push(char::from(*byte))?;
    }
    if let Some(priority) = place.priority {
        write!(out, ",{priority}")?;
    }
    Ok(())
}

/// Adds the channel of a value, or that it is a global.
fn push_holder(out: &mut String, channel: Option<u32>) -> Result<(), Fail> {
    match channel {
        Some(channel) => write!(out, "{channel}")?,
        None => out.push_str("global")?,
    }
    Ok(())
}

/// Adds what a line claims.
fn push_claim(out: &mut String, claim: &LineClaim) -> Result<(), Fail> {
    match claim {
        LineClaim::State { channel, state } => write!(out, "{channel} is {state}")?,
        LineClaim::Ran { channel, call } => {
            write!(out, "{channel} ran ")?;
            push_call(out, call)?;
        }
        LineClaim::Passed { channel, call } => {
            write!(out, "{channel} passed ")?;
            push_call(out, call)?;
        }
        LineClaim::At { channel, place } => {
            write!(out, "{channel} at ")?;
            push_place(out, place)?;
        }
        LineClaim::Value {
            channel,
            name,
            value,
        } => {
            push_holder(out, *channel)?;
            write!(out, " has {name}={value}")?;
        }
        LineClaim::Rings { agents } => {
            out.push_str("rings")?;
            for agent in agents.as_slice() {
                write!(out, " {agent}")?;
            }
        }
        LineClaim::Waiting { queue, count } => write!(out, "waiting {queue} {count}")?,
        LineClaim::Refused { refusal } => {
            out.push_str("refused")?;
            if let Some(refusal) = refusal {
                write!(out, " {}", refusal.name())?;
            }
        }
    }
    Ok(())
}

/// Adds what a line expects.
fn push_expectation(out: &mut String, expectation: &Expectation) -> Result<(), Fail> {
    if expectation.is_negated {
        out.push_str("not ")?;
    }
    push_claim(out, &expectation.claim)
}

/// Adds what a line does.
fn push_act(out: &mut String, act: &Act) -> Result<(), Fail> {
    match act {
        Act::Turns(turns) => push_turns(out, turns),
        Act::Reload(file) => {
            write!(out, "reload {file}")?;
            Ok(())
        }
        Act::Expect(expectation) => push_expectation(out, expectation),
    }
}

/// Adds the lines of a setup or of a test, each with its number.
fn push_lines(out: &mut String, lines: &Items<TestLine>) -> Result<(), Fail> {
    for line in lines.as_slice() {
        write!(out, "|@{} ", line.line)?;
        push_act(out, &line.act)?;
    }
    Ok(())
}

/// Adds a line of the head with its number, if there is one.
fn push_head(out: &mut String, word: &str, head: Option<&HeadLine>) -> Result<(), Fail> {
    if let Some(head) = head {
        write!(out, "|{word} {} @{}", head.text, head.line)?;
    }
    Ok(())
}

/// Adds a test with its lines.
fn push_test(out: &mut String, test: &Test) -> Result<(), Fail> {
    write!(out, "|test {} @{}", test.name, test.line)?;
    push_lines(out, &test.lines)
}

/// What a test file is.
fn file_text(alloc: Global, file: &TestFile) -> Result<String, Fail> {
    let mut out = String::new(alloc);
    write!(
        out,
        "dialplan {} @{}",
        file.dialplan.text, file.dialplan.line
    )?;
    push_head(&mut out, "queues", file.queues.as_ref())?;
    push_head(&mut out, "clock", file.clock.as_ref())?;
    push_head(&mut out, "assume", file.assume.as_ref())?;
    push_lines(&mut out, &file.setup)?;
    for test in file.tests.as_slice() {
        push_test(&mut out, test)?;
    }
    Ok(out)
}

/// The faults of a file, each with its line.
fn faults_text(alloc: Global, faults: &[TestFault]) -> Result<String, Fail> {
    let mut out = String::new(alloc);
    for fault in faults {
        if !out.is_empty() {
            out.push('|')?;
        }
        write!(out, "{} {}", fault.line, fault.kind.name())?;
    }
    Ok(out)
}

/// The contents of a file of a case, or its faults.
struct WholeFile;

impl Question for WholeFile {
    fn answer(alloc: Global, asked: &str) -> Result<String, Fail> {
        let text = bytes_of(alloc, asked)?;
        match read_tests(alloc, &text) {
            Ok(file) => file_text(alloc, &file),
            Err(TestFaults::Faulty(faults)) => faults_text(alloc, faults.as_slice()),
            Err(TestFaults::NoMemory) => Err(Fail::new(format_args!("out of memory"))),
        }
    }
}

/// What the first line of the first test of a file gives, or that it has none.
fn first_act_text(alloc: Global, file: &TestFile) -> Result<String, Fail> {
    let mut out = String::new(alloc);
    let test = file.tests.as_slice().first().ok_or("no test")?;
    match test.lines.as_slice().first() {
        Some(line) => push_act(&mut out, &line.act)?,
        None => out.push_str("nothing")?,
    }
    Ok(out)
}

/// The name of the first fault.
fn first_fault_text(alloc: Global, faults: &[TestFault]) -> Result<String, Fail> {
    let mut out = String::new(alloc);
    let fault = faults.first().ok_or("no fault")?;
    out.push_str(fault.kind.name())?;
    Ok(out)
}

/// What a line of a case gives in a test, or its fault.
struct LineOfTest;

impl Question for LineOfTest {
    fn answer(alloc: Global, asked: &str) -> Result<String, Fail> {
        let mut text = bytes_of(alloc, "dialplan a\\ntest x\\n")?;
        let line = bytes_of(alloc, asked)?;
        text.extend_from_slice(&line)?;
        match read_tests(alloc, &text) {
            Ok(file) => first_act_text(alloc, &file),
            Err(TestFaults::Faulty(faults)) => first_fault_text(alloc, faults.as_slice()),
            Err(TestFaults::NoMemory) => Err(Fail::new(format_args!("out of memory"))),
        }
    }
}

/// A line of a test means what its words say, or is faulty.
#[test]
fn lines_mean_what_their_words_say(rt: HostRuntime) -> Result<(), Fail> {
    check_all::<LineOfTest>(rt.alloc(), &[EVENTS, EXPECTATIONS])
}

/// A file is its head, its setup and its tests, or all its faults.
#[test]
fn test_files_are_read_or_have_all_their_faults(rt: HostRuntime) -> Result<(), Fail> {
    check_all::<WholeFile>(rt.alloc(), &[FILES])
}
