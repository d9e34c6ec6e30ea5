//! All extensions that match a dialled text, and what decides about each.
use dp_case_tables::{Question, bytes_of, check};
use dp_commands::match_all;
use dp_commands_fixture::{make_sink, outcome_text};
use dp_plan::Priority;
use std::alloc::Global;
use std::test::Fail;

/// The output for a dialplan, a context, a dialled text and a priority, followed by the result.
fn lines_of(alloc: Global, plan: &[u8], asked: &str) -> Result<String, Fail> {
    let (context, rest) = asked.split_once(' ').ok_or("no text")?;
    let (text, priority) = rest.split_once(' ').ok_or("no priority")?;
    let number = priority.parse::<u32>().ok().ok_or("no number")?;
    let priority = Priority::new(number).ok_or("a priority of 0")?;
    let mut writer = make_sink(alloc, 4096, None);
    let ended = match_all(
        alloc,
        plan,
        context.as_bytes(),
        text.as_bytes(),
        priority,
        &mut writer,
    );
    let lines = outcome_text(alloc, ended, writer)?;
    Ok(lines)
}

/// The telephones of a small house.
const HOUSE: &[u8] = b"[globals]\nDESK=100\n\
[phones]\nexten => 100,1(desk),NoOp(the front desk)\n same => n,Hangup()\n\
exten => _1XX,1,NoOp(a room)\n same => n,Goto(${DESK},desk)\n\
exten => _NXXXXXX,1,NoOp(a call to town)\n same => n,Hangup()\ninclude => rest\n\
[rest]\nexten => _X.,1,NoOp(no such number)\n same => n,Hangup()\n";

/// Calls in the house: a context, a text, a priority.
const IN_HOUSE: &str = r"
phones 100 1→phones,100,1 NoOp\nphones,100,1 NoOp: answers\nphones,_1XX,1 NoOp: less specific\nrest,_X.,1 NoOp: later context\nstatus 0
phones 1-00 2→phones,100,2 Hangup\nphones,100,2 Hangup: answers\nphones,_1XX,2 Goto: less specific\nrest,_X.,2 Hangup: later context\nstatus 0
phones 123 1→phones,_1XX,1 NoOp\nphones,_1XX,1 NoOp: answers\nrest,_X.,1 NoOp: later context\nstatus 0
phones 555-1234 1→phones,_NXXXXXX,1 NoOp\nphones,_NXXXXXX,1 NoOp: answers\nrest,_X.,1 NoOp: later context\nstatus 0
rest 100 1→rest,_X.,1 NoOp\nrest,_X.,1 NoOp: answers\nstatus 0

# all lack the priority
phones 100 3→none\nphones,100,3: no such priority\nphones,_1XX,3: no such priority\nrest,_X.,3: no such priority\nstatus 0

# no name matches, and no context has the name
phones s 1→none\nstatus 0
phones 1 1→none\nstatus 0
nowhere 100 1→none\nstatus 0
";

struct InHouse;

impl Question for InHouse {
    fn answer(alloc: Global, asked: &str) -> Result<String, Fail> {
        lines_of(alloc, HOUSE, asked)
    }
}

/// Calls in dialplans of their own.
const ROWS: &str = r"
# the first context lacks the priority, and an included one answers
[main]\nexten => 7,1,A()\ninclude => more\n[more]\nexten => _X,2,B()\n¦main 7 2→more,_X,2 B\nmain,7,2: no such priority\nmore,_X,2 B: answers\nstatus 0

# an extension that lacks the priority comes between others
[main]\nexten => _!,1,C()\nexten => _X,2,B()\nexten => 1,1,A()\n¦main 1 1→main,1,1 A\nmain,1,1 A: answers\nmain,_X,1: no such priority\nmain,_!,1 C: less specific\nstatus 0

# and comes first
[main]\nexten => _!,1,C()\nexten => _X,2,B()\n¦main 1 1→main,_!,1 C\nmain,_X,1: no such priority\nmain,_!,1 C: answers\nstatus 0

# one extension, however it is written and wherever it is
[main]\nexten => _1[0-9],2,B()\nexten => 5,1,C()\nexten => _1X,1,A()\n[other]\nexten => 12,1,D()\n[main]\nexten => _-1x,3,E()\n¦main 12 3→main,_1X,3 E\nmain,_1X,3 E: answers\nstatus 0

# each context once, where it is first reached
[a]\ninclude => b\ninclude => c\n[b]\ninclude => d\n[c]\ninclude => d\nexten => 1,1,C()\n[d]\ninclude => a\nexten => 1,1,D()\n¦a 1 1→d,1,1 D\nd,1,1 D: answers\nc,1,1 C: later context\nstatus 0

# a faulty dialplan
abc\n¦main 1 1→fault 2 NoSection line 1
";

struct CandidatesInPlan;

impl Question for CandidatesInPlan {
    fn answer(alloc: Global, asked: &str) -> Result<String, Fail> {
        let (plan, rest) = asked.split_once('¦').ok_or("no context")?;
        let plan = bytes_of(alloc, plan)?;
        lines_of(alloc, &plan, rest)
    }
}

#[test]
fn candidates_are_reported(rt: HostRuntime) -> Result<(), Fail> {
    check::<InHouse>(rt.alloc(), IN_HOUSE)?;
    check::<CandidatesInPlan>(rt.alloc(), ROWS)
}
