//! Events that are given again after memory ran out, over dialplans with queues and with reloads, worked out by hand from the rules.
use dp_case_tables::{Question, bytes_of, check, check_same};
use dp_commands::{ScriptLine, Turn, read_script};
use dp_machine::{Dialplan, Event, Machine, NoMemory, Queues, Reply};
use dp_machine_fixture::{StandardMachine, call, push_state, push_value};
use std::alloc::Global;
use std::str;
use std::test::Fail;

/// A case is a dialplan, a file of queues and a script, separated by `¦`; then an arrow, the reply to each event and each value that is
/// shown, and the states of channels 1 and 2. An entry that was run is written `ran CONTEXT ENTRY`, with both numbers, in the dialplan that
/// was then in force. The dialplan for the lines `reload` may come before a script, with another `¦`.
const ROWS: &str = r"
# A subroutine with arguments, and the value that it returns.
[main]\nexten => s,1,Gosub(sub,s,1(x,y))\nexten => s,2,NoOp()\nexten => s,3,Return()\n[sub]\nexten => s,1,Return(${ARG2})¦¦start main s\nstep 1 2\nshow 1 GOSUB_RETVAL\nshow 1 ARG1\nstep 1 2→Started(1), ran 0 0, ran 1 0, GOSUB_RETVAL=y, ARG1=, ran 0 1, ran 0 2, ended main,s,3, none
# Members that pause, in all queues and in one.
[main]\nexten => w,1,Queue(q1)\nexten => s,1,PauseQueueMember(,Line/7)\nexten => s,2,PauseQueueMember(,Line/8)\nexten => s,3,UnpauseQueueMember(q1,Line/7)¦[q1]\nmember => Line/7\n[q2]\nmember => Line/7¦start main w\nstart main s\nstep 1\nstep 2\nshow 2 PQMSTATUS\nstep 2\nshow 2 PQMSTATUS\noffer q1\nstep 2\nshow 2 UPQMSTATUS\noffer q1→Started(1), Started(2), ran 0 0, ran 0 1, PQMSTATUS=PAUSED, ran 0 2, PQMSTATUS=NOTFOUND, Refused(NoMember), ran 0 3, UPQMSTATUS=UNPAUSED, Offered { channel: 1, rung: 1 }, queued main,w,1, ready main,s,4
# What was dialled and is not there, and a hang-up.
[main]\nexten => s,1,WaitExten()\nexten => i,1,NoOp()\nexten => h,1,NoOp()¦¦start main s\nstep 1\ndigit 1 7\nstep 1\nshow 1 INVALID_EXTEN\nhangup 1\nstep 1 2→Started(1), ran 0 0, Done, Invalid, INVALID_EXTEN=7, Done, ran 0 2, NoEntry, ended main,h,2, none
# A call that rings at two agents.
[main]\nexten => s,1,Queue(q,c)\nexten => s,2,NoOp()¦[q]\nmember => Line/1\nmember => Line/2¦start main s\nstep 1\noffer q\nanswer Line/1\nanswer Line/2\ndone Line/1\nshow 1 QUEUESTATUS→Started(1), ran 0 0, Offered { channel: 1, rung: 2 }, Done, Refused(NotRinging), Done, QUEUESTATUS=CONTINUE, ready main,s,2, none
# Members that come and go.
[main]\nexten => s,1,AddQueueMember(q,Line/9)\nexten => s,2,AddQueueMember(q,Line/9)\nexten => s,3,AddQueueMember(no,Line/9)\nexten => s,4,RemoveQueueMember(q,Line/1)\nexten => s,5,RemoveQueueMember(q,Line/9)\nexten => s,6,RemoveQueueMember(q,Line/9)¦[q]\nmember => Line/1¦start main s\nstep 1\nshow 1 AQMSTATUS\nstep 1\nshow 1 AQMSTATUS\nstep 1\nshow 1 AQMSTATUS\nstep 1\nshow 1 RQMSTATUS\nstep 1\nshow 1 RQMSTATUS\nstep 1\nshow 1 RQMSTATUS→Started(1), ran 0 0, AQMSTATUS=ADDED, ran 0 1, AQMSTATUS=MEMBERALREADY, ran 0 2, AQMSTATUS=NOSUCHQUEUE, ran 0 3, RQMSTATUS=NOTDYNAMIC, ran 0 4, RQMSTATUS=REMOVED, ran 0 5, RQMSTATUS=NOTINQUEUE, ready main,s,7, none
# A time-out in a queue, and a queue that is too empty to stay in.
[main]\nexten => s,1,Queue(q,,,,30)\nexten => e,1,Queue(empty)¦[q]\n[empty]\nleavewhenempty=yes¦start main s\nstep 1\ntimeout 1\nshow 1 QUEUESTATUS\nstart main e\nstep 2\npoll 2\nshow 2 QUEUESTATUS→Started(1), ran 0 0, Done, QUEUESTATUS=TIMEOUT, Started(2), ran 0 1, Done, QUEUESTATUS=LEAVEEMPTY, ready main,s,2, ready main,e,2
# A menu that leads to a queue.
[main]\nexten => s,1,Background(welcome)\n same => n,WaitExten(5)\nexten => 1,1,Queue(sales,c)\n same => n,Hangup()\nexten => i,1,Goto(s,1)\nexten => t,1,Hangup()\nexten => h,1,NoOp(${QUEUESTATUS})¦[sales]\nstrategy = ringall\nmember => Line/1\nmember => Line/2¦start main s\nstep 1\ndigit 1 1\nstep 1\noffer sales\nanswer Line/1\ndone Line/1\nshow 1 QUEUESTATUS\nstep 1 2→Started(1), ran 0 0, Done, ran 0 2, Offered { channel: 1, rung: 2 }, Done, Done, QUEUESTATUS=CONTINUE, ran 0 3, ran 0 6, ready main,h,2, none
# A call to devices, with each result.
[main]\nexten => s,1,Dial(Line/5,20)\nexten => s,2,NoOp()\nexten => h,1,Dial(Line/6)¦¦start main s\nstep 1\nresult 1 BUSY\nshow 1 DIALSTATUS\nresult 1 BUSY→Started(1), ran 0 0, Done, DIALSTATUS=BUSY, Refused(NotDialling), ready main,s,2, none
[main]\nexten => s,1,Dial(Line/5,20)\nexten => s,2,NoOp()\nexten => h,1,Dial(Line/6)¦¦start main s\nstep 1\nresult 1 ANSWER\nshow 1 DIALSTATUS→Started(1), ran 0 0, Done, DIALSTATUS=ANSWER, ready main,h,1, none
[main]\nexten => s,1,Dial(Line/5,20)\nexten => s,2,NoOp()\nexten => h,1,Dial(Line/6)¦¦start main s\nstep 1\nhangup 1\nshow 1 DIALSTATUS\nstep 1→Started(1), ran 0 0, Done, DIALSTATUS=CANCEL, ran 0 2, ended main,h,1, none
[main]\nexten => s,1,Dial(Line/5,20)\nexten => s,2,NoOp()\nexten => h,1,Dial(Line/6)¦¦start main s\nstep 1\ndigit 1 5\ntimeout 1\nshow 1 DIALSTATUS→Started(1), ran 0 0, Done, Done, DIALSTATUS=NOANSWER, ready main,s,2, none
[main]\nexten => s,1,Dial(Line/5)\nexten => s,2,NoOp()¦¦start main s\nstep 1\ntimeout 1\nstart main s\nstep 2\nhangup 2→Started(1), ran 0 0, Refused(NoTimer), Started(2), ran 0 0, Done, dialling main,s,1, ended main,s,1
[main]\nexten => s,1,Dial(Line/5,,g)\nexten => s,2,Dial()¦¦start main s\nstep 1\nresult 1 ANSWER\nshow 1 DIALSTATUS\nstep 1\nshow 1 DIALSTATUS→Started(1), ran 0 0, Done, DIALSTATUS=ANSWER, ran 0 1, DIALSTATUS=CHANUNAVAIL, ready main,s,3, none
[main]\nexten => s,1,Gosub(sub,s,1)\n[sub]\nexten => s,1,Set(LOCAL(DIALSTATUS)=mine)\nexten => s,2,Dial(Line/5,20)\nexten => s,3,Return()¦¦start main s\nstep 1 3\nresult 1 CONGESTION\nshow 1 DIALSTATUS\nstep 1\nshow 1 DIALSTATUS→Started(1), ran 0 0, ran 1 0, ran 1 1, Done, DIALSTATUS=CONGESTION, ran 1 2, DIALSTATUS=, ready main,s,2, none
# A device with the name of an agent is neither asked nor rung, and the agent's calls are not the device's.
[main]\nexten => s,1,Dial(Line/1)\nexten => w,1,Queue(q)¦[q]\nmember => Line/1¦start main s\nstart main w\nstep 1\nanswer Line/1\nresult 2 BUSY\nstep 2\nresult 2 BUSY\noffer q\nresult 1 BUSY\nanswer Line/1\nresult 2 BUSY→Started(1), Started(2), ran 0 0, Refused(NotRinging), Refused(NotDialling), ran 0 1, Refused(NotDialling), Offered { channel: 2, rung: 1 }, Done, Done, Refused(NotDialling), ready main,s,2, talking main,w,1
# A reload, and one with a fault.
[globals]\nX=1\nY=5\n[main]\nexten => 100,1,NoOp(a)\nexten => 100,2,NoOp(b)¦¦[globals]\nX=${X}2\n[main]\nexten => _1XX,2,Hangup()¦start main 100\nstep 1\nreload\nshow 1 X\nshow 1 Y\nstep 1→Started(1), ran 0 0, Done, X=12, Y=5, ran 0 0, ended main,100,2, none
[globals]\nX=1\nY=5\n[main]\nexten => 100,1,NoOp(a)\nexten => 100,2,NoOp(b)¦¦[main¦start main 100\nstep 1\nreload\nshow 1 X\nshow 1 Y\nstep 1→Started(1), ran 0 0, Refused(BadPlan), X=1, Y=5, ran 0 1, ready main,100,3, none
[globals]\nX=1\n[main]\nexten => s,1,NoOp()¦¦[globals]\nX=2\nY=3\n[main]\nexten => s,1,Hangup()\nexten => s,0,NoOp()¦start main s\nreload\nshow 1 X\nshow 1 Y\nstep 1→Started(1), Refused(BadPlan), X=1, Y=, ran 0 0, ready main,s,2, none
# Calls stay in their queues, and agents with them; a way out is that of the new dialplan, and globals count the calls that then wait.
[main]\nexten => s,1,Queue(q,c)\n[out]\nexten => 5,1,NoOp()¦[q]\ncontext = out\nmember => Line/1¦[globals]\nX=${QUEUE_WAITING_COUNT(q)} wait\n[out]\nexten => 6,1,NoOp()\n[main]\nexten => s,2,Hangup()¦start main s\nstart main s\nstep 1\nstep 2\noffer q\nreload\nshow 1 X\ndigit 2 5\ndigit 2 6\nreload\nshow 1 X\nanswer Line/1\nreload\nshow 1 X\ndone Line/1\nshow 1 QUEUESTATUS\nstep 1\nstep 2→Started(1), Started(2), ran 0 0, ran 0 0, Offered { channel: 1, rung: 1 }, Done, X=2 wait, Done, Done, Done, X=1 wait, Done, Done, X=0 wait, Done, QUEUESTATUS=CONTINUE, ran 1 0, ran 0 0, ended main,s,2, ready out,6,2
# Many contexts, names and globals are reloaded, twice.
[main]\nexten => s,1,Set(A=${B})¦¦[globals]\nB=1\nC=${B}${B}\nD=${C}${C}\n[main]\nexten => s,1,Goto(c,_12,1)\nexten => s,2(top),Set(A=${D})\ninclude => b\n[b]\nexten => _1[2-9]X.,1,NoOp()\nexten => _ZXN,1,NoOp(${A})\ninclude => c\n[c]\nexten => 5551234,1(top),NoOp()\nexten => _555!,2(end),NoOp()\ninclude => main¦start main s\nstep 1\nreload\nstep 1\nshow 1 A\nreload\nstart c 5551234\nstep 2 2→Started(1), ran 0 0, Done, ran 0 1, A=1111, Done, Started(2), ran 2 0, ran 2 1, ready main,s,3, ready c,5551234,3
";

/// Larger cases, in the same form. `COUNT calls ; ` may come before a script: these calls come in first, to the extension `s` of `main`.
const SIZES: &str = r"
# A local of 300 bytes.
[main]\nexten => s,1,Gosub(r,s,1)\n[r]\nexten => s,1,Set(LOCAL(A)=123456789012345678901234567890123456789012345678901234567890123456789012345678901234567890123456789012345678901234567890123456789012345678901234567890123456789012345678901234567890123456789012345678901234567890123456789012345678901234567890123456789012345678901234567890123456789012345678901234567890)\nexten => s,2,Return(${LEN(${A})})¦¦start main s\nstep 1 2\nshow 1 A\nstep 1\nshow 1 GOSUB_RETVAL\nshow 1 A→Started(1), ran 0 0, ran 1 0, A=123456789012345678901234567890123456789012345678901234567890123456789012345678901234567890123456789012345678901234567890123456789012345678901234567890123456789012345678901234567890123456789012345678901234567890123456789012345678901234567890123456789012345678901234567890123456789012345678901234567890, ran 1 1, GOSUB_RETVAL=300, A=, ready main,s,2, none
# Twelve arguments.
[main]\nexten => s,1,Gosub(r,s,1(a,b,c,d,e,f,g,h,i,j,k,l))\n[r]\nexten => s,1,NoOp()¦¦start main s\nstep 1\nshow 1 ARG1\nshow 1 ARG9\nshow 1 ARG10\nshow 1 ARG12\nshow 1 ARG13→Started(1), ran 0 0, ARG1=a, ARG9=i, ARG10=j, ARG12=l, ARG13=, ready r,s,1, none
# An expansion of 5,000 bytes: 50, then ten times as many, and ten times as many again.
[main]\nexten => s,1,Set(A=12345678901234567890123456789012345678901234567890)\nexten => s,2,Set(A=${A}${A}${A}${A}${A}${A}${A}${A}${A}${A})\nexten => s,3,Set(A=${A}${A}${A}${A}${A}${A}${A}${A}${A}${A})\nexten => s,4,Set(B=${LEN(${A})} ${A:4995})¦¦start main s\nstep 1 4\nshow 1 B→Started(1), ran 0 0, ran 0 1, ran 0 2, ran 0 3, B=5000 67890, ready main,s,5, none
# Call 1,001 is a member under its default name, and call 10,000 waits and rings there.
[main]\nexten => s,1,AddQueueMember(q)\nexten => s,2,RemoveQueueMember(q,Channel/1001)\nexten => w,1,Queue(q,c)¦[q]¦9999 calls ; start main w\nstep 1001\nshow 1001 AQMSTATUS\nstep 10000\noffer q\nanswer Channel/1001\ndone Channel/1001\nshow 10000 QUEUESTATUS\nstep 1001\nshow 1001 RQMSTATUS→Started(10000), ran 0 0, AQMSTATUS=ADDED, ran 0 2, Offered { channel: 10000, rung: 1 }, Done, Done, QUEUESTATUS=CONTINUE, ran 0 1, RQMSTATUS=REMOVED, ready main,s,1, ready main,s,1
";

/// The names whose values are read in each channel.
const NAMES: &str =
    "ARG1 ARG2 GOSUB_RETVAL INVALID_EXTEN QUEUESTATUS AQMSTATUS RQMSTATUS PQMSTATUS UPQMSTATUS DIALSTATUS A B C D X Y";

fn push_values(
    out: &mut String,
    alloc: Global,
    machine: &StandardMachine,
    channel: u32,
) -> Result<(), NoMemory> {
    for name in NAMES.split(' ') {
        push_value(out, alloc, machine, channel, name)?;
        out.push('\n')?;
    }
    Ok(())
}

fn push_channel(
    out: &mut String,
    alloc: Global,
    machine: &StandardMachine,
    channel: u32,
) -> Result<(), NoMemory> {
    let entry = machine.next_entry(alloc, channel)?;
    let phase = machine.phase(channel);
    let place = machine.place(channel);
    write!(out, "{phase:?} {place:?} {entry:?}\n")?;
    push_values(out, alloc, machine, channel)
}

fn push_queues(out: &mut String, queues: &Queues) -> Result<(), NoMemory> {
    for queue in queues.queues() {
        let members = queue.members();
        let waiting = queue.waiting();
        write!(out, "{members:?} {waiting:?}\n")?;
    }
    write!(out, "{:?} {}\n", queues.agents(), queues.finished())
}

/// What each reader of the machine says about channels 0 to 3, the queues and the dialplan in force.
fn readers_of(alloc: Global, machine: &StandardMachine) -> Result<String, NoMemory> {
    let mut out = String::new(alloc);
    for channel in 0..4 {
        push_channel(&mut out, alloc, machine, channel)?;
    }
    push_queues(&mut out, machine.queues())?;
    write!(out, "{:?}\n", machine.plan())?;
    Ok(out)
}

/// Asserts that each reader says what it said before.
fn check_readers(alloc: Global, machine: &StandardMachine, before: &str) -> Result<(), Fail> {
    let after = readers_of(alloc, machine)?;
    check_same("a refused event", &after, before)
}

/// Gives an event again after memory ran out, now with enough memory.
fn give_again(
    alloc: Global,
    machine: &mut StandardMachine,
    event: &Event,
    before: &str,
) -> Result<Reply, Fail> {
    check_readers(alloc, machine, before)?;
    let reply = machine.apply_kept(alloc, event).ok();
    Ok(reply.ok_or("memory is refused once more")?)
}

/// Gives an event, and again if memory runs out. What is refused, because of memory or by its reply, changes nothing.
fn give(
    alloc: Global,
    machine: &mut StandardMachine,
    event: &Event,
    before: &str,
) -> Result<Reply, Fail> {
    let once = event.copy()?;
    let reply = match machine.apply(alloc, once) {
        Ok(reply) => reply,
        Err(_) => give_again(alloc, machine, event, before)?,
    };
    if reply.is_refusal() {
        check_readers(alloc, machine, before)?;
    }
    Ok(reply)
}

fn push_reply(out: &mut String, reply: Reply) -> Result<(), NoMemory> {
    match reply {
        Reply::Ran(id) => write!(out, "ran {} {}, ", id.context, id.entry),
        other => write!(out, "{other:?}, "),
    }
}

/// Gives an event in this way, and adds the reply.
pub(crate) fn push_given(
    out: &mut String,
    alloc: Global,
    machine: &mut StandardMachine,
    event: &Event,
) -> Result<(), Fail> {
    let before = readers_of(alloc, machine)?;
    let reply = give(alloc, machine, event, &before)?;
    push_reply(out, reply)?;
    Ok(())
}

fn push_shown(
    out: &mut String,
    alloc: Global,
    machine: &StandardMachine,
    channel: u32,
    name: &str,
) -> Result<(), NoMemory> {
    write!(out, "{name}=")?;
    push_value(out, alloc, machine, channel, name)?;
    out.push_str(", ")
}

fn push_turn(
    out: &mut String,
    alloc: Global,
    machine: &mut StandardMachine,
    turn: &Turn,
) -> Result<(), Fail> {
    match turn {
        Turn::Event(event) => push_given(out, alloc, machine, event),
        Turn::Show { channel, name } => {
            let name = str::from_utf8(name.bytes())?;
            push_shown(out, alloc, machine, *channel, name)?;
            Ok(())
        }
    }
}

fn push_line(
    out: &mut String,
    alloc: Global,
    machine: &mut StandardMachine,
    line: &ScriptLine,
) -> Result<(), Fail> {
    for _turn in 0..line.count {
        push_turn(out, alloc, machine, &line.turn)?;
    }
    Ok(())
}

pub(crate) fn push_lines(
    out: &mut String,
    alloc: Global,
    machine: &mut StandardMachine,
    lines: &[ScriptLine],
) -> Result<(), Fail> {
    for line in lines {
        push_line(out, alloc, machine, line)?;
    }
    Ok(())
}

/// Lets this number of calls come in.
fn start_calls(alloc: Global, machine: &mut StandardMachine, count: u32) -> Result<(), NoMemory> {
    for _call in 0..count {
        machine.apply(alloc, call(alloc, b"main", b"s", b"")?)?;
    }
    Ok(())
}

/// The answers of a machine to a script after this number of calls, if its lines `reload` give this dialplan; and then the states of two
/// channels.
fn end_again(
    alloc: Global,
    machine: &mut StandardMachine,
    calls: u32,
    second: &[u8],
    script: &[u8],
) -> Result<String, Fail> {
    start_calls(alloc, machine, calls)?;
    let lines = read_script(alloc, Some(second), script)?;
    let mut out = String::new(alloc);
    push_lines(&mut out, alloc, machine, &lines)?;
    push_state(&mut out, machine, 1)?;
    out.push_str(", ")?;
    push_state(&mut out, machine, 2)?;
    Ok(out)
}

pub(crate) fn machine_of(
    alloc: Global,
    plan: &[u8],
    queues: &[u8],
) -> Result<StandardMachine, Fail> {
    let (plan, _) = Dialplan::load(alloc, plan)?;
    let queues = Queues::load(alloc, queues)?;
    let machine = Machine::new(alloc, plan, queues)?;
    Ok(machine)
}

/// The number of calls before a script, and the script.
fn calls_before(cell: &str) -> (u32, &str) {
    match cell.split_once(" calls ; ") {
        Some((count, script)) => (count.parse().unwrap_or(0), script),
        None => (0, cell),
    }
}

fn told_on(alloc: Global, plan: &[u8], queues: &[u8], cells: &str) -> Result<String, Fail> {
    let (second, cell) = cells.split_once('¦').unwrap_or(("", cells));
    let (calls, script) = calls_before(cell);
    let second = bytes_of(alloc, second)?;
    let script = bytes_of(alloc, script)?;
    let mut machine = machine_of(alloc, plan, queues)?;
    end_again(alloc, &mut machine, calls, &second, &script)
}

/// The answers of a machine to a script whose events are each given again if memory runs out.
struct GivenAgain;

impl Question for GivenAgain {
    fn answer(alloc: Global, asked: &str) -> Result<String, Fail> {
        let (plan, rest) = asked.split_once('¦').ok_or("no queues")?;
        let (queues, script) = rest.split_once('¦').ok_or("no script")?;
        let plan = bytes_of(alloc, plan)?;
        let queues = bytes_of(alloc, queues)?;
        told_on(alloc, &plan, &queues, script)
    }
}

/// If memory runs out, each reader says what it said before, and the event, given again, has its own reply.
#[test]
fn events_are_retried_after_no_memory(rt: HostRuntime) -> Result<(), Fail> {
    check::<GivenAgain>(rt.alloc(), ROWS)
}

/// Larger cases are answered like small ones.
#[test]
fn large_values_and_many_calls_are_handled(rt: HostRuntime) -> Result<(), Fail> {
    check::<GivenAgain>(rt.alloc(), SIZES)
}
