//! Applications in a dialplan of two contexts, worked out by hand from the rules.
use dp_case_tables::{Question, bytes_of, check, check_same};
use dp_machine::NoMemory;
use dp_machine_fixture::{
    AskMachine, StandardMachine, answer_on, call, notes_of, push_called, push_stepped,
};
use std::alloc::Global;
use std::test::Fail;

/// The lines after that of the application.
const BEHIND: &[u8] = b"\nexten => 100,2,NoOp()\nexten => 200,1,NoOp()\nexten => 200,3,Hangup()\n\
[out]\nexten => 100,1,NoOp()\nexten => 200,5,NoOp()\n";

/// An application at priority 1 of `100` in `main`, and the answers of a call to it to two steps: `REPLY -> STATE ; REPLY -> STATE`.
const ROWS: &str = r"
# One part.
Goto(2)→ran main,100,1 Goto -> ready main,100,2 ; ran main,100,2 NoOp -> ready main,100,3
Goto(1)→ran main,100,1 Goto -> ready main,100,1 ; ran main,100,1 Goto -> ready main,100,1
Goto(3)→ran main,100,1 Goto -> ready main,100,3 ; no entry -> ended main,100,3
# Two parts.
Goto(200,1)→ran main,100,1 Goto -> ready main,200,1 ; ran main,200,1 NoOp -> ready main,200,2
Goto(200,3)→ran main,100,1 Goto -> ready main,200,3 ; ran main,200,3 Hangup -> ended main,200,3
Goto(200,2)→ran main,100,1 Goto -> ready main,200,2 ; no entry -> ended main,200,2
Goto(300,1)→ran main,100,1 Goto -> ready main,300,1 ; no entry -> ended main,300,1
Goto(0200,1)→ran main,100,1 Goto -> ready main,0200,1 ; no entry -> ended main,0200,1
# Three parts.
Goto(out,100,1)→ran main,100,1 Goto -> ready out,100,1 ; ran out,100,1 NoOp -> ready out,100,2
Goto(out,200,5)→ran main,100,1 Goto -> ready out,200,5 ; ran out,200,5 NoOp -> ready out,200,6
Goto(out,200,1)→ran main,100,1 Goto -> ready out,200,1 ; no entry -> ended out,200,1
Goto(Out,100,1)→ran main,100,1 Goto -> ready Out,100,1 ; no entry -> ended Out,100,1
Goto(out-,100,1)→ran main,100,1 Goto -> ready out-,100,1 ; no entry -> ended out-,100,1
# An empty part is the channel's own.
Goto(,2)→ran main,100,1 Goto -> ready main,100,2 ; ran main,100,2 NoOp -> ready main,100,3
Goto(,,2)→ran main,100,1 Goto -> ready main,100,2 ; ran main,100,2 NoOp -> ready main,100,3
Goto(,200,1)→ran main,100,1 Goto -> ready main,200,1 ; ran main,200,1 NoOp -> ready main,200,2
Goto(out,,1)→ran main,100,1 Goto -> ready out,100,1 ; ran out,100,1 NoOp -> ready out,100,2
Goto( , ,2)→ran main,100,1 Goto -> ready main,100,2 ; ran main,100,2 NoOp -> ready main,100,3
# Blanks at the ends of a part.
Goto( 200 , 1 )→ran main,100,1 Goto -> ready main,200,1 ; ran main,200,1 NoOp -> ready main,200,2
Goto(\tout\t,\t200\t,\t5\t)→ran main,100,1 Goto -> ready out,200,5 ; ran out,200,5 NoOp -> ready out,200,6
Goto(2 00,1)→ran main,100,1 Goto -> ready main,2 00,1 ; no entry -> ended main,2 00,1
# Commas inside parentheses.
Goto(a(b,c),1)→ran main,100,1 Goto -> ready main,a(b,c),1 ; no entry -> ended main,a(b,c),1
Goto(200),1)→ran main,100,1 Goto -> ready main,200),1 ; no entry -> ended main,200),1
Goto((200,1))→ran main,100,1 Goto -> ended main,100,1 ; refused 49 Ended -> ended main,100,1
# Dashes of an extension.
Goto(2-00,1)→ran main,100,1 Goto -> ready main,2-00,1 ; ran main,200,1 NoOp -> ready main,2-00,2
Goto(--200-,3)→ran main,100,1 Goto -> ready main,--200-,3 ; ran main,200,3 Hangup -> ended main,--200-,3
Goto(-,1)→ran main,100,1 Goto -> ready main,-,1 ; no entry -> ended main,-,1
# Priorities that are numbers in a target.
Goto(200,001)→ran main,100,1 Goto -> ready main,200,1 ; ran main,200,1 NoOp -> ready main,200,2
Goto(000000000000000000000000000000000000002)→ran main,100,1 Goto -> ready main,100,2 ; ran main,100,2 NoOp -> ready main,100,3
Goto(2147483647)→ran main,100,1 Goto -> ready main,100,2147483647 ; no entry -> ended main,100,2147483647
Goto(2147483648)→ran main,100,1 Goto -> ready main,100,2147483648 ; no entry -> ended main,100,2147483648
Goto(out,200,02147483648)→ran main,100,1 Goto -> ready out,200,2147483648 ; no entry -> ended out,200,2147483648
# Arguments of `Goto` that are not a target: the call hangs up at its place.
# No priority.
Goto→ran main,100,1 Goto -> ended main,100,1 ; refused 49 Ended -> ended main,100,1
Goto()→ran main,100,1 Goto -> ended main,100,1 ; refused 49 Ended -> ended main,100,1
Goto(  )→ran main,100,1 Goto -> ended main,100,1 ; refused 49 Ended -> ended main,100,1
Goto(,)→ran main,100,1 Goto -> ended main,100,1 ; refused 49 Ended -> ended main,100,1
Goto(,,)→ran main,100,1 Goto -> ended main,100,1 ; refused 49 Ended -> ended main,100,1
Goto(200,)→ran main,100,1 Goto -> ended main,100,1 ; refused 49 Ended -> ended main,100,1
Goto(out,200, )→ran main,100,1 Goto -> ended main,100,1 ; refused 49 Ended -> ended main,100,1
# More than three parts.
Goto(,,,)→ran main,100,1 Goto -> ended main,100,1 ; refused 49 Ended -> ended main,100,1
Goto(,,,1)→ran main,100,1 Goto -> ended main,100,1 ; refused 49 Ended -> ended main,100,1
Goto(out,100,1,)→ran main,100,1 Goto -> ended main,100,1 ; refused 49 Ended -> ended main,100,1
Goto(out,100,1,x)→ran main,100,1 Goto -> ended main,100,1 ; refused 49 Ended -> ended main,100,1
Goto(main,out,100,1)→ran main,100,1 Goto -> ended main,100,1 ; refused 49 Ended -> ended main,100,1
Goto(a,b,c,d,1)→ran main,100,1 Goto -> ended main,100,1 ; refused 49 Ended -> ended main,100,1
# Numbers that are not priorities of a target.
Goto(0)→ran main,100,1 Goto -> ended main,100,1 ; refused 49 Ended -> ended main,100,1
Goto(200,000)→ran main,100,1 Goto -> ended main,100,1 ; refused 49 Ended -> ended main,100,1
Goto(2147483649)→ran main,100,1 Goto -> ended main,100,1 ; refused 49 Ended -> ended main,100,1
Goto(4294967297)→ran main,100,1 Goto -> ended main,100,1 ; refused 49 Ended -> ended main,100,1
Goto(18446744073709551617)→ran main,100,1 Goto -> ended main,100,1 ; refused 49 Ended -> ended main,100,1
# Labels.
Goto(x)→ran main,100,1 Goto -> ended main,100,1 ; refused 49 Ended -> ended main,100,1
Goto(200,x)→ran main,100,1 Goto -> ended main,100,1 ; refused 49 Ended -> ended main,100,1
Goto(out,100,n)→ran main,100,1 Goto -> ended main,100,1 ; refused 49 Ended -> ended main,100,1
Goto(+1)→ran main,100,1 Goto -> ended main,100,1 ; refused 49 Ended -> ended main,100,1
Goto(200,-1)→ran main,100,1 Goto -> ended main,100,1 ; refused 49 Ended -> ended main,100,1
Goto(1x)→ran main,100,1 Goto -> ended main,100,1 ; refused 49 Ended -> ended main,100,1
Goto(1 1)→ran main,100,1 Goto -> ended main,100,1 ; refused 49 Ended -> ended main,100,1
Goto(1(x,y))→ran main,100,1 Goto -> ended main,100,1 ; refused 49 Ended -> ended main,100,1
# Names of applications, in any case.
NoOp→ran main,100,1 NoOp -> ready main,100,2 ; ran main,100,2 NoOp -> ready main,100,3
noop()→ran main,100,1 noop -> ready main,100,2 ; ran main,100,2 NoOp -> ready main,100,3
NOOP(200,1)→ran main,100,1 NOOP -> ready main,100,2 ; ran main,100,2 NoOp -> ready main,100,3
goto(200,1)→ran main,100,1 goto -> ready main,200,1 ; ran main,200,1 NoOp -> ready main,200,2
GOTO(200,1)→ran main,100,1 GOTO -> ready main,200,1 ; ran main,200,1 NoOp -> ready main,200,2
gOtO (200,1)→ran main,100,1 gOtO -> ready main,200,1 ; ran main,200,1 NoOp -> ready main,200,2
Hangup→ran main,100,1 Hangup -> ended main,100,1 ; refused 49 Ended -> ended main,100,1
hangup()→ran main,100,1 hangup -> ended main,100,1 ; refused 49 Ended -> ended main,100,1
HANGUP(16)→ran main,100,1 HANGUP -> ended main,100,1 ; refused 49 Ended -> ended main,100,1
HangUp(2)→ran main,100,1 HangUp -> ended main,100,1 ; refused 49 Ended -> ended main,100,1
# Devices that are called: the channel waits. Without devices it goes on.
Dial(Line/5,20)→ran main,100,1 Dial -> dialling main,100,1 ; refused 41 NotReady -> dialling main,100,1
dIAL(200)→ran main,100,1 dIAL -> dialling main,100,1 ; refused 41 NotReady -> dialling main,100,1
Dial→ran main,100,1 Dial -> ready main,100,2 ; ran main,100,2 NoOp -> ready main,100,3
Dial()→ran main,100,1 Dial -> ready main,100,2 ; ran main,100,2 NoOp -> ready main,100,3
Dial(,20,g)→ran main,100,1 Dial -> ready main,100,2 ; ran main,100,2 NoOp -> ready main,100,3
# Applications that the table lacks: the call hangs up.
Macro()→ran main,100,1 Macro -> ended main,100,1 ; refused 49 Ended -> ended main,100,1
Dial2(200,1)→ran main,100,1 Dial2 -> ended main,100,1 ; refused 49 Ended -> ended main,100,1
NoOp2()→ran main,100,1 NoOp2 -> ended main,100,1 ; refused 49 Ended -> ended main,100,1
No Op()→ran main,100,1 No Op -> ended main,100,1 ; refused 49 Ended -> ended main,100,1
No→ran main,100,1 No -> ended main,100,1 ; refused 49 Ended -> ended main,100,1
GotoX(200,1)→ran main,100,1 GotoX -> ended main,100,1 ; refused 49 Ended -> ended main,100,1
Go to(200,1)→ran main,100,1 Go to -> ended main,100,1 ; refused 49 Ended -> ended main,100,1
# A name that is not UTF-8 is printed with U+FFFD for each such byte.
\xCE\xCF\xCF\xD0()→ran main,100,1 \xEF\xBF\xBD\xEF\xBF\xBD\xEF\xBF\xBD\xEF\xBF\xBD -> ended main,100,1 ; refused 49 Ended -> ended main,100,1
";

/// The dialplan with an application.
fn plan_with(alloc: Global, application: &[u8]) -> Result<Vec<u8>, NoMemory> {
    let mut text = Vec::from_slice(alloc, b"[main]\nexten => 100,1,")?;
    text.extend_from_slice(application)?;
    text.extend_from_slice(BEHIND)?;
    Ok(text)
}

/// The answers of a call to `100` in `main` to two steps.
struct TwoSteps;

impl AskMachine for TwoSteps {
    fn answer(alloc: Global, machine: &mut StandardMachine, _asked: &str) -> Result<String, Fail> {
        let mut out = String::new(alloc);
        let call = call(alloc, b"main", b"100", b"")?;
        push_called(&mut out, alloc, machine, call)?;
        check_same("the call", &out, "started 1 -> ready main,100,1")?;
        out.clear();
        push_stepped(&mut out, alloc, machine, 1)?;
        out.push_str(" ; ")?;
        push_stepped(&mut out, alloc, machine, 1)?;
        Ok(out)
    }
}

fn check_no_notes(alloc: Global, text: &[u8]) -> Result<(), Fail> {
    match notes_of(alloc, text)? {
        0 => Ok(()),
        count => Err(Fail::new(format_args!("{count} notes"))),
    }
}

/// The answers of a call to an application to two steps, in a dialplan without notes.
struct AppliedSteps;

impl Question for AppliedSteps {
    fn answer(alloc: Global, asked: &str) -> Result<String, Fail> {
        let application = bytes_of(alloc, asked)?;
        let text = plan_with(alloc, &application)?;
        check_no_notes(alloc, &text)?;
        answer_on::<TwoSteps>(alloc, &text, "")
    }
}

/// `Goto` goes to its target and hangs up without one, names are in any case, and an unknown application hangs up.
#[test]
fn goto_jumps_and_unknown_applications_hang_up(rt: HostRuntime) -> Result<(), Fail> {
    check::<AppliedSteps>(rt.alloc(), ROWS)
}
