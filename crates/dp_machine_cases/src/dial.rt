//! The effect of `Dial` with its arguments, worked out by hand from the rules.
use dp_case_tables::{Question, bytes_of, check};
use dp_machine::{Event, NoMemory, Phase};
use dp_machine_fixture::{AskMachine, StandardMachine, answer_on, call, push_state, push_value};
use std::alloc::Global;
use std::test::Fail;

/// Arguments of `Dial` in a channel whose `DIALSTATUS` is `before`: how the channel then waits or where it is, and its `DIALSTATUS`; and
/// after the `;` the same for a channel that runs its extension `h`.
const ROWS: &str = r"
# No devices: nothing is called, and the channel goes on, in `h` too.
→ready main,100,3, CHANUNAVAIL ; ready main,h,2, CHANUNAVAIL
 →ready main,100,3, CHANUNAVAIL ; ready main,h,2, CHANUNAVAIL
\t→ready main,100,3, CHANUNAVAIL ; ready main,h,2, CHANUNAVAIL
,20→ready main,100,3, CHANUNAVAIL ; ready main,h,2, CHANUNAVAIL
 , 20 , g→ready main,100,3, CHANUNAVAIL ; ready main,h,2, CHANUNAVAIL
,,,http://x→ready main,100,3, CHANUNAVAIL ; ready main,h,2, CHANUNAVAIL
${NONE}→ready main,100,3, CHANUNAVAIL ; ready main,h,2, CHANUNAVAIL
# Devices, which nothing looks into: the channel waits, and in `h` it is hung up. No variable is set.
Line/5→dialling, before ; ended main,h,1, before
 Line/5 →dialling, before ; ended main,h,1, before
Line/5&Line/6→dialling, before ; ended main,h,1, before
&→dialling, before ; ended main,h,1, before
(→dialling, before ; ended main,h,1, before
${EXTEN}→dialling, before ; ended main,h,1, before
# A time that is not empty sets a timer.
Line/5,20→dialling timer, before ; ended main,h,1, before
Line/5,0→dialling timer, before ; ended main,h,1, before
Line/5,x→dialling timer, before ; ended main,h,1, before
Line/5,-1→dialling timer, before ; ended main,h,1, before
(Line/5,20)→dialling, before ; ended main,h,1, before
Line/5,→dialling, before ; ended main,h,1, before
Line/5, →dialling, before ; ended main,h,1, before
Line/5,${NONE}→dialling, before ; ended main,h,1, before
# The option `g` outside parentheses lets it go on.
Line/5,,g→dialling goes_on, before ; ended main,h,1, before
Line/5,,tg→dialling goes_on, before ; ended main,h,1, before
Line/5,,gt→dialling goes_on, before ; ended main,h,1, before
Line/5,,U(a,b)g→dialling goes_on, before ; ended main,h,1, before
Line/5,,)g→dialling goes_on, before ; ended main,h,1, before
Line/5,20,g→dialling goes_on timer, before ; ended main,h,1, before
Line/5,20,U(g)g→dialling goes_on timer, before ; ended main,h,1, before
Line/5,,U(g)→dialling, before ; ended main,h,1, before
Line/5,,U(a,g)→dialling, before ; ended main,h,1, before
Line/5,,(g→dialling, before ; ended main,h,1, before
Line/5,,(g,)→dialling, before ; ended main,h,1, before
Line/5,,G→dialling, before ; ended main,h,1, before
Line/5,,t→dialling, before ; ended main,h,1, before
Line/5,,→dialling, before ; ended main,h,1, before
# It is an option only in the third part, and what comes after that has no effect.
Line/5,g→dialling timer, before ; ended main,h,1, before
g→dialling, before ; ended main,h,1, before
Line/5,,,g→dialling, before ; ended main,h,1, before
Line/5,,t,http://g,g→dialling, before ; ended main,h,1, before
Line/5,20,g,http://x,y→dialling goes_on timer, before ; ended main,h,1, before
";

/// The dialplan with `Dial` of these arguments at `100` and at `h`.
fn plan_of(alloc: Global, arguments: &[u8]) -> Result<Vec<u8>, NoMemory> {
    let mut text = Vec::from_slice(
        alloc,
        b"[main]\nexten => 100,1,Set(DIALSTATUS=before)\nexten => 100,2,Dial(",
    )?;
    text.extend_from_slice(arguments)?;
    text.extend_from_slice(b")\nexten => h,1,Dial(")?;
    text.extend_from_slice(arguments)?;
    text.extend_from_slice(b")\n")?;
    Ok(text)
}

/// How a channel waits for its call to devices, or its state if it does not.
fn push_wait(out: &mut String, machine: &StandardMachine, channel: u32) -> Result<(), NoMemory> {
    match machine.phase(channel) {
        Some(Phase::Dialling { goes_on, has_timer }) => {
            out.push_str("dialling")?;
            out.push_str(if *goes_on { " goes_on" } else { "" })?;
            out.push_str(if *has_timer { " timer" } else { "" })
        }
        _ => push_state(out, machine, channel),
    }
}

/// Takes a step of a channel, and adds how it then waits, and the status that it reads.
fn push_dialled(
    out: &mut String,
    alloc: Global,
    machine: &mut StandardMachine,
    channel: u32,
) -> Result<(), NoMemory> {
    machine.apply(alloc, Event::Step { channel })?;
    push_wait(out, machine, channel)?;
    out.push_str(", ")?;
    push_value(out, alloc, machine, channel, "DIALSTATUS")
}

/// A call that comes in and takes its first step.
fn begin(alloc: Global, machine: &mut StandardMachine, channel: u32) -> Result<(), NoMemory> {
    machine.apply(alloc, call(alloc, b"main", b"100", b"")?)?;
    machine.apply(alloc, Event::Step { channel })?;
    Ok(())
}

/// The states of two calls, of which the second is hung up first.
struct TwoCalls;

impl AskMachine for TwoCalls {
    fn answer(alloc: Global, machine: &mut StandardMachine, _asked: &str) -> Result<String, Fail> {
        let mut out = String::new(alloc);
        begin(alloc, machine, 1)?;
        begin(alloc, machine, 2)?;
        machine.apply(alloc, Event::Hangup { channel: 2 })?;
        push_dialled(&mut out, alloc, machine, 1)?;
        out.push_str(" ; ")?;
        push_dialled(&mut out, alloc, machine, 2)?;
        Ok(out)
    }
}

/// The effect of `Dial` with these arguments on two calls.
struct Dialled;

impl Question for Dialled {
    fn answer(alloc: Global, asked: &str) -> Result<String, Fail> {
        let arguments = bytes_of(alloc, asked)?;
        let text = plan_of(alloc, &arguments)?;
        answer_on::<TwoCalls>(alloc, &text, "")
    }
}

/// `Dial` waits, goes on or hangs up, and sets its status only if it has no devices.
#[test]
fn dial_waits_goes_on_or_hangs_up(rt: HostRuntime) -> Result<(), Fail> {
    check::<Dialled>(rt.alloc(), ROWS)
}
