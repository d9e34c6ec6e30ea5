//! Scripts with their lines or their fault, worked out by hand from the rules.
use dp_case_tables::{Question, bytes_of, check, push_bytes};
use dp_commands::{PbxFault, ScriptLine, Turn, read_script};
use dp_commands_fixture::push_fault;
use dp_conf::NoMemory;
use dp_machine::Event;
use std::alloc::Global;
use std::test::Fail;

/// Lines as `start{CONTEXT}{EXTEN}{CALLER}`, `step{CH}{COUNT}`, `show{CH}{NAME}` and the like, one after another.
const LINES: &str = r"
# Nothing to read.
→
\n\n→
 \t\r\x00\n→
;→
; step 1\n\t;step 1\r\n;; script\n;-- x\n→
# Calls.
start main s→start{main}{s}{}
start main s\n→start{main}{s}{}
start main s 55→start{main}{s}{55}
 start\tmain  s\r\n→start{main}{s}{}
start start step start→start{start}{step}{start}
start ; ;x ;→start{;}{;x}{;}
start Main 2-00 +1→start{Main}{2-00}{+1}
start m\xC3\xBC s→start{m\xC3\xBC}{s}{}
# Steps.
step 1→step{1}{1}
step 0→step{0}{1}
step 1 0→step{1}{0}
step 1 3\n→step{1}{3}
step 1 100000→step{1}{100000}
step 4294967295 1→step{4294967295}{1}
step 01 007→step{1}{7}
step 00000000004294967295 0000100000→step{4294967295}{100000}
\tstep\x0B2\x0C3\x1F\r→step{2}{3}
# Other events.
digit 1 5→digit{1}{5}
digit 4294967295 *→digit{4294967295}{*}
digit 01 x→digit{1}{x}
digit 1 ;→digit{1}{;}
timeout 1→timeout{1}
poll 2→poll{2}
hangup 003→hangup{3}
result 1 ANSWER→result{1}{ANSWER}
result 02 BUSY→result{2}{BUSY}
\tresult 4294967295  NOANSWER\r→result{4294967295}{NOANSWER}
result 0 CONGESTION→result{0}{CONGESTION}
result 1 CHANUNAVAIL→result{1}{CHANUNAVAIL}
offer q→offer{q}
answer Line/1→answer{Line/1}
decline ;→decline{;}
done done→done{done}
# Values.
show 1 M→show{1}{M}
show 0 LEN(x)→show{0}{LEN(x)}
 show\t07  ;\r\n→show{7}{;}
show 4294967295 show→show{4294967295}{show}
# Several lines.
show 1 A\nstep 1\nshow 2 A→show{1}{A}step{1}{1}show{2}{A}
start a b\n\n; x\nstep 1 2\nstart a c d\nstep 2→start{a}{b}{}step{1}{2}start{a}{c}{d}step{2}{1}
step 1\nstep 1\nstep 1\n→step{1}{1}step{1}{1}step{1}{1}
";

/// Scripts with a faulty line, and its number.
const FAULTY: &str = r"
# Words that no line begins with.
jump 1→fault 70 BadScript line 1
dial 1 5→fault 70 BadScript line 1
Start a b→fault 70 BadScript line 1
STEP 1→fault 70 BadScript line 1
steps 1→fault 70 BadScript line 1
ste 1→fault 70 BadScript line 1
step\xA01→fault 70 BadScript line 1
\xEF\xBB\xBFstep 1→fault 70 BadScript line 1
[main]→fault 70 BadScript line 1
x ; y→fault 70 BadScript line 1
# Too few words, and too many.
start→fault 70 BadScript line 1
start a→fault 70 BadScript line 1
start a b c d→fault 70 BadScript line 1
start a b c ; d→fault 70 BadScript line 1
step→fault 70 BadScript line 1
step 1 1 1→fault 70 BadScript line 1
step 1 1 ; x→fault 70 BadScript line 1
# No channel.
step x→fault 70 BadScript line 1
step +1→fault 70 BadScript line 1
step -1→fault 70 BadScript line 1
step 1x→fault 70 BadScript line 1
step 0x1→fault 70 BadScript line 1
step 1,2→fault 70 BadScript line 1
step 4294967296→fault 70 BadScript line 1
step 18446744073709551617→fault 70 BadScript line 1
step 99999999999999999999999999999999→fault 70 BadScript line 1
# No count.
step 1 x→fault 70 BadScript line 1
step 1 +1→fault 70 BadScript line 1
step 1 -0→fault 70 BadScript line 1
step 1 ;→fault 70 BadScript line 1
step 1 100001→fault 70 BadScript line 1
step 1 4294967297→fault 70 BadScript line 1
step 1 18446744073709551617→fault 70 BadScript line 1
# No channel, no name, and too many words.
show→fault 70 BadScript line 1
show 1→fault 70 BadScript line 1
show M→fault 70 BadScript line 1
show M 1→fault 70 BadScript line 1
show +1 M→fault 70 BadScript line 1
show 4294967296 M→fault 70 BadScript line 1
show 1 M 2→fault 70 BadScript line 1
show 1 M ;→fault 70 BadScript line 1
Show 1 M→fault 70 BadScript line 1
# Not a result of a call to devices: only five words are, in capitals.
result→fault 70 BadScript line 1
result 1→fault 70 BadScript line 1
result BUSY→fault 70 BadScript line 1
result BUSY 1→fault 70 BadScript line 1
result 1 CANCEL→fault 70 BadScript line 1
result 1 busy→fault 70 BadScript line 1
result 1 Busy→fault 70 BadScript line 1
result 1 ANSWERS→fault 70 BadScript line 1
result 1 ANSWE→fault 70 BadScript line 1
result 1 NO ANSWER→fault 70 BadScript line 1
result 1 NOTDIALLING→fault 70 BadScript line 1
result 1 BUSY 1→fault 70 BadScript line 1
result 1 BUSY ;→fault 70 BadScript line 1
result +1 BUSY→fault 70 BadScript line 1
result 4294967296 BUSY→fault 70 BadScript line 1
Result 1 BUSY→fault 70 BadScript line 1
# No second dialplan.
reload→fault 70 BadScript line 1
reload x→fault 70 BadScript line 1
step 1\nreload\njump→fault 70 BadScript line 2
# The first faulty line.
\njump→fault 70 BadScript line 2
step 1\n\n;x\n\r\nstart a\n→fault 70 BadScript line 5
step 1\nstep 1 100001\nstep 1\njump\n→fault 70 BadScript line 2
start a b\njump→fault 70 BadScript line 2
start a\nb\n→fault 70 BadScript line 1
";

/// Scripts with a second dialplan. A case is the text of that and the script, separated by `¦`.
const BESIDE_SECOND: &str = r"
# Each line has its text, whatever that is.
[main]\nexten => s,1,NoOp()\n¦reload→reload{[main]\nexten => s,1,NoOp()\n}
[main¦reload→reload{[main}
¦reload→reload{}
\xC3\xBC¦ reload\t\r\n; x\nstep 1\nreload\n→reload{\xC3\xBC}step{1}{1}reload{\xC3\xBC}
[main¦step 1→step{1}{1}
# No further word.
[main]¦reload x→fault 70 BadScript line 1
[main]¦reload ;→fault 70 BadScript line 1
[main]¦reload\nreload 1→fault 70 BadScript line 2
[main]¦Reload→fault 70 BadScript line 1
[main]¦reloads→fault 70 BadScript line 1
";

fn push_event(out: &mut String, event: &Event) -> Result<(), NoMemory> {
    match event {
        Event::Start {
            context,
            exten,
            caller,
        } => write!(out, "start{{{context}}}{{{exten}}}{{{caller}}}"),
        Event::Step { .. } => out.push_str("a step with no count"),
        Event::Digit { channel, digit } => {
            write!(out, "digit{{{channel}}}{{{}}}", char::from(*digit))
        }
        Event::Timeout { channel } => write!(out, "timeout{{{channel}}}"),
        Event::Poll { channel } => write!(out, "poll{{{channel}}}"),
        Event::Hangup { channel } => write!(out, "hangup{{{channel}}}"),
        Event::DialResult { channel, status } => {
            write!(out, "result{{{channel}}}{{")?;
            push_bytes(out, status.name())?;
            out.push('}')
        }
        Event::Offer { queue } => write!(out, "offer{{{queue}}}"),
        Event::Answer { agent } => write!(out, "answer{{{agent}}}"),
        Event::Decline { agent } => write!(out, "decline{{{agent}}}"),
        Event::AgentDone { agent } => write!(out, "done{{{agent}}}"),
        Event::Reload { text } => write!(out, "reload{{{text}}}"),
        Event::Assign { .. } | Event::Redirect { .. } => {
            out.push_str("an event that no line gives")
        }
    }
}

fn push_line(out: &mut String, line: &ScriptLine) -> Result<(), NoMemory> {
    match (&line.turn, line.count) {
        (Turn::Event(Event::Step { channel }), count) => {
            write!(out, "step{{{channel}}}{{{count}}}")
        }
        (Turn::Event(event), 1) => push_event(out, event),
        (Turn::Show { channel, name }, 1) => write!(out, "show{{{channel}}}{{{name}}}"),
        _ => out.push_str("a turn that is taken more than once"),
    }
}

fn show_script(
    alloc: Global,
    read: &Result<Vec<ScriptLine>, PbxFault>,
) -> Result<String, NoMemory> {
    let mut out = String::new(alloc);
    match read {
        Ok(lines) => {
            for line in lines.iter() {
                push_line(&mut out, line)?;
            }
        }
        Err(fault) => push_fault(&mut out, *fault)?,
    }
    Ok(out)
}

/// The lines of a script, or its fault.
struct Scripts;

impl Question for Scripts {
    fn answer(alloc: Global, asked: &str) -> Result<String, Fail> {
        let text = bytes_of(alloc, asked)?;
        let out = show_script(alloc, &read_script(alloc, None, &text))?;
        Ok(out)
    }
}

/// The lines of a script with a second dialplan, or its fault.
struct BesideSecond;

impl Question for BesideSecond {
    fn answer(alloc: Global, asked: &str) -> Result<String, Fail> {
        let (second_plan, script) = asked.split_once('¦').ok_or("no script")?;
        let second_plan = bytes_of(alloc, second_plan)?;
        let script = bytes_of(alloc, script)?;
        let out = show_script(alloc, &read_script(alloc, Some(&second_plan), &script))?;
        Ok(out)
    }
}

#[test]
fn scripts_are_read(rt: HostRuntime) -> Result<(), Fail> {
    check::<Scripts>(rt.alloc(), LINES)?;
    check::<Scripts>(rt.alloc(), FAULTY)?;
    check::<BesideSecond>(rt.alloc(), BESIDE_SECOND)
}
