//! Dialplans with variables, worked out by hand from the rules.
use dp_case_tables::{Question, check, push_bytes};
use dp_machine::{Event, NoMemory};
use dp_machine_fixture::{AskMachine, StandardMachine, answer_on, call, push_value, state_of};
use std::alloc::Global;
use std::test::Fail;

/// A dialplan with the globals that are separated by ` ; `, and with `Goto` of these arguments at `main`, `100`, 1.
fn plan_of(alloc: Global, globals: &str, arguments: &str) -> Result<String, NoMemory> {
    let mut text = String::new(alloc);
    text.push_str("[globals]\n")?;
    for line in globals.split(" ; ") {
        text.push_str(line)?;
        text.push('\n')?;
    }
    write!(text, "[main]\nexten => 100,1,Goto({arguments})\n")?;
    Ok(text)
}

/// The answer of a machine with such a dialplan.
fn answer_with<A: AskMachine>(
    alloc: Global,
    globals: &str,
    arguments: &str,
    asked: &str,
) -> Result<String, Fail> {
    let text = plan_of(alloc, globals, arguments)?;
    answer_on::<A>(alloc, text.as_bytes(), asked)
}

/// A call of `5551234` to `main`, `100`.
fn call_in(alloc: Global, machine: &mut StandardMachine) -> Result<(), NoMemory> {
    machine.apply(alloc, call(alloc, b"main", b"100", b"5551234")?)?;
    Ok(())
}

/// Such a call, then a step of it.
fn call_and_step(alloc: Global, machine: &mut StandardMachine) -> Result<(), NoMemory> {
    call_in(alloc, machine)?;
    machine.apply(alloc, Event::Step { channel: 1 })?;
    Ok(())
}

/// The text before the last ` ; `, and the text after it.
fn cut_last(asked: &str) -> (&str, &str) {
    asked.rsplit_once(" ; ").unwrap_or(("", asked))
}

/// The value of a name in a channel after a call: `CHANNEL NAME`.
struct ValueOf;

impl AskMachine for ValueOf {
    fn answer(alloc: Global, machine: &mut StandardMachine, asked: &str) -> Result<String, Fail> {
        let (channel, name) = asked.split_once(' ').ok_or("no name")?;
        let channel: u32 = channel.parse().ok().ok_or("no number")?;
        call_in(alloc, machine)?;
        let mut out = String::new(alloc);
        push_value(&mut out, alloc, machine, channel, name)?;
        Ok(out)
    }
}

/// The value of a name in a channel, after globals: `NAME=VALUE ; .. ; CHANNEL NAME`.
struct Valued;

impl Question for Valued {
    fn answer(alloc: Global, asked: &str) -> Result<String, Fail> {
        let (globals, wanted) = cut_last(asked);
        answer_with::<ValueOf>(alloc, globals, "", wanted)
    }
}

const VALUES: &str = r"
# Globals are expanded in the order of the file.
N=200 ; M=${N}1 ; 1 M→2001
M=${N}1 ; N=200 ; 1 M→1
M=${M}1 ; 1 M→1
N=${LEN(abc)} ; M=$[${N} * 2] ; 1 M→6
# A name that occurs twice is expanded in turn, and the second value may read the first.
N=1 ; N=${N}2 ; 1 N→12
N=1 ; M=${N} ; N=2 ; 1 M→1
N=1 ; M=${N} ; N=2 ; 1 N→2
N=${N}x ; N=${N}y ; N=${N}z ; 1 N→xyz
# A value is not expanded again.
A=$ ; B=${A}{N} ; N=1 ; 1 B→${N}
A=$ ; B=${A}{N} ; N=1 ; C=${B} ; 1 C→${N}
A=$ ; B=${A}[1 + 1] ; C=${LEN(${B})} ; 1 C→8
# Globals are expanded without a channel.
E=<${EXTEN}${CONTEXT}${PRIORITY}${CHANNEL}${CALLERID(num)}${LOCAL(E)}> ; 1 E→<>
E=${QUEUE_WAITING_COUNT(q)} ; 1 E→0
EXTEN=x ; E=<${EXTEN}> ; 1 E→<>
CONTEXT=x ; E=<${CONTEXT}> ; 1 E→<>
PRIORITY=x ; E=<${PRIORITY}> ; 1 E→<>
CHANNEL=x ; E=<${CHANNEL}> ; 1 E→<>
EXTEN=x ; E=<${GLOBAL(EXTEN)}> ; 1 E→<x>
# What a channel gives hides a global of its name.
EXTEN=x ; 1 EXTEN→100
CONTEXT=x ; 1 CONTEXT→main
PRIORITY=x ; 1 PRIORITY→1
CHANNEL=x ; 1 CHANNEL→Channel/1
# A name is read as it is, and a function is not a name.
LEN(x)=seven ; 1 LEN(x)→seven
LEN(x)=seven ; E=${LEN(x)} ; 1 E→1
LEN(x)=seven ; E=${GLOBAL(LEN(x))} ; 1 E→seven
N=1 ; 1 ${N}→
N=1 ; 1 N:0→
n=1 ; 1 N→
N=1 ; 1  N→
N=1 ; 1 →
=1 ; 1 →
# Neither such a name nor such a channel.
N=1 ; 1 M→
N=1 ; 0 N→
N=1 ; 2 N→
N=1 ; 2 EXTEN→
N=1 ; 4294967295 CHANNEL→
";

/// The extension of a call after its first step, without the `<` and `>` around it.
struct GoneTo;

impl AskMachine for GoneTo {
    fn answer(alloc: Global, machine: &mut StandardMachine, _asked: &str) -> Result<String, Fail> {
        call_and_step(alloc, machine)?;
        let place = machine.place(1).ok_or("no channel")?;
        let bytes = place.exten.bytes();
        let bytes = bytes.strip_prefix(b"<".as_slice()).ok_or("not gone")?;
        let bytes = bytes.strip_suffix(b">".as_slice()).ok_or("cut off")?;
        let mut out = String::new(alloc);
        push_bytes(&mut out, bytes)?;
        Ok(out)
    }
}

/// The extension to which a `Goto` of a text between `<` and `>` goes, without these two.
fn goto_target(alloc: Global, globals: &str, text: &str) -> Result<String, Fail> {
    let arguments = format!(in alloc; "<{text}>,1")?;
    answer_with::<GoneTo>(alloc, globals, &arguments, "")
}

/// The expansion of arguments, after globals: `NAME=VALUE ; .. ; ARGUMENTS`.
struct ExpandedArguments;

impl Question for ExpandedArguments {
    fn answer(alloc: Global, asked: &str) -> Result<String, Fail> {
        let (globals, text) = cut_last(asked);
        goto_target(alloc, globals, text)
    }
}

const ARGUMENTS: &str = r#"
plain {x} [y] $ $$ }→plain {x} [y] $ $$ }
# What the channel gives.
${CONTEXT}-${EXTEN}-${PRIORITY}-${CHANNEL}-${CALLERID(num)}→main-100-1-Channel/1-5551234
EXTEN=x ; ${EXTEN}${GLOBAL(EXTEN)}→100x
EXTEN=x ; ${LOCAL(EXTEN)}→
# Parts of values.
X=abcdef ; ${X:-2}→ef
X=abcdef ; ${X:1:-1}→bcde
X=abcdef ; ${X:-9:2}→ab
X=abcdef ; ${X:2:0}→
X=abcdef ; ${LEN(${X})}→6
${LEN(abcdefghijkl):-1}→2
X=abcdef ; ${X→${X
X=abcdef ; ${X:}→abcdef
X=abcdef ; ${X:1:2:3}→
X=abcdef ; ${X:-0}→abcdef
X=abcdef ; ${X:1:-0}→
X=abcdef ; ${X:-0:-0}→
X=abcdef ; ${X:9999999999999999999999999999999999999999}→
X=abcdef ; ${X:-9999999999999999999999999999999999999999:1}→a
X=abcdef ; ${X:1:9999999999999999999999999999999999999999}→bcdef
X=abcdef ; ${X:1:-9999999999999999999999999999999999999999}→
# Groups.
b=1 ; ${a${b}→${a1
b=1 ; ${a$[b}→${a$[b}
$[${}]→
A=B ; B=v ; ${${A}}→v
A=X:2 ; X=abcdef ; ${${A}}→cdef
# A value is not expanded again.
A=$ ; B=${A}{N} ; N=1 ; ${B}→${N}
A=$ ; B=${A}{N} ; N=1 ; ${LEN(${B})}→4
A=$ ; B=${A}{N} ; N=1 ; $[${B}]→${N}
A=$ ; N=1 ; ${A}{N}→${N}
# No line gives the empty name a value.
${}→
=v ; ${}→
# Names of functions keep their case and their blanks.
${len(x)}→
${ LEN(x)}→
${CALLERID( num)}→
${CALLERID(name)}→
# Functions without a `)`, with something after it, and with a faulty cut.
${F(}→
${LEN(abc:1}→
${LEN(a)b}→1
${LEN(a)b:1}→
${LEN(ab):x}→
${(x)}→
LEN(x)=seven ; ${LEN(x)}→1
# Expressions.
$[9223372036854775807 + 1]→
$[-7 / 2]→-3
$[-7 % 2]→-1
$[1 / 0]→
$[(-9223372036854775807 - 1) / -1]→
$[(-9223372036854775807 - 1) % -1]→0
$["5" = 5]→0
$[-9223372036854775808]→
$["" | x]→""
$[a & 0]→0
$[!0]→1
$[1 2]→
N=3 ; $[${N} + ${LEN(${N})}]→4
"#;

/// The state of a call after its first step.
struct StateAfter;

impl AskMachine for StateAfter {
    fn answer(alloc: Global, machine: &mut StandardMachine, _asked: &str) -> Result<String, Fail> {
        call_and_step(alloc, machine)?;
        Ok(state_of(alloc, machine, 1)?)
    }
}

/// The state of the call after a `Goto` of these arguments: `NAME=VALUE ; .. ; ARGUMENTS`.
struct Went;

impl Question for Went {
    fn answer(alloc: Global, asked: &str) -> Result<String, Fail> {
        let (globals, arguments) = cut_last(asked);
        answer_with::<StateAfter>(alloc, globals, arguments, "")
    }
}

const TARGETS: &str = r"
# Commas and parentheses of a value separate arguments too.
T=200,1 ; ${T}→ready main,200,1
T=out,200,5 ; ${T}→ready out,200,5
T=,1 ; 200${T}→ready main,200,1
T=(a ; ${T},b),1→ready main,(a,b),1
T=a) ; (${T},1→ready main,(a),1
T=a) ; (b${T},c),1→ready (ba),c),1
T=1,2,3,4 ; ${T}→ended main,100,1
T=a , b ; ${T},1→ready a,b,1
# An empty value leaves an empty part.
${NONE},1→ready main,100,1
${NONE}→ended main,100,1
${NONE}200,${NONE}1→ready main,200,1
# Numbers.
T=2 ; 200,$[${T} - 1]→ready main,200,1
T=2 ; ${T}→ready main,100,2
T=2 ; 200,$[${T} - 2]→ended main,100,1
${EXTEN:1},${PRIORITY}→ready main,00,1
${CHANNEL},1→ready main,Channel/1,1
";

fn repeat_piece(alloc: Global, openings: usize, ends: usize) -> Result<String, NoMemory> {
    let mut text = String::new(alloc);
    for _ in 0..openings {
        text.push_str("${")?;
    }
    for _ in 0..ends {
        text.push('}')?;
    }
    Ok(text)
}

/// The sizes of this number of openings and ends as arguments, and as a global: `OPENINGS ENDS`.
struct NestedSizes;

impl Question for NestedSizes {
    fn answer(alloc: Global, asked: &str) -> Result<String, Fail> {
        let (openings, ends) = asked.split_once(' ').ok_or("no question")?;
        let openings: usize = openings.parse().ok().ok_or("no number")?;
        let ends: usize = ends.parse().ok().ok_or("no number")?;
        let text = repeat_piece(alloc, openings, ends)?;
        sizes_of(alloc, &text)
    }
}

/// The size of a text that is a global.
fn global_size(alloc: Global, text: &str) -> Result<String, Fail> {
    let globals = format!(in alloc; "G={text}")?;
    goto_target(alloc, &globals, "${LEN(${G})}")
}

fn sizes(alloc: Global, arguments: &str, global: &str) -> Result<String, Fail> {
    let out = format!(in alloc; "{} {global}", arguments.len())?;
    Ok(out)
}

fn sizes_of(alloc: Global, text: &str) -> Result<String, Fail> {
    let arguments = goto_target(alloc, "", text)?;
    let global = global_size(alloc, text)?;
    sizes(alloc, &arguments, &global)
}

const NESTING: &str = r"
32 32→0 0
33 0→66 66
33 32→2 2
32 33→1 1
";

fn check_variables(alloc: Global) -> Result<(), Fail> {
    check::<Valued>(alloc, VALUES)?;
    check::<ExpandedArguments>(alloc, ARGUMENTS)?;
    check::<Went>(alloc, TARGETS)?;
    check::<NestedSizes>(alloc, NESTING)
}

/// The values of names, the expansion of arguments, the place of a `Goto` with them, and the limit of nesting.
#[test]
fn variables_are_expanded(rt: HostRuntime) -> Result<(), Fail> {
    check_variables(rt.alloc())
}
