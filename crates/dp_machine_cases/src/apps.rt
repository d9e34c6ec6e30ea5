//! Where applications send a channel by their arguments, worked out by hand from their pages in the Asterisk documentation's
//! application reference.
use dp_app::{AppTable, Cell, Exten, Move, Place, Target, TargetParts};
use dp_case_tables::{Question, bytes_of, check, push_bytes, text_of};
use dp_conf::{NoMemory, Text, cut_once};
use dp_queue::Queues;
use dp_table::StandardApps;
use dp_vars::{Globals, Store};
use std::alloc::Global;
use std::test::Fail;

/// The names of applications with their arguments after a bar. The parts of a target are between bars.
const GOING: &str = r"
# Those that go on and those that end the call.
NoOp|→next
NoOp|a,b→next
noop|a→next
Answer|→next
Verbose|1,text→next
Playback|tt-monkeys→next
Hangup|→hang
HANGUP|16→hang
# Those that jump.
Goto|1→jump |1|
Goto|→jump ||
Goto| 2 →jump |2|
goto|again→jump |again|
Goto|sixteen_letters_→jump |sixteen_letters_|
Goto|seventeen_letters→jump |seventeen_letters|
Goto|200,1→jump |200|1|
Goto|main, s ,end→jump |main|s|end|
Goto|a,b,c,d→jump by more than three parts
Goto|,,→jump ||||
Goto|,,,→jump by more than three parts
Goto|,,,,,,,,→jump by more than three parts
Goto|a,b,(c,d,e)→jump |a|b|(c,d,e)|
Goto|a(b,c),1→jump |a(b,c)|1|
GotoIf|1?2:3→jump |2|
GotoIf|0?2:3→jump |3|
GotoIf|?main,s,1:main,s,2→jump |main|s|2|
GotoIf|0?2→next
GotoIf|1→next
# Those that see the cell.
Set|A=1→next
Gosub|s,1→jump to an entry
GosubIf|1?s,1→jump to an entry
Return|→hang
StackPop|→next
Wait|1→park
WaitExten|→park
Background|a→park
Queue|q→next
AddQueueMember|q→next
Dial|SIP/1→park
Dial|→next
# Names that the table lacks.
Macro|m→no such application
|→no such application
";

/// The parts of a target between bars, if there are at most three.
fn push_parts(out: &mut String, parts: &TargetParts) -> Result<(), NoMemory> {
    let Some((front, last)) = parts.apart() else {
        return out.push_str("by more than three parts");
    };
    out.push('|')?;
    for part in front {
        push_bytes(out, part.bytes())?;
        out.push('|')?;
    }
    push_bytes(out, last)?;
    out.push('|')?;
    Ok(())
}

/// A jump, by its target.
fn push_jump(out: &mut String, target: &Target) -> Result<(), NoMemory> {
    out.push_str("jump ")?;
    match target {
        Target::Parts(parts) => push_parts(out, parts)?,
        Target::To(_) => out.push_str("to a place")?,
        Target::Existing(_) => out.push_str("to an entry")?,
    }
    Ok(())
}

/// Where a channel goes.
fn push_move(out: &mut String, going: &Move) -> Result<(), NoMemory> {
    match going {
        Move::Next => out.push_str("next")?,
        Move::Jump(target) => push_jump(out, target)?,
        Move::Enter(parts) => {
            out.push_str("enter ")?;
            push_parts(out, parts)?;
        }
        Move::Park(_) => out.push_str("park")?,
        Move::Hang => out.push_str("hang")?,
    }
    Ok(())
}

/// Where an application sends a channel that has nothing set, if nothing is shared.
fn going_of(alloc: Global, name: &[u8], arguments: &[u8]) -> Result<Option<Move>, NoMemory> {
    let place = Place {
        context: Text::copy_of(alloc, b"main")?,
        exten: Exten::of_byte(b's'),
        priority: 1,
    };
    let mut caller = Text::new(Vec::new(alloc));
    let mut store = Store::new(alloc);
    let mut globals = Globals::new(alloc);
    let mut queues = Queues::none(alloc);
    let mut cell = Cell {
        number: 1,
        place: &place,
        is_closing: false,
        caller: &mut caller,
        store: &mut store,
        globals: &mut globals,
        queues: &mut queues,
    };
    StandardApps::dispatch(alloc, name, arguments, &mut cell)
}

/// Where a channel goes by the name of an application and its arguments.
struct Going;

impl Question for Going {
    fn answer(alloc: Global, asked: &str) -> Result<String, Fail> {
        let text = bytes_of(alloc, asked)?;
        let Some((name, arguments)) = cut_once(&text, b'|') else {
            return text_of(alloc, "no bar");
        };
        let Some(going) = going_of(alloc, name, arguments)? else {
            return text_of(alloc, "no such application");
        };
        let mut out = String::new(alloc);
        push_move(&mut out, &going)?;
        Ok(out)
    }
}

#[test]
fn applications_move_a_channel_by_their_arguments(rt: HostRuntime) -> Result<(), Fail> {
    check::<Going>(rt.alloc(), GOING)
}
