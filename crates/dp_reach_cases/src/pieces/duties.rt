//! What applications owe because of the pieces of their arguments, and what a reach has, worked out by hand from the rules.
use crate::pieces::notation::{pieces_of, push_pieces};
use dp_case_tables::{Question, text_of};
use dp_closed::{KeptArea, KeptClaim, KeptDuty, ReachShapes, duties, found_shape};
use dp_conf::read_number;
use dp_pieces::{ByteSet, NameTable, Piece};
use dp_plan::Dialplan;
use std::alloc::Global;
use std::test::Fail;

/// An application, then the pieces of its arguments after a bar. The channel is in `from`, at an extension of digits.
pub(super) struct Duties;

impl Question for Duties {
    fn answer(alloc: Global, asked: &str) -> Result<String, Fail> {
        let (application, notation) = asked.split_once('|').ok_or("no arguments")?;
        let arguments = pieces_of(alloc, notation)?;
        let owed = duties(alloc, application.as_bytes(), &area_of(alloc)?, &arguments)?;
        duties_line(alloc, &owed)
    }
}

/// The area in `from`, at an extension of digits.
pub(super) fn area_of(alloc: Global) -> Result<KeptArea, Fail> {
    Ok(KeptArea {
        context: pieces_of(alloc, "from")?,
        exten: pieces_of(alloc, "{0-9}*")?,
    })
}

/// Duties as a line.
pub(super) fn duties_line(alloc: Global, owed: &[KeptDuty]) -> Result<String, Fail> {
    let mut out = String::new(alloc);
    for duty in owed {
        if !out.is_empty() {
            out.push_str(" ; ")?;
        }
        push_duty(&mut out, duty)?;
    }
    Ok(out)
}

fn push_set(out: &mut String, of: &str, set: &ByteSet) -> Result<(), Fail> {
    write!(out, "{of} ")?;
    push_pieces(out, &[Piece::OneOf(*set)])?;
    Ok(())
}

fn push_duty(out: &mut String, duty: &KeptDuty) -> Result<(), Fail> {
    match duty {
        KeptDuty::Leads(area) => {
            out.push_str("to ")?;
            push_pieces(out, &area.context)?;
            out.push(',')?;
            push_pieces(out, &area.exten)?;
        }
        KeptDuty::Holds(name, set) => {
            for byte in name {
                out.push(char::from(*byte))?;
            }
            push_set(out, "", set)?;
        }
        KeptDuty::HoldsAll(set) => push_set(out, "each", set)?,
        KeptDuty::Calls(set) => push_set(out, "caller", set)?,
        KeptDuty::Waits => out.push_str("waits")?,
        KeptDuty::Anything => out.push_str("anything")?,
    }
    Ok(())
}

/// Where each leads, and which names may have which bytes.
pub(super) const DUTIES: &str = r"
NoOp|x→
Nothing|x→
Hangup|→
# A target: its parts, of which an empty one is the channel's own.
Goto|5→to from,{0123456789}*
goto|s,1→to from,s
Goto|out,s,1→to out,s
Goto|,s,1→to from,s
Goto| out , s ,1→to out,s
Goto|out,,1→to out,{0123456789}*
Goto|a,b,c,d→
Goto|out,1{0-9}*,1→to out,1{0123456789}*
Goto|out,{ab}*,1→to out,{ab}* ; to out,{0123456789}*
Goto|{ab}*,s,1→to {ab}*,s ; to from,s
Goto|x{,}→to {,x}*,{,x}* ; to {,x}*,{0123456789}* ; to from,{,x}* ; to from,{0123456789}*
# The sides of a choice.
GotoIf|a?2:s,3→to from,{0123456789}* ; to from,s
GotoIf|a?out,s,3→to out,s
GotoIf|a→
GotoIf|{?}a→to {?a}*,{?a}* ; to {?a}*,{0123456789}* ; to from,{?a}* ; to from,{0123456789}*
# A subroutine: its target and its arguments.
Gosub|sub,s,1→to sub,s
Gosub|sub,s,1(a,{0-9}*)→to sub,s ; ARG1 {a} ; ARG2 {0123456789}
Gosub|sub,s,1({,})→to sub,s ; each {(),1bsu}
GosubIf|x?sub,1(a)→to from,sub ; ARG1 {a}
Return|ab→GOSUB_RETVAL {ab}
StackPop|→
# A name and its value.
Set|X=ab→X {ab}
Set|X=→X {}
Set| X =a→X {a}
Set|X={0-9}*→X {0123456789}
Set|X=a{=}→X {=a}
Set|GLOBAL(X)=a→X {a}
Set|LOCAL(X)=a→X {a}
Set|CALLERID(num)=1→caller {1}
Set|CALLERID(name)=1→
Set|DB(x)=1→
Set|DB(x/{0-9}*)=1→
Set|GLOBAL({ab})=1→each {()1=ABGLOab}
Set|CALLERID({ab})=1→caller {()1=ACDEILRab}
Set|{ab}=1→each {1=ab} ; caller {1=ab}
# Digits, and what is reported.
WaitExten|→to from,{#*0123456789ABCD}* ; to from,t
Background|x→to from,{#*0123456789ABCD}* ; to from,t
Dial|x→DIALSTATUS {ACHILNUV}
Queue|x→waits ; QUEUESTATUS {KNOUW} ; QUEUESTATUS {EIJMNOPTY} ; QUEUESTATUS {FLU}
AddQueueMember|x→AQMSTATUS {CEHNOQSU} ; AQMSTATUS {ABDELMRY} ; AQMSTATUS {ADE}
RemoveQueueMember|x→RQMSTATUS {CEHNOQSU} ; RQMSTATUS {EINOQTU} ; RQMSTATUS {ACDIMNOTY} ; RQMSTATUS {DEMORV}
PauseQueueMember|x→PQMSTATUS {ADEPSU} ; PQMSTATUS {DFNOTU}
UnpauseQueueMember|x→UPQMSTATUS {ADENPSU} ; UPQMSTATUS {DFNOTU}
";

/// Two contexts.
const PLAN: &[u8] = b"[a]\nexten => s,1,NoOp()\n[b]\nexten => s,1,NoOp()\n";

/// The reach with digits and `s` in `a`, and `s` in `b`.
fn reach_of(alloc: Global) -> Result<ReachShapes, Fail> {
    let mut a = Vec::new(alloc);
    a.push(pieces_of(alloc, "{0-9}*")?)?;
    a.push(pieces_of(alloc, "s")?)?;
    let mut b = Vec::new(alloc);
    b.push(pieces_of(alloc, "s")?)?;
    let mut shapes = Vec::new(alloc);
    shapes.push(a)?;
    shapes.push(b)?;
    Ok(ReachShapes { shapes })
}

/// Whether that reach has the places of a context's shape and, after a bar, an extension's.
pub(super) struct Reached;

impl Question for Reached {
    fn answer(alloc: Global, asked: &str) -> Result<String, Fail> {
        let (context, exten) = asked.split_once('|').ok_or("no extension")?;
        let Ok((plan, _)) = Dialplan::load(alloc, PLAN) else {
            return Ok(text_of(alloc, "no dialplan")?);
        };
        let reach = reach_of(alloc)?;
        let is = reach.includes(
            alloc,
            &plan,
            &pieces_of(alloc, context)?,
            &pieces_of(alloc, exten)?,
        )?;
        Ok(text_of(alloc, if is { "yes" } else { "no" })?)
    }
}

/// A context that the dialplan lacks is in each reach.
pub(super) const REACHED: &str = r"
a|s→yes
a|12→yes
a|x→no
a|{0-9}{0-9}*→yes
b|s→yes
b|12→no
c|x→yes
{ab}*|s→yes
{ab}*|12→no
{a}*|{0-9}→yes
{xy}*|z→yes
{abx}|12→no
";

/// Whether a claim with that reach meets a duty: what an application owes in `a`, at an extension of digits, or, after `way`, that a digit
/// leads out of a queue of this context.
pub(super) struct Claimed;

/// The set of the bytes of a text.
fn set_of(text: &[u8]) -> ByteSet {
    let mut set = ByteSet::none();
    for byte in text {
        set.put(*byte);
    }
    set
}

/// The table in which `X` has `a` and `b`, each name has what a subroutine call has, and the caller's number has `1` and `2`.
fn table_of(alloc: Global) -> Result<NameTable, Fail> {
    let mut names = NameTable::new(alloc);
    names.hold(alloc, b"X", &set_of(b"ab"))?;
    names.hold_everywhere(&set_of(b"zbs,1()"));
    names.hold_caller(&set_of(b"12"));
    Ok(names)
}

fn owed_in_a(alloc: Global, application: &str, arguments: &[Piece]) -> Result<Vec<KeptDuty>, Fail> {
    let area = KeptArea {
        context: pieces_of(alloc, "a")?,
        exten: pieces_of(alloc, "{0-9}*")?,
    };
    Ok(duties(alloc, application.as_bytes(), &area, arguments)?)
}

fn is_met(alloc: Global, claim: KeptClaim<'_>, asked: &str) -> Result<bool, Fail> {
    let (application, notation) = asked.split_once('|').ok_or("no arguments")?;
    if application == "way" {
        return Ok(claim.meets(alloc, &KeptDuty::Waits)?);
    }
    let owed = owed_in_a(alloc, application, &pieces_of(alloc, notation)?)?;
    Ok(claim.meets_all(alloc, &owed)?)
}

/// The contexts of the ways out in question.
fn ways_of(alloc: Global, asked: &str) -> Result<Vec<Vec<Piece>>, Fail> {
    let mut ways = Vec::new(alloc);
    if let Some(("way", name)) = asked.split_once('|') {
        ways.push(pieces_of(alloc, name)?)?;
    }
    Ok(ways)
}

impl Question for Claimed {
    fn answer(alloc: Global, asked: &str) -> Result<String, Fail> {
        let Ok((plan, _)) = Dialplan::load(alloc, PLAN) else {
            return Ok(text_of(alloc, "no dialplan")?);
        };
        let names = table_of(alloc)?;
        let reach = reach_of(alloc)?;
        let ways = ways_of(alloc, asked)?;
        let claim = KeptClaim {
            plan: &plan,
            names: &names,
            reach: &reach,
            ways: &ways,
        };
        let is = is_met(alloc, claim, asked)?;
        Ok(text_of(alloc, if is { "yes" } else { "no" })?)
    }
}

/// Duties that are met, and duties that are not.
pub(super) const CLAIMED: &str = r"
NoOp|x→yes
Goto|s,1→yes
Goto|5→yes
Goto|b,s,1→yes
Goto|b,1,1→no
Goto|c,1,1→yes
Goto|{ab}*,s,1→yes
Set|X=ab→yes
Set|X=az→yes
Set|X=c→no
Set|Y=z→yes
Set|Y=a→no
Set|CALLERID(num)=1→yes
Set|CALLERID(num)=3→no
Gosub|b,s,1({,})→yes
Gosub|b,s,1({,x})→no
WaitExten|→no
way|c→yes
way|a→no
";

/// A context in which some names are better than others.
const NAMES: &[u8] =
    b"[c]\nexten => 100,1,NoOp()\nexten => _1X.,1,NoOp()\nexten => _X.,1,NoOp()\nexten => _X.,2,NoOp()\nexten => s,1,NoOp()\n";

/// What is known of the extensions of a shape, after a bar, at which the entry with a number is found there.
pub(super) struct FoundShapes;

fn answer_found(
    alloc: Global,
    plan: &Dialplan,
    number: usize,
    exten: &[Piece],
) -> Result<String, Fail> {
    let context = plan.contexts().first().ok_or("no context")?;
    let entry = context.entries().get(number).ok_or("no entry")?;
    let mut out = String::new(alloc);
    match found_shape(alloc, context.entries(), entry, exten)? {
        Some(met) => push_pieces(&mut out, &met)?,
        None => out.push_str("none")?,
    }
    Ok(out)
}

impl Question for FoundShapes {
    fn answer(alloc: Global, asked: &str) -> Result<String, Fail> {
        let (number, exten) = asked.split_once('|').ok_or("no extension")?;
        let Ok((plan, _)) = Dialplan::load(alloc, NAMES) else {
            return Ok(text_of(alloc, "no dialplan")?);
        };
        let number = read_number(number.as_bytes()).unwrap_or(0) as usize;
        answer_found(alloc, &plan, number, &pieces_of(alloc, exten)?)
    }
}

/// A better name with the same priority hides an entry if it covers everything that the entry's name may match.
pub(super) const FOUND: &str = r"
0|100→100
0|{0-9}*→100
0|200→none
1|100→none
1|1{0-9}{0-9}*→1{0123456789}{0123456789}*
1|2{0-9}{0-9}*→none
2|1{0-9}{0-9}→none
2|{0-9}{0-9}{0-9}*→{0123456789}{0123456789}{0123456789}*
3|1{0-9}{0-9}→1{0123456789}{0123456789}
4|{0-9}*→none
4|{a-z}*→s
";
