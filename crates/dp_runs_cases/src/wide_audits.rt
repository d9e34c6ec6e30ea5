//! Audits of some kinds of findings or over the wide table, with everything that they print, worked out by hand from the rules.
use dp_case_tables::{Question, check_all};
use dp_commands_fixture::{in_main, make_sink, outcome_text};
use dp_wide_runs::{AuditChoice, KindChoice, are_kinds, audit_by};
use std::alloc::Global;
use std::test::Fail;

/// Worked cases over the wide table. A case is the kinds to report, or all of them if that cell is empty, and a dialplan that begins in
/// `[main]`, separated by `¦`; then an arrow, and the output followed by the status.
const WIDE: &str = r"
# Applications that the wide table has, and one that it lacks, in any case.
¦exten => s,1,VoiceMail(1)\nexten => s,2,voicemail(1)\nexten => s,3,While(1)\nexten => s,4,Hangup()→NoApplication main,s,3 While\nok 1 findings\nstatus 1
¦exten => s,1,Answer()\nexten => s,2,Dial(Line/1)\nexten => s,3,Hangup()→ok 0 findings\nstatus 0
# Variables that nothing mentions; what Asterisk gives, and what applications outside and macros set, is not reported.
¦exten => s,1,Set(A=${B}${UNIQUEID})→Unset main,s,1 B\nok 1 findings\nstatus 1
Unset¦exten => s,1,NoOp(${UNIQUEID}${VMSTATUS}${MACRO_EXTEN}${ARG2}${DIALSTATUS}${EXTEN}${A})→Unset main,s,1 A\nok 1 findings\nstatus 1
# A name that stands elsewhere may be set: with marks, in an array, in the arguments of an application, in a side, with other bytes in it.
Unset¦exten => s,1,NoOp(${A}${B}${C}${D}${E}${F-G})\nexten => s,2,MSet(__A=1,B=2)\nexten => s,3,Set(ARRAY(C,D)=1)\nexten => s,4,Read(E)\nexten => s,5,ExecIf(1?Set(F-G=1))→ok 0 findings\nstatus 0
# Reads are no mentions, nor is a name in another case, or a part of a name.
Unset¦exten => s,1,NoOp(${A} a AB BA A-B x{A})\nexten => s,2,NoOp(${A:1})→Unset main,s,1 A\nUnset main,s,2 A\nok 2 findings\nstatus 1
Unset¦exten => s,1,NoOp(${A})\nexten => s,2,NoOp(x&A)→ok 0 findings\nstatus 0
# The others are reported as without the option.
¦exten => s,1,Goto(9)\nexten => s,3,Hangup()\nexten => t,2,Hangup()\ninclude => main→Cycle main\nNoTarget main,s,1 9\nGap main,s,1 2\nNoFirst main,t,2\nok 4 findings\nstatus 1
# A label that an application beyond the twenty-one may name is used. The targets of `GotoIfTime` are checked after all others.
¦exten => s,1,GotoIfTime(*,*,*,*?open:shut)\nexten => s,2(open),NoOp()\nexten => s,3(late),Hangup()→Unused main,s,3 late\nNoTarget main,s,1 shut\nok 2 findings\nstatus 1
NoTarget¦exten => s,1,GotoIfTime(9:00-17:00,mon-fri,*,*?open,s,1:closed,s,1)\nexten => s,2,gotoiftime(*?${X},s,1)\nexten => s,3,Goto(9)\n[open]\nexten => s,1,Hangup()→NoTarget main,s,3 9\nNoTarget main,s,1 closed,s,1\nok 2 findings\nstatus 1
# So are those of what an `ExecIf` may run, on both sides and in the old form.
NoTarget¦exten => s,1,ExecIf($[${A} = 1]?Goto(far,s,1):Gosub(sub,s,1(a)))\nexten => s,2,ExecIf(${A}?NoOp(x):GotoIf(1?here:there))\nexten => s,3(here),ExecIf(${A},Goto,near,s,1)\nexten => s,4,execif(${A}?GotoIfTime(*?here:gone))\n[far]\nexten => s,1,Hangup()→NoTarget main,s,1 sub,s,1(a)\nNoTarget main,s,2 there\nNoTarget main,s,3 near,s,1\nNoTarget main,s,4 gone\nok 4 findings\nstatus 1
# Without a side, with computed targets, or with an `ExecIf` inside another one, nothing is checked.
NoTarget¦exten => s,1,ExecIf()\nexten => s,2,ExecIf(1?)\nexten => s,3,ExecIf(1?Goto(${B}):Goto($[1]))\nexten => s,4,ExecIf(1?ExecIf(1?Goto(gone)))\nexten => s,5,GotoIfTime()→ok 0 findings\nstatus 0
Gap¦exten => s,1,GotoIfTime(*?gone)→ok 0 findings\nstatus 0
¦exten => s,1,ExecIf($[1]?Goto(end):Macro(none))\nexten => s,2(end),Hangup()→ok 0 findings\nstatus 0
# A call goes on in another extension.
¦exten => 100,1,NoOp()\nexten => 100,2,Dial(Line/1)\nexten => _X.,1,NoOp()\nexten => _X.,2,NoOp()\nexten => _X.,3,Dial(Line/2)→FallsThrough main,100,2 main,_X.,3\nok 1 findings\nstatus 1
# After an application that ends there it does not.
¦exten => 100,1,NoOp()\nexten => 100,2,Hangup()\nexten => _X.,1,NoOp()\nexten => _X.,2,NoOp()\nexten => _X.,3,Dial(Line/2)→ok 0 findings\nstatus 0
¦exten => 1,1,Goto(s,1)\nexten => 2,1,return()\nexten => 3,1,Busy()\nexten => 4,1,Congestion()\nexten => 5,1,GotoIf($[1]?s,1)\nexten => s,1,Hangup()\nexten => _X,2,Hangup()→NoFirst main,_X,2\nFallsThrough main,5,1 main,_X,2\nok 2 findings\nstatus 1
# Nor if the extension itself goes on, through an include too; and the call may go on in an include.
¦exten => 100,1,NoOp()\nexten => 100,2,Hangup()\nexten => _X.,1,NoOp()\nexten => _X.,2,Hangup()→ok 0 findings\nstatus 0
FallsThrough¦exten => 100,1,NoOp()\ninclude => more\n[more]\nexten => 100,2,NoOp()\nexten => _X.,3,NoOp()→FallsThrough more,100,2 more,_X.,3\nok 1 findings\nstatus 1
FallsThrough¦exten => 100,1,NoOp()\ninclude => more\n[more]\nexten => _X.,2,NoOp()→FallsThrough main,100,1 more,_X.,2\nok 1 findings\nstatus 1
# An endless run, by its first entry.
¦exten => s,1,Answer()\nexten => s,2,Set(A=1)\nexten => s,3,Log(NOTICE,x)\nexten => s,4,Goto(s,2)→Loop main,s,2\nok 1 findings\nstatus 1
Loop¦exten => s,1,noop()\nexten => s,2,MSet(A=1,B=2)\nexten => s,3,Verbose(1,x)\nexten => s,4,Ringing()\nexten => s,5,Progress()\nexten => s,6,Proceeding()\nexten => s,7,UserEvent(x)\nexten => s,8,Goto(1)→Loop main,s,1\nok 1 findings\nstatus 1
# A run with what takes time, asks or ends is not endless.
Loop¦exten => s,1,Playback(x)\nexten => s,2,Goto(1)\nexten => t,1,SayDigits(1)\nexten => t,2,Goto(1)\nexten => u,1,GotoIf($[1]?1)\nexten => v,1,System(x)\nexten => v,2,Goto(1)→ok 0 findings\nstatus 0
# Functions that Asterisk does not have, by their names as they are written, also inside others.
¦exten => s,1,NoOp(${CUTT(a,b,1)})\nexten => s,2,Hangup()→NoFunction main,s,1 CUTT\nok 1 findings\nstatus 1
¦exten => s,1,Set(A=${LEN(${FOO(${BAR(1)})})}$[${BAZ(2):1} + 1])→NoFunction main,s,1 FOO\nNoFunction main,s,1 BAR\nNoFunction main,s,1 BAZ\nok 3 findings\nstatus 1
¦exten => s,1,Set(A=${cut(X,-,1)}${Len(x)})→NoFunction main,s,1 cut\nNoFunction main,s,1 Len\nok 2 findings\nstatus 1
# Functions of the table and of Asterisk, and texts that are not functions.
¦exten => s,1,Set(A=${CUT(X,-,1)}${DB(a/b)}${CALLERID(num)}${IF($[1]?a:b)}${STRFTIME(1)}${SHELL(ls)}${GLOBAL(X)}${LEN(a)}${QUEUE_EXISTS(q)})→ok 0 findings\nstatus 0
¦exten => s,1,Set(FOO(1)=${A}(1)${B:1}${C${D}(1)}$FOO(1)FOO(2))→Unset main,s,1 A\nUnset main,s,1 B\nUnset main,s,1 D\nok 3 findings\nstatus 1
¦exten => s,1,NoOp(${ FOO(1)})\nexten => s,2,NoOp(${FOO(1)→NoFunction main,s,1  FOO\nNoFunction main,s,2 FOO\nok 2 findings\nstatus 1
# The further kinds come after the others, each in the order of the file.
¦exten => 9,1,NoOp(${FOO(1)})\nexten => 8,1,Goto(8,1)\nexten => 7,2,NoOp()\nexten => _X,2,NoOp()\nexten => _X,3,Goto(nowhere,s,1)→NoFirst main,7,2\nNoFirst main,_X,2\nNoTarget main,_X,3 nowhere,s,1\nFallsThrough main,9,1 main,_X,2\nFallsThrough main,7,2 main,_X,3\nLoop main,8,1\nNoFunction main,9,1 FOO\nok 7 findings\nstatus 1
# Only some kinds, in any case and with blanks.
noapplication¦exten => s,1,While(1)\nexten => s,3,NoOp(${FOO(1)})→NoApplication main,s,1 While\nok 1 findings\nstatus 1
 NOFUNCTION , gap ¦exten => s,1,While(1)\nexten => s,3,NoOp(${FOO(1)})→Gap main,s,1 2\nNoFunction main,s,3 FOO\nok 2 findings\nstatus 1
Hidden¦exten => s,1,While(1)\nexten => s,3,NoOp(${FOO(1)})→ok 0 findings\nstatus 0
# A faulty dialplan.
¦abc→fault 4 NoEquals line 2
";

/// The same over the applications of this program, with the kinds to report.
const PLAIN: &str = r"
¦exten => s,1,VoiceMail(${A})\nexten => s,3,Hangup()→NoApplication main,s,1 VoiceMail\nGap main,s,1 2\nUnset main,s,1 A\nok 3 findings\nstatus 1
unset¦exten => s,1,VoiceMail(${A})\nexten => s,3,Hangup()→Unset main,s,1 A\nok 1 findings\nstatus 1
Gap,NoApplication¦exten => s,1,VoiceMail(${A})\nexten => s,3,Hangup()→NoApplication main,s,1 VoiceMail\nGap main,s,1 2\nok 2 findings\nstatus 1
# Findings that exist only over the wide table are not reported.
¦exten => s,1,Set(A=1)\nexten => s,2,Goto(1)\nexten => s,3,NoOp(${FOO(1)})→ok 0 findings\nstatus 0
¦abc→fault 4 NoEquals line 2
";

/// The same, with the kinds to leave out.
const WITHOUT: &str = r"
gap¦exten => s,1,VoiceMail(${A})\nexten => s,3,Hangup()→NoApplication main,s,1 VoiceMail\nUnset main,s,1 A\nok 2 findings\nstatus 1
GAP, unset ,NoApplication¦exten => s,1,VoiceMail(${A})\nexten => s,3,Hangup()→ok 0 findings\nstatus 0
";

/// Texts, and whether each of their words is a kind of an audit, over the wide table and otherwise.
const KINDS: &str = r"
Cycle→wide plain
cycle,NOTARGET , Gap,NoFirst,hidden,unused,noapplication→wide plain
Unset→wide plain
FallsThrough, Loop ,NoFunction→wide
FallsThrough,Unset→wide
FallsThrough,Strange→none
→none
Gap,→none
Gap Hidden→none
Gaps→none
";

/// The kinds of a cell: those to report, or all of them if it is empty.
fn only_of(cell: &str) -> KindChoice<'_> {
    if cell.is_empty() {
        KindChoice::All
    } else {
        KindChoice::Only(cell)
    }
}

/// The whole output of an audit of a dialplan, followed by its result.
fn answer_to(alloc: Global, plan: &str, choice: AuditChoice<'_>) -> Result<String, Fail> {
    let plan = in_main(alloc, plan)?;
    let mut writer = make_sink(alloc, 4096, None);
    let ended = audit_by(alloc, &plan, choice, &mut writer);
    let answer = outcome_text(alloc, ended, writer)?;
    Ok(answer)
}

/// An audit over the wide table.
struct WideAudit;

impl Question for WideAudit {
    fn answer(alloc: Global, asked: &str) -> Result<String, Fail> {
        let (kinds, plan) = asked.split_once('¦').ok_or("no dialplan")?;
        let choice = AuditChoice {
            is_wide: true,
            kinds: only_of(kinds),
        };
        answer_to(alloc, plan, choice)
    }
}

/// An audit over the applications of this program.
struct PlainAudit;

impl Question for PlainAudit {
    fn answer(alloc: Global, asked: &str) -> Result<String, Fail> {
        let (kinds, plan) = asked.split_once('¦').ok_or("no dialplan")?;
        let choice = AuditChoice {
            is_wide: false,
            kinds: only_of(kinds),
        };
        answer_to(alloc, plan, choice)
    }
}

/// An audit that does not report some kinds.
struct AuditWithout;

impl Question for AuditWithout {
    fn answer(alloc: Global, asked: &str) -> Result<String, Fail> {
        let (kinds, plan) = asked.split_once('¦').ok_or("no dialplan")?;
        let choice = AuditChoice {
            is_wide: false,
            kinds: KindChoice::Except(kinds),
        };
        answer_to(alloc, plan, choice)
    }
}

/// The audits of which the words of a text are kinds.
struct KindsOf;

impl Question for KindsOf {
    fn answer(alloc: Global, asked: &str) -> Result<String, Fail> {
        let text = asked.as_bytes();
        let found = match (are_kinds(true, text), are_kinds(false, text)) {
            (true, true) => "wide plain",
            (true, false) => "wide",
            (false, true) => "plain",
            (false, false) => "none",
        };
        let found = String::from_str(alloc, found)?;
        Ok(found)
    }
}

/// Audits report the kinds that they are asked for.
#[test]
fn audits_report_the_kinds_that_are_asked_for(rt: HostRuntime) -> Result<(), Fail> {
    check_all::<WideAudit>(rt.alloc(), &[WIDE])?;
    check_all::<PlainAudit>(rt.alloc(), &[PLAIN])?;
    check_all::<AuditWithout>(rt.alloc(), &[WITHOUT])?;
    check_all::<KindsOf>(rt.alloc(), &[KINDS])
}
