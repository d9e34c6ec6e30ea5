//! Stories over a machine with the wide table, and what is unknown ahead in it. The answers are worked out by hand from the rules.
use dp_case_tables::{Question, check};
use dp_machine_fixture::told_ahead;
use dp_wide::WideApps;
use std::alloc::Global;
use std::test::Fail;

/// The cases of `told_ahead` over the wide table: what is unknown.
const AHEAD: &str = r"
# An application that the table lacks, in any case and whatever its arguments are.
1,While(1)¦?→application While
1,while(${DB(a)})¦?→application while
# A cell that nothing set, with its argument expanded, and the same cell once something set it.
1,Set(A=${DB(fwd/${X})})¦1 X=200;?→DB(fwd/200)
1,Set(A=${DB(a)})¦- DB(a)=9;?;step;$A→none, A=9
1,Set(A=${DB(a)})¦1 DB(a)=9;?;step;$A→none, A=9
1,Set(A=${CDR(x)})¦- DB(x)=1;?→CDR(x)
1,Set(A=${CDR(x)})¦1 CDR(x)=1;?;step;$A→none, A=1
1,Set(DB(a)=5)\n2,Set(B=${DB(a)})¦step;?;step;$B→none, B=5
1,DBdel(a)\n2,Set(B=x${DB(a)})¦step;?;step;$B→none, B=x
# A key that was deleted with those below it: all of these are known, and no others.
1,Set(DB(fam/x)=1)\n2,DBdeltree(fam)\n3,Set(A=.${DB(fam/x)}${DB(fam)}${DB(fam/y/z)}${DB(fam/)})¦step;step;?;step;$A→none, A=.
1,DBdeltree(fam)\n2,Set(A=${DB(family/x)})¦step;?→DB(family/x)
1,DBdeltree(fam)\n2,Set(A=${DB(fa)})¦step;?→DB(fa)
1,DBdeltree(fam/a)\n2,Set(A=${DB(fam/a)}${DB(fam/a/b)}${DB(fam/ab)})¦step;?→DB(fam/ab)
1,DBdeltree(fam/a)\n2,Set(A=${DB(fam)})¦step;?→DB(fam)
1,DBdeltree(fam/)\n2,Set(A=x${DB(fam/y)})¦step;?;step;$A→none, A=x
1,DBdeltree(fam/a/)\n2,Set(A=${DB(fam/a/)}${DB(fam/a//b)}${DB(fam/a/b)})¦step;?→DB(fam/a/b)
1,dbdeltree( fam )\n2,Set(A=${DB_EXISTS(fam/x)}${DB_DELETE(fam/x)}.)¦step;?;step;$A→none, A=0.
1,DBdeltree(fam)\n2,Set(DB(fam/x)=v)\n3,Set(A=${DB(fam/x)}${DB_EXISTS(fam/x)}${DB_EXISTS(fam/y)})¦step;step;?;step;$A→none, A=v10
1,DBdeltree(fam)\n2,Set(A=${DB(fam/x)}.)¦step;- DB(fam/x)=7;?;step;$A→none, A=7.
1,Set(DB(a/b)=1)\n2,DBdeltree()\n3,Set(A=x${DB(a/b)}${DB(c)}${ENV(d)})¦step;step;?→ENV(d)
1,DBdeltree(/a)\n2,Set(A=x${DB(b/c)})¦step;?;step;$A→none, A=x
1,DBdeltree(x)\n2,Set(A=${CDR(x)})¦step;?→CDR(x)
1,DBdeltree(x)\n2,Set(A=${SHARED(x)})¦step;?→SHARED(x)
1,DBdeltree(${DB(a)})¦?→DB(a)
1,ExecIf(1?DBdeltree(a))\n2,Set(A=x${DB(a/b)})¦step;?;step;$A→none, A=x
# Applications that do not look at their arguments.
1,NoOp(${DB(a)})¦?→none
1,verbose(${DB(a)})¦?→none
1,Hangup(${DB(a)})¦?→none
1,Ringing(${DB(a)})¦?→none
1,VoiceMail(${DB(a)})¦?→none
1,Busy(${DB(a)})¦?→none
# Those of every dialplan do, and `Read` too.
1,Goto(${DB(a)})¦?→DB(a)
1,Playback(${DB(a)})¦?→DB(a)
1,Read(${DB(a)})¦?→DB(a)
1,Dial(SIP/1)¦?→none
# A name that Asterisk gives, and a status, known once something set it.
1,Set(A=${UNIQUEID})¦?;1 UNIQUEID=17.1;?;step;$A→UNIQUEID, none, A=17.1
1,Set(A=${NAME}${EXTEN})¦?;step;$A→none, A=s
1,VoiceMail(100)\n2,Set(A=${VMSTATUS})¦step;time;?;1 VMSTATUS=SUCCESS;?;step;$A→VMSTATUS, none, A=SUCCESS
1,Set(VMSTATUS=OLD)\n2,VoiceMail(1)\n3,Set(A=${VMSTATUS})¦step;$VMSTATUS;step;$VMSTATUS;time;?→VMSTATUS=OLD, VMSTATUS=, VMSTATUS
# The name of the channel.
1,Set(A=${CHANNEL})¦?;1 CHANNEL=PJSIP/9-01;?;step;$A→CHANNEL, none, A=PJSIP/9-01
1,Set(A=${CHANNEL:0:3})¦- CHANNEL=SIP/9-01;?;step;$A→none, A=SIP
1,Set(CHANNEL=SIP/1)\n2,Set(A=${CUT(CHANNEL,/,2)})¦step;?;step;$A→none, A=1
1,Set(A=${CHANNEL(language)})¦?→CHANNEL(language)
1,NoOp(${CHANNEL})¦?→none
# The variable of `Read`, until something sets it.
1,Read(X,beep)\n2,Set(A=${X})¦step;time;?;1 X=42;?;step;$A→X, none, A=42
1,Set(X=1)\n2,Read(X)\n3,Set(A=${X}${Y})¦step;$X;step;$X;time;?→X=1, X=, X
1,Read(X)\n2,Read(Y)\n3,Set(A=${Y}${X})¦step;time;step;time;?;1 Y=;?;1 X=7;?;step;$A→Y, X, none, A=7
1,Read(__X)\n2,Set(A=${X})¦step;time;?→X
1,Read(X)\n2,Set(X=3)\n3,Set(A=${X})¦step;time;step;?;step;$A→none, A=3
1,Read(X)\n2,Set(A=${x}${XY}${READ})¦step;time;?;step;$A→none, A=
1,Read(X)\n2,Set(A=${ISNULL(${X})})¦step;time;?→X
1,Read(X)\n2,NoOp(${X})¦step;time;?→none
# An expression that Asterisk may read differently, one that is `0`, and a text whose brackets it counts.
1,GotoIf($[${X} / 2]?2)¦1 X=7;?;1 X=8;?→$[7 / 2], none
1,Set(A=$[${X} + 1])¦?;step;$A→none, A=0
1,GotoIf($[\x22${X}\x22 : \x22a+\x22]?2)¦1 X=aa;?→$[\x22aa\x22 : \x22a+\x22]
1,Set(A=${X{1})¦?→A=${X{1}
1,NoOp(${X{1})¦?→none
# The clock, and a time zone.
1,GotoIfTime(*,*,*,*?2)¦?→asks CLOCK
1,GotoIfTime(*,*,*,*?2)¦1 CLOCK=wed 2026-11-25 10:30;?→asks CLOCK
1,GotoIfTime(*,*,*,*?2)¦- CLOCK=wed 2026-11-25 10:30;?→none
1,GotoIfTime(*,*,*,*,Europe/Berlin?2)¦- CLOCK=wed 2026-11-25 10:30;?→asks GotoIfTime
1,GotoIfTime(*,*,*,*, ?2)¦- CLOCK=wed 2026-11-25 10:30;?→none
1,GotoIfTime()¦- CLOCK=wed 2026-11-25 10:30;?→none
# Settings that do more.
1,Set(HASH(a,b)=1)¦?→asks HASH(a,b)
1,Set(_INC(X)=1)¦?→asks INC(X)
1,Set(INC=1)¦?→none
1,Set(HASH(a)¦?→none
1,Set(CHANNEL(hangup_handler_push)=h,s,1)¦?→asks CHANNEL(hangup_handler_push)
1,Set(CHANNEL(language)=en)¦?→none
1,MSet(A=1,PUSH(x)=2,POP(y)=3)¦?→asks PUSH(x)
1,MSet(A=1,B=2)¦?→none
1,MSet()¦?→none
# Names of an `ARRAY` that do more, also with blanks and marks, and an `ARRAY` in an `ARRAY`.
1,Set(ARRAY(HASH(a,b),B)=1,2)¦?→asks HASH(a,b)
1,Set(ARRAY(A,B)=1,2)¦?→none
1,Set(ARRAY(A, _PUSH(x) ,POP(y))=1,2,3)¦?→asks PUSH(x)
1,Set(ARRAY(DB(a),CDR(x))=1,2)¦?→none
1,Set(ARRAY(A,ARRAY(B,C))=1,2)¦?→asks ARRAY(B,C)
1,Set(ARRAY(ARRAY(HASH(a)))=1)¦?→asks ARRAY(HASH(a))
1,Set(ARRAY(CHANNEL(hangup_handler_push))=h)¦?→asks CHANNEL(hangup_handler_push)
1,Set(ARRAY(HASH(a)=1)¦?→none
1,Set(ARRAY()=1)¦?→none
1,MSet(A=1,ARRAY(INC(X))=2)¦?→asks INC(X)
1,ExecIf(1?Set(ARRAY(EVAL(x))=1))¦?→asks EVAL(x)
# The called side goes elsewhere: the option `G` outside parentheses, if there are devices.
1,Dial(SIP/1,20,G(a^s^1))¦?→asks G
1,Dial(SIP/1,20,tTG(a^s^1)r)¦?→asks G
1,dial(SIP/1,,G(2))¦?→asks G
1,Dial(SIP/1,20,g)¦?→none
1,Dial(SIP/1,20,U(subG(x)))¦?→none
1,Dial(SIP/1,G(2))¦?→none
1,Dial(SIP/1,20,t,G(2))¦?→none
1,Dial(,20,G(a^s^1))¦?→none
1,Dial(SIP/1,20,G)¦?→asks G
1,ExecIf(1?Dial(SIP/1,20,G(a^s^1)))¦?→asks G
1,ExecIf(0?Dial(SIP/1,20,G(a^s^1)))¦?→none
# The side that an `ExecIf` takes, also inside another one, and the one that it does not take.
1,ExecIf(1?While(1):NoOp())¦?→asks While
1,ExecIf(0?While(1):NoOp())¦?→none
1,ExecIf(1?ExecIf(1?Foo(1)))¦?→asks Foo
1,execif(1?EXECIF(0?Foo(1)))¦?→none
1,ExecIf(1?GotoIfTime(*,*,*,*?x,1))¦?→asks CLOCK
1,ExecIf(1?Set(HASH(a,b)=1))¦?→asks HASH(a,b)
1,ExecIf(1?Hangup())¦?→none
1,ExecIf(1?)¦?→none
1,ExecIf()¦?→none
# All groups are expanded, those of a condition and of both sides.
1,ExecIf(${DB(a)}?NoOp())¦?→DB(a)
1,ExecIf(1?NoOp():NoOp(${DB(a)}))¦?→DB(a)
1,ExecIf(0?Set(A=${UNIQUEID}):NoOp())¦?→UNIQUEID
";

/// The same: what happens.
const STORIES: &str = r"
# Sides of `ExecIf`.
1,ExecIf($[1]?Set(A=1):Set(A=2))¦step;$A→A=1
1,ExecIf(0?Set(A=1):Set(A=2))¦step;$A→A=2
1,ExecIf(0?Set(A=1))\n2,Set(B=2)¦step;step;$A;$B→A=, B=2
1,execif(1?set(A=1))¦step;$A→A=1
1,ExecIf(1?Goto(s,3))\n2,Set(A=2)\n3,Set(A=3)¦step;step;$A→A=3
1,ExecIf(1?ExecIf(1?MSet(A=1,B=2)))¦step;$A;$B→A=1, B=2
1,ExecIf(1?VoiceMail(1))\n2,Set(A=2)¦step;step;$A;time;step;$A→A=, A=2
# The clock.
1,GotoIfTime(9:00-17:00,mon-fri,*,*?open,s,1)\n2,Set(A=closed)\n[open]\nexten => s,1,Set(A=open)¦- CLOCK=wed 2026-11-25 10:30;step;step;$A→A=open
1,GotoIfTime(9:00-17:00,mon-fri,*,*?open,s,1)\n2,Set(A=closed)\n[open]\nexten => s,1,Set(A=open)¦- CLOCK=sat 2026-11-28 10:30;step;step;$A→A=closed
1,GotoIfTime(22:00-6:00,*,*,*?2:3)\n2,Set(A=night)\n3,Set(A=day)¦- CLOCK=sat 2026-11-28 23:05;step;step;$A→A=night
1,GotoIfTime(22:00-6:00,*,*,*?2:3)\n2,Set(A=night)\n3,Set(A=day)¦- CLOCK=sat 2026-11-28 06:01;step;step;$A→A=day
# Settings.
1,Set(__A=1)¦step;$A→A=1
1,MSet(A=1,B=2)¦step;$A;$B→A=1, B=2
1,Set(ARRAY(A,B)=1,2)¦step;$A;$B→A=1, B=2
1,Set(CALLERID(all)=Ann <77>)\n2,Set(A=${CALLERID(num)}${CALLERID(name)})¦step;step;$A→A=77Ann
# Functions.
1,Set(A=${CUT(X,-,2)})¦1 X=a-b-c;step;$A→A=b
1,Set(A=${IF($[1 = 1]?yes:no)})¦step;$A→A=yes
1,Set(A=${TOUPPER(abc)}${FIELDQTY(X,-)})¦1 X=a-b;step;$A→A=ABC2
1,Set(A=${QUEUE_EXISTS(q)}${QUEUE_MEMBER_COUNT(q)})¦step;$A→A=00
1,Set(A=${DB_EXISTS(k)})¦- DB(k)=1;step;$A→A=1
# Subroutines and macros.
1,Gosub(sub,s,1(x,y))\n[sub]\nexten => s,1,Set(A=${ARGC}${ARG1}${ARG2})\nexten => s,2,Return()¦step;step;$A→A=2xy
1,Macro(m,x)\n2,Set(B=back)\n[macro-m]\nexten => s,1,Set(A=${ARG1}${MACRO_EXTEN}${MACRO_PRIORITY})\nexten => s,2,MacroExit()¦step;step;$A;step;step;$B→A=xs1, B=back
1,Macro(nosuch,x)\n2,Set(A=on${ARG1}${MACRO_EXTEN})¦step;step;$A→A=on
1,ExecIf(1?Macro(m,x))\n2,Set(A=on${ARGC})¦step;step;$A→A=on
1,Gosub(sub,s,1(y))\n2,Set(B=back)\n[sub]\nexten => s,1,Macro(nosuch,x)\nexten => s,2,Set(A=${ARG1})\nexten => s,3,Return()¦step;step;step;$A;step;step;$B→A=y, B=back
# Those that go on, that end the call, and that every dialplan has.
1,Ringing()\n2,Set(A=1)¦step;step;$A→A=1
1,Busy()\n2,Set(A=1)¦step;step;$A→A=
1,Congestion(5)\n2,Set(A=1)¦step;step;$A→A=
1,Goto(2)\n2,Set(A=x)¦step;step;$A→A=x
1,Queue(q)\n2,Set(A=${QUEUESTATUS})¦step;step;$A→A=UNKNOWN
";

/// The answer of a machine with the wide table.
struct Wide;

impl Question for Wide {
    fn answer(alloc: Global, asked: &str) -> Result<String, Fail> {
        told_ahead::<WideApps>(alloc, asked)
    }
}

#[test]
fn what_is_unknown_ahead(rt: HostRuntime) -> Result<(), Fail> {
    check::<Wide>(rt.alloc(), AHEAD)
}

#[test]
fn calls_run_over_the_wide_table(rt: HostRuntime) -> Result<(), Fail> {
    check::<Wide>(rt.alloc(), STORIES)
}
