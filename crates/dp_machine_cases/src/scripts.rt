//! Scripts for machines: calls to devices, and reloads, worked out by hand from the rules.
use dp_case_tables::{Question, bytes_of, check_all};
use dp_commands::{ScriptLine, Turn, read_script};
use dp_machine::NoMemory;
use dp_machine_fixture::{AskMachine, StandardMachine, answer_on, push_given, push_value};
use std::alloc::Global;
use std::str;
use std::test::Fail;

/// A case is a dialplan, the dialplan that each line `reload` gives, and a script, separated by `¦`; then an arrow, and for each event the
/// reply with the state of its channel after it, and for each `show` the value. Calls to devices:
const DIALLING: &str = r"
# The channel reads each result; if the far side has answered and hung up, it is hung up too.
[main]\nexten => s,1,Dial(Line/5,20)\nexten => s,2,NoOp()\nexten => h,1,Dial(Line/6)¦¦start main s\nstep 1\nresult 1 BUSY\nshow 1 DIALSTATUS\nresult 1 BUSY→started 1 -> ready main,s,1 ; ran main,s,1 Dial -> dialling main,s,1 ; done -> ready main,s,2 ; DIALSTATUS=BUSY ; refused 53 NotDialling -> ready main,s,2
[main]\nexten => s,1,Dial(Line/5,20)\nexten => s,2,NoOp()\nexten => h,1,Dial(Line/6)¦¦start main s\nstep 1\nresult 1 ANSWER\nshow 1 DIALSTATUS\nresult 1 BUSY→started 1 -> ready main,s,1 ; ran main,s,1 Dial -> dialling main,s,1 ; done -> ready main,h,1 ; DIALSTATUS=ANSWER ; refused 53 NotDialling -> ready main,h,1
[main]\nexten => s,1,Dial(Line/5,20)\nexten => s,2,NoOp()\nexten => h,1,Dial(Line/6)¦¦start main s\nstep 1\nresult 1 NOANSWER\nshow 1 DIALSTATUS→started 1 -> ready main,s,1 ; ran main,s,1 Dial -> dialling main,s,1 ; done -> ready main,s,2 ; DIALSTATUS=NOANSWER
[main]\nexten => s,1,Dial(Line/5,20)\nexten => s,2,NoOp()\nexten => h,1,Dial(Line/6)¦¦start main s\nstep 1\nresult 1 CONGESTION\nshow 1 DIALSTATUS→started 1 -> ready main,s,1 ; ran main,s,1 Dial -> dialling main,s,1 ; done -> ready main,s,2 ; DIALSTATUS=CONGESTION
[main]\nexten => s,1,Dial(Line/5,20)\nexten => s,2,NoOp()\nexten => h,1,Dial(Line/6)¦¦start main s\nstep 1\nresult 1 CHANUNAVAIL\nshow 1 DIALSTATUS→started 1 -> ready main,s,1 ; ran main,s,1 Dial -> dialling main,s,1 ; done -> ready main,s,2 ; DIALSTATUS=CHANUNAVAIL
# The caller hangs up while it rings; in `h` nothing is called.
[main]\nexten => s,1,Dial(Line/5,20)\nexten => s,2,NoOp()\nexten => h,1,Dial(Line/6)¦¦start main s\nstep 1\nhangup 1\nshow 1 DIALSTATUS\nstep 1\nshow 1 DIALSTATUS→started 1 -> ready main,s,1 ; ran main,s,1 Dial -> dialling main,s,1 ; done -> ready main,h,1 ; DIALSTATUS=CANCEL ; ran main,h,1 Dial -> ended main,h,1 ; DIALSTATUS=CANCEL
[main]\nexten => s,1,Dial(Line/5,20,g)¦¦start main s\nstep 1\nhangup 1\nshow 1 DIALSTATUS→started 1 -> ready main,s,1 ; ran main,s,1 Dial -> dialling main,s,1 ; done -> ended main,s,1 ; DIALSTATUS=CANCEL
# A time-out, with and without a time.
[main]\nexten => s,1,Dial(Line/5,20)\nexten => s,2,NoOp()\nexten => h,1,Dial(Line/6)¦¦start main s\nstep 1\ntimeout 1\nshow 1 DIALSTATUS\ntimeout 1→started 1 -> ready main,s,1 ; ran main,s,1 Dial -> dialling main,s,1 ; done -> ready main,s,2 ; DIALSTATUS=NOANSWER ; refused 42 NotWaiting -> ready main,s,2
[main]\nexten => s,1,Dial(Line/5)\nexten => s,2,NoOp()¦¦start main s\nstep 1\ntimeout 1\nshow 1 DIALSTATUS\nresult 1 BUSY→started 1 -> ready main,s,1 ; ran main,s,1 Dial -> dialling main,s,1 ; refused 43 NoTimer -> dialling main,s,1 ; DIALSTATUS= ; done -> ready main,s,2
# With the option `g` the channel goes on after each of them.
[main]\nexten => s,1,Dial(Line/5,,g)\nexten => s,2,NoOp()\nexten => h,1,NoOp()¦¦start main s\nstep 1\nresult 1 ANSWER\nshow 1 DIALSTATUS→started 1 -> ready main,s,1 ; ran main,s,1 Dial -> dialling main,s,1 ; done -> ready main,s,2 ; DIALSTATUS=ANSWER
[main]\nexten => s,1,Dial(Line/5,20,g)\nexten => s,2,NoOp()\nexten => h,1,NoOp()¦¦start main s\nstep 1\nresult 1 BUSY\nstart main s\nstep 2\ntimeout 2\nshow 2 DIALSTATUS→started 1 -> ready main,s,1 ; ran main,s,1 Dial -> dialling main,s,1 ; done -> ready main,s,2 ; started 2 -> ready main,s,1 ; ran main,s,1 Dial -> dialling main,s,1 ; done -> ready main,s,2 ; DIALSTATUS=NOANSWER
# No device is called.
[main]\nexten => s,1,Dial()\nexten => s,2,NoOp()¦¦start main s\nstep 1\nshow 1 DIALSTATUS\nresult 1 BUSY→started 1 -> ready main,s,1 ; ran main,s,1 Dial -> ready main,s,2 ; DIALSTATUS=CHANUNAVAIL ; refused 53 NotDialling -> ready main,s,2
# If the next priority has no entry, the channel goes there too.
[main]\nexten => s,1,Dial(Line/5)¦¦start main s\nstep 1\nresult 1 BUSY\nstep 1→started 1 -> ready main,s,1 ; ran main,s,1 Dial -> dialling main,s,1 ; done -> ready main,s,2 ; no entry -> ended main,s,2
# A digit is not kept.
[main]\nexten => s,1,Dial(Line/5,20)\nexten => s,2,WaitExten()\nexten => s,3,NoOp()\nexten => 5,1,NoOp()¦¦start main s\nstep 1\ndigit 1 5\nresult 1 BUSY\nstep 1\ntimeout 1→started 1 -> ready main,s,1 ; ran main,s,1 Dial -> dialling main,s,1 ; done -> dialling main,s,1 ; done -> ready main,s,2 ; ran main,s,2 WaitExten -> digits main,s,2 ; done -> ready main,s,3
# Other events have no effect on it.
[main]\nexten => s,1,Dial(Line/5,20)¦¦start main s\nstep 1\nstep 1\npoll 1\ndigit 1 x\ndigit 1 E\nanswer Line/5\ndone Line/5\noffer Line/5→started 1 -> ready main,s,1 ; ran main,s,1 Dial -> dialling main,s,1 ; refused 41 NotReady -> dialling main,s,1 ; refused 42 NotWaiting -> dialling main,s,1 ; refused 51 BadDigit -> dialling main,s,1 ; refused 51 BadDigit -> dialling main,s,1 ; refused 47 NotRinging ; refused 48 NotTalking ; refused 44 NoQueue
# A result of a channel that does not exist, has ended, or waits for something else.
[main]\nexten => s,1,Wait(1)\nexten => d,1,WaitExten()\nexten => e,1,Hangup()¦¦result 1 BUSY\nstart main s\nresult 1 BUSY\nstep 1\nresult 1 ANSWER\nstart main d\nstep 2\nresult 2 BUSY\nstart main e\nstep 3\nresult 3 BUSY\nresult 0 BUSY\nresult 4 BUSY→refused 40 NoChannel -> none ; started 1 -> ready main,s,1 ; refused 53 NotDialling -> ready main,s,1 ; ran main,s,1 Wait -> pause main,s,1 ; refused 53 NotDialling -> pause main,s,1 ; started 2 -> ready main,d,1 ; ran main,d,1 WaitExten -> digits main,d,1 ; refused 53 NotDialling -> digits main,d,1 ; started 3 -> ready main,e,1 ; ran main,e,1 Hangup -> ended main,e,1 ; refused 49 Ended -> ended main,e,1 ; refused 40 NoChannel ; refused 40 NoChannel -> none
# Before the result of the call, the old value is read.
[main]\nexten => s,1,Set(DIALSTATUS=mine)\nexten => s,2,Dial(Line/5)\nexten => s,3,NoOp()¦¦start main s\nstep 1 2\nshow 1 DIALSTATUS\nresult 1 CONGESTION\nshow 1 DIALSTATUS→started 1 -> ready main,s,1 ; ran main,s,1 Set -> ready main,s,2 ; ran main,s,2 Dial -> dialling main,s,2 ; DIALSTATUS=mine ; done -> ready main,s,3 ; DIALSTATUS=CONGESTION
# If it is a local of a subroutine, the local is set: a return and a hang-up drop it.
[main]\nexten => s,1,Gosub(sub,s,1)\nexten => s,2,NoOp()\n[sub]\nexten => s,1,Set(LOCAL(DIALSTATUS)=mine)\nexten => s,2,Dial(Line/5,20)\nexten => s,3,Return()\nexten => h,1,NoOp()¦¦start main s\nstep 1 3\nresult 1 BUSY\nshow 1 DIALSTATUS\nstep 1\nshow 1 DIALSTATUS→started 1 -> ready main,s,1 ; ran main,s,1 Gosub -> ready sub,s,1 ; ran sub,s,1 Set -> ready sub,s,2 ; ran sub,s,2 Dial -> dialling sub,s,2 ; done -> ready sub,s,3 ; DIALSTATUS=BUSY ; ran sub,s,3 Return -> ready main,s,2 ; DIALSTATUS=
[main]\nexten => s,1,Gosub(sub,s,1)\n[sub]\nexten => s,1,Set(LOCAL(DIALSTATUS)=mine)\nexten => s,2,Dial(Line/5,20)\nexten => s,3,Return()\nexten => h,1,NoOp()¦¦start main s\nstep 1 3\nhangup 1\nshow 1 DIALSTATUS→started 1 -> ready main,s,1 ; ran main,s,1 Gosub -> ready sub,s,1 ; ran sub,s,1 Set -> ready sub,s,2 ; ran sub,s,2 Dial -> dialling sub,s,2 ; done -> ready sub,h,1 ; DIALSTATUS=
[main]\nexten => s,1,Gosub(sub,s,1)\n[sub]\nexten => s,1,Set(LOCAL(DIALSTATUS)=mine)\nexten => s,2,Dial(Line/5,20)\nexten => s,3,Return()\nexten => h,1,NoOp()¦¦start main s\nstep 1 3\nresult 1 ANSWER\nshow 1 DIALSTATUS→started 1 -> ready main,s,1 ; ran main,s,1 Gosub -> ready sub,s,1 ; ran sub,s,1 Set -> ready sub,s,2 ; ran sub,s,2 Dial -> dialling sub,s,2 ; done -> ready sub,h,1 ; DIALSTATUS=
[main]\nexten => s,1,Gosub(sub,s,1)\n[sub]\nexten => s,1,Set(LOCAL(DIALSTATUS)=mine)\nexten => s,2,Dial(Line/5,20)\nexten => s,3,StackPop()¦¦start main s\nstep 1 3\ntimeout 1\nshow 1 DIALSTATUS\nstep 1\nshow 1 DIALSTATUS→started 1 -> ready main,s,1 ; ran main,s,1 Gosub -> ready sub,s,1 ; ran sub,s,1 Set -> ready sub,s,2 ; ran sub,s,2 Dial -> dialling sub,s,2 ; done -> ready sub,s,3 ; DIALSTATUS=NOANSWER ; ran sub,s,3 StackPop -> ready sub,s,4 ; DIALSTATUS=
# If no local has the name, it stays after the frames.
[main]\nexten => s,1,Gosub(sub,s,1)\n[sub]\nexten => s,1,Dial(Line/5,20)\nexten => h,1,NoOp()¦¦start main s\nstep 1 2\nhangup 1\nshow 1 DIALSTATUS→started 1 -> ready main,s,1 ; ran main,s,1 Gosub -> ready sub,s,1 ; ran sub,s,1 Dial -> dialling sub,s,1 ; done -> ready sub,h,1 ; DIALSTATUS=CANCEL
# One channel's result is not another's.
[main]\nexten => s,1,Dial(Line/5,20)\nexten => s,2,NoOp()¦¦start main s\nstart main s\nstep 1\nstep 2\nresult 2 BUSY\nshow 1 DIALSTATUS\nshow 2 DIALSTATUS\nresult 1 NOANSWER→started 1 -> ready main,s,1 ; started 2 -> ready main,s,1 ; ran main,s,1 Dial -> dialling main,s,1 ; ran main,s,1 Dial -> dialling main,s,1 ; done -> ready main,s,2 ; DIALSTATUS= ; DIALSTATUS=BUSY ; done -> ready main,s,2
";

/// Reloads, in the same form:
const RELOADING: &str = r"
# The next step uses the new dialplan, and its globals are set over the existing ones.
[globals]\nX=1\nY=5\n[main]\nexten => 100,1,NoOp(a)\nexten => 100,2,NoOp(b)¦[globals]\nX=${X}2\n[main]\nexten => _1XX,2,Hangup()¦start main 100\nstep 1\nreload\nshow 1 X\nshow 1 Y\nstep 1→started 1 -> ready main,100,1 ; ran main,100,1 NoOp -> ready main,100,2 ; done ; X=12 ; Y=5 ; ran main,_1XX,2 Hangup -> ended main,100,2
# A dialplan with a fault changes nothing.
[globals]\nX=1\nY=5\n[main]\nexten => 100,1,NoOp(a)\nexten => 100,2,NoOp(b)¦[main¦start main 100\nstep 1\nreload\nshow 1 X\nshow 1 Y\nstep 1→started 1 -> ready main,100,1 ; ran main,100,1 NoOp -> ready main,100,2 ; refused 52 BadPlan ; X=1 ; Y=5 ; ran main,100,2 NoOp -> ready main,100,3
[globals]\nX=1\n[main]\nexten => s,1,NoOp()¦[globals]\nX=2\n[main]\nexten => s,0,NoOp()¦start main s\nreload\nreload\nshow 1 X\nstep 1→started 1 -> ready main,s,1 ; refused 52 BadPlan ; refused 52 BadPlan ; X=1 ; ran main,s,1 NoOp -> ready main,s,2
[globals]\nX=1¦[globals]\nX=2\n[main]\nexten => s,1,NoOp\nswitch => Loopback/x¦start main s\nreload\nshow 1 X→started 1 -> ready main,s,1 ; refused 52 BadPlan ; X=1
# Notes are not faults.
[main]\nexten => s,1,NoOp()¦[main]\nexten => s,1,Answer()\nexten => s,1,Hangup()\ninclude => none\nkey => x¦start main s\nreload\nstep 1→started 1 -> ready main,s,1 ; done ; ran main,s,1 Answer -> ready main,s,2
# A second time, it goes on from the values of the first. A name that occurs twice is set twice.
[globals]\nX=1¦[globals]\nX=${X}2¦start main s\nreload\nreload\nshow 1 X→started 1 -> ready main,s,1 ; done ; done ; X=122
[globals]\nX=1¦[globals]\nX=${X}a\nX=${X}b\nZ=<${X}${Y}>\nY=7¦start main s\nreload\nshow 1 X\nshow 1 Z\nreload\nshow 1 Z→started 1 -> ready main,s,1 ; done ; X=1ab ; Z=<1ab> ; done ; Z=<1abab7>
# It also goes on from what a call has set, and hides no variable of a call.
[globals]\nX=1\n[main]\nexten => s,1,Set(GLOBAL(X)=9)\nexten => s,2,Set(A=own)¦[globals]\nX=${X}2\nA=${A}3¦start main s\nstep 1 2\nreload\nshow 1 X\nshow 1 A\nstart main s\nshow 2 A→started 1 -> ready main,s,1 ; ran main,s,1 Set -> ready main,s,2 ; ran main,s,2 Set -> ready main,s,3 ; done ; X=92 ; A=own ; started 2 -> ready main,s,1 ; A=3
# There is no channel while globals are expanded, and a value is not expanded again.
¦[globals]\nEXTEN=x\nE=<${EXTEN}${CONTEXT}${PRIORITY}${CHANNEL}${CALLERID(num)}${LOCAL(E)}>\nF=<${GLOBAL(EXTEN)}>\nD=$\nG=${D}{F}\nL=${LEN(${G})}¦start main s 555\nreload\nshow 1 E\nshow 1 F\nshow 1 G\nshow 1 L→started 1 -> ready main,s,1 ; done ; E=<> ; F=<x> ; G=${F} ; L=4
# An empty dialplan is a dialplan, and also takes effect before any call.
[globals]\nX=1\n[main]\nexten => s,1,NoOp()¦¦reload\nstart main s\nshow 1 X\nstep 1→done ; started 1 -> ready main,s,1 ; X=1 ; no entry -> ended main,s,1
# A place that no longer exists: the call goes to `i` if the extension has no priority 1 and `i` exists, else it is hung up.
[main]\nexten => s,1,NoOp()\nexten => s,2,NoOp()¦[main]\nexten => i,1,NoOp()¦start main s\nstep 1\nreload\nstep 1\nshow 1 INVALID_EXTEN\nstep 1→started 1 -> ready main,s,1 ; ran main,s,1 NoOp -> ready main,s,2 ; done ; invalid -> ready main,i,1 ; INVALID_EXTEN=s ; ran main,i,1 NoOp -> ready main,i,2
[main]\nexten => s,1,NoOp()\nexten => s,2,NoOp()¦[main]\nexten => s,1,NoOp()\nexten => i,1,NoOp()¦start main s\nstep 1\nreload\nstep 1→started 1 -> ready main,s,1 ; ran main,s,1 NoOp -> ready main,s,2 ; done ; no entry -> ended main,s,2
[main]\nexten => s,1,NoOp()\nexten => s,2,NoOp()\nexten => h,1,NoOp()¦[main]\nexten => t,1,NoOp()¦start main s\nstep 1\nreload\nstep 1→started 1 -> ready main,s,1 ; ran main,s,1 NoOp -> ready main,s,2 ; done ; no entry -> ended main,s,2
[main]\nexten => s,1,NoOp()\nexten => s,2,NoOp()¦[main]\nexten => h,1,NoOp()¦start main s\nstep 1\nreload\nstep 1 2→started 1 -> ready main,s,1 ; ran main,s,1 NoOp -> ready main,s,2 ; done ; no entry -> ready main,h,1 ; ran main,h,1 NoOp -> ready main,h,2
# A removed context has nothing, and a new one is found.
[main]\nexten => s,1,Goto(late,s,1)¦[late]\nexten => s,1,NoOp()¦start main s\nstart main s\nstep 1\nreload\nstep 1\nstep 2→started 1 -> ready main,s,1 ; started 2 -> ready main,s,1 ; ran main,s,1 Goto -> ready late,s,1 ; done ; ran late,s,1 NoOp -> ready late,s,2 ; no entry -> ended main,s,1
# A channel that is hung up gets no second `h`: neither if its place no longer exists nor if the caller hangs up again.
[main]\nexten => s,1,NoOp()\nexten => h,1,NoOp()\nexten => h,2,NoOp()¦[main]\nexten => h,1,NoOp()¦start main s\nhangup 1\nstep 1\nreload\nstep 1→started 1 -> ready main,s,1 ; done -> ready main,h,1 ; ran main,h,1 NoOp -> ready main,h,2 ; done ; no entry -> ended main,h,2
[main]\nexten => h,1,NoOp()¦[main]\nexten => i,1,NoOp()\nexten => i,2,NoOp()¦start main s\nhangup 1\nreload\nstep 1\nshow 1 INVALID_EXTEN\nstep 1\nhangup 1→started 1 -> ready main,s,1 ; done -> ready main,h,1 ; done ; invalid -> ready main,i,1 ; INVALID_EXTEN=h ; ran main,i,1 NoOp -> ready main,i,2 ; done -> ended main,i,2
# A hang-up looks for `h` in the new dialplan.
[main]\nexten => s,1,NoOp()¦[main]\nexten => _[h],1,NoOp()¦start main s\nreload\nhangup 1→started 1 -> ready main,s,1 ; done ; done -> ready main,h,1
[main]\nexten => s,1,NoOp()\nexten => h,1,NoOp()¦[main]\nexten => s,1,NoOp()¦start main s\nreload\nhangup 1→started 1 -> ready main,s,1 ; done ; done -> ended main,s,1
# Frames stay, with their locals, and a return goes to its place without a check.
[main]\nexten => s,1,Gosub(sub,s,1(x))\nexten => s,2,NoOp()\n[sub]\nexten => s,1,NoOp()\nexten => s,2,Return(old)¦[sub]\nexten => s,2,Return(new ${ARG1})¦start main s\nstep 1 2\nreload\nshow 1 ARG1\nstep 1\nshow 1 GOSUB_RETVAL\nstep 1→started 1 -> ready main,s,1 ; ran main,s,1 Gosub -> ready sub,s,1 ; ran sub,s,1 NoOp -> ready sub,s,2 ; done ; ARG1=x ; ran sub,s,2 Return -> ready main,s,2 ; GOSUB_RETVAL=new x ; no entry -> ended main,s,2
# Targets and labels are those of the new dialplan.
[main]\nexten => s,1,NoOp()\nexten => s,5(x),NoOp()¦[main]\nexten => s,2,Goto(x)\nexten => s,9(x),NoOp()¦start main s\nstep 1\nreload\nstep 1 2→started 1 -> ready main,s,1 ; ran main,s,1 NoOp -> ready main,s,2 ; done ; ran main,s,2 Goto -> ready main,s,9 ; ran main,s,9 NoOp -> ready main,s,10
[main]\nexten => s,1,NoOp()\n[sub]\nexten => s,1,Return()¦[main]\nexten => s,1,Gosub(sub,s,1)¦start main s\nreload\nstep 1→started 1 -> ready main,s,1 ; done ; ran main,s,1 Gosub -> ended main,s,1
[main]\nexten => s,1,Gosub(sub,s,1)¦[main]\nexten => s,1,Gosub(sub,s,1)\n[sub]\nexten => s,1,Return(back)¦start main s\nreload\nstep 1 2→started 1 -> ready main,s,1 ; done ; ran main,s,1 Gosub -> ready sub,s,1 ; ran sub,s,1 Return -> ready main,s,2
# Digits stay: the next one is looked up in the new dialplan with the whole text, and so are the ends of digits.
[main]\nexten => s,1,WaitExten()\nexten => 12,1,NoOp()¦[main]\nexten => 123,1,NoOp()¦start main s\nstep 1\ndigit 1 1\nreload\ndigit 1 2\ndigit 1 3\nstep 1→started 1 -> ready main,s,1 ; ran main,s,1 WaitExten -> digits main,s,1 ; done -> digits main,s,1 ; done ; done -> digits main,s,1 ; done -> ready main,123,1 ; ran main,123,1 NoOp -> ready main,123,2
[main]\nexten => s,1,WaitExten()\nexten => 123,1,NoOp()¦[main]\nexten => 12,1,NoOp()¦start main s\nstep 1\ndigit 1 1\nreload\ndigit 1 2→started 1 -> ready main,s,1 ; ran main,s,1 WaitExten -> digits main,s,1 ; done -> digits main,s,1 ; done ; done -> ready main,12,1
[main]\nexten => s,1,WaitExten()\nexten => 12,1,NoOp()¦¦start main s\nstep 1\ndigit 1 1\nreload\ntimeout 1\nstep 1→started 1 -> ready main,s,1 ; ran main,s,1 WaitExten -> digits main,s,1 ; done -> digits main,s,1 ; done ; done -> ready main,1,1 ; no entry -> ended main,1,1
[main]\nexten => s,1,WaitExten()\nexten => t,1,NoOp()¦[main]\nexten => s,2,NoOp()\nexten => t,1,NoOp()¦start main s\nstep 1\nreload\ntimeout 1→started 1 -> ready main,s,1 ; ran main,s,1 WaitExten -> digits main,s,1 ; done ; done -> ready main,s,2
[main]\nexten => s,1,WaitExten()\nexten => s,2,NoOp()¦[main]\nexten => t,1,NoOp()¦start main s\nstep 1\nreload\ntimeout 1→started 1 -> ready main,s,1 ; ran main,s,1 WaitExten -> digits main,s,1 ; done ; done -> ready main,t,1
[main]\nexten => s,1,WaitExten()\nexten => s,2,NoOp()\nexten => t,1,NoOp()¦¦start main s\nstep 1\nreload\ntimeout 1→started 1 -> ready main,s,1 ; ran main,s,1 WaitExten -> digits main,s,1 ; done ; done -> ended main,s,1
[main]\nexten => s,1,Background()\nexten => t,1,NoOp()¦¦start main s\nstep 1\nreload\ntimeout 1→started 1 -> ready main,s,1 ; ran main,s,1 Background -> digits main,s,1 ; done ; done -> ready main,s,2
# Whatever else a channel waits for stays, with its time and its option.
[main]\nexten => s,1,Wait(1)¦¦start main s\nstep 1\nreload\nstep 1\ntimeout 1→started 1 -> ready main,s,1 ; ran main,s,1 Wait -> pause main,s,1 ; done ; refused 41 NotReady -> pause main,s,1 ; done -> ready main,s,2
[main]\nexten => s,1,Dial(Line/5,20,g)¦[main]\nexten => s,1,Dial(Line/6)\nexten => s,2,NoOp()\nexten => h,1,NoOp()¦start main s\nstep 1\nreload\nresult 1 ANSWER\nshow 1 DIALSTATUS\nstep 1→started 1 -> ready main,s,1 ; ran main,s,1 Dial -> dialling main,s,1 ; done ; done -> ready main,s,2 ; DIALSTATUS=ANSWER ; ran main,s,2 NoOp -> ready main,s,3
[main]\nexten => s,1,Dial(Line/5,20)¦[main]\nexten => h,1,NoOp()¦start main s\nstart main s\nstep 1\nstep 2\nreload\ntimeout 1\nhangup 2→started 1 -> ready main,s,1 ; started 2 -> ready main,s,1 ; ran main,s,1 Dial -> dialling main,s,1 ; ran main,s,1 Dial -> dialling main,s,1 ; done ; done -> ready main,s,2 ; done -> ready main,h,1
# Variables and the caller stay, and ended calls have ended.
[main]\nexten => s,1,Set(A=mine)\nexten => s,2,Hangup()¦[main]\nexten => s,2,Set(B=${A} ${CALLERID(num)})¦start main s 555\nstep 1\nstart main s\nstep 2 2\nreload\nstep 1\nshow 1 B\nstep 2\nshow 2 A→started 1 -> ready main,s,1 ; ran main,s,1 Set -> ready main,s,2 ; started 2 -> ready main,s,1 ; ran main,s,1 Set -> ready main,s,2 ; ran main,s,2 Hangup -> ended main,s,2 ; done ; ran main,s,2 Set -> ready main,s,3 ; B=mine 555 ; refused 49 Ended -> ended main,s,2 ; A=mine
# Patterns, includes and dashes are those of the new dialplan; channels are numbered on.
[main]\nexten => 1-00,1,NoOp()¦[main]\nexten => _1XX,1,NoOp(any)\nexten => 10-1,1,NoOp(one)\ninclude => rest\n[rest]\nexten => _X.,1,NoOp(rest)¦start main 1-01\nreload\nstep 1\nstart main 1-02\nstep 2\nstart main 2-2\nstep 3→started 1 -> ready main,1-01,1 ; done ; ran main,101,1 NoOp -> ready main,1-01,2 ; started 2 -> ready main,1-02,1 ; ran main,_1XX,1 NoOp -> ready main,1-02,2 ; started 3 -> ready main,2-2,1 ; ran rest,_X.,1 NoOp -> ready main,2-2,2
# The new dialplan has more contexts, with longer chains of them, and then fewer.
[a]\nexten => 1,1,NoOp()¦[a]\ninclude => b\n[b]\ninclude => c\n[c]\ninclude => d\n[d]\ninclude => e\n[e]\ninclude => a\nexten => 1,1,NoOp(far)\nexten => 1,2,NoOp()¦start a 1\nstep 1\nreload\nstep 1\nstart c 1\nstep 2→started 1 -> ready a,1,1 ; ran a,1,1 NoOp -> ready a,1,2 ; done ; ran e,1,2 NoOp -> ready a,1,3 ; started 2 -> ready c,1,1 ; ran e,1,1 NoOp -> ready c,1,2
[a]\ninclude => b\n[b]\ninclude => c\n[c]\ninclude => d\n[d]\ninclude => e\n[e]\ninclude => a\nexten => 1,1,NoOp(far)¦[e]\nexten => 1,1,NoOp()\n[a]\nexten => 1,2,NoOp()¦start a 1\nstep 1\nreload\nstep 1\nstart b 1\nstep 2→started 1 -> ready a,1,1 ; ran e,1,1 NoOp -> ready a,1,2 ; done ; ran a,1,2 NoOp -> ready a,1,3 ; started 2 -> ready b,1,1 ; no entry -> ended b,1,1
";

/// Adds the value of a name in a channel.
fn push_shown(
    out: &mut String,
    alloc: Global,
    machine: &StandardMachine,
    channel: u32,
    name: &str,
) -> Result<(), NoMemory> {
    write!(out, "{name}=")?;
    push_value(out, alloc, machine, channel, name)
}

/// Adds the answer to a turn of a script, after ` ; ` if it is not the first.
fn push_turn(
    out: &mut String,
    alloc: Global,
    machine: &mut StandardMachine,
    turn: &Turn,
) -> Result<(), Fail> {
    if !out.is_empty() {
        out.push_str(" ; ")?;
    }
    match turn {
        Turn::Event(event) => push_given(out, alloc, machine, event)?,
        Turn::Show { channel, name } => {
            let name = str::from_utf8(name.bytes())?;
            push_shown(out, alloc, machine, *channel, name)?;
        }
    }
    Ok(())
}

fn push_line(
    out: &mut String,
    alloc: Global,
    machine: &mut StandardMachine,
    line: &ScriptLine,
) -> Result<(), Fail> {
    for _turn in 0..line.count {
        push_turn(out, alloc, machine, &line.turn)?;
    }
    Ok(())
}

/// The answers of a machine to the lines of a script, separated by ` ; `.
fn answers_of(
    alloc: Global,
    machine: &mut StandardMachine,
    lines: &[ScriptLine],
) -> Result<String, Fail> {
    let mut out = String::new(alloc);
    for line in lines {
        push_line(&mut out, alloc, machine, line)?;
    }
    Ok(out)
}

/// The answers of a machine to a script whose lines `reload` give this dialplan.
fn answers_to(
    alloc: Global,
    machine: &mut StandardMachine,
    second: &[u8],
    script: &[u8],
) -> Result<String, Fail> {
    let lines = read_script(alloc, Some(second), script)?;
    answers_of(alloc, machine, &lines)
}

/// The answers to a script that is preceded by the dialplan for its lines `reload`.
struct InScript;

impl AskMachine for InScript {
    fn answer(alloc: Global, machine: &mut StandardMachine, asked: &str) -> Result<String, Fail> {
        let (second, script) = asked.split_once('¦').ok_or("no script")?;
        let second = bytes_of(alloc, second)?;
        let script = bytes_of(alloc, script)?;
        answers_to(alloc, machine, &second, &script)
    }
}

/// The answers of a new machine to a script, given its dialplan and the one of the reload.
struct Happened;

impl Question for Happened {
    fn answer(alloc: Global, asked: &str) -> Result<String, Fail> {
        let (plan, rest) = asked.split_once('¦').ok_or("no other dialplan")?;
        let plan = bytes_of(alloc, plan)?;
        answer_on::<InScript>(alloc, &plan, rest)
    }
}

/// Devices are called, and dialplans are reloaded.
#[test]
fn scripts_with_dial_results_and_reloads(rt: HostRuntime) -> Result<(), Fail> {
    check_all::<Happened>(rt.alloc(), &[DIALLING, RELOADING])
}
