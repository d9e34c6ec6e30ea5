//! Calls through dialplans with queues, with everything that they print, worked out by hand from the rules.
use crate::runs::manual::PAGES;
use dp_case_tables::{Question, check_all};
use dp_commands::run_script;
use dp_commands_fixture::{RunTextsOf, make_sink, outcome_text, read_texts};
use dp_conf::NoMemory;
use std::alloc::Global;
use std::test::Fail;

/// Worked cases. A case is a dialplan that begins in `[main]`, a file of queues and a script, separated by `¦`, and a second dialplan after
/// another `¦`, if there is one; then an arrow, and the trace followed by the status.
const ROWS: &str = r"
# wildcards
exten => s,1,WaitExten(5)\nexten => _1!,1,NoOp()\nexten => _1.,1,NoOp()¦¦start main s\nstep 1\ndigit 1 1\ntimeout 1→started 1\nran 1 main,s,1 WaitExten -> digits\nok 1 -> digits\nok 1 -> ready main,1,1\nstatus 0
exten => s,1,WaitExten(5)\nexten => _1!,1,NoOp()¦¦start main s\nstep 1\ndigit 1 1→started 1\nran 1 main,s,1 WaitExten -> digits\nok 1 -> ready main,1,1\nstatus 0
# label-of-gotoif
exten => s,1,GotoIf($[${N} = 1]?a:b)\nexten => s,2(a),NoOp()\nexten => s,3(b),NoOp()¦¦start main s\nstep 1→started 1\nran 1 main,s,1 GotoIf -> ready main,s,3\nstatus 0
# gosub-arguments
exten => s,1,Gosub(sub,s,1(x,y))\nexten => s,2,NoOp()\nexten => s,3,Return()\n[sub]\nexten => s,1,Return(${ARG2})¦¦start main s\nstep 1 2\nshow 1 GOSUB_RETVAL\nshow 1 ARG1\nstep 1 2→started 1\nran 1 main,s,1 Gosub -> ready sub,s,1\nran 1 sub,s,1 Return -> ready main,s,2\nGOSUB_RETVAL=y\nARG1=\nran 1 main,s,2 NoOp -> ready main,s,3\nran 1 main,s,3 Return -> ended\nstatus 0
# locals
exten => s,1,Set(A=1)\nexten => s,2,Gosub(f,s,1)\nexten => s,3,NoOp()\n[f]\nexten => s,1,Set(LOCAL(A)=2)\nexten => s,2,Set(A=3)\nexten => s,3,Return(${A})¦¦start main s\nstep 1 5\nshow 1 GOSUB_RETVAL\nshow 1 A→started 1\nran 1 main,s,1 Set -> ready main,s,2\nran 1 main,s,2 Gosub -> ready f,s,1\nran 1 f,s,1 Set -> ready f,s,2\nran 1 f,s,2 Set -> ready f,s,3\nran 1 f,s,3 Return -> ready main,s,3\nGOSUB_RETVAL=3\nA=1\nstatus 0
exten => s,1,Set(A=1)\nexten => s,2,Gosub(f,s,9)\n[f]\nexten => s,1,NoOp()¦¦start main s\nstep 1 2→started 1\nran 1 main,s,1 Set -> ready main,s,2\nran 1 main,s,2 Gosub -> ended\nstatus 0
# queue-full
exten => s,1,Queue(q)¦[q]\nmaxlen=1¦start main s\nstart main s\nstep 1\nstep 2\nshow 2 QUEUESTATUS→started 1\nstarted 2\nran 1 main,s,1 Queue -> queued q\nran 2 main,s,1 Queue -> ready main,s,2\nQUEUESTATUS=FULL\nstatus 0
exten => s,1,Queue(Q)¦[q]\nmaxlen=1¦start main s\nstart main s\nstep 1\nstep 2\nshow 2 QUEUESTATUS→started 1\nstarted 2\nran 1 main,s,1 Queue -> queued q\nran 2 main,s,1 Queue -> ready main,s,2\nQUEUESTATUS=FULL\nstatus 0
# add-and-remove-member
exten => s,1,AddQueueMember(q,Line/9)\nexten => s,2,AddQueueMember(q,Line/9)\nexten => s,3,AddQueueMember(no,Line/9)\nexten => s,4,RemoveQueueMember(q,Line/1)\nexten => s,5,RemoveQueueMember(q,Line/9)\nexten => s,6,RemoveQueueMember(q,Line/9)¦[q]\nmember => Line/1¦start main s\nstep 1\nshow 1 AQMSTATUS\nstep 1\nshow 1 AQMSTATUS\nstep 1\nshow 1 AQMSTATUS\nstep 1\nshow 1 RQMSTATUS\nstep 1\nshow 1 RQMSTATUS\nstep 1\nshow 1 RQMSTATUS→started 1\nran 1 main,s,1 AddQueueMember -> ready main,s,2\nAQMSTATUS=ADDED\nran 1 main,s,2 AddQueueMember -> ready main,s,3\nAQMSTATUS=MEMBERALREADY\nran 1 main,s,3 AddQueueMember -> ready main,s,4\nAQMSTATUS=NOSUCHQUEUE\nran 1 main,s,4 RemoveQueueMember -> ready main,s,5\nRQMSTATUS=NOTDYNAMIC\nran 1 main,s,5 RemoveQueueMember -> ready main,s,6\nRQMSTATUS=REMOVED\nran 1 main,s,6 RemoveQueueMember -> ready main,s,7\nRQMSTATUS=NOTINQUEUE\nstatus 0
# pause-member
exten => w,1,Queue(q1)\nexten => s,1,PauseQueueMember(,Line/7)\nexten => s,2,PauseQueueMember(,Line/8)\nexten => s,3,UnpauseQueueMember(q1,Line/7)¦[q1]\nmember => Line/7\n[q2]\nmember => Line/7¦start main w\nstart main s\nstep 1\nstep 2\nshow 2 PQMSTATUS\nstep 2\nshow 2 PQMSTATUS\noffer q1\nstep 2\nshow 2 UPQMSTATUS\noffer q1→started 1\nstarted 2\nran 1 main,w,1 Queue -> queued q1\nran 2 main,s,1 PauseQueueMember -> ready main,s,2\nPQMSTATUS=PAUSED\nran 2 main,s,2 PauseQueueMember -> ready main,s,3\nPQMSTATUS=NOTFOUND\nrefused 46 NoMember\nran 2 main,s,3 UnpauseQueueMember -> ready main,s,4\nUPQMSTATUS=UNPAUSED\noffered 1 1\nstatus 1
# ringall-answer
exten => s,1,Queue(q,c)\nexten => s,2,NoOp()¦[q]\nmember => Line/1\nmember => Line/2¦start main s\nstep 1\noffer q\nanswer Line/1\nanswer Line/2\ndone Line/1\nshow 1 QUEUESTATUS\nstep 1→started 1\nran 1 main,s,1 Queue -> queued q\noffered 1 2\nok\nrefused 47 NotRinging\nok\nQUEUESTATUS=CONTINUE\nran 1 main,s,2 NoOp -> ready main,s,3\nstatus 1
# break-and-way-out
exten => s,1,Queue(q)\n[out]\nexten => 5,1,NoOp()¦[q]\ncontext=out¦start main s\nstep 1\ndigit 1 6\ndigit 1 5\nshow 1 QUEUESTATUS→started 1\nran 1 main,s,1 Queue -> queued q\nok 1 -> queued q\nok 1 -> ready out,5,1\nQUEUESTATUS=\nstatus 0
# refusals
exten => s,1,Queue(q)¦[q]¦step 1\nstart main s\ndigit 1 5\ndigit 1 x\noffer z\noffer q\nstep 1\nstep 1\ntimeout 1\noffer q\nanswer Line/1\ndone Line/1\nhangup 1\nstep 1→refused 40 NoChannel\nstarted 1\nrefused 42 NotWaiting\nrefused 51 BadDigit\nrefused 44 NoQueue\nrefused 45 NobodyWaiting\nran 1 main,s,1 Queue -> queued q\nrefused 41 NotReady\nrefused 43 NoTimer\nrefused 46 NoMember\nrefused 47 NotRinging\nrefused 48 NotTalking\nok 1 -> ended\nrefused 49 Ended\nstatus 1
# queue-time-outs
exten => s,1,Queue(q,,,,30)¦[q]¦start main s\nstep 1\ntimeout 1\nshow 1 QUEUESTATUS→started 1\nran 1 main,s,1 Queue -> queued q\nok 1 -> ready main,s,2\nQUEUESTATUS=TIMEOUT\nstatus 0
exten => s,1,Queue(q)¦[q]\nleavewhenempty=yes¦start main s\nstep 1\npoll 1\nshow 1 QUEUESTATUS→started 1\nran 1 main,s,1 Queue -> queued q\nok 1 -> ready main,s,2\nQUEUESTATUS=LEAVEEMPTY\nstatus 0
# invalid-and-hang-up
exten => s,1,WaitExten()\nexten => i,1,NoOp()\nexten => h,1,NoOp()¦¦start main s\nstep 1\ndigit 1 7\nstep 1\nshow 1 INVALID_EXTEN\nhangup 1\nstep 1 2→started 1\nran 1 main,s,1 WaitExten -> digits\nok 1 -> ready main,7,1\ninvalid 1 -> ready main,i,1\nINVALID_EXTEN=7\nok 1 -> ready main,h,1\nran 1 main,h,1 NoOp -> ready main,h,2\nno entry 1 -> ended\nstatus 0
# pause-and-background
exten => s,1,Wait(5)\nexten => s,2,Background(x)\nexten => h,1,Wait(1)¦¦start main s\nstep 1\ndigit 1 3\ntimeout 1\nstep 1\ntimeout 1\nhangup 1\nstep 1→started 1\nran 1 main,s,1 Wait -> pause\nok 1 -> pause\nok 1 -> ready main,s,2\nran 1 main,s,2 Background -> digits\nok 1 -> ready main,s,3\nok 1 -> ready main,h,1\nran 1 main,h,1 Wait -> ended\nstatus 0
# reload
exten => 100,1,NoOp(a)\nexten => 100,2,NoOp(b)\n[globals]\nX=1\nY=5¦¦start main 100\nstep 1\nreload\nshow 1 X\nshow 1 Y\nstep 1¦[globals]\nX=${X}2\n[main]\nexten => _1XX,2,Hangup()→started 1\nran 1 main,100,1 NoOp -> ready main,100,2\nok\nX=12\nY=5\nran 1 main,_1XX,2 Hangup -> ended\nstatus 0
exten => 100,1,NoOp(a)\nexten => 100,2,NoOp(b)\n[globals]\nX=1\nY=5¦¦start main 100\nstep 1\nreload\nshow 1 X\nshow 1 Y\nstep 1¦[main→started 1\nran 1 main,100,1 NoOp -> ready main,100,2\nrefused 52 BadPlan\nX=1\nY=5\nran 1 main,100,2 NoOp -> ready main,100,3\nstatus 1
# dial
exten => s,1,Dial(Line/5,20)\nexten => s,2,NoOp()\nexten => h,1,Dial(Line/6)¦¦start main s\nstep 1\nresult 1 BUSY\nshow 1 DIALSTATUS\nresult 1 BUSY→started 1\nran 1 main,s,1 Dial -> dialling\nok 1 -> ready main,s,2\nDIALSTATUS=BUSY\nrefused 53 NotDialling\nstatus 1
exten => s,1,Dial(Line/5,20)\nexten => s,2,NoOp()\nexten => h,1,Dial(Line/6)¦¦start main s\nstep 1\nresult 1 ANSWER\nshow 1 DIALSTATUS\nresult 1 BUSY→started 1\nran 1 main,s,1 Dial -> dialling\nok 1 -> ready main,h,1\nDIALSTATUS=ANSWER\nrefused 53 NotDialling\nstatus 1
exten => s,1,Dial(Line/5,20)\nexten => s,2,NoOp()\nexten => h,1,Dial(Line/6)¦¦start main s\nstep 1\nhangup 1\nshow 1 DIALSTATUS\nresult 1 BUSY\nstep 1→started 1\nran 1 main,s,1 Dial -> dialling\nok 1 -> ready main,h,1\nDIALSTATUS=CANCEL\nrefused 53 NotDialling\nran 1 main,h,1 Dial -> ended\nstatus 1
exten => s,1,Dial(Line/5,20)\nexten => s,2,NoOp()\nexten => h,1,Dial(Line/6)¦¦start main s\nstep 1\ntimeout 1\nshow 1 DIALSTATUS\nresult 1 BUSY→started 1\nran 1 main,s,1 Dial -> dialling\nok 1 -> ready main,s,2\nDIALSTATUS=NOANSWER\nrefused 53 NotDialling\nstatus 1
exten => s,1,Dial(Line/5,20)\nexten => s,2,NoOp()\nexten => h,1,Dial(Line/6)¦¦start main s\nstep 1\ndigit 1 5\nshow 1 DIALSTATUS\nresult 1 BUSY→started 1\nran 1 main,s,1 Dial -> dialling\nok 1 -> dialling\nDIALSTATUS=\nok 1 -> ready main,s,2\nstatus 0
exten => s,1,Dial(Line/5)\nexten => s,2,NoOp()\nexten => h,1,Dial(Line/6)¦¦start main s\nstep 1\ntimeout 1→started 1\nran 1 main,s,1 Dial -> dialling\nrefused 43 NoTimer\nstatus 1
exten => s,1,Dial(Line/5,,g)\nexten => s,2,NoOp()\nexten => h,1,Dial(Line/6)¦¦start main s\nstep 1\nresult 1 ANSWER\nshow 1 DIALSTATUS→started 1\nran 1 main,s,1 Dial -> dialling\nok 1 -> ready main,s,2\nDIALSTATUS=ANSWER\nstatus 0
exten => s,1,Dial()\nexten => s,2,NoOp()\nexten => h,1,Dial(Line/6)¦¦start main s\nstep 1\nshow 1 DIALSTATUS→started 1\nran 1 main,s,1 Dial -> ready main,s,2\nDIALSTATUS=CHANUNAVAIL\nstatus 0
# A menu that leads to a call queue.
exten => s,1,Background(welcome)\n same => n,WaitExten(5)\nexten => 1,1,Queue(sales,c)\n same => n,Hangup()\nexten => i,1,Goto(s,1)\nexten => t,1,Hangup()\nexten => h,1,NoOp(${QUEUESTATUS})\n¦[sales]\nstrategy = ringall\nmember => Line/1\nmember => Line/2\n¦start main s\nstep 1\ndigit 1 1\nstep 1\noffer sales\nanswer Line/1\ndone Line/1\nshow 1 QUEUESTATUS\nstep 1 2\n→started 1\nran 1 main,s,1 Background -> digits\nok 1 -> ready main,1,1\nran 1 main,1,1 Queue -> queued sales\noffered 1 2\nok\nok\nQUEUESTATUS=CONTINUE\nran 1 main,1,2 Hangup -> ready main,h,1\nran 1 main,h,1 NoOp -> ready main,h,2\nstatus 0
";

/// Digits, and where they lead.
const DIALOGUES: &str = r"
# Digits are collected while they may go on, and go where they lead when they may not, or when no more come in time.
exten => s,1,Background(menu)\nexten => 1,1,NoOp()\nexten => 12,1,NoOp()¦¦start main s\nstep 1\ndigit 1 1\ndigit 1 2\nstep 1→started 1\nran 1 main,s,1 Background -> digits\nok 1 -> digits\nok 1 -> ready main,12,1\nran 1 main,12,1 NoOp -> ready main,12,2\nstatus 0
exten => s,1,Background(menu)\nexten => 1,1,NoOp()\nexten => 12,1,NoOp()¦¦start main s\nstep 1\ndigit 1 1\ntimeout 1→started 1\nran 1 main,s,1 Background -> digits\nok 1 -> digits\nok 1 -> ready main,1,1\nstatus 0
# If the name that goes on has no priority 1, it does not count.
exten => s,1,Background(menu)\nexten => 1,1,NoOp()\nexten => 12,2,NoOp()¦¦start main s\nstep 1\ndigit 1 1→started 1\nran 1 main,s,1 Background -> digits\nok 1 -> ready main,1,1\nstatus 0
# An included context counts.
exten => s,1,WaitExten()\ninclude => more\n[more]\nexten => _5X,1,NoOp()¦¦start main s\nstep 1\ndigit 1 5\ndigit 1 *→started 1\nran 1 main,s,1 WaitExten -> digits\nok 1 -> digits\nok 1 -> ready main,5*,1\nstatus 0
# All digits of a telephone.
exten => s,1,WaitExten()\nexten => _[0-9A-D*#].,1,NoOp()¦¦start main s\nstep 1\ndigit 1 0\ndigit 1 9\ndigit 1 *\ndigit 1 #\ndigit 1 A\ndigit 1 D\ntimeout 1→started 1\nran 1 main,s,1 WaitExten -> digits\nok 1 -> digits\nok 1 -> digits\nok 1 -> digits\nok 1 -> digits\nok 1 -> digits\nok 1 -> digits\nok 1 -> ready main,09*#AD,1\nstatus 0
exten => s,1,WaitExten()¦¦start main s\nstep 1\ndigit 1 E\ndigit 1 a\ndigit 1 +\ndigit 1 -\ndigit 1 /→started 1\nran 1 main,s,1 WaitExten -> digits\nrefused 51 BadDigit\nrefused 51 BadDigit\nrefused 51 BadDigit\nrefused 51 BadDigit\nrefused 51 BadDigit\nstatus 1
# Without a digit in time `Background` goes on, and `WaitExten` if the next priority is found, else to `t`.
exten => s,1,Background(menu)\nexten => t,1,NoOp()¦¦start main s\nstep 1\ntimeout 1\nstep 1→started 1\nran 1 main,s,1 Background -> digits\nok 1 -> ready main,s,2\nno entry 1 -> ended\nstatus 0
exten => s,1,WaitExten(5)\nexten => s,2,NoOp()\nexten => t,1,NoOp()¦¦start main s\nstep 1\ntimeout 1→started 1\nran 1 main,s,1 WaitExten -> digits\nok 1 -> ready main,s,2\nstatus 0
exten => s,1,WaitExten(5)\nexten => t,1,NoOp()¦¦start main s\nstep 1\ntimeout 1→started 1\nran 1 main,s,1 WaitExten -> digits\nok 1 -> ready main,t,1\nstatus 0
exten => s,1,WaitExten(5)\ninclude => more\n[more]\nexten => _[a-z],1,NoOp()¦¦start main 5\nstart main s\nstep 2\ntimeout 2\nstep 2→started 1\nstarted 2\nran 2 main,s,1 WaitExten -> digits\nok 2 -> ready main,t,1\nran 2 more,_[abcdefghijklmnopqrstuvwxyz],1 NoOp -> ready main,t,2\nstatus 0
exten => s,1,WaitExten(5)¦¦start main s\nstep 1\ntimeout 1→started 1\nran 1 main,s,1 WaitExten -> digits\nok 1 -> ended\nstatus 0
exten => s,1,WaitExten(5)\nexten => h,1,NoOp()¦¦start main s\nstep 1\ntimeout 1→started 1\nran 1 main,s,1 WaitExten -> digits\nok 1 -> ready main,h,1\nstatus 0
# An extension that does not exist leads to `i`, but one that only lacks the priority does not.
exten => i,1,Goto(s,1)\nexten => s,1,NoOp()¦¦start main 9\nstep 1 2\nshow 1 INVALID_EXTEN→started 1\ninvalid 1 -> ready main,i,1\nran 1 main,i,1 Goto -> ready main,s,1\nINVALID_EXTEN=9\nstatus 0
exten => i,1,NoOp()\nexten => 5,1,Goto(5,3)¦¦start main 5\nstep 1 2→started 1\nran 1 main,5,1 Goto -> ready main,5,3\nno entry 1 -> ended\nstatus 0
exten => i,2,NoOp()¦¦start main 9\nstep 1→started 1\nno entry 1 -> ended\nstatus 0
exten => s,1,NoOp()\n[other]\nexten => i,1,NoOp()¦¦start main 9\nstep 1→started 1\nno entry 1 -> ended\nstatus 0
# What was dialled is set by the rule for setting: here in the local of the frame.
exten => s,1,Gosub(f,s,1)\n[f]\nexten => s,1,Set(LOCAL(INVALID_EXTEN)=x)\nexten => s,2,Goto(9,1)\nexten => i,1,NoOp()\nexten => i,2,StackPop()¦¦start main s\nstep 1 4\nshow 1 INVALID_EXTEN\nstep 1 2\nshow 1 INVALID_EXTEN→started 1\nran 1 main,s,1 Gosub -> ready f,s,1\nran 1 f,s,1 Set -> ready f,s,2\nran 1 f,s,2 Goto -> ready f,9,1\ninvalid 1 -> ready f,i,1\nINVALID_EXTEN=9\nran 1 f,i,1 NoOp -> ready f,i,2\nran 1 f,i,2 StackPop -> ready f,i,3\nINVALID_EXTEN=\nstatus 0
# Events that a channel does not wait for.
exten => s,1,Wait(1)\nexten => s,2,WaitExten()¦¦start main s\ntimeout 1\npoll 1\nstep 1\nstep 1\npoll 1\ntimeout 1\nstep 1\npoll 1\nstep 1→started 1\nrefused 42 NotWaiting\nrefused 42 NotWaiting\nran 1 main,s,1 Wait -> pause\nrefused 41 NotReady\nrefused 42 NotWaiting\nok 1 -> ready main,s,2\nran 1 main,s,2 WaitExten -> digits\nrefused 42 NotWaiting\nrefused 41 NotReady\nstatus 1
# Channels that do not exist, or are over.
exten => s,1,Hangup()¦¦digit 1 x\ntimeout 1\npoll 1\nhangup 1\nstart main s\nstep 1\ndigit 1 x\ntimeout 1\npoll 1\nhangup 1→refused 40 NoChannel\nrefused 40 NoChannel\nrefused 40 NoChannel\nrefused 40 NoChannel\nstarted 1\nran 1 main,s,1 Hangup -> ended\nrefused 49 Ended\nrefused 49 Ended\nrefused 49 Ended\nrefused 49 Ended\nstatus 1
";

/// How calls end.
const ENDS: &str = r"
# A hang-up runs `h` once, in the context where the channel then is.
exten => s,1,NoOp()\nexten => h,1,NoOp()¦¦start main s\nhangup 1\nhangup 1\nhangup 1→started 1\nok 1 -> ready main,h,1\nok 1 -> ended\nrefused 49 Ended\nstatus 1
exten => s,1,Goto(out,s,1)\nexten => h,1,NoOp()\n[out]\nexten => s,1,NoOp()¦¦start main s\nstep 1\nhangup 1→started 1\nran 1 main,s,1 Goto -> ready out,s,1\nok 1 -> ended\nstatus 0
exten => s,1,NoOp()\ninclude => more\n[more]\nexten => _[a-z],1,NoOp()¦¦start main s\nhangup 1\nstep 1→started 1\nok 1 -> ready main,h,1\nran 1 more,_[abcdefghijklmnopqrstuvwxyz],1 NoOp -> ready main,h,2\nstatus 0
exten => s,1,NoOp()\nexten => h,2,NoOp()¦¦start main s\nhangup 1→started 1\nok 1 -> ended\nstatus 0
# So do the end of a call by an application, a name that is not an application, and a place with no entry.
exten => s,1,Hangup()\nexten => h,1,NoOp()¦¦start main s\nstep 1 3→started 1\nran 1 main,s,1 Hangup -> ready main,h,1\nran 1 main,h,1 NoOp -> ready main,h,2\nno entry 1 -> ended\nstatus 0
exten => s,1,Macro(x)\nexten => h,1,Hangup()¦¦start main s\nstep 1 2→started 1\nran 1 main,s,1 Macro -> ready main,h,1\nran 1 main,h,1 Hangup -> ended\nstatus 0
exten => s,1,Goto(x)\nexten => h,1,NoOp()¦¦start main s\nstep 1→started 1\nran 1 main,s,1 Goto -> ready main,h,1\nstatus 0
exten => h,1,NoOp()¦¦start main s\nstep 1→started 1\nno entry 1 -> ready main,h,1\nstatus 0
# `h` may go anywhere, but waits for nothing, and a second hang-up is the end.
exten => h,1,Goto(s,1)\nexten => s,1,NoOp()\nexten => s,2,Background(x)¦¦start main 5\nhangup 1\nstep 1 3→started 1\nok 1 -> ready main,h,1\nran 1 main,h,1 Goto -> ready main,s,1\nran 1 main,s,1 NoOp -> ready main,s,2\nran 1 main,s,2 Background -> ended\nstatus 0
exten => h,1,Queue(q)¦[q]¦start main s\nhangup 1\nstep 1\nshow 1 QUEUESTATUS→started 1\nok 1 -> ready main,h,1\nran 1 main,h,1 Queue -> ended\nQUEUESTATUS=\nstatus 0
exten => h,1,Queue(none)\nexten => h,2,Queue(q)\nexten => h,3,NoOp()¦[q]\njoinempty=no¦start main s\nhangup 1\nstep 1\nshow 1 QUEUESTATUS\nstep 1\nshow 1 QUEUESTATUS→started 1\nok 1 -> ready main,h,1\nran 1 main,h,1 Queue -> ready main,h,2\nQUEUESTATUS=UNKNOWN\nran 1 main,h,2 Queue -> ready main,h,3\nQUEUESTATUS=JOINEMPTY\nstatus 0
# The frames are gone after a hang-up, and with them their locals; variables stay.
exten => s,1,Gosub(f,s,1(x))\nexten => s,2,NoOp()\n[f]\nexten => s,1,Set(V=1)\nexten => s,2,NoOp()\nexten => h,1,Return()¦¦start main s\nstep 1 2\nshow 1 ARG1\nhangup 1\nshow 1 ARG1\nshow 1 V\nstep 1→started 1\nran 1 main,s,1 Gosub -> ready f,s,1\nran 1 f,s,1 Set -> ready f,s,2\nARG1=x\nok 1 -> ready f,h,1\nARG1=\nV=1\nran 1 f,h,1 Return -> ended\nstatus 0
# In each phase.
exten => s,1,Wait(1)¦¦start main s\nstep 1\nhangup 1→started 1\nran 1 main,s,1 Wait -> pause\nok 1 -> ended\nstatus 0
exten => s,1,WaitExten()\nexten => h,1,NoOp()¦¦start main s\nstep 1\nhangup 1→started 1\nran 1 main,s,1 WaitExten -> digits\nok 1 -> ready main,h,1\nstatus 0
exten => s,1,Queue(q)\nexten => h,1,NoOp()¦[q]¦start main s\nstep 1\nhangup 1\nstart main s\noffer q→started 1\nran 1 main,s,1 Queue -> queued q\nok 1 -> ready main,h,1\nstarted 2\nrefused 45 NobodyWaiting\nstatus 1
";

/// Calls in queues.
const QUEUES: &str = r"
# A call that hangs up while it rings leaves its agents idle, and the next is offered.
exten => s,1,Queue(q)¦[q]\nmember => A¦start main s\nstart main s\nstep 1\nstep 2\noffer q\noffer q\nhangup 1\nanswer A\noffer q\nanswer A→started 1\nstarted 2\nran 1 main,s,1 Queue -> queued q\nran 2 main,s,1 Queue -> queued q\noffered 1 1\nrefused 46 NoMember\nok 1 -> ended\nrefused 47 NotRinging\noffered 2 1\nok\nstatus 1
# An agent that declines is idle, and is rung again.
exten => s,1,Queue(q)¦[q]\nmember => A¦start main s\nstep 1\noffer q\ndecline A\ndecline A\noffer q\nanswer A\ndecline A→started 1\nran 1 main,s,1 Queue -> queued q\noffered 1 1\nok\nrefused 47 NotRinging\noffered 1 1\nok\nrefused 47 NotRinging\nstatus 1
# After its agent is done a call ends, or goes on with the option `c`.
exten => s,1,Queue(q)\nexten => h,1,NoOp()¦[q]\nmember => A¦start main s\nstep 1\noffer q\nanswer A\nstep 1\ntimeout 1\npoll 1\ndigit 1 5\ndone A\ndone A\nstep 1→started 1\nran 1 main,s,1 Queue -> queued q\noffered 1 1\nok\nrefused 41 NotReady\nrefused 42 NotWaiting\nrefused 42 NotWaiting\nrefused 42 NotWaiting\nok\nrefused 48 NotTalking\nran 1 main,h,1 NoOp -> ready main,h,2\nstatus 1
exten => s,1,Queue(q,tc)\nexten => s,2,NoOp()¦[q]\nmember => A¦start main s\nstep 1\noffer q\nanswer A\ndone A\nstep 1→started 1\nran 1 main,s,1 Queue -> queued q\noffered 1 1\nok\nok\nran 1 main,s,2 NoOp -> ready main,s,3\nstatus 0
exten => s,1,Queue(q,C)\nexten => s,2,NoOp()¦[q]\nmember => A¦start main s\nstep 1\noffer q\nanswer A\ndone A\nstep 1→started 1\nran 1 main,s,1 Queue -> queued q\noffered 1 1\nok\nok\nrefused 49 Ended\nstatus 1
exten => s,1,Queue(q,x(c))\nexten => s,2,NoOp()¦[q]\nmember => A¦start main s\nstep 1\noffer q\nanswer A\ndone A\nstep 1→started 1\nran 1 main,s,1 Queue -> queued q\noffered 1 1\nok\nok\nrefused 49 Ended\nstatus 1
# A talk that the caller ends is a finished call, so the agent with fewer is then chosen.
exten => s,1,Queue(q)¦[q]\nstrategy=fewestcalls\nmember => A\nmember => B¦start main s\nstart main s\nstep 1\nstep 2\noffer q\nanswer A\nhangup 1\ndone A\noffer q\nanswer A\nanswer B→started 1\nstarted 2\nran 1 main,s,1 Queue -> queued q\nran 2 main,s,1 Queue -> queued q\noffered 1 1\nok\nok 1 -> ended\nrefused 48 NotTalking\noffered 2 1\nrefused 47 NotRinging\nok\nstatus 1
# A way out through an included context, and its agents are idle.
exten => s,1,Queue(q)\n[out]\ninclude => more\n[more]\nexten => 5,1,NoOp()¦[q]\ncontext=out\nmember => A¦start main s\nstep 1\noffer q\ndigit 1 5\nanswer A\nstep 1→started 1\nran 1 main,s,1 Queue -> queued q\noffered 1 1\nok 1 -> ready out,5,1\nrefused 47 NotRinging\nran 1 more,5,1 NoOp -> ready out,5,2\nstatus 1
exten => s,1,Queue(q)\nexten => 5,1,NoOp()¦[q]¦start main s\nstep 1\ndigit 1 5→started 1\nran 1 main,s,1 Queue -> queued q\nok 1 -> queued q\nstatus 0
# Queues are named in any case, and printed as their section writes them.
exten => s,1,Queue(SALES)¦[Sales]\nmember => A¦start main s\nstep 1\noffer sAles\nanswer a\nanswer A\nstep 1→started 1\nran 1 main,s,1 Queue -> queued Sales\noffered 1 1\nrefused 47 NotRinging\nok\nrefused 41 NotReady\nstatus 1
# An agent of two queues rings once.
exten => s,1,Queue(a)\nexten => 2,1,Queue(b)¦[a]\nmember => A\n[b]\nmember => A¦start main s\nstart main 2\nstep 1\nstep 2\noffer a\noffer b\nanswer A\noffer b\ndone A\noffer b→started 1\nstarted 2\nran 1 main,s,1 Queue -> queued a\nran 2 main,2,1 Queue -> queued b\noffered 1 1\nrefused 46 NoMember\nok\nrefused 46 NoMember\nok\noffered 2 1\nstatus 1
# A member that is removed and added again during its talk.
exten => s,1,Queue(q)\nexten => m,1,RemoveQueueMember(q,A)\nexten => m,2,AddQueueMember(q,A)\nexten => m,3,NoOp()\nexten => b,1,AddQueueMember(q,A)¦[q]\nstrategy=fewestcalls¦start main b\nstart main s\nstart main m\nstep 1\nstep 2\noffer q\nanswer A\nstep 3 2\ndone A\nshow 3 RQMSTATUS\nshow 3 AQMSTATUS→started 1\nstarted 2\nstarted 3\nran 1 main,b,1 AddQueueMember -> ready main,b,2\nran 2 main,s,1 Queue -> queued q\noffered 2 1\nok\nran 3 main,m,1 RemoveQueueMember -> ready main,m,2\nran 3 main,m,2 AddQueueMember -> ready main,m,3\nok\nRQMSTATUS=REMOVED\nAQMSTATUS=ADDED\nstatus 0
# The channel itself as a member.
exten => s,1,AddQueueMember(q)\nexten => s,2,RemoveQueueMember(q)\nexten => w,1,Queue(q)¦[q]¦start main s\nstart main w\nstep 1\nstep 2\noffer q\nanswer Channel/1\nstep 1\nshow 1 RQMSTATUS→started 1\nstarted 2\nran 1 main,s,1 AddQueueMember -> ready main,s,2\nran 2 main,w,1 Queue -> queued q\noffered 2 1\nok\nran 1 main,s,2 RemoveQueueMember -> ready main,s,3\nRQMSTATUS=REMOVED\nstatus 0
# Too empty to join, or to stay.
exten => s,1,Queue(q)¦[q]\njoinempty=loose¦start main s\nstep 1\nshow 1 QUEUESTATUS→started 1\nran 1 main,s,1 Queue -> ready main,s,2\nQUEUESTATUS=JOINEMPTY\nstatus 0
exten => s,1,Queue(q)\nexten => p,1,PauseQueueMember(q,A)¦[q]\njoinempty=strict\nleavewhenempty=strict\nmember => A¦start main s\nstart main p\nstep 1\npoll 1\nstep 2\npoll 1\nshow 1 QUEUESTATUS→started 1\nstarted 2\nran 1 main,s,1 Queue -> queued q\nok 1 -> queued q\nran 2 main,p,1 PauseQueueMember -> ready main,p,2\nok 1 -> ready main,s,2\nQUEUESTATUS=LEAVEEMPTY\nstatus 0
exten => s,1,Queue(q)\nexten => p,1,PauseQueueMember(q,A)¦[q]\nleavewhenempty=loose\nmember => A¦start main s\nstart main p\nstep 1\nstep 2\npoll 1→started 1\nstarted 2\nran 1 main,s,1 Queue -> queued q\nran 2 main,p,1 PauseQueueMember -> ready main,p,2\nok 1 -> queued q\nstatus 0
# How many wait.
exten => s,1,Queue(q)\nexten => n,1,Set(N=${QUEUE_WAITING_COUNT(Q)}${QUEUE_WAITING_COUNT(x)})¦[q]¦start main s\nstart main s\nstart main n\nstep 1\nstep 2\nstep 3\nshow 3 N→started 1\nstarted 2\nstarted 3\nran 1 main,s,1 Queue -> queued q\nran 2 main,s,1 Queue -> queued q\nran 3 main,n,1 Set -> ready main,n,2\nN=20\nstatus 0
";

/// Reloads.
const RELOADS: &str = r"
# A count of a queue is of the calls that wait at the event, and there is no channel.
exten => s,1,Queue(q)¦[q]¦start main s\nreload\nshow 1 N\nstep 1\nreload\nshow 1 N¦[globals]\nN=${QUEUE_WAITING_COUNT(q)}<${EXTEN}>\n[main]\nexten => s,1,Queue(q)→started 1\nok\nN=0<>\nran 1 main,s,1 Queue -> queued q\nok\nN=1<>\nstatus 0
# Queues and agents stay, and a channel goes on in the new dialplan.
exten => s,1,Queue(q,c)¦[q]\nmember => A¦start main s\nstep 1\noffer q\nreload\nanswer A\nreload\ndone A\nstep 1¦[main]\nexten => s,2,Hangup()→started 1\nran 1 main,s,1 Queue -> queued q\noffered 1 1\nok\nok\nok\nok\nran 1 main,s,2 Hangup -> ended\nstatus 0
# A way out leads where the new dialplan says.
exten => s,1,Queue(q)¦[q]\ncontext=out¦start main s\nstep 1\ndigit 1 5\nreload\ndigit 1 5¦[out]\nexten => 5,1,NoOp()→started 1\nran 1 main,s,1 Queue -> queued q\nok 1 -> queued q\nok\nok 1 -> ready out,5,1\nstatus 0
# A call to devices stays.
exten => s,1,Dial(x,5)¦¦start main s\nstep 1\nreload\nresult 1 BUSY\nstep 1¦→started 1\nran 1 main,s,1 Dial -> dialling\nok\nok 1 -> ready main,s,2\nno entry 1 -> ended\nstatus 0
# In the files of a run the lines that separate a joined text are comments.
exten => s,1,NoOp()\n;; reload\n;; script\nexten => s,2,NoOp()¦¦start main s\n;; reload\nstep 1 2→started 1\nran 1 main,s,1 NoOp -> ready main,s,2\nran 1 main,s,2 NoOp -> ready main,s,3\nstatus 0
exten => s,1,NoOp()¦¦reload\nstart main s\nstep 1¦[main]\n;; script\nexten => s,1,Hangup()→ok\nstarted 1\nran 1 main,s,1 Hangup -> ended\nstatus 0
# The text of the second dialplan is read only at the event.
exten => s,1,NoOp()¦¦start main s\nstep 1¦[main→started 1\nran 1 main,s,1 NoOp -> ready main,s,2\nstatus 0
exten => s,1,NoOp()¦¦reload\nreload¦[main]\nexten => s,0,A→refused 52 BadPlan\nrefused 52 BadPlan\nstatus 1
";

/// Faults of the three texts, the dialplan's first, then the queues', then the script's.
const FAULTS: &str = r"
exten => s,0,A¦[q]\nstrategy=best¦jump→fault 20 BadPriority line 2
exten => s,1,A¦[q]\nstrategy=best¦jump→fault 30 BadStrategy line 2
exten => s,1,A¦[q]\nmaxlen=x¦→fault 31 BadNumber line 2
exten => s,1,A¦[q]\nstrategy=random¦→fault 32 LeftOut line 2
exten => s,1,A¦[q]\n[Q]¦→fault 33 DoubleQueue line 2
exten => s,1,A¦a=1¦jump→fault 2 NoSection line 1
exten => s,1,A¦[q]¦jump→fault 70 BadScript line 1
exten => s,0,A¦[q]\nstrategy=best¦reload→fault 20 BadPriority line 2
exten => s,1,A¦[q]\nstrategy=best¦reload→fault 30 BadStrategy line 2
exten => s,1,A¦[q]¦start main s\nreload→fault 70 BadScript line 2
exten => s,1,A¦[q]¦start main s\nreload x¦[main]→fault 70 BadScript line 2
exten => s,1,A¦¦jump¦[main→fault 70 BadScript line 1
exten => s,1,A¦¦result 1 CANCEL→fault 70 BadScript line 1
exten => s,1,A¦¦result 1 busy→fault 70 BadScript line 1
exten => s,1,A¦¦digit 1→fault 70 BadScript line 1
exten => s,1,A¦¦digit 1 55→fault 70 BadScript line 1
exten => s,1,A¦¦timeout→fault 70 BadScript line 1
exten => s,1,A¦¦poll 1 1→fault 70 BadScript line 1
exten => s,1,A¦¦hangup x→fault 70 BadScript line 1
exten => s,1,A¦¦offer→fault 70 BadScript line 1
exten => s,1,A¦¦answer A B→fault 70 BadScript line 1
exten => s,1,A¦¦Done A→fault 70 BadScript line 1
";

const TABLES: &[&str] = &[ROWS, DIALOGUES, ENDS, QUEUES, RELOADS, FAULTS, PAGES];

/// The whole output of a run of these texts, followed by its result.
fn answer_to(alloc: Global, texts: &RunTextsOf) -> Result<String, NoMemory> {
    let mut writer = make_sink(alloc, 4096, None);
    let ended = run_script(alloc, texts.lend(), &mut writer);
    outcome_text(alloc, ended, writer)
}

/// The same for the texts of a case.
pub(super) fn answer_of(
    alloc: Global,
    plan: &str,
    queues: &str,
    script: &str,
) -> Result<String, NoMemory> {
    let texts = read_texts(alloc, plan, queues, script)?;
    answer_to(alloc, &texts)
}

/// The output and result of the run of a case.
struct CallRun;

impl Question for CallRun {
    fn answer(alloc: Global, asked: &str) -> Result<String, Fail> {
        let (plan, rest) = asked.split_once('¦').ok_or("no queues")?;
        let (queues, script) = rest.split_once('¦').ok_or("no script")?;
        let answer = answer_of(alloc, plan, queues, script)?;
        Ok(answer)
    }
}

/// Calls with digits, queues and agents, from their starts to their ends.
#[test]
fn calls_run_from_start_to_end(rt: HostRuntime) -> Result<(), Fail> {
    check_all::<CallRun>(rt.alloc(), TABLES)
}
