//! The examples of the manual's pages on applications.

/// A case is the dialplan of a page, its queues and its script; then an arrow, and the output on the page.
pub(super) const PAGES: &str = r"
# Goto.
[main]\nexten => s,1,Goto(200,ask)\nexten => 200,1,NoOp()\n same => n(ask),Goto(3)\n¦¦start main s\nstep 1 3→started 1\nran 1 main,s,1 Goto -> ready main,200,2\nran 1 main,200,2 Goto -> ready main,200,3\nno entry 1 -> ended\nstatus 0
# GotoIf.
[main]\nexten => s,1,GotoIf($[${N} = 1]?a:b)\n same => n(a),NoOp()\n same => n(b),NoOp()\n¦¦start main s\nstep 1→started 1\nran 1 main,s,1 GotoIf -> ready main,s,3\nstatus 0
# Gosub.
[main]\nexten => s,1,Gosub(sub,s,1(x,y))\n same => n,NoOp(${GOSUB_RETVAL})\n[sub]\nexten => s,1,Return(${ARG2})\n¦¦start main s\nstep 1 2\nshow 1 GOSUB_RETVAL→started 1\nran 1 main,s,1 Gosub -> ready sub,s,1\nran 1 sub,s,1 Return -> ready main,s,2\nGOSUB_RETVAL=y\nstatus 0
# GosubIf.
[globals]\nN=2\n[main]\nexten => s,1,GosubIf($[${N} > 3]?big,s,1:small,s,1(${N}))\n[small]\nexten => s,1,Return(${ARG1})\n¦¦start main s\nstep 1 2\nshow 1 GOSUB_RETVAL→started 1\nran 1 main,s,1 GosubIf -> ready small,s,1\nran 1 small,s,1 Return -> ready main,s,2\nGOSUB_RETVAL=2\nstatus 0
# Return.
[main]\nexten => s,1,Gosub(sub,s,1)\n same => n,Return()\n[sub]\nexten => s,1,Return(done)\n¦¦start main s\nstep 1 2\nshow 1 GOSUB_RETVAL\nstep 1→started 1\nran 1 main,s,1 Gosub -> ready sub,s,1\nran 1 sub,s,1 Return -> ready main,s,2\nGOSUB_RETVAL=done\nran 1 main,s,2 Return -> ended\nstatus 0
# StackPop.
[main]\nexten => s,1,Gosub(sub,s,1)\n[sub]\nexten => s,1,StackPop()\n same => n,Return()\n¦¦start main s\nstep 1 3→started 1\nran 1 main,s,1 Gosub -> ready sub,s,1\nran 1 sub,s,1 StackPop -> ready sub,s,2\nran 1 sub,s,2 Return -> ended\nstatus 0
# Set.
[main]\nexten => s,1,Set( A = x=1)\n same => n,Set(GLOBAL(B)=<${A}>)\n¦¦start main s\nstep 1 2\nshow 1 A\nshow 1 B→started 1\nran 1 main,s,1 Set -> ready main,s,2\nran 1 main,s,2 Set -> ready main,s,3\nA= x=1\nB=< x=1>\nstatus 0
# Hangup.
[main]\nexten => s,1,Hangup(17)\nexten => h,1,NoOp()\n¦¦start main s\nstep 1 2→started 1\nran 1 main,s,1 Hangup -> ready main,h,1\nran 1 main,h,1 NoOp -> ready main,h,2\nstatus 0
# Answer, NoOp, Verbose, Playback.
[main]\nexten => s,1,Answer()\n same => n,Playback(welcome)\n same => n,Verbose(1,a call)\n same => n,NoOp(${EXTEN})\n¦¦start main s\nstep 1 4→started 1\nran 1 main,s,1 Answer -> ready main,s,2\nran 1 main,s,2 Playback -> ready main,s,3\nran 1 main,s,3 Verbose -> ready main,s,4\nran 1 main,s,4 NoOp -> ready main,s,5\nstatus 0
# Wait.
[main]\nexten => s,1,Wait(5)\n same => n,NoOp()\n¦¦start main s\nstep 1\ndigit 1 3\ntimeout 1→started 1\nran 1 main,s,1 Wait -> pause\nok 1 -> pause\nok 1 -> ready main,s,2\nstatus 0
# WaitExten.
[main]\nexten => s,1,WaitExten(5)\nexten => 12,1,NoOp()\nexten => t,1,NoOp()\n¦¦start main s\nstep 1\ndigit 1 1\ndigit 1 2\nstart main s\nstep 2\ntimeout 2→started 1\nran 1 main,s,1 WaitExten -> digits\nok 1 -> digits\nok 1 -> ready main,12,1\nstarted 2\nran 2 main,s,1 WaitExten -> digits\nok 2 -> ready main,t,1\nstatus 0
# Background.
[main]\nexten => s,1,Background(menu)\n same => n,Hangup()\nexten => 1,1,NoOp()\n¦¦start main s\nstep 1\ndigit 1 1\nstart main s\nstep 2\ntimeout 2→started 1\nran 1 main,s,1 Background -> digits\nok 1 -> ready main,1,1\nstarted 2\nran 2 main,s,1 Background -> digits\nok 2 -> ready main,s,2\nstatus 0
# Queue.
[main]\nexten => s,1,Queue(support,c,,,30)\n same => n,Hangup()\n¦[support]\n¦start main s\nstep 1\ntimeout 1\nshow 1 QUEUESTATUS→started 1\nran 1 main,s,1 Queue -> queued support\nok 1 -> ready main,s,2\nQUEUESTATUS=TIMEOUT\nstatus 0
# AddQueueMember.
[main]\nexten => s,1,AddQueueMember(support,Line/4,1)\n same => n,AddQueueMember(support,Line/1)\n¦[support]\nmember => Line/1\n¦start main s\nstep 1\nshow 1 AQMSTATUS\nstep 1\nshow 1 AQMSTATUS→started 1\nran 1 main,s,1 AddQueueMember -> ready main,s,2\nAQMSTATUS=ADDED\nran 1 main,s,2 AddQueueMember -> ready main,s,3\nAQMSTATUS=MEMBERALREADY\nstatus 0
# RemoveQueueMember.
[main]\nexten => s,1,RemoveQueueMember(support,Line/1)\n same => n,RemoveQueueMember(support,Line/4)\n¦[support]\nmember => Line/1\n¦start main s\nstep 1\nshow 1 RQMSTATUS\nstep 1\nshow 1 RQMSTATUS→started 1\nran 1 main,s,1 RemoveQueueMember -> ready main,s,2\nRQMSTATUS=NOTDYNAMIC\nran 1 main,s,2 RemoveQueueMember -> ready main,s,3\nRQMSTATUS=NOTINQUEUE\nstatus 0
# PauseQueueMember, UnpauseQueueMember.
[main]\nexten => s,1,PauseQueueMember(,Line/1)\n same => n,PauseQueueMember(support,Line/4)\n same => n,UnpauseQueueMember(support,Line/1)\n¦[support]\nmember => Line/1\n¦start main s\nstep 1\nshow 1 PQMSTATUS\nstep 1\nshow 1 PQMSTATUS\nstep 1\nshow 1 UPQMSTATUS→started 1\nran 1 main,s,1 PauseQueueMember -> ready main,s,2\nPQMSTATUS=PAUSED\nran 1 main,s,2 PauseQueueMember -> ready main,s,3\nPQMSTATUS=NOTFOUND\nran 1 main,s,3 UnpauseQueueMember -> ready main,s,4\nUPQMSTATUS=UNPAUSED\nstatus 0
";
