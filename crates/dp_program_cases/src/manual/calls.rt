//! The examples of the manual's pages on applications, events and queues, in their order, in the form of `examples`.

/// The examples, like those of `examples`. The files that they name are here.
pub(super) const CALLS: &str = r##"
@ pair.conf
[main]
exten => s,1,NoOp()
@
@ values.conf
[main]
exten => s,1,Set(A=outer)
 same => n,Gosub(sub,s,1)
 same => n,Set(OLD=${CALLERID(num)})
 same => n,Set(CALLERID(num)=700)
 same => n,Set(NEW=${CALLERID(num)}, ${QUEUE_WAITING_COUNT(help)} wait)
 same => n,Queue(help)
[sub]
exten => s,1,Set(LOCAL(A)=inner)
 same => n,Return(${A}-${LOCAL(A)}-${LOCAL(B)})
@
@ help.conf
[help]
maxlen = 2
@
@ values.script
start main s 5551234
step 1 4
show 1 GOSUB_RETVAL
show 1 A
step 1 4
show 1 OLD
show 1 NEW
start main s
step 2 8
show 2 OLD
show 2 NEW
@
$ pbx run --queues help.conf values.conf values.script
started 1
ran 1 main,s,1 Set -> ready main,s,2
ran 1 main,s,2 Gosub -> ready sub,s,1
ran 1 sub,s,1 Set -> ready sub,s,2
ran 1 sub,s,2 Return -> ready main,s,3
GOSUB_RETVAL=inner-inner-
A=outer
ran 1 main,s,3 Set -> ready main,s,4
ran 1 main,s,4 Set -> ready main,s,5
ran 1 main,s,5 Set -> ready main,s,6
ran 1 main,s,6 Queue -> queued help
OLD=5551234
NEW=700, 0 wait
started 2
ran 2 main,s,1 Set -> ready main,s,2
ran 2 main,s,2 Gosub -> ready sub,s,1
ran 2 sub,s,1 Set -> ready sub,s,2
ran 2 sub,s,2 Return -> ready main,s,3
ran 2 main,s,3 Set -> ready main,s,4
ran 2 main,s,4 Set -> ready main,s,5
ran 2 main,s,5 Set -> ready main,s,6
ran 2 main,s,6 Queue -> queued help
OLD=
NEW=700, 1 wait
? 0
@ support.conf
[general]
persistentmembers = yes

[support]
strategy = rrmemory
maxlen = 20
joinempty = no
leavewhenempty = strict
context = out
member => Line/1
member => Line/2
member => Line/3,1
member => Line/2,5             ; a member already

[sales]
member => Line/2
member => Line/4,2,Dora
@
@ support.dialplan
[main]
exten => 1,1,Queue(support)
exten => 2,1,Queue(SALES)
@
@ support.script
start main 1
step 1
offer support
start main 2
step 2
offer sales
@
$ pbx run --queues support.conf support.dialplan support.script
started 1
ran 1 main,1,1 Queue -> queued support
offered 1 1
started 2
ran 2 main,2,1 Queue -> queued sales
offered 2 1
? 0
@ late.script
start main s
step 1 ; x
@
$ pbx run pair.conf late.script
fault 70 BadScript line 2
? 1
@ shown.conf
[globals]
N=200
M=${N}1

[main]
exten => 100,1,Goto(${N},1)
exten => 200,1,NoOp()
@
@ shown.script
start main 100
step 1 2
show 1 M
show 1 EXTEN
show 2 M
@
$ pbx run shown.conf shown.script
started 1
ran 1 main,100,1 Goto -> ready main,200,1
ran 1 main,200,1 NoOp -> ready main,200,2
M=2001
EXTEN=200
refused 40 NoChannel
? 1
@ nameless.conf
[main]
exten => s,1,Set(GLOBAL()=v)
 same => n,Set(A=<${}>)
@
@ nameless.script
start main s
step 1 2
show 1 A
@
$ pbx run nameless.conf nameless.script
started 1
ran 1 main,s,1 Set -> ready main,s,2
ran 1 main,s,2 Set -> ready main,s,3
A=<v>
? 0
@ dial.conf
[main]
exten => s,1,Dial(Line/5,20)
 same => n,NoOp(${DIALSTATUS})
exten => g,1,Dial(Line/5,20,g)
 same => n,NoOp(${DIALSTATUS})
exten => n,1,Dial()
exten => h,1,NoOp(${DIALSTATUS})
@
@ dial.script
start main s
step 1
result 1 BUSY
show 1 DIALSTATUS
start main s
step 2
result 2 NOANSWER
show 2 DIALSTATUS
start main s
step 3
result 3 CONGESTION
show 3 DIALSTATUS
start main s
step 4
result 4 CHANUNAVAIL
show 4 DIALSTATUS
start main s
step 5
result 5 ANSWER
show 5 DIALSTATUS
start main g
step 6
result 6 ANSWER
show 6 DIALSTATUS
start main n
step 7
show 7 DIALSTATUS
@
$ pbx run dial.conf dial.script
started 1
ran 1 main,s,1 Dial -> dialling
ok 1 -> ready main,s,2
DIALSTATUS=BUSY
started 2
ran 2 main,s,1 Dial -> dialling
ok 2 -> ready main,s,2
DIALSTATUS=NOANSWER
started 3
ran 3 main,s,1 Dial -> dialling
ok 3 -> ready main,s,2
DIALSTATUS=CONGESTION
started 4
ran 4 main,s,1 Dial -> dialling
ok 4 -> ready main,s,2
DIALSTATUS=CHANUNAVAIL
started 5
ran 5 main,s,1 Dial -> dialling
ok 5 -> ready main,h,1
DIALSTATUS=ANSWER
started 6
ran 6 main,g,1 Dial -> dialling
ok 6 -> ready main,g,2
DIALSTATUS=ANSWER
started 7
ran 7 main,n,1 Dial -> ready main,n,2
DIALSTATUS=CHANUNAVAIL
? 0
@ ring.conf
[main]
exten => s,1,Dial(Line/5&Line/6,20)
 same => n,NoOp()
exten => u,1,Dial(Line/5)
exten => h,1,Dial(Line/7)
@
@ ring.script
start main s
step 1
digit 1 5
timeout 1
show 1 DIALSTATUS
result 1 BUSY
start main u
step 2
timeout 2
hangup 2
show 2 DIALSTATUS
step 2
show 2 DIALSTATUS
@
$ pbx run ring.conf ring.script
started 1
ran 1 main,s,1 Dial -> dialling
ok 1 -> dialling
ok 1 -> ready main,s,2
DIALSTATUS=NOANSWER
refused 53 NotDialling
started 2
ran 2 main,u,1 Dial -> dialling
refused 43 NoTimer
ok 2 -> ready main,h,1
DIALSTATUS=CANCEL
ran 2 main,h,1 Dial -> ended
DIALSTATUS=CANCEL
? 1
@ digits.conf
[main]
exten => s,1,Background(menu)
exten => 1,1,NoOp()
exten => 12,1,NoOp()
@
@ digits.script
start main s
step 1
digit 1 1
digit 1 2
step 1
@
$ pbx run digits.conf digits.script
started 1
ran 1 main,s,1 Background -> digits
ok 1 -> digits
ok 1 -> ready main,12,1
ran 1 main,12,1 NoOp -> ready main,12,2
? 0
@ invalid.conf
[main]
exten => s,1,WaitExten()
exten => i,1,NoOp()
exten => h,1,NoOp()
@
@ invalid.script
start main s
step 1
digit 1 7
step 1
show 1 INVALID_EXTEN
hangup 1
step 1 2
@
$ pbx run invalid.conf invalid.script
started 1
ran 1 main,s,1 WaitExten -> digits
ok 1 -> ready main,7,1
invalid 1 -> ready main,i,1
INVALID_EXTEN=7
ok 1 -> ready main,h,1
ran 1 main,h,1 NoOp -> ready main,h,2
no entry 1 -> ended
? 0
@ sales.conf
[main]
exten => s,1,Queue(q,c)
exten => s,2,NoOp()
@
@ q.conf
[q]
member => Line/1
member => Line/2
@
@ sales.script
start main s
step 1
offer q
answer Line/1
answer Line/2
done Line/1
show 1 QUEUESTATUS
step 1
@
$ pbx run --queues q.conf sales.conf sales.script
started 1
ran 1 main,s,1 Queue -> queued q
offered 1 2
ok
refused 47 NotRinging
ok
QUEUESTATUS=CONTINUE
ran 1 main,s,2 NoOp -> ready main,s,3
? 1
@ ways.conf
[main]
exten => s,1,Queue(help)
 same => n,NoOp()
exten => e,1,Queue(empty)
 same => n,Queue(left)
[out]
exten => 5,1,NoOp()
@
@ ways.queues
[help]
maxlen = 1
context = out
member => Line/1
[empty]
joinempty = no
[left]
leavewhenempty = yes
@
@ ways.script
start main s
step 1
offer help
decline Line/1
poll 1
start main s
step 2
show 2 QUEUESTATUS
digit 1 6
digit 1 5
start main e
step 3
show 3 QUEUESTATUS
step 3
poll 3
show 3 QUEUESTATUS
@
$ pbx run --queues ways.queues ways.conf ways.script
started 1
ran 1 main,s,1 Queue -> queued help
offered 1 1
ok
ok 1 -> queued help
started 2
ran 2 main,s,1 Queue -> ready main,s,2
QUEUESTATUS=FULL
ok 1 -> queued help
ok 1 -> ready out,5,1
started 3
ran 3 main,e,1 Queue -> ready main,e,2
QUEUESTATUS=JOINEMPTY
ran 3 main,e,2 Queue -> queued left
ok 3 -> ready main,e,3
QUEUESTATUS=LEAVEEMPTY
? 0
@ open.conf
[globals]
HOURS=open
DESK=Line/1

[main]
exten => s,1,Background(welcome)
exten => 100,1,Queue(desk,c)
 same => n,Hangup()
@
@ desk.queues
[desk]
member => Line/1
@
@ closed.conf
[globals]
HOURS=${HOURS} and closed

[main]
exten => s,1,Background(welcome)
exten => 100,1,Playback(closed)
 same => n,Hangup()
@
@ change.script
start main 100
step 1
start main s
step 2
digit 2 1
reload
offer desk
answer Line/1
done Line/1
step 1
digit 2 0
digit 2 0
step 2 2
show 2 HOURS
show 2 DESK
@
$ pbx run --queues desk.queues --reload closed.conf open.conf change.script
started 1
ran 1 main,100,1 Queue -> queued desk
started 2
ran 2 main,s,1 Background -> digits
ok 2 -> digits
ok
offered 1 1
ok
ok
ran 1 main,100,2 Hangup -> ended
ok 2 -> digits
ok 2 -> ready main,100,1
ran 2 main,100,1 Playback -> ready main,100,2
ran 2 main,100,2 Hangup -> ended
HOURS=open and closed
DESK=Line/1
? 0
@ faulty.conf
[main]
exten => s,0,NoOp()
@
@ again.script
start main s
reload
step 1
@
$ pbx run --reload faulty.conf pair.conf again.script
started 1
refused 52 BadPlan
ran 1 main,s,1 NoOp -> ready main,s,2
? 1
$ pbx run pair.conf again.script
fault 70 BadScript line 2
? 1
@ gone.text
[main]
exten => 100,1,NoOp()
exten => 100,2,NoOp()
exten => 200,1,NoOp()
exten => 200,2,NoOp()
exten => s,1,Gosub(sub,s,1)
exten => s,2,NoOp()
[sub]
exten => s,1,Return(old)
;; reload
[main]
exten => 200,1,NoOp()
exten => i,1,NoOp()
[sub]
exten => s,1,Return(new)
;; script
start main 100
step 1
start main 200
step 2
start main s
step 3
reload
step 1
step 2
step 3 2
show 3 GOSUB_RETVAL
@
$ pbx < gone.text
started 1
ran 1 main,100,1 NoOp -> ready main,100,2
started 2
ran 2 main,200,1 NoOp -> ready main,200,2
started 3
ran 3 main,s,1 Gosub -> ready sub,s,1
ok
invalid 1 -> ready main,i,1
no entry 2 -> ended
ran 3 sub,s,1 Return -> ready main,s,2
invalid 3 -> ready main,i,1
GOSUB_RETVAL=new
? 0
$ pbx debug --queues desk.queues --reload closed.conf --break main,100,1 open.conf change.script
started 1
break 1
ran 1 main,100,1 Queue -> queued desk
started 2
ran 2 main,s,1 Background -> digits
ok 2 -> digits
ok
offered 1 1
ok
ok
ran 1 main,100,2 Hangup -> ended
ok 2 -> digits
ok 2 -> ready main,100,1
break 12
ran 2 main,100,1 Playback -> ready main,100,2
ran 2 main,100,2 Hangup -> ended
end 14
? 0
@ deep.conf
[main]
exten => s,1,NoOp(${${${${${${${${${${${${${${${${${${${${${${${${${${${${${${${${${}}}}}}}}}}}}}}}}}}}}}}}}}}}}}}}}})
@
$ pbx check deep.conf
fault 25 TooDeep line 2
? 1
@ other.conf
[main]
exten => 1,1,VoiceMail(1)
exten => 2,1,Set(A=<${IF($[1]?a:b)}>)
exten => 3,1,Gosub(sub,s,1("a,b"))
exten => 4,1,Set(A=<$["a" =~ "a"]>)
exten => 5,1,Set(A=<$[-7 / 2]>)
exten => 6,1,GotoIf(0a?9:8)
exten => 7,1,Goto(+1)
exten => 8,1,Set(EXTEN=9)
exten => h,1,Wait(1)
[sub]
exten => s,1,Return(${ARG1}|${ARG2})
@
@ other.script
start main 1
step 1 2
start main 2
step 2
show 2 A
start main 3
step 3 2
show 3 GOSUB_RETVAL
start main 4
step 4
show 4 A
start main 5
step 5
show 5 A
start main 6
step 6
start main 7
step 7
start main 8
step 8
show 8 EXTEN
start main 9
step 9
@
$ pbx run other.conf other.script
started 1
ran 1 main,1,1 VoiceMail -> ready main,h,1
ran 1 main,h,1 Wait -> ended
started 2
ran 2 main,2,1 Set -> ready main,2,2
A=<>
started 3
ran 3 main,3,1 Gosub -> ready sub,s,1
ran 3 sub,s,1 Return -> ready main,3,2
GOSUB_RETVAL="a|b"
started 4
ran 4 main,4,1 Set -> ready main,4,2
A=<>
started 5
ran 5 main,5,1 Set -> ready main,5,2
A=<-3>
started 6
ran 6 main,6,1 GotoIf -> ready main,6,9
started 7
ran 7 main,7,1 Goto -> ready main,h,1
started 8
ran 8 main,8,1 Set -> ready main,8,2
EXTEN=8
started 9
no entry 9 -> ready main,h,1
pbx: `VoiceMail` is not modelled; --asterisk models it, or stops there
pbx: `IF` is not modelled; --asterisk models it, or stops there
? 0
@ over.queues
[help]
timeout = 15
retry = 5
ringinuse = yes
autofill = no
wrapuptime = 10
member => Line/1
@
@ over.conf
[main]
exten => s,1,Queue(help)
@
@ over.script
start main s
step 1
offer help
decline Line/1
offer help
answer Line/1
start main s
step 2
offer help
@
$ pbx run --queues over.queues over.conf over.script
started 1
ran 1 main,s,1 Queue -> queued help
offered 1 1
ok
offered 1 1
ok
started 2
ran 2 main,s,1 Queue -> queued help
refused 46 NoMember
? 1
@ hint.conf
[main]
exten => 100,1,NoOp()
exten => 100,hint,Line/1
@
@ random.conf
[help]
strategy = random
@
$ pbx check hint.conf
fault 24 LeftOut line 3
? 1
$ pbx run --queues random.conf over.conf over.script
fault 32 LeftOut line 2
? 1
@ hours.conf
[main]
exten => s,1,GotoIfTime(9:00-17:00,mon-fri,*,*?day)
 same => n,VoiceMail(100)
 same => n,Hangup()
 same => n(day),Set(DESK=${DB(desk/today)})
 same => n,Dial(PJSIP/${DESK},20)
@
@ ask.script
start main s
step 1 2
clock wed 2026-11-25 10:30
step 1 2
let 1 DB(desk/today)=200
step 1 2
@
$ pbx run --asterisk hours.conf ask.script
started 1
unknown 1 CLOCK -> ready main,s,1
ok
ran 1 main,s,1 GotoIfTime -> ready main,s,4
unknown 1 DB(desk/today) -> ready main,s,4
ok 1 -> ready main,s,4
ran 1 main,s,4 Set -> ready main,s,5
ran 1 main,s,5 Dial -> dialling
? 4
@ told.script
clock sun 2026-11-29 10:30
start main s
step 1 2
let 1 VMSTATUS=SUCCESS
go 1
step 1
@
$ pbx run --asterisk hours.conf told.script
ok
started 1
ran 1 main,s,1 GotoIfTime -> ready main,s,2
ran 1 main,s,2 VoiceMail -> pause
ok 1 -> pause
ok 1 -> ready main,s,3
ran 1 main,s,3 Hangup -> ended
? 0
$ pbx debug --asterisk --break main,s,2 hours.conf told.script
ok
started 1
ran 1 main,s,1 GotoIfTime -> ready main,s,2
break 3
ran 1 main,s,2 VoiceMail -> pause
ok 1 -> pause
ok 1 -> ready main,s,3
ran 1 main,s,3 Hangup -> ended
end 7
? 0
$ pbx run --asterisk --verbose hours.conf ask.script
started 1
unknown 1 CLOCK -> ready main,s,1
ok
  hours.conf:2 GotoIfTime(9:00-17:00,mon-fri,*,*?day)
ran 1 main,s,1 GotoIfTime -> ready main,s,4
unknown 1 DB(desk/today) -> ready main,s,4
ok 1 -> ready main,s,4
  hours.conf:5 Set(DESK=200)
ran 1 main,s,4 Set -> ready main,s,5
  hours.conf:6 Dial(PJSIP/200,20)
ran 1 main,s,5 Dial -> dialling
? 4
@ branch.conf
[main]
exten => 200,1,Dial(PJSIP/200,20)
switch => IAX2/headquarters
@
@ branch.script
start main 200
step 1
@
@ assuming.script
assume Switch
start main 200
step 1
@
$ pbx run --asterisk branch.conf branch.script
branch.conf:3: note Switch
? 1
$ pbx run --asterisk branch.conf assuming.script
ok
started 1
ran 1 main,200,1 Dial -> dialling
? 0
$ pbx match --asterisk --assume Switch branch.conf main 200
main,200,1 Dial
? 0
@ desk-old.conf
[lobby]
exten => _X.,1,Goto(desk,s,1)
[desk]
exten => s,1,Dial(PJSIP/200,20)
[trunk]
exten => _00X.,1,Dial(PJSIP/carrier/${EXTEN})
@
@ desk-new.conf
[lobby]
exten => _X.,1,Goto(desk,s,1)
[desk]
exten => s,1,Background(welcome)
 same => n,WaitExten(5)
include => trunk
[trunk]
exten => _00X.,1,Dial(PJSIP/carrier/${EXTEN})
@
$ pbx diff --from lobby desk-old.conf desk-new.conf
+ reaches trunk
? 1
@ mailbox.conf
[main]
exten => 100,1,Dial(PJSIP/100,20)
 same => n,VoiceMail(100,u)
@
@ mailbox.script
start main 100
step 1
result 1 NOANSWER
step 1
@
$ pbx run mailbox.conf mailbox.script
started 1
ran 1 main,100,1 Dial -> dialling
ok 1 -> ready main,100,2
ran 1 main,100,2 VoiceMail -> ended
pbx: `VoiceMail` is not modelled; --asterisk models it, or stops there
? 0
"##;
