//! The examples of the manual on dialplans in several files, and on the dialplan of an office with its tests, in the form of `examples`.

/// The examples, like those of `examples`. The files that they name are here.
pub(super) const OFFICE: &str = r##"
@ office.conf
[closing](!)
exten => h,1,NoOp(call over)

[main](closing)
exten => 100,hint,SIP/100
exten => 100,1,Dial(SIP/100,20)
 same => n,Playback(sorry
#include evening.conf
#include holidays.conf
@
@ evening.conf
[night]
exten => s,1,Playback(closed)
 same => 0,Hangup()
@
$ pbx check --asterisk office.conf
office.conf:5: note Hint
office.conf:7: fault 23 BadApplication
evening.conf:3: fault 20 BadPriority
office.conf:9: fault 7 ReadFailed holidays.conf
3 faults
? 1
@ timed.conf
[phones]
include => open,9:00-17:00,mon-fri,*,*
include => closed
[open]
exten => 100,1,Dial(PJSIP/reception,20)
[closed]
exten => 100,1,Playback(we-are-closed)
@
$ pbx match --asterisk --clock "fri 2026-11-27 09:30" timed.conf phones 100
open,100,1 Dial
? 0
$ pbx match --asterisk --clock "sat 2026-11-28 09:30" timed.conf phones 100
closed,100,1 Playback
? 0
$ pbx match --asterisk timed.conf phones 100
timed.conf:2: fault NoClock
? 1
@ sample/office/extensions.conf
; The dialplan of a small office. The other files are next to this file.

[general]
static=yes
autofallthrough=yes

[globals]
OPERATOR=SIP/100
TRUNK=SIP/outside

; What happens when a call is over. A context that has this template begins with these lines.
[closing](!)
exten => h,1,NoOp(call over: ${DIALSTATUS})

#include phones.conf
#include incoming.conf
#include helpdesk.conf
#include outgoing.conf
@
@ sample/office/phones.conf
; The phones of the office, and what they may dial.

[phones](closing)
include => outgoing
exten => 100,hint,SIP/100
exten => 100,1,Gosub(ring,s,1(SIP/100,100))
 same => n,Hangup()
exten => 101,hint,SIP/101
exten => 101,1,Gosub(ring,s,1(SIP/101,101))
 same => n,Hangup()
exten => 200,1,Goto(helpdesk,s,1)

;-- The night switch: *28 turns it on and then off again.
    The value is kept in the database so that it survives a restart. --;
exten => *28,1,ExecIf($["${DB(office/night)}" = "1"]?Set(DB(office/night)=0):Set(DB(office/night)=1))
 same => n,Playback(office/night-${DB(office/night)})
 same => n,Hangup()

; Rings a phone for 20 seconds. ARG1: the device, ARG2: the mailbox.
[ring]
exten => s,1,Dial(${ARG1},20)
 same => n,GotoIf($["${DIALSTATUS}" = "BUSY"]?busy)
 same => n,VoiceMail(${ARG2}@office,u)
 same => n,Return()
 same => n(busy),VoiceMail(${ARG2}@office,b)
 same => n,Return()
@
@ sample/office/incoming.conf
; Calls from the outside.

[incoming](closing)
exten => 5550100,1,Answer()
 same => n,GotoIf($["${DB(office/night)}" = "1"]?night,s,1)
 same => n,GotoIfTime(*,*,25-26,dec?night,s,1)
 same => n,GotoIfTime(08:00-18:00,mon-fri,*,*?menu,s,1)
 same => n,Goto(night,s,1)

[menu](closing)
exten => s,1,Set(TRIES=0)
 same => n(ask),Background(office/welcome)
 same => n,WaitExten(5)
exten => 0,1,Gosub(ring,s,1(${OPERATOR},100))
 same => n,Hangup()
exten => 1,1,Goto(helpdesk,s,1)
exten => i,1,Playback(invalid)
 same => n,Set(TRIES=$[${TRIES} + 1])
 same => n,GotoIf($[${TRIES} < 3]?s,ask:0,1)
exten => t,1,Goto(0,1)

[night]
exten => s,1,Playback(office/closed)
 same => n,VoiceMail(100@office,u)
 same => n,Hangup()
@
@ sample/office/helpdesk.conf
; The queue of the help desk.

[helpdesk](closing)
exten => s,1,Queue(helpdesk,,,,60)
 same => n,VoiceMail(200@office,u)
 same => n,Hangup()
@
@ sample/office/outgoing.conf
; Calls to the outside: 9, and then the number.

[outgoing]
ignorepat => 9
exten => _9XXXXXX.,1,Dial(${TRUNK}/${EXTEN:1},60)
 same => n,Hangup()
@
$ pbx check --asterisk sample/office/extensions.conf
sample/office/phones.conf:5: note Hint
sample/office/phones.conf:8: note Hint
sample/office/outgoing.conf:4: note IgnorePat
ok 7 contexts 41 entries
? 0
$ pbx check --asterisk --queues sample/office/queues.conf sample/office/extensions.conf
sample/office/phones.conf:5: note Hint
sample/office/phones.conf:8: note Hint
sample/office/outgoing.conf:4: note IgnorePat
ok 7 contexts 41 entries
ok 1 queues
? 0
$ pbx match --asterisk sample/office/extensions.conf phones 95551234567
outgoing,_9XXXXXX.,1 Dial
? 0
$ pbx audit --asterisk sample/office/extensions.conf
ok 0 findings
? 0
@ sample/office/queues.conf
[helpdesk]
strategy = rrmemory
timeout = 15
member => SIP/101
member => SIP/102
@
@ office.script
clock mon 2026-11-30 09:30
assume DB
start incoming 5550100
step 1 6
digit 1 1
step 1 2
@
$ pbx run --asterisk --verbose --queues sample/office/queues.conf sample/office/extensions.conf office.script
ok
ok
started 1
  sample/office/incoming.conf:4 Answer()
ran 1 incoming,5550100,1 Answer -> ready incoming,5550100,2
  sample/office/incoming.conf:5 GotoIf(0?night,s,1)
ran 1 incoming,5550100,2 GotoIf -> ready incoming,5550100,3
  sample/office/incoming.conf:6 GotoIfTime(*,*,25-26,dec?night,s,1)
ran 1 incoming,5550100,3 GotoIfTime -> ready incoming,5550100,4
  sample/office/incoming.conf:7 GotoIfTime(08:00-18:00,mon-fri,*,*?menu,s,1)
ran 1 incoming,5550100,4 GotoIfTime -> ready menu,s,1
  sample/office/incoming.conf:11 Set(TRIES=0)
ran 1 menu,s,1 Set -> ready menu,s,2
  sample/office/incoming.conf:12 Background(office/welcome)
ran 1 menu,s,2 Background -> digits
ok 1 -> ready menu,1,1
  sample/office/incoming.conf:16 Goto(helpdesk,s,1)
ran 1 menu,1,1 Goto -> ready helpdesk,s,1
  sample/office/helpdesk.conf:4 Queue(helpdesk,,,,60)
ran 1 helpdesk,s,1 Queue -> queued helpdesk
? 0
@ sample/office/tests/hours.test
; When the office answers calls from the outside.
dialplan ../extensions.conf
queues ../queues.conf
clock mon 2026-11-30 09:30
assume DB

test a caller hears the menu in office hours
call incoming 5550100
expect 1 passed Answer
expect 1 ran Background(office/welcome)
expect 1 digits

test after hours a caller can leave a message
clock mon 2026-11-30 18:01
call incoming 5550100
expect 1 passed Playback(office/closed)
expect 1 ran VoiceMail(100@office,u)
expect not 1 passed Background

test nobody works on a holiday
clock fri 2026-12-25 09:30
call incoming 5550100
expect 1 at night,s,2

test the night switch closes the office and opens it again
call phones *28 101
expect global DB(office/night)=1
call incoming 5550100
expect 2 at night,s,2
call phones *28 101
expect global DB(office/night)=0
call incoming 5550100
expect 4 digits
@
$ pbx test sample/office/tests/hours.test
TAP version 14
1..4
ok 1 - a caller hears the menu in office hours
ok 2 - after hours a caller can leave a message
ok 3 - nobody works on a holiday
ok 4 - the night switch closes the office and opens it again
? 0
@ sample/office/tests/menu.test
; What a caller from the outside can dial.
dialplan ../extensions.conf
queues ../queues.conf
clock mon 2026-11-30 09:30
assume DB
call incoming 5550100

test 1 leads to the help desk
dial 1 1
expect 1 queued helpdesk
expect waiting helpdesk 1

test after three wrong digits a caller reaches the operator
dial 1 99
expect 1 passed Playback(invalid)
expect 1 TRIES=2
expect 1 digits
dial 1 9
expect 1 ran Dial(SIP/100,20)

test a caller who dials nothing reaches the operator
timeout 1
timeout 1
expect 1 ran Dial(SIP/100,20)
@
$ pbx test sample/office/tests/menu.test
TAP version 14
1..3
ok 1 - 1 leads to the help desk
ok 2 - after three wrong digits a caller reaches the operator
ok 3 - a caller who dials nothing reaches the operator
? 0
@ sample/office/tests/helpdesk.test
; How the help desk answers.
dialplan ../extensions.conf
queues ../queues.conf

test the second agent rings after the first declines
call phones 200
offer helpdesk
expect rings SIP/101
decline SIP/101
offer helpdesk
expect rings SIP/102
answer SIP/102
expect 1 talking helpdesk SIP/102
@
$ pbx test sample/office/tests/helpdesk.test
TAP version 14
1..1
ok 1 - the second agent rings after the first declines
? 0
@ sample/office/tests/phones.test
; Calls to the phones of the office.
dialplan ../extensions.conf

test a busy phone leads to the busy message of its mailbox
call phones 100 101
result 1 BUSY
expect 1 ran VoiceMail(100@office,b)
go 1
expect 1 passed Return
expect 1 ended

test a phone that nobody answers leads to its mailbox
call phones 101 100
expect 1 ran Dial(SIP/101,20)
result 1 NOANSWER
expect 1 ran VoiceMail(101@office,u)
expect 1 pause
@
$ pbx test sample/office/tests/phones.test
TAP version 14
1..2
ok 1 - a busy phone leads to the busy message of its mailbox
ok 2 - a phone that nobody answers leads to its mailbox
? 0
$ pbx test sample/office/tests/helpdesk.test sample/office/tests/phones.test
TAP version 14
1..3
ok 1 - the second agent rings after the first declines
ok 2 - a busy phone leads to the busy message of its mailbox
ok 3 - a phone that nobody answers leads to its mailbox
? 0
"##;
