//! The examples of the documents, in their order: files, command lines, and their output.

/// A file is a line `@ NAME`, its lines, and a line `@`; a command line is a line `$ WORDS`, its whole output, and a line `? STATUS`.
pub(super) const EXAMPLES: &str = r##"
@ sample/extensions.conf
; The telephones of a small house.
[globals]
DESK=100

[phones]
exten => 100,1(desk),NoOp(the front desk)
 same => n,Hangup()
exten => _1XX,1,NoOp(a room)
 same => n,Goto(${DESK},desk)         ; nobody is in: to the front desk
exten => _NXXXXXX,1,NoOp(a call to town)
 same => n,Hangup()
include => rest

[rest]
exten => _X.,1,NoOp(no such number)
 same => n,Hangup()
@
@ sample/calls.script
; Room 123 is called, and then a number in town.
start phones 123
step 1 4
start phones 555-1234
step 2 2
@
$ pbx run sample/extensions.conf sample/calls.script
started 1
ran 1 phones,_1XX,1 NoOp -> ready phones,123,2
ran 1 phones,_1XX,2 Goto -> ready phones,100,1
ran 1 phones,100,1 NoOp -> ready phones,100,2
ran 1 phones,100,2 Hangup -> ended
started 2
ran 2 phones,_NXXXXXX,1 NoOp -> ready phones,555-1234,2
ran 2 phones,_NXXXXXX,2 Hangup -> ended
? 0
@ sample/menu.conf
; A menu that leads to an operator and to a call queue.
[main]
exten => s,1,Background(welcome)
 same => n,WaitExten(5)
exten => 0,1,Dial(Line/9,20)          ; the operator
 same => n,Goto(s,1)                  ; no answer: the menu is played once more
exten => 1,1,Queue(sales,c)
 same => n,Hangup()
exten => i,1,Goto(s,1)
exten => t,1,Hangup()
exten => h,1,NoOp(${QUEUESTATUS})
@
@ sample/queues.conf
[sales]
strategy = ringall
member => Line/1
member => Line/2
@
$ pbx match sample/menu.conf main 1 2
main,1,2 Hangup
? 0
$ pbx match sample/menu.conf main 7
none
? 0
@ sample/menu.script
start main s
step 1
digit 1 1
step 1
offer sales
answer Line/1
done Line/1
show 1 QUEUESTATUS
step 1 2
@
$ pbx run --queues sample/queues.conf sample/menu.conf sample/menu.script
started 1
ran 1 main,s,1 Background -> digits
ok 1 -> ready main,1,1
ran 1 main,1,1 Queue -> queued sales
offered 1 2
ok
ok
QUEUESTATUS=CONTINUE
ran 1 main,1,2 Hangup -> ready main,h,1
ran 1 main,h,1 NoOp -> ready main,h,2
? 0
@ sample/operator.script
; The operator misses the first call, answers the next and hangs up.
start main s
step 1
digit 1 0
step 1
timeout 1
show 1 DIALSTATUS
step 1 2
digit 1 0
step 1
result 1 ANSWER
show 1 DIALSTATUS
step 1
@
$ pbx run sample/menu.conf sample/operator.script
started 1
ran 1 main,s,1 Background -> digits
ok 1 -> ready main,0,1
ran 1 main,0,1 Dial -> dialling
ok 1 -> ready main,0,2
DIALSTATUS=NOANSWER
ran 1 main,0,2 Goto -> ready main,s,1
ran 1 main,s,1 Background -> digits
ok 1 -> ready main,0,1
ran 1 main,0,1 Dial -> dialling
ok 1 -> ready main,h,1
DIALSTATUS=ANSWER
ran 1 main,h,1 NoOp -> ready main,h,2
? 0
@ dashed.conf
[-in]
exten => s,1,NoOp()
@
@ dashed.script
start -in s
step 1
@
$ pbx match -- dashed.conf -in s
-in,s,1 NoOp
? 0
$ pbx debug --break=-in,s,1 dashed.conf dashed.script
started 1
break 1
ran 1 -in,s,1 NoOp -> ready -in,s,2
end 2
? 0
$ pbx --version
pbx 0.1.0 logic dac8208d650f15bf
? 0
$ pbx run --threads 2 --threads=3 dashed.conf dashed.script
error: the argument '--threads <N>' cannot be used multiple times

Usage: pbx run [OPTIONS] <FILE> <SCRIPT>

For more information, try '--help'.
? 2
$ pbx debug --break -in,s,1 dashed.conf dashed.script
error: unexpected argument '-i' found

  tip: to pass '-i' as a value, use '-- -i'

Usage: pbx debug [OPTIONS] --break <CONTEXT,EXTEN,PRIORITY> <FILE> <SCRIPT>

For more information, try '--help'.
? 2
$ pbx check sample/extensions.conf
ok 2 contexts 8 entries
? 0
@ usual.conf
[general]
static=yes
writeprotect=no

[globals]
TRUNK=Line/9

[main]
exten => _NXXXXXX,1,Answer()
 same => n,Playback(hello-world)
 same => n(q),Queue(support,c)
 same => n,Hangup()
include => out
@
$ pbx check usual.conf
note 13 UnknownContext
ok 1 contexts 4 entries
? 0
@ faulty.conf
[main]
exten => s,0,NoOp()
@
$ pbx check faulty.conf
fault 20 BadPriority line 2
? 1
$ pbx check --queues sample/queues.conf sample/menu.conf
ok 1 contexts 9 entries
ok 1 queues
? 0
$ pbx check --queues sample/queues.conf
ok 1 queues
? 0
$ pbx list sample/extensions.conf
[globals]
DESK => 100
[phones]
exten => 100,1(desk),NoOp(the front desk)
exten => 100,2,Hangup()
exten => _1XX,1,NoOp(a room)
exten => _1XX,2,Goto(${DESK},desk)
exten => _NXXXXXX,1,NoOp(a call to town)
exten => _NXXXXXX,2,Hangup()
include => rest
[rest]
exten => _X.,1,NoOp(no such number)
exten => _X.,2,Hangup()
? 0
$ pbx match sample/extensions.conf phones 100
phones,100,1 NoOp
? 0
$ pbx match sample/extensions.conf phones 123
phones,_1XX,1 NoOp
? 0
$ pbx match sample/extensions.conf phones 123 2
phones,_1XX,2 Goto
? 0
$ pbx match sample/extensions.conf phones 555-1234
phones,_NXXXXXX,1 NoOp
? 0
$ pbx match sample/extensions.conf phones 12345
rest,_X.,1 NoOp
? 0
$ pbx match sample/extensions.conf phones 1
none
? 0
$ pbx match --explain sample/extensions.conf phone 100
none
pbx: sample/extensions.conf has no context `phone`
  nearest: phones
  nearest: rest
? 0
$ pbx match sample/queues.conf phones 100
none
pbx: sample/queues.conf has no entry: is it a dialplan?
? 0
$ pbx match --all sample/extensions.conf phones 100
phones,100,1 NoOp
phones,100,1 NoOp: answers
phones,_1XX,1 NoOp: less specific
rest,_X.,1 NoOp: later context
? 0
$ pbx match --all sample/extensions.conf phones 100 3
none
phones,100,3: no such priority
phones,_1XX,3: no such priority
rest,_X.,3: no such priority
? 0
@ pair.conf
[main]
exten => s,1,NoOp()
@
@ pair.script
start main s
start main s
step 1
step 2
@
$ pbx run --threads 2 pair.conf pair.script
settled 2 seats 2 calls
? 0
@ swap.script
start main s
reload
step 1
@
$ pbx run --threads 2 --reload pair.conf pair.conf swap.script
settled 2 seats 2 calls
? 0
$ pbx run --threads 65 pair.conf pair.script
error: invalid value '65' for '--threads <N>': the number of threads is from 1 to 64

Usage: pbx run [OPTIONS] <FILE> <SCRIPT>

For more information, try '--help'.
? 2
$ pbx debug --break phones,123,2 sample/extensions.conf sample/calls.script
started 1
ran 1 phones,_1XX,1 NoOp -> ready phones,123,2
break 2
ran 1 phones,_1XX,2 Goto -> ready phones,100,1
ran 1 phones,100,1 NoOp -> ready phones,100,2
ran 1 phones,100,2 Hangup -> ended
started 2
ran 2 phones,_NXXXXXX,1 NoOp -> ready phones,555-1234,2
ran 2 phones,_NXXXXXX,2 Hangup -> ended
end 8
? 0
$ pbx debug --queues sample/queues.conf --break main,1,2 sample/menu.conf sample/menu.script
started 1
ran 1 main,s,1 Background -> digits
ok 1 -> ready main,1,1
ran 1 main,1,1 Queue -> queued sales
offered 1 2
ok
ok
break 7
ran 1 main,1,2 Hangup -> ready main,h,1
ran 1 main,h,1 NoOp -> ready main,h,2
end 9
? 0
$ pbx debug --break phones,123 sample/extensions.conf sample/calls.script
fault 71 BadBreak
? 1
@ house.test
dialplan sample/extensions.conf

test room 123 leads to the front desk
call phones 123
expect 1 at phones,100,2
expect 1 passed NoOp(the front desk)
expect 1 ended
@
$ pbx test house.test
TAP version 14
1..1
ok 1 - room 123 leads to the front desk
? 0
$ pbx test --trace --cover house.test
TAP version 14
1..1
# sample/extensions.conf:8 phones,_1XX,1 NoOp(a room)
# sample/extensions.conf:9 phones,_1XX,2 Goto(100,desk)
# sample/extensions.conf:6 phones,100,1 NoOp(the front desk)
# sample/extensions.conf:7 phones,100,2 Hangup()
ok 1 - room 123 leads to the front desk
# covered 4 of 8 entries
# never sample/extensions.conf:10 phones,_NXXXXXX,1 NoOp
# never sample/extensions.conf:11 phones,_NXXXXXX,2 Hangup
# never sample/extensions.conf:15 rest,_X.,1 NoOp
# never sample/extensions.conf:16 rest,_X.,2 Hangup
? 0
@ wrong.test
dialplan sample/extensions.conf

test room 123 is rung
call phones 123
expect 1 passed Dial

test a call to town is hung up
call phones 555-1234
hangup 1
@
$ pbx test wrong.test
TAP version 14
1..2
not ok 1 - room 123 is rung
  ---
  at: 'wrong.test:5'
  expected: '1 passed Dial'
  got: 'Hangup()'
  trace:
    - 'sample/extensions.conf:8 phones,_1XX,1 NoOp(a room)'
    - 'sample/extensions.conf:9 phones,_1XX,2 Goto(100,desk)'
    - 'sample/extensions.conf:6 phones,100,1 NoOp(the front desk)'
    - 'sample/extensions.conf:7 phones,100,2 Hangup()'
  ...
not ok 2 - a call to town is hung up
  ---
  at: 'wrong.test:9'
  expected: 'done'
  got: 'refused 49 Ended'
  trace:
    - 'sample/extensions.conf:10 phones,_NXXXXXX,1 NoOp(a call to town)'
    - 'sample/extensions.conf:11 phones,_NXXXXXX,2 Hangup()'
  ...
? 1
@ faulty.test
dialplan sample/extensions.conf
queues sample/no.conf
test a call
cal phones 100
expect 1 rans NoOp
@
$ pbx test faulty.test
faulty.test:4: fault BadLine
faulty.test:5: fault BadExpect
? 1
@ sample/faulty.conf
; The menu of a shop with mistakes that a load accepts.
[globals]
TRUNK=Line/9

[menu]
exten => s,1,Answer()
 same => n,Set(TRIES=0)
 same => n(again),Background(welcome)
 same => n,WaitExten(5)
exten => 1,1,Goto(sales,s,1)
exten => 2,1,Goto(support,s,start)
exten => i,1,Set(TRIES=$[${TRIES} + 1])
 same => n,GotoIf($[${TRIES} < 3]?menu,s,again:goodbye,s,1)
exten => t,1,Playbck(goodbye)
 same => n,Hangup()
include => night

[sales]
exten => s,1,Dial(${TRUNK}/100)
 same => 3,Voicemail(100)

[support]
exten => s,1(begin),Queue(${QUEUE})
 same => n,Hangup()

[night]
exten => 1,1,NoOp(the sales desk is closed)
exten => 9,2,NoOp(the night desk)
include => menu
@
$ pbx audit sample/faulty.conf
Cycle menu
Hidden menu,1,1 night
NoTarget menu,2,1 support,s,start
NoTarget menu,i,2 goodbye,s,1
NoApplication menu,t,1 Playbck
Gap sales,s,1 2
NoApplication sales,s,3 Voicemail
Unset support,s,1 QUEUE
Unused support,s,1 begin
Cycle night
Hidden night,1,1 menu
NoFirst night,9,2
ok 12 findings
? 1
$ pbx audit sample/extensions.conf
ok 0 findings
? 0
@ reception.conf
[main]
exten => 100,1,Answer()
 same => n,VoiceMail(100)
exten => _1XX,1,NoOp(a room)
 same => n,Dial(PJSIP/${EXTEN},20)
 same => n,Set(DESK=${CUTT(EXTEN,0,2)})
exten => s,1,Answer()
 same => n(again),NoOp(try ${TRY})
 same => n,Goto(again)
exten => t,1,While($[1])
@
$ pbx audit --asterisk reception.conf
Unset main,s,2 TRY
NoApplication main,t,1 While
FallsThrough main,100,2 main,_1XX,3
Loop main,s,2
NoFunction main,_1XX,3 CUTT
ok 5 findings
? 1
$ pbx audit --only NoApplication,Unset reception.conf
NoApplication main,100,2 VoiceMail
Unset main,s,2 TRY
NoApplication main,t,1 While
ok 3 findings
? 1
$ pbx audit --only NoApplication,Loop reception.conf
error: invalid value 'NoApplication,Loop' for '--only <KINDS>': without '--asterisk' the kinds are Cycle, NoApplication, NoTarget, Gap, NoFirst, Hidden, Unset and Unused

Usage: pbx audit [OPTIONS] <FILE>

For more information, try '--help'.
? 2
$ pbx explain 20
20 BadPriority
a priority that is neither `n` nor a number from 1 on
example: `exten => s,0,NoOp()`
? 0
$ pbx explain 32
32 LeftOut
a strategy that this program leaves out (`random`, `wrandom`, `rrordered`), or another word for `joinempty` or `leavewhenempty` than `yes`, `no`, `strict` and `loose`
example: `strategy=random`, `joinempty=paused`
? 0
$ pbx explain NoTimer
43 NoTimer
a `timeout` of a channel that waits in a queue, or for a call to devices, for as long as it takes
example: `timeout 1` while channel 1 is in `Queue(support)`
? 0
$ pbx explain 16
error: invalid value '16' for '<CODE>': neither the number of a fault nor the name of just one

Usage: pbx explain [OPTIONS] <CODE>

For more information, try '--help'.
? 2
@ ignoring.conf
[main]
ignorepat => 9
@
$ pbx list --explain faulty.conf
fault 20 BadPriority line 2
  faulty.conf:2
  exten => s,0,NoOp()
  a priority that is neither `n` nor a number from 1 on
? 1
$ pbx list --explain ignoring.conf
fault 24 LeftOut line 2
  ignoring.conf:2
  ignorepat => 9
  what this program leaves out: the key `ignorepat`
? 1
$ pbx check --explain usual.conf
note 13 UnknownContext
  usual.conf:13
  include => out
  there is no context of this name; the include is kept, and finds nothing
ok 1 contexts 4 entries
? 0
$ pbx run --explain missing.conf missing.script
fault 7 ReadFailed
  missing.conf
  a file could not be opened or read
? 1
$ pbx check --json usual.conf
{"type":"note","line":13,"kind":"UnknownContext"}
{"type":"count","contexts":1,"entries":4}
? 0
$ pbx check --asterisk --json faulty.conf
{"type":"fault","file":"faulty.conf","line":2,"kind":"BadPriority","code":20}
{"type":"count","faults":1}
? 1
$ pbx match --all --json sample/extensions.conf phones 100
{"type":"match","context":"phones","name":"100","priority":1,"label":"desk","application":"NoOp","arguments":"the front desk"}
{"type":"candidate","kind":"Answers","context":"phones","name":"100","priority":1,"label":"desk","application":"NoOp","arguments":"the front desk"}
{"type":"candidate","kind":"LessSpecific","context":"phones","name":"_1XX","priority":1,"application":"NoOp","arguments":"a room"}
{"type":"candidate","kind":"LaterContext","context":"rest","name":"_X.","priority":1,"application":"NoOp","arguments":"no such number"}
? 0
$ pbx audit --json --only Gap,Unset sample/faulty.conf
{"type":"finding","kind":"Gap","context":"sales","name":"s","priority":1,"application":"Dial","arguments":"${TRUNK}/100","missing":2}
{"type":"finding","kind":"Unset","context":"support","name":"s","priority":1,"label":"begin","application":"Queue","arguments":"${QUEUE}","variable":"QUEUE"}
{"type":"count","findings":2}
? 1
$ pbx test --json house.test
{"type":"test","number":1,"kind":"Passed","name":"room 123 leads to the front desk"}
{"type":"count","tests":1,"failed":0}
? 0
@ early.script
start phones 123
timeout 1
step 1 2
@
$ pbx run --verbose sample/extensions.conf early.script
started 1
  42 NotWaiting
  a `digit`, `timeout` or `poll` of a channel that waits for nothing that this could be
  example: `digit 1 5` just after the `start` of channel 1
refused 42 NotWaiting
  sample/extensions.conf:8 NoOp(a room)
ran 1 phones,_1XX,1 NoOp -> ready phones,123,2
  sample/extensions.conf:9 Goto(100,desk)
ran 1 phones,_1XX,2 Goto -> ready phones,100,1
? 1
@ joined.text
[main]
exten => 100,1,NoOp()
;; script
start main 100
;; script
step 1
@
@ marked.text
﻿[main]
exten => 100,1,NoOp()
;; script
start main 100
step 1
@
@ unparted.text
﻿;; script
start main 100
@
$ pbx < joined.text
started 1
ran 1 main,100,1 NoOp -> ready main,100,2
? 0
$ pbx -- < joined.text
started 1
ran 1 main,100,1 NoOp -> ready main,100,2
? 0
$ pbx < marked.text
started 1
ran 1 main,100,1 NoOp -> ready main,100,2
? 0
$ pbx < unparted.text
fault 2 NoSection line 2
? 1
"##;
