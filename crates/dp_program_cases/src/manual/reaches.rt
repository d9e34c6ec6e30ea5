//! The examples of what a call can reach.

/// In the form of the other examples.
pub(super) const REACHES: &str = r##"
@ doors.conf
[outside]
exten => s,1,Goto(hall,${EXTEN},1)
[hall]
exten => s,1,Hangup()
exten => 9,1,Goto(safe,s,1)
[safe]
exten => s,1,NoOp(nobody gets here from outside)
@
$ pbx reach doors.conf outside
assumed: extensions of {0-9A-Za-z*#+_.}*, callers' numbers of {0-9+}*, calls come in at every context
outside,s,1 Goto(hall,${EXTEN},1)
  outside,{0-9A-Za-z*#+_.}*  a call comes in
hall,s,1 Hangup()
  outside,{0-9A-Za-z*#+_.}*  a call comes in
  outside,s,1 Goto(hall,${EXTEN},1) -> hall,s
ok 2 of 4 entries in 2 of 3 contexts
? 0
$ pbx reach doors.conf outside --to safe
assumed: extensions of {0-9A-Za-z*#+_.}*, callers' numbers of {0-9+}*, calls come in at every context
unreachable: safe
? 0
$ pbx reach doors.conf hall --to safe
assumed: extensions of {0-9A-Za-z*#+_.}*, callers' numbers of {0-9+}*, calls come in at every context
may reach: safe,s,1 NoOp(nobody gets here from outside)  e.g. extension s
  hall,{0-9A-Za-z*#+_.}*  a call comes in
  hall,9,1 Goto(safe,s,1) -> safe,s
every jump that lets a call in there:
  hall,9,1 Goto(safe,s,1)
? 1
@ jumps.conf
[in]
exten => _X.,1,Set(where=${EXTEN})
 same => n,Goto(${where},s,1)
 same => n,Voicemail(100)
[desk]
exten => s,1,Hangup()
@
$ pbx reach jumps.conf in --to desk
assumed: extensions of {0-9A-Za-z*#+_.}*, callers' numbers of {0-9+}*, calls come in at every context
may reach: desk,s,1 Hangup()  e.g. extension s
  in,{0-9A-Za-z*#+_.}*  a call comes in
  in,_X.,2 Goto(${where},s,1) -> desk,s
every jump that lets a call in there:
  in,_X.,2 Goto(${where},s,1)
may lead to any context: in,_X.,2 Goto(${where},s,1)
no such application: in,_X.,3 Voicemail(100)
of what an exchange does that has this application, nothing is claimed
? 1
$ pbx reach jumps.conf in --to desk --exten 0-9
assumed: extensions of {0-9}*, callers' numbers of {0-9+}*, calls come in at every context
unreachable: desk
may lead to any context: in,_X.,2 Goto(${where},s,1)
no such application: in,_X.,3 Voicemail(100)
of what an exchange does that has this application, nothing is claimed
? 0
@ sample/routes.conf
; An exchange with calls from a carrier, a reception, a phone in the lobby, staff, and a route to other countries.
; `pbx reach sample/routes.conf from-carrier --to international` proves that no caller from outside gets to that route.
[globals]
CARRIER=PJSIP/carrier
RECEPTION=200

; Calls that the carrier hands over: each goes to the reception.
[from-carrier]
exten => _X.,1,Set(CALLERNUMBER=${CALLERID(num)})
 same => n,Goto(reception,s,1)
exten => _+X.,1,Goto(reception,s,1)

; A menu. Two wrong digits, or none, lead to the person at the desk.
[reception]
exten => s,1,Answer()
 same => n,Set(tries=0)
 same => n(menu),Background(welcome)
 same => n,WaitExten(5)
exten => 1,1,Gosub(ring,s,1(${RECEPTION},20))
 same => n,Goto(desk,1)
exten => 2,1,Goto(internal,210,1)
exten => i,1,Set(tries=$[${tries} + 1])
 same => n,GotoIf($[${tries} < 2]?s,menu)
 same => n,Goto(desk,1)
exten => t,1,Goto(desk,1)
exten => desk,1,Dial(PJSIP/${RECEPTION},30)
 same => n,Hangup()
exten => h,1,NoOp(${CALLERNUMBER} left)
include => lobby-features

; Numbers that callers and visitors may dial.
[lobby-features]
exten => *60,1,Answer()
 same => n,Playback(opening-hours)
 same => n,Hangup()
exten => _*2XX,1,Goto(internal,${EXTEN:1},1)

; The phone in the lobby.
[from-lobby]
include => internal
include => lobby-features

; Extensions in the house: 200 to 399.
[internal]
exten => _[23]XX,1,Gosub(ring,s,1(${EXTEN},20))
 same => n,GotoIf($["${DIALSTATUS}" = "BUSY"]?busy)
 same => n,Playback(not-there)
 same => n,Hangup()
 same => n(busy),Playback(busy)
 same => n,Hangup()

; Rings a phone: its number, and for how many seconds.
[ring]
exten => s,1,Dial(PJSIP/${ARG1},${ARG2})
 same => n,Return()

; The phones of the staff.
[from-staff]
include => internal
include => national
include => international

[national]
exten => _0ZX.,1,Dial(${CARRIER}/${EXTEN},60)
 same => n,Hangup()

[international]
exten => _00ZX.,1,Set(CALLERID(num)=+4989123450)
 same => n,Dial(${CARRIER}/${EXTEN},60)
 same => n,Hangup()
@
$ pbx reach sample/routes.conf from-carrier --to international
assumed: extensions of {0-9A-Za-z*#+_.}*, callers' numbers of {0-9+}*, calls come in at every context
unreachable: international
? 0
$ pbx reach --json --to international sample/routes.conf from-carrier
{"type":"assumed","extensions":"0-9A-Za-z*#+_.","callers":"0-9+","starts":"every context"}
{"type":"verdict","kind":"Unreachable","context":"international"}
? 0
$ pbx reach sample/routes.conf from-lobby --to national --to international
error: the argument '--to <TARGET>' cannot be used multiple times

Usage: pbx reach [OPTIONS] <FILE> <CONTEXT>

For more information, try '--help'.
? 2
$ pbx reach sample/routes.conf carrier
pbx: sample/routes.conf has no context `carrier`
? 1
@ frontdesk.conf
[general]
#include nights.conf

[incoming]
exten => _X.,1,GotoIfTime(08:00-18:00,mon-fri,*,*?desk,s,1)
 same => n,Goto(night,s,1)
exten => 9,1,VoiceMail(100@office,u)

[desk]
exten => s,1,ExecIf($["${DB(desk/busy)}" = "1"]?Goto(night,s,1))
 same => n,Dial(PJSIP/desk,30)
 same => n,Hangup()

[safe]
exten => s,1,NoOp(nobody gets here from outside)
@
@ nights.conf
[night]
exten => s,1,Playback(closed)
 same => n,Hangup()
@
$ pbx reach --asterisk frontdesk.conf incoming --to safe
assumed: extensions of {0-9A-Za-z*#+_.}*, callers' numbers of {0-9+}*, values from outside of {0-9A-Za-z_./ -}*, calls come in at every context
unreachable: safe
? 0
@ lines.conf
[incoming]
exten => 1,1,Dial(Local/20@phones&PJSIP/desk,30,t)
 same => n,Hangup()

[phones]
exten => 20,1,Dial(PJSIP/20,30)
 same => n,Hangup()

[trunk]
exten => _X.,1,Dial(PJSIP/${EXTEN}@provider,60)
@
$ pbx reach --asterisk lines.conf incoming --to trunk
assumed: extensions of {0-9A-Za-z*#+_.}*, callers' numbers of {0-9+}*, values from outside of {0-9A-Za-z_./ -}*, calls come in at every context
unreachable: trunk
? 0
$ pbx reach --asterisk lines.conf incoming --to phones
assumed: extensions of {0-9A-Za-z*#+_.}*, callers' numbers of {0-9+}*, values from outside of {0-9A-Za-z_./ -}*, calls come in at every context
may reach: phones,20,1 Dial(PJSIP/20,30)  e.g. extension 20
  incoming,{0-9A-Za-z*#+_.}*  a call comes in
  incoming,1,1 Dial(Local/20@phones&PJSIP/desk,30,t) -> phones,20
every jump that lets a call in there:
  incoming,1,1 Dial(Local/20@phones&PJSIP/desk,30,t)
? 1
"##;
