//! The examples of the manual's pages on applications and functions with `--asterisk`, in the form of `examples`.

/// The examples, like those of `examples`. The files that they name are here.
pub(super) const WIDE: &str = r##"
@ cells.conf
[main]
exten => s,1,Set(__LANG=de)
 same => n,Set(CALLERID(name)=Front desk)
 same => n,Set(DB(desk/last)=${CALLERID(num)})
 same => n,Set(CDR(userfield)=${LANG})
@
@ cells.script
start main s 5551234
start main s 5550000
step 1 4
show 1 LANG
show 1 CALLERID(name)
show 2 DB(desk/last)
show 2 CDR(userfield)
@
$ pbx run --asterisk cells.conf cells.script
started 1
started 2
ran 1 main,s,1 Set -> ready main,s,2
ran 1 main,s,2 Set -> ready main,s,3
ran 1 main,s,3 Set -> ready main,s,4
ran 1 main,s,4 Set -> ready main,s,5
LANG=de
CALLERID(name)=Front desk
DB(desk/last)=5551234
unknown 2 CDR(userfield) -> ready main,s,1
? 4
@ several.conf
[main]
exten => s,1,MSet(A=1,B=<${A}>)
 same => n,Set(ARRAY(C,D,E)=4,5)
@
@ several.script
start main s
step 1 2
show 1 A
show 1 B
show 1 D
show 1 E
@
$ pbx run --asterisk several.conf several.script
started 1
ran 1 main,s,1 MSet -> ready main,s,2
ran 1 main,s,2 Set -> ready main,s,3
A=1
B=<>
D=5
E=
? 0
@ choice.conf
[main]
exten => s,1,ExecIf($["${CALLERID(num)}" = "100"]?Set(WHO=desk):Set(WHO=guest))
 same => n,ExecIf($["${WHO}" = "guest"]?Hangup())
 same => n,NoOp(${WHO})
@
@ choice.script
start main s 100
step 1 3
show 1 WHO
start main s 7
step 2 2
@
$ pbx run --asterisk choice.conf choice.script
started 1
ran 1 main,s,1 ExecIf -> ready main,s,2
ran 1 main,s,2 ExecIf -> ready main,s,3
ran 1 main,s,3 NoOp -> ready main,s,4
WHO=desk
started 2
ran 2 main,s,1 ExecIf -> ready main,s,2
ran 2 main,s,2 ExecIf -> ended
? 0
@ time.conf
[main]
exten => s,1,GotoIfTime(22:00-6:00,*,*,*?night)
 same => n,GotoIfTime(*,*,24-26,dec?holiday)
 same => n,Hangup()
 same => n(night),NoOp()
 same => n(holiday),NoOp()
@
@ time.script
clock thu 2026-12-24 23:30
start main s
step 1
clock thu 2026-12-24 12:00
start main s
step 2 2
@
$ pbx run --asterisk time.conf time.script
ok
started 1
ran 1 main,s,1 GotoIfTime -> ready main,s,4
ok
started 2
ran 2 main,s,1 GotoIfTime -> ready main,s,2
ran 2 main,s,2 GotoIfTime -> ready main,s,5
? 0
@ macro.conf
[main]
exten => 200,1,Macro(ring,PJSIP/200,20)
 same => n,NoOp(${DIALSTATUS})
[macro-ring]
exten => s,1,Dial(${ARG1},${ARG2})
@
@ macro.script
start main 200
step 1 2
show 1 MACRO_EXTEN
result 1 BUSY
step 1 2
@
$ pbx run --asterisk macro.conf macro.script
started 1
ran 1 main,200,1 Macro -> ready macro-ring,s,1
ran 1 macro-ring,s,1 Dial -> dialling
MACRO_EXTEN=200
ok 1 -> ready macro-ring,s,2
ran 1 macro-ring,s,2 MacroExit -> ready main,200,2
ran 1 main,200,2 NoOp -> ready main,200,3
? 0
@ keys.conf
[main]
exten => s,1,Set(DB(fwd/200)=300)
 same => n,GotoIf(${DB_EXISTS(fwd/200)}?set)
 same => n,Congestion()
 same => n(set),DBdel(fwd/200)
 same => n,GotoIf(${DB_EXISTS(fwd/200)}?set)
 same => n,Busy()
@
@ keys.script
start main s
step 1 5
show 1 DB(fwd/200)
@
$ pbx run --asterisk keys.conf keys.script
started 1
ran 1 main,s,1 Set -> ready main,s,2
ran 1 main,s,2 GotoIf -> ready main,s,4
ran 1 main,s,4 DBdel -> ready main,s,5
ran 1 main,s,5 GotoIf -> ready main,s,6
ran 1 main,s,6 Busy -> ended
DB(fwd/200)=
? 0
@ outside.conf
[main]
exten => s,1,Read(PIN,enter-pin,4)
 same => n,GotoIf($["${PIN}" = "1234"]?in)
 same => n,Hangup()
 same => n(in),VoiceMailMain(100)
 same => n,Hangup()
@
@ outside.script
start main s
step 1
let 1 PIN=1234
go 1
step 1 2
go 1
step 1
@
$ pbx run --asterisk outside.conf outside.script
started 1
ran 1 main,s,1 Read -> pause
ok 1 -> pause
ok 1 -> ready main,s,2
ran 1 main,s,2 GotoIf -> ready main,s,4
ran 1 main,s,4 VoiceMailMain -> pause
ok 1 -> ready main,s,5
ran 1 main,s,5 Hangup -> ended
? 0
@ texts.conf
[main]
exten => s,1,Set(LIST=200-300-400)
 same => n,Set(A=${CUT(LIST,-,2)} of ${FIELDQTY(LIST,-)})
 same => n,Set(B=${FILTER(0-9,+49-30-1234)})
 same => n,Set(C=${TOUPPER(${IF($[${LEN(${B})} > 6]?long:short)})})
@
@ texts.script
start main s
step 1 4
show 1 A
show 1 B
show 1 C
@
$ pbx run --asterisk texts.conf texts.script
started 1
ran 1 main,s,1 Set -> ready main,s,2
ran 1 main,s,2 Set -> ready main,s,3
ran 1 main,s,3 Set -> ready main,s,4
ran 1 main,s,4 Set -> ready main,s,5
A=300 of 3
B=49301234
C=LONG
? 0
"##;
