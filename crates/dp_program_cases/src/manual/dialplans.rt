//! The examples of how dialplans are read.

/// In the form of the other examples.
pub(super) const DIALPLANS: &str = r##"
@ comments.conf
[main]                              ; a comment
exten => s,1,NoOp(a\;b)             ; the value is s,1,NoOp(a;b)
@
$ pbx list comments.conf
[main]
exten => s,1,NoOp(a\;b)
? 0
@ commas.conf
[main]
exten => s,1,Gosub(sub,s,1(a(b,c), d))
exten => s,2,Gosub(sub,s,1("a,b",c\,d,[e,f]))
[sub]
exten => s,1,NoOp()
exten => s,2,Return()
@
@ commas.script
start main s
step 1
show 1 ARG1
show 1 ARG2
step 1 3
show 1 ARG1
show 1 ARG2
show 1 ARG3
show 1 ARG4
show 1 ARG5
show 1 ARG6
@
$ pbx run commas.conf commas.script
started 1
ran 1 main,s,1 Gosub -> ready sub,s,1
ARG1=a(b,c)
ARG2=d
ran 1 sub,s,1 NoOp -> ready sub,s,2
ran 1 sub,s,2 Return -> ready main,s,2
ran 1 main,s,2 Gosub -> ready sub,s,1
ARG1="a
ARG2=b"
ARG3=c\
ARG4=d
ARG5=[e
ARG6=f]
? 0
@ small.conf
[globals]
GREETING = hello

[main]
exten => 100,1,NoOp(first)
exten => 100,2,Goto(200,1)     ; to 200, priority 1, of this context
exten => 200,1,Hangup()
@
$ pbx check small.conf
ok 1 contexts 3 entries
? 0
$ pbx list small.conf
[globals]
GREETING => hello
[main]
exten => 100,1,NoOp(first)
exten => 100,2,Goto(200,1)
exten => 200,1,Hangup()
? 0
@ names.conf
[names]
exten => 555-1234,1,NoOp()     ; the name 5551234
exten => 5551234,1,Hangup()    ; the same one: dropped
exten => 1.,1,NoOp()           ; plain, and no pattern
exten => s,1,NoOp()
exten => S,1,Hangup()          ; another name
@
$ pbx check names.conf
note 3 DoublePriority
ok 1 contexts 4 entries
? 0
$ pbx list names.conf
[names]
exten => 5551234,1,NoOp()
exten => 1.,1,NoOp()
exten => s,1,NoOp()
exten => S,1,Hangup()
? 0
$ pbx match names.conf names 55-51-234
names,5551234,1 NoOp
? 0
@ classes.conf
[main]
exten => _NX,1,NoOp()
exten => _[4-8]X,1,NoOp()
exten => _[0-4]X,1,NoOp()
exten => _[2-9]X,1,NoOp()      ; the name _NX: dropped
@
$ pbx check classes.conf
note 5 DoublePriority
ok 1 contexts 3 entries
? 0
$ pbx list classes.conf
[main]
exten => _NX,1,NoOp()
exten => _[45678]X,1,NoOp()
exten => _[01234]X,1,NoOp()
? 0
$ pbx match classes.conf main 45
main,_[01234]X,1 NoOp
? 0
@ calls.conf
[calls]
exten => 123,1,NoOp(one)
exten => _1XX,1,NoOp(three)
exten => _X.,1,NoOp(any)
exten => _X.,2,NoOp(two)
@
$ pbx match calls.conf calls 123
calls,123,1 NoOp
? 0
$ pbx match calls.conf calls 123 2
calls,_X.,2 NoOp
? 0
$ pbx match calls.conf calls 124
calls,_1XX,1 NoOp
? 0
$ pbx match calls.conf calls 12
calls,_X.,1 NoOp
? 0
$ pbx match calls.conf calls 1
none
? 0
@ ends.conf
[main]
exten => _1X!,1,NoOp()
exten => _1X,1,Answer()
exten => _1XX,1,Hangup()
@
$ pbx match ends.conf main 15
main,_1X,1 Answer
? 0
$ pbx match ends.conf main 156
main,_1XX,1 Hangup
? 0
$ pbx match ends.conf main 1567
main,_1X!,1 NoOp
? 0
@ priorities.conf
[main]
exten => 100,1,Answer()
 same => n,NoOp(two)
exten => 200,5,NoOp(five)
 same => n,Hangup()
exten => 100,1,NoOp(again)     ; dropped
 same => n,NoOp(again)         ; one more than the line before: 2, dropped too
 same => n,Hangup()            ; 3
@
$ pbx check priorities.conf
note 6 DoublePriority
note 7 DoublePriority
ok 1 contexts 5 entries
? 0
$ pbx list priorities.conf
[main]
exten => 100,1,Answer()
exten => 100,2,NoOp(two)
exten => 200,5,NoOp(five)
exten => 200,6,Hangup()
exten => 100,3,Hangup()
? 0
@ labels.conf
[main]
exten => s,1(top),Answer()
 same => n(ask),NoOp(one)
 same => n(top),NoOp(two)      ; a label that s has: dropped
 same => n(end),Hangup()       ; 4
exten => t,1( top ),Hangup()   ; another extension
@
$ pbx check labels.conf
note 4 DoubleLabel
ok 1 contexts 4 entries
? 0
$ pbx list labels.conf
[main]
exten => s,1(top),Answer()
exten => s,2(ask),NoOp(one)
exten => s,4(end),Hangup()
exten => t,1(top),Hangup()
? 0
@ night.conf
[main]
exten => _1XX,1,NoOp(main)
include => late
include => night               ; there is none

[late]
exten => 123,1,NoOp(late)
exten => 200,1,NoOp(late)
include => main
@
$ pbx check night.conf
note 4 UnknownContext
ok 2 contexts 3 entries
? 0
$ pbx match night.conf main 123
main,_1XX,1 NoOp
? 0
$ pbx match night.conf late 123
late,123,1 NoOp
? 0
$ pbx match night.conf main 200
late,200,1 NoOp
? 0
@ before.conf
[main]
exten => 100,1,Dial(SIP/100,20)
 same => n,Hangup()
include => night

[night]
exten => _1XX,1,Playback(closed)
@
@ after.conf
[main]
exten => 100,1,Dial(SIP/100,30)
include => night

[night]
exten => _1XX,1,Playback(closed)
 same => n,Hangup()
@
$ pbx diff before.conf after.conf
- main,100,1 Dial(SIP/100,20)
+ main,100,1 Dial(SIP/100,30)
- main,100,2 Hangup()
+ main,_1XX,2 Hangup()
+ night,_1XX,2 Hangup()
? 1
@ door.conf
[door]
exten => 1,1,Goto(office,100,1)
exten => 2,1,Goto(${OPEN},s,1)
include => bell
@
$ pbx graph door.conf
digraph dialplan {
rankdir=LR;
ranksep=0.8;
nodesep=0.25;
node [shape=plain,fontname="Helvetica",fontsize=9];
edge [fontname="Helvetica",fontsize=8,arrowsize=0.6];
c0 [label=<<table border="0" cellborder="1" cellspacing="0" cellpadding="3">
<tr><td port="top" colspan="2" bgcolor="#dce6f2"><b>door </b></td></tr>
<tr><td port="x1" align="left" bgcolor="#ffffff">1 </td><td port="y1" align="left" bgcolor="#ffffff">Goto(office,100,1) </td></tr>
<tr><td port="x2" align="left" bgcolor="#ffffff">2 </td><td port="y2" align="left" bgcolor="#ffffff">Goto(${OPEN},s,1) </td></tr>
</table>>];
i0_1 [shape=box,color=red,fontcolor=red,label=<bell >];
c0:top:e -> i0_1 [style=dashed,color=red,label="1"];
m0_x1_xoffice_44_100_44_1 [shape=box,color=red,fontcolor=red,label=<office,100,1 >];
c0:y1:e -> m0_x1_xoffice_44_100_44_1 [color=red];
d0_x2_1 [shape=diamond,label=<door,2,1 >];
c0:y2:e -> d0_x2_1 [color=black];
}
? 0
"##;
