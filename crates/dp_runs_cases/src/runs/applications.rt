//! Each application with its arguments, worked out by hand from the rules: with empty and missing parts, with blanks, with its name in
//! another case, and with values that come from an expansion.
use crate::runs::calls::answer_of;
use dp_case_tables::{check_answer, check_heading};
use dp_conf::NoMemory;
use std::alloc::Global;
use std::test::Fail;

/// The dialplan of all cases after `[main]`, up to the application at `main`, `s`, 1.
const FRONT: &str =
    r"exten => s,3(here),NoOp()\nexten => 200,1(there),NoOp()\nexten => 200,3(here),NoOp()\n[out]\nexten => s,1,NoOp()\nexten => 200,5(off),NoOp()\n[sub]\nexten => s,1,NoOp()\nexten => s,2(two),Return(v)\n[globals]\nTWO=200,1\nOPEN=(\nCLOSE=)\nASK=1?200,1\nSIDES=3:200,1\nPAIR=X=7\nMEMBER=q,Line/7,5\nTIMED=q,c,,,30\n[main]\nexten => s,1,";

/// The queues of all cases.
const QUEUED: &str = r"[q]\nmember => Line/1\n[none]\njoinempty=no\n[Sales]\ncontext=out\n";

/// A case is the application at `main`, `s`, 1, with lines after it; then `¦` and the script after a call from 555 to it and a step; then
/// an arrow, and the trace after `ran 1 main,s,1 `.
const JUMPS: &str = r#"
# Labels of a target.
Goto(here)¦→Goto -> ready main,s,3
Goto(200,here)¦→Goto -> ready main,200,3
Goto(out,200,off)¦→Goto -> ready out,200,5
Goto( , here )¦→Goto -> ready main,s,3
goto(200,there)¦→goto -> ready main,200,1
Goto(out,200,here)¦→Goto -> ended
Goto(there)¦→Goto -> ended
Goto(here(1))¦→Goto -> ended
# Commas in values separate the parts of a target too.
Goto(${TWO})¦→Goto -> ready main,200,1
Goto(out,${TWO})¦→Goto -> ready out,200,1
Goto(a,b,${TWO})¦→Goto -> ended
Goto(${OPEN}${TWO}${CLOSE})¦→Goto -> ended
Goto(${NONE})¦→Goto -> ended
Goto(${NONE},3)¦→Goto -> ready main,s,3
# The two sides of a choice.
GotoIf(1?200,1:3)¦→GotoIf -> ready main,200,1
GotoIf(0?200,1:3)¦→GotoIf -> ready main,s,3
GotoIf(1?200,1)¦→GotoIf -> ready main,200,1
GotoIf(0?200,1)¦→GotoIf -> ready main,s,2
gotoif(1?3)¦→gotoif -> ready main,s,3
GOTOIF(0?3)¦→GOTOIF -> ready main,s,2
# Sides that are empty or absent.
GotoIf(1?:3)¦→GotoIf -> ready main,s,2
GotoIf(0?:3)¦→GotoIf -> ready main,s,3
GotoIf(1? :3)¦→GotoIf -> ready main,s,2
GotoIf(0?3:)¦→GotoIf -> ready main,s,2
GotoIf(0?3: )¦→GotoIf -> ready main,s,2
GotoIf(1?)¦→GotoIf -> ready main,s,2
GotoIf(1)¦→GotoIf -> ready main,s,2
GotoIf()¦→GotoIf -> ready main,s,2
GotoIf¦→GotoIf -> ready main,s,2
GotoIf(:3)¦→GotoIf -> ready main,s,2
GotoIf(?3)¦→GotoIf -> ready main,s,2
# Conditions that are false.
GotoIf(?3:200,1)¦→GotoIf -> ready main,200,1
GotoIf( ?3:200,1)¦→GotoIf -> ready main,200,1
GotoIf( 0 ?3:200,1)¦→GotoIf -> ready main,200,1
GotoIf(-0?3:200,1)¦→GotoIf -> ready main,200,1
GotoIf(00?3:200,1)¦→GotoIf -> ready main,200,1
GotoIf(-000?3:200,1)¦→GotoIf -> ready main,200,1
GotoIf(0000000000000000000000000000000000000000?3:200,1)¦→GotoIf -> ready main,200,1
# Conditions that hold.
GotoIf(+0?3:200,1)¦→GotoIf -> ready main,s,3
GotoIf(-?3:200,1)¦→GotoIf -> ready main,s,3
GotoIf(--0?3:200,1)¦→GotoIf -> ready main,s,3
GotoIf(0.0?3:200,1)¦→GotoIf -> ready main,s,3
GotoIf(0 0?3:200,1)¦→GotoIf -> ready main,s,3
GotoIf(-1?3:200,1)¦→GotoIf -> ready main,s,3
GotoIf(01?3:200,1)¦→GotoIf -> ready main,s,3
GotoIf(false?3:200,1)¦→GotoIf -> ready main,s,3
GotoIf("0"?3:200,1)¦→GotoIf -> ready main,s,3
GotoIf("")¦→GotoIf -> ready main,s,2
# The ends of the condition and of the sides.
GotoIf(1?3?:200,1)¦→GotoIf -> ended
GotoIf(0?x:200,1:3)¦→GotoIf -> ended
GotoIf(1?(a:b):3)¦→GotoIf -> ended
GotoIf(0?(a:b):3)¦→GotoIf -> ready main,s,3
GotoIf((?3:200,1)¦→GotoIf -> ready main,s,3
GotoIf((1?3):200,1)¦→GotoIf -> ended
GotoIf(a:b?3:200,1)¦→GotoIf -> ready main,s,3
# Targets of the sides.
GotoIf(1?there)¦→GotoIf -> ended
GotoIf(1?200,there)¦→GotoIf -> ready main,200,1
GotoIf(1? out , 200 , off :3)¦→GotoIf -> ready out,200,5
GotoIf(1?a,b,c,d)¦→GotoIf -> ended
GotoIf(1?200,)¦→GotoIf -> ended
GotoIf(1?,)¦→GotoIf -> ended
GotoIf(1?,200,1)¦→GotoIf -> ready main,200,1
GotoIf(1?nowhere,s,1)¦→GotoIf -> ready nowhere,s,1
# Values.
GotoIf(${ASK}:3)¦→GotoIf -> ready main,200,1
GotoIf(1?${SIDES})¦→GotoIf -> ready main,s,3
GotoIf(0?${SIDES})¦→GotoIf -> ready main,200,1
GotoIf($[1 > 2]?3:200,1)¦→GotoIf -> ready main,200,1
GotoIf($[${NONE} = 1]?3:here)¦→GotoIf -> ready main,s,3
GotoIf(${NONE}?3:200,1)¦→GotoIf -> ready main,200,1
GotoIf($["${NONE}" = ""]?3:200,1)¦→GotoIf -> ready main,s,3
GotoIf(1?${OPEN}:${CLOSE}:3)¦→GotoIf -> ended
"#;

const SUBROUTINES: &str = r"
# Targets.
Gosub(sub,s,1)¦→Gosub -> ready sub,s,1
Gosub( sub , s , 1 )¦→Gosub -> ready sub,s,1
Gosub(200,1)¦→Gosub -> ready main,200,1
Gosub(3)¦→Gosub -> ready main,s,3
Gosub(here)¦→Gosub -> ready main,s,3
Gosub(sub,s,two)¦→Gosub -> ready sub,s,2
Gosub(,s,1)¦→Gosub -> ready main,s,1
Gosub(sub,,1)¦→Gosub -> ready sub,s,1
gosub(sub,s,1)¦→gosub -> ready sub,s,1
GOSUB(sub,s,1)¦→GOSUB -> ready sub,s,1
# No target, or no entry is found.
Gosub()¦→Gosub -> ended
Gosub¦→Gosub -> ended
Gosub(,)¦→Gosub -> ended
Gosub(sub,s,)¦→Gosub -> ended
Gosub(sub,s,())¦→Gosub -> ended
Gosub(a,sub,s,1)¦→Gosub -> ended
Gosub(sub,s,9)¦→Gosub -> ended
Gosub(sub,x,1)¦→Gosub -> ended
Gosub(nowhere,s,1)¦→Gosub -> ended
Gosub(sub,s,x)¦→Gosub -> ended
Gosub(0)¦→Gosub -> ended
Gosub(sub,s,2147483648)¦→Gosub -> ended
Gosub(sub,s,1(a),b)¦→Gosub -> ended
# Arguments.
Gosub(sub,s,1(a,b))¦show 1 ARG1\nshow 1 ARG2\nshow 1 ARG3→Gosub -> ready sub,s,1\nARG1=a\nARG2=b\nARG3=
Gosub(sub,s,two(a, b c ,(d,e),))¦show 1 ARG2\nshow 1 ARG3\nshow 1 ARG4\nshow 1 ARG5→Gosub -> ready sub,s,2\nARG2=b c\nARG3=(d,e)\nARG4=\nARG5=
Gosub(sub,s, 1 (a) )¦show 1 ARG1→Gosub -> ready sub,s,1\nARG1=a
Gosub(sub,s,1(a)x)¦show 1 ARG1→Gosub -> ready sub,s,1\nARG1=a
Gosub(sub,s,1(a)(b))¦show 1 ARG1→Gosub -> ready sub,s,1\nARG1=a)(b
Gosub(3(a))¦show 1 ARG1→Gosub -> ready main,s,3\nARG1=a
Gosub(sub,s,1(,b))¦show 1 ARG1\nshow 1 ARG2→Gosub -> ready sub,s,1\nARG1=\nARG2=b
# No argument, and an empty one, which hides the variable.
Set(ARG1=o)\nexten => s,2,Gosub(sub,s,1())¦step 1\nshow 1 ARG1→Set -> ready main,s,2\nran 1 main,s,2 Gosub -> ready sub,s,1\nARG1=o
Set(ARG1=o)\nexten => s,2,Gosub(sub,s,1)¦step 1\nshow 1 ARG1→Set -> ready main,s,2\nran 1 main,s,2 Gosub -> ready sub,s,1\nARG1=o
Set(ARG1=o)\nexten => s,2,Gosub(sub,s,1( ))¦step 1\nshow 1 ARG1→Set -> ready main,s,2\nran 1 main,s,2 Gosub -> ready sub,s,1\nARG1=
# Arguments without an end.
Gosub(sub,s,1(a)¦→Gosub -> ended
# Values.
Gosub(${TWO})¦→Gosub -> ready main,200,1
Gosub(sub,s,1(${TWO}))¦show 1 ARG1\nshow 1 ARG2→Gosub -> ready sub,s,1\nARG1=200\nARG2=1
Gosub(sub,s,1(${OPEN}${TWO}${CLOSE}))¦show 1 ARG1→Gosub -> ready sub,s,1\nARG1=(200,1)
Gosub(sub,s,1${OPEN}a${CLOSE})¦show 1 ARG1→Gosub -> ready sub,s,1\nARG1=a
Gosub(sub,s,1(${CLOSE},b))¦→Gosub -> ended
Gosub(sub,s,1(${NONE}))¦show 1 ARG1→Gosub -> ready sub,s,1\nARG1=
# The sides of a choice.
GosubIf(1?sub,s,1(a):200,1(b))¦show 1 ARG1→GosubIf -> ready sub,s,1\nARG1=a
GosubIf(0?sub,s,1(a):200,1(b))¦show 1 ARG1→GosubIf -> ready main,200,1\nARG1=b
GosubIf(0?sub,s,1(a))¦→GosubIf -> ready main,s,2
GosubIf(1?:200,1)¦→GosubIf -> ready main,s,2
GosubIf(0?200,1: )¦→GosubIf -> ready main,s,2
GosubIf(1?)¦→GosubIf -> ready main,s,2
GosubIf()¦→GosubIf -> ready main,s,2
GosubIf¦→GosubIf -> ready main,s,2
gosubif(1?sub,s,1)¦→gosubif -> ready sub,s,1
GosubIf(1?sub,s,1(a:b):200,1)¦show 1 ARG1→GosubIf -> ready sub,s,1\nARG1=a:b
GosubIf(1?sub,s,1(a?b))¦show 1 ARG1→GosubIf -> ready sub,s,1\nARG1=a?b
GosubIf( 0 ?200,1: sub , s , two (x) )¦show 1 ARG1→GosubIf -> ready sub,s,2\nARG1=x
GosubIf(1?sub,s,9:200,1)¦→GosubIf -> ended
GosubIf(1?sub,s,)¦→GosubIf -> ended
GosubIf(1?a,b,c,d)¦→GosubIf -> ended
GosubIf(1?sub,s,1(a)¦→GosubIf -> ended
GosubIf(${ASK})¦→GosubIf -> ready main,200,1
GosubIf(0?${SIDES})¦→GosubIf -> ready main,200,1
# Returns: the place after the call, and the whole argument as it is.
Gosub(sub,s,2)¦step 1\nshow 1 GOSUB_RETVAL→Gosub -> ready sub,s,2\nran 1 sub,s,2 Return -> ready main,s,2\nGOSUB_RETVAL=v
GosubIf(1?sub,s,2)¦step 1\nshow 1 GOSUB_RETVAL→GosubIf -> ready sub,s,2\nran 1 sub,s,2 Return -> ready main,s,2\nGOSUB_RETVAL=v
Gosub(r,s,1)\n[r]\nexten => s,1,Return( a , b )¦step 1\nshow 1 GOSUB_RETVAL→Gosub -> ready r,s,1\nran 1 r,s,1 Return -> ready main,s,2\nGOSUB_RETVAL= a , b 
Gosub(r,s,1)\n[r]\nexten => s,1,Return(${TWO})¦step 1\nshow 1 GOSUB_RETVAL→Gosub -> ready r,s,1\nran 1 r,s,1 Return -> ready main,s,2\nGOSUB_RETVAL=200,1
Gosub(r,s,1)\n[r]\nexten => s,1,return¦step 1\nshow 1 GOSUB_RETVAL→Gosub -> ready r,s,1\nran 1 r,s,1 return -> ready main,s,2\nGOSUB_RETVAL=
Set(GOSUB_RETVAL=o)\nexten => s,2,Gosub(r,s,1)\n[r]\nexten => s,1,Return()¦step 1 2\nshow 1 GOSUB_RETVAL→Set -> ready main,s,2\nran 1 main,s,2 Gosub -> ready r,s,1\nran 1 r,s,1 Return -> ready main,s,3\nGOSUB_RETVAL=
# The value is set in the frames of the caller, and not in the frame that is dropped.
Gosub(r,s,1)\n[r]\nexten => s,1,Set(LOCAL(GOSUB_RETVAL)=old)\nexten => s,2,Return(new)¦step 1 2\nshow 1 GOSUB_RETVAL→Gosub -> ready r,s,1\nran 1 r,s,1 Set -> ready r,s,2\nran 1 r,s,2 Return -> ready main,s,2\nGOSUB_RETVAL=new
Gosub(r,s,1)\n[r]\nexten => s,1,Set(LOCAL(GOSUB_RETVAL)=old)\nexten => s,2,Gosub(sub,s,2)\nexten => s,3,StackPop()¦step 1 3\nshow 1 GOSUB_RETVAL\nstep 1\nshow 1 GOSUB_RETVAL→Gosub -> ready r,s,1\nran 1 r,s,1 Set -> ready r,s,2\nran 1 r,s,2 Gosub -> ready sub,s,2\nran 1 sub,s,2 Return -> ready r,s,3\nGOSUB_RETVAL=v\nran 1 r,s,3 StackPop -> ready r,s,4\nGOSUB_RETVAL=
# No frame to return from.
Return()¦→Return -> ended
Return¦→Return -> ended
RETURN(x)¦show 1 GOSUB_RETVAL→RETURN -> ended\nGOSUB_RETVAL=
# A frame that is dropped.
StackPop()¦→StackPop -> ready main,s,2
stackpop¦→stackpop -> ready main,s,2
Gosub(r,s,1(a))\n[r]\nexten => s,1,StackPop(x,y)\nexten => s,2,Return()¦show 1 ARG1\nstep 1\nshow 1 ARG1\nstep 1→Gosub -> ready r,s,1\nARG1=a\nran 1 r,s,1 StackPop -> ready r,s,2\nARG1=\nran 1 r,s,2 Return -> ended
Gosub(r,s,1(a))\n[r]\nexten => s,1,Gosub(2(b))\nexten => s,2,StackPop()\nexten => s,3,Return(c)¦step 1\nshow 1 ARG1\nstep 1\nshow 1 ARG1\nstep 1\nshow 1 ARG1→Gosub -> ready r,s,1\nran 1 r,s,1 Gosub -> ready r,s,2\nARG1=b\nran 1 r,s,2 StackPop -> ready r,s,3\nARG1=a\nran 1 r,s,3 Return -> ready main,s,2\nARG1=
";

const SETTINGS: &str = r"
# The name without its blanks, and the value unchanged after the first sign.
Set(A=1)¦show 1 A→Set -> ready main,s,2\nA=1
Set( A =1)¦show 1 A→Set -> ready main,s,2\nA=1
Set(A= 1 )¦show 1 A→Set -> ready main,s,2\nA= 1 
Set(A=1=2)¦show 1 A→Set -> ready main,s,2\nA=1=2
Set(A=1,B=2)¦show 1 A\nshow 1 B→Set -> ready main,s,2\nA=1,B=2\nB=
Set(A=(1)¦show 1 A→Set -> ready main,s,2\nA=(1
set(A=1)¦show 1 A→set -> ready main,s,2\nA=1
SET(a=1)¦show 1 A\nshow 1 a→SET -> ready main,s,2\nA=\na=1
Set(_A=1)¦show 1 A\nshow 1 _A→Set -> ready main,s,2\nA=\n_A=1
Set(A B=1)\nexten => s,2,Set(C=${A B})¦step 1\nshow 1 C→Set -> ready main,s,2\nran 1 main,s,2 Set -> ready main,s,3\nC=1
Set(A=1)\nexten => s,2,Set(A=)¦show 1 A\nstep 1\nshow 1 A→Set -> ready main,s,2\nA=1\nran 1 main,s,2 Set -> ready main,s,3\nA=
Set(A=1)\nexten => s,2,Set(A=${A}2)¦step 1\nshow 1 A→Set -> ready main,s,2\nran 1 main,s,2 Set -> ready main,s,3\nA=12
# What has no effect.
Set(A)¦show 1 A→Set -> ready main,s,2\nA=
Set()¦→Set -> ready main,s,2
Set¦→Set -> ready main,s,2
Set(=1)\nexten => s,2,Set(B=<${}>)¦step 1\nshow 1 B→Set -> ready main,s,2\nran 1 main,s,2 Set -> ready main,s,3\nB=<>
Set( =1)\nexten => s,2,Set(B=<${}>)¦step 1\nshow 1 B→Set -> ready main,s,2\nran 1 main,s,2 Set -> ready main,s,3\nB=<>
Set(F(x)=5)¦show 1 F(x)\nshow 1 F→Set -> ready main,s,2\nF(x)=\nF=
Set(LEN(x)=5)¦show 1 LEN(x)→Set -> ready main,s,2\nLEN(x)=
Set(A(=5)¦show 1 A(\nshow 1 A→Set -> ready main,s,2\nA(=\nA=
# What a channel gives is never hidden.
Set(EXTEN=x)¦show 1 EXTEN→Set -> ready main,s,2\nEXTEN=s
Set(CONTEXT=x)¦show 1 CONTEXT→Set -> ready main,s,2\nCONTEXT=main
Set(PRIORITY=x)¦show 1 PRIORITY→Set -> ready main,s,2\nPRIORITY=2
Set(CHANNEL=x)¦show 1 CHANNEL→Set -> ready main,s,2\nCHANNEL=Channel/1
# Globals.
Set(GLOBAL(G)=5)¦show 1 G\nstart main s\nshow 2 G→Set -> ready main,s,2\nG=5\nstarted 2\nG=5
Set( GLOBAL(G) =5)¦show 1 G→Set -> ready main,s,2\nG=5
Set(GLOBAL(TWO)=x)¦show 1 TWO→Set -> ready main,s,2\nTWO=x
Set(TWO=x)¦show 1 TWO\nstart main s\nshow 2 TWO→Set -> ready main,s,2\nTWO=x\nstarted 2\nTWO=200,1
Set(GLOBAL( G )=5)¦show 1 G→Set -> ready main,s,2\nG=
Set(GLOBAL(G)x=5)¦show 1 G→Set -> ready main,s,2\nG=
Set(global(G)=5)¦show 1 G→Set -> ready main,s,2\nG=
Set(GLOBAL (G)=5)¦show 1 G→Set -> ready main,s,2\nG=
Set(GLOBAL(G=5)¦show 1 G→Set -> ready main,s,2\nG=
Set(GLOBAL(a(b)=5)¦show 1 a(b→Set -> ready main,s,2\na(b=5
Set(GLOBAL()=5)\nexten => s,2,Set(A=<${}>)¦step 1\nshow 1 A→Set -> ready main,s,2\nran 1 main,s,2 Set -> ready main,s,3\nA=<5>
Set(GLOBAL(G)=)¦show 1 G→Set -> ready main,s,2\nG=
# Locals of the innermost frame, if there is one.
Set(LOCAL(A)=1)¦show 1 A→Set -> ready main,s,2\nA=
Gosub(r,s,1)\n[r]\nexten => s,1,Set(LOCAL(A)=1)\nexten => s,2,Return()¦step 1\nshow 1 A\nstep 1\nshow 1 A→Gosub -> ready r,s,1\nran 1 r,s,1 Set -> ready r,s,2\nA=1\nran 1 r,s,2 Return -> ready main,s,2\nA=
Gosub(r,s,1)\n[r]\nexten => s,1,Set(local(A)=1)\nexten => s,2,Set(LOCAL(A)x=1)¦step 1 2\nshow 1 A→Gosub -> ready r,s,1\nran 1 r,s,1 Set -> ready r,s,2\nran 1 r,s,2 Set -> ready r,s,3\nA=
Gosub(r,s,1(a))\n[r]\nexten => s,1,Set(ARG1=b)\nexten => s,2,Return()¦step 1\nshow 1 ARG1\nstep 1\nshow 1 ARG1→Gosub -> ready r,s,1\nran 1 r,s,1 Set -> ready r,s,2\nARG1=b\nran 1 r,s,2 Return -> ready main,s,2\nARG1=
# The caller's number.
Set(A=${CALLERID(num)})¦show 1 A→Set -> ready main,s,2\nA=555
Set(CALLERID(num)=777)\nexten => s,2,Set(A=${CALLERID(num)})¦step 1\nshow 1 A→Set -> ready main,s,2\nran 1 main,s,2 Set -> ready main,s,3\nA=777
Set( CALLERID(num) =)\nexten => s,2,Set(A=<${CALLERID(num)}>)¦step 1\nshow 1 A→Set -> ready main,s,2\nran 1 main,s,2 Set -> ready main,s,3\nA=<>
Set(CALLERID(name)=7)\nexten => s,2,Set(A=${CALLERID(num)})¦step 1\nshow 1 A→Set -> ready main,s,2\nran 1 main,s,2 Set -> ready main,s,3\nA=555
Set(CALLERID( num)=7)\nexten => s,2,Set(A=${CALLERID(num)})¦step 1\nshow 1 A→Set -> ready main,s,2\nran 1 main,s,2 Set -> ready main,s,3\nA=555
Set(CALLERID(NUM)=7)\nexten => s,2,Set(A=${CALLERID(num)})¦step 1\nshow 1 A→Set -> ready main,s,2\nran 1 main,s,2 Set -> ready main,s,3\nA=555
Set(CallerID(num)=7)\nexten => s,2,Set(A=${CALLERID(num)})¦step 1\nshow 1 A→Set -> ready main,s,2\nran 1 main,s,2 Set -> ready main,s,3\nA=555
# Values.
Set(${PAIR})¦show 1 X→Set -> ready main,s,2\nX=7
Set(A=${TWO})¦show 1 A→Set -> ready main,s,2\nA=200,1
Set(A=$[1 + 1])¦show 1 A→Set -> ready main,s,2\nA=2
Set(${NONE}=1)¦→Set -> ready main,s,2
Set(GLOBAL${OPEN}G${CLOSE}=1)¦show 1 G→Set -> ready main,s,2\nG=1
Set(A=${OPEN})¦show 1 A→Set -> ready main,s,2\nA=(
";

const WAITS: &str = r"
# Applications that only go on, whatever their arguments are.
Answer()¦→Answer -> ready main,s,2
Answer(5,x)¦→Answer -> ready main,s,2
answer¦→answer -> ready main,s,2
NoOp(a,(b)¦→NoOp -> ready main,s,2
NOOP(${TWO})¦→NOOP -> ready main,s,2
Verbose(3,text)¦→Verbose -> ready main,s,2
Verbose¦→Verbose -> ready main,s,2
VERBOSE( )¦→VERBOSE -> ready main,s,2
Playback(hello&world,skip)¦show 1 PLAYBACKSTATUS→Playback -> ready main,s,2\nPLAYBACKSTATUS=
Playback()¦→Playback -> ready main,s,2
playback¦→playback -> ready main,s,2
# The end of the call, whatever the cause is.
Hangup()¦→Hangup -> ended
Hangup¦→Hangup -> ended
HangUp(16)¦→HangUp -> ended
Hangup(x,${TWO})¦→Hangup -> ended
# Only a time-out ends a wait, whatever its seconds are.
Wait(5)¦digit 1 5\npoll 1\ntimeout 1→Wait -> pause\nok 1 -> pause\nrefused 42 NotWaiting\nok 1 -> ready main,s,2
Wait()¦timeout 1→Wait -> pause\nok 1 -> ready main,s,2
Wait¦→Wait -> pause
wait(0)¦→wait -> pause
Wait(-1,x)¦→Wait -> pause
Wait(${NONE})¦→Wait -> pause
# Digits that `WaitExten` asks for.
WaitExten()¦timeout 1→WaitExten -> digits\nok 1 -> ended
WaitExten¦→WaitExten -> digits
waitexten(x,y)¦→waitexten -> digits
WaitExten(0)\nexten => s,2,NoOp()¦timeout 1→WaitExten -> digits\nok 1 -> ready main,s,2
WaitExten( 5 )¦digit 1 2\ndigit 1 0\ndigit 1 0→WaitExten -> digits\nok 1 -> digits\nok 1 -> digits\nok 1 -> ready main,200,1
WaitExten()¦digit 1 2\ntimeout 1→WaitExten -> digits\nok 1 -> digits\nok 1 -> ready main,2,1
WaitExten()¦digit 1 7→WaitExten -> digits\nok 1 -> ready main,7,1
# Digits that `Background` asks for.
Background(x)¦timeout 1→Background -> digits\nok 1 -> ready main,s,2
Background()¦→Background -> digits
Background¦→Background -> digits
BackGround(a&b,m,en,out)¦digit 1 7→BackGround -> digits\nok 1 -> ready main,7,1
Background(${TWO})¦digit 1 2\ntimeout 1→Background -> digits\nok 1 -> digits\nok 1 -> ready main,2,1
";

const DIALS: &str = r"
# A call to devices sets nothing before its result, and the text of the devices is not read.
Dial(Line/5)¦show 1 DIALSTATUS→Dial -> dialling\nDIALSTATUS=
Dial(Line/1&x)¦offer q\nresult 1 BUSY\nresult 1 BUSY→Dial -> dialling\nrefused 45 NobodyWaiting\nok 1 -> ready main,s,2\nrefused 53 NotDialling
dial( x )¦→dial -> dialling
DIAL(${TWO})¦→DIAL -> dialling
# No devices.
Dial¦show 1 DIALSTATUS→Dial -> ready main,s,2\nDIALSTATUS=CHANUNAVAIL
Dial()¦show 1 DIALSTATUS→Dial -> ready main,s,2\nDIALSTATUS=CHANUNAVAIL
Dial( )¦show 1 DIALSTATUS→Dial -> ready main,s,2\nDIALSTATUS=CHANUNAVAIL
Dial(,20)¦show 1 DIALSTATUS→Dial -> ready main,s,2\nDIALSTATUS=CHANUNAVAIL
Dial(${NONE},20,g)¦show 1 DIALSTATUS→Dial -> ready main,s,2\nDIALSTATUS=CHANUNAVAIL
# Its result.
Dial(x)¦result 1 ANSWER\nshow 1 DIALSTATUS→Dial -> dialling\nok 1 -> ended\nDIALSTATUS=ANSWER
Dial(x)¦result 1 BUSY\nshow 1 DIALSTATUS→Dial -> dialling\nok 1 -> ready main,s,2\nDIALSTATUS=BUSY
Dial(x)¦result 1 NOANSWER\nshow 1 DIALSTATUS→Dial -> dialling\nok 1 -> ready main,s,2\nDIALSTATUS=NOANSWER
Dial(x)¦result 1 CONGESTION\nshow 1 DIALSTATUS→Dial -> dialling\nok 1 -> ready main,s,2\nDIALSTATUS=CONGESTION
Dial(x)¦result 1 CHANUNAVAIL\nshow 1 DIALSTATUS→Dial -> dialling\nok 1 -> ready main,s,2\nDIALSTATUS=CHANUNAVAIL
Dial(x)¦hangup 1\nshow 1 DIALSTATUS\nresult 1 BUSY→Dial -> dialling\nok 1 -> ended\nDIALSTATUS=CANCEL\nrefused 49 Ended
# The time is any text that is not empty.
Dial(x)¦timeout 1→Dial -> dialling\nrefused 43 NoTimer
Dial(x, )¦timeout 1→Dial -> dialling\nrefused 43 NoTimer
Dial(x,,,5)¦timeout 1→Dial -> dialling\nrefused 43 NoTimer
Dial(x,0)¦timeout 1\nshow 1 DIALSTATUS→Dial -> dialling\nok 1 -> ready main,s,2\nDIALSTATUS=NOANSWER
Dial(x,x)¦timeout 1→Dial -> dialling\nok 1 -> ready main,s,2
Dial(${TIMED})¦timeout 1→Dial -> dialling\nok 1 -> ready main,s,2
# The option `g` outside parentheses goes on after the far side.
Dial(x,,g)¦result 1 ANSWER→Dial -> dialling\nok 1 -> ready main,s,2
Dial(x,,tg)¦result 1 ANSWER→Dial -> dialling\nok 1 -> ready main,s,2
Dial(x,,U(a,b)g)¦result 1 ANSWER→Dial -> dialling\nok 1 -> ready main,s,2
Dial(x,,)g)¦result 1 ANSWER→Dial -> dialling\nok 1 -> ready main,s,2
Dial(x,,U(g))¦result 1 ANSWER→Dial -> dialling\nok 1 -> ended
Dial(x,,(g)¦result 1 ANSWER→Dial -> dialling\nok 1 -> ended
Dial(x,,G)¦result 1 ANSWER→Dial -> dialling\nok 1 -> ended
Dial(x,g)¦result 1 ANSWER→Dial -> dialling\nok 1 -> ended
Dial(x,,,g)¦result 1 ANSWER→Dial -> dialling\nok 1 -> ended
Dial(x,,,url,g)¦result 1 ANSWER→Dial -> dialling\nok 1 -> ended
# Other events, and channels that dial nothing.
Dial(x)¦step 1\npoll 1\ndigit 1 x\ndigit 1 5\nresult 2 BUSY→Dial -> dialling\nrefused 41 NotReady\nrefused 42 NotWaiting\nrefused 51 BadDigit\nok 1 -> dialling\nrefused 40 NoChannel
Wait(5)¦result 1 BUSY→Wait -> pause\nrefused 53 NotDialling
WaitExten()¦result 1 ANSWER→WaitExten -> digits\nrefused 53 NotDialling
Queue(q)¦result 1 BUSY\noffer q\nanswer Line/1\nresult 1 BUSY→Queue -> queued q\nrefused 53 NotDialling\noffered 1 1\nok\nrefused 53 NotDialling
";

const QUEUEING: &str = r"
# The queue's name.
Queue(q)¦show 1 QUEUESTATUS→Queue -> queued q\nQUEUESTATUS=
Queue( q )¦→Queue -> queued q
Queue(Q)¦→Queue -> queued q
queue(sales)¦→queue -> queued Sales
Queue()¦show 1 QUEUESTATUS→Queue -> ready main,s,2\nQUEUESTATUS=UNKNOWN
Queue¦show 1 QUEUESTATUS→Queue -> ready main,s,2\nQUEUESTATUS=UNKNOWN
Queue(,c)¦show 1 QUEUESTATUS→Queue -> ready main,s,2\nQUEUESTATUS=UNKNOWN
Queue(x)¦show 1 QUEUESTATUS→Queue -> ready main,s,2\nQUEUESTATUS=UNKNOWN
Queue((q))¦show 1 QUEUESTATUS→Queue -> ready main,s,2\nQUEUESTATUS=UNKNOWN
QUEUE(x,c,,,30)¦show 1 QUEUESTATUS→QUEUE -> ready main,s,2\nQUEUESTATUS=UNKNOWN
Queue(none)¦show 1 QUEUESTATUS→Queue -> ready main,s,2\nQUEUESTATUS=JOINEMPTY
# The option `c` outside parentheses.
Queue(q,c)¦offer q\nanswer Line/1\ndone Line/1\nshow 1 QUEUESTATUS→Queue -> queued q\noffered 1 1\nok\nok\nQUEUESTATUS=CONTINUE
Queue(q, c )¦offer q\nanswer Line/1\ndone Line/1\nshow 1 QUEUESTATUS→Queue -> queued q\noffered 1 1\nok\nok\nQUEUESTATUS=CONTINUE
Queue(q,tc(x)r)¦offer q\nanswer Line/1\ndone Line/1\nshow 1 QUEUESTATUS→Queue -> queued q\noffered 1 1\nok\nok\nQUEUESTATUS=CONTINUE
Queue(q,(c)c)¦offer q\nanswer Line/1\ndone Line/1\nshow 1 QUEUESTATUS→Queue -> queued q\noffered 1 1\nok\nok\nQUEUESTATUS=CONTINUE
Queue(q,x)c)¦offer q\nanswer Line/1\ndone Line/1\nshow 1 QUEUESTATUS→Queue -> queued q\noffered 1 1\nok\nok\nQUEUESTATUS=CONTINUE
Queue(q,(c))¦offer q\nanswer Line/1\ndone Line/1\nstep 1→Queue -> queued q\noffered 1 1\nok\nok\nrefused 49 Ended
Queue(q,x(c)¦offer q\nanswer Line/1\ndone Line/1\nstep 1→Queue -> queued q\noffered 1 1\nok\nok\nrefused 49 Ended
Queue(q,,c)¦offer q\nanswer Line/1\ndone Line/1\nstep 1→Queue -> queued q\noffered 1 1\nok\nok\nrefused 49 Ended
# A time-out that is not empty.
Queue(q,,,,5)¦timeout 1\nshow 1 QUEUESTATUS→Queue -> queued q\nok 1 -> ready main,s,2\nQUEUESTATUS=TIMEOUT
Queue(q,,,, x )¦timeout 1\nshow 1 QUEUESTATUS→Queue -> queued q\nok 1 -> ready main,s,2\nQUEUESTATUS=TIMEOUT
Queue(q,,,,0)¦timeout 1\nshow 1 QUEUESTATUS→Queue -> queued q\nok 1 -> ready main,s,2\nQUEUESTATUS=TIMEOUT
Queue(q,x(a,b),,,9,y)¦timeout 1\nshow 1 QUEUESTATUS→Queue -> queued q\nok 1 -> ready main,s,2\nQUEUESTATUS=TIMEOUT
Queue(q,,,,)¦timeout 1→Queue -> queued q\nrefused 43 NoTimer
Queue(q,,,, )¦timeout 1→Queue -> queued q\nrefused 43 NoTimer
Queue(q,c,,30)¦timeout 1→Queue -> queued q\nrefused 43 NoTimer
Queue(q,,,,,30)¦timeout 1→Queue -> queued q\nrefused 43 NoTimer
# Values.
Queue(${TIMED})¦timeout 1\nshow 1 QUEUESTATUS→Queue -> queued q\nok 1 -> ready main,s,2\nQUEUESTATUS=TIMEOUT
Queue(${NONE})¦show 1 QUEUESTATUS→Queue -> ready main,s,2\nQUEUESTATUS=UNKNOWN
Queue(q,,,,${NONE})¦timeout 1→Queue -> queued q\nrefused 43 NoTimer
# The status is set by the rule for setting.
Gosub(r,s,1)\n[r]\nexten => s,1,Set(LOCAL(QUEUESTATUS)=x)\nexten => s,2,Queue(x)\nexten => s,3,StackPop()¦step 1 2\nshow 1 QUEUESTATUS\nstep 1\nshow 1 QUEUESTATUS→Gosub -> ready r,s,1\nran 1 r,s,1 Set -> ready r,s,2\nran 1 r,s,2 Queue -> ready r,s,3\nQUEUESTATUS=UNKNOWN\nran 1 r,s,3 StackPop -> ready r,s,4\nQUEUESTATUS=
# A way out by the queue's context.
Queue(sales)¦digit 1 2\ndigit 1 5→Queue -> queued Sales\nok 1 -> queued Sales\nok 1 -> queued Sales
";

const MEMBERS: &str = r"
# Members that are added.
AddQueueMember(q,Line/9)¦show 1 AQMSTATUS→AddQueueMember -> ready main,s,2\nAQMSTATUS=ADDED
addqueuemember( Q , Line/9 )¦show 1 AQMSTATUS→addqueuemember -> ready main,s,2\nAQMSTATUS=ADDED
AddQueueMember(q,line/1)¦show 1 AQMSTATUS→AddQueueMember -> ready main,s,2\nAQMSTATUS=ADDED
AddQueueMember(q,Line/9,0,x,y)¦show 1 AQMSTATUS→AddQueueMember -> ready main,s,2\nAQMSTATUS=ADDED
AddQueueMember(Q, Line/1 )¦show 1 AQMSTATUS→AddQueueMember -> ready main,s,2\nAQMSTATUS=MEMBERALREADY
AddQueueMember()¦show 1 AQMSTATUS→AddQueueMember -> ready main,s,2\nAQMSTATUS=NOSUCHQUEUE
AddQueueMember¦show 1 AQMSTATUS→AddQueueMember -> ready main,s,2\nAQMSTATUS=NOSUCHQUEUE
AddQueueMember(,Line/9)¦show 1 AQMSTATUS→AddQueueMember -> ready main,s,2\nAQMSTATUS=NOSUCHQUEUE
AddQueueMember(x,Line/1)¦show 1 AQMSTATUS→AddQueueMember -> ready main,s,2\nAQMSTATUS=NOSUCHQUEUE
# The channel itself if no interface is given.
AddQueueMember(q)\nexten => s,2,RemoveQueueMember(q,Channel/1)¦step 1\nshow 1 RQMSTATUS→AddQueueMember -> ready main,s,2\nran 1 main,s,2 RemoveQueueMember -> ready main,s,3\nRQMSTATUS=REMOVED
AddQueueMember(q,)\nexten => s,2,RemoveQueueMember(q, )¦step 1\nshow 1 RQMSTATUS→AddQueueMember -> ready main,s,2\nran 1 main,s,2 RemoveQueueMember -> ready main,s,3\nRQMSTATUS=REMOVED
AddQueueMember(q, ,1)\nexten => s,2,AddQueueMember(q,Channel/1)¦step 1\nshow 1 AQMSTATUS→AddQueueMember -> ready main,s,2\nran 1 main,s,2 AddQueueMember -> ready main,s,3\nAQMSTATUS=MEMBERALREADY
# Penalties: two members of the least penalty ring; with another penalty only the member of the file does.
AddQueueMember(q,Line/9)\nexten => w,1,Queue(q)¦start main w\nstep 2\noffer q→AddQueueMember -> ready main,s,2\nstarted 2\nran 2 main,w,1 Queue -> queued q\noffered 2 2
AddQueueMember(q,Line/9,)\nexten => w,1,Queue(q)¦start main w\nstep 2\noffer q→AddQueueMember -> ready main,s,2\nstarted 2\nran 2 main,w,1 Queue -> queued q\noffered 2 2
AddQueueMember(q,Line/9,x)\nexten => w,1,Queue(q)¦start main w\nstep 2\noffer q→AddQueueMember -> ready main,s,2\nstarted 2\nran 2 main,w,1 Queue -> queued q\noffered 2 2
AddQueueMember(q,Line/9,-1)\nexten => w,1,Queue(q)¦start main w\nstep 2\noffer q→AddQueueMember -> ready main,s,2\nstarted 2\nran 2 main,w,1 Queue -> queued q\noffered 2 2
AddQueueMember(q,Line/9,+1)\nexten => w,1,Queue(q)¦start main w\nstep 2\noffer q→AddQueueMember -> ready main,s,2\nstarted 2\nran 2 main,w,1 Queue -> queued q\noffered 2 2
AddQueueMember(q,Line/9,1 1)\nexten => w,1,Queue(q)¦start main w\nstep 2\noffer q→AddQueueMember -> ready main,s,2\nstarted 2\nran 2 main,w,1 Queue -> queued q\noffered 2 2
AddQueueMember(q,Line/9,2147483648)\nexten => w,1,Queue(q)¦start main w\nstep 2\noffer q→AddQueueMember -> ready main,s,2\nstarted 2\nran 2 main,w,1 Queue -> queued q\noffered 2 2
AddQueueMember(q,Line/9,18446744073709551617)\nexten => w,1,Queue(q)¦start main w\nstep 2\noffer q→AddQueueMember -> ready main,s,2\nstarted 2\nran 2 main,w,1 Queue -> queued q\noffered 2 2
AddQueueMember(q,Line/9,2147483647)\nexten => w,1,Queue(q)¦start main w\nstep 2\noffer q→AddQueueMember -> ready main,s,2\nstarted 2\nran 2 main,w,1 Queue -> queued q\noffered 2 1
AddQueueMember(q,Line/9, 0001 )\nexten => w,1,Queue(q)¦start main w\nstep 2\noffer q→AddQueueMember -> ready main,s,2\nstarted 2\nran 2 main,w,1 Queue -> queued q\noffered 2 1
# Values.
AddQueueMember(${MEMBER})\nexten => s,2,RemoveQueueMember(q,Line/7)¦show 1 AQMSTATUS\nstep 1\nshow 1 RQMSTATUS→AddQueueMember -> ready main,s,2\nAQMSTATUS=ADDED\nran 1 main,s,2 RemoveQueueMember -> ready main,s,3\nRQMSTATUS=REMOVED
AddQueueMember(q,${OPEN}a,b${CLOSE})\nexten => s,2,RemoveQueueMember(q,(a,b))¦show 1 AQMSTATUS\nstep 1\nshow 1 RQMSTATUS→AddQueueMember -> ready main,s,2\nAQMSTATUS=ADDED\nran 1 main,s,2 RemoveQueueMember -> ready main,s,3\nRQMSTATUS=REMOVED
# Members that are removed.
RemoveQueueMember(q,Line/1)¦show 1 RQMSTATUS→RemoveQueueMember -> ready main,s,2\nRQMSTATUS=NOTDYNAMIC
removequeuemember( Q , Line/1 ,x)¦show 1 RQMSTATUS→removequeuemember -> ready main,s,2\nRQMSTATUS=NOTDYNAMIC
RemoveQueueMember(q,Line/8)¦show 1 RQMSTATUS→RemoveQueueMember -> ready main,s,2\nRQMSTATUS=NOTINQUEUE
RemoveQueueMember(q,line/1)¦show 1 RQMSTATUS→RemoveQueueMember -> ready main,s,2\nRQMSTATUS=NOTINQUEUE
RemoveQueueMember(q)¦show 1 RQMSTATUS→RemoveQueueMember -> ready main,s,2\nRQMSTATUS=NOTINQUEUE
RemoveQueueMember()¦show 1 RQMSTATUS→RemoveQueueMember -> ready main,s,2\nRQMSTATUS=NOSUCHQUEUE
RemoveQueueMember¦show 1 RQMSTATUS→RemoveQueueMember -> ready main,s,2\nRQMSTATUS=NOSUCHQUEUE
RemoveQueueMember(,Line/1)¦show 1 RQMSTATUS→RemoveQueueMember -> ready main,s,2\nRQMSTATUS=NOSUCHQUEUE
RemoveQueueMember(x,Line/1)¦show 1 RQMSTATUS→RemoveQueueMember -> ready main,s,2\nRQMSTATUS=NOSUCHQUEUE
# Members that pause: in one queue, and in all if none is given; an empty interface is nobody's.
PauseQueueMember(q,Line/1)¦show 1 PQMSTATUS→PauseQueueMember -> ready main,s,2\nPQMSTATUS=PAUSED
pausequeuemember( Q , Line/1 ,x)¦show 1 PQMSTATUS→pausequeuemember -> ready main,s,2\nPQMSTATUS=PAUSED
PauseQueueMember(,Line/1)¦show 1 PQMSTATUS→PauseQueueMember -> ready main,s,2\nPQMSTATUS=PAUSED
PauseQueueMember( ,Line/1)¦show 1 PQMSTATUS→PauseQueueMember -> ready main,s,2\nPQMSTATUS=PAUSED
PauseQueueMember(q,Line/1)\nexten => s,2,PauseQueueMember(q,Line/1)¦step 1\nshow 1 PQMSTATUS→PauseQueueMember -> ready main,s,2\nran 1 main,s,2 PauseQueueMember -> ready main,s,3\nPQMSTATUS=PAUSED
PauseQueueMember()¦show 1 PQMSTATUS→PauseQueueMember -> ready main,s,2\nPQMSTATUS=NOTFOUND
PauseQueueMember¦show 1 PQMSTATUS→PauseQueueMember -> ready main,s,2\nPQMSTATUS=NOTFOUND
PauseQueueMember(,)¦show 1 PQMSTATUS→PauseQueueMember -> ready main,s,2\nPQMSTATUS=NOTFOUND
PauseQueueMember(q)¦show 1 PQMSTATUS→PauseQueueMember -> ready main,s,2\nPQMSTATUS=NOTFOUND
PauseQueueMember(q, )¦show 1 PQMSTATUS→PauseQueueMember -> ready main,s,2\nPQMSTATUS=NOTFOUND
PauseQueueMember(x,Line/1)¦show 1 PQMSTATUS→PauseQueueMember -> ready main,s,2\nPQMSTATUS=NOTFOUND
PauseQueueMember(none,Line/1)¦show 1 PQMSTATUS→PauseQueueMember -> ready main,s,2\nPQMSTATUS=NOTFOUND
PauseQueueMember(q,line/1)¦show 1 PQMSTATUS→PauseQueueMember -> ready main,s,2\nPQMSTATUS=NOTFOUND
AddQueueMember(q)\nexten => s,2,PauseQueueMember(q)¦step 1\nshow 1 PQMSTATUS→AddQueueMember -> ready main,s,2\nran 1 main,s,2 PauseQueueMember -> ready main,s,3\nPQMSTATUS=NOTFOUND
AddQueueMember(q)\nexten => s,2,PauseQueueMember(q,${CHANNEL})¦step 1\nshow 1 PQMSTATUS→AddQueueMember -> ready main,s,2\nran 1 main,s,2 PauseQueueMember -> ready main,s,3\nPQMSTATUS=PAUSED
PauseQueueMember(${MEMBER})¦show 1 PQMSTATUS→PauseQueueMember -> ready main,s,2\nPQMSTATUS=NOTFOUND
PauseQueueMember(q,Line/1)\nexten => w,1,Queue(q)¦start main w\nstep 2\noffer q→PauseQueueMember -> ready main,s,2\nstarted 2\nran 2 main,w,1 Queue -> queued q\nrefused 46 NoMember
# Members that are unpaused.
UnpauseQueueMember(q,Line/1)¦show 1 UPQMSTATUS\nshow 1 PQMSTATUS→UnpauseQueueMember -> ready main,s,2\nUPQMSTATUS=UNPAUSED\nPQMSTATUS=
unpausequeuemember( , Line/1 )¦show 1 UPQMSTATUS→unpausequeuemember -> ready main,s,2\nUPQMSTATUS=UNPAUSED
UnpauseQueueMember(,Line/9)¦show 1 UPQMSTATUS→UnpauseQueueMember -> ready main,s,2\nUPQMSTATUS=NOTFOUND
UnpauseQueueMember(x,Line/1)¦show 1 UPQMSTATUS→UnpauseQueueMember -> ready main,s,2\nUPQMSTATUS=NOTFOUND
UnpauseQueueMember(q)¦show 1 UPQMSTATUS→UnpauseQueueMember -> ready main,s,2\nUPQMSTATUS=NOTFOUND
UnpauseQueueMember()¦show 1 UPQMSTATUS→UnpauseQueueMember -> ready main,s,2\nUPQMSTATUS=NOTFOUND
UnpauseQueueMember¦show 1 UPQMSTATUS→UnpauseQueueMember -> ready main,s,2\nUPQMSTATUS=NOTFOUND
PauseQueueMember(,Line/1)\nexten => s,2,UnpauseQueueMember(Q,Line/1)\nexten => w,1,Queue(q)¦step 1\nstart main w\nstep 2\noffer q→PauseQueueMember -> ready main,s,2\nran 1 main,s,2 UnpauseQueueMember -> ready main,s,3\nstarted 2\nran 2 main,w,1 Queue -> queued q\noffered 2 1
";

const TABLES: &[&str] = &[
    JUMPS,
    SUBROUTINES,
    SETTINGS,
    WAITS,
    DIALS,
    QUEUEING,
    MEMBERS,
];

/// The status of a trace: 1 if an event was refused.
fn status_of(trace: &str) -> u8 {
    if trace.split_once("refused ").is_some() {
        1
    } else {
        0
    }
}

/// The expected answer to a case with this trace: the trace after the call and its step, and the status.
fn wanted_answer(alloc: Global, trace: &str) -> Result<String, NoMemory> {
    format!(in alloc;
        "started 1\\nran 1 main,s,1 {trace}\\nstatus {}",
        status_of(trace)
    )
}

/// The output and result of the run of a case.
fn run_of(alloc: Global, lines: &str, after: &str) -> Result<String, NoMemory> {
    let plan = format!(in alloc; "{FRONT}{lines}")?;
    let script = format!(in alloc; "start main s 555\\nstep 1\\n{after}")?;
    answer_of(alloc, &plan, QUEUED, &script)
}

fn check_row(alloc: Global, asked: &str, trace: &str) -> Result<(), Fail> {
    let (lines, after) = asked.split_once('¦').ok_or("no script")?;
    let got = run_of(alloc, lines, after)?;
    let want = wanted_answer(alloc, trace)?;
    check_answer(alloc, asked, &got, &want)
}

fn check_table(alloc: Global, table: &str) -> Result<(), Fail> {
    for line in table.lines() {
        match line.split_once('→') {
            Some((asked, want)) => check_row(alloc, asked, want)?,
            None => check_heading(line)?,
        }
    }
    Ok(())
}

/// Each application with arguments of all forms.
#[test]
fn applications_run_with_arguments_of_all_forms(rt: HostRuntime) -> Result<(), Fail> {
    for table in TABLES {
        check_table(rt.alloc(), table)?;
    }
    Ok(())
}
