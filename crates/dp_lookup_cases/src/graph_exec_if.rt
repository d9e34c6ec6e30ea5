//! The arrows of what an `ExecIf` may run, worked out by hand from the rules.
use crate::graph::Arrows;
use dp_case_tables::check;
use std::test::Fail;

/// The lines of a dialplan after `[a]`, and the lines of its picture after the boxes.
///
/// The queue `q` lets a caller out to the context `b`, and the queue `r` to the context `nowhere`.
const ARROWS: &str = r#"
# One side, both, and the second alone.
exten=>1,1,ExecIf(x?Goto(2,1))\nexten=>2,1,A()→c0:y1:e -> c0:y2:e [color=black];\n
exten=>1,1,ExecIf($[1]?Goto(2,1):Goto(3,1))\nexten=>2,1,A()\nexten=>3,1,A()→c0:y1:e -> c0:y2:e [color=black];\nc0:y1:e -> c0:y3:e [color=black];\n
exten=>1,1,ExecIf(x?:Goto(2,1))\nexten=>2,1,A()→c0:y1:e -> c0:y2:e [color=black];\n
exten=>1,1,ExecIf(x?NoOp(3,1):Goto(2,1))\nexten=>2,1,A()\nexten=>3,1,A()→c0:y1:e -> c0:y2:e [color=black];\n
exten=>1,1,ExecIf(x?Goto(2,1):NoOp(3,1))\nexten=>2,1,A()\nexten=>3,1,A()→c0:y1:e -> c0:y2:e [color=black];\n
# Another context, a subroutine, blanks and other cases of letters.
exten=>1,1,ExecIf(x?Goto(b,2,1))\n[b]\nexten=>2,1,A()→c0:y1:e -> c1:x2:w [color=black];\n
exten=>1,1,execif( x ? Gosub( b,2,1(y) ) : hangup )\n[b]\nexten=>2,1,A()→c0:y1:e -> c1:x2:w [color="black:white:black"];\n
exten=>1,1,EXECIF(x?GOTO(2,1))\nexten=>2,1,A()→c0:y1:e -> c0:y2:e [color=black];\n
# A choice inside it has its own sides.
exten=>1,1,ExecIf(x?GotoIf(y?2,1:3,1))\nexten=>2,1,A()\nexten=>3,1,A()→c0:y1:e -> c0:y2:e [color=black];\nc0:y1:e -> c0:y3:e [color=black];\n
exten=>1,1,ExecIf(x?GosubIf(y?2,1(z)):GotoIfTime(*,*,*,*?3,1))\nexten=>2,1,A()\nexten=>3,1,A()→c0:y1:e -> c0:y2:e [color="black:white:black"];\nc0:y1:e -> c0:y3:e [color=black];\n
# The old form.
exten=>1,1,ExecIf(x,Goto,2,1)\nexten=>2,1,A()→c0:y1:e -> c0:y2:e [color=black];\n
exten=>1,1,ExecIf(x, Goto , b,2,1)\n[b]\nexten=>2,1,A()→c0:y1:e -> c1:x2:w [color=black];\n
exten=>1,1,ExecIf(x,GotoIf,y?2,1:3,1)\nexten=>2,1,A()\nexten=>3,1,A()→c0:y1:e -> c0:y2:e [color=black];\nc0:y1:e -> c0:y3:e [color=black];\n
exten=>1,1,ExecIf($[f(1,2)]?Goto(2,1))\nexten=>2,1,A()→c0:y1:e -> c0:y2:e [color=black];\n
exten=>1,1,ExecIf(x,Goto)→m0_x1_x [shape=box,color=red,fontcolor=red,label=< >];\nc0:y1:e -> m0_x1_x [color=red];\n
# Without an application.
exten=>1,1,ExecIf()\nexten=>1,2,ExecIf(x)\nexten=>1,3,ExecIf(x?)\nexten=>1,4,ExecIf(x?:)\nexten=>1,5,ExecIf(x?(2,1))\nexten=>1,6,ExecIf(x,,2,1)→
# One inside another is not followed.
exten=>1,1,ExecIf(x?ExecIf(y?Goto(2,1)):Goto(3,1))\nexten=>2,1,A()\nexten=>3,1,A()→c0:y1:e -> c0:y3:e [color=black];\n
# Targets that lead nowhere, computed ones, and jumps that stay in the extension.
exten=>1,1,ExecIf(x?Goto(b,1,1))→m0_x1_xb_44_1_44_1 [shape=box,color=red,fontcolor=red,label=<b,1,1 >];\nc0:y1:e -> m0_x1_xb_44_1_44_1 [color=red];\n
exten=>1,1,ExecIf(x?Goto(2,1):Goto(${X},1))\nexten=>2,1,A()→c0:y1:e -> c0:y2:e [color=black];\nd0_x1_1 [shape=diamond,label=<a,1,1 >];\nc0:y1:e -> d0_x1_1 [color=black];\n
exten=>1,1,ExecIf(x?Goto(1):Goto(a,1,1))→
# One arrow for two jumps to one extension.
exten=>1,1,ExecIf(x?Goto(2,1):Goto(2,2))\nexten=>1,2,Goto(2,1)\nexten=>2,1,A()\nexten=>2,2,A()→c0:y1:e -> c0:y2:e [color=black];\n
# Arguments end at the last parenthesis that closes, or without one at the end of the side.
exten=>1,1,ExecIf(x?Goto(2,1) or not)\nexten=>2,1,A()→c0:y1:e -> c0:y2:e [color=black];\n
exten=>1,1,ExecIf(x?Goto(2,1)\nexten=>2,1,A()→c0:y1:e -> c0:y2:e [color=black];\n
# The ways out of queues.
exten=>1,1,ExecIf(x?Queue(q,t))\n[b]→c0:y1:e -> c1:top:w [style=dotted,color=black];\n
exten=>1,1,ExecIf(x,Queue,r)→m0_x1_xnowhere [shape=box,color=red,fontcolor=red,label=<nowhere >];\nc0:y1:e -> m0_x1_xnowhere [style=dotted,color=red];\n
exten=>1,1,ExecIf(x?Queue(s):NoOp(q))\n[b]→
"#;

#[test]
fn arrows_of_what_an_exec_if_may_run(rt: HostRuntime) -> Result<(), Fail> {
    check::<Arrows>(rt.alloc(), ARROWS)
}
