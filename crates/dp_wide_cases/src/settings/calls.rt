//! Subroutines and macros.

/// Subroutines with their arguments, and the number of these.
pub(super) const SUBROUTINES: &str = r"
1,Gosub(sub,s,1(7,8))\n[sub]\nexten => s,1,NoOp()¦1¦ARG1;ARG2;ARG3;ARGC;=→7|8||2|sub,s,1
1,gosub(sub,s,1(7))\n[sub]\nexten => s,1,NoOp()¦1¦ARG1;ARGC;=→7|1|sub,s,1
# No arguments, and empty ones.
1,Gosub(sub,s,1)\n[sub]\nexten => s,1,NoOp()¦1¦ARG1;ARGC;=→|0|sub,s,1
1,Gosub(sub,s,1())\n[sub]\nexten => s,1,NoOp()¦1¦ARG1;ARGC;=→|0|sub,s,1
1,Gosub(sub,s,1(,))\n[sub]\nexten => s,1,NoOp()¦1¦ARG1;ARG2;ARGC→||2
1,Gosub(sub,s,1( ))\n[sub]\nexten => s,1,NoOp()¦1¦ARG1;ARGC→|1
1,Gosub(sub,s,1( a , b,(c,d) ))\n[sub]\nexten => s,1,NoOp()¦1¦ARG1;ARG2;ARG3;ARGC→a|b|(c,d)|3
1,Gosub(sub,s,1(1,2,3,4,5,6,7,8,9,10,11))\n[sub]\nexten => s,1,NoOp()¦1¦ARG11;ARGC→11|11
# Targets of fewer parts.
1,Gosub(3(x))\n3,NoOp()¦1¦ARG1;ARGC;=→x|1|main,s,3
1,Gosub(t,1(x))\nexten => t,1,NoOp()¦1¦ARG1;ARGC;=→x|1|main,t,1
# A place that does not exist, a target without a `)`, and one with more than three parts end the call.
1,Gosub(sub,s,2(7))\n[sub]\nexten => s,1,NoOp()¦1¦=→ended
1,Gosub(sub,s,1(7)\n[sub]\nexten => s,1,NoOp()¦1¦=→ended
1,Gosub(a,sub,s,1)\n[sub]\nexten => s,1,NoOp()¦1¦=→ended
1,Gosub()¦1¦=→ended
# The frames of nested calls have their own.
1,Gosub(sub,s,1(7,8))\n[sub]\nexten => s,1,Gosub(two,s,1(9))\nexten => s,2,Return()\n[two]\nexten => s,1,Return(v)¦2¦ARG1;ARG2;ARGC;=→9|8|1|two,s,1
1,Gosub(sub,s,1(7,8))\n[sub]\nexten => s,1,Gosub(two,s,1(9))\nexten => s,2,Return()\n[two]\nexten => s,1,Return(v)¦3¦ARG1;ARGC;GOSUB_RETVAL;=→7|2|v|sub,s,2
1,Gosub(sub,s,1(7,8))\n[sub]\nexten => s,1,Gosub(two,s,1(9))\nexten => s,2,Return()\n[two]\nexten => s,1,Return(v)¦4¦ARG1;ARGC;GOSUB_RETVAL;=→|||main,s,2
# The side that is taken.
1,GosubIf(1?sub,s,1(7):sub,s,2)\n[sub]\nexten => s,1,NoOp()\nexten => s,2,NoOp()¦1¦ARG1;ARGC;=→7|1|sub,s,1
1,GosubIf(0?sub,s,1(7):sub,s,2)\n[sub]\nexten => s,1,NoOp()\nexten => s,2,NoOp()¦1¦ARG1;ARGC;=→|0|sub,s,2
1,GosubIf(0?sub,s,1(7))\n[sub]\nexten => s,1,NoOp()¦1¦ARGC;=→|main,s,2
1,GosubIf(1?:sub,s,1(7))\n[sub]\nexten => s,1,NoOp()¦1¦ARGC;=→|main,s,2
1,GosubIf()¦1¦ARGC;=→|main,s,2
";

/// Macros, which know who called them.
pub(super) const MACROS: &str = r"
1,Macro(x,7,8)\n[macro-x]\nexten => s,1,NoOp()¦1¦ARG1;ARG2;ARGC;=→7|8|2|macro-x,s,1
2,NoOp()\n1,NoOp()\n3,Macro(x)\n[macro-x]\nexten => s,1,NoOp()¦3¦MACRO_EXTEN;MACRO_CONTEXT;MACRO_PRIORITY;EXTEN;CONTEXT→s|main|3|s|macro-x
1,macro(x)\n[macro-x]\nexten => s,1,NoOp()¦1¦ARG1;ARGC;=→|0|macro-x,s,1
# Blanks at the ends are left out, and commas inside parentheses do not separate.
1,Macro( x , 7 ,(8,9))\n[macro-x]\nexten => s,1,NoOp()¦1¦ARG1;ARG2;ARGC;=→7|(8,9)|2|macro-x,s,1
1,Macro(x,)\n[macro-x]\nexten => s,1,NoOp()¦1¦ARG1;ARGC→|0
1,Macro(x,,)\n[macro-x]\nexten => s,1,NoOp()¦1¦ARG1;ARG2;ARGC→||2
# If there is no such macro the channel goes on, and nothing changes.
1,Macro(y,7)\n[macro-x]\nexten => s,1,NoOp()¦1¦ARG1;ARGC;MACRO_EXTEN;=→|||main,s,2
1,Macro()\n[macro-x]\nexten => s,1,NoOp()¦1¦=→main,s,2
1,Macro()\n[macro-]\nexten => s,1,NoOp()¦1¦ARGC;=→0|macro-,s,1
1,Macro(x)\n[macro-x]\nexten => t,1,NoOp()¦1¦=→main,s,2
1,Macro(x)\n[macro-x]\nexten => s,2,NoOp()¦1¦=→main,s,2
1,Macro(x,7)\n[macro-x]\nexten => s,1,Macro(y,8)\nexten => s,2,MacroExit()¦2¦ARG1;ARGC;MACRO_CONTEXT;=→7|1|main|macro-x,s,2
1,Macro(x,7)\n[macro-x]\nexten => s,1,Macro(y,8)\nexten => s,2,MacroExit()¦3¦ARG1;ARGC;=→||main,s,2
# Both ends return, and the locals go with the frame.
1,Macro(x,7)\n[macro-x]\nexten => s,1,MacroExit()¦2¦ARG1;ARGC;MACRO_EXTEN;GOSUB_RETVAL;=→||||main,s,2
1,Macro(x,7)\n[macro-x]\nexten => s,1,Return(v)¦2¦ARG1;MACRO_EXTEN;GOSUB_RETVAL;=→||v|main,s,2
1,Macro(x,7)\n[macro-x]\nexten => s,1,Set(ARG1=8)\nexten => s,2,Set(V=9)\nexten => s,3,MacroExit(z)¦3¦ARG1;V→8|9
1,Macro(x,7)\n[macro-x]\nexten => s,1,Set(ARG1=8)\nexten => s,2,Set(V=9)\nexten => s,3,MacroExit(z)¦4¦ARG1;V;=→|9|main,s,2
# A nested macro was called from the first.
1,Macro(x,7)\n[macro-x]\nexten => s,1,Macro(y,8)\n[macro-y]\nexten => s,1,MacroExit()¦2¦ARG1;MACRO_EXTEN;MACRO_CONTEXT;MACRO_PRIORITY;=→8|s|macro-x|1|macro-y,s,1
1,Macro(x,7)\n[macro-x]\nexten => s,1,Macro(y,8)\n[macro-y]\nexten => s,1,MacroExit()¦3¦ARG1;MACRO_CONTEXT;=→7|main|macro-x,s,2
# Without a frame the channel goes on.
1,MacroExit()¦1¦=→main,s,2
";
