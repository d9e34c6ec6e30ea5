//! The sides that conditions take, worked out by hand from the rules.
use dp_case_tables::{Question, bytes_of, push_bytes, text_of};
use dp_wide::{NoMemory, exec_if_application, if_value};
use std::alloc::Global;
use std::test::Fail;

/// The name and the arguments of the application that an `ExecIf` runs, with a bar between.
pub(super) struct CalledSide;

fn push_call(out: &mut String, name: &[u8], arguments: &[u8]) -> Result<(), NoMemory> {
    push_bytes(out, name)?;
    out.push('|')?;
    push_bytes(out, arguments)
}

impl Question for CalledSide {
    fn answer(alloc: Global, asked: &str) -> Result<String, Fail> {
        let arguments = bytes_of(alloc, asked)?;
        let Some((name, arguments)) = exec_if_application(&arguments) else {
            return text_of(alloc, "none");
        };
        let mut out = String::new(alloc);
        push_call(&mut out, name, arguments)?;
        Ok(out)
    }
}

/// Arguments of `ExecIf`.
pub(super) const CALLS: &str = r"
# One side or two.
1?NoOp→NoOp|
1?NoOp()→NoOp|
1?NoOp(a,b)→NoOp|a,b
0?NoOp→none
1?NoOp(a):Set(A=1)→NoOp|a
0?NoOp(a):Set(A=1)→Set|A=1
# Conditions like those of `GotoIf`.
?NoOp:Hangup→Hangup|
 ?NoOp:Hangup→Hangup|
 0 ?NoOp:Hangup→Hangup|
-00?NoOp:Hangup→Hangup|
0.0?NoOp:Hangup→NoOp|
no?NoOp:Hangup→NoOp|
(0)?NoOp:Hangup→NoOp|
# Sides that are missing or blank.
1?→none
0?→none
?→none
1?:→none
0?:→none
1?:NoOp→none
0?NoOp:→none
1?  :NoOp→none
0?NoOp:\t→none
# Blanks, and names as they are written.
1? NoOp :Hangup→NoOp|
1? NoOp ( a , b ) :Hangup→NoOp| a , b\x20
0?NoOp: hangUP ( )→hangUP|\x20
1?No Op(a)→No Op|a
# A `:` inside parentheses does not separate sides.
1?Set(A=b:c):Hangup→Set|A=b:c
0?Set(A=b:c):Hangup→Hangup|
0?NoOp:Set(A=b:c)→Set|A=b:c
1?Dial(SIP/1,20,G(a:b)):Hangup→Dial|SIP/1,20,G(a:b)
0?a:b:c→b:c|
0?NoOp(:Hangup→none
1?NoOp(:Hangup→NoOp|:Hangup
1?NoOp):Hangup→NoOp)|
0?NoOp):Hangup→Hangup|
# Arguments go up to the last `)`, and to the end without one.
1?Set(A=(b))→Set|A=(b)
1?Set(A=b)c→Set|A=b
1?Set(A=b)c)d→Set|A=b)c
1?Set(A=b→Set|A=b
1?Set(A=b →Set|A=b
1?Set(→Set|
1?Set((→Set|(
1?(a)→|a
1?()→|
1?)(→)|
# A second `?`, and a comma after the first.
1?Set(A=b?c)→Set|A=b?c
1?a?b→a?b|
0?a?b:c?d→c?d|
1?NoOp,a→NoOp,a|
# Commas inside parentheses before the first `?`.
(a,b)?NoOp→NoOp|
(a,b)?NoOp:Hangup→NoOp|
f(a,b)c?NoOp:Hangup→NoOp|
(0,?NoOp→NoOp|
# The old form.
1,NoOp→NoOp|
1,NoOp,→NoOp|
1,NoOp,a→NoOp|a
1,Set,A=b,c→Set|A=b,c
1, Set , A=b →Set| A=b\x20
1,Set,(A=b→Set|(A=b
1,Set,A=b?c:d→Set|A=b?c:d
1,Set?,A=b→Set?|A=b
0,NoOp,a→none
 0 ,NoOp,a→none
,NoOp,a→none
 ,NoOp,a→none
# The old form without an application.
→none
1→none
1,→none
1,,a→none
1, ,a→none
,→none
# Parentheses in the old form.
1,NoOp(a,b)→NoOp(a,b)|
1,NoOp(a,b),c→NoOp(a,b)|c
(1,0),NoOp,a→NoOp|a
(1,NoOp,a→none
(1,NoOp,a),NoOp→NoOp|
),NoOp,a→NoOp|a
),?NoOp→?NoOp|
";

/// The value of `IF`.
pub(super) struct IfValue;

impl Question for IfValue {
    fn answer(alloc: Global, asked: &str) -> Result<String, Fail> {
        let argument = bytes_of(alloc, asked)?;
        let mut out = String::new(alloc);
        push_bytes(&mut out, if_value(&argument))?;
        Ok(out)
    }
}

/// Arguments of `IF`.
pub(super) const VALUES: &str = r"
1?a:b→a
0?a:b→b
?a:b→b
-0?a:b→b
yes?a:b→a
 0 ?a:b→b
# Blanks at the ends of a side.
1? a b : c→a b
0?a:\tb c\t→b c
# Sides that are missing or blank.
1?a→a
0?a→
1?→
1?:b→
1? :b→
0?a:→
0?a: →
# No `?`.
→
1→
a→
1,a:b→
# Sides are cut at the first `:` outside parentheses.
1?a(b:c):d→a(b:c)
0?a(b:c):d→d
0?a:b:c→b:c
0?(a:b→
1?(a:b→(a:b
1?a):b→a)
# A condition ends at the first `?`.
1?a?b:c→a?b
0?a:b?c→b?c
1,0?a,b:c→a,b
";
