//! What the applications of the wide table owe because of the pieces of their arguments, worked out by hand from the rules.
use crate::pieces::duties::{area_of, duties_line};
use crate::pieces::notation::pieces_of;
use dp_case_tables::Question;
use dp_wide_duties::duties;
use std::alloc::Global;
use std::test::Fail;

/// An application, then the pieces of its arguments after a bar. The channel is in `from`, at an extension of digits.
pub(super) struct WideOwed;

impl Question for WideOwed {
    fn answer(alloc: Global, asked: &str) -> Result<String, Fail> {
        let (application, notation) = asked.split_once('|').ok_or("no arguments")?;
        let arguments = pieces_of(alloc, notation)?;
        let owed = duties(alloc, application.as_bytes(), &area_of(alloc)?, &arguments)?;
        duties_line(alloc, &owed)
    }
}

/// Where each leads, and which names may have which bytes.
pub(super) const WIDE_OWED: &str = r"
NoOp|x→
busy|→
Ringing|x→
SayDigits|1→
Playtones|x→
Nothing|x→anything
|→anything
# A name and its value: a variable, a cell, or what a function names.
Set|X=ab→X {ab}
Set| __X =a→X {a}
Set|X={0-9}*→X {0123456789}
Set|DB(x)=1→DB(x) {1}
Set|DB({0-9})=1→each {()0123456789=BD} ; caller {()0123456789=BD}
Set|CALLERID(num)=1→caller {1}
Set|CALLERID(number)=1→caller {1}
Set|CALLERID(name)=a→CALLERID(name) {a}
Set|CALLERID(all)=a→caller {a} ; CALLERID(name) {a}
Set|GLOBAL(X)=a→X {a}
Set|LOCAL(X)=a→X {a}
Set|ARRAY(X,Y)=1→each {1} ; caller {1}
Set|DB_DELETE(x)=1→
Set|HASH(x)=1→
Set|=1→
Set|{ab}=1→each {1=ab} ; caller {1=ab}
Set|X→each {X} ; caller {X}
MSet|X=1→each {1=X} ; caller {1=X}
# Keys that are deleted, and names for input.
DBdel|x→
DBdeltree|x/→DBdeltree(x) {1}
DBdeltree|→ASSUMED(DB) {1}
DBdeltree|{ab}→each {1}
Read|X→READ() {,X}
ReadExten|{0-9}*→READ() {,0123456789}
# The sides of a choice by the clock.
GotoIfTime|*,*,*,*?2:s,3→to from,{0123456789}* ; to from,s
# Subroutines with the number of their arguments, and macros.
Gosub|sub,s,1(a)→ARGC {0123456789} ; to sub,s ; ARG1 {a}
GosubIf|x?sub,1(a)→ARGC {0123456789} ; to from,sub ; ARG1 {a}
GosubIf|x→
Macro| m →MACRO_EXTEN {0123456789} ; MACRO_CONTEXT {fmor} ; MACRO_PRIORITY {0123456789} ; ARGC {0123456789} ; to macro-m,s
Macro|m,a→MACRO_EXTEN {0123456789} ; MACRO_CONTEXT {fmor} ; MACRO_PRIORITY {0123456789} ; ARGC {0123456789} ; to macro-m,s ; ARG1 {a}
Macro|{,}→MACRO_EXTEN {0123456789} ; MACRO_CONTEXT {fmor} ; MACRO_PRIORITY {0123456789} ; ARGC {0123456789} ; to macro-{,}*,s ; each {,}
MacroExit|→
# The application of a side, up to eight inside each other; one that is not known may do anything. Where a parenthesis may stand in a part
# that is not known, so may the end of a side.
ExecIf|a?Set(X=1)→X {1}
ExecIf|a?Goto(2):Set(X=1)→to from,{0123456789}* ; X {1}
ExecIf|a?: Hangup →
ExecIf|a?Nothing→anything
ExecIf|a?ExecIf(b?Set(X=1))→X {1}
ExecIf|a?Set(X={)}*→anything
ExecIf|a?Set(X={)}*)→anything
ExecIf|a?{ab}*→anything
ExecIf|a?{:}→anything
ExecIf|{?}a→anything
ExecIf|a,Set,X=1→anything
ExecIf|{,}?Set(X=1)→anything
ExecIf|a→anything
# One of the twenty-one.
Dial|x→DIALSTATUS {ACHILNUV}
Return|ab→GOSUB_RETVAL {ab}
";
