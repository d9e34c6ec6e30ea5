//! The effect of an `ExecIf` on a channel, worked out by hand from the rules.
use crate::choices::push_run;
use dp_case_tables::{Question, bytes_of, text_of};
use dp_conf::cut_once;
use dp_vars::Globals;
use std::alloc::Global;
use std::test::Fail;

/// Where an application with its arguments after a bar sends a channel, and the variable `A` after it. No clock is set.
pub(super) struct Ran;

impl Question for Ran {
    fn answer(alloc: Global, asked: &str) -> Result<String, Fail> {
        let text = bytes_of(alloc, asked)?;
        let Some((name, arguments)) = cut_once(&text, b'|') else {
            return text_of(alloc, "no bar");
        };
        let mut globals = Globals::new(alloc);
        let mut out = String::new(alloc);
        push_run(&mut out, alloc, &mut globals, name, arguments)?;
        Ok(out)
    }
}

/// One `ExecIf`, or one inside another.
pub(super) const RUNS: &str = r"
# The application of the side that is taken, in any case.
ExecIf|1?Set(A=1)→next, A=1
ExecIf|0?Set(A=1)→next
ExecIf|1?Set(A=1):Set(A=2)→next, A=1
ExecIf|0?Set(A=1):Set(A=2)→next, A=2
EXECIF|1?sET(A=1)→next, A=1
execif|1? Set (A=1) →next, A=1
ExecIf|1?Set(A=1:2):Hangup→next, A=1:2
ExecIf|1?→next
ExecIf|→next
# It goes where the application goes.
ExecIf|1?NoOp→next
ExecIf|1?Hangup→hang
ExecIf|0?NoOp:hangup()→hang
ExecIf|1?Goto(main,s,2)→jump|main|s|2
ExecIf|0?Goto(2):Goto(3)→jump|3
ExecIf|1?GotoIf(0?5:6):NoOp→jump|6
ExecIf|1?Gosub(s,1)→call|s|1
ExecIf|1?Return→hang
ExecIf|1?Wait(1)→park
ExecIf|1?Dial(SIP/1)→park
ExecIf|1?GotoIfTime(*?5:6)→jump|6
# A name that the table lacks.
ExecIf|1?Macro(m)→hang
ExecIf|0?Macro(m)→next
ExecIf|0?NoOp:Macro(m)→hang
ExecIf|1?ExecIff(1?NoOp)→hang
ExecIf|1?(A=1)→hang
# The old form.
ExecIf|1,Set,A=1→next, A=1
ExecIf|1,set,A=1,B=2→next, A=1,B=2
ExecIf|0,Set,A=1→next
ExecIf|1,Hangup→hang
ExecIf|1,Set(A=1)→hang
ExecIf|1→next
# One inside another.
ExecIf|1?ExecIf(1?Set(A=1))→next, A=1
ExecIf|1?ExecIf(0?Set(A=1):Set(A=2)):Set(A=3)→next, A=2
ExecIf|0?ExecIf(1?Set(A=1)):ExecIf(1?Set(A=3))→next, A=3
ExecIf|0?Set(A=1):ExecIf(0?Set(A=2))→next
ExecIf|1?execIF(1,Set,A=4)→next, A=4
ExecIf|1,ExecIf,1?Set(A=5)→next, A=5
ExecIf|1,ExecIf,1,Set,A=6→next, A=6
ExecIf|1?ExecIf→next
ExecIf|1?ExecIf()→next
ExecIf|1?ExecIf(1?Macro(m))→hang
ExecIf|1?ExecIf(1?Goto(7))→jump|7
";

/// Several inside each other.
pub(super) const DEPTHS: &str = r"
# Seven inside one.
ExecIf|1?ExecIf(1?ExecIf(1?ExecIf(1?ExecIf(1?ExecIf(1?ExecIf(1?ExecIf(1?Set(A=8))))))))→next, A=8
# One inside eight others, whatever it would run.
ExecIf|1?ExecIf(1?ExecIf(1?ExecIf(1?ExecIf(1?ExecIf(1?ExecIf(1?ExecIf(1?ExecIf(1?Set(A=9)))))))))→hang
ExecIf|1?ExecIf(1?ExecIf(1?ExecIf(1?ExecIf(1?ExecIf(1?ExecIf(1?ExecIf(1?ExecIf(0?Set(A=9)))))))))→hang
ExecIf|1?ExecIf(1?ExecIf(1?ExecIf(1?ExecIf(1?ExecIf(1?ExecIf(1?ExecIf(1?execif)))))))→hang
# And one more.
ExecIf|1?ExecIf(1?ExecIf(1?ExecIf(1?ExecIf(1?ExecIf(1?ExecIf(1?ExecIf(1?ExecIf(1?ExecIf(1?Set(A=10))))))))))→hang
# Sides that are not taken do not count.
ExecIf|0?ExecIf(1?ExecIf(1?ExecIf(1?ExecIf(1?ExecIf(1?ExecIf(1?ExecIf(1?ExecIf(1?Set(A=8))))))))):Set(A=2)→next, A=2
ExecIf|1?ExecIf(1?ExecIf(1?ExecIf(1?ExecIf(1?ExecIf(1?ExecIf(1?ExecIf(0?ExecIf(1?Set(A=9)))))))))→next
";
