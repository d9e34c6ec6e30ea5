//! The effect of a `GotoIfTime` on a channel, worked out by hand from the rules.
use crate::choices::push_run;
use dp_case_tables::{Question, bytes_of, text_of};
use dp_conf::cut_once;
use dp_vars::Globals;
use std::alloc::Global;
use std::test::Fail;

/// Where a `GotoIfTime` sends a channel, given the clock, where `-` is an unset one, and its arguments after a bar.
pub(super) struct Timed;

impl Question for Timed {
    fn answer(alloc: Global, asked: &str) -> Result<String, Fail> {
        let text = bytes_of(alloc, asked)?;
        let Some((clock, arguments)) = cut_once(&text, b'|') else {
            return text_of(alloc, "no bar");
        };
        let mut globals = Globals::new(alloc);
        if clock != b"-".as_slice() {
            globals.put(alloc, b"CLOCK", clock)?;
        }
        let mut out = String::new(alloc);
        push_run(&mut out, alloc, &mut globals, b"gotoIFtime", arguments)?;
        Ok(out)
    }
}

/// Times, weekdays, days and months.
pub(super) const RANGES: &str = r"
# All four.
Sat 2026-11-28 12:44|9:00-17:00,mon-sat,20-30,oct-dec?5:6→jump|5
Sat 2026-11-28 12:44|9:00-12:43,mon-sat,20-30,oct-dec?5:6→jump|6
Sat 2026-11-28 12:44|9:00-17:00,mon-fri,20-30,oct-dec?5:6→jump|6
Sat 2026-11-28 12:44|9:00-17:00,mon-sat,20-27,oct-dec?5:6→jump|6
Sat 2026-11-28 12:44|9:00-17:00,mon-sat,20-30,dec?5:6→jump|6
Sat 2026-11-28 12:44|*,*,*,*?5:6→jump|5
Sat 2026-11-28 12:44|8:00-9:00&12:00-13:00,sat&sun,28,11?5:6→jump|5
Sat 2026-11-28 12:44| 9:00 - 17:00 , sat , 28 , nov ?5:6→jump|5
# Ranges that wrap around.
Sat 2026-11-28 23:30|22:00-06:00,fri-mon,28-3,nov-feb?5:6→jump|5
Sun 2026-11-29 06:00|22:00-06:00,fri-mon,28-3,nov-feb?5:6→jump|5
Sun 2026-11-29 06:01|22:00-06:00,fri-mon,28-3,nov-feb?5:6→jump|6
Thu 2026-12-31 23:30|22:00-06:00,fri-mon,28-3,nov-feb?5:6→jump|6
Fri 2027-01-01 00:00|22:00-06:00,fri-mon,28-3,nov-feb?5:6→jump|5
Mon 2027-01-04 00:00|22:00-06:00,fri-mon,28-3,nov-feb?5:6→jump|6
Mon 2027-03-01 00:00|22:00-06:00,fri-mon,28-3,nov-feb?5:6→jump|6
# Too few parts: missing ones are all.
Sat 2026-11-28 12:44|?5:6→jump|5
Sat 2026-11-28 12:44|12:44?5:6→jump|5
Sat 2026-11-28 12:44|12:45?5:6→jump|6
Sat 2026-11-28 12:44|,sat?5:6→jump|5
Sat 2026-11-28 12:44|,sun?5:6→jump|6
Sat 2026-11-28 12:44|,,28?5:6→jump|5
Sat 2026-11-28 12:44|,,,dec?5:6→jump|6
# Too many parts: a zone has no effect, and neither has what comes after it.
Sat 2026-11-28 12:44|*,*,*,nov,Europe/Berlin?5:6→jump|5
Sat 2026-11-28 12:44|*,*,*,dec,Europe/Berlin?5:6→jump|6
Sat 2026-11-28 12:44|*,*,*,*,0:00-0:01,dec,x,?5:6→jump|5
# Not a range.
Sat 2026-11-28 12:44|noon?5:6→jump|6
Sat 2026-11-28 12:44|noon&12:44?5:6→jump|5
Sat 2026-11-28 12:44|(*,*,*,*)?5:6→jump|6
";

/// Targets.
pub(super) const SIDES: &str = r"
# One side, or a side that is missing.
Sat 2026-11-28 12:44|*?5→jump|5
Sat 2026-11-28 12:44|*?5:→jump|5
Sat 2026-11-28 12:44|*?:6→next
Sat 2026-11-28 12:44|*? :6→next
Sat 2026-11-28 12:44|*?→next
Sat 2026-11-28 12:44|0:00?5→next
Sat 2026-11-28 12:44|0:00?5:→next
Sat 2026-11-28 12:44|0:00?5:\t→next
Sat 2026-11-28 12:44|0:00?:6→jump|6
# Targets of several parts.
Sat 2026-11-28 12:44|*?open,s,1:closed,s,1→jump|open|s|1
Sat 2026-11-28 12:44|0:00?open,s,1:closed,s,1→jump|closed|s|1
Sat 2026-11-28 12:44|*? open , s , 1 :6→jump|open|s|1
Sat 2026-11-28 12:44|*?a,b,c,d→jump|more than three parts
# Where sides are cut.
Sat 2026-11-28 12:44|*?s(a:b),1:6→jump|s(a:b)|1
Sat 2026-11-28 12:44|0:00?s(a:b),1:6→jump|6
Sat 2026-11-28 12:44|0:00?5:6:7→jump|6:7
Sat 2026-11-28 12:44|*?5?6:7→jump|5?6
# No `?`.
Sat 2026-11-28 12:44|*,*,*,*→next
Sat 2026-11-28 12:44|5:6→next
Sat 2026-11-28 12:44|→next
";

/// Invalid clocks, which lie in no range. The channel's variable `CLOCK` has no effect.
pub(super) const CLOCKS: &str = r"
-|*,*,*,*?5:6→jump|6
-|?5:6→jump|6
-|*?5→next
-|*?5:→next
-|*→next
-|→next
|*?5:6→jump|6
noon|*?5:6→jump|6
2026-11-28 12:44|*?5:6→jump|6
Sat 2026-11-28|*?5:6→jump|6
Sat 2026-11-28 25:00|*?5:6→jump|6
Sat 2026-11-28 12:44 |*?5:6→jump|6
sat 2026-11-28 12:44|*?5:6→jump|5
";
