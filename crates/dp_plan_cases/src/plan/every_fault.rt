//! Every fault of a text, worked out by hand from the rules.
use crate::plan::render::push_fault;
use dp_case_tables::{Question, bytes_of};
use dp_plan::{LoadFault, NoMemory, plan_faults};
use std::alloc::Global;
use std::test::Fail;

/// The faults of a text, each as `<fault CODE line L>`, or `refused: fault CODE line L` for a fault of the text itself.
pub(super) struct EveryPlanFault;

impl Question for EveryPlanFault {
    fn answer(alloc: Global, asked: &str) -> Result<String, Fail> {
        let text = bytes_of(alloc, asked)?;
        let found = plan_faults(alloc, &text);
        let mut out = String::new(alloc);
        push_found(&mut out, &found)?;
        Ok(out)
    }
}

fn push_faults(out: &mut String, faults: &[LoadFault]) -> Result<(), NoMemory> {
    for fault in faults {
        out.push_str("<")?;
        push_fault(out, *fault)?;
        out.push_str(">")?;
    }
    Ok(())
}

fn push_found(out: &mut String, found: &Result<Vec<LoadFault>, LoadFault>) -> Result<(), NoMemory> {
    match found {
        Ok(faults) => push_faults(out, faults),
        Err(fault) => {
            out.push_str("refused: ")?;
            push_fault(out, *fault)
        }
    }
}

/// Texts with all their faults.
pub(super) const EVERY: &str = r"
# No fault: an empty text, settings, and lines that are dropped or noted.
→
[general]\nexten => s,0,A\n→
[m]\nexten => s,1,A\nsame => n,B\n→
[m]\nexten => s,1,A\nexten => s,1,B\ninclude => x\nfoo=1\n[globals]\n=1\n→
# One fault: in the first line of a context, between other lines, and in the last line.
[m]\nexten => s,0,A\nexten => s,1,B\n→<fault 20 line 2>
[m]\nexten => s,1,A\nexten => s,0,B\nexten => s,2,C\n→<fault 20 line 3>
[m]\nexten => s,1,A\nexten => s,0,B→<fault 20 line 3>
# Several faults of each kind, some of them the same, in the order of the lines.
[m]\nexten => _,1,A\nexten => _[],1,A\nexten => _[9-0],1,A\nexten => _[12,1,A\nexten => _1.2,1,A\nexten => a b,1,A\n→<fault 10 line 2><fault 11 line 3><fault 12 line 4><fault 13 line 5><fault 14 line 6><fault 15 line 7>
[m]\nexten => s,0,A\nexten => s,n,A\nexten => s,1(),A\nexten => s,1,A(\nexten => s,hint,A\nsame => 1,A\nexten => s,2147483648,A\nexten => s,1\n→<fault 20 line 2><fault 21 line 3><fault 22 line 4><fault 23 line 5><fault 24 Hint line 6><fault 26 line 7><fault 27 line 8><fault 28 line 9>
[m]\nswitch => x\nLSwitch => x\neswitch => x\nignorepat => 9\ninclude => a,b\nexten => s/1,1,A\nexten => ${X},1,A\nexten => s,1,A,b\nexten => s,next,A\n→<fault 24 Switch line 2><fault 24 Switch line 3><fault 24 Switch line 4><fault 24 IgnorePat line 5><fault 24 IncludeTimes line 6><fault 24 CallerId line 7><fault 24 Variable line 8><fault 24 OldForm line 9><fault 24 PriorityWord line 10>
[m]\nexten => s,0,A\n\n; x\nexten => s,0,A\nexten => s,1,A\nexten => s,0,A\n→<fault 20 line 2><fault 20 line 5><fault 20 line 7>
# One fault for each line: the first that is met in it.
[m]\nexten => a b,hint,A(\nexten => s,0(),A\n→<fault 15 line 2><fault 20 line 3>
# `same` continues the extension of the last line without a fault.
[m]\nexten => s,1,A\nexten => t,0,B\nsame => n,C\n→<fault 20 line 3>
[m]\nexten => s,2147483647,A\nexten => t,1,B(\nsame => n,C\n→<fault 23 line 3><fault 27 line 4>
[m]\nexten => t,0,B\nsame => n,C\nsame => 1,D\n→<fault 20 line 2><fault 26 line 3><fault 26 line 4>
[m]\nexten => s,1,A\nsame => 0,B\nsame => n\nsame => n,C\n→<fault 20 line 3><fault 28 line 4>
[a]\nexten => s,1,A\n[b]\nexten => t,0,B\nsame => n,C\n→<fault 20 line 4><fault 26 line 5>
# `n` counts from the last line of its extension without a fault, even if that line is dropped.
[m]\nexten => s,0,A\nexten => s,n,B\nexten => s,n,C\n→<fault 20 line 2><fault 21 line 3><fault 21 line 4>
[m]\nexten => s,2147483646,A\nexten => s,2147483647(),B\nexten => s,n,C\nexten => s,n,D\n→<fault 22 line 3><fault 27 line 5>
[m]\nexten => s,2147483646,A\nexten => s,1,B\nexten => s,1(),C\nexten => s,1,D\nexten => s,n,E\n→<fault 22 line 4>
# Global variables, and arguments after them.
[globals]\nA=${${${${${${${${${${${${${${${${${${${${${${${${${${${${${${${${${}}}}}}}}}}}}}}}}}}}}}}}}}}}}}}}}}\nB=1\nC=${${${${${${${${${${${${${${${${${${${${${${${${${${${${${${${${${}}}}}}}}}}}}}}}}}}}}}}}}}}}}}}}}}\n=x\n[m]\nexten => s,1,A(${${${${${${${${${${${${${${${${${${${${${${${${${${${${${${${${${}}}}}}}}}}}}}}}}}}}}}}}}}}}}}}}}})\n→<fault 25 line 2><fault 25 line 4><fault 25 line 7>
# A fault of the text itself is the only one, wherever it is.
[m]\nexten => s,0,A\n;-- x\nexten => s,0,B\n→refused: fault 1 line 3
a=1\n[m]\nexten => s,0,A\n→refused: fault 2 line 1
[m]\nexten => s,0,A\n[x\n→refused: fault 3 line 3
[m]\nexten => s,0,A\nabc\nexten => s,0,B\nabc\n→refused: fault 4 line 3
[m]\nexten => s,0,A\n#x\n→refused: fault 5 line 3
[m]\nexten => s,0,A\n[x](!)\n→refused: fault 6 line 3
";
