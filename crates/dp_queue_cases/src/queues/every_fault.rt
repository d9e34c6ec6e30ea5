//! Every fault of a file of queues, worked out by hand from the rules.
use crate::queues::render::push_fault;
use dp_case_tables::{Question, bytes_of};
use dp_queue::{NoMemory, QueueFault, queue_faults};
use std::alloc::Global;
use std::test::Fail;

/// The faults of a file, each as `<fault CODE NAME line L>`, or `refused: fault CODE NAME line L` for a fault of the text itself.
pub(super) struct EveryQueueFault;

impl Question for EveryQueueFault {
    fn answer(alloc: Global, asked: &str) -> Result<String, Fail> {
        let text = bytes_of(alloc, asked)?;
        let found = queue_faults(alloc, &text);
        let mut out = String::new(alloc);
        push_found(&mut out, &found)?;
        Ok(out)
    }
}

fn push_faults(out: &mut String, faults: &[QueueFault]) -> Result<(), NoMemory> {
    for fault in faults {
        out.push_str("<")?;
        push_fault(out, *fault)?;
        out.push_str(">")?;
    }
    Ok(())
}

fn push_found(
    out: &mut String,
    found: &Result<Vec<QueueFault>, QueueFault>,
) -> Result<(), NoMemory> {
    match found {
        Ok(faults) => push_faults(out, faults),
        Err(fault) => {
            out.push_str("refused: ")?;
            push_fault(out, *fault)
        }
    }
}

/// Files with all their faults.
pub(super) const EVERY: &str = r"
# None: nothing, what is ignored, and members that are skipped.
→
[general]\nstrategy=x\nmaxlen=x\n→
[q]\nstrategy=linear\nmember => A,2\nmember => A\nmember =>\nweight=x\n→
# One, in the first line of a queue, between others and in the last line.
[q]\nstrategy=x\nmaxlen=1\n→<fault 30 BadStrategy line 2>
[q]\nmaxlen=1\nmember => A,x\nmaxlen=2\n→<fault 31 BadNumber line 3>
[q]\nmember => A\njoinempty=x→<fault 32 LeftOut line 3>
[q]\n[Q]→<fault 33 DoubleQueue line 2>
# Several of each kind, also alike, in the order of the lines.
[q]\nstrategy=x\nstrategy=random\nmaxlen=-1\nmaxlen=2147483648\nmember => A,x\njoinempty=x\nleavewhenempty=x\n[q]\n→<fault 30 BadStrategy line 2><fault 32 LeftOut line 3><fault 31 BadNumber line 4><fault 31 BadNumber line 5><fault 31 BadNumber line 6><fault 32 LeftOut line 7><fault 32 LeftOut line 8><fault 33 DoubleQueue line 9>
[q]\nmaxlen=x\n\n; x\nmaxlen=x\nmaxlen=1\nmaxlen=x\n→<fault 31 BadNumber line 2><fault 31 BadNumber line 5><fault 31 BadNumber line 7>
[a]\nmaxlen=x\n[b]\nmaxlen=x\n→<fault 31 BadNumber line 2><fault 31 BadNumber line 4>
# The pairs after a second header of one name belong to the section before it.
[q]\n[q]\nmaxlen=x\n[q]\n→<fault 33 DoubleQueue line 2><fault 31 BadNumber line 3><fault 33 DoubleQueue line 4>
[q]\n[general]\n[q]\nmaxlen=x\n→<fault 33 DoubleQueue line 3>
# A fault of the text itself is reported alone, wherever it is.
[q]\nmaxlen=x\nabc\nmaxlen=x\n→refused: fault 4 NoEquals line 3
maxlen=x\n[q]\nmaxlen=x\n→refused: fault 2 NoSection line 1
";
