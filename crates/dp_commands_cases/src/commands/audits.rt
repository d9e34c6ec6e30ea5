//! The findings of audits.
use dp_case_tables::{Question, bytes_of, check};
use dp_commands::audit;
use dp_commands_fixture::{make_sink, outcome_text};
use std::alloc::Global;
use std::test::Fail;

/// Dialplans, and the findings in them. Those of the first groups come after a header `[c]`.
const IN_CONTEXT: &str = r"
→ok 0 findings\nstatus 0

# applications, in any case
exten => s,1,NOOP()\n same => n,goto(s,1)\n same => n,DIAL(x)\n same => n,UnpauseQueueMember(q,a)→ok 0 findings\nstatus 0
exten => s,1,No()\n same => n,Hangups()\n same => n,NoOp()→NoApplication c,s,1 No\nNoApplication c,s,2 Hangups\nok 2 findings\nstatus 1

# targets: a priority, an extension and a priority, a label
exten => s,1(a),Goto(2)\n same => n,Goto(s,a)\n same => n,Goto(c,s,1)\n same => n,Goto(b)→NoTarget c,s,4 b\nok 1 findings\nstatus 1
exten => s,1,Goto(4)\n same => n,Goto(t,1)\n same => n,Goto(d,s,1)→NoTarget c,s,1 4\nNoTarget c,s,2 t,1\nNoTarget c,s,3 d,s,1\nok 3 findings\nstatus 1
exten => s,1,Goto()\n same => n,Goto(s,0)\n same => n,Goto(c,s,1,1)\n same => n,Goto( c , s , 1 )→NoTarget c,s,1 \nNoTarget c,s,2 s,0\nNoTarget c,s,3 c,s,1,1\nok 3 findings\nstatus 1

# a target is found as a call finds it
exten => s,1,Goto(123,2)\nexten => _1XX,2,NoOp()\nexten => _1XX,1,NoOp()→ok 0 findings\nstatus 0

# a pattern's own extension is not checked, and neither is a computed target
exten => _X,1,Goto(9)\n same => n,Goto(${EXTEN},1)\n same => n,Goto($[1+1])\n same => n,Goto(s,9)→NoTarget c,_X,4 s,9\nok 1 findings\nstatus 1

# sides of a choice
exten => s,1,GotoIf(1?2:9)\n same => n,GotoIf($[${EXTEN} = s]?8)\n same => n,GotoIf(0?:7)\n same => n,GotoIf(1)\n same => n,GotoIf(1? )→NoTarget c,s,1 9\nNoTarget c,s,2 8\nNoTarget c,s,3 7\nok 3 findings\nstatus 1

# a bracket that ends a group is not in a target
exten => s,1,GotoIf($[${EXTEN} = a?b]?9:8)→NoTarget c,s,1 8\nok 1 findings\nstatus 1

# subroutines, whose arguments are not part of the target
exten => s,1,Gosub(c,s,2(a,${EXTEN}))\n same => n,Gosub(x,1(a))\n same => n,GosubIf(1?s,1:s,9(b:c))→NoTarget c,s,2 x,1(a)\nNoTarget c,s,3 s,9(b:c)\nok 2 findings\nstatus 1

# missing priorities
exten => s,1,NoOp()\nexten => s,3,NoOp()\nexten => s,4,NoOp()→Gap c,s,1 2\nok 1 findings\nstatus 1
exten => s,1,NoOp()\nexten => s,3,NoOp()\nexten => _!,2,NoOp()\nexten => _!,1,NoOp()→ok 0 findings\nstatus 0
exten => _X,1,NoOp()\nexten => _X,3,NoOp()→ok 0 findings\nstatus 0

# no first priority
exten => s,2,NoOp()\n same => n,NoOp()→NoFirst c,s,2\nok 1 findings\nstatus 1
exten => 1,2,NoOp()\nexten => _X,1,NoOp()→ok 0 findings\nstatus 0
exten => _1X,2,NoOp()\nexten => _XX,1,NoOp()→NoFirst c,_1X,2\nok 1 findings\nstatus 1

# variables
exten => s,1,NoOp(${A} ${EXTEN} ${A:1} ${LEN(${B})} ${${CONTEXT}X})→Unset c,s,1 A\nUnset c,s,1 A\nUnset c,s,1 B\nok 3 findings\nstatus 1
exten => s,1,Set(A=1)\n same => n,Set(LOCAL(B)=2)\n same => n,Set(GLOBAL(C)=${D})\n same => n,NoOp(${A}${B}${C}${a})→Unset c,s,3 D\nUnset c,s,4 a\nok 2 findings\nstatus 1
exten => s,1,NoOp(${DIALSTATUS}${QUEUESTATUS}${AQMSTATUS}${RQMSTATUS}${PQMSTATUS}${UPQMSTATUS}${GOSUB_RETVAL}${INVALID_EXTEN}${PRIORITY}${CHANNEL})→ok 0 findings\nstatus 0
exten => s,1,Gosub(s,1(x,y))\n same => n,NoOp(${ARG1}${ARG2}${ARG3}${ARG0})→Unset c,s,2 ARG3\nUnset c,s,2 ARG0\nok 2 findings\nstatus 1
exten => s,1,Gosub(s,1())\n same => n,NoOp(${ARG1}${X)→Unset c,s,2 ARG1\nok 1 findings\nstatus 1

# labels
exten => s,1(a),NoOp()\n same => n(b),Goto(b)→Unused c,s,1 a\nok 1 findings\nstatus 1
exten => s,1(a),NoOp()\n same => n(b),Goto(${EXTEN},b)→ok 0 findings\nstatus 0
exten => s,1(a),NoOp()\n same => n,GosubIf(1?a(x):s,1)→ok 0 findings\nstatus 0

# arguments of an application that the table lacks may name a label, whole and in its own case; those of other applications do not
exten => s,1,GotoIfTime(9:00-17:00,mon-fri,*,*?open:closed,s,1)\n same => n(open),NoOp()\n same => n(closed),NoOp()→NoApplication c,s,1 GotoIfTime\nok 1 findings\nstatus 1
exten => s,1,GotoIfTime(*,*,*,*? open : closed ,s,1)\n same => n(ope),NoOp()\n same => n(opened),NoOp()\n same => n(Open),NoOp()\n same => n(open),NoOp()→NoApplication c,s,1 GotoIfTime\nUnused c,s,2 ope\nUnused c,s,3 opened\nUnused c,s,4 Open\nok 4 findings\nstatus 1
exten => s,1(c),Say(a b, c )\n same => n(a),NoOp()\n same => n(b),NoOp()\n same => n(a b),NoOp()→NoApplication c,s,1 Say\nUnused c,s,2 a\nUnused c,s,3 b\nok 3 findings\nstatus 1
exten => s,1,NoOp(open)\n same => n(open),NoOp(1?open:open)→Unused c,s,2 open\nok 1 findings\nstatus 1
exten => s,1,Later()\n same => n(a),Later(${a})→NoApplication c,s,1 Later\nNoApplication c,s,2 Later\nUnset c,s,2 a\nUnused c,s,2 a\nok 4 findings\nstatus 1

# so may the text before a `:`, within parentheses and around a `^`
exten => s,1,Later(1?c,s,a:c,s,b)\n same => n(a),NoOp()\n same => n(b),NoOp()→NoApplication c,s,1 Later\nok 1 findings\nstatus 1
exten => s,1,Later(1?Gosub(s,a(1)):Goto(b))\n same => n(a),Bridge(1,F(c^s^d))\n same => n(b),NoOp()\n same => n(d),NoOp()→NoApplication c,s,1 Later\nNoApplication c,s,2 Bridge\nok 2 findings\nstatus 1

# of a label with such a byte, the part before the first one counts
exten => s,1,Later(a:b)\n same => n(a:b),NoOp()\n same => n(c:b),NoOp()→NoApplication c,s,1 Later\nUnused c,s,3 c:b\nok 2 findings\nstatus 1

# all findings of one entry, in their order
exten => s,2(a),No(${X})\nexten => s,4,Goto(9)→NoApplication c,s,2 No\nGap c,s,2 3\nNoFirst c,s,2\nUnset c,s,2 X\nUnused c,s,2 a\nNoTarget c,s,4 9\nok 6 findings\nstatus 1
";

/// Dialplans of several contexts.
const ROWS: &str = r"
# the globals
[globals]\nA=1\n[c]\nexten => s,1,NoOp(${A}${B})\n→Unset c,s,1 B\nok 1 findings\nstatus 1

# contexts that include themselves
[a]\ninclude => a\n[b]\ninclude => c\ninclude => none\n[c]\ninclude => b\nexten => s,1,No()\n[d]\ninclude => b\n→Cycle a\nCycle b\nCycle c\nNoApplication c,s,1 No\nok 4 findings\nstatus 1

# an included context is searched for targets, for what comes after a gap and for a beginning
[a]\nexten => s,1,Goto(t,1)\nexten => s,3,NoOp()\nexten => u,2,NoOp()\nexten => _X,2,NoOp()\ninclude => b\n[b]\nexten => t,1,NoOp()\nexten => s,2,NoOp()\nexten => u,1,NoOp()\nexten => _X,1,NoOp()\n→NoFirst b,s,2\nok 1 findings\nstatus 1

# an entry is hidden by one of the same name and priority in a context before its own, and not by another priority or name
[a]\nexten => s,1,NoOp()\nexten => 1,1,NoOp()\ninclude => b\n[b]\nexten => s,1,NoOp()\nexten => s,2,NoOp()\nexten => _X,1,NoOp()\n→Hidden b,s,1 a\nok 1 findings\nstatus 1
[a]\nexten => s,1,NoOp()\nexten => s,3,NoOp()\ninclude => b\n[b]\nexten => s,1,NoOp()\nexten => s,2,NoOp()\n→Hidden b,s,1 a\nok 1 findings\nstatus 1

# two spellings of a name have one meaning
[a]\nexten => _[0-9].,1,NoOp()\ninclude => b\n[b]\nexten => _X.,1,NoOp()\n→Hidden b,_X.,1 a\nok 1 findings\nstatus 1

# each context from which it is hidden is reported, in the order of the file, also through others; the one that includes need not have it
[a]\ninclude => b\n[b]\ninclude => c\ninclude => d\n[c]\nexten => s,1,NoOp()\n[d]\nexten => s,1,NoOp()\n[e]\ninclude => d\ninclude => c\n→Hidden c,s,1 e\nHidden d,s,1 a\nHidden d,s,1 b\nok 3 findings\nstatus 1

# contexts that include each other hide each other's entries, and a context that includes itself hides nothing
[a]\nexten => s,1,NoOp()\ninclude => b\n[b]\nexten => s,1,NoOp()\ninclude => a\n→Cycle a\nHidden a,s,1 b\nCycle b\nHidden b,s,1 a\nok 4 findings\nstatus 1
[a]\nexten => s,1,NoOp()\ninclude => a\ninclude => a\n→Cycle a\nok 1 findings\nstatus 1

# it comes after the findings on priorities, and before the findings on texts
[a]\nexten => s,2,NoOp()\ninclude => b\n[b]\nexten => s,2(x),NoOp(${X})\n→NoFirst a,s,2\nNoFirst b,s,2\nHidden b,s,2 a\nUnset b,s,2 X\nUnused b,s,2 x\nok 5 findings\nstatus 1

# a label is named wherever the target leads
[a]\nexten => s,1(x),Goto(b,s,x)\n[b]\nexten => s,1(x),NoOp()\n→ok 0 findings\nstatus 0
[a]\nexten => s,1(x),NoOp()\n[b]\nexten => s,1(y),Later(x)\n→NoApplication b,s,1 Later\nUnused b,s,1 y\nok 2 findings\nstatus 1

# a faulty dialplan
abc\n→fault 2 NoSection line 1
";

/// The findings in a dialplan, followed by the result.
fn findings_of(alloc: Global, plan: &[u8]) -> Result<String, Fail> {
    let mut writer = make_sink(alloc, 4096, None);
    let ended = audit(alloc, plan, &mut writer);
    let lines = outcome_text(alloc, ended, writer)?;
    Ok(lines)
}

struct InContext;

impl Question for InContext {
    fn answer(alloc: Global, asked: &str) -> Result<String, Fail> {
        let lines = bytes_of(alloc, asked)?;
        let mut plan = Vec::from_slice(alloc, b"[c]\n")?;
        plan.extend_from_slice(&lines)?;
        findings_of(alloc, &plan)
    }
}

struct AuditInPlan;

impl Question for AuditInPlan {
    fn answer(alloc: Global, asked: &str) -> Result<String, Fail> {
        let plan = bytes_of(alloc, asked)?;
        findings_of(alloc, &plan)
    }
}

#[test]
fn findings_are_reported(rt: HostRuntime) -> Result<(), Fail> {
    check::<InContext>(rt.alloc(), IN_CONTEXT)?;
    check::<AuditInPlan>(rt.alloc(), ROWS)
}
