//! Reports on dialplans: their output and results.
use dp_commands::{PbxFault, check_explained};
use dp_commands_fixture::{Check, Command, Sink, check_table};
use dp_conf::Told;
use std::alloc::Global;
use std::test::Fail;

/// Each fault of a line.
const FAULT_LINES: &str = r"
[main]\nexten => _,1,A\n→fault 10 EmptyName line 2
[main]\nexten => _[],1,A\n→fault 11 EmptySet line 2
[main]\nexten => _[9-0],1,A\n→fault 12 BadRange line 2
[main]\nexten => _[12,1,A\n→fault 13 OpenSet line 2
[main]\nexten => _1.2,1,A\n→fault 14 AfterWildcard line 2
[main]\nexten => a b,1,A\n→fault 15 BadByte line 2
[main]\nexten => s,0,A\n→fault 20 BadPriority line 2
[main]\nexten => s,n,A\n→fault 21 NoPrevious line 2
[main]\nexten => s,1(),A\n→fault 22 BadLabel line 2
[main]\nexten => s,1,A(\n→fault 23 BadApplication line 2
[main]\nexten => s,hint,A\n→fault 24 LeftOut line 2
[main]\nsame => 1,A\n→fault 26 NoExten line 2
[main]\nexten => s,2147483648,A\n→fault 27 PriorityLimit line 2
[main]\nexten => s,1\n→fault 28 ShortLine line 2
[main]\nabc\n→fault 4 NoEquals line 2
[main]\n#include \x22x\x22\n→fault 5 Directive line 2
[main]\n[x\n→fault 3 BadHeader line 2
[main]\n[x](!)\n→fault 6 Template line 2
a=1\n→fault 2 NoSection line 1
[main]\nexten => s,01,A\n→ok 1 contexts 1 entries\nstatus 0
";

#[test]
fn faults_of_lines_are_reported(rt: HostRuntime) -> Result<(), Fail> {
    check_table::<Check>(rt.alloc(), FAULT_LINES)
}

/// The report on loading a dialplan with its notes explained, if the path of its file is `p`.
struct CheckExplained;

impl Command for CheckExplained {
    fn serve(alloc: Global, text: &[u8], writer: &mut Told<Sink>) -> Result<u8, PbxFault> {
        check_explained(alloc, "p", text, writer)
    }
}

/// Notes with their lines. At most 200 bytes of a line are shown, and bytes that are not printed are shown as `\xNN`. A fault comes alone.
const EXPLAINED: &str = r"
[main]\nexten => s,1,A\n→ok 1 contexts 1 entries\nstatus 0
[main]\nabc\n→fault 4 NoEquals line 2
[main]\nb=1\nabc\n→fault 4 NoEquals line 3
[main]\ninclude => out→note 2 UnknownContext\n  p:2\n  include => out\n  there is no context of this name; the include is kept, and finds nothing\nok 1 contexts 0 entries\nstatus 0
[main]\n\n\x20a = 1 ; x\r\nb=\xe9\x7f~\x1f\x20\n→note 3 UnknownKey\n  p:3\n  \x20a = 1 ; x\x5cx0d\n  a context has no such key, or a key in `[globals]` is empty, whatever its value is; this line is dropped\nnote 4 UnknownKey\n  p:4\n  b=\x5cxe9\x5cx7f~\x5cx1f\x20\n  a context has no such key, or a key in `[globals]` is empty, whatever its value is; this line is dropped\nok 1 contexts 0 entries\nstatus 0
\xef\xbb\xbf[main]\na=xxxxxxxxxxxxxxxxxxxxxxxxxxxxxxxxxxxxxxxxxxxxxxxxxxxxxxxxxxxxxxxxxxxxxxxxxxxxxxxxxxxxxxxxxxxxxxxxxxxxxxxxxxxxxxxxxxxxxxxxxxxxxxxxxxxxxxxxxxxxxxxxxxxxxxxxxxxxxxxxxxxxxxxxxxxxxxxxxxxxxxxxxxxxxxxxxxxxxxxxxxxxxxxxxx\n→note 2 UnknownKey\n  p:2\n  a=xxxxxxxxxxxxxxxxxxxxxxxxxxxxxxxxxxxxxxxxxxxxxxxxxxxxxxxxxxxxxxxxxxxxxxxxxxxxxxxxxxxxxxxxxxxxxxxxxxxxxxxxxxxxxxxxxxxxxxxxxxxxxxxxxxxxxxxxxxxxxxxxxxxxxxxxxxxxxxxxxxxxxxxxxxxxxxxxxxxxxxxxxxxxxxxxxxxxxx\n  a context has no such key, or a key in `[globals]` is empty, whatever its value is; this line is dropped\nok 1 contexts 0 entries\nstatus 0
";

#[test]
fn notes_are_explained(rt: HostRuntime) -> Result<(), Fail> {
    check_table::<CheckExplained>(rt.alloc(), EXPLAINED)
}
