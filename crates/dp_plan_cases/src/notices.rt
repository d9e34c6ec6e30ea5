//! Reports on dialplans that are read from files, worked out by hand from the rules of configuration files.
use dp_case_tables::{Question, bytes_of, check, push_bytes, text_of};
use dp_conf::Text;
use dp_files::{FileMap, MadeLine, NamedText};
use dp_notices::{
    Assumptions, Moment, PlanFiles, Shown, check_plan, print_notices, read_moment, read_plan,
};
use std::alloc::Global;
use std::fmt::Write;
use std::test::Fail;

/// Files, and the report on them. Each file is written `NAME:TEXT`, with `‖` between two files. The file `a` is read first.
const REPORTS: &str = r"
# The report on a dialplan without a fault has its counts.
a:[m]\nexten => 1,1,NoOp()\n same => n,Hangup()\n[n]→ok 2 contexts 2 entries\n
# Each fault is reported at its line, and the lines after it are read as if that line were empty.
a:[m]\nexten => 1,0,A()\nexten => 2,1,B(\nexten => _[],1,C()\nexten => 3,1,D()→a:2: fault 20 BadPriority\na:3: fault 23 BadApplication\na:4: fault 11 EmptySet\n3 faults\n
a:exten => 1,1,A()\n[m]\nexten 1\n[]\nexten => 1→a:1: fault 2 NoSection\na:3: fault 4 NoEquals\na:4: fault 3 BadHeader\na:5: fault 28 ShortLine\n4 faults\n
a:[m]\nexten => 1,1,Dial,x\ninclude => day,8:00-18:00,*,*,*\nexten => ${X}/,1,A()\nexten => _[{$],1,A()→a:2: fault OldForm\na:3: fault NoClock\na:4: note CallerId\na:5: fault 24 LeftOut Variable\n3 faults\n
# A fault in a line of a template is reported once, however many sections copy the line.
a:[t](!)\nexten => 1,0,A()\n[m](t)\n[n](t)→a:2: fault 20 BadPriority\n1 faults\n
# Notices have the names of their files. The fault of a file that is not there is followed by its name.
a:[m]\n#include b\n#include <c d>\nexten => 1,0,A()‖b:exten => 2,0,B()→b:1: fault 20 BadPriority\na:3: fault 7 ReadFailed c d\na:4: fault 20 BadPriority\n3 faults\n
a:[m]\n#include a→a:2: fault IncludeDepth\n1 faults\n
# Notes of the file reader and of the loader, in the order of the lines.
a:[m]\nexten => 1,hint,SIP/1\nexten => 1,1,A()\nexten => 1,1,B()\ninclude => q\nswitch => x\n;-- open→a:2: note Hint\na:4: note DoublePriority\na:5: note UnknownContext\na:6: note Switch\na:7: note OpenComment\nok 1 contexts 1 entries\n
# A note on a line among faulty lines.
a:[m]\nexten => 1,0,A()\ninclude => q→a:2: fault 20 BadPriority\na:3: note UnknownContext\n1 faults\n
b:[m]→no file
# Expanded names may be those of other lines.
a:[globals]\nN=1\n[m]\nexten => 1,1(x),A()\nexten => ${N},2(x),B()\nexten => ${N},1,C()\ninclude => ${M}→a:5: note DoubleLabel\na:6: note DoublePriority\na:7: note UnknownContext\nok 1 contexts 1 entries\n
# The times of an include begin after a comma. A bar belongs to the name.
a:[m]\ninclude => day|8:00-18:00|*|*|*→a:2: note UnknownContext\nok 1 contexts 0 entries\n
# The entries that end macros are counted, and a note is at the line of its file.
a:[macro-x]\nexten => s,1,A()\nexten => s,1,B()→a:3: note DoublePriority\nok 1 contexts 2 entries\n
a:[macro-x]\nexten => s,1,A()\nexten => s,2,B()\n[macro-y]\nexten => s,1,MacroExit()→ok 2 contexts 4 entries\n
";

/// Files written in the same way, and only their faults, with the text that loads after a `#`.
const FAULTS: &str = r"
a:[m]\nexten => 1,hint,SIP/1\nexten => 1,0,A()\nexten => 2,1,B()→a:3: fault 20 BadPriority\n#[m]\n\nexten => 2,1,B()\n
a:[m]\nexten => 1,1,A()\nexten => 1,n,B()→#[m]\nexten => 1,1,A()\nexten => 1,2,B()\n
";

/// Files written in the same way, and their faults with the notes on what is not followed.
const UNFOLLOWED: &str = r"
a:[m]\n#exec /bin/date\nswitch => x\nexten => 1,hint,S\nexten => 1,1,A()→a:2: note Exec\na:3: note Switch\n
a:[general]\nautofallthrough=no\n[m]\nexten => 1/20,1,A()\nexten => 1,0,A()→a:2: note AutoFallThrough\na:4: note CallerId\na:5: fault 20 BadPriority\n
a:[globals]\nX=1/2\n[m]\nexten => ${X},1,A()\nexten => ${X:0:1}/2,1,A()\n same => n,B()→a:4: note CallerId\na:5: note CallerId\na:6: note CallerId\n
";

/// Names of notes that are assumed to have no effect, each followed by a blank, then a `¦` and files, and what is printed as in `UNFOLLOWED`.
const ASSUMED: &str = r"
Switch ¦a:[m]\n#exec /bin/date\nswitch => x\nexten => 1/2,1,A()→a:2: note Exec\na:4: note CallerId\n
exec CALLERID ¦a:[m]\n#exec /bin/date\nswitch => x\nexten => 1/2,1,A()→a:3: note Switch\n
Exec Switch CallerId ¦a:[m]\n#exec /bin/date\nswitch => x\nexten => 1/2,1,A()→
AutoFallThrough ¦a:[general]\nautofallthrough=no\n[m]\nexten => 1,0,A()→a:4: fault 20 BadPriority\n
# Hints are never reported here, so nothing is to be assumed of them; and no fault can be assumed away.
Hint BadPriority ¦a:[general]\nautofallthrough=no\n[m]\nexten => 1,0,A()→a:2: note AutoFallThrough\na:4: fault 20 BadPriority\n
";

/// Files written in the same way, and their notes; after a `#`, those on lines that no call depends on or that this program follows.
const NOTES: &str = r"
a:[m]\nswitch => x\nexten => 1,hint,S\nexten => 1,1,A()\nexten => 1,1,B()\nexten => 1,0,B()→a:2: note Switch\na:3: note Hint\na:5: note DoublePriority\n#a:3: note Hint\na:5: note DoublePriority\n
a:[m]\nexten => 1,1,A()→#
";

/// A moment or nothing, then a `¦` and files, and the faults and the text that loads as in `FAULTS`.
const TIMES: &str = r"
# Both ends of a range belong to it.
wed 2024-01-03 09:00¦a:[m]\ninclude => day,8:00-18:00,mon-fri,*,*\n[day]→#[m]\ninclude => day\n[day]\n
wed 2024-01-03 18:00¦a:[m]\ninclude => day,8:00-18:00,mon-fri,*,*\n[day]→#[m]\ninclude => day\n[day]\n
wed 2024-01-03 18:01¦a:[m]\ninclude => day,8:00-18:00,mon-fri,*,*\n[day]→#[m]\n\n[day]\n
sun 2024-01-07 09:00¦a:[m]\ninclude => day,8:00-18:00,mon-fri,*,*\n[day]→#[m]\n\n[day]\n
# A range of times may go past midnight.
wed 2024-01-03 23:30¦a:[m]\ninclude => night,22:00-06:00,*,*,*\n[night]→#[m]\ninclude => night\n[night]\n
wed 2024-01-03 05:59¦a:[m]\ninclude => night,22:00-06:00,*,*,*\n[night]→#[m]\ninclude => night\n[night]\n
wed 2024-01-03 06:01¦a:[m]\ninclude => night,22:00-06:00,*,*,*\n[night]→#[m]\n\n[night]\n
# Missing and empty parts mean all times. Days and months count too.
wed 2024-01-03 09:00¦a:[m]\ninclude => day,8:00-18:00→#[m]\ninclude => day\n
wed 2024-01-03 09:00¦a:[m]\ninclude=day , , wed , 1-5 , jan→#[m]\ninclude => day\n
wed 2024-01-10 09:00¦a:[m]\ninclude=day , , wed , 1-5 , jan→#[m]\n\n
wed 2024-02-03 09:00¦a:[m]\ninclude=day , , wed , 1-5 , jan→#[m]\n\n
# Without a moment, an include with times is a fault. With a moment, other faults are still reported.
¦a:[m]\ninclude => day,8:00-18:00,*,*,*\n[day]→a:2: fault NoClock\n#[m]\n\n[day]\n
wed 2024-01-03 09:00¦a:[m]\nexten => 1,0,A()\ninclude => day,8:00-18:00→a:2: fault 20 BadPriority\n#[m]\n\ninclude => day\n
# Each copy of a template has its own include.
wed 2024-01-03 09:00¦a:[t](!)\ninclude => day,8:00-18:00\n[m](t)\n[n](t)→#[m]\ninclude => day\n[n]\ninclude => day\n
wed 2024-01-03 19:00¦a:[t](!)\ninclude => day,8:00-18:00\n[m](t)\n[n](t)→#[m]\n\n[n]\n\n
# A macro that includes its next priority at some times ends at other times.
wed 2024-01-03 09:00¦a:[macro-x]\nexten => s,1,A()\ninclude => more,8:00-18:00\n[more]\nexten => s,2,B()→#[macro-x]\nexten => s,1,A()\ninclude => more\n[more]\nexten => s,2,B()\n
wed 2024-01-03 19:00¦a:[macro-x]\nexten => s,1,A()\ninclude => more,8:00-18:00\n[more]\nexten => s,2,B()→#[macro-x]\nexten => s,1,A()\n\n[more]\nexten => s,2,B()\n[macro-x]\nexten => s,2,MacroExit()\n
";

/// Files with names that have groups, written as in `TIMES`, and the faults and the text that loads.
const NAMES: &str = r"
# The name of an entry is expanded by the global variables. The lines `same` after it belong to its extension.
¦a:[globals]\nNUM=100\n[m]\nexten => ${NUM},1,A(${NUM})\n same => n(go),B()→#[globals]\nNUM=100\n[m]\nexten => 100,1,A(${NUM})\nsame => 2(go),B()\n
¦a:[globals]\nP=9\n[m]\nexten => 1,1,A()\nexten => _${P}XX-${P},n,B() ; last→#[globals]\nP=9\n[m]\nexten => 1,1,A()\nexten => _9XX-9,2,B()\n
# The global variables may come later. Each is expanded by those before it, and the last value counts.
¦a:[m]\nexten => ${B},1,A()\n[globals]\nA=1\nB=${A}2\nA=3→#[m]\nexten => 12,1,A()\n[globals]\nA=1\nB=${A}2\nA=3\n
¦a:[globals]\nA=1\nA=2\n[m]\nexten => ${A},1,A()→#[globals]\nA=1\nA=2\n[m]\nexten => 2,1,A()\n
# Expressions and functions of texts.
¦a:[m]\nexten => $[1+1],1,A()→#[m]\nexten => 2,1,A()\n
¦a:[globals]\nA=3\n[m]\nexten => 7,5,A()\nexten => _$[${A}-1]X,1,A()\n same => n,B()→#[globals]\nA=3\n[m]\nexten => 7,5,A()\nexten => _2X,1,A()\nsame => 2,B()\n
¦a:[m]\nexten => $[6/2],1,A()→#[m]\nexten => 3,1,A()\n
¦a:[globals]\nA=12345\n[m]\nexten => ${A:1:2},1,A()\nexten => ${LEN(${A})},1,A()→#[globals]\nA=12345\n[m]\nexten => 23,1,A()\nexten => 5,1,A()\n
# A variable that is not set is empty. A name of nothing has the fault of any such name.
¦a:[m]\nexten => ${P}100,1,A()\nexten => ${P},1,B()\nexten => _${P},1,C()→a:3: fault 10 EmptyName\na:4: fault 10 EmptyName\n#[m]\nexten => 100,1,A()\n\n\n
# An expanded name may be faulty.
¦a:[globals]\nA=1 2\nB=[\n[m]\nexten => ${A},1,A()\nexten => _${B},1,B()→a:5: fault 15 BadByte\na:6: fault 13 OpenSet\n#[globals]\nA=1 2\nB=[\n[m]\n\n\n
# Includes, with their keys as they are written.
¦a:[globals]\nC=day\n[m]\nInclude = ${C}\ninclude => ${C}2\n[day]→#[globals]\nC=day\n[m]\nInclude => day\ninclude => day2\n[day]\n
¦a:[m]\ninclude => ${C}→#[m]\ninclude => \n
# An include may have both a group and times.
wed 2024-01-03 09:00¦a:[globals]\nC=day\n[m]\ninclude => ${C},8:00-18:00,*,*,*\n[day]→#[globals]\nC=day\n[m]\ninclude => day\n[day]\n
wed 2024-01-03 19:00¦a:[globals]\nC=day\n[m]\ninclude => ${C},8:00-18:00,*,*,*\n[day]→#[globals]\nC=day\n[m]\n\n[day]\n
¦a:[globals]\nC=day\n[m]\ninclude => ${C},8:00-18:00,*,*,*\n[day]→a:4: fault NoClock\n#[globals]\nC=day\n[m]\n\n[day]\n
# What comes of a group is not cut at a comma, and no blank at its end is lost.
¦a:[globals]\nX=1,2\n[m]\nexten => ${X},1,A()\ninclude => ${X}→a:4: fault 24 LeftOut Variable\na:5: fault 24 LeftOut Variable\n#[globals]\nX=1,2\n[m]\n\n\n
¦a:[globals]\nX=a b\n[m]\ninclude => ${X:0:2}\ninclude => ${X:1}\ninclude => ${X}→a:4: fault 24 LeftOut Variable\na:5: fault 24 LeftOut Variable\n#[globals]\nX=a b\n[m]\n\n\ninclude => a b\n
# A semicolon is written as in any line.
¦a:[globals]\nX=1\\;2\n[m]\nexten => ${X},1,A(\\;)→#[globals]\nX=1\\;2\n[m]\nexten => 1\\;2,1,A(\\;)\n
# An entry for one caller is left out, whether or not its `/` comes of a group.
¦a:[globals]\nX=1\nY=1/2\n[m]\nexten => ${X}/20,1,A()\nexten => ${Y},1,B()\nexten => 3,n,C()→#[globals]\nX=1\nY=1/2\n[m]\n\n\nexten => 3,2,C()\n
# Lines `same` are left out with their extension.
¦a:[globals]\nX=1/2\n[m]\nexten => 1,1,A()\nexten => ${X},1,B()\n same => n,C()\ninclude => d\n same => n,D()\nexten => 3,n,E()\n same => n,F()→#[globals]\nX=1/2\n[m]\nexten => 1,1,A()\n\n\ninclude => d\n\nexten => 3,4,E()\nsame => 5,F()\n
¦a:[m]\nexten => ${DB(a)},1,A()\n same => n,B()\n[n]\n same => 1,C()→a:2: fault 24 LeftOut Variable\na:3: fault 24 LeftOut Variable\na:5: fault 26 NoExten\n#[m]\n\n\n[n]\n\n
# What is not known before a call is a fault.
¦a:[m]\nexten => ${DB(a/b)},1,A()\nexten => ${UNIQUEID},1,B()\nexten => _$[${EPOCH} - 1]X,1,C()\ninclude => ${DB(a/b)}\ninclude => ${UNIQUEID},8:00-18:00\nexten => 3,n,D()→a:2: fault 24 LeftOut Variable\na:3: fault 24 LeftOut Variable\na:4: fault 24 LeftOut Variable\na:5: fault 24 LeftOut Variable\na:6: fault 24 LeftOut Variable\n#[m]\n\n\n\n\n\nexten => 3,2,D()\n
¦a:[m]\nexten => ${FILTER(0-9,a1)},1,A()\nexten => _[{$],1,B()\nexten => ${A,1,C()→a:2: fault 24 LeftOut Variable\na:3: fault 24 LeftOut Variable\na:4: fault 24 LeftOut Variable\n#[m]\n\n\n\n
# If the value of a global variable is not known, no name with a group is.
¦a:[globals]\nX=${UNIQUEID}\nN=5\n[m]\nexten => ${N},1,A()\nexten => 6,1,B()→a:5: fault 24 LeftOut Variable\n#[globals]\nX=${UNIQUEID}\nN=5\n[m]\n\nexten => 6,1,B()\n
# Only lines of contexts have such names. Hints are left out as before.
¦a:[globals]\nX=1\nexten=${X}\n[general]\ninclude=${X}\n[m]\nother=${X}\nexten => ${X},hint,SIP/1→#[globals]\nX=1\nexten=${X}\n[general]\ninclude=${X}\n[m]\nother=${X}\n
# Faulty lines set no variables.
¦a:X=1\n[globals]\nY=2\n[m]\nexten => 0${X}${Y},1,A()\nexten => 1,0,B()→a:1: fault 2 NoSection\na:6: fault 20 BadPriority\n#[globals]\nY=2\n[m]\nexten => 02,1,A()\n\n
# The copies of a template have one notice.
¦a:[t](!)\nexten => ${DB(a/b)},1,A()\n[m](t)\n[n](t)→a:2: fault 24 LeftOut Variable\n#[m]\n\n[n]\n\n
# A macro ends after its expanded name.
¦a:[globals]\nS=s\n[macro-x]\nexten => ${S},1,A()\nexten => s,2,B()→#[globals]\nS=s\n[macro-x]\nexten => s,1,A()\nexten => s,2,B()\n[macro-x]\nexten => s,3,MacroExit()\n
";

/// Files, and each line of the text that loads, after the line of a file from which it is made.
const MACROS: &str = r"
a:[m]\nexten => 1,1,Macro(x)\n[macro-x]\nexten => s,1,A()\nexten => s,2,B()→a:1 [m]\na:2 exten => 1,1,Macro(x)\na:3 [macro-x]\na:4 exten => s,1,A()\na:5 exten => s,2,B()\na:5 [macro-x]\na:5 exten => s,3,MacroExit()\n
# A macro that leaves itself needs no end, and neither does a context that is not a macro.
a:[macro-x]\nexten => s,1,A()\nexten => s,2,macroexit→a:1 [macro-x]\na:2 exten => s,1,A()\na:3 exten => s,2,macroexit\n
a:[macro]\nexten => s,1,A()\n[Macro-x]\nexten => s,1,A()→a:1 [macro]\na:2 exten => s,1,A()\na:3 [Macro-x]\na:4 exten => s,1,A()\n
a:[macro-x]\n[m]→a:1 [macro-x]\na:2 [m]\n
# Two extensions, in the order of their last entries. Their names are written without dashes.
a:[macro-x]\nexten => s,1,A()\nexten => s-BUSY,1,B()\nexten => s,2,C()→a:1 [macro-x]\na:2 exten => s,1,A()\na:3 exten => s-BUSY,1,B()\na:4 exten => s,2,C()\na:3 [macro-x]\na:3 exten => sBUSY,2,MacroExit()\na:4 exten => s,3,MacroExit()\n
# A step into a gap finds nothing.
a:[macro-x]\nexten => s,1,A()\nexten => s,2,B()\nexten => s,5,C()→a:1 [macro-x]\na:2 exten => s,1,A()\na:3 exten => s,2,B()\na:4 exten => s,5,C()\na:3 [macro-x]\na:3 exten => s,3,MacroExit()\na:4 exten => s,6,MacroExit()\n
# A step may find the next priority in a pattern or in an included context.
a:[macro-x]\nexten => s1,1,A()\nexten => _s.,1,B()\nexten => _s.,2,C()→a:1 [macro-x]\na:2 exten => s1,1,A()\na:3 exten => _s.,1,B()\na:4 exten => _s.,2,C()\na:4 [macro-x]\na:4 exten => _s.,3,MacroExit()\n
a:[macro-x]\nexten => s,1,A()\ninclude => more\n[more]\nexten => s,2,B()→a:1 [macro-x]\na:2 exten => s,1,A()\na:3 include => more\na:4 [more]\na:5 exten => s,2,B()\n
# There is no place after the greatest priority.
a:[macro-x]\nexten => s,2147483647,A()→a:1 [macro-x]\na:2 exten => s,2147483647,A()\n
# A macro in two files, and a macro with a faulty line.
a:[macro-x]\nexten => s,1,A()\n#include b‖b:exten => s,2,B()\n[macro-y]\nexten => s,1,C()→a:1 [macro-x]\na:2 exten => s,1,A()\nb:1 exten => s,2,B()\nb:2 [macro-y]\nb:3 exten => s,1,C()\nb:1 [macro-x]\nb:1 exten => s,3,MacroExit()\nb:3 [macro-y]\nb:3 exten => s,2,MacroExit()\n
a:[macro-x]\nexten => s,1,A()\nexten => s,2,B(\n[m]→a:1 [macro-x]\na:2 exten => s,1,A()\na:3 \na:4 [m]\na:2 [macro-x]\na:2 exten => s,2,MacroExit()\n
# A semicolon in a name is written as in any line.
a:[macro-x\\;y]\nexten => 1\\;2,1,A()→a:1 [macro-x\\;y]\na:2 exten => 1\\;2,1,A()\na:2 [macro-x\\;y]\na:2 exten => 1\\;2,2,MacroExit()\n
";

/// Adds a file to others, with its name and its text.
fn add_file(alloc: Global, map: &mut FileMap, file: &str) -> Result<(), Fail> {
    let (name, text) = file.split_once(':').ok_or("no name")?;
    let name = Text::copy_of(alloc, name.as_bytes())?;
    let text = Text::new(bytes_of(alloc, text)?);
    map.add(NamedText { name, text })?;
    Ok(())
}

/// The files of a question.
pub(crate) fn file_map(alloc: Global, files: &str) -> Result<FileMap, Fail> {
    let mut map = FileMap::new(alloc);
    for file in files.split('‖') {
        add_file(alloc, &mut map, file)?;
    }
    Ok(map)
}

/// Reads the file `a` and the files that it includes, at a moment if one is given. The result is `None` if the file is not there.
fn read_at(alloc: Global, clock: Option<Moment>, files: &str) -> Result<Option<PlanFiles>, Fail> {
    let mut map = file_map(alloc, files)?;
    Ok(read_plan(alloc, &mut map, b"a", clock).ok())
}

/// The same without a moment.
fn read(alloc: Global, files: &str) -> Result<Option<PlanFiles>, Fail> {
    read_at(alloc, None, files)
}

fn report_of(alloc: Global, plan: &PlanFiles) -> Result<String, Fail> {
    let report = check_plan(alloc, plan)?;
    let mut out = String::new(alloc);
    push_bytes(&mut out, &report.text)?;
    Ok(out)
}

fn faults_of(alloc: Global, plan: &PlanFiles) -> Result<String, Fail> {
    let faults = print_notices(alloc, Shown::Faults, plan)?;
    let text = plan.text(alloc)?;
    let mut out = String::new(alloc);
    push_bytes(&mut out, &faults)?;
    out.push('#')?;
    push_bytes(&mut out, &text)?;
    Ok(out)
}

fn unfollowed_of(alloc: Global, assumed: Assumptions, plan: &PlanFiles) -> Result<String, Fail> {
    let notices = print_notices(alloc, Shown::Unfollowed(assumed), plan)?;
    let mut out = String::new(alloc);
    push_bytes(&mut out, &notices)?;
    Ok(out)
}

fn notes_of(alloc: Global, plan: &PlanFiles) -> Result<String, Fail> {
    let notes = print_notices(alloc, Shown::Notes, plan)?;
    let followed = print_notices(alloc, Shown::Followed, plan)?;
    let mut out = String::new(alloc);
    push_bytes(&mut out, &notes)?;
    out.push('#')?;
    push_bytes(&mut out, &followed)?;
    Ok(out)
}

/// Adds the line of a file from which a line is made, and then that line.
fn push_made(out: &mut String, plan: &PlanFiles, made: &MadeLine) -> Result<(), Fail> {
    let noted = plan.lines.get(made.source).ok_or("no line")?;
    let file = plan.files.get(noted.line.file).ok_or("no file")?;
    push_bytes(out, file.name.bytes())?;
    write!(out, ":{} ", noted.line.line)?;
    push_bytes(out, made.text.bytes())?;
    out.push('\n')?;
    Ok(())
}

fn made_of(alloc: Global, plan: &PlanFiles) -> Result<String, Fail> {
    let mut out = String::new(alloc);
    for made in &plan.made {
        push_made(&mut out, plan, made)?;
    }
    Ok(out)
}

struct NoticeReports;

impl Question for NoticeReports {
    fn answer(alloc: Global, asked: &str) -> Result<String, Fail> {
        match read(alloc, asked)? {
            Some(plan) => report_of(alloc, &plan),
            None => text_of(alloc, "no file"),
        }
    }
}

struct Faults;

impl Question for Faults {
    fn answer(alloc: Global, asked: &str) -> Result<String, Fail> {
        match read(alloc, asked)? {
            Some(plan) => faults_of(alloc, &plan),
            None => text_of(alloc, "no file"),
        }
    }
}

struct Unfollowed;

impl Question for Unfollowed {
    fn answer(alloc: Global, asked: &str) -> Result<String, Fail> {
        match read(alloc, asked)? {
            Some(plan) => unfollowed_of(alloc, Assumptions::none(), &plan),
            None => text_of(alloc, "no file"),
        }
    }
}

struct PlanNotes;

impl Question for PlanNotes {
    fn answer(alloc: Global, asked: &str) -> Result<String, Fail> {
        match read(alloc, asked)? {
            Some(plan) => notes_of(alloc, &plan),
            None => text_of(alloc, "no file"),
        }
    }
}

/// What is assumed, given names that are each followed by a blank.
fn assumptions_in(names: &str) -> Assumptions {
    let mut assumed = Assumptions::none();
    for name in names.split(' ') {
        assumed = assumed.assume(name.as_bytes());
    }
    assumed
}

struct Assumed;

impl Question for Assumed {
    fn answer(alloc: Global, asked: &str) -> Result<String, Fail> {
        let (names, files) = asked.split_once('¦').ok_or("no names")?;
        match read(alloc, files)? {
            Some(plan) => unfollowed_of(alloc, assumptions_in(names), &plan),
            None => text_of(alloc, "no file"),
        }
    }
}

struct Times;

impl Question for Times {
    fn answer(alloc: Global, asked: &str) -> Result<String, Fail> {
        let (clock, files) = asked.split_once('¦').ok_or("no moment")?;
        match read_at(alloc, read_moment(clock.as_bytes()), files)? {
            Some(plan) => faults_of(alloc, &plan),
            None => text_of(alloc, "no file"),
        }
    }
}

struct Macros;

impl Question for Macros {
    fn answer(alloc: Global, asked: &str) -> Result<String, Fail> {
        match read(alloc, asked)? {
            Some(plan) => made_of(alloc, &plan),
            None => text_of(alloc, "no file"),
        }
    }
}

#[test]
fn reports_have_all_notices_at_their_lines(rt: HostRuntime) -> Result<(), Fail> {
    check::<NoticeReports>(rt.alloc(), REPORTS)
}

#[test]
fn faults_are_printed_alone_and_faulty_lines_are_empty(rt: HostRuntime) -> Result<(), Fail> {
    check::<Faults>(rt.alloc(), FAULTS)
}

#[test]
fn notes_on_what_is_not_followed_are_printed_with_the_faults(rt: HostRuntime) -> Result<(), Fail> {
    check::<Unfollowed>(rt.alloc(), UNFOLLOWED)
}

#[test]
fn notes_are_printed_without_the_faults(rt: HostRuntime) -> Result<(), Fail> {
    check::<PlanNotes>(rt.alloc(), NOTES)
}

#[test]
fn what_is_assumed_to_have_no_effect_is_not_printed(rt: HostRuntime) -> Result<(), Fail> {
    check::<Assumed>(rt.alloc(), ASSUMED)
}

#[test]
fn includes_with_times_are_read_at_a_moment(rt: HostRuntime) -> Result<(), Fail> {
    check::<Times>(rt.alloc(), TIMES)
}

#[test]
fn names_are_expanded_by_the_global_variables(rt: HostRuntime) -> Result<(), Fail> {
    check::<Times>(rt.alloc(), NAMES)
}

#[test]
fn macros_end_where_a_step_finds_nothing(rt: HostRuntime) -> Result<(), Fail> {
    check::<Macros>(rt.alloc(), MACROS)
}
