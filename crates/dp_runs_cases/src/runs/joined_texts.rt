//! Joined texts with their output and results, worked out by hand from the rules.
use dp_case_tables::check_same;
use dp_commands::{RunTexts, run_script};
use dp_commands_fixture::{JoinedRun, check_table, make_sink, outcome_text};
use std::alloc::Global;
use std::test::Fail;

/// Worked cases.
const ROWS: &str = r"
# first-run
[main]\nexten => 100,1,NoOp(hello)\nexten => 100,2,Goto(200,1)\nexten => 200,1,Hangup()\n;; script\nstart main 100\nstep 1 3\n→started 1\nran 1 main,100,1 NoOp -> ready main,100,2\nran 1 main,100,2 Goto -> ready main,200,1\nran 1 main,200,1 Hangup -> ended\nstatus 0
# reload
[globals]\nX=1\nY=5\n[main]\nexten => 100,1,NoOp(a)\nexten => 100,2,NoOp(b)\n;; reload\n[globals]\nX=${X}2\n[main]\nexten => _1XX,2,Hangup()\n;; script\nstart main 100\nstep 1\nreload\nshow 1 X\nshow 1 Y\nstep 1\n→started 1\nran 1 main,100,1 NoOp -> ready main,100,2\nok\nX=12\nY=5\nran 1 main,_1XX,2 Hangup -> ended\nstatus 0
[globals]\nX=1\nY=5\n[main]\nexten => 100,1,NoOp(a)\nexten => 100,2,NoOp(b)\n;; reload\n[main\n;; script\nstart main 100\nstep 1\nreload\nshow 1 X\nshow 1 Y\nstep 1\n→started 1\nran 1 main,100,1 NoOp -> ready main,100,2\nrefused 52 BadPlan\nX=1\nY=5\nran 1 main,100,2 NoOp -> ready main,100,3\nstatus 1
# refusals
[main]\nexten => s,1,Hangup()\n;; script\nstep 1\nstart main s\nstep 1\nstep 1\n→refused 40 NoChannel\nstarted 1\nran 1 main,s,1 Hangup -> ended\nrefused 49 Ended\nstatus 1
# globals-expanded
[globals]\nN=200\nM=${N}1\n[main]\nexten => 100,1,Goto(${N},1)\nexten => 200,1,NoOp()\n;; script\nstart main 100\nstep 1 2\nshow 1 M\nshow 1 EXTEN\n→started 1\nran 1 main,100,1 Goto -> ready main,200,1\nran 1 main,200,1 NoOp -> ready main,200,2\nM=2001\nEXTEN=200\nstatus 0
";

/// Values that are shown.
const SHOWS: &str = r"
# A channel that does not exist counts for the status, and the script goes on.
;; script\nshow 1 M\n→refused 40 NoChannel\nstatus 1
;; script\nshow 0 M\nstart main s\nshow 1 M\nshow 2 M\n→refused 40 NoChannel\nstarted 1\nM=\nrefused 40 NoChannel\nstatus 1
# What the channel gives, even after its end. It changes nothing.
[main]\nexten => s,1,Hangup()\n;; script\nstart main s\nshow 1 CONTEXT\nshow 1 EXTEN\nshow 1 PRIORITY\nshow 1 CHANNEL\nstep 1\nshow 1 PRIORITY\n→started 1\nCONTEXT=main\nEXTEN=s\nPRIORITY=1\nCHANNEL=Channel/1\nran 1 main,s,1 Hangup -> ended\nPRIORITY=1\nstatus 0
[main]\nexten => s,1,NoOp()\nexten => s,2,NoOp()\n;; script\nstart main s\nstart main 2-00\nstep 1\nshow 1 PRIORITY\nshow 2 EXTEN\nstep 1\n→started 1\nstarted 2\nran 1 main,s,1 NoOp -> ready main,s,2\nPRIORITY=2\nEXTEN=2-00\nran 1 main,s,2 NoOp -> ready main,s,3\nstatus 0
# Global variables, of which the last value counts; names are case sensitive, and may be those of functions.
[globals]\nM=1\nM=2\nEXTEN=9\nLEN(x)=7\n;; script\nstart main s\nshow 1 M\nshow 1 m\nshow 1 EXTEN\nshow 1 LEN(x)\n→started 1\nM=2\nm=\nEXTEN=s\nLEN(x)=7\nstatus 0
[globals]\nM=\xFF=\n;; script\nstart main s\nshow 1 M\nshow 1 M=\n→started 1\nM=\xFF=\nM==\nstatus 0
# A faulty line.
;; script\nstart main s\nshow 1\n→fault 70 BadScript line 2
";

/// Where the dialplan ends and the script begins.
const SEPARATORS: &str = r"
# No events.
→status 0
\n→status 0
[main]\nexten => s,1,NoOp()\n→status 0
;; script→status 0
[main]\n;; script→status 0
[main]\nexten => s,1,NoOp()\n;; script\n→status 0
# The first line.
;; script\nstart main s\nstep 1\n→started 1\nno entry 1 -> ended\nstatus 0
# Blanks around it, and carriage returns.
[main]\nexten => s,1,NoOp()\n \t;; script \t\nstart main s\nstep 1\n→started 1\nran 1 main,s,1 NoOp -> ready main,s,2\nstatus 0
[main]\r\nexten => s,1,NoOp()\r\n;; script\r\nstart main s\r\nstep 1\r\n→started 1\nran 1 main,s,1 NoOp -> ready main,s,2\nstatus 0
# No line feed at the end.
[main]\nexten => s,1,NoOp()\n;; script\nstart main s\nstep 1→started 1\nran 1 main,s,1 NoOp -> ready main,s,2\nstatus 0
# A second one is a comment of the script, and is counted among its lines.
[main]\nexten => s,1,NoOp()\n;; script\nstart main s\n;; script\nstep 1\n→started 1\nran 1 main,s,1 NoOp -> ready main,s,2\nstatus 0
[main]\n;; script\n;; script\n;; script\njump 1\n→fault 70 BadScript line 3
# The byte order mark.
\xEF\xBB\xBF[main]\nexten => s,1,NoOp()\n;; script\nstart main s\nstep 1\n→started 1\nran 1 main,s,1 NoOp -> ready main,s,2\nstatus 0
\xEF\xBB\xBF;; script\nstart main s\n→fault 2 NoSection line 2
\xEF\xBB\xBF;; script\n[main]\nexten => s,1,NoOp()\n;; script\nstart main s\nstep 1\n→started 1\nran 1 main,s,1 NoOp -> ready main,s,2\nstatus 0
[main]\n;; script\n\xEF\xBB\xBFstart main s\n→fault 70 BadScript line 1
# Lines that are almost separators belong to the dialplan.
[main]\n;; Script\nstart main s\n→fault 4 NoEquals line 3
[main]\n;;script\nstart main s\n→fault 4 NoEquals line 3
[main]\n;; script x\nstart main s\n→fault 4 NoEquals line 3
[main]\n;;  script\n; ; script\n;;\tscript\n;;; script\n→status 0
[main]\nexten => s,1,NoOp() ;; script\n;; script\nstart main s\nstep 1\n→started 1\nran 1 main,s,1 NoOp -> ready main,s,2\nstatus 0
# A comment of the script may begin like a block comment of a dialplan.
[main]\n;; script\n;-- x\n→status 0
";

/// Where the second dialplan begins and ends.
const SECONDS: &str = r"
# Without one, a line `reload` is faulty.
[main]\n;; script\nreload\n→fault 70 BadScript line 1
[main]\n;; script\nstart main s\n\nreload\n→fault 70 BadScript line 3
[main]\nabc\n;; script\nreload\n→fault 4 NoEquals line 2
# It is empty.
[main]\nexten => s,1,NoOp()\nexten => s,2,NoOp()\n;; reload\n;; script\nstart main s\nstep 1\nreload\nstep 1\n→started 1\nran 1 main,s,1 NoOp -> ready main,s,2\nok\nno entry 1 -> ended\nstatus 0
[main]\n;; reload\n;; script\nreload x\n→fault 70 BadScript line 1
[main]\n;; reload→status 0
;; reload\n;; script→status 0
# The first line.
;; reload\n[main]\nexten => s,1,NoOp()\n;; script\nstart main s\nreload\nstep 1\n→started 1\nok\nran 1 main,s,1 NoOp -> ready main,s,2\nstatus 0
# Blanks around it, and carriage returns.
[main]\r\n \t;; reload \t\r\n[main]\r\nexten => s,1,NoOp()\r\n;; script\r\nreload\r\nstart main s\r\nstep 1\r\n→ok\nstarted 1\nran 1 main,s,1 NoOp -> ready main,s,2\nstatus 0
# Without a script it goes to the end, and no event reads it.
[main]\n;; reload\n[main\nstart main s\n→status 0
[main]\nabc\n;; reload\n→fault 4 NoEquals line 2
# A second such line is a comment, of the second dialplan or of the script.
[main]\n;; reload\n[main]\nexten => s,1,NoOp()\n;; reload\nexten => s,2,NoOp()\n;; script\nreload\nstart main s\nstep 1 2\n→ok\nstarted 1\nran 1 main,s,1 NoOp -> ready main,s,2\nran 1 main,s,2 NoOp -> ready main,s,3\nstatus 0
[main]\nexten => s,1,NoOp()\n;; script\nstart main s\n;; reload\nstep 1\n→started 1\nran 1 main,s,1 NoOp -> ready main,s,2\nstatus 0
[main]\n;; script\n;; reload\n[main]\n→fault 70 BadScript line 2
[main]\n;; script\n;; reload\nreload\n→fault 70 BadScript line 2
[main]\n;; reload\n[main]\n;; script\n;; reload\nreload\n→ok\nstatus 0
# The byte order mark is skipped at its start, and before the first line it makes that line a comment of the dialplan.
[main]\n;; reload\n\xEF\xBB\xBF[main]\nexten => s,1,NoOp()\n;; script\nreload\nstart main s\nstep 1\n→ok\nstarted 1\nran 1 main,s,1 NoOp -> ready main,s,2\nstatus 0
\xEF\xBB\xBF;; reload\n[main]\nexten => s,1,NoOp()\n;; script\nstart main s\nstep 1\n→started 1\nran 1 main,s,1 NoOp -> ready main,s,2\nstatus 0
\xEF\xBB\xBF;; reload\n[main]\n;; script\nreload\n→fault 70 BadScript line 1
\xEF\xBB\xBF;; reload\n[main]\nexten => s,1,NoOp()\n;; reload\n;; script\nstart main s\nreload\nstep 1\n→started 1\nok\nno entry 1 -> ended\nstatus 0
# Lines that are almost separators belong to the dialplan.
[main]\n;; Reload\n;;reload\n;; reload x\n;;  reload\n; ; reload\n;;; reload\nexten => s,1,NoOp()\n;; script\nstart main s\nstep 1\n→started 1\nran 1 main,s,1 NoOp -> ready main,s,2\nstatus 0
[main]\n;; Reload\n;; script\nreload\n→fault 70 BadScript line 1
# Faults of the dialplan have their lines in the joined text; a fault of the second one is not reported.
[main]\n\nabc\n;; reload\n[main\n;; script\nreload\n→fault 4 NoEquals line 3
[main]\n;; reload\n\nabc\n;; script\nreload\n→refused 52 BadPlan\nstatus 1
";

/// Reloads.
const RELOADS: &str = r"
# Its globals are set one after another over the existing ones, each time again; others stay.
[globals]\nX=1\n;; reload\n[globals]\nX=${X}2\nX=${X}3\n;; script\nstart main s\nreload\nshow 1 X\nreload\nshow 1 X\n→started 1\nok\nX=123\nok\nX=12323\nstatus 0
[main]\nexten => s,1,Set(GLOBAL(X)=7)\nexten => s,2,Set(GLOBAL(Z)=8)\n;; reload\n[globals]\nX=${X}2\n;; script\nstart main s\nstep 1 2\nreload\nshow 1 X\nshow 1 Z\n→started 1\nran 1 main,s,1 Set -> ready main,s,2\nran 1 main,s,2 Set -> ready main,s,3\nok\nX=72\nZ=8\nstatus 0
# Notes are not faults.
[main]\n;; reload\n[main]\nexten => s,1,NoOp()\nexten => s,1,Hangup()\ninclude => x\ncolour = red\n;; script\nreload\nstart main s\nstep 1\n→ok\nstarted 1\nran 1 main,s,1 NoOp -> ready main,s,2\nstatus 0
# Digits are kept, and go on as the new dialplan says.
[main]\nexten => s,1,WaitExten()\nexten => _5X,1,NoOp()\n;; reload\n[main]\nexten => 5,1,NoOp()\nexten => _57.,1,NoOp()\n;; script\nstart main s\nstep 1\ndigit 1 5\nreload\ndigit 1 7\ntimeout 1\n→started 1\nran 1 main,s,1 WaitExten -> digits\nok 1 -> digits\nok\nok 1 -> digits\nok 1 -> ready main,57,1\nstatus 0
# So are the place, the variables and the frames, to whose place a return goes without a check.
[main]\nexten => s,1,Set(A=1)\nexten => s,2,Gosub(f,s,1(x))\n[f]\nexten => s,1,NoOp()\n;; reload\n[f]\nexten => s,1,Return(${ARG1}${A})\n;; script\nstart main s\nstep 1 2\nreload\nstep 1\nshow 1 GOSUB_RETVAL\nstep 1\n→started 1\nran 1 main,s,1 Set -> ready main,s,2\nran 1 main,s,2 Gosub -> ready f,s,1\nok\nran 1 f,s,1 Return -> ready main,s,3\nGOSUB_RETVAL=x1\nno entry 1 -> ended\nstatus 0
# `h`, `i` and `t` are looked up in the new dialplan, and a call that is over stays so.
[main]\nexten => s,1,WaitExten()\n;; reload\n[main]\nexten => h,1,NoOp()\nexten => i,1,NoOp()\nexten => t,1,NoOp()\n;; script\nstart main s\nstart main s\nstart main s\nstart main s\nhangup 4\nstep 2\nreload\nhangup 1\ntimeout 2\nstep 3\nstep 4\n→started 1\nstarted 2\nstarted 3\nstarted 4\nok 4 -> ended\nran 2 main,s,1 WaitExten -> digits\nok\nok 1 -> ready main,h,1\nok 2 -> ready main,t,1\ninvalid 3 -> ready main,i,1\nrefused 49 Ended\nstatus 1
";

/// Calls, and where they go.
const CALLS: &str = r"
# Two calls that take turns.
[main]\nexten => 1,1,NoOp()\nexten => 1,2,Hangup()\nexten => 2,1,Goto(1,2)\n;; script\nstart main 1\nstart main 2\nstep 2\nstep 1\nstep 2\nstep 1\n→started 1\nstarted 2\nran 2 main,2,1 Goto -> ready main,1,2\nran 1 main,1,1 NoOp -> ready main,1,2\nran 2 main,1,2 Hangup -> ended\nran 1 main,1,2 Hangup -> ended\nstatus 0
# A call that begins after the steps of another.
[main]\nexten => s,1,Goto(1)\n;; script\nstart main s\nstep 1 2\nstart main s\nstep 2\nstep 1\n→started 1\nran 1 main,s,1 Goto -> ready main,s,1\nran 1 main,s,1 Goto -> ready main,s,1\nstarted 2\nran 2 main,s,1 Goto -> ready main,s,1\nran 1 main,s,1 Goto -> ready main,s,1\nstatus 0
# Places that do not exist.
[main]\nexten => s,1,Goto(9,1)\n;; script\nstart main s\nstep 1 2\n→started 1\nran 1 main,s,1 Goto -> ready main,9,1\nno entry 1 -> ended\nstatus 0
[main]\nexten => s,1,Goto(2147483648)\n;; script\nstart main s\nstep 1 2\n→started 1\nran 1 main,s,1 Goto -> ready main,s,2147483648\nno entry 1 -> ended\nstatus 0
[main]\nexten => s,1,NoOp()\n;; script\nstart Main s\nstep 1\n→started 1\nno entry 1 -> ended\nstatus 0
[main]\nexten => s,2,NoOp()\n;; script\nstart main s\nstep 1\n→started 1\nno entry 1 -> ended\nstatus 0
# A target without a number is the end of the call.
[main]\nexten => s,1,Goto(x)\n;; script\nstart main s\nstep 1\n→started 1\nran 1 main,s,1 Goto -> ended\nstatus 0
# Another context, whose sections are apart.
[main]\nexten => s,1,Goto(out,7,1)\n[out]\nexten => 7,1,NoOp()\n[main]\nexten => s,2,NoOp()\n[out]\nexten => 7,2,Goto(main,s,2)\n;; script\nstart main s\nstep 1 5\n→started 1\nran 1 main,s,1 Goto -> ready out,7,1\nran 1 out,7,1 NoOp -> ready out,7,2\nran 1 out,7,2 Goto -> ready main,s,2\nran 1 main,s,2 NoOp -> ready main,s,3\nno entry 1 -> ended\nstatus 0
# Applications are printed as they are written.
[main]\nexten => s,1,goto(2)\nexten => s,2,NOOP\nexten => s,3,hangUP()\n;; script\nstart main s\nstep 1 3\n→started 1\nran 1 main,s,1 goto -> ready main,s,2\nran 1 main,s,2 NOOP -> ready main,s,3\nran 1 main,s,3 hangUP -> ended\nstatus 0
[main]\nexten => s,1,Play Back(x)\n;; script\nstart main s\nstep 1\n→started 1\nran 1 main,s,1 Play Back -> ended\nstatus 0
# Dashes of a dialled text are skipped, and are kept in the place.
[main]\nexten => 200,1,NoOp()\n;; script\nstart main 2-00\nstep 1\n→started 1\nran 1 main,200,1 NoOp -> ready main,2-00,2\nstatus 0
# The first of two entries at one place.
[globals]\nA=1\n[main]\nexten => s,01,NoOp()\nexten => s,1,Hangup()\n;; script\nstart main s\nstep 1\n→started 1\nran 1 main,s,1 NoOp -> ready main,s,2\nstatus 0
# Bytes above 127.
[m\xC3\xBCnchen]\nexten => s,1,NoOp()\n;; script\nstart m\xC3\xBCnchen s\nstep 1\n→started 1\nran 1 m\xC3\xBCnchen,s,1 NoOp -> ready m\xC3\xBCnchen,s,2\nstatus 0
[\xFF]\nexten => s,1,Gr\xC3\xBC\xC3\x9F(\xE4)\n;; script\nstart \xFF s\nstep 1\n→started 1\nran 1 \xFF,s,1 Gr\xC3\xBC\xC3\x9F -> ended\nstatus 0
[main]\nexten => s,1,NoOp(\x80\xFF)\nexten => s,2,Goto(\xA0,1)\n;; script\nstart main s\nstep 1 3\n→started 1\nran 1 main,s,1 NoOp -> ready main,s,2\nran 1 main,s,2 Goto -> ready main,\xA0,1\nno entry 1 -> ended\nstatus 0
[main]\nexten => s,1,Goto(\xFE,\xFD,1)\n;; script\nstart \xFF \xFE \xFD\nstart main s\nstep 1\nstep 2\n→started 1\nstarted 2\nno entry 1 -> ended\nran 2 main,s,1 Goto -> ready \xFE,\xFD,1\nstatus 0
# A dialplan with a byte order mark, carriage returns, comments and settings.
\xEF\xBB\xBF; x\r\n[general]\r\nstatic=yes\r\n\r\n[main] ; y\r\nexten => s,1,Goto(2) ; z\r\nexten => s,2,Hangup(a\\;b)\r\n;; script\r\nstart main s\r\n\r\n; x\r\nstep 1 2\r\n→started 1\nran 1 main,s,1 Goto -> ready main,s,2\nran 1 main,s,2 Hangup -> ended\nstatus 0
";

/// How the events are written.
const WORDS: &str = r"
[main]\nexten => s,1,NoOp()\n;; script\nstart main s 5551234\nstep 1\n→started 1\nran 1 main,s,1 NoOp -> ready main,s,2\nstatus 0
# A `;` after words is a word: here the caller.
[main]\nexten => s,1,NoOp()\n;; script\nstart main s ;\nstep 1\n→started 1\nran 1 main,s,1 NoOp -> ready main,s,2\nstatus 0
[main]\nexten => s,1,NoOp()\n;; script\n\n  \n;\n;step 1\n \t; jump\nstart main s\nstep 1\n→started 1\nran 1 main,s,1 NoOp -> ready main,s,2\nstatus 0
[main]\nexten => s,1,NoOp()\n;; script\n\tstart\t main  s \nstep\x001\x1F\n→started 1\nran 1 main,s,1 NoOp -> ready main,s,2\nstatus 0
# Counts.
[main]\nexten => s,1,NoOp()\n;; script\nstart main s\nstep 1 1\n→started 1\nran 1 main,s,1 NoOp -> ready main,s,2\nstatus 0
[main]\nexten => s,1,NoOp()\n;; script\nstart main s\nstep 01 0001\n→started 1\nran 1 main,s,1 NoOp -> ready main,s,2\nstatus 0
[main]\nexten => s,1,NoOp()\n;; script\nstart main s\nstep 1 0\n→started 1\nstatus 0
[main]\nexten => s,1,NoOp()\n;; script\nstep 7 0\nstep 1 000\n→status 0
[main]\nexten => s,1,NoOp()\nexten => s,2,NoOp()\nexten => s,3,NoOp()\n;; script\nstart main s\nstep 1 2\n→started 1\nran 1 main,s,1 NoOp -> ready main,s,2\nran 1 main,s,2 NoOp -> ready main,s,3\nstatus 0
[main]\nexten => s,1,NoOp()\nexten => s,2,NoOp()\n;; script\nstart main s\nstep 1 0\nstep 1\nstep 1 0000000000000000000000002\n→started 1\nran 1 main,s,1 NoOp -> ready main,s,2\nran 1 main,s,2 NoOp -> ready main,s,3\nno entry 1 -> ended\nstatus 0
";

/// Refused events, which make the status 1.
const REFUSED: &str = r"
;; script\nstep 1\n→refused 40 NoChannel\nstatus 1
;; script\nstart main s\nstep 0\n→started 1\nrefused 40 NoChannel\nstatus 1
;; script\nstart main s\nstep 2\nstep 65536\nstep 4294967295\n→started 1\nrefused 40 NoChannel\nrefused 40 NoChannel\nrefused 40 NoChannel\nstatus 1
;; script\nstep 9 2\n→refused 40 NoChannel\nrefused 40 NoChannel\nstatus 1
# Refused events change nothing.
[main]\nexten => s,1,NoOp()\n;; script\nstep 1\nstart main s\nstep 2\nstep 1\n→refused 40 NoChannel\nstarted 1\nrefused 40 NoChannel\nran 1 main,s,1 NoOp -> ready main,s,2\nstatus 1
# Calls that are over.
[main]\nexten => s,1,Hangup()\n;; script\nstart main s\nstep 1\nstep 1\n→started 1\nran 1 main,s,1 Hangup -> ended\nrefused 49 Ended\nstatus 1
[main]\n;; script\nstart main s\nstep 1 3\n→started 1\nno entry 1 -> ended\nrefused 49 Ended\nrefused 49 Ended\nstatus 1
[main]\nexten => s,1,Macro(x)\n;; script\nstart main s\nstep 1 2\nstart main s\nstep 2\nstep 1\n→started 1\nran 1 main,s,1 Macro -> ended\nrefused 49 Ended\nstarted 2\nran 2 main,s,1 Macro -> ended\nrefused 49 Ended\nstatus 1
";

/// Patterns, and priorities that only a less specific name has.
const PATTERNS: &str = r"
# The most specific name answers.
[main]\nexten => _X.,1,NoOp()\nexten => _1XX,1,NoOp()\nexten => 123,1,NoOp()\n;; script\nstart main 123\nstart main 124\nstart main 12\nstart main 1\nstep 1\nstep 2\nstep 3\nstep 4\n→started 1\nstarted 2\nstarted 3\nstarted 4\nran 1 main,123,1 NoOp -> ready main,123,2\nran 2 main,_1XX,1 NoOp -> ready main,124,2\nran 3 main,_X.,1 NoOp -> ready main,12,2\nno entry 4 -> ended\nstatus 0
# Of sets with equal sizes, the one with the lower members.
[main]\nexten => _NX,1,NoOp()\nexten => _[4-8]X,1,NoOp()\nexten => _[0-4]X,1,NoOp()\nexten => _[2-9]X,1,NoOp()\n;; script\nstart main 45\nstep 1\n→started 1\nran 1 main,_[01234]X,1 NoOp -> ready main,45,2\nstatus 0
# The priority is checked before the name is chosen.
[main]\nexten => 123,1,NoOp(one)\nexten => _X.,1,NoOp(other)\nexten => _X.,2,NoOp(two)\n;; script\nstart main 123\nstep 1 3\n→started 1\nran 1 main,123,1 NoOp -> ready main,123,2\nran 1 main,_X.,2 NoOp -> ready main,123,3\nno entry 1 -> ended\nstatus 0
# The special extensions are found like any other.
[main]\nexten => _.,1,NoOp()\n;; script\nstart main s\nstart main i\nstep 1\nstep 2\n→started 1\nstarted 2\nran 1 main,_.,1 NoOp -> ready main,s,2\nran 2 main,_.,1 NoOp -> ready main,i,2\nstatus 0
# A usual file, without its queues.
[general]\nstatic=yes\nwriteprotect=no\n\n[globals]\nTRUNK=Line/9\n\n[main]\nexten => _NXXXXXX,1,NoOp()\n same => n,NoOp(hello-world)\n same => n(q),Queue(support,c)\nsame => n,Hangup()\ninclude => out\n;; script\nstart main 555-1234\nstep 1 3\n→started 1\nran 1 main,_NXXXXXX,1 NoOp -> ready main,555-1234,2\nran 1 main,_NXXXXXX,2 NoOp -> ready main,555-1234,3\nran 1 main,_NXXXXXX,3 Queue -> ready main,555-1234,4\nstatus 0
";

/// Contexts that include others.
const INCLUDES: &str = r"
[a]\ninclude => b\n[b]\ninclude => a\n;; script\nstart a 77\nstep 1\n→started 1\nno entry 1 -> ended\nstatus 0
# The context answers before what it includes, however specific the names are.
[main]\nexten => _1XX,1,NoOp()\ninclude => late\ninclude => night\n[late]\nexten => 123,1,NoOp()\nexten => 200,1,NoOp()\ninclude => main\n;; script\nstart main 123\nstart late 123\nstart main 200\nstart late 124\nstart night 123\nstep 1\nstep 2\nstep 3\nstep 4\nstep 5\n→started 1\nstarted 2\nstarted 3\nstarted 4\nstarted 5\nran 1 main,_1XX,1 NoOp -> ready main,123,2\nran 2 late,123,1 NoOp -> ready late,123,2\nran 3 late,200,1 NoOp -> ready main,200,2\nran 4 main,_1XX,1 NoOp -> ready late,124,2\nno entry 5 -> ended\nstatus 0
# A priority that only the included context has.
[main]\nexten => s,1,NoOp()\ninclude => more\n[more]\nexten => s,2,Hangup()\n;; script\nstart main s\nstep 1 2\n→started 1\nran 1 main,s,1 NoOp -> ready main,s,2\nran 1 more,s,2 Hangup -> ended\nstatus 0
";

/// Targets whose priority is a label.
const LABELS: &str = r"
[main]\nexten => s,1,Goto(x)\nexten => s,n(x),Hangup()\n;; script\nstart main s\nstep 1 2\n→started 1\nran 1 main,s,1 Goto -> ready main,s,2\nran 1 main,s,2 Hangup -> ended\nstatus 0
# A label that nothing has.
[main]\nexten => s,1,Goto(y)\nexten => s,n(x),Hangup()\n;; script\nstart main s\nstep 1\n→started 1\nran 1 main,s,1 Goto -> ended\nstatus 0
# Case counts.
[main]\nexten => s,1,Goto(X)\nexten => s,n(x),Hangup()\n;; script\nstart main s\nstep 1\n→started 1\nran 1 main,s,1 Goto -> ended\nstatus 0
# Of another extension, by the name that matches it.
[main]\nexten => s,1,Goto(2-00,x)\nexten => 200,1,NoOp()\nexten => _2XX,4(x),Hangup()\n;; script\nstart main s\nstep 1 2\n→started 1\nran 1 main,s,1 Goto -> ready main,2-00,4\nran 1 main,_2XX,4 Hangup -> ended\nstatus 0
# Of another context, through what it includes.
[main]\nexten => s,1,Goto(out,s,go)\n[out]\ninclude => more\n[more]\nexten => s,7(go),Hangup()\n;; script\nstart main s\nstep 1 2\n→started 1\nran 1 main,s,1 Goto -> ready out,s,7\nran 1 more,s,7 Hangup -> ended\nstatus 0
# A label gives a number, and the entry at it is then the most specific one.
[main]\nexten => s,1,Goto(12,x)\nexten => 12,3,NoOp()\nexten => _1X,3(x),Hangup()\n;; script\nstart main s\nstep 1 2\n→started 1\nran 1 main,s,1 Goto -> ready main,12,3\nran 1 main,12,3 NoOp -> ready main,12,4\nstatus 0
";

/// Faulty dialplans, each with a script: nothing is written.
const FAULTY_PLANS: &str = r"
# Faults of the text.
[main]\n;-- x\n;; script\nstart main s\n→fault 1 BlockComment line 2
a=1\n;; script\nstart main s\n→fault 2 NoSection line 1
[main]\n[x\n;; script\nstart main s\n→fault 3 BadHeader line 2
[main]\nabc\n;; script\nstart main s\n→fault 4 NoEquals line 2
[main]\n\n#include \x22x\x22\n;; script\n→fault 5 Directive line 3
[main]\r\n[x](!)\r\n;; script\r\n→fault 6 Template line 2
# Faults of lines of contexts.
[main]\nexten => s,0,A\n;; script\nstart main s\n→fault 20 BadPriority line 2
[main]\nexten => s,x,A\n;; script\n→fault 20 BadPriority line 2
[main]\nexten => s,1,A(\n;; script\n→fault 23 BadApplication line 2
[main]\nexten => s,hint,A\n;; script\n→fault 24 LeftOut line 2
[main]\nswitch => x\n;; script\n→fault 24 LeftOut line 2
[main]\nexten => s,2147483648,A\n;; script\n→fault 27 PriorityLimit line 2
[main]\nexten => s,1\n;; script\nstart main s\n→fault 28 ShortLine line 2
[main]\nexten => s\n;; script\n→fault 28 ShortLine line 2
# Names, and priorities that count on.
[main]\nexten => _,1,A\n;; script\n→fault 10 EmptyName line 2
[main]\nexten => _[],1,A\n;; script\n→fault 11 EmptySet line 2
[main]\nexten => _[9-0],1,A\n;; script\n→fault 12 BadRange line 2
[main]\nexten => _[12,1,A\n;; script\n→fault 13 OpenSet line 2
[main]\nexten => _1.2,1,A\n;; script\n→fault 14 AfterWildcard line 2
[main]\nexten => a b,1,A\n;; script\n→fault 15 BadByte line 2
[main]\nexten => s,n,A\n;; script\nstart main s\n→fault 21 NoPrevious line 2
[main]\nexten => s,1(),A\n;; script\n→fault 22 BadLabel line 2
[main]\nsame => 2,B\n;; script\n→fault 26 NoExten line 2
# Too deeply nested groups.
[globals]\nA=${${${${${${${${${${${${${${${${${${${${${${${${${${${${${${${${${}}}}}}}}}}}}}}}}}}}}}}}}}}}}}}}}}\n;; script\n→fault 25 TooDeep line 2
# The text's fault before those of contexts.
[main]\nexten => s,0,A\nabc\n;; script\n→fault 4 NoEquals line 3
# The dialplan's fault before the script's.
[main]\nabc\n;; script\njump 1\n→fault 4 NoEquals line 2
[main]\n\n\nexten => s,0,A\n;; script\njump 1\n→fault 20 BadPriority line 4
";

/// Faulty scripts: nothing is written.
const FAULTY_SCRIPTS: &str = r"
;; script\njump 1\n→fault 70 BadScript line 1
;; script\nstart a\n→fault 70 BadScript line 1
;; script\nstep x\n→fault 70 BadScript line 1
;; script\nstep 1 100001\n→fault 70 BadScript line 1
;; script\nstep +1\n→fault 70 BadScript line 1
;; script\nstep 4294967296\n→fault 70 BadScript line 1
;; script\nstep 1 1 1\n→fault 70 BadScript line 1
;; script\nstart a b c d\n→fault 70 BadScript line 1
# The line is counted in the script, from the line after the separator.
[main]\nexten => s,1,NoOp()\n;; script\nstart main s\n\n; x\njump 1\n→fault 70 BadScript line 4
[main]\r\n\r\n;; script\r\nstart main s\r\nstep 1\r\nstep 1 2 3→fault 70 BadScript line 3
# The first faulty line, and no event before it.
[main]\n;; script\nstart main s\nstep -1\nstart main s\njump 1\nstart\n→fault 70 BadScript line 2
\n\n;; script\n\n\nStart main s\n→fault 70 BadScript line 3
";

/// The tables of joined texts.
const TABLES: &[&str] = &[
    ROWS,
    SHOWS,
    SEPARATORS,
    SECONDS,
    RELOADS,
    CALLS,
    WORDS,
    REFUSED,
    PATTERNS,
    INCLUDES,
    LABELS,
    FAULTY_PLANS,
    FAULTY_SCRIPTS,
];

/// Whether the run of a script on a dialplan has this output and result.
fn check_apart<'a>(alloc: Global, plan: &'a [u8], script: &'a str, want: &str) -> Result<(), Fail> {
    let mut writer = make_sink(alloc, 4096, None);
    let texts = RunTexts {
        plan,
        queues: None,
        second_plan: None,
        script: script.as_bytes(),
    };
    let ended = run_script(alloc, texts, &mut writer);
    let got = outcome_text(alloc, ended, writer)?;
    check_same(script, &got, want)
}

#[test]
fn joined_texts_run(rt: HostRuntime) -> Result<(), Fail> {
    for table in TABLES {
        check_table::<JoinedRun>(rt.alloc(), table)?;
    }
    let plan = b"[main]\nexten => 100,1,NoOp(hello)\nexten => 100,2,Goto(200,1)\n\
exten => 200,1,Hangup()\n";
    let want = "started 1\nran 1 main,100,1 NoOp -> ready main,100,2\n\
ran 1 main,100,2 Goto -> ready main,200,1\nran 1 main,200,1 Hangup -> ended\nstatus 0";
    check_apart(rt.alloc(), plan, "start main 100\nstep 1 3\n", want)?;
    check_apart(rt.alloc(), b"", "jump 1", "fault 70 BadScript line 1")
}
