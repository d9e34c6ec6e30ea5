//! `check`, `match`, `audit`, `reach` and `test` with `--json`: an object for each line or test, with the status of the command without it.

/// The command lines, with what they print.
pub(super) const JSON: &str = r#"
# The notes and the counts of a dialplan.
check --json @usual→0→{"type":"note","line":13,"kind":"UnknownContext"}¶{"type":"count","contexts":1,"entries":4}¶→
check @notes --json→0→{"type":"note","line":2,"kind":"UnknownKey"}¶{"type":"note","line":5,"kind":"DoublePriority"}¶{"type":"note","line":7,"kind":"DoubleLabel"}¶{"type":"note","line":8,"kind":"UnknownContext"}¶{"type":"note","line":9,"kind":"UnknownKey"}¶{"type":"count","contexts":1,"entries":2}¶→
check --json @sections→0→{"type":"count","contexts":3,"entries":2}¶→
# A note is not explained, and faults are as they are without it.
check --json --explain @usual→0→{"type":"note","line":13,"kind":"UnknownContext"}¶{"type":"count","contexts":1,"entries":4}¶→
check --json --explain @faulty→1→→fault 4 NoEquals line 2¶  @faulty:2¶  abc¶  a line of a section with no `=`¶
check --json @missing→1→→fault 7 ReadFailed¶
# Queues, alone and after a dialplan.
check --queues @queues --json→0→{"type":"count","queues":2}¶→
check --json --queues @strategy→1→→fault 30 BadStrategy line 2¶
check --json --queues @help @usual→0→{"type":"note","line":13,"kind":"UnknownContext"}¶{"type":"count","contexts":1,"entries":4}¶{"type":"count","queues":1}¶→
check --json --queues @strategy @usual→1→→fault 30 BadStrategy line 2¶
check --json --queues @strategy @priority→1→→fault 20 BadPriority line 2¶
# With the files that they include.
check --asterisk --json @calls→0→{"type":"count","contexts":1,"entries":4}¶→
check --asterisk --json @parted→1→{"type":"note","file":"@inner","line":1,"kind":"Hint"}¶{"type":"fault","file":"@inner","line":2,"kind":"BadApplication","code":23}¶{"type":"fault","file":"@parted","line":4,"kind":"BadPriority","code":20}¶{"type":"fault","file":"@parted","line":5,"kind":"ReadFailed","code":7,"included":"nowhere.conf"}¶{"type":"count","faults":3}¶→
check --json --asterisk --queues @tiered→0→{"type":"count","queues":1}¶→
check --json --asterisk --queues @mixed→1→{"type":"fault","file":"@mixed","line":3,"kind":"BadStrategy","code":30}¶{"type":"count","faults":1}¶→
check --json --asterisk --queues @random @calls→0→{"type":"note","file":"@random","line":2,"kind":"Random"}¶{"type":"count","contexts":1,"entries":4}¶{"type":"count","queues":1}¶→
check @parted --queues @mixed --asterisk --json→1→{"type":"note","file":"@inner","line":1,"kind":"Hint"}¶{"type":"fault","file":"@inner","line":2,"kind":"BadApplication","code":23}¶{"type":"fault","file":"@parted","line":4,"kind":"BadPriority","code":20}¶{"type":"fault","file":"@parted","line":5,"kind":"ReadFailed","code":7,"included":"nowhere.conf"}¶{"type":"fault","file":"@mixed","line":3,"kind":"BadStrategy","code":30}¶{"type":"count","faults":4}¶→
check --json --asterisk @timed→1→{"type":"fault","file":"@timed","line":2,"kind":"NoClock"}¶{"type":"count","faults":1}¶→
check --json --asterisk --queues @missing @calls→1→→fault 7 ReadFailed¶
check --json --asterisk --queues @long→1→→fault 8 TooLong¶
# The entry that answers, or none, with the same hints.
match --json @usual main 555-1234 3→0→{"type":"match","context":"main","name":"_NXXXXXX","priority":3,"label":"q","application":"Queue","arguments":"support,c"}¶→
match --json @opened internal 210 2→0→{"type":"match","context":"internal","name":"_[23]XX","priority":2,"application":"GotoIf","arguments":"$[\"${DIALSTATUS}\" = \"BUSY\"]?busy"}¶→
match --json @usual main 1551234→0→{"type":"none"}¶→
match --json @usual out 5551234→0→{"type":"none"}¶→pbx: @usual has no context `out`¶
match --json --explain @near main s→0→{"type":"none"}¶→pbx: @near has no context `main`¶  nearest: min¶  nearest: mainn¶  nearest: mien¶
match --json @faulty main s→1→→fault 4 NoEquals line 2¶
# All extensions that match.
match --all --json @priorities main 123 2→0→{"type":"match","context":"main","name":"_X.","priority":2,"application":"NoOp","arguments":"two"}¶{"type":"candidate","kind":"NoSuchPriority","context":"main","name":"123","priority":2}¶{"type":"candidate","kind":"Answers","context":"main","name":"_X.","priority":2,"application":"NoOp","arguments":"two"}¶→
match @specific main 123 --json --all→0→{"type":"match","context":"main","name":"123","priority":1,"application":"NoOp","arguments":""}¶{"type":"candidate","kind":"Answers","context":"main","name":"123","priority":1,"application":"NoOp","arguments":""}¶{"type":"candidate","kind":"LessSpecific","context":"main","name":"_1XX","priority":1,"application":"NoOp","arguments":""}¶{"type":"candidate","kind":"LessSpecific","context":"main","name":"_X.","priority":1,"application":"NoOp","arguments":""}¶→
match --all --json @chain main 123→0→{"type":"match","context":"main","name":"_1XX","priority":1,"application":"NoOp","arguments":""}¶{"type":"candidate","kind":"Answers","context":"main","name":"_1XX","priority":1,"application":"NoOp","arguments":""}¶{"type":"candidate","kind":"LaterContext","context":"late","name":"123","priority":1,"application":"Hangup","arguments":""}¶→
match --all --json @specific main 1→0→{"type":"none"}¶→
match --all --json @missing main s→1→→fault 7 ReadFailed¶
# With the files that the dialplan includes: what stops a look-up is printed as without it.
match --json --asterisk @pieces main 100 2→0→{"type":"match","context":"main","name":"100","priority":2,"application":"Hangup","arguments":""}¶→
match --json --all --asterisk @pieces main s→0→{"type":"match","context":"main","name":"s","priority":1,"application":"Goto","arguments":"100,1"}¶{"type":"candidate","kind":"Answers","context":"main","name":"s","priority":1,"application":"Goto","arguments":"100,1"}¶→
match --json --asterisk @switched main s→1→→@switched:2: note Switch¶
match --json --asterisk @missing main s→1→→fault 7 ReadFailed¶
# The findings of an audit.
audit --json @cycle→1→{"type":"finding","kind":"Cycle","context":"a"}¶{"type":"finding","kind":"Cycle","context":"b"}¶{"type":"count","findings":2}¶→
audit --json @asking→1→{"type":"finding","kind":"NoApplication","context":"main","name":"s","priority":2,"application":"While","arguments":"1"}¶{"type":"count","findings":1}¶→
audit --json @first→0→{"type":"count","findings":0}¶→
audit --json @empty→0→{"type":"count","findings":0}¶→pbx: @empty has no context: is it a dialplan?¶
audit --json --explain @faulty→1→→fault 4 NoEquals line 2¶  @faulty:2¶  abc¶  a line of a section with no `=`¶
# Of some kinds.
audit --json --only cycle @cycle→1→{"type":"finding","kind":"Cycle","context":"a"}¶{"type":"finding","kind":"Cycle","context":"b"}¶{"type":"count","findings":2}¶→
audit --ignore CYCLE,Gap --json @cycle→0→{"type":"count","findings":0}¶→
audit --json --only Gap @help→0→{"type":"count","findings":0}¶→pbx: @help has no entry: is it a dialplan?¶
audit --json --ignore Gap @missing→1→→fault 7 ReadFailed¶
# Over the wide table.
audit --json --asterisk @circling→1→{"type":"finding","kind":"NoApplication","context":"main","name":"100","priority":2,"application":"While","arguments":"1"}¶{"type":"finding","kind":"FallsThrough","context":"main","name":"100","priority":2,"application":"While","arguments":"1","next_context":"main","next_name":"_X.","next_priority":3}¶{"type":"finding","kind":"Loop","context":"main","name":"s","priority":1,"application":"Answer","arguments":""}¶{"type":"finding","kind":"NoFunction","context":"main","name":"_X.","priority":3,"application":"NoOp","arguments":"${CUTT(a,-,1)}","function":"CUTT"}¶{"type":"count","findings":4}¶→
audit --asterisk --only loop --json @circling→1→{"type":"finding","kind":"Loop","context":"main","name":"s","priority":1,"application":"Answer","arguments":""}¶{"type":"count","findings":1}¶→
audit --json --asterisk @pieces→0→{"type":"count","findings":0}¶→
audit --json --asterisk @parted→1→→@inner:2: fault 23 BadApplication¶@parted:4: fault 20 BadPriority¶@parted:5: fault 7 ReadFailed nowhere.conf¶
audit --json --asterisk @long→1→→fault 8 TooLong¶
# What a call may run, and how it gets there.
reach --json @doors outside→0→{"type":"assumed","extensions":"0-9A-Za-z*#+_.","callers":"0-9+","starts":"every context"}¶{"type":"entry","context":"outside","name":"s","priority":1,"application":"Goto","arguments":"hall,${EXTEN},1"}¶{"type":"way","context":"outside","text":"outside,{0-9A-Za-z*#+_.}*  a call comes in"}¶{"type":"entry","context":"hall","name":"s","priority":1,"application":"Hangup","arguments":""}¶{"type":"way","context":"hall","text":"outside,{0-9A-Za-z*#+_.}*  a call comes in"}¶{"type":"way","context":"hall","text":"outside,s,1 Goto(hall,${EXTEN},1) -> hall,s"}¶{"type":"count","entries":2,"all_entries":4,"contexts":2,"all_contexts":3}¶→
reach @doors hall --to safe --json→1→{"type":"assumed","extensions":"0-9A-Za-z*#+_.","callers":"0-9+","starts":"every context"}¶{"type":"verdict","kind":"MayReach","context":"safe"}¶{"type":"way","text":"safe,s,1 NoOp(no way)  e.g. extension s"}¶{"type":"way","text":"hall,{0-9A-Za-z*#+_.}*  a call comes in"}¶{"type":"way","text":"hall,9,1 Goto(safe,s,1) -> safe,s"}¶{"type":"way","text":"every jump that lets a call in there:"}¶{"type":"way","text":"hall,9,1 Goto(safe,s,1)"}¶→
reach --json @doors outside --to safe --start hall --exten 0-9 --caller 7→0→{"type":"assumed","extensions":"0-9","callers":"7","starts":"outside hall"}¶{"type":"verdict","kind":"Unreachable","context":"safe"}¶→
reach --asterisk --json @doors outside --to safe→0→{"type":"assumed","extensions":"0-9A-Za-z*#+_.","callers":"0-9+","facts":"0-9A-Za-z_./ -","starts":"every context"}¶{"type":"verdict","kind":"Unreachable","context":"safe"}¶→
reach --json @doors kitchen→1→→pbx: @doors has no context `kitchen`¶
reach --json @faulty main→1→→fault 4 NoEquals line 2¶
# The results of tests, and what they cover.
test --json @first.test→0→{"type":"test","number":1,"kind":"Passed","name":"one"}¶{"type":"count","tests":1,"failed":0}¶→
test --json --trace @first.test @fails.test→1→{"type":"test","number":1,"kind":"Passed","name":"one"}¶{"type":"test","number":2,"kind":"Failed","name":"one","at":"@fails.test:4","expected":"1 ran NoOp","got":"Hangup()","trace":"@first:2 main,100,1 NoOp(hello)\u000a@first:3 main,100,2 Goto(200,1)\u000a@first:4 main,200,1 Hangup()"}¶{"type":"test","number":3,"kind":"Failed","name":"two","at":"@fails.test:7","expected":"done","got":"refused 49 Ended","trace":"@first:2 main,100,1 NoOp(hello)\u000a@first:3 main,100,2 Goto(200,1)\u000a@first:4 main,200,1 Hangup()"}¶{"type":"count","tests":3,"failed":2}¶→
test --cover --json @none.test→0→{"type":"count","tests":0,"failed":0}¶{"type":"covered","file":"@first","entries":0,"of":3}¶{"type":"never","file":"@first","line":2,"context":"main","name":"100","priority":1,"application":"NoOp"}¶{"type":"never","file":"@first","line":3,"context":"main","name":"100","priority":2,"application":"Goto"}¶{"type":"never","file":"@first","line":4,"context":"main","name":"200","priority":1,"application":"Hangup"}¶→
test --json --cover @first.test @changes.test→0→{"type":"test","number":1,"kind":"Passed","name":"one"}¶{"type":"test","number":2,"kind":"Passed","name":"a dialplan is reloaded"}¶{"type":"count","tests":2,"failed":0}¶{"type":"covered","file":"@first","entries":3,"of":3}¶{"type":"covered","file":"@changing","entries":0,"of":2}¶{"type":"never","file":"@changing","line":5,"context":"main","name":"100","priority":1,"application":"NoOp"}¶{"type":"never","file":"@changing","line":6,"context":"main","name":"100","priority":2,"application":"NoOp"}¶→
test --json @faulty.test→1→→@faulty.test:3: fault BadLine¶@faulty.test:4: fault BadExpect¶
"#;
