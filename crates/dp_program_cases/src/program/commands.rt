//! The commands, over files: their whole output, and their statuses.
use crate::program::json::JSON;
use dp_program_fixture::{check_table, make_folder};
use std::env::Env;
use std::rt::Files;
use std::sync::Wait;
use std::test::Fail;
use std::thread::Threads;
use std::{fs, process};

/// `check`.
const CHECKS: &str = "\
check @usual→0→note 13 UnknownContext¶ok 1 contexts 4 entries¶→
check @classes→0→note 5 DoublePriority¶ok 1 contexts 3 entries¶→
check @notes→0→note 2 UnknownKey¶note 5 DoublePriority¶note 7 DoubleLabel¶note 8 UnknownContext¶note 9 UnknownKey¶ok 1 contexts 2 entries¶→
# Contexts are counted once, even if only a header is there; includes are not entries.
check @sections→0→ok 3 contexts 2 entries¶→
check @cycle→0→ok 2 contexts 0 entries¶→
check @empty→0→ok 0 contexts 0 entries¶→
check -- @empty→0→ok 0 contexts 0 entries¶→
# Files that are faulty, or that cannot be read.
check @faulty→1→→fault 4 NoEquals line 2¶
check @missing→1→→fault 7 ReadFailed¶
check @folder→1→→fault 7 ReadFailed¶
# A file where a folder would be, and a name of more than 255 bytes.
check @sample/extensions.conf→1→→fault 7 ReadFailed¶
check @xxxxxxxxxxxxxxxxxxxxxxxxxxxxxxxxxxxxxxxxxxxxxxxxxxxxxxxxxxxxxxxxxxxxxxxxxxxxxxxxxxxxxxxxxxxxxxxxxxxxxxxxxxxxxxxxxxxxxxxxxxxxxxxxxxxxxxxxxxxxxxxxxxxxxxxxxxxxxxxxxxxxxxxxxxxxxxxxxxxxxxxxxxxxxxxxxxxxxxxxxxxxxxxxxxxxxxxxxxxxxxxxxxxxxxxxxxxxxxxxxxxxxxxxxxxxxxxx→1→→fault 7 ReadFailed¶
check ''→1→→fault 7 ReadFailed¶
check @long→1→→fault 8 TooLong¶
# With the files that it includes: each note and each fault at its line, and the counts if there is no fault.
check --asterisk @calls→0→ok 1 contexts 4 entries¶→
check --asterisk @macros→0→ok 2 contexts 4 entries¶→
check --asterisk @parted→1→@inner:1: note Hint¶@inner:2: fault 23 BadApplication¶@parted:4: fault 20 BadPriority¶@parted:5: fault 7 ReadFailed nowhere.conf¶3 faults¶→
check --asterisk @folded→1→@first.part:1: fault 20 BadPriority¶@second.part:1: fault 20 BadPriority¶@folded:3: fault 7 ReadFailed *.none¶3 faults¶→
# Queues are read with the files that they include, after the dialplan.
check --asterisk --queues @help @calls→0→ok 1 contexts 4 entries¶ok 1 queues¶→
check --asterisk --queues @tiered→0→ok 1 queues¶→
check --asterisk --queues @mixed→1→@mixed:3: fault 30 BadStrategy¶1 faults¶→
check @parted --queues @mixed --asterisk→1→@inner:1: note Hint¶@inner:2: fault 23 BadApplication¶@parted:4: fault 20 BadPriority¶@parted:5: fault 7 ReadFailed nowhere.conf¶@mixed:3: fault 30 BadStrategy¶4 faults¶→
check --asterisk --queues @random @calls→0→@random:2: note Random¶ok 1 contexts 4 entries¶ok 1 queues¶→
check --asterisk --queues @missing @calls→1→→fault 7 ReadFailed¶
check --asterisk --queues @long @missing→1→→fault 7 ReadFailed¶
check --asterisk --queues @long→1→→fault 8 TooLong¶
check --asterisk --explain --queues @missing @calls→1→→fault 7 ReadFailed¶  @missing¶  a file could not be opened or read¶
check --asterisk --explain @missing→1→→fault 7 ReadFailed¶  @missing¶  a file could not be opened or read¶
check --asterisk @folder→1→→fault 7 ReadFailed¶
check --asterisk @long→1→→fault 8 TooLong¶
# Queues alone: a section `[general]` is not a queue.
check --queues @help→0→ok 1 queues¶→
check --queues @queues→0→ok 2 queues¶→
check --queues @empty→0→ok 0 queues¶→
check --queues @strategy→1→→fault 30 BadStrategy line 2¶
check --queues @faulty→1→→fault 4 NoEquals line 2¶
check --queues @missing→1→→fault 7 ReadFailed¶
check --queues @long→1→→fault 8 TooLong¶
# A dialplan and queues: the queues come last.
check --queues @help @usual→0→note 13 UnknownContext¶ok 1 contexts 4 entries¶ok 1 queues¶→
check @empty --queues @queues→0→ok 0 contexts 0 entries¶ok 2 queues¶→
# Both files are read before their texts, the dialplan first, and the faults of their texts come in the same order. Nothing else is printed.
check --queues @strategy @usual→1→→fault 30 BadStrategy line 2¶
check --queues @help @priority→1→→fault 20 BadPriority line 2¶
check --queues @strategy @priority→1→→fault 20 BadPriority line 2¶
check --queues @missing @long→1→→fault 8 TooLong¶
check --queues @long @missing→1→→fault 7 ReadFailed¶
check --queues @long @faulty→1→→fault 8 TooLong¶
check --queues @strategy @missing→1→→fault 7 ReadFailed¶
";

/// `list`.
const LISTS: &str = "\
# With the files that it includes: nothing is listed if a line has a fault.
list --asterisk @pieces→0→[main]¶exten => 100,1,NoOp(hello)¶exten => 100,2,Hangup()¶exten => s,1,Goto(100,1)¶→
list @pieces→1→→fault 5 Directive line 2¶
list --asterisk @parted→1→→@inner:2: fault 23 BadApplication¶@parted:4: fault 20 BadPriority¶@parted:5: fault 7 ReadFailed nowhere.conf¶
list --asterisk @switched→0→[main]¶→
# A macro ends where its priorities end.
list --asterisk @macros→0→[main]¶exten => s,1,Macro(x)¶exten => s,2,Hangup()¶[macro-x]¶exten => s,1,NoOp(in)¶exten => s,2,MacroExit()¶→
list @macros→0→[main]¶exten => s,1,Macro(x)¶exten => s,2,Hangup()¶[macro-x]¶exten => s,1,NoOp(in)¶→
list --asterisk @missing→1→→fault 7 ReadFailed¶
list --asterisk @long→1→→fault 8 TooLong¶
list --explain --asterisk @missing→1→→fault 7 ReadFailed¶  @missing¶  a file could not be opened or read¶
list @usual→0→[globals]¶TRUNK => Line/9¶[main]¶exten => _NXXXXXX,1,Answer()¶exten => _NXXXXXX,2,Playback(hello-world)¶exten => _NXXXXXX,3(q),Queue(support,c)¶exten => _NXXXXXX,4,Hangup()¶include => out¶→
list @empty→0→→
list @cycle→0→[a]¶include => b¶[b]¶include => a¶→
list @faulty→1→→fault 4 NoEquals line 2¶
list @missing→1→→fault 7 ReadFailed¶
list @long→1→→fault 8 TooLong¶
";

/// `reach`.
const REACHES: &str = "\
# Each entry that a call may run, by contexts, with the way there.
reach @doors outside→0→assumed: extensions of {0-9A-Za-z*#+_.}*, callers' numbers of {0-9+}*, calls come in at every context¶outside,s,1 Goto(hall,${EXTEN},1)¶  outside,{0-9A-Za-z*#+_.}*  a call comes in¶hall,s,1 Hangup()¶  outside,{0-9A-Za-z*#+_.}*  a call comes in¶  outside,s,1 Goto(hall,${EXTEN},1) -> hall,s¶ok 2 of 4 entries in 2 of 3 contexts¶→
reach @empty main→1→→pbx: @empty has no context: is it a dialplan?¶
# One context: no way there, a way, and what may come in.
reach @doors outside --to safe→0→assumed: extensions of {0-9A-Za-z*#+_.}*, callers' numbers of {0-9+}*, calls come in at every context¶unreachable: safe¶→
reach @doors hall --to safe→1→assumed: extensions of {0-9A-Za-z*#+_.}*, callers' numbers of {0-9+}*, calls come in at every context¶may reach: safe,s,1 NoOp(no way)  e.g. extension s¶  hall,{0-9A-Za-z*#+_.}*  a call comes in¶  hall,9,1 Goto(safe,s,1) -> safe,s¶every jump that lets a call in there:¶  hall,9,1 Goto(safe,s,1)¶→
reach @doors safe --to safe→1→assumed: extensions of {0-9A-Za-z*#+_.}*, callers' numbers of {0-9+}*, calls come in at every context¶may reach: safe,s,1 NoOp(no way)  e.g. extension s¶  safe,{0-9A-Za-z*#+_.}*  a call comes in¶→
reach @doors outside --to safe --start hall --exten 0-9 --caller 7→0→assumed: extensions of {0-9}*, callers' numbers of {7}*, calls come in at outside hall¶unreachable: safe¶→
reach @doors hall --to safe --exten 0-8a-cx→0→assumed: extensions of {0-8a-cx}*, callers' numbers of {0-9+}*, calls come in at every context¶unreachable: safe¶→
reach @doors outside --to hall --exten=s-→1→assumed: extensions of {s-}*, callers' numbers of {0-9+}*, calls come in at every context¶may reach: hall,s,1 Hangup()  e.g. extension s¶  outside,{s-}*  a call comes in¶  outside,s,1 Goto(hall,${EXTEN},1) -> hall,{s-}*¶every jump that lets a call in there:¶  outside,s,1 Goto(hall,${EXTEN},1)¶→
# A jump to a computed context, and an application that does not exist.
reach @jumps in --exten 0-9→0→assumed: extensions of {0-9}*, callers' numbers of {0-9+}*, calls come in at every context¶in,_X.,1 Set(where=${EXTEN})¶in,_X.,2 Goto(${where},s,1)¶  in,{0-9}*  a call comes in¶7,s,1 Hangup()¶  in,{0-9}*  a call comes in¶  in,_X.,2 Goto(${where},s,1) -> 7,s¶may lead to any context: in,_X.,2 Goto(${where},s,1)¶ok 3 of 4 entries in 2 of 3 contexts¶→
reach @jumps in --to desk→1→assumed: extensions of {0-9A-Za-z*#+_.}*, callers' numbers of {0-9+}*, calls come in at every context¶may reach: desk,s,1 Macro(ring)  e.g. extension s¶  in,{0-9A-Za-z*#+_.}*  a call comes in¶  in,_X.,2 Goto(${where},s,1) -> desk,s¶every jump that lets a call in there:¶  in,_X.,2 Goto(${where},s,1)¶may lead to any context: in,_X.,2 Goto(${where},s,1)¶no such application: desk,s,1 Macro(ring)¶of what an exchange does that has this application, nothing is claimed¶→
# A way out of a queue, if it has one.
reach @ways main --to out→0→assumed: extensions of {0-9A-Za-z*#+_.}*, callers' numbers of {0-9+}*, calls come in at every context¶unreachable: out¶→
reach --queues @wayout @ways main --to out→1→assumed: extensions of {0-9A-Za-z*#+_.}*, callers' numbers of {0-9+}*, calls come in at every context¶may reach: out,1,1 Hangup()  e.g. extension 1¶  main,{0-9A-Za-z*#+_.}*  a call comes in¶  main,s,1 Queue(help) -> out,{0-9A-D*#}¶every jump that lets a call in there:¶  main,s,1 Queue(help)¶→
# A call ends at the extension `h`, and digits that match nothing lead to `i`.
reach @ends in --to late→1→assumed: extensions of {0-9A-Za-z*#+_.}*, callers' numbers of {0-9+}*, calls come in at every context¶may reach: late,s,1 NoOp()  e.g. extension s¶  in,{0-9A-Za-z*#+_.}*  a call comes in¶  in,s,1 Goto(main,s,1) -> main,s¶  the call ends -> main,h¶  main,h,1 Goto(late,s,1) -> late,s¶every jump that lets a call in there:¶  main,h,1 Goto(late,s,1)¶→
reach @ends in --to lost→1→assumed: extensions of {0-9A-Za-z*#+_.}*, callers' numbers of {0-9+}*, calls come in at every context¶may reach: lost,s,1 NoOp()  e.g. extension s¶  in,{0-9A-Za-z*#+_.}*  a call comes in¶  in,s,1 Goto(main,s,1) -> main,s¶  no extension matches -> main,i¶  main,i,1 Goto(lost,s,1) -> lost,s¶every jump that lets a call in there:¶  main,i,1 Goto(lost,s,1)¶→
# One more line in the sample of routes opens a way of four places.
reach @opened from-carrier --to international→1→assumed: extensions of {0-9A-Za-z*#+_.}*, callers' numbers of {0-9+}*, calls come in at every context¶may reach: international,_00ZX.,1 Set(CALLERID(num)=+4989123450)  e.g. extension 00111¶  from-carrier,{0-9A-Za-z*#+_.}*  a call comes in¶  from-carrier,_X.,2 Goto(reception,s,1) -> reception,s¶  reception,s,3 Background(welcome) -> reception,{0-9A-D*#}*¶  lobby-features,_**X.,1 Goto(from-staff,${EXTEN:2},1) -> from-staff,{0-9}{0-9A-D*#}*¶every jump that lets a call in there:¶  lobby-features,_**X.,1 Goto(from-staff,${EXTEN:2},1)¶→
# What is set from outside, and files that are read with those that they include.
reach --facts 0-9 @jumps in --to desk --exten 0-9→0→assumed: extensions of {0-9}*, callers' numbers of {0-9+}*, values from outside of {0-9}*, calls come in at every context¶unreachable: desk¶may lead to any context: in,_X.,2 Goto(${where},s,1)¶→
reach --asterisk @doors outside --to safe→0→assumed: extensions of {0-9A-Za-z*#+_.}*, callers' numbers of {0-9+}*, values from outside of {0-9A-Za-z_./ -}*, calls come in at every context¶unreachable: safe¶→
reach --asterisk @doors kitchen→1→→pbx: @doors has no context `kitchen`¶
# Where a program sends a call is not known.
reach --asterisk --exten 0-9s @scripted main→0→assumed: extensions of {0-9s}*, callers' numbers of {0-9+}*, values from outside of {0-9A-Za-z_./ -}*, calls come in at every context¶main,s,1 AGI(ask.agi)¶main,s,2 Stasis(app)¶  main,{0-9s}*  a call comes in¶handed to a program: main,s,1 AGI(ask.agi)¶handed to a program: main,s,2 Stasis(app)¶of where such a program sends the call, nothing is claimed¶ok 2 of 2 entries in 1 of 1 contexts¶→
reach --asterisk @hunting main --to main→1→→@hunting:3: note Switch¶@hunting:4: note CallerId¶
reach --asterisk --assume Switch,CallerId --exten 1 @hunting main --to main→0→assumed: extensions of {1}*, callers' numbers of {0-9+}*, values from outside of {0-9A-Za-z_./ -}*, calls come in at every context¶unreachable: main¶→
# Names of contexts that do not exist, and files with a fault.
reach @doors kitchen→1→→pbx: @doors has no context `kitchen`¶
reach @doors outside --to kitchen --start a,hall→1→→pbx: @doors has no context `kitchen`¶pbx: @doors has no context `a`¶
reach @doors hal --explain→1→→pbx: @doors has no context `hal`¶  nearest: hall¶  nearest: safe¶  nearest: outside¶
reach @faulty main→1→→fault 4 NoEquals line 2¶
reach @missing main→1→→fault 7 ReadFailed¶
reach --queues @missing @doors outside→1→→fault 7 ReadFailed¶
reach --queues @strategy @doors outside→1→→fault 30 BadStrategy line 2¶
reach --queues @strategy @priority main→1→→fault 20 BadPriority line 2¶
";

/// `match`.
const MATCHES: &str = "\
match @usual main 5551234→0→main,_NXXXXXX,1 Answer¶→
match @usual main 555-1234 3→0→main,_NXXXXXX,3 Queue¶→
match @usual main 5551234 4→0→main,_NXXXXXX,4 Hangup¶→
match @usual main 5551234 5→0→none¶→
match @usual main 1551234→0→none¶→
# An included context is not the entry's own, and names are case sensitive.
match @usual out 5551234→0→none¶→pbx: @usual has no context `out`¶
match @usual Main 5551234→0→none¶→pbx: @usual has no context `Main`¶
match @usual '' ''→0→none¶→pbx: @usual has no context ``¶
# The most specific name answers, in its one spelling.
match @classes main 45→0→main,_[01234]X,1 NoOp¶→
match @specific main 123→0→main,123,1 NoOp¶→
match @specific main 124→0→main,_1XX,1 NoOp¶→
match @specific main 12→0→main,_X.,1 NoOp¶→
match @specific main 1→0→none¶→
# The priority is checked before the name is chosen.
match @priorities main 123 1→0→main,123,1 NoOp¶→
match @priorities main 123 2→0→main,_X.,2 NoOp¶→
match @priorities main 123 3→0→none¶→
# The context answers before what it includes, and each entry is printed with its own context.
match @cycle a 77→0→none¶→
match @chain main 123→0→main,_1XX,1 NoOp¶→
match @chain main 123 2→0→late,123,2 Hangup¶→
match @chain late 123→0→late,123,1 Hangup¶→
match @labels main s 2→0→main,s,2 Hangup¶→
# How a priority is written.
match @specific main 123 001→0→main,123,1 NoOp¶→
match @specific main 123 2147483647→0→none¶→
# Words that begin with a dash.
match -- @dashed -in- -1→0→-in-,1,1 NoOp¶→
match @dashed -- -in- 1- 1→0→-in-,1,1 NoOp¶→
# Files that are faulty, or that cannot be read.
match @faulty main s→1→→fault 4 NoEquals line 2¶
match @missing main s→1→→fault 7 ReadFailed¶
match @folder main s→1→→fault 7 ReadFailed¶
match @long main s→1→→fault 8 TooLong¶
match @empty main s→0→none¶→pbx: @empty has no context: is it a dialplan?¶
# Nor if no context has an entry or an include, as in a file of queues. An include alone is enough.
match @help main s→0→none¶→pbx: @help has no entry: is it a dialplan?¶
match @help help s→0→none¶→pbx: @help has no entry: is it a dialplan?¶
match --all @queues main s→0→none¶→pbx: @queues has no entry: is it a dialplan?¶
match @cycle c 77→0→none¶→pbx: @cycle has no context `c`¶
match --all @specific mian 123→0→none¶→pbx: @specific has no context `mian`¶
# With the files that it includes: nothing is looked up if a line has a fault, or something that this program cannot follow.
match --asterisk @pieces main 100 2→0→main,100,2 Hangup¶→
match --all --asterisk @pieces main s→0→main,s,1 Goto¶main,s,1 Goto: answers¶→
match --asterisk @pieces out 100→0→none¶→pbx: @pieces has no context `out`¶
match --asterisk @faulty main s→1→→@faulty:2: fault 4 NoEquals¶
match --asterisk @switched main s→1→→@switched:2: note Switch¶
match --asterisk --assume Switch @switched main s→0→none¶→pbx: @switched has no entry: is it a dialplan?¶
match --asterisk --assume Switch @hunting main s→1→→@hunting:4: note CallerId¶
match @hunting main s --assume CallerId,SWITCH --asterisk→0→main,s,1 NoOp¶→
match --asterisk @slash main s→1→→@slash:2: note CallerId¶
match --asterisk @through main s→1→→@through:2: note AutoFallThrough¶
match --asterisk @filled main s→1→→@filled:2: note Exec¶
match --asterisk @missing main s→1→→fault 7 ReadFailed¶
# All extensions that match.
match --all @specific main 123→0→main,123,1 NoOp¶main,123,1 NoOp: answers¶main,_1XX,1 NoOp: less specific¶main,_X.,1 NoOp: less specific¶→
match @priorities main 123 2 --all→0→main,_X.,2 NoOp¶main,123,2: no such priority¶main,_X.,2 NoOp: answers¶→
match --all @chain main 123→0→main,_1XX,1 NoOp¶main,_1XX,1 NoOp: answers¶late,123,1 Hangup: later context¶→
match --all @specific main 1→0→none¶→
match --all @faulty main s→1→→fault 4 NoEquals line 2¶
match --all @missing main s→1→→fault 7 ReadFailed¶
";

/// `audit`.
const AUDITS: &str = "\
audit @cycle→1→Cycle a¶Cycle b¶ok 2 findings¶→
audit @first→0→ok 0 findings¶→
audit @empty→0→ok 0 findings¶→pbx: @empty has no context: is it a dialplan?¶
audit @help→0→ok 0 findings¶→pbx: @help has no entry: is it a dialplan?¶
audit @faulty→1→→fault 4 NoEquals line 2¶
audit @missing→1→→fault 7 ReadFailed¶
audit @long→1→→fault 8 TooLong¶
# It reads no input.
audit @empty←[main]¶abc¶→0→ok 0 findings¶→pbx: @empty has no context: is it a dialplan?¶
# Only some kinds, and all except some.
audit --only cycle @cycle→1→Cycle a¶Cycle b¶ok 2 findings¶→
audit @cycle --only=Gap,Hidden→0→ok 0 findings¶→
audit --ignore CYCLE,Gap @cycle→0→ok 0 findings¶→
audit --ignore Unset --explain @cycle→1→Cycle a¶Cycle b¶ok 2 findings¶→
# Over the wide table.
audit @asking→1→NoApplication main,s,2 While¶ok 1 findings¶→
audit @jumps→1→NoApplication desk,s,1 Macro¶ok 1 findings¶→
audit --asterisk @jumps→0→ok 0 findings¶→
audit --asterisk @circling→1→NoApplication main,100,2 While¶FallsThrough main,100,2 main,_X.,3¶Loop main,s,1¶NoFunction main,_X.,3 CUTT¶ok 4 findings¶→
audit --asterisk --only loop,FallsThrough @circling→1→FallsThrough main,100,2 main,_X.,3¶Loop main,s,1¶ok 2 findings¶→
audit @circling --ignore loop,noapplication,nofunction,fallsthrough --asterisk→0→ok 0 findings¶→
# The hints, and faults, are the same as without them.
audit --asterisk @empty→0→ok 0 findings¶→pbx: @empty has no context: is it a dialplan?¶
audit --only Gap @help→0→ok 0 findings¶→pbx: @help has no entry: is it a dialplan?¶
audit --asterisk @faulty→1→→@faulty:2: fault 4 NoEquals¶
audit --asterisk @pieces→0→ok 0 findings¶→
audit --asterisk @parted→1→→@inner:2: fault 23 BadApplication¶@parted:4: fault 20 BadPriority¶@parted:5: fault 7 ReadFailed nowhere.conf¶
audit --asterisk @missing→1→→fault 7 ReadFailed¶
audit --only Gap --explain @faulty→1→→fault 4 NoEquals line 2¶  @faulty:2¶  abc¶  a line of a section with no `=`¶
audit --ignore Gap @missing→1→→fault 7 ReadFailed¶
audit --asterisk @long→1→→fault 8 TooLong¶
";

/// `explain`.
const EXPLAINS: &str = "\
explain 1→0→1 BlockComment¶a comment begins with `;--` and no third dash (`;---` is a plain comment)¶example: `a = 1 ;-- x`¶→
explain 020→0→20 BadPriority¶a priority that is neither `n` nor a number from 1 on¶example: `exten => s,0,NoOp()`¶→
explain 24→0→24 LeftOut¶what this program leaves out: one of the kinds that `explain 24` lists¶example: `switch => Loopback/x`¶¶the keys `switch`, `lswitch`, `eswitch`¶example: `lswitch => Loopback/x`¶¶the key `ignorepat`¶example: `ignorepat => 9`¶¶the priority `hint`¶example: `exten => 100,hint,Line/1`¶¶the priorities `next`, `s` and `same`, and those with a `+`¶example: `exten => s,n+1,NoOp()`¶¶a `/` in a name: names for one caller¶example: `exten => s/5551234,1,NoOp()`¶¶a `${` in a name, or in its one spelling: variables¶example: `exten => ${X},1,NoOp()`, `exten => _[{$],1,NoOp()`¶¶an include with a comma: times¶example: `include => late,9:00-17:00,*,*,*`¶¶an application with a comma in place of parentheses¶example: `exten => s,1,Wait,5`¶→
explain 71→0→71 BadBreak¶a break of `debug` that has not three parts, or of which the priority is no number from 1 to 2,147,483,647¶example: `--break main,s`, `--break main,s,0`, `--break main,s,+1`¶→
# The refusals of events are known too.
explain 40→0→40 NoChannel¶no channel has the number¶example: `step 1` as the first line¶→
explain 53→0→53 NotDialling¶a `result` of a channel that waits for no call to devices¶example: `result 1 BUSY` just after the `start` of channel 1¶→
# A name is used like its number.
explain NoEquals→0→4 NoEquals¶a line of a section with no `=`¶example: `abc`¶→
explain NoTimer→0→43 NoTimer¶a `timeout` of a channel that waits in a queue, or for a call to devices, for as long as it takes¶example: `timeout 1` while channel 1 is in `Queue(support)`¶→
explain --explain DoubleQueue→0→33 DoubleQueue¶a second section of one queue¶example: `[sales]` twice¶→
# It reads no input.
explain 33←[main]¶abc¶→0→33 DoubleQueue¶a second section of one queue¶example: `[sales]` twice¶→
";

/// `--explain`: below a fault, and below a note of `check`, come its place, the line and a sentence.
const EXPLAINED: &str = "\
# In a dialplan.
check --explain @faulty→1→→fault 4 NoEquals line 2¶  @faulty:2¶  abc¶  a line of a section with no `=`¶
list @faulty --explain→1→→fault 4 NoEquals line 2¶  @faulty:2¶  abc¶  a line of a section with no `=`¶
match @faulty main s --explain→1→→fault 4 NoEquals line 2¶  @faulty:2¶  abc¶  a line of a section with no `=`¶
match --all --explain @faulty main s→1→→fault 4 NoEquals line 2¶  @faulty:2¶  abc¶  a line of a section with no `=`¶
audit --explain @faulty→1→→fault 4 NoEquals line 2¶  @faulty:2¶  abc¶  a line of a section with no `=`¶
run --explain @faulty @faulty.script→1→→fault 4 NoEquals line 2¶  @faulty:2¶  abc¶  a line of a section with no `=`¶
run --threads 2 --explain @faulty @faulty.script→1→→fault 4 NoEquals line 2¶  @faulty:2¶  abc¶  a line of a section with no `=`¶
debug --break main,s,1 --explain @faulty @faulty.script→1→→fault 4 NoEquals line 2¶  @faulty:2¶  abc¶  a line of a section with no `=`¶
check --explain @priority→1→→fault 20 BadPriority line 2¶  @priority:2¶  exten => s,0,NoOp()¶  a priority that is neither `n` nor a number from 1 on¶
check --explain @name→1→→fault 11 EmptySet line 3¶  @name:3¶  exten => _[],1,NoOp()¶  a set with no member¶
# For what is left out, its kind.
check --explain @switched→1→→fault 24 LeftOut line 2¶  @switched:2¶  lswitch => Loopback/x¶  what this program leaves out: the keys `switch`, `lswitch`, `eswitch`¶
check --explain @ignoring→1→→fault 24 LeftOut line 2¶  @ignoring:2¶  ignorepat => 9¶  what this program leaves out: the key `ignorepat`¶
check --explain @hinted→1→→fault 24 LeftOut line 2¶  @hinted:2¶  exten => 100,hint,Line/1¶  what this program leaves out: the priority `hint`¶
check --explain @plus→1→→fault 24 LeftOut line 2¶  @plus:2¶  exten => s,n+1,NoOp()¶  what this program leaves out: the priorities `next`, `s` and `same`, and those with a `+`¶
check --explain @slash→1→→fault 24 LeftOut line 2¶  @slash:2¶  exten => s/5551234,1,NoOp()¶  what this program leaves out: a `/` in a name: names for one caller¶
check --explain @braced→1→→fault 24 LeftOut line 2¶  @braced:2¶  exten => ${X},1,NoOp()¶  what this program leaves out: a `${` in a name, or in its one spelling: variables¶
check --explain @timed→1→→fault 24 LeftOut line 2¶  @timed:2¶  include => late,9:00-17:00,*,*,*¶  what this program leaves out: an include with a comma: times¶
check --explain @commas→1→→fault 24 LeftOut line 2¶  @commas:2¶  exten => s,1,Wait,5¶  what this program leaves out: an application with a comma in place of parentheses¶
# In the queues, even if the line is not one of any text.
run --explain --queues @strategy @first @first.script→1→→fault 30 BadStrategy line 2¶  @strategy:2¶  strategy = best¶  a strategy that is none¶
run --explain --queues @faulty @first @first.script→1→→fault 4 NoEquals line 2¶  @faulty:2¶  abc¶  a line of a section with no `=`¶
run --explain --threads 2 --queues @odd @first @faulty.script→1→→fault 4 NoEquals line 2¶  @odd:2¶  a\\x09b\\x7f\\xc3\\xa9 c\\x0d¶  a line of a section with no `=`¶
debug --explain --break main,s,1 --queues @faulty @first @faulty.script→1→→fault 4 NoEquals line 2¶  @faulty:2¶  abc¶  a line of a section with no `=`¶
check --explain --queues @strategy→1→→fault 30 BadStrategy line 2¶  @strategy:2¶  strategy = best¶  a strategy that is none¶
check --explain --queues @strategy @first→1→→fault 30 BadStrategy line 2¶  @strategy:2¶  strategy = best¶  a strategy that is none¶
check --explain --queues @faulty @first→1→→fault 4 NoEquals line 2¶  @faulty:2¶  abc¶  a line of a section with no `=`¶
check --explain --queues @odd @faulty→1→→fault 4 NoEquals line 2¶  @faulty:2¶  abc¶  a line of a section with no `=`¶
# In a script. The second dialplan has no fault of its own.
run --explain @first @faulty.script→1→→fault 70 BadScript line 2¶  @faulty.script:2¶  jump 1¶  a line of the script that begins with another word than those of scripts, that has too few or too many words, or of which CH or COUNT is no number or too great, or STATUS none of its five; or `reload` where there is no second dialplan¶
run --explain --queues @help --reload @faulty @first @faulty.script→1→→fault 70 BadScript line 2¶  @faulty.script:2¶  jump 1¶  a line of the script that begins with another word than those of scripts, that has too few or too many words, or of which CH or COUNT is no number or too great, or STATUS none of its five; or `reload` where there is no second dialplan¶
debug --explain --break main,s,1 @first @faulty.script→1→→fault 70 BadScript line 2¶  @faulty.script:2¶  jump 1¶  a line of the script that begins with another word than those of scripts, that has too few or too many words, or of which CH or COUNT is no number or too great, or STATUS none of its five; or `reload` where there is no second dialplan¶
# Bytes that are not printed, a line of more than 200 bytes, and a mark at the front of the first.
check --explain @odd→1→→fault 4 NoEquals line 2¶  @odd:2¶  a\\x09b\\x7f\\xc3\\xa9 c\\x0d¶  a line of a section with no `=`¶
check --explain @wide→1→→fault 4 NoEquals line 2¶  @wide:2¶  xxxxxxxxxxxxxxxxxxxxxxxxxxxxxxxxxxxxxxxxxxxxxxxxxxxxxxxxxxxxxxxxxxxxxxxxxxxxxxxxxxxxxxxxxxxxxxxxxxxxxxxxxxxxxxxxxxxxxxxxxxxxxxxxxxxxxxxxxxxxxxxxxxxxxxxxxxxxxxxxxxxxxxxxxxxxxxxxxxxxxxxxxxxxxxxxxxxxxxxx¶  a line of a section with no `=`¶
check --explain @marked→1→→fault 3 BadHeader line 1¶  @marked:1¶  \\xef\\xbb\\xbf[main¶  a header with no `]`, with an empty name, or with text after the `]`¶
# For a file that could not be read, its path: that of the first of all.
check --explain @missing→1→→fault 7 ReadFailed¶  @missing¶  a file could not be opened or read¶
check --explain @long→1→→fault 8 TooLong¶  @long¶  a file has more than 16,777,216 bytes¶
check --explain --queues @long→1→→fault 8 TooLong¶  @long¶  a file has more than 16,777,216 bytes¶
check --explain --queues @missing @long→1→→fault 8 TooLong¶  @long¶  a file has more than 16,777,216 bytes¶
check --explain --queues @missing @faulty→1→→fault 7 ReadFailed¶  @missing¶  a file could not be opened or read¶
list --explain @folder→1→→fault 7 ReadFailed¶  @folder¶  a file could not be opened or read¶
match --explain @missing main s→1→→fault 7 ReadFailed¶  @missing¶  a file could not be opened or read¶
match --all --explain @missing main s→1→→fault 7 ReadFailed¶  @missing¶  a file could not be opened or read¶
audit --explain @missing→1→→fault 7 ReadFailed¶  @missing¶  a file could not be opened or read¶
run --explain --queues @missing @first @first.script→1→→fault 7 ReadFailed¶  @missing¶  a file could not be opened or read¶
run --explain @missing @folder→1→→fault 7 ReadFailed¶  @missing¶  a file could not be opened or read¶
run --explain --queues @missing --reload @folder @first @folder→1→→fault 7 ReadFailed¶  @missing¶  a file could not be opened or read¶
run --explain --queues @help --reload @long @first @missing→1→→fault 8 TooLong¶  @long¶  a file has more than 16,777,216 bytes¶
run --explain --queues @help --reload @missing @faulty @folder→1→→fault 7 ReadFailed¶  @missing¶  a file could not be opened or read¶
run --explain --queues @help --reload @changed @faulty @folder→1→→fault 7 ReadFailed¶  @folder¶  a file could not be opened or read¶
run --explain --threads 2 @first @missing→1→→fault 7 ReadFailed¶  @missing¶  a file could not be opened or read¶
debug --explain --break main,s --reload @missing @first @first.script→1→→fault 7 ReadFailed¶  @missing¶  a file could not be opened or read¶
# Faults that are not in a file.
debug --explain --break main,s @faulty @faulty.script→1→→fault 71 BadBreak¶  a break of `debug` that has not three parts, or of which the priority is no number from 1 to 2,147,483,647¶
# Notes.
check --explain @usual→0→note 13 UnknownContext¶  @usual:13¶  include => out¶  there is no context of this name; the include is kept, and finds nothing¶ok 1 contexts 4 entries¶→
check --explain --queues @help @usual→0→note 13 UnknownContext¶  @usual:13¶  include => out¶  there is no context of this name; the include is kept, and finds nothing¶ok 1 contexts 4 entries¶ok 1 queues¶→
check @notes --explain→0→note 2 UnknownKey¶  @notes:2¶  =x¶  a context has no such key, or a key in `[globals]` is empty, whatever its value is; this line is dropped¶note 5 DoublePriority¶  @notes:5¶  exten => s,1,Hangup()¶  an earlier line of the context that is kept has the extension and the priority; this line is dropped¶note 7 DoubleLabel¶  @notes:7¶  exten => s,3(x),NoOp()¶  an earlier line of the context and the extension that is kept has the label; this line is dropped¶note 8 UnknownContext¶  @notes:8¶  include => nowhere¶  there is no context of this name; the include is kept, and finds nothing¶note 9 UnknownKey¶  @notes:9¶  colour = red¶  a context has no such key, or a key in `[globals]` is empty, whatever its value is; this line is dropped¶ok 1 contexts 2 entries¶→
# Without a fault or a note, and for a refused event, there is nothing more.
check --explain @sections→0→ok 3 contexts 2 entries¶→
list --explain @cycle→0→[a]¶include => b¶[b]¶include => a¶→
audit --explain @cycle→1→Cycle a¶Cycle b¶ok 2 findings¶→
run --explain @notes @empty→0→→
run --explain @first @refused.script→1→refused 40 NoChannel¶started 1¶ran 1 main,100,1 NoOp -> ready main,100,2¶→
# The nearest names of contexts: at most three, the nearest first, and of those that are equally near the first of the file. A name of
# more than 80 bytes is not compared.
match --explain @near main s→0→none¶→pbx: @near has no context `main`¶  nearest: min¶  nearest: mainn¶  nearest: mien¶
match --explain @near X s→0→none¶→pbx: @near has no context `X`¶  nearest: ax¶  nearest: min¶  nearest: mien¶
match --all --explain @sections d 1→0→none¶→pbx: @sections has no context `d`¶  nearest: a¶  nearest: b¶  nearest: c¶
match --explain @specific '' 123→0→none¶→pbx: @specific has no context ``¶  nearest: main¶
match --explain @near mmmmmmmmmmmmmmmmmmmmmmmmmmmmmmmmmmmmmmmmmmmmmmmmmmmmmmmmmmmmmmmmmmmmmmmmmmmmmmmm s→0→none¶→pbx: @near has no context `mmmmmmmmmmmmmmmmmmmmmmmmmmmmmmmmmmmmmmmmmmmmmmmmmmmmmmmmmmmmmmmmmmmmmmmmmmmmmmmm`¶  nearest: min¶  nearest: mien¶  nearest: mainn¶
match --explain @near xxxxxxxxxxxxxxxxxxxxxxxxxxxxxxxxxxxxxxxxxxxxxxxxxxxxxxxxxxxxxxxxxxxxxxxxxxxxxxxxx s→0→none¶→pbx: @near has no context `xxxxxxxxxxxxxxxxxxxxxxxxxxxxxxxxxxxxxxxxxxxxxxxxxxxxxxxxxxxxxxxxxxxxxxxxxxxxxxxxx`¶
match --explain @empty main s→0→none¶→pbx: @empty has no context: is it a dialplan?¶
match --explain @specific main 1→0→none¶→
explain --explain 4→0→4 NoEquals¶a line of a section with no `=`¶example: `abc`¶→
";

/// `run`.
const RUNS: &str = "\
run @first @first.script→0→started 1¶ran 1 main,100,1 NoOp -> ready main,100,2¶ran 1 main,100,2 Goto -> ready main,200,1¶ran 1 main,200,1 Hangup -> ended¶→
run @labels @labels.script→0→started 1¶ran 1 main,s,1 Goto -> ready main,s,2¶ran 1 main,s,2 Hangup -> ended¶→
run @first @empty→0→→
run @empty @empty→0→→
# A run does not report notes.
run @notes @empty→0→→
# A refused event.
run @first @refused.script→1→refused 40 NoChannel¶started 1¶ran 1 main,100,1 NoOp -> ready main,100,2¶→
# A faulty script, which comes after a faulty dialplan.
run @first @faulty.script→1→→fault 70 BadScript line 2¶
run @faulty @faulty.script→1→→fault 4 NoEquals line 2¶
# Both files are read before their texts.
run @faulty @missing→1→→fault 7 ReadFailed¶
run @missing @faulty.script→1→→fault 7 ReadFailed¶
run @faulty @long→1→→fault 8 TooLong¶
run @long @missing→1→→fault 8 TooLong¶
run @first @folder→1→→fault 7 ReadFailed¶
# With queues.
run --queues @help @callers @callers.script→0→started 1¶ran 1 main,s,1 Queue -> queued help¶ok 1 -> ready main,s,2¶ran 1 main,s,2 Hangup -> ended¶→
# dial
run @dialling @dialling.script→1→started 1¶ran 1 main,s,1 Dial -> dialling¶ok 1 -> ready main,s,2¶DIALSTATUS=BUSY¶refused 53 NotDialling¶→
# reload
run --reload @changed @changing @changing.script→0→started 1¶ran 1 main,100,1 NoOp -> ready main,100,2¶ok¶X=12¶Y=5¶ran 1 main,_1XX,2 Hangup -> ended¶→
run --reload @unclosed @changing @changing.script→1→started 1¶ran 1 main,100,1 NoOp -> ready main,100,2¶refused 52 BadPlan¶X=1¶Y=5¶ran 1 main,100,2 NoOp -> ready main,100,3¶→
# With an empty second dialplan, and without one.
run @changing @changing.script --reload @empty→0→started 1¶ran 1 main,100,1 NoOp -> ready main,100,2¶ok¶X=1¶Y=5¶no entry 1 -> ended¶→
run @changing @changing.script→1→→fault 70 BadScript line 3¶
run --queues @help @changing @changing.script→1→→fault 70 BadScript line 3¶
# A second dialplan that no event gives is not looked into.
run --reload @faulty @labels @labels.script→0→started 1¶ran 1 main,s,1 Goto -> ready main,s,2¶ran 1 main,s,2 Hangup -> ended¶→
# The lines that separate the parts of a joined text are comments in files.
run @joined @joined.script→0→started 1¶ran 1 main,s,1 NoOp -> ready main,s,2¶ran 1 main,s,2 NoOp -> ready main,s,3¶→
# The dialplan is read first, then the queues, then the second dialplan, then the script. The faults of their texts come in the same order,
# and the second dialplan has none.
run --reload @missing @first @first.script→1→→fault 7 ReadFailed¶
run --reload @folder @first @first.script→1→→fault 7 ReadFailed¶
run --reload @long @first @first.script→1→→fault 8 TooLong¶
run --reload @missing @long @first.script→1→→fault 8 TooLong¶
run --reload @long @first @missing→1→→fault 8 TooLong¶
run --reload @missing @first @long→1→→fault 7 ReadFailed¶
run --queues @missing --reload @long @first @first.script→1→→fault 7 ReadFailed¶
run --reload @missing --queues @long @first @first.script→1→→fault 8 TooLong¶
run --reload @missing @faulty @faulty.script→1→→fault 7 ReadFailed¶
run --reload @unclosed @faulty @faulty.script→1→→fault 4 NoEquals line 2¶
run --reload @unclosed @first @faulty.script→1→→fault 70 BadScript line 2¶
run --queues @missing @long @first.script→1→→fault 8 TooLong¶
run --queues @missing @first @long→1→→fault 7 ReadFailed¶
run --queues @long @faulty @missing→1→→fault 8 TooLong¶
run --queues @missing @faulty @faulty.script→1→→fault 7 ReadFailed¶
run --queues @help @faulty @missing→1→→fault 7 ReadFailed¶
run --queues @faulty @first @faulty.script→1→→fault 4 NoEquals line 2¶
run --queues @help @first @faulty.script→1→→fault 70 BadScript line 2¶
";

/// `run --asterisk`.
const ASTERISK_RUNS: &str = "\
# A run stops before anything unknown, and a fact or a pass lets it go on. Without the option a value that nothing set is empty, an
# unknown application ends the call, and no line states facts.
run --asterisk @asking @asking.script→4→started 1¶unknown 1 DB(x) -> ready main,s,1¶→
run --asterisk @asking @telling.script→0→started 1¶ok 1 -> ready main,s,1¶ran 1 main,s,1 Set -> ready main,s,2¶A=5¶ok 1 -> ready main,s,3¶ran 1 main,s,3 Hangup -> ended¶→
run @asking @asking.script→0→started 1¶ran 1 main,s,1 Set -> ready main,s,2¶ran 1 main,s,2 While -> ended¶→pbx: `DB` is not modelled; --asterisk models it, or stops there¶pbx: `While` is not modelled; --asterisk models it, or stops there¶
run @asking @telling.script→1→→fault 70 BadScript line 2¶
# If everything is known, a run goes as without the option.
run @first @first.script --asterisk→0→started 1¶ran 1 main,100,1 NoOp -> ready main,100,2¶ran 1 main,100,2 Goto -> ready main,200,1¶ran 1 main,200,1 Hangup -> ended¶→
run --asterisk @first @refused.script→1→refused 40 NoChannel¶started 1¶ran 1 main,100,1 NoOp -> ready main,100,2¶→
run --asterisk --queues @help @callers @callers.script→0→started 1¶ran 1 main,s,1 Queue -> queued help¶ok 1 -> ready main,s,2¶ran 1 main,s,2 Hangup -> ended¶→
run --reload @changed --asterisk @changing @changing.script→0→started 1¶ran 1 main,100,1 NoOp -> ready main,100,2¶ok¶X=12¶Y=5¶ran 1 main,_1XX,2 Hangup -> ended¶→
# A macro ends where its priorities end.
run --asterisk @macros @macros.script→0→started 1¶ran 1 main,s,1 Macro -> ready macro-x,s,1¶ran 1 macro-x,s,1 NoOp -> ready macro-x,s,2¶ran 1 macro-x,s,2 MacroExit -> ready main,s,2¶ran 1 main,s,2 Hangup -> ended¶→
run --asterisk --verbose @macros @macros.script→0→started 1¶  @macros:2 Macro(x)¶ran 1 main,s,1 Macro -> ready macro-x,s,1¶  @macros:5 NoOp(in)¶ran 1 macro-x,s,1 NoOp -> ready macro-x,s,2¶  @macros:5 MacroExit()¶ran 1 macro-x,s,2 MacroExit -> ready main,s,2¶  @macros:3 Hangup()¶ran 1 main,s,2 Hangup -> ended¶→
# A verbose run writes more above the same lines, and ends in the same way.
run --asterisk --verbose @asking @asking.script→4→started 1¶unknown 1 DB(x) -> ready main,s,1¶→
run --asterisk @asking @telling.script --verbose→0→started 1¶ok 1 -> ready main,s,1¶  @asking:2 Set(A=5)¶ran 1 main,s,1 Set -> ready main,s,2¶A=5¶ok 1 -> ready main,s,3¶  @asking:4 Hangup()¶ran 1 main,s,3 Hangup -> ended¶→
run --verbose --asterisk @first @refused.script→1→  40 NoChannel¶  no channel has the number¶  example: `step 1` as the first line¶refused 40 NoChannel¶started 1¶  @first:2 NoOp(hello)¶ran 1 main,100,1 NoOp -> ready main,100,2¶→
run --asterisk --verbose --queues @help @callers @callers.script→0→started 1¶  @callers:2 Queue(help,,,,30)¶ran 1 main,s,1 Queue -> queued help¶ok 1 -> ready main,s,2¶  @callers:3 Hangup()¶ran 1 main,s,2 Hangup -> ended¶→
run --asterisk --verbose --reload @changed @changing @changing.script→0→started 1¶  @changing:5 NoOp(a)¶ran 1 main,100,1 NoOp -> ready main,100,2¶ok¶X=12¶Y=5¶  @changed:4 Hangup()¶ran 1 main,_1XX,2 Hangup -> ended¶→
run --asterisk --verbose @faulty @untold.script→1→→@faulty:2: fault 4 NoEquals¶
run --asterisk --verbose @first @missing→1→→fault 7 ReadFailed¶
# Each dialplan is read with the files that it includes, and the lines of its entries are those of these files. If it has a fault, or something
# that this program cannot follow, nothing runs.
run --asterisk @pieces @pieces.script→0→started 1¶ran 1 main,s,1 Goto -> ready main,100,1¶ran 1 main,100,1 NoOp -> ready main,100,2¶ran 1 main,100,2 Hangup -> ended¶→
run --asterisk --verbose @pieces @pieces.script→0→started 1¶  @pieces:3 Goto(100,1)¶ran 1 main,s,1 Goto -> ready main,100,1¶  @inner.piece:3 NoOp(hello)¶ran 1 main,100,1 NoOp -> ready main,100,2¶  @inner.piece:4 Hangup()¶ran 1 main,100,2 Hangup -> ended¶→
run --asterisk --verbose --reload @pieces @changing @changing.script→0→started 1¶  @changing:5 NoOp(a)¶ran 1 main,100,1 NoOp -> ready main,100,2¶ok¶X=1¶Y=5¶  @inner.piece:4 Hangup()¶ran 1 main,100,2 Hangup -> ended¶→
run --asterisk @parted @pieces.script→1→→@inner:2: fault 23 BadApplication¶@parted:4: fault 20 BadPriority¶@parted:5: fault 7 ReadFailed nowhere.conf¶
run --asterisk @switched @pieces.script→1→→@switched:2: note Switch¶
# A script may assume that lines that get these notes have no effect, wherever it says so.
run --asterisk @hunting @hunting.script→0→started 1¶ran 1 main,s,1 NoOp -> ready main,s,2¶ok¶ok¶→
run --asterisk @hunting @pieces.script→1→→@hunting:3: note Switch¶@hunting:4: note CallerId¶
run --asterisk @through @hunting.script→1→→@through:2: note AutoFallThrough¶
run --asterisk --reload @slash @pieces @pieces.script→1→→@slash:2: note CallerId¶
# So are the queues, after the dialplan. If they have a fault, or a strategy that this program does not follow, nothing runs.
run --asterisk --queues @tiered @callers @callers.script→0→started 1¶ran 1 main,s,1 Queue -> queued help¶ok 1 -> ready main,s,2¶ran 1 main,s,2 Hangup -> ended¶→
run --asterisk --queues @mixed @callers @callers.script→1→→@mixed:3: fault 30 BadStrategy¶
run --asterisk --queues @mixed @switched @callers.script→1→→@switched:2: note Switch¶
run --asterisk --queues @random @callers @callers.script→1→→@random:2: note Random¶
run --asterisk --queues @mixed --reload @slash @pieces @pieces.script→1→→@mixed:3: fault 30 BadStrategy¶
# Faults of its files, and of its script.
run --asterisk @first @missing→1→→fault 7 ReadFailed¶
run --asterisk @missing @untold.script→1→→fault 7 ReadFailed¶
run --asterisk --queues @faulty @first @untold.script→1→→@faulty:2: fault 4 NoEquals¶
run --asterisk --queues @missing @first @untold.script→1→→fault 7 ReadFailed¶
run --asterisk --explain --queues @missing @first @untold.script→1→→fault 7 ReadFailed¶  @missing¶  a file could not be opened or read¶
run --asterisk --reload @long @faulty @untold.script→1→→@faulty:2: fault 4 NoEquals¶
run --asterisk --reload @long @first @untold.script→1→→fault 8 TooLong¶
run --asterisk --reload @faulty @first @first.script→1→→@faulty:2: fault 4 NoEquals¶
run --asterisk @first @untold.script→1→→fault 70 BadScript line 2¶
run --asterisk --explain @faulty @untold.script→1→→@faulty:2: fault 4 NoEquals¶
run --asterisk --explain --reload @missing @first @untold.script→1→→fault 7 ReadFailed¶  @missing¶  a file could not be opened or read¶
";

/// `diff`.
const DIFFS: &str = "\
diff @first @first→0→→
diff @changing @changed→1→- main,100,1 NoOp(a)¶- main,100,2 NoOp(b)¶+ main,_1XX,2 Hangup()¶→
diff @priorities @calls→1→- main,123,1 NoOp(one)¶- main,_X.,1 NoOp(other)¶- main,_X.,2 NoOp(two)¶+ calls,123,1 NoOp(one)¶+ calls,_1XX,1 NoOp(three)¶+ calls,_X.,1 NoOp(any)¶+ calls,_X.,2 NoOp(two)¶→
diff @cycle @chain→1→+ main,_1XX,1 NoOp()¶+ main,123,1 Hangup()¶+ main,123,2 Hangup()¶+ late,123,1 Hangup()¶+ late,123,2 Hangup()¶+ late,_1XX,1 NoOp()¶→
diff @empty @cycle→0→→
# What a call from a context reaches only before or only after a change.
diff --from outside @doors @locked→1→- reaches hall¶+ reaches cellar¶→
diff @locked @doors --from outside→1→- reaches cellar¶+ reaches hall¶→
diff --from hall @doors @locked→1→- reaches safe¶→
diff --from hall @doors @doors→0→→
diff --asterisk --from outside @doors @locked→1→- reaches hall¶+ reaches cellar¶→
diff --from safe @doors @locked→1→- reaches safe¶→pbx: @locked has no context `safe`¶
diff --from kitchen @doors @locked→1→→pbx: @doors has no context `kitchen`¶pbx: @locked has no context `kitchen`¶
diff --from outside @doors @empty→1→- reaches outside¶- reaches hall¶→pbx: @empty has no context `outside`¶
# Each dialplan is read with the files that it includes.
diff --asterisk @pieces @first→1→- main,100,2 Hangup()¶+ main,100,2 Goto(200,1)¶- main,s,1 Goto(100,1)¶+ main,200,1 Hangup()¶→
diff @pieces @pieces --asterisk→0→→
# The fault of the first dialplan comes first.
diff @faulty @missing→1→→fault 4 NoEquals line 2¶
diff --from main @faulty @missing→1→→fault 4 NoEquals line 2¶
diff @first @missing --from main→1→→fault 7 ReadFailed¶
diff --asterisk --from main @first @faulty→1→→@faulty:2: fault 4 NoEquals¶
diff @missing @faulty→1→→fault 7 ReadFailed¶
diff @first @faulty→1→→fault 4 NoEquals line 2¶
diff --explain @first @missing→1→→fault 7 ReadFailed¶  @missing¶  a file could not be opened or read¶
diff @long @faulty→1→→fault 8 TooLong¶
diff --asterisk @parted @missing→1→→@inner:2: fault 23 BadApplication¶@parted:4: fault 20 BadPriority¶@parted:5: fault 7 ReadFailed nowhere.conf¶
diff --asterisk @first @faulty→1→→@faulty:2: fault 4 NoEquals¶
diff --asterisk @missing @faulty→1→→fault 7 ReadFailed¶
diff --asterisk --explain @first @missing→1→→fault 7 ReadFailed¶  @missing¶  a file could not be opened or read¶
";

/// `graph`.
const GRAPHS: &str = r##"
graph @empty→0→digraph dialplan {¶rankdir=LR;¶ranksep=0.8;¶nodesep=0.25;¶node [shape=plain,fontname="Helvetica",fontsize=9];¶edge [fontname="Helvetica",fontsize=8,arrowsize=0.6];¶}¶→
graph @cycle→0→digraph dialplan {¶rankdir=LR;¶ranksep=0.8;¶nodesep=0.25;¶node [shape=plain,fontname="Helvetica",fontsize=9];¶edge [fontname="Helvetica",fontsize=8,arrowsize=0.6];¶c0 [label=<<table border="0" cellborder="1" cellspacing="0" cellpadding="3">¶<tr><td port="top" colspan="2" bgcolor="#dce6f2"><b>a </b></td></tr>¶</table>>];¶c1 [label=<<table border="0" cellborder="1" cellspacing="0" cellpadding="3">¶<tr><td port="top" colspan="2" bgcolor="#dce6f2"><b>b </b></td></tr>¶</table>>];¶c0:top:e -> c1:top:w [style=dashed,label="1"];¶c1:top:e -> c0:top:w [style=dashed,label="1"];¶}¶→
graph @ways→0→digraph dialplan {¶rankdir=LR;¶ranksep=0.8;¶nodesep=0.25;¶node [shape=plain,fontname="Helvetica",fontsize=9];¶edge [fontname="Helvetica",fontsize=8,arrowsize=0.6];¶c0 [label=<<table border="0" cellborder="1" cellspacing="0" cellpadding="3">¶<tr><td port="top" colspan="2" bgcolor="#dce6f2"><b>main </b></td></tr>¶<tr><td port="xs" align="left" bgcolor="#ffffff">s </td><td port="ys" align="left" bgcolor="#ffffff">Queue(help) </td></tr>¶</table>>];¶c1 [label=<<table border="0" cellborder="1" cellspacing="0" cellpadding="3">¶<tr><td port="top" colspan="2" bgcolor="#dce6f2"><b>out </b></td></tr>¶<tr><td port="x1" align="left" bgcolor="#ffffff">1 </td><td port="y1" align="left" bgcolor="#ffffff">Hangup() </td></tr>¶</table>>];¶}¶→
graph --queues @wayout @ways→0→digraph dialplan {¶rankdir=LR;¶ranksep=0.8;¶nodesep=0.25;¶node [shape=plain,fontname="Helvetica",fontsize=9];¶edge [fontname="Helvetica",fontsize=8,arrowsize=0.6];¶c0 [label=<<table border="0" cellborder="1" cellspacing="0" cellpadding="3">¶<tr><td port="top" colspan="2" bgcolor="#dce6f2"><b>main </b></td></tr>¶<tr><td port="xs" align="left" bgcolor="#ffffff">s </td><td port="ys" align="left" bgcolor="#ffffff">Queue(help) </td></tr>¶</table>>];¶c1 [label=<<table border="0" cellborder="1" cellspacing="0" cellpadding="3">¶<tr><td port="top" colspan="2" bgcolor="#dce6f2"><b>out </b></td></tr>¶<tr><td port="x1" align="left" bgcolor="#ffffff">1 </td><td port="y1" align="left" bgcolor="#ffffff">Hangup() </td></tr>¶</table>>];¶c0:ys:e -> c1:top:w [style=dotted,color=black];¶}¶→
graph --queues @help @ways→0→digraph dialplan {¶rankdir=LR;¶ranksep=0.8;¶nodesep=0.25;¶node [shape=plain,fontname="Helvetica",fontsize=9];¶edge [fontname="Helvetica",fontsize=8,arrowsize=0.6];¶c0 [label=<<table border="0" cellborder="1" cellspacing="0" cellpadding="3">¶<tr><td port="top" colspan="2" bgcolor="#dce6f2"><b>main </b></td></tr>¶<tr><td port="xs" align="left" bgcolor="#ffffff">s </td><td port="ys" align="left" bgcolor="#ffffff">Queue(help) </td></tr>¶</table>>];¶c1 [label=<<table border="0" cellborder="1" cellspacing="0" cellpadding="3">¶<tr><td port="top" colspan="2" bgcolor="#dce6f2"><b>out </b></td></tr>¶<tr><td port="x1" align="left" bgcolor="#ffffff">1 </td><td port="y1" align="left" bgcolor="#ffffff">Hangup() </td></tr>¶</table>>];¶}¶→
# A dialplan and queues that are read with the files that they include.
graph --asterisk @pieces→0→digraph dialplan {¶rankdir=LR;¶ranksep=0.8;¶nodesep=0.25;¶node [shape=plain,fontname="Helvetica",fontsize=9];¶edge [fontname="Helvetica",fontsize=8,arrowsize=0.6];¶c0 [label=<<table border="0" cellborder="1" cellspacing="0" cellpadding="3">¶<tr><td port="top" colspan="2" bgcolor="#dce6f2"><b>main </b></td></tr>¶<tr><td port="x100" align="left" bgcolor="#ffffff">100 </td><td port="y100" align="left" bgcolor="#ffffff">NoOp(hello) </td></tr>¶<tr><td port="xs" align="left" bgcolor="#ffffff">s </td><td port="ys" align="left" bgcolor="#ffffff">Goto(100,1) </td></tr>¶</table>>];¶c0:ys:e -> c0:y100:e [color=black];¶}¶→
graph --asterisk @ways --queues @wayout→0→digraph dialplan {¶rankdir=LR;¶ranksep=0.8;¶nodesep=0.25;¶node [shape=plain,fontname="Helvetica",fontsize=9];¶edge [fontname="Helvetica",fontsize=8,arrowsize=0.6];¶c0 [label=<<table border="0" cellborder="1" cellspacing="0" cellpadding="3">¶<tr><td port="top" colspan="2" bgcolor="#dce6f2"><b>main </b></td></tr>¶<tr><td port="xs" align="left" bgcolor="#ffffff">s </td><td port="ys" align="left" bgcolor="#ffffff">Queue(help) </td></tr>¶</table>>];¶c1 [label=<<table border="0" cellborder="1" cellspacing="0" cellpadding="3">¶<tr><td port="top" colspan="2" bgcolor="#dce6f2"><b>out </b></td></tr>¶<tr><td port="x1" align="left" bgcolor="#ffffff">1 </td><td port="y1" align="left" bgcolor="#ffffff">Hangup() </td></tr>¶</table>>];¶c0:ys:e -> c1:top:w [style=dotted,color=black];¶}¶→
# What a call from a context may reach: by way of a queue too. A context that is not there reaches nothing.
graph --from out --queues @wayout @ways→0→digraph dialplan {¶rankdir=LR;¶ranksep=0.8;¶nodesep=0.25;¶node [shape=plain,fontname="Helvetica",fontsize=9];¶edge [fontname="Helvetica",fontsize=8,arrowsize=0.6];¶c0 [label=<<table border="0" cellborder="1" cellspacing="0" cellpadding="3">¶<tr><td port="top" colspan="2" bgcolor="#c8c8c8"><b>main </b></td></tr>¶<tr><td port="xs" align="left" bgcolor="#e6e6e6">s </td><td port="ys" align="left" bgcolor="#e6e6e6">Queue(help) </td></tr>¶</table>>];¶c1 [label=<<table border="0" cellborder="1" cellspacing="0" cellpadding="3">¶<tr><td port="top" colspan="2" bgcolor="#a9d6a9"><b>out </b></td></tr>¶<tr><td port="x1" align="left" bgcolor="#e2f3e2">1 </td><td port="y1" align="left" bgcolor="#e2f3e2">Hangup() </td></tr>¶</table>>];¶c0:ys:e -> c1:top:w [style=dotted,color=black];¶}¶→
graph --queues @wayout --from main @ways→0→digraph dialplan {¶rankdir=LR;¶ranksep=0.8;¶nodesep=0.25;¶node [shape=plain,fontname="Helvetica",fontsize=9];¶edge [fontname="Helvetica",fontsize=8,arrowsize=0.6];¶c0 [label=<<table border="0" cellborder="1" cellspacing="0" cellpadding="3">¶<tr><td port="top" colspan="2" bgcolor="#a9d6a9"><b>main </b></td></tr>¶<tr><td port="xs" align="left" bgcolor="#e2f3e2">s </td><td port="ys" align="left" bgcolor="#e2f3e2">Queue(help) </td></tr>¶</table>>];¶c1 [label=<<table border="0" cellborder="1" cellspacing="0" cellpadding="3">¶<tr><td port="top" colspan="2" bgcolor="#a9d6a9"><b>out </b></td></tr>¶<tr><td port="x1" align="left" bgcolor="#e2f3e2">1 </td><td port="y1" align="left" bgcolor="#e2f3e2">Hangup() </td></tr>¶</table>>];¶c0:ys:e -> c1:top:w [style=dotted,color=black];¶}¶→
graph --asterisk --from main --queues @wayout @ways→0→digraph dialplan {¶rankdir=LR;¶ranksep=0.8;¶nodesep=0.25;¶node [shape=plain,fontname="Helvetica",fontsize=9];¶edge [fontname="Helvetica",fontsize=8,arrowsize=0.6];¶c0 [label=<<table border="0" cellborder="1" cellspacing="0" cellpadding="3">¶<tr><td port="top" colspan="2" bgcolor="#a9d6a9"><b>main </b></td></tr>¶<tr><td port="xs" align="left" bgcolor="#e2f3e2">s </td><td port="ys" align="left" bgcolor="#e2f3e2">Queue(help) </td></tr>¶</table>>];¶c1 [label=<<table border="0" cellborder="1" cellspacing="0" cellpadding="3">¶<tr><td port="top" colspan="2" bgcolor="#a9d6a9"><b>out </b></td></tr>¶<tr><td port="x1" align="left" bgcolor="#e2f3e2">1 </td><td port="y1" align="left" bgcolor="#e2f3e2">Hangup() </td></tr>¶</table>>];¶c0:ys:e -> c1:top:w [style=dotted,color=black];¶}¶→
graph --from lobby @ways→1→digraph dialplan {¶rankdir=LR;¶ranksep=0.8;¶nodesep=0.25;¶node [shape=plain,fontname="Helvetica",fontsize=9];¶edge [fontname="Helvetica",fontsize=8,arrowsize=0.6];¶c0 [label=<<table border="0" cellborder="1" cellspacing="0" cellpadding="3">¶<tr><td port="top" colspan="2" bgcolor="#c8c8c8"><b>main </b></td></tr>¶<tr><td port="xs" align="left" bgcolor="#e6e6e6">s </td><td port="ys" align="left" bgcolor="#e6e6e6">Queue(help) </td></tr>¶</table>>];¶c1 [label=<<table border="0" cellborder="1" cellspacing="0" cellpadding="3">¶<tr><td port="top" colspan="2" bgcolor="#c8c8c8"><b>out </b></td></tr>¶<tr><td port="x1" align="left" bgcolor="#e6e6e6">1 </td><td port="y1" align="left" bgcolor="#e6e6e6">Hangup() </td></tr>¶</table>>];¶}¶→pbx: @ways has no context `lobby`¶
graph --from=mains --explain @ways→1→digraph dialplan {¶rankdir=LR;¶ranksep=0.8;¶nodesep=0.25;¶node [shape=plain,fontname="Helvetica",fontsize=9];¶edge [fontname="Helvetica",fontsize=8,arrowsize=0.6];¶c0 [label=<<table border="0" cellborder="1" cellspacing="0" cellpadding="3">¶<tr><td port="top" colspan="2" bgcolor="#c8c8c8"><b>main </b></td></tr>¶<tr><td port="xs" align="left" bgcolor="#e6e6e6">s </td><td port="ys" align="left" bgcolor="#e6e6e6">Queue(help) </td></tr>¶</table>>];¶c1 [label=<<table border="0" cellborder="1" cellspacing="0" cellpadding="3">¶<tr><td port="top" colspan="2" bgcolor="#c8c8c8"><b>out </b></td></tr>¶<tr><td port="x1" align="left" bgcolor="#e6e6e6">1 </td><td port="y1" align="left" bgcolor="#e6e6e6">Hangup() </td></tr>¶</table>>];¶}¶→pbx: @ways has no context `mains`¶  nearest: main¶  nearest: out¶
# The dialplan is read first, then the queues, and their texts come in the same order.
graph @faulty→1→→fault 4 NoEquals line 2¶
graph @missing→1→→fault 7 ReadFailed¶
graph --queues @missing @long→1→→fault 8 TooLong¶
graph --queues @missing @faulty→1→→fault 7 ReadFailed¶
graph --queues @strategy @priority→1→→fault 20 BadPriority line 2¶
graph --queues @strategy @ways→1→→fault 30 BadStrategy line 2¶
graph --explain --queues @missing @ways→1→→fault 7 ReadFailed¶  @missing¶  a file could not be opened or read¶
graph --asterisk @parted --queues @missing→1→→@inner:2: fault 23 BadApplication¶@parted:4: fault 20 BadPriority¶@parted:5: fault 7 ReadFailed nowhere.conf¶
graph --asterisk @ways --queues @mixed→1→→@mixed:3: fault 30 BadStrategy¶
graph --asterisk @ways --queues @random→1→→@random:2: note Random¶
graph --asterisk @ways --queues @missing→1→→fault 7 ReadFailed¶
graph --asterisk --explain @missing→1→→fault 7 ReadFailed¶  @missing¶  a file could not be opened or read¶
"##;

/// `debug --asterisk`.
const ASTERISK_DEBUGS: &str = "\
# A step that is not taken is no event, and neither is a line that shows a value. A pass is one.
debug --asterisk --break main,s,1 @asking @asking.script→4→started 1¶unknown 1 DB(x) -> ready main,s,1¶end 1¶→
debug --asterisk --break main,s,1 @asking @telling.script→0→started 1¶ok 1 -> ready main,s,1¶break 2¶ran 1 main,s,1 Set -> ready main,s,2¶ok 1 -> ready main,s,3¶ran 1 main,s,3 Hangup -> ended¶end 5¶→
debug --break main,s,3 --verbose @asking --asterisk @telling.script→0→started 1¶ok 1 -> ready main,s,1¶  @asking:2 Set(A=5)¶ran 1 main,s,1 Set -> ready main,s,2¶ok 1 -> ready main,s,3¶break 4¶  @asking:4 Hangup()¶ran 1 main,s,3 Hangup -> ended¶end 5¶→
debug --asterisk --break main,100,1 @first @refused.script→1→refused 40 NoChannel¶started 1¶break 2¶ran 1 main,100,1 NoOp -> ready main,100,2¶end 3¶→
# The dialplans and the queues are read with the files that they include.
debug --asterisk --break main,100,1 @pieces @pieces.script→0→started 1¶ran 1 main,s,1 Goto -> ready main,100,1¶break 2¶ran 1 main,100,1 NoOp -> ready main,100,2¶ran 1 main,100,2 Hangup -> ended¶end 4¶→
debug --asterisk --queues @tiered --break main,s,1 @callers @callers.script→0→started 1¶break 1¶ran 1 main,s,1 Queue -> queued help¶ok 1 -> ready main,s,2¶ran 1 main,s,2 Hangup -> ended¶end 4¶→
debug --asterisk --verbose --reload @pieces --break main,100,2 @changing @changing.script→0→started 1¶  @changing:5 NoOp(a)¶ran 1 main,100,1 NoOp -> ready main,100,2¶ok¶break 3¶  @inner.piece:4 Hangup()¶ran 1 main,100,2 Hangup -> ended¶end 4¶→
# Faults of its files, of its break, and of its script.
debug --asterisk --break x @switched @pieces.script→1→→@switched:2: note Switch¶
debug --asterisk --break main,s,1 @hunting @hunting.script→0→started 1¶break 1¶ran 1 main,s,1 NoOp -> ready main,s,2¶ok¶ok¶end 4¶→
debug --asterisk --queues @mixed --break x @callers @callers.script→1→→@mixed:3: fault 30 BadStrategy¶
debug --asterisk --break x @first @untold.script→1→→fault 71 BadBreak¶
debug --asterisk --break main,s,1 @first @untold.script→1→→fault 70 BadScript line 2¶
debug --asterisk --explain --break main,s,1 @first @missing→1→→fault 7 ReadFailed¶  @missing¶  a file could not be opened or read¶
";

/// `test`.
const TESTS: &str = "\
test @first.test→0→TAP version 14¶1..1¶ok 1 - one¶→
test --trace @first.test→0→TAP version 14¶1..1¶# @first:2 main,100,1 NoOp(hello)¶# @first:3 main,100,2 Goto(200,1)¶# @first:4 main,200,1 Hangup()¶ok 1 - one¶→
test @first.test --cover→0→TAP version 14¶1..1¶ok 1 - one¶# covered 3 of 3 entries¶→
test --cover @none.test→0→TAP version 14¶1..0¶# covered 0 of 3 entries¶# never @first:2 main,100,1 NoOp¶# never @first:3 main,100,2 Goto¶# never @first:4 main,200,1 Hangup¶→
test @changes.test→0→TAP version 14¶1..1¶ok 1 - a dialplan is reloaded¶→
test @fails.test→1→TAP version 14¶1..2¶not ok 1 - one¶  ---¶  at: '@fails.test:4'¶  expected: '1 ran NoOp'¶  got: 'Hangup()'¶  trace:¶    - '@first:2 main,100,1 NoOp(hello)'¶    - '@first:3 main,100,2 Goto(200,1)'¶    - '@first:4 main,200,1 Hangup()'¶  ...¶not ok 2 - two¶  ---¶  at: '@fails.test:7'¶  expected: 'done'¶  got: 'refused 49 Ended'¶  trace:¶    - '@first:2 main,100,1 NoOp(hello)'¶    - '@first:3 main,100,2 Goto(200,1)'¶    - '@first:4 main,200,1 Hangup()'¶  ...¶→
# The moment of the head is that of includes with times.
test @timed.test→0→TAP version 14¶1..0¶→
test @unclocked.test→1→→@timed:2: fault NoClock¶
# All faults of the test file, or of the files that it names. Then no test runs.
test @faulty.test→1→→@faulty.test:3: fault BadLine¶@faulty.test:4: fault BadExpect¶
test @lost.test→1→→@lost.test:1: fault 7 ReadFailed nowhere.conf¶@lost.test:2: fault 7 ReadFailed nowhere.queues¶@lost.test:4: fault 7 ReadFailed nowhere.plan¶
test @parted.test→1→→@inner:2: fault 23 BadApplication¶@parted:4: fault 20 BadPriority¶@parted:5: fault 7 ReadFailed nowhere.conf¶
test @switched.test→1→→@switched:2: note Switch¶
test @hunting.test→0→TAP version 14¶1..1¶ok 1 - one¶→
test @strategy.test→1→→@strategy:2: fault 30 BadStrategy¶
test @random.test→1→→@random:2: note Random¶
test @missing→1→→fault 7 ReadFailed¶
test --explain @missing→1→→fault 7 ReadFailed¶  @missing¶  a file could not be opened or read¶
test @long→1→→fault 8 TooLong¶
# The results of several files are one list, in the order of the files.
test @first.test @changes.test→0→TAP version 14¶1..2¶ok 1 - one¶ok 2 - a dialplan is reloaded¶→
test @changes.test @none.test @first.test @first.test→0→TAP version 14¶1..3¶ok 1 - a dialplan is reloaded¶ok 2 - one¶ok 3 - one¶→
test @none.test --trace @first.test→0→TAP version 14¶1..1¶# @first:2 main,100,1 NoOp(hello)¶# @first:3 main,100,2 Goto(200,1)¶# @first:4 main,200,1 Hangup()¶ok 1 - one¶→
test @first.test @fails.test @changes.test→1→TAP version 14¶1..4¶ok 1 - one¶not ok 2 - one¶  ---¶  at: '@fails.test:4'¶  expected: '1 ran NoOp'¶  got: 'Hangup()'¶  trace:¶    - '@first:2 main,100,1 NoOp(hello)'¶    - '@first:3 main,100,2 Goto(200,1)'¶    - '@first:4 main,200,1 Hangup()'¶  ...¶not ok 3 - two¶  ---¶  at: '@fails.test:7'¶  expected: 'done'¶  got: 'refused 49 Ended'¶  trace:¶    - '@first:2 main,100,1 NoOp(hello)'¶    - '@first:3 main,100,2 Goto(200,1)'¶    - '@first:4 main,200,1 Hangup()'¶  ...¶ok 4 - a dialplan is reloaded¶→
# The coverage is that of each dialplan, by the tests of all files that are on it.
test --cover @first.test @changes.test→0→TAP version 14¶1..2¶ok 1 - one¶ok 2 - a dialplan is reloaded¶# covered 3 of 3 entries¶# covered 0 of 2 entries¶# never @changing:5 main,100,1 NoOp¶# never @changing:6 main,100,2 NoOp¶→
test --cover @none.test @changes.test @first.test→0→TAP version 14¶1..2¶ok 1 - a dialplan is reloaded¶ok 2 - one¶# covered 3 of 3 entries¶# covered 0 of 2 entries¶# never @changing:5 main,100,1 NoOp¶# never @changing:6 main,100,2 NoOp¶→
# The dialplan of the first file, by what the tests of all files that are on it ran.
test --graph @first.test→0→digraph dialplan {¶rankdir=LR;¶ranksep=0.8;¶nodesep=0.25;¶node [shape=plain,fontname=\"Helvetica\",fontsize=9];¶edge [fontname=\"Helvetica\",fontsize=8,arrowsize=0.6];¶c0 [label=<<table border=\"0\" cellborder=\"1\" cellspacing=\"0\" cellpadding=\"3\">¶<tr><td port=\"top\" colspan=\"2\" bgcolor=\"#6fb36f\"><b>main </b></td></tr>¶<tr><td port=\"x100\" align=\"left\" bgcolor=\"#8cc98c\">100 </td><td port=\"y100\" align=\"left\" bgcolor=\"#8cc98c\">NoOp(hello) </td></tr>¶<tr><td port=\"x200\" align=\"left\" bgcolor=\"#8cc98c\">200 </td><td port=\"y200\" align=\"left\" bgcolor=\"#8cc98c\">Hangup() </td></tr>¶</table>>];¶c0:y100:e -> c0:y200:e [color=black];¶}¶→
test --graph --cover @town.test→0→digraph dialplan {¶rankdir=LR;¶ranksep=0.8;¶nodesep=0.25;¶node [shape=plain,fontname=\"Helvetica\",fontsize=9];¶edge [fontname=\"Helvetica\",fontsize=8,arrowsize=0.6];¶c0 [label=<<table border=\"0\" cellborder=\"1\" cellspacing=\"0\" cellpadding=\"3\">¶<tr><td port=\"top\" colspan=\"2\" bgcolor=\"#e0c050\"><b>main </b></td></tr>¶<tr><td port=\"x100\" align=\"left\" bgcolor=\"#ffffff\">100 </td><td port=\"y100\" align=\"left\" bgcolor=\"#ffffff\">NoOp(hello) </td></tr>¶<tr><td port=\"x200\" align=\"left\" bgcolor=\"#8cc98c\">200 </td><td port=\"y200\" align=\"left\" bgcolor=\"#8cc98c\">Hangup() </td></tr>¶</table>>];¶c0:y100:e -> c0:y200:e [color=black];¶}¶→
test --graph @none.test→0→digraph dialplan {¶rankdir=LR;¶ranksep=0.8;¶nodesep=0.25;¶node [shape=plain,fontname=\"Helvetica\",fontsize=9];¶edge [fontname=\"Helvetica\",fontsize=8,arrowsize=0.6];¶c0 [label=<<table border=\"0\" cellborder=\"1\" cellspacing=\"0\" cellpadding=\"3\">¶<tr><td port=\"top\" colspan=\"2\" bgcolor=\"#e6e6e6\"><b>main </b></td></tr>¶<tr><td port=\"x100\" align=\"left\" bgcolor=\"#ffffff\">100 </td><td port=\"y100\" align=\"left\" bgcolor=\"#ffffff\">NoOp(hello) </td></tr>¶<tr><td port=\"x200\" align=\"left\" bgcolor=\"#ffffff\">200 </td><td port=\"y200\" align=\"left\" bgcolor=\"#ffffff\">Hangup() </td></tr>¶</table>>];¶c0:y100:e -> c0:y200:e [color=black];¶}¶→
test --json @town.test --graph @changes.test @fails.test→1→digraph dialplan {¶rankdir=LR;¶ranksep=0.8;¶nodesep=0.25;¶node [shape=plain,fontname=\"Helvetica\",fontsize=9];¶edge [fontname=\"Helvetica\",fontsize=8,arrowsize=0.6];¶c0 [label=<<table border=\"0\" cellborder=\"1\" cellspacing=\"0\" cellpadding=\"3\">¶<tr><td port=\"top\" colspan=\"2\" bgcolor=\"#6fb36f\"><b>main </b></td></tr>¶<tr><td port=\"x100\" align=\"left\" bgcolor=\"#8cc98c\">100 </td><td port=\"y100\" align=\"left\" bgcolor=\"#8cc98c\">NoOp(hello) </td></tr>¶<tr><td port=\"x200\" align=\"left\" bgcolor=\"#8cc98c\">200 </td><td port=\"y200\" align=\"left\" bgcolor=\"#8cc98c\">Hangup() </td></tr>¶</table>>];¶c0:y100:e -> c0:y200:e [color=black];¶}¶→pbx: @changes.test is on another dialplan than the first test file¶
test --graph @faulty.test→1→→@faulty.test:3: fault BadLine¶@faulty.test:4: fault BadExpect¶
# All faults of all files, in the order of the files. Then no test runs.
test @first.test @faulty.test→1→→@faulty.test:3: fault BadLine¶@faulty.test:4: fault BadExpect¶
test --cover @lost.test @first.test @switched.test @faulty.test→1→→@lost.test:1: fault 7 ReadFailed nowhere.conf¶@lost.test:2: fault 7 ReadFailed nowhere.queues¶@lost.test:4: fault 7 ReadFailed nowhere.plan¶@switched:2: note Switch¶@faulty.test:3: fault BadLine¶@faulty.test:4: fault BadExpect¶
# A test file that cannot be read comes before all that is wrong with the others.
test @faulty.test @missing @long→1→→fault 7 ReadFailed¶
test --explain @first.test @missing→1→→fault 7 ReadFailed¶  @missing¶  a file could not be opened or read¶
test @first.test @long @missing→1→→fault 8 TooLong¶
";

/// `run --verbose` and `debug --verbose`.
const VERBOSE_RUNS: &str = "\
run --verbose @first @first.script→0→started 1¶  @first:2 NoOp(hello)¶ran 1 main,100,1 NoOp -> ready main,100,2¶  @first:3 Goto(200,1)¶ran 1 main,100,2 Goto -> ready main,200,1¶  @first:4 Hangup()¶ran 1 main,200,1 Hangup -> ended¶→
run @first @refused.script --verbose→1→  40 NoChannel¶  no channel has the number¶  example: `step 1` as the first line¶refused 40 NoChannel¶started 1¶  @first:2 NoOp(hello)¶ran 1 main,100,1 NoOp -> ready main,100,2¶→
# What is not modelled is named once, in any ASCII case, also if it comes with a second dialplan. Of an entry only the first is named.
run --verbose @twice @twice.script→0→started 1¶  @twice:2 NoOp()¶ran 1 main,s,1 NoOp -> ready main,s,2¶  @twice:3 noop(5)¶ran 1 main,s,2 noop -> ready main,s,3¶  @twice:4 Macro(x)¶ran 1 main,s,3 Macro -> ended¶started 2¶  @twice:2 NoOp()¶ran 2 main,s,1 NoOp -> ready main,s,2¶→pbx: `CUT` is not modelled; --asterisk models it, or stops there¶pbx: `Macro` is not modelled; --asterisk models it, or stops there¶
run --reload @macros @first @changing.script→0→started 1¶ran 1 main,100,1 NoOp -> ready main,100,2¶ok¶X=¶Y=¶no entry 1 -> ended¶→
run --reload @twice @labels @reloading.script→0→started 1¶ok¶started 2¶ran 2 main,s,1 NoOp -> ready main,s,2¶→pbx: `CUT` is not modelled; --asterisk models it, or stops there¶
# With queues, and with a second dialplan.
run --verbose --queues @help @callers @callers.script→0→started 1¶  @callers:2 Queue(help,,,,30)¶ran 1 main,s,1 Queue -> queued help¶ok 1 -> ready main,s,2¶  @callers:3 Hangup()¶ran 1 main,s,2 Hangup -> ended¶→
run --verbose --reload @changed @changing @changing.script→0→started 1¶  @changing:5 NoOp(a)¶ran 1 main,100,1 NoOp -> ready main,100,2¶ok¶X=12¶Y=5¶  @changed:4 Hangup()¶ran 1 main,_1XX,2 Hangup -> ended¶→
run --verbose --reload @unclosed @changing @changing.script→1→started 1¶  @changing:5 NoOp(a)¶ran 1 main,100,1 NoOp -> ready main,100,2¶  52 BadPlan¶  a `reload`, and the second dialplan has a fault¶  example: `reload` where the second dialplan is `abc`¶refused 52 BadPlan¶X=1¶Y=5¶  @changing:6 NoOp(b)¶ran 1 main,100,2 NoOp -> ready main,100,3¶→
debug --verbose --reload @changed --break main,100,2 @changing @changing.script→0→started 1¶  @changing:5 NoOp(a)¶ran 1 main,100,1 NoOp -> ready main,100,2¶ok¶break 3¶  @changed:4 Hangup()¶ran 1 main,_1XX,2 Hangup -> ended¶end 4¶→
# In threads nothing more is printed.
run --verbose --threads 2 @pair @pair.script→0→settled 2 seats 2 calls¶→
# Nor is it if there is a fault.
run --verbose @faulty @faulty.script→1→→fault 4 NoEquals line 2¶
run --verbose --explain @faulty @faulty.script→1→→fault 4 NoEquals line 2¶  @faulty:2¶  abc¶  a line of a section with no `=`¶
run --verbose @first @missing→1→→fault 7 ReadFailed¶
debug --verbose --break main,s @first @first.script→1→→fault 71 BadBreak¶
debug --verbose --break main,s,1 @first @faulty.script→1→→fault 70 BadScript line 2¶
debug --verbose --break main,s,1 @missing @first.script→1→→fault 7 ReadFailed¶
";

/// `run --threads`.
const THREAD_RUNS: &str = "\
run --threads 2 @pair @pair.script→0→settled 2 seats 2 calls¶→
run --threads 1 @pair @pair.script→0→settled 1 seats 2 calls¶→
run @first @first.script --threads=064→0→settled 64 seats 3 calls¶→
run --threads 3 @empty @empty→0→settled 3 seats 0 calls¶→
# What it meets that is not modelled is not reported.
run --threads 1 @asking @asking.script→0→settled 1 seats 2 calls¶→
# A refused event.
run --threads 1 @first @refused.script→1→settled 1 seats 3 calls¶→
# With queues.
run --queues @help --threads 1 @callers @callers.script→0→settled 1 seats 3 calls¶→
run --threads 4 --queues @faulty @first @first.script→1→→fault 4 NoEquals line 2¶
# With a second dialplan, which ends the calls that come in first.
run --threads 2 --reload @pair @pair @between.script→0→settled 2 seats 3 calls¶→
run --threads 2 --reload @unclosed @pair @between.script→1→settled 2 seats 3 calls¶→
run --threads 1 --reload @changed @changing @changing.script→0→settled 1 seats 3 calls¶→
run --threads 1 --reload @pair @pair @late.script→0→settled 1 seats 2 calls¶→
run --threads 2 @pair @between.script→1→→fault 70 BadScript line 4¶
run --threads 2 --reload @missing @faulty @first.script→1→→fault 7 ReadFailed¶
run --threads 2 --reload @long @first @missing→1→→fault 8 TooLong¶
# With a call to devices.
run --threads 1 @dialling @dialling.script→1→settled 1 seats 3 calls¶→
# All files are read before their texts, and the texts are read before the first event.
run --threads 2 @faulty @missing→1→→fault 7 ReadFailed¶
run --threads 2 --queues @missing @faulty @first.script→1→→fault 7 ReadFailed¶
run --threads 2 --queues @long @faulty @missing→1→→fault 8 TooLong¶
run --threads 2 --queues @missing @long @first.script→1→→fault 8 TooLong¶
run --threads 2 --queues @missing @first @long→1→→fault 7 ReadFailed¶
run --threads 2 --queues @faulty @first @faulty.script→1→→fault 4 NoEquals line 2¶
run --threads 2 @faulty @faulty.script→1→→fault 4 NoEquals line 2¶
run --threads 2 @first @faulty.script→1→→fault 70 BadScript line 2¶
";

/// `debug`.
const DEBUGS: &str = "\
debug --break main,200,1 @first @first.script→0→started 1¶ran 1 main,100,1 NoOp -> ready main,100,2¶ran 1 main,100,2 Goto -> ready main,200,1¶break 3¶ran 1 main,200,1 Hangup -> ended¶end 4¶→
debug @first @first.script --break=main,300,1→0→started 1¶ran 1 main,100,1 NoOp -> ready main,100,2¶ran 1 main,100,2 Goto -> ready main,200,1¶ran 1 main,200,1 Hangup -> ended¶end 4¶→
debug --break main,100,1 @first @refused.script→1→refused 40 NoChannel¶started 1¶break 2¶ran 1 main,100,1 NoOp -> ready main,100,2¶end 3¶→
debug --break main,100,1 @empty @empty→0→end 0¶→
# With queues.
debug --queues @help --break main,s,2 @callers @callers.script→0→started 1¶ran 1 main,s,1 Queue -> queued help¶ok 1 -> ready main,s,2¶break 3¶ran 1 main,s,2 Hangup -> ended¶end 4¶→
# reload
debug --reload @changed --break main,100,2 @changing @changing.script→0→started 1¶ran 1 main,100,1 NoOp -> ready main,100,2¶ok¶break 3¶ran 1 main,_1XX,2 Hangup -> ended¶end 4¶→
debug --break main,100,2 @changing @changing.script --reload @unclosed→1→started 1¶ran 1 main,100,1 NoOp -> ready main,100,2¶refused 52 BadPlan¶break 3¶ran 1 main,100,2 NoOp -> ready main,100,3¶end 4¶→
debug --break main,100,2 @changing @changing.script→1→→fault 70 BadScript line 3¶
debug --reload @unclosed --break main,s @changing @changing.script→1→→fault 71 BadBreak¶
debug --reload @missing --break main,s @first @first.script→1→→fault 7 ReadFailed¶
debug --reload @long --break main,s @first @missing→1→→fault 8 TooLong¶
# Not a break: reported after all files are read and before their texts.
debug --break main,s @first @first.script→1→→fault 71 BadBreak¶
debug --break main,s @faulty @faulty.script→1→→fault 71 BadBreak¶
debug --queues @faulty --break main,s,+1 @faulty @faulty.script→1→→fault 71 BadBreak¶
debug --break main,s @missing @first.script→1→→fault 7 ReadFailed¶
debug --break main,s @first @missing→1→→fault 7 ReadFailed¶
debug --queues @missing --break main,s @first @first.script→1→→fault 7 ReadFailed¶
debug --queues @long --break main,s @first @missing→1→→fault 8 TooLong¶
debug --queues @missing --break main,s,1 @long @first.script→1→→fault 8 TooLong¶
debug --queues @missing --break main,s,1 @first @long→1→→fault 7 ReadFailed¶
# The texts after it.
debug --break main,s,1 @faulty @faulty.script→1→→fault 4 NoEquals line 2¶
debug --break main,s,1 @first @faulty.script→1→→fault 70 BadScript line 2¶
debug --queues @faulty --break main,s,1 @first @faulty.script→1→→fault 4 NoEquals line 2¶
";

/// The examples of the manual.
const MANUAL: &str = "\
list @sample→0→[globals]¶DESK => 100¶[phones]¶exten => 100,1(desk),NoOp(the front desk)¶exten => 100,2,Hangup()¶exten => _1XX,1,NoOp(a room)¶exten => _1XX,2,Goto(${DESK},desk)¶exten => _NXXXXXX,1,NoOp(a call to town)¶exten => _NXXXXXX,2,Hangup()¶include => rest¶[rest]¶exten => _X.,1,NoOp(no such number)¶exten => _X.,2,Hangup()¶→
check @sample→0→ok 2 contexts 8 entries¶→
match @sample phones 100→0→phones,100,1 NoOp¶→
match @sample phones 123→0→phones,_1XX,1 NoOp¶→
match @sample phones 123 2→0→phones,_1XX,2 Goto¶→
match @sample phones 555-1234→0→phones,_NXXXXXX,1 NoOp¶→
match @sample phones 12345→0→rest,_X.,1 NoOp¶→
match @sample phones 1→0→none¶→
run @sample @sample.script→0→started 1¶ran 1 phones,_1XX,1 NoOp -> ready phones,123,2¶ran 1 phones,_1XX,2 Goto -> ready phones,100,1¶ran 1 phones,100,1 NoOp -> ready phones,100,2¶ran 1 phones,100,2 Hangup -> ended¶started 2¶ran 2 phones,_NXXXXXX,1 NoOp -> ready phones,555-1234,2¶ran 2 phones,_NXXXXXX,2 Hangup -> ended¶→
debug --break phones,123,2 @sample @sample.script→0→started 1¶ran 1 phones,_1XX,1 NoOp -> ready phones,123,2¶break 2¶ran 1 phones,_1XX,2 Goto -> ready phones,100,1¶ran 1 phones,100,1 NoOp -> ready phones,100,2¶ran 1 phones,100,2 Hangup -> ended¶started 2¶ran 2 phones,_NXXXXXX,1 NoOp -> ready phones,555-1234,2¶ran 2 phones,_NXXXXXX,2 Hangup -> ended¶end 8¶→
run --threads 2 @pair @pair.script→0→settled 2 seats 2 calls¶→
match @calls calls 123→0→calls,123,1 NoOp¶→
match @calls calls 123 2→0→calls,_X.,2 NoOp¶→
match @calls calls 124→0→calls,_1XX,1 NoOp¶→
match @calls calls 12→0→calls,_X.,1 NoOp¶→
match @calls calls 1→0→none¶→
";

/// Without a command the standard input is run.
const INPUTS: &str = "\
←[main]¶exten => 100,1,NoOp(hello)¶exten => 100,2,Goto(200,1)¶exten => 200,1,Hangup()¶;; script¶start main 100¶step 1 3¶→0→started 1¶ran 1 main,100,1 NoOp -> ready main,100,2¶ran 1 main,100,2 Goto -> ready main,200,1¶ran 1 main,200,1 Hangup -> ended¶→
--←[main]¶exten => 100,1,NoOp(hello)¶exten => 100,2,Goto(200,1)¶exten => 200,1,Hangup()¶;; script¶start main 100¶step 1 3¶→0→started 1¶ran 1 main,100,1 NoOp -> ready main,100,2¶ran 1 main,100,2 Goto -> ready main,200,1¶ran 1 main,200,1 Hangup -> ended¶→
←→0→→
←[main]¶abc¶→1→→fault 4 NoEquals line 2¶
←;; script¶step 1¶→1→refused 40 NoChannel¶→
# reload
←[globals]¶X=1¶Y=5¶[main]¶exten => 100,1,NoOp(a)¶exten => 100,2,NoOp(b)¶;; reload¶[globals]¶X=${X}2¶[main]¶exten => _1XX,2,Hangup()¶;; script¶start main 100¶step 1¶reload¶show 1 X¶show 1 Y¶step 1¶→0→started 1¶ran 1 main,100,1 NoOp -> ready main,100,2¶ok¶X=12¶Y=5¶ran 1 main,_1XX,2 Hangup -> ended¶→
←[main]¶;; script¶reload¶→1→→fault 70 BadScript line 1¶
# A command does not read it.
check @empty←[main]¶exten => 100,1,NoOp(hello)¶exten => 100,2,Goto(200,1)¶exten => 200,1,Hangup()¶;; script¶start main 100¶step 1 3¶→0→ok 0 contexts 0 entries¶→
";

/// The tables of the questions on a dialplan.
const QUESTIONS: [&str; 5] = [CHECKS, LISTS, MATCHES, REACHES, AUDITS];

/// The tables of what is explained, compared, drawn, or printed for other tools.
const PRINTS: [&str; 5] = [EXPLAINS, EXPLAINED, DIFFS, GRAPHS, JSON];

/// The tables of what runs.
const ALL_RUNS: [&str; 9] = [
    RUNS,
    ASTERISK_RUNS,
    ASTERISK_DEBUGS,
    TESTS,
    VERBOSE_RUNS,
    THREAD_RUNS,
    DEBUGS,
    MANUAL,
    INPUTS,
];

/// Checks each case of some tables, over the files of a folder with this name, which is removed. The number is that of the process.
fn check_tables<R: Files + Env + Threads + Wait + Sync + AllocGlobal + Clone + Drop>(
    rt: &R,
    name: &str,
    number: u32,
    tables: &[&str],
) -> Result<(), Fail> {
    let folder = make_folder(rt, name, number)?;
    for table in tables {
        check_table(rt, &folder, table)?;
    }
    fs::remove_dir_all(rt, folder.as_str())?;
    Ok(())
}

#[test]
fn questions_on_dialplans_are_answered(rt: HostRuntime) -> Result<(), Fail> {
    check_tables(&rt, "questions", process::id(rt.process()), &QUESTIONS)
}

#[test]
fn dialplans_are_explained_compared_and_drawn(rt: HostRuntime) -> Result<(), Fail> {
    check_tables(&rt, "prints", process::id(rt.process()), &PRINTS)
}

#[test]
fn scripts_and_tests_run(rt: HostRuntime) -> Result<(), Fail> {
    check_tables(&rt, "runs", process::id(rt.process()), &ALL_RUNS)
}
