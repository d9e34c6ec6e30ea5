//! A folder of files, and command lines that are run over it.
//!
//! This is only for tests.
#![tactic(auto)]

use dp_case_tables::check_same;
use dp_cli::answer;
use dp_conf::{MOST_BYTES, Told};
use dp_plan::NoMemory;
use std::alloc::Global;
use std::env::Env;
use std::rt::Files;
use std::sync::Wait;
use std::test::Fail;
use std::thread::Threads;
use std::{env, fs, str};

/// The files of the folder that the command lines find, besides `folder`, which is a folder itself, and `long`, which has one byte more
/// than a file may have. No file is called `missing`. A `¶` is a line feed.
const FILES: &str = "\
# What the manual has as sample/extensions.conf and sample/calls.script, and its example of patterns.
sample→; The telephones of a small house.¶[globals]¶DESK=100¶¶[phones]¶exten => 100,1(desk),NoOp(the front desk)¶same => n,Hangup()¶exten => _1XX,1,NoOp(a room)¶same => n,Goto(${DESK},desk)         ; nobody is in: to the front desk¶exten => _NXXXXXX,1,NoOp(a call to town)¶ same => n,Hangup()¶include => rest¶¶[rest]¶exten => _X.,1,NoOp(no such number)¶ same => n,Hangup()¶
sample.script→; Room 123 is called, and then a number in town.¶start phones 123¶step 1 4¶start phones 555-1234¶step 2 2¶
calls→[calls]¶exten => 123,1,NoOp(one)¶exten => _1XX,1,NoOp(three)¶exten => _X.,1,NoOp(any)¶exten => _X.,2,NoOp(two)¶
usual→[general]¶static=yes¶writeprotect=no¶¶[globals]¶TRUNK=Line/9¶¶[main]¶exten => _NXXXXXX,1,Answer()¶ same => n,Playback(hello-world)¶ same => n(q),Queue(support,c)¶same => n,Hangup()¶include => out¶
classes→[main]¶exten => _NX,1,NoOp()¶exten => _[4-8]X,1,NoOp()¶exten => _[0-4]X,1,NoOp()¶exten => _[2-9]X,1,NoOp()¶
specific→[main]¶exten => _X.,1,NoOp()¶exten => _1XX,1,NoOp()¶exten => 123,1,NoOp()¶
priorities→[main]¶exten => 123,1,NoOp(one)¶exten => _X.,1,NoOp(other)¶exten => _X.,2,NoOp(two)¶
cycle→[a]¶include => b¶[b]¶include => a¶
chain→[main]¶exten => _1XX,1,NoOp()¶include => late¶[late]¶exten => 123,1,Hangup()¶exten => 123,2,Hangup()¶include => main¶
# Calls that come in, and where they may get: a shut door, a jump to any context, a way out of a queue, the extensions h and i, and the
# sample of routes with a line more.
doors→[outside]¶exten => s,1,Goto(hall,${EXTEN},1)¶[hall]¶exten => s,1,Hangup()¶exten => 9,1,Goto(safe,s,1)¶[safe]¶exten => s,1,NoOp(no way)¶
scripted→[main]¶exten => s,1,AGI(ask.agi)¶ same => n,Stasis(app)¶
locked→[outside]¶exten => s,1,Goto(cellar,${EXTEN},1)¶[hall]¶exten => s,1,Hangup()¶[cellar]¶exten => s,1,Hangup()¶
jumps→[in]¶exten => _X.,1,Set(where=${EXTEN})¶ same => n,Goto(${where},s,1)¶[desk]¶exten => s,1,Macro(ring)¶[7]¶exten => s,1,Hangup()¶
ways→[main]¶exten => s,1,Queue(help)¶[out]¶exten => 1,1,Hangup()¶
wayout→[help]¶context = out¶
ends→[in]¶exten => s,1,Goto(main,s,1)¶[main]¶exten => s,1,WaitExten(5)¶exten => h,1,Goto(late,s,1)¶exten => i,1,Goto(lost,s,1)¶[late]¶exten => s,1,NoOp()¶[lost]¶exten => s,1,NoOp()¶
opened→[globals]¶CARRIER=PJSIP/carrier¶RECEPTION=200¶[from-carrier]¶exten => _X.,1,Set(CALLERNUMBER=${CALLERID(num)})¶ same => n,Goto(reception,s,1)¶exten => _+X.,1,Goto(reception,s,1)¶[reception]¶exten => s,1,Answer()¶ same => n,Set(tries=0)¶ same => n(menu),Background(welcome)¶ same => n,WaitExten(5)¶exten => 1,1,Gosub(ring,s,1(${RECEPTION},20))¶ same => n,Goto(desk,1)¶exten => 2,1,Goto(internal,210,1)¶exten => i,1,Set(tries=$[${tries} + 1])¶ same => n,GotoIf($[${tries} < 2]?s,menu)¶ same => n,Goto(desk,1)¶exten => t,1,Goto(desk,1)¶exten => desk,1,Dial(PJSIP/${RECEPTION},30)¶ same => n,Hangup()¶exten => h,1,NoOp(${CALLERNUMBER} left)¶include => lobby-features¶[lobby-features]¶exten => *60,1,Answer()¶ same => n,Playback(opening-hours)¶ same => n,Hangup()¶exten => _*2XX,1,Goto(internal,${EXTEN:1},1)¶exten => _**X.,1,Goto(from-staff,${EXTEN:2},1)¶[from-lobby]¶include => internal¶include => lobby-features¶[internal]¶exten => _[23]XX,1,Gosub(ring,s,1(${EXTEN},20))¶ same => n,GotoIf($[\"${DIALSTATUS}\" = \"BUSY\"]?busy)¶ same => n,Playback(not-there)¶ same => n,Hangup()¶ same => n(busy),Playback(busy)¶ same => n,Hangup()¶[ring]¶exten => s,1,Dial(PJSIP/${ARG1},${ARG2})¶ same => n,Return()¶[from-staff]¶include => internal¶include => national¶include => international¶[national]¶exten => _0ZX.,1,Dial(${CARRIER}/${EXTEN},60)¶ same => n,Hangup()¶[international]¶exten => _00ZX.,1,Set(CALLERID(num)=+4989123450)¶ same => n,Dial(${CARRIER}/${EXTEN},60)¶ same => n,Hangup()¶
labels→[main]¶exten => s,1,Goto(x)¶exten => s,n(x),Hangup()¶
labels.script→start main s¶step 1 2¶
first→[main]¶exten => 100,1,NoOp(hello)¶exten => 100,2,Goto(200,1)¶exten => 200,1,Hangup()¶
first.script→start main 100¶step 1 3¶
refused.script→step 1¶start main 100¶step 1¶
help→[help]¶member => Agent/1¶
queues→[general]¶persistentmembers = yes¶[sales]¶member => Line/1¶[support]¶
callers→[main]¶exten => s,1,Queue(help,,,,30)¶exten => s,2,Hangup()¶
callers.script→start main s¶step 1¶timeout 1¶step 1¶
pair→[main]¶exten => s,1,NoOp()¶
pair.script→start main s¶start main s¶step 1¶step 2¶
changing→[globals]¶X=1¶Y=5¶[main]¶exten => 100,1,NoOp(a)¶exten => 100,2,NoOp(b)¶
changed→[globals]¶X=${X}2¶[main]¶exten => _1XX,2,Hangup()¶
unclosed→[main
changing.script→start main 100¶step 1¶reload¶show 1 X¶show 1 Y¶step 1¶
between.script→start main s¶start main s¶step 1¶reload¶step 2¶
late.script→start main s¶reload¶start main s¶
dialling→[main]¶exten => s,1,Dial(Line/5,20)¶exten => s,2,NoOp()¶exten => h,1,Dial(Line/6)¶
dialling.script→start main s¶step 1¶result 1 BUSY¶show 1 DIALSTATUS¶result 1 BUSY¶
circling→[main]¶exten => s,1,Answer()¶exten => s,2,Goto(s,1)¶exten => 100,1,NoOp()¶exten => 100,2,While(1)¶exten => _X.,1,NoOp()¶exten => _X.,2,NoOp()¶exten => _X.,3,NoOp(${CUTT(a,-,1)})¶
asking→[main]¶exten => s,1,Set(A=${DB(x)})¶ same => n,While(1)¶ same => n,Hangup()¶
asking.script→start main s¶step 1 2¶
twice→[main]¶exten => s,1,NoOp(${CUT(A,b,1)}${DB(x)})¶ same => n,noop(${LEN(${cut(A)}12345)})¶ same => n,Macro(x)¶
twice.script→start main s¶step 1 3¶start main s¶step 2¶
reloading.script→start main s¶reload¶start main s¶step 2¶
telling.script→start main s¶let 1 DB(x)=5¶step 1¶show 1 A¶pass 1¶step 1¶
untold.script→start main s¶let 1¶
joined→[main]¶exten => s,1,NoOp()¶;; reload¶;; script¶exten => s,2,NoOp()¶
joined.script→start main s¶;; reload¶step 1 2¶
faulty→[main]¶abc¶
faulty.script→start main 100¶jump 1¶
priority→[main]¶exten => s,0,NoOp()¶
name→[main]¶exten => s,1,NoOp()¶exten => _[],1,NoOp()¶
switched→[main]¶lswitch => Loopback/x¶
hunting→[main]¶exten => s,1,NoOp()¶switch => Loopback/x¶exten => s/5551234,1,Busy()¶
hunting.script→start main s¶step 1¶assume Switch callerid¶
filled→[main]¶#exec /bin/true¶exten => s,1,Hangup()¶
macros→[main]¶exten => s,1,Macro(x)¶exten => s,2,Hangup()¶[macro-x]¶exten => s,1,NoOp(in)¶
macros.script→start main s¶step 1 4¶
ignoring→[main]¶ignorepat => 9¶
hinted→[main]¶exten => 100,hint,Line/1¶
plus→[main]¶exten => s,n+1,NoOp()¶
slash→[main]¶exten => s/5551234,1,NoOp()¶
braced→[main]¶exten => ${X},1,NoOp()¶
timed→[main]¶include => late,9:00-17:00,*,*,*¶
commas→[main]¶exten => s,1,Wait,5¶
strategy→[help]¶strategy = best¶
odd→[main]¶a\tb\u{7f}é c\r¶
wide→[main]¶xxxxxxxxxxxxxxxxxxxxxxxxxxxxxxxxxxxxxxxxxxxxxxxxxxxxxxxxxxxxxxxxxxxxxxxxxxxxxxxxxxxxxxxxxxxxxxxxxxxxxxxxxxxxxxxxxxxxxxxxxxxxxxxxxxxxxxxxxxxxxxxxxxxxxxxxxxxxxxxxxxxxxxxxxxxxxxxxxxxxxxxxxxxxxxxxxxxxxxxxxxxxxxxxxx¶
marked→\u{feff}[main¶
notes→[globals]¶=x¶[main]¶exten => s,1,NoOp()¶exten => s,1,Hangup()¶exten => s,2(x),NoOp()¶exten => s,3(x),NoOp()¶include => nowhere¶colour = red¶
sections→[a]¶exten => 1,1,A¶[b]¶[a]¶exten => 2,1,A¶include => b¶[c]¶include => a¶include => b¶
empty→
near→[min]¶exten => s,1,NoOp()¶[mien]¶[mainn]¶[ax]¶[mmmmmmmmmmmmmmmmmmmmmmmmmmmmmmmmmmmmmmmmmmmmmmmmmmmmmmmmmmmmmmmmmmmmmmmmmmmmmmmmm]¶
# A dialplan in two files, and one in those of a pattern.
parted→[main]¶#include \"inner\"¶exten => s,1,NoOp()¶exten => s,0,NoOp()¶#include nowhere.conf¶
inner→exten => 100,hint,Line/1¶exten => 100,1,Hangup(¶
folded→[main]¶#include *.part¶#include *.none¶
second.part→exten => 2,0,NoOp()¶
first.part→exten => 1,0,NoOp()¶
through→[general]¶autofallthrough=no¶[main]¶exten => s,1,NoOp()¶
pieces→[main]¶#include \"inner.piece\"¶exten => s,1,Goto(100,1)¶
inner.piece→;-- a note¶ over lines --;¶exten => 100,1,NoOp(hello)¶ same => n,Hangup()¶
pieces.script→start main s¶step 1 3¶
dashed→[-in-]¶exten => 1,1,NoOp¶
# Tests of some of these dialplans, and test files with faults, or that name files with faults.
first.test→dialplan first¶test one¶call main 100¶expect 1 ended¶
town.test→dialplan first¶test one¶call main 200¶expect 1 ran Hangup¶
changes.test→dialplan changing¶test a dialplan is reloaded¶reload changed¶expect global X=12¶expect global Y=5¶
fails.test→dialplan first¶test one¶call main 100¶expect 1 ran NoOp¶test two¶call main 100¶hangup 1¶
none.test→dialplan first¶
timed.test→dialplan timed¶clock mon 2026-11-30 09:30¶
unclocked.test→dialplan timed¶
faulty.test→dialplan first¶test one¶jump 1¶expect x¶
lost.test→dialplan nowhere.conf¶queues nowhere.queues¶test one¶reload nowhere.plan¶
parted.test→dialplan parted¶test one¶
strategy.test→dialplan first¶queues strategy¶test one¶
switched.test→dialplan switched¶
hunting.test→dialplan hunting¶assume Switch callerid¶test one¶call main s¶expect 1 ran NoOp¶
random→[help]¶strategy = random¶
random.test→dialplan first¶queues random¶
# Queues in two files.
tiered→#include \"help\"¶
mixed→#include \"help\"¶[more]¶strategy = best¶
";

/// The text with each character of one kind replaced by the other.
fn replace_sign(alloc: Global, text: &str, old: char, new: char) -> Result<String, NoMemory> {
    let mut out = String::new(alloc);
    for character in text.chars() {
        out.push(if character == old { new } else { character })?;
    }
    Ok(out)
}

/// The text in one line, with a `¶` for each line feed.
pub fn in_a_line(alloc: Global, text: &str) -> Result<String, NoMemory> {
    replace_sign(alloc, text, '\n', '¶')
}

/// The text of a line, with a line feed for each `¶`.
fn in_lines(alloc: Global, line: &str) -> Result<String, NoMemory> {
    replace_sign(alloc, line, '¶', '\n')
}

/// A word of a command line: `@NAME` is a file of the folder, and two quotes are the empty word.
fn word_of(alloc: Global, folder: &str, word: &str) -> Result<String, NoMemory> {
    match word.strip_prefix('@') {
        Some(name) => format!(in alloc; "{folder}/{name}"),
        None => String::from_str(alloc, if word == "''" { "" } else { word }),
    }
}

/// The words of a command line, the program's own name first.
fn words_of(alloc: Global, folder: &str, line: &str) -> Result<Vec<String>, NoMemory> {
    let mut all = Vec::new(alloc);
    all.push(String::from_str(alloc, "pbx")?)?;
    for word in line.split(' ') {
        if !word.is_empty() {
            all.push(word_of(alloc, folder, word)?)?;
        }
    }
    Ok(all)
}

/// The status of a command line, and its output and errors, as `STATUS→OUTPUT→ERRORS`.
fn output_of<R: Files + Threads + Wait + Sync + AllocGlobal + Clone + Drop>(
    rt: &R,
    folder: &str,
    line: &str,
    input: &str,
) -> Result<String, Fail> {
    let words = words_of(rt.alloc(), folder, line)?;
    let mut output = Told::new(Vec::new(rt.alloc()));
    let mut errors = Told::new(Vec::new(rt.alloc()));
    let status = answer(
        rt,
        rt,
        rt.alloc(),
        &words,
        &mut Told::new(input.as_bytes()),
        &mut output,
        &mut errors,
    );
    let output = output.into_inner();
    let errors = errors.into_inner();
    let out = format!(in rt.alloc();
        "{status}→{}→{}",
        str::from_utf8(&output)?,
        str::from_utf8(&errors)?
    )?;
    Ok(out)
}

/// The text with `@NAME` for the path of each file of the folder.
fn with_names(alloc: Global, folder: &str, text: &str) -> Result<String, NoMemory> {
    let front = format!(in alloc; "{folder}/")?;
    let mut out = String::new(alloc);
    for (at, part) in text.split(front.as_str()).enumerate() {
        if at > 0 {
            out.push('@')?;
        }
        out.push_str(part)?;
    }
    Ok(out)
}

/// Whether a command line has this status and prints this, all in one line, with `@NAME` for the path of a file. The standard input comes
/// after a `←`.
pub fn check_line<R: Files + Threads + Wait + Sync + AllocGlobal + Clone + Drop>(
    rt: &R,
    folder: &str,
    asked: &str,
    want: &str,
) -> Result<(), Fail> {
    let (line, input) = asked.split_once('←').unwrap_or((asked, ""));
    let input = in_lines(rt.alloc(), input)?;
    let got = output_of(rt, folder, line, &input)?;
    let got = in_a_line(rt.alloc(), &with_names(rt.alloc(), folder, &got)?)?;
    check_same(asked, &got, want)
}

/// Checks each case of a table.
pub fn check_table<R: Files + Threads + Wait + Sync + AllocGlobal + Clone + Drop>(
    rt: &R,
    folder: &str,
    table: &str,
) -> Result<(), Fail> {
    for line in table.lines() {
        if let Some((asked, want)) = line.split_once('→') {
            check_line(rt, folder, asked, want)?;
        }
    }
    Ok(())
}

/// Writes a file of the folder.
pub fn write_file<R: Files + AllocGlobal>(
    rt: &R,
    folder: &str,
    name: &str,
    text: &[u8],
) -> Result<(), Fail> {
    let path = format!(in rt.alloc(); "{folder}/{name}")?;
    fs::write(rt, path.as_str(), text)?;
    Ok(())
}

/// Writes the files of the folder.
fn write_files<R: Files + AllocGlobal>(rt: &R, folder: &str) -> Result<(), Fail> {
    for line in FILES.lines() {
        if let Some((name, text)) = line.split_once('→') {
            let text = in_lines(rt.alloc(), text)?;
            write_file(rt, folder, name, text.as_bytes())?;
        }
    }
    Ok(())
}

/// Makes the folder and its files, and returns its path. The number is that of the process.
pub fn make_folder<R: Files + Env + AllocGlobal>(
    rt: &R,
    name: &str,
    number: u32,
) -> Result<String, Fail> {
    let place = env::temp_dir(rt)?;
    let folder = format!(in rt.alloc(); "{}/pbx-{name}-{number}", place.as_str())?;
    fs::create_dir(rt, folder.as_str())?;
    write_files(rt, &folder)?;
    let inner = format!(in rt.alloc(); "{folder}/folder")?;
    fs::create_dir(rt, inner.as_str())?;
    let long = vec![in rt.alloc(); b'\n'; MOST_BYTES + 1]?;
    write_file(rt, &folder, "long", &long)?;
    Ok(folder)
}
