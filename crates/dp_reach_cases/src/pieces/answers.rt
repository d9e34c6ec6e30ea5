//! Reports on the calls that come in at a context, worked out by hand from the rules.
use crate::pieces::hidden::HiddenApps;
use dp_answer::{Ask, report_on};
use dp_case_tables::{Question, text_of};
use dp_closed::DutyTable;
use dp_plan::Dialplan;
use dp_queue::Queues;
use dp_table::StandardApps;
use std::alloc::Global;
use std::test::Fail;

/// A dialplan, its queues, the context, the target, where other calls come in, and the bytes of extensions, of callers' numbers and of what
/// names are set to from outside, with a bar between each; empty ones are not given, and those at the end may be missing. The answer is the status and the text, in which a `¶` is a line feed.
pub(super) struct Answers;

/// The dialplans and queues by their names. A `¶` is a line feed.
const FILES: &str = r#"
doors→[outside]¶exten => s,1,Goto(hall,${EXTEN},1)¶[hall]¶exten => s,1,Hangup()¶exten => 9,1,Goto(safe,s,1)¶[safe]¶exten => s,1,NoOp(no way)¶
jumps→[in]¶exten => _X.,1,Set(where=${EXTEN})¶ same => n,Goto(${where},s,1)¶[desk]¶exten => s,1,Macro(ring)¶[7]¶exten => s,1,Hangup()¶
ways→[main]¶exten => s,1,Queue(help)¶[out]¶exten => 1,1,Hangup()¶
wayout→[help]¶context = out¶
ends→[in]¶exten => s,1,Goto(main,s,1)¶[main]¶exten => s,1,WaitExten(5)¶exten => h,1,Goto(late,s,1)¶exten => i,1,Goto(lost,s,1)¶[late]¶exten => s,1,NoOp()¶[lost]¶exten => s,1,NoOp()¶
empty→
facts→[in]¶exten => s,1,Goto(${where},s,1)¶[desk]¶exten => s,1,Hangup()¶
hidden→[in]¶exten => s,1,Goto(hall,s,1)¶[hall]¶exten => s,1,Playback(hello)¶[desk]¶exten => s,1,Hangup()¶
back→[last]¶exten => s,1,NoOp()¶ same => n,Hangup()¶[lost]¶exten => s,1,Hangup()¶[first]¶exten => 2,1,Hangup()¶exten => _1X,1,Goto(last,s,1)¶
shared→[in]¶exten => 5,1,Hangup()¶include => more¶[other]¶exten => 7,1,Hangup()¶[more]¶exten => 7,1,Hangup()¶exten => 5,2,NoOp()¶
routes→[globals]¶CARRIER=PJSIP/carrier¶RECEPTION=200¶[from-carrier]¶exten => _X.,1,Set(CALLERNUMBER=${CALLERID(num)})¶ same => n,Goto(reception,s,1)¶exten => _+X.,1,Goto(reception,s,1)¶[reception]¶exten => s,1,Answer()¶ same => n,Set(tries=0)¶ same => n(menu),Background(welcome)¶ same => n,WaitExten(5)¶exten => 1,1,Gosub(ring,s,1(${RECEPTION},20))¶ same => n,Goto(desk,1)¶exten => 2,1,Goto(internal,210,1)¶exten => i,1,Set(tries=$[${tries} + 1])¶ same => n,GotoIf($[${tries} < 2]?s,menu)¶ same => n,Goto(desk,1)¶exten => t,1,Goto(desk,1)¶exten => desk,1,Dial(PJSIP/${RECEPTION},30)¶ same => n,Hangup()¶exten => h,1,NoOp(${CALLERNUMBER} left)¶include => lobby-features¶[lobby-features]¶exten => *60,1,Answer()¶ same => n,Playback(opening-hours)¶ same => n,Hangup()¶exten => _*2XX,1,Goto(internal,${EXTEN:1},1)¶[from-lobby]¶include => internal¶include => lobby-features¶[internal]¶exten => _[23]XX,1,Gosub(ring,s,1(${EXTEN},20))¶ same => n,GotoIf($["${DIALSTATUS}" = "BUSY"]?busy)¶ same => n,Playback(not-there)¶ same => n,Hangup()¶ same => n(busy),Playback(busy)¶ same => n,Hangup()¶[ring]¶exten => s,1,Dial(PJSIP/${ARG1},${ARG2})¶ same => n,Return()¶[from-staff]¶include => internal¶include => national¶include => international¶[national]¶exten => _0ZX.,1,Dial(${CARRIER}/${EXTEN},60)¶ same => n,Hangup()¶[international]¶exten => _00ZX.,1,Set(CALLERID(num)=+4989123450)¶ same => n,Dial(${CARRIER}/${EXTEN},60)¶ same => n,Hangup()¶
opened→[globals]¶CARRIER=PJSIP/carrier¶RECEPTION=200¶[from-carrier]¶exten => _X.,1,Set(CALLERNUMBER=${CALLERID(num)})¶ same => n,Goto(reception,s,1)¶exten => _+X.,1,Goto(reception,s,1)¶[reception]¶exten => s,1,Answer()¶ same => n,Set(tries=0)¶ same => n(menu),Background(welcome)¶ same => n,WaitExten(5)¶exten => 1,1,Gosub(ring,s,1(${RECEPTION},20))¶ same => n,Goto(desk,1)¶exten => 2,1,Goto(internal,210,1)¶exten => i,1,Set(tries=$[${tries} + 1])¶ same => n,GotoIf($[${tries} < 2]?s,menu)¶ same => n,Goto(desk,1)¶exten => t,1,Goto(desk,1)¶exten => desk,1,Dial(PJSIP/${RECEPTION},30)¶ same => n,Hangup()¶exten => h,1,NoOp(${CALLERNUMBER} left)¶include => lobby-features¶[lobby-features]¶exten => *60,1,Answer()¶ same => n,Playback(opening-hours)¶ same => n,Hangup()¶exten => _*2XX,1,Goto(internal,${EXTEN:1},1)¶exten => _**X.,1,Goto(from-staff,${EXTEN:2},1)¶[from-lobby]¶include => internal¶include => lobby-features¶[internal]¶exten => _[23]XX,1,Gosub(ring,s,1(${EXTEN},20))¶ same => n,GotoIf($["${DIALSTATUS}" = "BUSY"]?busy)¶ same => n,Playback(not-there)¶ same => n,Hangup()¶ same => n(busy),Playback(busy)¶ same => n,Hangup()¶[ring]¶exten => s,1,Dial(PJSIP/${ARG1},${ARG2})¶ same => n,Return()¶[from-staff]¶include => internal¶include => national¶include => international¶[national]¶exten => _0ZX.,1,Dial(${CARRIER}/${EXTEN},60)¶ same => n,Hangup()¶[international]¶exten => _00ZX.,1,Set(CALLERID(num)=+4989123450)¶ same => n,Dial(${CARRIER}/${EXTEN},60)¶ same => n,Hangup()¶
"#;

/// The text of a file, or an empty text if there is none.
fn file_of(alloc: Global, name: &str) -> Result<String, Fail> {
    for line in FILES.lines() {
        if let Some((found, text)) = line.split_once('→') {
            if found == name {
                return lines_of(alloc, text);
            }
        }
    }
    text_of(alloc, "")
}

/// A text with its line feeds.
fn lines_of(alloc: Global, text: &str) -> Result<String, Fail> {
    let mut out = String::new(alloc);
    for line in text.split('¶') {
        out.push_str(line)?;
        out.push('\n')?;
    }
    Ok(out)
}

/// The question.
fn given_word(word: Option<&str>) -> Option<&[u8]> {
    let word = word.unwrap_or("");
    if word.is_empty() {
        return None;
    }
    Some(word.as_bytes())
}

/// The queues of a file, if one is named.
fn queues_of(alloc: Global, name: &str) -> Result<Queues, Fail> {
    if name.is_empty() {
        return Ok(Queues::none(alloc));
    }
    let text = file_of(alloc, name)?;
    Queues::load(alloc, text.as_bytes()).map_err(|_| Fail::from("no queues"))
}

/// What is asked of a dialplan and its queues.
#[derive(Drop)]
pub(super) struct QuestionParts<'a> {
    pub(super) plan: Dialplan,
    pub(super) queues: Queues,
    pub(super) ask: Ask<'a>,
}

/// What a case asks, as `Answers` says.
pub(super) fn asked_of(alloc: Global, asked: &str) -> Result<QuestionParts<'_>, Fail> {
    let mut words = asked.split('|');
    let text = file_of(alloc, words.next().unwrap_or(""))?;
    let queues = queues_of(alloc, words.next().unwrap_or(""))?;
    let Ok((plan, _)) = Dialplan::load(alloc, text.as_bytes()) else {
        return Err(Fail::from("no dialplan"));
    };
    let ask = Ask {
        context: words.next().unwrap_or("").as_bytes(),
        target: given_word(words.next()),
        starts: given_word(words.next()),
        exten: given_word(words.next()),
        caller: given_word(words.next()),
        facts: given_word(words.next()),
    };
    Ok(QuestionParts { plan, queues, ask })
}

/// The status and the text of the report over a table.
fn report_over<T: DutyTable>(alloc: Global, asked: &str) -> Result<String, Fail> {
    let asked = asked_of(alloc, asked)?;
    let report = report_on::<T>(alloc, &asked.plan, &asked.queues, &asked.ask)?;
    let mut out = String::new(alloc);
    write!(out, "{} ", report.status)?;
    for byte in &report.text {
        out.push(if *byte == b'\n' {
            '¶'
        } else {
            char::from(*byte)
        })?;
    }
    Ok(out)
}

impl Question for Answers {
    fn answer(alloc: Global, asked: &str) -> Result<String, Fail> {
        report_over::<StandardApps>(alloc, asked)
    }
}

/// The same over a table of which nothing is known of what `Playback` does.
pub(super) struct HiddenAnswers;

impl Question for HiddenAnswers {
    fn answer(alloc: Global, asked: &str) -> Result<String, Fail> {
        report_over::<HiddenApps>(alloc, asked)
    }
}

pub(super) const ANSWERS: &str = r#"
# Each entry that a call may run, by contexts, with the way there.
doors||outside||||→0 assumed: extensions of {0-9A-Za-z*#+_.}*, callers' numbers of {0-9+}*, calls come in at every context¶outside,s,1 Goto(hall,${EXTEN},1)¶  outside,{0-9A-Za-z*#+_.}*  a call comes in¶hall,s,1 Hangup()¶  outside,{0-9A-Za-z*#+_.}*  a call comes in¶  outside,s,1 Goto(hall,${EXTEN},1) -> hall,s¶ok 2 of 4 entries in 2 of 3 contexts¶
empty||main||||→1 
# One context: no way there, a way, and what may come in.
doors||outside|safe|||→0 assumed: extensions of {0-9A-Za-z*#+_.}*, callers' numbers of {0-9+}*, calls come in at every context¶unreachable: safe¶
doors||hall|safe|||→1 assumed: extensions of {0-9A-Za-z*#+_.}*, callers' numbers of {0-9+}*, calls come in at every context¶may reach: safe,s,1 NoOp(no way)  e.g. extension s¶  hall,{0-9A-Za-z*#+_.}*  a call comes in¶  hall,9,1 Goto(safe,s,1) -> safe,s¶every jump that lets a call in there:¶  hall,9,1 Goto(safe,s,1)¶
doors||safe|safe|||→1 assumed: extensions of {0-9A-Za-z*#+_.}*, callers' numbers of {0-9+}*, calls come in at every context¶may reach: safe,s,1 NoOp(no way)  e.g. extension s¶  safe,{0-9A-Za-z*#+_.}*  a call comes in¶
doors||outside|safe|hall|0-9|7→0 assumed: extensions of {0-9}*, callers' numbers of {7}*, calls come in at outside hall¶unreachable: safe¶
doors||hall|safe||0-8a-cx|→0 assumed: extensions of {0-8a-cx}*, callers' numbers of {0-9+}*, calls come in at every context¶unreachable: safe¶
doors||outside|hall||s-|→1 assumed: extensions of {s-}*, callers' numbers of {0-9+}*, calls come in at every context¶may reach: hall,s,1 Hangup()  e.g. extension s¶  outside,{s-}*  a call comes in¶  outside,s,1 Goto(hall,${EXTEN},1) -> hall,{s-}*¶every jump that lets a call in there:¶  outside,s,1 Goto(hall,${EXTEN},1)¶
# A jump to a computed context, and an application that does not exist.
jumps||in|||0-9|→0 assumed: extensions of {0-9}*, callers' numbers of {0-9+}*, calls come in at every context¶in,_X.,1 Set(where=${EXTEN})¶in,_X.,2 Goto(${where},s,1)¶  in,{0-9}*  a call comes in¶7,s,1 Hangup()¶  in,{0-9}*  a call comes in¶  in,_X.,2 Goto(${where},s,1) -> 7,s¶may lead to any context: in,_X.,2 Goto(${where},s,1)¶ok 3 of 4 entries in 2 of 3 contexts¶
jumps||in|desk|||→1 assumed: extensions of {0-9A-Za-z*#+_.}*, callers' numbers of {0-9+}*, calls come in at every context¶may reach: desk,s,1 Macro(ring)  e.g. extension s¶  in,{0-9A-Za-z*#+_.}*  a call comes in¶  in,_X.,2 Goto(${where},s,1) -> desk,s¶every jump that lets a call in there:¶  in,_X.,2 Goto(${where},s,1)¶may lead to any context: in,_X.,2 Goto(${where},s,1)¶no such application: desk,s,1 Macro(ring)¶of what an exchange does that has this application, nothing is claimed¶
# A way out of a queue, if it has one.
ways||main|out|||→0 assumed: extensions of {0-9A-Za-z*#+_.}*, callers' numbers of {0-9+}*, calls come in at every context¶unreachable: out¶
ways|wayout|main|out|||→1 assumed: extensions of {0-9A-Za-z*#+_.}*, callers' numbers of {0-9+}*, calls come in at every context¶may reach: out,1,1 Hangup()  e.g. extension 1¶  main,{0-9A-Za-z*#+_.}*  a call comes in¶  main,s,1 Queue(help) -> out,{0-9A-D*#}¶every jump that lets a call in there:¶  main,s,1 Queue(help)¶
# A call ends at the extension `h`, and digits that match nothing lead to `i`.
ends||in|late|||→1 assumed: extensions of {0-9A-Za-z*#+_.}*, callers' numbers of {0-9+}*, calls come in at every context¶may reach: late,s,1 NoOp()  e.g. extension s¶  in,{0-9A-Za-z*#+_.}*  a call comes in¶  in,s,1 Goto(main,s,1) -> main,s¶  the call ends -> main,h¶  main,h,1 Goto(late,s,1) -> late,s¶every jump that lets a call in there:¶  main,h,1 Goto(late,s,1)¶
ends||in|lost|||→1 assumed: extensions of {0-9A-Za-z*#+_.}*, callers' numbers of {0-9+}*, calls come in at every context¶may reach: lost,s,1 NoOp()  e.g. extension s¶  in,{0-9A-Za-z*#+_.}*  a call comes in¶  in,s,1 Goto(main,s,1) -> main,s¶  no extension matches -> main,i¶  main,i,1 Goto(lost,s,1) -> lost,s¶every jump that lets a call in there:¶  main,i,1 Goto(lost,s,1)¶
# One more line in the sample of routes opens a way of four places.
opened||from-carrier|international|||→1 assumed: extensions of {0-9A-Za-z*#+_.}*, callers' numbers of {0-9+}*, calls come in at every context¶may reach: international,_00ZX.,1 Set(CALLERID(num)=+4989123450)  e.g. extension 00111¶  from-carrier,{0-9A-Za-z*#+_.}*  a call comes in¶  from-carrier,_X.,2 Goto(reception,s,1) -> reception,s¶  reception,s,3 Background(welcome) -> reception,{0-9A-D*#}*¶  lobby-features,_**X.,1 Goto(from-staff,${EXTEN:2},1) -> from-staff,{0-9}{0-9A-D*#}*¶every jump that lets a call in there:¶  lobby-features,_**X.,1 Goto(from-staff,${EXTEN:2},1)¶
# Names of contexts that do not exist, and files with a fault.
doors||kitchen||||→1 
doors||outside|kitchen|a,hall||→1 
doors||hal||||→1 
routes||from-carrier|international|||→0 assumed: extensions of {0-9A-Za-z*#+_.}*, callers' numbers of {0-9+}*, calls come in at every context¶unreachable: international¶
# What names are set to from outside.
facts||in|desk|in|s|7→0 assumed: extensions of {s}*, callers' numbers of {7}*, calls come in at in in¶unreachable: desk¶may lead to any context: in,s,1 Goto(${where},s,1)¶
facts||in|desk|in|s|7|a-z→1 assumed: extensions of {s}*, callers' numbers of {7}*, values from outside of {a-z}*, calls come in at in in¶may reach: desk,s,1 Hangup()  e.g. extension s¶  in,{s}*  a call comes in¶  in,s,1 Goto(${where},s,1) -> desk,s¶every jump that lets a call in there:¶  in,s,1 Goto(${where},s,1)¶may lead to any context: in,s,1 Goto(${where},s,1)¶
hidden||in|desk|||→0 assumed: extensions of {0-9A-Za-z*#+_.}*, callers' numbers of {0-9+}*, calls come in at every context¶unreachable: desk¶
"#;

/// Without a proof a call may run each entry.
pub(super) const HIDDEN_ANSWERS: &str = r#"
hidden||in||||→0 assumed: extensions of {0-9A-Za-z*#+_.}*, callers' numbers of {0-9+}*, calls come in at every context¶no proof was found within the bounds: a call may run each entry¶in,s,1 Goto(hall,s,1)¶  in,{0-9A-Za-z*#+_.}*  a call comes in¶hall,s,1 Playback(hello)¶  in,{0-9A-Za-z*#+_.}*  a call comes in¶  in,s,1 Goto(hall,s,1) -> hall,s¶desk,s,1 Hangup()¶may do anything: hall,s,1 Playback(hello)¶ok 3 of 3 entries in 3 of 3 contexts¶
hidden||desk|in|desk|s|7→0 assumed: extensions of {s}*, callers' numbers of {7}*, calls come in at desk desk¶unreachable: in¶
hidden||desk|in||s|7→1 assumed: extensions of {s}*, callers' numbers of {7}*, calls come in at every context¶no proof was found within the bounds: a call may run each entry¶may reach: in¶may do anything: hall,s,1 Playback(hello)¶
"#;
