//! Calls to applications that go on, that run outside and that end a call, in a machine over a table in which they come before the
//! program's own.
use crate::names::machine_of;
use dp_app::With;
use dp_case_tables::{Question, bytes_of, push_bytes};
use dp_machine::{Event, Machine, NoMemory, Text};
use dp_machine_fixture::call;
use dp_table::StandardApps;
use dp_wide::{Busy, Congestion, WithGoing, WithOutside};
use std::alloc::Global;
use std::str;
use std::test::Fail;

/// The program's own table, after those that go on, those that run outside and those that end a call.
type NamesBefore = WithGoing<WithOutside<With<Busy, With<Congestion, StandardApps>>>>;

/// Lines of the dialplan, separated by `
/// `, and what happens to a call to `s`, separated by `;`. The words are `step`, `time` for a time-out, `hang` for a hang-up, `NAME=VALUE`
/// for a variable that is set, `$NAME` for one that is shown, and `?` for the state.
pub(super) const STORIES: &str = r"
# An application that goes on leaves its status.
s,1,System(ls)¦SYSTEMSTATUS=x;step;?;$SYSTEMSTATUS→Ready s,2, SYSTEMSTATUS=x
s,1,Originate(a,b,c)¦ORIGINATE_STATUS=x;VMSTATUS=y;step;?;$ORIGINATE_STATUS;$VMSTATUS→Ready s,2, ORIGINATE_STATUS=x, VMSTATUS=y
s,1,lookupblacklist()¦LOOKUPSTATUS=x;step;?;$LOOKUPSTATUS→Ready s,2, LOOKUPSTATUS=x
# An application that runs outside unsets its status, and no other. What is set while it waits is there when it goes on.
s,1,VoiceMail(1)¦VMSTATUS=SUCCESS;AGISTATUS=x;step;?;$VMSTATUS;$AGISTATUS→Pause s,1, VMSTATUS=, AGISTATUS=x
s,1,VoiceMail(1)¦VMSTATUS=SUCCESS;step;VMSTATUS=FAILED;time;?;$VMSTATUS→Ready s,2, VMSTATUS=FAILED
s,1,VoiceMail(1)¦VMSTATUS=SUCCESS;step;time;?;$VMSTATUS→Ready s,2, VMSTATUS=
s,1,VoiceMail()\ns,2,VoiceMail()¦step;VMSTATUS=FAILED;time;step;?;$VMSTATUS→Pause s,2, VMSTATUS=
s,1,VoiceMail¦step;step;?→Pause s,1
s,1,VoiceMailMain()¦VMSTATUS=x;step;$VMSTATUS→VMSTATUS=x
s,1,AGI(a.py)¦AGISTATUS=x;step;$AGISTATUS→AGISTATUS=
s,1,DeadAGI(a.py)¦AGISTATUS=x;step;$AGISTATUS→AGISTATUS=
s,1,eagi(a.py)¦AGISTATUS=x;step;$AGISTATUS→AGISTATUS=
s,1,Page(SIP/1&SIP/2)¦PAGESTATUS=x;step;$PAGESTATUS→PAGESTATUS=
s,1,Record(a:wav)¦RECORD_STATUS=x;RECORDED_FILE=y;step;$RECORD_STATUS;$RECORDED_FILE→RECORD_STATUS=, RECORDED_FILE=y
s,1,SendFAX(a.tif)¦FAXSTATUS=x;FAXERROR=y;step;$FAXSTATUS;$FAXERROR→FAXSTATUS=, FAXERROR=
s,1,ReceiveFAX(a.tif)¦FAXSTATUS=x;FAXERROR=y;step;$FAXSTATUS;$FAXERROR→FAXSTATUS=, FAXERROR=
s,1,AMD()¦AMDSTATUS=x;AMDCAUSE=y;step;$AMDSTATUS;$AMDCAUSE→AMDSTATUS=, AMDCAUSE=
s,1,WaitForSilence(1000)¦WAITSTATUS=x;step;$WAITSTATUS→WAITSTATUS=
s,1,WaitForNoise(1000)¦WAITSTATUS=x;step;$WAITSTATUS→WAITSTATUS=
s,1,WaitForRing(5)¦WAITSTATUS=x;step;$WAITSTATUS→WAITSTATUS=x
s,1,VMAuthenticate(100@default)¦AUTH_MAILBOX=x;AUTH_CONTEXT=y;step;$AUTH_MAILBOX;$AUTH_CONTEXT→AUTH_MAILBOX=, AUTH_CONTEXT=
s,1,Directory(default)¦DIRECTORY_RESULT=x;step;$DIRECTORY_RESULT→DIRECTORY_RESULT=
s,1,ControlPlayback(a)¦CPLAYBACKSTATUS=x;CPLAYBACKOFFSET=y;step;$CPLAYBACKSTATUS;$CPLAYBACKOFFSET→CPLAYBACKSTATUS=, CPLAYBACKOFFSET=
s,1,Bridge(SIP/1)¦BRIDGERESULT=x;step;$BRIDGERESULT→BRIDGERESULT=
s,1,BridgeWait()¦BRIDGERESULT=x;step;$BRIDGERESULT→BRIDGERESULT=x
s,1,AgentRequest(7)¦AGENT_STATUS=x;step;$AGENT_STATUS→AGENT_STATUS=
s,1,Transfer(200)¦TRANSFERSTATUS=x;step;$TRANSFERSTATUS→TRANSFERSTATUS=
s,1,Park()¦PARKEDAT=x;step;$PARKEDAT→PARKEDAT=
s,1,ParkAndAnnounce(a)¦PARKEDAT=x;step;$PARKEDAT→PARKEDAT=
s,1,ParkedCall(701)¦PARKEDAT=x;step;$PARKEDAT→PARKEDAT=x
s,1,PrivacyManager()¦PRIVACYMGRSTATUS=x;step;$PRIVACYMGRSTATUS→PRIVACYMGRSTATUS=
s,1,ConfBridge(1)¦CONFBRIDGE_RESULT=x;step;$CONFBRIDGE_RESULT→CONFBRIDGE_RESULT=
# Names of variables are compared byte by byte.
s,1,AGI(a.py)¦agistatus=x;step;$agistatus→agistatus=x
# `Read` and `ReadExten` also unset the variable of their first argument, and no other application does.
s,1,Read(X,beep)¦X=5;Y=6;READSTATUS=OK;step;?;$X;$Y;$READSTATUS→Pause s,1, X=, Y=6, READSTATUS=
s,1,Read(X)¦step;X=42;READSTATUS=OK;time;?;$X;$READSTATUS→Ready s,2, X=42, READSTATUS=OK
s,1,rEAD( X ,X2)¦X=5;X2=6;step;$X;$X2→X=, X2=6
s,1,Read(${NAME},beep)¦NAME=X;X=5;step;$X;$NAME→X=, NAME=X
s,1,Read(X(1,2),beep)¦X(1,2)=5;X=6;step;$X(1,2);$X→X(1,2)=, X=6
s,1,Read(,X)¦X=5;READSTATUS=OK;step;?;$X;$READSTATUS→Pause s,1, X=5, READSTATUS=
s,1,Read()¦X=5;step;?;$X→Pause s,1, X=5
s,1,Read(Z)¦X=5;step;?;$Z;$X→Pause s,1, Z=, X=5
s,1,ReadExten(X)¦X=5;READSTATUS=OK;READEXTENSTATUS=OK;step;$X;$READSTATUS;$READEXTENSTATUS→X=, READSTATUS=OK, READEXTENSTATUS=
s,1,readexten(X,beep)¦step;X=42;READEXTENSTATUS=OK;time;?;$X;$READEXTENSTATUS→Ready s,2, X=42, READEXTENSTATUS=OK
s,1,Record(X)¦X=5;step;$X→X=5
# The name has no value as a local of any frame either.
s,1,Gosub(in,1)\nin,1,Set(LOCAL(VMSTATUS)=a)\nin,2,Gosub(on,1)\non,1,Set(LOCAL(VMSTATUS)=b)\non,2,VoiceMail(1)¦VMSTATUS=c;step;step;step;step;$VMSTATUS;step;?;$VMSTATUS→VMSTATUS=b, Pause on,2, VMSTATUS=
s,1,Gosub(in,1)\nin,1,Set(LOCAL(X)=a)\nin,2,Read(X)\nin,3,Return()¦X=c;step;step;step;?;$X;time;step;?;$X→Pause in,2, X=, Ready s,2, X=
# While the channel is closing the call ends, and nothing changes.
s,1,NoOp()\nh,1,VoiceMail(1)¦VMSTATUS=x;hang;?;step;?;$VMSTATUS→Ready h,1, Ended h,1, VMSTATUS=x
s,1,NoOp()\nh,1,AGI(a.py)¦AGISTATUS=x;hang;step;?;$AGISTATUS→Ended h,1, AGISTATUS=x
s,1,NoOp()\nh,1,Read(X)¦X=5;hang;step;?;$X→Ended h,1, X=5
s,1,AGI(a.py)\nh,1,NoOp()¦step;hang;?→Ready h,1
# A busy tone ends the call.
s,1,Busy(10)\nh,1,NoOp()¦X=5;step;?;$X→Ready h,1, X=5
s,1,Congestion()¦X=5;step;?;$X→Ended s,1, X=5
s,1,NoOp()\nh,1,Busy()¦hang;step;?→Ended h,1
";

/// Adds how a channel waits, and its place.
fn push_state(out: &mut String, machine: &Machine<NamesBefore>) -> Result<(), NoMemory> {
    match (machine.phase(1), machine.place(1)) {
        (Some(phase), Some(place)) => {
            write!(out, "{phase:?} {},{}", place.exten, place.priority)
        }
        _ => out.push_str("no channel"),
    }
}

/// Adds the value of a name.
fn push_value(
    out: &mut String,
    alloc: Global,
    machine: &Machine<NamesBefore>,
    name: &str,
) -> Result<(), NoMemory> {
    write!(out, "{name}=")?;
    push_bytes(out, &machine.value(alloc, 1, name.as_bytes())?)
}

/// Adds the answer to a word that is a question.
fn push_answer(
    out: &mut String,
    alloc: Global,
    machine: &Machine<NamesBefore>,
    word: &str,
) -> Result<(), NoMemory> {
    if !out.is_empty() {
        out.push_str(", ")?;
    }
    match word.strip_prefix('$') {
        Some(name) => push_value(out, alloc, machine, name),
        None => push_state(out, machine),
    }
}

/// The event that sets a name.
fn set_event(alloc: Global, name: &str, value: &str) -> Result<Event, NoMemory> {
    let name = Text::copy_of(alloc, name.as_bytes())?;
    let value = Text::copy_of(alloc, value.as_bytes())?;
    Ok(Event::Assign {
        channel: Some(1),
        name,
        value,
    })
}

/// The event of a word, or None if the word is a question.
fn event_of(alloc: Global, word: &str) -> Result<Option<Event>, NoMemory> {
    match word {
        "step" => Ok(Some(Event::Step { channel: 1 })),
        "time" => Ok(Some(Event::Timeout { channel: 1 })),
        "hang" => Ok(Some(Event::Hangup { channel: 1 })),
        _ => match word.split_once('=') {
            Some((name, value)) => Ok(Some(set_event(alloc, name, value)?)),
            None => Ok(None),
        },
    }
}

/// Does what a word says.
fn do_word(
    out: &mut String,
    alloc: Global,
    machine: &mut Machine<NamesBefore>,
    word: &str,
) -> Result<(), NoMemory> {
    match event_of(alloc, word)? {
        Some(event) => {
            machine.apply(alloc, event)?;
            Ok(())
        }
        None => push_answer(out, alloc, machine, word),
    }
}

fn do_words(
    out: &mut String,
    alloc: Global,
    machine: &mut Machine<NamesBefore>,
    words: &str,
) -> Result<(), NoMemory> {
    machine.apply(alloc, call(alloc, b"main", b"s", b"")?)?;
    for word in words.split(';') {
        do_word(out, alloc, machine, word)?;
    }
    Ok(())
}

/// The answers to the words on a call.
pub(super) fn call_answers(alloc: Global, lines: &str, words: &str) -> Result<String, Fail> {
    let mut machine: Machine<NamesBefore> = machine_of(alloc, lines)?;
    let mut out = String::new(alloc);
    do_words(&mut out, alloc, &mut machine, words)?;
    Ok(out)
}

/// The course of a call.
pub(super) struct Story;

impl Question for Story {
    fn answer(alloc: Global, asked: &str) -> Result<String, Fail> {
        let (lines, words) = asked.split_once('¦').ok_or("no words")?;
        let lines = bytes_of(alloc, lines)?;
        call_answers(alloc, str::from_utf8(&lines)?, words)
    }
}
