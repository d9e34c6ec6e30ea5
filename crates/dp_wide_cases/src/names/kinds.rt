//! What each application of a list does, and what each variable of a list is.
use crate::names::calls::call_answers;
use dp_case_tables::Question;
use dp_machine::NoMemory;
use dp_wide::{is_given_by_asterisk, is_status};
use std::alloc::Global;
use std::test::Fail;

/// Names of applications, separated by blanks, and what all of them do.
pub(super) const KINDS: &str = r"
# Applications that go on, also while the channel is closing.
Ringing Progress Proceeding SayDigits SayNumber SayAlpha SayPhonetic SayUnixTime→goes on
Playtones StopPlaytones StartMusicOnHold StopMusicOnHold SetMusicOnHold→goes on
MixMonitor StopMixMonitor Monitor StopMonitor PauseMonitor UnpauseMonitor→goes on
UserEvent SendDTMF SendText SetAMAFlags Log DumpChan→goes on
ResetCDR NoCDR ForkCDR CELGenUserEvent QueueLog UpdateConfig→goes on
ChannelRedirect SoftHangup Originate System TrySystem→goes on
SIPAddHeader SIPRemoveHeader HangupCauseClear LookupCIDName LookupBlacklist SetCallerPres→goes on
JabberSend MessageSend→goes on
# Applications that run outside: the channel waits, and while it is closing the call ends.
VoiceMail VoiceMailMain VMAuthenticate Directory→waits
Read ReadExten Record ControlPlayback BackgroundDetect→waits
AGI DeadAGI EAGI ExternalIVR→waits
ConfBridge MeetMe Page Pickup PickupChan→waits
Park ParkedCall ParkAndAnnounce→waits
Authenticate FollowMe ChanSpy ExtenSpy→waits
SendFAX ReceiveFAX Echo Milliwatt MP3Player Festival→waits
MusicOnHold WaitMusicOnHold WaitForSilence WaitForNoise WaitForRing WaitUntil→waits
Transfer Bridge BridgeWait Stasis DISA→waits
PrivacyManager Zapateller Flash AMD NVFaxDetect Dictate→waits
TestClient TestServer AgentLogin AgentRequest Morsecode SMS Curl→waits
# Applications that end the call.
Busy Congestion Hangup→hangs up
# In any case.
ringing RINGING mixmonitor cELgENuSEReVENT sipaddheader→goes on
voicemail VOICEMAIL agi Agi disa sendfax mp3player sms→waits
busy BUSY cONGESTION→hangs up
# Applications of the program's own table, and names that are almost those of others.
NoOp Verbose Answer Playback noop→goes on
Wait→waits
While Ring Ringings VoiceMails ReadE Readx AG AGIs Parked MusicOn Busyy→hangs up
VoiceMail- Read. _AGI→hangs up
";

/// Names of variables, separated by blanks, and what all of them are.
pub(super) const VARIABLES: &str = r"
VMSTATUS READSTATUS AGISTATUS SYSTEMSTATUS PAGESTATUS RECORD_STATUS FAXSTATUS AMDSTATUS TRANSFERSTATUS→status
PARKEDAT PRIVACYMGRSTATUS ORIGINATE_STATUS CONFBRIDGE_RESULT LOOKUPSTATUS FAXERROR AMDCAUSE WAITSTATUS→status
AUTH_MAILBOX AUTH_CONTEXT DIRECTORY_RESULT READEXTENSTATUS CPLAYBACKSTATUS CPLAYBACKOFFSET BRIDGERESULT AGENT_STATUS→status
SENDTEXTSTATUS CHANNELREDIRECT_STATUS MESSAGE_SEND_STATUS MIXMONITOR_FILENAME LOOKUPBLSTATUS→status
UNIQUEID LINKEDID EPOCH DATETIME TIMESTAMP HANGUPCAUSE ANSWEREDTIME DIALEDTIME→given
DIALEDPEERNAME DIALEDPEERNUMBER CALLINGPRES SYSTEMNAME ENTITYID CHANNEL DB_RESULT→given
MEMBERINTERFACE MEMBERNAME QEHOLDTIME PLAYBACKSTATUS BACKGROUNDSTATUS BRIDGEPEER→given
GOSUB_RESULT HASHRESULT SIPCALLID SIPDOMAIN RECORDED_FILE→given
# Names that this program gives or sets, those in another case, and those that are almost others.
EXTEN CONTEXT PRIORITY DIALSTATUS QUEUESTATUS GOSUB_RETVAL INVALID_EXTEN READEXTENSTATU→none
vmstatus VmStatus uniqueid Channel→none
VMSTATU VMSTATUSS STATUS UNIQUEI UNIQUEIDS CHANNEL(name) RECORDSTATUS→none
→none
";

/// What an application does: the state after a step of it at `s`, and after one of it at `h`.
fn kind_of(alloc: Global, name: &str) -> Result<String, Fail> {
    let mut lines = String::new(alloc);
    write!(lines, "s,1,{name}(a,b)\nh,1,{name}(a,b)\n")?;
    call_answers(alloc, &lines, "step;?;hang;step;?")
}

/// The word for what an application does.
fn word_of(states: &str) -> &str {
    match states {
        "Ready s,2, Ready h,2" => "goes on",
        "Pause s,1, Ended h,1" => "waits",
        "Ready h,1, Ended h,1" => "hangs up",
        other => other,
    }
}

/// Adds a word, if it is not the one that is already there.
fn push_other(out: &mut String, name: &str, word: &str) -> Result<(), NoMemory> {
    if out.is_empty() {
        return out.push_str(word);
    }
    if out.as_str() == word {
        return Ok(());
    }
    write!(out, ", {name} {word}")
}

/// What all applications of some names do.
pub(super) struct KindOfNames;

impl Question for KindOfNames {
    fn answer(alloc: Global, asked: &str) -> Result<String, Fail> {
        let mut out = String::new(alloc);
        for name in asked.split(' ') {
            let states = kind_of(alloc, name)?;
            push_other(&mut out, name, word_of(&states))?;
        }
        Ok(out)
    }
}

/// What a variable is.
fn variable_kind(name: &str) -> &'static str {
    match (
        is_status(name.as_bytes()),
        is_given_by_asterisk(name.as_bytes()),
    ) {
        (true, false) => "status",
        (false, true) => "given",
        (false, false) => "none",
        (true, true) => "both",
    }
}

/// What all variables of some names are.
pub(super) struct Variable;

impl Question for Variable {
    fn answer(alloc: Global, asked: &str) -> Result<String, Fail> {
        let mut out = String::new(alloc);
        for name in asked.split(' ') {
            push_other(&mut out, name, variable_kind(name))?;
        }
        Ok(out)
    }
}
