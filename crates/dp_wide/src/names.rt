//! Names of applications and of variables, in lists, after the Asterisk documentation's application reference and its page on channel
//! variables.
ghost use Rattle.std.specs.Prelude.{◌≡◌, map};
ghost use Rattle.dp_conf.specs.Words as words;
ghost use Rattle.dp_wide.specs.Names as spec;

use dp_conf::same_word;

/// The variables in which applications report how they ended.
const STATUSES: [&[u8]; 30] = [
    b"VMSTATUS",
    b"READSTATUS",
    b"AGISTATUS",
    b"SYSTEMSTATUS",
    b"PAGESTATUS",
    b"RECORD_STATUS",
    b"FAXSTATUS",
    b"AMDSTATUS",
    b"TRANSFERSTATUS",
    b"PARKEDAT",
    b"PRIVACYMGRSTATUS",
    b"ORIGINATE_STATUS",
    b"CONFBRIDGE_RESULT",
    b"LOOKUPSTATUS",
    b"FAXERROR",
    b"AMDCAUSE",
    b"AUTH_MAILBOX",
    b"AUTH_CONTEXT",
    b"DIRECTORY_RESULT",
    b"READEXTENSTATUS",
    b"CPLAYBACKSTATUS",
    b"CPLAYBACKOFFSET",
    b"WAITSTATUS",
    b"BRIDGERESULT",
    b"AGENT_STATUS",
    b"SENDTEXTSTATUS",
    b"CHANNELREDIRECT_STATUS",
    b"MESSAGE_SEND_STATUS",
    b"MIXMONITOR_FILENAME",
    b"LOOKUPBLSTATUS",
];

/// The names to which Asterisk itself gives a value.
const GIVEN: [&[u8]; 26] = [
    b"UNIQUEID",
    b"LINKEDID",
    b"EPOCH",
    b"DATETIME",
    b"TIMESTAMP",
    b"HANGUPCAUSE",
    b"ANSWEREDTIME",
    b"DIALEDTIME",
    b"DIALEDPEERNAME",
    b"DIALEDPEERNUMBER",
    b"CALLINGPRES",
    b"SYSTEMNAME",
    b"ENTITYID",
    b"CHANNEL",
    b"DB_RESULT",
    b"MEMBERINTERFACE",
    b"MEMBERNAME",
    b"QEHOLDTIME",
    b"PLAYBACKSTATUS",
    b"BACKGROUNDSTATUS",
    b"BRIDGEPEER",
    b"GOSUB_RESULT",
    b"HASHRESULT",
    b"SIPCALLID",
    b"SIPDOMAIN",
    b"RECORDED_FILE",
];

/// Whether a name is one of some words, in any case.
pub(crate) fn is_word_of(words: &[&[u8]], name: &[u8]) -> bool
    ensures { result ≡ spec.is_word_of (map (λ word. word.now) words.now) name.now }
{
    words.iter().any(|word| same_word(name, word))
}

/// Whether two texts have the same bytes.
pub(crate) fn same_text(a: &[u8], b: &[u8]) -> bool
    ensures { result ≡ words.same_text a.now b.now }
{
    a == b
}

/// Whether a name is one of some texts, byte by byte.
pub(crate) fn is_text_of(texts: &[&[u8]], name: &[u8]) -> bool
    ensures { result ≡ spec.is_text_of (map (λ text. text.now) texts.now) name.now }
{
    texts.iter().any(|text| same_text(name, text))
}

/// Whether a variable is one in which an application that this program does not run reports how it ended, such as `VMSTATUS`, after the
/// pages of the Asterisk documentation's application reference on these applications. Names are compared byte by byte.
#[tactic(auto, unfolding(crate::specs::Names::status_names))]
pub fn is_status(name: &[u8]) -> bool
    ensures { result ≡ spec.is_status name.now }
{
    is_text_of(&STATUSES, name)
}

/// Whether a name is one to which Asterisk itself gives a value, but this program does not, such as `UNIQUEID`, after the Asterisk
/// documentation's page on channel variables. Names are compared byte by byte.
#[tactic(auto, unfolding(crate::specs::Names::given_names))]
pub fn is_given_by_asterisk(name: &[u8]) -> bool
    ensures { result ≡ spec.is_given_by_asterisk name.now }
{
    is_text_of(&GIVEN, name)
}
