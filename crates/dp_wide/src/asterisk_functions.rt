//! The names of the functions that Asterisk has, after the Asterisk documentation's pages on functions.
ghost use Rattle.std.specs.Prelude.{◌≡◌};
ghost use Rattle.dp_wide.specs.AsteriskFunctions as spec;
ghost use Rattle.dp_wide.specs.Names.{is_text_of};

use crate::names::is_text_of;

/// The names that begin with A to C.
const FUNCTIONS_A_TO_C: [&[u8]; 35] = [
    b"AES_DECRYPT",
    b"AES_ENCRYPT",
    b"AGC",
    b"AGENT",
    b"AMI_CLIENT",
    b"ARRAY",
    b"AST_CONFIG",
    b"AST_SORCERY",
    b"AUDIOHOOK_INHERIT",
    b"BASE64_DECODE",
    b"BASE64_ENCODE",
    b"BASENAME",
    b"BLACKLIST",
    b"CALENDAR_BUSY",
    b"CALENDAR_EVENT",
    b"CALENDAR_QUERY",
    b"CALENDAR_QUERY_RESULT",
    b"CALENDAR_WRITE",
    b"CALLCOMPLETION",
    b"CALLERID",
    b"CALLERPRES",
    b"CDR",
    b"CDR_PROP",
    b"CHANNEL",
    b"CHANNELS",
    b"CHANNEL_EXISTS",
    b"CHECKSIPDOMAIN",
    b"CONFBRIDGE",
    b"CONFBRIDGE_CHANNELS",
    b"CONFBRIDGE_INFO",
    b"CONNECTEDLINE",
    b"CSV_QUOTE",
    b"CURL",
    b"CURLOPT",
    b"CUT",
];

/// The names that begin with D to E.
const FUNCTIONS_D_TO_E: [&[u8]; 24] = [
    b"DB",
    b"DB_DELETE",
    b"DB_EXISTS",
    b"DB_KEYCOUNT",
    b"DB_KEYS",
    b"DEC",
    b"DENOISE",
    b"DEVICE_STATE",
    b"DIALGROUP",
    b"DIALPLAN_EXISTS",
    b"DIRNAME",
    b"DUNDILOOKUP",
    b"DUNDIQUERY",
    b"DUNDIRESULT",
    b"ENUMLOOKUP",
    b"ENUMQUERY",
    b"ENUMRESULT",
    b"ENV",
    b"EVAL",
    b"EVAL_EXTEN",
    b"EXCEPTION",
    b"EXISTS",
    b"EXPORT",
    b"EXTENSION_STATE",
];

/// The names that begin with F to I.
const FUNCTIONS_F_TO_I: [&[u8]; 31] = [
    b"FAXOPT",
    b"FEATURE",
    b"FEATUREMAP",
    b"FIELDNUM",
    b"FIELDQTY",
    b"FILE",
    b"FILE_COUNT_LINE",
    b"FILE_FORMAT",
    b"FILTER",
    b"FRAME_DROP",
    b"FRAME_TRACE",
    b"GLOBAL",
    b"GROUP",
    b"GROUP_COUNT",
    b"GROUP_LIST",
    b"GROUP_MATCH_COUNT",
    b"HANGUPCAUSE",
    b"HANGUPCAUSE_KEYS",
    b"HASH",
    b"HASHKEYS",
    b"HINT",
    b"HOLD_INTERCEPT",
    b"IAXPEER",
    b"IAXVAR",
    b"ICONV",
    b"IF",
    b"IFMODULE",
    b"IFTIME",
    b"IMPORT",
    b"INC",
    b"ISNULL",
];

/// The names that begin with J to O.
const FUNCTIONS_J_TO_O: [&[u8]; 24] = [
    b"JABBER_RECEIVE",
    b"JABBER_STATUS",
    b"JITTERBUFFER",
    b"JSON_DECODE",
    b"KEYPADHASH",
    b"LEN",
    b"LISTFILTER",
    b"LOCAL",
    b"LOCAL_PEEK",
    b"LOCK",
    b"LTRIM",
    b"MAILBOX_EXISTS",
    b"MASTER_CHANNEL",
    b"MATH",
    b"MD5",
    b"MEETME_INFO",
    b"MESSAGE",
    b"MESSAGE_DATA",
    b"MINIVMACCOUNT",
    b"MINIVMCOUNTER",
    b"MIXMONITOR",
    b"MUTEAUDIO",
    b"ODBC",
    b"ODBC_FETCH",
];

/// The names that begin with P to Q.
const FUNCTIONS_P_TO_Q: [&[u8]; 28] = [
    b"PASSTHRU",
    b"PERIODIC_HOOK",
    b"PITCH_SHIFT",
    b"PJSIP_AOR",
    b"PJSIP_CONTACT",
    b"PJSIP_DIAL_CONTACTS",
    b"PJSIP_DTMF_MODE",
    b"PJSIP_ENDPOINT",
    b"PJSIP_HEADER",
    b"PJSIP_HEADERS",
    b"PJSIP_MEDIA_OFFER",
    b"PJSIP_MOH_PASSTHROUGH",
    b"PJSIP_PARSE_URI",
    b"PJSIP_SEND_SESSION_REFRESH",
    b"POP",
    b"PP_EACH_EXTENSION",
    b"PP_EACH_USER",
    b"PRESENCE_STATE",
    b"PUSH",
    b"QUEUE_EXISTS",
    b"QUEUE_GET_CHANNEL",
    b"QUEUE_MEMBER",
    b"QUEUE_MEMBER_COUNT",
    b"QUEUE_MEMBER_LIST",
    b"QUEUE_MEMBER_PENALTY",
    b"QUEUE_VARIABLES",
    b"QUEUE_WAITING_COUNT",
    b"QUOTE",
];

/// The names that begin with R to S.
const FUNCTIONS_R_TO_S: [&[u8]; 42] = [
    b"RAND",
    b"REALTIME",
    b"REALTIME_DESTROY",
    b"REALTIME_FIELD",
    b"REALTIME_HASH",
    b"REALTIME_STORE",
    b"REDIRECTING",
    b"REGEX",
    b"REPLACE",
    b"RTRIM",
    b"SAYFILES",
    b"SCRAMBLE",
    b"SET",
    b"SHA1",
    b"SHARED",
    b"SHELL",
    b"SHIFT",
    b"SIPCHANINFO",
    b"SIPPEER",
    b"SIP_HEADER",
    b"SIP_HEADERS",
    b"SMDI_MSG",
    b"SMDI_MSG_RETRIEVE",
    b"SORT",
    b"SPEECH",
    b"SPEECH_ENGINE",
    b"SPEECH_GRAMMAR",
    b"SPEECH_RESULTS_TYPE",
    b"SPEECH_SCORE",
    b"SPEECH_TEXT",
    b"SPRINTF",
    b"SQL_ESC",
    b"SQL_ESC_BACKSLASHES",
    b"SRVQUERY",
    b"SRVRESULT",
    b"STACK_PEEK",
    b"STAT",
    b"STRBETWEEN",
    b"STRFTIME",
    b"STRPTIME",
    b"STRREPLACE",
    b"SYSINFO",
];

/// The names that begin with T to Z.
const FUNCTIONS_T_TO_Z: [&[u8]; 17] = [
    b"TALK_DETECT",
    b"TESTTIME",
    b"TIMEOUT",
    b"TOLOWER",
    b"TOUPPER",
    b"TRIM",
    b"TRYLOCK",
    b"TXTCIDNAME",
    b"UNLOCK",
    b"UNSHIFT",
    b"URIDECODE",
    b"URIENCODE",
    b"VALID_EXTEN",
    b"VERSION",
    b"VMCOUNT",
    b"VM_INFO",
    b"VOLUME",
];

/// Whether a name is one of those from A to C.
#[tactic(auto, unfolding(crate::specs::AsteriskFunctions::functions_a_to_c))]
fn is_one_a_to_c(name: &[u8]) -> bool
    ensures { result ≡ is_text_of spec.functions_a_to_c name.now }
{
    is_text_of(&FUNCTIONS_A_TO_C, name)
}

/// Whether a name is one of those from D to E.
#[tactic(auto, unfolding(crate::specs::AsteriskFunctions::functions_d_to_e))]
fn is_one_d_to_e(name: &[u8]) -> bool
    ensures { result ≡ is_text_of spec.functions_d_to_e name.now }
{
    is_text_of(&FUNCTIONS_D_TO_E, name)
}

/// Whether a name is one of those from F to I.
#[tactic(auto, unfolding(crate::specs::AsteriskFunctions::functions_f_to_i))]
fn is_one_f_to_i(name: &[u8]) -> bool
    ensures { result ≡ is_text_of spec.functions_f_to_i name.now }
{
    is_text_of(&FUNCTIONS_F_TO_I, name)
}

/// Whether a name is one of those from J to O.
#[tactic(auto, unfolding(crate::specs::AsteriskFunctions::functions_j_to_o))]
fn is_one_j_to_o(name: &[u8]) -> bool
    ensures { result ≡ is_text_of spec.functions_j_to_o name.now }
{
    is_text_of(&FUNCTIONS_J_TO_O, name)
}

/// Whether a name is one of those from P to Q.
#[tactic(auto, unfolding(crate::specs::AsteriskFunctions::functions_p_to_q))]
fn is_one_p_to_q(name: &[u8]) -> bool
    ensures { result ≡ is_text_of spec.functions_p_to_q name.now }
{
    is_text_of(&FUNCTIONS_P_TO_Q, name)
}

/// Whether a name is one of those from R to S.
#[tactic(auto, unfolding(crate::specs::AsteriskFunctions::functions_r_to_s))]
fn is_one_r_to_s(name: &[u8]) -> bool
    ensures { result ≡ is_text_of spec.functions_r_to_s name.now }
{
    is_text_of(&FUNCTIONS_R_TO_S, name)
}

/// Whether a name is one of those from T to Z.
#[tactic(auto, unfolding(crate::specs::AsteriskFunctions::functions_t_to_z))]
fn is_one_t_to_z(name: &[u8]) -> bool
    ensures { result ≡ is_text_of spec.functions_t_to_z name.now }
{
    is_text_of(&FUNCTIONS_T_TO_Z, name)
}

/// Whether a name is that of a function of Asterisk 20, such as `DB` or `STRFTIME`. Names are compared byte by byte.
pub fn is_asterisk_function(name: &[u8]) -> bool
    ensures { result ≡ spec.is_asterisk_function name.now }
{
    is_one_a_to_c(name)
        || is_one_d_to_e(name)
        || is_one_f_to_i(name)
        || is_one_j_to_o(name)
        || is_one_p_to_q(name)
        || is_one_r_to_s(name)
        || is_one_t_to_z(name)
}
