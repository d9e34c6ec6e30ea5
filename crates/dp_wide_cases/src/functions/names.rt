//! Plain names, functions that are never known, and which names are functions, worked out by hand from the rules.

/// A plain name is known unless something outside would have set it.
pub(super) const NAMES: &str = r"
${NOSUCH}.→.
set A=1 ; ${A}→1
${EXTEN}→9-100-7
# Of the name of the channel only what something has set.
${CHANNEL}→ unknown CHANNEL
${CHANNEL:0:3}→ unknown CHANNEL
set CHANNEL=SIP/1-01 ; ${CHANNEL}→SIP/1-01
set CHANNEL=SIP/1-01 ; ${CHANNEL:0:3}${CUT(CHANNEL,-,2)}→SIP01
set CHANNEL= ; ${CHANNEL}.→.
global CHANNEL=SIP/2 ; ${CHANNEL}→SIP/2
global CHANNEL=SIP/2 ; set CHANNEL=SIP/1 ; ${CHANNEL}→SIP/1
set CHANNEL=SIP/1 ; gone ; ${CHANNEL}→ unknown CHANNEL
${CUT(CHANNEL,-,2)}→ unknown CUT(CHANNEL,-,2)
set EXTEN=5 ; set CONTEXT=6 ; set PRIORITY=7 ; ${EXTEN}${CONTEXT}${PRIORITY}→9-100-7main2
set channel=1 ; ${channel}→1
${UNIQUEID}→ unknown UNIQUEID
set UNIQUEID=7 ; ${UNIQUEID}→7
set UNIQUEID= ; ${UNIQUEID}.→.
global UNIQUEID=7 ; ${UNIQUEID}→7
${uniqueid}.→.
${VMSTATUS:1}→ unknown VMSTATUS
set VMSTATUS=SUCCESS ; ${VMSTATUS:1}→UCCESS
${UNIQUEID}${DB(k)}→ unknown UNIQUEID
${DB(k)}${UNIQUEID}→ unknown DB(k)
${LEN(${UNIQUEID})}→0 unknown UNIQUEID
${}.→.
# Functions that do or read more than a value are never known.
set X=1 ; ${INC(X)}→ unknown INC(X)
set INC(X)=1 ; ${INC(X)}→ unknown INC(X)
global DEC(X)=1 ; ${DEC(X)}→ unknown DEC(X)
${SHIFT(X)}→ unknown SHIFT(X)
${POP(X,-)}→ unknown POP(X,-)
${EVAL(abc)}→ unknown EVAL(abc)
${HASH(a,b)}→ unknown HASH(a,b)
${REGEX(\x22a\x22 abc)}→ unknown REGEX(\x22a\x22 abc)
set inc(X)=1 ; ${inc(X)}→1
# The five of every dialplan are known.
set A=1 ; global A=2 ; ${GLOBAL(A)}→2
${GLOBAL(UNIQUEID)}.→.
${LOCAL(A)}.→.
${LEN(abc)}→3
${LEN()}→0
${LEN(a,b)}→3
${len(abc)}→ unknown len(abc)
";

/// Which names are those of functions.
pub(super) const FUNCTIONS: &str = r"
GLOBAL→function
LOCAL→function
LEN→function
CALLERID→function
QUEUE_WAITING_COUNT→function
IF→function
CUT→function
FIELDQTY→function
FILTER→function
TOUPPER→function
TOLOWER→function
ISNULL→function
EXISTS→function
DB_EXISTS→function
DB_DELETE→function
QUEUE_EXISTS→function
QUEUE_MEMBER_COUNT→function
REGEX→function
INC→function
DEC→function
SHIFT→function
POP→function
EVAL→function
HASH→function
# Any other name is that of cells, and so is one in another case.
DB→cells
CDR→cells
DEVICE_STATE→cells
cut→cells
Cut→cells
CUTS→cells
CU→cells
 CUT→cells
→cells
";
