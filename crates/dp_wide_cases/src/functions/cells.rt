//! Cells, and the functions of keys and of queues, worked out by hand from the rules.

/// A cell is known if something set it, even to the empty text.
pub(super) const CELLS: &str = r"
${CDR(x)}→ unknown CDR(x)
set CDR(x)=1 ; ${CDR(x)}→1
set CDR(x)= ; ${CDR(x)}.→.
set CDR(y)=1 ; ${CDR(x)}→ unknown CDR(x)
set CDR(x)=1 ; ${cdr(x)}→ unknown cdr(x)
set CDR(x)=1 ; ${CDR( x)}→ unknown CDR( x)
set CDR(x)=abc ; ${CDR(x):1:1}→b
${CDR(x):1:1}→ unknown CDR(x)
${CDR()}→ unknown CDR()
set CDR()=5 ; ${CDR()}→5
set CDR(a,b)=5 ; ${CDR(a,b)}→5
set A(B(c))=5 ; ${A(B(c))}→5
${(x)}→ unknown (x)
set (x)=5 ; ${(x)}→5
# A cell of the channel is looked up like any variable.
global CDR(x)=2 ; ${CDR(x)}→2
global CDR(x)=2 ; set CDR(x)=1 ; ${CDR(x)}→1
set CDR(x)=1 ; gone ; ${CDR(x)}→ unknown CDR(x)
# Its argument is expanded first.
set K=x ; set CDR(x)=1 ; ${CDR(${K})}→1
set K=x ; ${CDR(${K})}→ unknown CDR(x)
${CDR(${DB(k)})}→ unknown DB(k)
# A cell of all channels is only a global.
${DB(a/b)}→ unknown DB(a/b)
global DB(a/b)=7 ; ${DB(a/b)}→7
global DB(a/b)= ; ${DB(a/b)}.→.
set DB(a/b)=7 ; ${DB(a/b)}→ unknown DB(a/b)
global DB(a/b)=7 ; set DB(a/b)=8 ; ${DB(a/b)}→7
global DB(a/b)=7 ; gone ; ${DB(a/b)}→7
global db(a/b)=7 ; ${DB(a/b)}→ unknown DB(a/b)
set db(a/b)=7 ; ${db(a/b)}→7
global DEVICE_STATE(SIP/1)=INUSE ; ${DEVICE_STATE(SIP/1)}→INUSE
set DEVICE_STATE(SIP/1)=INUSE ; ${DEVICE_STATE(SIP/1)}→ unknown DEVICE_STATE(SIP/1)
set HINT(1@a)=x ; ${HINT(1@a)}→ unknown HINT(1@a)
set SHARED(x)=1 ; ${SHARED(x)}→ unknown SHARED(x)
set ENV(HOME)=x ; ${ENV(HOME)}→ unknown ENV(HOME)
global ENV(HOME)=x ; ${ENV(HOME)}→x
# The first one that is unknown.
${DB(a)}${CDR(b)}→ unknown DB(a)
global DB(a)=1 ; ${DB(a)}${CDR(b)}→1 unknown CDR(b)
${LEN(${DB(a)})}→0 unknown DB(a)
global DB(a)=4 ; $[${DB(a)} + 1]→5
# A call without an end is empty.
${CDR(x}.→.
";

/// Keys of the database, and queues.
pub(super) const KEYS: &str = r"
${DB_EXISTS(a/b)}→0 unknown DB_EXISTS(a/b)
global DB(a/b)=7 ; ${DB_EXISTS(a/b)}→1
global DB(a/b)=0 ; ${DB_EXISTS(a/b)}→1
global DB(a/b)= ; ${DB_EXISTS(a/b)}→0
set DB(a/b)=7 ; ${DB_EXISTS(a/b)}→0 unknown DB_EXISTS(a/b)
global DB_EXISTS(a/b)=7 ; ${DB_EXISTS(a/b)}→0 unknown DB_EXISTS(a/b)
${DB_EXISTS()}→0 unknown DB_EXISTS()
global DB()=7 ; ${DB_EXISTS()}→1
global DB(a,b)=7 ; ${DB_EXISTS(a,b)}→1
${DB_DELETE(a/b)}→ unknown DB_DELETE(a/b)
global DB(a/b)=7 ; ${DB_DELETE(a/b)}→7
global DB(a/b)=7 ; ${DB_DELETE(a/b)}${DB(a/b)}${DB_EXISTS(a/b)}→771
global DB(a/b)= ; ${DB_DELETE(a/b)}.→.
global DB(a/b)=7 ; ${db_exists(a/b)}→ unknown db_exists(a/b)
# Queues are known, and so is that a queue does not exist.
${QUEUE_EXISTS(sales)}→1
${QUEUE_EXISTS(idle)}→1
${QUEUE_EXISTS(other)}→0
${QUEUE_EXISTS(SALES)}→0
${QUEUE_EXISTS()}→0
${QUEUE_EXISTS(sales,x)}→0
${QUEUE_MEMBER_COUNT(sales)}→2
${QUEUE_MEMBER_COUNT(idle)}→0
${QUEUE_MEMBER_COUNT(other)}→0
${QUEUE_MEMBER_COUNT()}→0
gone ; ${QUEUE_MEMBER_COUNT(sales)}→2
${QUEUE_WAITING_COUNT(sales)}→3
${QUEUE_WAITING_COUNT(other)}→0
${Queue_Exists(sales)}→ unknown Queue_Exists(sales)
${QUEUE_MEMBER(sales,count)}→ unknown QUEUE_MEMBER(sales,count)
";
