//! What names set from outside.
use dp_case_tables::{Question, bytes_of, push_bytes};
use dp_wide::{SetTarget, setting_target};
use std::alloc::{AllocError, Global};
use std::test::Fail;

/// Adds a word and a name.
fn push_named(out: &mut String, word: &str, name: &[u8]) -> Result<(), AllocError> {
    out.push_str(word)?;
    push_bytes(out, name)
}

/// Adds what is set.
fn push_target(out: &mut String, target: SetTarget<'_>) -> Result<(), AllocError> {
    match target {
        SetTarget::Variable(name) => push_named(out, "variable ", name),
        SetTarget::Global(name) => push_named(out, "global ", name),
        SetTarget::Local(name) => push_named(out, "local ", name),
        SetTarget::Caller => out.push_str("caller"),
        SetTarget::Nothing => out.push_str("nothing"),
    }
}

/// What setting a name sets.
pub(super) struct TargetOfSetting;

impl Question for TargetOfSetting {
    fn answer(alloc: Global, asked: &str) -> Result<String, Fail> {
        let name = bytes_of(alloc, asked)?;
        let mut out = String::new(alloc);
        push_target(&mut out, setting_target(&name))?;
        Ok(out)
    }
}

pub(super) const TARGETS: &str = r"
# Plain names.
A→variable A
\x20a b\x20→variable a b
→nothing
\x20→nothing
# Marks of inheritance.
_A→variable A
__A→variable A
___A→variable _A
_→nothing
__→nothing
___→variable _
_GLOBAL(x)→global x
# Names that are not the channel's.
GLOBAL(x)→global x
GLOBAL()→global\x20
LOCAL(x)→local x
CALLERID(num)→caller
CALLERID(number)→caller
__CALLERID(num)→caller
# Cells.
DB(a/b)→global DB(a/b)
DEVICE_STATE(x)→global DEVICE_STATE(x)
HINT(x)→global HINT(x)
SHARED(x)→global SHARED(x)
ENV(x)→global ENV(x)
_DB(a)→global DB(a)
db(a)→variable db(a)
CDR(x)→variable CDR(x)
CALLERID(name)→variable CALLERID(name)
CALLERID(Num)→variable CALLERID(Num)
CHANNEL(language)→variable CHANNEL(language)
(x)→variable (x)
DB(a))→global DB(a))
# More than one thing, or nothing.
CALLERID(all)→nothing
ARRAY(A,B)→nothing
DB_DELETE(k)→nothing
HASH(a,b)→nothing
PUSH(a)→nothing
UNSHIFT(a)→nothing
CHANNEL(hangup_handler_push)→nothing
# Malformed calls.
DB(a→nothing
DB(→nothing
DB(a)x→nothing
";
