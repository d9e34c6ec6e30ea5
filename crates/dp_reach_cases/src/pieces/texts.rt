//! Texts that are not expanded yet, read as pieces given what is known of names, worked out by hand from the rules.
use crate::pieces::names::set_of;
use crate::pieces::notation::{pieces_of, push_pieces};
use dp_case_tables::Question;
use dp_pieces::{NameTable, NamesAt, read_pieces};
use std::alloc::Global;
use std::test::Fail;

/// The shape of the channel's extension, then a text after a bar. The channel is in `from`.
pub(super) struct ShapedTexts;

/// The table in which `X` has `a` and `b`, `fwd` has `S` and `2`, the caller's number has `1` and `2`, and any value also has `z`.
fn table_of(alloc: Global) -> Result<NameTable, Fail> {
    let mut table = NameTable::new(alloc);
    table.hold(alloc, b"X", &set_of("ab"))?;
    table.hold(alloc, b"fwd", &set_of("S2"))?;
    table.hold_caller(&set_of("12"));
    table.hold_anywhere(&set_of("z"));
    Ok(table)
}

impl Question for ShapedTexts {
    fn answer(alloc: Global, asked: &str) -> Result<String, Fail> {
        let (shape, text) = asked.split_once('|').ok_or("no shape")?;
        let table = table_of(alloc)?;
        let context = pieces_of(alloc, "from")?;
        let exten = pieces_of(alloc, shape)?;
        let names = NamesAt {
            table: &table,
            context: &context,
            exten: &exten,
        };
        let mut out = String::new(alloc);
        push_pieces(&mut out, &read_pieces(alloc, &names, text.as_bytes())?)?;
        Ok(out)
    }
}

/// A name without bytes gives any bytes of the empty set, `{}*`. A text that may name anything gives any bytes of any value.
pub(super) const TEXTS: &str = r"
# A text without groups.
s|→
s|plain, text→plain, text
s|}]→}]
# The channel's extension, and parts of it.
s|${EXTEN}→s
1{0-9}*|<${EXTEN}>→<1{0123456789}*>
s|${exten}→{}*
1{0-9}*|${EXTEN:1}→{0123456789}*
1{0-9}*|${EXTEN:2}→{0123456789}*
{0-9}{0-9}{ab}|${EXTEN:2}→{ab}
5{ab}|${EXTEN:-4}→{5ab}*
12{0-9}{ab}9|${EXTEN:1:3}→2{0123456789}{ab}
1{0-9}*|${EXTEN:0:2}→1{0123456789}*
1234|${EXTEN:1:-1}→{1234}*
# Unusual parts.
12|${EXTEN:}→12
12|${EXTEN:1:}→2
12|${EXTEN::1}→1
12|${EXTEN:-0}→12
12|${EXTEN:2}→
12|${EXTEN:0:0}→
12|${EXTEN:18446744073709551616}→
12|${EXTEN:0:18446744073709551616}→12
12|${EXTEN:-}→
12|${EXTEN:x}→
12|${EXTEN:1:2:3}→
# The channel's context.
s|${CONTEXT}→from
s|${CONTEXT:1:2}→ro
# Variables, with and without bytes.
s|${fwd}→{2S}*
s|a${X}b→a{ab}*b
s|${none}→{}*
s|${}→{}*
s|${X:1}→{ab}*
s|${X:1:0}→
# Functions of a known argument.
s|${GLOBAL(X)}→{ab}*
s|${GLOBAL(EXTEN)}→{}*
s|${LOCAL(fwd)}→{2S}*
s|${LEN(X)}→{0123456789}*
s|${LEN(a:b)}→{0123456789}*
s|${QUEUE_WAITING_COUNT(q)}→{0123456789}*
s|${CALLERID(num)}→{12}*
s|${CALLERID(num):1}→{12}*
s|${CALLERID(name)}→{}*
s|${DB(fwd/1)}→{}*
s|${GLOBAL(X}→{}*
s|${GLOBAL(X)s}→{ab}*
# Functions of an unknown argument.
s|${DB(fwd/${X})}→{}*
s|${GLOBAL(${X})}→{12Sabz}*
s|${LEN(${X})}→{0123456789}*
s|${CALLERID(${X})}→{12}*
s|${LEN:1(${X})}→{12Sabz}*
# Groups within names.
s|${${X}}→{12Sabz}*
s|${X${X}}→{12Sabz}*
X|${${EXTEN}}→{ab}*
# Expressions: their own bytes, or those of a number.
s|$[]→{-0123456789}*
s|$[1 + ${X}]→{ +-0123456789ab}*
s|<$[a]>→<{-0123456789a}*>
# Openings that never close.
s|a${b→a${b
s|${X}$[b→{ab}*$[b
s|$[${X}→$[{ab}*
";
