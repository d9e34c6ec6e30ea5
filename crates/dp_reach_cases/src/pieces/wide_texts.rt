//! Texts over the functions of the wide table, read as pieces given what is known of names, worked out by hand from the rules.
use crate::pieces::names::set_of;
use crate::pieces::notation::{pieces_of, push_pieces};
use dp_case_tables::Question;
use dp_pieces::{NameTable, NamesAt};
use dp_wide_pieces::read_wide_pieces;
use std::alloc::Global;
use std::test::Fail;

/// The shape of the channel's extension, then a text after a bar. The channel is in `from`.
pub(super) struct WideTexts;

/// The table in which `X` has `a` and `b`, the cell `DB(fwd/200)` has `7`, the caller's number has `1` and `2`, and any value also has `z`.
fn table_of(alloc: Global) -> Result<NameTable, Fail> {
    let mut table = NameTable::new(alloc);
    table.hold(alloc, b"X", &set_of("ab"))?;
    table.hold(alloc, b"DB(fwd/200)", &set_of("7"))?;
    table.hold_caller(&set_of("12"));
    table.hold_anywhere(&set_of("z"));
    Ok(table)
}

impl Question for WideTexts {
    fn answer(alloc: Global, asked: &str) -> Result<String, Fail> {
        let (shape, text) = asked.split_once('|').ok_or("no shape")?;
        let table = table_of(alloc)?;
        let context = pieces_of(alloc, "from")?;
        let exten = pieces_of(alloc, shape)?;
        let names = NamesAt {
            table: &table,
            context: &context,
            exten: &exten,
        };
        let mut out = String::new(alloc);
        let read = read_wide_pieces(alloc, &names, text.as_bytes())?;
        push_pieces(&mut out, &read)?;
        Ok(out)
    }
}

/// A computed function gives any bytes of any value, of its argument in either case, of a number, and the marks that functions write.
pub(super) const WIDE_TEXTS: &str = r#"
# Names, and parts of them.
s|9${EXTEN}→9s
1{0-9}*|9${EXTEN:1}→9{0123456789}*
s|${CONTEXT}→from
s|a${X}b→a{ab}*b
s|${CHANNEL}→{}*
# The five functions of every dialplan.
s|${GLOBAL(X)}→{ab}*
s|${LOCAL(X):1}→{ab}*
s|${LEN(a:b)}→{0123456789}*
s|${QUEUE_WAITING_COUNT(q)}→{0123456789}*
s|${CALLERID(num)}→{12}*
s|${CALLERID(number)}→{12}*
s|${CALLERID(name)}→{}*
s|${CALLERID(all)}→{ ",-0123456789<>ALablz}*
# Cells.
s|${DB(fwd/200)}→{7}*
200|${DB(fwd/${EXTEN})}→{7}*
s|${DB(fwd/${EXTEN})}→{}*
s|${CDR(src)}→{}*
s|${DB(fwd/200}→{}*
# Computed functions of a known argument.
s|${IF(1?a:b)}→{ ",-0123456789:<>?ABabz}*
s|${CUT(NAME,-,2)}→{ ",-0123456789<>AEMNabemnz}*
s|${TOUPPER(b)}→{ ",-0123456789<>Babz}*
s|${TOLOWER(B)}→{ ",-0123456789<>Babz}*
s|${QUEUE_EXISTS(q)}→{ ",-0123456789<>Qabqz}*
s|${HASH(q)}→{ ",-0123456789<>Qabqz}*
s|${FILTER(0-9,z):0:2}→{ ",-0123456789<>Zabz}*
# Functions of an unknown argument.
s|${DB(${X})}→{ "(),-0123456789<>ABDabdz}*
s|${${X}}→{ ",-0123456789<>ABabz}*
s|${IF($["${X}" = "1"]?a:b)}→{ "(),-0123456789:<=>?ABFIabfiz}*
# Expressions: their own bytes, or those of a number.
s|$[1 + ${X}]→{ +-0123456789ab}*
"#;
