//! Values that are cut into fields, worked out by hand from the rules.
use dp_case_tables::{Question, bytes_of, push_bytes};
use dp_wide::{cut_fields, delimiter_of, field_count};
use std::alloc::Global;
use std::test::Fail;

/// The byte at which a value is cut.
pub(super) struct Delimiter;

impl Question for Delimiter {
    fn answer(alloc: Global, asked: &str) -> Result<String, Fail> {
        let text = bytes_of(alloc, asked)?;
        let mut out = String::new(alloc);
        push_bytes(&mut out, &[delimiter_of(&text)])?;
        Ok(out)
    }
}

/// The first byte of a text.
pub(super) const DELIMITERS: &str = r"
→-
-→-
,→,
:→:
: →:
 :→\x20
::→:
\xFF→ÿ
\x00→\x00
# A `\` before a comma.
\\,→,
\\,:→,
\\→\\
\\:→\\
\\\\,→\\
,\\→,
:\\,→:
";

/// The chosen fields of a value: the value, the byte at which it is cut, and the choice.
pub(super) struct ChosenFields;

impl Question for ChosenFields {
    fn answer(alloc: Global, asked: &str) -> Result<String, Fail> {
        let (value, rest) = asked.split_once('|').ok_or("no delimiter")?;
        let (delimiter, fields) = rest.split_once('|').ok_or("no fields")?;
        let value = bytes_of(alloc, value)?;
        let delimiter = bytes_of(alloc, delimiter)?;
        let chosen = cut_fields(alloc, &value, delimiter_of(&delimiter), fields.as_bytes())?;
        let mut out = String::new(alloc);
        push_bytes(&mut out, &chosen)?;
        Ok(out)
    }
}

/// Ranges of fields, counted from 1.
pub(super) const CUTS: &str = r"
# One field.
a-b-c-d||1→a
a-b-c-d||2→b
a-b-c-d||4→d
a-b-c-d||5→
a-b-c-d||0→
a-b-c-d||02→b
a,b,c|,|2→b
a,b,c|\\,|3→c
a,b,c|;|1→a,b,c
a,b,c|;|2→
a b c| |2→b
a:-b:c|:-|2→-b
# More fields than there are.
a-b-c-d||3-9→c-d
a-b-c-d||5-9→
a-b-c-d||2-99999999999999999999→b-c-d
a-b-c-d||99999999999999999999→
a-b-c-d||18446744073709551615→
a-b-c-d||18446744073709551616-→
# Ranges with two ends, and with one.
a-b-c-d||2-3→b-c
a-b-c-d||1-4→a-b-c-d
a-b-c-d||3-3→c
a-b-c-d||-2→a-b
a-b-c-d||-9→a-b-c-d
a-b-c-d||-0→
a-b-c-d||0-2→a-b
a-b-c-d||3-→c-d
a-b-c-d||1-→a-b-c-d
a-b-c-d||0-→a-b-c-d
a-b-c-d||9-→
a-b-c-d||3-2→
# In their own order, and each once.
a-b-c-d||3&1→a-c
a-b-c-d||2&2→b
a-b-c-d||2-3&3-4&2→b-c-d
a-b-c-d||-1&4-→a-d
a,b,c|,|3&1→a,c
a-b-c-d||3-2&4→d
# Something else between them.
a-b-c-d||→
a-b-c-d||-→
a-b-c-d||x→
a-b-c-d||1&x→
a-b-c-d||1&→
a-b-c-d||&1→
a-b-c-d||1&&2→
a-b-c-d||1-2-3→
a-b-c-d||--2→
a-b-c-d|| 1→
a-b-c-d||1 →
a-b-c-d||+1→
a-b-c-d||1,2→
# Empty fields and values.
||1→
||-→
||2→
--||1-→--
--||1-2→-
--||2→
-a-||2→a
-a-||1&3→-
a||1→a
a||2→
\xFF\x00\xFF|\x00|1-→ÿ\x00ÿ
";

/// The number of fields of a value.
pub(super) struct FieldCount;

impl Question for FieldCount {
    fn answer(alloc: Global, asked: &str) -> Result<String, Fail> {
        let (value, delimiter) = asked.split_once('|').ok_or("no delimiter")?;
        let delimiter = bytes_of(alloc, delimiter)?;
        let count = field_count(value.as_bytes(), delimiter_of(&delimiter));
        let mut out = String::new(alloc);
        write!(out, "{count}")?;
        Ok(out)
    }
}

/// One more than there are such bytes, but none in an empty value.
pub(super) const COUNTS: &str = r"
|→0
|,→0
a|→1
a|,→1
a-b-c|→3
a-b-c|,→1
a,b,c|\\,→3
-|→2
--|→3
,a,|,→3
a  b| →3
ex-amp-le|-→3
";
