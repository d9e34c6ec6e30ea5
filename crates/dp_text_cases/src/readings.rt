//! How Asterisk reads expressions. Each answer is worked out by hand from the rule: an expression is unknown if it has a foreign mark
//! outside quotes, a fraction, or a value and a quotient that is not whole; otherwise it is `0` if it has a fault and is not empty.
use dp_case_tables::{Question, bytes_of, check, text_of};
use dp_expr::{ExpressionReading, asterisk_reading};
use std::alloc::Global;
use std::test::Fail;

/// The cases: an expression, and whether it is its value, `0` or unknown.
const READINGS: &str = r#"
# Empty expressions are not faults.
→value
\t  →value
# Values, and quotients that are whole.
a→value
007→value
4/2→value
-4/2→value
0/5→value
7 % 2→value
(8 / 4) / 2→value
9223372036854775807 / 1→value
# What is in quotes is neither a mark nor a fraction.
"a:b" = "a:b"→value
"?~:"→value
".5"→value
# Not fractions: two points, a point alone, and a word with another byte.
1.2.3→value
.→value
v1.5→value
1.5a→value
# Faults.
1/0→zero
0 % 0→zero
a + 1→zero
a/2→zero
1 & a * 2→zero
1 +→zero
* 1→zero
(1→zero
1)→zero
()→zero
1 2→zero
"abc→zero
9223372036854775807 + 1→zero
(0-9223372036854775807-1)/-1→zero
# A fault comes before a quotient that is not whole.
a + 1/2→zero
1/2 +→zero
# Foreign marks, even if the rest is a fault.
a : b→unknown
"x" : "[0-9]+"→unknown
a =~ b→unknown
"a" =~ "b"→unknown
~~a→unknown
a ~~ b→unknown
a ? b→unknown
1 ? 2 : 3→unknown
1 + : →unknown
# A quote without an end quotes nothing.
"a : b→unknown
# Fractions, even if the rest is a fault.
1.5 + 1→unknown
-1.5→unknown
.5→unknown
5.→unknown
1.5 +→unknown
0 / 2.0→unknown
a = 1.0→unknown
# Quotients that are not whole, even on a side that is not chosen, and even if the rest makes them whole again.
1/2→unknown
-7/2→unknown
7/-2→unknown
7 / 2 * 0→unknown
7 / 2 * 2→unknown
1 | 1/2→unknown
0 & 1/2→unknown
"x" | 1/2→unknown
2 * (7/2)→unknown
!(1/2)→unknown
-(1/2)→unknown
1/3 = 0→unknown
"#;

/// How an expression is read.
struct AsteriskReading;

impl Question for AsteriskReading {
    fn answer(alloc: Global, asked: &str) -> Result<String, Fail> {
        let text = bytes_of(alloc, asked)?;
        match asterisk_reading(alloc, &text)? {
            ExpressionReading::Value => text_of(alloc, "value"),
            ExpressionReading::Zero => text_of(alloc, "zero"),
            ExpressionReading::Unknown => text_of(alloc, "unknown"),
        }
    }
}

/// Expressions are read as Asterisk reads them, or are unknown.
#[test]
fn expressions_are_read_as_asterisk_does(rt: HostRuntime) -> Result<(), Fail> {
    check::<AsteriskReading>(rt.alloc(), READINGS)
}
