//! Worked rows. Each value is worked out by hand from the rules of expressions.
//!
//! A row is a text and, after an arrow, its value, which is empty for a fault, both with the escapes of `bytes_of`.

use dp_case_tables::{bytes_of, is_heading};
use dp_expr::{evaluate, one_tree, one_value};
use std::alloc::{AllocError, Global};
use std::process::Abort;
use std::test::Fail;

/// The bytes of the value of a text.
fn value_bytes(alloc: Global, text: &[u8]) -> Result<Vec<u8>, AllocError> {
    let mut bytes = Vec::new(alloc);
    evaluate(alloc, text)?.push_onto(&mut bytes)?;
    Ok(bytes)
}

fn assert_value(rt: &impl Abort, alloc: Global, text: &[u8], want: &[u8]) -> Result<(), Fail> {
    let value = value_bytes(alloc, text)?;
    assert_eq!(rt; value.as_slice(), want, "at {text:?}");
    Ok(())
}

fn check_row(rt: &impl Abort, alloc: Global, text: &str, want: &str) -> Result<(), Fail> {
    let text = bytes_of(alloc, text)?;
    let want = bytes_of(alloc, want)?;
    assert_value(rt, alloc, &text, &want)
}

fn check_table(rt: &impl Abort, alloc: Global, table: &str) -> Result<(), Fail> {
    for row in table.lines() {
        match row.split_once('→') {
            Some((text, want)) => check_row(rt, alloc, text, want)?,
            None => assert!(rt; is_heading(row), "no arrow in {row:?}"),
        }
    }
    Ok(())
}

/// Some of each kind.
const EXPRESSIONS: &str = r#"
9223372036854775807 + 1→
-7 / 2→-3
-7 % 2→-1
1 / 0→
(-9223372036854775807 - 1) / -1→
(-9223372036854775807 - 1) % -1→0
"5" = 5→0
-9223372036854775808→
"" | x→""
a & 0→0
!0→1
1 2→
"#;

/// Sums and differences, to the ends of 64 bits with a sign.
const SUMS: &str = r#"
1 + 1→2
9223372036854775806 + 1→9223372036854775807
9223372036854775807 + 0→9223372036854775807
9223372036854775807 + 9223372036854775807→
-9223372036854775807 + -1→-9223372036854775808
-9223372036854775807 - 1→-9223372036854775808
-9223372036854775807 - 2→
-9223372036854775807 - 1 - 1→
-9223372036854775807 - 1 + 1→-9223372036854775807
0 - 9223372036854775807 - 1→-9223372036854775808
1 - -9223372036854775807→
0 - -9223372036854775807→9223372036854775807
0 - (-9223372036854775807 - 1)→
-1 - (-9223372036854775807 - 1)→9223372036854775807
5 - 7→-2
0 - 0→0
007 + 1→8
00000000000000000000000000000000000000009 + 1→10
9223372036854775808 + 1→
99999999999999999999999999999999999999999 - 1→
18446744073709551616 + 1→
a + 1→
1 + a→
"1" + 1→
1.5 + 1→
1 - ""→
1x + 1→
"#;

/// Products, to the ends of 64 bits with a sign.
const PRODUCTS: &str = r#"
6 * 7→42
4611686018427387904 * 2→
-4611686018427387904 * 2→-9223372036854775808
4611686018427387903 * 2→9223372036854775806
3037000499 * 3037000499→9223372030926249001
3037000500 * 3037000500→
(-9223372036854775807 - 1) * -1→
(-9223372036854775807 - 1) * 1→-9223372036854775808
9223372036854775807 * -1→-9223372036854775807
9223372036854775807 * 0→0
-1 * 0→0
-3 * -4→12
a * 0→
"#;

/// Quotients are cut toward zero.
const QUOTIENTS: &str = r#"
7 / 2→3
7 / -2→-3
-7 / -2→3
1 / 2→0
-1 / 2→0
0 / 0→
0 / -5→0
1 / 00→
1 / -0→
1 / (2 - 2)→
(-9223372036854775807 - 1) / 1→-9223372036854775808
9223372036854775807 / -1→-9223372036854775807
9223372036854775807 / 9223372036854775807→1
(-9223372036854775807 - 1) / 2→-4611686018427387904
(-9223372036854775807 - 1) / 9223372036854775807→-1
a / 1→
1 / a→
"#;

/// Remainders have the sign of the left side.
const REMAINDERS: &str = r#"
7 % 2→1
7 % -2→1
-7 % -2→-1
7 % 0→
0 % 0→
7 % -0→
(-9223372036854775807 - 1) % 10→-8
(-9223372036854775807 - 1) % 9223372036854775807→-1
9223372036854775807 % 10→7
9223372036854775807 % -1→0
9223372036854775807 % (-9223372036854775807 - 1)→9223372036854775807
5 % 7→5
-6 % 3→0
a % 2→
2 % a→
"#;

/// A minus sign before a number, also several.
const NEGATIONS: &str = r#"
-5→-5
- 5→-5
--5→5
---5→-5
-0→0
-00→0
-007→-7
-9223372036854775807→-9223372036854775807
--9223372036854775807→9223372036854775807
-(-9223372036854775807 - 1)→
-(9223372036854775807)→-9223372036854775807
-a→
-"5"→
-1.5→
-""→
"#;

/// The empty text and any number that is zero are false.
const TRUTH: &str = r#"
!1→0
! 1→0
!!0→0
!!5→1
!a→0
!""→0
!"0"→0
!00→1
!-0→1
-!0→-1
!00000000000000000000000000000000→1
!9223372036854775808→0
!0.0→0
!(1 = 0)→1
!1 = 0→1
!0 + 1→2
a | b→a
0 | b→b
00 | 0→0
0 | 00→00
-0 | x→x
007 | x→007
"0" | x→"0"
0 | 0→0
a || b→a
0 || b→b
1 | 2 | 3→1
0 | 0 | 3→3
1.0 | x→1.0
0.0 | x→0.0
a & b→a
0 & b→0
00 & b→0
a & 00→0
7 & 3→7
a && b→a
"" & a→""
a & ""→a
007 & 1→007
000000000000000000000000000000 | x→x
000000000000000000000000000001 | x→000000000000000000000000000001
18446744073709551616 & 1→18446744073709551616
2 - 2 | x→x
3 - 2 & x→1
1 = 2 | x→x
"#;

/// A fault on a side that is not chosen is a fault of the whole.
const BOTH_SIDES_COUNT: &str = r#"
1 | 1 / 0→
1 / 0 | 1→
0 & 1 / 0→
1 / 0 & 0→
1 | -a→
0 & a + 1→
1 | (2 | 1 / 0)→
!(1 / 0)→
-(1 / 0)→
1 / 0 = 1→
a = 1 / 0→
1 + 1 / 0→
"#;

/// Compared as numbers if both sides are, else by bytes.
const COMPARISONS: &str = r#"
1 = 1→1
1 == 1→1
1 = 2→0
1 != 2→1
1 != 1→0
1 < 2→1
2 < 1→0
1 < 1→0
1 <= 1→1
1 <= 2→1
2 <= 1→0
1 > 1→0
2 > 1→1
1 > 2→0
1 >= 1→1
1 >= 2→0
2 >= 1→1
05 = 5→1
-0 = 0→1
-0 = 00→1
10 > 9→1
a10 > a9→0
10 > 9a→0
a < b→1
a < ab→1
ab < a→0
B < a→1
a = a→1
a = A→0
a != A→1
a <= a→1
a >= b→0
"5" < 5→1
"a" = "a"→1
a = "a"→0
"" = ""→1
"" < x→1
9223372036854775807 > 9223372036854775806→1
9223372036854775808 > 9223372036854775807→1
9223372036854775808 > 10→1
10 < 9223372036854775808→1
9 < 10000000000000000000→0
9223372036854775808 = 09223372036854775808→0
-9223372036854775807 - 1 < -9223372036854775807→1
-1 < 1→1
-2 < -10→0
-2 > -10→1
1 + 1 = 2a→0
1 + 1 < 2a→1
2a > 1 + 1→1
-5 < a→1
a > -5→1
(1 + 1) = (3 - 1)→1
1.5 = 1.50→0
5 - 10 = -05→1
"#;

/// Operators group to the left, each level inside the next.
const GROUPING: &str = r#"
1 | 0 & 0→1
0 & 0 | 1→1
1 & 0 | 2→2
2 | 1 & 0→2
(2 | 1) & 0→0
1 = 1 & 2 = 2→1
1 + 2 * 3→7
(1 + 2) * 3→9
2 * 3 + 1→7
10 - 3 - 2→5
10 - (3 - 2)→9
10 - 3 + 2→9
100 / 10 / 5→2
100 / (10 / 5)→50
7 % 4 % 2→1
7 % (4 % 2)→
2 * 7 % 4→2
2 * (7 % 4)→6
7 / 2 * 2→6
1 + 1 = 2→1
2 = 1 + 1→1
1 < 2 = 1→1
3 > 2 > 1→0
3 > (2 > 1)→1
1 = 1 = 1→1
2 = 2 = 2→0
5 - 2 > 2→1
-2 * 3→-6
2 * -3→-6
2 - -3→5
2--3→5
2---3→-1
-2 - 3→-5
-(2 + 3)→-5
0 | 1 = 1→1
1 - 1 | 2 * 3 - 6 | 4 % 3 = 1 & 5→1
-2 % 2 | 8 / -3 < -1 & !0→1
((1))→1
(a)→a
("a b")→"a b"
!(1)→0
-(1)→-1
(((1) + ((2))))→3
"#;

/// The longest operator comes first; two adjacent ones are two.
const SPELLINGS: &str = r#"
1+1→2
1 +1→2
a=a→1
a==a→1
a!=b→1
1<=1→1
1>=2→0
1<-1→0
1>-1→1
1!=-1→1
0|!0→1
1&!0→1
1 ||| 2→
1 &&& 2→
1 === 1→
1 !== 2→
1 => 2→
1 =< 2→
1 <> 2→
1 ! 2→
1 ! = 2→
1 < = 1→
1 | | 1→
1 = = 1→
1 <== 1→
"#;

/// Words, quoted operands with both their quotes, and strays.
const OPERANDS: &str = r#"
a→a
a.b_c$→a.b_c$
#,;'[]{}@\\^`→#,;'[]{}@\\^`
SIP/100→
9223372036854775808→9223372036854775808
007→007
1.5→1.5
"a b"→"a b"
"a:b?~"→"a:b?~"
"1 + 1"→"1 + 1"
"("→"("
""→""
\x20"a"  →"a"
"a" "b"→
"a""b"→
a b→
a"b"→
"b"a→
"abc→
abc"→
"→
1 = "a→
"a" = "→
a:b→
a?b→
~a→
:→
?→
~→
1 : 1→
1 = 1 ? 2→
"#;

/// Texts that the grammar does not allow.
const FAULTS: &str = r#"
→
\x20→
\x20  →
()→
(1→
1)→
(1))→
((1)→
)(→
1 +→
+ 1→
+1→
* 1→
1 * * 2→
1 + + 2→
| 1→
1 |→
& 1→
1 =→
= 1→
!→
-→
(-)→
(1)(2)→
2(3)→
(2)3→
1 !→
1 -→
(1 + )→
(a b)→
% 2→
/ 2→
< 2→
"#;

/// Words and quoted operands of bytes above 127, which are ordered by their bytes.
const HIGH_BYTES: &str = r#"
# Of characters.
é→é
é = é→1
é < z→0
z < é→1
"é" < é→1
é + 1→
!é→0
é | 1→é
日本 > 1→1
# Of bytes that are not characters.
\xFF\x80→\xFF\x80
\xFF=\xFF→1
\xFF>\xFE→1
\x7F<\x80→1
\xB2+1→
"#;

const TABLES: &[&str] = &[
    EXPRESSIONS,
    SUMS,
    PRODUCTS,
    QUOTIENTS,
    REMAINDERS,
    NEGATIONS,
    TRUTH,
    BOTH_SIDES_COUNT,
    COMPARISONS,
    GROUPING,
    SPELLINGS,
    OPERANDS,
    FAULTS,
    HIGH_BYTES,
];

fn check_tables(rt: &impl Abort, alloc: Global) -> Result<(), Fail> {
    for table in TABLES {
        check_table(rt, alloc, table)?;
    }
    Ok(())
}

/// The values of the tables above. The laws that a text has one tree and a tree one value are called once.
#[test]
fn expressions_have_these_values(rt: HostRuntime) -> Result<(), Fail> {
    one_tree();
    one_value();
    check_tables(&rt, rt.alloc())
}

/// This number of copies of the piece after the text.
fn push_copies(text: &mut Vec<u8>, piece: &[u8], count: usize) -> Result<(), AllocError> {
    for _ in 0..count {
        text.extend_from_slice(piece)?;
    }
    Ok(())
}

/// The text after a `{`: the copies of a piece up to the `}`, and the rest as it is.
fn push_part(text: &mut Vec<u8>, copies: &str, rest: &str) -> Result<(), Fail> {
    let (count, piece) = copies.split_once(' ').ok_or("no count")?;
    let count: usize = count.parse().ok().ok_or("no number")?;
    push_copies(text, piece.as_bytes(), count)?;
    text.extend_from_slice(rest.as_bytes())?;
    Ok(())
}

/// The text of a cell, in which `{COUNT PIECE}` is this number of copies of the piece.
fn repeat_piece(alloc: Global, cell: &str) -> Result<Vec<u8>, Fail> {
    let mut text = Vec::new(alloc);
    for part in cell.split('{') {
        match part.split_once('}') {
            Some((copies, rest)) => push_part(&mut text, copies, rest)?,
            None => text.extend_from_slice(part.as_bytes())?,
        }
    }
    Ok(text)
}

/// Texts and values with `{COUNT PIECE}` for copies of a piece.
const REPEATED: &str = r"
# Nested parentheses, minus signs and `!`, up to 32 deep and beyond.
{32 (}1{32 )}→1
{33 (}1{33 )}→
{32 -}1→1
{33 -}1→
{31 -}1→-1
{32 !}0→0
{33 !}0→
{16 (-}1{16 )}→1
{17 (-}1{17 )}→
{16 -(}1{16 )}→1
{32 1 + (}1{32 )}→33
{33 1 + (}1{33 )}→
{32 (}1{32  + 1)}→33
{33 (}1{33  + 1)}→
{100000 (}1{100000 )}→
{100000 -}1→
# Parentheses side by side are not nested.
{32 (}1{32 )} + {32 -}2→3
# Long texts take time in proportion.
{100000 1 + }1→100001
0{100000  | 0}→0
{100000 0}7→{100000 0}7
{100000 0}7{100000  & 1}→{100000 0}7
";

fn check_repeated(rt: &impl Abort, alloc: Global, text: &str, want: &str) -> Result<(), Fail> {
    let text = repeat_piece(alloc, text)?;
    let want = repeat_piece(alloc, want)?;
    let value = value_bytes(alloc, &text)?;
    assert!(rt; value.as_slice() == want.as_slice());
    Ok(())
}

fn check_all_repeated(rt: &impl Abort, alloc: Global) -> Result<(), Fail> {
    for row in REPEATED.lines() {
        match row.split_once('→') {
            Some((text, want)) => check_repeated(rt, alloc, text, want)?,
            None => assert!(rt; is_heading(row), "no arrow in {row:?}"),
        }
    }
    Ok(())
}

#[test]
fn deep_and_long_expressions_have_these_values(rt: HostRuntime) -> Result<(), Fail> {
    check_all_repeated(&rt, rt.alloc())
}

/// A byte of 32 or less is a blank.
fn check_blank(rt: &impl Abort, alloc: Global, blank: u8) -> Result<(), Fail> {
    let sum = [blank, b'1', blank, b'+', blank, blank, b'2', blank];
    assert_value(rt, alloc, &sum, b"3")?;
    assert_value(rt, alloc, &[b'1', blank, b'2'], b"")?;
    assert_value(rt, alloc, &[b'a', blank, b'=', b'a'], b"1")?;
    assert_value(rt, alloc, &[b'1', b'<', blank, b'=', b'1'], b"")?;
    let quoted = [b'"', blank, b'"'];
    assert_value(rt, alloc, &quoted, &quoted)
}

/// A byte alone is a word, except the blanks and the marks.
fn check_alone(rt: &impl Abort, alloc: Global, byte: u8) -> Result<(), Fail> {
    let marks = b"\"|&=<>+-*/%!():?~";
    let text = [byte];
    if byte > 32 && !marks.contains(&byte) {
        assert_value(rt, alloc, &text, &text)
    } else {
        assert_value(rt, alloc, &text, b"")
    }
}

fn check_bytes(rt: &impl Abort, alloc: Global) -> Result<(), Fail> {
    for blank in 0u8..33 {
        check_blank(rt, alloc, blank)?;
    }
    for byte in 0u8..=255 {
        check_alone(rt, alloc, byte)?;
    }
    Ok(())
}

#[test]
fn bytes_are_blanks_marks_or_words(rt: HostRuntime) -> Result<(), Fail> {
    check_bytes(&rt, rt.alloc())
}
