//! Words, numbers and texts cut once, worked out by hand from the rules.
use dp_case_tables::{Question, bytes_of, push_bytes, text_of};
use dp_conf::{NoMemory, cut_once, read_number, same_word};
use std::alloc::Global;
use std::test::Fail;

/// Whether two words are the same, asked in both orders.
fn sameness(left: &[u8], right: &[u8]) -> &'static str {
    match (same_word(left, right), same_word(right, left)) {
        (true, true) => "same",
        (false, false) => "other",
        _ => "two answers",
    }
}

/// Whether the words on both sides of a bar are the same.
pub(super) struct SameWords;

impl Question for SameWords {
    fn answer(alloc: Global, asked: &str) -> Result<String, Fail> {
        let (left, right) = asked.split_once('|').ok_or("no two words")?;
        let left = bytes_of(alloc, left)?;
        let right = bytes_of(alloc, right)?;
        text_of(alloc, sameness(&left, &right))
    }
}

/// Words are the same without regard to the case of ASCII letters.
pub(super) const WORDS: &str = r"
|→same
general|general→same
GeNeRaL|general→same
general|general →other
general|globals→other
[|{→other
@|`→other
\xC4|\xE4→other
";

/// The number that a text writes.
pub(super) struct Number;

impl Question for Number {
    fn answer(alloc: Global, asked: &str) -> Result<String, Fail> {
        let mut out = String::new(alloc);
        match read_number(asked.as_bytes()) {
            Some(number) => write!(out, "{number}")?,
            None => out.push_str("none")?,
        }
        Ok(out)
    }
}

/// Only digits are a number, and the greatest one stands for all that are greater.
pub(super) const NUMBERS: &str = r"
→none
0→0
7→7
01→1
000000000000000000000000000000012→12
2147483648→2147483648
18446744073709551615→18446744073709551615
18446744073709551616→18446744073709551615
99999999999999999999999999999999999999999→18446744073709551615
+1→none
-1→none
1 →none
1a→none
";

fn push_cut(out: &mut String, cut: Option<(&[u8], &[u8])>) -> Result<(), NoMemory> {
    match cut {
        Some((before, after)) => {
            push_bytes(out, before)?;
            out.push('|')?;
            push_bytes(out, after)
        }
        None => out.push_str("none"),
    }
}

/// The text before and after the first comma.
pub(super) struct FirstComma;

impl Question for FirstComma {
    fn answer(alloc: Global, asked: &str) -> Result<String, Fail> {
        let mut out = String::new(alloc);
        push_cut(&mut out, cut_once(asked.as_bytes(), b','))?;
        Ok(out)
    }
}

/// A text is cut at the first such byte.
pub(super) const CUTS: &str = r"
→none
ab→none
,→|
a,b→a|b
a,b,c→a|b,c
 a , → a |\x20
";
