//! Texts that keep the bytes of a set, or are written in one case, worked out by hand from the rules.
use dp_case_tables::{Question, bytes_of, push_bytes};
use dp_wide::{filter, to_lower, to_upper};
use std::alloc::Global;
use std::test::Fail;

/// The bytes of a text that a set has.
pub(super) struct KeptBytes;

impl Question for KeptBytes {
    fn answer(alloc: Global, asked: &str) -> Result<String, Fail> {
        let (set, text) = asked.split_once('|').ok_or("no text")?;
        let set = bytes_of(alloc, set)?;
        let text = bytes_of(alloc, text)?;
        let kept = filter(alloc, &set, &text)?;
        let mut out = String::new(alloc);
        push_bytes(&mut out, &kept)?;
        Ok(out)
    }
}

/// Single bytes, and ranges of them.
pub(super) const SETS: &str = r"
# Bytes alone.
|→
|abc→
abc|→
abc|aXbXcX→abc
aa|baab→aa
abc|CBA→
 |a b c→\x20\x20
# Ranges with both ends.
0-9|+1 (555) 12-34→15551234
0-9|/09:→09
a-c|`abcd→abc
a-cx-z|abcdwxyz→abcxyz
a-c0-9_|A_a-0→_a0
b-b|abc→b
\x00-\xFF|a-\xFF→a-ÿ
\xC0-\xFF|a\xC0\xFF→Àÿ
# The wrong way round.
9-0|0-9→
9-0a|a9-0→a
c-a|abc-→
# A dash at an end.
-|a-b→-
-a|a-b→a-
a-|a-b→a-
-a-|a-b→a-
-a-c|abc-d→abc-
a-c-|abc-d→abc-
a-c-e|abcde-→abce-
--|a-b→-
---|a-b→-
# A dash at an end that is also the end of a range.
+--|*+,-.→+,-
--a|,-^ab→-^a
a--|a-→
";

/// A text in capitals, and in small letters.
pub(super) struct Letters;

impl Question for Letters {
    fn answer(alloc: Global, asked: &str) -> Result<String, Fail> {
        let text = bytes_of(alloc, asked)?;
        let mut out = String::new(alloc);
        push_bytes(&mut out, &to_upper(alloc, &text)?)?;
        out.push('|')?;
        push_bytes(&mut out, &to_lower(alloc, &text)?)?;
        Ok(out)
    }
}

/// Only ASCII letters are changed.
pub(super) const CAPITALS: &str = r"
→|
abc→ABC|abc
AbC xYz→ABC XYZ|abc xyz
az AZ 09→AZ AZ 09|az az 09
`{@[→`{@[|`{@[
\xE4\xC4→äÄ|äÄ
";
