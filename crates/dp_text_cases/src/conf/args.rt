//! Texts with their arguments, worked out by hand from the rules.
use dp_case_tables::{Question, bytes_of, push_bytes};
use dp_conf::{NoMemory, split_args, trim};
use std::alloc::Global;
use std::test::Fail;

/// Arguments are between bars.
pub(super) const ARGUMENTS: &str = r#"
→||
 \t →||
a→|a|
 a b →|a b|
a,b→|a|b|
 a , b →|a|b|
,→|||
,,→||||
a,→|a||
,a→||a|
(a,b)→|(a,b)|
a(b,c),d→|a(b,c)|d|
((a,b),c),d→|((a,b),c)|d|
(a,b→|(a,b|
a),b→|a)|b|
),(,),→|)|(,)||
))(a,b),c→|))(a,b)|c|
a)(,b→|a)(,b|
()(),()→|()()|()|
a"b,c"→|a"b|c"|
[a,b]→|[a|b]|
a\\,b→|a\\|b|
q,c,,,30→|q|c|||30|
main,s,1(x,y)→|main|s|1(x,y)|
a\n,\nb→|a\n|\nb|
( , ) , ( , )→|( , )|( , )|
"#;

fn push_arguments(out: &mut String, arguments: &[&[u8]]) -> Result<(), NoMemory> {
    out.push('|')?;
    for argument in arguments {
        push_bytes(out, argument)?;
        out.push('|')?;
    }
    Ok(())
}

/// The arguments of a text.
pub(super) struct SplitArguments;

impl Question for SplitArguments {
    fn answer(alloc: Global, asked: &str) -> Result<String, Fail> {
        let text = bytes_of(alloc, asked)?;
        let arguments = split_args(alloc, &text)?;
        let mut out = String::new(alloc);
        push_arguments(&mut out, &arguments)?;
        Ok(out)
    }
}

/// Blanks are bytes of 32 or less, except the line feed.
pub(super) const TRIMMED: &str = r"
→
 →
\x00\x01\x09\x0B\x1F\x20→
a→a
 a→a
a\r→a
\ta b\t→a b
\n→\n
 \n →\n
\na\n→\na\n
 \xFF →ÿ
! \x7F→! \x7F
";

/// A text without the blanks at its ends.
pub(super) struct Trimmed;

impl Question for Trimmed {
    fn answer(alloc: Global, asked: &str) -> Result<String, Fail> {
        let text = bytes_of(alloc, asked)?;
        let mut out = String::new(alloc);
        push_bytes(&mut out, trim(&text))?;
        Ok(out)
    }
}
