//! Configuration texts with their items or their fault, worked out by hand from the rules.
use dp_case_tables::{Question, bytes_of, check, check_all, text_of};
use dp_conf::{ConfFault, ConfLine, Line, NoMemory, TakeLine, Text, read_lines, take_lines};
use std::alloc::Global;
use std::marker::Model;
use std::test::Fail;

/// Items as `1[name]` and `2{key}{value}`, one after another, or `fault CODE line L`.
const TEXTS: &str = r#"
# Nothing to read.
→
\n→
\n\n\n→
 \t\r\n\x00\x1f\n→
; a comment→
   ; a comment\n;another\n→
\xEF\xBB\xBF→
\xEF\xBB\xBF\n; x\n→
# Headers.
[main]→1[main]
[main]\n→1[main]
\xEF\xBB\xBF[main]→1[main]
 [ main ] →1[main]
\t[main]\r\n[out]\r\n→1[main]2[out]
\n\n[a]\n[a]\n→3[a]4[a]
[two words]→1[two words]
[[x]→1[[x]
[x] ; (!)→1[x]
[a\\;b]→1[a;b]
[a=b]→1[a=b]
[#a]→1[#a]
# Pairs.
[m]\na=b→1[m]2{a}{b}
[m]\na => b\n→1[m]2{a}{b}
[m]\n a\t=\tb c \r\n→1[m]2{a}{b c}
[m]\na=>b→1[m]2{a}{b}
[m]\na = > b→1[m]2{a}{> b}
[m]\na =>> b→1[m]2{a}{> b}
[m]\na==b→1[m]2{a}{=b}
[m]\na=b=c→1[m]2{a}{b=c}
[m]\n=b→1[m]2{}{b}
[m]\na=→1[m]2{a}{}
[m]\n=→1[m]2{}{}
[m]\n => →1[m]2{}{}
[m]\na=[b]→1[m]2{a}{[b]}
[m]\n\n;\n\na=b\n\nc=d→1[m]5{a}{b}7{c}{d}
# Semicolons and backslashes.
[m]\na=b;c→1[m]2{a}{b}
[m]\na=b\\;c→1[m]2{a}{b;c}
[m]\na=b\\\\;c→1[m]2{a}{b\\;c}
[m]\na=b\\;;c→1[m]2{a}{b;}
[m]\na=\\;;--- x→1[m]2{a}{;}
[m]\na=b\\c\\→1[m]2{a}{b\\c\\}
[m]\na=;b→1[m]2{a}{}
[m];--- x\na=b ;---- y→1[m]2{a}{b}
[m]\na=b ;- x→1[m]2{a}{b}
# The fault of a line.
;-- x→fault 1 line 1
[m]\n ;--→fault 1 line 2
[m]\na=1 ;-- x→fault 1 line 2
[x ;-- y→fault 1 line 1
a=1→fault 2 line 1
abc→fault 2 line 1
\n\na => b\n[m]\n→fault 2 line 3
[x→fault 3 line 1
[]→fault 3 line 1
[ ]→fault 3 line 1
[](!)→fault 3 line 1
[a]b]→fault 3 line 1
[m]\n[x] y(!)→fault 3 line 2
[m]\nabc→fault 4 line 2
#include "x"→fault 5 line 1
[m]\n#a=b→fault 5 line 2
[x](!)→fault 6 line 1
[x] (+)→fault 6 line 1
# The first faulty line of several.
[m]\nabc\n;-- x\n[→fault 4 line 2
"#;

/// The items of a text as the rows show them, one after another. Contracts see nothing of them: the rows show everything.
#[derive(Drop)]
struct ShownItems {
    out: String,
}

impl Model for ShownItems {
    ghost Value = { Unit {0} };

    ghost view = { λ _. tt };
}

fn push_header(out: &mut String, line: usize, name: &Text) -> Result<(), NoMemory> {
    write!(out, "{line}[{name}]")
}

fn push_pair(out: &mut String, line: usize, key: &Text, value: &Text) -> Result<(), NoMemory> {
    write!(out, "{line}{{{key}}}{{{value}}}")
}

impl TakeLine for ShownItems {
    ghost after_line = { λ shown _. shown };

    fn take(&mut self, alloc: Global, line: Line<'_>) -> Result<(), NoMemory> {
        match line {
            Line::Header { line, name } => {
                let name = Text::copy_of(alloc, name)?;
                push_header(&mut self.out, line, &name)
            }
            Line::Pair { line, key, value } => {
                let key = Text::copy_of(alloc, key)?;
                let value = Text::copy_of(alloc, value)?;
                push_pair(&mut self.out, line, &key, &value)
            }
        }
    }
}

fn items_of(alloc: Global, text: &[u8]) -> Result<String, ConfFault> {
    let out = String::new(alloc);
    let mut shown = ShownItems { out };
    take_lines(alloc, text, &mut shown)?;
    let ShownItems { out } = shown;
    Ok(out)
}

/// The items of a text that is read at once.
fn items_read(alloc: Global, text: &[u8]) -> Result<String, ConfFault> {
    let mut out = String::new(alloc);
    for item in read_lines(alloc, text)?.iter() {
        match item {
            ConfLine::Header { line, name } => push_header(&mut out, *line, name)?,
            ConfLine::Pair { line, key, value } => push_pair(&mut out, *line, key, value)?,
        }
    }
    Ok(out)
}

fn fault_text(alloc: Global, fault: &ConfFault) -> Result<String, NoMemory> {
    let mut out = String::new(alloc);
    match fault {
        ConfFault::At { line, kind } => {
            let code = kind.code();
            write!(out, "fault {code} line {line}")?;
        }
        ConfFault::NoMemory => out.push_str("out of memory")?,
    }
    Ok(out)
}

fn items_or_fault(alloc: Global, items: Result<String, ConfFault>) -> Result<String, Fail> {
    match items {
        Ok(items) => Ok(items),
        Err(fault) => {
            let got = fault_text(alloc, &fault)?;
            Ok(got)
        }
    }
}

/// The items of a text, or its fault.
struct ItemsOfText;

impl Question for ItemsOfText {
    fn answer(alloc: Global, asked: &str) -> Result<String, Fail> {
        let text = bytes_of(alloc, asked)?;
        items_or_fault(alloc, items_of(alloc, &text))
    }
}

/// The same for a text that is read at once.
struct ItemsReadAtOnce;

impl Question for ItemsReadAtOnce {
    fn answer(alloc: Global, asked: &str) -> Result<String, Fail> {
        let text = bytes_of(alloc, asked)?;
        items_or_fault(alloc, items_read(alloc, &text))
    }
}

/// The items that were taken, up to the fault if there is one.
struct TakenItems;

impl Question for TakenItems {
    fn answer(alloc: Global, asked: &str) -> Result<String, Fail> {
        let text = bytes_of(alloc, asked)?;
        let out = String::new(alloc);
        let mut shown = ShownItems { out };
        let _fault = take_lines(alloc, &text, &mut shown);
        let ShownItems { out } = shown;
        Ok(out)
    }
}

/// The lines before the faulty one are taken, and none after it.
const TAKEN: &str = r"
[m]\na=b\nabc\nc=d→1[m]2{a}{b}
[m]\na=b\n[n\n[o]→1[m]2{a}{b}
abc\n[m]→
[m]\na=1 ;-- x→1[m]
[m]\na=b→1[m]2{a}{b}
";

/// Each line comes after `[main]`.
const FAULT_LINES: &str = r#"
[main]\nabc→fault 4 line 2
[main]\n#include "x"→fault 5 line 2
[main]\n[x→fault 3 line 2
[main]\n[x](!)→fault 6 line 2
a=1\n[main]→fault 2 line 1
"#;

/// A `\;` is a semicolon, and `;--` is refused, while `;---` is a comment.
const ESCAPED_SEMICOLONS: &str = r"
[main]\nexten => s,1,NoOp(a\\;b\\\\;c)\n→1[main]2{exten}{s,1,NoOp(a;b\\;c)}
[main]\n\n;-- x\n→fault 1 line 3
[main]\n\n;--- x\n→1[main]
";

fn have_same_items(alloc: Global, left: &[u8], right: &[u8]) -> Result<bool, Fail> {
    let left = items_of(alloc, left)?;
    let right = items_of(alloc, right)?;
    Ok(left == right)
}

fn comparison(alloc: Global, left: &[u8], right: &[u8]) -> Result<String, Fail> {
    let is_same = have_same_items(alloc, left, right)?;
    text_of(alloc, if is_same { "same" } else { "other" })
}

/// Whether the texts on both sides of a bar have the same items: these compare by their lines, keys and values.
struct Compared;

impl Question for Compared {
    fn answer(alloc: Global, asked: &str) -> Result<String, Fail> {
        let (left, right) = asked.split_once('|').ok_or("no two texts")?;
        let left = bytes_of(alloc, left)?;
        let right = bytes_of(alloc, right)?;
        comparison(alloc, &left, &right)
    }
}

const COMPARED: &str = r"
[m]\na=b\n[n]\n|[m]\na = b\n[n] ; x\n→same
[m]\na=b\n[n]\n|[m]\na=c\n[n]\n→other
";

fn check_items(alloc: Global) -> Result<(), Fail> {
    check_all::<ItemsOfText>(alloc, &[TEXTS, FAULT_LINES, ESCAPED_SEMICOLONS])?;
    check_all::<ItemsReadAtOnce>(alloc, &[TEXTS, FAULT_LINES, ESCAPED_SEMICOLONS])?;
    check::<TakenItems>(alloc, TAKEN)?;
    check::<Compared>(alloc, COMPARED)
}

#[test]
fn texts_have_these_items(rt: HostRuntime) -> Result<(), Fail> {
    check_items(rt.alloc())
}
