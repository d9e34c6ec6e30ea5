//! The lines from which the entries of a dialplan were loaded.
use dp_case_tables::{Question, bytes_of, check};
use dp_plan::{Dialplan, EntryId, EntryLines, NoMemory};
use std::alloc::Global;
use std::test::Fail;

/// The dialplan that a text loads as: each context as `[NAME]`, and after it the line of each of its entries.
struct LinesOfText;

impl Question for LinesOfText {
    fn answer(alloc: Global, asked: &str) -> Result<String, Fail> {
        let text = bytes_of(alloc, asked)?;
        lines_of(alloc, &text)
    }
}

/// Adds a blank, and then a line or `none`.
fn push_line(out: &mut String, line: Option<usize>) -> Result<(), NoMemory> {
    match line {
        Some(line) => write!(out, " {line}"),
        None => out.push_str(" none"),
    }
}

/// Adds the lines of the first `count` entries of a context.
fn push_lines(
    out: &mut String,
    lines: &EntryLines,
    context: usize,
    count: usize,
) -> Result<(), NoMemory> {
    for entry in 0..count {
        push_line(out, lines.line(EntryId { context, entry }))?;
    }
    Ok(())
}

fn push_contexts(out: &mut String, plan: &Dialplan, lines: &EntryLines) -> Result<(), NoMemory> {
    for (number, context) in plan.contexts().iter().enumerate() {
        write!(out, "[{}]", context.name())?;
        push_lines(out, lines, number, context.entries().len())?;
    }
    Ok(())
}

fn lines_of(alloc: Global, text: &[u8]) -> Result<String, Fail> {
    let loaded = Dialplan::load_with_lines(alloc, text)?;
    let mut out = String::new(alloc);
    push_contexts(&mut out, &loaded.plan, &loaded.lines)?;
    Ok(out)
}

const LINES: &str = r"
# Texts without contexts, and contexts without entries.
→
[general]\na=1\n[globals]\nB=2\n→
[m]\n→[m]
[m]\ninclude => o\n[o]\nold=1\n→[m][o]
# Lines are counted from 1, and the last line may end without a line feed.
[m]\nexten => s,1,A\n→[m] 2
[m]\nexten => s,1,A→[m] 2
[m]\nexten => s,1,A\nexten => s,2,B\nexten => t,1,C\n→[m] 2 3 4
# Comments, blank lines, headers, settings, variables and includes count as lines.
\n\n[m]\n\nexten => s,1,A\n; exten => s,2,B\n  \nexten => s,3,C ; exten\n\n\nexten => s,4,D\n\n→[m] 5 8 11
; a\n[general]\nx=1\n[globals]\nA=1\n[m]\nexten => s,1,A\ninclude => m\nold=1\nexten => s,2,B\n→[m] 7 10
# Lines that end with a carriage return count too, but a byte order mark is not a line.
[m]\r\nexten => s,1,A\r\n\r\n; c\r\nexten => s,2,B\r\n→[m] 2 5
\xEF\xBB\xBF[m]\nexten => s,1,A\n\nexten => s,2,B\n→[m] 2 4
\xEF\xBB\xBF\r\n[m]\r\nexten => s,1,A\r\n→[m] 3
# The entry of a line `same` has that line.
[m]\nexten => s,1,A\nsame => n,B\n\nsame => n,C\n same => 7,D\n→[m] 2 3 5 6
# A dropped entry has no line, and the lines of the other entries stay the same.
[m]\nexten => s,1,A\nexten => s,1,B\nexten => s,2,C\n→[m] 2 4
[m]\nexten => s,1(a),A\nsame => n(a),B\nsame => n(b),C\nexten => t,1(a),D\n→[m] 2 4 5
[m]\nexten => s,1,A\nsame => 1,B\nsame => n,C\nexten => s,2,D\nexten => s,1,E\nexten => s,3,F\n→[m] 2 4 7
[m]\nexten => _N,1,A\nexten => 2,1,B\nexten => _[2-9],1,C\nexten => _n,2,D\n→[m] 2 3 5
# Contexts are in the order of first appearance, and a context has the lines of all its sections.
[b]\nexten => s,1,A\n[a]\nexten => s,1,B\n[b]\nexten => s,2,C\n[a]\nexten => s,2,D\n→[b] 2 6[a] 4 8
[a]\nexten => s,1,A\n[b]\nexten => s,1,B\nexten => s,2,C\n[a]\nexten => s,1,D\nexten => s,2,E\n[c]\n[b]\nexten => s,2,F\nsame => n,G\n→[a] 2 8[b] 4 5 12[c]
# The lines are in the order of the file, even if a look-up asks the entries in another order.
[m]\nexten => _X.,1,A\nexten => s,2,B\nexten => s,1,C\nexten => 1,1,D\n→[m] 2 3 4 5
# More entries than a small context has.
[m]\nexten => s,1,A\nsame => n,B\nsame => n,C\nsame => n,D\nsame => 4,E\nsame => n,F\nsame => n,G\n[o]\nexten => s,1,H\n[m]\nexten => s,n,I\nexten => t,1,J\n→[m] 2 3 4 5 7 8 12 13[o] 10
";

/// Two contexts. The first has two entries, and the second has no entries.
const TWO: &[u8] = b"[m]\nexten => s,1,A\n\nexten => s,2,B\n[o]\n";

/// The line of an entry of that dialplan, given the number of its context and its own number.
struct LineOfEntry;

impl Question for LineOfEntry {
    fn answer(alloc: Global, asked: &str) -> Result<String, Fail> {
        line_of(alloc, asked)
    }
}

fn number_of(word: &str) -> Result<usize, Fail> {
    let number = word.parse::<usize>().ok().ok_or("no number")?;
    Ok(number)
}

fn line_of(alloc: Global, asked: &str) -> Result<String, Fail> {
    let (context, entry) = asked.split_once(' ').ok_or("no two numbers")?;
    let id = EntryId {
        context: number_of(context)?,
        entry: number_of(entry)?,
    };
    let loaded = Dialplan::load_with_lines(alloc, TWO)?;
    let mut out = String::new(alloc);
    push_line(&mut out, loaded.lines.line(id))?;
    Ok(out)
}

const LINE_OF: &str = r"
0 0→ 2
0 1→ 4
# If no entry has these numbers, there is no line.
0 2→ none
0 18446744073709551615→ none
1 0→ none
2 0→ none
18446744073709551615 0→ none
18446744073709551615 18446744073709551615→ none
";

fn check_tables(alloc: Global) -> Result<(), Fail> {
    check::<LinesOfText>(alloc, LINES)?;
    check::<LineOfEntry>(alloc, LINE_OF)
}

/// Entries have the lines from which they were loaded.
#[test]
fn entries_have_the_lines_from_which_they_were_loaded(rt: HostRuntime) -> Result<(), Fail> {
    check_tables(rt.alloc())
}
