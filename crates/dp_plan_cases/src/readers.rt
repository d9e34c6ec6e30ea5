//! The readers of a loaded dialplan, and priorities.
use dp_case_tables::{Question, bytes_of, check, text_of};
use dp_plan::{Context, Dialplan, Entry, EntryId, MOST_PRIORITY, NoMemory, Note, Priority, Text};
use std::alloc::Global;
use std::test::Fail;

/// Two contexts. The first has two sections, and the second has no entries.
const PLAN: &[u8] =
    b"[globals]\nB=2\nA=1\nB=3\n[main]\nexten => s,1,NoOp(a,b)\nexten => s,1,Wait()\n\
[Out]\n[main]\nexten => 100,7,Hangup\nold=x\n";

/// Three contexts with patterns, labels and includes. The last is empty.
const NAMED: &[u8] = b"[main]\nexten => _1XX,2(more),Second()\nexten => _X.,1,Any(x)\n\
exten => 1-23,1( top ),Plain()\nexten => _[1]xx,1,First()\ninclude => out\n\
[out]\ninclude => nowhere\ninclude => main\nexten => s,1,Out()\ninclude => nowhere\n\
[Out]\n[main]\ninclude => main\nexten => 123,1(more),Again()\nexten => _1XX,3(more),Third()\n";

/// The empty name may be included, but is not a context.
const EMPTY: &[u8] = b"[m]\ninclude =>\nexten => s,1,A\n";

/// Adds the name of an entry in its one spelling, and its priority with the label.
fn push_place(out: &mut String, alloc: Global, entry: &Entry) -> Result<(), NoMemory> {
    let name = Text::new(entry.name.name().text(alloc)?);
    write!(out, "{name} {}", entry.priority.get())?;
    match &entry.label {
        Some(label) => write!(out, "({label})"),
        None => Ok(()),
    }
}

/// Adds the name of an entry, its priority with the label, its application and its arguments, or `none`.
fn push_found(out: &mut String, alloc: Global, found: Option<&Entry>) -> Result<(), NoMemory> {
    match found {
        None => out.push_str("none"),
        Some(entry) => {
            push_place(out, alloc, entry)?;
            write!(out, " {} ({})", entry.application, entry.arguments)
        }
    }
}

fn push_number(out: &mut String, number: Option<usize>) -> Result<(), NoMemory> {
    match number {
        Some(number) => write!(out, "{number}"),
        None => out.push_str("none"),
    }
}

/// Adds names of contexts, each as `{+NAME}`.
fn push_includes(out: &mut String, includes: &[Text]) -> Result<(), NoMemory> {
    for name in includes {
        write!(out, "{{+{name}}}")?;
    }
    Ok(())
}

/// Adds numbers of entries, each as `<CONTEXT,ENTRY>`.
fn push_ids(out: &mut String, ids: &[EntryId]) -> Result<(), NoMemory> {
    for id in ids {
        write!(out, "<{},{}>", id.context, id.entry)?;
    }
    Ok(())
}

/// Adds the contexts, each as `[NAME]` with how many entries and how many includes it has.
fn push_contexts(out: &mut String, plan: &Dialplan) -> Result<(), NoMemory> {
    for context in plan.contexts() {
        let (entries, includes) = (context.entries().len(), context.includes().len());
        write!(out, "[{}]{entries},{includes}", context.name())?;
    }
    Ok(())
}

/// Adds the includes of each context, as the context gives them.
fn push_all_includes(out: &mut String, plan: &Dialplan) -> Result<(), NoMemory> {
    for context in plan.contexts() {
        push_includes(out, context.includes())?;
        out.push('.')?;
    }
    Ok(())
}

fn push_globals(out: &mut String, plan: &Dialplan) -> Result<(), NoMemory> {
    for global in plan.globals() {
        write!(out, "{{{}={}}}", global.name, global.value)?;
    }
    Ok(())
}

fn number_of(word: &str) -> Result<usize, Fail> {
    let number = word.parse::<usize>().ok().ok_or("no number")?;
    Ok(number)
}

fn push_entry_at(
    out: &mut String,
    alloc: Global,
    plan: &Dialplan,
    words: &str,
) -> Result<(), Fail> {
    let (context, entry) = words.split_once(' ').ok_or("no two numbers")?;
    let id = EntryId {
        context: number_of(context)?,
        entry: number_of(entry)?,
    };
    push_found(out, alloc, plan.entry(id))?;
    Ok(())
}

fn push_named(
    out: &mut String,
    alloc: Global,
    plan: &Dialplan,
    reader: &str,
    name: &str,
) -> Result<(), Fail> {
    let name = Text::copy_of(alloc, name.as_bytes())?;
    match reader {
        "number_of" => push_number(out, plan.number_of(&name))?,
        "includes" => push_includes(out, plan.includes(&name))?,
        "ranked" => push_ids(out, plan.ranked(&name))?,
        _ => out.push_str("no such reader")?,
    }
    Ok(())
}

fn push_numbered(
    out: &mut String,
    plan: &Dialplan,
    reader: &str,
    number: usize,
) -> Result<(), NoMemory> {
    if reader == "ranked_at" {
        push_ids(out, plan.ranked_at(number))
    } else {
        push_includes(out, plan.includes_at(number))
    }
}

fn push_asked(
    out: &mut String,
    alloc: Global,
    plan: &Dialplan,
    reader: &str,
    words: &str,
) -> Result<(), Fail> {
    match reader {
        "contexts" => push_contexts(out, plan)?,
        "context.includes" => push_all_includes(out, plan)?,
        "globals" => push_globals(out, plan)?,
        "entry" => push_entry_at(out, alloc, plan, words)?,
        "includes_at" | "ranked_at" => push_numbered(out, plan, reader, number_of(words)?)?,
        _ => push_named(out, alloc, plan, reader, words)?,
    }
    Ok(())
}

/// The answer of a reader of the dialplan. The question is the reader's name, and after a blank what it is asked.
fn read(alloc: Global, plan: &Dialplan, asked: &str) -> Result<String, Fail> {
    let (reader, words) = asked.split_once(' ').ok_or("no reader")?;
    let mut out = String::new(alloc);
    push_asked(&mut out, alloc, plan, reader, words)?;
    Ok(out)
}

fn push_note_lines(out: &mut String, notes: &[Note]) -> Result<(), NoMemory> {
    for note in notes {
        write!(out, "{} {},", note.line, note.kind.name())?;
    }
    Ok(())
}

/// The notes on the lines of a text.
fn notes_of(alloc: Global, text: &[u8]) -> Result<String, Fail> {
    let (_, notes) = Dialplan::load(alloc, text)?;
    let mut out = String::new(alloc);
    push_note_lines(&mut out, &notes)?;
    Ok(out)
}

/// The answer of a reader of one of the dialplans above. The answer to `notes` is the notes on its lines.
fn read_of(alloc: Global, text: &[u8], asked: &str) -> Result<String, Fail> {
    if asked == "notes" {
        return notes_of(alloc, text);
    }
    let (plan, _) = Dialplan::load(alloc, text)?;
    read(alloc, &plan, asked)
}

struct OfPlan;

impl Question for OfPlan {
    fn answer(alloc: Global, asked: &str) -> Result<String, Fail> {
        read_of(alloc, PLAN, asked)
    }
}

struct OfNamed;

impl Question for OfNamed {
    fn answer(alloc: Global, asked: &str) -> Result<String, Fail> {
        read_of(alloc, NAMED, asked)
    }
}

struct OfEmpty;

impl Question for OfEmpty {
    fn answer(alloc: Global, asked: &str) -> Result<String, Fail> {
        read_of(alloc, EMPTY, asked)
    }
}

struct OfNothing;

impl Question for OfNothing {
    fn answer(alloc: Global, asked: &str) -> Result<String, Fail> {
        read_of(alloc, b"", asked)
    }
}

/// A dialplan is read by numbers and names.
const READ_OF_PLAN: &str = r"
# Contexts are in the order of first appearance, and global variables in the order of the file.
contexts →[main]2,0[Out]0,0
globals →{B=2}{A=1}{B=3}
# Entries are read by their numbers.
entry 0 0→s 1 NoOp (a,b)
entry 0 1→100 7 Hangup ()
entry 0 2→none
entry 0 18446744073709551615→none
entry 1 0→none
entry 2 0→none
entry 18446744073709551615 0→none
entry 18446744073709551615 18446744073709551615→none
# Case counts in the names of contexts. Settings and global variables are not contexts.
number_of main→0
number_of Out→1
number_of out→none
number_of Main→none
number_of mai→none
number_of main →none
number_of globals→none
number_of →none
# Notes name their lines.
notes→7 DoublePriority,11 UnknownKey,
";

/// Names, labels, includes and rankings are read.
const READ_OF_NAMED: &str = r"
# Names are read in their one spelling, and labels without the blanks at their ends.
entry 0 0→_1XX 2(more) Second ()
entry 0 1→_X. 1 Any (x)
entry 0 2→123 1(top) Plain ()
entry 0 3→_1XX 1 First ()
entry 1 0→s 1 Out ()
# Includes are in the order of the file, as often as they are written, whether or not there is such a context.
includes main→{+out}{+main}
includes out→{+nowhere}{+main}{+nowhere}
includes Out→
includes OUT→
includes nowhere→
includes general→
includes main →
includes →
includes_at 0→{+out}{+main}
includes_at 1→{+nowhere}{+main}{+nowhere}
includes_at 2→
includes_at 3→
includes_at 18446744073709551615→
context.includes →{+out}{+main}.{+nowhere}{+main}{+nowhere}..
# Plain names come before patterns, and more specific patterns before others. Entries of one name are in the order of their priorities.
ranked main→<0,2><0,3><0,0><0,1>
ranked out→<1,0>
ranked Out→
ranked OUT→
ranked nowhere→
ranked globals→
ranked  main→
ranked →
ranked_at 0→<0,2><0,3><0,0><0,1>
ranked_at 1→<1,0>
ranked_at 2→
ranked_at 3→
ranked_at 18446744073709551615→
# Notes name their lines.
notes→8 UnknownContext,11 UnknownContext,15 DoublePriority,16 DoubleLabel,
";

/// The empty name is an unknown context.
const READ_OF_EMPTY: &str = r"
includes_at 0→{+}
number_of →none
includes →
ranked →
# Notes name their lines.
notes→2 UnknownContext,
";

/// An empty file loads as an empty dialplan.
const READ_OF_NOTHING: &str = r"
globals →
contexts →
entry 0 0→none
number_of main→none
includes main→
includes_at 0→
ranked main→
ranked_at 0→
# Notes name their lines.
notes→
";

fn push_limit(out: &mut String, number: Option<u32>) -> Result<(), NoMemory> {
    match number {
        Some(number) => write!(out, "{number}"),
        None => out.push_str("none"),
    }
}

fn number_text(alloc: Global, number: Option<u32>) -> Result<String, Fail> {
    let mut out = String::new(alloc);
    push_limit(&mut out, number)?;
    Ok(out)
}

/// The priority with a number, or `none`. The answer to `most` is the greatest priority.
struct Limits;

impl Question for Limits {
    fn answer(alloc: Global, asked: &str) -> Result<String, Fail> {
        if asked == "most" {
            return number_text(alloc, Some(MOST_PRIORITY));
        }
        let number = asked.parse::<u32>().ok().ok_or("no number")?;
        number_text(alloc, Priority::new(number).map(|priority| priority.get()))
    }
}

/// The limits of priorities.
const LIMITS: &str = r"
0→none
1→1
2→2
2147483647→2147483647
2147483648→none
4294967295→none
most→2147483647
";

fn has_globals_of(alloc: Global, left: &Dialplan, right: &[u8]) -> Result<bool, Fail> {
    let (right, _) = Dialplan::load(alloc, right)?;
    Ok(left.globals() == right.globals())
}

fn have_same_globals(alloc: Global, left: &[u8], right: &[u8]) -> Result<bool, Fail> {
    let (left, _) = Dialplan::load(alloc, left)?;
    has_globals_of(alloc, &left, right)
}

fn compared_globals(alloc: Global, left: &[u8], right: &[u8]) -> Result<String, Fail> {
    let is_same = have_same_globals(alloc, left, right)?;
    text_of(alloc, if is_same { "same" } else { "other" })
}

/// Whether the texts on both sides of a bar have the same global variables. These are compared by all that they hold.
struct SameGlobals;

impl Question for SameGlobals {
    fn answer(alloc: Global, asked: &str) -> Result<String, Fail> {
        let (left, right) = asked.split_once('|').ok_or("no two texts")?;
        let left = bytes_of(alloc, left)?;
        let right = bytes_of(alloc, right)?;
        compared_globals(alloc, &left, &right)
    }
}

const SAME_GLOBALS: &str = r"
[globals]\nA=1\n|[globals]\nA = 1\n[m]\n→same
[globals]\nA=1\n|[globals]\nA=2\n→other
";

fn push_bytes_of_name(out: &mut String, alloc: Global, entry: &Entry) -> Result<(), NoMemory> {
    let name = Text::new(entry.name.name().text(alloc)?);
    write!(out, "<{name:?} ")
}

fn push_bytes_of_words(out: &mut String, entry: &Entry) -> Result<(), NoMemory> {
    write!(out, "{:?} {:?}>", entry.application, entry.arguments)
}

fn push_bytes_of_entry(out: &mut String, alloc: Global, entry: &Entry) -> Result<(), NoMemory> {
    push_bytes_of_name(out, alloc, entry)?;
    write!(out, "{:?} ", entry.label)?;
    push_bytes_of_words(out, entry)
}

fn push_bytes_of_entries(
    out: &mut String,
    alloc: Global,
    entries: &[Entry],
) -> Result<(), NoMemory> {
    for entry in entries {
        push_bytes_of_entry(out, alloc, entry)?;
    }
    Ok(())
}

fn push_bytes_of_context(
    out: &mut String,
    alloc: Global,
    context: &Context,
) -> Result<(), NoMemory> {
    write!(out, "[{:?}]", context.name())?;
    push_bytes_of_entries(out, alloc, context.entries())?;
    write!(out, "{:?}", context.includes())
}

/// Adds a dialplan. Each byte that is not a character is shown by its number.
fn push_bytes(out: &mut String, alloc: Global, plan: &Dialplan) -> Result<(), NoMemory> {
    for global in plan.globals() {
        write!(out, "{{{:?}={:?}}}", global.name, global.value)?;
    }
    for context in plan.contexts() {
        push_bytes_of_context(out, alloc, context)?;
    }
    Ok(())
}

/// A dialplan with all its bytes, and its notes.
struct AllBytes;

impl Question for AllBytes {
    fn answer(alloc: Global, asked: &str) -> Result<String, Fail> {
        let text = bytes_of(alloc, asked)?;
        bytes_shown(alloc, &text)
    }
}

fn bytes_shown(alloc: Global, text: &[u8]) -> Result<String, Fail> {
    let (plan, notes) = Dialplan::load(alloc, text)?;
    shown_bytes(alloc, &plan, &notes)
}

fn push_all_bytes(
    out: &mut String,
    alloc: Global,
    plan: &Dialplan,
    notes: &[Note],
) -> Result<(), NoMemory> {
    push_bytes(out, alloc, plan)?;
    push_note_lines(out, notes)
}

fn shown_bytes(alloc: Global, plan: &Dialplan, notes: &[Note]) -> Result<String, Fail> {
    let mut out = String::new(alloc);
    push_all_bytes(&mut out, alloc, plan, notes)?;
    Ok(out)
}

/// Bytes above 127 are kept as they are, and the bytes of a set are in byte order.
const HIGH_BYTES: &str = r#"
[globals]\n\xFF=\x80\x81\n[\xFE]\nexten => \xFF-\x80,1(\xFD),\xC3(\xA9\x00)\nexten => _[\xFF\x80a]\xE9,1,A\ninclude => \xFC\n→{"\\xff"="\\x80\\x81"}["\\xfe"]<"\\xff\\x80" Some("\\xfd") "\\xc3" "\\xa9\\0"><"_[a\\x80\\xff]\\xe9" None "A" "">["\\xfc"]6 UnknownContext,
"#;

fn check_readers(alloc: Global) -> Result<(), Fail> {
    check::<OfPlan>(alloc, READ_OF_PLAN)?;
    check::<OfNamed>(alloc, READ_OF_NAMED)?;
    check::<OfEmpty>(alloc, READ_OF_EMPTY)?;
    check::<OfNothing>(alloc, READ_OF_NOTHING)
}

/// Dialplans are read by numbers and names.
#[test]
fn dialplans_are_read_by_numbers_and_names(rt: HostRuntime) -> Result<(), Fail> {
    check_readers(rt.alloc())
}

fn check_values(alloc: Global) -> Result<(), Fail> {
    check::<Limits>(alloc, LIMITS)?;
    check::<SameGlobals>(alloc, SAME_GLOBALS)?;
    check::<AllBytes>(alloc, HIGH_BYTES)
}

/// Priorities have limits, global variables compare, and bytes above 127 are kept.
#[test]
fn priorities_globals_and_high_bytes_keep_their_values(rt: HostRuntime) -> Result<(), Fail> {
    check_values(rt.alloc())
}
