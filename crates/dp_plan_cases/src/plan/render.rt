//! Loaded dialplans and faults, rendered as one line of text.
use dp_case_tables::{Question, bytes_of};
use dp_plan::{
    Context, Dialplan, Entry, LoadFault, LoadKind, Name, NoMemory, Note, PlanKind, SharedText, Text,
};
use std::alloc::Global;
use std::test::Fail;

/// What a text loads as, written as `plan_text` says.
pub(super) struct PlanLoads;

impl Question for PlanLoads {
    fn answer(alloc: Global, asked: &str) -> Result<String, Fail> {
        let text = bytes_of(alloc, asked)?;
        let read = Dialplan::load(alloc, &text);
        let got = plan_text(alloc, &read)?;
        Ok(got)
    }
}

/// Adds the canonical spelling of a name.
fn push_name(out: &mut String, alloc: Global, name: &Name) -> Result<(), NoMemory> {
    let spelled = Text::new(name.text(alloc)?);
    write!(out, "{spelled}")
}

fn push_label(out: &mut String, label: &Option<SharedText>) -> Result<(), NoMemory> {
    match label {
        Some(label) => write!(out, "({label})"),
        None => Ok(()),
    }
}

fn push_entry(out: &mut String, alloc: Global, entry: &Entry) -> Result<(), NoMemory> {
    let Entry {
        name,
        priority,
        label,
        application,
        arguments,
    } = entry;
    let number = priority.get();
    out.push_str("<")?;
    push_name(out, alloc, name.name())?;
    write!(out, ",{number}")?;
    push_label(out, label)?;
    write!(out, ",{application}({arguments})>")
}

fn push_context(out: &mut String, alloc: Global, context: &Context) -> Result<(), NoMemory> {
    write!(out, "[{}]", context.name())?;
    for entry in context.entries() {
        push_entry(out, alloc, entry)?;
    }
    for include in context.includes() {
        write!(out, "{{+{include}}}")?;
    }
    Ok(())
}

fn push_plan(out: &mut String, alloc: Global, plan: &Dialplan) -> Result<(), NoMemory> {
    for global in plan.globals() {
        write!(out, "{{{}={}}}", global.name, global.value)?;
    }
    for context in plan.contexts() {
        push_context(out, alloc, context)?;
    }
    Ok(())
}

/// A dialplan written as `plan_text` says, without its notes.
pub(crate) fn shown_plan(alloc: Global, plan: &Dialplan) -> Result<String, NoMemory> {
    let mut out = String::new(alloc);
    push_plan(&mut out, alloc, plan)?;
    Ok(out)
}

fn push_line_fault(out: &mut String, line: usize, kind: LoadKind) -> Result<(), NoMemory> {
    let code = kind.code();
    match kind {
        LoadKind::Plan(PlanKind::LeftOut(word)) => {
            write!(out, "fault {code} {word:?} line {line}")
        }
        _ => write!(out, "fault {code} line {line}"),
    }
}

/// Adds a fault, written as `plan_text` says.
pub(super) fn push_fault(out: &mut String, fault: LoadFault) -> Result<(), NoMemory> {
    match fault {
        LoadFault::Line { line, kind } => push_line_fault(out, line, kind),
        LoadFault::NoMemory => out.push_str("no memory"),
    }
}

/// Writes a dialplan or a fault. A dialplan is its global variables `{NAME=VALUE}`, its contexts, and its notes ` note LINE KIND`.
/// A context is `[NAME]` with its entries and its includes `{+NAME}`. An entry is `<NAME,PRIORITY,APPLICATION(ARGUMENTS)>`, or
/// `<NAME,PRIORITY(LABEL),APPLICATION(ARGUMENTS)>` if it has a label. A fault is `fault CODE line L`, or `fault 24 WORD line L` if
/// the line has a form that is left out.
pub(super) fn plan_text(
    alloc: Global,
    read: &Result<(Dialplan, Vec<Note>), LoadFault>,
) -> Result<String, NoMemory> {
    let mut out = String::new(alloc);
    push_read(&mut out, alloc, read)?;
    Ok(out)
}

fn push_read(
    out: &mut String,
    alloc: Global,
    read: &Result<(Dialplan, Vec<Note>), LoadFault>,
) -> Result<(), NoMemory> {
    match read {
        Ok((plan, notes)) => {
            push_plan(out, alloc, plan)?;
            push_notes(out, notes)
        }
        Err(fault) => push_fault(out, *fault),
    }
}

fn push_notes(out: &mut String, notes: &[Note]) -> Result<(), NoMemory> {
    for note in notes {
        write!(out, " note {} {}", note.line, note.kind.name())?;
    }
    Ok(())
}

fn push_ranked(out: &mut String, alloc: Global, entry: Option<&Entry>) -> Result<(), NoMemory> {
    match entry {
        Some(entry) => {
            let number = entry.priority.get();
            out.push_str("<")?;
            push_name(out, alloc, entry.name.name())?;
            write!(out, ",{number}>")
        }
        None => out.push_str("<>"),
    }
}

/// The entries of the context with this number, in the order in which a look-up asks them, each as `<NAME,PRIORITY>`.
pub(super) fn ranking(alloc: Global, plan: &Dialplan, number: usize) -> Result<String, NoMemory> {
    let mut out = String::new(alloc);
    for id in plan.ranked_at(number) {
        push_ranked(&mut out, alloc, plan.entry(*id))?;
    }
    Ok(out)
}
