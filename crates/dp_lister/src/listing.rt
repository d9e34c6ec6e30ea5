//! The canonical listing of a dialplan.
ghost use Rattle.std.specs.Prelude.{◌≡◌, ◌++◌, [], ◌∷◌, IfOk, codes, map};
ghost use Rattle.dp_conf.specs.Escape.{escape_text};
ghost use Rattle.dp_lister.specs.Again.{LoadsAs};
ghost use Rattle.dp_lister.specs.Listing as spec;
ghost use Rattle.dp_plan.specs.Loaded.{IsLoaded};
ghost use Rattle.dp_plan.specs.Plan.{PlanOf};

use crate::sink::ListingSink;
use crate::whole::Whole;
use dp_conf::{Text, cut_once};
use dp_plan::{Context, Dialplan, Entry, GlobalVariable, NoMemory, SharedText};
use itoa::Buffer;
use std::alloc::Global;

/// Adds a part of a text before a `;`, and the `;` as `\;`.
fn put_part<S: ListingSink>(out: &mut S, part: &[u8])
    ensures { S.takes out.old out.new (part.now ++ codes "\\;") }
{
    out.put(part);
    out.put(b"\\;");
}

/// Adds a text as it is written in a line: each `;` as `\;`, and everything else unchanged.
fn put_escaped<S: ListingSink>(out: &mut S, text: &[u8])
    ensures { S.takes out.old out.new (escape_text text.now) }
{
    let mut left = text;
    while let Some((part, rest)) = cut_once(left, b';') {
        put_part(out, part);
        left = rest;
    }
    out.put(left);
}

/// Adds the line of a global variable.
fn push_global<S: ListingSink>(out: &mut S, global: &GlobalVariable)
    ensures { S.takes out.old out.new (spec.line_text (spec.global_line global.now)) }
{
    put_escaped(out, global.name.bytes());
    out.put(b" => ");
    put_escaped(out, global.value.bytes());
    out.put(b"\n");
}

/// Adds a line for each global variable.
fn push_each_global<S: ListingSink>(out: &mut S, globals: &[GlobalVariable])
    ensures { S.takes out.old out.new (spec.text_of (map spec.global_line globals.now)) }
{
    for global in globals {
        push_global(out, global);
    }
}

/// Adds the lines of the global variables, if there are any.
fn push_globals<S: ListingSink>(out: &mut S, globals: &[GlobalVariable])
    ensures { S.takes out.old out.new (spec.text_of (spec.global_lines globals.now)) }
{
    if globals.is_empty() {
        return;
    }
    out.put(b"[globals]\n");
    push_each_global(out, globals);
}

/// Adds a priority with its label, if it has one.
fn push_priority<S: ListingSink>(out: &mut S, priority: u32, label: &Option<SharedText>)
    ensures { S.takes out.old out.new (escape_text (spec.priority_text priority label.now)) }
{
    let mut buffer = Buffer::new();
    put_escaped(out, buffer.format(priority).as_bytes());
    if let Some(label) = label {
        out.put(b"(");
        put_escaped(out, label.bytes());
        out.put(b")");
    }
}

/// Adds an application with its arguments.
fn push_application<S: ListingSink>(out: &mut S, name: &[u8], arguments: &[u8])
    ensures { S.takes out.old out.new (escape_text (spec.application_text name.now arguments.now)) }
{
    put_escaped(out, name);
    out.put(b"(");
    put_escaped(out, arguments);
    out.put(b")");
}

/// Adds the text after the name in the line of an entry.
fn push_after_name<S: ListingSink>(out: &mut S, entry: &Entry)
    ensures { S.takes out.old out.new (escape_text (spec.after_name entry.now)) }
{
    out.put(b",");
    push_priority(out, entry.priority.get(), &entry.label);
    out.put(b",");
    push_application(out, entry.application.bytes(), entry.arguments.bytes());
}

/// Adds the line of an entry.
fn push_entry<S: ListingSink>(out: &mut S, entry: &Entry)
    ensures { S.takes out.old out.new (spec.line_text (spec.entry_line entry.now)) }
{
    out.put(b"exten => ");
    put_escaped(out, entry.name.spelling());
    push_after_name(out, entry);
    out.put(b"\n");
}

/// Adds the lines of entries. Their names together may be much longer than the text of the dialplan, so none is added after a failure.
fn push_entries<S: ListingSink>(out: &mut S, entries: &[Entry])
    ensures { S.takes out.old out.new (spec.text_of (map spec.entry_line entries.now)) }
{
    for entry in entries {
        if out.has_failed() {
            return;
        }
        push_entry(out, entry);
    }
}

/// Adds the line of an include.
fn push_include<S: ListingSink>(out: &mut S, name: &Text)
    ensures { S.takes out.old out.new (spec.line_text (spec.include_line name.now)) }
{
    out.put(b"include => ");
    put_escaped(out, name.bytes());
    out.put(b"\n");
}

/// Adds the lines of includes.
fn push_includes<S: ListingSink>(out: &mut S, includes: &[Text])
    ensures { S.takes out.old out.new (spec.text_of (map spec.include_line includes.now)) }
{
    for name in includes {
        push_include(out, name);
    }
}

/// Adds the header of a context.
fn push_header<S: ListingSink>(out: &mut S, name: &[u8])
    ensures { S.takes out.old out.new (spec.line_text (spec.header_line name.now)) }
{
    out.put(b"[");
    put_escaped(out, name);
    out.put(b"]\n");
}

/// Adds the lines of a context.
fn push_context<S: ListingSink>(out: &mut S, context: &Context)
    ensures { S.takes out.old out.new (spec.text_of (spec.context_lines context.now)) }
{
    push_header(out, context.name().bytes());
    push_entries(out, context.entries());
    push_includes(out, context.includes());
}

/// Adds the lines of contexts.
fn push_contexts<S: ListingSink>(out: &mut S, contexts: &[Context])
    ensures { S.takes out.old out.new (spec.contexts_text contexts.now) }
{
    for context in contexts {
        push_context(out, context);
    }
}

/// Gives a sink the canonical listing of a dialplan piece by piece, so that it is never in memory as a whole.
#[tactic(auto, unfolding(crate::specs::Listing::listing))]
pub fn list_to<S: ListingSink>(plan: &Dialplan, out: &mut S)
    ensures { S.takes out.old out.new (spec.listing plan.now) }
{
    push_globals(out, plan.globals());
    push_contexts(out, plan.contexts());
}

/// The lines of the global variables and of the contexts.
fn listing_of(alloc: Global, plan: &Dialplan) -> Result<Vec<u8>, NoMemory>
    ensures { IfOk result (λ text. text.items ≡ spec.listing plan.now) }
{
    let mut whole = Whole::new(alloc);
    list_to(plan, &mut whole);
    whole.into_text()
}

/// The canonical listing of a dialplan: its global variables, if it has any, below `[globals]`, and each context with
/// its entries and then its includes, all in file order. The names of extensions have their canonical spelling,
/// priorities are numbers, applications have parentheses, and each `;` is written `\;`. Having one such text is this
/// program's own choice.
///
/// The listing loads as this dialplan again, with no notes other than `UnknownContext`.
///
/// It fails only if memory runs out.
pub fn list(alloc: Global, plan: &Dialplan) -> Result<Vec<u8>, NoMemory>
    ensures listing { IfOk result (λ text. text.items ≡ spec.listing plan.now) }
    ensures again { IfOk result (λ text. LoadsAs plan.now text.items) }
{
    plan.show_loaded();
    let text = listing_of(alloc, plan)?;
    Ok(text)
}

/// States that the listing of each dialplan that some text loads as loads as this dialplan again, with no notes other
/// than `UnknownContext`: the same global variables, contexts, entries and includes, with names of the same meaning. It
/// does nothing.
pub fn listings_load_again()
    ensures { (plan : PlanOf) → IsLoaded plan → LoadsAs plan (spec.listing plan) }
{}
