//! Functions of the wide table in texts, worked out by hand from the rules.
mod callers;
mod cells;
mod expressions;
mod fields;
mod names;
mod texts;

ghost use Rattle.std.specs.Prelude.{◌≡◌, Some, None, codes, if◌then◌else◌};
ghost use Rattle.dp_conf.specs.Words.{same_text};

use dp_case_tables::{Question, bytes_of, check, check_all, push_bytes};
use dp_conf::NoMemory;
use dp_vars::{ChannelSeen, Counts, Expanded, Globals, Scope, Store, expand_text_checked};
use dp_wide::{WideFunctions, is_computed};
use std::alloc::Global;
use std::test::Fail;

/// The queue `sales` has two members, and three calls wait in it. The queue `idle` has nobody.
struct TwoQueues;

impl Counts for TwoQueues {
    ghost count = { λ _. record {
      waiting = λ queue. if same_text queue (codes "sales") then 3 else 0;
      members = λ queue. if same_text queue (codes "sales") then Some 2
          else (if same_text queue (codes "idle") then Some 0 else None);
    } };

    fn waiting(&self, queue: &[u8]) -> usize {
        if queue == b"sales".as_slice() { 3 } else { 0 }
    }

    fn members(&self, queue: &[u8]) -> Option<usize> {
        if queue == b"sales".as_slice() {
            Some(2)
        } else if queue == b"idle".as_slice() {
            Some(0)
        } else {
            None
        }
    }
}

/// What a text sees: a channel unless it left, its variables, and the globals.
#[derive(Drop)]
struct SeenWorld {
    is_here: bool,
    store: Store<u32>,
    globals: Globals,
}

impl SeenWorld {
    fn new(alloc: Global) -> SeenWorld {
        SeenWorld {
            is_here: true,
            store: Store::new(alloc),
            globals: Globals::new(alloc),
        }
    }

    fn scope(&self) -> Scope<'_, u32, TwoQueues> {
        let channel = ChannelSeen {
            number: 7,
            context: b"main",
            extension: b"9-100-7",
            priority: 2,
            caller: b"5551234",
        };
        Scope {
            channel: if self.is_here { Some(channel) } else { None },
            store: if self.is_here {
                Some(&self.store)
            } else {
                None
            },
            globals: &self.globals,
            counts: &TwoQueues,
        }
    }
}

/// Sets what a word says: a variable, or else a global.
fn set(
    alloc: Global,
    world: &mut SeenWorld,
    word: &str,
    name: &[u8],
    value: &[u8],
) -> Result<(), NoMemory> {
    match word {
        "set" => world.store.set(alloc, name, value),
        _ => world.globals.put(alloc, name, value),
    }
}

/// A step: `gone`, or `set` or `global` with `NAME=VALUE`.
fn take_step(alloc: Global, world: &mut SeenWorld, step: &str) -> Result<(), NoMemory> {
    let Some((word, rest)) = step.split_once(' ') else {
        world.is_here = step != "gone";
        return Ok(());
    };
    let (name, value) = rest.split_once('=').unwrap_or((rest, ""));
    set(alloc, world, word, name.as_bytes(), value.as_bytes())
}

/// Takes the steps separated by ` ; `.
fn take_all(alloc: Global, world: &mut SeenWorld, steps: &str) -> Result<(), NoMemory> {
    for step in steps.split(" ; ") {
        take_step(alloc, world, step)?;
    }
    Ok(())
}

/// Adds the expansion of a text, and what is unknown in it.
fn push_expansion(
    out: &mut String,
    alloc: Global,
    world: &SeenWorld,
    text: &[u8],
) -> Result<(), NoMemory> {
    let scope = world.scope();
    let expanded = expand_text_checked::<WideFunctions, _, _>(alloc, text, &scope)?;
    let Expanded { bytes, unknown } = expanded;
    push_bytes(out, &bytes)?;
    match unknown {
        None => Ok(()),
        Some(name) => {
            out.push_str(" unknown ")?;
            push_bytes(out, &name)
        }
    }
}

/// The expansion of the text after the last ` ; `, after the steps before it; and ` unknown NAME` if something in it is not known.
///
/// `set NAME=VALUE` sets a variable, `global` a global, and `gone` takes the channel away. The channel is 7 at `main`, `9-100-7`, 2
/// with the caller `5551234`.
struct Expansion;

impl Question for Expansion {
    fn answer(alloc: Global, asked: &str) -> Result<String, Fail> {
        let (steps, text) = asked.rsplit_once(" ; ").unwrap_or(("", asked));
        let mut world = SeenWorld::new(alloc);
        take_all(alloc, &mut world, steps)?;
        let text = bytes_of(alloc, text)?;
        let mut out = String::new(alloc);
        push_expansion(&mut out, alloc, &world, &text)?;
        Ok(out)
    }
}

const TABLES: &[&str] = &[
    callers::CALLERS,
    cells::CELLS,
    cells::KEYS,
    expressions::EXPRESSIONS,
    expressions::BRACKETS,
    fields::CUTS,
    fields::COUNTS,
    names::NAMES,
    texts::SIDES,
    texts::TEXTS,
];

/// The functions of the wide table have these values, and are known where they should be.
#[test]
fn values_of_functions(rt: HostRuntime) -> Result<(), Fail> {
    check_all::<Expansion>(rt.alloc(), TABLES)
}

/// This number of nested calls of `CUT`, over `X`.
fn nested_calls(alloc: Global, depth: usize) -> Result<Vec<u8>, NoMemory> {
    let mut text = Vec::from_slice(alloc, b"${")?;
    for _ in 0..depth {
        text.extend_from_slice(b"CUT(")?;
    }
    text.push(b'X')?;
    for _ in 0..depth {
        text.extend_from_slice(b",-,1)")?;
    }
    text.push(b'}')?;
    Ok(text)
}

/// The first field of `a-b`, with this number of nested calls.
struct NestedCalls;

impl Question for NestedCalls {
    fn answer(alloc: Global, asked: &str) -> Result<String, Fail> {
        let mut world = SeenWorld::new(alloc);
        world.store.set(alloc, b"X", b"a-b")?;
        let text = nested_calls(alloc, asked.parse()?)?;
        let scope = world.scope();
        let expanded = expand_text_checked::<WideFunctions, _, _>(alloc, &text, &scope)?;
        let Expanded { bytes, unknown } = expanded;
        let mut out = String::new(alloc);
        push_bytes(&mut out, &bytes)?;
        if unknown.is_some() {
            out.push_str(" unknown")?;
        }
        Ok(out)
    }
}

/// At most 8 calls are nested.
const DEPTHS: &str = r"
0→a-b
1→a
2→a
7→a
8→a
9→ unknown
40→ unknown
";

/// Calls that are nested too deep are empty and unknown.
#[test]
fn function_calls_nest_up_to_a_limit(rt: HostRuntime) -> Result<(), Fail> {
    check::<NestedCalls>(rt.alloc(), DEPTHS)
}

/// Whether a name is that of a function.
struct Computed;

impl Question for Computed {
    fn answer(alloc: Global, asked: &str) -> Result<String, Fail> {
        let mut out = String::new(alloc);
        out.push_str(if is_computed(asked.as_bytes()) {
            "function"
        } else {
            "cells"
        })?;
        Ok(out)
    }
}

/// Names of functions are distinguished from those of cells.
#[test]
fn function_and_cell_names_are_distinguished(rt: HostRuntime) -> Result<(), Fail> {
    check::<Computed>(rt.alloc(), names::FUNCTIONS)
}
