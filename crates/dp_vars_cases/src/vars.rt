//! Texts that are expanded, worked out by hand from the rules.
mod functions;
mod groups;
mod names;
mod numbers;
mod parts;
mod stores;

ghost use Rattle.std.specs.Prelude.{◌≡◌, codes, if◌then◌else◌, ℕ, List, Option, Some, None};
ghost use Rattle.dp_conf.specs.Words.{same_text};

use dp_case_tables::{Question, bytes_of, check_all, push_bytes};
use dp_conf::{NoMemory, Text};
use dp_vars::{
    Change, ChannelSeen, Counts, Globals, Local, LocalName, Scope, Store, Template, TemplateFault,
    expand,
};
use std::alloc::Global;
use std::test::Fail;

/// Three calls wait in the queue `sales`, which has two members. There is no other queue.
struct Sales;

impl Counts for Sales {
    ghost count = { λ _. record {
      waiting = λ queue. if same_text queue (codes "sales") then 3 else 0;
      members = λ queue. if same_text queue (codes "sales") then Some 2 else None;
    } };

    fn waiting(&self, queue: &[u8]) -> usize {
        if queue == b"sales".as_slice() { 3 } else { 0 }
    }

    fn members(&self, queue: &[u8]) -> Option<usize> {
        if queue == b"sales".as_slice() {
            Some(2)
        } else {
            None
        }
    }
}

/// A change of the globals, which puts `TOLD` unless it is refused.
#[derive(Drop)]
struct PutsTold {
    is_refused: bool,
}

impl Change<Globals> for PutsTold {
    ghost use Rattle.std.specs.FinMap.{insert};

    ghost after = { λ _ globals. insert globals (codes "TOLD") (codes "yes") };

    fn run(&self, alloc: Global, globals: &mut Globals) -> Result<(), NoMemory> {
        if self.is_refused {
            return Err(NoMemory);
        }
        globals.put(alloc, b"TOLD", b"yes")
    }
}

/// What a text sees: a channel unless it left, its variables and frames, and the globals.
#[derive(Drop)]
struct ViewedWorld {
    is_here: bool,
    store: Store<u32>,
    globals: Globals,
}

impl ViewedWorld {
    fn new(alloc: Global) -> ViewedWorld {
        ViewedWorld {
            is_here: true,
            store: Store::new(alloc),
            globals: Globals::new(alloc),
        }
    }

    fn scope(&self) -> Scope<'_, u32, Sales> {
        let channel = ChannelSeen {
            number: 7,
            context: b"main",
            extension: b"100",
            priority: 2,
            caller: b"5551234",
        };
        Scope {
            channel: if self.is_here { Some(channel) } else { None },
            store: if self.is_here {
                Some(&self.store)
            } else {
                None
            },
            globals: &self.globals,
            counts: &Sales,
        }
    }
}

fn push_expansion(
    out: &mut String,
    alloc: Global,
    world: &ViewedWorld,
    template: &Template,
) -> Result<(), NoMemory> {
    let bytes = expand(alloc, template, &world.scope())?;
    push_bytes(out, &bytes)
}

fn push_expanded(
    out: &mut String,
    alloc: Global,
    world: &ViewedWorld,
    text: &[u8],
) -> Result<(), NoMemory> {
    match Template::read(alloc, text) {
        Err(TemplateFault::TooDeep) => out.push_str("too deep"),
        Err(TemplateFault::NoMemory) => Err(NoMemory),
        Ok(template) => push_expansion(out, alloc, world, &template),
    }
}

/// The expansion of a text, each byte as the character with its number.
fn expansion(alloc: Global, world: &ViewedWorld, text: &[u8]) -> Result<String, NoMemory> {
    let mut out = String::new(alloc);
    push_expanded(&mut out, alloc, world, text)?;
    Ok(out)
}

fn local_of(alloc: Global, name: &[u8], value: &[u8]) -> Result<Local, NoMemory> {
    let name = LocalName::copy_of(alloc, name)?;
    let value = Text::copy_of(alloc, value)?;
    Ok(Local { name, value })
}

/// A frame with one local, which returns to its number.
fn push_frame(
    alloc: Global,
    world: &mut ViewedWorld,
    name: &[u8],
    value: &[u8],
) -> Result<(), NoMemory> {
    let mut locals = Vec::new(alloc);
    locals.push(local_of(alloc, name, value)?)?;
    world.store.push_frame(alloc, 1, locals)
}

/// A global that is expanded before it is set, without a channel.
fn put_expanded(
    alloc: Global,
    world: &mut ViewedWorld,
    name: &[u8],
    text: &[u8],
) -> Result<(), NoMemory> {
    world.is_here = false;
    let value = expansion(alloc, world, text)?;
    world.is_here = true;
    world.globals.put(alloc, name, value.as_bytes())
}

/// A frame with a local for each name, which returns to its number.
fn push_names(alloc: Global, world: &mut ViewedWorld, names: &str) -> Result<(), NoMemory> {
    let mut locals = Vec::new(alloc);
    for name in names.split(' ') {
        locals.push(local_of(alloc, name.as_bytes(), b"")?)?;
    }
    world.store.push_frame(alloc, 1, locals)
}

/// Sets a name after a change, which may be refused.
fn set_after(
    alloc: Global,
    world: &mut ViewedWorld,
    name: &[u8],
    value: &[u8],
    is_refused: bool,
) -> Result<(), NoMemory> {
    let change = PutsTold { is_refused };
    let set = world
        .store
        .set_after(alloc, name, value, &change, &mut world.globals);
    if is_refused { Ok(()) } else { set }
}

/// A step of a name and a value.
fn set(
    alloc: Global,
    world: &mut ViewedWorld,
    word: &str,
    name: &[u8],
    value: &[u8],
) -> Result<(), NoMemory> {
    match word {
        "set" => world.store.set(alloc, name, value),
        "local" => {
            let _is_set = world.store.set_local(alloc, name, value)?;
            Ok(())
        }
        "push" => push_frame(alloc, world, name, value),
        "return" => {
            let _back = world.store.pop_frame_setting(alloc, name, value)?;
            Ok(())
        }
        "after" => set_after(alloc, world, name, value, false),
        "refused" => set_after(alloc, world, name, value, true),
        "global" => world.globals.put(alloc, name, value),
        "expanded" => put_expanded(alloc, world, name, value),
        _ => Ok(()),
    }
}

/// A step: `pop`, `drop`, `gone`, `frame` with names, or a word with `NAME=VALUE`.
fn take_step(alloc: Global, world: &mut ViewedWorld, step: &str) -> Result<(), NoMemory> {
    match step.split_once(' ') {
        None => match step {
            "pop" => {
                let _back = world.store.pop_frame();
            }
            "drop" => world.store.drop_frames(),
            "gone" => world.is_here = false,
            _ => {}
        },
        Some(("frame", names)) => push_names(alloc, world, names)?,
        Some((word, rest)) => {
            let (name, value) = rest.split_once('=').unwrap_or((rest, ""));
            set(alloc, world, word, name.as_bytes(), value.as_bytes())?;
        }
    }
    Ok(())
}

/// Takes the steps separated by ` ; `.
fn take_all(alloc: Global, world: &mut ViewedWorld, steps: &str) -> Result<(), NoMemory> {
    for step in steps.split(" ; ") {
        take_step(alloc, world, step)?;
    }
    Ok(())
}

/// The expansion in a world of the text after the last ` ; `, after the steps before it.
fn expanded_in(alloc: Global, world: &mut ViewedWorld, asked: &str) -> Result<String, Fail> {
    let (steps, text) = asked.rsplit_once(" ; ").unwrap_or(("", asked));
    take_all(alloc, world, steps)?;
    let text = bytes_of(alloc, text)?;
    let out = expansion(alloc, world, &text)?;
    Ok(out)
}

/// The expansion of the text after the last ` ; `, after the steps before it.
///
/// `set NAME=VALUE` sets a variable, `local` a local of the innermost frame, `push` adds a frame with one local, `frame NAME ..` one with
/// several, `pop` drops the innermost, `return NAME=VALUE` drops it and then sets a variable, `drop` drops all frames, `after` sets a
/// variable after a change that sets the global `TOLD`, `refused` does so if the change fails, `global` sets a global, `expanded` sets one
/// whose value is expanded before, and `gone` takes the channel away. The channel is 7 at `main`, `100`, 2 with the caller `5551234`.
struct ExpandedText;

impl Question for ExpandedText {
    fn answer(alloc: Global, asked: &str) -> Result<String, Fail> {
        let mut world = ViewedWorld::new(alloc);
        expanded_in(alloc, &mut world, asked)
    }
}

const TABLES: &[&str] = &[
    functions::FUNCTIONS,
    groups::GROUPS,
    names::NAMES,
    parts::PARTS,
    stores::STORES,
];

#[test]
fn texts_are_expanded(rt: HostRuntime) -> Result<(), Fail> {
    check_all::<ExpandedText>(rt.alloc(), TABLES)
}
