//! Variables of a channel, frames and locals.
use crate::vars::{PutsTold, ViewedWorld, local_of, push_frame};
use dp_conf::NoMemory;
use dp_vars::{Globals, Store};
use std::alloc::Global;
use std::process::Abort;
use std::test::Fail;

/// Where a name is set, and for how long.
pub(super) const STORES: &str = r"
set A=1 ; set A=2 ; ${A}→2
set A=1 ; set B=2 ; ${A}${B}→12
# A name is set in the innermost frame that has it as a local, else as the channel's variable.
set A=1 ; push A=2 ; set A=3 ; ${A}→3
set A=1 ; push A=2 ; set A=3 ; pop ; ${A}→1
set A=1 ; push B=2 ; set A=3 ; pop ; ${A}→3
push A=1 ; push B=2 ; set A=3 ; ${A}→3
push A=1 ; push B=2 ; set A=3 ; pop ; ${LOCAL(A)}→3
push A=1 ; push B=2 ; set A=3 ; pop ; pop ; ${A}→
push A=1 ; push A=2 ; set A=3 ; pop ; ${A}→1
push B=1 ; set A=2 ; pop ; ${A}→2
# A local is set only in the innermost frame.
set A=1 ; push =x ; local A=2 ; set A=3 ; ${A}→3
set A=1 ; push =x ; local A=2 ; set A=3 ; pop ; ${A}→1
push A=1 ; push =x ; local A=2 ; pop ; ${A}→1
push A=1 ; local A=2 ; ${A}→2
local A=1 ; ${A}→
local A=1 ; push =x ; ${A}→
# A frame's locals go with the frame.
push A=1 ; pop ; ${A}→
push A=1 ; pop ; pop ; ${A}→
push A=1 ; pop ; push B=2 ; ${A}→
set A=1 ; push A=2 ; push A=3 ; drop ; ${A}→1
push A=1 ; push B=2 ; drop ; ${A}${B}→
# A name that is set when a frame ends is set below that frame.
set A=1 ; push A=2 ; return A=3 ; ${A}→3
set A=1 ; push A=2 ; push A=3 ; return A=4 ; pop ; ${A}→1
push A=1 ; push A=2 ; return A=3 ; ${LOCAL(A)}→3
push A=1 ; return A=2 ; push B=3 ; ${A}→2
return A=1 ; ${A}→
# A name is set after a change in the same place as without one.
after A=1 ; ${A}${TOLD}→1yes
set A=1 ; push B=2 ; after A=3 ; ${A}${TOLD}→3yes
set A=1 ; push A=2 ; after A=3 ; ${A}${TOLD}→3yes
set A=1 ; push A=2 ; after A=3 ; pop ; ${A}${TOLD}→1yes
push A=1 ; pop ; after A=2 ; ${A}${TOLD}→2yes
# If the change fails, nothing is set.
refused A=1 ; ${A}${TOLD}→
set A=1 ; push B=2 ; refused A=3 ; ${A}${TOLD}→1
set A=1 ; push A=2 ; refused A=3 ; ${A}${TOLD}→2
set A=1 ; push A=2 ; refused A=3 ; pop ; ${A}${TOLD}→1
push A=1 ; pop ; refused A=2 ; ${A}${TOLD}→
refused A=1 ; set B=2 ; after A=3 ; ${A}${B}${TOLD}→32yes
";

fn check_frames(rt: &impl Abort, alloc: Global, store: &mut Store<u32>) -> Result<(), Fail> {
    store.push_frame(alloc, 1, Vec::new(alloc))?;
    store.push_frame(alloc, 2, Vec::new(alloc))?;
    assert_eq!(rt; store.pop_frame(), Some(2));
    assert_eq!(rt; store.pop_frame(), Some(1));
    assert_eq!(rt; store.pop_frame(), None);
    Ok(())
}

/// Frames return to where they were pushed.
fn frames(rt: &impl Abort, alloc: Global) -> Result<(), Fail> {
    let mut store: Store<u32> = Store::new(alloc);
    check_frames(rt, alloc, &mut store)
}

fn push_doubled(alloc: Global, store: &mut Store<u32>) -> Result<(), NoMemory> {
    let mut locals = Vec::new(alloc);
    locals.push(local_of(alloc, b"A", b"1")?)?;
    locals.push(local_of(alloc, b"A", b"2")?)?;
    store.push_frame(alloc, 1, locals)
}

fn check_doubled(rt: &impl Abort, store: &Store<u32>) {
    assert!(rt; store.get(b"A") == Some(b"2".as_slice()), "the later value");
    assert!(rt; store.get(b"B").is_none(), "another name");
}

/// Of two locals with one name the later counts.
fn check_doubled_local(rt: &impl Abort, alloc: Global) -> Result<(), Fail> {
    let mut store: Store<u32> = Store::new(alloc);
    push_doubled(alloc, &mut store)?;
    check_doubled(rt, &store);
    Ok(())
}

fn check_local(rt: &impl Abort, alloc: Global, world: &mut ViewedWorld) -> Result<(), Fail> {
    assert!(rt; !world.store.set_local(alloc, b"A", b"1")?, "no frame");
    push_frame(alloc, world, b"B", b"2")?;
    assert!(rt; world.store.set_local(alloc, b"A", b"1")?, "a frame");
    assert!(rt; world.store.get(b"A") == Some(b"1".as_slice()), "the local");
    Ok(())
}

/// A local needs a frame.
fn local(rt: &impl Abort, alloc: Global) -> Result<(), Fail> {
    let mut world = ViewedWorld::new(alloc);
    check_local(rt, alloc, &mut world)
}

fn check_refused(rt: &impl Abort, alloc: Global, world: &mut ViewedWorld) {
    let change = PutsTold { is_refused: true };
    let set = world
        .store
        .set_after(alloc, b"A", b"1", &change, &mut world.globals);
    assert!(rt; set.is_err(), "the change is refused");
    assert!(rt; world.store.slot(b"A").is_none(), "the name has no number");
}

/// A name whose change fails gets no number.
fn check_refused_change(rt: &impl Abort, alloc: Global) {
    let mut world = ViewedWorld::new(alloc);
    check_refused(rt, alloc, &mut world);
}

fn check_globals(rt: &impl Abort, alloc: Global, globals: &mut Globals) -> Result<(), Fail> {
    globals.put(alloc, b"A", b"1")?;
    globals.put(alloc, b"A", b"2")?;
    assert!(rt; globals.at(b"A") == b"2".as_slice(), "the last value");
    assert!(rt; globals.at(b"B").is_empty(), "a name without a value");
    Ok(())
}

/// Globals are read as they were set.
fn globals(rt: &impl Abort, alloc: Global) -> Result<(), Fail> {
    let mut globals = Globals::new(alloc);
    check_globals(rt, alloc, &mut globals)
}

fn check_stores(rt: &impl Abort, alloc: Global) -> Result<(), Fail> {
    frames(rt, alloc)?;
    check_doubled_local(rt, alloc)?;
    local(rt, alloc)?;
    check_refused_change(rt, alloc);
    globals(rt, alloc)
}

/// Frames return to where they were pushed, of two locals with one name the later counts, a local needs a frame, a name whose change fails
/// gets no number, and globals are read as they were set.
#[test]
fn stores_keep_variables_frames_and_globals(rt: HostRuntime) -> Result<(), Fail> {
    check_stores(&rt, rt.alloc())
}
