//! Names of a store by their numbers.
use crate::vars::{ViewedWorld, take_all};
use dp_case_tables::{Question, check_all};
use dp_conf::NoMemory;
use std::alloc::Global;
use std::test::Fail;

/// The number of each name after the last ` ; `, after the steps before it.
const NUMBERS: &str = r"
# A name gets its number when it is first given, and keeps it when its frame goes.
set A=1 ; push B=2 ; pop ; set C=3 ; set A=4 ; A B C D→0 1 2 -
A→-
push A=1 ; pop ; set A=2 ; push A=3 ; A→0
# A name that is given twice has one number.
set A=1 ; set A=2 ; set B=3 ; A B→0 1
set A=1 ; push A=2 ; local A=3 ; set B=4 ; A B→0 1
# A local of the innermost frame is given if there is a frame.
local A=1 ; set B=2 ; A B→- 0
frame B ; local A=1 ; set C=2 ; A B C→1 0 2
# The locals of one frame are given in their order.
frame C A B ; A B C→1 2 0
set B=1 ; frame C B A ; set D=2 ; A B C D→2 0 1 3
frame A B A C ; A B C→0 1 2
# Removing one frame or all changes no number.
frame A B ; frame C ; pop ; set D=1 ; pop ; set E=2 ; A B C D E→0 1 2 3 4
frame A B ; frame C ; drop ; set D=1 ; set A=2 ; A B C D→0 1 2 3
drop ; set A=1 ; A→0
frame A ; return B=1 ; set C=2 ; A B C→0 1 2
frame A ; return A=1 ; set B=2 ; A B→0 1
return A=1 ; set B=2 ; A B→- 0
# What is put back is as if it had never been given.
undone A=1 ; set B=2 ; A B→- 0
set A=1 ; undone A=2 ; set B=3 ; A B→0 1
set A=1 ; frame B ; undone C=2 ; undone B=3 ; set D=4 ; A B C D→0 1 - 2
# Names are compared by their bytes.
set a=1 ; set A=2 ; set  =3 ; a A→0 1
";

/// Adds the number of a name, or a dash, after a blank if it is not the first.
fn push_number(out: &mut String, number: Option<usize>) -> Result<(), NoMemory> {
    if !out.is_empty() {
        out.push(' ')?;
    }
    match number {
        Some(number) => write!(out, "{number}"),
        None => out.push('-'),
    }
}

fn push_numbers(out: &mut String, world: &ViewedWorld, names: &str) -> Result<(), NoMemory> {
    for name in names.split(' ') {
        push_number(out, world.store.slot(name.as_bytes()))?;
    }
    Ok(())
}

/// The numbers of names separated by blanks, with a dash for none.
fn numbers_of(alloc: Global, world: &ViewedWorld, names: &str) -> Result<String, NoMemory> {
    let mut out = String::new(alloc);
    push_numbers(&mut out, world, names)?;
    Ok(out)
}

/// The numbers in a world of the names after the last ` ; `, after the steps before it.
fn numbers_in(alloc: Global, world: &mut ViewedWorld, asked: &str) -> Result<String, Fail> {
    let (steps, names) = asked.rsplit_once(" ; ").unwrap_or(("", asked));
    take_all(alloc, world, steps)?;
    let out = numbers_of(alloc, world, names)?;
    Ok(out)
}

/// The numbers of names after some steps.
struct Numbered;

impl Question for Numbered {
    fn answer(alloc: Global, asked: &str) -> Result<String, Fail> {
        let mut world = ViewedWorld::new(alloc);
        numbers_in(alloc, &mut world, asked)
    }
}

#[test]
fn numbers_of_names_in_a_store(rt: HostRuntime) -> Result<(), Fail> {
    check_all::<Numbered>(rt.alloc(), &[NUMBERS])
}
