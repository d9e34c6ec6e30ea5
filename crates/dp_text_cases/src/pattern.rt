//! Names that are read, matched, ordered and spelled, worked out by hand from the rules.
mod kinds;
mod matching;
mod order;
mod reading;
mod spelling;

use dp_case_tables::{Question, bytes_of, check_all};
use dp_pattern::{
    Class, Name, NoMemory, Parts, PatternFault, Tail, compare, compare_classes, could_match_more,
    matches, order_is_total, same,
};
use std::alloc::Global;
use std::cmp::Ordering;
use std::test::Fail;

/// A question about names: a word, a blank, and one or two cells with a `|` between them.
///
/// `read NAME` is the name's spelling or `fault CODE`; `matches NAME|TEXT` and `goes_on NAME|TEXT` are `yes` or `no`;
/// `order NAME|NAME` is `before`, `after` or `same`, and `copy NAME` that of a name and its clone; `parts NAME` is what
/// the name is made of, and `classes NAME` how its first class stands to its second, and this to its clone.
struct NameQuestions;

impl Question for NameQuestions {
    fn answer(alloc: Global, asked: &str) -> Result<String, Fail> {
        let (word, cells) = asked.split_once(' ').ok_or("no question")?;
        let mut out = String::new(alloc);
        match cells.split_once('|') {
            None => push_answer(&mut out, alloc, word, cells)?,
            Some((name, other)) => push_answer_of_two(&mut out, alloc, word, name, other)?,
        }
        Ok(out)
    }
}

/// The name that the cell spells.
fn name(alloc: Global, cell: &str) -> Result<Name, PatternFault> {
    let text = bytes_of(alloc, cell)?;
    Name::read(alloc, &text)
}

fn push_spelled(out: &mut String, alloc: Global, name: &Name) -> Result<(), NoMemory> {
    let text = name.text(alloc)?;
    for byte in &text {
        out.push(char::from(*byte))?;
    }
    Ok(())
}

/// The spelling of a name, or the number of the fault.
fn push_read(out: &mut String, alloc: Global, cell: &str) -> Result<(), NoMemory> {
    match name(alloc, cell) {
        Ok(name) => push_spelled(out, alloc, &name),
        Err(PatternFault::Name(fault)) => write!(out, "fault {}", fault.code()),
        Err(PatternFault::NoMemory) => Err(NoMemory),
    }
}

/// The members of a class between brackets.
fn push_class(out: &mut String, class: &Class) -> Result<(), NoMemory> {
    out.push('[')?;
    for byte in 0..=u8::MAX {
        if class.has(byte) {
            out.push(char::from(byte))?;
        }
    }
    out.push(']')
}

fn push_classes(out: &mut String, classes: &[Class], tail: Tail) -> Result<(), NoMemory> {
    for class in classes {
        push_class(out, class)?;
    }
    match tail {
        Tail::End => out.push_str(" end"),
        Tail::Dot => out.push_str(" dot"),
        Tail::Bang => out.push_str(" bang"),
    }
}

fn push_parts(out: &mut String, name: &Name) -> Result<(), NoMemory> {
    match name.parts() {
        Parts::Plain(text) => {
            for byte in text {
                out.push(char::from(*byte))?;
            }
            Ok(())
        }
        Parts::Pattern(classes, tail) => push_classes(out, classes, tail),
    }
}

/// How the first class compares with the second, in both orders of the comparison.
fn order_of_classes(left: &Class, right: &Class) -> &'static str {
    match (compare_classes(left, right), compare_classes(right, left)) {
        (Ordering::Less, Ordering::Greater) => "before",
        (Ordering::Greater, Ordering::Less) => "after",
        (Ordering::Equal, Ordering::Equal) => "same",
        _ => "two answers that do not agree",
    }
}

fn push_order_of_classes(out: &mut String, first: &Class, second: &Class) -> Result<(), NoMemory> {
    out.push_str(order_of_classes(first, second))?;
    out.push(' ')?;
    let copy = second.clone()?;
    out.push_str(order_of_classes(second, &copy))
}

fn push_first_classes(out: &mut String, name: &Name) -> Result<(), NoMemory> {
    match name.parts() {
        Parts::Pattern([first, second, ..], _) => push_order_of_classes(out, first, second),
        _ => out.push_str("no two classes"),
    }
}

fn push_order_of_copy(out: &mut String, name: &Name) -> Result<(), NoMemory> {
    let copy = name.clone()?;
    out.push_str(order_of(name, &copy))
}

fn push_of_name(out: &mut String, word: &str, name: &Name) -> Result<(), NoMemory> {
    match word {
        "parts" => push_parts(out, name),
        "classes" => push_first_classes(out, name),
        "copy" => push_order_of_copy(out, name),
        _ => out.push_str("no such question"),
    }
}

fn push_answer(out: &mut String, alloc: Global, word: &str, cell: &str) -> Result<(), Fail> {
    if word == "read" {
        push_read(out, alloc, cell)?;
        return Ok(());
    }
    let name = name(alloc, cell)?;
    push_of_name(out, word, &name)?;
    Ok(())
}

fn yes_or_no(holds: bool) -> &'static str {
    if holds { "yes" } else { "no" }
}

/// How the first name compares with the second, in both orders of the comparison and by `same`.
fn order_of(left: &Name, right: &Name) -> &'static str {
    match (
        compare(left, right),
        compare(right, left),
        same(left, right),
    ) {
        (Ordering::Less, Ordering::Greater, false) => "before",
        (Ordering::Greater, Ordering::Less, false) => "after",
        (Ordering::Equal, Ordering::Equal, true) => "same",
        _ => "three answers that do not agree",
    }
}

fn push_order(out: &mut String, alloc: Global, left: &Name, cell: &str) -> Result<(), Fail> {
    let right = name(alloc, cell)?;
    out.push_str(order_of(left, &right))?;
    Ok(())
}

fn push_answer_of_two(
    out: &mut String,
    alloc: Global,
    word: &str,
    cell: &str,
    other: &str,
) -> Result<(), Fail> {
    let left = name(alloc, cell)?;
    if word == "order" {
        return push_order(out, alloc, &left, other);
    }
    let text = bytes_of(alloc, other)?;
    match word {
        "matches" => out.push_str(yes_or_no(matches(&left, &text)))?,
        "goes_on" => out.push_str(yes_or_no(could_match_more(&left, &text)))?,
        _ => out.push_str("no such question")?,
    }
    Ok(())
}

const TABLES: &[&str] = &[
    kinds::CLASSES,
    kinds::PLAIN,
    matching::MATCHES,
    matching::WILDCARDS,
    matching::GOES_ON,
    order::IN_ORDER,
    order::SAME,
    order::SPECIFIC_FIRST,
    order::CLASSES_AND_DOUBLES,
    reading::FAULTS,
    reading::PARTS,
    spelling::SPELLINGS,
    spelling::COPIES,
];

/// The answers of the tables. The law that the order of names is total is called once.
#[test]
fn names_have_these_answers(rt: HostRuntime) -> Result<(), Fail> {
    order_is_total();
    check_all::<NameQuestions>(rt.alloc(), TABLES)
}
