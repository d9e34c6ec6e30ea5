//! Groups, and openings without ends.
use crate::vars::{ViewedWorld, expansion};
use dp_case_tables::{Question, bytes_of, check};
use dp_conf::{NoMemory, nesting};
use std::alloc::Global;
use std::test::Fail;

/// Nested groups, and openings without ends.
pub(super) const GROUPS: &str = r#"
→
plain, {x} [y] $ $$ }→plain, {x} [y] $ $$ }
set A=1 ; $${A}→$1
set A=1 ; a${A}b${A}c→a1b1c
set A=1 ; {${A}}→{1}
# The inside is expanded first.
set A=B ; set B=v ; ${${A}}→v
set A=B ; set B=v ; ${LEN(${A}${B})}→2
set A=2 ; $[${A} + $[${A} * 3]]→8
# A value is not expanded again.
set A=${B} ; set B=v ; ${A}→${B}
set A=${B} ; set B=v ; ${LEN(${A})}→4
set A=${B} ; set B=v ; $[${A}]→${B}
set A=$[1 + 1] ; ${A}→$[1 + 1]
set A=$ ; set B=v ; ${A}{B}→${B}
set A=} ; ${${A}→${}
# An opening without an end is plain, and reading goes on after it.
${→${
$[→$[
$[1→$[1
set b=1 ; ${a${b}→${a1
set b=1 ; ${a$[b}→${a$[b}
set b=1 ; $[${b}→$[1
set b=1 ; $[${x${b}]→$[${x1]
set b=1 ; ${b]${b}→${b]1
# The end of another kind is plain.
set b]=1 ; ${b]}→1
$[1}]→1}
# Expressions.
$[1 + 2]→3
$[1 +]→
$[]→
$[ ]→
set A=1 ; $[${A} = 1]→1
$[${}]→
set =2+3 ; $[${}]→5
$["a]→
# Groups of each kind, with plain bytes between them.
set X=abcdef ; a${X:-2}b${LEN(ab)}c$[1 + 2]d${F(}e→aefb2c3de
set X=abcdef ; ${LEN(${X:1:-1})}→4
set X=abcdef ; ${X:${LEN(ab)}}$[${LEN(ab)} + 1]→cdef3
set X=abcdef ; ${X:$[1 + 1]:$[0 - 1]}→cde
set X=abcdef ; set ef=v ; ${${X:-2}}→v
set 3=v ; ${$[1 + 2]}→v
set X=abcdef ; ${a${X:-2}$[1→${aef$[1
$[${X:-2→$[${X:-2
# A `$` at the end of a body opens nothing.
set A$=1 ; ${A$}→1
set A$=1 ; ${A$→${A$
"#;

/// How deep the groups of a text are nested.
struct Nesting;

impl Question for Nesting {
    fn answer(alloc: Global, asked: &str) -> Result<String, Fail> {
        let text = bytes_of(alloc, asked)?;
        let depth = nesting(alloc, &text)?;
        Ok(format!(in alloc; "{depth}")?)
    }
}

const NESTING: &str = r"
→0
abc→0
${}→1
$[]→1
${a}${b}→1
${${a}}→2
${a${b}→1
${a$[b}→0
$[${}]→2
$[${x${b}]→1
${$[${a}]}${b}→3
${a→0
${${${→0
{[}]→0
$${a}→1
";

fn repeat_piece(alloc: Global, openings: usize, ends: usize) -> Result<Vec<u8>, NoMemory> {
    let mut text = Vec::new(alloc);
    for _ in 0..openings {
        text.extend_from_slice(b"${")?;
    }
    for _ in 0..ends {
        text.push(b'}')?;
    }
    Ok(text)
}

/// The nesting of this number of openings and ends, and the size of the expansion, as `OPENINGS ENDS`.
struct Deep;

impl Question for Deep {
    fn answer(alloc: Global, asked: &str) -> Result<String, Fail> {
        let (openings, ends) = asked.split_once(' ').ok_or("no question")?;
        let openings: usize = openings.parse().ok().ok_or("no number")?;
        let ends: usize = ends.parse().ok().ok_or("no number")?;
        let text = repeat_piece(alloc, openings, ends)?;
        deep_answer(alloc, &text)
    }
}

/// The expansion of a text in an empty world.
fn expand_alone(alloc: Global, text: &[u8]) -> Result<String, Fail> {
    let world = ViewedWorld::new(alloc);
    Ok(expansion(alloc, &world, text)?)
}

fn deep_answer(alloc: Global, text: &[u8]) -> Result<String, Fail> {
    let depth = nesting(alloc, text)?;
    let out = expand_alone(alloc, text)?;
    deep_line(alloc, depth, &out)
}

fn deep_line(alloc: Global, depth: usize, out: &str) -> Result<String, Fail> {
    if out == "too deep" {
        return Ok(format!(in alloc; "{depth} {out}")?);
    }
    Ok(format!(in alloc; "{depth} {}", out.len())?)
}

const LIMIT: &str = r"
32 32→32 0
33 33→33 too deep
33 0→0 66
33 32→32 2
32 33→32 1
40 40→40 too deep
100000 0→0 200000
100000 1→1 199998
";

/// How deep groups are nested, and the limit of that.
#[test]
fn groups_nest_up_to_a_limit(rt: HostRuntime) -> Result<(), Fail> {
    check::<Nesting>(rt.alloc(), NESTING)?;
    check::<Deep>(rt.alloc(), LIMIT)
}
