//! The fills of pictures by tests, worked out by hand from the rules.
use crate::graph::{entries_of, inner, picture_of, plan_of};
use dp_case_tables::{Question, check};
use dp_graph::{NoMemory, Shading};
use std::alloc::Global;
use std::test::Fail;

/// The entries that tests ran, as `CONTEXT.ENTRY` counted from 0, and after ` | ` the lines of a dialplan after `[a]`. Then the fills of its
/// picture: for each context the one of its name, and then those of its rows.
const FILLS: &str = r"
# All entries of an extension ran, some, and none.
0.0 0.1 | exten=>1,1,A()\nexten=>1,2,B()→#6fb36f #8cc98c
0.0 | exten=>1,1,A()\nexten=>1,2,B()→#e0c050 #f0dc82
0.1 | exten=>1,1,A()\nexten=>1,2,B()→#e0c050 #f0dc82
 | exten=>1,1,A()\nexten=>1,2,B()→#e6e6e6 #ffffff
# The last of three entries did not run, nor did the one in the middle.
0.0 0.1 | exten=>1,1,A()\nexten=>1,2,B()\nexten=>1,3,C()→#e0c050 #f0dc82
0.0 0.2 | exten=>1,1,A()\nexten=>1,2,B()\nexten=>1,3,C()→#e0c050 #f0dc82
0.2 0.0 0.1 | exten=>1,1,A()\nexten=>1,2,B()\nexten=>1,3,C()→#6fb36f #8cc98c
# Each extension has its own fill, and the name of the context that of all its entries.
0.0 | exten=>1,1,A()\nexten=>2,1,B()→#e0c050 #8cc98c #ffffff
0.1 0.2 | exten=>1,1,A()\nexten=>2,1,B()\nexten=>3,1,C()\nexten=>3,2,D()→#e0c050 #ffffff #8cc98c #f0dc82
0.0 0.1 | exten=>1,1,A()\nexten=>2,1,B()→#6fb36f #8cc98c #8cc98c
# Rows stand in the order of a look-up, and two spellings of one name are one extension.
0.1 | exten=>_X,1,A()\nexten=>1,1,B()→#e0c050 #8cc98c #ffffff
0.0 | exten=>_[1-3],1,A()\nexten=>_[123],2,B()→#e0c050 #f0dc82
0.0 0.1 | exten=>_[1-3],1,A()\nexten=>_[123],2,B()→#6fb36f #8cc98c
# A context without entries, and one that includes another: entries of the other do not count for it.
 | →#e6e6e6
0.0 | exten=>1,1,A()\n[b]→#6fb36f #8cc98c #e6e6e6
1.0 | exten=>1,1,A()\ninclude=>b\n[b]\nexten=>2,1,B()→#e6e6e6 #ffffff #6fb36f #8cc98c
# The same extension in two contexts.
1.0 | exten=>1,1,A()\n[b]\nexten=>1,1,B()→#e6e6e6 #ffffff #6fb36f #8cc98c
# Numbers that no entry has.
7.0 0.9 | exten=>1,1,A()→#e6e6e6 #ffffff
0.0 7.0 0.9 | exten=>1,1,A()→#6fb36f #8cc98c
";

/// The first fill of a line, if it has one.
fn fill_of(line: &str) -> Option<&str> {
    let (_, rest) = line.split_once("bgcolor=\"")?;
    let (fill, _) = rest.split_once('"')?;
    Some(fill)
}

/// Adds a fill after the others.
fn push_fill(out: &mut String, fill: &str) -> Result<(), NoMemory> {
    if !out.is_empty() {
        out.push(' ')?;
    }
    out.push_str(fill)
}

/// The fills of the lines that have one.
fn fills_of(alloc: Global, lines: &str) -> Result<String, NoMemory> {
    let mut out = String::new(alloc);
    for line in lines.lines() {
        if let Some(fill) = fill_of(line) {
            push_fill(&mut out, fill)?;
        }
    }
    Ok(out)
}

/// The fills of a picture, given the entries that tests ran.
struct PictureFills;

impl Question for PictureFills {
    fn answer(alloc: Global, asked: &str) -> Result<String, Fail> {
        let Some((list, lines)) = asked.split_once(" | ") else {
            return Err("there is no dialplan".into());
        };
        let plan = plan_of(alloc, lines)?;
        let ran = entries_of(alloc, list)?;
        let picture = picture_of(alloc, &plan, Shading::Tested(&ran))?;
        let Some(lines) = inner(&picture) else {
            return Err("the first or last lines differ".into());
        };
        Ok(fills_of(alloc, lines)?)
    }
}

#[test]
fn fills_by_tests(rt: HostRuntime) -> Result<(), Fail> {
    check::<PictureFills>(rt.alloc(), FILLS)
}
