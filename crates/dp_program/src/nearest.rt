//! The names nearest to a given name.
ghost use Rattle.std.specs.Prelude.{◌≡◌, ◌≤◌, ◌++◌, OnOk, IfOk, length, map, take};
ghost use Rattle.std.specs.List.{flat_map};
ghost use Rattle.dp_program.specs.Hints.{near_line};
ghost use Rattle.dp_program.specs.Nearest as spec;

use dp_plan::{Context, Dialplan, NoMemory};
use std::alloc::Global;
use strsim::generic_levenshtein;

/// The greatest number of names that are suggested.
const MOST_NAMES: usize = 3;

/// The greatest number of bytes of a name that is compared.
const MOST_BYTES: usize = 80;

/// A name with its distance.
#[derive(Clone, Copy)]
struct Near<'a> {
    distance: usize,
    name: &'a [u8],
}

/// Whether a name is compared with others.
fn is_compared(name: &[u8]) -> bool
    ensures { result ≡ spec.is_compared name.now }
{
    name.len() <= MOST_BYTES
}

/// The place at which a name with this distance is inserted among names ordered by distance: after those that are as near.
fn place_of(kept: &[Near<'_>], distance: usize) -> usize
    ensures place { result ≡ spec.place_of kept.now distance }
    ensures within { result ≤ length kept.now }
{
    let mut place = 0;
    for near in kept {
        if distance < near.distance {
            return place;
        }
        place += 1;
    }
    place
}

/// Adds a name to the nearest ones.
fn keep<'a>(kept: &mut Vec<Near<'a>>, near: Near<'a>) -> Result<(), NoMemory>
    ensures { OnOk result (map spec.near_of kept.new.items
        ≡ take 3 (spec.with_near (spec.near_of near.entry) (map spec.near_of kept.old.items))) }
{
    let place = place_of(kept, near.distance);
    kept.insert(place, near)?;
    kept.truncate(MOST_NAMES);
    Ok(())
}

/// Adds a name to the nearest ones, if it is compared.
fn keep_compared<'a>(
    alloc: Global,
    kept: &mut Vec<Near<'a>>,
    name: &[u8],
    other: &'a [u8],
) -> Result<(), NoMemory>
    ensures { OnOk result (map spec.near_of kept.new.items
        ≡ spec.near_kept name.now (map spec.near_of kept.old.items) other.now) }
{
    if !is_compared(other) {
        return Ok(());
    }
    let distance = generic_levenshtein(alloc, name, other)?;
    keep(
        kept,
        Near {
            distance,
            name: other,
        },
    )
}

/// The nearest of the contexts' names.
fn nearest<'a>(
    alloc: Global,
    name: &[u8],
    contexts: &'a [Context],
) -> Result<Vec<Near<'a>>, NoMemory>
    ensures { IfOk result (λ kept. map spec.near_of kept.items
        ≡ spec.kept_of name.now (map (λ context. context.name) contexts.now)) }
{
    let mut kept = Vec::new(alloc);
    for context in contexts {
        keep_compared(alloc, &mut kept, name, context.name().bytes())?;
    }
    Ok(kept)
}

/// Adds the line of a similar name.
fn push_near(hint: &mut Vec<u8>, name: &[u8]) -> Result<(), NoMemory>
    ensures { OnOk result (hint.new.items ≡ hint.old.items ++ near_line name.now) }
{
    hint.extend_from_slice(b"  nearest: ")?;
    hint.extend_from_slice(name)?;
    hint.extend_from_slice(b"\n")?;
    Ok(())
}

/// Adds the lines of similar names.
fn push_all(hint: &mut Vec<u8>, kept: &[Near<'_>]) -> Result<(), NoMemory>
    ensures { OnOk result (hint.new.items
        ≡ hint.old.items ++ flat_map near_line (spec.names_of (map spec.near_of kept.now))) }
{
    for near in kept {
        push_near(hint, near.name)?;
    }
    Ok(())
}

/// Adds the lines of the contexts' names that are nearest to a name.
pub(crate) fn push_nearest(
    alloc: Global,
    hint: &mut Vec<u8>,
    name: &[u8],
    plan: &Dialplan,
) -> Result<(), NoMemory>
    ensures { OnOk result (hint.new.items ≡ hint.old.items
        ++ flat_map near_line (spec.nearest_of name.now (map (λ context. context.name) plan.now.contexts))) }
{
    if !is_compared(name) {
        return Ok(());
    }
    let kept = nearest(alloc, name, plan.contexts())?;
    push_all(hint, &kept)
}
