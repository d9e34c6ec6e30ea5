//! What is known of the entries that a box or a row shows.
ghost use Rattle.std.specs.Prelude.{◌≡◌};
ghost use Rattle.dp_graph.specs.Boxes as spec;
ghost use Rattle.dp_graph.specs.Shading.{shading_now};

use crate::shading::Shading;
use dp_plan::EntryId;
use indexmap::IndexSet;

/// How a box or a row is shown.
#[derive(Clone, Copy, Debug, PartialEq, Eq)]
pub(crate) enum Shade {
    /// Nothing is known of its entries.
    Plain,
    /// A call reaches an entry of it.
    Reached,
    /// No call reaches an entry of it.
    Unreached,
    /// Tests ran all of its entries.
    AllRan,
    /// Tests ran some of its entries, but not all.
    SomeRan,
    /// Tests ran none of its entries.
    NoneRan,
}

/// Whether one of the entries is among the others.
fn some_among(others: &IndexSet<EntryId>, ids: &[EntryId]) -> bool
    ensures { result ≡ spec.some_among others.now.keys ids.now }
{
    for id in ids {
        if others.contains(id) {
            return true;
        }
    }
    false
}

/// Whether all of the entries are among the others.
fn all_among(others: &IndexSet<EntryId>, ids: &[EntryId]) -> bool
    ensures { result ≡ spec.all_among others.now.keys ids.now }
{
    for id in ids {
        if !others.contains(id) {
            return false;
        }
    }
    true
}

/// How entries are shown, given those that a call reaches.
fn shade_by_call(reached: &IndexSet<EntryId>, ids: &[EntryId]) -> Shade
    ensures { result ≡ spec.shade_by_call reached.now.keys ids.now }
{
    if some_among(reached, ids) {
        return Shade::Reached;
    }
    Shade::Unreached
}

/// How entries are shown, given those that tests ran.
fn shade_by_tests(ran: &IndexSet<EntryId>, ids: &[EntryId]) -> Shade
    ensures { result ≡ spec.shade_by_tests ran.now.keys ids.now }
{
    if !some_among(ran, ids) {
        return Shade::NoneRan;
    }
    if all_among(ran, ids) {
        return Shade::AllRan;
    }
    Shade::SomeRan
}

/// How entries are shown.
pub(crate) fn shade_of(shading: Shading<'_>, ids: &[EntryId]) -> Shade
    ensures { result ≡ spec.shade_of (shading_now shading.entry) ids.now }
{
    match shading {
        Shading::Plain => Shade::Plain,
        Shading::Reached(reached) => shade_by_call(reached, ids),
        Shading::Tested(ran) => shade_by_tests(ran, ids),
    }
}
