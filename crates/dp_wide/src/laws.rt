//! Laws over the definitions of this crate.
ghost use Rattle.std.specs.Prelude.{◌≤◌, ℕ};
ghost use Rattle.dp_wide.specs.Functions.{within};
ghost use Rattle.dp_wide.specs.NestedCalls.{KnowsNoMore};

/// A function call that is known within some limit of nesting is known within any greater limit, and has the same value. So the limit of 8
/// shows only as a call that is unknown. This function does nothing.
pub fn known_calls_are_kept()
    ensures { (fewer more : ℕ) → fewer ≤ more → KnowsNoMore (within fewer) (within more) }
{}
