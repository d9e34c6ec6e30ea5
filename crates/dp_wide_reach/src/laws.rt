//! Laws over the definitions of this crate.
ghost use Rattle.dp_reach.specs.Bounds.{AreBounded};
ghost use Rattle.dp_wide.specs.Wide.{wide_rows};
ghost use Rattle.dp_wide_reach.specs.Wide.{wide_duties};

/// Each row of the wide table stays inside if its duties are met. This function does nothing.
pub fn wide()
    ensures { AreBounded wide_duties wide_rows }
{}
