//! Where a channel goes after an application.

use crate::phase::Phase;
use crate::target::{Target, TargetParts};

/// Where a channel goes after an application.
#[derive(Drop)]
pub enum Move {
    /// To the next priority.
    Next,
    /// To this target.
    Jump(Target),
    /// To the place that these parts name, if an entry is found there. Otherwise the innermost frame is removed, and the channel goes to the
    /// place to which that frame returns; without a frame the call ends.
    Enter(TargetParts),
    /// The channel waits here for what the phase says.
    Park(Phase),
    /// Nowhere: the call ends.
    Hang,
}
