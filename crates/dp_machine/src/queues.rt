//! The queues before the first phone call.
ghost use Rattle.std.specs.Prelude.{◌≡◌};
ghost use Rattle.dp_machine.specs.Seen as seen;

use dp_vars::Counts;

/// What the globals see of queues while they are expanded: no queue exists, and nobody waits in any.
#[derive(Clone, Copy)]
pub(crate) struct NoQueues;

impl Counts for NoQueues {
    ghost count = { λ _. seen.no_queues };

    fn waiting(&self, _queue: &[u8]) -> usize {
        0
    }

    fn members(&self, _queue: &[u8]) -> Option<usize> {
        None
    }
}
