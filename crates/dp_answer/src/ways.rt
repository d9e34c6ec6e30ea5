//! The ways out of queues.
ghost use Rattle.std.specs.Prelude.{◌≡◌, IfOk, map};
ghost use Rattle.dp_closed.specs.Claimed.{AreWays};

use crate::search::pieces_in;
use dp_conf::NoMemory;
use dp_pieces::Piece;
use dp_queue::Queues;
use std::alloc::Global;

/// The contexts of the queues' ways out, in order, each as the pieces of its name.
pub(crate) fn ways_of(alloc: Global, queues: &Queues) -> Result<Vec<Vec<Piece>>, NoMemory>
    ensures { IfOk result (λ ways. AreWays (map (λ queue. queue.settings) queues.now.queues) ways.items) }
{
    let mut ways = Vec::new(alloc);
    for queue in queues.queues() {
        let way = pieces_in(alloc, queue.settings().context.bytes())?;
        ways.push(way)?;
    }
    Ok(ways)
}
