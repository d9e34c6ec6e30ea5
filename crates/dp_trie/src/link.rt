//! The ends of nodes: for each node of a tree the place after everything below it.
ghost use Rattle.std.specs.Prelude.{◌≡◌, ◌+◌, ◌<◌, length, replicate, IfOk};
ghost use Rattle.dp_trie.specs.Tree.{HaveEnds, AreLinkedFrom, IsEndOf};

use crate::node::Node;
use dp_lookup::NoMemory;
use std::alloc::Global;

/// A number of zeros.
fn zeros(alloc: Global, count: usize) -> Result<Vec<usize>, NoMemory>
    ensures { IfOk result (λ zeros. zeros.items ≡ replicate count 0) }
{
    let mut zeros = Vec::with_capacity(alloc, count)?;
    for _ in 0..count {
        zeros.push(0)?;
    }
    Ok(zeros)
}

/// The place after everything below a node, given the ends of the nodes after it.
fn end_of(nodes: &[Node], ends: &[usize], place: usize) -> usize
    requires within { place < length nodes.now }
    requires linked { AreLinkedFrom (place + 1) nodes.now ends.now }
    ensures { IsEndOf nodes.now place result }
{
    let depth = nodes[place].depth;
    let mut end = place + 1;
    while let Some(node) = nodes.get(end) {
        if node.depth <= depth {
            return end;
        }
        end = ends[end];
    }
    end
}

/// The ends of all nodes, from the last node to the first. Each is found by going from end to end over the nodes below it.
pub(crate) fn link(alloc: Global, nodes: &[Node]) -> Result<Vec<usize>, NoMemory>
    ensures { IfOk result (λ ends. HaveEnds nodes.now ends.items) }
{
    let mut ends = zeros(alloc, nodes.len())?;
    let mut place = nodes.len();
    while place > 0 {
        place -= 1;
        let end = end_of(nodes, &ends, place);
        ends[place] = end;
    }
    Ok(ends)
}
