//! Nodes that are in order as they stand.

ghost use Rattle.std.specs.Prelude.{◌≡◌, ◌<◌, ◌^◌, length, IsTrue, IfOk};
ghost use Rattle.std.specs.List.{All};
ghost use Rattle.node_order.specs.Private.Sorted.{IsSorted, AreNumbers};

use lists::List;
use signal_graph::Node;
use std::alloc::{AllocError, Global};

/// Whether the node with this number comes behind its operands without a delay.
fn is_behind_operands(node: &Node, v: usize) -> bool
    ensures { IsTrue result → All (λ edge. edge.delay ≡ 0 → edge.node < v) node.now.edges }
{
    for edge in node.edges.iter() {
        if edge.delay == 0 && edge.node as usize >= v {
            return false;
        }
    }
    true
}

/// Whether each node comes behind its operands without a delay.
pub(crate) fn is_sorted(nodes: &[Node]) -> bool
    ensures { IsTrue result → IsSorted nodes.now (length nodes.now) }
{
    for v in 0..nodes.len() {
        if !is_behind_operands(&nodes[v], v) {
            return false;
        }
    }
    true
}

/// The numbers below the count.
pub(crate) fn numbers(alloc: Global, count: usize) -> Result<List<u32>, AllocError>
    requires { count < 2 ^ 32 }
    ensures { IfOk result (AreNumbers count) }
{
    let mut numbers = List::with_capacity(alloc, count)?;
    for v in 0..count {
        numbers.push(v as u32)?;
    }
    Ok(numbers)
}
