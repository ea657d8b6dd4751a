//! A topological order.

ghost use Rattle.std.specs.Prelude.{IfOk};
ghost use Rattle.node_order.specs.Topological.{CanBeOrdered, IsTopologicalOrder};

use crate::search::searched_order;
use crate::sorted::{is_sorted, numbers};
use lists::List;
use signal_graph::Node;
use std::alloc::{AllocError, Global};

/// An order of all nodes in which each comes behind those that it reads without a delay. Mostly that is their own.
pub fn topological_order(alloc: Global, nodes: &[Node]) -> Result<List<u32>, AllocError>
    requires { CanBeOrdered nodes.now }
    ensures { IfOk result (IsTopologicalOrder nodes.now) }
{
    if is_sorted(nodes) {
        numbers(alloc, nodes.len())
    } else {
        searched_order(alloc, nodes)
    }
}
