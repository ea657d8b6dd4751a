//! The order in which nodes are computed.

ghost use Rattle.std.specs.Prelude.{IfOk};
ghost use Rattle.signal_graph.specs.GraphRules.{IsGraph};
ghost use Rattle.signal_graph.specs.GraphSolves.{IsGraphLoopless};
ghost use Rattle.equation_eval.specs.Private.Order.{IsOrder};

use lists::List;
use node_order::topological_order;
use signal_graph::Graph;
use std::alloc::{AllocError, Global};

/// An order of all nodes but the outputs, in which each comes behind those that it reads without a delay.
pub fn order_of(alloc: Global, graph: &Graph) -> Result<List<u32>, AllocError>
    requires graph { IsGraph graph.now }
    requires loopless { IsGraphLoopless graph.now }
    ensures { IfOk result (IsOrder graph.now) }
{
    let count = graph.nodes.len() - usize::from(graph.outs);
    topological_order(alloc, &graph.nodes.as_slice()[..count])
}
