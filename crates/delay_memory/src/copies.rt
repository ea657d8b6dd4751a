//! Copies of graphs.

ghost use Rattle.std.specs.Prelude.{◌≡◌, IfOk};

use lists::List;
use signal_graph::{Graph, node_copies};
use std::alloc::{AllocError, Global};

pub(crate) fn graph_copy(alloc: Global, graph: &Graph) -> Result<Graph, AllocError>
    ensures { IfOk result (λ copy. copy ≡ graph.now) }
{
    Ok(Graph {
        nodes: node_copies(alloc, &graph.nodes)?,
        inputs: List::from_slice(alloc, graph.inputs.as_slice())?,
        outs: graph.outs,
    })
}
