//! Copies of nodes.

ghost use Rattle.std.specs.Prelude.{◌≡◌, IfOk};

use crate::graph::{Edges, Node};
use lists::List;
use std::alloc::{AllocError, Global};

fn node_copy(alloc: Global, node: &Node) -> Result<Node, AllocError>
    ensures { IfOk result (λ copy. copy ≡ node.now) }
{
    Ok(Node {
        op: node.op,
        fmt: node.fmt,
        arg: node.arg,
        edges: Edges::from_slice(alloc, node.edges.as_slice())?,
        inits: List::from_slice(alloc, node.inits.as_slice())?,
        width: node.width,
        ram: node.ram,
    })
}

pub fn node_copies(alloc: Global, nodes: &List<Node>) -> Result<List<Node>, AllocError>
    ensures { IfOk result (λ copies. copies ≡ nodes.now) }
{
    let mut copies = List::with_capacity(alloc, nodes.len())?;
    for node in nodes.iter() {
        copies.push(node_copy(alloc, node)?)?;
    }
    Ok(copies)
}
