//! The nodes of output words.

ghost use Rattle.std.specs.Prelude.{◌≡◌, ◌<◌, ◌≤◌, ℕ, Some, length, slice_get, slice_index, IfOk, OnOk};
ghost use Rattle.flow_graph.specs.Private.Outputs as made_by;
ghost use Rattle.flow_graph.specs.Private.Outputs.{AddsOutputs};

use crate::nodes::no_format;
use fix_word::Op;
use lists::List;
use signal_graph::{Edge, Edges, Node};
use std::alloc::{AllocError, AllocFailed, Global};

/// The node of an output word, which reads the node with this number and width.
fn output_node(alloc: Global, word: u8, node: u32, width: u8) -> Result<Node, AllocError>
    ensures { IfOk result (λ output. output ≡ made_by.output_node word node width) }
{
    let mut edges = Edges::new(alloc);
    edges.push(Edge { node, delay: 0 })?;
    Ok(Node {
        op: Op::Output,
        fmt: no_format(),
        arg: i64::from(word),
        edges,
        inits: List::new(alloc),
        width,
        ram: 0,
    })
}

/// Adds the nodes of the output words, of which each is an element.
pub(crate) fn add_outputs(
    alloc: Global,
    nodes: &mut List<Node>,
    outs: &[u32],
    elements: &[u32],
) -> Result<(), AllocError>
    requires few { length outs.now ≤ 16 }
    requires elements { (j e : ℕ) → slice_get outs.now j ≡ Some e → e < length elements.now }
    requires nodes { (j e : ℕ) → slice_get outs.now j ≡ Some e → slice_index elements.now e < length nodes.old }
    ensures { OnOk result (AddsOutputs nodes.old elements.now outs.now (length outs.now) nodes.new) }
{
    for word in 0..outs.len() {
        let node = elements[outs[word] as usize];
        let width = nodes[node as usize].width;
        let output = output_node(alloc, word as u8, node, width)?;
        nodes.push(output)?;
    }
    Ok(())
}
