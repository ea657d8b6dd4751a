//! Nodes that are copies of others.
ghost use Rattle.std.specs.Prelude.{◌≡◌, ◌⊎◌, ◌<◌, ◌^◌, ◌↔◌, length, IsTrue, OnOk, OnErr};
ghost use Rattle.signal_graph.specs.GraphRules.{IsGraph};
ghost use Rattle.plan_core.specs.Operands.{no_edge};
ghost use Rattle.micro_image.specs.Fields.{nth};
ghost use Rattle.image_labels.specs.Rules.{representative as representative_of, HaveOneRepresentative, AreSameOperands, IsCopy, AreCopies};
ghost use Rattle.image_labels.specs.Private.Checked.{HasSameOperands, IsOwnOrCopy};

use crate::label::Certificate;
use crate::mismatch::Mismatch;
use fix_word::{Format, Op};
use lists::List;
use micro_image::reads;
use signal_graph::{Edge, Edges, Graph, Node};

pub fn edge_at(edges: &Edges, port: u32) -> Edge
    ensures { result ≡ nth edges.now port no_edge }
{
    let port = port as usize;
    if port < edges.len() {
        edges[port]
    } else {
        Edge { node: 0, delay: 0 }
    }
}

pub fn same_format(a: Format, b: Format) -> bool
    ensures { IsTrue result ↔ (a ≡ b) }
{
    a == b
}

pub fn same_operation(a: Op, b: Op) -> bool
    ensures { IsTrue result ↔ (a ≡ b) }
{
    a == b
}

/// The node that stands for a node.
pub fn representative(nodes: &List<u32>, node: u32) -> u32
    ensures { result ≡ representative_of nodes.now node }
{
    let v = node as usize;
    if v < nodes.len() { nodes[v] } else { node }
}

fn same_inits(a: &List<(u16, i64)>, b: &List<(u16, i64)>) -> bool
    ensures { IsTrue result ↔ (a.now ≡ b.now) }
{
    a.as_slice() == b.as_slice()
}

/// Whether one node stands for those of two operands, of nodes v and u, which are below them where they are read in the
/// same sample.
fn have_one_representative(nodes: &List<u32>, v: u32, u: u32, a: Edge, b: Edge) -> bool
    ensures { IsTrue result ↔ HaveOneRepresentative nodes.now v u a b }
{
    representative(nodes, a.node) == representative(nodes, b.node)
        && (0 < a.delay || (a.node < v && b.node < u))
}

/// Whether two operands, of nodes v and u, are the same.
fn same_operands(nodes: &List<u32>, v: u32, u: u32, a: Edge, b: Edge) -> bool
    ensures { IsTrue result ↔ AreSameOperands nodes.now v u a b }
{
    a.delay == b.delay && (a.node == b.node || have_one_representative(nodes, v, u, a, b))
}

/// Whether the operands of two nodes are the same.
fn has_same_operands(nodes: &List<u32>, v: u32, u: u32, a: &Node, b: &Node) -> bool
    ensures { IsTrue result ↔ HasSameOperands nodes.now v u a.now b.now }
{
    for port in 0..3u32 {
        if (port as usize) < reads(a.op)
            && !same_operands(
                nodes,
                v,
                u,
                edge_at(&a.edges, port),
                edge_at(&b.edges, port),
            )
        {
            return false;
        }
    }
    true
}

/// Whether a node is a copy of one below it.
pub fn is_copy(graph: &Graph, nodes: &List<u32>, v: u32, u: u32) -> bool
    requires { v < length graph.now.nodes }
    ensures { IsTrue result ↔ IsCopy graph.now nodes.now v u }
{
    if u < v {
        let a = &graph.nodes[v as usize];
        let b = &graph.nodes[u as usize];
        same_operation(a.op, b.op)
            && same_format(a.fmt, b.fmt)
            && a.arg == b.arg
            && same_inits(&a.inits, &b.inits)
            && has_same_operands(nodes, v, u, a, b)
    } else {
        false
    }
}

/// Whether a node stands for itself, or is a copy of the one that does.
fn is_own_or_copy(graph: &Graph, nodes: &List<u32>, v: u32) -> bool
    requires { v < length graph.now.nodes }
    ensures { IsTrue result ↔ IsOwnOrCopy graph.now nodes.now v }
{
    let u = representative(nodes, v);
    u == v || is_copy(graph, nodes, v, u)
}

/// Checks that each node stands for itself, or is a copy of the one that stands for it.
pub fn check_copies(graph: &Graph, certificate: &Certificate) -> Result<(), Mismatch>
    requires { IsGraph graph.now }
    ensures ok { OnOk result
        (AreCopies graph.now certificate.now.representatives (length graph.now.nodes)) }
    ensures err { OnErr result
        (AreCopies graph.now certificate.now.representatives (length graph.now.nodes) → ⊥) }
{
    let count = graph.nodes.len() as u32;
    for v in 0..count {
        if !is_own_or_copy(graph, &certificate.representatives, v) {
            return Err(Mismatch::Copy(v));
        }
    }
    Ok(())
}
