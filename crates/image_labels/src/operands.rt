//! Whether an issue reads the operands of a node.
ghost use Rattle.std.specs.Prelude.{◌≡◌, ◌⊎◌, ◌≤◌, ◌↔◌, length, IsTrue};
ghost use Rattle.image_labels.specs.Rules.{IsCommutative, IsConstant, Tells};
ghost use Rattle.image_labels.specs.Labelled.{ReadsOperand, ReadsInOrder, ReadsExchanged};
ghost use Rattle.image_labels.specs.Private.Written.{AreRight};

use crate::copies::{edge_at, representative};
use crate::label::{Certificate, Hints, Label};
use crate::labels::operand_label;
use fix_word::Op;
use micro_image::{Image, Issue, reads};
use signal_graph::{Graph, Node};

/// Whether an operation gives the same where its two operands are exchanged.
pub fn commutes(op: Op) -> bool
    ensures { IsTrue result ↔ IsCommutative op }
{
    matches!(op, Op::Add | Op::Mul | Op::Eq | Op::Ne | Op::And | Op::Or)
}

/// Whether a node is a constant of this word.
fn is_constant(graph: &Graph, node: u32, word: i64) -> bool
    ensures { IsTrue result ↔ IsConstant graph.now node word }
{
    let v = node as usize;
    if v < graph.nodes.len() {
        match graph.nodes[v].op {
            Op::Const => graph.nodes[v].arg == word,
            _ => false,
        }
    } else {
        false
    }
}

/// Whether a label tells the word of a node in a sample.
pub fn tells(graph: &Graph, certificate: &Certificate, label: Label, node: u32, sample: u32) -> bool
    ensures { IsTrue result ↔ Tells graph.now certificate.now.representatives label node sample }
{
    let nodes = &certificate.representatives;
    match label {
        Label::Signal(v, s) => {
            (v as usize) < graph.nodes.len()
                && representative(nodes, v) == representative(nodes, node)
                && s == sample
        }
        Label::Constant(word) => 1024 <= sample && is_constant(graph, node, word),
        _ => false,
    }
}

/// Whether an issue reads an operand of a node at a port, in a sample.
fn reads_operand(
    graph: &Graph,
    image: &Image,
    certificate: &Certificate,
    sample: u32,
    cycle: u16,
    issue: &Issue,
    node: &Node,
    port: u32,
    operand: u32,
    hints: Hints,
) -> bool
    requires cycle { cycle ≤ length image.now.words }
    requires right { AreRight image.now certificate.now hints }
    ensures { IsTrue result
        ↔ ReadsOperand graph.now image.now certificate.now sample cycle issue.now node.now port operand }
{
    let edge = edge_at(&node.edges, operand);
    let label = operand_label(image, certificate, cycle, issue, port, hints);
    tells(
        graph,
        certificate,
        label,
        edge.node,
        sample.saturating_sub(u32::from(edge.delay)),
    )
}

/// Whether an issue reads a node's operands, each at its port.
fn reads_in_order(
    graph: &Graph,
    image: &Image,
    certificate: &Certificate,
    sample: u32,
    cycle: u16,
    issue: &Issue,
    node: &Node,
    hints: Hints,
) -> bool
    requires cycle { cycle ≤ length image.now.words }
    requires right { AreRight image.now certificate.now hints }
    ensures { IsTrue result
        ↔ ReadsInOrder graph.now image.now certificate.now sample cycle issue.now node.now }
{
    for port in 0..3u32 {
        if (port as usize) < reads(issue.op)
            && !reads_operand(
                graph,
                image,
                certificate,
                sample,
                cycle,
                issue,
                node,
                port,
                port,
                hints,
            )
        {
            return false;
        }
    }
    true
}

/// Whether an issue reads a node's two operands exchanged, and gives the same.
fn reads_exchanged(
    graph: &Graph,
    image: &Image,
    certificate: &Certificate,
    sample: u32,
    cycle: u16,
    issue: &Issue,
    node: &Node,
    hints: Hints,
) -> bool
    requires cycle { cycle ≤ length image.now.words }
    requires right { AreRight image.now certificate.now hints }
    ensures { IsTrue result
        ↔ ReadsExchanged graph.now image.now certificate.now sample cycle issue.now node.now }
{
    commutes(issue.op)
        && reads_operand(
            graph,
            image,
            certificate,
            sample,
            cycle,
            issue,
            node,
            0,
            1,
            hints,
        )
        && reads_operand(
            graph,
            image,
            certificate,
            sample,
            cycle,
            issue,
            node,
            1,
            0,
            hints,
        )
}

/// Whether an issue reads a node's operands, in their order or exchanged.
pub fn reads_operands(
    graph: &Graph,
    image: &Image,
    certificate: &Certificate,
    sample: u32,
    cycle: u16,
    issue: &Issue,
    node: &Node,
    hints: Hints,
) -> bool
    requires cycle { cycle ≤ length image.now.words }
    requires right { AreRight image.now certificate.now hints }
    ensures { IsTrue result
        ↔ (ReadsInOrder graph.now image.now certificate.now sample cycle issue.now node.now
        ⊎ ReadsExchanged graph.now image.now certificate.now sample cycle issue.now node.now) }
{
    reads_in_order(graph, image, certificate, sample, cycle, issue, node, hints)
        || reads_exchanged(graph, image, certificate, sample, cycle, issue, node, hints)
}
