//! Why an issue does not fit, for the reader of a mismatch. Nothing rests on it.
ghost use Rattle.std.specs.Prelude.{◌≤◌, length};
ghost use Rattle.micro_image.specs.Valid.{IsValid};
ghost use Rattle.image_labels.specs.Private.Written.{AreRight};

use crate::copies::edge_at;
use crate::fits::{done_node, sample_at};
use crate::label::{Certificate, Hints, Label};
use crate::labels::{issue_label, operand_label};
use crate::mismatch::Mismatch;
use crate::operands::tells;
use fix_word::Op;
use micro_image::{Image, Issue};
use signal_graph::{Edge, Graph};

/// The most operands of an operation.
const PORTS: u8 = 3;

/// Where a node's operand is read.
#[derive(Clone, Copy)]
struct Reader {
    cycle: u16,
    unit: u8,
    port: u8,
    node: u32,
}

/// The mismatch of an operand that has this label in a sample, where it is to be that of an edge.
fn misread(reader: Reader, label: Label, sample: u32, edge: Edge) -> Mismatch {
    let Reader {
        cycle,
        unit,
        port,
        node,
    } = reader;
    match label {
        Label::Signal(has, of) => Mismatch::OtherOperand {
            cycle,
            unit,
            port,
            has,
            ago: sample.saturating_sub(of),
            node,
            wants: edge.node,
            delay: edge.delay,
        },
        _ => Mismatch::UnknownOperand {
            cycle,
            unit,
            port,
            node,
            wants: edge.node,
            delay: edge.delay,
        },
    }
}

/// The mismatch of the first operand whose label is not that of the node's operand.
fn operand_misfit(
    graph: &Graph,
    image: &Image,
    certificate: &Certificate,
    cycle: u16,
    issue: &Issue,
    node: u32,
    hints: Hints,
) -> Option<Mismatch>
    requires valid { IsValid image.now }
    requires cycle { cycle ≤ length image.now.words }
    requires right { AreRight image.now certificate.now hints }
{
    if node as usize >= graph.nodes.len() {
        return None;
    }
    let edges = &graph.nodes[node as usize].edges;
    let sample = sample_at(image, cycle);
    for port in 0..PORTS {
        if usize::from(port) < edges.len() {
            let edge = edge_at(edges, u32::from(port));
            let label = operand_label(image, certificate, cycle, issue, u32::from(port), hints);
            let wants = sample.saturating_sub(u32::from(edge.delay));
            if !tells(graph, certificate, label, edge.node, wants) {
                let reader = Reader {
                    cycle,
                    unit: issue.unit,
                    port,
                    node,
                };
                return Some(misread(reader, label, sample, edge));
            }
        }
    }
    None
}

/// Why an issue does not fit.
pub fn misfit(
    graph: &Graph,
    image: &Image,
    certificate: &Certificate,
    cycle: u16,
    issue: &Issue,
    hints: Hints,
) -> Mismatch
    requires valid { IsValid image.now }
    requires cycle { cycle ≤ length image.now.words }
    requires right { AreRight image.now certificate.now hints }
{
    let unit = issue.unit;
    let unexplained = Mismatch::Issue(cycle, unit);
    match issue_label(certificate, cycle, u32::from(unit)) {
        Label::Signal(node, _) if !matches!(issue.op, Op::Load) => {
            match done_node(graph, issue, node) {
                Some(done) => operand_misfit(
                    graph,
                    image,
                    certificate,
                    cycle,
                    issue,
                    done,
                    hints,
                ).unwrap_or(unexplained),
                None => Mismatch::OtherOperation { cycle, unit, node },
            }
        }
        _ => unexplained,
    }
}
