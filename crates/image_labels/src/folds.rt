//! Whether a product in another format gives at once what a pass makes of a product.
ghost use Rattle.std.specs.Prelude.{◌≡◌, ◌<◌, ◌↔◌, ◌+ℤ◌, ◌≤ℤ◌, pos, length, IsTrue};
ghost use Rattle.fix_word.specs.declared.operation.Op.TheVariants.{Pass, Mul};
ghost use Rattle.plan_core.specs.Operands.{edge_of};
ghost use Rattle.image_labels.specs.Rules.{IsWrapping, IsFlooring, FloorsFirst, RoundsOnce, IsJoined, passed as passed_by, IsFold};

use crate::copies::edge_at;
use fix_word::{Format, Mode, Op};
use signal_graph::{Graph, Node};

/// Whether a mode wraps what is out of the range.
fn wraps(mode: Mode) -> bool
    ensures { IsTrue result ↔ IsWrapping mode }
{
    matches!(mode, Mode::Trunc | Mode::Round)
}

/// Whether a mode takes the floor.
fn takes_floor(mode: Mode) -> bool
    ensures { IsTrue result ↔ IsFlooring mode }
{
    matches!(mode, Mode::Trunc | Mode::Sat)
}

fn same_mode(a: Mode, b: Mode) -> bool
    ensures { IsTrue result ↔ (a ≡ b) }
{
    a == b
}

/// Whether the first of two formats takes a floor, and the second shifts on to the right.
fn floors_first(first: Format, later: Format) -> bool
    ensures { IsTrue result ↔ FloorsFirst first later }
{
    0 <= first.shift && 0 < later.shift && takes_floor(first.mode)
}

/// Whether one alone of two formats rounds, as one of the sum of their shifts does.
fn rounds_once(first: Format, later: Format) -> bool
    ensures { IsTrue result ↔ RoundsOnce first later }
{
    first.shift == 0
        || (later.shift == 0 && same_mode(first.mode, later.mode))
        || floors_first(first, later)
}

fn is_at_most_sum(first: i8, later: i8, sum: i8) -> bool
    ensures { IsTrue result ↔ (sum ≤ℤ (first +ℤ later)) }
{
    i16::from(sum) <= i16::from(first) + i16::from(later)
}

fn is_at_least_sum(first: i8, later: i8, sum: i8) -> bool
    ensures { IsTrue result ↔ ((first +ℤ later) ≤ℤ sum) }
{
    i16::from(first) + i16::from(later) <= i16::from(sum)
}

fn is_sum(first: i8, later: i8, sum: i8) -> bool
    ensures { IsTrue result ↔ (sum ≡ first +ℤ later) }
{
    is_at_most_sum(first, later, sum) && is_at_least_sum(first, later, sum)
}

fn same_width(a: u8, b: u8) -> bool
    ensures { IsTrue result ↔ (a ≡ b) }
{
    a == b
}

/// Whether a format has the sum of the shifts of two formats, and else what the second has.
fn has_shape(first: Format, later: Format, joined: Format) -> bool
    ensures { IsTrue result
        ↔ ((joined.shift ≡ first.shift +ℤ later.shift) × (joined.mode ≡ later.mode) × (joined.width ≡ later.width)) }
{
    is_sum(first.shift, later.shift, joined.shift)
        && same_mode(joined.mode, later.mode)
        && same_width(joined.width, later.width)
}

/// Whether all bits that a format keeps are among those of the one before.
fn keeps_bits(first: Format, later: Format) -> bool
    ensures { IsTrue result ↔ ((pos later.width +ℤ later.shift) ≤ℤ pos first.width) }
{
    i16::from(later.width) + i16::from(later.shift) <= i16::from(first.width)
}

fn wrap_both(first: Format, later: Format) -> bool
    ensures { IsTrue result ↔ (IsWrapping first.mode × IsWrapping later.mode) }
{
    wraps(first.mode) && wraps(later.mode)
}

/// Whether a format gives at once what two formats give one after the other.
fn is_joined(first: Format, later: Format, joined: Format) -> bool
    ensures { IsTrue result ↔ IsJoined first later joined }
{
    has_shape(first, later, joined)
        && rounds_once(first, later)
        && wrap_both(first, later)
        && keeps_bits(first, later)
}

/// The node whose word a node reads first.
pub fn passed(graph: &Graph, node: u32) -> u32
    requires { node < length graph.now.nodes }
    ensures { result ≡ passed_by graph.now node }
{
    edge_at(&graph.nodes[node as usize].edges, 0).node
}

fn is_undelayed(node: &Node) -> bool
    ensures { IsTrue result ↔ ((edge_of node.now 0).delay ≡ 0) }
{
    edge_at(&node.edges, 0).delay == 0
}

fn is_pass(node: &Node) -> bool
    ensures { IsTrue result ↔ (node.now.op ≡ Pass) }
{
    matches!(node.op, Op::Pass)
}

fn is_product(node: &Node) -> bool
    ensures { IsTrue result ↔ (node.now.op ≡ Mul) }
{
    matches!(node.op, Op::Mul)
}

/// Whether a product in this format gives at once what a node makes of a product.
pub fn is_fold(graph: &Graph, node: u32, format: Format) -> bool
    ensures { IsTrue result ↔ IsFold graph.now node format }
{
    let v = node as usize;
    if v < graph.nodes.len() {
        let u = passed(graph, node) as usize;
        u < graph.nodes.len()
            && is_pass(&graph.nodes[v])
            && is_undelayed(&graph.nodes[v])
            && is_product(&graph.nodes[u])
            && is_joined(graph.nodes[u].fmt, graph.nodes[v].fmt, format)
    } else {
        false
    }
}
