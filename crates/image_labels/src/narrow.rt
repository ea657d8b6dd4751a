//! How many bits the words of nodes and labels have.
ghost use Rattle.std.specs.Prelude.{◌↔◌, IsTrue};
ghost use Rattle.fix_word.specs.Words.{IsWord, IsWidth};
ghost use Rattle.operations.specs.Operations.{class_of};
ghost use Rattle.image_labels.specs.Rules.{GivesBits, HasBits, IsNarrow};

use crate::label::Label;
use fix_word::Op;
use signal_graph::{Graph, Node};

/// Whether words may have so many bits.
pub fn is_width(bits: u8) -> bool
    ensures { IsTrue result ↔ IsWidth bits }
{
    1 <= bits && bits <= 40
}

/// Whether a word has at most so many bits.
fn has_bits(word: i64, bits: u8) -> bool
    requires { IsWidth bits }
    ensures { IsTrue result ↔ IsWord bits word }
{
    let half = i128::from(1u64 << (bits - 1));
    let word = i128::from(word);
    -half <= word && word < half
}

/// Whether what a node gives in a run has at most so many bits.
fn gives_bits(node: &Node, bits: u8) -> bool
    requires { IsWidth bits }
    ensures { IsTrue result ↔ GivesBits (class_of node.now.op) node.now bits }
{
    match node.op {
        Op::Add | Op::Sub | Op::Neg | Op::Pass | Op::Mul => node.fmt.width <= bits,
        Op::Lt | Op::Le | Op::Eq | Op::Ne | Op::And | Op::Or | Op::Not => 2 <= bits,
        Op::Const => has_bits(node.arg, bits),
        _ => false,
    }
}

/// Whether the words of a node have at most so many bits.
fn node_has_bits(graph: &Graph, node: u32, bits: u8) -> bool
    requires { IsWidth bits }
    ensures { IsTrue result ↔ HasBits graph.now node bits }
{
    let v = node as usize;
    if v < graph.nodes.len() {
        let node = &graph.nodes[v];
        node.width <= bits && gives_bits(node, bits)
    } else {
        false
    }
}

/// Whether what a label says, up to a sample, has at most so many bits.
pub fn is_narrow(graph: &Graph, now: u32, bits: u8, label: Label) -> bool
    requires { IsWidth bits }
    ensures { IsTrue result ↔ IsNarrow graph.now now bits label }
{
    match label {
        Label::Signal(node, sample) => {
            0 < sample && sample <= now && node_has_bits(graph, node, bits)
        }
        Label::Constant(word) => has_bits(word, bits),
        _ => false,
    }
}
