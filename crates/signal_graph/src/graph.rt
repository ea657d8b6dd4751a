//! Graphs: a node for each operation of a flat program. Page `docs/GRAPH.md`, "Graphs".

use fix_word::{Format, Op, SigType};
use lists::List;
use short_lists::ShortList;

/// The most operands of an operation.
const PORTS: usize = 3;

/// An operand of a node: the word of the node with this number, `delay` samples ago.
#[derive(Clone, Copy, Default)]
pub struct Edge {
    pub node: u32,
    pub delay: u16,
}

/// The operands of a node, which take no memory of their own where they are as many as an operation has.
pub type Edges = ShortList<Edge, PORTS>;

/// One operation, done once a sample.
#[derive(Drop)]
pub struct Node {
    pub op: Op,
    /// How the exact result is quantised by `Add`, `Sub`, `Neg`, `Pass` and `Mul`; shift 0, `Trunc` and width 0 at
    /// the others.
    pub fmt: Format,
    /// The number of the input word or output word, or the constant's raw word; 0 at the others.
    pub arg: i64,
    /// An edge for each operand, in the order of the operation's ports.
    pub edges: Edges,
    /// Its initial values: k and the raw word at sample -k, by rising k. At the others before sample 0 it is 0.
    pub inits: List<(u16, i64)>,
    /// The bits of its words: 2 for a truth value.
    pub width: u8,
    /// The unit number of the ram that `Load`, `Store` and `Addr` are meant for, which the nodes of a graph never are;
    /// 0 where no ram is meant.
    pub ram: u8,
}

/// Nodes, numbered from 0 by their order. The output nodes are the last ones.
#[derive(Drop)]
pub struct Graph {
    pub nodes: List<Node>,
    /// The type of each input word.
    pub inputs: List<SigType>,
    /// How many output words there are.
    pub outs: u8,
}
