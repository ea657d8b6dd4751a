//! Graphs whose long delays are delay lines in memory. Page `docs/PLANNING.md`, "Delay lines".

use lists::List;
use signal_graph::Node;

/// A delay line: cells of a ram that hold the last words of a node.
#[derive(Clone, Copy)]
pub struct Line {
    /// The number of the node, in the lowered list.
    pub node: u32,
    /// The unit number of the ram.
    pub ram: u8,
    /// The offset of its first cell.
    pub offset: u32,
    /// The longest delay at which the node is read from the line, in samples. The line has one cell more.
    pub depth: u16,
}

/// The nodes of a graph with those that store into the delay lines and load from them, and the lines in the order of
/// their nodes.
#[derive(Drop)]
pub struct Lowered {
    pub nodes: List<Node>,
    pub lines: List<Line>,
}
