//! The graph without the nodes from which no output is reached. Page `docs/GRAPH.md`, "The graph of a flat program".

ghost use Rattle.std.specs.Prelude.{◌≡◌, ◌<◌, ◌^◌, ◌↔◌, length, map, false, replicate, IfOk, OnOk, IsTrue};
ghost use Rattle.std.specs.List.{All};
ghost use Rattle.fix_word.specs.declared.operation.Op.TheVariants.{Output};
ghost use Rattle.signal_graph.specs.GraphRules.{IsGraph};
ghost use Rattle.signal_graph.specs.GraphSolves.{IsGraphLoopless};
ghost use Rattle.signal_graph.specs.Keeps.{KeepsGraphSolutions};
ghost use Rattle.signal_graph.specs.Pruned.{IsPruned};
ghost use Rattle.flow_graph.specs.Private.Pruning.{reached, all_reached, HasOutputs, IsSearch, AreUsedMarks, AreAllMarked, numbers_from, renumbered_edge, renumbered, kept_nodes};

use fix_word::Op;
use lists::List;
use signal_graph::{Edge, Edges, Graph, Node};
use std::alloc::{AllocError, AllocFailed, Global};
use thiserror::Error;

/// Why a graph is not pruned.
#[derive(Debug, Clone, Copy, PartialEq, Eq, Drop, Error)]
pub enum PruneFault {
    /// Out of memory.
    #[error("no memory")]
    Memory,
}

impl<T: Drop> From<AllocFailed<T>> for PruneFault {
    fn from(_: AllocFailed<T>) -> PruneFault {
        PruneFault::Memory
    }
}

impl From<AllocError> for PruneFault {
    fn from(_: AllocError) -> PruneFault {
        PruneFault::Memory
    }
}

/// A search back from the outputs. Its list of nodes stands in for a recursion, since a chain of nodes may be as long
/// as the graph.
#[derive(Drop)]
pub struct Search {
    /// Whether a node was reached.
    pub marks: List<bool>,
    /// The nodes that were reached, in the order in which they were.
    pub found: List<u32>,
}

/// Marks a node.
fn reach(v: u32, search: &mut Search) -> Result<(), AllocFailed<u32>>
    requires { v < length search.old.marks }
    ensures { OnOk result (search.new ≡ reached search.old v) }
{
    if !search.marks[v as usize] {
        search.marks[v as usize] = true;
        search.found.push(v)?;
    }
    Ok(())
}

/// Marks the nodes that a node reads, at any delay.
fn follow(node: &Node, search: &mut Search) -> Result<(), AllocFailed<u32>>
    requires { All (λ edge. edge.node < length search.old.marks) node.now.edges }
    ensures { OnOk result (search.new ≡ all_reached search.old node.now.edges) }
{
    for edge in node.edges.iter() {
        reach(edge.node, search)?;
    }
    Ok(())
}

fn is_output(node: &Node) -> bool
    ensures { IsTrue result ↔ (node.now.op ≡ Output) }
{
    matches!(node.op, Op::Output)
}

/// Marks the outputs.
fn reach_outputs(graph: &Graph, search: &mut Search) -> Result<(), AllocFailed<u32>>
    requires sound { IsGraph graph.now }
    requires search { IsSearch graph.now 0 search.old }
    ensures search { OnOk result (IsSearch graph.now 0 search.new) }
    ensures outputs { OnOk result (HasOutputs graph.now search.new) }
{
    for v in 0..graph.nodes.len() {
        if is_output(&graph.nodes[v]) {
            reach(v as u32, search)?;
        }
    }
    Ok(())
}

/// Marks all that is read by what is marked.
fn follow_all(graph: &Graph, search: &mut Search) -> Result<(), AllocFailed<u32>>
    requires sound { IsGraph graph.now }
    requires search { IsSearch graph.now 0 search.old }
    requires outputs { HasOutputs graph.now search.old }
    ensures { OnOk result (AreUsedMarks graph.now search.new.marks) }
{
    let mut next = 0;
    while next < search.found.len() {
        let v = search.found[next];
        follow(&graph.nodes[v as usize], search)?;
        next += 1;
    }
    Ok(())
}

fn unmarked(alloc: Global, count: usize) -> Result<List<bool>, AllocError>
    ensures { IfOk result (λ list. list ≡ replicate count false) }
{
    Ok(List::from_vec(vec![in alloc; false; count]?))
}

/// Whether an output is reached from each node.
fn used_marks(alloc: Global, graph: &Graph) -> Result<List<bool>, AllocError>
    requires { IsGraph graph.now }
    ensures { IfOk result (AreUsedMarks graph.now) }
{
    let mut search = Search {
        marks: unmarked(alloc, graph.nodes.len())?,
        found: List::with_capacity(alloc, graph.nodes.len())?,
    };
    reach_outputs(graph, &mut search)?;
    follow_all(graph, &mut search)?;
    Ok(search.marks)
}

fn are_all_marked(marks: &List<bool>) -> bool
    ensures { IsTrue result → AreAllMarked marks.now }
{
    for mark in marks.iter() {
        if !*mark {
            return false;
        }
    }
    true
}

/// For each node how many nodes before it are kept, which is its new number.
fn numbers_of(alloc: Global, marks: &List<bool>) -> Result<List<u32>, AllocError>
    requires { length marks.now < 2 ^ 20 }
    ensures { IfOk result (λ numbers. numbers ≡ numbers_from 0 marks.now) }
{
    let mut numbers = List::with_capacity(alloc, marks.len())?;
    let mut next = 0;
    for kept in marks.iter() {
        numbers.push(next)?;
        if *kept {
            next += 1;
        }
    }
    Ok(numbers)
}

fn renumbered_edges(alloc: Global, numbers: &List<u32>, edges: &Edges) -> Result<Edges, AllocError>
    requires { All (λ edge. edge.node < length numbers.now) edges.now }
    ensures { IfOk result (λ new. new ≡ map (renumbered_edge numbers.now) edges.now) }
{
    let mut new = Edges::new(alloc);
    for edge in edges.iter() {
        new.push(Edge {
            node: numbers[edge.node as usize],
            delay: edge.delay,
        })?;
    }
    Ok(new)
}

fn renumbered_node(alloc: Global, numbers: &List<u32>, node: &Node) -> Result<Node, AllocError>
    requires { All (λ edge. edge.node < length numbers.now) node.now.edges }
    ensures { IfOk result (λ new. new ≡ renumbered numbers.now node.now) }
{
    let edges = renumbered_edges(alloc, numbers, &node.edges)?;
    Ok(Node {
        op: node.op,
        fmt: node.fmt,
        arg: node.arg,
        edges,
        inits: List::from_slice(alloc, node.inits.as_slice())?,
        width: node.width,
        ram: node.ram,
    })
}

fn nodes_of(
    alloc: Global,
    graph: &Graph,
    marks: &List<bool>,
    numbers: &List<u32>,
) -> Result<List<Node>, AllocError>
    requires sound { IsGraph graph.now }
    requires marks { length marks.now ≡ length graph.now.nodes }
    requires numbers { length numbers.now ≡ length graph.now.nodes }
    ensures { IfOk result (λ nodes. nodes ≡ kept_nodes graph.now numbers.now marks.now) }
{
    let mut nodes = List::with_capacity(alloc, graph.nodes.len())?;
    for v in 0..graph.nodes.len() {
        if marks[v] {
            let node = renumbered_node(alloc, numbers, &graph.nodes[v])?;
            nodes.push(node)?;
        }
    }
    Ok(nodes)
}

/// The graph of the marked nodes, numbered anew.
fn marked_graph(alloc: Global, graph: &Graph, marks: &List<bool>) -> Result<Graph, AllocError>
    requires sound { IsGraph graph.now }
    requires marks { AreUsedMarks graph.now marks.now }
    ensures { IfOk result (IsPruned graph.now) }
{
    let numbers = numbers_of(alloc, marks)?;
    Ok(Graph {
        nodes: nodes_of(alloc, graph, marks, &numbers)?,
        inputs: List::from_slice(alloc, graph.inputs.as_slice())?,
        outs: graph.outs,
    })
}

/// Does what `prune` does with a graph of its own, which it gives back where no node is left out.
///
/// # Errors
///
/// Those of `prune`.
pub fn prune_owned(alloc: Global, graph: Graph) -> Result<Graph, PruneFault>
    requires sound { IsGraph graph }
    requires loopless { IsGraphLoopless graph }
    ensures pruned { IfOk result (IsPruned graph) }
    ensures sound { IfOk result IsGraph }
    ensures loopless { IfOk result IsGraphLoopless }
    ensures keeps { IfOk result (KeepsGraphSolutions graph) }
{
    let marks = used_marks(alloc, &graph)?;
    if are_all_marked(&marks) {
        return Ok(graph);
    }
    Ok(marked_graph(alloc, &graph, &marks)?)
}

/// The graph without the nodes from which no output is reached over edges of any delay. The others have new numbers, in
/// their order. Takes time in proportion to nodes and edges. Page `docs/GRAPH.md`, "The graph of a flat program".
///
/// # Errors
///
/// `Memory` where no memory is left.
pub fn prune(alloc: Global, graph: &Graph) -> Result<Graph, PruneFault>
    requires sound { IsGraph graph.now }
    requires loopless { IsGraphLoopless graph.now }
    ensures pruned { IfOk result (IsPruned graph.now) }
    ensures sound { IfOk result IsGraph }
    ensures loopless { IfOk result IsGraphLoopless }
    ensures keeps { IfOk result (KeepsGraphSolutions graph.now) }
{
    let marks = used_marks(alloc, graph)?;
    Ok(marked_graph(alloc, graph, &marks)?)
}
