//! The nodes of the lowered list.

ghost use Rattle.std.specs.Prelude.{◌≡◌, ◌<◌, ◌≤◌, ◌+◌, ◌*◌, ◌^◌, ◌++◌, [], ◌∷◌, length, slice_index_or, Contains, IfOk, OnOk};
ghost use Rattle.std.specs.List.{All, AllZip};
ghost use Rattle.std.specs.List.Sorted.{IsStrictlyIncreasing};
ghost use Rattle.signal_graph.specs.Rules.{plain};
ghost use Rattle.signal_graph.specs.GraphRules.{IsGraph};
ghost use Rattle.datapath.specs.Allowed.{IsDatapath};
ghost use Rattle.plan_core.specs.Lowered as spec;
ghost use Rattle.plan_core.specs.Lowered.{IsLoweredEdge};
ghost use Rattle.delay_memory.specs.Private.Lines.{lines_before};
ghost use Rattle.delay_memory.specs.Private.Nodes.{load_nodes, line_nodes, IsLayout, IsLaid, IsCopy, AreLaidOut, AreMadeBefore};

use crate::numbers::{FIRST_ADDRESS, FIRST_OF_DELAYS, NODES_OF_DELAY};
use crate::target::Target;
use fix_word::{Format, Mode, Op};
use lists::List;
use plan_core::Line;
use signal_graph::{Edge, Edges, Graph, Node};
use std::alloc::{AllocError, Global};

/// What the nodes of a graph get.
#[derive(Clone, Copy)]
pub(crate) struct Layout<'a> {
    pub target: &'a Target<'a>,
    /// The long delays of each node, rising.
    pub delays: &'a List<List<u16>>,
    /// The number of each node in the lowered list.
    pub numbers: &'a List<u32>,
    /// The lines of the nodes that have long delays, in order.
    pub lines: &'a List<Line>,
}

/// The format of nodes that do not quantise.
fn no_format() -> Format
    ensures { result ≡ plain 0 }
{
    Format {
        shift: 0,
        mode: Mode::Trunc,
        width: 0,
    }
}

fn edge_now(node: u32) -> Edge
    ensures { result ≡ spec.edge_now node }
{
    Edge { node, delay: 0 }
}

fn address_node(alloc: Global, ram: u8, offset: u32) -> Node
    ensures { result ≡ spec.address_node ram offset }
{
    Node {
        op: Op::Addr,
        fmt: no_format(),
        arg: i64::from(offset),
        edges: Edges::new(alloc),
        inits: List::new(alloc),
        width: 1,
        ram,
    }
}

fn store_node(alloc: Global, ram: u8, at: u32, value: u32) -> Result<Node, AllocError>
    ensures { IfOk result (λ node. node ≡ spec.store_node ram at value) }
{
    Ok(Node {
        op: Op::Store,
        fmt: no_format(),
        arg: 0,
        edges: Edges::from_slice(alloc, &[edge_now(at), edge_now(value)])?,
        inits: List::new(alloc),
        width: 1,
        ram,
    })
}

fn load_node(alloc: Global, ram: u8, at: u32, width: u8) -> Result<Node, AllocError>
    ensures { IfOk result (λ node. node ≡ spec.load_node ram at width) }
{
    Ok(Node {
        op: Op::Load,
        fmt: no_format(),
        arg: 0,
        edges: Edges::from_slice(alloc, &[edge_now(at)])?,
        inits: List::new(alloc),
        width,
        ram,
    })
}

/// Adds an address and a load for each of the delays of a node whose words have this width.
fn add_loads(
    alloc: Global,
    nodes: &mut List<Node>,
    line: &Line,
    width: u8,
    delays: &List<u16>,
) -> Result<(), AllocError>
    requires number { line.now.node + 3 + 2 * length delays.now < 2 ^ 32 }
    requires offset { line.now.offset + 2 ^ 16 ≤ 2 ^ 32 }
    ensures { OnOk result
        (nodes.new ≡ nodes.old ++ load_nodes line.now width (line.now.node + 3) delays.now) }
{
    let mut at = line.node + FIRST_OF_DELAYS;
    for delay in delays.iter() {
        nodes.push(address_node(alloc, line.ram, line.offset + u32::from(*delay)))?;
        nodes.push(load_node(alloc, line.ram, at, width)?)?;
        at += NODES_OF_DELAY;
    }
    Ok(())
}

/// Adds the nodes of a delay line.
fn add_line(
    alloc: Global,
    nodes: &mut List<Node>,
    line: &Line,
    width: u8,
    delays: &List<u16>,
) -> Result<(), AllocError>
    requires number { line.now.node + 3 + 2 * length delays.now < 2 ^ 32 }
    requires offset { line.now.offset + 2 ^ 16 ≤ 2 ^ 32 }
    ensures { OnOk result (nodes.new ≡ nodes.old ++ line_nodes line.now width delays.now) }
{
    nodes.push(address_node(alloc, line.ram, line.offset))?;
    nodes.push(store_node(alloc, line.ram, line.node + FIRST_ADDRESS, line.node)?)?;
    add_loads(alloc, nodes, line, width, delays)
}

/// The index of a delay among the long delays.
fn index_of(delays: &[u16], delay: u16) -> usize
    requires rise { IsStrictlyIncreasing delays.now }
    requires there { Contains delays.now delay }
    ensures less { result < length delays.now }
    ensures at { slice_index_or delays.now result 0 ≡ delay }
{
    match delays.binary_search(&delay) {
        Ok(index) => index,
        Err(_) => unreachable!(),
    }
}

/// The edge of the lowered list for one of the graph.
fn edge_for(layout: &Layout, edge: Edge) -> Edge
    requires layout { IsLayout layout.now.delays.now layout.now.numbers.now }
    requires edge { IsLaid layout.now.target.now.hold layout.now.delays.now edge }
    ensures { IsLoweredEdge layout.now.target.now.hold layout.now.delays.now result edge }
{
    let node = edge.node as usize;
    let number = layout.numbers[node];
    if edge.delay <= u16::from(layout.target.hold) {
        return Edge {
            node: number,
            delay: edge.delay,
        };
    }
    let index = index_of(layout.delays[node].as_slice(), edge.delay);
    edge_now(number + FIRST_OF_DELAYS + NODES_OF_DELAY * index as u32 + 1)
}

/// Makes the edges of a node those of the lowered list, in their places.
fn lower_edges(layout: &Layout, edges: &mut Edges)
    requires layout { IsLayout layout.now.delays.now layout.now.numbers.now }
    requires edges { All (IsLaid layout.now.target.now.hold layout.now.delays.now) edges.old }
    ensures { AllZip (IsLoweredEdge layout.now.target.now.hold layout.now.delays.now) edges.new edges.old }
{
    for port in 0..edges.len() {
        let edge = edge_for(layout, edges[port]);
        edges.set(port, edge);
    }
}

/// The node of the lowered list for one of the graph.
fn own_node(layout: &Layout, node: Node) -> Node
    requires layout { IsLayout layout.now.delays.now layout.now.numbers.now }
    requires edges { All (IsLaid layout.now.target.now.hold layout.now.delays.now) node.edges }
    ensures { IsCopy layout.now.target.now.hold layout.now.delays.now node result }
{
    let mut edges = node.edges;
    lower_edges(layout, &mut edges);
    Node {
        op: node.op,
        fmt: node.fmt,
        arg: node.arg,
        edges,
        inits: node.inits,
        width: node.width,
        ram: node.ram,
    }
}

/// What stays in the place of a node that is taken out of a list.
fn no_node(alloc: Global) -> Node {
    address_node(alloc, 0, 0)
}

/// How many nodes there are up to the last one of the graph, which mostly has no delay line.
fn room_for(numbers: &List<u32>) -> usize {
    match numbers.as_slice().last() {
        Some(last) => *last as usize + 1,
        None => 0,
    }
}

/// The nodes of the graph, each followed by those of its delay line.
pub(crate) fn nodes_of(
    alloc: Global,
    graph: Graph,
    layout: &Layout,
) -> Result<List<Node>, AllocError>
    requires sound { IsGraph graph }
    requires path { IsDatapath layout.now.target.now.datapath.now }
    requires laid_out { AreLaidOut layout.now.target.now.hold layout.now.target.now.spare graph
        layout.now.target.now.datapath.now layout.now.delays.now layout.now.numbers.now layout.now.lines.now }
    ensures { IfOk result (AreMadeBefore layout.now.target.now.hold graph layout.now.target.now.datapath.now
        layout.now.delays.now layout.now.lines.now (length graph.nodes)) }
{
    let mut left = graph.nodes;
    let mut nodes = List::with_capacity(alloc, room_for(layout.numbers))?;
    let mut next = 0;
    for v in 0..left.len() {
        let node = left.replace(v, no_node(alloc));
        let width = node.width;
        nodes.push(own_node(layout, node))?;
        let delays = &layout.delays[v];
        if delays.is_empty() {
            continue;
        }
        add_line(alloc, &mut nodes, &layout.lines[next], width, delays)?;
        next += 1;
    }
    Ok(nodes)
}
