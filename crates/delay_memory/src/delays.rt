//! The long delays of the nodes.

ghost use Rattle.std.specs.Prelude.{◌≡◌, ◌<◌, ◌↔◌, ℕ, [], length, replicate, Contains, IfOk, OnOk};
ghost use Rattle.std.specs.List.Sorted.{IsStrictlyIncreasing};
ghost use Rattle.signal_graph.specs.GraphRules.{IsGraph};
ghost use Rattle.plan_core.specs.Operands.{node_of};
ghost use Rattle.delay_memory.specs.Private.Delays.{delays_at, AddsRead, AreReadsBefore, AreDelays, AreFew};

use lists::List;
use signal_graph::{Edge, Graph};
use std::alloc::{AllocError, Global};

/// Adds the delay of an edge, if it is long, to those of its operand.
fn add_read(hold: u8, edge: Edge, reads: &mut List<List<u16>>) -> Result<(), AllocError>
    requires { edge.node < length reads.old }
    ensures { OnOk result (AddsRead hold edge reads.old reads.new) }
{
    if edge.delay > u16::from(hold) {
        reads[edge.node as usize].push(edge.delay)?;
    }
    Ok(())
}

/// Adds the long delays with which node c reads its operands to those of the operands.
fn add_reads(
    graph: &Graph,
    hold: u8,
    c: usize,
    reads: &mut List<List<u16>>,
) -> Result<(), AllocError>
    requires sound { IsGraph graph.now }
    requires node { c < length graph.now.nodes }
    requires before { AreReadsBefore graph.now hold c 0 reads.old }
    ensures { OnOk result (AreReadsBefore graph.now hold c (length (node_of graph.now.nodes c).edges) reads.new) }
{
    for edge in graph.nodes[c].edges.iter() {
        add_read(hold, *edge, reads)?;
    }
    Ok(())
}

fn no_reads(alloc: Global, count: usize) -> Result<List<List<u16>>, AllocError>
    ensures { IfOk result (λ reads. reads ≡ replicate count []) }
{
    let mut reads = List::with_capacity(alloc, count)?;
    for _ in 0..count {
        reads.push(List::new(alloc))?;
    }
    Ok(reads)
}

/// For each node the long delays with which it is read, one for each edge.
fn all_reads(alloc: Global, graph: &Graph, hold: u8) -> Result<List<List<u16>>, AllocError>
    requires { IsGraph graph.now }
    ensures { IfOk result (AreReadsBefore graph.now hold (length graph.now.nodes) 0) }
{
    let mut reads = no_reads(alloc, graph.nodes.len())?;
    for c in 0..graph.nodes.len() {
        add_reads(graph, hold, c, &mut reads)?;
    }
    Ok(reads)
}

/// The numbers in order, each once.
fn rising(numbers: List<u16>) -> Result<List<u16>, AllocError>
    ensures rise { IfOk result IsStrictlyIncreasing }
    ensures same { IfOk result (λ risen. (k : ℕ) → Contains risen k ↔ Contains numbers k) }
{
    let mut numbers = numbers.into_vec();
    numbers.sort()?;
    numbers.dedup();
    Ok(List::from_vec(numbers))
}

/// For each node its long delays, rising.
pub(crate) fn delays_of(
    alloc: Global,
    graph: &Graph,
    hold: u8,
) -> Result<List<List<u16>>, AllocError>
    requires { IsGraph graph.now }
    ensures delays { IfOk result (AreDelays graph.now hold) }
    ensures few { IfOk result AreFew }
    ensures rise { IfOk result (λ delays. (v : ℕ) → IsStrictlyIncreasing (delays_at delays v)) }
{
    let mut reads = all_reads(alloc, graph, hold)?;
    let mut delays = List::with_capacity(alloc, graph.nodes.len())?;
    for v in 0..graph.nodes.len() {
        delays.push(rising(reads.replace(v, List::new(alloc)))?)?;
    }
    Ok(delays)
}
