//! The rings of a graph's nodes, and what they hold before sample 0.
ghost use Rattle.std.specs.Prelude.{◌≡◌, ℕ, ◌+◌, ◌-◌, ◌*◌, ◌^◌, ◌<◌, ◌≤◌, length, pos, replicate, slice_index_or, IfOk, OnOk};
ghost use Rattle.std.specs.List.{All};
ghost use Rattle.fix_word.specs.Words.{IsMachineWord};
ghost use Rattle.signal_graph.specs.GraphRules.{IsGraph};
ghost use Rattle.signal_graph.specs.Rules.{IsWithin, word_before};
ghost use Rattle.equation_eval.specs.declared.memory.TheConstants.{PERIOD};
ghost use Rattle.equation_eval.specs.Private.Rings.{AreLongest, AreRings, IsLayout, HoldInitials, HoldsWordsBefore, SameOutside, IsRaisedBy, HoldsZeros, with_initial};

use crate::memory::{Mask, PERIOD, Ring};
use lists::List;
use operations::Operand;
use signal_graph::{Edges, Graph};
use std::alloc::{AllocError, Global};

fn no_delays(alloc: Global, count: usize) -> Result<List<u16>, AllocError>
    ensures { IfOk result (λ list. list ≡ replicate count 0) }
{
    Ok(List::from_vec(vec![in alloc; 0; count]?))
}

/// Raises the longest delay of each node that is read to that of the edge.
fn raise(longest: &mut List<u16>, edges: &Edges)
    requires nodes { All (λ edge. edge.node < length longest.old) edges.now }
    requires delays { All (λ edge. edge.delay < PERIOD) edges.now }
    requires most { All (λ delay. delay < PERIOD) longest.old }
    ensures { IsRaisedBy edges.now longest.old longest.new }
{
    for edge in edges.iter() {
        let node = edge.node as usize;
        longest[node] = longest[node].max(edge.delay);
    }
}

/// The longest delay with which each node is read.
fn longest_delays(alloc: Global, graph: &Graph) -> Result<List<u16>, AllocError>
    requires { IsGraph graph.now }
    ensures { IfOk result (AreLongest graph.now) }
{
    let mut longest = no_delays(alloc, graph.nodes.len())?;
    for node in graph.nodes.iter() {
        raise(&mut longest, &node.edges);
    }
    Ok(longest)
}

/// The rings of nodes that are read with these delays at most, one after another, and how many cells they have.
fn rings_of(alloc: Global, longest: &List<u16>) -> Result<(List<Ring>, u32), AllocError>
    requires count { length longest.now < 2 ^ 20 }
    requires delays { All (λ delay. delay < PERIOD) longest.now }
    ensures count { IfOk result (λ made. length made.0 ≡ length longest.now) }
    ensures rings { IfOk result (λ made. AreRings longest.now made.0 made.1) }
    ensures most { IfOk result (λ made. made.1 ≤ PERIOD * length longest.now) }
{
    let mut rings = List::with_capacity(alloc, longest.len())?;
    let mut base: u32 = 0;
    for delay in longest.iter() {
        let mask = Mask::above(u32::from(*delay));
        rings.push(Ring { base, mask })?;
        base = base + mask.get() + 1;
    }
    Ok((rings, base))
}

fn zeros(alloc: Global, count: u32) -> Result<List<Operand>, AllocError>
    ensures { IfOk result (λ list. list ≡ replicate count (pos 0)) }
{
    Ok(List::from_vec(vec![in alloc; Operand::new(0); count as usize]?))
}

/// Puts an initial value into a ring, where the ring is that long.
fn put_initial(memory: &mut List<Operand>, ring: &Ring, init: &(u16, i64))
    requires ring { ring.now.base + ring.now.mask + 1 ≤ length memory.old }
    requires most { length memory.old ≤ 2 ^ 30 }
    requires sample { 1 ≤ init.now.0 }
    requires word { IsMachineWord init.now.1 }
    ensures { memory.new ≡ with_initial ring.now init.now memory.old }
{
    let size = ring.mask.get() + 1;
    let ago = u32::from(init.0);
    if ago < size {
        memory[(ring.base + (size - ago)) as usize] = Operand::new(init.1);
    }
}

/// Puts the initial values into a ring that holds zeros, from the last to the first.
fn put_initials(memory: &mut List<Operand>, ring: &Ring, inits: &List<(u16, i64)>)
    requires ring { ring.now.base + ring.now.mask + 1 ≤ length memory.old }
    requires most { length memory.old ≤ 2 ^ 30 }
    requires zeros { HoldsZeros ring.now memory.old }
    requires samples { All (λ init. IsWithin 1 1023 init.0) inits.now }
    requires words { All (λ init. IsMachineWord init.1) inits.now }
    ensures len { length memory.new ≡ length memory.old }
    ensures initials { HoldsWordsBefore inits.now ring.now memory.new }
    ensures others { SameOutside ring.now memory.old memory.new }
{
    for k in 0..inits.len() {
        put_initial(memory, ring, &inits[inits.len() - 1 - k]);
    }
}

/// What the rings hold before sample 0.
fn initial_memory(
    alloc: Global,
    graph: &Graph,
    rings: &List<Ring>,
    cells: u32,
) -> Result<List<Operand>, AllocError>
    requires graph { IsGraph graph.now }
    requires rings { IsLayout graph.now rings.now cells }
    requires most { cells ≤ 2 ^ 30 }
    ensures len { IfOk result (λ memory. length memory ≡ cells) }
    ensures initials { IfOk result (HoldInitials (length graph.now.nodes) graph.now rings.now) }
{
    let mut memory = zeros(alloc, cells)?;
    for v in 0..graph.nodes.len() {
        put_initials(&mut memory, &rings[v], &graph.nodes[v].inits);
    }
    Ok(memory)
}

/// The rings of a graph's nodes and what they hold before sample 0.
pub fn lay_out(alloc: Global, graph: &Graph) -> Result<(List<Ring>, List<Operand>), AllocError>
    requires { IsGraph graph.now }
    ensures rings { IfOk result (λ made. IsLayout graph.now made.0 (length made.1)) }
    ensures most { IfOk result (λ made. length made.1 ≤ 2 ^ 30) }
    ensures initials { IfOk result (λ made. HoldInitials (length graph.now.nodes) graph.now made.0 made.1) }
{
    let longest = longest_delays(alloc, graph)?;
    let (rings, cells) = rings_of(alloc, &longest)?;
    let memory = initial_memory(alloc, graph, &rings, cells)?;
    Ok((rings, memory))
}
