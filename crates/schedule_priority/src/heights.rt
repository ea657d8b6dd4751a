//! The heights of the nodes.

ghost use Rattle.std.specs.Prelude.{◌≡◌, ◌+◌, ◌<◌, ◌^◌, length, IfOk};
ghost use Rattle.node_order.specs.Topological.{IsTopologicalOrder};
ghost use Rattle.plan_core.specs.Operands.{node_of};
ghost use Rattle.schedule_priority.specs.Parts.{nodes_of, IsSound};
ghost use Rattle.schedule_priority.specs.Private.Heights.{height_in, AreAlone, RaisesTo, RaisesOperands, AreHeightsOf};

use crate::problem::Problem;
use lists::List;
use node_order::topological_order;
use std::alloc::{AllocError, Global};

/// For each node its latency, which is its height where nothing reads it in the same sample.
fn latencies(alloc: Global, problem: &Problem) -> Result<List<u64>, AllocError>
    requires { IsSound problem.now }
    ensures { IfOk result (AreAlone problem.now.datapath.now problem.now.assigned.now (length (nodes_of problem.now))) }
{
    let mut heights = List::with_capacity(alloc, problem.count())?;
    for v in 0..problem.count() {
        heights.push(u64::from(problem.latency(v)))?;
    }
    Ok(heights)
}

/// Raises the height of node x to this one, if it is lower.
fn raise(heights: &mut List<u64>, x: usize, height: u64)
    requires { x < length heights.old }
    ensures { RaisesTo x height heights.old heights.new }
{
    if heights[x] < height {
        heights[x] = height;
    }
}

/// Raises the heights of the operands of node v of the same sample over its own.
fn raise_operands(problem: &Problem, v: usize, heights: &mut List<u64>)
    requires problem { IsSound problem.now }
    requires node { v < length (nodes_of problem.now) }
    requires count { length heights.old ≡ length (nodes_of problem.now) }
    requires small { height_in heights.old v + 8 < 2 ^ 64 }
    ensures { RaisesOperands problem.now.datapath.now problem.now.assigned.now v
        (length (node_of (nodes_of problem.now) v).edges) (height_in heights.old v) heights.old
        heights.new }
{
    let height = heights[v];
    for edge in problem.node(v).edges.iter() {
        if edge.delay == 0 {
            let x = edge.node as usize;
            raise(heights, x, height + u64::from(problem.latency(x)));
        }
    }
}

/// Takes the nodes from the end of the order, so that all consumers of a node come before it.
fn raise_all(problem: &Problem, order: &mut Vec<u32>, heights: &mut List<u64>)
    requires problem { IsSound problem.now }
    requires order { IsTopologicalOrder (nodes_of problem.now) order.old.items }
    requires alone { AreAlone problem.now.datapath.now problem.now.assigned.now
        (length (nodes_of problem.now)) heights.old }
    ensures { AreHeightsOf problem.now.datapath.now problem.now.assigned.now heights.new }
{
    while let Some(v) = order.pop() {
        raise_operands(problem, v as usize, heights);
    }
}

/// The heights of all nodes.
pub(crate) fn heights_of(alloc: Global, problem: &Problem) -> Result<List<u64>, AllocError>
    requires { IsSound problem.now }
    ensures { IfOk result (AreHeightsOf problem.now.datapath.now problem.now.assigned.now) }
{
    let mut order = topological_order(alloc, problem.assigned.lowered.nodes.as_slice())?.into_vec();
    let mut heights = latencies(alloc, problem)?;
    raise_all(problem, &mut order, &mut heights);
    Ok(heights)
}
