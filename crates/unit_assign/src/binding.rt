//! The units of the nodes that are bound so far, and what the next ones need to know of them.

ghost use Rattle.std.specs.Prelude.{◌≡◌, ◌<◌, ◌+◌, ◌↔◌, ℕ, length, replicate, IfOk, IfSome, OnOk, List as Listed};
ghost use Rattle.plan_core.specs.Operands.{node_of};
ghost use Rattle.plan_core.specs.Assigned.{IsUnitFor};
ghost use Rattle.unit_assign.specs.Private.UnitSets.{Has, all_of_32};
ghost use Rattle.unit_assign.specs.Private.Problems.{nodes_of, IsSound};
ghost use Rattle.unit_assign.specs.Private.Bindings.{load_in, IsOneMore, AreLightest, IsBinding, IsNarrowed, lighter_of};

use crate::problem::Problem;
use bit_sets::Set32;
use lists::List;
use std::alloc::{AllocError, AllocFailed, Global};

/// The units of the first nodes.
#[derive(Drop)]
pub(crate) struct Binding {
    pub units: List<u8>,
    /// For each unit, how many nodes are bound to it.
    pub loads: List<u32>,
    /// For each node of the graph, the units from which a bus leads to each consumer that is bound.
    pub allowed: List<Set32>,
    /// Of each kind the units to which the fewest nodes are bound.
    pub lightest: Set32,
}

impl Binding {
    /// Of two candidates the one with fewer nodes, or the first.
    pub(crate) fn lighter(&self, best: Option<u8>, unit: u8) -> u8
        requires unit { unit < length self.now.loads }
        requires best { IfSome best (λ first. first < length self.now.loads) }
        ensures { result ≡ lighter_of self.now.loads best unit }
    {
        match best {
            Some(first) if self.loads[usize::from(first)] <= self.loads[usize::from(unit)] => first,
            _ => unit,
        }
    }

    /// Binds the next node to the unit.
    pub(crate) fn bind(
        &mut self,
        problem: &Problem,
        v: usize,
        unit: u8,
    ) -> Result<(), AllocFailed<u8>>
        requires problem { IsSound problem.now }
        requires count { length self.old.units ≡ v }
        requires node { v < length (nodes_of problem.now) }
        requires binding { IsBinding problem.now.datapath.now (nodes_of problem.now) self.old }
        requires unit { IsUnitFor problem.now.datapath.now (nodes_of problem.now) self.old.units v unit }
        ensures binding { OnOk result (IsBinding problem.now.datapath.now (nodes_of problem.now) self.new) }
        ensures count { OnOk result (length self.new.units ≡ v + 1) }
    {
        self.units.push(unit)?;
        self.loads[usize::from(unit)] += 1;
        self.lightest = lightest_after(problem, &self.loads, unit, self.lightest);
        narrow(problem, v, unit, &mut self.allowed);
        Ok(())
    }
}

/// Those of the units to which so many nodes are bound.
fn with_load(loads: &List<u32>, units: Set32, load: u32) -> Set32
    requires { (u : ℕ) → Has units u → u < length loads.now }
    ensures { (u : ℕ) → Has result u ↔ (Has units u × (load_in loads.now u ≡ load)) }
{
    let mut left = units;
    let mut found = Set32::empty();
    while let Some(unit) = left.pop_first() {
        if loads[usize::from(unit)] == load {
            found = found.with(unit);
        }
    }
    found
}

/// Of each kind the units with the fewest nodes, which were these before one more node was bound to the unit.
fn lightest_after(problem: &Problem, loads: &List<u32>, unit: u8, lightest: Set32) -> Set32
    requires problem { IsSound problem.now }
    requires unit { unit < length problem.now.datapath.now.units }
    requires count { length loads.now ≡ length problem.now.datapath.now.units }
    ensures { (old : Listed ℕ) → IsOneMore old loads.now unit → AreLightest problem.now.datapath.now old lightest
        → AreLightest problem.now.datapath.now loads.now result }
{
    let rest = lightest.without(unit);
    let kind = problem.datapath.units[usize::from(unit)].kind;
    let units = problem.wiring.kinds.units(kind);
    let mut others = rest.intersection(units);
    match others.pop_first() {
        Some(_) => rest,
        None => rest.union(with_load(loads, units, loads[usize::from(unit)])),
    }
}

/// Keeps for each operand of node v, on this unit, the units that have a route to the port that reads it.
fn narrow(problem: &Problem, v: usize, unit: u8, allowed: &mut List<Set32>)
    requires problem { IsSound problem.now }
    requires node { v < length (nodes_of problem.now) }
    requires unit { unit < length problem.now.datapath.now.units }
    requires count { length allowed.old ≡ length (nodes_of problem.now) }
    ensures { IsNarrowed problem.now.datapath.now (nodes_of problem.now) v unit
        (length (node_of (nodes_of problem.now) v).edges) allowed.old allowed.new }
{
    for (port, edge) in problem.lowered.nodes[v].edges.iter().enumerate() {
        let operand = edge.node as usize;
        let narrowed = allowed[operand].intersection(problem.drivers(unit, port));
        allowed[operand] = narrowed;
    }
}

fn no_loads(alloc: Global, count: usize) -> Result<List<u32>, AllocError>
    ensures { IfOk result (λ loads. loads ≡ replicate count 0) }
{
    let mut loads = List::with_capacity(alloc, count)?;
    for _ in 0..count {
        loads.push(0)?;
    }
    Ok(loads)
}

fn all_allowed(alloc: Global, count: usize) -> Result<List<Set32>, AllocError>
    ensures { IfOk result (λ sets. sets ≡ replicate count all_of_32) }
{
    let mut allowed = List::with_capacity(alloc, count)?;
    for _ in 0..count {
        allowed.push(Set32::full())?;
    }
    Ok(allowed)
}

/// Nothing is bound.
pub(crate) fn no_binding(alloc: Global, problem: &Problem) -> Result<Binding, AllocError>
    requires { IsSound problem.now }
    ensures binding { IfOk result (IsBinding problem.now.datapath.now (nodes_of problem.now)) }
    ensures count { IfOk result (λ binding. length binding.units ≡ 0) }
{
    let count = problem.lowered.nodes.len();
    Ok(Binding {
        units: List::with_capacity(alloc, count)?,
        loads: no_loads(alloc, problem.datapath.units.len())?,
        allowed: all_allowed(alloc, count)?,
        lightest: Set32::full(),
    })
}
