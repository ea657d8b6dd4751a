//! The units of all nodes.

ghost use Rattle.std.specs.Prelude.{◌≡◌, ◌⊎◌, ℕ, length, Ok, Err, IfOk, IfErr, OnOk, List as Listed};
ghost use Rattle.datapath.specs.Allowed.{IsDatapath};
ghost use Rattle.plan_core.specs.Assigned.{AreUnits, IsAssigned};
ghost use Rattle.plan_core.specs.declared.schedule.Assigned.{Assigned};
ghost use Rattle.unit_assign.specs.Wired.{IsWired};
ghost use Rattle.unit_assign.specs.Bound.{AreUnitsOf};
ghost use Rattle.unit_assign.specs.Faults.{IsUnitFault};
ghost use Rattle.unit_assign.specs.Private.Problems.{nodes_of, IsSound};
ghost use Rattle.unit_assign.specs.Private.Bindings.{IsBinding};
ghost use Rattle.unit_assign.specs.declared.fault.UnitFault.{UnitFault};
ghost use Rattle.unit_assign.specs.declared.fault.UnitFault.TheVariants.{Memory};

use crate::binding::{Binding, no_binding};
use crate::fault::UnitFault;
use crate::problem::Problem;
use crate::wiring::wiring_of;
use datapath::Datapath;
use lists::List;
use plan_core::{Assigned, Lowered};
use signal_graph::node_copies;
use std::alloc::{AllocError, Global};

/// A copy of the graph, with the units of its nodes.
fn assigned(alloc: Global, lowered: &Lowered, units: List<u8>) -> Result<Assigned, AllocError>
    ensures lowered { IfOk result (λ assigned. assigned.lowered ≡ lowered.now) }
    ensures units { IfOk result (λ assigned. assigned.units ≡ units) }
{
    let lowered = Lowered {
        nodes: node_copies(alloc, &lowered.nodes)?,
        lines: List::from_slice(alloc, lowered.lines.as_slice())?,
    };
    Ok(Assigned { lowered, units })
}

/// Binds the nodes in the order of their numbers.
fn bind_all(problem: &Problem, binding: &mut Binding) -> Result<(), UnitFault>
    requires problem { IsSound problem.now }
    requires none { length binding.old.units ≡ 0 }
    requires binding { IsBinding problem.now.datapath.now (nodes_of problem.now) binding.old }
    ensures count { OnOk result (length binding.new.units ≡ length (nodes_of problem.now)) }
    ensures units { OnOk result (AreUnits problem.now.datapath.now (nodes_of problem.now) binding.new.units) }
    ensures fault { IfErr result
        (λ fault. (fault ≡ Memory) ⊎ IsUnitFault problem.now.datapath.now problem.now.lowered.now fault) }
{
    for v in 0..problem.lowered.nodes.len() {
        let unit = problem.unit_for(binding, v)?;
        binding.bind(problem, v, unit)?;
    }
    Ok(())
}

/// Binds each node to a functional unit: of the units of the right kind that have all routes, the first with the fewest
/// nodes so far. Gives the unit numbers in the order of the nodes. Takes time in proportion to nodes and edges. Page
/// `docs/PLANNING.md`, "Units".
///
/// # Errors
///
/// At the first node without a unit: `TooWide` where it has more bits than a word of the datapath; else `NoUnit` where
/// no unit is of the right kind; else `NoRoute` with the first route that is missing on the first unit of the right
/// kind. `Memory` where no memory is left.
pub fn bind(alloc: Global, lowered: &Lowered, datapath: &Datapath) -> Result<List<u8>, UnitFault>
    requires datapath { IsDatapath datapath.now }
    requires wired { IsWired lowered.now }
    ensures units { IfOk result (AreUnitsOf datapath.now lowered.now) }
    ensures fault { IfErr result (λ fault. (fault ≡ Memory) ⊎ IsUnitFault datapath.now lowered.now fault) }
    // The one binding is always found, unless memory runs out.
    ensures found { (units : Listed ℕ) → AreUnitsOf datapath.now lowered.now units
        → (result ≡ Ok units) ⊎ (result ≡ Err Memory) }
    // So is the first fault.
    ensures refused { (fault : UnitFault) → IsUnitFault datapath.now lowered.now fault
        → (result ≡ Err fault) ⊎ (result ≡ Err Memory) }
{
    let wiring = wiring_of(alloc, datapath)?;
    let problem = Problem {
        datapath,
        lowered,
        wiring: &wiring,
    };
    let mut binding = no_binding(alloc, &problem)?;
    bind_all(&problem, &mut binding)?;
    Ok(binding.units)
}

/// Binds each node to a functional unit as `bind` does, and gives the units with a copy of the graph.
///
/// # Errors
///
/// Those of `bind`.
pub fn assign(alloc: Global, lowered: &Lowered, datapath: &Datapath) -> Result<Assigned, UnitFault>
    requires datapath { IsDatapath datapath.now }
    requires wired { IsWired lowered.now }
    ensures lowered { IfOk result (λ assigned. assigned.lowered ≡ lowered.now) }
    ensures assigned { IfOk result (IsAssigned datapath.now) }
    ensures fault { IfErr result (λ fault. (fault ≡ Memory) ⊎ IsUnitFault datapath.now lowered.now fault) }
    // The one binding is always found, unless memory runs out.
    ensures found { (a : Assigned) → a.lowered ≡ lowered.now → IsAssigned datapath.now a
        → (result ≡ Ok a) ⊎ (result ≡ Err Memory) }
    // So is the first fault.
    ensures refused { (fault : UnitFault) → IsUnitFault datapath.now lowered.now fault
        → (result ≡ Err fault) ⊎ (result ≡ Err Memory) }
{
    let units = bind(alloc, lowered, datapath)?;
    Ok(assigned(alloc, lowered, units)?)
}
