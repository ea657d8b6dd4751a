//! The passes of a plan in their order.

ghost use Rattle.std.specs.Prelude.{◌≡◌, ◌⊎◌, Ok, Err, IfOk, IfErr};
ghost use Rattle.datapath.specs.Allowed.{IsDatapath};
ghost use Rattle.signal_graph.specs.GraphRules.{IsGraph};
ghost use Rattle.signal_graph.specs.GraphSolves.{IsGraphLoopless};
ghost use Rattle.plan_core.specs.declared.plan.Plan as of_plan;
ghost use Rattle.plan_core.specs.IsPlan.{IsPlan};
ghost use Rattle.planner.specs.Faults.{IsPlanFault};
ghost use Rattle.planner.specs.declared.fault.PlanFault as of_fault;
ghost use Rattle.planner.specs.declared.fault.PlanFault.TheVariants.{Memory};

use crate::fault::PlanFault;
use cyclic_life::arcs;
use datapath::Datapath;
use delay_memory::lower_owned;
use list_schedule::schedule;
use lists::List;
use plan_core::{Assigned, Plan};
use reg_alloc::{allot, unroll};
use signal_graph::Graph;
use std::alloc::Global;
use unit_assign::bind;

/// Plans a graph: its delay lines, and the units, cycles, lifetimes and registers of its nodes.
/// Page `docs/PLANNING.md`.
///
/// # Errors
///
/// `Line` where a node needs a delay line and gets none; else `Unit` where a node has no unit; else `Period` where a
/// node has no cycle; else `FileFull` where a copy of a lifetime has no register. `Memory` where no memory is left.
pub fn plan(alloc: Global, graph: Graph, datapath: &Datapath) -> Result<Plan, PlanFault>
    requires datapath { IsDatapath datapath.now }
    requires sound { IsGraph graph }
    requires loopless { IsGraphLoopless graph }
    ensures plan { IfOk result (IsPlan graph datapath.now) }
    ensures fault { IfErr result (λ fault. (fault ≡ Memory) ⊎ IsPlanFault graph datapath.now fault) }
    // The one plan is always found, unless memory runs out.
    ensures found { (p : of_plan.Plan) → IsPlan graph datapath.now p → (result ≡ Ok p) ⊎ (result ≡ Err Memory) }
    // So is the first fault.
    ensures refused { (fault : of_fault.PlanFault) → IsPlanFault graph datapath.now fault
        → (result ≡ Err fault) ⊎ (result ≡ Err Memory) }
{
    let inputs = List::from_slice(alloc, graph.inputs.as_slice())?;
    let outs = graph.outs;
    let lowered = lower_owned(alloc, graph, datapath)?;
    let units = bind(alloc, &lowered, datapath)?;
    let assigned = Assigned { lowered, units };
    let schedule = schedule(alloc, &assigned, datapath)?;
    let arcs = arcs(alloc, &schedule, &assigned, datapath)?;
    let unroll = unroll(arcs.as_slice());
    let registers = allot(alloc, &arcs, datapath)?;
    Ok(Plan {
        assigned,
        schedule,
        arcs,
        registers,
        unroll,
        inputs,
        outs,
    })
}
