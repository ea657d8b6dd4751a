//! The passes of a plan over several stages in their order.

ghost use Rattle.std.specs.Prelude.{◌≡◌, ◌≤◌, ◌⊎◌, Ok, Err, IfOk, IfErr};
ghost use Rattle.datapath.specs.Allowed.{IsDatapath};
ghost use Rattle.signal_graph.specs.GraphRules.{IsGraph};
ghost use Rattle.signal_graph.specs.GraphSolves.{IsGraphLoopless};
ghost use Rattle.overlap_plan.specs.IsStagePlan.{IsStagePlan};
ghost use Rattle.overlap_plan.specs.Faults.{IsStageFault};
ghost use Rattle.overlap_plan.specs.declared.plan.StagePlan as of_plan;
ghost use Rattle.overlap_plan.specs.declared.fault.StageFault as of_fault;
ghost use Rattle.overlap_plan.specs.declared.fault.StageFault.TheVariants.{Memory};

use crate::fault::StageFault;
use crate::plan::StagePlan;
use crate::scheduler::stage_schedule;
use crate::staged::Staged;
use cyclic_life::stage_arcs;
use datapath::Datapath;
use delay_memory::lower_over;
use lists::List;
use plan_core::Assigned;
use reg_alloc::{allot, unroll};
use schedule_priority::Problem;
use signal_graph::Graph;
use std::alloc::Global;
use unit_assign::bind;

/// Plans a graph over so many stages, 1 to 4: its delay lines, and the units, cycles, lifetimes and registers of its
/// nodes. As many samples are in flight at once. Page `docs/PLANNING.md`, "Overlapped samples".
///
/// # Errors
///
/// `Line` where a node needs a delay line and gets none; else `Unit` where a node has no unit; else `Period` where a
/// node has no cycle in its stages; else `File` where a copy of a lifetime has no register. `Memory` where no memory
/// is left.
pub fn stage_plan(
    alloc: Global,
    graph: &Graph,
    datapath: &Datapath,
    stages: u8,
) -> Result<StagePlan, StageFault>
    requires datapath { IsDatapath datapath.now }
    requires sound { IsGraph graph.now }
    requires loopless { IsGraphLoopless graph.now }
    requires stages { (1 ≤ stages) × (stages ≤ 4) }
    ensures plan { IfOk result (IsStagePlan graph.now datapath.now stages) }
    ensures fault { IfErr result (λ fault. (fault ≡ Memory) ⊎ IsStageFault graph.now datapath.now stages fault) }
    // The one plan is always found, unless memory runs out.
    ensures found { (p : of_plan.StagePlan) → IsStagePlan graph.now datapath.now stages p
        → (result ≡ Ok p) ⊎ (result ≡ Err Memory) }
    // So is the first fault.
    ensures refused { (fault : of_fault.StageFault) → IsStageFault graph.now datapath.now stages fault
        → (result ≡ Err fault) ⊎ (result ≡ Err Memory) }
{
    let inputs = List::from_slice(alloc, graph.inputs.as_slice())?;
    let lowered = lower_over(alloc, graph, datapath, 0, stages)?;
    let units = bind(alloc, &lowered, datapath)?;
    let assigned = Assigned { lowered, units };
    let problem = Problem {
        datapath,
        assigned: &assigned,
    };
    let schedule = stage_schedule(alloc, &Staged { problem, stages })?;
    let arcs = stage_arcs(alloc, &schedule, &assigned, datapath)?;
    let unroll = unroll(arcs.as_slice());
    let registers = allot(alloc, &arcs, datapath)?;
    Ok(StagePlan {
        assigned,
        schedule,
        arcs,
        registers,
        unroll,
        stages,
        inputs,
        outs: graph.outs,
    })
}
