//! The passes of a plan over several stages with places that are given, in their order.

ghost use Rattle.std.specs.Prelude.{◌≡◌, ◌≤◌, ◌⊎◌, Ok, Err, IfOk, IfErr};
ghost use Rattle.datapath.specs.Allowed.{IsDatapath};
ghost use Rattle.signal_graph.specs.GraphRules.{IsGraph};
ghost use Rattle.signal_graph.specs.GraphSolves.{IsGraphLoopless};
ghost use Rattle.plan_soundness.specs.Units.{IsRouted};
ghost use Rattle.placed_plan.specs.Places.{IsGiven, IsNarrow};
ghost use Rattle.overlap_plan.specs.IsStagePlan.{IsStagePlan, plan_of};
ghost use Rattle.overlap_plan.specs.declared.plan.StagePlan as of_plan;
ghost use Rattle.overlap_sim.specs.Guardable.{IsFeasibleStagePlan};
ghost use Rattle.placed_stages.specs.StagePlaces.{IsStagePlanAt};
ghost use Rattle.placed_stages.specs.StageFaults.{IsStagePlaceFault};
ghost use Rattle.placed_stages.specs.Private.Answers.{IsAnswer};
ghost use Rattle.placed_stages.specs.declared.fault.StagePlaceFault as of_fault;
ghost use Rattle.placed_stages.specs.declared.fault.StagePlaceFault.TheVariants.{Memory};

use crate::fault::StagePlaceFault;
use crate::in_stages::check_stages;
use crate::placing::stage_schedule_at;
use crate::units::units_at;
use cyclic_life::stage_arcs;
use datapath::Datapath;
use delay_memory::lower_over;
use lists::List;
use overlap_plan::{StagePlan, Staged};
use placed_plan::Place;
use plan_core::Assigned;
use reg_alloc::{allot, unroll};
use schedule_priority::Problem;
use signal_graph::Graph;
use std::alloc::Global;

/// Plans a graph over so many stages with the units and cycles that are given, pass by pass.
fn planned_at(
    alloc: Global,
    graph: &Graph,
    places: &[Place],
    datapath: &Datapath,
    stages: u8,
) -> Result<StagePlan, StagePlaceFault>
    requires datapath { IsDatapath datapath.now }
    requires sound { IsGraph graph.now }
    requires loopless { IsGraphLoopless graph.now }
    requires stages { (1 ≤ stages) × (stages ≤ 4) }
    ensures { IsAnswer graph.now datapath.now stages places.now result }
{
    let inputs = List::from_slice(alloc, graph.inputs.as_slice())?;
    let lowered = lower_over(alloc, graph, datapath, 0, stages)?;
    let units = units_at(alloc, &lowered, places, datapath)?;
    let assigned = Assigned { lowered, units };
    let problem = Problem {
        datapath,
        assigned: &assigned,
    };
    let staged = Staged { problem, stages };
    let schedule = stage_schedule_at(alloc, &staged, places)?;
    check_stages(&staged, &schedule)?;
    let arcs = stage_arcs(alloc, &schedule, &assigned, datapath)?;
    let unroll = unroll(arcs.as_slice());
    let registers = allot(alloc, &arcs, datapath)?;
    Ok(StagePlan {
        assigned,
        schedule,
        arcs,
        registers,
        unroll,
        stages,
        inputs,
        outs: graph.outs,
    })
}

/// Plans a graph over so many stages, 1 to 4, with the units and cycles that are given: node v of the lowered list has
/// place v. Its delay lines, buses, lifetimes and registers are found. Page `docs/PLANNING.md`, "Plans from elsewhere".
///
/// # Errors
///
/// `Line` where a node needs a delay line and gets none; else `Missing` or `Surplus` where the places are not as many
/// as the nodes; else `TooWide` or `WrongUnit` at the first node that cannot be on its unit; else `Late`, `Past`,
/// `Busy` or `Blocked` at the first node, in the order in which nodes are placed, that cannot be issued in its cycle;
/// else `Unstaged` at the first node that is not in its stages; else `FileFull` where a copy of a lifetime has no
/// register. `Memory` where no memory is left.
pub fn stage_plan_at(
    alloc: Global,
    graph: &Graph,
    places: &[Place],
    datapath: &Datapath,
    stages: u8,
) -> Result<StagePlan, StagePlaceFault>
    requires datapath { IsDatapath datapath.now }
    requires sound { IsGraph graph.now }
    requires loopless { IsGraphLoopless graph.now }
    requires stages { (1 ≤ stages) × (stages ≤ 4) }
    ensures plan { IfOk result (IsStagePlanAt places.now graph.now datapath.now stages) }
    // It is feasible, whatever rule the places follow, and each transfer and each word fits the processor.
    ensures feasible { IfOk result (IsFeasibleStagePlan graph.now datapath.now) }
    ensures routed { IfOk result (λ plan. IsRouted datapath.now (plan_of plan)) }
    ensures narrow { IfOk result (λ plan. IsNarrow datapath.now (plan_of plan)) }
    ensures given { IfOk result (λ plan. IsGiven places.now (plan_of plan)) }
    ensures fault { IfErr result (λ fault.
        (fault ≡ Memory) ⊎ IsStagePlaceFault graph.now datapath.now stages places.now fault) }
    // The one plan is always found, unless memory runs out.
    ensures found { (p : of_plan.StagePlan) → IsStagePlanAt places.now graph.now datapath.now stages p
        → (result ≡ Ok p) ⊎ (result ≡ Err Memory) }
    // So is the first fault.
    ensures refused { (fault : of_fault.StagePlaceFault) → IsStagePlaceFault graph.now datapath.now stages places.now
        fault → (result ≡ Err fault) ⊎ (result ≡ Err Memory) }
    // The places of the plan by the rules give that plan.
    ensures ordinary { (p : of_plan.StagePlan) → IsStagePlan graph.now datapath.now stages p
        → IsGiven places.now (plan_of p) → (result ≡ Ok p) ⊎ (result ≡ Err Memory) }
{
    planned_at(alloc, graph, places, datapath, stages)
}
