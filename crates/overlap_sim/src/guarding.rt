//! The guarded image of a plan of several stages.

ghost use Rattle.std.specs.Prelude.{◌-◌, IfOk};
ghost use Rattle.datapath.specs.Allowed.{IsDatapath};
ghost use Rattle.signal_graph.specs.GraphRules.{IsGraph};
ghost use Rattle.signal_graph.specs.declared.graph.Graph.{Graph};
ghost use Rattle.micro_image.specs.Valid.{IsValid};
ghost use Rattle.plan_soundness.specs.Run.{RunsSolutionLate};
ghost use Rattle.overlap_plan.specs.IsStagePlan.{IsStagePlan, plan_of};
ghost use Rattle.overlap_sim.specs.Guarded.{of_guarded, unguarded};
ghost use Rattle.overlap_sim.specs.GuardedOf.{IsGuardedOf};
ghost use Rattle.overlap_sim.specs.Guardable.{IsFeasibleStagePlan, IsGuardable};
ghost use Rattle.overlap_plan.specs.StagePlanned.{IsStagePlanned};
ghost use Rattle.overlap_sim.specs.Private.Staged.{IsStageReady};

use crate::guarded::Guarded;
use crate::starts::units;
use crate::words::words;
use datapath::Datapath;
use microcode_asm::widths_of;
use overlap_plan::{GuardFault, StagePlan};
use std::alloc::Global;

fn guarded_of(alloc: Global, plan: &StagePlan, datapath: &Datapath) -> Result<Guarded, GuardFault>
    requires { IsStageReady datapath.now plan.now }
    ensures { IfOk result (IsGuardedOf plan.now.stages datapath.now (plan_of plan.now)) }
{
    Ok(Guarded {
        period: datapath.period,
        unroll: plan.unroll,
        inputs: widths_of(alloc, &plan.inputs)?,
        outs: plan.outs,
        units: units(alloc, plan, datapath)?,
        buses: datapath.buses.len() as u8,
        words: words(alloc, plan, datapath)?,
    })
}

/// The guarded image of a feasible plan of several stages, whose units and cycles may have been chosen by any rule.
///
/// # Errors
///
/// `Memory` where no memory is left.
pub fn guard_feasible(
    alloc: Global,
    plan: &StagePlan,
    datapath: &Datapath,
) -> Result<Guarded, GuardFault>
    requires datapath { IsDatapath datapath.now }
    requires plan { IsGuardable datapath.now plan.now }
    ensures image { IfOk result (IsGuardedOf plan.now.stages datapath.now (plan_of plan.now)) }
    // Without the stages it is an image that a machine takes.
    ensures valid { IfOk result (λ guarded. IsValid (unguarded guarded)) }
    // It runs the solution of each graph of which this is a feasible plan, all but one of the stages late.
    ensures runs { (g : Graph) → IsGraph g → IsFeasibleStagePlan g datapath.now plan.now
        → IfOk result (λ guarded. RunsSolutionLate (plan.now.stages - 1) g (of_guarded guarded)) }
{
    guarded_of(alloc, plan, datapath)
}

/// The guarded image of a plan of several stages: a guarded word for each cycle until the microprogram repeats, and the
/// words with which cells start. All registers start with 0. The plan is that of some sound graph on this datapath, of
/// 1 to 4 stages. Page `docs/MACHINE.md`, "Guarded words".
///
/// # Errors
///
/// `Memory` where no memory is left.
pub fn guard(alloc: Global, plan: &StagePlan, datapath: &Datapath) -> Result<Guarded, GuardFault>
    requires datapath { IsDatapath datapath.now }
    requires plan { IsStagePlanned datapath.now plan.now }
    ensures image { IfOk result (IsGuardedOf plan.now.stages datapath.now (plan_of plan.now)) }
    // Without the stages it is an image that a machine takes.
    ensures valid { IfOk result (λ guarded. IsValid (unguarded guarded)) }
    // It runs the solution of each graph whose plan this is, all but one of the stages late.
    ensures runs { (g : Graph) → IsGraph g → IsStagePlan g datapath.now plan.now.stages plan.now
        → IfOk result (λ guarded. RunsSolutionLate (plan.now.stages - 1) g (of_guarded guarded)) }
{
    guarded_of(alloc, plan, datapath)
}
