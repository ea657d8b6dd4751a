//! `pipe SRC DP S SAMPLES OUT`: from the bytes of a source and a datapath to a machine of samples that overlap, and on
//! to the rows that it puts.
ghost use Rattle.std.specs.Prelude.{◌≡◌, ◌≢◌, ◌≤◌, [], ◌∷◌, IfOk, IfErr};
ghost use Rattle.cycle_sim.specs.Microcode.{inputs_of};
ghost use Rattle.datapath.specs.Allowed.{IsDatapath};
ghost use Rattle.desk_core.specs.Desk.{FaultsNeverFall};
ghost use Rattle.overlap_plan.specs.StagePlanned.{IsStagePlanned};
ghost use Rattle.sample_commands.specs.Loaded.{AreFreshRows};
ghost use Rattle.silc_files.specs.Endings.{IsAmong, UsesOnly};
ghost use Rattle.silc_files.specs.Reading.{OnlyReads};
ghost use Rattle.stage_commands.specs.Pipe.{IsPiped, IsPipeError};
ghost use Rattle.stage_commands.specs.StagePlans.{IsStageError};
ghost use Rattle.stage_commands.specs.Private.Piping.{IsLoadedPlan, IsMachineOfPlan, IsGuardedMachine};
ghost use Rattle.statuses.specs.declared.status.Status.TheVariants.{Memory};

use crate::planning::{StagePlanned, read_stage_plan};
use crate::samples::{Ready, pipe_ready};
use desk_core::Desk;
use overlap_plan::GuardFault;
use overlap_sim::{GuardedMachine, guard};
use sample_commands::rows_for;
use statuses::{Ending, Status};
use std::alloc::Global;

/// The machine of the guarded image of the plan, before its first cycle.
fn loaded(alloc: Global, planned: &StagePlanned) -> Result<GuardedMachine, GuardFault>
    requires path { IsDatapath planned.now.path }
    requires plan { IsStagePlanned planned.now.path planned.now.plan }
    ensures { IfOk result (IsLoadedPlan planned.now.path planned.now.plan) }
{
    let guarded = guard(alloc, &planned.plan, &planned.path)?;
    GuardedMachine::load(alloc, guarded)
}

/// The machine of the guarded image of the plan, and the rows that its samples are read into. All memory that a run of
/// it needs is taken then.
fn ready_for(alloc: Global, planned: &StagePlanned) -> Result<Ready, Status>
    requires path { IsDatapath planned.now.path }
    requires plan { IsStagePlanned planned.now.path planned.now.plan }
    ensures machine { IfOk result (λ ready. IsMachineOfPlan planned.now.path planned.now.plan ready.machine) }
    ensures rows { IfOk result (λ ready. AreFreshRows (inputs_of ready.machine.code) ready.rows) }
    ensures err { IfErr result (λ status. status ≡ Memory) }
{
    match loaded(alloc, planned) {
        Ok(machine) => {
            let rows = rows_for(alloc, machine.inputs())?;
            Ok(Ready { machine, rows })
        }
        Err(GuardFault::Memory) => Err(Status::Memory),
    }
}

/// Reads SRC and DP, makes the machine of the guarded image of the plan of the one over so many stages on the other,
/// and takes all memory that a run of it needs.
fn read_ready<D: Desk>(
    alloc: Global,
    desk: &mut D,
    source: &str,
    datapath: &str,
    stages: u8,
) -> Result<Ready, Ending>
    requires { (1 ≤ stages) × (stages ≤ 4) }
    ensures reads { OnlyReads (IsAmong (source.now ∷ datapath.now ∷ [])) (D.view desk.old) (D.view desk.new) }
    ensures machine { IfOk result (λ ready.
        IsGuardedMachine stages source.now datapath.now (D.view desk.old) (D.view desk.new) ready.machine) }
    ensures rows { IfOk result (λ ready. AreFreshRows (inputs_of ready.machine.code) ready.rows) }
    ensures err { IfErr result (λ ending.
        IsStageError stages source.now datapath.now (D.view desk.old) (D.view desk.new) ending.status) }
{
    let planned = read_stage_plan(alloc, desk, source, datapath, stages)?;
    Ok(ready_for(alloc, &planned)?)
}

/// Carries out `pipe`, of 1 to 4 stages, and gives the machine after the last sample.
pub fn pipe<D: Desk>(
    alloc: Global,
    desk: &mut D,
    source: &str,
    datapath: &str,
    stages: u8,
    samples: &str,
    output: &str,
) -> Result<GuardedMachine, Ending>
    requires apart { output.now ≢ samples.now }
    requires stages { (1 ≤ stages) × (stages ≤ 4) }
    ensures faults { FaultsNeverFall (D.view desk.old) (D.view desk.new) }
    ensures ok { IfOk result (λ machine. IsPiped stages source.now datapath.now samples.now output.now machine
        (D.view desk.old) (D.view desk.new)) }
    ensures err { IfErr result (λ ending. IsPipeError stages source.now datapath.now samples.now output.now
        (D.view desk.old) (D.view desk.new) ending.status) }
    ensures only { UsesOnly (IsAmong (source.now ∷ datapath.now ∷ samples.now ∷ [])) output.now
        (D.view desk.old) (D.view desk.new) }
{
    let ready = read_ready(alloc, desk, source, datapath, stages)?;
    Ok(pipe_ready(ready, desk, samples, output)?)
}
