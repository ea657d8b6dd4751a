//! `stages SRC DP S`: prints the plan of a source over S stages on a datapath.
ghost use Rattle.std.specs.Prelude.{◌≡◌, ◌≤◌, [], ◌∷◌, IfOk, IfErr};
ghost use Rattle.datapath.specs.Allowed.{IsDatapath};
ghost use Rattle.desk_core.specs.Desk.{FaultsNeverFall};
ghost use Rattle.overlap_plan.specs.StagePlanned.{IsStagePlanned};
ghost use Rattle.overlap_plan.specs.StageText as text;
ghost use Rattle.plan_commands.specs.Private.Scheduling.{IsMadeText};
ghost use Rattle.silc_files.specs.Endings.{IsAmong};
ghost use Rattle.silc_files.specs.Printing.{ChangesNoFile};
ghost use Rattle.silc_files.specs.Reading.{OnlyReads};
ghost use Rattle.stage_commands.specs.StagePlans.{IsStageError};
ghost use Rattle.stage_commands.specs.Stages.{IsStagesTextOf, IsStagesAnswer};
ghost use Rattle.statuses.specs.declared.status.Status.TheVariants.{Memory};

use crate::planning::{StagePlanned, read_stage_plan};
use desk_core::Desk;
use lists::Bytes;
use overlap_plan::{GuardFault, stage_text};
use silc_files::print_whole;
use statuses::{Ending, Status};
use std::alloc::Global;

/// The text of the plan.
fn text_of(alloc: Global, planned: &StagePlanned) -> Result<Bytes, Status>
    requires path { IsDatapath planned.now.path }
    requires plan { IsStagePlanned planned.now.path planned.now.plan }
    ensures ok { IfOk result (λ bytes. bytes ≡ text.stage_text planned.now.path planned.now.plan) }
    ensures err { IfErr result (λ status. status ≡ Memory) }
{
    match stage_text(alloc, &planned.plan, &planned.path) {
        Ok(bytes) => Ok(bytes),
        Err(GuardFault::Memory) => Err(Status::Memory),
    }
}

/// Reads the source and the datapath, and then makes the text of the plan.
fn make<D: Desk>(
    alloc: Global,
    desk: &mut D,
    source: &str,
    datapath: &str,
    stages: u8,
) -> Result<Bytes, Ending>
    requires { (1 ≤ stages) × (stages ≤ 4) }
    ensures reads { OnlyReads (IsAmong (source.now ∷ datapath.now ∷ [])) (D.view desk.old) (D.view desk.new) }
    ensures ok { IfOk result (IsMadeText (IsStagesTextOf stages source.now datapath.now) datapath.now
        (D.view desk.old) (D.view desk.new)) }
    ensures err { IfErr result (λ ending.
        IsStageError stages source.now datapath.now (D.view desk.old) (D.view desk.new) ending.status) }
{
    let planned = read_stage_plan(alloc, desk, source, datapath, stages)?;
    Ok(text_of(alloc, &planned)?)
}

/// Carries out `stages`, of 1 to 4 stages.
pub fn stages<D: Desk>(
    alloc: Global,
    desk: &mut D,
    source: &str,
    datapath: &str,
    stages: u8,
) -> Ending
    requires { (1 ≤ stages) × (stages ≤ 4) }
    ensures faults { FaultsNeverFall (D.view desk.old) (D.view desk.new) }
    ensures answer { IsStagesAnswer stages source.now datapath.now (D.view desk.old) (D.view desk.new) result.status }
    ensures only { ChangesNoFile (IsAmong (source.now ∷ datapath.now ∷ [])) (D.view desk.old) (D.view desk.new) }
{
    match make(alloc, desk, source, datapath, stages) {
        Ok(text) => match print_whole(desk, &text) {
            Ok(()) => Ending::from(Status::Done),
            Err(failed) => Ending::from(failed),
        },
        Err(ending) => ending,
    }
}
