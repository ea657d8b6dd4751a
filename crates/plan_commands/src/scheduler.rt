//! `schedule SRC DP`: prints the plan of a source over a datapath.
ghost use Rattle.std.specs.Prelude.{[], ◌∷◌, IfOk, IfErr};
ghost use Rattle.desk_core.specs.Desk.{FaultsNeverFall};
ghost use Rattle.plan_commands.specs.Refusals.{IsPlanError};
ghost use Rattle.plan_commands.specs.Schedule.{IsScheduleAnswer};
ghost use Rattle.silc_files.specs.Endings.{IsAmong};
ghost use Rattle.silc_files.specs.Printing.{ChangesNoFile};
ghost use Rattle.plan_commands.specs.Private.Scheduling.{IsMadeSchedule};
ghost use Rattle.silc_files.specs.Reading.{OnlyReads};

use crate::planning::read_plan;
use desk_core::Desk;
use lists::Bytes;
use microcode_asm::schedule_text;
use silc_files::print_whole;
use statuses::{Ending, Status};
use std::alloc::Global;

/// Reads the source and the datapath, and then makes the text of the plan.
fn make<D: Desk>(alloc: Global, desk: &mut D, source: &str, datapath: &str) -> Result<Bytes, Ending>
    ensures reads { OnlyReads (IsAmong (source.now ∷ datapath.now ∷ [])) (D.view desk.old) (D.view desk.new) }
    ensures ok { IfOk result (IsMadeSchedule source.now datapath.now (D.view desk.old) (D.view desk.new)) }
    ensures err { IfErr result (λ ending.
        IsPlanError source.now datapath.now (D.view desk.old) (D.view desk.new) ending.status) }
{
    let planned = read_plan(alloc, desk, source, datapath)?;
    Ok(schedule_text(alloc, &planned.plan, &planned.path)?)
}

/// Carries out `schedule`.
pub fn schedule<D: Desk>(alloc: Global, desk: &mut D, source: &str, datapath: &str) -> Ending
    ensures faults { FaultsNeverFall (D.view desk.old) (D.view desk.new) }
    ensures answer { IsScheduleAnswer source.now datapath.now (D.view desk.old) (D.view desk.new) result.status }
    ensures only { ChangesNoFile (IsAmong (source.now ∷ datapath.now ∷ [])) (D.view desk.old) (D.view desk.new) }
{
    match make(alloc, desk, source, datapath) {
        Ok(text) => match print_whole(desk, &text) {
            Ok(()) => Ending::from(Status::Done),
            Err(failed) => Ending::from(failed),
        },
        Err(ending) => ending,
    }
}
