//! `compile SRC DP OUT`: from the plan of a source over a datapath to the bytes of the microcode.
ghost use Rattle.std.specs.Prelude.{◌≡◌, ◌≢◌, ◌<◌, ◌^◌, [], ◌∷◌, length, IfOk, IfErr};
ghost use Rattle.datapath.specs.Allowed.{IsDatapath};
ghost use Rattle.desk_core.specs.Desk.{FaultsNeverFall};
ghost use Rattle.microcode_asm.specs.Planned.{IsPlanned};
ghost use Rattle.plan_commands.specs.Compile.{IsAnswer};
ghost use Rattle.silc_files.specs.Endings.{IsAmong, UsesOnly};
ghost use Rattle.plan_commands.specs.Refusals.{IsPlanError};
ghost use Rattle.plan_commands.specs.Compiling.{IsMicrocodeOf, IsMade};
ghost use Rattle.silc_files.specs.Reading.{OnlyReads};
ghost use Rattle.statuses.specs.declared.status.Status.TheVariants.{Memory};

use crate::planning::{Planned, read_plan};
use desk_core::{Desk, write_whole};
use lists::Bytes;
use micro_file::encode;
use microcode_asm::assemble;
use statuses::{Ending, Status};
use std::alloc::Global;

/// The microcode of a plan.
pub fn microcode_of(alloc: Global, planned: &Planned) -> Result<Bytes, Status>
    requires path { IsDatapath planned.now.path }
    requires plan { IsPlanned planned.now.path planned.now.plan }
    ensures ok { IfOk result (IsMicrocodeOf planned.now.path planned.now.plan) }
    ensures short { IfOk result (λ microcode. length microcode < 2 ^ 32) }
    ensures err { IfErr result (λ status. status ≡ Memory) }
{
    let image = assemble(alloc, &planned.plan, &planned.path)?;
    Ok(encode(alloc, &image)?)
}

/// Reads the source and the datapath, and then makes the microcode.
fn make<D: Desk>(alloc: Global, desk: &mut D, source: &str, datapath: &str) -> Result<Bytes, Ending>
    ensures reads { OnlyReads (IsAmong (source.now ∷ datapath.now ∷ [])) (D.view desk.old) (D.view desk.new) }
    ensures ok { IfOk result (IsMade source.now datapath.now (D.view desk.old) (D.view desk.new)) }
    ensures err { IfErr result (λ ending.
        IsPlanError source.now datapath.now (D.view desk.old) (D.view desk.new) ending.status) }
{
    let planned = read_plan(alloc, desk, source, datapath)?;
    Ok(microcode_of(alloc, &planned)?)
}

/// Carries out `compile`.
pub fn compile<D: Desk>(
    alloc: Global,
    desk: &mut D,
    source: &str,
    datapath: &str,
    output: &str,
) -> Ending
    requires { output.now ≢ datapath.now }
    ensures faults { FaultsNeverFall (D.view desk.old) (D.view desk.new) }
    ensures answer { IsAnswer source.now datapath.now output.now (D.view desk.old) (D.view desk.new) result.status }
    ensures only { UsesOnly (IsAmong (source.now ∷ datapath.now ∷ [])) output.now
        (D.view desk.old) (D.view desk.new) }
{
    match make(alloc, desk, source, datapath) {
        Ok(microcode) => match write_whole(desk, output, &microcode) {
            Ok(()) => Ending::from(Status::Done),
            Err(failed) => Ending::from(failed),
        },
        Err(ending) => ending,
    }
}
