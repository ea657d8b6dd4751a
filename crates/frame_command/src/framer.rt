//! `frame SRC DP M DOWN UP OUT`: from the plan of a source over frames to the bytes of the microcode.
ghost use Rattle.std.specs.Prelude.{◌≡◌, ◌≢◌, [], ◌∷◌, IfOk, IfErr};
ghost use Rattle.desk_core.specs.Desk.{FaultsNeverFall};
ghost use Rattle.frame_command.specs.Frame.{AreFramed, IsFrameAnswer, IsCompiledToo};
ghost use Rattle.frame_command.specs.FramePlans.{IsFrameError};
ghost use Rattle.plan_commands.specs.Compiling.{IsMadeOf};
ghost use Rattle.rate_unfold.specs.Frames.{AreRates, rates};
ghost use Rattle.silc_files.specs.Endings.{IsAmong, UsesOnly};
ghost use Rattle.silc_files.specs.Reading.{OnlyReads};

use crate::planning::read_frame_plan;
use desk_core::{Desk, write_whole};
use lists::Bytes;
use plan_commands::microcode_of;
use statuses::{Ending, Status};
use std::alloc::Global;

/// Reads the source and the datapath, and then makes the microcode.
fn make<D: Desk>(
    alloc: Global,
    desk: &mut D,
    source: &str,
    datapath: &str,
    phases: u8,
    down: &[u8],
    up: &[u8],
) -> Result<Bytes, Ending>
    requires { AreRates (rates phases down.now up.now) }
    ensures reads { OnlyReads (IsAmong (source.now ∷ datapath.now ∷ [])) (D.view desk.old) (D.view desk.new) }
    ensures ok { IfOk result (IsMadeOf (AreFramed (rates phases down.now up.now) source.now datapath.now) datapath.now
        (D.view desk.old) (D.view desk.new)) }
    ensures err { IfErr result (λ ending. IsFrameError (rates phases down.now up.now) source.now datapath.now
        (D.view desk.old) (D.view desk.new) ending.status) }
{
    let planned = read_frame_plan(alloc, desk, source, datapath, phases, down, up)?;
    Ok(microcode_of(alloc, &planned)?)
}

/// Makes the microcode, and writes it.
fn compile_frames<D: Desk>(
    alloc: Global,
    desk: &mut D,
    source: &str,
    datapath: &str,
    phases: u8,
    down: &[u8],
    up: &[u8],
    output: &str,
) -> Ending
    requires rates { AreRates (rates phases down.now up.now) }
    requires apart { output.now ≢ datapath.now }
    ensures faults { FaultsNeverFall (D.view desk.old) (D.view desk.new) }
    ensures answer { IsFrameAnswer (rates phases down.now up.now) source.now datapath.now output.now
        (D.view desk.old) (D.view desk.new) result.status }
    ensures only { UsesOnly (IsAmong (source.now ∷ datapath.now ∷ [])) output.now
        (D.view desk.old) (D.view desk.new) }
{
    match make(alloc, desk, source, datapath, phases, down, up) {
        Ok(microcode) => match write_whole(desk, output, &microcode) {
            Ok(()) => Ending::from(Status::Done),
            Err(failed) => Ending::from(failed),
        },
        Err(ending) => ending,
    }
}

/// Carries out `frame`: compiles the program of the source to run `phases` times, 1 to 8, per sample of the machine,
/// over frame rows. Output words in `down` are kept at phase 0 alone, and input words in `up` arrive once a frame; the
/// numbers of both rise.
pub fn frame<D: Desk>(
    alloc: Global,
    desk: &mut D,
    source: &str,
    datapath: &str,
    phases: u8,
    down: &[u8],
    up: &[u8],
    output: &str,
) -> Ending
    requires rates { AreRates (rates phases down.now up.now) }
    requires apart { output.now ≢ datapath.now }
    ensures faults { FaultsNeverFall (D.view desk.old) (D.view desk.new) }
    ensures answer { IsFrameAnswer (rates phases down.now up.now) source.now datapath.now output.now
        (D.view desk.old) (D.view desk.new) result.status }
    ensures only { UsesOnly (IsAmong (source.now ∷ datapath.now ∷ [])) output.now
        (D.view desk.old) (D.view desk.new) }
    // With one sample in a frame it is `compile`.
    ensures compiles { phases ≡ 1 → down.now ≡ [] → up.now ≡ [] → IsCompiledToo source.now datapath.now output.now
        (D.view desk.old) (D.view desk.new) result.status }
{
    compile_frames(alloc, desk, source, datapath, phases, down, up, output)
}
