//! What `silc` promises, a sentence a clause. The sentences follow from the two clauses of `silc` that say which words
//! are a command and how each command ends (`words`, `ending`).
#![tactic(auto)]

mod streams;

ghost use Rattle.std.specs.Prelude.{◌≡◌, ◌≢◌, ◌↔◌, ℕ, List, [], Some, None};
ghost use Rattle.command_words.specs.Command as spec;
ghost use Rattle.command_words.specs.Command.{Command, IsCommand, IsCommandIn, output_of};
ghost use Rattle.command_words.specs.Command.{IsCompile, IsSchedule, IsList, IsSim, IsEval, IsRun, IsDemo, IsStages, IsPipe};
ghost use Rattle.command_words.specs.Command.{IsFrame, IsNet};
ghost use Rattle.datapath.specs.declared.types.Datapath.{Datapath};
ghost use Rattle.desk_core.specs.Desk.{HasOutput, WhereSpecified};
ghost use Rattle.desk_core.specs.NeverFails.{view_of};
ghost use Rattle.desk_core.specs.View.{Name};
ghost use Rattle.frame_command.specs.Frame.{IsFrameDone, IsFrameAnswer, IsCompiledToo};
ghost use Rattle.rate_unfold.specs.Frames.{rates};
ghost use Rattle.frame_command.specs.FramePlans.{IsFrameRefusal};
ghost use Rattle.net_command.specs.Net.{IsNetRefusal, IsNetRefused};
ghost use Rattle.source_faults.specs.declared.fault.FrontFault.{FrontFault};
ghost use Rattle.plan_commands.specs.Compile.{IsAnswer};
ghost use Rattle.plan_commands.specs.Refusals.{IsRefusal, AreRefused};
ghost use Rattle.plan_commands.specs.Schedule.{IsScheduled, IsScheduleAnswer};
ghost use Rattle.silc_files.specs.Sources.{HasFrontFault};
ghost use Rattle.plan_core.specs.declared.plan.Plan.{Plan};
ghost use Rattle.sample_commands.specs.Eval.{IsEvalDone, IsEvalAnswer};
ghost use Rattle.sample_commands.specs.Sim.{HasSomeImage, HasImageFault};
ghost use Rattle.sample_commands.specs.StreamEnds.{status_of};
ghost use Rattle.silc.specs.declared.kept.Kept.TheVariants.{Nothing};
ghost use Rattle.sample_loops.specs.declared.stream.StreamFault.{StreamFault};
ghost use Rattle.silc.specs.Demo.{IsCascadePlannable, IsDemoDone, IsDemoAnswer};
ghost use Rattle.silc.specs.Endings.{IsEnding, IsInputOf};
ghost use Rattle.silc.specs.Runs.{IsSimDone, IsSimAnswer, IsRunDone, IsRunAnswer, IsPipeDone, IsPipeAnswer};
ghost use Rattle.silc.specs.Runs.{IsJoinedDone, IsNetAnswer};
ghost use Rattle.stage_commands.specs.Stages.{IsStagesPrinted, IsStagesAnswer};
ghost use Rattle.silc.specs.Listing.{IsListed, IsListAnswer};
ghost use Rattle.silc_files.specs.Endings.{UsesOnly};
ghost use Rattle.silc_files.specs.Printing.{ChangesNoFile, PrintsOnly};
ghost use Rattle.silc_laws.specs.Complete.{Specifies, ArePlannable, HasClearStream, HasProgramStream, HasPlannedStream};
ghost use Rattle.silc_laws.specs.Complete.{HavePlan, HasImageOf, IsCascadeRefused, IsAccepted};
ghost use Rattle.silc_laws.specs.Complete.{StopsSim, StopsEval, StopsPlanned, StopsStaged};
ghost use Rattle.silc_laws.specs.Complete.{AreStageable, AreStageRefused, AreFrameable, AreFrameRefused, HasStagedStream};
ghost use Rattle.silc_laws.specs.Complete.{HasSomeNetStream};
ghost use Rattle.silc_laws.specs.Complete.{IsThisOrMemory, IsDoneOrMemory, IsEndedBySamples, IsEndedByRun};
ghost use Rattle.silc_laws.specs.Faults.{HasFaultRisen, HasNoFaultRisen};
ghost use Rattle.silc_laws.specs.Forms.{IsCommandTo};
ghost use Rattle.statuses.specs.declared.status.ImageFault.{ImageFault};
ghost use Rattle.statuses.specs.declared.status.Status as of_status;

use desk_core::{Desk, NeverFails};
use silc::{Kept, Status, silc};
use std::alloc::Global;
pub use streams::{evaluation_completes, run_completes};

/// What the commands print, write and keep where they are done.
pub fn silc_done<D: Desk>(alloc: Global, words: &[String], desk: &mut D, kept: &mut Kept) -> Status
    requires { kept.old ≡ Nothing }
    ensures words { (result ≢ Status.Words) ↔ IsCommand words.now }
    ensures ending { (command : Command) → IsCommandIn words.now command
        → IsEnding command (D.view desk.old) (D.view desk.new) kept.new result }

    ensures printed { result ≡ Status.Done → (src datapath : Name) → IsSchedule words.now src datapath
        → IsScheduled src datapath (D.view desk.old) (D.view desk.new) }
    ensures listed { result ≡ Status.Done → (mic : Name) → IsList words.now mic
        → IsListed mic (D.view desk.old) (D.view desk.new) }
    ensures demonstrated { result ≡ Status.Done → (sections samples : ℕ) → IsDemo words.now sections samples
        → IsDemoDone sections samples (D.view desk.old) (D.view desk.new) kept.new }
    ensures simulated { result ≡ Status.Done → (mic samples out : Name) → IsSim words.now mic samples out
        → IsSimDone mic samples out (D.view desk.old) (D.view desk.new) kept.new }
    ensures one_solution { result ≡ Status.Done → (src samples out : Name) → IsEval words.now src samples out
        → IsEvalDone src samples out (D.view desk.old) (D.view desk.new) }
    ensures equals_eval { result ≡ Status.Done
        → (src datapath samples out : Name) → IsRun words.now src datapath samples out
        → IsRunDone src datapath samples out (D.view desk.old) (D.view desk.new) kept.new }
    ensures staged { result ≡ Status.Done → (src datapath : Name) (stages : ℕ) → IsStages words.now src datapath stages
        → IsStagesPrinted stages src datapath (D.view desk.old) (D.view desk.new) }
    ensures piped { result ≡ Status.Done → (src datapath : Name) (stages : ℕ) (samples out : Name)
        → IsPipe words.now src datapath stages samples out
        → IsPipeDone src datapath stages samples out (D.view desk.old) (D.view desk.new) kept.new }
    ensures framed { result ≡ Status.Done → (src datapath : Name) (phases : ℕ) (down up : List ℕ) (out : Name)
        → IsFrame words.now src datapath phases down up out
        → IsFrameDone (rates phases down up) src datapath out (D.view desk.old) (D.view desk.new) }
    ensures joined { result ≡ Status.Done → (joins samples out : Name) → IsNet words.now joins samples out
        → IsJoinedDone joins samples out (D.view desk.old) (D.view desk.new) kept.new }
    ensures closed { result ≡ Status.Done → (out : Name) → IsCommandTo words.now out
        → HasOutput None (D.view desk.new) }
{
    silc(alloc, words, desk, kept)
}

/// When each status of a command comes, and in which order.
pub fn silc_answers<D: Desk>(
    alloc: Global,
    words: &[String],
    desk: &mut D,
    kept: &mut Kept,
) -> Status
    requires { kept.old ≡ Nothing }
    ensures words { (result ≢ Status.Words) ↔ IsCommand words.now }
    ensures ending { (command : Command) → IsCommandIn words.now command
        → IsEnding command (D.view desk.old) (D.view desk.new) kept.new result }

    ensures answer { (src datapath out : Name) → IsCompile words.now src datapath out
        → IsAnswer src datapath out (D.view desk.old) (D.view desk.new) result }
    ensures schedule_answer { (src datapath : Name) → IsSchedule words.now src datapath
        → IsScheduleAnswer src datapath (D.view desk.old) (D.view desk.new) result }
    ensures list_answer { (mic : Name) → IsList words.now mic
        → IsListAnswer mic (D.view desk.old) (D.view desk.new) result }
    ensures demo_answer { (sections samples : ℕ) → IsDemo words.now sections samples
        → IsDemoAnswer sections samples (D.view desk.old) (D.view desk.new) kept.new result }
    ensures sim_answer { (mic samples out : Name) → IsSim words.now mic samples out
        → IsSimAnswer mic samples out (D.view desk.old) (D.view desk.new) kept.new result }
    ensures eval_answer { (src samples out : Name) → IsEval words.now src samples out
        → IsEvalAnswer src samples out (D.view desk.old) (D.view desk.new) result }
    ensures run_answer { (src datapath samples out : Name) → IsRun words.now src datapath samples out
        → IsRunAnswer src datapath samples out (D.view desk.old) (D.view desk.new) kept.new result }
    ensures stages_answer { (src datapath : Name) (stages : ℕ) → IsStages words.now src datapath stages
        → IsStagesAnswer stages src datapath (D.view desk.old) (D.view desk.new) result }
    ensures pipe_answer { (src datapath : Name) (stages : ℕ) (samples out : Name)
        → IsPipe words.now src datapath stages samples out
        → IsPipeAnswer src datapath stages samples out (D.view desk.old) (D.view desk.new) kept.new result }
    ensures frame_answer { (src datapath : Name) (phases : ℕ) (down up : List ℕ) (out : Name)
        → IsFrame words.now src datapath phases down up out
        → IsFrameAnswer (rates phases down up) src datapath out (D.view desk.old) (D.view desk.new) result }
    ensures frame_compiles { (src datapath out : Name) → IsFrame words.now src datapath 1 [] [] out
        → IsCompiledToo src datapath out (D.view desk.old) (D.view desk.new) result }
    ensures net_answer { (joins samples out : Name) → IsNet words.now joins samples out
        → IsNetAnswer joins samples out (D.view desk.old) (D.view desk.new) kept.new result }
{
    silc(alloc, words, desk, kept)
}

/// What a command leaves alone.
pub fn silc_leaves<D: Desk>(
    alloc: Global,
    words: &[String],
    desk: &mut D,
    kept: &mut Kept,
) -> Status
    requires { kept.old ≡ Nothing }
    ensures words { (result ≢ Status.Words) ↔ IsCommand words.now }
    ensures ending { (command : Command) → IsCommandIn words.now command
        → IsEnding command (D.view desk.old) (D.view desk.new) kept.new result }

    ensures only { (command : Command) (out : Name) → IsCommandIn words.now command → output_of command ≡ Some out
        → UsesOnly (IsInputOf command (D.view desk.old)) out (D.view desk.old) (D.view desk.new) }
    ensures prints_only { (command : Command) → IsCommandIn words.now command → output_of command ≡ None
        → ChangesNoFile (IsInputOf command (D.view desk.old)) (D.view desk.old) (D.view desk.new) }
    ensures demo_only { (sections samples : ℕ) → IsDemo words.now sections samples
        → PrintsOnly (D.view desk.old) (D.view desk.new) }
    ensures compile_keeps_nothing { (src datapath out : Name) → IsCompile words.now src datapath out
        → kept.new ≡ Nothing }
    ensures eval_keeps_nothing { (src samples out : Name) → IsEval words.now src samples out → kept.new ≡ Nothing }
    ensures schedule_keeps_nothing { (src datapath : Name) → IsSchedule words.now src datapath → kept.new ≡ Nothing }
    ensures list_keeps_nothing { (mic : Name) → IsList words.now mic → kept.new ≡ Nothing }
    ensures stages_keeps_nothing { (src datapath : Name) (stages : ℕ) → IsStages words.now src datapath stages
        → kept.new ≡ Nothing }
    ensures frame_keeps_nothing { (src datapath : Name) (phases : ℕ) (down up : List ℕ) (out : Name)
        → IsFrame words.now src datapath phases down up out → kept.new ≡ Nothing }
{
    silc(alloc, words, desk, kept)
}

/// Which faults let a command answer that a file fault ended it.
pub fn silc_fails<D: Desk>(alloc: Global, words: &[String], desk: &mut D, kept: &mut Kept) -> Status
    requires { kept.old ≡ Nothing }
    ensures words { (result ≢ Status.Words) ↔ IsCommand words.now }
    ensures ending { (command : Command) → IsCommandIn words.now command
        → IsEnding command (D.view desk.old) (D.view desk.new) kept.new result }
    ensures fault { result ≡ Status.Desk → (command : Command) → IsCommandIn words.now command
        → HasFaultRisen command (D.view desk.old) (D.view desk.new) }
{
    silc(alloc, words, desk, kept)
}

/// Over a desk that never fails, no command answers that a file fault ended it.
pub fn silc_never_fails(
    alloc: Global,
    words: &[String],
    desk: &mut NeverFails,
    kept: &mut Kept,
) -> Status
    requires { kept.old ≡ Nothing }
    ensures words { (result ≢ Status.Words) ↔ IsCommand words.now }
    ensures ending { (command : Command) → IsCommandIn words.now command
        → IsEnding command (view_of desk.old) (view_of desk.new) kept.new result }
    ensures never { result ≢ Status.Desk }
{
    silc_fails(alloc, words, desk, kept)
}

/// What a command that is not refused answers, unless memory runs out, where no fault of its own rose: where the files
/// are such that no refusal is due, it is done.
pub fn silc_completes<D: Desk>(
    alloc: Global,
    words: &[String],
    desk: &mut D,
    kept: &mut Kept,
) -> Status
    requires { kept.old ≡ Nothing }
    ensures words { (result ≢ Status.Words) ↔ IsCommand words.now }
    ensures ending { (command : Command) → IsCommandIn words.now command
        → IsEnding command (D.view desk.old) (D.view desk.new) kept.new result }
    ensures compiles { (src datapath out : Name) → IsCompile words.now src datapath out
        → HasNoFaultRisen (spec.compile src datapath out) (D.view desk.old) (D.view desk.new)
        → Specifies (ArePlannable src datapath) (D.view desk.old) → IsDoneOrMemory result }
    ensures compiles_plan { result ≡ Status.Done → (src datapath out : Name) → IsCompile words.now src datapath out
        → (path : Datapath) (plan : Plan) → Specifies (HavePlan src datapath path plan) (D.view desk.old)
        → WhereSpecified (D.view desk.new) (HasImageOf out path plan) }
    ensures schedules { (src datapath : Name) → IsSchedule words.now src datapath
        → HasNoFaultRisen (spec.schedule src datapath) (D.view desk.old) (D.view desk.new)
        → Specifies (ArePlannable src datapath) (D.view desk.old) → IsDoneOrMemory result }
    ensures lists { (mic : Name) → IsList words.now mic
        → HasNoFaultRisen (spec.list mic) (D.view desk.old) (D.view desk.new)
        → Specifies (HasSomeImage mic) (D.view desk.old) → IsDoneOrMemory result }
    ensures demonstrates { (sections samples : ℕ) → IsDemo words.now sections samples
        → HasNoFaultRisen (spec.demo sections samples) (D.view desk.old) (D.view desk.new)
        → IsCascadePlannable sections → IsDoneOrMemory result }
    ensures simulates { (mic samples out : Name) → IsSim words.now mic samples out
        → HasNoFaultRisen (spec.sim mic samples out) (D.view desk.old) (D.view desk.new)
        → Specifies (HasClearStream mic samples) (D.view desk.old) → IsDoneOrMemory result }
    ensures evaluates { (src samples out : Name) → IsEval words.now src samples out
        → HasNoFaultRisen (spec.eval src samples out) (D.view desk.old) (D.view desk.new)
        → Specifies (HasProgramStream src samples) (D.view desk.old) → IsDoneOrMemory result }
    ensures runs { (src datapath samples out : Name) → IsRun words.now src datapath samples out
        → HasNoFaultRisen (spec.run src datapath samples out) (D.view desk.old) (D.view desk.new)
        → Specifies (HasPlannedStream src datapath samples) (D.view desk.old) → IsDoneOrMemory result }
    ensures stages { (src datapath : Name) (stages : ℕ) → IsStages words.now src datapath stages
        → HasNoFaultRisen (spec.stages src datapath stages) (D.view desk.old) (D.view desk.new)
        → Specifies (AreStageable stages src datapath) (D.view desk.old) → IsDoneOrMemory result }
    ensures pipes { (src datapath : Name) (stages : ℕ) (samples out : Name)
        → IsPipe words.now src datapath stages samples out
        → HasNoFaultRisen (spec.pipe src datapath stages samples out) (D.view desk.old) (D.view desk.new)
        → Specifies (HasStagedStream stages src datapath samples) (D.view desk.old) → IsDoneOrMemory result }
    ensures frames { (src datapath : Name) (phases : ℕ) (down up : List ℕ) (out : Name)
        → IsFrame words.now src datapath phases down up out
        → HasNoFaultRisen (spec.frame src datapath phases down up out) (D.view desk.old) (D.view desk.new)
        → Specifies (AreFrameable (rates phases down up) src datapath) (D.view desk.old) → IsDoneOrMemory result }
    ensures joins { (joins samples out : Name) → IsNet words.now joins samples out
        → HasNoFaultRisen (spec.net joins samples out) (D.view desk.old) (D.view desk.new)
        → Specifies (HasSomeNetStream joins samples out) (D.view desk.old) → IsDoneOrMemory result }
{
    silc(alloc, words, desk, kept)
}

/// What a command that is refused answers, unless memory runs out, where no fault of its own rose: the refusal that the
/// files have.
pub fn silc_refuses<D: Desk>(
    alloc: Global,
    words: &[String],
    desk: &mut D,
    kept: &mut Kept,
) -> Status
    requires { kept.old ≡ Nothing }
    ensures words { (result ≢ Status.Words) ↔ IsCommand words.now }
    ensures ending { (command : Command) → IsCommandIn words.now command
        → IsEnding command (D.view desk.old) (D.view desk.new) kept.new result }
    ensures compile_refuses { (src datapath out : Name) → IsCompile words.now src datapath out
        → HasNoFaultRisen (spec.compile src datapath out) (D.view desk.old) (D.view desk.new)
        → (why : of_status.Status) → IsRefusal why
        → Specifies (AreRefused src datapath why) (D.view desk.old) → IsThisOrMemory why result }
    ensures schedule_refuses { (src datapath : Name) → IsSchedule words.now src datapath
        → HasNoFaultRisen (spec.schedule src datapath) (D.view desk.old) (D.view desk.new)
        → (why : of_status.Status) → IsRefusal why
        → Specifies (AreRefused src datapath why) (D.view desk.old) → IsThisOrMemory why result }
    ensures list_refuses { (mic : Name) → IsList words.now mic
        → HasNoFaultRisen (spec.list mic) (D.view desk.old) (D.view desk.new)
        → (fault : ImageFault) → Specifies (HasImageFault mic fault) (D.view desk.old)
        → IsThisOrMemory (Status.Image fault) result }
    ensures demo_refuses { (sections samples : ℕ) → IsDemo words.now sections samples
        → HasNoFaultRisen (spec.demo sections samples) (D.view desk.old) (D.view desk.new)
        → (why : of_status.Status) → IsRefusal why → IsCascadeRefused why sections → IsThisOrMemory why result }
    ensures sim_refuses { (mic samples out : Name) → IsSim words.now mic samples out
        → HasNoFaultRisen (spec.sim mic samples out) (D.view desk.old) (D.view desk.new)
        → (fault : ImageFault) → Specifies (HasImageFault mic fault) (D.view desk.old)
        → IsThisOrMemory (Status.Image fault) result }
    ensures eval_refuses { (src samples out : Name) → IsEval words.now src samples out
        → HasNoFaultRisen (spec.eval src samples out) (D.view desk.old) (D.view desk.new)
        → (fault : FrontFault) → Specifies (HasFrontFault src fault) (D.view desk.old)
        → IsThisOrMemory (Status.FrontEnd fault) result }
    ensures run_refuses { (src datapath samples out : Name) → IsRun words.now src datapath samples out
        → HasNoFaultRisen (spec.run src datapath samples out) (D.view desk.old) (D.view desk.new)
        → (why : of_status.Status) → IsRefusal why
        → Specifies (AreRefused src datapath why) (D.view desk.old) → IsThisOrMemory why result }
    ensures stages_refuses { (src datapath : Name) (stages : ℕ) → IsStages words.now src datapath stages
        → HasNoFaultRisen (spec.stages src datapath stages) (D.view desk.old) (D.view desk.new)
        → (why : of_status.Status) → IsRefusal why
        → Specifies (AreStageRefused stages src datapath why) (D.view desk.old) → IsThisOrMemory why result }
    ensures pipe_refuses { (src datapath : Name) (stages : ℕ) (samples out : Name)
        → IsPipe words.now src datapath stages samples out
        → HasNoFaultRisen (spec.pipe src datapath stages samples out) (D.view desk.old) (D.view desk.new)
        → (why : of_status.Status) → IsRefusal why
        → Specifies (AreStageRefused stages src datapath why) (D.view desk.old) → IsThisOrMemory why result }
    ensures frame_refuses { (src datapath : Name) (phases : ℕ) (down up : List ℕ) (out : Name)
        → IsFrame words.now src datapath phases down up out
        → HasNoFaultRisen (spec.frame src datapath phases down up out) (D.view desk.old) (D.view desk.new)
        → (why : of_status.Status) → IsFrameRefusal why
        → Specifies (AreFrameRefused (rates phases down up) src datapath why) (D.view desk.old)
        → IsThisOrMemory why result }
    ensures net_refuses { (joins samples out : Name) → IsNet words.now joins samples out
        → HasNoFaultRisen (spec.net joins samples out) (D.view desk.old) (D.view desk.new)
        → (why : of_status.Status) → IsNetRefusal why
        → Specifies (IsNetRefused joins samples out why) (D.view desk.old) → IsThisOrMemory why result }
{
    silc(alloc, words, desk, kept)
}

/// What a command answers that runs over samples, unless memory runs out, where no fault of its own rose: where its
/// samples stop it, it answers why.
pub fn silc_stops<D: Desk>(alloc: Global, words: &[String], desk: &mut D, kept: &mut Kept) -> Status
    requires { kept.old ≡ Nothing }
    ensures words { (result ≢ Status.Words) ↔ IsCommand words.now }
    ensures ending { (command : Command) → IsCommandIn words.now command
        → IsEnding command (D.view desk.old) (D.view desk.new) kept.new result }
    ensures sim_ends { (mic samples out : Name) → IsSim words.now mic samples out
        → HasNoFaultRisen (spec.sim mic samples out) (D.view desk.old) (D.view desk.new)
        → Specifies (HasSomeImage mic) (D.view desk.old) → IsEndedByRun result }
    ensures eval_ends { (src samples out : Name) → IsEval words.now src samples out
        → HasNoFaultRisen (spec.eval src samples out) (D.view desk.old) (D.view desk.new)
        → Specifies (IsAccepted src) (D.view desk.old) → IsEndedBySamples result }
    ensures run_ends { (src datapath samples out : Name) → IsRun words.now src datapath samples out
        → HasNoFaultRisen (spec.run src datapath samples out) (D.view desk.old) (D.view desk.new)
        → Specifies (ArePlannable src datapath) (D.view desk.old) → IsEndedBySamples result }
    ensures pipe_ends { (src datapath : Name) (stages : ℕ) (samples out : Name)
        → IsPipe words.now src datapath stages samples out
        → HasNoFaultRisen (spec.pipe src datapath stages samples out) (D.view desk.old) (D.view desk.new)
        → Specifies (AreStageable stages src datapath) (D.view desk.old) → IsEndedBySamples result }
    ensures sim_stops { (mic samples out : Name) → IsSim words.now mic samples out
        → HasNoFaultRisen (spec.sim mic samples out) (D.view desk.old) (D.view desk.new)
        → (fault : StreamFault) → Specifies (StopsSim mic samples fault) (D.view desk.old)
        → IsThisOrMemory (status_of fault) result }
    ensures eval_stops { (src samples out : Name) → IsEval words.now src samples out
        → HasNoFaultRisen (spec.eval src samples out) (D.view desk.old) (D.view desk.new)
        → (fault : StreamFault) → Specifies (StopsEval src samples fault) (D.view desk.old)
        → IsThisOrMemory (status_of fault) result }
    ensures run_stops { (src datapath samples out : Name) → IsRun words.now src datapath samples out
        → HasNoFaultRisen (spec.run src datapath samples out) (D.view desk.old) (D.view desk.new)
        → (fault : StreamFault) → Specifies (StopsPlanned src datapath samples fault) (D.view desk.old)
        → IsThisOrMemory (status_of fault) result }
    ensures pipe_stops { (src datapath : Name) (stages : ℕ) (samples out : Name)
        → IsPipe words.now src datapath stages samples out
        → HasNoFaultRisen (spec.pipe src datapath stages samples out) (D.view desk.old) (D.view desk.new)
        → (fault : StreamFault) → Specifies (StopsStaged stages src datapath samples fault) (D.view desk.old)
        → IsThisOrMemory (status_of fault) result }
{
    silc(alloc, words, desk, kept)
}
