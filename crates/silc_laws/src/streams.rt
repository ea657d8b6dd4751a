//! How a run and an evaluation over the current input end, and what they answer where no fault of the desk rose.
ghost use Rattle.std.specs.Prelude.{◌≡◌, ◌*◌, ◌<◌, ◌≤◌, ◌^◌, []};
ghost use Rattle.cycle_sim.specs.Machine.{state_of};
ghost use Rattle.cycle_sim.specs.Microcode.{micro_of, inputs_of};
ghost use Rattle.desk_core.specs.Desk.{FaultsNeverFall};
ghost use Rattle.desk_core.specs.View.{Content};
ghost use Rattle.lists.specs.Rows.{Rows as Stream};
ghost use Rattle.micro_image.specs.Run.{Stands};
ghost use Rattle.sample_commands.specs.StreamEnds.{status_of, EndsStream};
ghost use Rattle.sample_io.specs.Pieces.{HasTaken};
ghost use Rattle.sample_loops.specs.Evaluators.{graph_channels, EvaluatesRows, SolvesRows};
ghost use Rattle.sample_loops.specs.Machines.{channels_of, IsReady, IsClearOver, IsConflictInLast};
ghost use Rattle.sample_loops.specs.Machines.{RunsRows, PutsRows, StopsInLast};
ghost use Rattle.sample_loops.specs.Streams.{ChangesOutputAlone, IsKept};
ghost use Rattle.sample_loops.specs.declared.stream.StreamFault.{StreamFault};
ghost use Rattle.silc_laws.specs.Samples.{RunsThrough, StopsRun, IsAlwaysClear, MeetsNone};
ghost use Rattle.silc_laws.specs.Samples.{ReadsWithoutFault};

use cycle_sim::Machine;
use desk_core::Desk;
use equation_eval::Evaluator;
use sample_commands::{eval_samples, run_samples};
use sample_io::Rows;
use silc::Status;

/// How a run over the input ends. Where no fault of the desk rose, it is done, or answers why the input stops it.
pub fn run_completes<D: Desk>(
    machine: &mut Machine,
    rows: &mut Rows,
    desk: &mut D,
    limit: u64,
) -> Status
    requires ready { IsReady (micro_of machine.old.code) (state_of machine.old) }
    requires young { machine.old.cycle < 2 ^ 47 * (micro_of machine.old.code).period }
    requires channels { rows.old.channels ≡ channels_of (inputs_of machine.old.code) }
    requires fresh { HasTaken rows.old [] [] }
    requires start { (D.view desk.old).place ≡ 0 }
    requires limit { limit ≤ 2 ^ 32 }
    ensures never_fall { FaultsNeverFall (D.view desk.old) (D.view desk.new) }
    ensures only { ChangesOutputAlone (D.view desk.old) (D.view desk.new) }
    ensures code { machine.new.code ≡ machine.old.code }
    ensures channels { rows.new.channels ≡ rows.old.channels }
    ensures kept { (fault : _) → result ≡ status_of fault → IsKept rows.new fault }
    ensures ends { EndsStream limit (channels_of (inputs_of machine.old.code))
        (λ ran puts. RunsRows (micro_of machine.old.code) (state_of machine.old) ran puts (state_of machine.new))
        (PutsRows (micro_of machine.old.code) (state_of machine.old))
        (λ ran conflict.
        StopsInLast (micro_of machine.old.code) (state_of machine.old) ran conflict (state_of machine.new))
        (D.view desk.old) (D.view desk.new) result }

    // Where no fault of the desk rose, it comes to the end that the input has.
    ensures completes { (cycles : Stream) (bytes : Content)
        → Stands (state_of machine.old) (micro_of machine.old.code) cycles
        → ReadsWithoutFault bytes (D.view desk.old) (D.view desk.new)
        → RunsThrough limit (channels_of (inputs_of machine.old.code))
        (IsClearOver (micro_of machine.old.code) cycles) bytes
        → result ≡ Status.Done }
    ensures stops { (cycles : Stream) (bytes : Content)
        → Stands (state_of machine.old) (micro_of machine.old.code) cycles
        → ReadsWithoutFault bytes (D.view desk.old) (D.view desk.new)
        → (fault : StreamFault) → StopsRun limit (channels_of (inputs_of machine.old.code))
        (IsClearOver (micro_of machine.old.code) cycles) (IsConflictInLast (micro_of machine.old.code) cycles) bytes
        fault
        → result ≡ status_of fault }
{
    run_samples(machine, rows, desk, limit)
}

/// How an evaluation over the input ends. Where no fault of the desk rose, it is done, or answers why the input
/// stops it.
pub fn evaluation_completes<D: Desk>(
    evaluator: &mut Evaluator,
    rows: &mut Rows,
    outs: usize,
    desk: &mut D,
    limit: u64,
) -> Status
    requires outs { outs ≡ evaluator.old.graph.outs }
    requires channels { rows.old.channels ≡ graph_channels evaluator.old.graph }
    requires fresh { HasTaken rows.old [] [] }
    requires start { (D.view desk.old).place ≡ 0 }
    requires limit { limit ≤ 2 ^ 32 }
    ensures never_fall { FaultsNeverFall (D.view desk.old) (D.view desk.new) }
    ensures only { ChangesOutputAlone (D.view desk.old) (D.view desk.new) }
    ensures graph { evaluator.new.graph ≡ evaluator.old.graph }
    ensures channels { rows.new.channels ≡ rows.old.channels }
    ensures kept { (fault : _) → result ≡ status_of fault → IsKept rows.new fault }
    ensures ends { EndsStream limit (graph_channels evaluator.old.graph)
        (λ ran puts. EvaluatesRows evaluator.old ran puts evaluator.new) (SolvesRows evaluator.old)
        (λ ran conflict. ⊥) (D.view desk.old) (D.view desk.new) result }

    // Where no fault of the desk rose, it comes to the end that the input has.
    ensures completes { (bytes : Content) → ReadsWithoutFault bytes (D.view desk.old) (D.view desk.new)
        → RunsThrough limit (graph_channels evaluator.old.graph) IsAlwaysClear bytes → result ≡ Status.Done }
    ensures stops { (bytes : Content) → ReadsWithoutFault bytes (D.view desk.old) (D.view desk.new)
        → (fault : StreamFault)
        → StopsRun limit (graph_channels evaluator.old.graph) IsAlwaysClear MeetsNone bytes fault
        → result ≡ status_of fault }
{
    eval_samples(evaluator, rows, outs, desk, limit)
}
