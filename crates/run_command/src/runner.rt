//! `run SRC DP SAMPLES OUT`: from the bytes of a source and a datapath to microcode, and on to the rows that it puts.
ghost use Rattle.std.specs.Prelude.{◌≢◌, [], ◌∷◌, IfOk, IfErr};
ghost use Rattle.cycle_sim.specs.Microcode.{inputs_of};
ghost use Rattle.desk_core.specs.Desk.{FaultsNeverFall};
ghost use Rattle.plan_commands.specs.Refusals.{IsPlanError};
ghost use Rattle.silc_files.specs.Endings.{IsAmong, UsesOnly};
ghost use Rattle.silc_files.specs.Reading.{OnlyReads};
ghost use Rattle.sample_commands.specs.Loaded.{AreFreshRows};
ghost use Rattle.run_command.specs.Run.{IsExecuted, IsRunError};
ghost use Rattle.run_command.specs.Private.Executing.{IsCompiledMachine};

use cycle_sim::Machine;
use desk_core::Desk;
use plan_commands::{microcode_of, read_plan};
use sample_commands::{Ready, machine_of, machine_rows, run_ready};
use statuses::Ending;
use std::alloc::Global;

/// Reads SRC and DP, loads the microcode to which the one is compiled for the other, from its bytes, and takes all
/// memory that a run of it needs.
fn compiled_ready<D: Desk>(
    alloc: Global,
    desk: &mut D,
    source: &str,
    datapath: &str,
) -> Result<Ready, Ending>
    ensures reads { OnlyReads (IsAmong (source.now ∷ datapath.now ∷ [])) (D.view desk.old) (D.view desk.new) }
    ensures machine { IfOk result (λ ready.
        IsCompiledMachine source.now datapath.now (D.view desk.old) (D.view desk.new) ready.machine) }
    ensures rows { IfOk result (λ ready. AreFreshRows (inputs_of ready.machine.code) ready.rows) }
    ensures err { IfErr result (λ ending.
        IsPlanError source.now datapath.now (D.view desk.old) (D.view desk.new) ending.status) }
{
    let planned = read_plan(alloc, desk, source, datapath)?;
    let microcode = microcode_of(alloc, &planned)?;
    let machine = machine_of(alloc, &microcode)?;
    let rows = machine_rows(alloc, &machine)?;
    Ok(Ready { machine, rows })
}

/// Carries out `run`, and gives the machine after the last sample.
pub fn run<D: Desk>(
    alloc: Global,
    desk: &mut D,
    source: &str,
    datapath: &str,
    samples: &str,
    output: &str,
) -> Result<Machine, Ending>
    requires { output.now ≢ samples.now }
    ensures faults { FaultsNeverFall (D.view desk.old) (D.view desk.new) }
    ensures ok { IfOk result (λ machine. IsExecuted source.now datapath.now samples.now output.now machine
        (D.view desk.old) (D.view desk.new)) }
    ensures err { IfErr result (λ ending. IsRunError source.now datapath.now samples.now output.now
        (D.view desk.old) (D.view desk.new) ending.status) }
    ensures only { UsesOnly (IsAmong (source.now ∷ datapath.now ∷ samples.now ∷ [])) output.now
        (D.view desk.old) (D.view desk.new) }
{
    let ready = compiled_ready(alloc, desk, source, datapath)?;
    Ok(run_ready(ready, desk, samples, output)?)
}
