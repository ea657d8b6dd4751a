//! A machine over a stream of samples.
ghost use Rattle.std.specs.Prelude.{◌≡◌, ◌*◌, ◌/◌, ◌<◌, ◌≤◌, ◌^◌, [], IfErr, OnOk};
ghost use Rattle.desk_core.specs.Desk.{FaultsNeverFall};
ghost use Rattle.sample_io.specs.Channels.{IsRow};
ghost use Rattle.sample_io.specs.Pieces.{HasTaken};
ghost use Rattle.cycle_sim.specs.Machine.{state_of};
ghost use Rattle.cycle_sim.specs.Microcode.{micro_of, inputs_of};
ghost use Rattle.sample_loops.specs.Machines.{channels_of, IsReady, RunsRows, PutsRows, StopsInLast};
ghost use Rattle.sample_loops.specs.Streams.{IsRunThrough, IsStopped, IsKept, ChangesOutputAlone};

use crate::engine::Engine;
use crate::stream::{StreamFault, run_all};
use cycle_sim::Machine;
use desk_core::Desk;
use micro_image::Conflict;
use sample_io::Rows;

impl Engine for Machine {
    ghost use Rattle.sample_loops.specs.Private.MachineLaws.{MachineRuns, MachinePuts, MachineStops, same_code, same_on, machine_none, machine_more, machine_clear, machine_stops};

    ghost accepts = { λ machine row. IsRow (channels_of (inputs_of machine.code)) row };

    ghost width = { λ machine. (micro_of machine.code).outs };

    ghost age = { λ machine. machine.cycle / (micro_of machine.code).period };

    ghost ready = { λ machine. IsReady (micro_of machine.code) (state_of machine) };

    ghost same = { λ old new. new.code ≡ old.code };

    ghost ran = { MachineRuns };

    ghost gives = { MachinePuts };

    ghost meets = { MachineStops };

    fn outs(&self) -> usize {
        self.outs()
    }

    fn step(&mut self, row: &[i64], put: &mut [i64]) -> Result<(), Conflict> {
        prove_eq!(put.len(), self.outs());
        self.sample(row, put)
    }

    ghost same_self = { same_code };

    ghost same_on = { same_on };

    ghost none_ran = { machine_none };

    ghost ran_on = { machine_more };

    ghost ran_gives = { machine_clear };

    ghost meets_later = { machine_stops };
}

/// Runs the machine over the rows of the desk's current input, from its start to its end, writes the rows that it puts
/// to the current output, and closes it (docs/SAMPLES.md). The machine is at the start of a sample, `rows` is fresh,
/// for the machine's input words, and `limit` is the least number of bytes that are too many, at most 2^32. The input
/// is read in pieces of at most 4,096 bytes, and what the rows of a piece put is written before the next is read.
///
/// A line that is no row, a conflict and `limit` bytes end the run: the output then has the rows of the samples before,
/// and is closed, where the close does not fail. After a failed call of the desk it has a prefix of them. The machine
/// keeps its conflict, and the rows their fault. No memory is taken.
pub fn run_stream<D: Desk>(
    machine: &mut Machine,
    rows: &mut Rows,
    desk: &mut D,
    limit: u64,
) -> Result<(), StreamFault>
    requires ready { IsReady (micro_of machine.old.code) (state_of machine.old) }
    requires young { machine.old.cycle < 2 ^ 47 * (micro_of machine.old.code).period }
    requires channels { rows.old.channels ≡ channels_of (inputs_of machine.old.code) }
    requires fresh { HasTaken rows.old [] [] }
    requires start { (D.view desk.old).place ≡ 0 }
    requires limit { limit ≤ 2 ^ 32 }
    ensures never_fall { FaultsNeverFall (D.view desk.old) (D.view desk.new) }
    ensures only { ChangesOutputAlone (D.view desk.old) (D.view desk.new) }
    ensures code { machine.new.code ≡ machine.old.code }
    ensures channels { rows.new.channels ≡ rows.old.channels }
    ensures kept { IfErr result (IsKept rows.new) }
    ensures ok { OnOk result (IsRunThrough limit (channels_of (inputs_of machine.old.code))
        (λ ran puts. RunsRows (micro_of machine.old.code) (state_of machine.old) ran puts (state_of machine.new))
        (D.view desk.old) (D.view desk.new)) }
    ensures err { IfErr result (IsStopped limit (channels_of (inputs_of machine.old.code))
        (PutsRows (micro_of machine.old.code) (state_of machine.old))
        (λ ran conflict. StopsInLast (micro_of machine.old.code) (state_of machine.old) ran conflict (state_of machine.new))
        (D.view desk.old) (D.view desk.new)) }
{
    run_all(machine, rows, desk, limit)
}
