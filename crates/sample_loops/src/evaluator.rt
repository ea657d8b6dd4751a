//! The evaluator of a graph over a stream of samples.
ghost use Rattle.std.specs.Prelude.{◌≡◌, ◌≤◌, ◌^◌, [], IfErr, OnOk};
ghost use Rattle.desk_core.specs.Desk.{FaultsNeverFall};
ghost use Rattle.sample_io.specs.Channels.{IsRow};
ghost use Rattle.sample_io.specs.Pieces.{HasTaken};
ghost use Rattle.sample_loops.specs.Evaluators.{graph_channels, EvaluatesRows, SolvesRows};
ghost use Rattle.sample_loops.specs.Streams.{IsRunThrough, IsStopped, IsKept, ChangesOutputAlone};

use crate::engine::Engine;
use crate::stream::{StreamFault, run_all};
use desk_core::Desk;
use equation_eval::Evaluator;
use micro_image::Conflict;
use sample_io::Rows;

impl Engine for Evaluator {
    ghost use Rattle.sample_loops.specs.Private.EvaluatorLaws.{same_graph, same_on, evaluates_none, evaluates_more, evaluates_solves, no_conflict};

    ghost accepts = { λ evaluator row. IsRow (graph_channels evaluator.graph) row };

    ghost width = { λ evaluator. evaluator.graph.outs };

    ghost age = { λ evaluator. 0 };

    ghost ready = { λ evaluator. Unit {0} };

    ghost same = { λ old new. new.graph ≡ old.graph };

    ghost ran = { EvaluatesRows };

    ghost gives = { SolvesRows };

    ghost meets = { λ old rows conflict new. ⊥ };

    fn outs(&self) -> usize {
        self.outs()
    }

    fn step(&mut self, row: &[i64], put: &mut [i64]) -> Result<(), Conflict> {
        prove_eq!(put.len(), self.outs());
        self.step(row, put);
        Ok(())
    }

    ghost same_self = { same_graph };

    ghost same_on = { same_on };

    ghost none_ran = { evaluates_none };

    ghost ran_on = { evaluates_more };

    ghost ran_gives = { evaluates_solves };

    ghost meets_later = { no_conflict };
}

/// Evaluates the rows of the desk's current input, from its start to its end, writes the rows that the evaluator puts
/// to the current output, and closes it (docs/SAMPLES.md). `rows` is fresh, for the evaluator's input words, and
/// `limit` is the least number of bytes that are too many, at most 2^32. The input is read in pieces of at most 4,096
/// bytes, and what the rows of a piece put is written before the next is read.
///
/// A line that is no row and `limit` bytes end the evaluation: the output then has the rows of the samples before, and
/// is closed, where the close does not fail. After a failed call of the desk it has a prefix of them. The rows keep
/// their fault. There is no conflict, and no memory is taken.
pub fn eval_stream<D: Desk>(
    evaluator: &mut Evaluator,
    rows: &mut Rows,
    desk: &mut D,
    limit: u64,
) -> Result<(), StreamFault>
    requires channels { rows.old.channels ≡ graph_channels evaluator.old.graph }
    requires fresh { HasTaken rows.old [] [] }
    requires start { (D.view desk.old).place ≡ 0 }
    requires limit { limit ≤ 2 ^ 32 }
    ensures never_fall { FaultsNeverFall (D.view desk.old) (D.view desk.new) }
    ensures only { ChangesOutputAlone (D.view desk.old) (D.view desk.new) }
    ensures graph { evaluator.new.graph ≡ evaluator.old.graph }
    ensures channels { rows.new.channels ≡ rows.old.channels }
    ensures kept { IfErr result (IsKept rows.new) }
    ensures ok { OnOk result (IsRunThrough limit (graph_channels evaluator.old.graph)
        (λ ran puts. EvaluatesRows evaluator.old ran puts evaluator.new) (D.view desk.old) (D.view desk.new)) }
    ensures err { IfErr result (IsStopped limit (graph_channels evaluator.old.graph)
        (SolvesRows evaluator.old) (λ ran conflict. ⊥) (D.view desk.old) (D.view desk.new)) }
{
    run_all(evaluator, rows, desk, limit)
}
