//! `eval SRC SAMPLES OUT`: from the bytes of a source and samples to the output rows of the source's one solution.
ghost use Rattle.std.specs.Prelude.{◌≡◌, ◌≢◌, ◌≤◌, ◌^◌, [], ◌∷◌, map, IfOk, IfErr};
ghost use Rattle.std.specs.List.{All};
ghost use Rattle.desk_core.specs.Desk.{FaultsNeverFall};
ghost use Rattle.sample_io.specs.Channels.{IsChannel};
ghost use Rattle.sample_io.specs.Pieces.{HasTaken};
ghost use Rattle.sample_loops.specs.Evaluators.{channel_width, type_channel, graph_channels, EvaluatesRows, SolvesRows};
ghost use Rattle.sample_loops.specs.Streams.{ChangesOutputAlone, IsKept};
ghost use Rattle.signal_graph.specs.GraphRules.{IsGraph};
ghost use Rattle.signal_graph.specs.GraphSolves.{IsGraphLoopless};
ghost use Rattle.signal_graph.specs.Rules.{IsType};
ghost use Rattle.silage_syntax.specs.Tree.{view};
ghost use Rattle.silc_files.specs.Endings.{IsAmong, UsesOnly};
ghost use Rattle.silc_files.specs.Reading.{OnlyReads};
ghost use Rattle.sample_commands.specs.Eval.{IsEvalAnswer};
ghost use Rattle.sample_commands.specs.StreamEnds.{status_of, EndsStream};
ghost use Rattle.sample_commands.specs.Private.Evaluating.{IsSourceRead, IsSourceError, IsEvaluatorOf, IsEvalOver};
ghost use Rattle.sample_commands.specs.Streaming.{StreamsOnly};
ghost use Rattle.statuses.specs.declared.status.Status.TheVariants.{Memory};

use crate::streams::{SAMPLES_END, open_files, stream_status};
use desk_core::Desk;
use equation_eval::Evaluator;
use fix_word::SigType;
use front_end::{Accepted, accept};
use lists::List;
use sample_io::{Channel, Rows};
use sample_loops::eval_stream;
use signal_graph::Graph;
use silc_files::{Input, read_input};
use source_faults::FrontFault;
use statuses::{Ending, Status};
use std::alloc::{AllocError, Global};

/// An evaluator before its first sample, and the rows that its samples are read into.
#[derive(Drop)]
struct Ready {
    evaluator: Evaluator,
    rows: Rows,
}

/// Reads SRC, and makes the graph of its program.
fn read_source<D: Desk>(alloc: Global, desk: &mut D, name: &str) -> Result<Accepted, Ending>
    ensures reads { OnlyReads (IsAmong (name.now ∷ [])) (D.view desk.old) (D.view desk.new) }
    ensures ok { IfOk result (λ accepted.
        IsSourceRead name.now (D.view desk.old) (D.view desk.new) (view accepted.program) accepted.graph) }
    ensures err { IfErr result (λ ending. IsSourceError name.now (D.view desk.old) (D.view desk.new) ending.status) }
{
    let Input::Whole(source) = read_input(alloc, desk, name)? else {
        return Err(Ending::from(Status::FrontEnd(FrontFault::TooLong)));
    };
    Ok(accept(alloc, source.as_slice())?)
}

/// The bits of the type's words in a sample file; 0 for `bool`.
fn word_width(ty: SigType) -> u8
    ensures { result ≡ channel_width ty }
{
    match ty {
        SigType::Fix(ty) => ty.shape.w,
        SigType::Bool => 0,
    }
}

/// The channel of each input word.
fn type_channels(alloc: Global, types: &[SigType]) -> Result<List<Channel>, AllocError>
    requires { All IsType types.now }
    ensures channels { IfOk result (λ channels. channels ≡ map type_channel types.now) }
    ensures each { IfOk result (λ channels. All IsChannel channels) }
{
    let mut channels = List::new(alloc);
    for ty in types {
        channels.push(Channel::of(word_width(*ty)))?;
    }
    Ok(channels)
}

/// The evaluator of the graph before its first sample, and the rows that its samples are read into.
fn ready_for(alloc: Global, graph: &Graph) -> Result<Ready, Status>
    requires sound { IsGraph graph.now }
    requires loopless { IsGraphLoopless graph.now }
    ensures graph { IfOk result (λ ready. ready.evaluator.graph ≡ graph.now) }
    ensures ran { IfOk result (λ ready. ready.evaluator.ran ≡ []) }
    ensures channels { IfOk result (λ ready. ready.rows.channels ≡ graph_channels graph.now) }
    ensures fresh { IfOk result (λ ready. HasTaken ready.rows [] []) }
    ensures err { IfErr result (λ status. status ≡ Memory) }
{
    let channels = type_channels(alloc, &graph.inputs)?;
    let rows = Rows::new(alloc, &channels)?;
    let evaluator = Evaluator::new(alloc, graph)?;
    Ok(Ready { evaluator, rows })
}

/// Reads SRC, and takes all memory that an evaluation of its program needs.
fn read_ready<D: Desk>(alloc: Global, desk: &mut D, source: &str) -> Result<Ready, Ending>
    ensures reads { OnlyReads (IsAmong (source.now ∷ [])) (D.view desk.old) (D.view desk.new) }
    ensures evaluator { IfOk result (λ ready.
        IsEvaluatorOf source.now (D.view desk.old) (D.view desk.new) ready.evaluator) }
    ensures channels { IfOk result (λ ready. ready.rows.channels ≡ graph_channels ready.evaluator.graph) }
    ensures fresh { IfOk result (λ ready. HasTaken ready.rows [] []) }
    ensures err { IfErr result (λ ending.
        IsSourceError source.now (D.view desk.old) (D.view desk.new) ending.status) }
{
    let accepted = read_source(alloc, desk, source)?;
    Ok(ready_for(alloc, &accepted.graph)?)
}

/// Evaluates the rows of the desk's current input, writes the rows of output words to the current output, and closes it
/// (docs/SAMPLES.md). `rows` is fresh, for the evaluator's input words, `outs` is how many output words it has, and
/// `limit` is the least number of bytes that are too many, at most 2^32.
///
/// `Samples` with the place where a line is no row, or `TooLong` at `limit` bytes, ends the evaluation: the output then
/// has the rows of the samples before, and is closed, where the close does not fail. After `Desk`, where a call of the
/// desk failed, it has a prefix of them. The rows keep their fault. No memory is taken.
pub fn eval_samples<D: Desk>(
    evaluator: &mut Evaluator,
    rows: &mut Rows,
    outs: usize,
    desk: &mut D,
    limit: u64,
) -> Status
    requires outs { outs ≡ evaluator.old.graph.outs }
    requires channels { rows.old.channels ≡ graph_channels evaluator.old.graph }
    requires fresh { HasTaken rows.old [] [] }
    requires start { (D.view desk.old).place ≡ 0 }
    requires limit { limit ≤ 2 ^ 32 }
    ensures never_fall { FaultsNeverFall (D.view desk.old) (D.view desk.new) }
    ensures only { ChangesOutputAlone (D.view desk.old) (D.view desk.new) }
    ensures graph { evaluator.new.graph ≡ evaluator.old.graph }
    ensures channels { rows.new.channels ≡ rows.old.channels }
    ensures kept { (fault : _) → result ≡ status_of fault → IsKept rows.new fault }
    ensures ends { EndsStream limit (graph_channels evaluator.old.graph)
        (λ ran puts. EvaluatesRows evaluator.old ran puts evaluator.new) (SolvesRows evaluator.old)
        (λ ran conflict. ⊥) (D.view desk.old) (D.view desk.new) result }
{
    prove_eq!(outs, evaluator.outs());
    match eval_stream(evaluator, rows, desk, limit) {
        Ok(()) => Status::Done,
        Err(fault) => stream_status(fault),
    }
}

/// Evaluates SAMPLES into OUT.
fn eval_ready<D: Desk>(ready: Ready, desk: &mut D, samples: &str, output: &str) -> Status
    requires apart { output.now ≢ samples.now }
    requires channels { ready.rows.channels ≡ graph_channels ready.evaluator.graph }
    requires fresh { HasTaken ready.rows [] [] }
    ensures faults { FaultsNeverFall (D.view desk.old) (D.view desk.new) }
    ensures only { StreamsOnly samples.now output.now (D.view desk.old) (D.view desk.new) }
    ensures over { IsEvalOver samples.now output.now ready.evaluator (D.view desk.old) (D.view desk.new) result }
{
    let Ready {
        mut evaluator,
        mut rows,
    } = ready;
    match open_files(desk, samples, output) {
        Ok(()) => {
            let outs = evaluator.outs();
            eval_samples(&mut evaluator, &mut rows, outs, desk, SAMPLES_END)
        }
        Err(failed) => Status::from(failed),
    }
}

/// Carries out `eval`.
pub fn eval<D: Desk>(
    alloc: Global,
    desk: &mut D,
    source: &str,
    samples: &str,
    output: &str,
) -> Ending
    requires { output.now ≢ samples.now }
    ensures faults { FaultsNeverFall (D.view desk.old) (D.view desk.new) }
    ensures answer { IsEvalAnswer source.now samples.now output.now (D.view desk.old) (D.view desk.new) result.status }
    ensures only { UsesOnly (IsAmong (source.now ∷ samples.now ∷ [])) output.now
        (D.view desk.old) (D.view desk.new) }
{
    match read_ready(alloc, desk, source) {
        Ok(ready) => Ending::from(eval_ready(ready, desk, samples, output)),
        Err(ending) => ending,
    }
}
