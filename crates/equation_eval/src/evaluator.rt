//! The evaluator, which callers see as its graph and the rows that it ran.
ghost use Rattle.std.specs.Prelude.{◌≡◌, ◌+◌, ◌%◌, ◌<◌, [], ◌∷◌, ◌++◌, length, IfOk};
ghost use Rattle.std.specs.List.{AllZip};
ghost use Rattle.lists.specs.Rows.{Rows};
ghost use Rattle.signal_graph.specs.GraphRules.{IsGraph};
ghost use Rattle.signal_graph.specs.GraphSolves.{IsGraphLoopless, IsOneGraphSolution};
ghost use Rattle.signal_graph.specs.Rules.{IsInType};
ghost use Rattle.signal_graph.specs.Values.{Words};
ghost use Rattle.equation_eval.specs.Evaluation.{IsOutputRow};

use crate::layout::lay_out;
use crate::memory::{PERIOD, Source};
use crate::order::order_of;
use crate::program::{Instruction, outputs_of, program_of};
use crate::ran::past_of;
use crate::run::{put_outputs, run};
use fix_word::SigType;
use ghost_lists::Past;
use lists::List;
use operations::Operand;
use signal_graph::Graph;
use std::alloc::{AllocError, Global};
use std::marker::Model;
use std::snapshot::Snapshot;
use thiserror::Error;

/// An evaluator of a graph: it takes rows of input words, one a sample, and gives rows of output words. It remembers
/// the words that later samples read.
#[derive(Drop)]
pub struct Evaluator {
    inputs: List<SigType>,
    program: List<Instruction>,
    outputs: List<Source>,
    phase: u32,
    memory: List<Operand>,
    // The graph and the rows that were run: clauses alone read them.
    graph: Snapshot<Graph>,
    ran: Past<Past<i64>>,
}

impl Model for Evaluator {
    ghost use Rattle.equation_eval.specs.Evaluation.{Evaluation};

    ghost Value = { Evaluation };

    ghost use Rattle.equation_eval.specs.Private.Stands.{evaluation, IsEvaluator};

    ghost view = { evaluation };

    ghost invariant = { IsEvaluator };
}

/// Why there is no evaluator of a graph.
#[derive(Debug, Clone, Copy, PartialEq, Eq, Drop, Error)]
pub enum EvalFault {
    /// Out of memory.
    #[error("no memory")]
    Memory,
}

impl From<AllocError> for EvalFault {
    ghost use Rattle.std.specs.Prelude.{◌≡◌};
    ghost use Rattle.equation_eval.specs.declared.evaluator.EvalFault.TheVariants.{Memory};

    ghost from_gives = { λ _ fault. fault ≡ Memory };

    fn from(_: AllocError) -> EvalFault {
        EvalFault::Memory
    }
}

/// The phase after this one.
fn next_phase(phase: u32) -> u32
    requires { phase < PERIOD }
    ensures { result ≡ (phase + 1) % 1024 }
{
    if phase + 1 == PERIOD { 0 } else { phase + 1 }
}

fn made(alloc: Global, graph: &Graph) -> Result<Evaluator, AllocError>
    requires graph { IsGraph graph.now }
    requires loopless { IsGraphLoopless graph.now }
    ensures graph { IfOk result (λ evaluator. evaluator.graph ≡ graph.now) }
    ensures ran { IfOk result (λ evaluator. evaluator.ran ≡ []) }
{
    let order = order_of(alloc, graph)?;
    let (rings, memory) = lay_out(alloc, graph)?;
    let program = program_of(alloc, graph, &rings, &order)?;
    let outputs = outputs_of(alloc, graph, &rings)?;
    let inputs = List::from_slice(alloc, graph.inputs.as_slice())?;
    Ok(Evaluator {
        inputs,
        program,
        outputs,
        phase: 0,
        memory,
        graph: Snapshot::of(graph),
        ran: Past::none(),
    })
}

impl Evaluator {
    /// An evaluator of the graph before sample 0. It has a copy of what it needs of the graph.
    ///
    /// # Errors
    ///
    /// `Memory` where no memory is left.
    pub fn new(alloc: Global, graph: &Graph) -> Result<Evaluator, EvalFault>
        requires graph { IsGraph graph.now }
        requires loopless { IsGraphLoopless graph.now }
        ensures graph { IfOk result (λ evaluator. evaluator.graph ≡ graph.now) }
        ensures ran { IfOk result (λ evaluator. evaluator.ran ≡ []) }
        ensures one_solution { (stream : Rows) → (words : Words) × IsOneGraphSolution graph.now stream words }
    {
        Ok(made(alloc, graph)?)
    }

    /// Takes the row of input words of the next sample, each in the range of its type, and puts the row of output
    /// words. It takes no memory.
    pub fn step(&mut self, row: &[i64], put: &mut [i64])
        requires row { AllZip IsInType self.old.graph.inputs row.now }
        requires put { length put.old ≡ self.old.graph.outs }
        ensures graph { self.new.graph ≡ self.old.graph }
        ensures ran { self.new.ran ≡ self.old.ran ++ row.now ∷ [] }
        ensures puts { IsOutputRow self.old row.now put.new }
    {
        run(
            &self.inputs,
            &self.program,
            row,
            self.phase,
            &mut self.memory,
        );
        put_outputs(&self.outputs, self.phase, &self.memory, put);
        self.phase = next_phase(self.phase);
        self.ran.push(&past_of(row));
    }

    /// The type of each input word.
    pub fn inputs(&self) -> &[SigType]
        ensures types { result.now ≡ self.now.graph.inputs }
        ensures sound { IsGraph self.now.graph }
        ensures loopless { IsGraphLoopless self.now.graph }
    {
        self.inputs.as_slice()
    }

    /// How many output words there are.
    pub fn outs(&self) -> usize
        ensures count { result ≡ self.now.graph.outs }
        ensures sound { IsGraph self.now.graph }
        ensures loopless { IsGraphLoopless self.now.graph }
    {
        self.outputs.len()
    }
}
