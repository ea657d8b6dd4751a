//! From the bytes of a source to its program, with its flat program or its graph.

ghost use Rattle.std.specs.Prelude.{◌≡◌, ◌≤◌, length, None, IfOk, IfErr};
ghost use Rattle.silage_syntax.specs.Tree.{Program as Tree, view};
ghost use Rattle.silage_meaning.specs.Solves.{output_types};
ghost use Rattle.signal_graph.specs.Flat as flat_program;
ghost use Rattle.signal_graph.specs.FlatRules.{IsFlat};
ghost use Rattle.signal_graph.specs.FlatSolves.{IsFlatLoopless};
ghost use Rattle.signal_graph.specs.GraphRules.{IsGraph};
ghost use Rattle.signal_graph.specs.GraphSolves.{IsGraphLoopless};
ghost use Rattle.loop_expand.specs.InTypes.{flat_output_types, HasTypedSolutions};
ghost use Rattle.loop_expand.specs.KeepsProgram.{KeepsProgramSolutions};
ghost use Rattle.front_end.specs.Answers.{IsFrontError, AnswersProgram, AnswersFlat, AnswersFault};
ghost use Rattle.front_end.specs.Places.{IsLineOf, IsAbout};
ghost use Rattle.front_end.specs.Rejections.{HasLine, HasElement};
ghost use Rattle.source_faults.specs.Faults.{source_limit, IsRead, HasProgram, IsFrontFault};
ghost use Rattle.front_end.specs.ProgramFlat.{IsProgramFlat, KeepsFlatProgram};
ghost use Rattle.front_end.specs.GraphOf.{IsProgramGraph};
ghost use Rattle.source_faults.specs.declared.fault.FrontFault.{FrontFault as FaultType};

use crate::checks::checked_flat;
use crate::rejection::{lex_rejection, no_memory, parse_rejection, reject};
use flow_graph::pruned_graph;
use signal_graph::{FlatProgram, Graph};
use silage_lex::lex;
use silage_parse::parse;
use silage_syntax::Program;
use source_faults::{FrontFault, Rejection};
use std::alloc::Global;

/// The most bytes of a source.
const SOURCE_LIMIT: usize = 1 << 20;

/// A source that has a program.
#[derive(Drop)]
pub struct Accepted {
    pub program: Program,
    /// The graph of its flat program, without the nodes from which no output is reached.
    pub graph: Graph,
}

/// A source that has a program.
#[derive(Drop)]
pub struct AcceptedFlat {
    pub program: Program,
    /// Its flat program: one element for each scalar signal of an instance.
    pub flat: FlatProgram,
}

/// The program that the tokens of a source are.
fn read_program(alloc: Global, source: &[u8]) -> Result<Program, Rejection>
    requires { length source.now ≤ source_limit }
    ensures ok { IfOk result (λ program. IsRead source.now (view program)) }
    ensures err { IfErr result (λ rejection. IsFrontError source.now rejection.error) }
    ensures line { IfErr result (λ rejection. IsLineOf source.now rejection.error None rejection.line) }
    ensures about { IfErr result (λ rejection. (p : Tree) → IsAbout p rejection.error None) }
    ensures element { IfErr result (λ rejection. rejection.element ≡ None) }
{
    let tokens = match lex(alloc, source) {
        Ok(tokens) => tokens,
        Err(fault) => return Err(lex_rejection(source, fault)),
    };
    match parse(alloc, &tokens) {
        Ok(program) => Ok(program),
        Err(fault) => Err(parse_rejection(source, &tokens, fault)),
    }
}

/// The program of a source in which each name means something, each element is defined once, the types fit and no
/// element depends on itself without a delay; and its flat program. Fails with the first fault of the source, if it has
/// one, or where memory runs out. Pages `docs/LANGUAGE.md`, "What is no program", and `docs/GRAPH.md`.
pub fn accept_flat(alloc: Global, source: &[u8]) -> Result<AcceptedFlat, Rejection>
    ensures ok { IfOk result (λ accepted. HasProgram source.now (view accepted.program)) }
    ensures flat { IfOk result (λ accepted. IsProgramFlat (view accepted.program) (flat_program.view accepted.flat)) }
    ensures sound { IfOk result (λ accepted. IsFlat (flat_program.view accepted.flat)) }
    ensures loopless { IfOk result (λ accepted. IsFlatLoopless (flat_program.view accepted.flat)) }
    ensures keeps { IfOk result (λ accepted.
        KeepsFlatProgram (view accepted.program) (flat_program.view accepted.flat)) }
    ensures types { IfOk result (λ accepted. HasTypedSolutions (view accepted.program)) }
    ensures outputs { IfOk result (λ accepted.
        flat_output_types (flat_program.view accepted.flat) ≡ output_types (view accepted.program)) }
    ensures err { IfErr result (λ rejection. IsFrontError source.now rejection.error) }

    // Where the fault is, for a text that tells it.
    ensures line { IfErr result (HasLine source.now) }
    ensures element { IfErr result (HasElement source.now) }

    // What the source has is what the call answers, unless memory runs out.
    ensures each_program { (program : Tree) → HasProgram source.now program → AnswersFlat program result }
    ensures each_fault { (fault : FaultType) → IsFrontFault source.now fault → AnswersFault fault result }
{
    if source.len() > SOURCE_LIMIT {
        return Err(Rejection::from(FrontFault::TooLong));
    }
    let program = read_program(alloc, source)?;
    match checked_flat(alloc, &program) {
        Ok(flat) => Ok(AcceptedFlat { program, flat }),
        Err(finding) => Err(reject(source, program, finding)),
    }
}

/// What `accept_flat` gives, with the program's graph in the place of its flat program. Page `docs/GRAPH.md`.
pub fn accept(alloc: Global, source: &[u8]) -> Result<Accepted, Rejection>
    ensures ok { IfOk result (λ accepted. HasProgram source.now (view accepted.program)) }
    ensures graph { IfOk result (λ accepted. IsProgramGraph (view accepted.program) accepted.graph) }
    ensures sound { IfOk result (λ accepted. IsGraph accepted.graph) }
    ensures loopless { IfOk result (λ accepted. IsGraphLoopless accepted.graph) }
    ensures keeps { IfOk result (λ accepted. KeepsProgramSolutions (view accepted.program) accepted.graph) }
    ensures types { IfOk result (λ accepted. HasTypedSolutions (view accepted.program)) }
    ensures err { IfErr result (λ rejection. IsFrontError source.now rejection.error) }

    // Where the fault is, for a text that tells it.
    ensures line { IfErr result (HasLine source.now) }
    ensures element { IfErr result (HasElement source.now) }

    // What the source has is what the call answers, unless memory runs out.
    ensures each_program { (program : Tree) → HasProgram source.now program → AnswersProgram program result }
    ensures each_fault { (fault : FaultType) → IsFrontFault source.now fault → AnswersFault fault result }
{
    let accepted = accept_flat(alloc, source)?;
    match pruned_graph(alloc, &accepted.flat) {
        Ok(graph) => Ok(Accepted {
            program: accepted.program,
            graph,
        }),
        Err(_) => Err(no_memory()),
    }
}
