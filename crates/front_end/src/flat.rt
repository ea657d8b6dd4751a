//! The flat program of a program that passed the checks. Page `docs/GRAPH.md`.

ghost use Rattle.std.specs.Prelude.{◌≡◌, IfOk, IfErr};
ghost use Rattle.signal_graph.specs.Flat.{view};
ghost use Rattle.silage_syntax.specs.Tree.{Program as Tree};
ghost use Rattle.loop_expand.specs.Expanded.{AreOf, AreOfOneProgram};
ghost use Rattle.loop_expand.specs.FlatOf.{IsFlatOf};
ghost use Rattle.source_faults.specs.declared.fault.FrontError.TheVariants.{Memory};
ghost use Rattle.front_end.specs.Private.Checks.{IsFlatFor, IsLoopError};

use element_rules::Elements;
use flow_graph::check_loops;
use loop_expand::expand;
use signal_graph::FlatProgram;
use source_faults::FrontError;
use std::alloc::Global;
use type_rules::Typed;

/// The flat program of a program.
fn flat_of(alloc: Global, typed: &Typed, elements: &Elements) -> Result<FlatProgram, FrontError>
    requires { AreOfOneProgram typed.now elements.now }
    ensures flat { IfOk result (λ f. (p : Tree) → AreOf p typed.now elements.now → IsFlatOf p elements.now (view f)) }
    ensures err { IfErr result (λ error. error ≡ Memory) }
{
    match expand(alloc, typed, elements) {
        Ok(flat) => Ok(flat),
        Err(_) => Err(FrontError::Memory),
    }
}

/// The flat program of a program; or the first element of the program that depends on itself without a delay.
pub(crate) fn loopless_flat(
    alloc: Global,
    typed: &Typed,
    elements: &Elements,
) -> Result<FlatProgram, FrontError>
    requires { AreOfOneProgram typed.now elements.now }
    ensures ok { IfOk result (λ f. (p : Tree) → AreOf p typed.now elements.now → IsFlatFor p (view f)) }
    ensures err { IfErr result (λ error. (p : Tree) → AreOf p typed.now elements.now → IsLoopError p error) }
{
    let flat = flat_of(alloc, typed, elements)?;
    check_loops(alloc, &flat)?;
    Ok(flat)
}
