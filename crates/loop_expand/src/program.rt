//! The flat program of a program.

ghost use Rattle.std.specs.Prelude.{◌≡◌, ◌≤◌, ◌↔◌, IfOk};
ghost use Rattle.lists.specs.Rows.{Rows};
ghost use Rattle.silage_syntax.specs.Tree.{Program};
ghost use Rattle.silage_meaning.specs.Rules.{HasNoDelaylessLoop};
ghost use Rattle.silage_meaning.specs.Solves.{IsStream};
ghost use Rattle.element_rules.specs.ElementRules.{elements_of};
ghost use Rattle.element_rules.specs.Sizes.{AreSized};
ghost use Rattle.type_rules.specs.TypedTree.{view_func, view_typed};
ghost use Rattle.signal_graph.specs.Flat.{view};
ghost use Rattle.signal_graph.specs.FlatRules.{IsFlat};
ghost use Rattle.signal_graph.specs.FlatSolves.{IsFlatLoopless};
ghost use Rattle.loop_expand.specs.Expanded.{AreOf, AreOfOneProgram};
ghost use Rattle.loop_expand.specs.FlatOf.{IsFlatOf};
ghost use Rattle.loop_expand.specs.Kept.{KeepsSolutions};
ghost use Rattle.loop_expand.specs.Private.Elements as is;
ghost use Rattle.loop_expand.specs.Private.Elements.{view_elems};
ghost use Rattle.loop_expand.specs.Private.Expansions.{elements_by, flat_by};
ghost use Rattle.loop_expand.specs.Private.Scopes.{view_bodies};
ghost use Rattle.loop_expand.specs.Private.Sizes.{decls_of};
ghost use Rattle.loop_expand.specs.Private.Sites.{AreOfProgram};

use crate::body::Body;
use crate::elements::{all_types, first_elements, put_types};
use crate::fault::ExpandFault;
use crate::functions::bodies;
use crate::instances::{expand_all, firsts};
use crate::lookups::instance_body;
use element_rules::{Elements, Instance};
use fix_word::SigType;
use lists::List;
use name_rules::element_count;
use signal_graph::{FlatElem, FlatProgram};
use silage_syntax::Decl;
use std::alloc::{AllocError, AllocFailed, Global};
use type_rules::{Typed, TypedConst, TypedFunc};

/// How many elements declarations have.
fn count(decls: &[Decl]) -> u32
    requires sized { AreSized decls.now }
    requires few { elements_of decls.now ≤ 8192 }
    ensures { result ≡ elements_of decls.now }
{
    let mut all = 0;
    for decl in decls {
        all += element_count(&decl.dims);
    }
    all
}

/// The numbers of the elements of main's results.
fn outs(alloc: Global, main: &TypedFunc) -> Result<List<u32>, AllocError>
    requires sized { AreSized (decls_of (view_func main.now)) }
    requires few { elements_of (decls_of (view_func main.now)) ≤ 8192 }
    ensures { IfOk result (λ outs. outs ≡ is.outs_of (view_func main.now)) }
{
    let first = count(&main.params);
    let mut outs = List::new(alloc);
    for k in 0..count(&main.results) {
        outs.push(first + k)?;
    }
    Ok(outs)
}

fn input_types(alloc: Global, main: &TypedFunc) -> Result<List<SigType>, AllocError>
    requires { AreSized (decls_of (view_func main.now)) }
    ensures { IfOk result (λ types. types ≡ is.inputs_of (view_func main.now)) }
{
    let mut types = List::new(alloc);
    put_types(&mut types, &main.params)?;
    Ok(types)
}

/// The elements of all instances.
fn all_elements(
    alloc: Global,
    tables: &[TypedConst],
    bodies: &[Body],
    instances: &[Instance],
    inputs: usize,
) -> Result<Vec<FlatElem>, AllocError>
    requires of { AreOfProgram tables.now (view_bodies bodies.now) instances.now }
    requires inputs { inputs ≤ 16 }
    ensures { IfOk result (λ elems. view_elems elems.items
        ≡ elements_by tables.now (view_bodies bodies.now) instances.now inputs) }
{
    let firsts = firsts(alloc, bodies, instances)?;
    let types = all_types(alloc, bodies, instances)?;
    let mut elems = first_elements(alloc, inputs, &types)?;
    expand_all(alloc, tables, bodies, instances, &firsts, &mut elems)?;
    Ok(elems)
}

/// The types of main's parameters, and the numbers of the elements of its results.
fn words(alloc: Global, main: &TypedFunc) -> Result<(List<SigType>, List<u32>), AllocError>
    requires sized { AreSized (decls_of (view_func main.now)) }
    requires few { elements_of (decls_of (view_func main.now)) ≤ 8192 }
    ensures { IfOk result (λ words. (words.0 ≡ is.inputs_of (view_func main.now))
        × (words.1 ≡ is.outs_of (view_func main.now))) }
{
    Ok((input_types(alloc, main)?, outs(alloc, main)?))
}

/// The flat program of instances, of which the first is main's.
fn flat_program(
    alloc: Global,
    typed: &Typed,
    elements: &Elements,
) -> Result<FlatProgram, AllocError>
    requires { AreOfOneProgram typed.now elements.now }
    ensures { IfOk result (λ f. view f ≡ flat_by (view_typed typed.now) elements.now.instances) }
{
    let instances = &elements.instances;
    let bodies = bodies(alloc, &typed.funcs, instances)?;
    let (inputs, outs) = words(alloc, instance_body(&bodies, instances, 0).func)?;
    let elems = all_elements(alloc, &typed.consts, &bodies, instances, inputs.len())?;
    Ok(FlatProgram {
        elems: List::from_vec(elems),
        inputs,
        outs,
    })
}

/// The flat program of a program that passed the checks, by its typed program and its elements: its calls and loops
/// expanded, with one equation for each element. Page `docs/GRAPH.md`, "Expansion". Fails where memory runs out.
///
/// The clauses `ok` of `check_names`, `check_defs` and `check_types` say that a program has no fault of theirs. The
/// clause `typed` of `check_types` gives the typed program, and `elements` of `check_defs` the elements. What is asked
/// of the source besides follows from its tokens: `short_numbers` of `fix_types`, `calls_apart` of `silage_meaning`,
/// `own_positions` and `parameters_and_results` of this crate.
pub fn expand(alloc: Global, typed: &Typed, elements: &Elements) -> Result<FlatProgram, ExpandFault>
    requires { AreOfOneProgram typed.now elements.now }
    ensures flat { IfOk result (λ f. (p : Program) → AreOf p typed.now elements.now
        → IsFlatOf p elements.now (view f)) }
    ensures keeps { IfOk result (λ f. (p : Program) (stream : Rows) → AreOf p typed.now elements.now
        → IsStream p stream → KeepsSolutions p elements.now (view f) stream) }
    ensures loops { IfOk result (λ f. (p : Program) → AreOf p typed.now elements.now
        → HasNoDelaylessLoop p ↔ IsFlatLoopless (view f)) }
    ensures sound { IfOk result (λ f. IsFlat (view f)) }
{
    Ok(flat_program(alloc, typed, elements)?)
}
