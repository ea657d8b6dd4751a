//! The elements that places name.

ghost use Rattle.std.specs.Prelude.{◌≡◌, ◌++◌, [], map, length, IsTrue, IfOk, OnOk};
ghost use Rattle.silage_syntax.specs.Tree.{view_manifest, view_place};
ghost use Rattle.name_rules.specs.Meanings.{are_dims};
ghost use Rattle.elaboration_code.specs.ItemActions.{viewed};
ghost use Rattle.elaboration_code.specs.ItemActions as spec;
ghost use Rattle.elaboration_compile.specs.Private.Scopes.{function_of, located_in};
ghost use Rattle.elaboration_code.specs.KnownIndices.{AreKnown};
ghost use Rattle.elaboration_compile.specs.Private.Names.{IsElementOf, IsSignalOf, Takes, TakeEach};

use crate::checks::{manifest_at, put};
use crate::lookups::located;
use crate::scope::Scope;
use elaboration_code::{Action, Number, Subscript, Target};
use lists::{List, Name};
use name_rules::element_count;
use silage_syntax::{Decl, Manifest, Place};
use std::alloc::{AllocError, Global};

fn push_subscripts(
    alloc: Global,
    loops: &[Name],
    dims: &[u32],
    subs: &[Manifest],
    subscripts: &mut List<Subscript>,
) -> Result<(), AllocError>
    requires known { AreKnown loops.now (map view_manifest subs.now) }
    requires sized { IsTrue (are_dims dims.now) }
    requires each { length dims.now ≡ length subs.now }
    ensures { OnOk result (subscripts.new
        ≡ subscripts.old ++ spec.subscripts loops.now dims.now (map view_manifest subs.now)) }
{
    match dims {
        [] => Ok(()),
        [dim, dims @ ..] => match subs {
            [] => unreachable!(),
            [sub, subs @ ..] => {
                subscripts.push(Subscript {
                    number: Number::of(alloc, loops, sub)?,
                    at: manifest_at(sub),
                    dim: *dim,
                    stride: element_count(dims),
                })?;
                push_subscripts(alloc, loops, dims, subs, subscripts)
            }
        },
    }
}

/// The element of an array with these dims that a place names.
pub(crate) fn target(
    alloc: Global,
    loops: &[Name],
    first: u32,
    dims: &[u32],
    place: &Place,
) -> Result<Target, AllocError>
    requires known { AreKnown loops.now (view_place place.now).subs }
    requires sized { IsTrue (are_dims dims.now) }
    requires each { length dims.now ≡ length (view_place place.now).subs }
    ensures first { IfOk result (λ target. target.first ≡ first) }
    ensures subs { IfOk result (λ target. target.subs
        ≡ spec.subscripts loops.now dims.now (view_place place.now).subs) }
    ensures at { IfOk result (λ target. target.at ≡ place.now.at) }
{
    let mut subs = List::new(alloc);
    push_subscripts(alloc, loops, dims, &place.subs, &mut subs)?;
    Ok(Target {
        first,
        subs,
        at: place.at,
    })
}

/// Appends the definition of the element that a place names.
pub(crate) fn put_target(
    scope: &Scope,
    loops: &[Name],
    place: &Place,
    actions: &mut Vec<Action>,
) -> Result<(), AllocError>
    requires known { AreKnown loops.now (view_place place.now).subs }
    requires element { IsElementOf (function_of scope.now) (view_place place.now) }
    ensures { OnOk result (viewed actions.new ≡ viewed actions.old
        ++ spec.actions_of_target loops.now (located_in scope.now place.now.name) (view_place place.now)) }
{
    let (first, decl) = located(scope, &place.name);
    let target = target(scope.alloc, loops, first, &decl.dims, place)?;
    put(actions, Action::Define(target))
}

/// Appends the definitions of the elements of the array that a place names.
fn put_array(scope: &Scope, place: &Place, actions: &mut Vec<Action>) -> Result<(), AllocError>
    requires signal { IsSignalOf (function_of scope.now) (view_place place.now) }
    ensures { OnOk result (viewed actions.new ≡ viewed actions.old
        ++ spec.actions_of_array (located_in scope.now place.now.name) (view_place place.now)) }
{
    let (first, decl) = located(scope, &place.name);
    put(
        actions,
        Action::DefineAll {
            first,
            count: element_count(&decl.dims),
            at: place.at,
        },
    )
}

/// Appends the definitions of what takes a result.
fn put_taker(
    scope: &Scope,
    loops: &[Name],
    taken: &Decl,
    place: &Place,
    actions: &mut Vec<Action>,
) -> Result<(), AllocError>
    requires takes { Takes (function_of scope.now) loops.now taken.now (view_place place.now) }
    ensures { OnOk result (viewed actions.new ≡ viewed actions.old
        ++ spec.actions_of_taker (function_of scope.now) loops.now taken.now (view_place place.now)) }
{
    if taken.dims.is_empty() {
        put_target(scope, loops, place, actions)
    } else {
        put_array(scope, place, actions)
    }
}

pub(crate) fn put_takers(
    scope: &Scope,
    loops: &[Name],
    results: &[Decl],
    places: &[Place],
    actions: &mut Vec<Action>,
) -> Result<(), AllocError>
    requires all { length results.now ≡ length places.now }
    requires take { TakeEach (function_of scope.now) loops.now results.now (map view_place places.now) }
    ensures { OnOk result (viewed actions.new ≡ viewed actions.old
        ++ spec.actions_of_takers (function_of scope.now) loops.now results.now (map view_place places.now)) }
{
    for i in 0..results.len() {
        put_taker(scope, loops, &results[i], &places[i], actions)?;
    }
    Ok(())
}
