//! Items as actions.

ghost use Rattle.std.specs.Prelude.{◌≡◌, ◌++◌, [], ◌∷◌, All, IsTrue, IfOk, OnOk, map, length};
ghost use Rattle.silage_syntax.specs.Tree.{view_manifest, view_place, view_expr, view_item, view_items};
ghost use Rattle.name_rules.specs.Meanings.{are_dims};
ghost use Rattle.elaboration_code.specs.Actions as run;
ghost use Rattle.elaboration_code.specs.Actions.{view_action};
ghost use Rattle.elaboration_code.specs.ItemActions as spec;
ghost use Rattle.elaboration_code.specs.ItemActions.{viewed, actions_of_item, actions_of_items};
ghost use Rattle.elaboration_compile.specs.Private.Scopes.{program_of, function_of, located_in};
ghost use Rattle.elaboration_code.specs.KnownIndices.{IsKnown, AreKnown};
ghost use Rattle.elaboration_compile.specs.Private.Names.{IsElementOf, IsCallee, HasReads, HasNames, HaveNames};

use crate::checks::{manifest_at, put};
use crate::expressions::{put_args, put_count, put_expr};
use crate::lookups::located;
use crate::places::{put_takers, put_target, target};
use crate::scope::Scope;
use crate::weights::{args_weight, weight};
use elaboration_code::{Action, Bound, Number, Sample};
use lists::Name;
use silage_syntax::{Expr, Item, Manifest, Place};
use std::alloc::AllocError;

/// Appends a call.
fn put_call(
    scope: &Scope,
    loops: &[Name],
    places: &[Place],
    func: &Name,
    args: &[Expr],
    at: u32,
    actions: &mut Vec<Action>,
) -> Result<(), AllocError>
    requires callee { IsCallee (program_of scope.now) (function_of scope.now) loops.now func.now
        (map view_place places.now) }
    requires reads { All (HasReads (program_of scope.now) (function_of scope.now) loops.now) (map view_expr args.now) }
    ensures { OnOk result (viewed actions.new ≡ viewed actions.old
        ++ spec.actions_of_call (program_of scope.now) (function_of scope.now) loops.now
        (spec.callee_of (program_of scope.now) func.now) (map view_place places.now) (map view_expr args.now)
        at) }
{
    let (position, callee) = scope.tops.callee(func);
    put_takers(scope, loops, &callee.results, places, actions)?;
    put_args(scope, loops, args, actions)?;
    put_count(args_weight(args), at, actions)?;
    put(actions, Action::Enter { func: position, at })
}

/// Appends the initial value of an element of an array with these dims.
fn put_value(
    scope: &Scope,
    loops: &[Name],
    first: u32,
    dims: &[u32],
    place: &Place,
    k: &Manifest,
    actions: &mut Vec<Action>,
) -> Result<(), AllocError>
    requires known { AreKnown loops.now (view_place place.now).subs }
    requires amount { IsKnown loops.now (view_manifest k.now) }
    requires sized { IsTrue (are_dims dims.now) }
    requires element { length dims.now ≡ length (view_place place.now).subs }
    ensures { OnOk result (viewed actions.new ≡ viewed actions.old
        ++ spec.actions_of_value loops.now first dims.now (view_place place.now) (view_manifest k.now)) }
{
    let target = target(scope.alloc, loops, first, dims, place)?;
    let sample = Sample {
        number: Number::of(scope.alloc, loops, k)?,
        at: manifest_at(k),
    };
    put(actions, Action::Preset(target, sample))
}

fn put_initial(
    scope: &Scope,
    loops: &[Name],
    place: &Place,
    k: &Manifest,
    actions: &mut Vec<Action>,
) -> Result<(), AllocError>
    requires known { AreKnown loops.now (view_place place.now).subs }
    requires amount { IsKnown loops.now (view_manifest k.now) }
    requires element { IsElementOf (function_of scope.now) (view_place place.now) }
    ensures { OnOk result (viewed actions.new ≡ viewed actions.old
        ++ spec.actions_of_initial loops.now (located_in scope.now place.now.name) (view_place place.now)
        (view_manifest k.now)) }
{
    let (first, decl) = located(scope, &place.name);
    put_value(scope, loops, first, &decl.dims, place, k, actions)?;
    put(
        actions,
        Action::Count {
            load: 1,
            at: place.at,
        },
    )
}

/// Whether a loop has no turn, whatever the indices of the loops around it.
fn is_empty(lo: &Number, hi: &Number) -> bool
    ensures { result ≡ spec.is_empty lo.now hi.now }
{
    match (lo, hi) {
        (Number::Known(Some(first)), Number::Known(Some(last))) => last < first,
        _ => false,
    }
}

fn bound(scope: &Scope, loops: &[Name], m: &Manifest) -> Result<Bound, AllocError>
    requires { IsKnown loops.now (view_manifest m.now) }
    ensures { IfOk result (λ bound. bound ≡ spec.bound_at loops.now (view_manifest m.now)) }
{
    Ok(Bound {
        number: Number::of(scope.alloc, loops, m)?,
        at: manifest_at(m),
    })
}

fn repeat(lo: Bound, hi: Bound, actions: Vec<Action>, at: u32) -> Action
    ensures { view_action result ≡ run.repeat lo hi (run.actions_of (viewed actions)) at }
{
    Action::Repeat {
        lo,
        hi,
        actions,
        at,
    }
}

/// Appends a loop.
fn put_loop(
    lo: Bound,
    hi: Bound,
    inner: Vec<Action>,
    at: u32,
    actions: &mut Vec<Action>,
) -> Result<(), AllocError>
    ensures { OnOk result (viewed actions.new ≡ viewed actions.old ++ spec.actions_of_loop lo hi (viewed inner) at) }
{
    if is_empty(&lo.number, &hi.number) {
        return Ok(());
    }
    put(actions, repeat(lo, hi, inner, at))
}

/// The names of the loops around a place, and of one inside of them.
fn with_loop(loops: &[Name], index: &Name, scope: &Scope) -> Result<Vec<Name>, AllocError>
    ensures { IfOk result (λ inner. inner.items ≡ loops.now ++ index.now ∷ []) }
{
    let mut inner = Vec::with_capacity(scope.alloc, loops.len() + 1)?;
    for name in loops {
        inner.push(name.clone()?)?;
    }
    inner.push(index.clone()?)?;
    Ok(inner)
}

fn put_item(
    scope: &Scope,
    loops: &[Name],
    item: &Item,
    actions: &mut Vec<Action>,
) -> Result<(), AllocError>
    requires names { HasNames (program_of scope.now) (function_of scope.now) loops.now (view_item item.now) }
    ensures { OnOk result (viewed actions.new ≡ viewed actions.old
        ++ actions_of_item (program_of scope.now) (function_of scope.now) loops.now (view_item item.now)) }
{
    match item {
        Item::Equation { place, value } => {
            put_target(scope, loops, place, actions)?;
            put_expr(scope, loops, value, actions)?;
            put_count(weight(value), place.at, actions)
        }
        Item::Call {
            places,
            func,
            args,
            at,
        } => put_call(scope, loops, places, func, args, *at, actions),
        Item::Loop {
            index,
            lo,
            hi,
            items,
            at,
        } => {
            let lo = bound(scope, loops, lo)?;
            let hi = bound(scope, loops, hi)?;
            let loops = with_loop(loops, index, scope)?;
            let items = items.as_slice();
            let mut inner = Vec::with_capacity(scope.alloc, items.len())?;
            for item in items {
                put_item(scope, &loops, item, &mut inner)?;
            }
            put_loop(lo, hi, inner, *at, actions)
        }
        Item::Initial { place, k, value: _ } => put_initial(scope, loops, place, k, actions),
    }
}

pub(crate) fn put_items(
    scope: &Scope,
    loops: &[Name],
    items: &[Item],
    actions: &mut Vec<Action>,
) -> Result<(), AllocError>
    requires names { HaveNames (program_of scope.now) (function_of scope.now) loops.now (view_items items.now) }
    ensures { OnOk result (viewed actions.new ≡ viewed actions.old
        ++ actions_of_items (program_of scope.now) (function_of scope.now) loops.now (view_items items.now)) }
{
    for item in items {
        put_item(scope, loops, item, actions)?;
    }
    Ok(())
}
