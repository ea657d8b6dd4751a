//! Items: equations, calls, loops and initial values.

ghost use Rattle.std.specs.Prelude.{◌≡◌, ℕ, List, All, Some, map, slice_get, min, IfOk, IsSome};
ghost use Rattle.fault_order.specs.Rules.{parts};
ghost use Rattle.fault_order.specs.Private.FirstMet.{first};
ghost use Rattle.silage_syntax.specs.Tree as tree;
ghost use Rattle.silage_syntax.specs.Tree.{view_expr, view_place, view_manifest, view_func};
ghost use Rattle.silage_syntax.specs.declared.tree.Decl.{Decl as DeclOf};
ghost use Rattle.silage_meaning.specs.Types as meaning;
ghost use Rattle.silage_syntax.specs.Names.{function_named};
ghost use Rattle.type_rules.specs.TypeRules.{against, literal_rules, expr_rules};
ghost use Rattle.type_rules.specs.TypeRules.{argument_rules, place_rules, call_rules};
ghost use Rattle.type_rules.specs.Translation as typed;
ghost use Rattle.type_rules.specs.Translation.{typed_against, initial_word, typed_arguments};
ghost use Rattle.type_rules.specs.TypedTree.{view_item, view_items};
ghost use Rattle.type_rules.specs.TypedTree as typed_tree;
ghost use Rattle.type_rules.specs.Numbers.{IsShort};
ghost use Rattle.fix_types.specs.Private.Answers.{Gives, GivesAs, GivesItem, GivesItems};
ghost use Rattle.fix_types.specs.Private.Scopes.{program_of, function_of};
ghost use Rattle.type_rules.specs.Private.Sound.{IsSound, IsSoundItem, AreSoundItems, HasType, HasTypedReads, HasTypedNames, HaveTypedNames, IsSoundType};

use crate::copies;
use crate::expressions::typed;
use crate::lookups::type_of;
use crate::operands::{check_name, literal_word};
use crate::scope::Scope;
use lists::Name;
use silage_syntax::{Decl, Expr, Func, Item, Lit, Manifest, Place};
use std::alloc::AllocError;
use type_rules::{TypeFault, TypedExpr, TypedItem};

/// A right side against the type of the place.
fn right_side(scope: &Scope, place: &Place, value: &Expr) -> Result<TypedExpr, TypeFault>
    requires target { HasType (program_of scope.now) (function_of scope.now) (view_place place.now) }
    requires sound { IsSound (view_expr value.now) }
    requires reads { HasTypedReads (program_of scope.now) (function_of scope.now) (view_expr value.now) }
    ensures { let p = program_of scope.now in let f = function_of scope.now in let x = view_expr value.now in
        let ty = meaning.name_type p f (view_place place.now).name in
        Gives (against (expr_rules p f x) ty) (typed_against (typed.typed_expr p f x) ty) result }
{
    typed(scope, value, type_of(scope, &place.name))
}

fn equation(scope: &Scope, place: &Place, value: &Expr) -> Result<TypedItem, TypeFault>
    requires target { HasType (program_of scope.now) (function_of scope.now) (view_place place.now) }
    requires sound { IsSound (view_expr value.now) }
    requires reads { HasTypedReads (program_of scope.now) (function_of scope.now) (view_expr value.now) }
    ensures { GivesItem (program_of scope.now) (function_of scope.now)
        (tree.equation (view_place place.now) (view_expr value.now)) result }
{
    let value = right_side(scope, place, value)?;
    Ok(TypedItem::Equation {
        place: copies::place(scope.alloc, place)?,
        value,
    })
}

/// The raw word of an initial value in the type of the place.
fn first_word(scope: &Scope, place: &Place, value: &Lit) -> Result<i64, TypeFault>
    requires target { HasType (program_of scope.now) (function_of scope.now) (view_place place.now) }
    requires short { IsShort value.now }
    ensures { let p = program_of scope.now in let f = function_of scope.now in
        let ty = meaning.name_type p f (view_place place.now).name in
        GivesAs (λ word. word) (against (literal_rules value.now) ty) (initial_word p f value.now ty) result }
{
    literal_word(value, type_of(scope, &place.name))
}

fn initial(scope: &Scope, place: &Place, k: &Manifest, value: &Lit) -> Result<TypedItem, TypeFault>
    requires target { HasType (program_of scope.now) (function_of scope.now) (view_place place.now) }
    requires short { IsShort value.now }
    ensures { GivesItem (program_of scope.now) (function_of scope.now)
        (tree.initial (view_place place.now) (view_manifest k.now) value.now) result }
{
    let raw = first_word(scope, place, value)?;
    Ok(TypedItem::Initial {
        place: copies::place(scope.alloc, place)?,
        k: copies::manifest(scope.alloc, k)?,
        raw,
    })
}

fn shorter(a: usize, b: usize) -> usize
    ensures { result ≡ min a b }
{
    if a <= b { a } else { b }
}

/// Each argument against the type of its parameter.
fn arguments(scope: &Scope, params: &[Decl], args: &[Expr]) -> Result<Vec<TypedExpr>, TypeFault>
    requires params { (k : ℕ) (d : DeclOf) → slice_get params.now k ≡ Some d → IsSoundType d.ty }
    requires args { All IsSound (map view_expr args.now) }
    requires reads { All (HasTypedReads (program_of scope.now) (function_of scope.now)) (map view_expr args.now) }
    ensures { let p = program_of scope.now in let f = function_of scope.now in
        GivesAs (λ typed. map typed_tree.view_expr typed.items)
        (parts (argument_rules p f params.now (map view_expr args.now)))
        (typed_arguments p f params.now (map view_expr args.now)) result }
{
    let mut all = Vec::with_capacity(scope.alloc, args.len())?;
    for i in 0..shorter(params.len(), args.len()) {
        all.push(typed(scope, &args[i], params[i].ty)?)?;
    }
    Ok(all)
}

/// The name of each place against the type of its result.
fn check_places(scope: &Scope, results: &[Decl], places: &[Place]) -> Result<(), TypeFault>
    requires { All (HasType (program_of scope.now) (function_of scope.now)) (map view_place places.now) }
    ensures { result ≡ first (parts (place_rules (program_of scope.now) (function_of scope.now) results.now
        (map view_place places.now))) }
{
    for i in 0..shorter(results.len(), places.len()) {
        let place = &places[i];
        check_name(type_of(scope, &place.name), results[i].ty, place.at)?;
    }
    Ok(())
}

/// The arguments of a call, once its places are checked behind them.
fn called(
    scope: &Scope,
    callee: &Func,
    places: &[Place],
    args: &[Expr],
) -> Result<Vec<TypedExpr>, TypeFault>
    requires params { (k : ℕ) (d : DeclOf) → slice_get callee.now.params k ≡ Some d → IsSoundType d.ty }
    requires places { All (HasType (program_of scope.now) (function_of scope.now)) (map view_place places.now) }
    requires args { All IsSound (map view_expr args.now) }
    requires reads { All (HasTypedReads (program_of scope.now) (function_of scope.now)) (map view_expr args.now) }
    ensures { let p = program_of scope.now in let f = function_of scope.now in
        GivesAs (λ typed. map typed_tree.view_expr typed.items)
        (call_rules p f (Some (view_func callee.now)) (map view_place places.now) (map view_expr args.now))
        (typed_arguments p f callee.now.params (map view_expr args.now)) result }
{
    let args = arguments(scope, &callee.params, args)?;
    check_places(scope, &callee.results, places)?;
    Ok(args)
}

/// A call: its arguments, then its places.
fn call(
    scope: &Scope,
    places: &[Place],
    func: &Name,
    args: &[Expr],
    at: u32,
) -> Result<TypedItem, TypeFault>
    requires callee { IsSome (function_named (program_of scope.now) func.now) }
    requires places { All (HasType (program_of scope.now) (function_of scope.now)) (map view_place places.now) }
    requires args { All IsSound (map view_expr args.now) }
    requires reads { All (HasTypedReads (program_of scope.now) (function_of scope.now)) (map view_expr args.now) }
    ensures { GivesItem (program_of scope.now) (function_of scope.now)
        (tree.call (map view_place places.now) func.now (map view_expr args.now) at) result }
{
    let (position, callee) = scope.tops.callee(func);
    let args = called(scope, callee, places, args)?;
    Ok(TypedItem::Call {
        places: copies::places(scope.alloc, places)?,
        func: position,
        args,
        at,
    })
}

fn loop_of(index: Name, lo: Manifest, hi: Manifest, items: Vec<TypedItem>) -> TypedItem
    ensures { view_item result
        ≡ typed_tree.loop index (view_manifest lo) (view_manifest hi) (view_items items.items) }
{
    TypedItem::Loop {
        index,
        lo,
        hi,
        items,
    }
}

fn looped(
    scope: &Scope,
    index: &Name,
    lo: &Manifest,
    hi: &Manifest,
    items: Vec<TypedItem>,
) -> Result<TypedItem, AllocError>
    ensures { IfOk result (λ x. view_item x
        ≡ typed_tree.loop index.now (view_manifest lo.now) (view_manifest hi.now) (view_items items.items)) }
{
    let index = index.clone()?;
    let lo = copies::manifest(scope.alloc, lo)?;
    let hi = copies::manifest(scope.alloc, hi)?;
    Ok(loop_of(index, lo, hi, items))
}

fn typed_item(scope: &Scope, item: &Item) -> Result<TypedItem, TypeFault>
    requires typed { HasTypedNames (program_of scope.now) (function_of scope.now) (tree.view_item item.now) }
    requires sound { IsSoundItem (tree.view_item item.now) }
    ensures { GivesItem (program_of scope.now) (function_of scope.now) (tree.view_item item.now) result }
{
    match item {
        Item::Equation { place, value } => equation(scope, place, value),
        Item::Call {
            places,
            func,
            args,
            at,
        } => call(scope, places, func, args, *at),
        Item::Loop {
            index,
            lo,
            hi,
            items,
            at: _,
        } => {
            let items = items.as_slice();
            let mut all = Vec::with_capacity(scope.alloc, items.len())?;
            for item in items {
                all.push(typed_item(scope, item)?)?;
            }
            Ok(looped(scope, index, lo, hi, all)?)
        }
        Item::Initial { place, k, value } => initial(scope, place, k, value),
    }
}

/// The items of a function, in their order.
pub(crate) fn typed_items(scope: &Scope, items: &[Item]) -> Result<Vec<TypedItem>, TypeFault>
    requires typed { HaveTypedNames (program_of scope.now) (function_of scope.now) (tree.view_items items.now) }
    requires items { AreSoundItems (tree.view_items items.now) }
    ensures { GivesItems (program_of scope.now) (function_of scope.now) (tree.view_items items.now) result }
{
    let mut all = Vec::with_capacity(scope.alloc, items.len())?;
    for item in items {
        all.push(typed_item(scope, item)?)?;
    }
    Ok(all)
}
