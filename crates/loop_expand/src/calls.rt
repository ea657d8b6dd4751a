//! Calls: the parameters of the instance that a call makes, and what takes its results.

ghost use Rattle.std.specs.Prelude.{◌≡◌, ◌<◌, ◌≤◌, ℕ, ◌+◌, length, map, false, true, slice_get};
ghost use Rattle.std.specs.Prelude.{Some, IsSome, MatchOption, IfSome, OnOk};
ghost use Rattle.signal_graph.specs.Flat as flat_program;
ghost use Rattle.signal_graph.specs.Flat.{view_expr};
ghost use Rattle.silage_syntax.specs.Tree.{view_place};
ghost use Rattle.silage_meaning.specs.Instances.{turns_of};
ghost use Rattle.element_rules.specs.declared.elements.Instance.{Instance as InstanceOf};
ghost use Rattle.type_rules.specs.TypedTree as typed;
ghost use Rattle.loop_expand.specs.Private.Children.{AreApart, is_child, child_of};
ghost use Rattle.loop_expand.specs.Private.Elements.{Puts};
ghost use Rattle.loop_expand.specs.Private.Facts as is;
ghost use Rattle.loop_expand.specs.Private.Known.{HasElements, IsNamedArray, IsKnownArgument, AreKnownArguments};
ghost use Rattle.loop_expand.specs.Private.Known.{IsKnownTaker, AreKnownTakers, IsKnownCall};
ghost use Rattle.loop_expand.specs.Private.Scopes.{view_signal, view_signals, view_bodies, body_at, total};
ghost use Rattle.loop_expand.specs.Private.Scopes.{Body as CalleeBody};
ghost use Rattle.loop_expand.specs.Private.Sites.{IsItemOf};
ghost use Rattle.loop_expand.specs.Private.Views.{view_scope};

use crate::body::Signal;
use crate::elements::define;
use crate::expressions::{flat, target, word_at};
use crate::lookups::{first_of, instance_body, signal, table};
use crate::scope::Scope;
use crate::turns::is_turn;
use element_rules::Instance;
use name_rules::{Env, element_count};
use signal_graph::{FlatElem, FlatExpr};
use silage_syntax::Place;
use std::alloc::AllocError;
use type_rules::{TypedConst, TypedExpr};

/// A read of an element at the same sample.
fn read_now(elem: u32) -> FlatExpr
    ensures { view_expr result ≡ flat_program.read elem 0 }
{
    FlatExpr::Read { elem, delay: 0 }
}

/// Gives each of so many elements the value of another one.
fn copy(elems: &mut [FlatElem], to: u32, from: u32, count: u32)
    requires few { length elems.old ≤ 8192 }
    requires to { to + count ≤ length elems.old }
    requires from { from + count ≤ length elems.old }
    ensures { Puts (is.copies to from count) elems.old elems.new }
{
    for k in 0..count {
        define(elems, to + k, read_now(from + k));
    }
}

/// Gives each of so many elements a number of a table.
fn copy_numbers(elems: &mut [FlatElem], to: u32, table: &TypedConst, count: u32)
    requires few { length elems.old ≤ 8192 }
    requires to { to + count ≤ length elems.old }
    requires numbers { count ≤ length table.now.words }
    ensures { Puts (is.numbers to table.now count) elems.old elems.new }
{
    for k in 0..count {
        define(elems, to + k, FlatExpr::Raw(word_at(table, k)));
    }
}

/// An array parameter, by the name that is its argument.
fn pass_array(scope: &Scope, elems: &mut [FlatElem], to: u32, count: u32, place: &Place)
    requires elements { length elems.old ≡ total (view_scope scope.now) }
    requires to { to + count ≤ length elems.old }
    requires array { IsNamedArray (view_scope scope.now) place.now.name count }
    ensures { Puts (is.passed_named (view_scope scope.now) (view_place place.now) to count) elems.old elems.new }
{
    match signal(scope.signals, &place.name) {
        Some(signal) => copy(elems, to, scope.first + signal.first, count),
        None => copy_numbers(elems, to, table(scope.tables, &place.name), count),
    }
}

/// A parameter of an instance whose first element has this number.
fn pass(
    scope: &Scope,
    env: &Env,
    elems: &mut [FlatElem],
    first: u32,
    param: Signal,
    arg: &TypedExpr,
) -> Result<(), AllocError>
    requires elements { length elems.old ≡ total (view_scope scope.now) }
    requires known { IsKnownArgument (view_scope scope.now) env.now first (view_signal param)
        (typed.view_expr arg.now) }
    ensures { OnOk result (Puts (is.passed (view_scope scope.now) env.now first (view_signal param.entry)
        (typed.view_expr arg.now)) elems.old elems.new) }
{
    let to = first + param.first;
    if param.decl.dims.is_empty() {
        define(elems, to, flat(scope, env, arg)?);
        return Ok(());
    }
    match arg {
        TypedExpr::Read { place, delay: _ } => {
            pass_array(scope, elems, to, element_count(&param.decl.dims), place);
            Ok(())
        }
        _ => unreachable!(),
    }
}

fn pass_all(
    scope: &Scope,
    env: &Env,
    elems: &mut [FlatElem],
    first: u32,
    params: &[Signal],
    args: &[TypedExpr],
) -> Result<(), AllocError>
    requires elements { length elems.old ≡ total (view_scope scope.now) }
    requires count { length args.now ≤ length params.now }
    requires known { AreKnownArguments (view_scope scope.now) env.now first (view_signals params.now)
        (map typed.view_expr args.now) }
    ensures { OnOk result (Puts (is.all_passed (view_scope scope.now) env.now first (view_signals params.now)
        (map typed.view_expr args.now)) elems.old elems.new) }
{
    for k in 0..args.len() {
        pass(scope, env, elems, first, params[k], &args[k])?;
    }
    Ok(())
}

/// An array that takes a result whose elements begin with this number.
fn take_array(scope: &Scope, elems: &mut [FlatElem], from: u32, count: u32, place: &Place)
    requires elements { length elems.old ≡ total (view_scope scope.now) }
    requires from { from + count ≤ length elems.old }
    requires some { IsSome (is.signal_named (view_scope scope.now).signals place.now.name) }
    requires to { HasElements (view_scope scope.now) place.now.name count }
    ensures { Puts (is.taken_named (view_scope scope.now) (view_place place.now) from count) elems.old elems.new }
{
    match signal(scope.signals, &place.name) {
        None => unreachable!(),
        Some(signal) => copy(elems, scope.first + signal.first, from, count),
    }
}

/// What takes a result of an instance whose first element has this number.
fn take(scope: &Scope, env: &Env, elems: &mut [FlatElem], first: u32, taken: Signal, place: &Place)
    requires elements { length elems.old ≡ total (view_scope scope.now) }
    requires known { IsKnownTaker (view_scope scope.now) env.now first (view_signal taken) (view_place place.now) }
    ensures { Puts (is.taken (view_scope scope.now) env.now first (view_signal taken.entry) (view_place place.now))
        elems.old elems.new }
{
    let from = first + taken.first;
    if taken.decl.dims.is_empty() {
        define(elems, target(scope, env, place), read_now(from));
    } else {
        take_array(scope, elems, from, element_count(&taken.decl.dims), place);
    }
}

fn take_all(
    scope: &Scope,
    env: &Env,
    elems: &mut [FlatElem],
    first: u32,
    results: &[Signal],
    places: &[Place],
)
    requires elements { length elems.old ≡ total (view_scope scope.now) }
    requires count { length places.now ≤ length results.now }
    requires known { AreKnownTakers (view_scope scope.now) env.now first (view_signals results.now)
        (map view_place places.now) }
    ensures { Puts (is.all_taken (view_scope scope.now) env.now first (view_signals results.now)
        (map view_place places.now)) elems.old elems.new }
{
    for k in 0..places.len() {
        take(scope, env, elems, first, results[k], &places[k]);
    }
}

/// Whether an instance is made by the call at this position, in these turns, in the instance with this number.
fn is_made(instance: &Instance, parent: u32, at: u32, env: &Env) -> bool
    ensures { result ≡ is_child parent at (turns_of env.now) instance.now }
{
    instance.parent == parent && instance.site == at && is_turn(&instance.turns, env.as_slice())
}

/// The first instance from a number on that the call makes.
fn child_from(instances: &[Instance], from: usize, parent: u32, at: u32, env: &Env) -> Option<usize>
    ensures { MatchOption result
        ((k : ℕ) (i : InstanceOf) → from ≤ k → slice_get instances.now k ≡ Some i
        → is_child parent at (turns_of env.now) i ≡ false)
        (λ k. (i : InstanceOf) × (from ≤ k) × (slice_get instances.now k ≡ Some i)
        × (is_child parent at (turns_of env.now) i ≡ true)) }
{
    for k in from..instances.len() {
        if is_made(&instances[k], parent, at, env) {
            return Some(k);
        }
    }
    None
}

/// The instance that the call makes, if it makes one. The calls of a loop stand in the order of their instances, so a
/// search for the next one begins behind the one that was entered last.
fn found_child(
    instances: &[Instance],
    last: usize,
    parent: u32,
    at: u32,
    env: &Env,
) -> Option<usize>
    requires { AreApart instances.now }
    ensures is { result ≡ child_of parent at (turns_of env.now) instances.now }
    ensures within { IfSome result (λ k. k < length instances.now) }
{
    match child_from(instances, last.saturating_add(1), parent, at, env) {
        Some(child) => Some(child),
        None => child_from(instances, 1, parent, at, env),
    }
}

/// The instance that the call makes.
fn child(instances: &[Instance], last: usize, parent: u32, at: u32, env: &Env) -> usize
    requires apart { AreApart instances.now }
    requires some { IsSome (child_of parent at (turns_of env.now) instances.now) }
    ensures is { Some result ≡ child_of parent at (turns_of env.now) instances.now }
    ensures within { result < length instances.now }
{
    match found_child(instances, last, parent, at, env) {
        Some(child) => child,
        None => unreachable!(),
    }
}

/// The places and arguments of the call that makes this instance.
fn bind(
    scope: &Scope,
    env: &Env,
    elems: &mut [FlatElem],
    child: usize,
    places: &[Place],
    args: &[TypedExpr],
) -> Result<(), AllocError>
    requires elements { length elems.old ≡ total (view_scope scope.now) }
    requires child { child < length scope.now.instances.now }
    requires known { (b : CalleeBody)
        → body_at (view_bodies scope.now.bodies.now) (slice_get scope.now.instances.now child) ≡ Some b
        → IsKnownCall (view_scope scope.now) env.now child b (map view_place places.now)
        (map typed.view_expr args.now) }
    ensures { OnOk result (Puts (is.bound (view_scope scope.now) env.now child (map view_place places.now)
        (map typed.view_expr args.now)) elems.old elems.new) }
{
    let callee = instance_body(scope.bodies, scope.instances, child);
    let first = first_of(scope.firsts, child);
    pass_all(scope, env, elems, first, &callee.signals, args)?;
    take_all(scope, env, elems, first, &callee.results, places);
    Ok(())
}

/// The call at this position.
pub(crate) fn call(
    scope: &Scope,
    env: &Env,
    last: &mut usize,
    elems: &mut [FlatElem],
    at: u32,
    places: &[Place],
    args: &[TypedExpr],
) -> Result<(), AllocError>
    requires elements { length elems.old ≡ total (view_scope scope.now) }
    requires of { (func : ℕ) × IsItemOf (view_scope scope.now) env.now
        (typed.call (map view_place places.now) func (map typed.view_expr args.now) at) }
    ensures { OnOk result (Puts (is.called (view_scope scope.now) env.now at (map view_place places.now)
        (map typed.view_expr args.now)) elems.old elems.new) }
{
    let child = child(scope.instances, *last, scope.number, at, env);
    *last = child;
    bind(scope, env, elems, child, places, args)
}
