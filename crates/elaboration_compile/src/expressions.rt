//! What is checked of expressions, and their load.

ghost use Rattle.std.specs.Prelude.{◌≡◌, ◌≤◌, ◌++◌, map, length, All, IsSomeAnd, OnOk, Option};
ghost use Rattle.silage_syntax.specs.Tree.{view_place, view_delay, view_expr};
ghost use Rattle.element_rules.specs.ElementRules as rules;
ghost use Rattle.elaboration_code.specs.ItemActions.{viewed};
ghost use Rattle.elaboration_code.specs.ItemActions as spec;
ghost use Rattle.elaboration_compile.specs.Private.Scopes.{program_of, function_of};
ghost use Rattle.elaboration_code.specs.KnownIndices.{AreKnown, IsKnownDelay};
ghost use Rattle.elaboration_compile.specs.Private.Names.{HasReads};

use crate::checks::{manifest_at, put, put_number, put_subscripts};
use crate::lookups::readable;
use crate::scope::Scope;
use elaboration_code::Action;
use element_rules::PlacedFault;
use lists::Name;
use silage_syntax::{Expr, Manifest, Place};
use std::alloc::{AllocError, Global};

/// The widest shift, in bits.
const MAX_SHIFT: i64 = 31;

pub(crate) fn put_count(load: u32, at: u32, actions: &mut Vec<Action>) -> Result<(), AllocError>
    ensures { OnOk result (viewed actions.new ≡ viewed actions.old ++ spec.actions_of_count load at) }
{
    if load == 0 {
        return Ok(());
    }
    put(actions, Action::Count { load, at })
}

/// Appends the check of a delay.
fn put_delay(
    alloc: Global,
    loops: &[Name],
    delay: &Option<Manifest>,
    most: i64,
    actions: &mut Vec<Action>,
) -> Result<(), AllocError>
    requires { IsKnownDelay loops.now (view_delay delay.now) }
    ensures { OnOk result (viewed actions.new ≡ viewed actions.old
        ++ spec.amount_checks loops.now (spec.allowed most) (view_delay delay.now)) }
{
    match delay {
        None => Ok(()),
        Some(m) => put_number(
            alloc,
            loops,
            m,
            0,
            most,
            PlacedFault::Delay(manifest_at(m)),
            actions,
        ),
    }
}

/// Appends the checks of a read.
fn put_read(
    scope: &Scope,
    loops: &[Name],
    place: &Place,
    delay: &Option<Manifest>,
    actions: &mut Vec<Action>,
) -> Result<(), AllocError>
    requires known { AreKnown loops.now (view_place place.now).subs }
    requires delay { IsKnownDelay loops.now (view_delay delay.now) }
    requires read { IsSomeAnd (rules.readable (program_of scope.now) (function_of scope.now) place.now.name)
        (λ r. length (view_place place.now).subs ≤ length r.0) }
    ensures { OnOk result (viewed actions.new ≡ viewed actions.old
        ++ spec.read_checks loops.now
        (rules.readable (program_of scope.now) (function_of scope.now) place.now.name) (view_place place.now)
        (view_delay delay.now)) }
{
    let (dims, most) = readable(scope, &place.name);
    put_subscripts(scope.alloc, loops, dims, &place.subs, actions)?;
    put_delay(scope.alloc, loops, delay, most, actions)
}

/// Appends the checks of an expression, from left to right.
pub(crate) fn put_expr(
    scope: &Scope,
    loops: &[Name],
    e: &Expr,
    actions: &mut Vec<Action>,
) -> Result<(), AllocError>
    requires reads { HasReads (program_of scope.now) (function_of scope.now) loops.now (view_expr e.now) }
    ensures { OnOk result (viewed actions.new ≡ viewed actions.old
        ++ spec.expr_checks (program_of scope.now) (function_of scope.now) loops.now (view_expr e.now)) }
{
    match e {
        Expr::Lit(_) => Ok(()),
        Expr::Read { place, delay } => put_read(scope, loops, place, delay, actions),
        Expr::Negate(_, part) => put_expr(scope, loops, part, actions),
        Expr::Not(_, part) => put_expr(scope, loops, part, actions),
        Expr::Binary(_, _, left, right) => {
            put_expr(scope, loops, left, actions)?;
            put_expr(scope, loops, right, actions)
        }
        Expr::Shift(_, _, part, amount) => {
            put_expr(scope, loops, part, actions)?;
            let outside = PlacedFault::Shift(manifest_at(amount));
            put_number(scope.alloc, loops, amount, 0, MAX_SHIFT, outside, actions)
        }
        Expr::Cast(_, _, part) => put_expr(scope, loops, part, actions),
        Expr::Choose(_, arms, last) => {
            let arms = arms.as_slice();
            for arm in arms {
                put_expr(scope, loops, &arm.0, actions)?;
                put_expr(scope, loops, &arm.1, actions)?;
            }
            put_expr(scope, loops, last, actions)
        }
    }
}

pub(crate) fn put_args(
    scope: &Scope,
    loops: &[Name],
    args: &[Expr],
    actions: &mut Vec<Action>,
) -> Result<(), AllocError>
    requires reads { All (HasReads (program_of scope.now) (function_of scope.now) loops.now) (map view_expr args.now) }
    ensures { OnOk result (viewed actions.new ≡ viewed actions.old
        ++ spec.arg_checks (program_of scope.now) (function_of scope.now) loops.now (map view_expr args.now)) }
{
    for arg in args {
        put_expr(scope, loops, arg, actions)?;
    }
    Ok(())
}
