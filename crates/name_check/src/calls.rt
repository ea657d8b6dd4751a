//! Calls of functions.

ghost use Rattle.std.specs.Prelude.{◌≡◌, Option, map, length, slice_get, option_copied, option_map};
ghost use Rattle.fault_order.specs.Private.FirstMet.{first};
ghost use Rattle.silage_syntax.specs.Tree.{view_place, view_expr, view_func};
ghost use Rattle.silage_syntax.specs.Names.{function_named};
ghost use Rattle.name_rules.specs.Meanings as meaning;
ghost use Rattle.name_rules.specs.NameRules as rules;
ghost use Rattle.name_rules.specs.NameRules.{array_rules, argument_rules, callee_rules, places_rules, arguments_rules, call_rules};
ghost use Rattle.name_check.specs.Private.Views.{context_of};

use crate::context::Context;
use crate::expressions::check_expr;
use crate::indices::check_delay;
use crate::lookups::read_dims;
use crate::places::{check_place, check_taking, is_whole_array};
use lists::Name;
use name_rules::NameFault;
use silage_syntax::{Decl, Expr, Func, Lit, Place};

/// The source position of an expression.
fn expr_at(e: &Expr) -> u32
    ensures { result ≡ rules.expr_at (view_expr e.now) }
{
    match e {
        Expr::Lit(Lit::Number { at, .. } | Lit::Truth { at, .. }) => *at,
        Expr::Read { place, .. } => place.at,
        Expr::Negate(at, _)
        | Expr::Not(at, _)
        | Expr::Binary(at, _, _, _)
        | Expr::Shift(at, _, _, _)
        | Expr::Cast(at, _, _)
        | Expr::Choose(at, _, _) => *at,
    }
}

/// The argument for an array parameter is the bare name of an array with these dims.
fn check_array(context: &Context, dims: &[u32], e: &Expr) -> Result<(), NameFault>
    ensures { result ≡ first (array_rules (context_of context.now) dims.now (view_expr e.now)) }
{
    match e {
        Expr::Read { place, delay } => {
            let fits = read_dims(context, &place.name).map(|its_dims| delay.is_none()
                && is_whole_array(dims, &place.subs, its_dims));
            check_place(context, place, fits)?;
            check_delay(context, delay)
        }
        _ => Err(NameFault::Arity(expr_at(e))),
    }
}

/// An argument, for the parameter at its position if there is one.
fn check_argument(context: &Context, e: &Expr, param: Option<&Decl>) -> Result<(), NameFault>
    ensures { result ≡ first (argument_rules (context_of context.now) (option_copied param.entry) (view_expr e.now)) }
{
    match param {
        Some(d) if !d.dims.is_empty() => check_array(context, &d.dims, e),
        _ => check_expr(context, e),
    }
}

/// The declaration at a position.
fn decl_at(decls: &[Decl], position: usize) -> Option<&Decl>
    ensures { option_copied result ≡ slice_get decls.now position }
{
    decls.get(position)
}

/// Each argument, for the parameter at its position.
fn check_arguments(context: &Context, args: &[Expr], params: &[Decl]) -> Result<(), NameFault>
    ensures { result ≡ first (arguments_rules (context_of context.now) params.now (map view_expr args.now)) }
{
    for i in 0..args.len() {
        check_argument(context, &args[i], decl_at(params, i))?;
    }
    Ok(())
}

/// Each place, for the result at its position.
fn check_places(context: &Context, places: &[Place], results: &[Decl]) -> Result<(), NameFault>
    ensures { result ≡ first (places_rules (context_of context.now) results.now (map view_place places.now)) }
{
    for i in 0..places.len() {
        check_taking(context, &places[i], decl_at(results, i))?;
    }
    Ok(())
}

/// The name in a call is a function's, with this many results and parameters.
fn check_callee(callee: Option<&Func>, places: usize, args: usize, at: u32) -> Result<(), NameFault>
    ensures { result ≡ first (callee_rules (option_map view_func (option_copied callee.entry)) places args at) }
{
    let f = callee.ok_or(NameFault::Unknown(at))?;
    if args != f.params.len() || places != f.results.len() {
        return Err(NameFault::Arity(at));
    }
    Ok(())
}

fn params_of<'a>(callee: Option<&'a Func>) -> &'a [Decl]
    ensures { result.now ≡ meaning.params_of (option_map view_func (option_copied callee.entry)) }
{
    match callee {
        None => &[],
        Some(f) => &f.params,
    }
}

fn results_of<'a>(callee: Option<&'a Func>) -> &'a [Decl]
    ensures { result.now ≡ meaning.results_of (option_map view_func (option_copied callee.entry)) }
{
    match callee {
        None => &[],
        Some(f) => &f.results,
    }
}

/// A call, from left to right: its places, the function's name, its arguments.
pub(crate) fn check_call(
    context: &Context,
    places: &[Place],
    func: &Name,
    args: &[Expr],
    at: u32,
) -> Result<(), NameFault>
    ensures { let c = context_of context.now in let callee = function_named c.program func.now in
        result ≡ first (call_rules c callee (map view_place places.now) (map view_expr args.now) at) }
{
    let callee = context.tops.function(func);
    check_places(context, places, results_of(callee))?;
    check_callee(callee, places.len(), args.len(), at)?;
    check_arguments(context, args, params_of(callee))
}
