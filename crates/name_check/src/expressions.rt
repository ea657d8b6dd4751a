//! Expressions.

ghost use Rattle.std.specs.Prelude.{◌≡◌, Option, map, option_map};
ghost use Rattle.fault_order.specs.Rules.{parts};
ghost use Rattle.fault_order.specs.Private.FirstMet.{first};
ghost use Rattle.silage_syntax.specs.Tree.{view_manifest, view_expr, view_arms};
ghost use Rattle.name_rules.specs.NameRules.{expr_rules, branch_rules};
ghost use Rattle.name_check.specs.Private.Views.{context_of};

use crate::context::Context;
use crate::indices::{check_delay, check_manifest};
use crate::lookups::read_dims;
use crate::places::{check_place, is_element};
use crate::sizes::is_fix_type;
use name_rules::NameFault;
use silage_syntax::Expr;

#[cycle(exprs)]
pub(crate) fn check_expr(context: &Context, e: &Expr) -> Result<(), NameFault>
    ensures { result ≡ first (expr_rules (context_of context.now) (view_expr e.now)) }
{
    match e {
        Expr::Lit(_) => Ok(()),
        Expr::Read { place, delay } => {
            let fits = read_dims(context, &place.name).map(|dims| is_element(&place.subs, dims));
            check_place(context, place, fits)?;
            check_delay(context, delay)
        }
        Expr::Negate(_, part) => check_expr(context, part),
        Expr::Not(_, part) => check_expr(context, part),
        Expr::Binary(_, _, left, right) => {
            check_expr(context, left)?;
            check_expr(context, right)
        }
        Expr::Shift(_, _, part, amount) => {
            check_expr(context, part)?;
            check_manifest(context, amount)
        }
        Expr::Cast(at, ty, part) => {
            if !is_fix_type(ty) {
                return Err(NameFault::Size(*at));
            }
            check_expr(context, part)
        }
        Expr::Choose(_, arms, last) => {
            check_arms(context, arms)?;
            check_expr(context, last)
        }
    }
}

/// Conditions, each with its value.
#[cycle(exprs)]
fn check_arms(context: &Context, arms: &[(Expr, Expr)]) -> Result<(), NameFault>
    ensures { result ≡ first (parts (branch_rules (context_of context.now) (view_arms arms.now))) }
{
    for arm in arms {
        check_expr(context, &arm.0)?;
        check_expr(context, &arm.1)?;
    }
    Ok(())
}
