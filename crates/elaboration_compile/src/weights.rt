//! What expressions add to the load.

ghost use Rattle.std.specs.Prelude.{◌≡◌, ◌+◌, ◌≤◌, map, sum_by};
ghost use Rattle.silage_syntax.specs.Tree.{view_expr, view_arms};
ghost use Rattle.element_rules.specs.ElementRules as load;
ghost use Rattle.elaboration_code.specs.ItemActions.{capped};

use silage_syntax::Expr;

/// A load that is too large, whatever else there is.
const TOO_LARGE: u32 = 8193;

/// The sum of loads that are capped, capped.
pub(crate) fn sum(left: u32, right: u32) -> u32
    requires left { left ≤ 8193 }
    requires right { right ≤ 8193 }
    ensures { result ≡ capped (left + right) }
{
    (left + right).min(TOO_LARGE)
}

#[cycle(weights)]
pub(crate) fn weight(e: &Expr) -> u32
    ensures { result ≡ capped (load.weight (view_expr e.now)) }
{
    match e {
        Expr::Lit(_) => 0,
        Expr::Read { place: _, delay: _ } => 0,
        Expr::Negate(_, part) => sum(1, weight(part)),
        Expr::Not(_, part) => sum(1, weight(part)),
        Expr::Binary(_, _, left, right) => sum(1, sum(weight(left), weight(right))),
        Expr::Shift(_, _, part, _) => sum(1, weight(part)),
        Expr::Cast(_, _, part) => sum(1, weight(part)),
        Expr::Choose(_, arms, last) => sum(arms_weight(arms), weight(last)),
    }
}

#[cycle(weights)]
fn arms_weight(arms: &[(Expr, Expr)]) -> u32
    ensures { result ≡ capped (load.branches_weight (view_arms arms.now)) }
{
    let mut all = 0;
    for arm in arms {
        let own = sum(1, sum(weight(&arm.0), weight(&arm.1)));
        all = sum(all, own);
    }
    all
}

/// What the arguments of a call add to the load.
pub(crate) fn args_weight(args: &[Expr]) -> u32
    ensures { result ≡ capped (sum_by load.weight (map view_expr args.now)) }
{
    let mut all = 0;
    for arg in args {
        all = sum(all, weight(arg));
    }
    all
}
