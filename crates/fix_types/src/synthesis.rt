//! The types that expressions have of their own. A type is looked for down to the next product, comparison, cast or
//! name, so that no part is gone over for more than one expression around it.

ghost use Rattle.std.specs.Prelude.{◌≡◌, IfSome};
ghost use Rattle.silage_syntax.specs.Tree.{view_expr};
ghost use Rattle.silage_meaning.specs.Types as meaning;
ghost use Rattle.fix_types.specs.Private.Scopes.{program_of, function_of};
ghost use Rattle.type_rules.specs.Private.Sound.{IsSound, IsSoundType};

use crate::lookups::name_type;
use crate::scope::Scope;
use fix_word::SigType;
use silage_syntax::{BinOp, Expr, Lit};

/// The type of its own of an expression, if it has one.
pub(crate) fn own_type(scope: &Scope, e: &Expr) -> Option<SigType>
    requires sound { IsSound (view_expr e.now) }
    ensures is { result ≡ meaning.own_type (program_of scope.now) (function_of scope.now) (view_expr e.now) }
    ensures sound { IfSome result IsSoundType }
{
    match e {
        Expr::Lit(Lit::Number { .. }) => None,
        Expr::Lit(Lit::Truth { .. }) => Some(SigType::Bool),
        Expr::Read { place, .. } => name_type(scope, &place.name),
        Expr::Negate(_, part) => own_type(scope, part),
        Expr::Not(_, _) => Some(SigType::Bool),
        Expr::Binary(_, op, left, right) => match op {
            BinOp::Add | BinOp::Sub => match own_type(scope, left) {
                Some(ty) => Some(ty),
                None => own_type(scope, right),
            },
            BinOp::Mul => None,
            _ => Some(SigType::Bool),
        },
        Expr::Shift(_, _, part, _) => own_type(scope, part),
        Expr::Cast(_, ty, _) => Some(SigType::Fix(*ty)),
        Expr::Choose(_, arms, last) => {
            let arms = arms.as_slice();
            for arm in arms {
                if let Some(ty) = own_type(scope, &arm.1) {
                    return Some(ty);
                }
            }
            own_type(scope, last)
        }
    }
}

/// The type of both sides of a comparison, and of a sum: the left part's own, or else the right part's.
pub(crate) fn common_type(scope: &Scope, left: &Expr, right: &Expr) -> Option<SigType>
    requires left { IsSound (view_expr left.now) }
    requires right { IsSound (view_expr right.now) }
    ensures is { result ≡ meaning.common_type (program_of scope.now) (function_of scope.now) (view_expr left.now)
        (view_expr right.now) }
    ensures sound { IfSome result IsSoundType }
{
    match own_type(scope, left) {
        Some(ty) => Some(ty),
        None => own_type(scope, right),
    }
}

/// The type of a factor: its own, or for a number that of the other factor.
pub(crate) fn factor_type(scope: &Scope, factor: &Expr, other: &Expr) -> Option<SigType>
    requires factor { IsSound (view_expr factor.now) }
    requires other { IsSound (view_expr other.now) }
    ensures is { result ≡ meaning.factor_type (program_of scope.now) (function_of scope.now) (view_expr factor.now)
        (view_expr other.now) }
    ensures sound { IfSome result IsSoundType }
{
    match factor {
        Expr::Lit(Lit::Number { .. }) => own_type(scope, other),
        _ => own_type(scope, factor),
    }
}
