//! Expressions against the type that is wanted.

ghost use Rattle.silage_syntax.specs.Tree as tree;
ghost use Rattle.silage_syntax.specs.Tree.{view_expr, view_place, view_delay, view_manifest};
ghost use Rattle.fix_word.specs.declared.types.SigType.TheVariants.{Fix, Bool as Truths};
ghost use Rattle.fix_types.specs.Private.Answers.{Types};
ghost use Rattle.fix_types.specs.Private.Scopes.{program_of, function_of};
ghost use Rattle.type_rules.specs.Private.Sound.{IsSound, HasType, HasTypedReads, IsSoundType};

use crate::copies;
use crate::lookups::type_of;
use crate::nodes::{NO_FORMAT, chosen, fitted, joined, nested, one_bit, rounded, shifted, unary};
use crate::operands::{check_name, is_same_shape, literal_word};
use crate::plans::planned;
use crate::scope::Scope;
use crate::synthesis::own_type;
use fix_word::{FixType, Op, SigType};
use silage_syntax::{Expr, Manifest, Place};
use type_rules::{TypeFault, TypedExpr};

/// A name is typed as it stands.
fn read(
    scope: &Scope,
    place: &Place,
    delay: &Option<Manifest>,
    wanted: SigType,
) -> Result<TypedExpr, TypeFault>
    requires typed { HasType (program_of scope.now) (function_of scope.now) (view_place place.now) }
    requires wanted { IsSoundType wanted }
    ensures { Types (program_of scope.now) (function_of scope.now)
        (tree.read (view_place place.now) (view_delay delay.now)) wanted result }
{
    check_name(type_of(scope, &place.name), wanted, place.at)?;
    Ok(TypedExpr::Read {
        place: copies::place(scope.alloc, place)?,
        delay: copies::delay(scope.alloc, delay)?,
    })
}

/// An expression against the wanted type: the rules of its own before its parts, and these from left to right. The
/// branches of a conditional are in their order, each condition against `bool` and each value against the wanted type.
#[cycle(exprs)]
pub(crate) fn typed(scope: &Scope, e: &Expr, wanted: SigType) -> Result<TypedExpr, TypeFault>
    requires sound { IsSound (view_expr e.now) }
    requires reads { HasTypedReads (program_of scope.now) (function_of scope.now) (view_expr e.now) }
    requires wanted { IsSoundType wanted }
    ensures { Types (program_of scope.now) (function_of scope.now) (view_expr e.now) wanted result }
{
    match e {
        Expr::Lit(l) => Ok(TypedExpr::Raw(literal_word(l, wanted)?)),
        Expr::Read { place, delay } => read(scope, place, delay, wanted),
        Expr::Negate(at, part) => negation(scope, *at, part, wanted),
        Expr::Not(at, part) => denial(scope, *at, part, wanted),
        Expr::Binary(at, op, left, right) => {
            let plan = planned(scope, *at, *op, left, right, wanted)?;
            let left = typed(scope, left, plan.left)?;
            let right = typed(scope, right, plan.right)?;
            Ok(joined(scope.alloc, plan, left, right)?)
        }
        Expr::Shift(at, left, part, amount) => shift(scope, *at, *left, part, amount, wanted),
        Expr::Cast(at, ty, part) => cast(scope, *at, *ty, part, wanted),
        Expr::Choose(_, arms, last) => {
            let arms = arms.as_slice();
            let mut pairs = Vec::with_capacity(scope.alloc, arms.len())?;
            for arm in arms {
                let condition = typed(scope, &arm.0, SigType::Bool)?;
                let value = typed(scope, &arm.1, wanted)?;
                pairs.push((condition, value))?;
            }
            let last = typed(scope, last, wanted)?;
            Ok(nested(scope.alloc, chosen(wanted), pairs, last)?)
        }
    }
}

#[cycle(exprs)]
fn negation(scope: &Scope, at: u32, part: &Expr, wanted: SigType) -> Result<TypedExpr, TypeFault>
    requires sound { IsSound (view_expr part.now) }
    requires reads { HasTypedReads (program_of scope.now) (function_of scope.now) (view_expr part.now) }
    requires wanted { IsSoundType wanted }
    ensures { Types (program_of scope.now) (function_of scope.now) (tree.negate at (view_expr part.now)) wanted result }
{
    match wanted {
        SigType::Bool => Err(TypeFault::NotBool(at)),
        SigType::Fix(t) => {
            let part = typed(scope, part, wanted)?;
            Ok(unary(scope.alloc, Op::Neg, fitted(t), part)?)
        }
    }
}

#[cycle(exprs)]
fn denial(scope: &Scope, at: u32, part: &Expr, wanted: SigType) -> Result<TypedExpr, TypeFault>
    requires sound { IsSound (view_expr part.now) }
    requires reads { HasTypedReads (program_of scope.now) (function_of scope.now) (view_expr part.now) }
    ensures { Types (program_of scope.now) (function_of scope.now) (tree.not at (view_expr part.now)) wanted result }
{
    match wanted {
        SigType::Fix(_) => Err(TypeFault::Mismatch(at)),
        SigType::Bool => {
            let part = typed(scope, part, wanted)?;
            Ok(unary(scope.alloc, Op::Not, NO_FORMAT, part)?)
        }
    }
}

#[cycle(exprs)]
fn shift(
    scope: &Scope,
    at: u32,
    left: bool,
    part: &Expr,
    amount: &Manifest,
    wanted: SigType,
) -> Result<TypedExpr, TypeFault>
    requires sound { IsSound (view_expr part.now) }
    requires reads { HasTypedReads (program_of scope.now) (function_of scope.now) (view_expr part.now) }
    requires wanted { IsSoundType wanted }
    ensures { Types (program_of scope.now) (function_of scope.now)
        (tree.shift at left (view_expr part.now) (view_manifest amount.now)) wanted result }
{
    match wanted {
        SigType::Bool => Err(TypeFault::NotBool(at)),
        SigType::Fix(t) => {
            let part = typed(scope, part, wanted)?;
            let amount = copies::manifest(scope.alloc, amount)?;
            Ok(shifted(scope.alloc, one_bit(left, t), part, amount)?)
        }
    }
}

#[cycle(exprs)]
fn cast(
    scope: &Scope,
    at: u32,
    ty: FixType,
    part: &Expr,
    wanted: SigType,
) -> Result<TypedExpr, TypeFault>
    requires type_ { IsSoundType (Fix ty) }
    requires sound { IsSound (view_expr part.now) }
    requires reads { HasTypedReads (program_of scope.now) (function_of scope.now) (view_expr part.now) }
    ensures { Types (program_of scope.now) (function_of scope.now) (tree.cast at ty (view_expr part.now))
        wanted result }
{
    match wanted {
        SigType::Bool => Err(TypeFault::NotBool(at)),
        SigType::Fix(t) => converted(scope, at, ty, part, t),
    }
}

/// A cast to `ty` where `t` is wanted: a part with a type of its own is converted, and one without has the type `ty`.
#[cycle(exprs)]
fn converted(
    scope: &Scope,
    at: u32,
    ty: FixType,
    part: &Expr,
    t: FixType,
) -> Result<TypedExpr, TypeFault>
    requires type_ { IsSoundType (Fix ty) }
    requires sound { IsSound (view_expr part.now) }
    requires reads { HasTypedReads (program_of scope.now) (function_of scope.now) (view_expr part.now) }
    ensures { Types (program_of scope.now) (function_of scope.now) (tree.cast at ty (view_expr part.now))
        (Fix t) result }
{
    if !is_same_shape(SigType::Fix(ty), SigType::Fix(t)) {
        return Err(TypeFault::Mismatch(at));
    }
    match own_type(scope, part) {
        None => typed(scope, part, SigType::Fix(ty)),
        Some(SigType::Bool) => Err(TypeFault::Mismatch(at)),
        Some(SigType::Fix(own)) => {
            let part = typed(scope, part, SigType::Fix(own))?;
            Ok(unary(scope.alloc, Op::Pass, rounded(ty, own.shape.f), part)?)
        }
    }
}
