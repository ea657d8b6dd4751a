//! What binary operators do with their parts. The rules of an operator's own are judged here.

ghost use Rattle.std.specs.Prelude.{◌≡◌, false};
ghost use Rattle.silage_syntax.specs.Tree.{view_expr};
ghost use Rattle.silage_syntax.specs.declared.tree.BinOp.TheVariants as operator;
ghost use Rattle.fix_word.specs.declared.types.SigType.TheVariants.{Fix, Bool as Truths};
ghost use Rattle.fix_types.specs.Private.Answers.{IsComparing};
ghost use Rattle.fix_types.specs.Private.Plans.{Plans, plan_of, comparing};
ghost use Rattle.fix_types.specs.Private.Scopes.{program_of, function_of};
ghost use Rattle.type_rules.specs.Private.Sound.{IsSound, IsSoundType};

use crate::nodes::{NO_FORMAT, fitted, rounded};
use crate::operands::operand_type;
use crate::scope::Scope;
use crate::synthesis::{common_type, factor_type};
use fix_word::{FixType, Format, Op, SigType};
use silage_syntax::{BinOp, Expr};
use type_rules::TypeFault;

/// An operation on two parts, each against a type. A turned one has the right part first.
#[derive(Clone, Copy)]
pub(crate) struct Plan {
    pub left: SigType,
    pub right: SigType,
    pub op: Op,
    pub fmt: Format,
    pub turned: bool,
}

/// An operation with both parts against one type.
fn both(op: Op, fmt: Format, ty: SigType) -> Plan
    ensures { result ≡ plan_of ty ty op fmt false }
{
    Plan {
        left: ty,
        right: ty,
        op,
        fmt,
        turned: false,
    }
}

/// A product: each factor against its own type, and the exact product converted to the wanted one.
fn product(scope: &Scope, at: u32, left: &Expr, right: &Expr, t: FixType) -> Result<Plan, TypeFault>
    requires left { IsSound (view_expr left.now) }
    requires right { IsSound (view_expr right.now) }
    requires wanted { IsSoundType (Fix t) }
    ensures { Plans (program_of scope.now) (function_of scope.now) at operator.Mul (view_expr left.now)
        (view_expr right.now) (Fix t) result }
{
    let of_left = operand_type(factor_type(scope, left, right), at)?;
    let of_right = operand_type(factor_type(scope, right, left), at)?;
    Ok(Plan {
        left: SigType::Fix(of_left),
        right: SigType::Fix(of_right),
        op: Op::Mul,
        fmt: rounded(t, of_left.shape.f + of_right.shape.f),
        turned: false,
    })
}

/// A comparison: both sides against their common type. What is greater is what has the other less.
fn comparison(
    scope: &Scope,
    at: u32,
    op: BinOp,
    left: &Expr,
    right: &Expr,
) -> Result<Plan, TypeFault>
    requires compares { IsComparing op }
    requires left { IsSound (view_expr left.now) }
    requires right { IsSound (view_expr right.now) }
    ensures { Plans (program_of scope.now) (function_of scope.now) at op (view_expr left.now) (view_expr right.now)
        Truths result }
{
    let ty = SigType::Fix(operand_type(common_type(scope, left, right), at)?);
    let (op, turned) = compared(op);
    Ok(Plan {
        left: ty,
        right: ty,
        op,
        fmt: NO_FORMAT,
        turned,
    })
}

/// The operation of a comparison, and whether it has the right side first.
fn compared(op: BinOp) -> (Op, bool)
    requires { IsComparing op }
    ensures { result ≡ comparing op }
{
    match op {
        BinOp::Lt => (Op::Lt, false),
        BinOp::Le => (Op::Le, false),
        BinOp::Eq => (Op::Eq, false),
        BinOp::Ne => (Op::Ne, false),
        BinOp::Gt => (Op::Lt, true),
        BinOp::Ge => (Op::Le, true),
        BinOp::Add | BinOp::Sub | BinOp::Mul | BinOp::And | BinOp::Or => unreachable!(),
    }
}

/// A binary operator where a fix type is wanted.
fn number(
    scope: &Scope,
    at: u32,
    op: BinOp,
    left: &Expr,
    right: &Expr,
    t: FixType,
) -> Result<Plan, TypeFault>
    requires left { IsSound (view_expr left.now) }
    requires right { IsSound (view_expr right.now) }
    requires wanted { IsSoundType (Fix t) }
    ensures { Plans (program_of scope.now) (function_of scope.now) at op (view_expr left.now) (view_expr right.now)
        (Fix t) result }
{
    match op {
        BinOp::Add => Ok(both(Op::Add, fitted(t), SigType::Fix(t))),
        BinOp::Sub => Ok(both(Op::Sub, fitted(t), SigType::Fix(t))),
        BinOp::Mul => product(scope, at, left, right, t),
        _ => Err(TypeFault::Mismatch(at)),
    }
}

/// A binary operator where a truth value is wanted.
fn truth(scope: &Scope, at: u32, op: BinOp, left: &Expr, right: &Expr) -> Result<Plan, TypeFault>
    requires left { IsSound (view_expr left.now) }
    requires right { IsSound (view_expr right.now) }
    ensures { Plans (program_of scope.now) (function_of scope.now) at op (view_expr left.now) (view_expr right.now)
        Truths result }
{
    match op {
        BinOp::Add | BinOp::Sub | BinOp::Mul => Err(TypeFault::NotBool(at)),
        BinOp::And => Ok(both(Op::And, NO_FORMAT, SigType::Bool)),
        BinOp::Or => Ok(both(Op::Or, NO_FORMAT, SigType::Bool)),
        _ => comparison(scope, at, op, left, right),
    }
}

/// What an operator does where a type is wanted.
pub(crate) fn planned(
    scope: &Scope,
    at: u32,
    op: BinOp,
    left: &Expr,
    right: &Expr,
    wanted: SigType,
) -> Result<Plan, TypeFault>
    requires left { IsSound (view_expr left.now) }
    requires right { IsSound (view_expr right.now) }
    requires wanted { IsSoundType wanted }
    ensures { Plans (program_of scope.now) (function_of scope.now) at op (view_expr left.now) (view_expr right.now)
        wanted result }
{
    match wanted {
        SigType::Fix(t) => number(scope, at, op, left, right, t),
        SigType::Bool => truth(scope, at, op, left, right),
    }
}
