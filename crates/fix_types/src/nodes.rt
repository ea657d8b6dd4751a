//! Typed expressions, by their operations.

ghost use Rattle.std.specs.Prelude.{◌≡◌, ◌≤◌, ◌-ℤ◌, ◌≤ℤ◌, ℤ, pos, negsuc, None, Some, map, IfOk};
ghost use Rattle.silage_syntax.specs.Tree.{view_manifest, view_delay};
ghost use Rattle.type_rules.specs.TypedTree.{view_expr, node as node_of, parts_of};
ghost use Rattle.type_rules.specs.Translation as typed;
ghost use Rattle.type_rules.specs.Translation.{one, two, three};
ghost use Rattle.fix_types.specs.Private.Plans as plans;
ghost use Rattle.fix_types.specs.Private.Choosing as choosing;
ghost use Rattle.fix_types.specs.Private.Choosing.{view_pairs};

use crate::plans::Plan;
use fix_word::{FixType, Format, Mode, Op, SigType};
use silage_syntax::Manifest;
use std::alloc::{AllocError, Global};
use type_rules::TypedExpr;

/// The width of a truth value: that of 0 and 1 as signed words.
const TRUTH_WIDTH: u8 = 2;

/// The format of operations that have none.
pub(crate) const NO_FORMAT: Format = Format {
    shift: 0,
    mode: Mode::Trunc,
    width: 0,
};

/// An exact result, brought to the width of a type by its overflow mode.
pub(crate) fn fitted(ty: FixType) -> Format
    ensures { result ≡ typed.fitted ty }
{
    Format {
        shift: 0,
        mode: ty.mode.overflow(),
        width: ty.shape.w,
    }
}

/// A result with `places` fraction bits, in a type.
pub(crate) fn rounded(ty: FixType, places: u8) -> Format
    requires places { places ≤ 80 }
    requires shape { ty.shape.f ≤ 40 }
    ensures { result ≡ typed.rounded ty (pos places -ℤ pos ty.shape.f) }
{
    Format {
        shift: (places as i16 - ty.shape.f as i16) as i8,
        mode: ty.mode,
        width: ty.shape.w,
    }
}

/// A shift by one bit: exact to the left, and rounded by the type's mode to the right.
pub(crate) fn one_bit(left: bool, ty: FixType) -> Format
    ensures { result ≡ typed.one_bit left ty }
{
    let (shift, mode) = if left {
        (-1, ty.mode.overflow())
    } else {
        (1, ty.mode)
    };
    Format {
        shift,
        mode,
        width: ty.shape.w,
    }
}

/// A choice between words of a type.
pub(crate) fn chosen(ty: SigType) -> Format
    ensures { result ≡ typed.chosen ty }
{
    let width = match ty {
        SigType::Fix(ty) => ty.shape.w,
        SigType::Bool => TRUTH_WIDTH,
    };
    Format {
        shift: 0,
        mode: Mode::Trunc,
        width,
    }
}

fn node(op: Op, fmt: Format, parts: Vec<TypedExpr>, amount: Option<Manifest>) -> TypedExpr
    ensures { view_expr result ≡ node_of op fmt (parts_of (map view_expr parts.items)) (view_delay amount) }
{
    TypedExpr::Node {
        op,
        fmt,
        parts,
        amount,
    }
}

pub(crate) fn unary(
    alloc: Global,
    op: Op,
    fmt: Format,
    part: TypedExpr,
) -> Result<TypedExpr, AllocError>
    ensures { IfOk result (λ t. view_expr t ≡ node_of op fmt (one (view_expr part)) None) }
{
    Ok(node(op, fmt, vec![in alloc; part]?, None))
}

pub(crate) fn binary(
    alloc: Global,
    op: Op,
    fmt: Format,
    left: TypedExpr,
    right: TypedExpr,
) -> Result<TypedExpr, AllocError>
    ensures { IfOk result (λ t. view_expr t ≡ node_of op fmt (two (view_expr left) (view_expr right)) None) }
{
    Ok(node(op, fmt, vec![in alloc; left, right]?, None))
}

pub(crate) fn choice(
    alloc: Global,
    fmt: Format,
    condition: TypedExpr,
    value: TypedExpr,
    other: TypedExpr,
) -> Result<TypedExpr, AllocError>
    ensures { IfOk result (λ t. view_expr t
        ≡ node_of Op.Sel fmt (three (view_expr condition) (view_expr value) (view_expr other)) None) }
{
    Ok(node(Op::Sel, fmt, vec![in alloc; condition, value, other]?, None))
}

pub(crate) fn shifted(
    alloc: Global,
    fmt: Format,
    part: TypedExpr,
    amount: Manifest,
) -> Result<TypedExpr, AllocError>
    ensures { IfOk result (λ t. view_expr t
        ≡ node_of Op.Pass fmt (one (view_expr part)) (Some (view_manifest amount))) }
{
    Ok(node(Op::Pass, fmt, vec![in alloc; part]?, Some(amount)))
}

/// The operation of a plan on its parts.
pub(crate) fn joined(
    alloc: Global,
    plan: Plan,
    left: TypedExpr,
    right: TypedExpr,
) -> Result<TypedExpr, AllocError>
    ensures { IfOk result (λ t. view_expr t ≡ plans.joined plan (view_expr left) (view_expr right)) }
{
    if plan.turned {
        binary(alloc, plan.op, plan.fmt, right, left)
    } else {
        binary(alloc, plan.op, plan.fmt, left, right)
    }
}

/// The value of the first pair whose condition is true, or else the last.
pub(crate) fn nested(
    alloc: Global,
    fmt: Format,
    pairs: Vec<(TypedExpr, TypedExpr)>,
    last: TypedExpr,
) -> Result<TypedExpr, AllocError>
    ensures { IfOk result (λ t. view_expr t ≡ choosing.nested fmt (view_pairs pairs.items) (view_expr last)) }
{
    let mut pairs = pairs;
    let mut other = last;
    while let Some((condition, value)) = pairs.pop() {
        other = choice(alloc, fmt, condition, value, other)?;
    }
    Ok(other)
}
