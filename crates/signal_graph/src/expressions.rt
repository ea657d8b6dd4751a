//! Expressions: how many operations one has, and copies.

ghost use Rattle.std.specs.Prelude.{◌≡◌, ◌<◌, ◌^◌, IfOk};
ghost use Rattle.signal_graph.specs.Flat.{view_expr, calculation};
ghost use Rattle.signal_graph.specs.Expressions.{view_exprs};
ghost use Rattle.signal_graph.specs.Expressions as counted;

use crate::flat::FlatExpr;
use fix_word::{Format, Op};
use std::alloc::{AllocError, Global};

/// How many operations an expression has. Raw words and reads are none.
#[cycle(counts)]
pub fn operation_count(value: &FlatExpr) -> u32
    requires { counted.operation_count (view_expr value.now) < 2 ^ 32 }
    ensures { result ≡ counted.operation_count (view_expr value.now) }
{
    match value {
        FlatExpr::Raw(_) | FlatExpr::Read { .. } => 0,
        FlatExpr::Node { parts, .. } => 1 + operations_in(parts),
    }
}

#[cycle(counts)]
fn operations_in(parts: &[FlatExpr]) -> u32
    requires { counted.operation_count_of_parts (view_exprs parts.now) < 2 ^ 32 }
    ensures { result ≡ counted.operation_count_of_parts (view_exprs parts.now) }
{
    let mut count = 0;
    for part in parts {
        count += operation_count(part);
    }
    count
}

fn calculation(op: Op, fmt: Format, parts: Vec<FlatExpr>) -> FlatExpr
    ensures { view_expr result ≡ calculation op fmt (view_exprs parts.items) }
{
    FlatExpr::Node { op, fmt, parts }
}

/// A copy of an expression.
#[cycle(copies)]
pub fn expr_copy(alloc: Global, value: &FlatExpr) -> Result<FlatExpr, AllocError>
    ensures { IfOk result (λ copy. view_expr copy ≡ view_expr value.now) }
{
    match value {
        FlatExpr::Raw(word) => Ok(FlatExpr::Raw(*word)),
        FlatExpr::Read { elem, delay } => Ok(FlatExpr::Read {
            elem: *elem,
            delay: *delay,
        }),
        FlatExpr::Node { op, fmt, parts } => {
            Ok(calculation(*op, *fmt, part_copies(alloc, parts)?))
        }
    }
}

#[cycle(copies)]
fn part_copies(alloc: Global, parts: &[FlatExpr]) -> Result<Vec<FlatExpr>, AllocError>
    ensures { IfOk result (λ copies. view_exprs copies.items ≡ view_exprs parts.now) }
{
    let mut copies = Vec::with_capacity(alloc, parts.len())?;
    for part in parts {
        copies.push(expr_copy(alloc, part)?)?;
    }
    Ok(copies)
}
