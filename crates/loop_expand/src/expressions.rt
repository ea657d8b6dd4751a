//! Expressions, with reads, shifts and delays worked out in the turns of the loops around them.

ghost use Rattle.std.specs.Prelude.{◌≡◌, ◌<◌, ℕ, length, map, Some, IsSome, IfOk, IfSome};
ghost use Rattle.silage_syntax.specs.Names.{IsOffset};
ghost use Rattle.type_rules.specs.declared.typed.TypedConst.{TypedConst as TableRow};
ghost use Rattle.silage_syntax.specs.Tree.{view_place, view_delay};
ghost use Rattle.type_rules.specs.TypedTree as typed;
ghost use Rattle.signal_graph.specs.Flat.{view_expr, calculation};
ghost use Rattle.signal_graph.specs.Expressions.{view_exprs};
ghost use Rattle.loop_expand.specs.Private.Views.{view_scope};
ghost use Rattle.loop_expand.specs.Private.Facts as is;
ghost use Rattle.loop_expand.specs.Private.Known.{IsPlaced, IsKnownRead, IsKnownTarget, IsKnownExpr, AreKnownParts};
ghost use Rattle.loop_expand.specs.Private.Scopes.{total};
ghost use Rattle.loop_expand.specs.Private.Rows.{typed_exprs};

use crate::amounts::{delay, format, offset};
use crate::lookups::{signal, table};
use crate::scope::Scope;
use fix_word::{Format, Op};
use name_rules::Env;
use signal_graph::FlatExpr;
use silage_syntax::{Manifest, Place};
use std::alloc::AllocError;
use type_rules::{TypedConst, TypedExpr};

/// The number of the element that a place names, if it is one of a signal.
fn number_at(scope: &Scope, env: &Env, place: &Place) -> Option<u32>
    requires { IsPlaced (view_scope scope.now) env.now (view_place place.now) }
    ensures is { result ≡ is.number_at (view_scope scope.now) env.now (view_place place.now) }
    ensures within { IfSome result (λ n. n < total (view_scope scope.now)) }
{
    match signal(scope.signals, &place.name) {
        None => None,
        Some(signal) => {
            let offset = offset(env, &signal.decl.dims, &place.subs);
            Some(scope.first + signal.first + offset)
        }
    }
}

/// The same of a place that names one.
pub(crate) fn target(scope: &Scope, env: &Env, place: &Place) -> u32
    requires { IsKnownTarget (view_scope scope.now) env.now (view_place place.now) }
    ensures is { Some result ≡ is.number_at (view_scope scope.now) env.now (view_place place.now) }
    ensures within { result < total (view_scope scope.now) }
{
    match number_at(scope, env, place) {
        Some(number) => number,
        None => unreachable!(),
    }
}

/// A number of a table.
pub(crate) fn word_at(table: &TypedConst, k: u32) -> i64
    requires { k < length table.now.words }
    ensures { result ≡ is.word_at table.now k }
{
    table.words[k as usize]
}

/// The number of a table that a place names.
fn entry_at(scope: &Scope, env: &Env, place: &Place) -> i64
    requires some { IsSome (is.typed_named scope.now.tables.now place.now.name) }
    requires placed { (t : TableRow) → is.typed_named scope.now.tables.now place.now.name ≡ Some t
        → (k : ℕ) × IsOffset env.now t.dims (view_place place.now).subs k }
    ensures { result ≡ is.entry_at (view_scope scope.now) env.now (view_place place.now) }
{
    let table = table(scope.tables, &place.name);
    word_at(table, offset(env, &table.dims, &place.subs))
}

/// A read of a signal, or a number of a table.
fn read(scope: &Scope, env: &Env, place: &Place, ago: &Option<Manifest>) -> FlatExpr
    requires { IsKnownRead (view_scope scope.now) env.now (view_place place.now) (view_delay ago.now) }
    ensures { view_expr result
        ≡ is.flat_of (view_scope scope.now) env.now (typed.read (view_place place.now) (view_delay ago.now)) }
{
    match number_at(scope, env, place) {
        Some(elem) => FlatExpr::Read {
            elem,
            delay: delay(env, ago),
        },
        None => FlatExpr::Raw(entry_at(scope, env, place)),
    }
}

fn calculation(op: Op, fmt: Format, parts: Vec<FlatExpr>) -> FlatExpr
    ensures { view_expr result ≡ calculation op fmt (view_exprs parts.items) }
{
    FlatExpr::Node { op, fmt, parts }
}

#[cycle(exprs)]
pub(crate) fn flat(scope: &Scope, env: &Env, x: &TypedExpr) -> Result<FlatExpr, AllocError>
    requires { IsKnownExpr (view_scope scope.now) env.now (typed.view_expr x.now) }
    ensures { IfOk result (λ y. view_expr y ≡ is.flat_of (view_scope scope.now) env.now (typed.view_expr x.now)) }
{
    match x {
        TypedExpr::Raw(word) => Ok(FlatExpr::Raw(*word)),
        TypedExpr::Read { place, delay } => Ok(read(scope, env, place, delay)),
        TypedExpr::Node {
            op,
            fmt,
            parts,
            amount,
        } => {
            let fmt = format(env, *fmt, amount);
            Ok(calculation(*op, fmt, flat_parts(scope, env, parts)?))
        }
    }
}

#[cycle(exprs)]
fn flat_parts(scope: &Scope, env: &Env, parts: &[TypedExpr]) -> Result<Vec<FlatExpr>, AllocError>
    requires { AreKnownParts (view_scope scope.now) env.now (typed_exprs parts.now) }
    ensures { IfOk result (λ ys. view_exprs ys.items
        ≡ is.flat_parts (view_scope scope.now) env.now (typed_exprs parts.now)) }
{
    let mut flats = Vec::with_capacity(scope.alloc, parts.len())?;
    for part in parts {
        flats.push(flat(scope, env, part)?)?;
    }
    Ok(flats)
}
