//! The turns of loops.

ghost use Rattle.std.specs.Prelude.{◌≡◌, ◌<◌, ◌++◌, map, length, Some, IfOk, OnOk};
ghost use Rattle.std.specs.List.{range_with_len};
ghost use Rattle.element_rules.specs.ElementRules.{loop_turns};
ghost use Rattle.silage_meaning.specs.Instances.{turns_of};
ghost use Rattle.silage_syntax.specs.Tree.{view_manifest};
ghost use Rattle.silage_syntax.specs.Manifests.{manifest_value};
ghost use Rattle.loop_expand.specs.Private.Children.{same_turns};
ghost use Rattle.loop_expand.specs.Private.Columns.{AreFull};
ghost use Rattle.loop_expand.specs.Private.Turns.{at, value_in, view_columns, indices_at, view_turns, turns_within};
ghost use Rattle.loop_expand.specs.Private.Turns.{HasTurns, HasValues, AreInside, inner_at, inner_of, inner_columns};

use crate::columns::{Column, InnerTurn, Turns};
use crate::values::{Values, are_past, value_at, value_of, values_of};
use element_rules::{turn_at, turn_count};
use lists::{List, Name};
use name_rules::Env;
use silage_syntax::Manifest;
use std::alloc::{AllocError, AllocFailed, Global};

/// The indices of the loops around a turn, in the memory of those around another one.
pub(crate) fn env_at(other: Env, turns: &Turns, k: usize) -> Result<Env, AllocError>
    requires { k < turns.now.count }
    ensures { IfOk result (λ env. env ≡ indices_at turns.now k) }
{
    let mut env = other.into_vec();
    env.clear();
    for column in turns.columns.iter() {
        env.push((column.index.clone()?, value_at(&column.values, k)))?;
    }
    Ok(List::from_vec(env))
}

/// Appends the turns of a loop with these bounds.
fn put_turns(inner: &mut Vec<InnerTurn>, outer: usize, lo: i32, hi: i32) -> Result<(), AllocError>
    ensures { OnOk result (inner.new.items
        ≡ inner.old.items ++ map (inner_at outer) (loop_turns (Some lo) (Some hi))) }
{
    for k in 0..turn_count(lo, hi) {
        inner.push(InnerTurn {
            outer,
            index: turn_at(lo, hi, k),
        })?;
    }
    Ok(())
}

/// The turns of a loop whose bounds have these values in the turns around it.
fn known_turns(
    alloc: Global,
    count: usize,
    lo: &Values,
    hi: &Values,
) -> Result<Vec<InnerTurn>, AllocError>
    requires lo { HasTurns lo.now count }
    requires hi { HasTurns hi.now count }
    ensures { IfOk result (λ inner. inner.items
        ≡ inner_of (λ k. loop_turns (Some (value_in lo.now k)) (Some (value_in hi.now k))) (range_with_len 0 count)) }
{
    let mut inner = Vec::new(alloc);
    if are_past(count, lo, hi) {
        return Ok(inner);
    }
    for k in 0..count {
        put_turns(&mut inner, k, value_of(lo, k), value_of(hi, k))?;
    }
    Ok(inner)
}

/// The turns of a loop with these bounds in the turns around it.
fn inner_turns(
    alloc: Global,
    turns: &Turns,
    lo: &Manifest,
    hi: &Manifest,
) -> Result<Vec<InnerTurn>, AllocError>
    requires some { 0 < turns.now.count }
    requires lo { HasValues turns.now (view_manifest lo.now) }
    requires hi { HasValues turns.now (view_manifest hi.now) }
    ensures inside { IfOk result (λ inner. AreInside turns.now.count inner.items) }
    ensures turns { IfOk result (λ inner. inner.items
        ≡ inner_of (λ k. loop_turns (manifest_value (indices_at turns.now k) (view_manifest lo.now))
        (manifest_value (indices_at turns.now k) (view_manifest hi.now))) (range_with_len 0 turns.now.count)) }
{
    let first = values_of(alloc, turns, lo)?;
    let last = values_of(alloc, turns, hi)?;
    known_turns(alloc, turns.count, &first, &last)
}

/// The values of an index around turns.
fn outer_values(alloc: Global, values: &[i32], inner: &[InnerTurn]) -> Result<Vec<i32>, AllocError>
    requires { AreInside (length values.now) inner.now }
    ensures { IfOk result (λ row. row.items ≡ map (λ i. at values.now i.outer) inner.now) }
{
    let mut row = Vec::with_capacity(alloc, inner.len())?;
    for turn in inner {
        row.push(value_at(values, turn.outer))?;
    }
    Ok(row)
}

/// The values of the index of turns.
fn own_values(alloc: Global, inner: &[InnerTurn]) -> Result<Vec<i32>, AllocError>
    ensures { IfOk result (λ row. row.items ≡ map (λ i. i.index) inner.now) }
{
    let mut row = Vec::with_capacity(alloc, inner.len())?;
    for turn in inner {
        row.push(turn.index)?;
    }
    Ok(row)
}

/// The indices of turns and of the loops around them.
fn columns_of<'a>(
    alloc: Global,
    count: usize,
    outer: &[Column<'a>],
    index: &'a Name,
    inner: &[InnerTurn],
) -> Result<Vec<Column<'a>>, AllocError>
    requires full { AreFull outer.now count }
    requires inside { AreInside count inner.now }
    ensures { IfOk result (λ columns. view_columns columns.items
        ≡ inner_columns (view_columns outer.now) index.now inner.now) }
{
    let mut columns = Vec::with_capacity(alloc, outer.len())?;
    for column in outer {
        columns.push(Column {
            index: column.index,
            values: outer_values(alloc, &column.values, inner)?,
        })?;
    }
    columns.push(Column {
        index,
        values: own_values(alloc, inner)?,
    })?;
    Ok(columns)
}

/// The turns of a loop with these bounds in each turn of those around it.
pub(crate) fn within<'a>(
    alloc: Global,
    turns: &Turns<'a>,
    index: &'a Name,
    lo: &Manifest,
    hi: &Manifest,
) -> Result<Turns<'a>, AllocError>
    requires some { 0 < turns.now.count }
    requires lo { HasValues turns.now (view_manifest lo.now) }
    requires hi { HasValues turns.now (view_manifest hi.now) }
    ensures { IfOk result (λ next. view_turns next
        ≡ turns_within (view_turns turns.now) index.now (view_manifest lo.now) (view_manifest hi.now)) }
{
    let inner = inner_turns(alloc, turns, lo, hi)?;
    Ok(Turns {
        columns: columns_of(alloc, turns.count, &turns.columns, index, &inner)?,
        count: inner.len(),
    })
}

/// Whether these are the values of the indices.
pub(crate) fn is_turn(turns: &[i32], env: &[(Name, i32)]) -> bool
    ensures { result ≡ same_turns turns.now (turns_of env.now) }
{
    match turns {
        [] => env.is_empty(),
        [turn, turns @ ..] => match env {
            [] => false,
            [index, env @ ..] => *turn == index.1 && is_turn(turns, env),
        },
    }
}
