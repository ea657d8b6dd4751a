//! Turns of loops inside loops, in lanes.

ghost use Rattle.std.specs.Prelude.{◌≡◌, ◌<◌, ◌++◌, ◌⊎◌, [], ℕ, ℤ, List, length, slice_index_or, IfOk, OnOk};
ghost use Rattle.elaboration_run.specs.Private.Lanes.{at, column};
ghost use Rattle.elaboration_run.specs.Private.Groups.{HaveRows};
ghost use Rattle.elaboration_run.specs.Private.EmptyLoops.{Holds, IsIn, IsMore};

use crate::lanes::{Group, LANES, Row, same_row};
use lists::List;
use std::alloc::{AllocError, Global};

/// The row with a number in a lane and in those behind it.
fn filled(row: &Row, lane: usize, value: i32) -> Row
    requires { lane < 32 }
    ensures before { (k : ℕ) → k < lane → at result k ≡ at row.now k }
    ensures here { at result lane ≡ value }
{
    let mut next = *row;
    for k in lane..LANES {
        next[k] = value;
    }
    next
}

/// The row of a loop with its index in one turn more.
fn longer_row(rows: &[Row], d: usize, lane: usize, index: i32) -> Row
    requires { lane < 32 }
    ensures before { d < length rows.now → (k : ℕ) → k < lane → at result k ≡ at (slice_index_or rows.now d []) k }
    ensures here { at result lane ≡ index }
{
    if d < rows.len() {
        filled(&rows[d], lane, index)
    } else {
        same_row(index)
    }
}

/// Rows with one turn more. Where there are none, it is the first.
fn with_turn(
    alloc: Global,
    rows: &[Row],
    lane: usize,
    turn: &[i32],
) -> Result<List<Row>, AllocError>
    requires { lane < 32 }
    ensures before { IfOk result (λ longer. length rows.now ≡ length turn.now → (k : ℕ) → k < lane
        → column longer k ≡ column rows.now k) }
    ensures here { IfOk result (λ longer. column longer lane ≡ turn.now) }
{
    let mut longer = List::with_capacity(alloc, turn.len())?;
    for d in 0..turn.len() {
        longer.push(longer_row(rows, d, lane, turn[d]))?;
    }
    Ok(longer)
}

fn no_turn(alloc: Global) -> Group
    ensures { result.count ≡ 0 }
{
    Group {
        rows: List::new(alloc),
        count: 0,
    }
}

/// Takes the last group, if it has a free lane, or a new one.
fn take_open(alloc: Global, groups: &mut Vec<Group>) -> Result<Group, AllocError>
    ensures lane { IfOk result (λ group. group.count < 32) }
    ensures same_loops { (loops : ℕ) → HaveRows loops groups.old.items
        → IfOk result (λ group. (k : ℕ) → k < group.count → length group.rows ≡ loops) }
    ensures rows { (loops : ℕ) → HaveRows loops groups.old.items → OnOk result (HaveRows loops groups.new.items) }
    ensures kept { IfOk result (λ group. (outer turns : List ℤ) → Holds outer groups.old.items turns
        → Holds outer groups.new.items turns ⊎ IsIn outer group turns) }
{
    match groups.pop() {
        None => Ok(no_turn(alloc)),
        Some(group) => {
            if group.count < LANES {
                return Ok(group);
            }
            groups.push(group)?;
            Ok(no_turn(alloc))
        }
    }
}

/// Appends a turn, in the last group's next lane.
pub(crate) fn put_turn(
    alloc: Global,
    turn: &[i32],
    groups: &mut Vec<Group>,
) -> Result<(), AllocError>
    requires { HaveRows (length turn.now) groups.old.items }
    ensures more { OnOk result ((outer : List ℤ) → IsMore outer groups.old.items groups.new.items (outer ++ turn.now)) }
    ensures rows { OnOk result (HaveRows (length turn.now) groups.new.items) }
{
    let group = take_open(alloc, groups)?;
    let rows = with_turn(alloc, &group.rows, group.count, turn)?;
    groups.push(Group {
        rows,
        count: group.count + 1,
    })?;
    Ok(())
}
