//! Loops without turns, found in several turns of the loops around them before anything is done.
//!
//! A loop without turns adds nothing to the load, so very many of them may be inside thousands of turns. Such a loop is
//! looked at in many turns of all the loops around it at once.

ghost use Rattle.std.specs.Prelude.{◌≡◌, ◌<◌, ◌≤◌, ◌+◌, ◌++◌, ◌∷◌, ◌+ℤ◌, ◌≤ℤ◌};
ghost use Rattle.std.specs.Prelude.{[], ℕ, pos, map, length, IsTrue, IfOk, OnOk, IfSome};
ghost use Rattle.elaboration_code.specs.Actions.{actions_of, view_action, view_actions};
ghost use Rattle.elaboration_code.specs.Loops.{IsInside, IsDoneInside, AreDoneInside};
ghost use Rattle.elaboration_run.specs.Private.Groups.{HaveRows, loops_in};
ghost use Rattle.elaboration_run.specs.Private.Parts.{seen, view_part};
ghost use Rattle.elaboration_run.specs.Private.Lanes.{at, column, turns_at, loops_of};
ghost use Rattle.elaboration_run.specs.Private.EmptyLoops as spec;
ghost use Rattle.elaboration_run.specs.Private.EmptyLoops.{InEach, Reaches, Holds, Keeps, DoSame, loops_around};

use crate::groups::put_turn;
use crate::lanes::{Group, Lanes, Row, number_row};
use crate::parts::Part;
use crate::turns::Turns;
use elaboration_code::{Action, Number};
use element_rules::{turn_at, turn_count};
use lists::List;
use std::alloc::{AllocError, Global};

/// What a look at turns works with.
#[derive(Drop)]
pub(crate) struct Look {
    /// For manifest constants in several turns at once.
    pub stack: Vec<Row>,
    /// How many more turns may be looked at. None, if there were too many, or a bound has no value in one.
    pub room: usize,
}

/// The most turns that are looked at at once. A loop with a turn in one of them is done in all of them, so with more
/// turns fewer loops are left out.
pub(crate) const MOST_TURNS: usize = 256;

impl Look {
    pub(crate) fn new(alloc: Global) -> Look {
        Look {
            stack: Vec::new(alloc),
            room: MOST_TURNS,
        }
    }
}

/// The indices in a lane, and one of a loop inside.
fn turn_in(alloc: Global, rows: &[Row], k: usize, index: i32) -> Result<List<i32>, AllocError>
    requires { k < 32 }
    ensures { IfOk result (λ turn. turn ≡ column rows.now k ++ index ∷ []) }
{
    let mut turn = List::with_capacity(alloc, rows.len() + 1)?;
    for row in rows {
        turn.push(row[k])?;
    }
    turn.push(index)?;
    Ok(turn)
}

/// Appends the turns that a loop with these bounds has in a lane, if there is room for them.
fn put_lane(
    alloc: Global,
    lanes: Lanes,
    k: usize,
    first: i32,
    last: i32,
    inner: &mut Vec<Group>,
    room: &mut usize,
) -> Result<bool, AllocError>
    requires lane { k < 32 }
    requires rows { HaveRows (length lanes.inner.now + 1) inner.old.items }
    ensures kept { OnOk result (Keeps lanes.entry.outer.now inner.old.items inner.new.items) }
    ensures reached { IfOk result (λ has. IsTrue has → (j : ℕ) → (first +ℤ pos j) ≤ℤ last
        → Holds lanes.entry.outer.now inner.new.items (turns_at lanes.entry k ++ (first +ℤ pos j) ∷ [])) }
    ensures rows { OnOk result (HaveRows (length lanes.entry.inner.now + 1) inner.new.items) }
{
    let count = turn_count(first, last);
    if count > *room as u64 {
        return Ok(false);
    }
    *room -= count as usize;
    for j in 0..count {
        let turn = turn_in(alloc, lanes.inner, k, turn_at(first, last, j))?;
        put_turn(alloc, &turn, inner)?;
    }
    Ok(true)
}

/// Appends the turns that loops with these bounds have in the lanes, if there is room for them.
fn put_lanes(
    alloc: Global,
    lanes: Lanes,
    first: &Row,
    last: &Row,
    inner: &mut Vec<Group>,
    room: &mut usize,
) -> Result<bool, AllocError>
    requires few { lanes.count ≤ 32 }
    requires rows { HaveRows (length lanes.inner.now + 1) inner.old.items }
    ensures kept { OnOk result (Keeps lanes.entry.outer.now inner.old.items inner.new.items) }
    ensures reached { IfOk result (λ has. IsTrue has → (k : ℕ) → k < lanes.entry.count → (j : ℕ)
        → (at first.now k +ℤ pos j) ≤ℤ at last.now k → Holds lanes.entry.outer.now inner.new.items
        (turns_at lanes.entry k ++ (at first.now k +ℤ pos j) ∷ [])) }
    ensures rows { OnOk result (HaveRows (length lanes.entry.inner.now + 1) inner.new.items) }
{
    for k in 0..lanes.count {
        if !put_lane(alloc, lanes, k, first[k], last[k], inner, room)? {
            return Ok(false);
        }
    }
    Ok(true)
}

/// Appends the turns that a loop with these bounds has in each turn, if there is room for them.
fn put_turns(
    alloc: Global,
    lanes: Lanes,
    lo: &Number,
    hi: &Number,
    inner: &mut Vec<Group>,
    look: &mut Look,
) -> Result<bool, AllocError>
    requires few { lanes.count ≤ 32 }
    requires inside_lo { IsInside (loops_of lanes) lo.now }
    requires inside_hi { IsInside (loops_of lanes) hi.now }
    requires rows { HaveRows (length lanes.inner.now + 1) inner.old.items }
    ensures kept { OnOk result (Keeps lanes.entry.outer.now inner.old.items inner.new.items) }
    ensures reached { IfOk result (λ has. IsTrue has → (k : ℕ) → k < lanes.entry.count
        → Reaches lanes.entry.outer.now inner.new.items lo.now hi.now (turns_at lanes.entry k)) }
    ensures rows { OnOk result (HaveRows (length lanes.entry.inner.now + 1) inner.new.items) }
{
    let first = match number_row(lanes, lo, &mut look.stack)? {
        None => return Ok(false),
        Some(row) => row,
    };
    match number_row(lanes, hi, &mut look.stack)? {
        None => Ok(false),
        Some(last) => put_lanes(alloc, lanes, &first, &last, inner, &mut look.room),
    }
}

/// The turns that a loop with these bounds has in each turn, if there is room for them.
fn inner_turns(
    alloc: Global,
    turns: Turns,
    lo: &Number,
    hi: &Number,
    look: &mut Look,
) -> Result<Option<Vec<Group>>, AllocError>
    requires inside_lo { IsInside (loops_around turns) lo.now }
    requires inside_hi { IsInside (loops_around turns) hi.now }
    ensures reached { IfOk result (λ r. IfSome r (λ inner. InEach turns.entry
        (λ ts. Reaches turns.entry.outer.now inner.items lo.now hi.now ts))) }
    ensures rows { IfOk result (λ r. IfSome r (λ inner. HaveRows (loops_in turns.entry.groups.now + 1) inner.items)) }
{
    let mut inner = Vec::new(alloc);
    for group in turns.groups {
        let lanes = Lanes {
            outer: turns.outer,
            inner: group.rows.as_slice(),
            count: group.count,
        };
        if !put_turns(alloc, lanes, lo, hi, &mut inner, look)? {
            return Ok(None);
        }
    }
    Ok(Some(inner))
}

fn put_part<'a>(parts: &mut Vec<Part<'a>>, part: Part<'a>) -> Result<(), AllocError>
    ensures { OnOk result (seen parts.new ≡ seen parts.old ++ view_part part.entry ∷ []) }
{
    parts.push(part)?;
    Ok(())
}

/// Appends what is done of an action in the turns, if anything is.
#[cycle(empty_loops)]
fn put_busy<'a>(
    alloc: Global,
    turns: Turns,
    action: &'a Action,
    parts: &mut Vec<Part<'a>>,
    look: &mut Look,
) -> Result<(), AllocError>
    requires { IsDoneInside (loops_around turns) (view_action action.now) }
    ensures more { OnOk result (spec.DoesMore turns.entry (seen parts.old) (view_action action.now) (seen parts.new)) }
    ensures inside { OnOk result (AreDoneInside (loops_around turns.entry) (actions_of (seen parts.old))
        → AreDoneInside (loops_around turns.entry) (actions_of (seen parts.new))) }
{
    let (lo, hi, actions, at) = match action {
        Action::Repeat {
            lo,
            hi,
            actions,
            at,
        } if look.room > 0 => (lo, hi, actions, *at),
        _ => return put_part(parts, Part::Whole(action)),
    };
    let inner = match inner_turns(alloc, turns, &lo.number, &hi.number, look)? {
        None => {
            look.room = 0;
            return put_part(parts, Part::Whole(action));
        }
        Some(inner) => inner,
    };
    if inner.is_empty() {
        return Ok(());
    }
    let within = Turns {
        outer: turns.outer,
        groups: inner.as_slice(),
    };
    let own = busy(alloc, within, actions, look)?;
    put_part(
        parts,
        Part::Loop {
            lo,
            hi,
            parts: own,
            at,
        },
    )
}

/// What is done of actions in the turns.
#[cycle(empty_loops)]
pub(crate) fn busy<'a>(
    alloc: Global,
    turns: Turns,
    actions: &'a [Action],
    look: &mut Look,
) -> Result<Vec<Part<'a>>, AllocError>
    requires { AreDoneInside (loops_around turns) (view_actions actions.now) }
    ensures same { IfOk result (λ parts. InEach turns.entry
        (λ ts. DoSame ts (seen parts) (map view_action actions.now))) }
    ensures inside { IfOk result (λ parts. AreDoneInside (loops_around turns.entry) (actions_of (seen parts))) }
{
    let mut parts = Vec::with_capacity(alloc, actions.len())?;
    for action in actions {
        put_busy(alloc, turns, action, &mut parts, look)?;
    }
    Ok(parts)
}
