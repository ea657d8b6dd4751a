//! What is done of actions in several turns of a loop, one after another.

ghost use Rattle.std.specs.Prelude.{◌≡◌, ◌+◌, ◌<◌, ◌≤◌, ◌^◌, ◌+ℤ◌, ◌≤ℤ◌, ℕ, pos, [], ◌∷◌, ◌++◌};
ghost use Rattle.std.specs.Prelude.{map, length, IfOk};
ghost use Rattle.elaboration_code.specs.Actions.{actions_of, view_action, view_actions};
ghost use Rattle.elaboration_code.specs.Loops.{AreDoneInside};
ghost use Rattle.elaboration_run.specs.Private.Lanes.{at};
ghost use Rattle.elaboration_run.specs.Private.Parts.{seen};
ghost use Rattle.elaboration_run.specs.Private.EmptyLoops.{DoSame};
ghost use Rattle.elaboration_run.specs.Private.TurnBlocks.{IsBlock};

use crate::empty_loops::{Look, MOST_TURNS, busy};
use crate::lanes::{Group, LANES, Row, same_row};
use crate::parts::{Part, all};
use crate::turns::Turns;
use elaboration_code::Action;
use element_rules::turn_at;
use lists::List;
use std::alloc::{AllocError, Global};

/// Turns of a loop, and what is done in them.
#[derive(Drop)]
pub(crate) struct Block<'a> {
    /// The first turn after them, counted from 0.
    pub until: u64,
    pub parts: Vec<Part<'a>>,
    /// The most turns of the next block.
    pub most: usize,
}

impl<'a> Block<'a> {
    /// No turns.
    pub(crate) fn empty(alloc: Global) -> Block<'a>
        ensures until { result.until ≡ 0 }
        ensures parts { seen result.parts ≡ [] }
    {
        Block {
            until: 0,
            parts: Vec::new(alloc),
            most: LANES,
        }
    }
}

/// Fewer turns are not looked at before.
const FEW: usize = 2;

/// The indices of turns one after another. The lanes behind them repeat the first.
fn index_row(turn: i32, count: usize) -> Row
    requires few { count ≤ 32 }
    requires inside { (turn +ℤ pos count) ≤ℤ pos (2 ^ 31) }
    ensures { (k : ℕ) → k < count → at result k ≡ turn +ℤ pos k }
{
    let mut row = same_row(turn);
    for k in 0..count {
        row[k] = turn + k as i32;
    }
    row
}

/// How many turns there are from one on, or 32 if that is less.
fn turns_left(turn: i32, last: i32) -> usize
    requires { turn ≤ℤ last }
    ensures some { 1 ≤ result }
    ensures few { result ≤ 32 }
    ensures inside { (turn +ℤ pos result) ≤ℤ (last +ℤ pos 1) }
{
    let left = i64::from(last) - i64::from(turn) + 1;
    (left as usize).min(LANES)
}

/// A turn in which all is done.
fn one_turn<'a>(
    alloc: Global,
    k: u64,
    actions: &'a [Action],
    most: usize,
) -> Result<Block<'a>, AllocError>
    requires { k < 2 ^ 33 }
    ensures until { IfOk result (λ block. block.until ≡ k + 1) }
    ensures all { IfOk result (λ block. seen block.parts ≡ map view_action actions.now) }
{
    Ok(Block {
        until: k + 1,
        parts: all(alloc, actions)?,
        most,
    })
}

/// A block that begins with the turn `k`, whose index is `turn`. After one in which too much is done to look at, the
/// next has half as many turns, and else one more.
fn block_from<'a>(
    alloc: Global,
    outer: &[i32],
    k: u64,
    turn: i32,
    last: i32,
    most: usize,
    actions: &'a [Action],
    look: &mut Look,
) -> Result<Block<'a>, AllocError>
    requires turns { k < 2 ^ 33 }
    requires inside { turn ≤ℤ last }
    requires done { AreDoneInside (length outer.now + 1) (view_actions actions.now) }
    ensures more { IfOk result (λ block. k < block.until) }
    ensures same { IfOk result (λ block. (j : ℕ) → k + j < block.until → (turn +ℤ pos j) ≤ℤ last
        → DoSame (outer.now ++ (turn +ℤ pos j) ∷ []) (seen block.parts)
        (map view_action actions.now)) }
    ensures done { IfOk result (λ block. AreDoneInside (length outer.now + 1) (actions_of (seen block.parts))) }
{
    let count = turns_left(turn, last).min(most);
    if count < FEW {
        return one_turn(alloc, k, actions, FEW);
    }
    let rows = List::from_slice(alloc, &[index_row(turn, count)])?;
    let turns = Turns {
        outer,
        groups: &[Group { rows, count }],
    };
    look.room = MOST_TURNS;
    let parts = busy(alloc, turns, actions, look)?;
    if look.room == 0 {
        return one_turn(alloc, k, actions, count / 2);
    }
    Ok(Block {
        until: k + count as u64,
        parts,
        most: count + 1,
    })
}

/// The block with the turn `k` of a loop with these bounds: this one, or the next.
pub(crate) fn block_at<'a>(
    alloc: Global,
    outer: &[i32],
    first: i32,
    last: i32,
    k: u64,
    block: Block<'a>,
    actions: &'a [Action],
    look: &mut Look,
) -> Result<Block<'a>, AllocError>
    requires inside { (first +ℤ pos k) ≤ℤ last }
    requires block { IsBlock outer.now first last k block.until (seen block.parts) (map view_action actions.now) }
    requires done { AreDoneInside (length outer.now + 1) (view_actions actions.now) }
    requires parts { AreDoneInside (length outer.now + 1) (actions_of (seen block.parts)) }
    ensures more { IfOk result (λ next. k < next.until) }
    ensures block { IfOk result (λ next. IsBlock outer.now first last k next.until (seen next.parts)
        (map view_action actions.now)) }
    ensures done { IfOk result (λ next. AreDoneInside (length outer.now + 1) (actions_of (seen next.parts))) }
{
    let most = block.most;
    if k < block.until {
        return Ok(block);
    }
    block_from(
        alloc,
        outer,
        k,
        turn_at(first, last, k),
        last,
        most,
        actions,
        look,
    )
}
