//! Instances, from main on: each does the actions of its function.

ghost use Rattle.std.specs.Prelude.{◌≡◌, ◌+◌, ◌∷◌, ◌++◌, [], map, length, option_copied, IfOk};
ghost use Rattle.elaboration_code.specs.Actions as run;
ghost use Rattle.elaboration_code.specs.Actions.{Gives, HasMeaning, run_instance};
ghost use Rattle.elaboration_code.specs.Actions.{actions_of, view_action, view_actions};
ghost use Rattle.elaboration_code.specs.Loops.{IsDoneInside, AreDoneInside};
ghost use Rattle.elaboration_run.specs.Private.Functions.{view_function, view_of_top};
ghost use Rattle.elaboration_run.specs.Private.Parts.{view_part};
ghost use Rattle.elaboration_run.specs.Private.States.{walked_of, state_of, made_in};

use crate::checks::{bound, element, run_check, sample};
use crate::definitions::{Definitions, check_all_defined, define, define_all, preset};
use crate::entries::{count, enter_instance};
use crate::function::Function;
use crate::parts::Part;
use crate::turn_blocks::{Block, block_at};
use crate::walked::Walked;
use elaboration_code::{Action, Bound};
use element_rules::{Instance, PlacedFault, turn_at, turn_count};
use lists::List;
use std::alloc::{AllocError, Global};

/// Where an action is: in the instance with this number, inside which so many calls may nest.
#[derive(Clone, Copy)]
pub(crate) struct Inside<'a, 'b> {
    pub alloc: Global,
    pub functions: &'a [Option<Function<'b>>],
    pub calls: u32,
    pub number: u32,
}

fn function_at<'a, 'b>(functions: &'a [Option<Function<'b>>], func: u32) -> Option<&'a Function<'b>>
    ensures { option_copied result ≡ run.function_at functions.now func }
{
    match functions.get(func as usize) {
        Some(Some(function)) => Some(function),
        Some(None) => None,
        None => None,
    }
}

/// The turns of loops and of one inside of them.
fn with_turn(alloc: Global, outer: &[i32], turn: i32) -> Result<List<i32>, AllocError>
    ensures { IfOk result (λ turns. turns ≡ outer.now ++ turn ∷ []) }
{
    let mut turns = List::from_slice(alloc, outer)?;
    turns.push(turn)?;
    Ok(turns)
}

/// An action in these turns of the loops around it.
#[cycle(instances)]
fn run_action(
    inside: Inside,
    turns: &[i32],
    action: &Action,
    definitions: &mut Definitions,
    walked: &mut Walked,
) -> Result<(), PlacedFault>
    requires meaning { HasMeaning
        (run.run_action (made_in inside) turns.now (view_action action.now) (state_of definitions.old walked.old)) }
    requires inside { IsDoneInside (length turns.now) (view_action action.now) }
    ensures { Gives (state_of definitions.new walked.new) result
        (run.run_action (made_in inside.entry) turns.now (view_action action.now)
        (state_of definitions.old walked.old)) }
{
    match action {
        Action::Check(check) => run_check(check, turns, &mut walked.stack),
        Action::Define(target) => {
            let element = element(target, turns, &mut walked.stack)?;
            define(definitions, element, target.at)
        }
        Action::DefineAll { first, count, at } => define_all(definitions, *first, *count, *at),
        Action::Preset(target, before) => {
            let element = element(target, turns, &mut walked.stack)?;
            let sample = sample(before, turns, &mut walked.stack)?;
            preset(definitions, element, sample, target.at)
        }
        Action::Count { load, at } => count(walked, *load, *at),
        Action::Enter { func, at } => enter(inside, *func, *at, turns, walked),
        Action::Repeat {
            lo,
            hi,
            actions,
            at,
        } => run_loop(inside, turns, lo, hi, actions, *at, definitions, walked),
    }
}

/// What is done of an action.
#[cycle(instances)]
fn run_part(
    inside: Inside,
    turns: &[i32],
    part: &Part,
    definitions: &mut Definitions,
    walked: &mut Walked,
) -> Result<(), PlacedFault>
    requires meaning { HasMeaning
        (run.run_action (made_in inside) turns.now (view_part part.now) (state_of definitions.old walked.old)) }
    requires inside { IsDoneInside (length turns.now) (view_part part.now) }
    ensures { Gives (state_of definitions.new walked.new) result
        (run.run_action (made_in inside.entry) turns.now (view_part part.now) (state_of definitions.old walked.old)) }
{
    match part {
        Part::Whole(action) => run_action(inside, turns, action, definitions, walked),
        Part::Loop { lo, hi, parts, at } => {
            run_part_loop(inside, turns, lo, hi, parts, *at, definitions, walked)
        }
    }
}

#[cycle(instances)]
fn run_parts(
    inside: Inside,
    turns: &[i32],
    parts: &[Part],
    definitions: &mut Definitions,
    walked: &mut Walked,
) -> Result<(), PlacedFault>
    requires meaning { HasMeaning (run.run_actions (made_in inside) turns.now (actions_of (map view_part parts.now))
        (state_of definitions.old walked.old)) }
    requires inside { AreDoneInside (length turns.now) (actions_of (map view_part parts.now)) }
    ensures { Gives (state_of definitions.new walked.new) result
        (run.run_actions (made_in inside.entry) turns.now (actions_of (map view_part parts.now))
        (state_of definitions.old walked.old)) }
{
    for part in parts {
        run_part(inside, turns, part, definitions, walked)?;
    }
    Ok(())
}

/// What is done in one turn of a loop.
#[cycle(instances)]
fn run_turn(
    inside: Inside,
    outer: &[i32],
    turn: i32,
    parts: &[Part],
    at: u32,
    definitions: &mut Definitions,
    walked: &mut Walked,
) -> Result<(), PlacedFault>
    requires meaning { HasMeaning (run.run_turn (made_in inside) outer.now (actions_of (map view_part parts.now)) at
        turn (state_of definitions.old walked.old)) }
    requires inside { AreDoneInside (length outer.now + 1) (actions_of (map view_part parts.now)) }
    ensures { Gives (state_of definitions.new walked.new) result
        (run.run_turn (made_in inside.entry) outer.now (actions_of (map view_part parts.now)) at turn
        (state_of definitions.old walked.old)) }
{
    count(walked, 1, at)?;
    let turns = with_turn(inside.alloc, outer, turn)?;
    run_parts(inside, &turns, parts, definitions, walked)
}

/// What is done in each turn of a loop with these bounds.
#[cycle(instances)]
fn run_part_turns(
    inside: Inside,
    outer: &[i32],
    first: i32,
    last: i32,
    parts: &[Part],
    at: u32,
    definitions: &mut Definitions,
    walked: &mut Walked,
) -> Result<(), PlacedFault>
    requires meaning { HasMeaning (run.run_turns (made_in inside) outer.now (actions_of (map view_part parts.now)) at
        first last (state_of definitions.old walked.old)) }
    requires inside { AreDoneInside (length outer.now + 1) (actions_of (map view_part parts.now)) }
    ensures { Gives (state_of definitions.new walked.new) result
        (run.run_turns (made_in inside.entry) outer.now (actions_of (map view_part parts.now)) at first last
        (state_of definitions.old walked.old)) }
{
    for k in 0..turn_count(first, last) {
        let turn = turn_at(first, last, k);
        run_turn(inside, outer, turn, parts, at, definitions, walked)?;
    }
    Ok(())
}

#[cycle(instances)]
fn run_part_loop(
    inside: Inside,
    outer: &[i32],
    lo: &Bound,
    hi: &Bound,
    parts: &[Part],
    at: u32,
    definitions: &mut Definitions,
    walked: &mut Walked,
) -> Result<(), PlacedFault>
    requires meaning { HasMeaning (run.run_loop (made_in inside) outer.now lo.now hi.now
        (actions_of (map view_part parts.now)) at (state_of definitions.old walked.old)) }
    requires inside { IsDoneInside (length outer.now)
        (run.repeat lo.now hi.now (actions_of (map view_part parts.now)) at) }
    ensures { Gives (state_of definitions.new walked.new) result
        (run.run_loop (made_in inside.entry) outer.now lo.now hi.now (actions_of (map view_part parts.now)) at
        (state_of definitions.old walked.old)) }
{
    let first = bound(lo, outer, &mut walked.stack)?;
    let last = bound(hi, outer, &mut walked.stack)?;
    run_part_turns(inside, outer, first, last, parts, at, definitions, walked)
}

/// Actions in each turn of a loop with these bounds.
#[cycle(instances)]
fn run_turns(
    inside: Inside,
    outer: &[i32],
    first: i32,
    last: i32,
    actions: &[Action],
    at: u32,
    definitions: &mut Definitions,
    walked: &mut Walked,
) -> Result<(), PlacedFault>
    requires meaning { HasMeaning (run.run_turns (made_in inside) outer.now (view_actions actions.now) at first last
        (state_of definitions.old walked.old)) }
    requires inside { AreDoneInside (length outer.now + 1) (view_actions actions.now) }
    ensures { Gives (state_of definitions.new walked.new) result
        (run.run_turns (made_in inside.entry) outer.now (view_actions actions.now) at first last
        (state_of definitions.old walked.old)) }
{
    let mut block = Block::empty(inside.alloc);
    for k in 0..turn_count(first, last) {
        let turn = turn_at(first, last, k);
        block = block_at(
            inside.alloc,
            outer,
            first,
            last,
            k,
            block,
            actions,
            &mut walked.look,
        )?;
        run_turn(inside, outer, turn, &block.parts, at, definitions, walked)?;
    }
    Ok(())
}

#[cycle(instances)]
fn run_loop(
    inside: Inside,
    outer: &[i32],
    lo: &Bound,
    hi: &Bound,
    actions: &[Action],
    at: u32,
    definitions: &mut Definitions,
    walked: &mut Walked,
) -> Result<(), PlacedFault>
    requires meaning { HasMeaning (run.run_loop (made_in inside) outer.now lo.now hi.now (view_actions actions.now) at
        (state_of definitions.old walked.old)) }
    requires inside { IsDoneInside (length outer.now) (run.repeat lo.now hi.now (view_actions actions.now) at) }
    ensures { Gives (state_of definitions.new walked.new) result
        (run.run_loop (made_in inside.entry) outer.now lo.now hi.now (view_actions actions.now) at
        (state_of definitions.old walked.old)) }
{
    let first = bound(lo, outer, &mut walked.stack)?;
    let last = bound(hi, outer, &mut walked.stack)?;
    run_turns(inside, outer, first, last, actions, at, definitions, walked)
}

/// An instance that a call makes.
#[cycle(instances)]
fn run_body(
    inside: Inside,
    function: &Function,
    instance: Instance,
    walked: &mut Walked,
) -> Result<(), PlacedFault>
    requires { HasMeaning (run.run_body (run_instance (map view_of_top inside.functions.now) inside.calls)
        (view_function function.now) instance.func instance.parent instance.site instance.turns
        (walked_of walked.old)) }
    ensures { Gives (walked_of walked.new) result
        (run.run_body (run_instance (map view_of_top inside.entry.functions.now) inside.entry.calls)
        (view_function function.now) instance.func instance.parent instance.site instance.turns
        (walked_of walked.old)) }
{
    let body = function.body;
    let number = enter_instance(walked, instance, body)?;
    let within = Inside {
        alloc: inside.alloc,
        functions: inside.functions,
        calls: inside.calls,
        number,
    };
    let mut definitions = Definitions::at_first(inside.alloc, body.given);
    run_parts(within, &[], &function.parts, &mut definitions, walked)?;
    check_all_defined(&definitions, &body.signals)
}

/// An instance of the function at a position among the tops, which a call at `site` makes.
#[cycle(instances)]
pub(crate) fn enter(
    inside: Inside,
    func: u32,
    site: u32,
    turns: &[i32],
    walked: &mut Walked,
) -> Result<(), PlacedFault>
    requires { HasMeaning (made_in inside func site turns.now (walked_of walked.old)) }
    ensures { Gives (walked_of walked.new) result (made_in inside.entry func site turns.now (walked_of walked.old)) }
{
    let function = match function_at(inside.functions, func) {
        None => unreachable!(),
        Some(function) => function,
    };
    if inside.calls == 0 {
        return Err(PlacedFault::TooLarge(function.body.at));
    }
    let instance = Instance {
        func,
        parent: inside.number,
        site,
        turns: List::from_slice(inside.alloc, turns)?,
    };
    let within = Inside {
        alloc: inside.alloc,
        functions: inside.functions,
        calls: inside.calls - 1,
        number: inside.number,
    };
    run_body(within, function, instance, walked)
}
