//! The functions of a program, each looked at before it has instances.

ghost use Rattle.std.specs.Prelude.{◌≡◌, [], map, option_map, IfOk};
ghost use Rattle.std.specs.List.{All};
ghost use Rattle.elaboration_code.specs.Actions.{actions_of, view_action, view_actions};
ghost use Rattle.elaboration_code.specs.Loops.{AreDoneInside};
ghost use Rattle.elaboration_run.specs.Private.Parts.{seen};
ghost use Rattle.elaboration_run.specs.Private.EmptyLoops.{DoSame};
ghost use Rattle.elaboration_run.specs.Private.Functions.{IsLookedAt, IsTopLookedAt};

use crate::empty_loops::{Look, MOST_TURNS, busy};
use crate::function::Function;
use crate::lanes::Group;
use crate::parts::{Part, all};
use crate::turns::Turns;
use elaboration_code::{Action, Body};
use lists::List;
use std::alloc::{AllocError, Global};

fn has_loop(actions: &[Action]) -> bool {
    for action in actions {
        if let Action::Repeat { .. } = action {
            return true;
        }
    }
    false
}

fn has_nested_loops(actions: &[Action]) -> bool {
    for action in actions {
        if let Action::Repeat { actions, .. } = action {
            if has_loop(actions) {
                return true;
            }
        }
    }
    false
}

/// What is done of actions that are inside no loop: all of it where no loop is inside another, or where the loops have
/// too many turns to look at.
fn parts<'a>(
    alloc: Global,
    actions: &'a [Action],
    look: &mut Look,
) -> Result<Vec<Part<'a>>, AllocError>
    requires { AreDoneInside 0 (view_actions actions.now) }
    ensures same { IfOk result (λ parts. DoSame [] (seen parts) (map view_action actions.now)) }
    ensures inside { IfOk result (λ parts. AreDoneInside 0 (actions_of (seen parts))) }
{
    if !has_nested_loops(actions) {
        return all(alloc, actions);
    }
    let once = Turns {
        outer: &[],
        groups: &[Group {
            rows: List::new(alloc),
            count: 1,
        }],
    };
    look.room = MOST_TURNS;
    let parts = busy(alloc, once, actions, look)?;
    if look.room == 0 {
        return all(alloc, actions);
    }
    Ok(parts)
}

fn function<'a>(alloc: Global, body: &'a Body, look: &mut Look) -> Result<Function<'a>, AllocError>
    ensures body { IfOk result (λ function. function.body.now ≡ body.now) }
    ensures looked { IfOk result IsLookedAt }
{
    let parts = parts(alloc, &body.actions, look)?;
    Ok(Function { body, parts })
}

/// The function with the body, if there is one.
fn looked_at<'a>(
    alloc: Global,
    body: &'a Option<Body>,
    look: &mut Look,
) -> Result<Option<Function<'a>>, AllocError>
    ensures body { IfOk result (λ looked_at. option_map (λ f. f.body.now) looked_at ≡ body.now) }
    ensures looked { IfOk result IsTopLookedAt }
{
    match body {
        None => Ok(None),
        Some(body) => Ok(Some(function(alloc, body, look)?)),
    }
}

/// The functions with these bodies.
pub(crate) fn functions<'a>(
    alloc: Global,
    bodies: &'a [Option<Body>],
) -> Result<Vec<Option<Function<'a>>>, AllocError>
    ensures bodies { IfOk result (λ functions. map (option_map (λ f. f.body.now)) functions.items ≡ bodies.now) }
    ensures looked { IfOk result (λ functions. All IsTopLookedAt functions.items) }
{
    let mut look = Look::new(alloc);
    let mut functions = Vec::with_capacity(alloc, bodies.len())?;
    for body in bodies {
        let looked_at = looked_at(alloc, body, &mut look)?;
        functions.push(looked_at)?;
    }
    Ok(functions)
}
