//! What is left to do of actions in some turns of the loops around them: loops without turns are left out.

ghost use Rattle.std.specs.Prelude.{◌≡◌, map, IfOk};
ghost use Rattle.elaboration_code.specs.Actions.{view_action};
ghost use Rattle.elaboration_run.specs.Private.Parts.{seen};

use elaboration_code::{Action, Bound};
use std::alloc::{AllocError, Global};

/// What is left to do of an action.
#[derive(Drop)]
pub(crate) enum Part<'a> {
    /// All of it.
    Whole(&'a Action),
    /// Of a loop, in each of its turns, these parts of its actions.
    Loop {
        lo: &'a Bound,
        hi: &'a Bound,
        parts: Vec<Part<'a>>,
        at: u32,
    },
}

/// All of the actions.
pub(crate) fn all<'a>(alloc: Global, actions: &'a [Action]) -> Result<Vec<Part<'a>>, AllocError>
    ensures { IfOk result (λ all. seen all ≡ map view_action actions.now) }
{
    let mut all = Vec::with_capacity(alloc, actions.len())?;
    for action in actions {
        all.push(Part::Whole(action))?;
    }
    Ok(all)
}
