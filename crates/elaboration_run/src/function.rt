//! A function, as its instances do it.

ghost use Rattle.elaboration_code.specs.Actions.{actions_of};
ghost use Rattle.elaboration_code.specs.Loops.{AreDoneInside};
ghost use Rattle.elaboration_run.specs.Private.Parts.{seen};

use crate::parts::Part;
use elaboration_code::Body;

/// A function. Its loops have the same turns in each instance, since no bound depends on a parameter.
#[derive(Drop)]
pub(crate) struct Function<'a> {
    pub body: &'a Body,
    /// What is done of its actions.
    pub parts: Vec<Part<'a>>,
    ghost inside: { AreDoneInside 0 (actions_of (seen parts)) },
}
