//! The turns of loops.

ghost use Rattle.elaboration_run.specs.Private.Groups.{HaveRows, loops_in};

use crate::lanes::Group;

/// Turns of loops inside loops with the indices `outer`.
#[derive(Clone, Copy)]
pub(crate) struct Turns<'a> {
    pub outer: &'a [i32],
    pub groups: &'a [Group],
    ghost rows: { HaveRows (loops_in groups.now) groups.now },
}
