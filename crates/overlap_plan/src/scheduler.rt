//! The schedule of a graph over several stages.

ghost use Rattle.std.specs.Prelude.{IfOk, IfErr};
ghost use Rattle.plan_core.specs.Stages.{IsStageScheduleOver};
ghost use Rattle.overlap_plan.specs.Staged.{IsSoundStaged, path_of, nodes_on};
ghost use Rattle.overlap_plan.specs.Private.Placing.{Loads, IsFault};

use crate::placing::slots_of;
use crate::staged::Staged;
use list_schedule::PeriodFault;
use plan_core::Schedule;
use schedule_priority::{Destinations, placing_order};
use std::alloc::Global;

/// Places the nodes by falling height, then by number, each at the least cycle of its stages at which it can be issued.
/// Cycles count from the start of the sample. Page `docs/PLANNING.md`, "Overlapped samples".
///
/// # Errors
///
/// `Period` with the first node, in the order in which nodes are placed, that can be issued at no cycle of its stages.
/// `Memory` where no memory is left.
pub(crate) fn stage_schedule(alloc: Global, staged: &Staged) -> Result<Schedule, PeriodFault>
    requires { IsSoundStaged staged.now }
    ensures schedule { IfOk result (IsStageScheduleOver staged.now.stages (Loads (nodes_on staged.now))
        (path_of staged.now) (nodes_on staged.now)) }
    ensures fault { IfErr result (IsFault staged.now) }
{
    let order = placing_order(alloc, &staged.problem)?;
    let destinations = Destinations::new(alloc, &staged.problem)?;
    let slots = slots_of(alloc, staged, &order, &destinations)?;
    Ok(Schedule { slots })
}
