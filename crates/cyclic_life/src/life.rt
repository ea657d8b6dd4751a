//! The lifetimes of a schedule.

ghost use Rattle.std.specs.Prelude.{IfOk};
ghost use Rattle.datapath.specs.Allowed.{IsDatapath};
ghost use Rattle.plan_core.specs.Arcs.{IsArcs};
ghost use Rattle.plan_core.specs.Stages.{AreStageArcs};
ghost use Rattle.cyclic_life.specs.Held.{IsHeld, IsInPeriod, AreReadNow, IsOverStages};

use crate::fault::ArcFault;
use crate::merge::lifetimes;
use crate::placement::Placement;
use crate::read::sorted;
use datapath::Datapath;
use plan_core::{Arcs, Assigned, Schedule};
use std::alloc::Global;

/// For each node and each port that reads it the lifetime of the node's words there, in cycles, by unit, port, the
/// cycle of the write, then node. Takes time in proportion to the nodes and their edges. Page
/// `docs/PLANNING.md`, "Lifetimes".
///
/// # Errors
///
/// `Memory` where no memory is left.
pub fn arcs(
    alloc: Global,
    schedule: &Schedule,
    assigned: &Assigned,
    datapath: &Datapath,
) -> Result<Arcs, ArcFault>
    requires datapath { IsDatapath datapath.now }
    requires held { IsHeld datapath.now assigned.now }
    requires schedule { IsInPeriod datapath.now assigned.now schedule.now }
    ensures { IfOk result (IsArcs datapath.now assigned.now schedule.now) }
{
    let placement = Placement {
        datapath,
        assigned,
        schedule,
    };
    let reads = placement.reads(alloc)?;
    let sorted = sorted(alloc, reads)?;
    Ok(lifetimes(alloc, sorted.as_slice(), datapath.period)?)
}

/// The same where samples overlap and each word is read in its own sample: a lifetime begins in the cycle of the period
/// in which the word is written, and is as long as it is in the sample.
///
/// # Errors
///
/// `Memory` where no memory is left.
pub fn stage_arcs(
    alloc: Global,
    schedule: &Schedule,
    assigned: &Assigned,
    datapath: &Datapath,
) -> Result<Arcs, ArcFault>
    requires datapath { IsDatapath datapath.now }
    requires held { IsHeld datapath.now assigned.now }
    requires now { AreReadNow assigned.now }
    requires schedule { IsOverStages datapath.now assigned.now schedule.now }
    ensures { IfOk result (AreStageArcs datapath.now assigned.now schedule.now) }
{
    let placement = Placement {
        datapath,
        assigned,
        schedule,
    };
    let reads = placement.reads_around(alloc)?;
    let sorted = sorted(alloc, reads)?;
    Ok(lifetimes(alloc, sorted.as_slice(), datapath.period)?)
}
