//! Whether nodes are in their stages.

ghost use Rattle.std.specs.Prelude.{◌≡◌, ◌<◌, ◌≤◌, ◌↔◌, ◌^◌, ℕ, length, IsTrue, IfErr, OnOk};
ghost use Rattle.plan_core.specs.ListSchedule.{cycle_of};
ghost use Rattle.list_schedule.specs.Placing.{slot_at, last_cycle};
ghost use Rattle.overlap_plan.specs.Staged.{IsSoundStaged, path_of, nodes_on};
ghost use Rattle.placed_stages.specs.Private.Stages.{EndInStages, IsStaged, AreStaged, IsOutOfStages};

use crate::fault::StagePlaceFault;
use overlap_plan::Staged;
use plan_core::Schedule;

/// The cycle of node v.
fn cycle(schedule: &Schedule, v: usize) -> u16
    requires { v < length schedule.now.slots }
    ensures { result ≡ cycle_of schedule.now v }
{
    schedule.slots[v].cycle
}

/// Whether a cycle is not before the first one, and an operation that ends before another does so before the last.
fn is_between(first: u16, cycle: u16, ended: u16, end: u16) -> bool
    ensures { IsTrue result ↔ ((first ≤ cycle) × (ended ≤ end)) }
{
    first <= cycle && ended <= end
}

/// Whether node v is in its stages.
fn is_staged(staged: &Staged, schedule: &Schedule, v: usize) -> bool
    requires staged { IsSoundStaged staged.now }
    requires node { v < length (nodes_on staged.now).lowered.nodes }
    requires count { length schedule.now.slots ≡ length (nodes_on staged.now).lowered.nodes }
    requires early { (x : ℕ) → (slot_at schedule.now.slots x).cycle ≤ last_cycle }
    requires ends { EndInStages staged.now.stages (path_of staged.now) (nodes_on staged.now) schedule.now }
    ensures { IsTrue result ↔ IsStaged staged.now.stages (path_of staged.now) (nodes_on staged.now) schedule.now v }
{
    let cycle = cycle(schedule, v);
    let ended = cycle + staged.latency(v);
    is_between(
        staged.earliest(v),
        cycle,
        ended,
        staged.end(v, &schedule.slots),
    )
}

/// Refuses the first node that is not in its stages.
pub(crate) fn check_stages(staged: &Staged, schedule: &Schedule) -> Result<(), StagePlaceFault>
    requires staged { IsSoundStaged staged.now }
    requires count { length schedule.now.slots ≡ length (nodes_on staged.now).lowered.nodes }
    requires few { length schedule.now.slots < 2 ^ 32 }
    requires early { (x : ℕ) → (slot_at schedule.now.slots x).cycle ≤ last_cycle }
    requires ends { EndInStages staged.now.stages (path_of staged.now) (nodes_on staged.now) schedule.now }
    ensures staged { OnOk result (AreStaged staged.now.stages (path_of staged.now) (nodes_on staged.now)
        schedule.now) }
    ensures fault { IfErr result (IsOutOfStages staged.now.stages (path_of staged.now) (nodes_on staged.now)
        schedule.now) }
{
    for v in 0..schedule.slots.len() {
        if !is_staged(staged, schedule, v) {
            return Err(StagePlaceFault::Unstaged(v as u32));
        }
    }
    Ok(())
}
