//! The cycles of a plan of several stages, around the period.

ghost use Rattle.std.specs.Prelude.{◌≡◌, ◌+◌, ◌-◌, ◌/◌, ◌%◌, ◌<◌, length, IfOk};
ghost use Rattle.plan_soundness.specs.Parts.{nodes_of, cycle_at, ends_at};
ghost use Rattle.plan_soundness.specs.Overlap.{shift_of as shift_in};
ghost use Rattle.microcode_asm.specs.Order.{IsUnitOrder};
ghost use Rattle.overlap_plan.specs.IsStagePlan.{plan_of};
ghost use Rattle.overlap_sim.specs.GuardedOf.{stage_of as stage_in};
ghost use Rattle.overlap_sim.specs.Private.Staged.{IsStageReady, AreIssued, AreEnded};

use bucket_sort::Buckets;
use datapath::Datapath;
use lists::List;
use overlap_plan::{GuardFault, StagePlan};
use std::alloc::Global;

/// The cycle of the period at a cycle of a sample.
fn around(cycle: usize, period: u16) -> usize
    requires { 0 < period }
    ensures { result ≡ cycle % period }
{
    cycle % usize::from(period)
}

/// The stage of a cycle of a sample.
fn stage(cycle: usize, period: u16) -> u8
    requires some { 0 < period }
    requires few { cycle / period < 256 }
    ensures { result ≡ cycle / period }
{
    (cycle / usize::from(period)) as u8
}

/// The cycle of its sample in which a node is issued.
fn cycle_of(plan: &StagePlan, datapath: &Datapath, v: usize) -> u16
    requires ready { IsStageReady datapath.now plan.now }
    requires node { v < length (nodes_of (plan_of plan.now)) }
    ensures { result ≡ cycle_at (plan_of plan.now) v }
{
    plan.schedule.slots[v].cycle
}

/// The cycle in which the result of an operation is there that is issued in this cycle and takes so long.
fn end_at(cycle: u16, latency: u8) -> usize
    requires { 0 < latency }
    ensures { result ≡ cycle + (latency - 1) }
{
    usize::from(cycle) + usize::from(latency - 1)
}

/// The cycle of its sample in which the result of a node is there.
fn end_of(plan: &StagePlan, datapath: &Datapath, v: usize) -> usize
    requires ready { IsStageReady datapath.now plan.now }
    requires node { v < length (nodes_of (plan_of plan.now)) }
    ensures { result ≡ ends_at datapath.now (plan_of plan.now) v }
{
    let unit = plan.assigned.units[v];
    let latency = datapath.units[usize::from(unit)].latency;
    end_at(cycle_of(plan, datapath, v), latency)
}

/// The stage in which a node is issued.
pub(crate) fn stage_of(plan: &StagePlan, datapath: &Datapath, v: usize) -> u8
    requires ready { IsStageReady datapath.now plan.now }
    requires node { v < length (nodes_of (plan_of plan.now)) }
    ensures { result ≡ stage_in datapath.now (cycle_at (plan_of plan.now) v) }
{
    stage(usize::from(cycle_of(plan, datapath, v)), datapath.period)
}

/// The stage in which the result of a node is there.
pub(crate) fn end_stage_of(plan: &StagePlan, datapath: &Datapath, v: usize) -> u8
    requires ready { IsStageReady datapath.now plan.now }
    requires node { v < length (nodes_of (plan_of plan.now)) }
    ensures { result ≡ stage_in datapath.now (ends_at datapath.now (plan_of plan.now) v) }
{
    stage(end_of(plan, datapath, v), datapath.period)
}

/// The stage in which the words of lifetime k are written.
pub(crate) fn shift_of(plan: &StagePlan, datapath: &Datapath, k: usize) -> u8
    requires ready { IsStageReady datapath.now plan.now }
    requires there { k < length plan.now.arcs }
    ensures { result ≡ shift_in datapath.now (plan_of plan.now) k }
{
    end_stage_of(plan, datapath, plan.arcs[k].node as usize)
}

/// The nodes, by their places in order, by cycle of the period.
#[derive(Drop)]
pub(crate) struct NodeCycles {
    /// By the cycle in which they are issued.
    pub issued: Buckets,
    /// By the cycle in which their result is there.
    pub ended: Buckets,
}

/// Deals the nodes to their cycles.
pub(crate) fn node_cycles(
    alloc: Global,
    plan: &StagePlan,
    datapath: &Datapath,
    order: &List<usize>,
) -> Result<NodeCycles, GuardFault>
    requires ready { IsStageReady datapath.now plan.now }
    requires order { IsUnitOrder plan.now.assigned order.now }
    ensures issued { IfOk result (λ cycles. AreIssued datapath.now (plan_of plan.now) order.now cycles.issued) }
    ensures ended { IfOk result (λ cycles. AreEnded datapath.now (plan_of plan.now) order.now cycles.ended) }
{
    let period = datapath.period;
    let mut issued = Buckets::empty(alloc, usize::from(period), order.len())?;
    let mut ended = Buckets::empty(alloc, usize::from(period), order.len())?;
    for i in (0..order.len()).rev() {
        let v = order[i];
        let cycle = usize::from(cycle_of(plan, datapath, v));
        issued.put_first(around(cycle, period), i);
        ended.put_first(around(end_of(plan, datapath, v), period), i);
    }
    Ok(NodeCycles { issued, ended })
}
