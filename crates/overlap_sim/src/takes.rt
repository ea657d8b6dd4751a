//! The register-file writes of a cycle of the period.

ghost use Rattle.std.specs.Prelude.{◌<◌, length, IfOk};
ghost use Rattle.overlap_plan.specs.IsStagePlan.{plan_of};
ghost use Rattle.overlap_sim.specs.Private.Staged.{IsStageReady, HasTakes, IsTakeFor, IsIssuer};

use crate::cycles::shift_of;
use crate::guarded::Staged;
use crate::issues::Issuer;
use datapath::Datapath;
use lists::List;
use micro_image::Take;
use microcode_asm::{bus_to, copy_in};
use overlap_plan::{GuardFault, StagePlan};
use std::alloc::Global;

/// The take of lifetime k in machine sample m.
fn take(plan: &StagePlan, datapath: &Datapath, k: usize, m: usize) -> Staged<Take>
    requires ready { IsStageReady datapath.now plan.now }
    requires there { k < length plan.now.arcs }
    ensures { IsTakeFor datapath.now (plan_of plan.now) k m result }
{
    let stage = shift_of(plan, datapath, k);
    let arc = plan.arcs[k];
    let slot = &plan.schedule.slots[arc.node as usize];
    let part = Take {
        port: arc.port,
        bus: bus_to(slot.transfers.as_slice(), arc.port),
        reg: plan.registers.regs[k][copy_in(arc.copies, m)],
    };
    Staged { part, stage }
}

/// The register-file writes of cycle c of machine sample m.
pub(crate) fn takes(
    alloc: Global,
    issuer: &Issuer,
    m: usize,
    c: usize,
) -> Result<List<Staged<Take>>, GuardFault>
    requires issuer { IsIssuer issuer.now }
    requires sample { m < issuer.now.plan.now.unroll }
    requires cycle { c < issuer.now.datapath.now.period }
    ensures { IfOk result (HasTakes issuer.now.datapath.now (plan_of issuer.now.plan.now) m c) }
{
    let mut takes = List::new(alloc);
    let mut k = issuer.written.first[c];
    while k < issuer.plan.arcs.len() {
        takes.push(take(issuer.plan, issuer.datapath, k, m))?;
        k = issuer.written.next[k];
    }
    Ok(takes)
}
